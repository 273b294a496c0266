/// Whether a parse keeps what it has found.
#[derive(Clone, Copy, Debug, PartialEq, Eq)]
pub enum Memo {
    On,
    Off,
}

/// What a grammar is wanted for.
#[derive(Clone, Copy)]
pub enum Wanted<'a> {
    /// Of an input, in so many MiB.
    Parse {
        input: &'a str,
        memo: Memo,
        mib: u32,
    },
    Check,
    Cert,
    Verify {
        certificate: &'a str,
    },
    /// Its table file.
    Table,
    /// Whether it leaves no byte out.
    Cover,
    /// An input again, from the leaves of its tree.
    Rebuild {
        input: &'a str,
    },
    /// The tree of an input as a JSON text, in so many MiB.
    Json {
        input: &'a str,
        memo: Memo,
        mib: u32,
    },
    /// The answers of an input that a script edits.
    Edit {
        input: &'a str,
        script: &'a str,
    },
}

/// A command, with the name of its grammar or format.
#[derive(Clone, Copy)]
pub enum Asked<'a> {
    Use {
        grammar: &'a str,
        task: Wanted<'a>,
    },
    Fmt {
        grammar: &'a str,
    },
    /// A built-in grammar on a sample with so many parts.
    Trial {
        kind: &'a str,
        count: u32,
    },
    /// What a path picks of the tree of an input.
    Query {
        grammar: &'a str,
        input: &'a str,
        path: &'a str,
    },
    /// The tree of an input beside its bytes, or what a path picks of it.
    View {
        grammar: &'a str,
        input: &'a str,
        path: Option<&'a str>,
        memo: Memo,
        mib: u32,
    },
    /// An input is parsed by the grammar of a table file.
    Load {
        table: &'a str,
        input: &'a str,
    },
    /// Where and why a grammar is refused, or where an input stopped being what it wants.
    Explain {
        grammar: &'a str,
        input: Option<&'a str>,
        mib: u32,
    },
    /// Which formats have a grammar.
    Formats,
    /// What a command does, or which there are.
    Help {
        command: Option<&'a str>,
    },
    Version,
}
