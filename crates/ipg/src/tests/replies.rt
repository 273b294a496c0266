//! Replies over files and a sink in memory.

use crate::tests::rows::{
    CIRCULAR, EDITS, EDITS_TEXT, FIRST_WRITES, LOOP, READ_FAULT, ROW, ROW_TEXT, ROW_TREE, Reply,
    TREE, UNKNOWN,
};
use ipg_app::run::run;
use ipg_app::sure::run_surely;
use ipg_app_text::status::Status;
use ipg_outside::{MemFiles, MemSink, SureFiles, SureSink};
use std::alloc::{AllocError, Global};

/// A run of the words over the files `g`, `f` and `s`.
#[derive(Clone, Copy)]
struct Try<'a> {
    words: &'a [&'a str],
    grammar: &'a [u8],
    input: Option<&'a [u8]>,
    script: Option<&'a [u8]>,
    fail_reads: &'a [u64],
    room: u64,
    fail_writes: &'a [u64],
}

const PARSE: &[&str] = &["parse", "g", "f"];

const FMT: &[&str] = &["fmt", "g"];

const EDIT: &[&str] = &["edit", "g", "f", "s"];

const VERIFY: &[&str] = &["verify", "g", "f"];

fn parse_of<'a>(grammar: &'a [u8], input: &'a [u8]) -> Try<'a> {
    Try {
        words: PARSE,
        grammar,
        input: Some(input),
        script: None,
        fail_reads: &[],
        room: 4096,
        fail_writes: &[],
    }
}

fn fmt_of(grammar: &[u8]) -> Try<'_> {
    Try {
        words: FMT,
        input: None,
        ..parse_of(grammar, b"")
    }
}

fn verify_of<'a>(grammar: &'a [u8], certificate: &'a [u8]) -> Try<'a> {
    Try {
        words: VERIFY,
        ..parse_of(grammar, certificate)
    }
}

fn edit_of(script: &[u8]) -> Try<'_> {
    Try {
        words: EDIT,
        script: Some(script),
        ..parse_of(ROW, b"ab")
    }
}

fn answer(alloc: Global, case: &Try<'_>) -> Result<(Status, MemSink), AllocError> {
    let mut files = MemFiles::new(alloc, case.fail_reads)?;
    files.add("g", case.grammar)?;
    if let Some(input) = case.input {
        files.add("f", input)?;
    }
    if let Some(script) = case.script {
        files.add("s", script)?;
    }
    let mut out = MemSink::new(alloc, case.room, case.fail_writes)?;
    let mut words = Vec::new(alloc);
    for word in case.words {
        words.push(String::from_str(alloc, word)?)?;
    }
    let status = run(alloc, &words, &mut files, &mut out);
    Ok((status, out))
}

#[test]
fn runs_surely(rt: HostRuntime) -> anyhow::Result<()> {
    let alloc = rt.alloc();
    let mut files = SureFiles::new(alloc);
    files.add("g", ROW)?;
    files.add("f", b"ab")?;
    for (input, want) in [("f", Status::Done), ("absent", Status::NoParse)] {
        let mut words = Vec::new(alloc);
        for word in ["parse", "g", input] {
            words.push(String::from_str(alloc, word)?)?;
        }
        let mut out = SureSink::new();
        assert_eq!(rt; run_surely(alloc, &words, &mut files, &mut out), want);
    }
    Ok(())
}

/// The reading of a number fails: it is told where its turn comes, and no earlier.
#[test]
fn answers_failing_reads(rt: HostRuntime) -> anyhow::Result<()> {
    let row = parse_of(ROW, b"ab");
    let syntax: Reply<'_> = (Status::Refused, b"refused G4 Syntax 1\n");
    let ring = b"S -> A[B.end,EOI] B[A.end,EOI] ; A -> U8 ; B -> U8 ;";
    let cases: [(Try<'_>, &[u64], Reply<'_>); 14] = [
        (row, &[0], READ_FAULT),
        (row, &[1], READ_FAULT),
        (row, &[2], TREE),
        (parse_of(b"S", b"ab"), &[1], syntax),
        (parse_of(b"S -> T ;", b"ab"), &[1], UNKNOWN),
        (parse_of(ring, b"ab"), &[1], CIRCULAR),
        (parse_of(b"S -> S[0, EOI] ;", b"ab"), &[1], LOOP),
        (verify_of(ROW, b""), &[1], READ_FAULT),
        (verify_of(b"S -> T ;", b""), &[1], UNKNOWN),
        (fmt_of(ROW), &[0], READ_FAULT),
        (fmt_of(ROW), &[1], (Status::Done, ROW_TEXT)),
        (edit_of(b"0  1 -"), &[1], READ_FAULT),
        (edit_of(b"0  1 -"), &[2], READ_FAULT),
        (edit_of(EDITS), &[3], (Status::Done, EDITS_TEXT)),
    ];
    for (case, fail_reads, want) in cases {
        let failing = Try { fail_reads, ..case };
        let (status, out) = answer(rt.alloc(), &failing)?;
        assert_eq!(rt; (status, out.bytes()), want);
    }
    Ok(())
}

/// The room ends at each byte of a text.
#[test]
fn answers_narrow_rooms(rt: HostRuntime) -> anyhow::Result<()> {
    let absent = Try {
        input: None,
        ..parse_of(ROW, b"")
    };
    let texts: [(Try<'_>, &[u8]); 8] = [
        (parse_of(ROW, b"ab"), ROW_TREE),
        (parse_of(ROW, b""), b"no parse\n"),
        (parse_of(b"S", b""), b"refused G4 Syntax 1\n"),
        (absent, b"read fault\n"),
        (fmt_of(ROW), ROW_TEXT),
        (edit_of(EDITS), EDITS_TEXT),
        (edit_of(b"0 2 -\n1 1 -\n"), b"refused E1 OutOfInput 1\n"),
        (edit_of(b"0  1 -"), b"refused E2 EditText 2\n"),
    ];
    for (case, text) in texts {
        for room in 0..text.len() {
            let narrow = Try {
                room: room as u64,
                ..case
            };
            let (status, out) = answer(rt.alloc(), &narrow)?;
            assert_eq!(rt; (status, out.bytes()), (Status::WriteFault, &text[..room]));
        }
    }
    Ok(())
}

/// A write of a tree fails, after all of it; what went out is a prefix.
#[test]
fn answers_failing_writes_of_a_tree(rt: HostRuntime) -> anyhow::Result<()> {
    for fail_writes in FIRST_WRITES {
        let failing = Try {
            fail_writes,
            ..parse_of(ROW, b"ab")
        };
        let (status, out) = answer(rt.alloc(), &failing)?;
        assert_eq!(rt; status, Status::WriteFault);
        assert!(rt; ROW_TREE.starts_with(out.bytes()), "{fail_writes:?}");
    }
    Ok(())
}

/// The write of a number fails, after all of it.
#[test]
fn answers_failing_writes(rt: HostRuntime) -> anyhow::Result<()> {
    let cases: [(Try<'_>, &[u64], Reply<'_>); 2] = [
        (fmt_of(ROW), &[0], (Status::WriteFault, ROW_TEXT)),
        (fmt_of(ROW), &[1], (Status::Done, ROW_TEXT)),
    ];
    for (case, fail_writes, want) in cases {
        let failing = Try {
            fail_writes,
            ..case
        };
        let (status, out) = answer(rt.alloc(), &failing)?;
        assert_eq!(rt; (status, out.bytes()), want);
    }
    Ok(())
}
