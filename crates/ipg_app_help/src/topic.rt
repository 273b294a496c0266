/// What there is a text for: each command, and the list of them.
#[derive(Clone, Copy, Debug, PartialEq, Eq)]
pub enum Topic {
    Commands,
    Parse,
    View,
    Json,
    Query,
    Check,
    Explain,
    Fmt,
    Cert,
    Verify,
    Table,
    Load,
    Cover,
    Rebuild,
    Edit,
    Trial,
    Formats,
    Help,
    Version,
}
