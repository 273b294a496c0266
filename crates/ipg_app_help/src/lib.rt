//! What `help` and `version` write, and what `formats` says of built-in grammars.
#![tactic(auto)]

mod texts;
mod topic;

ghost use Rattle.std.specs.Prelude.{◌≡◌};
ghost use Rattle.std.specs.Option.{option_map};
ghost use Rattle.ipg_app_help.specs.Help as spec;
ghost use Rattle.ipg_app_help.specs.Help.{topic_by, topic_of, text_of, help_of, built_in_text, version_text};

pub use topic::Topic;

/// The topic of a command's name.
fn topic_by(name: &str) -> Option<Topic>
    ensures { result ≡ topic_by name.now }
{
    match name {
        "parse" => Some(Topic::Parse),
        "view" => Some(Topic::View),
        "json" => Some(Topic::Json),
        "query" => Some(Topic::Query),
        "check" => Some(Topic::Check),
        "explain" => Some(Topic::Explain),
        "fmt" => Some(Topic::Fmt),
        "cert" => Some(Topic::Cert),
        "verify" => Some(Topic::Verify),
        "table" => Some(Topic::Table),
        "load" => Some(Topic::Load),
        "cover" => Some(Topic::Cover),
        "rebuild" => Some(Topic::Rebuild),
        "edit" => Some(Topic::Edit),
        "trial" => Some(Topic::Trial),
        "formats" => Some(Topic::Formats),
        "help" => Some(Topic::Help),
        "version" => Some(Topic::Version),
        _ => None,
    }
}

/// The list of commands, where none is named.
fn topic_of(name: Option<&str>) -> Option<Topic>
    ensures { result ≡ topic_of (option_map (λ text. text.now) name.entry) }
{
    match name {
        None => Some(Topic::Commands),
        Some(name) => topic_by(name),
    }
}

/// The text of a topic: plain ASCII, lines that each end in a line feed.
fn text(topic: Topic) -> &'static [u8]
    ensures { result.now ≡ text_of topic }
{
    match topic {
        Topic::Commands => texts::COMMANDS,
        Topic::Parse => texts::PARSE,
        Topic::View => texts::VIEW,
        Topic::Json => texts::JSON,
        Topic::Query => texts::QUERY,
        Topic::Check => texts::CHECK,
        Topic::Explain => texts::EXPLAIN,
        Topic::Fmt => texts::FMT,
        Topic::Cert => texts::CERT,
        Topic::Verify => texts::VERIFY,
        Topic::Table => texts::TABLE,
        Topic::Load => texts::LOAD,
        Topic::Cover => texts::COVER,
        Topic::Rebuild => texts::REBUILD,
        Topic::Edit => texts::EDIT,
        Topic::Trial => texts::TRIAL,
        Topic::Formats => texts::FORMATS,
        Topic::Help => texts::HELP,
        Topic::Version => texts::VERSION,
    }
}

/// What a command does, its words, and an example; the list of commands where none is named; nothing where the name is no command's.
pub fn help(name: Option<&str>) -> Option<&'static [u8]>
    ensures { option_map (λ text. text.now) result ≡ help_of (option_map (λ text. text.now) name.entry) }
{
    match topic_of(name) {
        Some(topic) => Some(text(topic)),
        None => None,
    }
}

/// The program's version, and the toolchain that it was proved with, a line each.
pub fn version() -> &'static [u8]
    ensures { result.now ≡ version_text }
{
    texts::PROGRAM
}

/// The built-in grammars, a line each.
pub fn built_in() -> &'static [u8]
    ensures { result.now ≡ built_in_text }
{
    texts::BUILT_IN
}
