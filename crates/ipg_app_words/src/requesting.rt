//! What the words ask for.
ghost use Rattle.std.specs.Prelude.{◌≡◌, IfOk, Some, map, option_map};
ghost use Rattle.std.specs.String.{string_bytes};
ghost use Rattle.clap.specs.Words.{rows_of, found_of};
ghost use Rattle.ipg_app_words.specs.Commands as command;
ghost use Rattle.ipg_app_words.specs.Request as spec;
ghost use Rattle.ipg_app_words.specs.Request.{request_of, request_by, edit_task, json_task, parse_task, rebuild_task, verify_task};
ghost use Rattle.ipg_app_words.specs.Seen.{seen, task_seen};

use crate::asking::{Asked, Wanted};
use crate::commands::{
    edit, explain, formats, help, json, load, on_grammar, parse, query, rebuild, trial, verify,
    version, view,
};
use crate::matching::{taken, value};
use crate::settings::{count, memo, mib};
use clap::ArgMatches;
use std::alloc::{AllocError, Global};

/// What the words ask for, the command's name first; nothing where they are no command's.
pub fn request<'a>(alloc: Global, words: &'a [String]) -> Result<Option<Asked<'a>>, AllocError>
    ensures { IfOk result (λ asked. option_map seen asked ≡ request_of (map string_bytes words.now)) }
{
    match words.first() {
        Some(name) => request_by(alloc, name.as_str(), words),
        None => Ok(None),
    }
}

fn request_by<'a>(
    alloc: Global,
    name: &str,
    words: &'a [String],
) -> Result<Option<Asked<'a>>, AllocError>
    ensures { IfOk result (λ asked. option_map seen asked ≡ request_by name.now (map string_bytes words.now)) }
{
    match name {
        "parse" => parse_request(alloc, words),
        "check" => grammar_request(alloc, "check", Wanted::Check, words),
        "cert" => grammar_request(alloc, "cert", Wanted::Cert, words),
        "verify" => verify_request(alloc, words),
        "fmt" => fmt_request(alloc, words),
        "trial" => trial_request(alloc, words),
        "query" => query_request(alloc, words),
        "table" => grammar_request(alloc, "table", Wanted::Table, words),
        "load" => load_request(alloc, words),
        "cover" => grammar_request(alloc, "cover", Wanted::Cover, words),
        "rebuild" => rebuild_request(alloc, words),
        "edit" => edit_request(alloc, words),
        "json" => json_request(alloc, words),
        "view" => view_request(alloc, words),
        "explain" => explain_request(alloc, words),
        "formats" => formats_request(alloc, words),
        "help" => help_request(alloc, words),
        "version" => version_request(alloc, words),
        _ => Ok(None),
    }
}

fn parse_request<'a>(alloc: Global, words: &'a [String]) -> Result<Option<Asked<'a>>, AllocError>
    ensures { IfOk result (λ asked. option_map seen asked ≡ spec.use_words command.parse parse_task (map string_bytes words.now)) }
{
    match taken(parse(alloc)?, words)? {
        Some(matches) => Ok(use_of(&matches, parse_wanted(&matches))),
        None => Ok(None),
    }
}

fn verify_request<'a>(alloc: Global, words: &'a [String]) -> Result<Option<Asked<'a>>, AllocError>
    ensures { IfOk result (λ asked. option_map seen asked ≡ spec.use_words command.verify verify_task (map string_bytes words.now)) }
{
    match taken(verify(alloc)?, words)? {
        Some(matches) => Ok(use_of(&matches, verify_wanted(&matches))),
        None => Ok(None),
    }
}

fn rebuild_request<'a>(alloc: Global, words: &'a [String]) -> Result<Option<Asked<'a>>, AllocError>
    ensures { IfOk result (λ asked. option_map seen asked ≡ spec.use_words command.rebuild rebuild_task (map string_bytes words.now)) }
{
    match taken(rebuild(alloc)?, words)? {
        Some(matches) => Ok(use_of(&matches, rebuild_wanted(&matches))),
        None => Ok(None),
    }
}

fn json_request<'a>(alloc: Global, words: &'a [String]) -> Result<Option<Asked<'a>>, AllocError>
    ensures { IfOk result (λ asked. option_map seen asked ≡ spec.use_words command.json json_task (map string_bytes words.now)) }
{
    match taken(json(alloc)?, words)? {
        Some(matches) => Ok(use_of(&matches, json_wanted(&matches))),
        None => Ok(None),
    }
}

fn view_request<'a>(alloc: Global, words: &'a [String]) -> Result<Option<Asked<'a>>, AllocError>
    ensures { IfOk result (λ asked. option_map seen asked ≡ spec.view_words (map string_bytes words.now)) }
{
    match taken(view(alloc)?, words)? {
        Some(matches) => Ok(view_of(&matches)),
        None => Ok(None),
    }
}

fn edit_request<'a>(alloc: Global, words: &'a [String]) -> Result<Option<Asked<'a>>, AllocError>
    ensures { IfOk result (λ asked. option_map seen asked ≡ spec.use_words command.edit edit_task (map string_bytes words.now)) }
{
    match taken(edit(alloc)?, words)? {
        Some(matches) => Ok(use_of(&matches, edit_wanted(&matches))),
        None => Ok(None),
    }
}

/// A command that takes a grammar alone.
fn grammar_request<'a>(
    alloc: Global,
    name: &'a str,
    task: Wanted<'a>,
    words: &'a [String],
) -> Result<Option<Asked<'a>>, AllocError>
    ensures { IfOk result (λ asked. option_map seen asked ≡ spec.use_words (command.on_grammar name.now) (λ rows. Some (task_seen task.entry))
        (map string_bytes words.now)) }
{
    match taken(on_grammar(alloc, name)?, words)? {
        Some(matches) => Ok(use_of(&matches, Some(task))),
        None => Ok(None),
    }
}

fn fmt_request<'a>(alloc: Global, words: &'a [String]) -> Result<Option<Asked<'a>>, AllocError>
    ensures { IfOk result (λ asked. option_map seen asked ≡ spec.fmt_words (map string_bytes words.now)) }
{
    match taken(on_grammar(alloc, "fmt")?, words)? {
        Some(matches) => Ok(fmt_of(&matches)),
        None => Ok(None),
    }
}

fn explain_request<'a>(alloc: Global, words: &'a [String]) -> Result<Option<Asked<'a>>, AllocError>
    ensures { IfOk result (λ asked. option_map seen asked ≡ spec.explain_words (map string_bytes words.now)) }
{
    match taken(explain(alloc)?, words)? {
        Some(matches) => Ok(explain_of(&matches)),
        None => Ok(None),
    }
}

fn formats_request<'a>(alloc: Global, words: &'a [String]) -> Result<Option<Asked<'a>>, AllocError>
    ensures { IfOk result (λ asked. option_map seen asked ≡ spec.formats_words (map string_bytes words.now)) }
{
    match taken(formats(alloc), words)? {
        Some(_) => Ok(Some(Asked::Formats)),
        None => Ok(None),
    }
}

fn help_request<'a>(alloc: Global, words: &'a [String]) -> Result<Option<Asked<'a>>, AllocError>
    ensures { IfOk result (λ asked. option_map seen asked ≡ spec.help_words (map string_bytes words.now)) }
{
    match taken(help(alloc)?, words)? {
        Some(matches) => Ok(Some(help_of(&matches))),
        None => Ok(None),
    }
}

fn version_request<'a>(alloc: Global, words: &'a [String]) -> Result<Option<Asked<'a>>, AllocError>
    ensures { IfOk result (λ asked. option_map seen asked ≡ spec.version_words (map string_bytes words.now)) }
{
    match taken(version(alloc), words)? {
        Some(_) => Ok(Some(Asked::Version)),
        None => Ok(None),
    }
}

fn trial_request<'a>(alloc: Global, words: &'a [String]) -> Result<Option<Asked<'a>>, AllocError>
    ensures { IfOk result (λ asked. option_map seen asked ≡ spec.trial_words (map string_bytes words.now)) }
{
    match taken(trial(alloc)?, words)? {
        Some(matches) => Ok(trial_of(&matches)),
        None => Ok(None),
    }
}

fn query_request<'a>(alloc: Global, words: &'a [String]) -> Result<Option<Asked<'a>>, AllocError>
    ensures { IfOk result (λ asked. option_map seen asked ≡ spec.query_words (map string_bytes words.now)) }
{
    match taken(query(alloc)?, words)? {
        Some(matches) => Ok(query_of(&matches)),
        None => Ok(None),
    }
}

fn load_request<'a>(alloc: Global, words: &'a [String]) -> Result<Option<Asked<'a>>, AllocError>
    ensures { IfOk result (λ asked. option_map seen asked ≡ spec.load_words (map string_bytes words.now)) }
{
    match taken(load(alloc)?, words)? {
        Some(matches) => Ok(load_of(&matches)),
        None => Ok(None),
    }
}

fn use_of<'a>(matches: &ArgMatches<'a>, task: Option<Wanted<'a>>) -> Option<Asked<'a>>
    ensures { option_map seen result ≡ spec.use_by (rows_of (found_of matches.now)) (option_map task_seen task.entry) }
{
    let grammar = value(matches, "G")?;
    let task = task?;
    Some(Asked::Use { grammar, task })
}

fn fmt_of<'a>(matches: &ArgMatches<'a>) -> Option<Asked<'a>>
    ensures { option_map seen result ≡ spec.fmt_by (rows_of (found_of matches.now)) }
{
    let grammar = value(matches, "G")?;
    Some(Asked::Fmt { grammar })
}

fn explain_of<'a>(matches: &ArgMatches<'a>) -> Option<Asked<'a>>
    ensures { option_map seen result ≡ spec.explain_by (rows_of (found_of matches.now)) }
{
    Some(Asked::Explain {
        grammar: value(matches, "G")?,
        input: value(matches, "FILE"),
        mib: mib(value(matches, "arena"))?,
    })
}

fn help_of<'a>(matches: &ArgMatches<'a>) -> Asked<'a>
    ensures { Some (seen result) ≡ spec.help_by (rows_of (found_of matches.now)) }
{
    Asked::Help {
        command: value(matches, "COMMAND"),
    }
}

fn trial_of<'a>(matches: &ArgMatches<'a>) -> Option<Asked<'a>>
    ensures { option_map seen result ≡ spec.trial_by (rows_of (found_of matches.now)) }
{
    let kind = value(matches, "KIND")?;
    let count = count(value(matches, "N")?)?;
    Some(Asked::Trial { kind, count })
}

fn query_of<'a>(matches: &ArgMatches<'a>) -> Option<Asked<'a>>
    ensures { option_map seen result ≡ spec.query_by (rows_of (found_of matches.now)) }
{
    Some(Asked::Query {
        grammar: value(matches, "G")?,
        input: value(matches, "FILE")?,
        path: value(matches, "PATH")?,
    })
}

fn view_of<'a>(matches: &ArgMatches<'a>) -> Option<Asked<'a>>
    ensures { option_map seen result ≡ spec.view_by (rows_of (found_of matches.now)) }
{
    Some(Asked::View {
        grammar: value(matches, "G")?,
        input: value(matches, "FILE")?,
        path: value(matches, "PATH"),
        memo: memo(value(matches, "memo"))?,
        mib: mib(value(matches, "arena"))?,
    })
}

fn load_of<'a>(matches: &ArgMatches<'a>) -> Option<Asked<'a>>
    ensures { option_map seen result ≡ spec.load_by (rows_of (found_of matches.now)) }
{
    Some(Asked::Load {
        table: value(matches, "T")?,
        input: value(matches, "FILE")?,
    })
}

fn parse_wanted<'a>(matches: &ArgMatches<'a>) -> Option<Wanted<'a>>
    ensures { option_map task_seen result ≡ parse_task (rows_of (found_of matches.now)) }
{
    let input = value(matches, "FILE")?;
    let memo = memo(value(matches, "memo"))?;
    let mib = mib(value(matches, "arena"))?;
    Some(Wanted::Parse { input, memo, mib })
}

fn rebuild_wanted<'a>(matches: &ArgMatches<'a>) -> Option<Wanted<'a>>
    ensures { option_map task_seen result ≡ rebuild_task (rows_of (found_of matches.now)) }
{
    Some(Wanted::Rebuild {
        input: value(matches, "FILE")?,
    })
}

fn json_wanted<'a>(matches: &ArgMatches<'a>) -> Option<Wanted<'a>>
    ensures { option_map task_seen result ≡ json_task (rows_of (found_of matches.now)) }
{
    Some(Wanted::Json {
        input: value(matches, "FILE")?,
        memo: memo(value(matches, "memo"))?,
        mib: mib(value(matches, "arena"))?,
    })
}

fn edit_wanted<'a>(matches: &ArgMatches<'a>) -> Option<Wanted<'a>>
    ensures { option_map task_seen result ≡ edit_task (rows_of (found_of matches.now)) }
{
    Some(Wanted::Edit {
        input: value(matches, "FILE")?,
        script: value(matches, "SCRIPT")?,
    })
}

fn verify_wanted<'a>(matches: &ArgMatches<'a>) -> Option<Wanted<'a>>
    ensures { option_map task_seen result ≡ verify_task (rows_of (found_of matches.now)) }
{
    let certificate = value(matches, "CERT")?;
    Some(Wanted::Verify { certificate })
}
