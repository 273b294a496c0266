//! The commands, each a simple command of `clap`.
ghost use Rattle.std.specs.Prelude.{◌≡◌, IfOk, false};
ghost use Rattle.clap.specs.Words.{app_of, rule_of, with_rule};
ghost use Rattle.ipg_app_words.specs.Commands as spec;

use clap::{Arg, Command};
use std::alloc::{AllocError, Global};

/// A word that has to be there.
fn required<'a>(alloc: Global, id: &'a str) -> Arg<'a>
    ensures rule { rule_of result ≡ spec.required id.now }
    ensures local { result.global ≡ false }
{
    Arg::new(alloc, id).required(true)
}

/// `--NAME VALUE` or `--NAME=VALUE`.
fn option<'a>(alloc: Global, name: &'a str) -> Arg<'a>
    ensures rule { rule_of result ≡ spec.option name.now }
    ensures local { result.global ≡ false }
{
    Arg::new(alloc, name).long(name)
}

/// What a parse may use: `--memo on|off`, `--arena MIB`.
fn with_options<'a>(alloc: Global, command: Command<'a>) -> Result<Command<'a>, AllocError>
    ensures { IfOk result (λ made. app_of made ≡ spec.with_options (app_of command.entry)) }
{
    command
        .arg(option(alloc, "memo"))?
        .arg(option(alloc, "arena"))
}

/// A command that takes the name of a grammar.
pub fn on_grammar<'a>(alloc: Global, name: &'a str) -> Result<Command<'a>, AllocError>
    ensures { IfOk result (λ command. app_of command ≡ spec.on_grammar name.now) }
{
    Command::new(alloc, name).arg(required(alloc, "G"))
}

pub fn parse<'a>(alloc: Global) -> Result<Command<'a>, AllocError>
    ensures { IfOk result (λ command. app_of command ≡ spec.parse) }
{
    let command = on_grammar(alloc, "parse")?.arg(required(alloc, "FILE"))?;
    with_options(alloc, command)
}

pub fn query<'a>(alloc: Global) -> Result<Command<'a>, AllocError>
    ensures { IfOk result (λ command. app_of command ≡ spec.query) }
{
    on_grammar(alloc, "query")?
        .arg(required(alloc, "FILE"))?
        .arg(required(alloc, "PATH"))
}

pub fn trial<'a>(alloc: Global) -> Result<Command<'a>, AllocError>
    ensures { IfOk result (λ command. app_of command ≡ spec.trial) }
{
    Command::new(alloc, "trial")
        .arg(required(alloc, "KIND"))?
        .arg(required(alloc, "N"))
}

pub fn load<'a>(alloc: Global) -> Result<Command<'a>, AllocError>
    ensures { IfOk result (λ command. app_of command ≡ spec.load) }
{
    Command::new(alloc, "load")
        .arg(required(alloc, "T"))?
        .arg(required(alloc, "FILE"))
}

pub fn formats<'a>(alloc: Global) -> Command<'a>
    ensures { app_of result ≡ spec.formats }
{
    Command::new(alloc, "formats")
}

/// The name of a command may be there.
pub fn help<'a>(alloc: Global) -> Result<Command<'a>, AllocError>
    ensures { IfOk result (λ command. app_of command ≡ spec.help) }
{
    Command::new(alloc, "help").arg(Arg::new(alloc, "COMMAND"))
}

pub fn version<'a>(alloc: Global) -> Command<'a>
    ensures { app_of result ≡ spec.version }
{
    Command::new(alloc, "version")
}

pub fn rebuild<'a>(alloc: Global) -> Result<Command<'a>, AllocError>
    ensures { IfOk result (λ command. app_of command ≡ spec.rebuild) }
{
    on_grammar(alloc, "rebuild")?.arg(required(alloc, "FILE"))
}

pub fn json<'a>(alloc: Global) -> Result<Command<'a>, AllocError>
    ensures { IfOk result (λ command. app_of command ≡ spec.json) }
{
    let command = on_grammar(alloc, "json")?.arg(required(alloc, "FILE"))?;
    with_options(alloc, command)
}

/// A path may be there.
pub fn view<'a>(alloc: Global) -> Result<Command<'a>, AllocError>
    ensures { IfOk result (λ command. app_of command ≡ spec.view) }
{
    let command = on_grammar(alloc, "view")?
        .arg(required(alloc, "FILE"))?
        .arg(Arg::new(alloc, "PATH"))?;
    with_options(alloc, command)
}

/// A file may be there.
pub fn explain<'a>(alloc: Global) -> Result<Command<'a>, AllocError>
    ensures { IfOk result (λ command. app_of command ≡ spec.explain) }
{
    on_grammar(alloc, "explain")?
        .arg(Arg::new(alloc, "FILE"))?
        .arg(option(alloc, "arena"))
}

pub fn edit<'a>(alloc: Global) -> Result<Command<'a>, AllocError>
    ensures { IfOk result (λ command. app_of command ≡ spec.edit) }
{
    on_grammar(alloc, "edit")?
        .arg(required(alloc, "FILE"))?
        .arg(required(alloc, "SCRIPT"))
}

pub fn verify<'a>(alloc: Global) -> Result<Command<'a>, AllocError>
    ensures { IfOk result (λ command. app_of command ≡ spec.verify) }
{
    on_grammar(alloc, "verify")?.arg(required(alloc, "CERT"))
}
