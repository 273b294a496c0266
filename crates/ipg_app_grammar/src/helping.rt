//! What is said to who asks for help, or which formats there are.
ghost use Rattle.std.specs.Prelude.{◌≡◌, IfOk};
ghost use Rattle.std.specs.Option.{option_map};
ghost use Rattle.ipg_app_grammar.specs.Helped.{formats_said, help_said, version_said};
ghost use Rattle.ipg_app_text.specs.Lines.{said_of};
ghost use Rattle.ipg_app_text.specs.Said.{done};

use ipg_app_help::{built_in, help, version};
use ipg_app_text::said::{Settled, usage};
use ipg_app_text::status::Status;
use std::alloc::{AllocError, Global};

/// What a command does, or which there are; usage where the name is no command's.
pub fn say_help(alloc: Global, command: Option<&str>) -> Result<Settled, AllocError>
    ensures { IfOk result (λ settled. said_of settled ≡ help_said (option_map (λ name. name.now) command.entry)) }
{
    match help(command) {
        Some(text) => told(alloc, text),
        None => usage(alloc),
    }
}

pub fn say_version(alloc: Global) -> Result<Settled, AllocError>
    ensures { IfOk result (λ settled. said_of settled ≡ version_said) }
{
    told(alloc, version())
}

/// The built-in formats, then the list of installed ones.
pub fn say_formats(alloc: Global, installed: &[u8]) -> Result<Settled, AllocError>
    ensures { IfOk result (λ settled. said_of settled ≡ formats_said installed.now) }
{
    let mut text = Vec::from_slice(alloc, built_in())?;
    text.extend_from_slice(installed)?;
    Ok(Settled {
        status: Status::Done,
        text,
    })
}

fn told(alloc: Global, text: &[u8]) -> Result<Settled, AllocError>
    ensures { IfOk result (λ settled. said_of settled ≡ done text.now) }
{
    let text = Vec::from_slice(alloc, text)?;
    Ok(Settled {
        status: Status::Done,
        text,
    })
}
