//! The edits of a script.
ghost use Rattle.std.specs.Prelude.{◌≡◌, Ok, Err, IfOk};
ghost use Rattle.ipg_app_text.specs.Early.{AnswersOrSays};
ghost use Rattle.ipg_app_text.specs.Lines.{said_of};
ghost use Rattle.ipg_app_tree.specs.Editing.{ReadsScript, edit_text};

use ipg_app_text::early::Early;
use ipg_app_text::said::{Settled, line};
use ipg_app_text::status::Status;
use ipg_edit_script::{Edit, read};
use ipg_num::List;
use ipg_reader::Fault;
use itoa::Buffer;
use std::alloc::{AllocError, Global};

/// The line that refuses a text that is no script, E2.
fn no_script(alloc: Global, at: u64) -> Result<Settled, AllocError>
    ensures { IfOk result (λ settled. said_of settled ≡ edit_text at) }
{
    let mut buffer = Buffer::new();
    let mut told = Vec::from_slice(alloc, b"refused E2 EditText ")?;
    told.extend_from_slice(buffer.format(at).as_bytes())?;
    line(alloc, Status::Refused, &told)
}

/// The edits that a text is a script of, or what is said of one that is none.
pub fn script_in(alloc: Global, text: &[u8]) -> Result<List<Edit>, Early<Settled>>
    ensures { AnswersOrSays result (λ edits. ReadsScript text.now (Ok edits)) (λ settled. ReadsScript text.now (Err (said_of settled))) }
{
    match read(alloc, text) {
        Ok(edits) => Ok(edits),
        Err(Fault::At(at)) => Err(Early::Said(no_script(alloc, at)?)),
        Err(Fault::Memory) => Err(Early::Memory),
    }
}
