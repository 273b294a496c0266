//! The path of a text.
ghost use Rattle.std.specs.Prelude.{◌≡◌, Ok, Err, IfOk};
ghost use Rattle.ipg_app_text.specs.Early.{AnswersOrSays};
ghost use Rattle.ipg_app_text.specs.Lines.{said_of};
ghost use Rattle.ipg_app_tree.specs.Path.{ReadsPath, query_syntax};

use ipg_app_text::early::Early;
use ipg_app_text::said::{Settled, line};
use ipg_app_text::status::Status;
use ipg_query_path::{Query, read};
use ipg_reader::Fault;
use itoa::Buffer;
use std::alloc::{AllocError, Global};

/// The line that refuses a text that is no path, Q1.
fn syntax(alloc: Global, at: u64) -> Result<Settled, AllocError>
    ensures { IfOk result (λ settled. said_of settled ≡ query_syntax at) }
{
    let mut buffer = Buffer::new();
    let mut told = Vec::from_slice(alloc, b"refused Q1 QuerySyntax ")?;
    told.extend_from_slice(buffer.format(at).as_bytes())?;
    line(alloc, Status::Refused, &told)
}

/// The path that a text is, or what is said of one that is none.
pub fn path_in(alloc: Global, text: &str) -> Result<Query, Early<Settled>>
    ensures { AnswersOrSays result (λ query. ReadsPath text.now (Ok query)) (λ settled. ReadsPath text.now (Err (said_of settled))) }
{
    match read(alloc, text.as_bytes()) {
        Ok(query) => Ok(query),
        Err(Fault::At(at)) => Err(Early::Said(syntax(alloc, at)?)),
        Err(Fault::Memory) => Err(Early::Memory),
    }
}
