//! The grammar of a table file.
ghost use Rattle.std.specs.Prelude.{◌≡◌, Some, Ok, Err, IfOk};
ghost use Rattle.ipg_app_text.specs.Early.{AnswersOrSays};
ghost use Rattle.ipg_app_text.specs.Lines.{said_of};
ghost use Rattle.ipg_app_grammar.specs.Tables.{Loads, load_said};

use crate::verifying::bad_proof;
use ipg_app_text::early::Early;
use ipg_app_text::said::{Settled, line};
use ipg_app_text::status::Status;
use ipg_core::accepted::Checked;
use ipg_store::{LoadFault, loaded};
use std::alloc::{AllocError, Global};

/// The grammar that a table file holds, or what is said of a file that holds none.
pub fn held_in(alloc: Global, file: &[u8]) -> Result<Checked, Early<Settled>>
    ensures { AnswersOrSays result (λ g. Loads file.now (Ok g)) (λ settled. Loads file.now (Err (said_of settled))) }
{
    match loaded(alloc, file) {
        Ok(grammar) => Ok(grammar),
        Err(fault) => Err(Early::Said(refused(alloc, fault)?)),
    }
}

fn refused(alloc: Global, fault: LoadFault) -> Result<Settled, AllocError>
    ensures { IfOk result (λ settled. load_said fault ≡ Some (said_of settled)) }
{
    match fault {
        LoadFault::Magic => line(alloc, Status::BadProof, b"refused L1 Magic"),
        LoadFault::Length => line(alloc, Status::BadProof, b"refused L2 Length"),
        LoadFault::Body { at } => bad_proof(alloc, b"refused L3 Body ", at),
        LoadFault::NotGood => line(alloc, Status::BadProof, b"refused L4 NotGood"),
        LoadFault::CertText { at } => bad_proof(alloc, b"refused L5 CertText ", at),
        LoadFault::Proof { at } => bad_proof(alloc, b"refused L6 Proof ", at),
        LoadFault::Memory => Err(AllocError),
    }
}
