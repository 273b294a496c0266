//! Where an input stopped being what a grammar wants.
ghost use Rattle.std.specs.Prelude.{◌≡◌, ◌≤◌, ◌^◌, length, IfOk};
ghost use Rattle.ipg_app_explain.specs.Seen.{subject_of};
ghost use Rattle.ipg_app_grammar.specs.Followed as spec;
ghost use Rattle.ipg_app_grammar.specs.Followed.{Follows};
ghost use Rattle.ipg_app_text.specs.Lines.{said_of};

use ipg_app_explain::{Ending, Subject, tell};
use ipg_app_text::room::BYTES_PER_MIB;
use ipg_app_text::said::Settled;
use ipg_app_text::status::Status;
use ipg_core::accepted::Checked;
use ipg_mach_watch::{End, watch};
use ipg_table::tables::compile;
use linked_list_allocator::LocalHeap;
use std::alloc::{AllocError, Global};

fn ending_of(end: End) -> Ending
    ensures { result ≡ spec.ending_of end }
{
    match end {
        End::Tree => Ending::Tree,
        End::NoTree => Ending::NoTree,
        End::Range(call) => Ending::Range(call),
    }
}

/// As `parse` ends.
fn status_of(end: End) -> Status
    ensures { result ≡ spec.status_of end }
{
    match end {
        End::Tree => Status::Done,
        End::NoTree => Status::NoParse,
        End::Range(_) => Status::Range,
    }
}

/// What `explain` says of an input: what it came to, and the furthest failures. It is parsed by the core grammar of the text, with a
/// memo, in a heap of so many MiB.
pub fn follow(
    alloc: Global,
    subject: Subject<'_>,
    core: &Checked,
    mib: u32,
) -> Result<Settled, AllocError>
    requires { length subject.input.now ≤ 2 ^ 30 }
    ensures { IfOk result (λ settled. Follows (subject_of subject.entry) core.now (said_of settled)) }
{
    let tables = compile(alloc, core)?;
    let heap = LocalHeap::new(alloc, mib as usize * BYTES_PER_MIB)?;
    let findings = watch(&heap, &tables, subject.input)?;
    let end = findings.end;
    let told = tell(
        alloc,
        subject,
        core.core().names(),
        ending_of(end),
        &findings.told,
        findings.more,
    )?;
    settled(alloc, status_of(end), told)
}

/// A status and a text.
fn settled(alloc: Global, status: Status, text: Vec<u8>) -> Result<Settled, AllocError>
    ensures { IfOk result (λ settled. said_of settled ≡ record { status = status; text = text.items }) }
{
    Ok(Settled { status, text })
}
