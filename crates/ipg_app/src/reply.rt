//! What is to be written: a text, what is shown of the tree of an input, or its answers through edits.
ghost use Rattle.ipg_app.specs.Settled.{MaySay, IsDue};
ghost use Rattle.ipg_app_tree.specs.Out.{Replies};

use ipg_app_text::said::Settled;
use ipg_app_text::status::Status;
use ipg_app_tree::due::Due;
use ipg_app_tree::editing::{DueEdits, edit};
use ipg_app_tree::parse::parse;
use ipg_app_tree::writing::say;
use ipg_outside::Sink;
use std::alloc::Global;

/// What is to be written.
#[derive(Drop)]
pub enum Reply {
    Text(Settled),
    Parse(Due),
    Edits(DueEdits),
}

/// Writes a reply: a text, what is shown of the tree of an input, or its answers through edits.
pub fn put_reply<S: Sink>(alloc: Global, reply: &Reply, out: &mut S) -> Status
    requires { IsDue reply.now }
    ensures { Replies (MaySay reply.now) (S.output out.old) (S.faults out.old) (S.output out.new) (S.faults out.new) result }
{
    match reply {
        Reply::Text(settled) => say(settled, out),
        Reply::Parse(due) => parse(alloc, due, out),
        Reply::Edits(due) => edit(alloc, due, out),
    }
}
