//! The whole run of the program, over any files and any output.
ghost use Rattle.std.specs.Prelude.{◌≡◌, ℕ, List, map};
ghost use Rattle.std.specs.String.{string_bytes};
ghost use Rattle.ipg_app.specs.Run.{Runs, RepliesWithoutFault};

use crate::reply::put_reply;
use crate::settle::settle;
use ipg_app_text::status::Status;
use ipg_outside::{Files, Sink};
use std::alloc::Global;

/// Answers the words. Nothing is written before all is settled.
pub fn run<F: Files, S: Sink>(alloc: Global, words: &[String], files: &mut F, out: &mut S) -> Status
    ensures runs { Runs
        (record { told = F.told files.old; read_faults = F.faults files.old; output = S.output out.old; write_faults = S.faults out.old })
        (record { told = F.told files.new; read_faults = F.faults files.new; output = S.output out.new; write_faults = S.faults out.new })
        (map string_bytes words.now) result }
    ensures replies { RepliesWithoutFault
        (record { told = F.told files.old; read_faults = F.faults files.old; output = S.output out.old; write_faults = S.faults out.old })
        (record { told = F.told files.new; read_faults = F.faults files.new; output = S.output out.new; write_faults = S.faults out.new })
        (map string_bytes words.now) result }
    ensures told { (n : List ℕ) → F.told files.new n ≡ F.told files.old n }
{
    match settle(alloc, words, files) {
        Ok(reply) => put_reply(alloc, &reply, out),
        Err(_) => Status::Memory,
    }
}
