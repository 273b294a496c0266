//! A run over files and a sink that never fail.
ghost use Rattle.std.specs.Prelude.{map};
ghost use Rattle.std.specs.String.{string_bytes};
ghost use Rattle.ipg_outside.specs.Files.{holds};
ghost use Rattle.ipg_outside.specs.Shelf.{bytes_in};
ghost use Rattle.ipg_app.specs.Run.{Surely};

use crate::run::run;
use ipg_app_text::status::Status;
use ipg_outside::{SureFiles, SureSink};
use std::alloc::Global;

/// Answers the words: with the reply's status, or memory was wanting.
pub fn run_surely(
    alloc: Global,
    words: &[String],
    files: &mut SureFiles,
    out: &mut SureSink,
) -> Status
    ensures { Surely (λ name. holds (bytes_in name files.old)) (map string_bytes words.now) result }
{
    run(alloc, words, files, out)
}
