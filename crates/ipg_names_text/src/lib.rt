//! Texts as grammars whose names can be resolved.
#![tactic(auto)]

ghost use Rattle.std.specs.Prelude.{◌≡◌, ◌⊎◌, Ok, Err, IfOk, MatchResult};
ghost use Rattle.ipg_ast.specs.Shape.{IsFlat};
ghost use Rattle.ipg_read_syntax.specs.Reading.{read_of};
ghost use Rattle.ipg_names.specs.Readable.{IsReadable};

pub mod laws;

use crate::laws::read_is_readable;
use ipg_ast::Grammar;
use ipg_read::{ReadFault, read};
use ipg_read_canonical_laws::laws::reads_formed;
use ipg_read_syntax::laws::{reads_exactly, refused_exactly};
use std::alloc::Global;

/// What a text reads as, which meets the conditions of `resolve` and of `text_of`; or the first fault of the text, G1 to G5.
pub fn grammar_in(alloc: Global, text: &[u8]) -> Result<Grammar, ReadFault>
    ensures read { MatchResult result (λ g. read_of text.now ≡ Ok g) (λ fault. (fault ≡ ReadFault.Memory) ⊎ (read_of text.now ≡ Err fault)) }
    ensures readable { IfOk result IsReadable }
    ensures flat { IfOk result IsFlat }
{
    reads_exactly();
    refused_exactly();
    reads_formed();
    read_is_readable();
    read(alloc, text)
}
