//! The grammar of a text.
ghost use Rattle.std.specs.Prelude.{◌≡◌, Ok, Err, IfOk};
ghost use Rattle.ipg_ast.specs.Shape.{IsFlat};
ghost use Rattle.ipg_names.specs.Readable.{IsReadable};
ghost use Rattle.ipg_app_text.specs.CoreOf.{grammar_in};
ghost use Rattle.ipg_app_text.specs.Early.{AnswersOrSays};
ghost use Rattle.ipg_app_text.specs.Lines.{said_of};

use crate::early::Early;
use crate::refusal::refusal;
use crate::said::Settled;
use ipg_ast::Grammar;
use ipg_names_text as texts;
use ipg_read_tokens::ReadFault;
use std::alloc::Global;

/// The grammar that a text reads as, whose names can be resolved and whose local rules have one level, or what is said of a text that is none.
pub fn grammar_in(alloc: Global, text: &[u8]) -> Result<Grammar, Early<Settled>>
    ensures read { AnswersOrSays result (λ g. grammar_in text.now ≡ Ok g) (λ settled. grammar_in text.now ≡ Err (said_of settled)) }
    ensures readable { IfOk result IsReadable }
    ensures flat { IfOk result IsFlat }
{
    match texts::grammar_in(alloc, text) {
        Ok(grammar) => Ok(grammar),
        Err(ReadFault::Memory) => Err(Early::Memory),
        Err(fault) => Err(Early::Said(refusal(alloc, &fault)?)),
    }
}
