//! Writes a grammar anew.
ghost use Rattle.std.specs.Prelude.{◌≡◌, IfOk};
ghost use Rattle.ipg_ast.specs.Shape.{IsFlat};
ghost use Rattle.ipg_read_tokens.specs.Shaped.{canonical_text};
ghost use Rattle.ipg_app_text.specs.Said.{done};
ghost use Rattle.ipg_app_text.specs.Lines.{said_of};

use ipg_app_text::said::Settled;
use ipg_app_text::status::Status;
use ipg_ast::{Grammar, text_of};
use std::alloc::{AllocError, Global};

/// The canonical text of a grammar.
pub fn format(alloc: Global, g: &Grammar) -> Result<Settled, AllocError>
    requires { IsFlat g.now }
    ensures { IfOk result (λ settled. said_of settled ≡ done (canonical_text g.now)) }
{
    let text = text_of(alloc, g)?;
    Ok(Settled {
        status: Status::Done,
        text,
    })
}
