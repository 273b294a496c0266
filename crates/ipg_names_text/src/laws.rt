//! What holds of texts that read as grammars, as the contract of a function that calls only the laws it stands on.

ghost use Rattle.ipg_names_text.specs.Laws.{ReadIsReadable};

use ipg_names::laws::formed_is_readable;
use ipg_read_canonical_laws::laws::{keeps_tokens, reads_formed};
use ipg_read_syntax::laws::reads_exactly;

/// What a text reads as meets the condition of `resolve`.
pub fn read_is_readable()
    ensures { ReadIsReadable }
{
    reads_exactly();
    reads_formed();
    keeps_tokens();
    formed_is_readable();
}
