//! Laws of canonical texts, each the contract of a function that does nothing.

ghost use Rattle.ipg_read_canonical_laws.specs.Laws.{ReadsTokensBack, KeepsTokens, ReadsFormed, ReadsShaped, RoundTrip, CanonicalStays};

use ipg_read_syntax::laws::{reads_but_for_places, reads_exactly};
use ipg_read_token_laws::gives_tokens_back;

/// A text with the tokens of a well formed grammar reads as that grammar, but for their places.
pub fn reads_tokens_back()
    ensures { ReadsTokensBack }
{
    reads_but_for_places();
}

/// The tokens of a text are those of the grammar that it reads as.
pub fn keeps_tokens()
    ensures { KeepsTokens }
{}

/// What a text reads as within the limits is well formed.
pub fn reads_formed()
    ensures { ReadsFormed }
{}

/// What a text reads as within the limits is in shape, where its canonical text is short enough.
pub fn reads_shaped()
    ensures { ReadsShaped }
{}

/// The canonical text of a grammar in shape reads as that grammar, but for the places of its tokens.
pub fn round_trip()
    ensures { RoundTrip }
{
    gives_tokens_back();
    reads_tokens_back();
}

/// The canonical text of what is read, where it is short enough, is its own canonical text.
pub fn canonical_stays()
    ensures { CanonicalStays }
{
    gives_tokens_back();
    reads_exactly();
    keeps_tokens();
    reads_shaped();
    round_trip();
}
