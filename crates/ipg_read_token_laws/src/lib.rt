//! The laws of tokens: the longest is taken, with its value; no text spells two; the answer for a whole text is what it
//! falls into; a canonical text gives its tokens back.
#![tactic(auto)]

ghost use Rattle.ipg_read_token_laws.specs.Back.{GivesTokensBack};
ghost use Rattle.ipg_read_token_laws.specs.Falls.{FallsExactly};
ghost use Rattle.ipg_read_token_laws.specs.Forms.{SpellsOne, TakesTheLongest};

/// At the front of bytes exactly this is taken: the longest prefix that spells a token, as the token that it spells (or as
/// a number too large); else the longest white space or comment; else nothing.
pub fn takes_the_longest()
    ensures { TakesTheLongest }
{}

/// A text spells at most one token: its bytes determine its kind and value.
pub fn spells_one()
    ensures { SpellsOne }
{}

/// The answer for a whole text says exactly what the text falls into: its tokens; or that it is too long, the place where
/// nothing is taken, or the place of the first number too large.
pub fn falls_exactly()
    ensures { FallsExactly }
{}

/// The canonical text of tokens of the language, where it is short enough, is read as those tokens, each one byte after the last.
pub fn gives_tokens_back()
    ensures { GivesTokensBack }
{}
