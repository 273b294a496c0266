//! Laws of reading, each the contract of a function that does nothing.

ghost use Rattle.ipg_read_syntax.specs.Laws.{OneGrammar, ReadsExactly, RefusedExactly, AlwaysOneAnswer, SyntaxPlace, LimitPlace, TokensFirst, LimitIsLeast};
ghost use Rattle.ipg_read_syntax.specs.Laws.{ReadsButForPlaces};

/// A text reads as one grammar at most.
pub fn one_grammar()
    ensures { OneGrammar }
{}

/// The answer is a grammar exactly where the text reads as it within the limits.
pub fn reads_exactly()
    ensures { ReadsExactly }
{}

/// A fault is answered exactly where the text is refused for it; so no text is refused for want of memory.
pub fn refused_exactly()
    ensures { RefusedExactly }
{}

/// A text reads as one grammar within the limits, or is refused for one reason.
pub fn always_one_answer()
    ensures { AlwaysOneAnswer }
{}

/// A fault of syntax stands exactly where no grammar goes on.
pub fn syntax_place()
    ensures { SyntaxPlace }
{}

/// A fault of a limit is the first limit that the grammar passes.
pub fn limit_place()
    ensures { LimitPlace }
{}

/// A fault of the tokens is answered exactly where the tokens have it.
pub fn tokens_first()
    ensures { TokensFirst }
{}

/// No limit is passed at a lesser place than the one that is told.
pub fn limit_is_least()
    ensures { LimitIsLeast }
{}

/// A text with the tokens of a grammar within the limits, but for their places, reads as that grammar, but for places.
pub fn reads_but_for_places()
    ensures { ReadsButForPlaces }
{}
