//! What is wrong with a grammar, and what can be done.
ghost use Rattle.std.specs.Prelude.{◌≡◌, ◌++◌, ◌∷◌, [], codes, flat_map, IfOk, OnOk};
ghost use Rattle.ipg_app_explain.specs.Spot.{spot_lines};
ghost use Rattle.ipg_app_explain.specs.Why as spec;
ghost use Rattle.ipg_app_explain.specs.Why.{advice, explained, quoted, sentence, syntax, wrong};

use crate::spot::add_spot;
use crate::words::word_at;
use std::alloc::{AllocError, Global};

/// Why a text has no grammar by which parsing ends: each refusal of a grammar, the limits apart.
#[derive(Clone, Copy, Debug, PartialEq, Eq)]
pub enum Why {
    TooLong,
    Lex,
    Number,
    Syntax,
    Rules,
    Alternatives,
    Terms,
    Depth,
    DuplicateRule,
    UnknownRule,
    DuplicateAttr,
    UnknownAttr,
    PartAttr,
    NoOccurrence,
    Circular,
    NoTouch,
    MayLoop,
}

/// A text, and the name under which it was given.
#[derive(Clone, Copy)]
pub struct Source<'a> {
    pub name: &'a [u8],
    pub text: &'a [u8],
}

/// A refusal for a person: its own line, `said`; then each place, in bytes of the text, with its line and a mark; the notes, which are whole
/// lines; then what is wrong, by what stands at the first place, and what can be done. The only other answer is want of memory.
pub fn explain(
    alloc: Global,
    said: &[u8],
    source: Source<'_>,
    why: Why,
    places: &[u32],
    notes: &[u8],
) -> Result<Vec<u8>, AllocError>
    ensures { IfOk result (λ text. text.items ≡ explained said.now source.entry.name.now source.entry.text.now why places.now notes.now) }
{
    let word = first_word(alloc, source.text, places)?;
    let mut out = Vec::from_slice(alloc, said)?;
    for at in places {
        add_spot(&mut out, source.name, source.text, *at)?;
    }
    out.extend_from_slice(notes)?;
    add_wrong(&mut out, why, &word)?;
    out.push(b'\n')?;
    out.extend_from_slice(advice(why))?;
    out.push(b'\n')?;
    Ok(out)
}

/// What stands at the first of the places.
fn first_word(alloc: Global, text: &[u8], places: &[u32]) -> Result<Vec<u8>, AllocError>
    ensures { IfOk result (λ word. word.items ≡ spec.first_word text.now places.now) }
{
    match places.first() {
        Some(at) => word_at(alloc, text, *at),
        None => Ok(Vec::new(alloc)),
    }
}

/// What stands at a place, and what is to be said of it.
fn add_quoted(out: &mut Vec<u8>, word: &[u8], rest: &[u8]) -> Result<(), AllocError>
    ensures { OnOk result (out.new.items ≡ out.old.items ++ (quoted word.now ++ rest.now)) }
{
    out.push(b'`')?;
    out.extend_from_slice(word)?;
    out.push(b'`')?;
    out.extend_from_slice(rest)
}

fn add_syntax(out: &mut Vec<u8>, word: &[u8]) -> Result<(), AllocError>
    ensures { OnOk result (out.new.items ≡ out.old.items ++ syntax word.now) }
{
    if word.is_empty() {
        return out.extend_from_slice(b"The text ends here, and its grammar doesn't.");
    }
    add_quoted(out, word, b" can't stand here: no grammar goes on so.")
}

/// What is wrong.
fn add_wrong(out: &mut Vec<u8>, why: Why, word: &[u8]) -> Result<(), AllocError>
    ensures { OnOk result (out.new.items ≡ out.old.items ++ wrong why word.now) }
{
    match why {
        Why::Syntax => add_syntax(out, word),
        Why::Number => add_quoted(
            out,
            word,
            b" is above 9223372036854775807, which is 2^63 - 1.",
        ),
        Why::DuplicateRule => add_quoted(out, word, b" is a rule already, or a primitive."),
        Why::UnknownRule => add_quoted(
            out,
            word,
            b" is no rule that can be seen from here, and no primitive.",
        ),
        Why::DuplicateAttr => add_quoted(
            out,
            word,
            b" is an attribute of this alternative already.",
        ),
        Why::UnknownAttr => add_quoted(out, word, b" is no attribute that can be read here."),
        Why::PartAttr => add_quoted(
            out,
            word,
            b" is set by some alternatives of its rule, and not by all.",
        ),
        Why::NoOccurrence => add_quoted(
            out,
            word,
            b" isn't read by this alternative as this asks for.",
        ),
        _ => out.extend_from_slice(sentence(why)),
    }
}

/// What is wrong, whatever stands at the place; nothing where that is to be told.
fn sentence(why: Why) -> &'static [u8]
    ensures { result.now ≡ sentence why }
{
    match why {
        Why::TooLong => b"The grammar has more than 1048576 bytes.",
        Why::Lex => b"No token begins here.",
        Why::Rules => b"This rule is one too many: there are 1024 at most, local ones included.",
        Why::Alternatives => b"This alternative is one too many: a rule has 64 at most.",
        Why::Terms => b"This term is one too many: an alternative has 256 at most.",
        Why::Depth => b"This expression nests deeper than 64.",
        Why::Circular => b"This term waits for others, and they wait for it.",
        Why::NoTouch => b"The items of this repetition may read no byte, so it may never end.",
        Why::MayLoop =>
            b"Each of these calls may keep the whole part of its caller, so parsing may never end.",
        _ => b"",
    }
}

/// What can be done.
fn advice(why: Why) -> &'static [u8]
    ensures { result.now ≡ advice why }
{
    match why {
        Why::TooLong => b"Is the file given before the grammar? The grammar comes first.",
        Why::Lex =>
            b"In a string write \\xHH for a byte that isn't plain, \\\" for a quote, \\\\ for a backslash. Strings stand in \"..\".",
        Why::Number => b"Compare the halves: U64LE has `hi` and `lo`.",
        Why::Syntax =>
            b"Look before it too: a bracket or a `;` may be missing, or a reserved word stand where a name is due.",
        Why::Rules => b"Let one rule do what several do.",
        Why::Alternatives =>
            b"Part the rule: A -> B / C ; has as many alternatives as B and C together.",
        Why::Terms => b"Part the alternative: a rule of its own reads the rest.",
        Why::Depth => b"Set an attribute to a part of it.",
        Why::DuplicateRule => b"Give one of the two another name; local rules count too.",
        Why::UnknownRule =>
            b"Primitives are U8, U16LE, U16BE, U32LE, U32BE, U64LE, U64BE and Bytes. Rules of another `where` can't be seen.",
        Why::DuplicateAttr => b"Give the second one, or the loop's variable, another name.",
        Why::UnknownAttr =>
            b"An alternative reads its own attributes, and a local rule those of its holder. Write A.f for the attribute f of a part A.",
        Why::PartAttr => b"Set it in each alternative, perhaps to 0.",
        Why::NoOccurrence =>
            b"A.f wants one A in this alternative, or a switch with such a branch; A(e).f wants an array or a repetition of A.",
        Why::Circular => b"Give its interval or its value by what doesn't depend on it.",
        Why::NoTouch =>
            b"Let each alternative of the item have a string, a number, or a rule that has one.",
        Why::MayLoop =>
            b"Give one of them an interval that is shorter than the part, or a condition that excludes it.",
    }
}
