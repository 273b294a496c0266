ghost use Rattle.std.specs.Prelude.{◌≡◌, ◌≤◌, ◌<◌, ◌-◌, ◌^◌, ◌⊎◌, length, drop, IfOk, MatchResult};
ghost use Rattle.ipg_read_tokens.specs.Lexical.{front_of, large_first, lexed, tokens_of};
ghost use Rattle.ipg_read_tokens.specs.Within.{TakesWithin, WidthWithin, width_of};

use crate::front::{Front, front_at};
use crate::room::room_of;
use crate::{ReadFault, Token};
use ipg_ast::Span;
use std::alloc::{AllocError, Global};

const LONGEST: usize = 1 << 20;

/// The tokens of a text, each the longest at its place, between white space and comments.
pub fn tokens(alloc: Global, text: &[u8]) -> Result<Vec<Token>, ReadFault>
    ensures { MatchResult result (λ found. tokens_of text.now ≡ Ok found.items) (λ fault. (fault ≡ ReadFault.Memory) ⊎ (tokens_of text.now ≡ Err fault)) }
{
    if text.len() > LONGEST {
        return Err(ReadFault::TooLong);
    }
    let mut found = Vec::with_capacity(alloc, room_of(text))?;
    let mut at = 0;
    while at < text.len() {
        match begins_at(alloc, text, at)? {
            Front::Nothing => return Err(ReadFault::Lex { at: at as u32 }),
            Front::Blank(width) => at += width,
            Front::Large(width) => return Err(past_large(alloc, text, at + width, at)?),
            Front::Token(kind, width) => {
                let span = Span {
                    from: at as u32,
                    to: (at + width) as u32,
                };
                found.push(Token { kind, span })?;
                at += width;
            }
        }
    }
    Ok(found)
}

/// The fault of a text with a number too large at `large`: a later place where no token begins comes first.
fn past_large(
    alloc: Global,
    text: &[u8],
    from: usize,
    large: usize,
) -> Result<ReadFault, AllocError>
    requires short { length text.now ≤ 2 ^ 20 }
    requires within { from ≤ length text.now }
    requires before { large < length text.now }
    ensures { IfOk result (λ fault. large_first large (lexed from 0 (drop from text.now)) ≡ Err fault) }
{
    let mut at = from;
    while at < text.len() {
        match width_at(alloc, text, at)? {
            None => return Ok(ReadFault::Lex { at: at as u32 }),
            Some(width) => at += width,
        }
    }
    Ok(ReadFault::Number { at: large as u32 })
}

/// How many bytes are taken by what begins at `at`, if something does.
fn width_at(alloc: Global, text: &[u8], at: usize) -> Result<Option<usize>, AllocError>
    requires { at ≤ length text.now }
    ensures is { IfOk result (λ width. width_of (front_of (drop at text.now)) ≡ width) }
    ensures within { IfOk result (λ width. WidthWithin width (length text.now - at)) }
{
    Ok(taken(begins_at(alloc, text, at)?))
}

fn taken(front: Front) -> Option<usize>
    ensures { result ≡ width_of front }
{
    match front {
        Front::Nothing => None,
        Front::Blank(width) => Some(width),
        Front::Large(width) => Some(width),
        Front::Token(_, width) => Some(width),
    }
}

fn begins_at(alloc: Global, text: &[u8], at: usize) -> Result<Front, AllocError>
    requires { at ≤ length text.now }
    ensures is { IfOk result (λ front. front_of (drop at text.now) ≡ front) }
    ensures within { IfOk result (λ front. TakesWithin front (length text.now - at)) }
{
    front_at(alloc, &text[at..])
}
