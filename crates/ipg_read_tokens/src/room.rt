ghost use Rattle.std.specs.Prelude.{◌≤◌, length};

use crate::class::{Class, is_digit, is_letter, is_white};
use crate::front::Front;
use crate::number::number_at;
use crate::string::{Item, item_of, tail};
use crate::symbol::pairs;

/// How many tokens a text has, so that their memory is reserved at once.
/// A wrong count would cost memory and change no answer.
pub fn room_of(text: &[u8]) -> usize
    ensures { result ≤ length text.now }
{
    let mut count = 0;
    let mut skip = 0;
    for (i, b) in text.iter().enumerate() {
        if skip > 0 {
            skip -= 1;
        } else {
            skip = width_of(*b, tail(text, i)).saturating_sub(1);
            count += is_token(*b) as usize;
        }
    }
    count
}

fn is_token(b: u8) -> bool {
    !is_white(b) && b != b'#'
}

/// The bytes of what begins with `b`, which is the first of `bytes`.
fn width_of(b: u8, bytes: &[u8]) -> usize {
    if is_white(b) {
        Class::White.run(bytes)
    } else if b == b'#' {
        Class::Comment.run(bytes)
    } else if is_letter(b) {
        Class::Naming.run(bytes)
    } else if is_digit(b) {
        number_width(bytes)
    } else if b == b'"' {
        string_width(bytes)
    } else {
        symbol_width(bytes)
    }
}

fn number_width(bytes: &[u8]) -> usize {
    match number_at(bytes) {
        Front::Token(_, width) | Front::Large(width) => width,
        _ => 1,
    }
}

fn string_width(bytes: &[u8]) -> usize {
    let mut skip = 1;
    for (i, b) in bytes.iter().enumerate() {
        if skip > 0 {
            skip -= 1;
        } else {
            match item_of(*b, tail(bytes, i + 1)) {
                Item::Byte(_, width) => skip = width.saturating_sub(1),
                _ => return i.saturating_add(1),
            }
        }
    }
    bytes.len()
}

fn symbol_width(bytes: &[u8]) -> usize {
    match bytes {
        [a, b, ..] => 1 + pairs(*a, *b) as usize,
        _ => 1,
    }
}
