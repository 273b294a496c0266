ghost use Rattle.std.specs.Prelude.{◌≡◌};
ghost use Rattle.ipg_read_tokens.specs.Lexical.{is_pair, is_single, single_front, symbol_front};

use crate::front::Front;
use ipg_ast::{Symbol, TokenKind};

/// The longest symbol that begins with `a` and goes on with `after`.
pub fn symbol_at(a: u8, after: &[u8]) -> Front
    ensures { result ≡ symbol_front a after.now }
{
    match after {
        [b, ..] => {
            if pairs(a, *b) {
                Front::Token(TokenKind::Symbol(Symbol::two(a, *b)), 2)
            } else {
                single_at(a)
            }
        }
        _ => single_at(a),
    }
}

fn single_at(a: u8) -> Front
    ensures { result ≡ single_front a }
{
    if stands_alone(a) {
        Front::Token(TokenKind::Symbol(Symbol::one(a)), 1)
    } else {
        Front::Nothing
    }
}

pub fn pairs(a: u8, b: u8) -> bool
    ensures { result ≡ is_pair a b }
{
    (a == b'-' && b == b'>')
        || (a == b'<' && b == b'<')
        || (a == b'>' && b == b'>')
        || (a == b'=' && b == b'=')
        || (a == b'!' && b == b'=')
        || (a == b'<' && b == b'=')
        || (a == b'>' && b == b'=')
        || (a == b'&' && b == b'&')
        || (a == b'|' && b == b'|')
}

fn stands_alone(a: u8) -> bool
    ensures { result ≡ is_single a }
{
    (b'%' <= a && a <= b'&')
        || (b'(' <= a && a <= b'/')
        || (b':' <= a && a <= b'?')
        || a == b'!'
        || a == b'['
        || a == b']'
        || a == b'^'
        || (b'{' <= a && a <= b'}')
}
