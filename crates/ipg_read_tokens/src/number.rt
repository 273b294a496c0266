ghost use Rattle.std.specs.Prelude.{◌≡◌, ◌≤◌, length, drop, IsTrue};
ghost use Rattle.ipg_read_tokens.specs.Lexical.{digit_value, value, below_limit, front_of_value, is_prefixed, decimal_front, hexadecimal_front, number_front};

use crate::class::{Class, is_hexadecimal};
use crate::front::Front;
use ipg_ast::TokenKind;

/// The number at the front: `0x` and hexadecimal digits, or decimal digits.
pub fn number_at(bytes: &[u8]) -> Front
    ensures { result ≡ number_front bytes.now }
{
    if starts_hexadecimal(bytes) {
        hexadecimal(bytes)
    } else {
        decimal(bytes)
    }
}

fn starts_hexadecimal(bytes: &[u8]) -> bool
    ensures is { result ≡ is_prefixed bytes.now }
    ensures long { IsTrue result → 2 ≤ length bytes.now }
{
    match bytes {
        [a, b, c, ..] => *a == b'0' && *b == b'x' && is_hexadecimal(*c),
        _ => false,
    }
}

fn decimal(bytes: &[u8]) -> Front
    ensures { result ≡ decimal_front bytes.now }
{
    let width = Class::Digit.run(bytes);
    number_of(value_of(10, &bytes[..width]), width)
}

fn hexadecimal(bytes: &[u8]) -> Front
    requires { 2 ≤ length bytes.now }
    ensures { result ≡ hexadecimal_front (drop 2 bytes.now) }
{
    let digits = &bytes[2..];
    let width = Class::Hexadecimal.run(digits);
    number_of(value_of(16, &digits[..width]), width + 2)
}

fn number_of(value: Option<i64>, width: usize) -> Front
    ensures { result ≡ front_of_value value width }
{
    match value {
        Some(n) => Front::Token(TokenKind::Number(n), width),
        None => Front::Large(width),
    }
}

/// The value of digits in a base, where it is below 2^63.
fn value_of(base: u64, digits: &[u8]) -> Option<i64>
    requires some { 1 ≤ base }
    requires few { base ≤ 16 }
    ensures { result ≡ below_limit (value base 0 digits.now) }
{
    let mut sum: u64 = 0;
    for digit in digits {
        let next = sum as u128 * base as u128 + digit_of(*digit) as u128;
        if next > i64::MAX as u128 {
            return None;
        }
        sum = next as u64;
    }
    Some(sum as i64)
}

pub fn digit_of(b: u8) -> u64
    ensures { result ≡ digit_value b }
{
    if b <= b'9' {
        b.saturating_sub(b'0') as u64
    } else if b <= b'F' {
        b.saturating_sub(b'A' - 10) as u64
    } else {
        b.saturating_sub(b'a' - 10) as u64
    }
}
