//! Where a reader of a script stands, and where a byte takes it.
ghost use Rattle.std.specs.Prelude.{◌≡◌, ◌+◌, ◌*◌};
ghost use Rattle.ipg_reader.specs.Digits as digits;
ghost use Rattle.ipg_edit_script.specs.Reader as spec;

/// A place within a line, with the numbers of the line so far.
#[derive(Clone, Copy)]
pub enum Pos {
    /// Before a line.
    Line,
    /// After a digit of the first number.
    From(u32),
    /// After the space behind it.
    Gap(u32),
    /// After a digit of the second number.
    To(u32, u32),
    /// After the space behind it.
    With(u32, u32),
    /// After `-`.
    Nothing(u32, u32),
    /// After a whole byte.
    Whole(u32, u32),
    /// After the first digit of a byte.
    Half(u32, u32, u8),
}

/// What a byte does.
#[derive(Clone, Copy)]
pub enum ScriptTurn {
    /// No script goes on so.
    Stuck,
    To(Pos),
    /// It makes a byte whole.
    Add(u8, Pos),
    /// The line ends, that of an edit from one place up to another.
    End(u32, u32),
}

fn is_digit(b: u8) -> bool
    ensures { result ≡ digits.is_digit b }
{
    b'0' <= b && b <= b'9'
}

fn is_hex(b: u8) -> bool
    ensures { result ≡ spec.is_hex b }
{
    is_digit(b) || b'a' <= b && b <= b'f'
}

fn digit_value(b: u8) -> u8
    ensures { result ≡ digits.digit_value b }
{
    b.saturating_sub(b'0')
}

fn hex_value(b: u8) -> u8
    ensures { result ≡ spec.hex_value b }
{
    if is_digit(b) {
        digit_value(b)
    } else {
        b.saturating_sub(b'a' - 10)
    }
}

fn byte_of(high: u8, low: u8) -> u8
    ensures { result ≡ spec.byte_of high low }
{
    high % 16 * 16 + low % 16
}

/// A number with one digit more, where it stays within its limit; 0 has none.
fn grow(number: u32, digit: u8) -> Option<u32>
    ensures { result ≡ spec.grown number (number * 10 + digit) }
{
    let value = u64::from(number) * 10 + u64::from(digit);
    if number != 0 && value <= u64::from(u32::MAX) {
        Some(value as u32)
    } else {
        None
    }
}

fn at_line(b: u8) -> ScriptTurn
    ensures { result ≡ spec.line_turn b }
{
    if is_digit(b) {
        ScriptTurn::To(Pos::From(u32::from(digit_value(b))))
    } else {
        ScriptTurn::Stuck
    }
}

fn more_from(number: u32, b: u8) -> ScriptTurn
    ensures { result ≡ spec.more_from number b }
{
    match grow(number, digit_value(b)) {
        Some(value) => ScriptTurn::To(Pos::From(value)),
        None => ScriptTurn::Stuck,
    }
}

fn at_from(number: u32, b: u8) -> ScriptTurn
    ensures { result ≡ spec.from_turn number b }
{
    if is_digit(b) {
        more_from(number, b)
    } else if b == b' ' {
        ScriptTurn::To(Pos::Gap(number))
    } else {
        ScriptTurn::Stuck
    }
}

fn at_gap(from: u32, b: u8) -> ScriptTurn
    ensures { result ≡ spec.gap_turn from b }
{
    if is_digit(b) {
        ScriptTurn::To(Pos::To(from, u32::from(digit_value(b))))
    } else {
        ScriptTurn::Stuck
    }
}

fn more_to(from: u32, number: u32, b: u8) -> ScriptTurn
    ensures { result ≡ spec.more_to from number b }
{
    match grow(number, digit_value(b)) {
        Some(value) => ScriptTurn::To(Pos::To(from, value)),
        None => ScriptTurn::Stuck,
    }
}

fn at_to(from: u32, number: u32, b: u8) -> ScriptTurn
    ensures { result ≡ spec.to_turn from number b }
{
    if is_digit(b) {
        more_to(from, number, b)
    } else if b == b' ' {
        ScriptTurn::To(Pos::With(from, number))
    } else {
        ScriptTurn::Stuck
    }
}

fn at_with(from: u32, to: u32, b: u8) -> ScriptTurn
    ensures { result ≡ spec.with_turn from to b }
{
    if is_hex(b) {
        ScriptTurn::To(Pos::Half(from, to, hex_value(b)))
    } else if b == b'-' {
        ScriptTurn::To(Pos::Nothing(from, to))
    } else {
        ScriptTurn::Stuck
    }
}

/// After all of a line but its line feed.
fn at_end(from: u32, to: u32, b: u8) -> ScriptTurn
    ensures { result ≡ spec.end_turn from to b }
{
    if b == b'\n' {
        ScriptTurn::End(from, to)
    } else {
        ScriptTurn::Stuck
    }
}

fn at_whole(from: u32, to: u32, b: u8) -> ScriptTurn
    ensures { result ≡ spec.whole_turn from to b }
{
    if is_hex(b) {
        ScriptTurn::To(Pos::Half(from, to, hex_value(b)))
    } else {
        at_end(from, to, b)
    }
}

fn at_half(from: u32, to: u32, high: u8, b: u8) -> ScriptTurn
    ensures { result ≡ spec.half_turn from to high b }
{
    if is_hex(b) {
        ScriptTurn::Add(byte_of(high, hex_value(b)), Pos::Whole(from, to))
    } else {
        ScriptTurn::Stuck
    }
}

/// Where a byte takes a reader at this place.
pub fn turn_at(at: Pos, b: u8) -> ScriptTurn
    ensures { result ≡ spec.turn_at at b }
{
    match at {
        Pos::Line => at_line(b),
        Pos::From(number) => at_from(number, b),
        Pos::Gap(from) => at_gap(from, b),
        Pos::To(from, number) => at_to(from, number, b),
        Pos::With(from, to) => at_with(from, to, b),
        Pos::Nothing(from, to) => at_end(from, to, b),
        Pos::Whole(from, to) => at_whole(from, to, b),
        Pos::Half(from, to, high) => at_half(from, to, high, b),
    }
}
