//! Where a reader of a path stands, and where a byte takes it.
ghost use Rattle.std.specs.Prelude.{◌≡◌, ◌≤◌, ◌+◌, ◌*◌};
ghost use Rattle.ipg_reader.specs.Digits as digits;
ghost use Rattle.ipg_query_path.specs.Paths as paths;
ghost use Rattle.ipg_query_path.specs.Reader as spec;

/// A place within a path.
#[derive(Clone, Copy)]
pub enum Pos {
    /// Before a step.
    Step,
    /// In the name of a step.
    Name,
    /// After its `(`.
    Open,
    /// After a digit of its number.
    Number(u32),
    /// After its `)`.
    Closed(u32),
    /// After `*`.
    Star,
    /// After `**`.
    Stars,
    /// After the `.` before a field.
    Dot,
    /// In the name of a field.
    Field,
}

/// What a byte does.
#[derive(Clone, Copy)]
pub enum PathTurn {
    /// No path goes on so.
    Stuck,
    To(Pos),
    /// It belongs to the name at hand.
    Add(Pos),
    /// The step at hand ends before it.
    End(Pos),
}

fn is_letter(b: u8) -> bool
    ensures { result ≡ paths.is_letter b }
{
    (b'A' <= b && b <= b'Z') || (b'a' <= b && b <= b'z') || b == b'_'
}

fn is_digit(b: u8) -> bool
    ensures { result ≡ digits.is_digit b }
{
    b'0' <= b && b <= b'9'
}

fn is_naming(b: u8) -> bool
    ensures { result ≡ paths.is_naming b }
{
    is_letter(b) || is_digit(b)
}

fn value_of(b: u8) -> u32
    ensures is { result ≡ digits.digit_value b }
    ensures small { result ≤ 207 }
{
    u32::from(b.saturating_sub(b'0'))
}

fn at_step(b: u8) -> PathTurn
    ensures { result ≡ spec.step_turn b }
{
    if is_letter(b) {
        PathTurn::Add(Pos::Name)
    } else if b == b'*' {
        PathTurn::To(Pos::Star)
    } else {
        PathTurn::Stuck
    }
}

/// After a whole step.
fn at_end(b: u8) -> PathTurn
    ensures { result ≡ spec.end_turn b }
{
    if b == b'/' {
        PathTurn::End(Pos::Step)
    } else if b == b'.' {
        PathTurn::End(Pos::Dot)
    } else {
        PathTurn::Stuck
    }
}

fn at_name(b: u8) -> PathTurn
    ensures { result ≡ spec.name_turn b }
{
    if is_naming(b) {
        PathTurn::Add(Pos::Name)
    } else if b == b'(' {
        PathTurn::To(Pos::Open)
    } else {
        at_end(b)
    }
}

fn at_open(b: u8) -> PathTurn
    ensures { result ≡ spec.open_turn b }
{
    if is_digit(b) {
        PathTurn::To(Pos::Number(value_of(b)))
    } else {
        PathTurn::Stuck
    }
}

/// One digit more, where the number stays within its limit; 0 has none.
fn grow(number: u32, digit: u32) -> PathTurn
    requires { digit ≤ 207 }
    ensures { result ≡ spec.grown number (number * 10 + digit) }
{
    let value = u64::from(number) * 10 + u64::from(digit);
    if number != 0 && value <= u64::from(u32::MAX) {
        PathTurn::To(Pos::Number(value as u32))
    } else {
        PathTurn::Stuck
    }
}

fn at_number(number: u32, b: u8) -> PathTurn
    ensures { result ≡ spec.number_turn number b }
{
    if is_digit(b) {
        grow(number, value_of(b))
    } else if b == b')' {
        PathTurn::To(Pos::Closed(number))
    } else {
        PathTurn::Stuck
    }
}

fn at_star(b: u8) -> PathTurn
    ensures { result ≡ spec.star_turn b }
{
    if b == b'*' {
        PathTurn::To(Pos::Stars)
    } else {
        at_end(b)
    }
}

fn at_dot(b: u8) -> PathTurn
    ensures { result ≡ spec.dot_turn b }
{
    if is_letter(b) {
        PathTurn::Add(Pos::Field)
    } else {
        PathTurn::Stuck
    }
}

fn at_field(b: u8) -> PathTurn
    ensures { result ≡ spec.field_turn b }
{
    if is_naming(b) {
        PathTurn::Add(Pos::Field)
    } else {
        PathTurn::Stuck
    }
}

/// Where a byte takes a reader at this place.
pub fn turn_at(at: Pos, b: u8) -> PathTurn
    ensures { result ≡ spec.turn_at at b }
{
    match at {
        Pos::Step => at_step(b),
        Pos::Name => at_name(b),
        Pos::Open => at_open(b),
        Pos::Number(number) => at_number(number, b),
        Pos::Closed(_) => at_end(b),
        Pos::Star => at_star(b),
        Pos::Stars => at_end(b),
        Pos::Dot => at_dot(b),
        Pos::Field => at_field(b),
    }
}
