//! Where a reader of a refutation's words stands, and where a byte takes it.
ghost use Rattle.std.specs.Prelude.{◌≡◌, ◌≤◌, ◌+◌, ◌*◌};
ghost use Rattle.ipg_reader.specs.Digits.{is_digit, digit_value};
ghost use Rattle.ipg_cert.specs.Reader.{limit, may_be_zero, may_be_negative, begun, letter_transition, gap_transition};
ghost use Rattle.ipg_cert.specs.Reader.{first_transition, minus_transition, grown, digit_transition, transition_at, has_ended, PosWithin, TransitionWithin};

/// A number of a step that is due.
#[derive(Clone, Copy)]
pub enum Need {
    /// How many entries a Combine has.
    Count,
    /// The weight of the next entry; `left` entries are due.
    Weight { left: u64 },
    /// The fact of that entry.
    Fact { left: u64, weight: u64 },
    /// The variable of a Split.
    Var,
    /// Where the variable is parted.
    At { var: u64 },
    /// The fact of an Either.
    Choice,
    /// How many members that fact has.
    Parts { fact: u64 },
}

/// A number so far.
#[derive(Clone, Copy)]
pub struct Number {
    pub need: Need,
    pub negative: bool,
    pub value: u64,
}

/// A place among the words.
#[derive(Clone, Copy)]
pub enum Pos {
    /// Before the letter of a step.
    Letter,
    /// After the letter, before the space and the number.
    Gap(Need),
    /// Before a number.
    First(Need),
    /// After the number's minus.
    Minus(Need),
    /// After a digit.
    Digits(Number),
    /// After the line feed.
    Ended,
}

impl Pos {
    pub fn has_ended(self) -> bool
        ensures { result ≡ has_ended self }
    {
        matches!(self, Pos::Ended)
    }
}

/// What a byte does to a reader.
#[derive(Clone, Copy)]
pub enum Transition {
    /// No words go on so.
    Stuck,
    To(Pos),
    /// The number ends before this byte.
    End(Number),
}

fn limit_of(need: Need, negative: bool) -> u64
    ensures { result ≡ limit need negative }
{
    match need {
        Need::At { .. } => { if negative { 1 << 63 } else { (1 << 63) - 1 } }
        _ => u64::MAX,
    }
}

fn allows_zero(need: Need) -> bool
    ensures { result ≡ may_be_zero need }
{
    !matches!(need, Need::Count | Need::Parts { .. })
}

fn allows_minus(need: Need) -> bool
    ensures { result ≡ may_be_negative need }
{
    matches!(need, Need::At { .. })
}

fn is_digit(b: u8) -> bool
    ensures { result ≡ is_digit b }
{
    b'0' <= b && b <= b'9'
}

fn value_of(b: u8) -> u64
    ensures is { result ≡ digit_value b }
    ensures small { result ≤ 207 }
{
    u64::from(b.saturating_sub(b'0'))
}

fn at_letter(b: u8) -> Transition
    ensures { result ≡ letter_transition b }
{
    match b {
        b'c' => Transition::To(Pos::Gap(Need::Count)),
        b's' => Transition::To(Pos::Gap(Need::Var)),
        b'e' => Transition::To(Pos::Gap(Need::Choice)),
        _ => Transition::Stuck,
    }
}

fn at_gap(need: Need, b: u8) -> Transition
    ensures { result ≡ gap_transition need b }
{
    if b == b' ' {
        Transition::To(Pos::First(need))
    } else {
        Transition::Stuck
    }
}

fn begun(need: Need, negative: bool, b: u8) -> Transition
    ensures { result ≡ begun need negative b }
{
    Transition::To(Pos::Digits(Number {
        need,
        negative,
        value: value_of(b),
    }))
}

fn at_first(need: Need, b: u8) -> Transition
    ensures { result ≡ first_transition need b }
{
    if is_digit(b) && (allows_zero(need) || b != b'0') {
        begun(need, false, b)
    } else if allows_minus(need) && b == b'-' {
        Transition::To(Pos::Minus(need))
    } else {
        Transition::Stuck
    }
}

fn at_minus(need: Need, b: u8) -> Transition
    ensures { result ≡ minus_transition need b }
{
    if is_digit(b) && b != b'0' {
        begun(need, true, b)
    } else {
        Transition::Stuck
    }
}

/// One digit more, where the number stays within its limit; 0 has none.
fn grow(n: Number, digit: u64) -> Transition
    requires { digit ≤ 207 }
    ensures { result ≡ grown n (n.value * 10 + digit) }
{
    let value = u128::from(n.value) * 10 + u128::from(digit);
    if n.value != 0 && value <= u128::from(limit_of(n.need, n.negative)) {
        Transition::To(Pos::Digits(Number {
            value: value as u64,
            ..n
        }))
    } else {
        Transition::Stuck
    }
}

fn at_digits(n: Number, b: u8) -> Transition
    ensures { result ≡ digit_transition n b }
{
    if is_digit(b) {
        grow(n, value_of(b))
    } else {
        Transition::End(n)
    }
}

/// Where a byte takes a reader at this place.
pub fn transition_at(pos: Pos, b: u8) -> Transition
    requires within { PosWithin pos }
    ensures is { result ≡ transition_at pos b }
    ensures within { TransitionWithin result }
{
    match pos {
        Pos::Letter => at_letter(b),
        Pos::Gap(need) => at_gap(need, b),
        Pos::First(need) => at_first(need, b),
        Pos::Minus(need) => at_minus(need, b),
        Pos::Digits(n) => at_digits(n, b),
        Pos::Ended => Transition::Stuck,
    }
}
