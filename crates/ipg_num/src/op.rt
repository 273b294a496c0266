ghost use Rattle.std.specs.Prelude.{◌≡◌, ◌+◌, ◌*◌, ◌/◌, ◌^◌, ◌+ℤ◌, ◌-ℤ◌, ◌*ℤ◌, pos, bit_and, bit_or, bit_xor};
ghost use Rattle.ipg_num.specs.Number.{limited, floor_div, floor_mod, by_divisor, by_places, on_digits, flag, apply_of, negate_of};

/// The operators of two numbers.
#[derive(Clone, Copy, Debug, PartialEq, Eq)]
pub enum Op2 {
    Add,
    Sub,
    Mul,
    Div,
    Mod,
    Shl,
    Shr,
    BitAnd,
    BitOr,
    BitXor,
    Eq,
    Ne,
    Lt,
    Le,
    Gt,
    Ge,
}

/// What an operation gives: a number, none at such operands, or a whole number beyond 64 bits.
#[derive(Clone, Copy, Debug, PartialEq, Eq)]
pub enum Answer {
    Val(i64),
    Fail,
    Range,
}

/// The number of the other sign; `Range` for the least.
pub fn negate(a: i64) -> Answer
    ensures { result ≡ negate_of a }
{
    match a.checked_neg() {
        Some(value) => Answer::Val(value),
        None => Answer::Range,
    }
}

/// What an operator gives for two numbers.
pub fn apply(op: Op2, a: i64, b: i64) -> Answer
    ensures { result ≡ apply_of op a b }
{
    match op {
        Op2::Add => add(a, b),
        Op2::Sub => subtract(a, b),
        Op2::Mul => multiply(a, b),
        Op2::Div => divide(a, b),
        Op2::Mod => remainder(a, b),
        Op2::Shl => shift_left(a, b),
        Op2::Shr => shift_right(a, b),
        Op2::BitAnd => bits_and(a, b),
        Op2::BitOr => bits_or(a, b),
        Op2::BitXor => bits_xor(a, b),
        Op2::Eq => truth(a == b),
        Op2::Ne => truth(a != b),
        Op2::Lt => truth(a < b),
        Op2::Le => truth(a <= b),
        Op2::Gt => truth(b < a),
        Op2::Ge => truth(b <= a),
    }
}

fn add(a: i64, b: i64) -> Answer
    ensures { result ≡ limited (a +ℤ b) }
{
    match a.checked_add(b) {
        Some(sum) => Answer::Val(sum),
        None => Answer::Range,
    }
}

fn subtract(a: i64, b: i64) -> Answer
    ensures { result ≡ limited (a -ℤ b) }
{
    match a.checked_sub(b) {
        Some(rest) => Answer::Val(rest),
        None => Answer::Range,
    }
}

fn multiply(a: i64, b: i64) -> Answer
    ensures { result ≡ limited (a *ℤ b) }
{
    match a.checked_mul(b) {
        Some(product) => Answer::Val(product),
        None => Answer::Range,
    }
}

fn divide(a: i64, b: i64) -> Answer
    ensures { result ≡ by_divisor floor_div a b }
{
    if 0 < b {
        Answer::Val(a.div_euclid(b))
    } else {
        Answer::Fail
    }
}

fn remainder(a: i64, b: i64) -> Answer
    ensures { result ≡ by_divisor floor_mod a b }
{
    if 0 < b {
        Answer::Val(a.rem_euclid(b))
    } else {
        Answer::Fail
    }
}

fn shift_left(a: i64, b: i64) -> Answer
    ensures { result ≡ by_places (λ n s. limited (pos (n * 2 ^ s))) a b }
{
    if a < 0 || b < 0 || b > 63 {
        return Answer::Fail;
    }
    narrow((a as u128) << (b as u32))
}

fn narrow(wide: u128) -> Answer
    ensures { result ≡ limited (pos wide) }
{
    if wide <= i64::MAX as u128 {
        Answer::Val(wide as i64)
    } else {
        Answer::Range
    }
}

fn shift_right(a: i64, b: i64) -> Answer
    ensures { result ≡ by_places (λ n s. Answer.Val (pos (n / 2 ^ s))) a b }
{
    if a < 0 || b < 0 || b > 63 {
        return Answer::Fail;
    }
    Answer::Val(((a as u64) >> (b as u32)) as i64)
}

fn bits_and(a: i64, b: i64) -> Answer
    ensures { result ≡ on_digits bit_and a b }
{
    if a < 0 || b < 0 {
        return Answer::Fail;
    }
    Answer::Val((a as u64 & b as u64) as i64)
}

#[tactic(auto, using(crate::proofs::Digits::or_63))]
fn bits_or(a: i64, b: i64) -> Answer
    ensures { result ≡ on_digits bit_or a b }
{
    if a < 0 || b < 0 {
        return Answer::Fail;
    }
    Answer::Val((a as u64 | b as u64) as i64)
}

#[tactic(auto, using(crate::proofs::Digits::xor_63))]
fn bits_xor(a: i64, b: i64) -> Answer
    ensures { result ≡ on_digits bit_xor a b }
{
    if a < 0 || b < 0 {
        return Answer::Fail;
    }
    Answer::Val((a as u64 ^ b as u64) as i64)
}

fn truth(holds: bool) -> Answer
    ensures { result ≡ flag holds }
{
    Answer::Val(if holds { 1 } else { 0 })
}
