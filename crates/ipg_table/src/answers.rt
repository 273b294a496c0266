//! Answers, and the numbers that they are.

ghost use Rattle.std.specs.Prelude.{◌≡◌, not, pos, IfSome};
ghost use Rattle.ipg_num.specs.Number.{limited, flag};
ghost use Rattle.ipg_core.specs.Eval as spec;
ghost use Rattle.ipg_core.specs.Eval.{on_value};

use ipg_num::Answer;

/// A number is within its type.
pub(crate) fn kept(answer: Answer) -> Answer
    ensures { result ≡ spec.on_value answer limited }
{
    answer
}

pub(crate) fn found(value: Option<i64>) -> Answer
    ensures { result ≡ spec.found value }
{
    match value {
        Some(value) => Answer::Val(value),
        None => Answer::Fail,
    }
}

pub(crate) fn truth(holds: bool) -> Answer
    ensures { result ≡ flag holds }
{
    Answer::Val(if holds { 1 } else { 0 })
}

pub(crate) fn whole(number: u32) -> Answer
    ensures { result ≡ Answer.Val (pos number) }
{
    Answer::Val(i64::from(number))
}

/// The number that an answer is, if it is one.
pub(crate) fn number(answer: Answer) -> Option<i64>
    ensures { IfSome result (λ z. on_value answer limited ≡ Answer.Val z) }
{
    match kept(answer) {
        Answer::Val(value) => Some(value),
        _ => None,
    }
}
