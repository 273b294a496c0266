ghost use Rattle.std.specs.Prelude.{◌≡◌, ◌≤◌, nat_le, map, length};
ghost use Rattle.ipg_lin.specs.Form.{terms_width};
ghost use Rattle.ipg_lin.specs.Formula.{holds_at, every, some, width, greatest, assigned};

use crate::linear::{Linear, value};
use ipg_num::List;

/// An atom says that its form is at most 0.
#[derive(Drop)]
pub enum Formula {
    Atom(Linear),
    All(List<Formula>),
    Any(List<Formula>),
}

/// The least and the greatest value of each variable.
#[derive(Drop)]
pub struct Boxed {
    pub bounds: List<(i64, i64)>,
}

/// Whether the formula holds where each variable x is `values[x]`. It recurses as deep as members stand
/// in one another, as dropping the formula does.
#[cycle(members)]
pub fn holds(f: &Formula, values: &[i64]) -> bool
    requires { width f.now ≤ length values.now }
    ensures { result ≡ holds_at (assigned values.now) f.now }
{
    match f {
        Formula::Atom(form) => value(form, values) <= 0,
        Formula::All(members) => every(members.as_slice(), values),
        Formula::Any(members) => some(members.as_slice(), values),
    }
}

#[cycle(members)]
fn every(members: &[Formula], values: &[i64]) -> bool
    requires { greatest (map width members.now) ≤ length values.now }
    ensures { result ≡ every (map (holds_at (assigned values.now)) members.now) }
{
    for member in members {
        if !holds(member, values) {
            return false;
        }
    }
    true
}

#[cycle(members)]
fn some(members: &[Formula], values: &[i64]) -> bool
    requires { greatest (map width members.now) ≤ length values.now }
    ensures { result ≡ some (map (holds_at (assigned values.now)) members.now) }
{
    for member in members {
        if holds(member, values) {
            return true;
        }
    }
    false
}

/// Whether each variable of the formula is one of the first `vars`.
#[cycle(over)]
pub fn is_over(f: &Formula, vars: usize) -> bool
    ensures { result ≡ nat_le (width f.now) vars }
{
    match f {
        Formula::Atom(form) => are_over(form.terms(), vars),
        Formula::All(members) => all_over(members.as_slice(), vars),
        Formula::Any(members) => all_over(members.as_slice(), vars),
    }
}

#[cycle(over)]
fn all_over(members: &[Formula], vars: usize) -> bool
    ensures { result ≡ nat_le (greatest (map width members.now)) vars }
{
    for member in members {
        if !is_over(member, vars) {
            return false;
        }
    }
    true
}

fn are_over(terms: &[(u64, i64)], vars: usize) -> bool
    ensures { result ≡ nat_le (terms_width terms.now) vars }
{
    for term in terms {
        if vars as u64 <= term.0 {
            return false;
        }
    }
    true
}
