ghost use Rattle.std.specs.Prelude.{◌≡◌, ◌*◌, ◌^◌, ◌<◌, ◌≤◌, ◌*ℤ◌, ◌+ℤ◌, ◌↔◌, Bool, false, nat_le, length, IsTrue, IfOk, IsErrOf};
ghost use Rattle.std.specs.Int.RustNames.{unsigned_abs};
ghost use Rattle.ipg_lin.specs.Form.{is_coefficient, are_coefficients, rises, in_rule, sum_at, value_at, terms_width};
ghost use Rattle.ipg_lin.specs.Formula.{assigned};
ghost use Rattle.ipg_lin.specs.declared.linear.LinFault.TheVariants.{Limit};

use crate::sum::{LARGEST, plus, times};
use ipg_num::List;
use std::alloc::{AllocError, Global};
use std::marker::Model;

/// A sum of multiples of variables, and a constant. It has at most 64 terms, each a variable and its
/// coefficient; the variables rise, and no coefficient is 0 or above 2^40 in size.
#[derive(Drop)]
pub struct Linear {
    pub terms: List<(u64, i64)>,
    pub constant: i64,
}

impl Model for Linear {
    ghost use Rattle.ipg_lin.specs.Form.{Form, in_rule};
    ghost use Rattle.std.specs.Prelude.{IsTrue};

    ghost Value = { Form };

    ghost view = { λ a. record { terms = a.terms; constant = a.constant } };

    ghost invariant = { λ a. IsTrue (in_rule a.terms) };
}

/// Why a linear form was not made.
#[derive(Debug, Drop)]
pub enum LinFault {
    /// The terms break the rule.
    Limit,
    Memory,
}

fn is_coefficient(z: i64) -> bool
    ensures { result ≡ is_coefficient z }
{
    let size = z.unsigned_abs();
    0 < size && size <= LARGEST
}

fn in_rule(terms: &[(u64, i64)]) -> bool
    ensures { result ≡ in_rule terms.now }
{
    terms.len() <= 64 && rises(terms) && are_coefficients(terms)
}

fn are_coefficients(terms: &[(u64, i64)]) -> bool
    ensures { result ≡ are_coefficients terms.now }
{
    terms.iter().all(|term| is_coefficient(term.1))
}

fn rises(terms: &[(u64, i64)]) -> bool
    ensures { result ≡ rises 0 terms.now }
{
    let mut from = 0u128;
    for term in terms {
        if u128::from(term.0) < from {
            return false;
        }
        from = u128::from(term.0) + 1;
    }
    true
}

fn value_of(values: &[i64], var: u64) -> i64
    requires { var < length values.now }
    ensures { result ≡ assigned values.now var }
{
    values[var as usize]
}

fn value_of_term(term: &(u64, i64), values: &[i64]) -> i128
    requires coefficient { IsTrue (is_coefficient term.now.1) }
    requires valued { term.now.0 < length values.now }
    ensures value { result ≡ term.now.1 *ℤ assigned values.now term.now.0 }
    ensures size { unsigned_abs result ≤ 2 ^ 103 }
{
    let term = *term;
    times(term.1, i128::from(value_of(values, term.0)))
}

/// The value of the terms, of which there are at most 64.
fn sum(terms: &[(u64, i64)], values: &[i64]) -> i128
    requires few { length terms.now ≤ 64 }
    requires coefficients { IsTrue (are_coefficients terms.now) }
    requires valued { terms_width terms.now ≤ length values.now }
    ensures value { result ≡ sum_at (assigned values.now) terms.now }
    ensures size { unsigned_abs result ≤ length terms.now * 2 ^ 103 }
{
    match terms {
        [] => 0,
        [first, rest @ ..] => plus(value_of_term(first, values), sum(rest, values)),
    }
}

/// The value of a form where each variable x is `values[x]`: within the rule it fits 128 bits.
pub(crate) fn value(form: &Linear, values: &[i64]) -> i128
    requires { terms_width form.now.terms ≤ length values.now }
    ensures { result ≡ value_at (assigned values.now) form.now }
{
    plus(sum(form.terms(), values), i128::from(form.constant()))
}

impl Linear {
    /// The form of these terms and this constant.
    pub fn new(alloc: Global, terms: &[(u64, i64)], constant: i64) -> Result<Linear, LinFault>
        ensures form { IfOk result (λ form. form ≡ record { terms = terms.now; constant = constant }) }
        ensures limit { IsErrOf result Limit ↔ (in_rule terms.now ≡ false) }
    {
        if !in_rule(terms) {
            return Err(LinFault::Limit);
        }
        match Vec::from_slice(alloc, terms) {
            Ok(terms) => Ok(Linear {
                terms: List::from_vec(terms),
                constant,
            }),
            Err(_) => Err(LinFault::Memory),
        }
    }

    /// The variables and their coefficients.
    pub fn terms(&self) -> &[(u64, i64)]
        ensures value { result.now ≡ self.now.terms }
        ensures rule { IsTrue (in_rule result.now) }
    {
        self.terms.as_slice()
    }

    /// The number that is added to the terms.
    pub fn constant(&self) -> i64
        ensures { result ≡ self.now.constant }
    {
        self.constant
    }
}
