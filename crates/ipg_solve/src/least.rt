ghost use Rattle.std.specs.Prelude.{◌≡◌, pos, ◌*◌, ◌^◌, ◌<◌, ◌≤◌, ◌*ℤ◌, int_lt, length, map, IsTrue};
ghost use Rattle.std.specs.Int.RustNames.{unsigned_abs};
ghost use Rattle.ipg_lin.specs.Form.{is_coefficient, are_coefficients, terms_width};
ghost use Rattle.ipg_lin.specs.Formula.{every, some, width, greatest};
ghost use Rattle.ipg_solve.specs.Domains.{domain_at, end_of, least, least_of, rules_out};

use crate::domain::Domain;
use ipg_lin::sum::{plus, times};
use ipg_lin::{Formula, Linear};

/// The end of the domain at which a multiple of the variable is least.
fn end_of(domain: Domain, coefficient: i64) -> i64
    ensures { result ≡ end_of domain coefficient }
{
    if coefficient < 0 {
        domain.high
    } else {
        domain.low
    }
}

pub fn domain_of(domains: &[Domain], var: u64) -> Domain
    requires { var < length domains.now }
    ensures { result ≡ domain_at domains.now var }
{
    domains[var as usize]
}

/// The least value of a term.
fn least_term(term: &(u64, i64), domains: &[Domain]) -> i128
    requires valued { term.now.0 < length domains.now }
    requires coefficient { IsTrue (is_coefficient term.now.1) }
    ensures value { result ≡ term.now.1 *ℤ end_of (domain_at domains.now term.now.0) term.now.1 }
    ensures size { unsigned_abs result ≤ 2 ^ 103 }
{
    let term = *term;
    times(
        term.1,
        i128::from(end_of(domain_of(domains, term.0), term.1)),
    )
}

/// The least value of the terms, of which there are at most 64.
fn least(terms: &[(u64, i64)], domains: &[Domain]) -> i128
    requires few { length terms.now ≤ 64 }
    requires coefficients { IsTrue (are_coefficients terms.now) }
    requires valued { terms_width terms.now ≤ length domains.now }
    ensures value { result ≡ least domains.now terms.now }
    ensures size { unsigned_abs result ≤ length terms.now * 2 ^ 103 }
{
    match terms {
        [] => 0,
        [first, rest @ ..] => plus(least_term(first, domains), least(rest, domains)),
    }
}

/// Whether the form is above 0 in all of the domains.
fn is_above(form: &Linear, domains: &[Domain]) -> bool
    requires { terms_width form.now.terms ≤ length domains.now }
    ensures { result ≡ int_lt (pos 0) (least_of domains.now form.now) }
{
    0 < plus(least(form.terms(), domains), i128::from(form.constant()))
}

/// Whether the domains alone rule the formula out.
#[cycle(members)]
pub fn rules_out(domains: &[Domain], f: &Formula) -> bool
    requires { width f.now ≤ length domains.now }
    ensures { result ≡ rules_out domains.now f.now }
{
    match f {
        Formula::Atom(form) => is_above(form, domains),
        Formula::All(members) => some_ruled_out(domains, members.as_slice()),
        Formula::Any(members) => all_ruled_out(domains, members.as_slice()),
    }
}

#[cycle(members)]
fn some_ruled_out(domains: &[Domain], members: &[Formula]) -> bool
    requires { greatest (map width members.now) ≤ length domains.now }
    ensures { result ≡ some (map (rules_out domains.now) members.now) }
{
    for member in members {
        if rules_out(domains, member) {
            return true;
        }
    }
    false
}

#[cycle(members)]
fn all_ruled_out(domains: &[Domain], members: &[Formula]) -> bool
    requires { greatest (map width members.now) ≤ length domains.now }
    ensures { result ≡ every (map (rules_out domains.now) members.now) }
{
    for member in members {
        if !rules_out(domains, member) {
            return false;
        }
    }
    true
}
