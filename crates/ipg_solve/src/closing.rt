ghost use Rattle.std.specs.Prelude.{◌≡◌, ◌+◌, ◌<◌, ◌≤◌, ◌++◌, [], ◌∷◌, length, map, IsTrue, IfOk, OnOk};
ghost use Rattle.ipg_lin.specs.Form.{terms_width, in_rule};
ghost use Rattle.ipg_lin.specs.Formula.{every, some, width, greatest};
ghost use Rattle.ipg_solve.specs.Domains.{fact_of_end, rules_out};
ghost use Rattle.ipg_solve.specs.Closes.{entry_of, ClosesFormula, ClosesMembers, ClosesChoice, ClosesCases};
ghost use Rattle.ipg_cert.specs.declared.refutation.Step.TheVariants.{Combine};

use crate::counting::{count, counted};
use crate::domain::Domain;
use crate::laws::ends_combine;
use crate::least::{domain_of, rules_out};
use ipg_cert::Step;
use ipg_lin::{Formula, Linear};
use ipg_num::List;
use std::alloc::{AllocError, Global};

fn fact_of_end(domain: Domain, coefficient: i64) -> u64
    ensures { result ≡ fact_of_end domain coefficient }
{
    if coefficient < 0 {
        domain.high_at
    } else {
        domain.low_at
    }
}

fn entry_of(domains: &[Domain], term: &(u64, i64)) -> (u64, u64)
    requires { term.now.0 < length domains.now }
    ensures { result ≡ entry_of domains.now term.now }
{
    let domain = domain_of(domains, term.0);
    (term.1.unsigned_abs(), fact_of_end(domain, term.1))
}

/// Puts the ends at which the terms are least behind the entries.
fn put_ends(
    entries: &mut Vec<(u64, u64)>,
    domains: &[Domain],
    terms: &[(u64, i64)],
) -> Result<(), AllocError>
    requires { terms_width terms.now ≤ length domains.now }
    ensures { OnOk result (entries.new.items ≡ entries.old.items ++ map (entry_of domains.now) terms.now) }
{
    for term in terms {
        entries.push(entry_of(domains, term))?;
    }
    Ok(())
}

/// The Combine of a form's fact and the ends at which it is least.
fn combine_of(
    alloc: Global,
    form: &Linear,
    number: u64,
    domains: &[Domain],
) -> Result<Step, AllocError>
    requires { terms_width form.now.terms ≤ length domains.now }
    ensures rule { IfOk result (λ _. IsTrue (in_rule form.now.terms)) }
    ensures step { IfOk result (λ step. step ≡ Combine ((1, number) ∷ map (entry_of domains.now) form.now.terms)) }
{
    let mut entries = Vec::new(alloc);
    entries.push((1, number))?;
    put_ends(&mut entries, domains, form.terms())?;
    Ok(Step::Combine(List::from_vec(entries)))
}

pub fn push_step(steps: &mut Vec<Step>, step: Step) -> Result<(), AllocError>
    ensures { OnOk result (steps.new.items ≡ steps.old.items ++ step ∷ []) }
{
    steps.push(step)?;
    Ok(())
}

/// Refutes the facts at hand, where the domains rule out a formula among them whose facts begin at
/// `number`; the next fact has the number `next`.
#[cycle(closing)]
pub fn close(
    alloc: Global,
    domains: &[Domain],
    f: &Formula,
    number: u64,
    next: u64,
    steps: &mut Vec<Step>,
) -> Result<(), AllocError>
    requires width { width f.now ≤ length domains.now }
    requires ruled_out { IsTrue (rules_out domains.now f.now) }
    ensures { OnOk result (ClosesFormula domains.now number next f.now steps.old.items steps.new.items) }
{
    ends_combine();
    match f {
        Formula::Atom(form) => push_step(steps, combine_of(alloc, form, number, domains)?),
        Formula::All(members) => close_all(alloc, domains, members.as_slice(), number, next, steps),
        Formula::Any(members) => close_any(alloc, domains, members.as_slice(), number, next, steps),
    }
}

/// Refutes the facts at hand by the first member that the domains rule out.
#[cycle(closing)]
fn close_all(
    alloc: Global,
    domains: &[Domain],
    members: &[Formula],
    number: u64,
    next: u64,
    steps: &mut Vec<Step>,
) -> Result<(), AllocError>
    requires width { greatest (map width members.now) ≤ length domains.now }
    requires ruled_out { IsTrue (some (map (rules_out domains.now) members.now)) }
    ensures { OnOk result (ClosesMembers domains.now number next members.now steps.old.items steps.new.items) }
{
    let mut first = number;
    for member in members {
        if rules_out(domains, member) {
            return close(alloc, domains, member, first, next, steps);
        }
        first = counted(first, count(member)?)?;
    }
    Ok(())
}

#[cycle(closing)]
fn close_any(
    alloc: Global,
    domains: &[Domain],
    members: &[Formula],
    number: u64,
    next: u64,
    steps: &mut Vec<Step>,
) -> Result<(), AllocError>
    requires width { greatest (map width members.now) ≤ length domains.now }
    requires ruled_out { IsTrue (every (map (rules_out domains.now) members.now)) }
    ensures { OnOk result (ClosesChoice domains.now number next members.now steps.old.items steps.new.items) }
{
    push_step(
        steps,
        Step::Either {
            fact: number,
            parts: members.len() as u64,
        },
    )?;
    close_cases(alloc, domains, members, next, steps)
}

/// Refutes the case of each member.
#[cycle(closing)]
fn close_cases(
    alloc: Global,
    domains: &[Domain],
    members: &[Formula],
    next: u64,
    steps: &mut Vec<Step>,
) -> Result<(), AllocError>
    requires width { greatest (map width members.now) ≤ length domains.now }
    requires ruled_out { IsTrue (every (map (rules_out domains.now) members.now)) }
    ensures { OnOk result (ClosesCases domains.now next members.now steps.old.items steps.new.items) }
{
    for member in members {
        let behind = counted(next, count(member)?)?;
        close(alloc, domains, member, next, behind, steps)?;
    }
    Ok(())
}
