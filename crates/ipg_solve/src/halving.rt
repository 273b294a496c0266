ghost use Rattle.std.specs.Prelude.{◌≡◌, [], ◌∷◌, ◌++◌, ◌+◌, ◌*◌, ◌<◌, ◌≤◌, ◌≤ℤ◌, ◌<ℤ◌, List, length, map, reverse, slice_set, MatchOption, OnOk, IfOk, IsTrue};
ghost use Rattle.ipg_lin.specs.Formula.{width};
ghost use Rattle.ipg_lin.specs.declared.formula.Boxed.{Boxed as Bounded};
ghost use Rattle.ipg_solve.specs.declared.domain.Domain.{Domain as DomainValue};
ghost use Rattle.ipg_solve.specs.Domains.{domain_at, width_of, rules_out, AreFull, ArePoints};
ghost use Rattle.ipg_solve.specs.Cuts.{side_of, above, start_domains, domains_after, AreCuts, IsCut, Backs, Halved, Turns};
ghost use Rattle.ipg_solve.specs.Decides.{Decides};
ghost use Rattle.ipg_solve.specs.Closes.{ClosesFormula};

use crate::closing::{close, push_step};
use crate::counting::{count, counted};
use crate::decision::Decision;
use crate::domain::Domain;
use crate::domain_cut::{CutSide, DomainCut};
use crate::least::rules_out;
use ipg_cert::{Refutation, Step};
use ipg_lin::{Boxed, Formula};
use ipg_num::List;
use std::alloc::{AllocError, Global};

/// The most steps of a refutation by halving.
const MOST_STEPS: usize = 1 << 24;

/// More steps count as want of memory.
const TOO_MANY_STEPS: AllocError = AllocError;

/// What is halved: a formula and its box, and how many facts they are at the root.
#[derive(Clone, Copy)]
struct Root<'a> {
    f: &'a Formula,
    b: &'a Boxed,
    facts: u64,
}

/// What a turn of the halving comes to.
#[derive(Clone, Copy)]
enum HalvingTurn {
    More,
    /// The part at hand is a point that solves the formula.
    Solved,
    /// Every part is refuted.
    Refuted,
}

fn width_of(domain: Domain) -> u128
    ensures { result ≡ width_of domain }
{
    (i128::from(domain.high) - i128::from(domain.low)).unsigned_abs()
}

/// The variable that can be the most values, if some variable can be two.
fn widest(domains: &[Domain]) -> Option<usize>
    requires { AreFull domains.now }
    ensures { MatchOption result (ArePoints domains.now) (λ x. (x < length domains.now) × ((domain_at domains.now x).low <ℤ (domain_at domains.now x).high)) }
{
    let mut widest = None;
    let mut most = 0u128;
    for (x, domain) in domains.iter().enumerate() {
        let width = width_of(*domain);
        if most < width {
            widest = Some(x);
            most = width;
        }
    }
    widest
}

/// The middle of a domain of two values or more.
fn middle(domain: Domain) -> i64
    requires { domain.low <ℤ domain.high }
    ensures least { domain.low ≤ℤ result }
    ensures most { result <ℤ domain.high }
{
    let half = width_of(domain) / 2;
    (i128::from(domain.low) + half as i128) as i64
}

/// The domain of the cut's variable on its side; n is the number of the cut's fact.
fn side_of(n: u64, cut: DomainCut) -> Domain
    requires { cut.at <ℤ cut.old.high }
    ensures { result ≡ side_of n cut }
{
    match cut.side {
        CutSide::Below => Domain {
            high: cut.at,
            high_at: n,
            ..cut.old
        },
        CutSide::Above => Domain {
            low: cut.at + 1,
            low_at: n,
            ..cut.old
        },
    }
}

fn above(cut: DomainCut) -> DomainCut
    ensures { result ≡ above cut }
{
    DomainCut {
        side: CutSide::Above,
        ..cut
    }
}

/// Cuts the part at hand in the middle of a variable's domain, and takes the lower side. Where there are too
/// many steps, memory is said to be wanting before it is.
fn cut_at(
    first: u64,
    x: usize,
    domains: &mut Vec<Domain>,
    cuts: &mut Vec<DomainCut>,
    steps: &mut Vec<Step>,
) -> Result<(), AllocError>
    requires within { x < length domains.old.items }
    requires wide { (domain_at domains.old.items x).low <ℤ (domain_at domains.old.items x).high }
    ensures { OnOk result (IsCut first x domains.old.items domains.new.items cuts.old.items cuts.new.items steps.old.items steps.new.items) }
{
    if MOST_STEPS <= steps.len() {
        return Err(TOO_MANY_STEPS);
    }
    let old = domains[x];
    let cut = DomainCut {
        var: x,
        at: middle(old),
        side: CutSide::Below,
        old,
    };
    let n = counted(first, cuts.len() as u64)?;
    push_step(
        steps,
        Step::Split {
            var: x as u64,
            at: cut.at,
        },
    )?;
    cuts.push(cut)?;
    domains[x] = side_of(n, cut);
    Ok(())
}

/// Takes a cut's upper side.
fn go_above(
    first: u64,
    cut: DomainCut,
    domains: &mut Vec<Domain>,
    cuts: &mut Vec<DomainCut>,
) -> Result<(), AllocError>
    requires within { cut.var < length domains.old.items }
    requires side { cut.at <ℤ cut.old.high }
    ensures cuts { OnOk result (cuts.new.items ≡ cuts.old.items ++ above cut ∷ []) }
    ensures domains { OnOk result (domains.new.items ≡ slice_set domains.old.items cut.var (side_of (first + length cuts.old.items) (above cut))) }
{
    let n = counted(first, cuts.len() as u64)?;
    let upper = above(cut);
    cuts.push(upper)?;
    domains[cut.var] = side_of(n, upper);
    Ok(())
}

/// Goes back to the last cut whose upper side waits, and takes that side. Where none waits, every part is refuted.
fn back(
    first: u64,
    domains: &mut Vec<Domain>,
    cuts: &mut Vec<DomainCut>,
) -> Result<HalvingTurn, AllocError>
    ghost start: { List DomainValue }
    requires domains { domains.old.items ≡ domains_after first start (reverse cuts.old.items) }
    requires cuts { AreCuts first start (reverse cuts.old.items) }
    ensures { IfOk result (λ turn. Backs first start domains.new.items (reverse cuts.old.items) (reverse cuts.new.items) turn) }
{
    while let Some(cut) = cuts.pop() {
        match cut.side {
            CutSide::Below => {
                go_above(first, cut, domains, cuts)?;
                return Ok(HalvingTurn::More);
            }
            CutSide::Above => domains[cut.var] = cut.old,
        }
    }
    Ok(HalvingTurn::Refuted)
}

/// Refutes the part at hand, which the domains rule out.
fn close_part(
    alloc: Global,
    root: Root,
    domains: &[Domain],
    cuts: &[DomainCut],
    steps: &mut Vec<Step>,
) -> Result<(), AllocError>
    requires width { width root.f.now ≤ length domains.now }
    requires ruled_out { IsTrue (rules_out domains.now root.f.now) }
    ensures { OnOk result (ClosesFormula domains.now (length root.entry.b.now.bounds + length root.entry.b.now.bounds)
        (root.entry.facts + length cuts.now) root.entry.f.now steps.old.items steps.new.items) }
{
    let vars = root.b.bounds.len() as u64;
    let number = counted(vars, vars)?;
    let next = counted(root.facts, cuts.len() as u64)?;
    close(alloc, domains, root.f, number, next, steps)
}

/// Refutes the part at hand, solves it, or cuts it.
fn advance(
    alloc: Global,
    root: Root,
    domains: &mut Vec<Domain>,
    cuts: &mut Vec<DomainCut>,
    steps: &mut Vec<Step>,
) -> Result<HalvingTurn, AllocError>
    ghost around: { Bounded }
    requires around { around ≡ root.b.now }
    requires valued { width root.f.now ≤ length around.bounds }
    requires full { AreFull (start_domains 0 around.bounds) }
    requires halved { Halved root.f.now around root.facts domains.old.items (reverse cuts.old.items) steps.old.items }
    ensures { IfOk result (λ turn. Turns root.entry.f.now around root.entry.facts domains.new.items cuts.old.items cuts.new.items
        steps.new.items turn) }
{
    if rules_out(domains, root.f) {
        close_part(alloc, root, domains, cuts, steps)?;
        back(root.facts, domains, cuts)
    } else {
        match widest(domains) {
            Some(x) => {
                cut_at(root.facts, x, domains, cuts, steps)?;
                Ok(HalvingTurn::More)
            }
            None => Ok(HalvingTurn::Solved),
        }
    }
}

/// The box as domains.
fn domains_of(alloc: Global, bounds: &[(i64, i64)]) -> Result<Vec<Domain>, AllocError>
    ensures { IfOk result (λ domains. domains.items ≡ start_domains 0 bounds.now) }
{
    let mut domains = Vec::new(alloc);
    for (x, bound) in bounds.iter().enumerate() {
        let low_at = counted(x as u64, x as u64)?;
        let high_at = counted(low_at, 1)?;
        push_domain(&mut domains, bound, low_at, high_at)?;
    }
    Ok(domains)
}

fn push_domain(
    domains: &mut Vec<Domain>,
    bound: &(i64, i64),
    low_at: u64,
    high_at: u64,
) -> Result<(), AllocError>
    ensures { OnOk result (domains.new.items ≡ domains.old.items ++ record { low = bound.now.0; low_at = low_at; high = bound.now.1; high_at = high_at } ∷ []) }
{
    domains.push(Domain {
        low: bound.0,
        low_at,
        high: bound.1,
        high_at,
    })?;
    Ok(())
}

/// The point that the domains are.
fn point(alloc: Global, domains: &[Domain]) -> Result<List<i64>, AllocError>
    ensures { IfOk result (λ values. values ≡ map (λ s. s.low) domains.now) }
{
    let mut values = List::new(alloc);
    for domain in domains {
        values.push(domain.low)?;
    }
    Ok(values)
}

/// Halves the box until every part is refuted, or a point solves the formula.
pub fn halve(alloc: Global, f: &Formula, b: &Boxed) -> Result<Decision, AllocError>
    requires valued { width f.now ≤ length b.now.bounds }
    requires full { AreFull (start_domains 0 b.now.bounds) }
    ensures { IfOk result (λ decision. Decides f.now b.now decision) }
{
    let mut domains = domains_of(alloc, b.bounds.as_slice())?;
    let vars = domains.len() as u64;
    let first = counted(counted(vars, vars)?, count(f)?)?;
    let root = Root { f, b, facts: first };
    let mut cuts = Vec::new(alloc);
    let mut steps = Vec::new(alloc);
    loop {
        match advance(alloc, root, &mut domains, &mut cuts, &mut steps)? {
            HalvingTurn::More => {}
            HalvingTurn::Solved => return Ok(Decision::Solution(point(alloc, &domains)?)),
            HalvingTurn::Refuted => {
                return Ok(Decision::Refuted(Refutation {
                    steps: List::from_vec(steps),
                }));
            }
        }
    }
}
