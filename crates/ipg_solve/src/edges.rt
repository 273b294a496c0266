ghost use Rattle.std.specs.Prelude.{◌≡◌, ◌+◌, ◌^◌, ◌<◌, ◌≤◌, ◌++◌, ◌∷◌, [], neg_ℤ, length, map, IfOk, OnOk};
ghost use Rattle.std.specs.Int.RustNames.{unsigned_abs};
ghost use Rattle.std.specs.List.{flat_map, AllByRecursion};
ghost use Rattle.ipg_lin.specs.Form.{terms_width};
ghost use Rattle.ipg_lin.specs.Formula.{width, greatest};
ghost use Rattle.ipg_cert.specs.Facts.{facts_of, bound_facts};
ghost use Rattle.ipg_cert.specs.Checks.{root_facts};
ghost use Rattle.ipg_solve.specs.Edges.{node_of, edge_of, edges_in, IsSized};

use ipg_lin::{Boxed, Formula, Linear};
use ipg_solve_potentials::Difference;
use std::alloc::{AllocError, Global};

/// The node of the first variable that is taken so often, or the ground.
fn node_of(often: i64, terms: &[(u64, i64)]) -> usize
    requires { terms_width terms.now ≤ 2 ^ 21 }
    ensures { result ≡ node_of often terms.now }
{
    match terms {
        [] => 0,
        [term, rest @ ..] => {
            if term.1 == often {
                term.0 as usize + 1
            } else {
                node_of(often, rest)
            }
        }
    }
}

fn edge_of(form: &Linear) -> Difference
    requires { terms_width form.now.terms ≤ 2 ^ 21 }
    ensures edge { result ≡ edge_of form.now }
    ensures sized { unsigned_abs form.now.constant ≤ 2 ^ 64 }
{
    Difference {
        from: node_of(-1, form.terms()),
        to: node_of(1, form.terms()),
        fall: i128::from(form.constant()),
    }
}

/// Puts the edges that the formula's facts are behind the others.
#[cycle(members)]
fn put_edges(edges: &mut Vec<Difference>, f: &Formula) -> Result<(), AllocError>
    requires { width f.now ≤ 2 ^ 21 }
    ensures edges { OnOk result (edges.new.items ≡ edges.old.items ++ edges_in (facts_of f.now)) }
    ensures sized { OnOk result (AllByRecursion IsSized (facts_of f.now)) }
{
    match f {
        Formula::Atom(form) => Ok(edges.push(edge_of(form))?),
        Formula::All(members) => put_members(edges, members.as_slice()),
        Formula::Any(_) => Ok(()),
    }
}

#[cycle(members)]
fn put_members(edges: &mut Vec<Difference>, members: &[Formula]) -> Result<(), AllocError>
    requires { greatest (map width members.now) ≤ 2 ^ 21 }
    ensures edges { OnOk result (edges.new.items ≡ edges.old.items ++ edges_in (flat_map facts_of members.now)) }
    ensures sized { OnOk result (AllByRecursion IsSized (flat_map facts_of members.now)) }
{
    for member in members {
        put_edges(edges, member)?;
    }
    Ok(())
}

/// Puts the edges between the ground and a variable.
fn put_bound(edges: &mut Vec<Difference>, x: usize, bound: &(i64, i64)) -> Result<(), AllocError>
    requires { x < 2 ^ 21 }
    ensures edges { OnOk result (edges.new.items ≡ edges.old.items ++ record { from = x + 1; to = 0; fall = bound.now.0 } ∷
        record { from = 0; to = x + 1; fall = neg_ℤ bound.now.1 } ∷ []) }
    ensures low { unsigned_abs bound.now.0 ≤ 2 ^ 64 }
    ensures high { unsigned_abs (neg_ℤ bound.now.1) ≤ 2 ^ 64 }
{
    edges.push(Difference {
        from: x + 1,
        to: 0,
        fall: i128::from(bound.0),
    })?;
    edges.push(Difference {
        from: 0,
        to: x + 1,
        fall: -i128::from(bound.1),
    })?;
    Ok(())
}

fn put_bounds(edges: &mut Vec<Difference>, bounds: &[(i64, i64)]) -> Result<(), AllocError>
    requires { length bounds.now < 2 ^ 21 }
    ensures edges { OnOk result (edges.new.items ≡ edges.old.items ++ edges_in (bound_facts 0 bounds.now)) }
    ensures sized { OnOk result (AllByRecursion IsSized (bound_facts 0 bounds.now)) }
{
    for (x, bound) in bounds.iter().enumerate() {
        put_bound(edges, x, bound)?;
    }
    Ok(())
}

/// The edges that the facts at the root are, in their order.
pub fn edges_of(alloc: Global, f: &Formula, b: &Boxed) -> Result<Vec<Difference>, AllocError>
    requires valued { width f.now ≤ length b.now.bounds }
    requires few { length b.now.bounds < 2 ^ 21 }
    ensures edges { IfOk result (λ edges. edges.items ≡ edges_in (root_facts f.now b.now)) }
    ensures sized { IfOk result (λ _. AllByRecursion IsSized (root_facts f.now b.now)) }
{
    let mut edges = Vec::new(alloc);
    put_bounds(&mut edges, b.bounds.as_slice())?;
    put_edges(&mut edges, f)?;
    Ok(edges)
}
