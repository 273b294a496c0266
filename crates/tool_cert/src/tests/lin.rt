//! Sums and formulas.

ghost use Rattle.std.specs.Prelude.{◌≡◌, IfOk};
ghost use Rattle.ipg_lin.specs.Formula.{width};

use ipg_lin::{Formula, LinFault, Linear, holds};
use ipg_num::List;
use std::alloc::Global;
use std::test::Fail;

/// `2x - 8 <= 0` and `8 - 2x <= 0`.
fn four(alloc: Global) -> Result<Formula, Fail>
    ensures { IfOk result (λ f. width f ≡ 1) }
{
    let below = Linear::new(alloc, &[(0, 2)], -8)?;
    let above = Linear::new(alloc, &[(0, -2)], 8)?;
    let mut members = List::new(alloc);
    members.push(Formula::Atom(below))?;
    members.push(Formula::Atom(above))?;
    Ok(Formula::All(members))
}

#[test]
fn a_pair_holds_at_one_value(rt: HostRuntime) -> Result<(), Fail> {
    let f = four(rt.alloc())?;
    assert!(rt; holds(&f, &[4]));
    assert!(rt; !holds(&f, &[5]));
    Ok(())
}

#[test]
fn terms_out_of_rule_are_refused(rt: HostRuntime) -> Result<(), Fail> {
    let alloc = rt.alloc();
    assert!(rt; matches!(Linear::new(alloc, &[(0, 0)], 0), Err(LinFault::Limit)));
    assert!(rt;
        matches!(
            Linear::new(alloc, &[(1, 1), (0, 1)], 0),
            Err(LinFault::Limit)
        )
    );
    let form = Linear::new(alloc, &[(0, 1), (7, -(1 << 40))], -3)?;
    assert!(rt; form.terms() == [(0, 1), (7, -(1 << 40))].as_slice());
    assert_eq!(rt; form.constant(), -3);
    Ok(())
}
