ghost use Rattle.std.specs.Prelude.{◌≡◌, pos, ◌+ℤ◌};
ghost use Rattle.ipg_cert.specs.Facts.{AtMost, at_least, at_most};
ghost use Rattle.ipg_cert.specs.Seen.{form_of};

use ipg_cert::Bound;
use ipg_solve_bounds::Parting;

/// What the part below a cut knows.
pub fn below(parting: Parting) -> Bound
    ensures { AtMost (form_of result) ≡ at_most parting.var parting.at }
{
    Bound::at_most(parting.var as u64, i128::from(parting.at))
}

/// What the part above a cut knows.
pub fn above(parting: Parting) -> Bound
    ensures { AtMost (form_of result) ≡ at_least parting.var (parting.at +ℤ pos 1) }
{
    Bound::at_least(parting.var as u64, i128::from(parting.at) + 1)
}
