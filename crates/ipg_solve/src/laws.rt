//! What holds of the ends of domains, as the contract of a function that calls only the laws it stands on.

ghost use Rattle.ipg_solve.specs.Laws.{EndsCombine};

use ipg_cert::laws::{cancelled_is_absurd, sum_takes};

/// An atom that domains rule out is refuted by one sum of facts: its own, and of each of its terms the end at which it is least.
pub fn ends_combine()
    ensures { EndsCombine }
{
    sum_takes();
    cancelled_is_absurd();
}
