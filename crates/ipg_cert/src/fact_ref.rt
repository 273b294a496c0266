ghost use Rattle.std.specs.Prelude.{ℕ, ◌^◌, ◌≤◌, IsTrue};
ghost use Rattle.ipg_lin.specs.Form.{is_coefficient};
ghost use Rattle.std.specs.Int.RustNames.{unsigned_abs};

use ipg_lin::{Formula, Linear};

/// A bound of one variable: `sign` times it and the constant come to at most 0.
#[derive(Clone, Copy)]
pub struct Bound {
    pub var: u64,
    pub sign: i64,
    pub constant: i128,
    ghost coefficient: { IsTrue (is_coefficient sign) },
    ghost sized: { unsigned_abs constant ≤ 2 ^ 63 },
}

/// A fact that holds in the case at hand; the formula lends its form or its members.
#[derive(Clone, Copy)]
pub enum FactRef<'a> {
    Limit(Bound),
    Atom(&'a Linear),
    /// One of these formulas holds.
    Choice(&'a [Formula]),
}
