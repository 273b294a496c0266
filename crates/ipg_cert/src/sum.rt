ghost use Rattle.std.specs.Prelude.{◌≡◌, ℕ, ℤ, pos, ◌+◌, ◌*◌, ◌^◌, ◌<◌, ◌≤◌, ◌*ℤ◌, length, IsTrue, OnOk};
ghost use Rattle.std.specs.Int.RustNames.{unsigned_abs};
ghost use Rattle.ipg_lin.specs.Form.{is_coefficient, are_coefficients};
ghost use Rattle.ipg_cert.specs.Totals.{total_at, AddsAt, AddsTerms, AreWithin};

use ipg_lin::sum::{plus, times};
use std::alloc::AllocError;

/// No list has room for the last of the variables that 64 bits can tell.
const NO_SUCH_VARIABLE: AllocError = AllocError;

/// The product of a weight, and a coefficient or a constant.
pub fn weighted(weight: u64, value: i128) -> i128
    requires weight { weight ≤ 2 ^ 40 }
    requires value { unsigned_abs value ≤ 2 ^ 63 }
    ensures value { result ≡ pos weight *ℤ value }
    ensures size { unsigned_abs result ≤ 2 ^ 103 }
{
    times(weight as i64, value)
}

/// Makes room for a total of this variable.
fn make_room(totals: &mut Vec<i128>, var: u64) -> Result<(), AllocError>
    ensures same { (x : ℕ) → total_at totals.new.items x ≡ total_at totals.old.items x }
    ensures room { OnOk result (var < length totals.new.items) }
{
    if var == u64::MAX {
        return Err(NO_SUCH_VARIABLE);
    }
    let wanted = var as usize + 1;
    if totals.len() < wanted {
        totals.resize(wanted, 0)?;
    }
    Ok(())
}

/// Adds an amount to the total at this place.
fn add_in(totals: &mut [i128], place: usize, amount: i128)
    requires place { place < length totals.old }
    requires size { unsigned_abs amount + unsigned_abs (total_at totals.old place) < 2 ^ 127 }
    ensures { AddsAt totals.old totals.new place amount }
{
    totals[place] = plus(amount, totals[place]);
}

/// Adds an amount to the total of a variable.
pub fn add_at(totals: &mut Vec<i128>, var: u64, amount: i128) -> Result<(), AllocError>
    requires size { unsigned_abs amount + unsigned_abs (total_at totals.old.items var) < 2 ^ 127 }
    ensures { OnOk result (AddsAt totals.old.items totals.new.items var amount) }
{
    make_room(totals, var)?;
    add_in(totals.as_mut_slice(), var as usize, amount);
    Ok(())
}

/// Adds `weight` times a term.
fn add_term(totals: &mut Vec<i128>, weight: u64, term: &(u64, i64)) -> Result<(), AllocError>
    requires weight { weight ≤ 2 ^ 40 }
    requires coefficient { unsigned_abs term.now.1 ≤ 2 ^ 40 }
    requires size { unsigned_abs (total_at totals.old.items term.now.0) ≤ 2 ^ 126 }
    ensures { OnOk result (AddsAt totals.old.items totals.new.items term.now.0 (pos weight *ℤ term.now.1)) }
{
    add_at(totals, term.0, weighted(weight, i128::from(term.1)))
}

/// Adds `weight` times the terms, of which there are at most 64.
pub fn add_terms(
    totals: &mut Vec<i128>,
    weight: u64,
    terms: &[(u64, i64)],
) -> Result<(), AllocError>
    requires weight { weight ≤ 2 ^ 40 }
    requires few { length terms.now ≤ 64 }
    requires coefficients { IsTrue (are_coefficients terms.now) }
    requires size { AreWithin (2 ^ 120) totals.old.items }
    ensures { OnOk result (AddsTerms totals.old.items totals.new.items weight terms.now) }
{
    match terms {
        [] => Ok(()),
        [first, rest @ ..] => {
            add_terms(totals, weight, rest)?;
            add_term(totals, weight, first)
        }
    }
}
