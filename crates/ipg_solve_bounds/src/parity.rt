//! Equations that no whole numbers meet, and whose refutations are too long.
use crate::case_bounds::CaseBounds;
use crate::domain_end::DomainEnd;
use crate::fact_sum::{are_opposite, gcd};
use ipg_lin::Linear;

/// A refutation with more cases takes more steps than may be kept.
const MOST_CELLS: u128 = 1 << 24;

impl<'a> CaseBounds<'a> {
    /// Whether numbers meet an equation, but no whole ones, in too many places: cuts alone part those, so that each
    /// place wants a case of its own.
    pub fn parts_too_many(&self) -> bool {
        self.atoms.sums().iter().any(|place| match self.atoms.at(*place) {
            Some(atom) => self.is_parted_too_often(atom.form),
            None => false,
        })
    }

    fn is_parted_too_often(&self, form: &Linear) -> bool {
        !is_whole(form) && MOST_CELLS < self.cells(form) && self.is_equation(form)
    }

    /// Whether there is an atom that says the opposite.
    fn is_equation(&self, form: &Linear) -> bool {
        self.atoms.sums().iter().any(|place| match self.atoms.at(*place) {
            Some(other) => is_opposite(form, other.form),
            None => false,
        })
    }

    /// About how many cases it takes to part the numbers that make the form 0: with the most taken variable between
    /// two whole numbers, the others go as far as the form stays within one step of it.
    fn cells(&self, form: &Linear) -> u128 {
        let most = form
            .terms()
            .iter()
            .map(|term| term.1.unsigned_abs())
            .max()
            .unwrap_or(1);
        let mut cells = 1u128;
        let mut widest = 1u128;
        for term in form.terms() {
            let part = self.steps_of(*term, most);
            cells = cells.saturating_mul(widest.min(part));
            widest = widest.max(part);
        }
        cells
    }

    /// How many steps of that size the term goes through.
    fn steps_of(&self, term: (u64, i64), step: u64) -> u128 {
        let var = term.0 as usize;
        let (Some(low), Some(high)) = (
            self.trail.at(DomainEnd::low(var)),
            self.trail.at(DomainEnd::high(var)),
        ) else {
            return 1;
        };
        let way = u128::from(high.abs_diff(low)).saturating_mul(u128::from(term.1.unsigned_abs()));
        way.checked_div(u128::from(step)).unwrap_or(1).max(1)
    }
}

/// Whether what divides all factors divides the constant too.
fn is_whole(form: &Linear) -> bool {
    let common = form
        .terms()
        .iter()
        .fold(0, |common, term| gcd(common, term.1.unsigned_abs()));
    form.constant().unsigned_abs().checked_rem(common) == Some(0)
}

fn is_opposite(form: &Linear, other: &Linear) -> bool {
    form.constant().wrapping_add(other.constant()) == 0 && are_opposite(form.terms(), other.terms())
}
