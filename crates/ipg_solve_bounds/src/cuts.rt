//! Where the box is cut.
use crate::case_bounds::CaseBounds;
use crate::domain_end::DomainEnd;
use crate::parting::Parting;
use ipg_lin::Linear;

/// A cut by rounding rules out this part of the variable's values at least.
const LEAST_PART: i128 = 16;

/// How many values the variable can be, less one.
#[derive(Clone, Copy)]
struct Width {
    var: usize,
    width: i128,
}

/// The narrower of two.
fn narrower(a: Option<Width>, b: Option<Width>) -> Option<Width> {
    match (a, b) {
        (Some(a), Some(b)) => Some(if b.width < a.width { b } else { a }),
        (None, b) => b,
        (a, None) => a,
    }
}

impl<'a> CaseBounds<'a> {
    fn width(&self, var: usize) -> Option<Width> {
        let low = i128::from(self.trail.at(DomainEnd::low(var))?);
        let high = i128::from(self.trail.at(DomainEnd::high(var))?);
        let width = high.wrapping_sub(low);
        if 0 < width {
            Some(Width { var, width })
        } else {
            None
        }
    }

    /// A cut that a multiple of a variable calls for: past it an atom is ruled out at once.
    pub fn rounding_cut(&self) -> Option<Parting> {
        for place in self.atoms.sums() {
            if let Some(atom) = self.atoms.at(*place) {
                let cut = self.cut_of(atom.form);
                if cut.is_some() {
                    return cut;
                }
            }
        }
        None
    }

    fn cut_of(&self, form: &Linear) -> Option<Parting> {
        let least = self.trail.least(form)?;
        form.terms()
            .iter()
            .find_map(|term| self.cut_at(*term, least))
    }

    /// A cut at the value where the term is rounded, unless it gains too little.
    fn cut_at(&self, term: (u64, i64), least: i128) -> Option<Parting> {
        if term.1.unsigned_abs() <= 1 {
            return None;
        }
        let Width { var, width } = self.width(term.0 as usize)?;
        let low = self.trail.at(DomainEnd::low(var))?;
        let high = self.trail.at(DomainEnd::high(var))?;
        let at = self.trail.rounded(term, least)?;
        let (at, end) = if 0 < term.1 {
            (at, high)
        } else {
            (at.checked_sub(1)?, low)
        };
        let gain = i128::from(at).wrapping_sub(i128::from(end)).wrapping_abs();
        if low <= at && at < high && width <= gain.saturating_mul(LEAST_PART) {
            Some(Parting { var, at })
        } else {
            None
        }
    }

    /// The middle of the narrowest variable of a sum, or else of any variable.
    pub fn middle_cut(&self) -> Option<Parting> {
        let mut best = None;
        for place in self.atoms.sums() {
            if let Some(atom) = self.atoms.at(*place) {
                for term in atom.form.terms() {
                    best = narrower(best, self.width(term.0 as usize));
                }
            }
        }
        if best.is_none() {
            for var in 0..self.vars {
                best = narrower(best, self.width(var));
            }
        }
        let Width { var, width } = best?;
        let low = i128::from(self.trail.at(DomainEnd::low(var))?);
        let at = i64::try_from(low.wrapping_add(width.div_euclid(2))).ok()?;
        Some(Parting { var, at })
    }

    /// The middle of the widest limits: however bounds are derived, both sides are smaller.
    pub fn limit_cut(&self) -> Option<Parting> {
        let mut most = 0i128;
        let mut cut = None;
        for var in 0..self.vars {
            let low = i128::from(self.trail.latest(DomainEnd::low(var))?.limit.at);
            let high = i128::from(self.trail.latest(DomainEnd::high(var))?.limit.at);
            let width = high.wrapping_sub(low);
            if most < width {
                most = width;
                let at = i64::try_from(low.wrapping_add(width.div_euclid(2))).ok()?;
                cut = Some(Parting { var, at });
            }
        }
        cut
    }
}
