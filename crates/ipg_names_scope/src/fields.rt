//! The attributes that each alternative of each rule sets.
ghost use Rattle.std.specs.Prelude.{◌≡◌, ℕ, List as Listed, map, IfOk};
ghost use Rattle.std.specs.List.{AllByRecursion};
ghost use Rattle.ipg_names_scope.specs.Scope.{alt_sets};
ghost use Rattle.ipg_names_scope.specs.View.{entries_view, HasShortTerms, IsFit};
ghost use Rattle.ipg_names_scope.specs.Fields.{alts_set, rows_set, row_of};

use crate::marks::{Family, Places, places};
use crate::roster::ListedRule;
use ipg_ast::Alt;
use ipg_num::List;
use std::alloc::{AllocError, Global};

/// A row for each rule, in it a table for each alternative.
pub fn fields_of<'a>(
    alloc: Global,
    roster: &[ListedRule<'a>],
) -> Result<Vec<List<Places<'a>>>, AllocError>
    requires { AllByRecursion IsFit (entries_view roster.now) }
    ensures { IfOk result (λ rows. (f : Listed ℕ) → rows_set f rows.items ≡ map (row_of f) (entries_view roster.now)) }
{
    let mut rows = Vec::with_capacity(alloc, roster.len())?;
    for entry in roster {
        rows.push(row(alloc, entry.rule.alts.as_slice())?)?;
    }
    Ok(rows)
}

fn row<'a>(alloc: Global, alts: &'a [Alt]) -> Result<List<Places<'a>>, AllocError>
    requires { AllByRecursion HasShortTerms alts.now }
    ensures { IfOk result (λ row. (f : Listed ℕ) → alts_set f row ≡ map (alt_sets f) alts.now) }
{
    let mut row = Vec::with_capacity(alloc, alts.len())?;
    for alt in alts {
        row.push(places(alloc, Family::Sets, alt.terms.as_slice())?)?;
    }
    Ok(List::from_vec(row))
}
