//! The alternatives of a rule, as the tables have them.

ghost use Rattle.std.specs.Prelude.{◌≡◌, List, ◌∷◌, drop};
ghost use Rattle.ipg_core.specs.declared.grammar.CoreAlt.{CoreAlt};
ghost use Rattle.ipg_core.specs.Grammar.{Grammar, rule_at};
ghost use Rattle.ipg_mach_moves.specs.Moves.{alts_of};
ghost use Rattle.ipg_table.specs.Rows.{Each, HoldsAlt, StandFor, attrs_in};
ghost use Rattle.ipg_mach.specs.Calls.{IsNext};

use ipg_num::item_at;
use ipg_table::row::AltRow;
use ipg_table::tables::Tables;

/// The alternatives of a rule; none where there is no such rule.
fn alts_of(tables: &Tables, rule: u32) -> &[AltRow]
    ensures { (g : Grammar) → StandFor tables.now g → Each (HoldsAlt tables.now) result.now (alts_of (rule_at g rule)) }
{
    match item_at(tables.rules(), rule as usize) {
        Some(row) => tables.alts(row),
        None => &[],
    }
}

/// The alternative of a number; None where the rule has no more.
pub fn alternative(tables: &Tables, rule: u32, alt: u32) -> Option<&AltRow>
    ensures { (g : Grammar) → StandFor tables.now g → IsNext tables.now result (drop alt (alts_of (rule_at g rule))) }
{
    item_at(alts_of(tables, rule), alt as usize)
}

/// The attributes that an alternative sets, in text order.
pub fn sets_of(tables: &Tables, rule: u32, alt: u32) -> &[u32]
    ensures { (g : Grammar) (own : CoreAlt) (rest : List CoreAlt) → StandFor tables.now g
        → drop alt (alts_of (rule_at g rule)) ≡ own ∷ rest → result.now ≡ attrs_in own.terms }
{
    match alternative(tables, rule, alt) {
        Some(row) => tables.sets(row),
        None => &[],
    }
}
