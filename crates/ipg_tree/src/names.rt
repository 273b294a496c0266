//! The names and texts that lines show.

ghost use Rattle.std.specs.Prelude.{◌≡◌, ◌≤◌, ℕ, List, length, slice_get, Some};
ghost use Rattle.ipg_core.specs.Grammar.{Grammar};
ghost use Rattle.ipg_core.specs.declared.grammar.Sym.{Sym as AnySym};
ghost use Rattle.ipg_core.specs.declared.grammar.Sym.TheVariants.{Text as AnyText};
ghost use Rattle.ipg_core.specs.Lines as spec;
ghost use Rattle.ipg_table.specs.Rows.{StandFor};

use ipg_core::grammar::Sym;
use ipg_table::tables::Tables;

/// The name of a rule; empty where there is no such rule.
pub fn rule_name(tables: &Tables, rule: u32) -> &[u8]
    ensures { (g : Grammar) → StandFor tables.now g → result.now ≡ spec.rule_name g rule }
{
    if (rule as usize) < tables.rules().len() {
        tables.rule_name(rule)
    } else {
        &[]
    }
}

/// The name of a symbol, which is empty for a terminal.
fn name_of<'m>(tables: &'m Tables, sym: &Sym) -> &'m [u8]
    ensures { (g : Grammar) → StandFor tables.now g → result.now ≡ spec.sym_name g sym.now }
{
    match sym {
        Sym::Text(_) => &[],
        Sym::Prim(prim) => prim.word(),
        Sym::Rule(rule) => rule_name(tables, *rule),
    }
}

/// The name of a symbol by its number; empty where there is none.
pub fn sym_name(tables: &Tables, sym: u32) -> &[u8]
    ensures { (g : Grammar) (one : AnySym) → StandFor tables.now g → slice_get tables.now.syms sym ≡ Some one → result.now ≡ spec.sym_name g one }
{
    match tables.symbol_at(sym) {
        Some(one) => name_of(tables, one),
        None => &[],
    }
}

/// The text of a terminal by the number of its symbol; empty where that is none.
pub(crate) fn text_of(tables: &Tables, sym: u32) -> &[u8]
    ensures { (bytes : List ℕ) → slice_get tables.now.syms sym ≡ Some (AnyText bytes) → result.now ≡ bytes }
{
    match tables.symbol_at(sym) {
        Some(Sym::Text(bytes)) => bytes.as_slice(),
        _ => &[],
    }
}
