//! Numbers for names.
ghost use Rattle.std.specs.Prelude.{◌≡◌, slice_get, Some};
ghost use Rattle.ipg_core.specs.declared.grammar.Sym.{Sym as AnySym};
ghost use Rattle.ipg_tree_rows.specs.Rows as spec;

use ipg_core::grammar::Sym;
use ipg_table::tables::Tables;

/// A name by its number, and whose number that is.
#[derive(Clone, Copy)]
pub(crate) struct Named {
    pub(crate) of: u32,
    pub(crate) number: u32,
}

fn name_of(sym: &Sym) -> Named
    ensures of { result.of ≡ (spec.name_of sym.now).0 }
    ensures number { result.number ≡ (spec.name_of sym.now).1 }
{
    match sym {
        Sym::Rule(rule) => Named {
            of: 0,
            number: *rule,
        },
        Sym::Prim(prim) => Named {
            of: 1,
            number: u32::from(prim.number()),
        },
        Sym::Text(_) => Named { of: 2, number: 0 },
    }
}

/// The name of a symbol, by its place in the list of symbols.
pub(crate) fn sym_name(tables: &Tables, sym: u32) -> Named
    ensures { (one : AnySym) → slice_get tables.now.syms sym ≡ Some one
        → (result.of ≡ (spec.name_of one).0) × (result.number ≡ (spec.name_of one).1) }
{
    match tables.symbol_at(sym) {
        Some(one) => name_of(one),
        None => Named { of: 2, number: 0 },
    }
}
