//! Which symbols may read a stored child.

ghost use Rattle.std.specs.Prelude.{◌≡◌, nat_eq, slice_get, Some};
ghost use Rattle.ipg_core.specs.declared.grammar.Sym.{Sym as AnySym};
ghost use Rattle.ipg_core.specs.declared.grammar.Sym.TheVariants.{Prim, Rule};
ghost use Rattle.ipg_core.specs.Environment as spec;
ghost use Rattle.ipg_core.specs.Grammar as grammar;
ghost use Rattle.ipg_core.specs.Tree.{sym_of};
ghost use Rattle.ipg_mach_results.specs.Standing.{OfKid};

use crate::attrs::head;
use ipg_core::grammar::{Primitive, Sym};
use ipg_mach_nodes::{Kid, Store};
use ipg_table::tables::Tables;
use std::alloc::Allocator;

/// Whether two primitives are one.
fn same_primitive(a: Primitive, b: Primitive) -> bool
    ensures { result ≡ nat_eq (grammar.primitive_number a) (grammar.primitive_number b) }
{
    a.number() == b.number()
}

/// Whether two symbols are one.
fn same_sym(a: &Sym, b: &Sym) -> bool
    ensures { result ≡ grammar.same_sym a.now b.now }
{
    match (a, b) {
        (Sym::Text(a), Sym::Text(b)) => a.as_slice() == b.as_slice(),
        (Sym::Prim(a), Sym::Prim(b)) => same_primitive(*a, *b),
        (Sym::Rule(a), Sym::Rule(b)) => *a == *b,
        _ => false,
    }
}

/// Whether a symbol is the one of that number.
fn is_symbol(tables: &Tables, sym: &Sym, number: u32) -> bool
    ensures { (one : AnySym) → slice_get tables.now.syms number ≡ Some one → result ≡ grammar.same_sym sym.now one }
{
    match tables.symbol_at(number) {
        Some(one) => same_sym(sym, one),
        None => false,
    }
}

fn is_rule(sym: &Sym, rule: u32) -> bool
    ensures { result ≡ grammar.same_sym sym.now (Rule rule) }
{
    match sym {
        Sym::Rule(callee) => *callee == rule,
        Sym::Text(_) => false,
        Sym::Prim(_) => false,
    }
}

fn is_primitive(sym: &Sym, prim: Primitive) -> bool
    ensures { result ≡ grammar.same_sym sym.now (Prim prim) }
{
    match sym {
        Sym::Prim(other) => same_primitive(*other, prim),
        Sym::Text(_) => false,
        Sym::Rule(_) => false,
    }
}

fn is_text(sym: &Sym) -> bool
    ensures { result ≡ grammar.is_text sym.now }
{
    matches!(sym, Sym::Text(_))
}

/// Whether the symbol names what was parsed.
fn is_of<A: Allocator + Clone + Drop>(
    store: &Store<A>,
    tables: &Tables,
    kid: Kid,
    sym: &Sym,
) -> bool
    ensures { OfKid tables.now store.now kid (λ one. result ≡ grammar.same_sym sym.now (sym_of one)) }
{
    match kid {
        Kid::Node { id, .. } => is_rule(sym, head(store, id).rule),
        Kid::Text { sym: number, .. } => is_symbol(tables, sym, number),
        Kid::Number { prim, .. } => is_primitive(sym, prim),
        Kid::Raw { .. } => is_primitive(sym, Primitive::Bytes),
        Kid::Array { sym: number, .. } => is_symbol(tables, sym, number),
        Kid::Many { sym: number, .. } => is_symbol(tables, sym, number),
    }
}

/// Whether a reference by this symbol may read the result of a term: of a switch by the branch that it took, or by a string, which
/// no written reference has; of another term by any symbol.
pub fn is_read_by<A: Allocator + Clone + Drop>(
    store: &Store<A>,
    tables: &Tables,
    is_switch: bool,
    kid: Kid,
    sym: &Sym,
) -> bool
    ensures { OfKid tables.now store.now kid (λ one. result ≡ spec.is_read_by (record { is_switch = is_switch; kid = one }) sym.now) }
{
    !is_switch || is_text(sym) || is_of(store, tables, kid, sym)
}
