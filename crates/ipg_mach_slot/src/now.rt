//! The state of an open call, lent, and what expressions read of it.

ghost use Rattle.std.specs.Prelude.{◌≡◌, ℕ, List, Option};
ghost use Rattle.ipg_core.specs.Grammar.{Grammar};
ghost use Rattle.ipg_core.specs.Environment as core;
ghost use Rattle.ipg_core.specs.Environment.{Environment};
ghost use Rattle.ipg_mach_nodes.specs.Stored.{Source};
ghost use Rattle.ipg_table.specs.Rows.{StandFor};
ghost use Rattle.ipg_mach_slot.specs.Now as spec;
ghost use Rattle.ipg_mach_slot.specs.Now.{lent, Stands, HasRun, ItemsStand};

use ipg_core::grammar::{CoreField, Sym};
use ipg_mach_nodes::{Kid, Store};
use ipg_mach_results::laws::{within_are_short, within_is_short};
use ipg_mach_results::{field_of, greatest_end, is_read_by, item_field, items_of, value_at};
use ipg_num::item_at;
use ipg_table::results::Results;
use ipg_table::tables::Tables;
use std::alloc::Allocator;

/// The result of a term that has run.
#[derive(Clone, Copy, Debug, PartialEq, Eq)]
pub struct Done {
    pub kid: Kid,
    pub is_switch: bool,
}

/// An array that runs: its term, the number of its symbol, its items so far, and the loop variable.
#[derive(Clone, Copy)]
pub struct Running<'m> {
    pub term: u32,
    pub sym: u32,
    pub items: &'m [Kid],
    pub item: i64,
}

/// An open call on a part of `size` bytes: its attributes so far, its holder's, and the results of its terms by number.
#[derive(Drop)]
pub struct Now<'m, A: Allocator> {
    pub tables: &'m Tables,
    pub store: &'m Store<A>,
    pub size: u32,
    pub own: &'m [(u32, i64)],
    pub outer: &'m [(u32, i64)],
    pub done: &'m [Option<Done>],
    pub running: Option<Running<'m>>,
}

impl<'m, A: Allocator + Clone + Drop> Now<'m, A> {
    /// The result of a term that has run.
    fn done_at(&self, term: u32) -> Option<Done>
        ensures { result ≡ spec.row_of self.now.done.now term }
    {
        match item_at(self.done, term as usize) {
            Some(done) => *done,
            None => None,
        }
    }

    /// The array that runs, where it is this term.
    fn running_at(&self, term: u32) -> Option<Running<'m>>
        ensures { result ≡ spec.running_at self.now.running term }
    {
        match self.running {
            Some(running) => {
                if running.term == term {
                    Some(running)
                } else {
                    None
                }
            }
            None => None,
        }
    }

    /// The items of an array or a repetition so far.
    fn items(&self, term: u32) -> &[Kid]
        ensures { (env : Environment) → Stands (lent self.now) env → ItemsStand (lent self.now) result.now (core.items_so_far (core.done_at env.done term)) }
    {
        match self.running_at(term) {
            Some(running) => running.items,
            None => self.items_done(term),
        }
    }

    /// The items of an array or a repetition that has run.
    fn items_done(&self, term: u32) -> &[Kid]
        ensures { (src : Source) (at : ℕ) (results : List (Option core.Done)) → HasRun (lent self.now) src at results
            → ItemsStand (lent self.now) result.now (core.items_so_far (core.done_at results term)) }
    {
        match self.done_at(term) {
            Some(done) => items_of(self.store, done.kid),
            None => &[],
        }
    }

    /// A field of the result of a term that has run, read by a symbol.
    #[inline(always)]
    fn seen_done(&self, term: u32, sym: &Sym, field: CoreField) -> Option<i64>
        ensures { (src : Source) (at : ℕ) (results : List (Option core.Done)) (g : Grammar) → StandFor self.now.tables.now g
            → HasRun (lent self.now) src at results → result ≡ core.seen g.names sym.now field (core.done_at results term) }
    {
        within_is_short();
        match self.done_at(term) {
            Some(done) => {
                if is_read_by(self.store, self.tables, done.is_switch, done.kid, sym) {
                    field_of(self.store, self.tables, field, done.kid)
                } else {
                    None
                }
            }
            None => None,
        }
    }
}

impl<'m, A: Allocator + Clone + Drop> Results for Now<'m, A> {
    ghost use Rattle.ipg_mach_slot.specs.Now.{lent, Stands};

    ghost stands = { λ now env. Stands (lent now) env };

    fn eoi(&self) -> u32 {
        self.size
    }

    fn own(&self, attr: u32) -> Option<i64> {
        value_at(self.own, attr)
    }

    fn outer(&self, attr: u32) -> Option<i64> {
        value_at(self.outer, attr)
    }

    fn item(&self) -> Option<i64> {
        match self.running {
            Some(running) => Some(running.item),
            None => None,
        }
    }

    #[inline(always)]
    fn seen(&self, term: u32, sym: &Sym, field: CoreField) -> Option<i64> {
        match self.running_at(term) {
            Some(_) => None,
            None => self.seen_done(term, sym, field),
        }
    }

    fn item_field(&self, term: u32, index: i64, field: CoreField) -> Option<i64> {
        within_are_short();
        item_field(self.store, self.tables, self.items(term), index, field)
    }

    fn greatest_end(&self, term: u32) -> Option<i64> {
        within_are_short();
        greatest_end(self.store, self.tables, self.items(term))
    }
}
