//! The left end that a slot without one gets.

ghost use Rattle.std.specs.Prelude.{◌≡◌, IfOk, OnOk};
ghost use Rattle.ipg_core.specs.declared.grammar.CoreExpr.TheVariants.{After};
ghost use Rattle.ipg_complete.specs.Completion.{left_at_first, behind};
ghost use Rattle.ipg_complete.specs.Lefts.{base_expr};

use ipg_core::grammar::{CoreExpr, CoreField, CoreTerm, Name, Sym};
use ipg_num::{Held, List};
use std::alloc::{AllocError, Global};
use std::marker::Model;

/// The part's own start, or the end of a slot or of a switch.
#[derive(Drop)]
pub(crate) enum Base {
    Start,
    Slot { term: u32, sym: Sym },
    Switch(u32),
}

/// The nearest slot or switch to the left, and the arrays and repetitions since, in text order.
#[derive(Drop)]
pub(crate) struct Left {
    base: Base,
    since: Vec<u32>,
}

impl Model for Left {
    ghost use Rattle.ipg_core.specs.declared.grammar.CoreExpr.{CoreExpr};
    ghost use Rattle.ipg_core.specs.contracts.grammar.CoreExpr as e;
    ghost use Rattle.ipg_complete.specs.Lefts.{base_expr, behind_items};

    ghost Value = { CoreExpr };

    ghost coded = { e.the_row.coded };

    ghost view = { λ left. behind_items (base_expr left.base) left.since.items };
}

fn copy(alloc: Global, bytes: &[u8]) -> Result<Name, AllocError>
    ensures { IfOk result (λ name. name ≡ bytes.now) }
{
    Ok(List::from_vec(Vec::from_slice(alloc, bytes)?))
}

fn copied(alloc: Global, sym: &Sym) -> Result<Sym, AllocError>
    ensures { IfOk result (λ copied. copied ≡ sym.now) }
{
    match sym {
        Sym::Text(bytes) => Ok(Sym::Text(copy(alloc, bytes.as_slice())?)),
        Sym::Prim(prim) => Ok(Sym::Prim(*prim)),
        Sym::Rule(rule) => Ok(Sym::Rule(*rule)),
    }
}

fn end_of(term: u32, sym: Sym) -> CoreExpr
    ensures { result ≡ base_expr (Base.Slot term sym) }
{
    CoreExpr::Seen {
        term,
        sym,
        field: CoreField::End,
    }
}

fn based(alloc: Global, base: &Base) -> Result<CoreExpr, AllocError>
    ensures { IfOk result (λ e. e ≡ base_expr base.now) }
{
    match base {
        Base::Start => Ok(CoreExpr::Num(0)),
        Base::Slot { term, sym } => Ok(end_of(*term, copied(alloc, sym)?)),
        Base::Switch(term) => Ok(end_of(*term, Sym::Text(List::new(alloc)))),
    }
}

impl Left {
    /// The `left` of an alternative's first term.
    pub fn first(alloc: Global) -> Left
        ensures { result ≡ left_at_first }
    {
        Left {
            base: Base::Start,
            since: Vec::new(alloc),
        }
    }

    /// The expression of it.
    pub fn expr(&self, alloc: Global) -> Result<CoreExpr, AllocError>
        ensures { IfOk result (λ e. e ≡ self.now) }
    {
        let mut e = based(alloc, &self.base)?;
        for term in self.since.iter() {
            e = CoreExpr::After {
                term: *term,
                left: Held::new(alloc, e)?,
            };
        }
        Ok(e)
    }

    /// Goes on behind a term of that number.
    pub fn pass(&mut self, alloc: Global, number: u32, term: &CoreTerm) -> Result<(), AllocError>
        ensures { OnOk result (self.new ≡ behind number self.old term.now) }
    {
        match term {
            CoreTerm::Slot(slot) => {
                let sym = copied(alloc, &slot.sym)?;
                self.restart(alloc, Base::Slot { term: number, sym });
                Ok(())
            }
            CoreTerm::Pick { .. } => {
                self.restart(alloc, Base::Switch(number));
                Ok(())
            }
            CoreTerm::Repeat { .. } | CoreTerm::Many { .. } => self.pass_items(number),
            CoreTerm::Set { .. } | CoreTerm::Test(_) => Ok(()),
        }
    }

    /// From a slot or a switch, with nothing since.
    fn restart(&mut self, alloc: Global, base: Base)
        ensures { self.new ≡ base_expr base }
    {
        *self = Left {
            base,
            since: Vec::new(alloc),
        };
    }

    fn pass_items(&mut self, number: u32) -> Result<(), AllocError>
        ensures { OnOk result (self.new ≡ After number self.old) }
    {
        self.since.push(number)?;
        Ok(())
    }
}
