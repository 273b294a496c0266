//! Tables that are being written.

ghost use Rattle.std.specs.Prelude.{◌≡◌, [], ◌∷◌, ◌++◌, ◌+◌, ◌≤◌, ◌<◌, length, slice_get, Some, IfOk, OnOk};
ghost use Rattle.std.specs.List.{AllByRecursion};
ghost use Rattle.ipg_table.specs.Rows.{HoldsExpr, HoldsSlot, HoldsCase, HoldsTerm, HoldsInstr, HoldsAlt, HoldsRule, Each, Stands, StandsEach, sets_of};
ghost use Rattle.ipg_table.specs.Rows.{attrs_in};
ghost use Rattle.ipg_table.specs.Grows.{draft_rows, Grows, NamesTerms};

use crate::emit;
use crate::emit::{number, sym_of};
use crate::row::{Action, AltRow, CaseRow, Instr, Op, RowSpan, RuleRow, SlotRow};
use ipg_core::grammar::{CoreAlt, CoreExpr, CoreRule, CoreSlot, CoreTerm, Sym};
use smallvec::SmallVec;
use std::alloc::{AllocError, Global};

/// The tables but for the rules and the names of attributes, which come last.
#[derive(Drop)]
pub(crate) struct Draft {
    pub alts: Vec<AltRow>,
    pub instrs: Vec<Instr>,
    pub cases: Vec<CaseRow>,
    pub ops: Vec<Op>,
    pub sets: Vec<u32>,
    pub syms: Vec<Sym>,
    pub bytes: Vec<u8>,
    pub depth: u32,
}

/// The rows from one place up to another.
fn span(from: usize, to: usize) -> Result<RowSpan, AllocError>
    requires { from ≤ to }
    ensures { IfOk result (λ s. (s.from ≡ from) × (s.from + s.count ≡ to)) }
{
    Ok(RowSpan {
        from: number(from)?,
        count: number(to - from)?,
    })
}

/// Appends rows to a table; gives where they stand.
fn append<T: Copy>(table: &mut Vec<T>, rows: &[T]) -> Result<RowSpan, AllocError>
    ensures grows { OnOk result (table.new.items ≡ table.old.items ++ rows.now) }
    ensures stands { IfOk result (λ s. Stands table.new.items s rows.now) }
{
    let from = table.len();
    table.extend_from_slice(rows)?;
    span(from, table.len())
}

/// Appends the attribute that a term sets.
fn put_set(sets: &mut SmallVec<u32, 8>, term: &CoreTerm) -> Result<(), AllocError>
    ensures { OnOk result (sets.new.items ≡ sets.old.items ++ sets_of term.now) }
{
    match term {
        CoreTerm::Set { attr, .. } => {
            sets.push(*attr)?;
            Ok(())
        }
        CoreTerm::Slot(_) => Ok(()),
        CoreTerm::Test(_) => Ok(()),
        CoreTerm::Repeat { .. } => Ok(()),
        CoreTerm::Many { .. } => Ok(()),
        CoreTerm::Pick { .. } => Ok(()),
    }
}

/// The attributes that terms set, in text order.
fn sets_in(alloc: Global, terms: &[CoreTerm]) -> Result<SmallVec<u32, 8>, AllocError>
    ensures { IfOk result (λ sets. sets.items ≡ attrs_in terms.now) }
{
    let mut sets = SmallVec::<u32, 8>::new(alloc);
    for term in terms {
        put_set(&mut sets, term)?;
    }
    Ok(sets)
}

impl Draft {
    pub fn new(alloc: Global) -> Draft {
        Draft {
            alts: Vec::new(alloc),
            instrs: Vec::new(alloc),
            cases: Vec::new(alloc),
            ops: Vec::new(alloc),
            sets: Vec::new(alloc),
            syms: Vec::new(alloc),
            bytes: Vec::new(alloc),
            depth: 0,
        }
    }

    fn expr(&mut self, alloc: Global, e: &CoreExpr) -> Result<RowSpan, AllocError>
        ensures grows { OnOk result (Grows (draft_rows self.old) (draft_rows self.new)) }
        ensures holds { IfOk result (λ s. HoldsExpr (draft_rows self.new) s e.now) }
    {
        let from = self.ops.len();
        let depth = emit::expr(alloc, &mut self.ops, e)?;
        self.depth = self.depth.max(depth);
        span(from, self.ops.len())
    }

    /// The number of a symbol, which gets an entry of its own.
    fn sym(&mut self, alloc: Global, sym: &Sym) -> Result<u32, AllocError>
        ensures grows { OnOk result (Grows (draft_rows self.old) (draft_rows self.new)) }
        ensures holds { IfOk result (λ n. slice_get (draft_rows self.new).syms n ≡ Some sym.now) }
    {
        let at = number(self.syms.len())?;
        self.syms.push(sym_of(alloc, sym)?)?;
        Ok(at)
    }

    fn slot(
        &mut self,
        alloc: Global,
        sym: &Sym,
        from: &CoreExpr,
        to: &CoreExpr,
    ) -> Result<SlotRow, AllocError>
        ensures grows { OnOk result (Grows (draft_rows self.old) (draft_rows self.new)) }
        ensures holds { IfOk result (λ row. HoldsSlot (draft_rows self.new) row (record { sym = sym.now; from = from.now; to = to.now })) }
    {
        let sym = self.sym(alloc, sym)?;
        let from = self.expr(alloc, from)?;
        let to = self.expr(alloc, to)?;
        Ok(SlotRow { sym, from, to })
    }

    fn case(&mut self, alloc: Global, case: &(CoreExpr, CoreSlot)) -> Result<CaseRow, AllocError>
        ensures grows { OnOk result (Grows (draft_rows self.old) (draft_rows self.new)) }
        ensures holds { IfOk result (λ row. HoldsCase (draft_rows self.new) row case.now) }
    {
        let cond = self.expr(alloc, &case.0)?;
        let slot = self.slot(alloc, &case.1.sym, &case.1.from, &case.1.to)?;
        Ok(CaseRow { cond, slot })
    }

    fn case_rows(
        &mut self,
        alloc: Global,
        cases: &[(CoreExpr, CoreSlot)],
    ) -> Result<SmallVec<CaseRow, 4>, AllocError>
        ensures grows { OnOk result (Grows (draft_rows self.old) (draft_rows self.new)) }
        ensures holds { IfOk result (λ rows. Each (HoldsCase (draft_rows self.new)) rows.items cases.now) }
    {
        let mut rows = SmallVec::<CaseRow, 4>::new(alloc);
        for case in cases {
            let row = self.case(alloc, case)?;
            rows.push(row)?;
        }
        Ok(rows)
    }

    /// The branches of a switch but for the last.
    fn cases(
        &mut self,
        alloc: Global,
        cases: &[(CoreExpr, CoreSlot)],
    ) -> Result<RowSpan, AllocError>
        ensures grows { OnOk result (Grows (draft_rows self.old) (draft_rows self.new)) }
        ensures holds { IfOk result (λ s. StandsEach (HoldsCase (draft_rows self.new)) (draft_rows self.new).cases s cases.now) }
    {
        let rows = self.case_rows(alloc, cases)?;
        append(&mut self.cases, rows.as_slice())
    }

    fn action(&mut self, alloc: Global, term: &CoreTerm) -> Result<Action, AllocError>
        ensures grows { OnOk result (Grows (draft_rows self.old) (draft_rows self.new)) }
        ensures holds { IfOk result (λ action. HoldsTerm (draft_rows self.new) action term.now) }
    {
        match term {
            CoreTerm::Slot(slot) => {
                let row = self.slot(alloc, &slot.sym, &slot.from, &slot.to)?;
                Ok(Action::Slot(row))
            }
            CoreTerm::Set { attr, value } => {
                let value = self.expr(alloc, value)?;
                Ok(Action::Set { attr: *attr, value })
            }
            CoreTerm::Test(cond) => {
                let cond = self.expr(alloc, cond)?;
                Ok(Action::Test(cond))
            }
            CoreTerm::Repeat {
                first,
                last,
                item,
                from,
                to,
            } => {
                let first = self.expr(alloc, first)?;
                let last = self.expr(alloc, last)?;
                let item = self.slot(alloc, item, from, to)?;
                Ok(Action::Repeat { first, last, item })
            }
            CoreTerm::Many { item, from, to } => {
                let item = self.slot(alloc, item, from, to)?;
                Ok(Action::Many(item))
            }
            CoreTerm::Pick { cases, other } => {
                let cases = self.cases(alloc, cases.as_slice())?;
                let other = self.slot(alloc, &other.sym, &other.from, &other.to)?;
                Ok(Action::Pick { cases, other })
            }
        }
    }

    fn instr(&mut self, alloc: Global, terms: &[CoreTerm], term: u32) -> Result<Instr, AllocError>
        requires { term < length terms.now }
        ensures grows { OnOk result (Grows (draft_rows self.old) (draft_rows self.new)) }
        ensures holds { IfOk result (λ instr. HoldsInstr (draft_rows self.new) terms.now instr term) }
    {
        let action = self.action(alloc, &terms[term as usize])?;
        Ok(Instr { term, action })
    }

    fn instr_rows(
        &mut self,
        alloc: Global,
        terms: &[CoreTerm],
        order: &[u32],
    ) -> Result<SmallVec<Instr, 8>, AllocError>
        requires { AllByRecursion (λ u. u < length terms.now) order.now }
        ensures grows { OnOk result (Grows (draft_rows self.old) (draft_rows self.new)) }
        ensures holds { IfOk result (λ rows. Each (HoldsInstr (draft_rows self.new) terms.now) rows.items order.now) }
    {
        let mut rows = SmallVec::<Instr, 8>::new(alloc);
        for term in order {
            let row = self.instr(alloc, terms, *term)?;
            rows.push(row)?;
        }
        Ok(rows)
    }

    /// The instructions of an alternative, in the order in which they run.
    fn instrs(
        &mut self,
        alloc: Global,
        terms: &[CoreTerm],
        order: &[u32],
    ) -> Result<RowSpan, AllocError>
        requires { AllByRecursion (λ u. u < length terms.now) order.now }
        ensures grows { OnOk result (Grows (draft_rows self.old) (draft_rows self.new)) }
        ensures holds { IfOk result (λ s. StandsEach (HoldsInstr (draft_rows self.new) terms.now) (draft_rows self.new).instrs s order.now) }
    {
        let rows = self.instr_rows(alloc, terms, order)?;
        append(&mut self.instrs, rows.as_slice())
    }

    fn alt(&mut self, alloc: Global, alt: &CoreAlt) -> Result<AltRow, AllocError>
        requires { NamesTerms alt.now }
        ensures grows { OnOk result (Grows (draft_rows self.old) (draft_rows self.new)) }
        ensures holds { IfOk result (λ row. HoldsAlt (draft_rows self.new) row alt.now) }
    {
        let terms = alt.terms.as_slice();
        let instrs = self.instrs(alloc, terms, alt.order.as_slice())?;
        let set = sets_in(alloc, terms)?;
        let sets = append(&mut self.sets, set.as_slice())?;
        let terms = number(terms.len())?;
        Ok(AltRow {
            instrs,
            sets,
            terms,
        })
    }

    fn alt_rows(
        &mut self,
        alloc: Global,
        alts: &[CoreAlt],
    ) -> Result<SmallVec<AltRow, 4>, AllocError>
        requires { AllByRecursion NamesTerms alts.now }
        ensures grows { OnOk result (Grows (draft_rows self.old) (draft_rows self.new)) }
        ensures holds { IfOk result (λ rows. Each (HoldsAlt (draft_rows self.new)) rows.items alts.now) }
    {
        let mut rows = SmallVec::<AltRow, 4>::new(alloc);
        for alt in alts {
            let row = self.alt(alloc, alt)?;
            rows.push(row)?;
        }
        Ok(rows)
    }

    fn alts(&mut self, alloc: Global, alts: &[CoreAlt]) -> Result<RowSpan, AllocError>
        requires { AllByRecursion NamesTerms alts.now }
        ensures grows { OnOk result (Grows (draft_rows self.old) (draft_rows self.new)) }
        ensures holds { IfOk result (λ s. StandsEach (HoldsAlt (draft_rows self.new)) (draft_rows self.new).alts s alts.now) }
    {
        let rows = self.alt_rows(alloc, alts)?;
        append(&mut self.alts, rows.as_slice())
    }

    /// A name, by where its bytes stand.
    pub fn name(&mut self, name: &[u8]) -> Result<RowSpan, AllocError>
        ensures grows { OnOk result (Grows (draft_rows self.old) (draft_rows self.new)) }
        ensures holds { IfOk result (λ s. Stands (draft_rows self.new).bytes s name.now) }
    {
        append(&mut self.bytes, name)
    }

    pub fn rule(&mut self, alloc: Global, rule: &CoreRule) -> Result<RuleRow, AllocError>
        requires { AllByRecursion NamesTerms rule.now.alts }
        ensures grows { OnOk result (Grows (draft_rows self.old) (draft_rows self.new)) }
        ensures holds { IfOk result (λ row. HoldsRule (draft_rows self.new) row rule.now) }
    {
        let name = self.name(rule.name.as_slice())?;
        let alts = self.alts(alloc, rule.alts.as_slice())?;
        Ok(RuleRow {
            name,
            holder: rule.holder,
            alts,
        })
    }
}
