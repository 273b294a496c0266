//! The tables of a grammar, and how they are compiled.

ghost use Rattle.std.specs.Prelude.{◌≡◌, ◌<◌, ◌≤◌, length, slice_get, option_map, Some, IfOk, OnOk};
ghost use Rattle.std.specs.List.{AllByRecursion};
ghost use Rattle.std.specs.Option.{option_copied};
ghost use Rattle.ipg_core.specs.Grammar.{Grammar, rule_at, holder_of, name_at};
ghost use Rattle.ipg_core.specs.declared.grammar.CoreExpr.{CoreExpr};
ghost use Rattle.ipg_core.specs.Environment.{Environment};
ghost use Rattle.ipg_core.specs.Eval.{eval};
ghost use Rattle.ipg_table.specs.Rows.{rows_at, HoldsExpr, Each, Stands, HoldsRule, StandFor, Tabled};
ghost use Rattle.ipg_table.specs.Grows.{draft_rows, Grows, NamesTerms};

use crate::draft::Draft;
use crate::look::rows_in;
use crate::results::Results;
use crate::row::{AltRow, CaseRow, Instr, Op, RowSpan, RuleRow};
use crate::value::evaluate;
use ipg_core::accepted::Checked;
use ipg_core::grammar::{CoreRule, Name, Sym};
use ipg_num::{Answer, item_at};
use std::alloc::{AllocError, Global};
use std::marker::Model;

/// The flat tables of a grammar by which parsing ends. Nothing that is asked of them takes memory.
#[derive(Drop)]
pub struct Tables {
    rules: Vec<RuleRow>,
    alts: Vec<AltRow>,
    instrs: Vec<Instr>,
    cases: Vec<CaseRow>,
    ops: Vec<Op>,
    sets: Vec<u32>,
    syms: Vec<Sym>,
    bytes: Vec<u8>,
    names: Vec<RowSpan>,
    depth: u32,
}

impl Model for Tables {
    ghost use Rattle.ipg_table.specs.Rows.{Rows, Tabled, rows_of};

    ghost Value = { Rows };

    ghost view = { λ t. rows_of t };

    ghost invariant = { λ t. Tabled (rows_of t) };
}

fn rule_rows(
    alloc: Global,
    draft: &mut Draft,
    rules: &[CoreRule],
) -> Result<Vec<RuleRow>, AllocError>
    requires { AllByRecursion (λ rule. AllByRecursion NamesTerms rule.alts) rules.now }
    ensures grows { OnOk result (Grows (draft_rows draft.old) (draft_rows draft.new)) }
    ensures holds { IfOk result (λ rows. Each (HoldsRule (draft_rows draft.new)) rows.items rules.now) }
{
    let mut rows = Vec::with_capacity(alloc, rules.len())?;
    for rule in rules {
        let row = draft.rule(alloc, rule)?;
        rows.push(row)?;
    }
    Ok(rows)
}

fn name_rows(alloc: Global, draft: &mut Draft, names: &[Name]) -> Result<Vec<RowSpan>, AllocError>
    ensures grows { OnOk result (Grows (draft_rows draft.old) (draft_rows draft.new)) }
    ensures holds { IfOk result (λ rows. Each (Stands (draft_rows draft.new).bytes) rows.items names.now) }
{
    let mut rows = Vec::with_capacity(alloc, names.len())?;
    for name in names {
        let row = draft.name(name.as_slice())?;
        rows.push(row)?;
    }
    Ok(rows)
}

/// The tables of a grammar. The only other answer is want of memory, which a table of 2^32 rows counts as.
pub fn compile(alloc: Global, c: &Checked) -> Result<Tables, AllocError>
    ensures { IfOk result (λ t. StandFor t c.now) }
{
    let core = c.core();
    let mut draft = Draft::new(alloc);
    let rules = rule_rows(alloc, &mut draft, core.rules())?;
    let names = name_rows(alloc, &mut draft, core.names())?;
    let Draft {
        alts,
        instrs,
        cases,
        ops,
        sets,
        syms,
        bytes,
        depth,
    } = draft;
    Ok(Tables {
        rules,
        alts,
        instrs,
        cases,
        ops,
        sets,
        syms,
        bytes,
        names,
        depth,
    })
}

impl Tables {
    /// The rules, by their numbers.
    pub fn rules(&self) -> &[RuleRow]
        ensures rows { result.now ≡ self.now.rules }
        ensures tabled { Tabled self.now }
    {
        self.rules.as_slice()
    }

    /// The alternatives of a rule, in text order.
    pub fn alts(&self, rule: &RuleRow) -> &[AltRow]
        ensures { result.now ≡ rows_at self.now.alts rule.now.alts }
    {
        rows_in(self.alts.as_slice(), rule.alts)
    }

    /// The instructions of an alternative, in the order in which they run.
    pub fn instrs(&self, alt: &AltRow) -> &[Instr]
        ensures { result.now ≡ rows_at self.now.instrs alt.now.instrs }
    {
        rows_in(self.instrs.as_slice(), alt.instrs)
    }

    /// The attributes that an alternative sets, in text order.
    pub fn sets(&self, alt: &AltRow) -> &[u32]
        ensures { result.now ≡ rows_at self.now.sets alt.now.sets }
    {
        rows_in(self.sets.as_slice(), alt.sets)
    }

    /// The branches of a switch but for the last.
    pub fn cases(&self, cases: RowSpan) -> &[CaseRow]
        ensures { result.now ≡ rows_at self.now.cases cases }
    {
        rows_in(self.cases.as_slice(), cases)
    }

    /// The rows of an expression.
    pub fn ops(&self, expr: RowSpan) -> &[Op]
        ensures { result.now ≡ rows_at self.now.ops expr }
    {
        rows_in(self.ops.as_slice(), expr)
    }

    /// The value of an expression. `area` is the stack of operands, of which nothing is read before it is written.
    #[inline(always)]
    pub fn value<R: Results>(&self, expr: RowSpan, results: &R, area: &mut [i64]) -> Answer
        requires { self.now.depth ≤ length area.now }
        ensures value { (env : Environment) (e : CoreExpr) → R.stands results.now env → HoldsExpr self.now expr e → result ≡ eval e env }
        ensures area { length area.new ≡ length area.old }
    {
        evaluate(self.ops(expr), results, area)
    }

    /// How deep the deepest expression nests: an area of so many numbers is enough to evaluate any.
    pub fn depth(&self) -> u32
        ensures { result ≡ self.now.depth }
    {
        self.depth
    }

    /// A symbol, by its place in the list of symbols.
    pub fn symbol(&self, sym: u32) -> &Sym
        requires { sym < length self.now.syms }
        ensures { slice_get self.now.syms sym ≡ Some result.now }
    {
        &self.syms[sym as usize]
    }

    /// A symbol, by its place in the list of symbols; None where there is none.
    pub fn symbol_at(&self, sym: u32) -> Option<&Sym>
        ensures { option_copied result ≡ slice_get self.now.syms sym }
    {
        item_at(self.syms.as_slice(), sym as usize)
    }

    /// The name of a rule.
    pub fn rule_name(&self, rule: u32) -> &[u8]
        requires { rule < length self.now.rules }
        ensures { (g : Grammar) → StandFor self.now g → option_map (λ r. r.name) (rule_at g rule) ≡ Some result.now }
    {
        rows_in(self.bytes.as_slice(), self.rules[rule as usize].name)
    }

    /// The holder of a local rule, by rule and alternative; None for a global rule.
    pub fn holder(&self, rule: u32) -> Option<(u32, u32)>
        ensures { (g : Grammar) → StandFor self.now g → result ≡ holder_of (rule_at g rule) }
    {
        match item_at(self.rules.as_slice(), rule as usize) {
            Some(row) => row.holder,
            None => None,
        }
    }

    /// The name of an attribute; empty where there is none of that number.
    pub fn attr_name(&self, name: u32) -> &[u8]
        ensures { (g : Grammar) → StandFor self.now g → result.now ≡ name_at g.names name }
    {
        match item_at(self.names.as_slice(), name as usize) {
            Some(at) => rows_in(self.bytes.as_slice(), *at),
            None => &[],
        }
    }
}
