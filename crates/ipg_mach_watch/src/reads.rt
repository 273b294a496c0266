//! What the expressions of a term read, by their rows.

ghost use Rattle.std.specs.Prelude.{◌≡◌, ℕ, List, [], ◌∷◌, Option, Some, flat_map};
ghost use Rattle.std.specs.Option.{option_copied};
ghost use Rattle.ipg_core.specs.declared.grammar.CoreExpr.{CoreExpr};
ghost use Rattle.ipg_core.specs.declared.grammar.CoreSlot.{CoreSlot};
ghost use Rattle.ipg_core.specs.declared.grammar.CoreTerm.{CoreTerm};
ghost use Rattle.ipg_core.specs.Environment.{Environment};
ghost use Rattle.ipg_core.specs.Tree.{Kid as AnyKid};
ghost use Rattle.ipg_mach_moves.specs.Moves as moves;
ghost use Rattle.ipg_table.specs.Rows.{HoldsExpr, HoldsSlot, HoldsCase, HoldsTerm};
ghost use Rattle.ipg_mach_term.specs.Advance.{IsEntry};
ghost use Rattle.ipg_mach_failures.specs.Values as spec;
ghost use Rattle.ipg_mach_watch.specs.Agreeing.{row_read, rows_read, with_read, HoldsBranch};

use ipg_core::grammar::Sym;
use ipg_mach_failures::{Operand, Taken, Valued, Values};
use ipg_mach_term::TermEntry;
use ipg_num::item_at;
use ipg_table::results::Results;
use ipg_table::row::{Action, CaseRow, Op, RowSpan, SlotRow};
use ipg_table::tables::Tables;

fn taken_of(sym: &Sym) -> Taken
    ensures { result ≡ spec.taken_of sym.now }
{
    match sym {
        Sym::Text(_) => Taken::Text,
        Sym::Prim(prim) => Taken::Prim(*prim),
        Sym::Rule(rule) => Taken::Rule(*rule),
    }
}

/// A name with its value.
fn valued(operand: Operand, value: Option<i64>) -> Option<Valued>
    ensures { result ≡ Some (spec.valued operand value) }
{
    Some(Valued { operand, value })
}

/// The name that a row reads, with its value.
fn read_by<R: Results>(results: &R, op: &Op) -> Option<Valued>
    ensures { (env : Environment) → R.stands results.now env → result ≡ row_read env op.now }
{
    match op {
        Op::Eoi => valued(Operand::Eoi, Some(i64::from(results.eoi()))),
        Op::Own(attr) => valued(Operand::Own(*attr), results.own(*attr)),
        Op::Outer(attr) => valued(Operand::Outer(*attr), results.outer(*attr)),
        Op::Loop => valued(Operand::Loop, results.item()),
        Op::Seen { term, sym, field } => valued(
            Operand::Seen {
                term: *term,
                taken: taken_of(sym),
                field: *field,
            },
            results.seen(*term, sym, *field),
        ),
        _ => None,
    }
}

fn add_read(values: &mut Values, read: Option<Valued>)
    ensures { values.new ≡ with_read values.old read }
{
    if let Some(one) = read {
        values.add(one);
    }
}

fn add_rows<R: Results>(values: &mut Values, results: &R, rows: &[Op])
    ensures { (env : Environment) → R.stands results.now env → values.new ≡ spec.with_values values.old (rows_read env rows.now) }
{
    for op in rows {
        add_read(values, read_by(results, op));
    }
}

/// The names in an expression.
fn add_expr<R: Results>(values: &mut Values, tables: &Tables, results: &R, expr: RowSpan)
    ensures { (env : Environment) (e : CoreExpr) → R.stands results.now env → HoldsExpr tables.now expr e
        → values.new ≡ spec.with_values values.old (spec.reads env e) }
{
    add_rows(values, results, tables.ops(expr));
}

/// Those in two expressions.
fn add_both<R: Results>(
    values: &mut Values,
    tables: &Tables,
    results: &R,
    from: RowSpan,
    to: RowSpan,
)
    ensures { (env : Environment) (a b : CoreExpr) → R.stands results.now env → HoldsExpr tables.now from a → HoldsExpr tables.now to b
        → values.new ≡ spec.with_values values.old (flat_map (spec.reads env) (a ∷ b ∷ [])) }
{
    add_expr(values, tables, results, from);
    add_expr(values, tables, results, to);
}

/// Those in the ends of a slot.
fn add_slot<R: Results>(values: &mut Values, tables: &Tables, results: &R, row: SlotRow)
    ensures { (env : Environment) (slot : CoreSlot) → R.stands results.now env → HoldsSlot tables.now row slot
        → values.new ≡ spec.with_values values.old (flat_map (spec.reads env) (spec.in_slot slot)) }
{
    add_both(values, tables, results, row.from, row.to);
}

/// Those in a branch of a switch, which is the last one where there is no other.
fn add_branch<R: Results>(
    values: &mut Values,
    tables: &Tables,
    results: &R,
    case: Option<&CaseRow>,
    other: SlotRow,
)
    ensures { (env : Environment) (branch : Option (CoreExpr × CoreSlot)) (last : CoreSlot) → R.stands results.now env
        → HoldsBranch tables.now (option_copied case.entry) branch → HoldsSlot tables.now other last
        → values.new ≡ spec.with_values values.old (flat_map (spec.reads env) (spec.in_branch branch last)) }
{
    match case {
        Some(case) => {
            add_expr(values, tables, results, case.cond);
            add_slot(values, tables, results, case.slot);
        }
        None => add_slot(values, tables, results, other),
    }
}

/// Those in an array's bounds as it is entered, then those in the ends of its next item's interval.
fn add_array<R: Results>(
    values: &mut Values,
    tables: &Tables,
    results: &R,
    entry: TermEntry,
    bounds: (RowSpan, RowSpan),
    item: SlotRow,
)
    ensures { (env : Environment) (n : ℕ) (items : List AnyKid) (e : moves.Entry) (a b : CoreExpr) (slot : CoreSlot) → R.stands results.now env
        → IsEntry n entry items e → HoldsExpr tables.now bounds.0 a → HoldsExpr tables.now bounds.1 b → HoldsSlot tables.now item slot
        → values.new ≡ spec.with_values values.old (flat_map (spec.reads env) (spec.in_array e a b slot.from slot.to)) }
{
    match entry {
        TermEntry::Outside => add_both(values, tables, results, bounds.0, bounds.1),
        TermEntry::Items { .. } => add_slot(values, tables, results, item),
        TermEntry::Turns { .. } => {}
    }
}

/// Those in the expressions of a term entered there, in a switch at a branch.
fn add_term<R: Results>(
    values: &mut Values,
    tables: &Tables,
    results: &R,
    action: Action,
    entry: TermEntry,
    branch: u64,
)
    ensures { (env : Environment) (n : ℕ) (items : List AnyKid) (e : moves.Entry) (term : CoreTerm) → R.stands results.now env
        → IsEntry n entry items e → HoldsTerm tables.now action term
        → values.new ≡ spec.with_values values.old (flat_map (spec.reads env) (spec.in_term e branch term)) }
{
    match action {
        Action::Slot(row) => add_slot(values, tables, results, row),
        Action::Set { value, .. } => add_expr(values, tables, results, value),
        Action::Test(cond) => add_expr(values, tables, results, cond),
        Action::Repeat { first, last, item } => {
            add_array(values, tables, results, entry, (first, last), item)
        }
        Action::Many(row) => add_slot(values, tables, results, row),
        Action::Pick { cases, other } => {
            let case = item_at(tables.cases(cases), branch as usize);
            add_branch(values, tables, results, case, other)
        }
    }
}

/// The names in the expressions of a term entered there, in a switch at a branch, with their values: each once, eight at most.
pub(crate) fn read<R: Results>(
    tables: &Tables,
    results: &R,
    action: Action,
    entry: TermEntry,
    branch: u64,
) -> Values
    ensures { (env : Environment) (n : ℕ) (items : List AnyKid) (e : moves.Entry) (term : CoreTerm) → R.stands results.now env
        → IsEntry n entry items e → HoldsTerm tables.now action term
        → result ≡ spec.few_of (flat_map (spec.reads env) (spec.in_term e branch term)) }
{
    let mut values = Values::new();
    add_term(&mut values, tables, results, action, entry, branch);
    values
}
