//! The names of symbols.
ghost use Rattle.std.specs.Prelude.{◌≡◌, ◌≤◌, ℕ, length, bytes_eq};
ghost use Rattle.ipg_core.specs.Grammar.{Grammar};
ghost use Rattle.ipg_core.specs.Lines as lines;
ghost use Rattle.ipg_core.specs.Tree as tree;
ghost use Rattle.ipg_core.specs.Tree.{Tree, rule_of};
ghost use Rattle.ipg_mach_nodes.specs.Stored.{Source, StandsKid, StandsTree};
ghost use Rattle.ipg_table.specs.Rows.{StandFor};
ghost use Rattle.ipg_query.specs.Picked.{name_of, found};
ghost use Rattle.ipg_query.specs.Spots.{fits};

use ipg_mach_nodes::{Kid, RunId};
use ipg_table::tables::Tables;
use ipg_tree_walk::Parsed;
use std::alloc::Allocator;

/// Which children a step asks for: all, or those whose symbol has a name.
#[derive(Clone, Copy)]
pub enum Wanted<'n> {
    Any,
    Named(&'n [u8]),
}

/// The name of a rule; empty where there is no such rule.
fn rule_name(tables: &Tables, rule: u32) -> &[u8]
    ensures { (g : Grammar) → StandFor tables.now g → result.now ≡ lines.rule_name g rule }
{
    if (rule as usize) < tables.rules().len() {
        tables.rule_name(rule)
    } else {
        &[]
    }
}

/// The name of the rule of a node; empty where there is no node.
fn node_name<'b, A: Allocator + Clone + Drop>(p: &'b Parsed<'_, A>, node: RunId) -> &'b [u8]
    ensures { (src : Source) (g : Grammar) (at : ℕ) (one : Tree) → StandFor p.now.parse.tables g → StandsTree src p.now.parse.store at node one
        → result.now ≡ lines.rule_name g (rule_of one) }
{
    match p.rule(node) {
        Some(rule) => rule_name(p.tables(), rule),
        None => &[],
    }
}

/// The name of a row's symbol; empty for an array and a repetition.
fn name_of<'b, A: Allocator + Clone + Drop>(p: &'b Parsed<'_, A>, kid: Kid) -> &'b [u8]
    ensures { (src : Source) (g : Grammar) (at : ℕ) (one : tree.Kid) → StandFor p.now.parse.tables g → StandsKid src p.now.parse.store at kid one
        → result.now ≡ name_of g one }
{
    match kid {
        Kid::Node { id, .. } => node_name(p, id),
        Kid::Text { .. } => b"tok",
        Kid::Number { prim, .. } => prim.word(),
        Kid::Raw { .. } => b"Bytes",
        Kid::Array { .. } => &[],
        Kid::Many { .. } => &[],
    }
}

/// Whether a row's symbol has this name.
fn is_named<A: Allocator + Clone + Drop>(p: &Parsed<'_, A>, kid: Kid, name: &[u8]) -> bool
    ensures { (src : Source) (g : Grammar) (at : ℕ) (one : tree.Kid) → StandFor p.now.parse.tables g → StandsKid src p.now.parse.store at kid one
        → result ≡ bytes_eq (name_of g one) name.now }
{
    name_of(p, kid) == name
}

/// Whether a row is one of those.
pub fn is_wanted<A: Allocator + Clone + Drop>(
    p: &Parsed<'_, A>,
    kid: Kid,
    wanted: Wanted<'_>,
) -> bool
    ensures { (src : Source) (g : Grammar) (at place : ℕ) (one : tree.Kid) → StandFor p.now.parse.tables g → StandsKid src p.now.parse.store at kid one
        → result ≡ fits g wanted.entry (found place one) }
{
    match wanted {
        Wanted::Any => true,
        Wanted::Named(name) => is_named(p, kid, name),
    }
}
