//! A grammar by which parsing always ends, with its tables.
ghost use Rattle.std.specs.Prelude.{◌≡◌, Ok, IfOk, MatchOption};
ghost use Rattle.ipg_core.specs.Grammar.{Grammar};
ghost use Rattle.ipg_table.specs.Rows.{StandFor};
ghost use Rattle.ipg_app_grammar.specs.Checks.{Checks, IsLoop};
ghost use Rattle.ipg_app_text.specs.Said.{Said};
ghost use Rattle.ipg_c_trees.specs.Given as spec;
ghost use Rattle.ipg_c_trees.specs.Given.{IsAccepted, IsRefused};

use crate::given::text_of;
use ipg_app_grammar::checks::accepted;
use ipg_app_text::core_of::core_in_text;
use ipg_app_text::early::Early;
use ipg_core::accepted::{Checked, Core};
use ipg_table::tables::{Tables, compile};
use std::alloc::{AllocError, Global};
use std::marker::Model;

/// A grammar by which parsing always ends, with the tables that stand for it.
#[derive(Drop)]
pub struct Format {
    grammar: Checked,
    tables: Tables,
}

impl Model for Format {
    ghost use Rattle.ipg_core.specs.Grammar.{Grammar};
    ghost use Rattle.ipg_table.specs.Rows.{StandFor};
    ghost use Rattle.ipg_core.specs.contracts.grammar.CoreExpr as e;
    ghost use Rattle.std.specs.Coded.{codes};

    ghost Value = { Grammar };

    ghost coded = { Prim.hlevel (codes, e.the_row.coded) };

    ghost view = { λ f. f.grammar };

    ghost invariant = { λ f. StandFor f.tables f.grammar };
}

impl Format {
    /// The grammar.
    pub fn grammar(&self) -> &Checked
        ensures { result.now ≡ self.now }
    {
        &self.grammar
    }

    /// Its tables.
    pub fn tables(&self) -> &Tables
        ensures { StandFor result.now self.now }
    {
        &self.tables
    }
}

fn compiled(alloc: Global, grammar: Checked) -> Result<Format, AllocError>
    ensures { IfOk result (λ f. f ≡ grammar) }
{
    let tables = compile(alloc, &grammar)?;
    Ok(Format { grammar, tables })
}

/// A core grammar with its tables; None where parsing by it may not end.
fn of_core(alloc: Global, core: Core) -> Result<Option<Format>, AllocError>
    ensures { IfOk result (λ made. MatchOption made ((said : Said) × IsLoop core said) (λ f. (f ≡ core) × Checks core (Ok core))) }
{
    match accepted(alloc, core) {
        Ok((grammar, _)) => Ok(Some(compiled(alloc, grammar)?)),
        Err(Early::Said(_)) => Ok(None),
        Err(Early::Memory) => Err(AllocError),
    }
}

/// The grammar that is given by its text, or by the name of a built-in one (`@elf`, `@pe`, `@gif`, `@pcap`); None where it is refused.
pub fn format_of(alloc: Global, given: &[u8]) -> Result<Option<Format>, AllocError>
    ensures { IfOk result (λ made. MatchOption made (IsRefused (spec.text_of given.now)) (λ f. IsAccepted (spec.text_of given.now) f)) }
{
    match core_in_text(alloc, text_of(given)) {
        Ok(core) => of_core(alloc, core),
        Err(Early::Said(_)) => Ok(None),
        Err(Early::Memory) => Err(AllocError),
    }
}
