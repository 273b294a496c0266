//! A grammar whose intervals are complete, and whose terms have no order yet.

ghost use Rattle.std.specs.Prelude.{◌≡◌};
ghost use Rattle.ipg_core.specs.Good.{WellFormed};
ghost use Rattle.ipg_complete.specs.Unordered.{core_of};

use ipg_core::grammar::{CoreTerm, Name};
use ipg_num::List;
use std::marker::Model;

/// An alternative: its terms in text order.
#[derive(Debug, Drop)]
pub struct CompletedAlt {
    pub terms: List<CoreTerm>,
}

/// A rule; a local one names its holder by rule and alternative.
#[derive(Debug, Drop)]
pub struct CompletedRule {
    pub name: Name,
    pub holder: Option<(u32, u32)>,
    pub alts: List<CompletedAlt>,
}

/// Everything that a good core grammar has, but for the order of terms.
#[derive(Drop)]
pub struct Completed {
    pub rules: List<CompletedRule>,
    pub names: List<Name>,
}

impl Model for Completed {
    ghost use Rattle.ipg_complete.specs.Unordered.{Unordered, core_of};
    ghost use Rattle.ipg_core.specs.Good.{WellFormed};
    ghost use Rattle.ipg_core.specs.contracts.grammar.CoreExpr as e;
    ghost use Rattle.std.specs.Coded.{codes};

    ghost Value = { Unordered };

    ghost coded = { Prim.hlevel (codes, e.the_row.coded) };

    ghost view = { λ c. record { rules = c.rules; names = c.names } };

    ghost invariant = { λ c. WellFormed (core_of (record { rules = c.rules; names = c.names })) };
}

impl Completed {
    /// The rules, in the order of their heads in the text. Takes no memory.
    pub fn rules(&self) -> &[CompletedRule]
        ensures rules { result.now ≡ self.now.rules }
        ensures well_formed { WellFormed (core_of self.now) }
    {
        self.rules.as_slice()
    }

    /// The names of attributes, by their numbers. Takes no memory.
    pub fn names(&self) -> &[Name]
        ensures { result.now ≡ self.now.names }
    {
        self.names.as_slice()
    }
}
