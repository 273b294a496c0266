//! A resolved grammar as a whole.

ghost use Rattle.std.specs.Prelude.{◌≡◌};
ghost use Rattle.ipg_core.specs.Good.{WellFormed};
ghost use Rattle.ipg_names.specs.Bare.{bare};

use crate::named::NamedRule;
use ipg_core::grammar::Name;
use ipg_num::List;
use std::marker::Model;

/// A grammar with its names resolved and its intervals as written: its rules, and the names of its attributes by their numbers.
///
/// But for the order of terms it keeps what a good core grammar keeps.
#[derive(Drop)]
pub struct NamedGrammar {
    pub rules: List<NamedRule>,
    pub names: List<Name>,
}

impl Model for NamedGrammar {
    ghost use Rattle.ipg_core.specs.Good.{WellFormed};
    ghost use Rattle.ipg_core.specs.contracts.grammar.CoreExpr as e;
    ghost use Rattle.ipg_names.specs.Resolved.{Resolved};
    ghost use Rattle.ipg_names.specs.Bare.{bare};
    ghost use Rattle.std.specs.Coded.{codes};

    ghost Value = { Resolved };

    ghost coded = { Prim.hlevel (codes, e.the_row.coded) };

    ghost view = { λ n. record { rules = n.rules; names = n.names } };

    ghost invariant = { λ n. WellFormed (bare (record { rules = n.rules; names = n.names })) };
}

impl NamedGrammar {
    /// The rules, in the order of their heads in the text.
    pub fn rules(&self) -> &[NamedRule]
        ensures rules { result.now ≡ self.now.rules }
        ensures well_formed { WellFormed (bare self.now) }
    {
        self.rules.as_slice()
    }

    /// The names of attributes, by their numbers.
    pub fn names(&self) -> &[Name]
        ensures { result.now ≡ self.now.names }
    {
        self.names.as_slice()
    }
}
