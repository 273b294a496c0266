//! A core grammar as a whole, and one for which parsing ends.

ghost use Rattle.std.specs.Prelude.{◌≡◌};
ghost use Rattle.ipg_core.specs.Good.{Good};
ghost use Rattle.ipg_core.specs.Total.{Total};

use crate::grammar::{CoreRule, Name};
use ipg_num::List;
use std::marker::Model;

/// A good core grammar: its rules, and the names of its attributes by their numbers.
#[derive(Drop)]
pub struct Core {
    pub rules: List<CoreRule>,
    pub names: List<Name>,
}

impl Model for Core {
    ghost use Rattle.ipg_core.specs.Grammar.{Grammar};
    ghost use Rattle.ipg_core.specs.Good.{Good};
    ghost use Rattle.ipg_core.specs.contracts.grammar.CoreExpr as e;
    ghost use Rattle.std.specs.Coded.{codes};

    ghost Value = { Grammar };

    ghost coded = { Prim.hlevel (codes, e.the_row.coded) };

    ghost view = { λ c. record { rules = c.rules; names = c.names } };

    ghost invariant = { λ c. Good (record { rules = c.rules; names = c.names }) };
}

impl Core {
    /// The rules, in the order of their heads in the text.
    pub fn rules(&self) -> &[CoreRule]
        ensures rules { result.now ≡ self.now.rules }
        ensures good { Good self.now }
    {
        self.rules.as_slice()
    }

    /// The names of attributes, by their numbers.
    pub fn names(&self) -> &[Name]
        ensures { result.now ≡ self.now.names }
    {
        self.names.as_slice()
    }
}

/// A core grammar by which parsing ends on every input of at most 2^30 bytes.
#[derive(Drop)]
pub struct Checked {
    core: Core,
}

impl Model for Checked {
    ghost use Rattle.ipg_core.specs.Grammar.{Grammar};
    ghost use Rattle.ipg_core.specs.Total.{Total};
    ghost use Rattle.ipg_core.specs.contracts.grammar.CoreExpr as e;
    ghost use Rattle.std.specs.Coded.{codes};

    ghost Value = { Grammar };

    ghost coded = { Prim.hlevel (codes, e.the_row.coded) };

    ghost view = { λ c. c.core };

    ghost invariant = { λ c. Total c.core };
}

impl Checked {
    /// Takes no memory.
    pub fn new(core: Core) -> Checked
        requires { Total core }
        ensures { result ≡ core }
    {
        Checked { core }
    }

    /// The grammar. Takes no memory.
    pub fn core(&self) -> &Core
        ensures core { result.now ≡ self.now }
        ensures total { Total self.now }
    {
        &self.core
    }

    /// The grammar, given back. Takes no memory.
    pub fn into_core(self) -> Core
        ensures { result ≡ self }
    {
        let Checked { core } = self;
        core
    }
}
