//! A grammar with its names resolved and its intervals as they are written.

use ipg_core::grammar::{CoreExpr, Name, Sym};
use ipg_num::List;

/// No interval, `[length]`, or `[left, right]`.
#[derive(Debug, Drop)]
pub enum NamedPlace {
    Open,
    Length(CoreExpr),
    Ends(CoreExpr, CoreExpr),
}

/// A symbol with its interval as written.
#[derive(Debug, Drop)]
pub struct NamedSlot {
    pub sym: Sym,
    pub place: NamedPlace,
}

#[derive(Debug, Drop)]
pub enum NamedTerm {
    Slot(NamedSlot),
    Set {
        attr: u32,
        value: CoreExpr,
    },
    Test(CoreExpr),
    Repeat {
        first: CoreExpr,
        last: CoreExpr,
        item: Sym,
        from: CoreExpr,
        to: CoreExpr,
    },
    Many {
        item: Sym,
        place: NamedPlace,
    },
    Pick {
        cases: List<(CoreExpr, NamedSlot)>,
        other: NamedSlot,
    },
}

#[derive(Debug, Drop)]
pub struct NamedAlt {
    pub terms: List<NamedTerm>,
}

/// A rule; a local one names its holder by rule and alternative.
#[derive(Debug, Drop)]
pub struct NamedRule {
    pub name: Name,
    pub holder: Option<(u32, u32)>,
    pub alts: List<NamedAlt>,
}
