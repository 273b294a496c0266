//! What the names of a grammar mean where they stand: its rules, attributes and terms in tables by their names, and look-ups in these.
#![tactic(auto)]

mod attrs;
mod fields;
mod heads;
pub mod laws;
mod marks;
mod names;
mod primitives;
mod roster;
mod scope;
mod tables;

pub use attrs::{Attrs, attrs_of, listed};
pub use fields::fields_of;
pub use heads::{Numbers, number_at, numbers_of};
pub use marks::Places;
pub use roster::{ListedRule, roster_of};
pub use scope::{
    Callee, all_have, attr, call_at, callee_at, is_before, is_outer, is_own, is_var, items_at,
    some_has,
};
pub use tables::{
    AltTables, NameTables, TermSite, TermSpot, alt_tables, home_of, item_spot, outer_of, pass,
    term_spot,
};
