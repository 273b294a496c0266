//! The conditions under which a call keeps its caller's whole part; those of a place that an alternative's slots leave out.
#![tactic(auto)]

mod aim;
mod bounds;
mod edition;
mod gaps;
mod keeping;
mod members;
mod missing;
mod reading;
mod scope;
mod touching;

pub use gaps::gap;
pub use keeping::{keep, keep_before, variables};
