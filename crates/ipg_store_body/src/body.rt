//! What a body tells.

use ipg_core::grammar::{CoreRule, Name};
use ipg_num::List;

/// A grammar's names of attributes and its rules, of which nothing is known; no term has its place in an order yet.
#[derive(Drop)]
pub struct Body {
    pub names: List<Name>,
    pub rules: List<CoreRule>,
}
