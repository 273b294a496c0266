//! Linear forms whose variables carry facts, the facts that such forms make, and formulas over numbered variables.
#![tactic(auto)]

mod copying;
mod fact;
mod form;
mod joining;
mod numbers;
mod put;

pub use copying::copy_members;
pub use fact::{Draft, Fact, Form, Part};
pub use form::{in_limits, is_constant, mention, minus, number, plus, scaled, shifted};
pub use joining::joint;
pub use numbers::{Numbering, box_of, copies, formulas_of, variables_of};
pub use put::{put_choice, put_differ, put_equal, put_leq, put_less};
