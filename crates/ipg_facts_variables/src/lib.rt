//! The variables of conditions: what each stands for, which are the same, and how they are hashed and shared.
#![tactic(auto)]

mod expr;
mod hashing;
mod same;
mod shared;
mod variable;

pub use same::same_variable;
pub use shared::{Shared, Sole};
pub use variable::{
    Quantity, Side, Variable, attribute, end, field, loop_variable, name_of, named, start, value,
    whole,
};
