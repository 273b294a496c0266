//! Linear forms over whole numbers, and the formulas made of them.
#![tactic(auto)]

mod formula;
mod linear;
pub mod sum;

pub use formula::{Boxed, Formula, holds, is_over};
pub use linear::{LinFault, Linear};
