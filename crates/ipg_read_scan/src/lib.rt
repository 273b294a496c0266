//! The rows of a text's tokens: a scan over a stack of what is due.
#![tactic(auto)]

mod due;
mod lexeme;
mod progress;
mod row;
mod scanning;
mod stack;

pub use lexeme::{Infix, Label};
pub use row::{Extent, Member, Role, Row, Site};
pub use scanning::{ScanEnd, scan};
pub use stack::ParseStack;
