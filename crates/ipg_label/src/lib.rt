//! The names of a node's children: the attributes that are read from them.
#![tactic(auto)]

mod naming;
mod reading;
mod shape;
mod table;

pub use naming::{Label, label_at};
pub use reading::{Reading, What, read};
pub use shape::Shape;
pub use table::Labels;
