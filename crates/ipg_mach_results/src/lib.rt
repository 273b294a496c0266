//! What expressions and nodes read of stored results.
#![tactic(auto)]

mod attrs;
mod ends;
mod fields;
mod items;
pub mod laws;
mod symbols;
mod together;

pub use attrs::{attr, value_at};
pub use ends::{Ends, Extent, ends_of, touches};
pub use fields::{field_of, number_attr};
pub use items::{greatest_end, item_field, items_of};
pub use symbols::is_read_by;
pub use together::extent;
