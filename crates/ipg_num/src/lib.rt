//! Lists and boxes that contracts see as what they hold, and the operators on 64-bit numbers.
#![tactic(auto)]

mod held;
mod laws;
mod list;
mod look;
mod op;

pub use held::Held;
pub use laws::divides_by_floor;
pub use list::List;
pub use look::item_at;
pub use op::{Answer, Op2, apply, negate};
