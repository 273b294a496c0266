//! A parse that is due.

use crate::answering::Room;
use crate::show::Show;
use ipg_core::accepted::Checked;

/// An input that was read, what it is parsed by, and what is shown of its tree.
#[derive(Drop)]
pub struct Due {
    pub grammar: Checked,
    pub input: Vec<u8>,
    pub room: Room,
    pub show: Show,
}
