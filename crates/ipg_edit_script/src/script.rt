//! What an edit asks for.

use ipg_num::List;

/// The bytes from one place up to another give way to others.
#[derive(Debug, Drop)]
pub struct Edit {
    pub from: u32,
    pub to: u32,
    pub with: List<u8>,
}
