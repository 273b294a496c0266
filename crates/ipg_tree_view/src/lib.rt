//! The tree beside the bytes of its input.
#![tactic(auto)]

mod bare;
mod columns;
mod cut;
pub mod laws;
mod picked;
#[cfg(test)]
mod tests;
mod view;
mod words;

pub use bare::bare_places;
pub use picked::print_picked;
pub use view::print_view;
