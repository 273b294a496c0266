//! Table files: a grammar for which parsing ends, kept with the certificate of that. Nobody need trust a file.
#![tactic(auto)]

mod fault;
pub mod laws;
mod loading;
mod parts;
mod saving;

pub use fault::LoadFault;
pub use loading::{load, loaded};
pub use saving::save;
