//! Certificates that parsing by a grammar ends: their texts, and their checking.
#![tactic(auto)]

mod calls;
mod certificate;
mod checking;
mod conditions;
mod cursor;
mod fault;
mod judging;
pub mod laws;
mod live;
mod placing;
mod reading;
mod speaking;
mod text;
mod verifying;

pub use calls::CallGraph;
pub use certificate::Certificate;
pub use conditions::{joint_of, keep_of};
pub use fault::{CertFault, ProofFault, ProofWhy};
pub use judging::judged;
pub use live::live_cycles;
pub use reading::cert_read;
pub use speaking::is_typed;
pub use text::cert_text;
pub use verifying::verify;
