//! Bounds of variables: how atoms tighten them, which sums of facts rule an atom out, where the box may be cut,
//! and values within them. It promises nothing: who asks tests what it finds.
#![tactic(auto)]

mod atoms;
mod case_bounds;
mod cuts;
mod dive;
mod domain_end;
mod eliminate;
mod fact_sum;
mod farkas;
mod parity;
mod parting;
mod spread;
mod trail;
mod waiting_atoms;

pub use atoms::{Atom, Atoms};
pub use case_bounds::CaseBounds;
pub use domain_end::{DomainEnd, EndSide};
pub use farkas::Explained;
pub use parting::Parting;
pub use spread::Spread;
pub use trail::{BoundChange, BoundReason, BoundTrail, BoundedTerms, Effect, Limit};
