//! Whether a grammar leaves no byte out.

use ipg_cert::Refutation;
use ipg_num::List;

/// An answer, of the alternatives of the rules that the first one reaches.
#[derive(Drop)]
pub enum Cover {
    /// No alternative leaves a place out: a refutation of each one's gap, in order.
    Covered(List<Refutation>),
    /// The first alternative that may leave a place out, the least length of the part at which it may, and the least place.
    MayGap {
        rule: u32,
        alt: u32,
        at: i64,
        eoi: i64,
    },
}
