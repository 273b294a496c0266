use ipg_cert::Refutation;
use ipg_num::List;

/// Why parsing by a grammar ends: edges whose conditions are refuted by themselves, by rising number, and then every
/// simple cycle of the other edges, in order, each with the refutation of its joint conditions.
#[derive(Drop)]
pub struct Certificate {
    pub dead: List<(u32, Refutation)>,
    pub cycles: List<(List<u32>, Refutation)>,
}
