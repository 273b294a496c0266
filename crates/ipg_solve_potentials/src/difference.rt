/// An edge of the graph, a difference constraint: along it the level must fall at least so far, or rise at most so
/// far where `fall` is below 0.
#[derive(Clone, Copy)]
pub struct Difference {
    pub from: usize,
    pub to: usize,
    pub fall: i128,
}
