/// A cut of the box: a variable is at most `at`, or above it.
#[derive(Clone, Copy)]
pub struct Parting {
    pub var: usize,
    pub at: i64,
}
