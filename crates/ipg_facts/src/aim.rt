//! What the members of terms are put for.

/// The conditions that ask for members.
#[derive(Clone, Copy)]
pub enum Aim {
    /// Those of an edge: what slots take and touch.
    Keep,
    /// Those of a gap: also that slots miss a place.
    Gap,
}
