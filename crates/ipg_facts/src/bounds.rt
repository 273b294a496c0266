use ipg_facts_forms::Form;

/// The bounds of an array.
#[derive(Drop)]
pub struct Bounds {
    pub first: Form,
    pub last: Form,
}
