/// What a variable can be, and the numbers of the facts that say so.
#[derive(Clone, Copy)]
pub struct Domain {
    pub low: i64,
    pub low_at: u64,
    pub high: i64,
    pub high_at: u64,
}
