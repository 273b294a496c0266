/// Where the way of a key ends.
#[derive(Clone, Copy)]
pub(crate) enum Reached {
    /// At the row that has it.
    Row(usize),
    /// At a cell that names no row.
    Vacant(usize),
    /// At a row without cells under it, of which the key would go to this one.
    Bare(usize, usize),
    /// At a row of another key with the same bits. There is none.
    Lost,
}

/// How the way of a key goes on from a cell.
#[derive(Clone, Copy)]
pub(crate) enum Step {
    Stops(Reached),
    Goes(usize),
}
