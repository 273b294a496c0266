//! What is shown of a tree.

use ipg_query_path::Query;

/// What is shown of a tree.
#[derive(Debug, Drop)]
pub enum Show {
    /// Its lines.
    Lines,
    /// What a path picks of it.
    Picked(Query),
    /// The bytes that its leaves put back.
    Bytes,
    /// Its JSON text.
    Json,
    /// Its lines beside the bytes.
    View,
    /// What a path picks of it, beside the bytes.
    PickedView(Query),
}
