//! What a row says of its cell.

/// What a row says of its cell.
#[derive(Clone, Copy, Drop)]
pub enum RowCell {
    /// Its text is blank.
    Missing,

    /// The index that its text parses as.
    Index(u64),
}
