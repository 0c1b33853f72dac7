//! A job over rows.

use h3_requests::RowOptions;

/// How rows are answered: in which form, and by which function.
#[derive(Drop)]
pub struct RowJob<'f, F> {
    /// How the rows are read and written.
    pub options: &'f RowOptions,

    /// The name of the new column, unless the options have another.
    pub name: &'f [u8],

    /// Whether an answer is a pair, a cell and its distance.
    pub is_pair: bool,

    /// What answers the cell of a row.
    pub function: &'f F,
}
