//! Why a base cell table is refused.

use crate::direction::Direction;
use thiserror::Error;

/// Why a base cell table is refused, in the order in which the errors are found. Records are
/// numbered from 1, and the header is record 1.
#[derive(Clone, Copy, Debug, PartialEq, Eq, Error)]
pub enum TableError {
    /// The reader failed, or was not at its end within 2^40 reads.
    #[error("the table could not be read")]
    Read,

    /// There was no memory for the file or for a record.
    #[error("out of memory")]
    Memory,

    /// The first record is no header, or a later one has more or fewer fields than the header, or a
    /// field that is not 1 to 3 digits.
    #[error("record {0} is malformed")]
    Form(u64),

    /// A record has a base cell above 121 or a pentagon one, in format 1 a direction outside 1 to
    /// 6, a neighbor above 121, or more than 5 turns.
    #[error("record {0} has a number out of range")]
    Range(u64),

    /// An earlier record has the same base cell and, in format 1, the same direction.
    #[error("record {0} repeats an earlier one")]
    Repeated(u64),

    /// No record has the link of some hexagon base cell and direction.
    #[error("a base cell and direction have no link")]
    Missing,

    /// The neighbors of the base cell do not differ from each other and from it.
    #[error("base cell {0} and its neighbours are not seven different base cells")]
    Neighbours(u8),

    /// The link back from the neighbor of the base cell in the direction does not undo the link.
    #[error("the link of base cell {0} in direction {digit} is not undone by the link back", digit = .1.digit())]
    Reversal(u8, Direction),

    /// The links around the corner between the direction and the next one counter-clockwise do not
    /// agree.
    #[error("the links around the corner of base cell {0} after direction {digit} do not agree", digit = .1.digit())]
    Corner(u8, Direction),
}
