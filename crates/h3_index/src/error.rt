//! The errors of H3.

ghost use Rattle.std.specs.Prelude.{◌≡◌};

use thiserror::Error;

/// Why a call is refused: an error of H3's table of error codes.
#[derive(Clone, Copy, Debug, PartialEq, Eq, Error)]
pub enum H3Error {
    /// The call failed, and no other error of the table says why.
    #[error("the operation failed")]
    Failed,

    /// An argument is outside its range.
    #[error("an argument is outside its range")]
    Domain,

    /// A resolution is outside its range.
    #[error("a resolution is outside its range")]
    ResDomain,

    /// An index is no valid cell.
    #[error("the index is no valid cell")]
    CellInvalid,

    /// An index is no valid directed edge.
    #[error("the index is no valid directed edge")]
    DirEdgeInvalid,

    /// A pentagon, or the distortion that it causes, was encountered.
    #[error("a pentagon was met")]
    Pentagon,

    /// A cell is listed twice, or together with an ancestor of it.
    #[error("cells of the list overlap")]
    DuplicateInput,

    /// Two cells are no neighbors.
    #[error("the cells are no neighbors")]
    NotNeighbors,

    /// Two resolutions are incompatible.
    #[error("the resolutions do not go together")]
    ResMismatch,

    /// Out of memory.
    #[error("out of memory")]
    MemoryAlloc,
}

impl H3Error {
    ghost use Rattle.h3_index.specs.Error.{error_number, error_name};

    /// The number of the error in H3's table of error codes.
    pub fn number(&self) -> u8
        ensures { result ≡ error_number self.now }
    {
        match self {
            H3Error::Failed => 1,
            H3Error::Domain => 2,
            H3Error::ResDomain => 4,
            H3Error::CellInvalid => 5,
            H3Error::DirEdgeInvalid => 6,
            H3Error::Pentagon => 9,
            H3Error::DuplicateInput => 10,
            H3Error::NotNeighbors => 11,
            H3Error::ResMismatch => 12,
            H3Error::MemoryAlloc => 13,
        }
    }

    /// The name of the error in H3's table of error codes.
    pub fn name(&self) -> &'static str
        ensures { result.now ≡ error_name self.now }
    {
        match self {
            H3Error::Failed => "E_FAILED",
            H3Error::Domain => "E_DOMAIN",
            H3Error::ResDomain => "E_RES_DOMAIN",
            H3Error::CellInvalid => "E_CELL_INVALID",
            H3Error::DirEdgeInvalid => "E_DIR_EDGE_INVALID",
            H3Error::Pentagon => "E_PENTAGON",
            H3Error::DuplicateInput => "E_DUPLICATE_INPUT",
            H3Error::NotNeighbors => "E_NOT_NEIGHBORS",
            H3Error::ResMismatch => "E_RES_MISMATCH",
            H3Error::MemoryAlloc => "E_MEMORY_ALLOC",
        }
    }
}
