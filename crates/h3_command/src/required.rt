//! The indexes of words, `None` where a word parses as none.

ghost use Rattle.std.specs.Prelude.{◌≡◌};
ghost use Rattle.h3_command.specs.Required.{cell_given, edge_given, index_given};

use h3_functions::{cell_from, edge_from};
use h3_index::{Cell, Edge, H3Error};

/// The index of a word. `Failed` where the word has none.
#[inline(always)]
pub(crate) fn index_given(index: Option<u64>) -> Result<u64, H3Error>
    ensures { result ≡ index_given index }
{
    index.ok_or(H3Error::Failed)
}

/// The cell with the index of a word: `Failed` where the word has none, `CellInvalid` where no cell
/// has it.
#[inline(always)]
pub(crate) fn cell_given(index: Option<u64>) -> Result<Cell, H3Error>
    ensures { result ≡ cell_given index }
{
    cell_from(index_given(index)?)
}

/// The edge with the index of a word: `Failed` where the word has none, `DirEdgeInvalid` where no
/// edge has it.
pub(crate) fn edge_given(index: Option<u64>) -> Result<Edge, H3Error>
    ensures { result ≡ edge_given index }
{
    edge_from(index_given(index)?)
}
