//! H3's grid traversal functions, for the index of a word, `None` where the word has none: what
//! each asks of a base cell table. Which walks are refused is this library's own.
//!
//! `Failed` where there is no index, and `CellInvalid` where no cell has it.

ghost use Rattle.std.specs.Prelude.{◌≡◌};
ghost use Rattle.h3_command.specs.Answer.{request, with_table};
ghost use Rattle.h3_command.specs.TableQuery.{table_answer};
ghost use Rattle.h3_requests.specs.declared.command.Command.TheVariants.{GridDiskDistancesUnsafe, GridDiskUnsafe, GridRingUnsafe};

use crate::required::cell_given;
use crate::table_query::TableQuery;
use h3_index::H3Error;

/// The cells within a radius of a cell, as H3's `gridDiskUnsafe` walks them.
pub(crate) fn grid_disk_unsafe(index: Option<u64>, k: i32) -> Result<TableQuery, H3Error>
    ensures { with_table table_answer result ≡ request (GridDiskUnsafe index k) }
{
    let cell = cell_given(index)?;
    Ok(TableQuery::GridDisk { cell, k })
}

/// The cells within a radius of a cell, each with its ring, as H3's `gridDiskDistancesUnsafe` walks
/// them.
pub(crate) fn grid_disk_distances_unsafe(index: Option<u64>, k: i32) -> Result<TableQuery, H3Error>
    ensures { with_table table_answer result ≡ request (GridDiskDistancesUnsafe index k) }
{
    let cell = cell_given(index)?;
    Ok(TableQuery::GridDiskDistances { cell, k })
}

/// The cells of the ring of a radius around a cell, as H3's `gridRingUnsafe` walks them.
pub(crate) fn grid_ring_unsafe(index: Option<u64>, k: i32) -> Result<TableQuery, H3Error>
    ensures { with_table table_answer result ≡ request (GridRingUnsafe index k) }
{
    let cell = cell_given(index)?;
    Ok(TableQuery::GridRing { cell, k })
}
