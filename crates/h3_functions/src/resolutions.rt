//! H3's functions about whole resolutions.

ghost use Rattle.std.specs.Prelude.{◌≡◌};
ghost use Rattle.std.specs.Iterator.{YieldsFirst};
ghost use Rattle.h3_functions.specs.Bases.{base_cells_left, pentagons_left};
ghost use Rattle.h3_functions.specs.Resolutions.{get_num_cells, get_pentagons, get_res0_cells};
ghost use Rattle.h3_functions.specs.Items.{Lists};

use crate::bases::{BaseCells, Pentagons};
use h3_index::{H3Error, num_cells, resolution_from};

/// The number of cells of a resolution, as H3's `getNumCells` returns it.
///
/// # Errors
///
/// `ResDomain` if the number is not a resolution.
pub fn get_num_cells(res: i32) -> Result<u64, H3Error>
    ensures { result ≡ get_num_cells res }
{
    num_cells(res)
}

/// The 122 cells of resolution 0, in ascending order, as H3's `getRes0Cells` lists them.
pub fn get_res0_cells() -> BaseCells
    ensures { base_cells_left result ≡ get_res0_cells }
{
    BaseCells::all()
}

/// The twelve pentagons of a resolution, in ascending order, as H3's `getPentagons` lists them.
///
/// # Errors
///
/// `ResDomain` if the number is not a resolution.
pub fn get_pentagons(res: i32) -> Result<Pentagons, H3Error>
    ensures { Lists (YieldsFirst pentagons_left) result (get_pentagons res) }
{
    let res = resolution_from(res)?;
    Ok(Pentagons::of_resolution(res))
}
