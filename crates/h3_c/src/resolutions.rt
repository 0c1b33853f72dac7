//! Whole resolutions.

ghost use Rattle.std.specs.Prelude.{◌≡◌, Ok, length};
ghost use Rattle.std.specs.Result.{result_unwrap_or};
ghost use Rattle.h3_functions.specs.Resolutions.{get_num_cells, get_pentagons, get_res0_cells};
ghost use Rattle.h3_c.specs.Lists.{list_code, list_over};
ghost use Rattle.h3_c.specs.Outcome.{code_of};

use crate::lists::put_list;
use crate::outcome::put;
use h3_functions::{get_num_cells, get_pentagons, get_res0_cells};

/// H3's `getNumCells`.
#[unsafe(no_mangle)]
pub extern "C" fn h3w_getNumCells(res: i32, out: &mut u64) -> u32
    ensures code { result ≡ code_of (get_num_cells res) }
    ensures value { out.new ≡ result_unwrap_or (get_num_cells res) out.old }
{
    put(out, get_num_cells(res))
}

/// H3's `getRes0Cells`, with the room for them.
#[unsafe(no_mangle)]
pub extern "C" fn h3w_getRes0Cells(out: &mut [u64]) -> u32
    ensures code { result ≡ list_code (Ok get_res0_cells) (length out.old) }
    ensures list { out.new ≡ list_over (Ok get_res0_cells) out.old }
{
    put_list(out, Ok(get_res0_cells()))
}

/// H3's `getPentagons`, with the room for them.
#[unsafe(no_mangle)]
pub extern "C" fn h3w_getPentagons(res: i32, out: &mut [u64]) -> u32
    ensures code { result ≡ list_code (get_pentagons res) (length out.old) }
    ensures list { out.new ≡ list_over (get_pentagons res) out.old }
{
    put_list(out, get_pentagons(res))
}
