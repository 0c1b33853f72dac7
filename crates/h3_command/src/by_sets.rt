//! H3's functions on lists of cells, answered to the cells of each value.

use crate::by_lists::{ListOfValue, put_rows};
use crate::sets::{CompactList, UncompactList, UniteList};
use h3_index::{Cell, H3Error};
use h3_lines::BLOCK;
use h3_regions::unite;
use h3_set::{compact_in_place, resolution_below_all, uncompact};
use h3_streams::{Sink, StreamFault};

impl ListOfValue for CompactList {
    ghost use Rattle.std.specs.Prelude.{⊤};
    ghost use Rattle.h3_functions.specs.Sets.{compact_cells};

    ghost list_of = { λ f. compact_cells };

    ghost listed = { λ f cells. cells };

    ghost ready = { λ f cells. ⊤ };

    fn make(&self, cells: &mut [Cell]) -> Result<usize, H3Error> {
        compact_in_place(cells)
    }

    fn put<W: Sink>(
        &self,
        separator: u8,
        value: &[u8],
        cells: &[Cell],
        out: &mut W,
        block: &mut [u8; BLOCK],
        end: usize,
    ) -> Result<usize, StreamFault> {
        put_rows(separator, value, cells.iter().copied(), out, block, end)
    }
}

impl ListOfValue for UniteList {
    ghost use Rattle.std.specs.Prelude.{⊤, Ok};
    ghost use Rattle.h3_set.specs.Compacted.{compacted};

    ghost list_of = { λ f cells. Ok (compacted cells) };

    ghost listed = { λ f cells. cells };

    ghost ready = { λ f cells. ⊤ };

    fn make(&self, cells: &mut [Cell]) -> Result<usize, H3Error> {
        Ok(unite(cells))
    }

    fn put<W: Sink>(
        &self,
        separator: u8,
        value: &[u8],
        cells: &[Cell],
        out: &mut W,
        block: &mut [u8; BLOCK],
        end: usize,
    ) -> Result<usize, StreamFault> {
        put_rows(separator, value, cells.iter().copied(), out, block, end)
    }
}

impl ListOfValue for UncompactList {
    ghost use Rattle.std.specs.Prelude.{◌≡◌, None, unsigned_abs};
    ghost use Rattle.h3_set.specs.Uncompaction.{uncompacted, uncompact_refusal};
    ghost use Rattle.h3_functions.specs.Sets.{uncompact_cells};

    ghost list_of = { λ f. uncompact_cells f.res };

    ghost listed = { λ f cells. uncompacted cells (unsigned_abs f.res) };

    ghost ready = { λ f cells. uncompact_refusal cells f.res ≡ None };

    fn make(&self, cells: &mut [Cell]) -> Result<usize, H3Error> {
        match resolution_below_all(cells, self.res) {
            Ok(_) => Ok(cells.len()),
            Err(error) => Err(error),
        }
    }

    fn put<W: Sink>(
        &self,
        separator: u8,
        value: &[u8],
        cells: &[Cell],
        out: &mut W,
        block: &mut [u8; BLOCK],
        end: usize,
    ) -> Result<usize, StreamFault> {
        match uncompact(cells, self.res) {
            Ok(all) => put_rows(separator, value, all, out, block, end),
            Err(_) => unreachable!(),
        }
    }
}
