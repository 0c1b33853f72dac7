//! The zone of each cell of a list.

ghost use Rattle.std.specs.Prelude.{◌≡◌, ◌≤◌, length, map, take, drop};
ghost use Rattle.h3_regions.specs.Zones.{zone_of};

use crate::zone_index::ZoneIndex;
use crate::zones::Zones;
use h3_index::Cell;

/// As `join`, where there are as many places as cells.
fn join_each(zones: &Zones, cells: &[Cell], places: &mut [Option<Cell>])
    requires { length places.old ≡ length cells.now }
    ensures { places.new ≡ map (zone_of zones.now) cells.now }
{
    let mut place: usize = 0;
    for (i, cell) in cells.iter().enumerate() {
        places[i] = zones.zone_near(*cell, &mut place);
    }
}

/// Writes the zone of each cell of a list, `None` where it has none, into the first places, in the
/// order of the cells.
///
/// There must be at least as many places as cells; the others stay as they are.
pub fn join(zones: &Zones, cells: &[Cell], places: &mut [Option<Cell>])
    requires { length cells.now ≤ length places.old }
    ensures zones { take (length cells.now) places.new ≡ map (zone_of zones.now) cells.now }
    ensures others { drop (length cells.now) places.new ≡ drop (length cells.now) places.old }
{
    join_each(zones, cells, &mut places[..cells.len()]);
}

/// As `join_indexed`, where there are as many places as cells.
fn join_each_indexed(index: &ZoneIndex, cells: &[Cell], places: &mut [Option<Cell>])
    requires { length places.old ≡ length cells.now }
    ensures { places.new ≡ map (zone_of index.now) cells.now }
{
    for (i, cell) in cells.iter().enumerate() {
        places[i] = index.zone_of(*cell);
    }
}

/// As `join`, over zones with a table: for cells in any order.
pub fn join_indexed(index: &ZoneIndex, cells: &[Cell], places: &mut [Option<Cell>])
    requires { length cells.now ≤ length places.old }
    ensures zones { take (length cells.now) places.new ≡ map (zone_of index.now) cells.now }
    ensures others { drop (length cells.now) places.new ≡ drop (length cells.now) places.old }
{
    join_each_indexed(index, cells, &mut places[..cells.len()]);
}
