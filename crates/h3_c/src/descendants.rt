//! The descendants of a cell into C's memory. The children of one parent are written by adding to
//! the number of the first, and two levels at a time, so an iterator makes one step for forty-nine
//! cells.

ghost use Rattle.std.specs.Prelude.{◌≡◌, ◌≤◌, ◌<◌, ◌+◌, ◌-◌, ◌^◌, ◌++◌, ℕ, [], false, nat_le, if◌then◌else◌, List, Ok, Some, None, length};
ghost use Rattle.std.specs.Iterator.{AlwaysYields, IsFinite};
ghost use Rattle.std.specs.Result.{result_unwrap_or};
ghost use Rattle.h3_index.specs.Cell.{Address, is_pentagon, resolution};
ghost use Rattle.h3_index.specs.Descendants.{children, descendants};
ghost use Rattle.h3_functions.specs.Hierarchy.{cell_to_children};
ghost use Rattle.h3_functions.specs.Inspection.{for_value};
ghost use Rattle.h3_c.specs.Descendants.{PutAfter, end_after};
ghost use Rattle.h3_c.specs.Lists.{indexes, laid_over};

use h3_functions::cell_from;
use h3_index::{Cell, H3Error};
use h3_tree::laws::cells_form_intervals;
use h3_tree::{children_at, resolution_below};

/// Puts the indexes of the cells of an iterator into the slots from a place on, as far as they go.
/// Returns the place after them, or `None` where there is too little room.
#[inline(always)]
fn put_cells_from<I: Iterator<Item = Cell> + Drop>(
    out: &mut [u64],
    place: usize,
    cells: I,
) -> Option<usize>
    requires can { I.can_next cells }
    requires ends { IsFinite (I.remaining cells) }
    requires within { place ≤ length out.old }
    ensures end { (all : List Address) → AlwaysYields I.next_gives (λ x. x) cells all →
        result ≡ (if nat_le (place + length all) (length out.old) then Some (place + length all) else None) }
    ensures put { (all : List Address) → AlwaysYields I.next_gives (λ x. x) cells all →
        (before : List Address) → (first : List ℕ) → length before ≡ place →
        out.old ≡ laid_over (indexes before) first →
        out.new ≡ laid_over (indexes (before ++ all)) first }
{
    let mut i: usize = place;
    for cell in cells {
        if i >= out.len() {
            return None;
        }
        out[i] = cell.raw();
        i += 1;
    }
    Some(i)
}

/// How much one more in the digit of a resolution adds to a cell's number.
#[inline(always)]
fn unit_at(r: u8) -> u64
    requires { r ≤ 15 }
    ensures { result ≡ 8 ^ (15 - r) }
{
    1 << (3 * (15 - r))
}

/// Puts the indexes of the seven children of a hexagon into the slots from a place on, where they
/// have room. Each is one unit after the one before; the unit of their resolution is given.
#[inline(always)]
fn put_seven(out: &mut [u64], place: usize, parent: Cell, unit: u64)
    requires room { place + 7 ≤ length out.old }
    requires coarse { resolution parent < 15 }
    requires hexagon { is_pentagon parent ≡ false }
    requires unit { unit ≡ 8 ^ (14 - resolution parent) }
    ensures put { PutAfter place (children parent) out.old out.new }
{
    cells_form_intervals();
    let mut number = parent.raw() + (1 << 52) - 7 * unit;
    for d in 0..7 {
        out[place + d] = number;
        number += unit;
    }
}

/// Puts the indexes of the forty-nine descendants two levels below a hexagon into the slots from a
/// place on, where they have room. The unit of their resolution is given.
#[inline(always)]
fn put_forty_nine(out: &mut [u64], place: usize, cell: Cell, unit: u64)
    requires room { place + 49 ≤ length out.old }
    requires coarse { resolution cell < 14 }
    requires hexagon { is_pentagon cell ≡ false }
    requires unit { unit ≡ 8 ^ (13 - resolution cell) }
    ensures put { PutAfter place (descendants cell (resolution cell + 2)) out.old out.new }
{
    for digit in 0..7 {
        put_seven(out, place + 7 * usize::from(digit), cell.child(digit), unit);
    }
}

/// [`put_one_level`], for a cell itself.
#[inline(always)]
fn put_itself(out: &mut [u64], place: usize, cell: Cell, r: u8) -> Option<usize>
    requires within { place ≤ length out.old }
    requires own { r ≡ resolution cell }
    ensures end { result ≡ end_after place (length (descendants cell r)) (length out.old) }
    ensures put { PutAfter place (descendants cell r) out.old out.new }
{
    if place >= out.len() {
        return None;
    }
    out[place] = cell.raw();
    Some(place + 1)
}

/// Puts the indexes of the children of a cell into the slots from a place on, as far as they go;
/// their resolution is given. Returns the place after them, or `None` where there is too little
/// room.
#[inline(always)]
fn put_one_level(out: &mut [u64], place: usize, cell: Cell, r: u8) -> Option<usize>
    requires within { place ≤ length out.old }
    requires level { r ≡ resolution cell + 1 }
    requires at_most_fifteen { r ≤ 15 }
    ensures end { result ≡ end_after place (length (descendants cell r)) (length out.old) }
    ensures put { PutAfter place (descendants cell r) out.old out.new }
{
    if out.len() - place < 7 || cell.is_pentagon() {
        return put_cells_from(out, place, children_at(cell, r));
    }
    put_seven(out, place, cell, unit_at(r));
    Some(place + 7)
}

/// [`put_one_level`], for the descendants two levels below a cell.
#[inline(always)]
fn put_two_levels(out: &mut [u64], place: usize, cell: Cell, r: u8) -> Option<usize>
    requires within { place ≤ length out.old }
    requires levels { r ≡ resolution cell + 2 }
    requires at_most_fifteen { r ≤ 15 }
    ensures end { result ≡ end_after place (length (descendants cell r)) (length out.old) }
    ensures put { PutAfter place (descendants cell r) out.old out.new }
{
    if out.len() - place < 49 || cell.is_pentagon() {
        return put_cells_from(out, place, children_at(cell, r));
    }
    put_forty_nine(out, place, cell, unit_at(r));
    Some(place + 49)
}

/// Puts the indexes of the descendants of a cell at a resolution from its own to 15 into the slots
/// from a place on, as far as they go. Returns the place after them, or `None` where there is too
/// little room.
#[inline(always)]
pub(crate) fn put_descendants(out: &mut [u64], place: usize, cell: Cell, r: u8) -> Option<usize>
    requires within { place ≤ length out.old }
    requires not_coarser { resolution cell ≤ r }
    requires at_most_fifteen { r ≤ 15 }
    ensures end { result ≡ end_after place (length (descendants cell r)) (length out.old) }
    ensures put { PutAfter place (descendants cell r) out.old out.new }
{
    let levels = r - cell.resolution();
    if levels == 0 {
        return put_itself(out, place, cell, r);
    }
    if levels == 1 {
        return put_one_level(out, place, cell, r);
    }
    let mut end = place;
    for above in children_at(cell, r - 2) {
        match put_two_levels(out, end, above, r) {
            Some(next) => end = next,
            None => return None,
        }
    }
    Some(end)
}

/// Puts the indexes of the children of an index at a resolution into the slots from a place on, as
/// far as they go. Returns what [`put_descendants`] does, or the error of `cell_to_children`.
#[inline(always)]
pub(crate) fn put_children_of(
    out: &mut [u64],
    place: usize,
    index: u64,
    res: i32,
) -> Result<Option<usize>, H3Error>
    requires within { place ≤ length out.old }
    ensures end { result ≡ for_value (λ all. Ok (end_after place (length all) (length out.old)))
        (cell_to_children index res) }
    ensures put { PutAfter place (result_unwrap_or (cell_to_children index res) []) out.old out.new }
{
    let cell = cell_from(index)?;
    let r = resolution_below(cell, res)?;
    Ok(put_descendants(out, place, cell, r))
}
