//! Compaction in one pass over cells in order: a set of siblings is closed at its last one, and a set
//! that the parent completes with it.

ghost use Rattle.std.specs.Prelude.{◌≡◌, ◌≢◌, ◌-◌, ◌<◌, ◌≤◌, ◌∷◌, [], ℕ, List, length, take, drop, slice_index_or, All, IsPermutation, IsTrue, not};
ghost use Rattle.h3_index.specs.Cell.{Address, IsCell, resolution};
ghost use Rattle.h3_index.specs.Descendants.{children};
ghost use Rattle.h3_set.specs.Closing.{HasNoSet, IsClosing, IsRising, ReducesTo};
ghost use Rattle.h3_set.specs.Compacted.{compacted, parent_of};
ghost use Rattle.h3_set.specs.Coverage.{IsApart};
ghost use Rattle.h3_set.specs.Order.{IsInOrder};

use crate::merge::siblings_at_front;
use h3_index::Cell;
use h3_index::laws::cells_are_listed;
use h3_tree::laws::{cells_form_intervals, cells_form_trees};

/// Whether a cell may be the last of its siblings.
#[inline(always)]
fn may_be_last(cell: Cell) -> bool
    ensures { IsTrue (not result) → slice_index_or cell.digits (resolution cell - 1) 7 ≢ 6 }
{
    // (at resolution 0 there is no digit, and 7 stands in its place)
    cell.digit(cell.resolution().max(1)) == 6
}

/// The number of siblings that a list ends with, where it ends with a complete set of siblings in
/// ascending order; else 0. The last cell of the list is given.
#[inline(always)]
fn siblings_at_end(cells: &[Cell], last: Cell) -> usize
    requires { drop (length cells.now - 1) cells.now ≡ last ∷ [] }
    ensures within { result ≤ length cells.now }
    ensures many { 0 < result → 1 < result }
    ensures level { 0 < result → 0 < resolution last }
    ensures siblings { 0 < result
        → drop (length cells.now - result) cells.now ≡ children (parent_of last) }
    ensures none { result ≡ 0 → 0 < resolution last
        → (i : ℕ) → drop i cells.now ≢ children (parent_of last) }
{
    cells_form_trees();
    let level = last.resolution();
    if last.digit(level.max(1)) != 6 {
        return 0;
    }
    let above = last.ancestor_at(level - 1);
    let count = usize::from(7 - u8::from(above.is_pentagon()));
    if cells.len() < count {
        return 0;
    }
    let from = cells.len() - count;
    if siblings_at_front(&cells[from..], cells[from], level) != count {
        return 0;
    }
    count
}

/// Replaces the complete set of siblings that a list ends with by the parent. Returns how many cells
/// there are then, the first ones: as many as before where there is none.
#[inline(always)]
fn close_once(cells: &mut [Cell]) -> usize
    requires some { 0 < length cells.old }
    requires rising { IsRising cells.old }
    requires closed { HasNoSet (take (length cells.old - 1) cells.old) }
    ensures some { 0 < result }
    ensures within { result ≤ length cells.old }
    ensures leads { ReducesTo cells.old (take result cells.new) }
    ensures closed { HasNoSet (take (result - 1) cells.new) }
    ensures none { result ≡ length cells.old → HasNoSet (take result cells.new) }
{
    cells_form_trees();
    cells_form_intervals();
    let len = cells.len();
    let last = cells[len - 1];
    let count = siblings_at_end(cells, last);
    if count == 0 {
        return len;
    }
    let from = len - count;
    cells[from] = last.ancestor_at(last.resolution() - 1);
    from + 1
}

/// Replaces the complete set of siblings that a list ends with by the parent, and again where this
/// completes a set. Returns how many cells there are then: the first ones.
// Few cells are the last of their siblings; inlined it would take registers from the others.
#[inline(never)]
fn close_sets(cells: &mut [Cell]) -> usize
    requires some { 0 < length cells.old }
    requires rising { IsRising cells.old }
    requires closed { HasNoSet (take (length cells.old - 1) cells.old) }
    ensures within { result ≤ length cells.old }
    ensures leads { ReducesTo cells.old (take result cells.new) }
    ensures closed { HasNoSet (take result cells.new) }
{
    let mut len = cells.len();
    let mut before = len + 1;
    while len < before {
        before = len;
        len = close_once(&mut cells[..len]);
    }
    len
}

/// As `close_sets`, where the last cell is given.
#[inline(always)]
fn close(cells: &mut [Cell], last: Cell) -> usize
    requires last { drop (length cells.old - 1) cells.old ≡ last ∷ [] }
    requires rising { IsRising cells.old }
    requires closed { HasNoSet (take (length cells.old - 1) cells.old) }
    ensures within { result ≤ length cells.old }
    ensures leads { ReducesTo cells.old (take result cells.new) }
    ensures closed { HasNoSet (take result cells.new) }
{
    cells_form_trees();
    cells_form_intervals();
    if may_be_last(last) {
        close_sets(cells)
    } else {
        cells.len()
    }
}

/// Goes on with the pass where a complete set of siblings of a level has been closed: as long as
/// another one follows, it is read as a whole, and the parent is written. Returns how many cells are
/// read then, and how many are written.
#[inline(always)]
fn close_ahead(cells: &mut [Cell], read: usize, written: usize, level: u8) -> (usize, usize)
    requires some_level { 0 < level }
    requires closing { (all : List Address) × IsClosing all cells.old written read }
    ensures further { read ≤ result.0 }
    ensures closing { (all : List Address) → IsClosing all cells.old written read
        → IsClosing all cells.new result.1 result.0 }
{
    cells_form_trees();
    cells_form_intervals();
    let mut i = read;
    let mut w = written;
    while i < cells.len() {
        let first = cells[i];
        let count = siblings_at_front(&cells[i..], first, level);
        if count == 0 {
            return (i, w);
        }
        let parent = first.ancestor_at(level - 1);
        cells[w] = parent;
        i += count;
        w = close(&mut cells[..w + 1], parent);
    }
    (i, w)
}

/// As `compact_in_order`, of cells in post order of which no two overlap: it takes one pass.
///
/// It looks for no overlap, and sorts nothing.
pub fn compact_apart(cells: &mut [Cell]) -> usize
    requires valid { All IsCell cells.old }
    requires in_order { IsInOrder cells.old }
    requires apart { IsApart cells.old }
    ensures list { IsPermutation (compacted cells.old) (take result cells.new) }
    ensures in_order { IsInOrder (take result cells.new) }
    ensures fewer { result ≤ length cells.old }
{
    cells_form_trees();
    cells_form_intervals();
    cells_are_listed();
    let mut written: usize = 0;
    let mut i: usize = 0;
    while i < cells.len() {
        let cell = cells[i];
        cells[written] = cell;
        i += 1;
        let len = close(&mut cells[..written + 1], cell);
        if len <= written {
            // a set has been closed: often another one of its level follows
            (i, written) = close_ahead(cells, i, len, cell.resolution().max(1));
        } else {
            written = len;
        }
    }
    written
}
