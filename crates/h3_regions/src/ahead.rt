//! Where cells are looked for in zones, many of them at once.

ghost use Rattle.std.specs.Prelude.{◌+◌, ◌-◌, ◌/◌, ◌<◌, ◌≤◌, All, length};
ghost use Rattle.h3_regions.specs.Zones.{IsZones};

use crate::zones::{NEAR, Zones, are_below, are_not_below};
use h3_index::Cell;
use h3_tree::post_order_key;

/// How many cells are looked for side by side: a processor waits for the memory of all of these at
/// once.
pub const AHEAD: usize = 16;

/// The bits of a cell's number that are its key.
pub(crate) const KEY_BITS: u64 = (1 << 52) - 1;

/// Takes a step of each search: one whose key is above that of the cell half of its cells on goes on
/// there.
#[inline(always)]
fn step_each(cells: &[Cell], keys: &[u64; AHEAD], size: usize, places: &mut [usize; AHEAD])
    requires some { 1 < size }
    requires within { All (λ p. p + size ≤ length cells.now) places.old }
    ensures { All (λ p. p + (size - size / 2) ≤ length cells.now) places.new }
{
    let half = size / 2;
    for i in 0..AHEAD {
        let place = places[i];
        // the highest bit of the difference: a compiler makes no jump of it
        let passed = post_order_key(cells[place + half]).wrapping_sub(keys[i]) >> 63;
        places[i] = place + half * passed as usize;
    }
}

/// Whether a place, which may be any, is the first one whose cell's key is not below another, or that
/// is one of the next few.
#[inline(always)]
pub(crate) fn is_near(cells: &[Cell], key: u64, place: usize) -> bool
    requires { IsZones cells.now }
{
    let from = place.min(cells.len());
    let to = from.saturating_add(NEAR).min(cells.len());
    are_below(cells, key, from) & are_not_below(cells, key, to)
}

/// Whether the cells with the first 16 of these indexes ascend, by four of them: of sixteen in no
/// order these four ascend once in 24 times.
#[inline(always)]
fn ascend(indexes: &[u64]) -> bool
    requires { 0 < length indexes.now }
{
    let last = AHEAD.min(indexes.len()) - 1;
    let third = last / 3;
    let first = indexes[0] & KEY_BITS;
    let second = indexes[third] & KEY_BITS;
    let next = indexes[last - third] & KEY_BITS;
    (first <= second) & (second <= next) & (next <= indexes[last] & KEY_BITS)
}

/// Whether all of the cells with the first 16 of these indexes are near a place.
#[inline(always)]
fn all_near(cells: &[Cell], indexes: &[u64], place: usize) -> bool
    requires { IsZones cells.now }
{
    for i in 0..AHEAD.min(indexes.len()) {
        if !is_near(cells, indexes[i] & KEY_BITS, place) {
            return false;
        }
    }
    true
}

/// Goes on by one from each place whose key is below that of the cell.
#[inline(always)]
fn pass_each(cells: &[Cell], keys: &[u64; AHEAD], places: &mut [usize; AHEAD])
    requires { All (λ p. p < length cells.now) places.old }
{
    for i in 0..AHEAD {
        let place = places[i];
        places[i] = place + usize::from(post_order_key(cells[place]) < keys[i]);
    }
}

/// Searches for the cells with these keys side by side, each in so many of the cells from its place
/// on.
#[inline(always)]
pub(crate) fn search_each(
    cells: &[Cell],
    keys: &[u64; AHEAD],
    count: usize,
    places: &mut [usize; AHEAD],
)
    requires { All (λ p. p + count ≤ length cells.now) places.old }
{
    let mut size = count;
    while size > 1 {
        step_each(cells, keys, size, places);
        size -= size / 2;
    }
    if size == 1 {
        pass_each(cells, keys, places);
    }
}

/// The keys of the first indexes, and 0 for those that are missing.
#[inline(always)]
pub(crate) fn keys_of(indexes: &[u64]) -> [u64; AHEAD] {
    let mut keys = [0; AHEAD];
    for i in 0..AHEAD.min(indexes.len()) {
        keys[i] = indexes[i] & KEY_BITS;
    }
    keys
}

impl<'a> Zones<'a> {
    /// Whether to look the next cells up from `place`, which may be any: the first of at most 16 indexes
    /// is near it, and four of them ascend or all are near it. Of cells in no order the first often is
    /// near, if many have no zone.
    ///
    /// This is a hint: `zone_near` returns the same zones in either case. An index need not be a cell's.
    #[inline(always)]
    pub fn are_near(&self, indexes: &[u64], place: usize) -> bool {
        match indexes.first() {
            Some(first) => {
                is_near(self.cells(), *first & KEY_BITS, place)
                    && (ascend(indexes) || all_near(self.cells(), indexes, place))
            }
            None => true,
        }
    }

    /// Places for `zone_near` to look for the cells with the first 16 of these indexes, which are
    /// searched for side by side.
    ///
    /// The places are hints: `zone_near` returns the same zones from any others, only later. An index
    /// need not be a cell's.
    pub fn look_ahead(&self, indexes: &[u64]) -> [usize; AHEAD] {
        let cells = self.cells();
        let mut places = [0; AHEAD];
        search_each(cells, &keys_of(indexes), cells.len(), &mut places);
        places
    }
}
