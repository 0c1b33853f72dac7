//! Lists of which each index of a column has one: where each begins, and all of them one after
//! another.

ghost use Rattle.std.specs.Prelude.{◌≡◌, ◌<◌, ◌≤◌, ◌+◌, ◌↔◌, suc, nat_le, if◌then◌else◌, Some, None, IsTrue, map, length, take};
ghost use Rattle.h3_c.specs.Column.{first_code, first_place};
ghost use Rattle.h3_c.specs.Lists.{indexes, laid_over};
ghost use Rattle.h3_c.specs.Starts.{all_children, child_sizes, fitting, greatest_place, lists_code, lists_place, sizes_of, starts_code, starts_from, starts_over, starts_place};

use crate::column::{ColumnFunction, MEMORY_BOUNDS, first_error};
use crate::descendants::put_children_of;
use h3_requests::IndexFunction::CellToChildrenSize;

/// The greatest place, which an `int64_t` still holds.
const GREATEST_PLACE: u64 = 9_223_372_036_854_775_807;

/// Says what became of the lists of indexes, of which so many have room, from the first one on; if
/// all have, it is said whether no index is refused. Returns `MEMORY_BOUNDS` and puts the place of
/// the first list without room at `at`; or the number of the first error, and its place; or 0, and
/// how many indexes there are.
#[inline(always)]
fn tell<Q: ColumnFunction<u64>>(
    question: &Q,
    indexes: &[u64],
    fitting: usize,
    is_none_refused: bool,
    at: &mut usize,
) -> u32
    requires none { length indexes.now ≤ fitting → IsTrue is_none_refused
        ↔ (first_code (map (λ h. Q.outcome question.now h) indexes.now) ≡ 0) }
    ensures code { result ≡ (if nat_le (length indexes.now) fitting
        then first_code (map (λ h. Q.outcome question.now h) indexes.now) else 14) }
    ensures place { at.new ≡ (if nat_le (length indexes.now) fitting
        then first_place (map (λ h. Q.outcome question.now h) indexes.now) else fitting) }
{
    if fitting < indexes.len() {
        *at = fitting;
        return MEMORY_BOUNDS;
    }
    if is_none_refused {
        *at = indexes.len();
        return 0;
    }
    let (code, place) = first_error(question, indexes);
    *at = place;
    code
}

/// Puts the places where the lists of indexes begin, and where the last one ends, up to
/// `GREATEST_PLACE`. Returns how many of them end there or before, and whether no index is refused,
/// if these are all.
#[inline(always)]
fn put_starts<Q: ColumnFunction<u64>>(
    question: &Q,
    indexes: &[u64],
    starts: &mut [u64],
) -> (usize, bool)
    requires room { length indexes.now < length starts.old }
    ensures fitting { result.0 ≡ fitting greatest_place
        (sizes_of (map (λ h. Q.outcome question.now h) indexes.now)) }
    ensures starts { starts.new ≡ laid_over
        (take (suc (fitting greatest_place (sizes_of (map (λ h. Q.outcome question.now h) indexes.now))))
        (starts_from 0 (sizes_of (map (λ h. Q.outcome question.now h) indexes.now)))) starts.old }
    ensures none { length indexes.now ≤ result.0 → IsTrue result.1
        ↔ (first_code (map (λ h. Q.outcome question.now h) indexes.now) ≡ 0) }
{
    let mut near: usize = 0;
    let mut missed: usize = 0;
    let mut end: u64 = 0;
    starts[0] = 0;
    for i in 0..indexes.len() {
        let answer = question.ask(indexes[i], &mut near);
        missed += usize::from(answer.is_err());
        let size = answer.unwrap_or(0);
        if size > GREATEST_PLACE - end {
            return (i, false);
        }
        end += size;
        starts[i + 1] = end;
    }
    (indexes.len(), missed == 0)
}

/// Puts the places where the lists of indexes begin, and where the last one ends, into the first
/// slots, up to `GREATEST_PLACE`. Given is how many items each has. Returns what [`tell`] does;
/// where there is too little room for the places, `MEMORY_BOUNDS`: then nothing is written.
#[inline(always)]
pub(crate) fn fill_starts<Q: ColumnFunction<u64>>(
    question: &Q,
    indexes: &[u64],
    starts: &mut [u64],
    at: &mut usize,
) -> u32
    ensures code { result
        ≡ starts_code (map (λ h. Q.outcome question.now h) indexes.now) (length starts.old) }
    ensures starts { starts.new
        ≡ starts_over (map (λ h. Q.outcome question.now h) indexes.now) starts.old }
    ensures place { at.new
        ≡ starts_place (map (λ h. Q.outcome question.now h) indexes.now) (length starts.old) at.old }
{
    if starts.len() <= indexes.len() {
        return MEMORY_BOUNDS;
    }
    let (fitting, is_none_refused) = put_starts(question, indexes, starts);
    tell(question, indexes, fitting, is_none_refused, at)
}

/// Puts the children of each index into the first slots, one index's after another's, as far as they
/// go. Returns of how many indexes all have room, and whether no index is refused, if these are all.
#[inline(always)]
pub(crate) fn put_children(cells: &[u64], res: i32, out: &mut [u64]) -> (usize, bool)
    ensures fitting { result.0 ≡ fitting (length out.old) (sizes_of (child_sizes res cells.now)) }
    ensures children { out.new ≡ laid_over (indexes (all_children res cells.now)) out.old }
    ensures none { length cells.now ≤ result.0 → IsTrue result.1
        ↔ (first_code (child_sizes res cells.now) ≡ 0) }
{
    let mut missed: usize = 0;
    let mut place: usize = 0;
    for i in 0..cells.len() {
        let children = put_children_of(out, place, cells[i], res);
        missed += usize::from(children.is_err());
        match children.unwrap_or(Some(place)) {
            Some(end) => place = end,
            None => return (i, false),
        }
    }
    (cells.len(), missed == 0)
}

/// [`put_children`], and what [`tell`] returns of them.
#[inline(always)]
pub(crate) fn fill_children(cells: &[u64], res: i32, out: &mut [u64], at: &mut usize) -> u32
    ensures code { result ≡ lists_code (child_sizes res cells.now) (length out.old) }
    ensures children { out.new ≡ laid_over (indexes (all_children res cells.now)) out.old }
    ensures place { at.new ≡ lists_place (child_sizes res cells.now) (length out.old) }
{
    let (fitting, is_none_refused) = put_children(cells, res, out);
    tell(
        &CellToChildrenSize { res },
        cells,
        fitting,
        is_none_refused,
        at,
    )
}
