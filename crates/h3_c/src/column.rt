//! One call for each index of a column.

ghost use Rattle.std.specs.Prelude.{◌≡◌, ◌≤◌, ◌↔◌, ℕ, IsTrue, Result, map, length};
ghost use Rattle.std.specs.Result.{result_unwrap_or};
ghost use Rattle.h3_index.specs.declared.error.H3Error.{H3Error};
ghost use Rattle.h3_c.specs.Column.{column_code, column_code_at, column_over, column_over_at, first_code, first_place, place_over, place_over_at};
ghost use Rattle.h3_c.specs.Lists.{laid_over};

use h3_index::{H3Error, resolution_from};
use h3_regions::AHEAD;

/// H3's number for an array with too little room.
pub(crate) const MEMORY_BOUNDS: u32 = 14;

/// H3's null, which stands in the place of an index where there is an error.
pub(crate) const NULL: u64 = 0;

/// Stands in the place of an `int` where there is an error.
pub(crate) const NO_NUMBER: i32 = -1;

/// Stands in the place of a count or a position where there is an error: -1 in C.
pub(crate) const NO_COUNT: u64 = u64::MAX;

/// What is asked of each index of a column.
pub(crate) trait ColumnFunction<T> {
    /// The outcome for an index.
    ghost outcome: { Self → ℕ → Result T H3Error };

    /// The outcome for an index. What looks for something begins at a place, and leaves there where it
    /// was found, for the next index; the place may be any. All else passes it over.
    fn ask(&self, index: u64, place: &mut usize) -> Result<T, H3Error>
        ensures { result ≡ Self.outcome self.now index };

    /// Where the next indexes, at most `AHEAD` of them, are looked for: a place for each; `None` if
    /// each is asked for at the place that the one before it left.
    #[inline(always)]
    fn look_ahead(&self, _indexes: &[u64], _place: usize) -> Option<[usize; AHEAD]> {
        None
    }
}

/// Puts what is asked of each index at its place in a column, and `missing` where there is an
/// error. Returns whether there is none.
///
/// It goes on after an error without a branch, so that the compiler can ask of several at once.
/// Errors are counted: of a `bool` that stays false the compiler would make two loops, one for before
/// and one for after, with a branch.
#[inline(always)]
fn fill_values<T: Copy, Q: ColumnFunction<T>>(
    question: &Q,
    indexes: &[u64],
    missing: T,
    out: &mut [T],
) -> bool
    requires room { length indexes.now ≤ length out.old }
    ensures values { out.new ≡ laid_over
        (map (λ r. result_unwrap_or r missing)
        (map (λ h. Q.outcome question.now h) indexes.now)) out.old }
    ensures none { IsTrue result ↔ (first_code (map (λ h. Q.outcome question.now h) indexes.now) ≡ 0) }
{
    let mut missed: usize = 0;
    let mut place: usize = 0;
    let mut ahead = None;
    for i in 0..indexes.len() {
        if i % AHEAD == 0 {
            ahead = question.look_ahead(&indexes[i..], place);
        }
        if let Some(places) = &ahead {
            place = places[i % AHEAD];
        }
        let answer = question.ask(indexes[i], &mut place);
        missed += usize::from(answer.is_err());
        out[i] = match answer {
            Ok(value) => value,
            Err(_) => missing,
        };
    }
    missed == 0
}

/// The number of the first error among what is asked of each index, and its place; 0 and how many
/// indexes there are where there is none.
pub(crate) fn first_error<T: Copy, Q: ColumnFunction<T>>(
    question: &Q,
    indexes: &[u64],
) -> (u32, usize)
    ensures code { result.0 ≡ first_code (map (λ h. Q.outcome question.now h) indexes.now) }
    ensures place { result.1 ≡ first_place (map (λ h. Q.outcome question.now h) indexes.now) }
{
    let mut near: usize = 0;
    for place in 0..indexes.len() {
        if let Err(error) = question.ask(indexes[place], &mut near) {
            return (u32::from(error.number()), place);
        }
    }
    (0, indexes.len())
}

/// Puts what is asked of each index at its place in a column, and `missing` where there is an
/// error. Returns the number of the first error, and puts its place at `at`; where there is none,
/// 0 and how many indexes there are. Where there is too little room, `MEMORY_BOUNDS`: then nothing
/// is written.
#[inline(always)]
pub(crate) fn fill<T: Copy, Q: ColumnFunction<T>>(
    question: &Q,
    indexes: &[u64],
    missing: T,
    out: &mut [T],
    at: &mut usize,
) -> u32
    ensures code { result
        ≡ column_code (map (λ h. Q.outcome question.now h) indexes.now) (length out.old) }
    ensures values { out.new
        ≡ column_over missing (map (λ h. Q.outcome question.now h) indexes.now) out.old }
    ensures place { at.new
        ≡ place_over (map (λ h. Q.outcome question.now h) indexes.now) (length out.old) at.old }
{
    if out.len() < indexes.len() {
        return MEMORY_BOUNDS;
    }
    if fill_values(question, indexes, missing, out) {
        *at = indexes.len();
        return 0;
    }
    let (code, place) = first_error(question, indexes);
    *at = place;
    code
}

/// [`fill`], where the question is about a resolution. A number that is none is refused before any
/// index is asked, and where there are none: then nothing is written.
#[inline(always)]
pub(crate) fn fill_at<T: Copy, Q: ColumnFunction<T>>(
    res: i32,
    question: &Q,
    indexes: &[u64],
    missing: T,
    out: &mut [T],
    at: &mut usize,
) -> u32
    ensures code { result
        ≡ column_code_at res (map (λ h. Q.outcome question.now h) indexes.now) (length out.old) }
    ensures values { out.new
        ≡ column_over_at res missing (map (λ h. Q.outcome question.now h) indexes.now) out.old }
    ensures place { at.new
        ≡ place_over_at res (map (λ h. Q.outcome question.now h) indexes.now)
        (length out.old) at.old }
{
    match resolution_from(res) {
        Ok(_) => fill(question, indexes, missing, out, at),
        Err(error) => u32::from(error.number()),
    }
}
