//! Plain lines: fifteen digits in lower case, which are read without a search for their end; and lines of as many
//! digits in capitals, with a prefix or with a carriage return.

ghost use Rattle.std.specs.Prelude.{◌≡◌, ◌≤◌, ◌<◌, ◌+◌, ◌^◌, ◌++◌, ◌∷◌, [], Bool, ℕ, List, get_or, length, take, IfOk, IfErr, IfSome, IfNone, OnOk};
ghost use Rattle.h3_lines.specs.Pieces.{Piece, rows_of};
ghost use Rattle.h3_lines.specs.Splitting.{BeginsLines, BeginsPlain, Goes, ParseAll, ParsesAs};
ghost use Rattle.h3_lines.specs.Stop.{stopped_at};

use crate::run_error::RunError;
use crate::splitting::JobContract;
use crate::stop::Stop;
use h3_index::{read_plain, read_trimmed};

/// The digits of a plain line: those of a cell's index.
const PLAIN: usize = 15;

/// How many plain lines are read before the first of them is taken, if they are looked up together.
pub const LINES: usize = 16;

/// What takes lines that parse as an index.
pub(crate) trait IndexJob: JobContract {
    /// The number of the line at which it stopped.
    ghost line: { Self → ℕ };

    /// The number of the line at which it stopped.
    fn line(&self) -> u64
        ensures { result ≡ line self.now };

    /// Takes a line that parses as an index. The place, if there is one, is where it is looked for
    /// first; it may be any.
    fn take_index(&mut self, index: u64, place: Option<usize>) -> Result<(), Stop>
        requires few { Self.count self.old < 2 ^ 63 }
        ensures ok { OnOk result ((p : Piece) → ParsesAs p.0 index →
            Self.taken self.old (p ∷ []) self.new) }
        ensures counted { OnOk result (Self.count self.new ≤ Self.count self.old + 1) }
        ensures err { IfErr result (λ s. (p : Piece) → ParsesAs p.0 index → (later : List Piece) →
            Self.refused self.old (p ∷ later) self.new (stopped_at (line self.new) s)) };

    /// Whether the indexes of the next lines are looked up together.
    fn looks_ahead(&self) -> bool;

    /// A place for each of the indexes of the next lines, at most 16; `None` if each is looked for
    /// where the one before it was found.
    fn look_ahead(&self, indexes: &[u64]) -> Option<[usize; LINES]>;
}

/// The index of the plain line that bytes begin with, fifteen digits in lower case and a line feed,
/// and the bytes after it.
#[inline(always)]
pub(crate) fn plain_line(bytes: &[u8]) -> Option<(u64, &[u8])>
    ensures { IfSome result (λ p. BeginsPlain bytes.now p.0 p.1.now) }
{
    if bytes.len() <= PLAIN || bytes[PLAIN] != b'\n' {
        return None;
    }
    let index = read_plain(&bytes[..PLAIN])?;
    Some((index, &bytes[PLAIN + 1..]))
}

/// The place of the line feed after the digits of a cell's index, which may have a prefix and a carriage
/// return.
#[inline(always)]
fn feed_place(bytes: &[u8]) -> Option<usize>
    ensures within { IfSome result (λ at. at < length bytes.now) }
    ensures feed { IfSome result (λ at. get_or bytes.now at 0 ≡ 10) }
    ensures some { IfSome result (λ at. 0 < at) }
    ensures short { IfSome result (λ at. at ≤ 18) }
{
    for at in PLAIN..PLAIN + 4 {
        if at < bytes.len() && bytes[at] == b'\n' {
            return Some(at);
        }
    }
    None
}

/// The index of the line that bytes begin with, if it is a cell's in capitals, with a prefix or with a carriage
/// return, and the bytes after it. `None` may be answered to any other.
#[inline(always)]
fn trimmed_line(bytes: &[u8]) -> Option<(u64, &[u8])>
    ensures { IfSome result (λ p. BeginsPlain bytes.now p.0 p.1.now) }
{
    let end = feed_place(bytes)?;
    let after = &bytes[end + 1..];
    if bytes[end - 1] == b'\r' {
        let index = read_trimmed(&bytes[..end - 1])?;
        return Some((index, after));
    }
    let index = read_trimmed(&bytes[..end])?;
    Some((index, after))
}

/// Has the lines taken that bytes begin with, up to 16, as far as `trimmed_line` reads them, and returns the
/// bytes after them; `None` if it does not read the first.
// A call, so that plain lines find all they need in registers. No more than 16, since plain ones may follow, which it
// reads too, but more slowly.
#[inline(never)]
fn take_trimmed<'b, J: IndexJob>(job: &mut J, bytes: &'b [u8]) -> Result<Option<&'b [u8]>, RunError>
    requires { J.count job.old + length bytes.now < 2 ^ 63 }
    ensures some { (quotes : Bool) → IfOk result (λ o. IfSome o (λ left.
        Goes quotes J.taken job.old [] bytes.now job.new [] left.now)) }
    ensures fewer { IfOk result (λ o. IfSome o (λ left. length left.now + 1 ≤ length bytes.now)) }
    ensures counted { IfOk result (λ o. IfSome o (λ left.
        J.count job.new + length left.now ≤ J.count job.old + length bytes.now)) }
    ensures none { IfOk result (λ o. IfNone o (job.new ≡ job.old)) }
    ensures err { IfErr result (λ e. (quotes : Bool) (rest : List ℕ) →
        J.refused job.old (rows_of quotes (bytes.now ++ rest)) job.new e) }
{
    let mut left = bytes;
    for _ in 0..LINES {
        let Some((index, after)) = trimmed_line(left) else {
            break;
        };
        if let Err(why) = job.take_index(index, None) {
            return Err(why.at(job.line()));
        }
        left = after;
    }
    Ok((left.len() < bytes.len()).then_some(left))
}

/// Reads the indexes of the plain lines that bytes begin with, at most 16. Returns how many they are,
/// and the bytes after them.
#[inline(always)]
fn plain_lines<'b>(bytes: &'b [u8], indexes: &mut [u64; LINES]) -> (usize, &'b [u8])
    ensures within { result.0 ≤ 16 }
    ensures lines { BeginsLines bytes.now (take result.0 indexes.new) result.1.now }
{
    let mut left = bytes;
    for count in 0..LINES {
        let Some((index, after)) = plain_line(left) else {
            return (count, left);
        };
        indexes[count] = index;
        left = after;
    }
    (LINES, left)
}

/// Where each of the next lines, at most 16, is looked for first.
trait Places {
    /// The place for the line with this number, from 0; `None` if that is where the one before it was
    /// found. It may be any.
    fn of_line(&self, number: usize) -> Option<usize>
        requires { number < 16 };
}

/// A place for each line.
impl Places for [usize; LINES] {
    #[inline(always)]
    fn of_line(&self, number: usize) -> Option<usize> {
        Some(self[number])
    }
}

/// No place for any line.
impl Places for () {
    #[inline(always)]
    fn of_line(&self, _number: usize) -> Option<usize> {
        None
    }
}

/// Has the lines with these indexes taken, in order.
// Generic over the places: where there are none, no line tests for one.
#[inline(always)]
fn take_at<J: IndexJob, P: Places>(job: &mut J, indexes: &[u64], places: &P) -> Result<(), Stop>
    requires few { J.count job.old + length indexes.now < 2 ^ 63 }
    requires within { length indexes.now ≤ 16 }
    ensures ok { OnOk result ((rows : List Piece) → ParseAll rows indexes.now →
        J.taken job.old rows job.new) }
    ensures counted { OnOk result (J.count job.new ≤ J.count job.old + length indexes.now) }
    ensures err { IfErr result (λ s. (rows : List Piece) → ParseAll rows indexes.now →
        (later : List Piece) →
        J.refused job.old (rows ++ later) job.new (stopped_at (J.line job.new) s)) }
{
    for i in 0..indexes.len() {
        job.take_index(indexes[i], places.of_line(i))?;
    }
    Ok(())
}

/// The same, once they are looked up together.
#[inline(always)]
fn take_indexes<J: IndexJob>(job: &mut J, indexes: &[u64]) -> Result<(), Stop>
    requires few { J.count job.old + length indexes.now < 2 ^ 63 }
    requires within { length indexes.now ≤ 16 }
    ensures ok { OnOk result ((rows : List Piece) → ParseAll rows indexes.now →
        J.taken job.old rows job.new) }
    ensures counted { OnOk result (J.count job.new ≤ J.count job.old + length indexes.now) }
    ensures err { IfErr result (λ s. (rows : List Piece) → ParseAll rows indexes.now →
        (later : List Piece) →
        J.refused job.old (rows ++ later) job.new (stopped_at (J.line job.new) s)) }
{
    match job.look_ahead(indexes) {
        Some(places) => take_at(job, indexes, &places),
        None => take_at(job, indexes, &()),
    }
}

/// Has the plain lines taken that bytes begin with, up to 16 together, or else lines that
/// `trimmed_line` reads. Returns the bytes after them; `None` if they begin with neither.
fn take_together<'b, J: IndexJob>(
    job: &mut J,
    bytes: &'b [u8],
) -> Result<Option<&'b [u8]>, RunError>
    requires { J.count job.old + length bytes.now < 2 ^ 63 }
    ensures some { (quotes : Bool) → IfOk result (λ o. IfSome o (λ left.
        Goes quotes J.taken job.old [] bytes.now job.new [] left.now)) }
    ensures fewer { IfOk result (λ o. IfSome o (λ left. length left.now + 1 ≤ length bytes.now)) }
    ensures counted { IfOk result (λ o. IfSome o (λ left.
        J.count job.new + length left.now ≤ J.count job.old + length bytes.now)) }
    ensures none { IfOk result (λ o. IfNone o (job.new ≡ job.old)) }
    ensures err { IfErr result (λ e. (quotes : Bool) (rest : List ℕ) →
        J.refused job.old (rows_of quotes (bytes.now ++ rest)) job.new e) }
{
    let mut indexes = [0; LINES];
    let (count, after) = plain_lines(bytes, &mut indexes);
    if count == 0 {
        return take_trimmed(job, bytes);
    }
    match take_indexes(job, &indexes[..count]) {
        Ok(()) => Ok(Some(after)),
        Err(stop) => Err(stop.at(job.line())),
    }
}

/// Has the plain lines taken that bytes begin with, all of them, or up to 16 that are looked up together,
/// or else lines that `trimmed_line` reads. Returns the bytes after them; `None` if they begin with
/// neither.
#[inline(always)]
pub(crate) fn take_plain<'b, J: IndexJob>(
    job: &mut J,
    bytes: &'b [u8],
) -> Result<Option<&'b [u8]>, RunError>
    requires { J.count job.old + length bytes.now < 2 ^ 63 }
    ensures some { (quotes : Bool) → IfOk result (λ o. IfSome o (λ left.
        Goes quotes J.taken job.old [] bytes.now job.new [] left.now)) }
    ensures fewer { IfOk result (λ o. IfSome o (λ left. length left.now + 1 ≤ length bytes.now)) }
    ensures counted { IfOk result (λ o. IfSome o (λ left.
        J.count job.new + length left.now ≤ J.count job.old + length bytes.now)) }
    ensures none { IfOk result (λ o. IfNone o (job.new ≡ job.old)) }
    ensures err { IfErr result (λ e. (quotes : Bool) (rest : List ℕ) →
        J.refused job.old (rows_of quotes (bytes.now ++ rest)) job.new e) }
{
    if job.looks_ahead() {
        return take_together(job, bytes);
    }
    let mut left = bytes;
    while let Some((index, after)) = plain_line(left) {
        if let Err(stop) = job.take_index(index, None) {
            return Err(stop.at(job.line()));
        }
        left = after;
    }
    if left.len() < bytes.len() {
        return Ok(Some(left));
    }
    take_trimmed(job, bytes)
}
