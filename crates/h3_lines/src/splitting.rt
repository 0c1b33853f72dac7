//! Pages of bytes that are split into rows, and lines, which are rows without quotes.

ghost use Rattle.std.specs.Prelude.{◌≡◌, ◌≤◌, ◌<◌, ◌+◌, ◌-◌, ◌*◌, ◌^◌, ◌⊎◌, ◌==◌, ℕ, Bool, true, false, List, [], ◌∷◌, ◌++◌, length, take, drop, vec_capacity, IfOk, IfErr, IfSome, IfNone, OnOk};
ghost use Rattle.h3_streams.specs.Counted.{KeepsSource, reads_allowed, source_of};
ghost use Rattle.h3_lines.specs.Pieces.{CutsAt, Piece, Uncut, rows_of, without_last_nothing};
ghost use Rattle.h3_lines.specs.Splitting.{Completes, Goes, StopsReading, StopsTaking, TakesAll, TakesEnded};
ghost use Rattle.h3_lines.specs.declared.run_error.Fault.TheVariants.{Memory, Read};
ghost use Rattle.h3_lines.specs.declared.run_error.RunError.{RunError};
ghost use Rattle.h3_lines.specs.declared.run_error.RunError.TheVariants as refusal;

use crate::run_error::{Fault, RunError};
use h3_streams::{CountedReader, Source};
use memchr::{memchr, memchr2};
use std::alloc::Global;

/// The bytes that are read at once. The page of a list has room for more (`row_page`).
pub const PAGE: usize = 65536;

/// The reads that a list may take.
pub const MAX_READS: u64 = 1 << 40;

/// The bytes that a line may have.
pub(crate) const LONGEST_LINE: usize = 64;

/// Returns an empty page that has room for the beginning of a row, of at most `longest` bytes, and a read
/// of `size` bytes behind it.
///
/// # Errors
///
/// `Fault::Memory` if there is no memory for it.
pub fn row_page(alloc: Global, longest: usize, size: usize) -> Result<Vec<u8>, RunError>
    ensures ok { IfOk result (λ page. longest + size ≤ vec_capacity page) }
    ensures empty { IfOk result (λ page. length page.items ≡ 0) }
    ensures err { IfErr result (λ e. e ≡ refusal.Fault Memory) }
{
    let Some(room) = longest.checked_add(size) else {
        return Err(RunError::Fault(Fault::Memory));
    };
    Vec::with_capacity(alloc, room).map_err(|_| RunError::Fault(Fault::Memory))
}

/// Makes a page `size` bytes long, if it is shorter; it has room for them.
pub fn lengthen(page: &mut Vec<u8>, size: usize)
    requires { size ≤ vec_capacity page.old }
    ensures long { size ≤ length page.new.items }
    ensures longer { length page.old.items < size → length page.new.items ≡ size }
    ensures same { size ≤ length page.old.items → page.new.items ≡ page.old.items }
    ensures kept { (n : ℕ) → n ≤ length page.old.items →
        take n page.new.items ≡ take n page.old.items }
    ensures room { vec_capacity page.old ≤ vec_capacity page.new }
{
    if page.len() < size {
        // It does not fail, since there is room.
        let _ = page.resize(size, 0);
    }
}

/// What contracts say of a [`Job`]: the rows that it has taken, and those that it refuses.
pub trait JobContract {
    /// How many bytes a row may have.
    ghost longest: { ℕ };

    /// At most how many bytes the rows had that were taken, and one more for each row.
    ghost count: { Self → ℕ };

    /// Nothing of the rows taken is held back.
    ghost settled: { Self → Type 0 };

    /// From the one to the other these rows were taken.
    ghost taken: { Self → List Piece → Self → Type 0 };

    /// Of these rows, and any that come after them, one is refused, or a write fails before.
    ghost refused: { Self → List Piece → Self → RunError → Type 0 };

    /// Refuses a row that is too long.
    fn refuse_long(&mut self) -> RunError
        ensures { (p : Piece) → longest < length p.0 → (later : List Piece) →
            refused self.old (p ∷ later) self.new result };

    /// Passes on what is held back of the rows taken.
    ///
    /// # Errors
    ///
    /// If a write fails.
    fn settle(&mut self) -> Result<(), RunError>
        ensures ok { OnOk result (taken self.old [] self.new) }
        ensures settled { OnOk result (settled self.new) }
        ensures counted { OnOk result (count self.new ≤ count self.old) }
        ensures err { IfErr result (λ e. (later : List Piece) →
            refused self.old later self.new e) };

    ghost none_taken: { (v : Self) → taken v [] v };

    ghost taken_then: { (u v w : Self) (xs ys : List Piece) → taken u xs v → taken v ys w →
        taken u (xs ++ ys) w };

    ghost refused_then: { (u v w : Self) (xs ys : List Piece) (e : RunError) → taken u xs v →
        refused v ys w e → refused u (xs ++ ys) w e };
}

/// Takes the rows of a list, one after another.
pub trait Job: JobContract {
    /// Takes a row. With `inside`, a quote is open at its end, and it is the last row. It may be longer
    /// than a row may be.
    ///
    /// # Errors
    ///
    /// If the row is refused, or a write fails.
    fn take(&mut self, row: &[u8], inside: bool) -> Result<(), RunError>
        requires few { Self.count self.old + length row.now < 2 ^ 63 }
        ensures ok { OnOk result (Self.taken self.old ((row.now, inside) ∷ []) self.new) }
        ensures counted { OnOk result (Self.count self.new ≤ Self.count self.old + length row.now + 1) }
        ensures err { IfErr result (λ e. (later : List Piece) →
            Self.refused self.old ((row.now, inside) ∷ later) self.new e) };

    /// Takes one or more rows at the front of the bytes, if that is faster than `take`, and returns what
    /// follows; `None` if it takes none. `quotes` says whether quotes count.
    ///
    /// # Errors
    ///
    /// If a row is refused, or a write fails.
    #[inline(always)]
    fn take_first<'b>(
        &mut self,
        _quotes: bool,
        _bytes: &'b [u8],
    ) -> Result<Option<&'b [u8]>, RunError>
        requires few { Self.count self.old + length _bytes.now < 2 ^ 63 }
        ensures some { IfOk result (λ o. IfSome o (λ left.
            Goes _quotes Self.taken self.old [] _bytes.now self.new [] left.now)) }
        ensures fewer { IfOk result (λ o. IfSome o (λ left.
            length left.now + 1 ≤ length _bytes.now)) }
        ensures counted { IfOk result (λ o. IfSome o (λ left.
            Self.count self.new + length left.now ≤ Self.count self.old + length _bytes.now)) }
        ensures none { IfOk result (λ o. IfNone o (Self.taken self.old [] self.new)) }
        ensures same { IfOk result (λ o. IfNone o (Self.count self.new ≤ Self.count self.old)) }
        ensures err { IfErr result (λ e. (rest : List ℕ) →
            Self.refused self.old (rows_of _quotes (_bytes.now ++ rest)) self.new e) }
    {
        Ok(None)
    }
}

/// The position of the first mark outside quotes, or whether a quote is open at the end.
fn find_outside_quotes(mark: u8, inside: bool, bytes: &[u8]) -> Result<usize, bool>
    requires { (34 == mark) ≡ false }
    ensures within { IfOk result (λ at. at < length bytes.now) }
    ensures cut { IfOk result (λ at.
        CutsAt mark true inside bytes.now (take at bytes.now) (drop (at + 1) bytes.now)) }
    ensures uncut { IfErr result (λ after. Uncut mark true inside bytes.now after) }
{
    let mut here = inside;
    let mut at = 0;
    while let Some(next) = memchr2(mark, b'"', &bytes[at..]) {
        let found = at + next;
        if bytes[found] == b'"' {
            here = !here;
        } else if !here {
            return Ok(found);
        }
        at = found + 1;
    }
    Err(here)
}

/// Returns the bytes before the first mark outside quotes, and those after it. The mark is not a quote;
/// `inside`, whether a quote is open before the bytes, is false unless quotes count.
///
/// # Errors
///
/// Whether a quote is open at the end of the bytes, if there is no such mark.
#[inline(always)]
pub fn split(mark: u8, quotes: bool, inside: bool, bytes: &[u8]) -> Result<(&[u8], &[u8]), bool>
    requires quote { (34 == mark) ≡ false }
    requires outside { quotes ≡ false → inside ≡ false }
    ensures cut { IfOk result (λ p. CutsAt mark quotes inside bytes.now p.0.now p.1.now) }
    ensures uncut { IfErr result (λ after. Uncut mark quotes inside bytes.now after) }
    ensures outside { IfErr result (λ after. quotes ≡ false → after ≡ false) }
{
    if quotes {
        let at = find_outside_quotes(mark, inside, bytes)?;
        return Ok((&bytes[..at], &bytes[at + 1..]));
    }
    match memchr(mark, bytes) {
        Some(at) => Ok((&bytes[..at], &bytes[at + 1..])),
        None => Err(false),
    }
}

/// The beginning of a row that is not ended yet, at the front of a page: how many bytes it has, and
/// whether a quote is open at its end.
#[derive(Clone, Copy)]
struct RowStart {
    held: usize,
    inside: bool,
}

/// As `split` at a line feed, of bytes that begin with a row's beginning, which is not searched again.
#[inline(always)]
fn split_row(quotes: bool, start: RowStart, bytes: &[u8]) -> Result<(&[u8], &[u8]), bool>
    requires held { start.held ≤ length bytes.now }
    requires uncut { Uncut 10 quotes false (take start.held bytes.now) start.inside }
    requires outside { quotes ≡ false → start.inside ≡ false }
    ensures cut { IfOk result (λ p. CutsAt 10 quotes false bytes.now p.0.now p.1.now) }
    ensures uncut { IfErr result (λ after. Uncut 10 quotes false bytes.now after) }
    ensures outside { IfErr result (λ after. quotes ≡ false → after ≡ false) }
{
    let (more, after) = split(b'\n', quotes, start.inside, &bytes[start.held..])?;
    Ok((&bytes[..start.held + more.len()], after))
}

/// Has the job take rows from the front of the bytes until its `take_first` takes none, and returns the
/// bytes left.
#[inline(always)]
fn take_first<'b, J: Job>(job: &mut J, quotes: bool, bytes: &'b [u8]) -> Result<&'b [u8], RunError>
    requires { J.count job.old + length bytes.now < 2 ^ 63 }
    ensures ok { IfOk result (λ left.
        Goes quotes J.taken job.old [] bytes.now job.new [] left.now) }
    ensures fewer { IfOk result (λ left. length left.now ≤ length bytes.now) }
    ensures counted { IfOk result (λ left.
        J.count job.new + length left.now ≤ J.count job.old + length bytes.now) }
    ensures err { IfErr result (λ e. (rest : List ℕ) →
        J.refused job.old (rows_of quotes (bytes.now ++ rest)) job.new e) }
{
    let mut left = bytes;
    while let Some(after) = job.take_first(quotes, left)? {
        left = after;
    }
    Ok(left)
}

/// Has the rows taken that end in the bytes. Returns the bytes after them, which begin the next row, and
/// whether a quote is open at their end.
// Inlined at both calls: behind a call the job is in memory, which takes five instructions a line.
#[inline(always)]
fn take_rows<'b, J: Job>(
    job: &mut J,
    quotes: bool,
    bytes: &'b [u8],
) -> Result<(&'b [u8], bool), RunError>
    requires { J.count job.old + length bytes.now < 2 ^ 63 }
    ensures ok { IfOk result (λ p.
        Goes quotes J.taken job.old [] bytes.now job.new [] p.0.now) }
    ensures uncut { IfOk result (λ p. Uncut 10 quotes false p.0.now p.1) }
    ensures outside { IfOk result (λ p. quotes ≡ false → p.1 ≡ false) }
    ensures counted { IfOk result (λ p.
        J.count job.new + length p.0.now ≤ J.count job.old + length bytes.now) }
    ensures err { IfErr result (λ e. (rest : List ℕ) →
        J.refused job.old (rows_of quotes (bytes.now ++ rest)) job.new e) }
{
    let mut left = bytes;
    loop {
        left = take_first(job, quotes, left)?;
        match split(b'\n', quotes, false, left) {
            Ok((row, after)) => {
                job.take(row, false)?;
                left = after;
            }
            Err(inside) => return Ok((left, inside)),
        }
    }
}

/// As `take_rows`, of bytes whose first `start.held` begin a row and are not searched again.
fn take_begun<'b, J: Job>(
    job: &mut J,
    quotes: bool,
    start: RowStart,
    bytes: &'b [u8],
) -> Result<(&'b [u8], bool), RunError>
    requires held { start.held ≤ length bytes.now }
    requires uncut { Uncut 10 quotes false (take start.held bytes.now) start.inside }
    requires outside { quotes ≡ false → start.inside ≡ false }
    requires few { J.count job.old + length bytes.now < 2 ^ 63 }
    ensures ok { IfOk result (λ p.
        Goes quotes J.taken job.old [] bytes.now job.new [] p.0.now) }
    ensures uncut { IfOk result (λ p. Uncut 10 quotes false p.0.now p.1) }
    ensures outside { IfOk result (λ p. quotes ≡ false → p.1 ≡ false) }
    ensures counted { IfOk result (λ p.
        J.count job.new + length p.0.now ≤ J.count job.old + length bytes.now) }
    ensures err { IfErr result (λ e. (rest : List ℕ) →
        J.refused job.old (rows_of quotes (bytes.now ++ rest)) job.new e) }
{
    if start.held == 0 {
        return take_rows(job, quotes, bytes);
    }
    match split_row(quotes, start, bytes) {
        Ok((row, after)) => {
            job.take(row, false)?;
            take_rows(job, quotes, after)
        }
        Err(inside) => Ok((bytes, inside)),
    }
}

/// Moves the last of the page's first `end` bytes to its front.
fn move_to_front(page: &mut [u8], end: usize, held: usize)
    requires held { held ≤ end }
    requires end { end ≤ length page.old }
    ensures { take held page.new ≡ drop (end - held) (take end page.old) }
{
    // A row that takes many reads is at the front already.
    if held < end {
        page.copy_within(end - held..end, 0);
    }
}

/// Has the rows taken that end in the page's first `end` bytes, and then nothing is held back. Moves the
/// beginning of the next row to the page's front.
fn take_page<J: Job>(
    job: &mut J,
    quotes: bool,
    start: RowStart,
    longest: usize,
    page: &mut [u8],
    end: usize,
) -> Result<RowStart, RunError>
    requires longest { longest ≡ J.longest }
    requires held { start.held ≤ end }
    requires end { end ≤ length page.old }
    requires uncut { Uncut 10 quotes false (take start.held page.old) start.inside }
    requires outside { quotes ≡ false → start.inside ≡ false }
    requires few { J.count job.old + end < 2 ^ 63 }
    ensures ok { IfOk result (λ next. Goes quotes J.taken job.old [] (take end page.old)
        job.new [] (take next.held page.new)) }
    ensures short { IfOk result (λ next. next.held ≤ J.longest) }
    ensures within { IfOk result (λ next. next.held ≤ end) }
    ensures uncut { IfOk result (λ next.
        Uncut 10 quotes false (take next.held page.new) next.inside) }
    ensures outside { IfOk result (λ next. quotes ≡ false → next.inside ≡ false) }
    ensures settled { OnOk result (J.settled job.new) }
    ensures counted { IfOk result (λ next. J.count job.new + next.held ≤ J.count job.old + end) }
    ensures err { IfErr result (λ e. (rest : List ℕ) →
        J.refused job.old (rows_of quotes (take end page.old ++ rest)) job.new e) }
{
    let (left, inside) = take_begun(job, quotes, start, &page[..end])?;
    let held = left.len();
    if held > longest {
        return Err(job.refuse_long());
    }
    job.settle()?;
    move_to_front(page, end, held);
    Ok(RowStart { held, inside })
}

/// Has the last row taken, which has no line feed, unless it is empty. Then nothing is held back. With
/// `inside`, a quote is open at its end.
///
/// # Errors
///
/// The job's, of the row, or if a write fails.
pub fn take_last<J: Job>(job: &mut J, row: &[u8], inside: bool) -> Result<(), RunError>
    requires few { J.count job.old + length row.now < 2 ^ 63 }
    ensures ok { OnOk result
        (J.taken job.old (without_last_nothing ((row.now, inside) ∷ [])) job.new) }
    ensures settled { OnOk result (J.settled job.new) }
    ensures err { IfErr result (λ e.
        J.refused job.old (without_last_nothing ((row.now, inside) ∷ [])) job.new e) }
{
    if row.is_empty() {
        return job.settle();
    }
    job.take(row, inside)?;
    job.settle()
}

/// Has the rows of a source taken by a job that end in a line feed, read by read. Returns how many bytes
/// follow the last of them, which are then at the page's front, and whether a quote is open at their end.
///
/// Each row is taken in the page: the beginning of one that is not ended is moved to the page's front,
/// and the next read goes right behind it. `page` has room for the longest row and one read
/// (`row_page`), and grows only as far as rows need; `longest` is the job's, and `size`, the bytes of a
/// read, is not 0.
///
/// # Errors
///
/// The first one that is met, of:
///
/// - The job's, of a row that it refuses or one that is too long.
/// - `Fault::Read` if a read fails, or none is left.
pub fn drive_to_end<'a, J: Job, R: Source>(
    job: &mut J,
    reader: &mut CountedReader<'a, R>,
    quotes: bool,
    longest: usize,
    size: usize,
    page: &mut Vec<u8>,
) -> Result<(usize, bool), RunError>
    requires longest { longest ≡ J.longest }
    requires page { longest + size ≤ vec_capacity page.old }
    requires some { 0 < size }
    requires few { J.count job.old + reads_allowed reader.old * size < 2 ^ 63 }
    requires settled { J.settled job.old }
    ensures ok { IfOk result (λ p. TakesEnded quotes J.longest J.taken job.old job.new
        (take p.0 page.new.items) p.1
        (R.left (source_of reader.old)) (R.left (source_of reader.new))
        (reads_allowed reader.old) size) }
    ensures within { IfOk result (λ p. p.0 ≤ length page.new.items) }
    ensures counted { IfOk result (λ p.
        J.count job.new + p.0 ≤ J.count job.old + reads_allowed reader.old * size) }
    ensures settled { OnOk result (J.settled job.new) }
    ensures err { IfErr result (λ e. (
        (e ≡ refusal.Fault Read) × StopsReading quotes J.longest J.taken J.settled job.old job.new
        (R.left (source_of reader.old)) (R.left (source_of reader.new))
        (R.has_failed (source_of reader.new) ≡ true) (reads_allowed reader.old) size)
        ⊎ (((rows_in : List ℕ → List Piece) → Completes quotes rows_in →
        StopsTaking quotes rows_in J.longest J.taken J.refused J.settled job.old job.new e
        (R.left (source_of reader.old)) (R.left (source_of reader.new))
        (reads_allowed reader.old) size)
        × (R.has_failed (source_of reader.new) ≡ R.has_failed (source_of reader.old)))) }
    ensures sound { OnOk result
        (R.has_failed (source_of reader.new) ≡ R.has_failed (source_of reader.old)) }
    ensures same { KeepsSource reader.old reader.new }
    ensures room { vec_capacity page.old ≤ vec_capacity page.new }
{
    let mut start = RowStart {
        held: 0,
        inside: false,
    };
    loop {
        lengthen(page, start.held + size);
        let page = page.as_mut_slice();
        let Ok(count) = reader.read(&mut page[start.held..start.held + size]) else {
            return Err(RunError::Fault(Fault::Read));
        };
        if count == 0 {
            return Ok((start.held, start.inside));
        }
        let end = start.held + count;
        start = take_page(job, quotes, start, longest, page, end)?;
    }
}

/// As `drive_to_end`, and then has the last row taken, which has no line feed.
///
/// # Errors
///
/// As of `drive_to_end`, and the job's of the last row.
pub fn drive<'a, J: Job, R: Source>(
    job: &mut J,
    reader: &mut CountedReader<'a, R>,
    quotes: bool,
    longest: usize,
    size: usize,
    page: &mut Vec<u8>,
) -> Result<(), RunError>
    requires longest { longest ≡ J.longest }
    requires page { longest + size ≤ vec_capacity page.old }
    requires some { 0 < size }
    requires few { J.count job.old + reads_allowed reader.old * size < 2 ^ 63 }
    requires settled { J.settled job.old }
    ensures ok { OnOk result (TakesAll (rows_of quotes) J.taken job.old job.new
        (R.left (source_of reader.old)) (R.left (source_of reader.new))
        (reads_allowed reader.old) size) }
    ensures settled { OnOk result (J.settled job.new) }
    ensures err { IfErr result (λ e. (
        (e ≡ refusal.Fault Read) × StopsReading quotes J.longest J.taken J.settled job.old job.new
        (R.left (source_of reader.old)) (R.left (source_of reader.new))
        (R.has_failed (source_of reader.new) ≡ true) (reads_allowed reader.old) size)
        ⊎ (StopsTaking quotes (rows_of quotes) J.longest J.taken J.refused J.settled
        job.old job.new e
        (R.left (source_of reader.old)) (R.left (source_of reader.new))
        (reads_allowed reader.old) size
        × (R.has_failed (source_of reader.new) ≡ R.has_failed (source_of reader.old)))) }
    ensures sound { OnOk result
        (R.has_failed (source_of reader.new) ≡ R.has_failed (source_of reader.old)) }
    ensures same { KeepsSource reader.old reader.new }
    ensures room { vec_capacity page.old ≤ vec_capacity page.new }
{
    let (held, inside) = drive_to_end(job, reader, quotes, longest, size, page)?;
    take_last(job, &page[..held], inside)
}
