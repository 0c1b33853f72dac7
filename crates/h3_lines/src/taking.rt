//! Lists of cells, one a line, of which each cell is taken as it is read.

ghost use Rattle.std.specs.Prelude.{◌≡◌, ◌≤◌, ◌<◌, ◌*◌, ◌+◌, ◌-◌, ◌^◌, ◌++◌, ◌∷◌, ⊤, ℕ, List, [], length, Result, Err, IsOk, IfOk, IfErr, OnOk, vec_capacity};
ghost use Rattle.h3_index.specs.Cell.{Address};
ghost use Rattle.h3_index.specs.declared.error.H3Error.{H3Error};
ghost use Rattle.h3_index.specs.CellNumber.{cell_in};
ghost use Rattle.h3_lines.specs.List.{Says, itself, said_by_cell};
ghost use Rattle.h3_lines.specs.ListRead.{ListRead, ListRefused, RefusesByLine};
ghost use Rattle.h3_lines.specs.Reads.{source_use};
ghost use Rattle.h3_lines.specs.Stop.{stopped_at};
ghost use Rattle.h3_lines.specs.Taking.{HaveCells, IsRefusal, RefusesCells, cell_list, cells_from, read_before};
ghost use Rattle.h3_lines.specs.TakingLaws.{have_none, have_then, refuses_after};
ghost use Rattle.h3_lines.specs.declared.run_error.AnswerError.{AnswerError};
ghost use Rattle.h3_lines.specs.declared.run_error.Fault.TheVariants.{Memory};
ghost use Rattle.h3_lines.specs.declared.splitting.TheConstants.{LONGEST_LINE};
ghost use Rattle.h3_lines.specs.declared.stop.Stop.TheVariants.{Refused};

use crate::list::read_line;
use crate::plain::{IndexJob, LINES, take_plain};
use crate::run_error::{AnswerError, Fault, RunError};
use crate::splitting::{Job, JobContract, LONGEST_LINE, MAX_READS, PAGE, drive, row_page};
use crate::stop::Stop;
use h3_index::{Cell, H3Error};
use h3_streams::{CountedReader, Source};
use std::alloc::Global;

/// What is taken for the index of each line, or row, of a list: a cell; nothing, and the line is passed over; or an
/// error.
pub trait CellOf {
    /// What is taken for an index.
    ghost says: { Self → Says };

    /// What is taken for an index.
    fn cell_of(&self, index: u64) -> Result<Option<Cell>, H3Error>
        ensures { result ≡ says self.now index };
}

/// The cell with the index, or `CellInvalid` if no cell has it.
#[derive(Drop)]
pub struct Itself;

impl CellOf for Itself {
    ghost says = { λ f. itself };

    #[inline(always)]
    fn cell_of(&self, index: u64) -> Result<Option<Cell>, H3Error> {
        let cell = Cell::new(index)?;
        Ok(Some(cell))
    }
}

/// A job over the cells of a list: takes them one after another, and keeps or counts them, say.
pub trait CellJob {
    /// At most how many cells it has taken.
    ghost count: { Self → ℕ };

    /// From the one to the other these cells were taken, in this order.
    ghost taken: { Self → List Address → Self → Type 0 };

    /// Takes a cell. The place, if there is one, is where it is looked for first; it may be any.
    /// `Fault::Memory` where there is none for it.
    fn take(&mut self, cell: Cell, place: Option<usize>) -> Result<(), Fault>
        requires few { count self.old < 2 ^ 63 }
        ensures ok { OnOk result (taken self.old (cell ∷ []) self.new) }
        ensures counted { count self.new ≤ count self.old + 1 }
        ensures err { IfErr result (λ f. f ≡ Memory) };

    /// The place at which `take` is to look for a cell that was not looked up ahead; `None` if it is looked
    /// for where the one before it was found. It may be any.
    #[inline(always)]
    fn look_for(&self, _cell: Cell) -> Option<usize> {
        None
    }

    /// Whether it looks for the cells of plain lines together: `look_ahead` is then asked for their
    /// places.
    #[inline(always)]
    fn looks_ahead(&self) -> bool {
        false
    }

    /// The places at which `take` looks for the next cells, of at most 16 indexes, one for each;
    /// `None` if each is looked for where the one before it was found. They may be any.
    #[inline(always)]
    fn look_ahead(&self, _indexes: &[u64]) -> Option<[usize; LINES]> {
        None
    }

    ghost none_taken: { (v : Self) → taken v [] v };

    ghost taken_then: { (u v w : Self) (xs ys : List Address) → taken u xs v → taken v ys w →
        taken u (xs ++ ys) w };
}

/// Has the cell that a line says taken, if it says one.
#[inline(always)]
fn push_parsed<V: CellJob>(
    job: &mut V,
    said: Result<Option<Cell>, H3Error>,
    place: Option<usize>,
) -> Result<(), Stop>
    requires few { V.count job.old < 2 ^ 63 }
    ensures ok { OnOk result (IfOk said (λ cell. V.taken job.old (cell_list cell) job.new)) }
    ensures counted { V.count job.new ≤ V.count job.old + 1 }
    ensures said { OnOk result (IsOk said) }
    ensures faulty { (e : H3Error) → said ≡ Err e → result ≡ Err (Refused e) }
    ensures err { IfErr result (λ s. (number : ℕ) (later : Result (List Address) AnswerError) →
        IsRefusal (read_before number said later) (stopped_at number s)) }
{
    match said {
        Ok(None) => Ok(()),
        Ok(Some(cell)) => Ok(job.take(cell, place)?),
        Err(error) => Err(Stop::Refused(error)),
    }
}

/// A job over lines that gives the cells on them to a job over cells. It knows the number of the next line.
#[derive(Drop)]
struct LineCells<F: CellOf, V: CellJob> {
    function: F,
    job: V,
    number: u64,
    ghost few: { V.count job ≤ number },
}

impl<F: CellOf, V: CellJob> JobContract for LineCells<F, V> {
    ghost longest = { LONGEST_LINE };

    ghost count = { λ v. v.number };

    ghost settled = { λ v. ⊤ };

    ghost taken = { λ v rows w. (cells : List Address)
        × HaveCells cells_from (F.says v.function, v.number) rows cells (F.says w.function, w.number)
        × V.taken v.job cells w.job };

    ghost refused = { λ v rows w e. RefusesCells cells_from (F.says v.function, v.number) rows e };

    fn refuse_long(&mut self) -> RunError {
        RunError::Error(AnswerError::At(self.number, H3Error::Failed))
    }

    #[inline(always)]
    fn settle(&mut self) -> Result<(), RunError> {
        Ok(())
    }

    ghost none_taken = { λ v.
        ([], have_none cells_from (F.says v.function, v.number), V.none_taken v.job) };

    ghost taken_then = { λ u v w xs ys p q. (
      p.0 ++ q.0,
      have_then cells_from (F.says u.function, u.number) (F.says v.function, v.number)
          (F.says w.function, w.number) xs ys p.0 q.0 p.1 q.1,
      V.taken_then _ _ _ _ _ p.2 q.2,
    ) };

    ghost refused_then = { λ u v w xs ys e p q.
        refuses_after cells_from (F.says u.function, u.number) (F.says v.function, v.number) xs ys
        p.0 e p.1 q };
}

impl<F: CellOf, V: CellJob> IndexJob for LineCells<F, V> {
    // The line after it is the next.
    ghost line = { λ v. v.number - 1 };

    fn line(&self) -> u64 {
        self.number.saturating_sub(1)
    }

    #[inline(always)]
    fn take_index(&mut self, index: u64, place: Option<usize>) -> Result<(), Stop> {
        self.number += 1;
        push_parsed(&mut self.job, self.function.cell_of(index), place)
    }

    #[inline(always)]
    fn looks_ahead(&self) -> bool {
        self.job.looks_ahead()
    }

    #[inline(always)]
    fn look_ahead(&self, indexes: &[u64]) -> Option<[usize; LINES]> {
        self.job.look_ahead(indexes)
    }
}

impl<F: CellOf, V: CellJob> Job for LineCells<F, V> {
    fn take(&mut self, line: &[u8], _inside: bool) -> Result<(), RunError> {
        let number = self.number;
        self.number += 1;
        match push_parsed(&mut self.job, read_line(&self.function, line), None) {
            Ok(()) => Ok(()),
            Err(stop) => Err(stop.at(number)),
        }
    }

    #[inline(always)]
    fn take_first<'b>(
        &mut self,
        _quotes: bool,
        bytes: &'b [u8],
    ) -> Result<Option<&'b [u8]>, RunError> {
        take_plain(self, bytes)
    }
}

/// Has the cells of a list taken, in at most `limit` reads of at most `size` bytes each.
pub(crate) fn take_list<F: CellOf + Drop, V: CellJob + Drop, R: Source>(
    function: F,
    job: V,
    input: &mut R,
    limit: u64,
    size: usize,
    page: &mut Vec<u8>,
) -> Result<V, RunError>
    requires first { V.count job ≡ 0 }
    requires page { LONGEST_LINE + size ≤ vec_capacity page.old }
    requires some { 0 < size }
    requires few { limit * size < 2 ^ 62 }
    ensures taken { IfOk result (λ after. (cells : List Address)
        × ListRead (F.says function) limit size (source_use R.left R.has_failed input.old input.new) cells
        × V.taken job cells after) }
    ensures refused { IfErr result (ListRefused (F.says function) RefusesByLine limit size
        (source_use R.left R.has_failed input.old input.new)) }
{
    let mut lines = LineCells {
        function,
        job,
        number: 1,
    };
    let mut reader = CountedReader::new(&mut *input, limit);
    let read = drive(&mut lines, &mut reader, false, LONGEST_LINE, size, page);
    // The proof reads what the source is after the reads from this use of it.
    let _ = &*input;
    read?;
    let LineCells {
        function: _,
        job,
        number: _,
    } = lines;
    Ok(job)
}

/// As `take_cells`, but for the index of a line it takes what the function says: a cell; nothing, and the line is
/// passed over; or an error, which is that of a faulty line.
///
/// # Errors
///
/// As of `take_cells`; the error of a line that has an index is what the function says.
pub fn take_cells_as<F: CellOf + Drop, V: CellJob + Drop, R: Source>(
    alloc: Global,
    function: F,
    job: V,
    input: &mut R,
) -> Result<V, RunError>
    requires { V.count job ≡ 0 }
    ensures taken { IfOk result (λ after. (cells : List Address)
        × ListRead (F.says function) MAX_READS PAGE
        (source_use R.left R.has_failed input.old input.new) cells
        × V.taken job cells after) }
    ensures refused { IfErr result (ListRefused (F.says function) RefusesByLine MAX_READS PAGE
        (source_use R.left R.has_failed input.old input.new)) }
{
    let mut page = row_page(alloc, LONGEST_LINE, PAGE)?;
    take_list(function, job, input, MAX_READS, PAGE, &mut page)
}

/// As `read_numbered_cells`, but a job takes each cell as its line is read, in the order of the lines,
/// and is returned. The list is kept only if the job keeps it.
///
/// The job must not have taken any cell before.
///
/// # Errors
///
/// As of `read_numbered_cells`; `Fault::Memory` also if the job has no memory for a cell.
pub fn take_cells<V: CellJob + Drop, R: Source>(
    alloc: Global,
    job: V,
    input: &mut R,
) -> Result<V, RunError>
    requires { V.count job ≡ 0 }
    ensures taken { IfOk result (λ after. (cells : List Address)
        × ListRead itself MAX_READS PAGE (source_use R.left R.has_failed input.old input.new) cells
        × V.taken job cells after) }
    ensures refused { IfErr result (ListRefused itself RefusesByLine MAX_READS PAGE
        (source_use R.left R.has_failed input.old input.new)) }
{
    take_cells_as(alloc, Itself, job, input)
}
