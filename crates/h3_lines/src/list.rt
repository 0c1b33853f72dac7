//! Lists of cells, one a line.

ghost use Rattle.std.proofs.Common.{◌∙◌, ap, append-nil, append_assoc, sym};
ghost use Rattle.std.specs.Prelude.{◌≡◌, ◌<◌, ◌*◌, ◌^◌, ◌++◌, length, IfOk, IfErr};
ghost use Rattle.h3_lines.specs.List.{itself, said_as};
ghost use Rattle.h3_lines.specs.ListRead.{ListRead, ListRefused, RefusesByError, RefusesByLine};
ghost use Rattle.h3_lines.specs.Numbered.{without_number};
ghost use Rattle.h3_lines.specs.Reads.{source_use};

use crate::run_error::{AnswerError, Fault, RunError};
use crate::splitting::{LONGEST_LINE, MAX_READS, PAGE, row_page};
use crate::taking::{CellJob, CellOf, Itself, take_cells, take_list};
use h3_index::{Cell, H3Error, is_blank_text, read_index};
use h3_streams::Source;
use std::alloc::Global;

/// What is taken for the index of a line, nothing where it is blank, or the error of a faulty line.
pub(crate) fn read_line<F: CellOf>(function: &F, line: &[u8]) -> Result<Option<Cell>, H3Error>
    ensures { result ≡ said_as (F.says function.now) line.now }
{
    if line.len() > LONGEST_LINE {
        return Err(H3Error::Failed);
    }
    match read_index(line) {
        Ok(index) => function.cell_of(index),
        Err(_) if is_blank_text(line) => Ok(None),
        Err(error) => Err(error),
    }
}

impl CellJob for Vec<Cell> {
    ghost count = { λ v. 0 };

    ghost taken = { λ v cells w. w.items ≡ v.items ++ cells };

    #[inline(always)]
    fn take(&mut self, cell: Cell, _place: Option<usize>) -> Result<(), Fault> {
        self.push(cell).map_err(|_| Fault::Memory)
    }

    ghost none_taken = { λ v. sym (append-nil v.items) };

    ghost taken_then = { λ u v w xs ys p q.
        q ∙ ap (λ l. l ++ ys) p ∙ append_assoc u.items xs ys };
}

/// The refusal of a list whose lines are reported without a number.
fn without_line(refusal: RunError) -> RunError
    ensures { result ≡ without_number refusal }
{
    match refusal {
        RunError::Error(AnswerError::At(_, error)) => RunError::Error(AnswerError::Call(error)),
        other => other,
    }
}

/// Reads a list in at most `limit` reads of at most `size` bytes each.
///
/// # Errors
///
/// As of `read_cells`, with `limit` reads in place of 2^40.
pub fn read_list<R: Source>(
    alloc: Global,
    input: &mut R,
    limit: u64,
    size: usize,
) -> Result<Vec<Cell>, RunError>
    requires some { 0 < size }
    requires few { limit * size < 2 ^ 62 }
    ensures cells { IfOk result (λ cells. ListRead itself limit size
        (source_use R.left R.has_failed input.old input.new) cells.items) }
    ensures refused { IfErr result (ListRefused itself RefusesByError limit size
        (source_use R.left R.has_failed input.old input.new)) }
{
    let mut page = row_page(alloc, LONGEST_LINE, size)?;
    match take_list(Itself, Vec::new(alloc), input, limit, size, &mut page) {
        Ok(cells) => Ok(cells),
        Err(refusal) => Err(without_line(refusal)),
    }
}

/// Reads a list of cells, one a line, to its end or its first faulty line.
///
/// A line of more than 64 bytes is faulty. Any other line of spaces, tabs and carriage returns
/// alone is skipped, and each of the others must parse as the index of a valid cell. The last line
/// may end with a line feed or not. Nothing is read once a faulty line is known or memory is
/// refused, and of a line that a read fault cuts nothing is known but that it is too long.
///
/// # Errors
///
/// The first one that is met, of:
///
/// - That of the first faulty line: `Failed` if it has more than 64 bytes or parses as no index,
///   `CellInvalid` if no cell has the index.
/// - `Fault::Read` if a read fails, or the end is not found in 2^40 reads.
/// - `Fault::Memory` if there is no memory for the page or a cell.
pub fn read_cells<R: Source>(alloc: Global, input: &mut R) -> Result<Vec<Cell>, RunError>
    ensures cells { IfOk result (λ cells. ListRead itself MAX_READS PAGE
        (source_use R.left R.has_failed input.old input.new) cells.items) }
    ensures refused { IfErr result (ListRefused itself RefusesByError MAX_READS PAGE
        (source_use R.left R.has_failed input.old input.new)) }
{
    match read_numbered_cells(alloc, input) {
        Ok(cells) => Ok(cells),
        Err(refusal) => Err(without_line(refusal)),
    }
}

/// As `read_cells`: reads a list of cells, one a line, to its end or its first faulty line, whose
/// number is in the error.
///
/// # Errors
///
/// The first one that is met, of:
///
/// - `AnswerError::At` with the first faulty line and its error: `Failed` if it has more than 64 bytes or parses as no
///   index, `CellInvalid` if no cell has the index.
/// - `Fault::Read` if a read fails, or the end is not found in 2^40 reads.
/// - `Fault::Memory` if there is no memory for the page or a cell.
pub fn read_numbered_cells<R: Source>(alloc: Global, input: &mut R) -> Result<Vec<Cell>, RunError>
    ensures cells { IfOk result (λ cells. ListRead itself MAX_READS PAGE
        (source_use R.left R.has_failed input.old input.new) cells.items) }
    ensures refused { IfErr result (ListRefused itself RefusesByLine MAX_READS PAGE
        (source_use R.left R.has_failed input.old input.new)) }
{
    take_cells(alloc, Vec::new(alloc), input)
}
