//! The lists of values: each made in the place of the value's own cells, and then written.

ghost use Rattle.std.specs.Prelude.{◌≡◌, ◌≤◌, ◌++◌, ◌<◌, ℕ, List, IfErr, IfOk, OnErr, OnOk, Result, Ok, Err, Option, None, length, take, unsigned_abs};
ghost use Rattle.std.specs.Iterator.{AlwaysYields, IsFinite};
ghost use Rattle.h3_index.specs.Cell.{Address};
ghost use Rattle.h3_index.specs.declared.error.H3Error.{H3Error as Error};
ghost use Rattle.h3_lines.specs.Answering.{FailsPush, Moves};
ghost use Rattle.h3_lines.specs.Write.{sink_use};
ghost use Rattle.h3_command.specs.By.{value_line, value_lines};
ghost use Rattle.h3_command.specs.ByValue.{AreApart, AreByValue, AreMade, IsFirstError, part_of};

use crate::area_counts::put_name;
use h3_index::{Cell, H3Error};
use h3_lines::{BLOCK, Line};
use h3_streams::{Sink, StreamFault};

/// Puts the row of a value and a cell after the bytes held back in a block, which end at `end`, and
/// returns where they end then.
fn put_row<W: Sink>(
    separator: u8,
    value: &[u8],
    cell: Cell,
    out: &mut W,
    block: &mut [u8; BLOCK],
    end: usize,
) -> Result<usize, StreamFault>
    requires { end ≤ BLOCK }
    ensures within { IfOk result (λ last. last ≤ BLOCK) }
    ensures ok { IfOk result (λ last. Moves W.taken W.has_failed
        (take end block.old ++ value_line separator value.now cell)
        (take last block.new) out.old out.new) }
    ensures err { OnErr result (FailsPush (take end block.old ++ value_line separator value.now cell)
        (sink_use W.taken W.has_failed out.old out.new)) }
{
    let at = put_name(out, block, end, value, separator)?;
    Ok(cell.put(block, at))
}

/// Puts the row of a value and each cell of an iterator that ends after the bytes held back in a block,
/// which end at `end`, and returns where they end then.
pub(crate) fn put_rows<W: Sink, I: Iterator<Item = Cell> + Drop>(
    separator: u8,
    value: &[u8],
    cells: I,
    out: &mut W,
    block: &mut [u8; BLOCK],
    end: usize,
) -> Result<usize, StreamFault>
    requires can { I.can_next cells }
    requires ends { IsFinite (I.remaining cells) }
    requires within { end ≤ BLOCK }
    ensures within { IfOk result (λ last. last ≤ BLOCK) }
    ensures ok { IfOk result (λ last. (all : List Address) → AlwaysYields I.next_gives (λ x. x) cells all →
        Moves W.taken W.has_failed (take end block.old ++ value_lines separator value.now all)
        (take last block.new) out.old out.new) }
    ensures err { OnErr result ((all : List Address) → AlwaysYields I.next_gives (λ x. x) cells all →
        FailsPush (take end block.old ++ value_lines separator value.now all)
        (sink_use W.taken W.has_failed out.old out.new)) }
{
    let mut last = end;
    for cell in cells {
        last = put_row(separator, value, cell, out, block, last)?;
    }
    Ok(last)
}

/// What a command answers to the cells of each value.
pub(crate) trait ListOfValue {
    /// The list that is answered to some cells, or the error.
    ghost list_of: { Self → List Address → Result (List Address) Error };

    /// The list that cells stand for which are made ready.
    ghost listed: { Self → List Address → List Address };

    /// Cells that are made ready.
    ghost ready: { Self → List Address → Type 0 };

    /// Makes the first of the cells ready to be written, and returns how many these are.
    ///
    /// # Errors
    ///
    /// That of the list.
    fn make(&self, cells: &mut [Cell]) -> Result<usize, H3Error>
        ensures made { IfOk result (λ n. list_of self.now cells.old
            ≡ Ok (listed self.now (take n cells.new))) }
        ensures ready { IfOk result (λ n. ready self.now (take n cells.new)) }
        ensures fewer { IfOk result (λ n. n ≤ length cells.old) }
        ensures refused { IfErr result (λ e. list_of self.now cells.old ≡ Err e) };

    /// Puts the row of a value and each cell of the list after the bytes held back in a block, which
    /// end at `end`, and returns where they end then.
    fn put<W: Sink>(
        &self,
        separator: u8,
        value: &[u8],
        cells: &[Cell],
        out: &mut W,
        block: &mut [u8; BLOCK],
        end: usize,
    ) -> Result<usize, StreamFault>
        requires ready { ready self.now cells.now }
        requires within { end ≤ 32768 }
        ensures within { IfOk result (λ last. last ≤ 32768) }
        ensures ok { IfOk result (λ last. Moves W.taken W.has_failed
            (take end block.old ++ value_lines separator value.now (listed self.now cells.now))
            (take last block.new) out.old out.new) }
        ensures err { OnErr result (FailsPush
            (take end block.old ++ value_lines separator value.now (listed self.now cells.now))
            (sink_use W.taken W.has_failed out.old out.new)) };
}

/// Makes the list of each value ready, in the place of its own cells. If one is refused, returns its
/// number and its error.
pub(crate) fn make_lists<F: ListOfValue>(
    function: &F,
    cells: &mut [Cell],
    parts: &mut [(usize, usize)],
) -> Result<(), (usize, H3Error)>
    requires { AreApart (length parts.old) (length cells.old) parts.old }
    ensures made { OnOk result ((pairs : List (Address × ℕ))
        → AreByValue pairs (length parts.old) cells.old parts.old
        → AreMade (F.list_of function.now) (F.listed function.now) (F.ready function.now)
        pairs (length parts.old) cells.new parts.new) }
    ensures refused { IfErr result (λ p. (pairs : List (Address × ℕ))
        → AreByValue pairs (length parts.old) cells.old parts.old
        → IsFirstError (F.list_of function.now) pairs (length parts.old) p.0 p.1) }
{
    for k in 0..parts.len() {
        let (start, end) = parts[k];
        match function.make(&mut cells[start..end]) {
            Ok(count) => parts[k] = (start, start + count),
            Err(error) => return Err((k, error)),
        }
    }
    Ok(())
}
