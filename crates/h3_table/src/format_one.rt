//! Format 1 of a table file: a record for each hexagon base cell and direction.

ghost use Rattle.std.specs.Prelude.{◌≡◌, true, None, Some, slice_index_or, IfOk, IfErr, IfSome, All};
ghost use Rattle.h3_table.specs.declared.format.Format.TheVariants.{One};
ghost use Rattle.h3_table.specs.FormatOne.{in_range_one};
ghost use Rattle.h3_table.specs.Links.{IsLink, slot_of};
ghost use Rattle.h3_table.specs.Records.{fault_in};
ghost use Rattle.h3_table.specs.Slots.{IsInRangeOne, SetsLinks};

use crate::links::{Slots, is_hexagon_number, slot_of};
use h3_directions::{DIRECTIONS, TableError};

/// The header.
pub(crate) const HEADER: [&[u8]; 4] = [b"base", b"dir", b"to", b"rot"];

/// Whether a record's numbers are a hexagon base cell, the digit of a direction, a base cell and a
/// number of turns.
#[tactic(auto, unfolding(crate::specs::Links::is_hexagon_base))]
fn in_range(numbers: [u16; 4]) -> bool
    ensures is { result ≡ in_range_one numbers }
    ensures bounds { result ≡ true → IsInRangeOne numbers }
{
    let [base, direction, to, turns] = numbers;
    is_hexagon_number(base) && 0 < direction && direction < 7 && to < 122 && turns < 6
}

/// Judges a record by its numbers, and keeps its link.
pub(crate) fn take(slots: &mut Slots, row: u64, numbers: Option<[u16; 4]>) -> Result<(), TableError>
    ensures refused { IfErr result (λ e.
        fault_in One row (λ b d. slice_index_or slots.old (slot_of b d) None) numbers ≡ Some e) }
    ensures taken { IfOk result (λ _.
        (fault_in One row (λ b d. slice_index_or slots.old (slot_of b d) None) numbers ≡ None)
        × IfSome numbers (λ ns. SetsLinks One ns slots.old slots.new)) }
    ensures within { All (λ slot. IfSome slot IsLink) slots.old →
        All (λ slot. IfSome slot IsLink) slots.new }
{
    let Some(numbers) = numbers else {
        return Err(TableError::Form(row));
    };
    let [base, direction, to, turns] = numbers;
    if !in_range(numbers) {
        return Err(TableError::Range(row));
    }
    let slot = slot_of(base as u8, DIRECTIONS[direction as usize - 1]);
    if slots[slot].is_some() {
        return Err(TableError::Repeated(row));
    }
    slots[slot] = Some((to as u8, turns as u8));
    Ok(())
}
