//! Format 2 of a table file: a record for each hexagon base cell, with its links in all directions.

ghost use Rattle.std.specs.Prelude.{◌≡◌, true, None, Some, slice_index_or, IfOk, IfErr, IfSome, All};
ghost use Rattle.h3_table.specs.declared.format.Format.TheVariants.{Two};
ghost use Rattle.h3_table.specs.FormatTwo.{in_range_two, is_link_two};
ghost use Rattle.h3_table.specs.Links.{IsLink, slot_of};
ghost use Rattle.h3_table.specs.Records.{fault_in};
ghost use Rattle.h3_table.specs.Slots.{IsInRangeTwo, SetsLinks};

use crate::links::{Slots, is_hexagon_number, slot_of};
use h3_directions::{DIRECTIONS, Direction, TableError};

/// The header.
pub(crate) const HEADER: [&[u8]; 13] = [
    b"base", b"k", b"j", b"jk", b"i", b"ik", b"ij", b"rk", b"rj", b"rjk", b"ri", b"rik", b"rij",
];

/// Whether a record's numbers in a direction are a base cell and a number of turns.
fn is_link(numbers: &[u16; 13], direction: Direction) -> bool
    ensures { result ≡ is_link_two numbers.now direction }
{
    let digit = direction.digit() as usize;
    numbers[digit] < 122 && numbers[6 + digit] < 6
}

/// Whether a record's numbers are a hexagon base cell, six base cells and six numbers of turns.
fn in_range(numbers: &[u16; 13]) -> bool
    ensures is { result ≡ in_range_two numbers.now }
    ensures bounds { result ≡ true → IsInRangeTwo numbers.now }
{
    if !is_hexagon_number(numbers[0]) {
        return false;
    }
    for direction in DIRECTIONS {
        if !is_link(numbers, direction) {
            return false;
        }
    }
    true
}

/// Keeps the links of a record.
fn keep(slots: &mut Slots, numbers: &[u16; 13])
    requires { IsInRangeTwo numbers.now }
    ensures taken { SetsLinks Two numbers.now slots.old slots.new }
    ensures within { All (λ slot. IfSome slot IsLink) slots.old →
        All (λ slot. IfSome slot IsLink) slots.new }
{
    for digit in 1..7 {
        let slot = slot_of(numbers[0] as u8, DIRECTIONS[digit - 1]);
        slots[slot] = Some((numbers[digit] as u8, numbers[6 + digit] as u8));
    }
}

/// Judges a record by its numbers, and keeps its links.
pub(crate) fn take(
    slots: &mut Slots,
    row: u64,
    numbers: Option<[u16; 13]>,
) -> Result<(), TableError>
    ensures refused { IfErr result (λ e.
        fault_in Two row (λ b d. slice_index_or slots.old (slot_of b d) None) numbers ≡ Some e) }
    ensures taken { IfOk result (λ _.
        (fault_in Two row (λ b d. slice_index_or slots.old (slot_of b d) None) numbers ≡ None)
        × IfSome numbers (λ ns. SetsLinks Two ns slots.old slots.new)) }
    ensures within { All (λ slot. IfSome slot IsLink) slots.old →
        All (λ slot. IfSome slot IsLink) slots.new }
{
    let Some(numbers) = numbers else {
        return Err(TableError::Form(row));
    };
    if !in_range(&numbers) {
        return Err(TableError::Range(row));
    }
    if slots[slot_of(numbers[0] as u8, Direction::K)].is_some() {
        return Err(TableError::Repeated(row));
    }
    keep(slots, &numbers);
    Ok(())
}
