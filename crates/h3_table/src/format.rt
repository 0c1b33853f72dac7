//! The formats of table files, which differ in their headers and records.

ghost use Rattle.std.specs.Prelude.{◌≡◌, None, Some, slice_index_or, IfOk, IfErr, IfSome, All};
ghost use Rattle.csv.specs.Records.{fields_of};
ghost use Rattle.h3_table.specs.Format.{header_format, width};
ghost use Rattle.h3_table.specs.Fields.{numbers_in};
ghost use Rattle.h3_table.specs.Links.{IsLink, slot_of};
ghost use Rattle.h3_table.specs.Records.{fault_in};
ghost use Rattle.h3_table.specs.Slots.{SetsLinks};

use crate::fields::{has_fields, numbers_in};
use crate::links::Slots;
use crate::{format_one, format_two};
use csv::ByteRecord;
use h3_directions::TableError;

/// The format of a table file, which its header says.
#[derive(Clone, Copy, Debug, PartialEq, Eq)]
pub(crate) enum Format {
    /// A record for each hexagon base cell and direction.
    One,

    /// A record for each hexagon base cell.
    Two,
}

/// The format whose header a file's first record is: none where it is no header.
pub(crate) fn header_format(front: &ByteRecord) -> Option<Format>
    ensures { result ≡ header_format (fields_of front.now) }
{
    if has_fields(front, &format_one::HEADER) {
        return Some(Format::One);
    }
    if has_fields(front, &format_two::HEADER) {
        return Some(Format::Two);
    }
    None
}

/// Judges a record of a file of this format, and keeps its links.
pub(crate) fn take(
    format: Format,
    slots: &mut Slots,
    row: u64,
    fields: &ByteRecord,
) -> Result<(), TableError>
    ensures refused { IfErr result (λ e.
        fault_in format row (λ b d. slice_index_or slots.old (slot_of b d) None)
        (numbers_in (width format) (fields_of fields.now)) ≡ Some e) }
    ensures taken { IfOk result (λ _.
        (fault_in format row (λ b d. slice_index_or slots.old (slot_of b d) None)
        (numbers_in (width format) (fields_of fields.now)) ≡ None)
        × IfSome (numbers_in (width format) (fields_of fields.now))
        (λ ns. SetsLinks format ns slots.old slots.new)) }
    ensures within { All (λ slot. IfSome slot IsLink) slots.old →
        All (λ slot. IfSome slot IsLink) slots.new }
{
    match format {
        Format::One => format_one::take(slots, row, numbers_in(fields)),
        Format::Two => format_two::take(slots, row, numbers_in(fields)),
    }
}
