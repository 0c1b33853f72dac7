//! The records of a table file, judged one after the other.

ghost use Rattle.std.specs.Prelude.{◌≡◌, ◌+◌, ◌^◌, ◌<◌, None, length, IfOk, IfErr, IfSome, All};
ghost use Rattle.h3_table.specs.Fields.{records_of};
ghost use Rattle.h3_table.specs.Links.{IsLink};
ghost use Rattle.h3_table.specs.Records.{body_of, fault_of_records, format_of};
ghost use Rattle.h3_table.specs.Slots.{Holds, IsFaultOrMemory};

use crate::format::{header_format, take};
use crate::links::{LINKS, Slots};
use csv::{ByteRecord, ReaderBuilder};
use h3_directions::TableError;
use std::alloc::Global;

/// An upper bound on the number of records in a text.
fn most_records(text: &[u8]) -> usize
    ensures { length text.now + 1 < 2 ^ 64 }
{
    text.len() + 1
}

/// The links of the records of a file, or the error of the first faulty record.
pub(crate) fn read_records(alloc: Global, text: &[u8]) -> Result<Slots, TableError>
    ensures refused { IfErr result (λ e.
        IsFaultOrMemory (fault_of_records (records_of text.now)) e) }
    ensures read { IfOk result (λ slots. (fault_of_records (records_of text.now) ≡ None)
        × Holds (format_of (records_of text.now)) slots (body_of (records_of text.now))) }
    ensures within { IfOk result (λ slots. All (λ slot. IfSome slot IsLink) slots) }
{
    let mut reader = ReaderBuilder::new()
        .has_headers(false)
        .flexible(true)
        .from_reader(alloc, text);
    let mut record = ByteRecord::new(alloc);
    let Ok(found) = reader.read_byte_record(&mut record) else {
        return Err(TableError::Memory);
    };
    if !found {
        return Err(TableError::Form(1));
    }
    let Some(format) = header_format(&record) else {
        return Err(TableError::Form(1));
    };
    // The proof takes from this that the number of a record fits.
    let _most = most_records(text);
    let mut slots = [None; LINKS];
    let mut number = 1u64;
    loop {
        let Ok(found) = reader.read_byte_record(&mut record) else {
            return Err(TableError::Memory);
        };
        if !found {
            return Ok(slots);
        }
        number += 1;
        match take(format, &mut slots, number, &record) {
            Ok(()) => {}
            Err(fault) => return Err(fault),
        }
    }
}
