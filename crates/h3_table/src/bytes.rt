//! All bytes of a source, in a limited number of reads.

ghost use Rattle.std.specs.Prelude.{◌≡◌, ◌≢◌, ◌<◌, ◌≤◌, ◌+◌, ◌*◌, ◌++◌, ◌⊎◌, ℕ, true, List, [], length, Some, Err, IfOk, IfErr, OnOk};
ghost use Rattle.h3_streams.specs.Counted.{KeepsSource, reads_allowed, source_of};
ghost use Rattle.h3_streams.specs.Stream.{HasLeft};
ghost use Rattle.h3_directions.specs.declared.error.TableError.{TableError};
ghost use Rattle.h3_table.specs.Slots.{StopsReading};

use h3_directions::TableError;
use h3_streams::{CountedReader, Source};
use std::alloc::Global;

/// Appends all bytes of a source to a text.
fn read_pages<'a, R: Source>(
    text: &mut Vec<u8>,
    reader: &mut CountedReader<'a, R>,
    page: &mut [u8],
) -> Result<(), TableError>
    requires room { 0 < length page.old }
    ensures bytes { OnOk result ((bytes : List ℕ) × HasLeft (R.left (source_of reader.old)) bytes ×
        (length bytes + length page.old ≤ reads_allowed reader.old * length page.old) ×
        (text.new.items ≡ text.old.items ++ bytes)) }
    ensures refused { IfErr result (λ e. (bytes : List ℕ) ×
        HasLeft (R.left (source_of reader.old)) bytes ×
        StopsReading ((R.has_failed (source_of reader.new) ≡ true)
        ⊎ (reads_allowed reader.old ≤ length bytes)) e) }
    ensures kept { result ≢ Err TableError.Read →
        R.has_failed (source_of reader.new) ≡ R.has_failed (source_of reader.old) }
    ensures whole { OnOk result ((bytes : List ℕ) → R.left (source_of reader.old) ≡ Some bytes →
        R.left (source_of reader.new) ≡ Some []) }
    ensures same { KeepsSource reader.old reader.new }
{
    loop {
        let Ok(count) = reader.read(page) else {
            return Err(TableError::Read);
        };
        if count == 0 {
            return Ok(());
        }
        text.extend_from_slice(&page[..count])
            .map_err(|_| TableError::Memory)?;
    }
}

/// All bytes of a source, read page by page: `Read` where the source fails or is not at its end
/// within the limit of reads, and `Memory` where there is none for the bytes.
pub(crate) fn read_bytes<R: Source>(
    alloc: Global,
    source: &mut R,
    limit: u64,
    page: &mut [u8],
) -> Result<Vec<u8>, TableError>
    requires room { 0 < length page.old }
    ensures bytes { IfOk result (λ text. HasLeft (R.left source.old) text.items ×
        (length text.items + length page.old ≤ limit * length page.old)) }
    ensures refused { IfErr result (λ e. (bytes : List ℕ) × HasLeft (R.left source.old) bytes ×
        StopsReading ((R.has_failed source.new ≡ true) ⊎ (limit ≤ length bytes)) e) }
    ensures kept { result ≢ Err TableError.Read →
        R.has_failed source.new ≡ R.has_failed source.old }
    ensures whole { OnOk result ((bytes : List ℕ) → R.left source.old ≡ Some bytes →
        R.left source.new ≡ Some []) }
{
    let mut text = Vec::new(alloc);
    let mut reader = CountedReader::new(&mut *source, limit);
    let read = read_pages(&mut text, &mut reader, page);
    // The proof reads what the source is after the reads from this use of it.
    let _ = &*source;
    read?;
    Ok(text)
}
