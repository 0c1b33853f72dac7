//! The fields of a table's records.

ghost use Rattle.std.specs.Prelude.{◌≡◌, map};
ghost use Rattle.csv.specs.Records.{fields_of};
ghost use Rattle.h3_table.specs.Fields.{number_in, numbers_in, same_fields};

use csv::ByteRecord;

/// The number in a field of 1 to 3 decimal digits: none where it is anything else.
fn number_in(field: &[u8]) -> Option<u16>
    ensures { result ≡ number_in field.now }
{
    if field.is_empty() || field.len() > 3 {
        return None;
    }
    let mut number = 0u16;
    for byte in field {
        if !byte.is_ascii_digit() {
            return None;
        }
        number = number * 10 + (*byte - b'0') as u16;
    }
    Some(number)
}

/// The numbers in the fields of a record, which has N of them.
pub(crate) fn numbers_in<const N: usize>(fields: &ByteRecord) -> Option<[u16; N]>
    ensures { result ≡ numbers_in N (fields_of fields.now) }
{
    if fields.len() != N {
        return None;
    }
    let mut numbers = [0u16; N];
    for i in 0..N {
        let Some(field) = fields.get(i) else {
            return None;
        };
        let Some(number) = number_in(field) else {
            return None;
        };
        numbers[i] = number;
    }
    Some(numbers)
}

/// Whether the fields of a record are these names.
pub(crate) fn has_fields(fields: &ByteRecord, names: &[&[u8]]) -> bool
    ensures { result ≡ same_fields (fields_of fields.now) (map (λ name. name.now) names.now) }
{
    if fields.len() != names.len() {
        return false;
    }
    for i in 0..names.len() {
        let Some(field) = fields.get(i) else {
            return false;
        };
        if field != names[i] {
            return false;
        }
    }
    true
}
