//! Which refusals are equal.

use h3_directions::TableError;
use h3_index::H3Error;
use h3_lines::{AnswerError, CellFile, ColumnError, Fault, RowError, RowFault, RunError};

/// Refusals of each variant.
static REFUSALS: [RunError; 40] = [
    RunError::Error(AnswerError::Call(H3Error::Failed)),
    RunError::Error(AnswerError::Call(H3Error::MemoryAlloc)),
    RunError::Error(AnswerError::At(1, H3Error::Failed)),
    RunError::Error(AnswerError::At(1, H3Error::MemoryAlloc)),
    RunError::Error(AnswerError::At(2, H3Error::Failed)),
    RunError::Error(AnswerError::AtRow(1, RowError::Call(H3Error::Failed))),
    RunError::Error(AnswerError::AtRow(2, RowError::Call(H3Error::Failed))),
    RunError::Error(AnswerError::AtRow(2, RowError::Bad(RowFault::NotAnIndex))),
    RunError::Error(AnswerError::AtRow(2, RowError::Bad(RowFault::TooLong))),
    RunError::Error(AnswerError::AtRow(2, RowError::Bad(RowFault::FieldCount(1, 2)))),
    RunError::Error(AnswerError::AtRow(2, RowError::Bad(RowFault::FieldCount(3, 2)))),
    RunError::Error(AnswerError::AtRow(1, RowError::NotANumber)),
    RunError::Error(AnswerError::AtRow(2, RowError::NotANumber)),
    RunError::Error(AnswerError::AtRowAndMore(1, RowError::Call(H3Error::Failed), 0)),
    RunError::Error(AnswerError::AtRowAndMore(1, RowError::Call(H3Error::Failed), 1)),
    RunError::Error(AnswerError::AtRowAndMore(2, RowError::Call(H3Error::Failed), 0)),
    RunError::Error(AnswerError::AtRowAndMore(2, RowError::Bad(RowFault::NotAnIndex), 0)),
    RunError::Error(AnswerError::Column(ColumnError::NotFound)),
    RunError::Error(AnswerError::Column(ColumnError::NotUnique)),
    RunError::Error(AnswerError::Column(ColumnError::InUse)),
    RunError::Fault(Fault::Memory),
    RunError::Fault(Fault::Read),
    RunError::Fault(Fault::Write),
    RunError::Error(AnswerError::Table(TableError::Missing)),
    RunError::Error(AnswerError::Table(TableError::Form(1))),
    RunError::Error(AnswerError::Table(TableError::Form(2))),
    RunError::Error(AnswerError::FileAt(CellFile::Region, 1, H3Error::Failed)),
    RunError::Error(AnswerError::FileAt(CellFile::Zones, 1, H3Error::Failed)),
    RunError::Error(AnswerError::FileAt(CellFile::Zones, 2, H3Error::Failed)),
    RunError::Error(AnswerError::FileAt(CellFile::Zones, 2, H3Error::CellInvalid)),
    RunError::Error(AnswerError::FileAtRow(CellFile::Region, 1, RowError::Call(H3Error::Failed))),
    RunError::Error(AnswerError::FileAtRow(CellFile::Zones, 1, RowError::Call(H3Error::Failed))),
    RunError::Error(AnswerError::FileAtRow(CellFile::Zones, 2, RowError::Call(H3Error::Failed))),
    RunError::Error(AnswerError::FileAtRow(CellFile::Zones, 2, RowError::Bad(RowFault::TooLong))),
    RunError::Error(AnswerError::FileColumn(CellFile::Region, ColumnError::NotFound)),
    RunError::Error(AnswerError::FileColumn(CellFile::Zones, ColumnError::NotFound)),
    RunError::Error(AnswerError::FileColumn(CellFile::Zones, ColumnError::NotUnique)),
    RunError::Error(AnswerError::File(CellFile::Region, H3Error::DuplicateInput)),
    RunError::Error(AnswerError::File(CellFile::Zones, H3Error::DuplicateInput)),
    RunError::Error(AnswerError::File(CellFile::Zones, H3Error::Failed)),
];

#[test]
fn only_the_same_refusals_are_equal(rt: HostRuntime) {
    for (i, one) in REFUSALS.iter().enumerate() {
        for (j, other) in REFUSALS.iter().enumerate() {
            let right = (one == other) == (i == j) && (one != other) == (i != j);
            assert!(&rt; right, "{i} and {j}");
        }
    }
}
