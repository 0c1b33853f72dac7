//! Pages that are split into lines and rows; lists of cells that are read, one a line; lines that are
//! written; and the errors that end a run, with the line and the exit status of each.
#![tactic(auto)]

mod each;
mod each_lines;
mod each_text;
mod each_texts;
mod ending;
pub mod laws;
mod line;
mod list;
mod plain;
mod run_error;
mod splitting;
mod stop;
mod taking;
mod text;
mod write;

pub use each::{AnswerLine, answer_each, put_result, refuse};
pub use each_lines::{LinesFunction, answer_each_lines, walk_through};
pub use each_text::{TextFunction, answer_each_text};
pub use each_texts::{TextsFunction, answer_each_texts};
pub use ending::report;
pub use line::{ANSWER, BLOCK, Line, RingCell};
pub use list::{read_cells, read_list, read_numbered_cells};
pub use plain::LINES;
pub use run_error::{AnswerError, CellFile, ColumnError, Fault, RowError, RowFault, RunError};
pub use splitting::{
    Job, JobContract, MAX_READS, PAGE, drive, drive_to_end, lengthen, row_page, split, take_last,
};
pub use taking::{CellJob, CellOf, Itself, take_cells, take_cells_as};
pub use text::{SHORT, Text};
pub use write::{
    CellLines, write_all, write_answer, write_cells_lines, write_held, write_lines, write_result,
    write_walk,
};
