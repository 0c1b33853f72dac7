//! Rows of a table, in which one field is a cell: each is written whole, with the answer to its own
//! cell beside it.
#![tactic(auto)]

mod answer;
mod areas;
mod cells;
mod each;
mod each_lines;
mod each_text;
mod each_texts;
mod fields;
mod function;
mod header;
mod job;
mod lanes;
pub mod laws;
mod line;
mod named;
mod names;
mod numbers;
mod plain;
mod put;
mod reading;
mod row;
mod row_cell;
mod state;
mod table;
mod write;

pub use areas::{AreaTable, read_areas};
pub use cells::{take_row_cells, take_row_cells_as};
pub use each::answer_rows;
pub use each_lines::answer_rows_lines;
pub use each_text::answer_rows_text;
pub use each_texts::answer_rows_texts;
pub use named::{NamedJob, take_named_cells, take_named_cells_as};
pub use names::Names;
pub use numbers::field_number;
pub use table::FieldContent;
