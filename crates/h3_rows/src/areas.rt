//! The areas of a table: its names, and of each cell the number of its name.

ghost use Rattle.std.specs.Prelude.{◌≡◌, true, List, option_map, Ok, IfOk, IfErr, OnOk};
ghost use Rattle.h3_lines.specs.declared.run_error.Fault.TheVariants.{Memory};
ghost use Rattle.h3_lines.specs.declared.run_error.RunError.TheVariants as refusal;
ghost use Rattle.h3_rows.specs.AreaLaws.{TakesEntries, numbered_none, numbered_then, with_row};
ghost use Rattle.h3_requests.specs.Rows.{is_counted};
ghost use Rattle.h3_rows.specs.Areas.{area_cells, area_names, first_rows, name_text, names_in, number_for, place_of, title_of, with_name};
ghost use Rattle.h3_rows.specs.Named.{AllNamedRead, Entry, RefusesNamed, table_of};
ghost use Rattle.h3_rows.specs.declared.table.FieldContent.TheVariants.{Text};

use crate::named::{NamedJob, take_named_cells};
use crate::names::Names;
use crate::table::FieldContent;
use h3_index::Cell;
use h3_lines::{Fault, RunError};
use h3_numbers::Number;
use h3_requests::{CellField, RowOptions};
use h3_streams::Source;
use std::alloc::{AllocError, Global};

/// The areas of a table.
#[derive(Drop)]
pub struct AreaTable {
    /// The name in the header of the column of names, if there is a header, and it has such a field.
    pub title: Option<Vec<u8>>,

    /// The names of the areas.
    pub names: Names,

    /// Each cell, with the number of its area's name.
    pub cells: Vec<(Cell, u32)>,

    /// Of each area the number of its first row that has a cell.
    pub rows: Vec<u64>,

    alloc: Global,
}

/// The error of want of memory.
fn no_memory() -> RunError
    ensures { result ≡ refusal.Fault Memory }
{
    RunError::Fault(Fault::Memory)
}

/// The number of the name with the text of a name, as [`Names::number_of`]; the number of the row is put
/// behind the others if the name is new.
fn number_at_row(
    alloc: Global,
    names: &mut Names,
    rows: &mut Vec<u64>,
    name: &[u8],
    row: u64,
) -> Result<u32, AllocError>
    ensures number { IfOk result (λ n. n
        ≡ number_for names.old.quotes (names_in names.old.bytes.items names.old.spans.items) name.now) }
    ensures names { OnOk result (names_in names.new.bytes.items names.new.spans.items
        ≡ with_name names.old.quotes (names_in names.old.bytes.items names.old.spans.items) name.now) }
    ensures quotes { names.new.quotes ≡ names.old.quotes }
    ensures rows { OnOk result (rows.new.items ≡ with_row (place_of names.old.quotes
        (name_text names.old.quotes name.now) (names_in names.old.bytes.items names.old.spans.items))
        rows.old.items row) }
{
    let count = names.spans.len();
    let number = names.number_of(alloc, name)?;
    if number as usize == count {
        rows.push(row)?;
    }
    Ok(number)
}

impl NamedJob for AreaTable {
    ghost count = { λ v. 0 };

    ghost taken = { λ v entries w. TakesEntries v.names.quotes w.names.quotes
        (names_in v.names.bytes.items v.names.spans.items)
        (names_in w.names.bytes.items w.names.spans.items)
        v.cells.items w.cells.items v.rows.items w.rows.items (option_map (λ t. t.items) v.title)
        (option_map (λ t. t.items) w.title) entries };

    fn take(
        &mut self,
        cell: Option<Cell>,
        name: &[u8],
        _known: Option<Number>,
        row: u64,
    ) -> Result<(), RunError> {
        let Some(cell) = cell else {
            return match Vec::from_slice(self.alloc, name) {
                Ok(title) => {
                    self.title = Some(title);
                    Ok(())
                }
                Err(_) => Err(no_memory()),
            };
        };
        let Ok(number) = number_at_row(self.alloc, &mut self.names, &mut self.rows, name, row)
        else {
            return Err(no_memory());
        };
        match self.cells.push((cell, number)) {
            Ok(()) => Ok(()),
            Err(_) => Err(no_memory()),
        }
    }

    ghost none_taken = { λ v. numbered_none v.names.quotes
        (names_in v.names.bytes.items v.names.spans.items) v.cells.items v.rows.items
        (option_map (λ t. t.items) v.title) };

    ghost taken_then = { λ u v w xs ys p q. numbered_then u.names.quotes v.names.quotes
        w.names.quotes
        (names_in u.names.bytes.items u.names.spans.items)
        (names_in v.names.bytes.items v.names.spans.items)
        (names_in w.names.bytes.items w.names.spans.items)
        u.cells.items v.cells.items w.cells.items u.rows.items v.rows.items w.rows.items
        (option_map (λ t. t.items) u.title) (option_map (λ t. t.items) v.title)
        (option_map (λ t. t.items) w.title) xs ys p q };
}

/// Reads the areas of a table: each name once, as it is in the first row that has it and a cell, in the
/// order of these rows, with the number of that row; each cell with the number of its name; and the name in
/// the header of the column of names, which is `field`.
///
/// Two names are the same if the texts of their fields are: without the blanks at both ends, and, if
/// quotes count, without a pair of quotes around it. A name is kept without these blanks, with its quotes.
///
/// # Errors
///
/// As of [`take_named_cells`].
pub fn read_areas<R: Source>(
    alloc: Global,
    rows: &RowOptions,
    field: &CellField,
    input: &mut R,
) -> Result<AreaTable, RunError>
    requires { is_counted field.now ≡ true }
    ensures areas { IfOk result (λ areas. (entries : List Entry)
        × AllNamedRead (table_of rows.now field.now Text) (Ok entries)
        (R.left input.old) (R.left input.new)
        × (names_in areas.names.bytes.items areas.names.spans.items
        ≡ area_names rows.now.quotes entries)
        × (areas.cells.items ≡ area_cells rows.now.quotes entries)
        × (areas.rows.items ≡ first_rows rows.now.quotes entries)
        × (option_map (λ t. t.items) areas.title ≡ title_of entries)) }
    ensures quotes { IfOk result (λ areas. areas.names.quotes ≡ rows.now.quotes) }
    ensures sound { IfOk result (λ areas. R.has_failed input.new ≡ R.has_failed input.old) }
    ensures refused { IfErr result (λ e. RefusesNamed (table_of rows.now field.now Text)
        (R.left input.old) (R.left input.new) (R.has_failed input.old) (R.has_failed input.new) e) }
{
    let job = AreaTable {
        title: None,
        names: Names::new(alloc, rows.quotes),
        cells: Vec::new(alloc),
        rows: Vec::new(alloc),
        alloc,
    };
    take_named_cells(alloc, job, rows, field, FieldContent::Text, input)
}
