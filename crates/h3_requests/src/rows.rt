//! How the rows of a list are read, and written with the answers to their cells.

ghost use Rattle.std.specs.Prelude.{◌≡◌, true, string_bytes};
ghost use Rattle.h3_requests.specs.Rows.{is_counted, is_counted_if, is_plain_field, is_separator};

/// Which field of a row has its cell.
#[derive(Drop)]
pub enum CellField {
    /// `--field`: the one with this number, counted from 1.
    Number(u16),

    /// `--column`: the one whose text in the header is this name.
    Column(String),
}

/// How the rows of a list are read, and written with the answers to their cells.
#[derive(Drop)]
pub struct RowOptions {
    /// Which field of a row has its cell: `--field` or `--column`.
    pub field: CellField,

    /// Whether the first row that is not empty is a header: with `--header` or `--column`.
    pub has_header: bool,

    /// The byte between two fields: `--separator`.
    pub separator: u8,

    /// Whether quotes count: `--csv`.
    pub quotes: bool,

    /// The name of the new column in the header: `--as`.
    pub name: Option<String>,

    /// Whether a row with an error is written with an empty answer, and the run goes on:
    /// `--keep-going`.
    pub keeps_going: bool,

    /// Whether each row gets one more new column, the name of its error: `--errors`.
    pub shows_errors: bool,

    /// Whether rows may have another number of fields than the header: `--ragged`.
    pub is_ragged: bool,

    ghost counted: { is_counted field ≡ true },
    ghost separates: { is_separator separator ≡ true },
}

/// How a table is read in which one field has a cell, and another a name.
#[derive(Drop)]
pub struct TableOptions {
    /// How its rows are read, and which field has the cells.
    pub rows: RowOptions,

    /// Which field has the names.
    pub name: CellField,

    ghost counted: { is_counted name ≡ true },
}

/// How the areas of a table are read, and written.
#[derive(Drop)]
pub struct AreaOptions {
    /// How the table is read: `--zone-name` or `--zone-name-field` is its field of names.
    pub table: TableOptions,

    /// What is written for a cell in no area: `--none`.
    pub none: String,

    /// Whether areas may overlap: `--overlapping`. If they may not, two that do are an error.
    pub overlapping: bool,

    ghost plain: { is_plain_field table.rows.separator (string_bytes none) ≡ true },
}

/// How the tables of a command are read: its list, if that has rows, and its file of cells.
#[derive(Drop)]
pub struct Tables {
    /// How the rows of the list are read and written; `None` if the list is bare.
    pub list: Option<RowOptions>,

    /// Which field of the list's rows has the numbers that are added up: `--sum` or `--sum-field`. Only
    /// `CountCellsInZones` and `CountCellsInParents` read it, and only if the list has rows; other
    /// commands ignore it.
    pub sum: Option<CellField>,

    /// Which field of the list's rows divides them, with one list for each of its values: `--by` or
    /// `--by-field`. Only `CompactCells`, `UncompactCells`, `UniteCells`, `IntersectCells` and
    /// `SubtractCells` read it, and only if the list has rows; other commands ignore it.
    pub by: Option<CellField>,

    /// How the rows of the file of a region or of zones are read, by the field, the header, the separator
    /// and the quotes of these options; `None` if the file is bare, or its rows have names.
    pub file: Option<RowOptions>,

    /// How the rows of the file of zones are read, if these have names. Only `CellsToZones` and
    /// `CountCellsInZones` read it; other commands ignore it.
    pub areas: Option<AreaOptions>,

    ghost sum_counted: { is_counted_if sum ≡ true },
    ghost by_counted: { is_counted_if by ≡ true },
}

/// Whether a byte may separate fields: one of ASCII that is not in an answer, and ends no row and
/// no quote.
pub fn is_separator(byte: u8) -> bool
    ensures { result ≡ is_separator byte }
{
    byte.is_ascii()
        && !byte.is_ascii_alphanumeric()
        && !matches!(byte, 0 | b'"' | b'\n' | b'\r' | b'-')
}
