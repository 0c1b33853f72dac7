//! The options of rows: what a parse found for them.

ghost use Rattle.std.specs.Prelude.{◌≡◌, ◌==◌, ◌||◌, [], IfOk, IfSome, Some, option_map, pos, string_bytes, true, unwrap_or};
ghost use Rattle.clap.specs.Words.{found_of};
ghost use Rattle.h3_requests.specs.Rows.{is_counted_if, is_plain_field, is_separator};
ghost use Rattle.h3_words.specs.Options.{number_from, number_up_to};
ghost use Rattle.h3_words.specs.Rows.{HasAreas, HasFieldBy, HasFileField, HasFileOfCells, HasFileRows, HasRows, HasTables, cuts_errors, cuts_rows, cuts_sums, file_has_rows, fits, found_texts, has_company, has_names, is_named_once, is_one_field, list_has_rows, named_separator, names_fields_once, names_fit, names_have_company, rows_agree, second_has_company, seconds_have_company, separator_of};
ghost use Rattle.h3_words.specs.Values.{IsAccepted};
ghost use Rattle.h3_words.specs.declared.options.CommandOption.TheVariants.{As, Field, NoZone, RegionField, ZoneField, ZoneNameField};
ghost use Rattle.h3_words.specs.declared.options.CommandOption.{CommandOption};

use crate::options::CommandOption::{self, *};
use clap::ArgMatches;
use h3_requests::{AreaOptions, CellField, RowOptions, TableOptions, Tables, is_separator};
use std::alloc::{AllocError, Global};

/// The options that go with any rows, of the list or of the file, as a usage shows them.
static OF_ROWS: [(CommandOption, &str); 2] = [
    (Separator, "--separator <separator>"),
    (Csv, "--csv"),
];

/// The options of the number and of the name of a field, of which one may be given, as a usage shows
/// them.
static OF_A_FIELD: [(CommandOption, CommandOption, &str, &str); 6] = [
    (Field, Column, "--field <number>", "--column <column>"),
    (
        RegionField,
        RegionColumn,
        "--region-field <region-field>",
        "--region-column <region-column>",
    ),
    (
        ZoneField,
        ZoneColumn,
        "--zone-field <zone-field>",
        "--zone-column <zone-column>",
    ),
    (
        ZoneNameField,
        ZoneName,
        "--zone-name-field <name-field>",
        "--zone-name <zone-name>",
    ),
    (SumField, Sum, "--sum-field <sum-field>", "--sum <sum>"),
    (ByField, By, "--by-field <by-field>", "--by <by>"),
];

/// The options of the number and of the name of a second field of the list's rows, as a usage shows
/// them.
static OF_SECOND_FIELDS: [(CommandOption, CommandOption, &str, &str); 2] = [
    (SumField, Sum, "--sum-field <sum-field>", "--sum <sum>"),
    (ByField, By, "--by-field <by-field>", "--by <by>"),
];

/// The options that go with names of zones, as a usage shows them.
static OF_NAMES: [(CommandOption, &str); 2] = [
    (NoZone, "--none <text>"),
    (Overlapping, "--overlapping"),
];

/// The options that go with a header, as a usage shows them.
static OF_A_HEADER: [(CommandOption, &str); 2] = [(As, "--as <name>"), (Ragged, "--ragged")];

/// The options by which a list has a header, as a usage shows them.
const HEADER: &str = "'--column <column>' or '--header'";

/// The options by which a list has rows, as a usage shows them.
const FIELDS: &str = "'--field <number>' or '--column <column>'";

/// The same of a list or a region.
const FIELDS_WITH_REGION: &str =
    "'--field <number>', '--column <column>', '--region-field <region-field>' or \
    '--region-column <region-column>'";

/// The same of a list or zones.
const FIELDS_WITH_ZONES: &str =
    "'--field <number>', '--column <column>', '--zone-field <zone-field>' or \
    '--zone-column <zone-column>'";

/// The options by which zones have names, as a usage shows them.
const NAMES: &str = "'--zone-name <zone-name>' or '--zone-name-field <name-field>'";

/// Why a text is no separator.
const NO_SEPARATOR: &str =
    "a separator is \\t or one ASCII character, and no letter, digit, hyphen, double quote or line end";

/// Why a text is not the name of a column.
const NO_NAME: &str = "a name has no separator, double quote or line end";

/// Why a text is not the answer to a cell in no zone.
const NO_TEXT: &str = "the text of a cell in no zone has no separator, double quote or line end";

/// Why a separator does not go with `--errors`.
const NO_ERRORS: &str = "the names of --errors have an underscore";

/// Why a separator does not go with `--sum`.
const NO_SUMS: &str = "a sum may have a point";

/// The separator that the text of `--separator` names, if it names one.
fn named_separator(text: &[u8]) -> Option<u8>
    ensures named { result ≡ named_separator text.now }
    ensures separates { IfSome result (λ byte. is_separator byte ≡ true) }
{
    match text {
        b"\\t" => Some(b'\t'),
        [byte] if is_separator(*byte) => Some(*byte),
        _ => None,
    }
}

/// The separator that the options ask for; `None` where `--separator` names none.
fn separator(matches: &ArgMatches<'_>) -> Option<u8>
    ensures named { result ≡ separator_of (found_texts (found_of matches.now)) }
    ensures separates { IfSome result (λ byte. is_separator byte ≡ true) }
{
    match Separator.text(matches) {
        Some(text) => named_separator(text.as_bytes()),
        None => Some(if Csv.is_given(matches) { b',' } else { b'\t' }),
    }
}

/// Whether a byte is in no field that is written without quotes, beside this separator.
fn is_in_no_field(byte: u8, separator: u8) -> bool
    ensures { result ≡ ((byte == separator) || (byte == 34) || (byte == 10) || (byte == 13)) }
{
    byte == separator || matches!(byte, b'"' | b'\n' | b'\r')
}

/// Whether a text is one field, beside this separator.
fn is_plain_field(text: &[u8], separator: u8) -> bool
    ensures { result ≡ is_plain_field separator text.now }
{
    text.iter().all(|byte| !is_in_no_field(*byte, separator))
}

/// Whether the text of an option, if it is given, is one field beside this separator.
fn is_one_field(option: CommandOption, matches: &ArgMatches<'_>, separator: u8) -> bool
    ensures { result ≡ is_one_field (found_texts (found_of matches.now)) option separator }
{
    match option.text(matches) {
        Some(text) => is_plain_field(text.as_bytes(), separator),
        None => true,
    }
}

/// Whether there is a column of the names of errors, and this separator cuts them.
fn cuts_errors(matches: &ArgMatches<'_>, separator: u8) -> bool
    ensures { result ≡ cuts_errors (found_texts (found_of matches.now)) separator }
{
    Errors.is_given(matches) && separator == b'_'
}

/// Whether a field is added up, and this separator cuts sums.
fn cuts_sums(matches: &ArgMatches<'_>, separator: u8) -> bool
    ensures { result ≡ cuts_sums (found_texts (found_of matches.now)) separator }
{
    (Sum.is_given(matches) || SumField.is_given(matches)) && separator == b'.'
}

/// Whether a separator does not cut the names of errors, sums, the name of the new column and the text
/// of `--none`.
fn fits(matches: &ArgMatches<'_>, separator: u8) -> bool
    ensures { result ≡ fits (found_texts (found_of matches.now)) separator }
{
    !cuts_errors(matches, separator)
        && !cuts_sums(matches, separator)
        && is_one_field(As, matches, separator)
        && is_one_field(NoZone, matches, separator)
}

/// Whether `--separator` names a separator, and what is written between separators is one field.
fn names_fit(matches: &ArgMatches<'_>) -> bool
    ensures { result ≡ names_fit (found_texts (found_of matches.now)) }
{
    match separator(matches) {
        Some(byte) => fits(matches, byte),
        None => false,
    }
}

/// Whether the list has rows.
fn list_has_rows(matches: &ArgMatches<'_>) -> bool
    ensures { result ≡ list_has_rows (found_texts (found_of matches.now)) }
{
    Field.is_given(matches) || Column.is_given(matches)
}

/// Whether the file of cells has rows.
fn file_has_rows(matches: &ArgMatches<'_>) -> bool
    ensures { result ≡ file_has_rows (found_texts (found_of matches.now)) }
{
    let region = RegionField.is_given(matches) || RegionColumn.is_given(matches);
    region || ZoneField.is_given(matches) || ZoneColumn.is_given(matches)
}

/// Whether the zones of the file have names.
fn has_names(matches: &ArgMatches<'_>) -> bool
    ensures { result ≡ has_names (found_texts (found_of matches.now)) }
{
    ZoneNameField.is_given(matches) || ZoneName.is_given(matches)
}

/// Whether a field is not named by its number and by its name.
fn is_named_once(number: CommandOption, column: CommandOption, matches: &ArgMatches<'_>) -> bool
    ensures { result ≡ is_named_once (found_texts (found_of matches.now)) number column }
{
    !(number.is_given(matches) && column.is_given(matches))
}

/// Whether no field is named by its number and by its name.
fn names_fields_once(matches: &ArgMatches<'_>) -> bool
    ensures { result ≡ names_fields_once (found_texts (found_of matches.now)) }
{
    is_named_once(Field, Column, matches)
        && is_named_once(RegionField, RegionColumn, matches)
        && is_named_once(ZoneField, ZoneColumn, matches)
        && is_named_once(ZoneNameField, ZoneName, matches)
        && is_named_once(SumField, Sum, matches)
        && is_named_once(ByField, By, matches)
}

/// Whether what says how rows are cut goes with rows, of the list or of the file.
fn cuts_rows(matches: &ArgMatches<'_>) -> bool
    ensures { result ≡ cuts_rows (found_texts (found_of matches.now)) }
{
    let separator = Separator.is_given(matches);
    let csv = Csv.is_given(matches);
    !(separator || csv) || list_has_rows(matches) || file_has_rows(matches)
}

/// Whether each option of the list's rows has what it goes with.
fn has_company(matches: &ArgMatches<'_>) -> bool
    ensures { result ≡ has_company (found_texts (found_of matches.now)) }
{
    let field = Field.is_given(matches);
    let column = Column.is_given(matches);
    let header = Header.is_given(matches);
    let name = As.is_given(matches);
    let keep_going = KeepGoing.is_given(matches);
    let errors = Errors.is_given(matches);
    let ragged = Ragged.is_given(matches);
    (!header || field)
        && (!keep_going || field || column)
        && (!(name || ragged) || column || header)
        && (!errors || keep_going)
}

/// Whether each option of the names of zones has what it goes with.
fn names_have_company(matches: &ArgMatches<'_>) -> bool
    ensures { result ≡ names_have_company (found_texts (found_of matches.now)) }
{
    let column = ZoneColumn.is_given(matches);
    let field = ZoneField.is_given(matches);
    let names = has_names(matches);
    let text = NoZone.is_given(matches);
    let overlapping = Overlapping.is_given(matches);
    (!ZoneName.is_given(matches) || column)
        && (!ZoneNameField.is_given(matches) || field)
        && (!(text || overlapping) || names)
}

/// Whether the options of a second field of the list's rows have what they go with.
fn second_has_company(
    number: CommandOption,
    column: CommandOption,
    matches: &ArgMatches<'_>,
) -> bool
    ensures { result ≡ second_has_company (found_texts (found_of matches.now)) number column }
{
    let has_header = Column.is_given(matches) || Header.is_given(matches);
    (!column.is_given(matches) || has_header)
        && (!number.is_given(matches) || Field.is_given(matches))
}

/// Whether the options of each second field of the list's rows have what they go with.
fn seconds_have_company(matches: &ArgMatches<'_>) -> bool
    ensures { result ≡ seconds_have_company (found_texts (found_of matches.now)) }
{
    second_has_company(SumField, Sum, matches) && second_has_company(ByField, By, matches)
}

/// Whether no field is named twice, and each option of rows has what it goes with, and names what it
/// may.
pub(crate) fn rows_agree(matches: &ArgMatches<'_>) -> bool
    ensures { result ≡ rows_agree (found_texts (found_of matches.now)) }
{
    names_fields_once(matches)
        && cuts_rows(matches)
        && has_company(matches)
        && names_have_company(matches)
        && seconds_have_company(matches)
        && names_fit(matches)
}

/// That an option lacks what it goes with.
fn lacking(alloc: Global, option: &str, wanted: &str) -> Result<String, AllocError> {
    format!(in alloc; "the argument '{option}' cannot be used without {wanted}")
}

/// That the value of an option is invalid.
fn invalid(
    alloc: Global,
    value: Option<&str>,
    option: &str,
    reason: &str,
) -> Result<String, AllocError> {
    let value = value.unwrap_or("");
    format!(in alloc; "invalid value '{value}' for '{option}': {reason}")
}

/// The first of these options that is given, as a usage shows it.
fn first_given(
    matches: &ArgMatches<'_>,
    options: &'static [(CommandOption, &'static str)],
) -> Option<&'static str> {
    for (option, shown) in options {
        if option.is_given(matches) {
            return Some(*shown);
        }
    }
    None
}

/// The options of the number and of the name of a field that are both given, as a usage shows them.
fn first_field_twice(matches: &ArgMatches<'_>) -> Option<(&'static str, &'static str)> {
    for (number, column, shown, other) in &OF_A_FIELD {
        if number.is_given(matches) && column.is_given(matches) {
            return Some((*shown, *other));
        }
    }
    None
}

/// The options by which the list has rows, or the command's file of cells, as a usage shows them.
fn fields_of_rows(matches: &ArgMatches<'_>) -> &'static str {
    if Region.is_given(matches) {
        FIELDS_WITH_REGION
    } else if Zones.is_given(matches) {
        FIELDS_WITH_ZONES
    } else {
        FIELDS
    }
}

/// The first option of names that is given without what it goes with, and that, as a usage shows them.
fn first_name_alone(matches: &ArgMatches<'_>) -> Option<(&'static str, &'static str)> {
    if ZoneName.is_given(matches) && !ZoneColumn.is_given(matches) {
        return Some(("--zone-name <zone-name>", "'--zone-column <zone-column>'"));
    }
    if ZoneNameField.is_given(matches) && !ZoneField.is_given(matches) {
        return Some((
            "--zone-name-field <name-field>",
            "'--zone-field <zone-field>'",
        ));
    }
    if !has_names(matches) {
        if let Some(shown) = first_given(matches, &OF_NAMES) {
            return Some((shown, NAMES));
        }
    }
    None
}

/// The first option of a second field that is given without what it goes with, and that, as a usage
/// shows them.
fn first_second_alone(matches: &ArgMatches<'_>) -> Option<(&'static str, &'static str)> {
    let has_header = Column.is_given(matches) || Header.is_given(matches);
    for (number, column, shown, other) in &OF_SECOND_FIELDS {
        if column.is_given(matches) && !has_header {
            return Some((*other, HEADER));
        }
        if number.is_given(matches) && !Field.is_given(matches) {
            return Some((*shown, "'--field <number>'"));
        }
    }
    None
}

/// The first option that is given without what it goes with, and that, as a usage shows them.
fn first_alone(matches: &ArgMatches<'_>) -> Option<(&'static str, &'static str)> {
    if Header.is_given(matches) && !Field.is_given(matches) {
        return Some(("--header", "'--field <number>'"));
    }
    if !list_has_rows(matches) {
        if !file_has_rows(matches) {
            if let Some(shown) = first_given(matches, &OF_ROWS) {
                return Some((shown, fields_of_rows(matches)));
            }
        }
        if KeepGoing.is_given(matches) {
            return Some(("--keep-going", FIELDS));
        }
    }
    if !Column.is_given(matches) && !Header.is_given(matches) {
        if let Some(shown) = first_given(matches, &OF_A_HEADER) {
            return Some((shown, HEADER));
        }
    }
    if Errors.is_given(matches) && !KeepGoing.is_given(matches) {
        return Some(("--errors", "'--keep-going'"));
    }
    first_name_alone(matches).or(first_second_alone(matches))
}

/// What is wrong with the options of rows, where they do not agree: the first rule that is broken.
fn broken_rule(alloc: Global, matches: &ArgMatches<'_>) -> Result<String, AllocError> {
    if let Some((number, column)) = first_field_twice(matches) {
        return format!(in alloc; "the argument '{number}' cannot be used with '{column}'");
    }
    if let Some((option, wanted)) = first_alone(matches) {
        return lacking(alloc, option, wanted);
    }
    let (option, shown, reason) = match separator(matches) {
        None => (Separator, "--separator <separator>", NO_SEPARATOR),
        Some(byte) if cuts_errors(matches, byte) => {
            (Separator, "--separator <separator>", NO_ERRORS)
        }
        Some(byte) if cuts_sums(matches, byte) => (Separator, "--separator <separator>", NO_SUMS),
        Some(byte) if !is_one_field(As, matches, byte) => (As, "--as <name>", NO_NAME),
        Some(_) => (NoZone, "--none <text>", NO_TEXT),
    };
    invalid(alloc, option.text(matches), shown, reason)
}

/// The text of an invalid command line whose options of rows do not agree, in the form of `clap`'s.
pub(crate) fn rows_fault(
    alloc: Global,
    usage: &str,
    matches: &ArgMatches<'_>,
) -> Result<String, AllocError> {
    let broken = broken_rule(alloc, matches)?;
    format!(in alloc; "error: {broken}\n\nUsage: {usage}\n\nFor more information, try '--help'.\n")
}

/// The field that has the cells, by the option of its number or that of its name, if one is given.
///
/// [`AllocError`] if there is no memory for its name.
fn field_by(
    alloc: Global,
    number: CommandOption,
    column: CommandOption,
    matches: &ArgMatches<'_>,
) -> Result<Option<CellField>, AllocError>
    requires least { number_from number ≡ pos 1 }
    requires most { number_up_to number ≡ Some (pos 65535) }
    ensures counted { IfOk result (λ field. is_counted_if field ≡ true) }
    ensures read { IfOk result (λ field.
        IsAccepted number (found_texts (found_of matches.now) number)
        → HasFieldBy (found_texts (found_of matches.now)) number column field) }
{
    if number.is_given(matches) {
        return Ok(Some(CellField::Number(number.number(matches) as u16)));
    }
    match column.text(matches) {
        Some(name) => Ok(Some(CellField::Column(String::from_str(alloc, name)?))),
        None => Ok(None),
    }
}

/// The field of the file that has its cells, if the file has rows.
///
/// [`AllocError`] if there is no memory for its name.
fn file_field(alloc: Global, matches: &ArgMatches<'_>) -> Result<Option<CellField>, AllocError>
    ensures counted { IfOk result (λ field. is_counted_if field ≡ true) }
    ensures read { IfOk result (λ field.
        IsAccepted RegionField (found_texts (found_of matches.now) RegionField)
        → IsAccepted ZoneField (found_texts (found_of matches.now) ZoneField)
        → HasFileField (found_texts (found_of matches.now)) field) }
{
    match field_by(alloc, RegionField, RegionColumn, matches)? {
        Some(field) => Ok(Some(field)),
        None => field_by(alloc, ZoneField, ZoneColumn, matches),
    }
}

/// The name of the new column, if one is given.
///
/// [`AllocError`] where there is no memory for it.
fn column_name(alloc: Global, matches: &ArgMatches<'_>) -> Result<Option<String>, AllocError>
    ensures { IfOk result (λ name.
        option_map string_bytes name ≡ found_texts (found_of matches.now) As) }
{
    match As.text(matches) {
        Some(name) => Ok(Some(String::from_str(alloc, name)?)),
        None => Ok(None),
    }
}

/// How the rows of the list are read and written, if it has rows; for options that agree.
///
/// [`AllocError`] where there is no memory for a name.
fn row_options(alloc: Global, matches: &ArgMatches<'_>) -> Result<Option<RowOptions>, AllocError>
    ensures { IfOk result (λ rows. rows_agree (found_texts (found_of matches.now)) ≡ true
        → IsAccepted Field (found_texts (found_of matches.now) Field)
        → HasRows (found_texts (found_of matches.now)) rows) }
{
    let Some(field) = field_by(alloc, Field, Column, matches)? else {
        return Ok(None);
    };
    Ok(Some(RowOptions {
        field,
        has_header: Column.is_given(matches) || Header.is_given(matches),
        separator: separator(matches).unwrap_or(b'\t'),
        quotes: Csv.is_given(matches),
        name: column_name(alloc, matches)?,
        keeps_going: KeepGoing.is_given(matches),
        shows_errors: Errors.is_given(matches),
        is_ragged: Ragged.is_given(matches),
    }))
}

/// How the rows of the file are read, if it has rows; for options that agree.
///
/// [`AllocError`] if there is no memory for a name.
fn file_options(alloc: Global, matches: &ArgMatches<'_>) -> Result<Option<RowOptions>, AllocError>
    ensures { IfOk result (λ rows. rows_agree (found_texts (found_of matches.now)) ≡ true
        → IsAccepted RegionField (found_texts (found_of matches.now) RegionField)
        → IsAccepted ZoneField (found_texts (found_of matches.now) ZoneField)
        → HasFileRows (found_texts (found_of matches.now)) rows) }
{
    let Some(field) = file_field(alloc, matches)? else {
        return Ok(None);
    };
    let has_quotes = Csv.is_given(matches);
    let byte = separator(matches);
    Ok(Some(RowOptions {
        field,
        has_header: RegionColumn.is_given(matches) || ZoneColumn.is_given(matches),
        separator: byte.unwrap_or(b'\t'),
        quotes: has_quotes,
        name: None,
        keeps_going: false,
        shows_errors: false,
        is_ragged: false,
    }))
}

/// How the rows of a file without names are read, if it has rows; for options that agree.
///
/// [`AllocError`] if there is no memory for a name.
fn cell_options(alloc: Global, matches: &ArgMatches<'_>) -> Result<Option<RowOptions>, AllocError>
    ensures { IfOk result (λ rows. rows_agree (found_texts (found_of matches.now)) ≡ true
        → IsAccepted RegionField (found_texts (found_of matches.now) RegionField)
        → IsAccepted ZoneField (found_texts (found_of matches.now) ZoneField)
        → HasFileOfCells (found_texts (found_of matches.now)) rows) }
{
    if has_names(matches) {
        return Ok(None);
    }
    file_options(alloc, matches)
}

/// What is written for a cell in no zone, beside this separator: for options that agree the text of
/// `--none`, or nothing.
///
/// [`AllocError`] if there is no memory for it.
fn none_text(alloc: Global, matches: &ArgMatches<'_>, separator: u8) -> Result<String, AllocError>
    ensures plain { IfOk result (λ text. is_plain_field separator (string_bytes text) ≡ true) }
    ensures read { IfOk result (λ text.
        is_one_field (found_texts (found_of matches.now)) NoZone separator ≡ true
        → string_bytes text ≡ unwrap_or (found_texts (found_of matches.now) NoZone) []) }
{
    match NoZone.text(matches) {
        Some(text) if is_plain_field(text.as_bytes(), separator) => String::from_str(alloc, text),
        _ => Ok(String::new(alloc)),
    }
}

/// How the table of zones with names is read, if they have names; for options that agree.
///
/// [`AllocError`] if there is no memory for a name.
fn area_options(alloc: Global, matches: &ArgMatches<'_>) -> Result<Option<AreaOptions>, AllocError>
    ensures { IfOk result (λ areas. rows_agree (found_texts (found_of matches.now)) ≡ true
        → IsAccepted RegionField (found_texts (found_of matches.now) RegionField)
        → IsAccepted ZoneField (found_texts (found_of matches.now) ZoneField)
        → IsAccepted ZoneNameField (found_texts (found_of matches.now) ZoneNameField)
        → HasAreas (found_texts (found_of matches.now)) areas) }
{
    let Some(name) = field_by(alloc, ZoneNameField, ZoneName, matches)? else {
        return Ok(None);
    };
    let Some(rows) = file_options(alloc, matches)? else {
        return Ok(None);
    };
    let none = none_text(alloc, matches, rows.separator)?;
    Ok(Some(AreaOptions {
        table: TableOptions { rows, name },
        none,
        overlapping: Overlapping.is_given(matches),
    }))
}

/// How the rows of the list and those of the file are read, if these have rows; for options that agree.
///
/// [`AllocError`] if there is no memory for a name.
pub(crate) fn tables(alloc: Global, matches: &ArgMatches<'_>) -> Result<Tables, AllocError>
    ensures { IfOk result (λ tables. rows_agree (found_texts (found_of matches.now)) ≡ true
        → ((option : CommandOption) → IsAccepted option (found_texts (found_of matches.now) option))
        → HasTables (found_texts (found_of matches.now)) tables) }
{
    Ok(Tables {
        list: row_options(alloc, matches)?,
        sum: field_by(alloc, SumField, Sum, matches)?,
        by: field_by(alloc, ByField, By, matches)?,
        file: cell_options(alloc, matches)?,
        areas: area_options(alloc, matches)?,
    })
}
