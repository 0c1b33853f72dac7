//! The options of the commands.

ghost use Rattle.std.specs.Prelude.{◌≡◌, ◌≤ℤ◌, ℤ, Some, false, is_some, option_map, unwrap_or};
ghost use Rattle.std.specs.Str.Parse.{signed_digits_value};
ghost use Rattle.clap.specs.Words.{IsSignedIn, Text, first_value, found_of, rule_of};
ghost use Rattle.h3_index.specs.Text.{parsed_index};
ghost use Rattle.h3_words.specs.Options.{id_of, is_required, named_rule, number_from, number_up_to, option_entry, path_of, rule_for};

use clap::{Arg, ArgAction, ArgMatches, value_parser};
use h3_index::read_index;
use std::alloc::Global;

/// An option of a command.
#[derive(Clone, Copy)]
pub enum CommandOption {
    /// `-c` or `--cell`: a cell.
    Cell,

    /// `-r` or `--resolution`: a resolution.
    Resolution,

    /// `-k`: a radius.
    Radius,

    /// `--to`: a second cell.
    To,

    /// `--position`: a position, counted from 0.
    Position,

    /// `--edge`: a directed edge.
    Edge,

    /// `--table`: the path of a base cell table.
    Table,

    /// `--region`: the path of a list of cells that are taken as a region.
    Region,

    /// `--zones`: the path of a list of cells that are taken as zones.
    Zones,

    /// `--field`: the number of the field of a row that has its cell, counted from 1.
    Field,

    /// `--column`: the name of that field in a header.
    Column,

    /// `--header`: the first row that is not empty is a header.
    Header,

    /// `--separator`: the byte between two fields.
    Separator,

    /// `--csv`: quotes count.
    Csv,

    /// `--as`: the name of the new column.
    As,

    /// `--keep-going`: a row with an error has an empty answer, and the run goes on.
    KeepGoing,

    /// `--errors`: one more new column has the names of the rows' errors.
    Errors,

    /// `--ragged`: rows may have another number of fields than the header.
    Ragged,

    /// `--region-column`: the file of the region is a table; the name of its field with the cells in its
    /// header.
    RegionColumn,

    /// `--region-field`: the same; the number of that field, counted from 1.
    RegionField,

    /// `--zone-column`: the file of the zones is a table; the name of its field with the cells in its
    /// header.
    ZoneColumn,

    /// `--zone-field`: the same; the number of that field, counted from 1.
    ZoneField,

    /// `--zone-name`: the column with the names of the zones, by its name in the header.
    ZoneName,

    /// `--zone-name-field`: the same; the number of that field, counted from 1.
    ZoneNameField,

    /// `--none`: what is written for a cell in no zone, if the zones have names.
    NoZone,

    /// `--overlapping`: zones with names may overlap.
    Overlapping,

    /// `--sum`: the column of the list's rows that is added up, by its name in the header.
    Sum,

    /// `--sum-field`: the same; the number of that field, counted from 1.
    SumField,

    /// `--by`: the column that divides the list's rows, with one list for each of its values, by its name
    /// in the header.
    By,

    /// `--by-field`: the same; the number of that field, counted from 1.
    ByField,
}

/// A file that a command names by an option: its kind, and its path as it is given.
#[derive(Drop)]
pub enum CommandFile {
    /// `--table`: a base cell table.
    Table(String),

    /// `--region`: a list of cells that are taken as a region.
    Region(String),

    /// `--zones`: a list of cells that are taken as zones.
    Zones(String),
}

impl CommandFile {
    /// The path.
    pub fn path(&self) -> &str
        ensures { result.now ≡ path_of self.now }
    {
        match self {
            CommandFile::Table(path) => path.as_str(),
            CommandFile::Region(path) => path.as_str(),
            CommandFile::Zones(path) => path.as_str(),
        }
    }
}

/// An option: its names, what help says of it, and what its value may be.
#[derive(Clone, Copy)]
struct OptionEntry<'a> {
    /// The id of the option in `clap`.
    id: &'a str,

    /// The character after one hyphen.
    short: Option<char>,

    /// The name after two hyphens.
    long: Option<&'a str>,

    /// The least that a number of the option may be.
    least: i64,

    /// The most that a number of the option may be; `None` where its value is any text. Which
    /// numbers are resolutions, the command decides.
    most: Option<i64>,

    /// Whether each command that has the option requires it: it is none of those of rows.
    is_required: bool,

    /// Whether the option is a flag, which takes no value.
    is_flag: bool,

    /// What help says of the option.
    about: &'a str,
}

// An option that each command which has it requires: its id, its short and its long name, the most
// that its number may be, and what help says of it.
macro_rules! required {
    ($id:literal, $short:expr, $long:expr, $most:expr, $about:literal) => {
        OptionEntry {
            id: $id,
            short: $short,
            long: $long,
            least: 0,
            most: $most,
            is_required: true,
            is_flag: false,
            about: $about,
        }
    };
}

// An option of rows, which may be left out: its id and its long name, whether it is a flag, and
// what help says of it.
macro_rules! of_rows {
    ($id:literal, $long:literal, $is_flag:literal, $about:literal) => {
        OptionEntry {
            id: $id,
            short: None,
            long: Some($long),
            least: 0,
            most: None,
            is_required: false,
            is_flag: $is_flag,
            about: $about,
        }
    };
}

// An option of rows that is the number of a field: its id, its long name, and what help says of it.
macro_rules! number_of_field {
    ($id:literal, $long:literal, $about:literal) => {
        OptionEntry {
            least: 1,
            most: Some(u16::MAX as i64),
            ..of_rows!($id, $long, false, $about)
        }
    };
}

// The table of all options: `options!(m! ARGS)` expands to `m! { ARGS ROWS }`. A row has:
// - the option's name;
// - its entry;
// - what `tools/pages` takes of it for the manual page and the completions: what its value is called, what
//   that is, and what zsh completes it with; of a flag, what it is.
macro_rules! options {
    ($made:ident! $($before:tt)*) => {
        $made! {
            $($before)*
            Cell
                [required!("cell", Some('c'), Some("cell"), None, "A cell's index in hexadecimal")]
                ("CELL", "a cell", "cell:");
            Resolution
                [required!("resolution", Some('r'), Some("resolution"), Some(i32::MAX as i64), "A resolution, 0 to 15")]
                ("RESOLUTION", "a resolution", "resolution:({0..15})");
            Radius
                [required!("k", Some('k'), None, Some(i32::MAX as i64), "A radius, from 0: how many steps of the grid")]
                ("RADIUS", "a radius", "radius:");
            To
                [required!("to", None, Some("to"), None, "A second cell's index in hexadecimal")]
                ("CELL", "a second cell", "cell:");
            Position
                [required!("position", None, Some("position"), Some(i64::MAX), "A position, from 0")]
                ("N", "a position, from 0", "position:");
            Edge
                [required!("edge", None, Some("edge"), None, "A directed edge's index in hexadecimal")]
                ("EDGE", "a directed edge", "edge:");
            Table
                [required!("table", None, Some("table"), None, "The base cell table: a file that h3-table makes")]
                ("FILE", "the table of base cells", "file:_files");
            Region
                [required!("region", None, Some("region"), None, "The region: a file of one cell a line, or a table")]
                ("FILE", "the cells of the region", "file:_files");
            Zones
                [required!("zones", None, Some("zones"), None, "The zones: a file of one cell a line, or a table")]
                ("FILE", "the cells that are the zones", "file:_files");
            Field
                [number_of_field!("number", "field", "Read rows; the number of the cell's field")]
                ("N", "the number of the field with the cell", "number:");
            Column
                [of_rows!("column", "column", false, "Rows under a header; the cell's column")]
                ("NAME", "the name of the column with the cell", "name:");
            Header
                [of_rows!("header", "header", true, "With --field: the first row is a header")]
                ("the first row is a header");
            Separator
                [of_rows!("separator", "separator", false, "Between fields [tab; with --csv: comma]")]
                ("BYTE", "the byte between fields", "byte:");
            Csv
                [of_rows!("csv", "csv", true, "Fields may be quoted, as in CSV")]
                ("fields may be quoted");
            As
                [of_rows!("name", "as", false, "With a header: the name of the new column")]
                ("NAME", "the name of the new column", "name:");
            KeepGoing
                [of_rows!("keep-going", "keep-going", true, "Leave a bad row's answer empty, and go on")]
                ("go on after a row with an error");
            Errors
                [of_rows!("errors", "errors", true, "With --keep-going: add names of errors")]
                ("add a column with the name of each row's error");
            Ragged
                [of_rows!("ragged", "ragged", true, "With a header: rows of any field count")]
                ("take rows of another number of fields than the header");
            RegionColumn
                [of_rows!("region-column", "region-column", false, "File with a header: its column of cells")]
                ("NAME", "the name of the column with the cells of the region", "name:");
            RegionField
                [number_of_field!("region-field", "region-field", "File of rows: number of its cell field")]
                ("N", "the number of the field with the cells of the region", "number:");
            ZoneColumn
                [of_rows!("zone-column", "zone-column", false, "File with a header: its column of cells")]
                ("NAME", "the name of the column with the zones", "name:");
            ZoneField
                [number_of_field!("zone-field", "zone-field", "File of rows: number of its cell field")]
                ("N", "the number of the field with the zones", "number:");
            ZoneName
                [of_rows!("zone-name", "zone-name", false, "With --zone-column: the column of names")]
                ("NAME", "the name of the column with the names of the zones", "name:");
            ZoneNameField
                [number_of_field!("name-field", "zone-name-field", "With --zone-field: the field of names")]
                ("N", "the number of the field with the names of the zones", "number:");
            NoZone
                [of_rows!("text", "none", false, "With names: text for a cell in no zone")]
                ("TEXT", "the text for a cell in no zone", "text:");
            Overlapping
                [of_rows!("overlapping", "overlapping", true, "With names: zones may overlap")]
                ("zones may overlap");
            Sum
                [of_rows!("sum", "sum", false, "With a header: column to add up")]
                ("NAME", "the name of the column to add up", "name:");
            SumField
                [number_of_field!("sum-field", "sum-field", "With --field: field to add up")]
                ("N", "the number of the field to add up", "number:");
            By
                [of_rows!("by", "by", false, "With a header: split by this column")]
                ("NAME", "the name of the column to split by", "name:");
            ByField
                [number_of_field!("by-field", "by-field", "With --field: split by this field")]
                ("N", "the number of the field to split by", "number:");
        }
    };
}

// All names of options.
macro_rules! names {
    ($($name:ident $entry:tt $page:tt;)*) => {
        &[$(CommandOption::$name),*]
    };
}

// All entries.
macro_rules! entries {
    ($($name:ident [$entry:expr] $page:tt;)*) => {
        &[$($entry),*]
    };
}

/// All options, in the order of their table.
pub(crate) static OPTIONS: &[CommandOption] = options!(names!);

/// The entries of all options, in the order of their table, which is that of their names.
static ENTRIES: &[OptionEntry<'static>] = options!(entries!);

impl CommandOption {
    /// The option's entry in the table of all options.
    fn entry<'a>(self) -> OptionEntry<'a>
        ensures { record {
          id = result.id.now;
          short = result.short;
          long = option_map (λ name. name.now) result.long;
          least = result.least;
          most = result.most;
          is_required = result.is_required;
          is_flag = result.is_flag;
        } ≡ option_entry self }
    {
        ENTRIES[self as usize]
    }

    /// The id of the option in `clap`.
    pub(crate) fn id<'a>(self) -> &'a str
        ensures { result.now ≡ id_of self }
    {
        self.entry().id
    }

    /// Whether each command that has the option requires it.
    pub(crate) fn is_required(self) -> bool
        ensures { result ≡ is_required self }
    {
        self.entry().is_required
    }

    /// The option with its names, as `clap` takes it.
    fn named<'a>(self, alloc: Global) -> Arg<'a>
        ensures rule { rule_of result ≡ named_rule self }
        ensures local { result.global ≡ false }
    {
        let entry = self.entry();
        let argument = Arg::new(alloc, entry.id)
            .required(entry.is_required)
            .action(ArgAction::Set);
        match (entry.short, entry.long) {
            (Some(short), Some(long)) => argument.short(short).long(long),
            (Some(short), None) => argument.short(short),
            (None, Some(long)) => argument.long(long),
            (None, None) => argument,
        }
    }

    /// The option with its names and what help says of it: those of rows in a part of their own.
    fn described<'a>(self, alloc: Global) -> Arg<'a>
        ensures rule { rule_of result ≡ named_rule self }
        ensures local { result.global ≡ false }
    {
        let argument = self.named(alloc).help(self.entry().about);
        if self.is_required() {
            return argument;
        }
        argument.help_heading("Rows")
    }

    /// The option as `clap` takes it.
    pub(crate) fn argument<'a>(self, alloc: Global) -> Arg<'a>
        ensures rule { rule_of result ≡ rule_for self }
        ensures local { result.global ≡ false }
    {
        let argument = self.described(alloc);
        let entry = self.entry();
        if entry.is_flag {
            return argument.num_args(0).default_missing_value("true");
        }
        match entry.most {
            Some(most) => argument.value_parser(value_parser!(i64).range(entry.least..=most)),
            None => argument,
        }
    }

    /// Whether a word is one of the names of the option.
    fn is_named_by(self, word: &str) -> bool {
        let entry = self.entry();
        match (word.strip_prefix("--"), entry.short) {
            (Some(name), _) => entry.long == Some(name),
            (None, Some(short)) => {
                word.strip_prefix('-')
                    .and_then(|name| name.strip_prefix(short))
                    == Some("")
            }
            (None, None) => false,
        }
    }

    /// Whether the option takes a number, and a word is one of its names.
    pub(crate) fn is_number_named_by(self, word: &str) -> bool {
        self.entry().most.is_some() && self.is_named_by(word)
    }

    /// The text that a parse found for the option, which for a flag is `true`.
    pub(crate) fn text<'m>(self, matches: &ArgMatches<'m>) -> Option<&'m str>
        ensures { option_map (λ text. text.now) result ≡ first_value (found_of matches.now) (id_of self) }
    {
        matches.get_str(self.id())
    }

    /// Whether the option is given.
    pub(crate) fn is_given(self, matches: &ArgMatches<'_>) -> bool
        ensures { result ≡ is_some (first_value (found_of matches.now) (id_of self)) }
    {
        self.text(matches).is_some()
    }

    /// The index that the option's text parses as.
    pub(crate) fn index(self, matches: &ArgMatches<'_>) -> Option<u64>
        ensures { (text : Text) → first_value (found_of matches.now) (id_of self) ≡ Some text
            → result ≡ parsed_index text }
    {
        read_index(matches.get_str(self.id())?.as_bytes()).ok()
    }

    /// The whole number, from the option's least to its most, that the option's text parses as.
    ///
    /// `clap` has refused every other text. For such a one this is the nearest number in that range,
    /// or the least where it is no `i64`, where there is no text, or the option takes no number.
    pub(crate) fn number(self, matches: &ArgMatches<'_>) -> i64
        ensures within { (number_from self ≤ℤ result)
            × (result ≤ℤ unwrap_or (number_up_to self) (number_from self)) }
        ensures read { (text : Text) (most : ℤ)
            → first_value (found_of matches.now) (id_of self) ≡ Some text
            → number_up_to self ≡ Some most → IsSignedIn (number_from self) most text
            → result ≡ signed_digits_value 10 text }
    {
        let entry = self.entry();
        let least = entry.least;
        let most = entry.most.unwrap_or(least);
        match matches.get_str(self.id()) {
            Some(text) => text.parse::<i64>().unwrap_or(least).clamp(least, most),
            None => least,
        }
    }
}
