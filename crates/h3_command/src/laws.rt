//! Laws of the answers beside rows. Proof only: the functions compile to nothing.

ghost use Rattle.h3_command.specs.AreaCounts.{AreaCountsPrintedAddUp};
ghost use Rattle.h3_command.specs.AreaSums.{AreaSumsInParts};
ghost use Rattle.h3_command.specs.Join.{CellsGetTheirNames, NamesAreOfRows, NamesDiffer, OneNameEach, OthersGetNone};
ghost use Rattle.h3_command.specs.ParentSums.{ParentSumsPrintedAddUp};
ghost use Rattle.h3_command.specs.Parents.{ParentsPrintedOnce};
ghost use Rattle.h3_command.specs.SumAnswers.{AreaSumsPrintedAddUp};
ghost use Rattle.h3_command.specs.ZoneSums.{ZoneSumsPrintedAddUp};
ghost use Rattle.h3_rows.specs.Areas.{NamesStandOnce};
ghost use Rattle.h3_command.specs.NewColumns.{AnswersAreWords, ErrorNamesAreFields, ErrorNamesAreKept, NamesAreKept, RowsStandOnce, TitlesAreFields, WordPairsAreKept, WordPairsAreUncut, WordsAreFields, WordsAreKept};

use h3_index::laws::numbers_are_unique;
use h3_numbers::laws::totals_are_lawful;
use h3_regions::laws::{areas_are_lawful, counts_add_up};
use h3_rows::laws::{answers_stand_beside, areas_divide_cells};

/// An answer to an index is lines, or an error alone. Each line is
///
/// - a word of lower-case letters and digits;
/// - or a cell and its distance, two words with one byte between them;
/// - or, from `cellsToZones` with names, one field of the table's form.
///
/// A word is one field of any form of rows. So the fields of a row with an answer are those of the row, and then
/// the answer, or its two parts, and the row stands once for each line of its answer; also those of a row with a
/// name, if the list is cut as the table is. The name of an error is one field, too, unless an underscore separates
/// fields; and so is the name that a new column gets of a table.
pub fn answers_are_fields()
    ensures words { AnswersAreWords }
    ensures fields { WordsAreFields }
    ensures kept { WordsAreKept }
    ensures pairs { WordPairsAreKept }
    ensures uncut { WordPairsAreUncut }
    ensures once { RowsStandOnce }
    ensures errors { ErrorNamesAreFields }
    ensures errors_kept { ErrorNamesAreKept }
    ensures titles { TitlesAreFields }
    ensures names { NamesAreKept }
{
    answers_stand_beside();
    areas_divide_cells();
}

/// A cell gets the name of every row whose cell is that cell or an ancestor of it, each once and no other; if no
/// two areas of a table overlap, it gets one. No two areas have names of one text. A cell without such a row gets
/// what is written for none.
pub fn cells_get_their_names()
    ensures own { CellsGetTheirNames }
    ensures of_rows { NamesAreOfRows }
    ensures differ { NamesDiffer }
    ensures one { OneNameEach }
    ensures others { OthersGetNone }
    ensures once { NamesStandOnce }
{
    areas_divide_cells();
    areas_are_lawful();
}

/// What is printed of the counts of areas of which no two overlap adds up to the number of cells.
pub fn area_counts_add_up()
    ensures { AreaCountsPrintedAddUp }
{
    areas_divide_cells();
    areas_are_lawful();
}

/// What is printed of the counts and sums of areas of which no two overlap adds up to the number of rows with
/// a cell, and to the sum of their numbers; and the sums of the parts of a list, to those of the whole.
pub fn area_sums_add_up()
    ensures whole { AreaSumsPrintedAddUp }
    ensures parts { AreaSumsInParts }
{
    areas_divide_cells();
    areas_are_lawful();
    totals_are_lawful();
}

/// What is printed of the counts and sums of zones of which no two overlap adds up to the number of rows with a
/// cell, and to the sum of their numbers; and the sums of the parts of a list, to those of the whole.
pub fn zone_sums_add_up()
    ensures { ZoneSumsPrintedAddUp }
{
    counts_add_up();
    totals_are_lawful();
}

/// Each ancestor in a list is printed once, in ascending order, with a count; the counts add up to the number of
/// cells, and those of the parts of a list to those of the whole. The same of the sums of numbers.
pub fn parents_add_up()
    ensures counts { ParentsPrintedOnce }
    ensures sums { ParentSumsPrintedAddUp }
{
    numbers_are_unique();
    totals_are_lawful();
}
