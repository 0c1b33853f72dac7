//! Laws of rows with answers, and of areas. The functions do nothing; what they ensure is laws that hold
//! always.

ghost use Rattle.h3_rows.specs.Areas.{AreasHaveCells, CellsHaveAreas, EntriesAreFields, NamesAreFields, NamesStandOnce, NumbersAreOfNames};
ghost use Rattle.h3_rows.specs.Laws.{FieldsAreKept, HeaderStands, MarksAreKept, OutputReadsBack, PairsAreKept, RowsAreWhole, RowsGiveBack, RowsReadBack, RowsStand, RowsStandUntil, TextsAreKept, TextsStandOnce, TextsStaySound};

/// Each row is in the output whole, in order, with the answers to its own cell alone, up to the row that
/// ends the answer; a header is before them whole, with the names of the new columns.
///
/// A row and its ending are what was cut off, after the byte order mark before it. The fields of a row with an answer
/// are those of the row, and then the answer, or its two parts. So taking the new columns away gives the rows back, and
/// these the list, but for an ending that its last row lacked. Rows with their answers, read again, are as many rows.
pub fn answers_stand_beside()
    ensures stand { RowsStand }
    ensures until { RowsStandUntil }
    ensures header { HeaderStands }
    ensures give { RowsGiveBack }
    ensures whole { RowsAreWhole }
    ensures marks { MarksAreKept }
    ensures kept { FieldsAreKept }
    ensures pairs { PairsAreKept }
    ensures back { RowsReadBack }
    ensures output { OutputReadsBack }
{}

/// A row with a text beside it stands once, whatever line feeds are between the text's quotes. If the
/// text is one field, the fields of the row with it are those of the row and then the text. Sound
/// quotes stay sound.
pub fn texts_stand_beside()
    ensures once { TextsStandOnce }
    ensures kept { TextsAreKept }
    ensures sound { TextsStaySound }
{}

/// Each cell of a table is in one of its areas, and has the number of that area's name; each area has a
/// cell; and no two have names of one text. A name, that in the header too, is one field of the table's
/// form, without blanks at its ends, so an answer that it is stays one field.
pub fn areas_divide_cells()
    ensures each { CellsHaveAreas }
    ensures numbers { NumbersAreOfNames }
    ensures cells { AreasHaveCells }
    ensures once { NamesStandOnce }
    ensures entries { EntriesAreFields }
    ensures fields { NamesAreFields }
{}
