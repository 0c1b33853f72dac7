//! What is said of invalid command lines with options of rows.

use crate::expected::expect_all;
use crate::refused_words::first_unsaid;

/// Invalid lines, and what is said of each.
static SAID: [(&str, &str); 55] = [
    (
        "h3 getResolutions --field -1",
        "invalid value '-1' for '--field <number>': -1 is not in 1..=65535",
    ),
    (
        "h3 getResolutions --field 0",
        "invalid value '0' for '--field <number>': 0 is not in 1..=65535",
    ),
    (
        "h3 getResolutions --field 1 --column a",
        "error: the argument '--field <number>' cannot be used with '--column <column>'\n\nUsage: h3 getResolutions < cells\n",
    ),
    (
        "h3 getResolutions --header",
        "the argument '--header' cannot be used without '--field <number>'",
    ),
    (
        "h3 getResolutions --column a --header",
        "the argument '--header' cannot be used without '--field <number>'",
    ),
    (
        "h3 getResolutions --separator ,",
        "the argument '--separator <separator>' cannot be used without '--field <number>' or '--column <column>'",
    ),
    (
        "h3 getResolutions --csv",
        "the argument '--csv' cannot be used without",
    ),
    (
        "h3 getResolutions --keep-going",
        "the argument '--keep-going' cannot be used without",
    ),
    (
        "h3 getResolutions --field 1 --as a",
        "the argument '--as <name>' cannot be used without '--column <column>' or '--header'",
    ),
    (
        "h3 getResolutions --field 1 --separator ab",
        "invalid value 'ab' for '--separator <separator>': ",
    ),
    (
        "h3 getResolutions --csv --column a --as b,c",
        "invalid value 'b,c' for '--as <name>': ",
    ),
    (
        "h3 compactCells --keep-going",
        "unexpected argument '--keep-going' found",
    ),
    ("h3 getResolutions --field 1 --csv=1", "--csv"),
    (
        "h3 getResolutions --field 1 --errors",
        "error: the argument '--errors' cannot be used without '--keep-going'\n\nUsage: h3 getResolutions < cells\n",
    ),
    (
        "h3 getResolutions --column a --keep-going --errors --separator _",
        "invalid value '_' for '--separator <separator>': the names of --errors have an underscore",
    ),
    (
        "h3 getResolutions --errors",
        "the argument '--errors' cannot be used without '--keep-going'",
    ),
    (
        "h3 getResolutions --keep-going --errors",
        "the argument '--keep-going' cannot be used without '--field <number>' or '--column <column>'",
    ),
    (
        "h3 compactCells --field 1 --ragged",
        "error: the argument '--ragged' cannot be used without '--column <column>' or '--header'\n\nUsage: h3 compactCells < cells\n",
    ),
    (
        "h3 getResolutions --ragged",
        "the argument '--ragged' cannot be used without '--column <column>' or '--header'",
    ),
    (
        "h3 compactCells --column a --errors",
        "unexpected argument '--errors' found",
    ),
    (
        "h3 cellsToZones --zones z --csv",
        "error: the argument '--csv' cannot be used without '--field <number>', '--column <column>', \
        '--zone-field <zone-field>' or '--zone-column <zone-column>'\n\n\
        Usage: h3 cellsToZones --zones <zones> < cells\n",
    ),
    (
        "h3 countCellsInZones --zones z --separator ,",
        "error: the argument '--separator <separator>' cannot be used without '--field <number>', \
        '--column <column>', '--zone-field <zone-field>' or '--zone-column <zone-column>'\n",
    ),
    (
        "h3 cellsToZones --zones z --zone-field 1 --zone-name a",
        "error: the argument '--zone-name <zone-name>' cannot be used without '--zone-column <zone-column>'\n\n\
        Usage: h3 cellsToZones --zones <zones> < cells\n",
    ),
    (
        "h3 cellsToZones --zones z --zone-column a --zone-name-field 1",
        "error: the argument '--zone-name-field <name-field>' cannot be used without '--zone-field <zone-field>'\n",
    ),
    (
        "h3 cellsToZones --zones z --zone-column a --zone-name-field 1 --zone-name b",
        "error: the argument '--zone-name-field <name-field>' cannot be used with '--zone-name <zone-name>'\n",
    ),
    (
        "h3 cellsToZones --zones z --zone-column a --none b",
        "error: the argument '--none <text>' cannot be used without '--zone-name <zone-name>' or \
        '--zone-name-field <name-field>'\n",
    ),
    (
        "h3 cellsToZones --zones z --overlapping",
        "error: the argument '--overlapping' cannot be used without '--zone-name <zone-name>' or \
        '--zone-name-field <name-field>'\n",
    ),
    (
        "h3 cellsToZones --zones z --zone-field 1 --overlapping --none a",
        "error: the argument '--none <text>' cannot be used without '--zone-name <zone-name>' or \
        '--zone-name-field <name-field>'\n",
    ),
    (
        "h3 countCellsInZones --zones z --zone-field 1 --zone-name-field 2 --sum a",
        "error: the argument '--sum <sum>' cannot be used without '--column <column>' or '--header'\n\n\
        Usage: h3 countCellsInZones --zones <zones> < cells\n",
    ),
    (
        "h3 countCellsInZones --zones z --zone-field 1 --zone-name-field 2 --field 1 --sum a",
        "error: the argument '--sum <sum>' cannot be used without '--column <column>' or '--header'\n",
    ),
    (
        "h3 countCellsInZones --zones z --zone-field 1 --zone-name-field 2 --column a --sum-field 1",
        "error: the argument '--sum-field <sum-field>' cannot be used without '--field <number>'\n",
    ),
    (
        "h3 countCellsInZones --zones z --zone-field 1 --zone-name-field 2 --field 1 --header --sum a --sum-field 1",
        "error: the argument '--sum-field <sum-field>' cannot be used with '--sum <sum>'\n",
    ),
    (
        "h3 countCellsInZones --zones z --zone-field 1 --zone-name-field 2 --column a --csv --separator . --sum b",
        "error: invalid value '.' for '--separator <separator>': a sum may have a point\n",
    ),
    (
        "h3 countCellsInZones --zones z --zone-field 1 --zone-name-field 2 --field 1 --sum-field 0",
        "invalid value '0' for '--sum-field <sum-field>': 0 is not in 1..=65535",
    ),
    (
        "h3 countCellsInZones --zones z --zone-field 1 --zone-name-field 2 --field 1 --sum-field -3",
        "invalid value '-3' for '--sum-field <sum-field>': -3 is not in 1..=65535",
    ),
    (
        "h3 countCellsInZones --zones z --column a --sum b --overlapping",
        "error: the argument '--overlapping' cannot be used without '--zone-name <zone-name>' or \
        '--zone-name-field <name-field>'\n",
    ),
    (
        "h3 countCellsInZones --zones z --zone-field 1 --sum-field 2",
        "error: the argument '--sum-field <sum-field>' cannot be used without '--field <number>'\n",
    ),
    (
        "h3 cellsToZones --zones z --column a --sum b",
        "unexpected argument '--sum' found",
    ),
    (
        "h3 uncompactCellsSize -r 6 --column a --sum b",
        "unexpected argument '--sum' found",
    ),
    (
        "h3 countCellsInParents -r 4 --field 1 --sum a",
        "error: the argument '--sum <sum>' cannot be used without '--column <column>' or '--header'\n\n\
        Usage: h3 countCellsInParents --resolution <resolution> < cells\n",
    ),
    (
        "h3 countCellsInParents -r 4 --column a --sum-field 1",
        "error: the argument '--sum-field <sum-field>' cannot be used without '--field <number>'\n",
    ),
    (
        "h3 countCellsInParents -r 4 --csv",
        "error: the argument '--csv' cannot be used without '--field <number>' or '--column <column>'\n",
    ),
    (
        "h3 countCellsInParents -r 4 --column a --separator . --sum b",
        "error: invalid value '.' for '--separator <separator>': a sum may have a point\n",
    ),
    (
        "h3 countCellsInParents -r 4 --column a --none b",
        "unexpected argument '--none' found",
    ),
    (
        "h3 uniteCells --by a",
        "error: the argument '--by <by>' cannot be used without '--column <column>' or '--header'\n\n\
        Usage: h3 uniteCells < cells\n",
    ),
    (
        "h3 compactCells --column a --by-field 1",
        "error: the argument '--by-field <by-field>' cannot be used without '--field <number>'\n",
    ),
    (
        "h3 compactCells --field 1 --header --by a --by-field 1",
        "error: the argument '--by-field <by-field>' cannot be used with '--by <by>'\n",
    ),
    (
        "h3 uncompactCells -r 6 --field 1 --by-field 0",
        "invalid value '0' for '--by-field <by-field>': 0 is not in 1..=65535",
    ),
    (
        "h3 uncompactCellsSize -r 6 --column a --by b",
        "unexpected argument '--by' found",
    ),
    (
        "h3 areCoveredCells --region r --overlapping",
        "unexpected argument '--overlapping' found",
    ),
    (
        "h3 cellsToZones --zones z --zone-column a --zone-name b --csv --none c,d",
        "error: invalid value 'c,d' for '--none <text>': the text of a cell in no zone has no separator, double quote or line end\n",
    ),
    (
        "h3 cellsToZones --zones z --zone-field 1 --zone-name-field 0",
        "invalid value '0' for '--zone-name-field <name-field>': 0 is not in 1..=65535",
    ),
    (
        "h3 countCellsInZones --zones z --zone-name b",
        "error: the argument '--zone-name <zone-name>' cannot be used without '--zone-column <zone-column>'\n",
    ),
    (
        "h3 subtractCells --region r --csv",
        "error: the argument '--csv' cannot be used without '--field <number>', '--column <column>', \
        '--region-field <region-field>' or '--region-column <region-column>'\n",
    ),
    (
        "h3 compactCells --csv",
        "error: the argument '--csv' cannot be used without '--field <number>' or '--column <column>'\n",
    ),
];

#[test]
fn says_which_option_is_invalid(rt: HostRuntime) {
    let row = first_unsaid(rt.alloc(), &SAID);
    expect_all(&rt, row, SAID.len());
}
