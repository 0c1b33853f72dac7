//! The table of the commands: their words and options, what each asks for, and what help says of them.

// These options, and those of a command that answers about its list as a whole.
macro_rules! with_list_options {
    ($($own:ident),*) => {
        &[$($own,)* Field, Column, Header, Separator, Csv, Ragged]
    };
}

// These options, and those of a command that answers its list line by line.
macro_rules! with_line_options {
    ($($own:ident),*) => {
        &[$($own,)* Field, Column, Header, Separator, Csv, As, KeepGoing, Errors, Ragged]
    };
}

// The table of all commands, in the order in which `clap` is given them: `commands!(m! ARGS)` expands to
// `m! { ARGS ROWS }`. A row has:
// - the `Command`, with what is read of the words: `ForOne(CellToParent { res }) of cell` is the function of one index
//   with its resolution, of the index `cell`;
// - its line in the list of all commands, with the part of that list;
// - its word and its options, and what its own help says, with an empty usage if `clap` makes that. `list_of` reads
//   of the usage whether a list is of edges.
macro_rules! commands {
    ($made:ident! $($before:tt)*) => {
        $made! {
            $($before)*
            (ForOne(IsValidCell) of cell)
                [cells "isValidCell                 Whether an index is a valid cell"]
                {
                    word: "isValidCell",
                    options: &[Cell],
                    about: "Whether an index is a valid cell",
                    notes: "Errors: 1 not an index\n\
                        Example: h3 isValidCell -c 85283473fffffff",
                    usage: "",
                };
            (ForOne(GetResolution) of cell)
                [cells "getResolution               The resolution of a cell"]
                {
                    word: "getResolution",
                    options: &[Cell],
                    about: "The resolution of a cell",
                    notes: "Errors: 1 not an index, 5 not a valid cell\n\
                        Example: h3 getResolution -c 85283473fffffff",
                    usage: "",
                };
            (ForOne(GetBaseCellNumber) of cell)
                [cells "getBaseCellNumber           The base cell of a cell"]
                {
                    word: "getBaseCellNumber",
                    options: &[Cell],
                    about: "The base cell of a cell",
                    notes: "Errors: 1 not an index, 5 not a valid cell\n\
                        Example: h3 getBaseCellNumber -c 85283473fffffff",
                    usage: "",
                };
            (ForOne(IsPentagon) of cell)
                [cells "isPentagon                  Whether a cell is a pentagon"]
                {
                    word: "isPentagon",
                    options: &[Cell],
                    about: "Whether a cell is a pentagon",
                    notes: "Errors: 1 not an index, 5 not a valid cell\n\
                        Example: h3 isPentagon -c 85283473fffffff",
                    usage: "",
                };
            (ForOne(IsResClassIII) of cell)
                [cells "isResClassIII               Whether the resolution of a cell is Class III"]
                {
                    word: "isResClassIII",
                    options: &[Cell],
                    about: "Whether the resolution of a cell is Class III",
                    notes: "Errors: 1 not an index, 5 not a valid cell\n\
                        Example: h3 isResClassIII -c 85283473fffffff",
                    usage: "",
                };
            (GetNumCells { res })
                [cells "getNumCells                 How many cells a resolution has"]
                {
                    word: "getNumCells",
                    options: &[Resolution],
                    about: "How many cells a resolution has",
                    notes: "Errors: 4 not a resolution\n\
                        Example: h3 getNumCells -r 5",
                    usage: "",
                };
            (GetRes0Cells)
                [cells "getRes0Cells                The 122 cells of resolution 0"]
                {
                    word: "getRes0Cells",
                    options: &[],
                    about: "The 122 cells of resolution 0",
                    notes: "Example: h3 getRes0Cells",
                    usage: "",
                };
            (GetPentagons { res })
                [cells "getPentagons                The twelve pentagons of a resolution"]
                {
                    word: "getPentagons",
                    options: &[Resolution],
                    about: "The twelve pentagons of a resolution",
                    notes: "Errors: 4 not a resolution\n\
                        Example: h3 getPentagons -r 5",
                    usage: "",
                };
            (ForOne(CellToParent { res }) of cell)
                [hierarchy "cellToParent                The ancestor of a cell at a resolution"]
                {
                    word: "cellToParent",
                    options: &[Cell, Resolution],
                    about: "The ancestor of a cell at a resolution",
                    notes: "Errors: 1 not an index, 5 not a valid cell, 4 not a resolution,\n\
                        12 a resolution finer than the cell's\n\
                        Example: h3 cellToParent -c 85283473fffffff -r 4",
                    usage: "",
                };
            (ForOne(CellToCenterChild { res }) of cell)
                [hierarchy "cellToCenterChild           The center descendant of a cell at a resolution"]
                {
                    word: "cellToCenterChild",
                    options: &[Cell, Resolution],
                    about: "The center descendant of a cell at a resolution",
                    notes: "Errors: 1 not an index, 5 not a valid cell,\n\
                        4 not a resolution from the cell's to 15\n\
                        Example: h3 cellToCenterChild -c 85283473fffffff -r 6",
                    usage: "",
                };
            (ForOne(CellToLastChild { res }) of cell)
                [hierarchy "cellToLastChild             The last descendant of a cell at a resolution"]
                {
                    word: "cellToLastChild",
                    options: &[Cell, Resolution],
                    about: "The last descendant of a cell at a resolution, which has the greatest number",
                    notes: "The cells of the resolution from the center descendant to the last one, by\n\
                        number, are the cell's descendants there, and no others.\n\
                        Errors: 1 not an index, 5 not a valid cell,\n\
                        4 not a resolution from the cell's to 15\n\
                        Example: h3 cellToLastChild -c 85283473fffffff -r 6",
                    usage: "",
                };
            (CellToChildren { cell, res })
                [hierarchy "cellToChildren              The descendants of a cell at a resolution"]
                {
                    word: "cellToChildren",
                    options: &[Cell, Resolution],
                    about: "The descendants of a cell at a resolution, ascending",
                    notes: "Errors: 1 not an index, 5 not a valid cell,\n\
                        4 not a resolution from the cell's to 15\n\
                        Example: h3 cellToChildren -c 85283473fffffff -r 6",
                    usage: "",
                };
            (ForOne(CellToChildrenSize { res }) of cell)
                [hierarchy "cellToChildrenSize          How many descendants a cell has at a resolution"]
                {
                    word: "cellToChildrenSize",
                    options: &[Cell, Resolution],
                    about: "How many descendants a cell has at a resolution",
                    notes: "Errors: 1 not an index, 5 not a valid cell,\n\
                        4 not a resolution from the cell's to 15\n\
                        Example: h3 cellToChildrenSize -c 85283473fffffff -r 6",
                    usage: "",
                };
            (ForOne(CellToChildPos { res }) of cell)
                [hierarchy "cellToChildPos              The position of a cell below an ancestor"]
                {
                    word: "cellToChildPos",
                    options: &[Cell, Resolution],
                    about: "The position of a cell among the descendants of its ancestor at a resolution",
                    notes: "Errors: 1 not an index, 5 not a valid cell, 4 not a resolution,\n\
                        12 a resolution finer than the cell's\n\
                        Example: h3 cellToChildPos -c 85283473fffffff -r 4",
                    usage: "",
                };
            (ChildPosToCell { position, cell, res })
                [hierarchy "childPosToCell              The descendant of a cell at a position"]
                {
                    word: "childPosToCell",
                    options: &[Position, Cell, Resolution],
                    about: "The descendant of a cell at a position among those at a resolution",
                    notes: "Errors: 1 not an index, 5 not a valid cell, 4 not a resolution,\n\
                        12 a resolution coarser than the cell's, 2 position out of range\n\
                        Example: h3 childPosToCell --position 3 -c 85283473fffffff -r 6",
                    usage: "h3 childPosToCell --position <position> -c <cell> -r <resolution>",
                };
            (CompactCells)
                [lists "compactCells                Compact a list of cells"]
                {
                    word: "compactCells",
                    options: with_list_options!(By, ByField),
                    about: "Compact the list of cells on standard input, of any resolutions",
                    notes: "A complete set of siblings becomes its parent. If cells overlap: uniteCells.\n\
                        An error is reported without a line; with --field 1, error 1 or 5 has its line.\n\
                        With --by or --by-field there is a list for each value of that column, in the\n\
                        order of their first rows: each line is a row of the value and a cell.\n\
                        Error 10 then has the line of the first row with its value.\n\
                        Errors: 1 not an index, 5 not a valid cell, 10 overlapping cells\n\
                        Example: h3 compactCells < cells\n\
                        Of a CSV file, whose cells are the list:\n\
                        h3 compactCells --csv --column cell < trips.csv\n\
                        One list for each value of a column:\n\
                        h3 compactCells --csv --column cell --by driver < trips.csv",
                    usage: "h3 compactCells < cells",
                };
            (UncompactCells { res })
                [lists "uncompactCells              The descendants of the cells at a resolution"]
                {
                    word: "uncompactCells",
                    options: with_list_options!(Resolution, By, ByField),
                    about: "The descendants at a resolution of each cell listed on standard input",
                    notes: "An error is reported without a line; with --field 1, error 1 or 5 has its line.\n\
                        With --by or --by-field there is a list for each value of that column, in the\n\
                        order of their first rows: each line is a row of the value and a cell.\n\
                        Error 4 or 12 then has the line of the first row with its value.\n\
                        Errors: 1 not an index, 5 not a valid cell, 4 not a resolution,\n\
                        12 a resolution coarser than a cell's\n\
                        Example: h3 uncompactCells -r 6 < cells\n\
                        Of a CSV file, whose cells are the list:\n\
                        h3 uncompactCells -r 6 --csv --column cell < trips.csv\n\
                        One list for each value of a column:\n\
                        h3 uncompactCells -r 6 --csv --column cell --by driver < trips.csv",
                    usage: "h3 uncompactCells --resolution <resolution> < cells",
                };
            (UncompactCellsSize { res })
                [lists "uncompactCellsSize          How many cells uncompactCells prints"]
                {
                    word: "uncompactCellsSize",
                    options: with_list_options!(Resolution),
                    about: "How many cells uncompactCells prints for the cells listed on standard input",
                    notes: "Cells that repeat or overlap count again.\n\
                        Errors: 1 not an index, 5 not a valid cell, 4 not a resolution,\n\
                        12 a resolution coarser than a cell's\n\
                        Example: h3 uncompactCellsSize -r 6 < cells\n\
                        Of a CSV file, whose cells are the list:\n\
                        h3 uncompactCellsSize -r 6 --csv --column cell < trips.csv",
                    usage: "h3 uncompactCellsSize --resolution <resolution> < cells",
                };
            (UniteCells)
                [lists "uniteCells                  Union of the cells, compacted"]
                {
                    word: "uniteCells",
                    options: with_list_options!(By, ByField),
                    about: "Union of the cells on standard input, compacted; they may repeat and overlap",
                    notes: "With --by or --by-field there is a list for each value of that column, in the\n\
                        order of their first rows: each line is a row of the value and a cell.\n\
                        Errors: 1 not an index, 5 not a valid cell\n\
                        Example: h3 uniteCells < cells\n\
                        Of a CSV file, whose cells are the list:\n\
                        h3 uniteCells --csv --column cell < trips.csv\n\
                        One list for each value of a column:\n\
                        h3 uniteCells --csv --column cell --by driver < trips.csv",
                    usage: "h3 uniteCells < cells",
                };
            (IntersectCells)
                [lists "intersectCells              Intersection of the cells and a region, compacted"]
                {
                    word: "intersectCells",
                    options: with_list_options!(Region, RegionColumn, RegionField, By, ByField),
                    about: "Intersection of the cells on standard input and a region, compacted",
                    notes: "The cells of either may repeat and overlap.\n\
                        With --by or --by-field there is a list for each value of that column, in the\n\
                        order of their first rows: each line is a row of the value and a cell.\n\
                        With --region-column the file is a table with a header, with --region-field one\n\
                        without. Its errors:\n\
                        \x20 region: line 2: error 5: E_CELL_INVALID  its first faulty line, status 1\n\
                        \x20 region: open                             it cannot be opened, status 3\n\
                        \x20 region: column: not found                its header lacks the column, status 3\n\
                        Errors: 1 not an index, 5 not a valid cell\n\
                        Example: h3 intersectCells --region region < cells\n\
                        Of a CSV file, whose cells are the list:\n\
                        h3 intersectCells --region region --csv --column cell < trips.csv\n\
                        Of a region in a CSV file:\n\
                        h3 intersectCells --region region.csv --region-column cell --csv < cells\n\
                        One list for each value of a column:\n\
                        h3 intersectCells --region region --csv --column cell --by driver < trips.csv",
                    usage: "h3 intersectCells --region <region> < cells",
                };
            (SubtractCells)
                [lists "subtractCells               The cells minus a region, compacted"]
                {
                    word: "subtractCells",
                    options: with_list_options!(Region, RegionColumn, RegionField, By, ByField),
                    about: "The cells on standard input minus a region, compacted",
                    notes: "The cells of either may repeat and overlap.\n\
                        With --by or --by-field there is a list for each value of that column, in the\n\
                        order of their first rows: each line is a row of the value and a cell.\n\
                        With --region-column the file is a table with a header, with --region-field one\n\
                        without. Its errors:\n\
                        \x20 region: line 2: error 5: E_CELL_INVALID  its first faulty line, status 1\n\
                        \x20 region: open                             it cannot be opened, status 3\n\
                        \x20 region: column: not found                its header lacks the column, status 3\n\
                        Errors: 1 not an index, 5 not a valid cell\n\
                        Example: h3 subtractCells --region region < cells\n\
                        Of a CSV file, whose cells are the list:\n\
                        h3 subtractCells --region region --csv --column cell < trips.csv\n\
                        Of a region in a CSV file:\n\
                        h3 subtractCells --region region.csv --region-column cell --csv < cells\n\
                        One list for each value of a column:\n\
                        h3 subtractCells --region region --csv --column cell --by driver < trips.csv",
                    usage: "h3 subtractCells --region <region> < cells",
                };
            (AreCoveredCells)
                [lists "areCoveredCells             Whether a region covers each cell"]
                {
                    word: "areCoveredCells",
                    options: with_line_options!(Region, RegionColumn, RegionField),
                    about: "Whether a region covers each cell listed on standard input",
                    notes: "A region covers its cells and their descendants; its cells may overlap.\n\
                        With --region-column the file is a table with a header, with --region-field one\n\
                        without. Its errors:\n\
                        \x20 region: line 2: error 5: E_CELL_INVALID  its first faulty line, status 1\n\
                        \x20 region: open                             it cannot be opened, status 3\n\
                        \x20 region: column: not found                its header lacks the column, status 3\n\
                        Errors: 1 not an index, 5 not a valid cell\n\
                        Example: h3 areCoveredCells --region region < cells\n\
                        Of a CSV file, each row with its answer at the end:\n\
                        h3 areCoveredCells --region region --csv --column cell < trips.csv\n\
                        Of a region in a CSV file:\n\
                        h3 areCoveredCells --region region.csv --region-column cell --csv < cells",
                    usage: "h3 areCoveredCells --region <region> < cells",
                };
            (CellsToZones)
                [lists "cellsToZones                The zone of each cell"]
                {
                    word: "cellsToZones",
                    options: with_line_options!(
                        Zones, ZoneColumn, ZoneField, ZoneName, ZoneNameField, NoZone, Overlapping
                    ),
                    about: "The zone of each cell listed on standard input, or 0 if it has none",
                    notes: "The zone of a cell is the one that is the cell or its ancestor.\n\
                        With --zone-name or --zone-name-field the answer is the zone's name, and for a\n\
                        cell in no zone the text of --none (default: nothing). The cells of one name\n\
                        may overlap. With --overlapping, zones may too: a cell has an answer for each\n\
                        of its zones, coarse ones first, and its row is printed once for each.\n\
                        With --zone-column the file is a table with a header, with --zone-field one\n\
                        without. Its errors:\n\
                        \x20 zones: line 2: error 5: E_CELL_INVALID  its first faulty line, status 1\n\
                        \x20 zones: error 10: E_DUPLICATE_INPUT      overlapping zones, status 1\n\
                        \x20 zones: open                             it cannot be opened, status 3\n\
                        \x20 zones: column: not found                its header lacks the column, status 3\n\
                        Errors: 1 not an index, 5 not a valid cell, 10 overlapping zones\n\
                        Example: h3 cellsToZones --zones zones < cells\n\
                        Of a CSV file, each row with its zone at the end:\n\
                        h3 cellsToZones --zones zones --csv --column cell < trips.csv\n\
                        Of zones in a CSV file:\n\
                        h3 cellsToZones --zones zones.csv --zone-column cell --csv < cells\n\
                        By the names of such zones:\n\
                        h3 cellsToZones --zones z.csv --zone-column cell --zone-name name --csv < cells",
                    usage: "h3 cellsToZones --zones <zones> < cells",
                };
            (CountCellsInZones)
                [lists "countCellsInZones           Count the cells in each zone"]
                {
                    word: "countCellsInZones",
                    options: with_list_options!(
                        Zones, ZoneColumn, ZoneField, ZoneName, ZoneNameField, NoZone, Overlapping, Sum, SumField
                    ),
                    about: "Count the cells on standard input in each zone, and those in none",
                    notes: "Each line has a zone and its count; the last one has 0 and the count of cells\n\
                        in no zone. The zone of a cell is the one that is the cell or its ancestor.\n\
                        With --zone-name or --zone-name-field each row has a zone's name and its count,\n\
                        in the order of the file, under a header if the file or the list has one; the\n\
                        last has the text of --none (default: nothing). With --overlapping, zones with\n\
                        names may overlap: a cell counts in each of its zones.\n\
                        With --sum or --sum-field the answer is a table too, and each row ends with the\n\
                        exact sum of that column over the cells that it counts; a blank field is 0:\n\
                        \x20 line 2: sum: not a number               its first bad number, status 1\n\
                        With --zone-column the file is a table with a header, with --zone-field one\n\
                        without. Its errors:\n\
                        \x20 zones: line 2: error 5: E_CELL_INVALID  its first faulty line, status 1\n\
                        \x20 zones: error 10: E_DUPLICATE_INPUT      overlapping zones, status 1\n\
                        \x20 zones: open                             it cannot be opened, status 3\n\
                        \x20 zones: column: not found                its header lacks the column, status 3\n\
                        Errors: 1 not an index, 5 not a valid cell, 10 overlapping zones\n\
                        Example: h3 countCellsInZones --zones zones < cells\n\
                        Of a CSV file, whose cells are the list:\n\
                        h3 countCellsInZones --zones zones --csv --column cell < trips.csv\n\
                        Of zones in a CSV file:\n\
                        h3 countCellsInZones --zones zones.csv --zone-column cell --csv < cells\n\
                        By the names of such zones:\n\
                        h3 countCellsInZones --zones z --zone-column cell --zone-name name --csv < cells",
                    usage: "h3 countCellsInZones --zones <zones> < cells",
                };
            (CountCellsInParents { res })
                [lists "countCellsInParents         Count the cells in each ancestor at a resolution"]
                {
                    word: "countCellsInParents",
                    options: with_list_options!(Resolution, Sum, SumField),
                    about: "Count the cells on standard input in each of their ancestors at a resolution",
                    notes: "Each line has an ancestor and its count, ascending. A cell that repeats counts\n\
                        again. Of rows the answer is a table, under a header if the list has one.\n\
                        With --sum or --sum-field each row ends with the exact sum of that column over\n\
                        the cells that it counts; a blank field is 0:\n\
                        \x20 line 2: sum: not a number               its first bad number, status 1\n\
                        Errors: 1 not an index, 5 not a valid cell, 4 not a resolution,\n\
                        12 a resolution finer than the cell's\n\
                        Example: h3 countCellsInParents -r 4 < cells\n\
                        Of a CSV file, whose cells are the list:\n\
                        h3 countCellsInParents -r 4 --csv --column cell < trips.csv\n\
                        With the sum of a column:\n\
                        h3 countCellsInParents -r 4 --csv --column cell --sum fare < trips.csv",
                    usage: "h3 countCellsInParents --resolution <resolution> < cells",
                };
            (GridDiskUnsafe { cell, k })
                [table "gridDiskUnsafe              The cells within a radius of a cell, ring by ring"]
                {
                    word: "gridDiskUnsafe",
                    options: &[Cell, Radius, Table],
                    about: "The cells within a radius of a cell, ring by ring",
                    notes: "Errors: 1 not an index, 5 not a valid cell,\n\
                        9 a step that starts or ends in a pentagon base cell\n\
                        Example: h3 gridDiskUnsafe -c 85283473fffffff -k 1 --table h3.csv\n\
                        To make a table from H3's source: h3-table baseCells.c -o h3.csv",
                    usage: "",
                };
            (GridDiskDistancesUnsafe { cell, k })
                [table "gridDiskDistancesUnsafe     The same, each with the number of its ring"]
                {
                    word: "gridDiskDistancesUnsafe",
                    options: &[Cell, Radius, Table],
                    about: "The cells within a radius of a cell, each with the number of its ring",
                    notes: "Errors: 1 not an index, 5 not a valid cell,\n\
                        9 a step that starts or ends in a pentagon base cell\n\
                        Example: h3 gridDiskDistancesUnsafe -c 85283473fffffff -k 1 --table h3.csv\n\
                        To make a table from H3's source: h3-table baseCells.c -o h3.csv",
                    usage: "",
                };
            (GridRingUnsafe { cell, k })
                [table "gridRingUnsafe              The cells of the ring of a radius around a cell"]
                {
                    word: "gridRingUnsafe",
                    options: &[Cell, Radius, Table],
                    about: "The cells of the ring of a radius around a cell",
                    notes: "Errors: 1 not an index, 5 not a valid cell,\n\
                        9 a step that starts or ends in a pentagon base cell\n\
                        Example: h3 gridRingUnsafe -c 85283473fffffff -k 1 --table h3.csv\n\
                        To make a table from H3's source: h3-table baseCells.c -o h3.csv",
                    usage: "",
                };
            (AreNeighborCells { cell, to })
                [table "areNeighborCells            Whether two cells are neighbors"]
                {
                    word: "areNeighborCells",
                    options: &[Cell, To, Table],
                    about: "Whether two cells are neighbors",
                    notes: "Error 1 or 5 is that of -c, if it has one, else that of --to.\n\
                        Errors: 1 not an index, 5 not a valid cell, 12 different resolutions,\n\
                        9 a step that starts or ends in a pentagon base cell\n\
                        Example:\n\
                        h3 areNeighborCells -c 85283473fffffff --to 85283477fffffff --table h3.csv\n\
                        To make a table from H3's source: h3-table baseCells.c -o h3.csv",
                    usage: "",
                };
            (CellsToDirectedEdge { cell, to })
                [table "cellsToDirectedEdge         The directed edge from a cell to its neighbor"]
                {
                    word: "cellsToDirectedEdge",
                    options: &[Cell, To, Table],
                    about: "The directed edge from a cell to its neighbor",
                    notes: "Error 1 or 5 is that of -c, if it has one, else that of --to.\n\
                        Errors: 1 not an index, 5 not a valid cell, 12 different resolutions,\n\
                        11 not neighbors, 9 a step that starts or ends in a pentagon base cell\n\
                        Example:\n\
                        h3 cellsToDirectedEdge -c 85283473fffffff --to 85283477fffffff --table h3.csv\n\
                        To make a table from H3's source: h3-table baseCells.c -o h3.csv",
                    usage: "",
                };
            (ForOne(IsValidDirectedEdge) of edge)
                [edges "isValidDirectedEdge         Whether an index is a valid directed edge"]
                {
                    word: "isValidDirectedEdge",
                    options: &[Edge],
                    about: "Whether an index is a valid directed edge",
                    notes: "Errors: 1 not an index\n\
                        Example: h3 isValidDirectedEdge --edge 115283473fffffff",
                    usage: "",
                };
            (ForOne(GetDirectedEdgeOrigin) of edge)
                [edges "getDirectedEdgeOrigin       The cell that a directed edge leaves"]
                {
                    word: "getDirectedEdgeOrigin",
                    options: &[Edge],
                    about: "The cell that a directed edge leaves",
                    notes: "Errors: 1 not an index, 6 not a valid edge\n\
                        Example: h3 getDirectedEdgeOrigin --edge 115283473fffffff",
                    usage: "",
                };
            (GetDirectedEdgeDestination { edge })
                [table "getDirectedEdgeDestination  The cell that a directed edge leads to"]
                {
                    word: "getDirectedEdgeDestination",
                    options: &[Edge, Table],
                    about: "The cell that a directed edge leads to",
                    notes: "Errors: 1 not an index, 6 not a valid edge,\n\
                        9 a step that starts or ends in a pentagon base cell\n\
                        Example: h3 getDirectedEdgeDestination --edge 115283473fffffff --table h3.csv\n\
                        To make a table from H3's source: h3-table baseCells.c -o h3.csv",
                    usage: "",
                };
            (ForOne(OriginToDirectedEdges) of cell)
                [edges "originToDirectedEdges       The directed edges that leave a cell"]
                {
                    word: "originToDirectedEdges",
                    options: &[Cell],
                    about: "The directed edges that leave a cell",
                    notes: "Errors: 1 not an index, 5 not a valid cell\n\
                        Example: h3 originToDirectedEdges -c 85283473fffffff",
                    usage: "",
                };
            (ForEach(IsValidCell))
                [lists "areValidCells               Whether each index is a valid cell"]
                {
                    word: "areValidCells",
                    options: with_line_options!(),
                    about: "Whether each index listed on standard input is a valid cell",
                    notes: "Errors: 1 not an index\n\
                        Example: h3 areValidCells < cells\n\
                        Of a CSV file, each row with its answer at the end:\n\
                        h3 areValidCells --csv --column cell < trips.csv",
                    usage: "h3 areValidCells < cells",
                };
            (ForEach(IsValidDirectedEdge))
                [lists "areValidDirectedEdges       Whether each index is a valid directed edge"]
                {
                    word: "areValidDirectedEdges",
                    options: with_line_options!(),
                    about: "Whether each index listed on standard input is a valid directed edge",
                    notes: "Errors: 1 not an index\n\
                        Example: h3 areValidDirectedEdges < edges\n\
                        Of a CSV file, each row with its answer at the end:\n\
                        h3 areValidDirectedEdges --csv --column edge < trips.csv",
                    usage: "h3 areValidDirectedEdges < edges",
                };
            (ForEach(GetResolution))
                [lists "getResolutions              The resolution of each cell"]
                {
                    word: "getResolutions",
                    options: with_line_options!(),
                    about: "The resolution of each cell listed on standard input",
                    notes: "Errors: 1 not an index, 5 not a valid cell\n\
                        Example: h3 getResolutions < cells\n\
                        Of a CSV file, each row with its answer at the end:\n\
                        h3 getResolutions --csv --column cell < trips.csv",
                    usage: "h3 getResolutions < cells",
                };
            (ForEach(GetBaseCellNumber))
                [lists "getBaseCellNumbers          The base cell of each cell"]
                {
                    word: "getBaseCellNumbers",
                    options: with_line_options!(),
                    about: "The base cell of each cell listed on standard input",
                    notes: "Errors: 1 not an index, 5 not a valid cell\n\
                        Example: h3 getBaseCellNumbers < cells\n\
                        Of a CSV file, each row with its answer at the end:\n\
                        h3 getBaseCellNumbers --csv --column cell < trips.csv",
                    usage: "h3 getBaseCellNumbers < cells",
                };
            (ForEach(IsPentagon))
                [lists "arePentagons                Whether each cell is a pentagon"]
                {
                    word: "arePentagons",
                    options: with_line_options!(),
                    about: "Whether each cell listed on standard input is a pentagon",
                    notes: "Errors: 1 not an index, 5 not a valid cell\n\
                        Example: h3 arePentagons < cells\n\
                        Of a CSV file, each row with its answer at the end:\n\
                        h3 arePentagons --csv --column cell < trips.csv",
                    usage: "h3 arePentagons < cells",
                };
            (ForEach(IsResClassIII))
                [lists "areResClassIII              Whether the resolution of each cell is Class III"]
                {
                    word: "areResClassIII",
                    options: with_line_options!(),
                    about: "Whether the resolution of each cell listed on standard input is Class III",
                    notes: "Errors: 1 not an index, 5 not a valid cell\n\
                        Example: h3 areResClassIII < cells\n\
                        Of a CSV file, each row with its answer at the end:\n\
                        h3 areResClassIII --csv --column cell < trips.csv",
                    usage: "h3 areResClassIII < cells",
                };
            (ForEach(CellToParent { res }))
                [lists "cellsToParents              The ancestor of each cell at a resolution"]
                {
                    word: "cellsToParents",
                    options: with_line_options!(Resolution),
                    about: "The ancestor at a resolution of each cell listed on standard input",
                    notes: "Errors: 1 not an index, 5 not a valid cell, 4 not a resolution,\n\
                        12 a resolution finer than the cell's\n\
                        Example: h3 cellsToParents -r 4 < cells\n\
                        Of a CSV file, each row with its answer at the end:\n\
                        h3 cellsToParents -r 4 --csv --column cell < trips.csv",
                    usage: "h3 cellsToParents --resolution <resolution> < cells",
                };
            (ForEach(CellToCenterChild { res }))
                [lists "cellsToCenterChildren       The center descendant of each cell"]
                {
                    word: "cellsToCenterChildren",
                    options: with_line_options!(Resolution),
                    about: "The center descendant at a resolution of each cell listed on standard input",
                    notes: "Errors: 1 not an index, 5 not a valid cell,\n\
                        4 not a resolution from the cell's to 15\n\
                        Example: h3 cellsToCenterChildren -r 6 < cells\n\
                        Of a CSV file, each row with its answer at the end:\n\
                        h3 cellsToCenterChildren -r 6 --csv --column cell < trips.csv",
                    usage: "h3 cellsToCenterChildren --resolution <resolution> < cells",
                };
            (ForEach(CellToLastChild { res }))
                [lists "cellsToLastChildren         The last descendant of each cell"]
                {
                    word: "cellsToLastChildren",
                    options: with_line_options!(Resolution),
                    about: "The last descendant at a resolution of each cell listed on standard input",
                    notes: "Errors: 1 not an index, 5 not a valid cell,\n\
                        4 not a resolution from the cell's to 15\n\
                        Example: h3 cellsToLastChildren -r 6 < cells\n\
                        Of a CSV file, each row with its answer at the end:\n\
                        h3 cellsToLastChildren -r 6 --csv --column cell < trips.csv",
                    usage: "h3 cellsToLastChildren --resolution <resolution> < cells",
                };
            (CellsToChildren { res })
                [lists "cellsToChildren             The descendants of each cell at a resolution"]
                {
                    word: "cellsToChildren",
                    options: with_line_options!(Resolution),
                    about: "The descendants at a resolution of each cell listed on standard input, ascending",
                    notes: "Errors: 1 not an index, 5 not a valid cell,\n\
                        4 not a resolution from the cell's to 15\n\
                        Example: h3 cellsToChildren -r 6 < cells\n\
                        Of a CSV file, each row once for each answer, which is at the end:\n\
                        h3 cellsToChildren -r 6 --csv --column cell < trips.csv",
                    usage: "h3 cellsToChildren --resolution <resolution> < cells",
                };
            (ForEach(CellToChildrenSize { res }))
                [lists "cellsToChildrenSizes        How many descendants each cell has"]
                {
                    word: "cellsToChildrenSizes",
                    options: with_line_options!(Resolution),
                    about: "How many descendants at a resolution each cell listed on standard input has",
                    notes: "Errors: 1 not an index, 5 not a valid cell,\n\
                        4 not a resolution from the cell's to 15\n\
                        Example: h3 cellsToChildrenSizes -r 6 < cells\n\
                        Of a CSV file, each row with its answer at the end:\n\
                        h3 cellsToChildrenSizes -r 6 --csv --column cell < trips.csv",
                    usage: "h3 cellsToChildrenSizes --resolution <resolution> < cells",
                };
            (ForEach(CellToChildPos { res }))
                [lists "cellsToChildPositions       The position of each cell below an ancestor"]
                {
                    word: "cellsToChildPositions",
                    options: with_line_options!(Resolution),
                    about: "The position below its ancestor at a resolution of each cell on standard input",
                    notes: "Errors: 1 not an index, 5 not a valid cell, 4 not a resolution,\n\
                        12 a resolution finer than the cell's\n\
                        Example: h3 cellsToChildPositions -r 4 < cells\n\
                        Of a CSV file, each row with its answer at the end:\n\
                        h3 cellsToChildPositions -r 4 --csv --column cell < trips.csv",
                    usage: "h3 cellsToChildPositions --resolution <resolution> < cells",
                };
            (GridDisksUnsafe { k })
                [lists "gridDisksUnsafe             The cells within a radius of each cell"]
                {
                    word: "gridDisksUnsafe",
                    options: with_line_options!(Radius, Table),
                    about: "The cells within a radius of each cell listed on standard input, ring by ring",
                    notes: "A walk that meets an error prints none of its cells.\n\
                        Errors: 1 not an index, 5 not a valid cell,\n\
                        9 a step that starts or ends in a pentagon base cell\n\
                        Example: h3 gridDisksUnsafe -k 1 --table h3.csv < cells\n\
                        Of a CSV file, each row once for each answer, which is at the end:\n\
                        h3 gridDisksUnsafe -k 1 --table h3.csv --csv --column cell < trips.csv\n\
                        To make a table from H3's source: h3-table baseCells.c -o h3.csv",
                    usage: "h3 gridDisksUnsafe -k <k> --table <table> < cells",
                };
            (GridDisksDistancesUnsafe { k })
                [lists "gridDisksDistancesUnsafe    The same, each with the number of its ring"]
                {
                    word: "gridDisksDistancesUnsafe",
                    options: with_line_options!(Radius, Table),
                    about: "The cells within a radius of each cell on standard input, each with its ring",
                    notes: "A walk that meets an error prints none of its cells.\n\
                        Errors: 1 not an index, 5 not a valid cell,\n\
                        9 a step that starts or ends in a pentagon base cell\n\
                        Example: h3 gridDisksDistancesUnsafe -k 1 --table h3.csv < cells\n\
                        Of a CSV file, each row once for each answer, which is at the end:\n\
                        h3 gridDisksDistancesUnsafe -k 1 --table h3.csv --csv --column cell < trips.csv\n\
                        To make a table from H3's source: h3-table baseCells.c -o h3.csv",
                    usage: "h3 gridDisksDistancesUnsafe -k <k> --table <table> < cells",
                };
            (GridRingsUnsafe { k })
                [lists "gridRingsUnsafe             The cells of the ring of a radius around each cell"]
                {
                    word: "gridRingsUnsafe",
                    options: with_line_options!(Radius, Table),
                    about: "The cells of the ring of a radius around each cell listed on standard input",
                    notes: "A walk that meets an error prints none of its cells.\n\
                        Errors: 1 not an index, 5 not a valid cell,\n\
                        9 a step that starts or ends in a pentagon base cell\n\
                        Example: h3 gridRingsUnsafe -k 1 --table h3.csv < cells\n\
                        Of a CSV file, each row once for each answer, which is at the end:\n\
                        h3 gridRingsUnsafe -k 1 --table h3.csv --csv --column cell < trips.csv\n\
                        To make a table from H3's source: h3-table baseCells.c -o h3.csv",
                    usage: "h3 gridRingsUnsafe -k <k> --table <table> < cells",
                };
            (ForEach(GetDirectedEdgeOrigin))
                [lists "getDirectedEdgeOrigins      The cell that each directed edge leaves"]
                {
                    word: "getDirectedEdgeOrigins",
                    options: with_line_options!(),
                    about: "The cell that each directed edge listed on standard input leaves",
                    notes: "Errors: 1 not an index, 6 not a valid edge\n\
                        Example: h3 getDirectedEdgeOrigins < edges\n\
                        Of a CSV file, each row with its answer at the end:\n\
                        h3 getDirectedEdgeOrigins --csv --column edge < trips.csv",
                    usage: "h3 getDirectedEdgeOrigins < edges",
                };
            (GetDirectedEdgeDestinations)
                [lists "getDirectedEdgeDestinations The cell that each directed edge leads to"]
                {
                    word: "getDirectedEdgeDestinations",
                    options: with_line_options!(Table),
                    about: "The cell that each directed edge listed on standard input leads to",
                    notes: "Errors: 1 not an index, 6 not a valid edge,\n\
                        9 a step that starts or ends in a pentagon base cell\n\
                        Example: h3 getDirectedEdgeDestinations --table h3.csv < edges\n\
                        Of a CSV file, each row with its answer at the end:\n\
                        h3 getDirectedEdgeDestinations --table h3.csv --csv --column edge < trips.csv\n\
                        To make a table from H3's source: h3-table baseCells.c -o h3.csv",
                    usage: "h3 getDirectedEdgeDestinations --table <table> < edges",
                };
            (ForEach(OriginToDirectedEdges))
                [lists "originsToDirectedEdges      The directed edges that leave each cell"]
                {
                    word: "originsToDirectedEdges",
                    options: with_line_options!(),
                    about: "The directed edges that leave each cell listed on standard input",
                    notes: "Errors: 1 not an index, 5 not a valid cell\n\
                        Example: h3 originsToDirectedEdges < cells\n\
                        Of a CSV file, each row once for each answer, which is at the end:\n\
                        h3 originsToDirectedEdges --csv --column cell < trips.csv",
                    usage: "h3 originsToDirectedEdges < cells",
                };
        }
    };
}

pub(crate) use commands;
pub(crate) use with_line_options;
pub(crate) use with_list_options;
