//! Cells and edges as texts: `Display` writes them and `FromStr` parses them, for `{}`,
//! `to_string` and `parse`.

ghost use Rattle.std.specs.Prelude.{◌≡◌, Some};
ghost use Rattle.std.specs.Fmt.{padded};
ghost use Rattle.h3_index.specs.Cell.{number_of};
ghost use Rattle.h3_index.specs.Display.{cell_of_text, edge_of_text};
ghost use Rattle.h3_index.specs.Edge.{edge_number};
ghost use Rattle.h3_index.specs.Text.{text_of};

use crate::cell::Cell;
use crate::edge::Edge;
use crate::error::H3Error;
use crate::text::{read_index, write_index};
use std::fmt;
use std::str::FromStr;

/// The text of the cell's index, as `write_index` returns it.
impl fmt::Display for Cell {
    ghost output = { λ cell. Some (text_of (number_of cell)) };

    ghost styled_output = { λ cell spec. Some (padded spec (text_of (number_of cell))) };

    fn fmt<W: fmt::Write>(&self, f: &mut fmt::Formatter<W>) -> fmt::Result {
        f.pad(write_index(self.raw()).as_str())
    }
}

/// The text of the edge's index, as `write_index` returns it.
impl fmt::Display for Edge {
    ghost output = { λ edge. Some (text_of (edge_number edge)) };

    ghost styled_output = { λ edge spec. Some (padded spec (text_of (edge_number edge))) };

    fn fmt<W: fmt::Write>(&self, f: &mut fmt::Formatter<W>) -> fmt::Result {
        let text = write_index(self.raw());
        f.pad(text.as_str())
    }
}

/// The cell that a text parses as: its index as `read_index` returns it, `Failed` where it is none;
/// `CellInvalid` for the index of no cell.
impl FromStr for Cell {
    type Err = H3Error;

    ghost from_str_gives = { λ text result. result ≡ cell_of_text text };

    fn from_str(text: &str) -> Result<Cell, H3Error> {
        Cell::new(read_index(text.as_bytes())?)
    }
}

/// The edge that a text parses as: its index as `read_index` returns it, `Failed` where it is none;
/// `DirEdgeInvalid` for the index of no edge.
impl FromStr for Edge {
    type Err = H3Error;

    ghost from_str_gives = { λ text result. result ≡ edge_of_text text };

    fn from_str(text: &str) -> Result<Edge, H3Error> {
        Edge::new(read_index(text.as_bytes())?)
    }
}
