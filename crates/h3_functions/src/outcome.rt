//! H3's functions of one index, all in one.

ghost use Rattle.std.specs.Prelude.{◌≡◌};
ghost use Rattle.h3_functions.specs.Outcome.{function_name, outcome_of};

use crate::edges::*;
use crate::hierarchy::*;
use crate::inspection::*;
use h3_index::{Cell, H3Error};
use h3_requests::IndexFunction::{self, *};

/// What a function of one index returns, by its kind.
#[derive(Drop)]
pub enum Outcome {
    /// A truth value.
    Truth(Result<bool, H3Error>),

    /// A resolution, or a base cell.
    Number(Result<u8, H3Error>),

    /// A number of descendants, or a position among them.
    Count(Result<u64, H3Error>),

    /// A cell.
    Cell(Result<Cell, H3Error>),

    /// The edges that leave the cell with this index, by `origin_to_directed_edges`.
    Edges(u64),
}

// The table of the functions of one index: `index_functions!(m! ARGS)` expands to `m! { ARGS ROWS }`. A row has the
// function with what else the words give it, H3's name, and the kind of what it returns with the Rust function that
// returns it. `Known` is a truth value without an error; of `Edges` the caller calls the function.
macro_rules! index_functions {
    ($made:ident! $($before:tt)*) => {
        $made! {
            $($before)*
            IsValidCell "isValidCell" Known is_valid_cell;
            IsValidDirectedEdge "isValidDirectedEdge" Known is_valid_directed_edge;
            GetResolution "getResolution" Number get_resolution;
            GetBaseCellNumber "getBaseCellNumber" Number get_base_cell_number;
            IsPentagon "isPentagon" Truth is_pentagon;
            IsResClassIII "isResClassIII" Truth is_res_class_iii;
            CellToParent { res } "cellToParent" Cell cell_to_parent;
            CellToCenterChild { res } "cellToCenterChild" Cell cell_to_center_child;
            CellToLastChild { res } "cellToLastChild" Cell cell_to_last_child;
            CellToChildrenSize { res } "cellToChildrenSize" Count cell_to_children_size;
            CellToChildPos { res } "cellToChildPos" Count cell_to_child_pos;
            GetDirectedEdgeOrigin "getDirectedEdgeOrigin" Cell get_directed_edge_origin;
            OriginToDirectedEdges "originToDirectedEdges" Edges origin_to_directed_edges;
        }
    };
}

// What a function of a kind returns for an index.
macro_rules! outcome {
    (Known $function:ident $index:ident) => {
        Outcome::Truth(Ok($function($index)))
    };
    (Edges $function:ident $index:ident) => {
        Outcome::Edges($index)
    };
    ($kind:ident $function:ident $index:ident $($given:ident)?) => {
        Outcome::$kind($function($index $(, $given)?))
    };
}

// What the function of a row returns for an index, where the row is that of this one.
macro_rules! outcome_of_function {
    ($value:ident $index:ident; $($case:ident $({ $given:ident })? $name:literal $kind:ident $function:ident;)*) => {
        match $value {
            $($case $({ $given })? => outcome!($kind $function $index $($given)?)),*
        }
    };
}

// The name of the row of this function.
macro_rules! name_of_function {
    ($value:ident; $($case:ident $({ $given:ident })? $name:literal $kind:ident $function:ident;)*) => {
        match $value {
            $($case $({ $given: _ })? => $name),*
        }
    };
}

/// What a function returns for an index.
#[inline(always)]
pub fn outcome_of(function: IndexFunction, index: u64) -> Outcome
    ensures { result ≡ outcome_of function index }
{
    index_functions!(outcome_of_function! function index;)
}

/// The name of H3's function, as `cellToParent`.
pub fn function_name(function: IndexFunction) -> &'static str
    ensures { result.now ≡ function_name function }
{
    index_functions!(name_of_function! function;)
}
