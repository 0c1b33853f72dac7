//! Directed edges, where no table is needed.

ghost use Rattle.std.specs.Prelude.{◌≡◌, Ok, map, length, negsuc};
ghost use Rattle.std.specs.Result.{result_unwrap_or};
ghost use Rattle.h3_functions.specs.Edges.{get_directed_edge_origin, is_valid_directed_edge, origin_to_directed_edges};
ghost use Rattle.h3_c.specs.Column.{column_code, column_over, place_over};
ghost use Rattle.h3_c.specs.Edges.{edge_or_null, edges_or_nulls};
ghost use Rattle.h3_c.specs.Outcome.{code_of, index_of, truth, truth_of};

use crate::column::{NO_NUMBER, NULL, fill};
use crate::functions::{int, word};
use crate::outcome::put;
use h3_functions::cell_from;
use h3_index::{Cell, Edge};
use h3_requests::IndexFunction::*;

/// H3's `isValidDirectedEdge`.
#[unsafe(no_mangle)]
pub extern "C" fn h3w_isValidDirectedEdge(h: u64) -> i32
    ensures { result ≡ truth (is_valid_directed_edge h) }
{
    int(IsValidDirectedEdge, h).unwrap_or(0)
}

/// [`h3w_isValidDirectedEdge`] of each index.
#[unsafe(no_mangle)]
pub extern "C" fn h3w_areValidDirectedEdges(edges: &[u64], out: &mut [i32], at: &mut usize) -> u32
    ensures code { result
        ≡ column_code (map (λ h. truth_of (Ok (is_valid_directed_edge h))) edges.now)
        (length out.old) }
    ensures values { out.new
        ≡ column_over (negsuc 0) (map (λ h. truth_of (Ok (is_valid_directed_edge h))) edges.now)
        out.old }
    ensures place { at.new
        ≡ place_over (map (λ h. truth_of (Ok (is_valid_directed_edge h))) edges.now)
        (length out.old) at.old }
{
    fill(&IsValidDirectedEdge, edges, NO_NUMBER, out, at)
}

/// H3's `getDirectedEdgeOrigin`.
#[unsafe(no_mangle)]
pub extern "C" fn h3w_getDirectedEdgeOrigin(h: u64, out: &mut u64) -> u32
    ensures code { result ≡ code_of (index_of (get_directed_edge_origin h)) }
    ensures value { out.new ≡ result_unwrap_or (index_of (get_directed_edge_origin h)) out.old }
{
    put(out, word(GetDirectedEdgeOrigin, h))
}

/// [`h3w_getDirectedEdgeOrigin`] of each index.
#[unsafe(no_mangle)]
pub extern "C" fn h3w_getDirectedEdgeOrigins(edges: &[u64], out: &mut [u64], at: &mut usize) -> u32
    ensures code { result
        ≡ column_code (map (λ h. index_of (get_directed_edge_origin h)) edges.now)
        (length out.old) }
    ensures values { out.new
        ≡ column_over 0 (map (λ h. index_of (get_directed_edge_origin h)) edges.now)
        out.old }
    ensures place { at.new
        ≡ place_over (map (λ h. index_of (get_directed_edge_origin h)) edges.now)
        (length out.old) at.old }
{
    fill(&GetDirectedEdgeOrigin, edges, NULL, out, at)
}

/// The index of the edge of a cell in a direction, or H3's null where there is none.
fn edge_or_null(cell: Cell, direction: u8) -> u64
    ensures { result ≡ edge_or_null cell direction }
{
    match Edge::from_parts(cell, direction) {
        Ok(edge) => edge.raw(),
        Err(_) => NULL,
    }
}

/// H3's `originToDirectedEdges`.
#[unsafe(no_mangle)]
pub extern "C" fn h3w_originToDirectedEdges(h: u64, out: &mut [u64; 6]) -> u32
    ensures code { result ≡ code_of (edges_or_nulls (origin_to_directed_edges h)) }
    ensures value { out.new
        ≡ result_unwrap_or (edges_or_nulls (origin_to_directed_edges h)) out.old }
{
    match cell_from(h) {
        Ok(cell) => {
            *out = [
                edge_or_null(cell, 1),
                edge_or_null(cell, 2),
                edge_or_null(cell, 3),
                edge_or_null(cell, 4),
                edge_or_null(cell, 5),
                edge_or_null(cell, 6),
            ];
            0
        }
        Err(error) => u32::from(error.number()),
    }
}
