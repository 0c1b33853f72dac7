//! Directed edges, each a cell and a direction in which it leaves the cell.

ghost use Rattle.std.specs.Prelude.{◌≡◌, ◌≢◌, ◌+◌, ◌%◌, ◌^◌, IfOk, IfErr};
ghost use Rattle.std.specs.Result.{result_ok, result_err};
ghost use Rattle.h3_index.specs.Edge.{DirectedEdge, IsEdge, direction_refusal, directed_edge, edge_number, has_edge};
ghost use Rattle.h3_index.specs.EdgeNumber.{edge_in};

use crate::cell::Cell;
use crate::error::H3Error;
use std::marker::Model;

/// The number with the mode of a cell and no direction: that of the origin,
/// where the number is an edge's.
fn origin_number(raw: u64) -> u64
    ensures { result ≡ raw % 2 ^ 56 + 2 ^ 59 }
{
    (raw & 0x00ff_ffff_ffff_ffff) + (1 << 59)
}

/// Whether a cell has an edge in the direction of a digit: in each of 1 to
/// 6, except 1 (K) at a pentagon.
fn has_edge(cell: Cell, direction: u8) -> bool
    ensures { result ≡ has_edge cell direction }
{
    direction > 0 && direction < 7 && !(direction == 1 && cell.is_pentagon())
}

/// A valid H3 directed edge: it leaves its origin, a cell, in one of the six directions. Edges are
/// ordered by their numbers: by direction, then as the cells that they leave.
#[derive(Clone, Copy, Debug, PartialEq, Eq, PartialOrd, Ord, Hash)]
pub struct Edge {
    raw: u64,
}

impl Model for Edge {
    ghost use Rattle.h3_index.specs.Edge.{DirectedEdge, edge_number};
    ghost use Rattle.h3_index.specs.EdgeNumber.{directed_edge_in, IsEdgeNumber};

    ghost Value = { DirectedEdge };

    ghost view = { λ e. directed_edge_in e.raw };

    ghost invariant = { λ e. IsEdgeNumber e.raw };

    ghost inverse = { λ e. record { raw = edge_number e } };

    ghost inverse_ok = { λ e h i. record { raw = h.is i } };
}

impl Edge {
    /// Returns the edge with this number, as H3's `isValidDirectedEdge` tests it.
    ///
    /// # Errors
    ///
    /// `DirEdgeInvalid` if the number is not a valid edge.
    pub fn new(raw: u64) -> Result<Edge, H3Error>
        ensures read { result_ok result ≡ edge_in raw }
        ensures accepted { IfOk result (λ edge. IsEdge edge × (edge_number edge ≡ raw)) }
        ensures refused { IfErr result (λ e. (e ≡ H3Error.DirEdgeInvalid)
            × ((edge : DirectedEdge) → IsEdge edge → edge_number edge ≢ raw)) }
    {
        if raw >> 59 != 2 {
            return Err(H3Error::DirEdgeInvalid);
        }
        match Cell::new(origin_number(raw)) {
            Ok(origin) => Edge::from_parts(origin, (raw >> 56 & 7) as u8),
            Err(_) => Err(H3Error::DirEdgeInvalid),
        }
    }

    /// Returns the edge that leaves a cell in the direction of a digit. H3 has no public function
    /// for it.
    ///
    /// # Errors
    ///
    /// `DirEdgeInvalid` if the digit is not 1 to 6, or is 1 (K) at a pentagon.
    pub fn from_parts(origin: Cell, direction: u8) -> Result<Edge, H3Error>
        ensures made { IfOk result (λ edge. (edge ≡ directed_edge origin direction) × IsEdge edge) }
        ensures refused { result_err result ≡ direction_refusal origin direction }
        ensures none { IfErr result (λ _. ¬ IsEdge (directed_edge origin direction)) }
    {
        if !has_edge(origin, direction) {
            return Err(H3Error::DirEdgeInvalid);
        }
        Ok(Edge {
            raw: origin.raw() + (1 << 59) + (u64::from(direction) << 56),
        })
    }

    /// The number of the edge.
    pub fn raw(self) -> u64
        ensures number { result ≡ edge_number self }
        ensures valid { IsEdge self }
    {
        self.raw
    }

    /// The cell that the edge leaves, as H3's `getDirectedEdgeOrigin` returns it.
    pub fn origin(self) -> Cell
        ensures is { result ≡ self.origin }
        ensures valid { IsEdge self }
    {
        Cell::from_number(origin_number(self.raw))
    }

    /// The digit of the direction in which the edge leaves its origin, 1 to 6.
    pub fn direction(self) -> u8
        ensures number { result ≡ self.direction }
        ensures valid { IsEdge self }
    {
        (self.raw >> 56 & 7) as u8
    }
}
