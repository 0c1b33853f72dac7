//! Laws of the definitions that contracts here cite. Each function does nothing; what it ensures is
//! a law that holds always, for the proofs of crates that call it.

ghost use Rattle.std.specs.Prelude.{◌≡◌, ◌==◌, Some};
ghost use Rattle.std.specs.Ordering.{nat_cmp};
ghost use Rattle.std.specs.Hash as fed;
ghost use Rattle.h3_index.specs.Cell.{Address, number_of};
ghost use Rattle.h3_index.specs.Count.{CellsUpToAreListed};
ghost use Rattle.h3_index.specs.Edge.{DirectedEdge, edge_number};
ghost use Rattle.h3_index.specs.declared.error.H3Error.{H3Error};
ghost use Rattle.h3_index.specs.Laws.{EdgeNumbersFollowFields, NumbersFollowFields, NumbersAreRead, NumbersAreUnique, CutsAreCells, DescendantsAreListed, DescendantsAscend, HexagonsHaveSevens, PentagonsHaveFewer, PathsAreChains};

use crate::cell::Cell;
use crate::edge::Edge;
use crate::error::H3Error;
use std::hash::Hash;

/// Cells are equal, ordered and hashed as their numbers are, and numbers are ordered by resolution,
/// then base cell, then digits.
pub fn cells_compare_by_number()
    ensures equal { (a b : Address) →
        ⟦<Cell as PartialEq>⟧.eq a b ≡ (number_of a == number_of b) }
    ensures order { (a b : Address) →
        ⟦<Cell as Ord>⟧.cmp a b ≡ nat_cmp (number_of a) (number_of b) }
    ensures partial { (a b : Address) →
        ⟦<Cell as PartialOrd>⟧.partial_cmp a b ≡ Some (nat_cmp (number_of a) (number_of b)) }
    ensures hash { (c : Address) → ⟦<Cell as Hash>⟧.hash_input c ≡ fed.u64 (number_of c) }
    ensures fields { NumbersFollowFields }
{}

/// Edges are equal, ordered and hashed as their numbers are, and numbers are ordered by direction,
/// then the resolution of the origin, then its base cell, then its digits.
pub fn edges_compare_by_number()
    ensures equal { (a b : DirectedEdge) →
        ⟦<Edge as PartialEq>⟧.eq a b ≡ (edge_number a == edge_number b) }
    ensures order { (a b : DirectedEdge) →
        ⟦<Edge as Ord>⟧.cmp a b ≡ nat_cmp (edge_number a) (edge_number b) }
    ensures partial { (a b : DirectedEdge) →
        ⟦<Edge as PartialOrd>⟧.partial_cmp a b ≡ Some (nat_cmp (edge_number a) (edge_number b)) }
    ensures hash { (e : DirectedEdge) → ⟦<Edge as Hash>⟧.hash_input e ≡ fed.u64 (edge_number e) }
    ensures fields { EdgeNumbersFollowFields }
{}

/// A clone of a cell, an edge or an error is made, and is equal to it.
pub fn clones_are_equal()
    ensures cells { (a b : Address) → ⟦<Cell as Clone>⟧.is_clone a b → b ≡ a }
    ensures cells_made { (a : Address) → ⟦<Cell as Clone>⟧.is_infallible a }
    ensures edges { (a b : DirectedEdge) → ⟦<Edge as Clone>⟧.is_clone a b → b ≡ a }
    ensures edges_made { (a : DirectedEdge) → ⟦<Edge as Clone>⟧.is_infallible a }
    ensures errors { (a b : H3Error) → ⟦<H3Error as Clone>⟧.is_clone a b → b ≡ a }
    ensures errors_made { (a : H3Error) → ⟦<H3Error as Clone>⟧.is_infallible a }
{}

/// Cells with the same number are equal.
pub fn numbers_are_unique()
    ensures { NumbersAreUnique }
{}

/// The number of a cell is read as that cell.
pub fn numbers_are_read()
    ensures { NumbersAreRead }
{}

/// A cell cut at a resolution that is not finer than its own is a cell.
pub fn cuts_are_cells()
    ensures { CutsAreCells }
{}

/// The list of a cell's descendants holds them and nothing else, ascends, and is as long as said:
/// of length 7^n below a hexagon and 1 + 5 * ((7^n - 1) / 6) below a pentagon, n levels down.
pub fn descendants_are_listed()
    ensures members { DescendantsAreListed }
    ensures ascending { DescendantsAscend }
    ensures hexagons { HexagonsHaveSevens }
    ensures pentagons { PentagonsHaveFewer }
{}

/// The digits that lead down from a cell stand one after another, from zeros on.
pub fn paths_are_chains()
    ensures { PathsAreChains }
{}

/// The list of the cells up to a resolution holds them and nothing else, and ascends.
pub fn cells_are_listed()
    ensures { CellsUpToAreListed }
{}
