//! Laws of regions, zones and areas. Each function does nothing; what it ensures is a law that holds
//! always.

ghost use Rattle.h3_regions.specs.AreaLaws.{AlikeAreas, AreaCountsAddUp, AreaCountsInParts, AreasAreListed, AreasAreTested, AreasInAnyOrder, ClashesAreFound, OneAreaAtMost};
ghost use Rattle.h3_regions.specs.Laws.{CoverageAtOneResolution, CoveragesDecideDifferences, CoveragesDecideIntersections, CountsAddUp, CountsInParts, NothingCounted, RegionsAreUnique, RegionsCoverAlike, UnionsCoverBoth, UnionsInAnyOrder, UnionsInParts, UnionsOfOne, ZonesAreOne, ZonesByNumber, ZonesInAnyOrder};

use h3_index::laws::cells_are_listed;
use h3_set::laws::coverages_decide_lists;
use h3_tree::laws::{cells_form_intervals, cells_form_trees};

/// A union covers what either list does, and is the same in any order and in any parts; a region
/// united with itself is itself.
pub fn unions_are_lawful()
    ensures covers { UnionsCoverBoth }
    ensures in_any_order { UnionsInAnyOrder }
    ensures in_parts { UnionsInParts }
    ensures of_one { UnionsOfOne }
{
    cells_form_trees();
    coverages_decide_lists();
}

/// A list covers what its region does. What a region covers at one resolution that is not coarser
/// than any of its cells decides what it covers at each such resolution, and it decides the region.
pub fn coverages_decide_regions()
    ensures alike { RegionsCoverAlike }
    ensures at_one_resolution { CoverageAtOneResolution }
    ensures unique { RegionsAreUnique }
{
    coverages_decide_lists();
    cells_form_trees();
}

/// What a list covers decides whether it compacts to what two others share, or to what one has
/// beyond the other.
pub fn coverages_decide_combinations()
    ensures intersections { CoveragesDecideIntersections }
    ensures differences { CoveragesDecideDifferences }
{
    coverages_decide_lists();
    cells_form_trees();
}

/// Zones may be given in any order, and each is the zone of exactly the cells that are counted in it;
/// a list that has the zones alone and ascends is theirs by number; the counts of no cells are all 0.
pub fn zones_are_lawful()
    ensures one { ZonesAreOne }
    ensures in_any_order { ZonesInAnyOrder }
    ensures by_number { ZonesByNumber }
    ensures nothing { NothingCounted }
{
    coverages_decide_lists();
    cells_form_trees();
    cells_form_intervals();
    cells_are_listed();
}

/// The counts of zones of which no two overlap, in any order, and the number of cells without a zone
/// add up to the number of cells; and what is counted of the parts of a list, to what is counted of
/// the whole.
pub fn counts_add_up()
    ensures whole { CountsAddUp }
    ensures parts { CountsInParts }
{
    coverages_decide_lists();
    cells_form_trees();
    cells_form_intervals();
    cells_are_listed();
}

/// The list of a cell's areas has them and nothing else, in their order, and is the only one. It does
/// not depend on the order in which the cells of the areas are given, and has one area at most if no
/// two overlap. Then the counts of all areas and the number of cells in none add up to the number of
/// cells; and what is counted of the parts of a list, to what is counted of the whole.
///
/// The tests `lies_in` and `has_clash` say what they are meant to. Two lists of pairs by which each cell
/// lies in the same areas have the same counts, and, if no two areas overlap, the same list for each
/// cell.
pub fn areas_are_lawful()
    ensures listed { AreasAreListed }
    ensures tested { AreasAreTested }
    ensures in_any_order { AreasInAnyOrder }
    ensures one { OneAreaAtMost }
    ensures clashes { ClashesAreFound }
    ensures parts { AreaCountsInParts }
    ensures add_up { AreaCountsAddUp }
    ensures alike { AlikeAreas }
{
    cells_form_trees();
    coverages_decide_lists();
}
