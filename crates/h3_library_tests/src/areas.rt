//! Areas by number: which of them a cell lies in, and how many cells lie in each.

ghost use Rattle.std.specs.Prelude.{◌<◌, ◌≤◌, All, length};

use crate::expected::{expect, expect_row};
use crate::rows::cell;
use h3_fakes::holds;
use h3_index::{Cell, H3Error};
use h3_regions::laws::areas_are_lawful;
use h3_regions::{ApartAreas, Areas, count_in_areas, count_in_overlapping_areas};
use h3_tree::parent;
use std::process::Abort;

/// A cell and the number of an area that has it.
type Pair = (Cell, u32);

/// A cell of resolution 4, two of its children, and a cell of resolution 5 that is not one.
const WHOLE: u64 = 0x8428347ffffffff;

const NORTH: u64 = 0x85283473fffffff;

const SOUTH: u64 = 0x85283477fffffff;

const OUTSIDE: u64 = 0x8528340ffffffff;

/// The areas north (0) and south (1).
fn two_areas(rt: &impl Abort) -> [Pair; 3]
    ensures { All (λ p. p.1 < 2) result }
{
    let north = cell(rt, NORTH);
    [(north, 0), (cell(rt, SOUTH), 1), (north, 0)]
}

/// The same, and an area that has the parent of both (2).
fn three_areas(rt: &impl Abort) -> [Pair; 4]
    ensures { All (λ p. p.1 < 3) result }
{
    let north = cell(rt, NORTH);
    [
        (north, 0),
        (cell(rt, SOUTH), 1),
        (north, 0),
        (cell(rt, WHOLE), 2),
    ]
}

/// A cell in each of the two areas, and one in none.
fn three_points(rt: &impl Abort) -> [Cell; 3] {
    [cell(rt, NORTH), cell(rt, SOUTH), cell(rt, OUTSIDE)]
}

/// Whether a cell lies in two of the areas, in this order.
fn lies_in_two(areas: &Areas, point: Cell, first: u32, second: u32) -> bool
    requires { length areas.now ≤ 4 }
{
    let mut numbers = [9; 4];
    areas.areas_of(point, &mut numbers) == 2 && numbers[0] == first && numbers[1] == second
}

#[test]
fn a_coarser_area_comes_first(rt: HostRuntime) {
    let mut pairs = three_areas(&rt);
    let areas = Areas::of(&mut pairs);
    let [first, second, third] = three_points(&rt);
    expect(&rt, "north", lies_in_two(&areas, first, 2, 0));
    expect(&rt, "south", lies_in_two(&areas, second, 2, 1));
    let mut numbers = [9; 4];
    expect(&rt, "none", areas.areas_of(third, &mut numbers) == 0);
    let mut counts = [7; 3];
    let others = count_in_overlapping_areas(&areas, &three_points(&rt), &mut numbers, &mut counts);
    expect(&rt, "counts", others == 1 && counts == [1, 1, 2]);
}

#[test]
fn an_area_within_another_overlaps_it(rt: HostRuntime) {
    let mut pairs = three_areas(&rt);
    let mut slots = [cell(&rt, NORTH); 4];
    expect(&rt, "refused", are_refused(&mut pairs, &mut slots));
}

/// Whether pairs are refused, and given back.
fn are_refused(pairs: &mut [Pair], slots: &mut [Cell]) -> bool
    requires { length pairs.old ≤ length slots.old }
{
    let count = pairs.len();
    match ApartAreas::of(pairs, slots) {
        Ok(_) => false,
        Err(refused) => { refused.error == H3Error::DuplicateInput && refused.pairs.len() == count }
    }
}

#[test]
fn areas_with_one_cell_overlap_and_are_in_order(rt: HostRuntime) {
    let north = cell(&rt, NORTH);
    let mut pairs = [(north, 1), (north, 0)];
    let mut slots = [north; 2];
    expect(&rt, "refused", are_refused(&mut pairs, &mut slots));
    let areas = Areas::of(&mut pairs);
    expect(&rt, "order", lies_in_two(&areas, north, 0, 1));
}

#[test]
fn a_cell_may_lie_in_one_area_of_some_that_overlap(rt: HostRuntime) {
    let mut pairs = three_areas(&rt);
    let areas = Areas::of(&mut pairs);
    let mut numbers = [9; 4];
    let mut counts = [7; 3];
    let points = [cell(&rt, WHOLE)];
    let others = count_in_overlapping_areas(&areas, &points, &mut numbers, &mut counts);
    expect(&rt, "counts", others == 0 && counts == [0, 0, 1]);
}

/// Whether the areas north and south are found and counted.
fn are_two(rt: &impl Abort, areas: &ApartAreas) -> bool
    requires { All (λ p. p.1 < 2) areas.now }
{
    let [first, second, third] = three_points(rt);
    let mut counts = [7; 2];
    let others = count_in_areas(areas, &three_points(rt), &mut counts);
    let mut more = [7; 2];
    let others_of_two = count_in_areas(areas, &[first, first], &mut more);
    areas.area_of(first) == Some(0)
        && areas.area_of(second) == Some(1)
        && areas.area_of(third) == None
        && others == 1
        && counts == [1, 1]
        && others_of_two == 0
        && more == [2, 0]
}

#[test]
fn the_cells_of_an_area_may_repeat(rt: HostRuntime) {
    let mut pairs = two_areas(&rt);
    let mut slots = three_points(&rt);
    areas_are_lawful();
    let is_right = match ApartAreas::of(&mut pairs, &mut slots) {
        Ok(areas) => are_two(&rt, &areas),
        Err(_) => false,
    };
    expect(&rt, "areas", is_right);
}

// ---- the examples of the documentation

/// That of `ApartAreas::of`.
fn area_of(north: Cell, south: Cell, point: Cell) -> Option<u32> {
    let mut pairs = [(north, 0), (south, 1)];
    let mut slots = [north; 2];
    match ApartAreas::of(&mut pairs, &mut slots) {
        Ok(areas) => areas.area_of(point),
        Err(_) => None,
    }
}

/// That of `Areas::of`.
fn depth_of(areas: [Cell; 3], point: Cell) -> usize {
    let mut pairs = [(areas[0], 0), (areas[1], 1), (areas[2], 2)];
    let areas = Areas::of(&mut pairs);
    let mut numbers = [0; 3];
    areas.areas_of(point, &mut numbers)
}

#[test]
fn the_examples_of_areas_answer(rt: HostRuntime) {
    let [north, south, outside] = three_points(&rt);
    let whole = cell(&rt, WHOLE);
    expect(&rt, "south", area_of(north, south, south) == Some(1));
    expect(&rt, "none", area_of(north, south, outside).is_none());
    expect(&rt, "refused", area_of(north, whole, south).is_none());
    expect(&rt, "depth", depth_of([whole, south, north], north) == 2);
}

// ---- random lists, and a plain model

/// How many pairs a random list has, and how many points.
const PAIRS: usize = 8;

const POINTS: usize = 24;

/// A source of random numbers: Marsaglia's xorshift.
#[derive(Drop)]
struct Random {
    state: u64,
}

impl Random {
    /// A number below a bound that is not 0.
    fn below(&mut self, bound: u64) -> u64 {
        self.state ^= self.state << 13;
        self.state ^= self.state >> 7;
        self.state ^= self.state << 17;
        self.state % bound.max(1)
    }
}

/// The cell of resolution 6 below `WHOLE` with these two digits.
fn leaf(first: u64, second: u64) -> Cell {
    let raw = 0x862834607ffffff_u64
        .wrapping_add(first % 7 << 30)
        .wrapping_add(second % 7 << 27);
    Cell::new(raw).unwrap_or(Cell::in_base(0))
}

/// A cell that is one of 49 of resolution 6, or above one, of this resolution or a finer one.
fn some_cell(random: &mut Random, coarsest: i32) -> Cell {
    let leaf = leaf(random.below(7), random.below(7));
    let res = match random.below(3) {
        0 => 6,
        1 => 5,
        _ => 4,
    };
    parent(leaf, res.max(coarsest)).unwrap_or(leaf)
}

/// A pair of one of four areas. Where they are to be apart the cell says which: the areas have cells
/// of resolutions 5 and 6.
fn some_pair(random: &mut Random, apart: bool) -> Pair
    ensures { result.1 < 4 }
{
    let second = random.below(7);
    let first = random.below(7);
    let fine = leaf(first, second);
    let res = match random.below(if apart { 2 } else { 4 }) {
        0 => 6,
        1 => 5,
        2 => 4,
        _ => 3,
    };
    let area = if apart { first } else { random.below(4) };
    (parent(fine, res).unwrap_or(fine), (area % 4) as u32)
}

/// A list of pairs of four areas.
fn some_pairs(random: &mut Random, apart: bool) -> [Pair; PAIRS]
    ensures { All (λ p. p.1 < 4) result }
{
    [
        some_pair(random, apart),
        some_pair(random, apart),
        some_pair(random, apart),
        some_pair(random, apart),
        some_pair(random, apart),
        some_pair(random, apart),
        some_pair(random, apart),
        some_pair(random, apart),
    ]
}

/// The list of pairs that a seed gives.
fn seeded_pairs(seed: u64, apart: bool) -> [Pair; PAIRS]
    ensures { All (λ p. p.1 < 4) result }
{
    let mut random = Random { state: seed };
    some_pairs(&mut random, apart)
}

/// Points, which are in some areas and in none.
fn some_points(random: &mut Random) -> [Cell; POINTS] {
    let mut points = [Cell::in_base(0); POINTS];
    for slot in points.iter_mut() {
        *slot = some_cell(random, 3);
    }
    points
}

/// Whether a cell is another or below it.
fn is_within(cell: Cell, above: Cell) -> bool {
    match parent(cell, i32::from(above.resolution())) {
        Ok(found) => found == above,
        Err(_) => false,
    }
}

/// The resolution of the coarsest cell of an area that a point lies in, 16 if there is none.
fn coarsest(pairs: &[Pair], point: Cell, area: u32) -> u8 {
    let mut least = 16;
    for (cell, number) in pairs {
        if *number == area && is_within(point, *cell) {
            least = cell.resolution().min(least);
        }
    }
    least
}

/// Whether a cell of another area overlaps that of a pair.
fn clashes(pairs: &[Pair], pair: Pair) -> bool {
    for (cell, number) in pairs {
        if *number != pair.1 && (is_within(*cell, pair.0) || is_within(pair.0, *cell)) {
            return true;
        }
    }
    false
}

/// Whether cells of two areas overlap.
fn any_clashes(pairs: &[Pair]) -> bool {
    for pair in pairs {
        if clashes(pairs, *pair) {
            return true;
        }
    }
    false
}

/// The areas of a point in their order: four numbers, of which 9 stands for none.
fn listed(pairs: &[Pair], point: Cell) -> [u32; 4] {
    let mut numbers = [9; 4];
    let mut count = 0;
    for step in 0..64u32 {
        let (res, area) = (step / 4, step % 4);
        if u32::from(coarsest(pairs, point, area)) == res && count < 4 {
            numbers[count] = area;
            count += 1;
        }
    }
    numbers
}

/// How many points lie in an area.
fn tally(pairs: &[Pair], points: &[Cell; POINTS], area: u32) -> u64 {
    let mut sum = 0u64;
    for point in points {
        sum = sum.wrapping_add(u64::from(coarsest(pairs, *point, area) < 16));
    }
    sum
}

/// How many points lie in no area.
fn tally_none(pairs: &[Pair], points: &[Cell; POINTS]) -> u64 {
    let mut sum = 0u64;
    for point in points {
        sum = sum.wrapping_add(u64::from(listed(pairs, *point)[0] == 9));
    }
    sum
}

/// Whether counts are those of the points.
fn are_counts(pairs: &[Pair], points: &[Cell; POINTS], counts: [u64; 4], others: u64) -> bool {
    let [first, second, third, last] = counts;
    first == tally(pairs, points, 0)
        && second == tally(pairs, points, 1)
        && third == tally(pairs, points, 2)
        && last == tally(pairs, points, 3)
        && others == tally_none(pairs, points)
}

/// Whether the areas of a point are these, 9 for none.
fn are_areas(areas: &Areas, point: Cell, expected: [u32; 4]) -> bool
    requires { length areas.now ≤ 8 }
{
    let mut numbers = [9; PAIRS];
    let count = areas.areas_of(point, &mut numbers);
    for place in 0..4usize {
        let found = if place < count { numbers[place] } else { 9 };
        if found != expected[place] {
            return false;
        }
    }
    count <= 4
}

/// Whether the areas of each point are those of the model.
fn are_listed(rt: &HostRuntime, areas: &Areas, pairs: &[Pair], points: &[Cell; POINTS]) -> bool
    requires { length areas.now ≤ 8 }
{
    for (row, point) in points.iter().enumerate() {
        if !holds(rt, row, are_areas(areas, *point, listed(pairs, *point))) {
            return false;
        }
    }
    true
}

/// Whether areas that may overlap answer as the model does.
fn are_right(rt: &HostRuntime, seed: u64, apart: bool, points: &[Cell; POINTS]) -> bool {
    let given = seeded_pairs(seed, apart);
    let mut pairs = seeded_pairs(seed, apart);
    let areas = Areas::of(&mut pairs);
    let mut numbers = [0; PAIRS];
    let mut counts = [7; 4];
    let others = count_in_overlapping_areas(&areas, points, &mut numbers, &mut counts);
    are_listed(rt, &areas, &given, points) && are_counts(&given, points, counts, others)
}

/// Whether the one area of each point is that of the model, also from where the last one was.
fn are_found(
    rt: &HostRuntime,
    areas: &ApartAreas,
    pairs: &[Pair],
    points: &[Cell; POINTS],
) -> bool {
    let mut place = 3;
    for (row, point) in points.iter().enumerate() {
        let [first, second, ..] = listed(pairs, *point);
        let expected = if first == 9 { None } else { Some(first) };
        let found = areas.area_of(*point);
        let is_right = found == expected && second == 9;
        if !holds(
            rt,
            row,
            is_right && areas.area_near(*point, &mut place) == found,
        ) {
            return false;
        }
    }
    true
}

/// Whether areas are refused exactly if two overlap, and else answer as the model does.
fn are_apart_right(rt: &HostRuntime, seed: u64, apart: bool, points: &[Cell; POINTS]) -> bool {
    let given = seeded_pairs(seed, apart);
    let mut pairs = seeded_pairs(seed, apart);
    let mut slots = [Cell::in_base(0); PAIRS];
    match ApartAreas::of(&mut pairs, &mut slots) {
        Ok(areas) => {
            let mut counts = [7; 4];
            let others = count_in_areas(&areas, points, &mut counts);
            !any_clashes(&given)
                && are_found(rt, &areas, &given, points)
                && are_counts(&given, points, counts, others)
        }
        Err(refused) => any_clashes(&given) && refused.error == H3Error::DuplicateInput,
    }
}

#[test]
fn areas_are_those_of_a_plain_model(rt: HostRuntime) {
    let mut random = Random {
        state: 88_172_645_463_325_252,
    };
    for row in 0..500 {
        let apart = row % 2 == 0;
        let points = some_points(&mut random);
        let seed = random.state;
        let is_right = are_right(&rt, seed, apart, &points)
            && are_apart_right(&rt, seed, apart, &points);
        expect_row(&rt, row, is_right);
    }
}
