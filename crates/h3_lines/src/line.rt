//! The lines of answers.

ghost use Rattle.std.specs.Prelude.{◌≡◌, ◌+◌, ◌<◌, ◌≤◌, ◌++◌, ◌∷◌, [], ℕ, List, length, take};
ghost use Rattle.h3_lines.specs.Answer.{AreLines, cell_line, children_lines, count_line, edge_line, number_line, ring_line, ring_line_by, truth_line, zone_line, zone_text};
ghost use Rattle.h3_lines.specs.Line.{cells_are_lines, last_is_line};

use h3_index::{Cell, Edge, Siblings, index_bytes, put_cell_line, put_children_lines};
use itoa::Buffer;

/// The room that the answer to a line may take.
pub const ANSWER: usize = 672;

/// The bytes of a block, in which lines are put before they go out together. With twice as many the
/// stack would have to grow, which fails where memory is short.
pub const BLOCK: usize = 32768;

/// What is written as a line, or as several.
pub trait Line {
    /// The line or lines, each ended by a line feed.
    ghost line_of: { Self → List ℕ };

    /// Puts the lines into a block from the byte `at` on, and returns where they end. The bytes after
    /// them may change too.
    fn put(&self, block: &mut [u8; BLOCK], at: usize) -> usize
        requires room { at + 112 ≤ 32768 }
        ensures end { result ≤ at + 112 }
        ensures some { at < result }
        ensures line { take result block.new ≡ take at block.old ++ line_of self.now };

    ghost are_lines: { (v : Self) → AreLines (line_of v) };
}

/// Puts the first `count` bytes and one more into a block from the byte `at` on, and returns where
/// they end. All of the bytes are copied, since that is fast where their number is known to the
/// compiler.
#[inline(always)]
pub(crate) fn put_ended(
    block: &mut [u8; BLOCK],
    at: usize,
    bytes: &[u8],
    count: usize,
    end: u8,
) -> usize
    requires within { count ≤ length bytes.now }
    requires room { at + length bytes.now < BLOCK }
    ensures end { result ≡ at + count + 1 }
    ensures line { take result block.new ≡ take at block.old ++ (take count bytes.now ++ end ∷ []) }
{
    block[at..at + bytes.len()].copy_from_slice(bytes);
    block[at + count] = end;
    at + count + 1
}

impl Line for bool {
    ghost line_of = { truth_line };

    ghost are_lines = { λ v. last_is_line _ };

    #[inline(always)]
    fn put(&self, block: &mut [u8; BLOCK], at: usize) -> usize {
        let (text, count) = if *self { (b"true ", 4) } else { (b"false", 5) };
        put_ended(block, at, text, count, b'\n')
    }
}

impl Line for u64 {
    ghost line_of = { number_line };

    ghost are_lines = { λ v. last_is_line _ };

    #[inline(always)]
    fn put(&self, block: &mut [u8; BLOCK], at: usize) -> usize {
        if *self < 10 {
            return put_ended(block, at, &[b'0' + *self as u8], 1, b'\n');
        }
        let mut buffer = Buffer::new();
        let text = buffer.format(*self);
        put_ended(block, at, text.as_bytes(), text.len(), b'\n')
    }
}

impl Line for u128 {
    ghost line_of = { number_line };

    ghost are_lines = { λ v. last_is_line _ };

    #[inline(always)]
    fn put(&self, block: &mut [u8; BLOCK], at: usize) -> usize {
        let mut buffer = Buffer::new();
        let text = buffer.format(*self);
        put_ended(block, at, text.as_bytes(), text.len(), b'\n')
    }
}

impl Line for Cell {
    ghost line_of = { cell_line };

    ghost are_lines = { λ v. last_is_line _ };

    #[inline(always)]
    fn put(&self, block: &mut [u8; BLOCK], at: usize) -> usize {
        put_cell_line(*self, block, at)
    }
}

/// A line for each of them.
impl Line for Siblings {
    ghost line_of = { children_lines };

    ghost are_lines = { λ v. cells_are_lines _ };

    #[inline(always)]
    fn put(&self, block: &mut [u8; BLOCK], at: usize) -> usize {
        put_children_lines(self.parent(), block, at)
    }
}

impl Line for Edge {
    ghost line_of = { edge_line };

    ghost are_lines = { λ v. last_is_line _ };

    #[inline(always)]
    fn put(&self, block: &mut [u8; BLOCK], at: usize) -> usize {
        let (text, count) = index_bytes(self.raw());
        put_ended(block, at, &text, count, b'\n')
    }
}

/// Puts the line of a cell with its ring, with a byte between them, into a block from the byte `at`
/// on, and returns where it ends.
#[inline(always)]
fn put_ring(cell: Cell, between: u8, ring: u32, block: &mut [u8; BLOCK], at: usize) -> usize
    requires room { at + 112 ≤ 32768 }
    ensures end { result ≤ at + 112 }
    ensures some { at < result }
    ensures line { take result block.new ≡ take at block.old ++ ring_line_by between (cell, ring) }
{
    // in the place of the line feed
    let end = put_cell_line(cell, block, at) - 1;
    block[end] = between;
    let mut buffer = Buffer::new();
    let text = buffer.format(ring);
    put_ended(block, end + 1, text.as_bytes(), text.len(), b'\n')
}

/// A cell with its ring.
impl Line for (Cell, u32) {
    ghost line_of = { ring_line };

    ghost are_lines = { λ v. last_is_line _ };

    #[inline(always)]
    fn put(&self, block: &mut [u8; BLOCK], at: usize) -> usize {
        put_ring(self.0, b' ', self.1, block, at)
    }
}

/// A cell with its ring, and the byte between them.
#[derive(Clone, Copy, Debug)]
pub struct RingCell {
    /// The cell.
    pub cell: Cell,

    /// The byte between them: a space in a bare list.
    pub between: u8,

    /// The number of its ring.
    pub ring: u32,
}

impl Line for RingCell {
    ghost line_of = { λ v. ring_line_by v.between (v.cell, v.ring) };

    ghost are_lines = { λ v. last_is_line _ };

    #[inline(always)]
    fn put(&self, block: &mut [u8; BLOCK], at: usize) -> usize {
        put_ring(self.cell, self.between, self.ring, block, at)
    }
}

/// Puts the text of a zone, `0` where there is none, into a block from the byte `at` on, and returns
/// where it ends.
#[inline(always)]
fn put_zone(zone: Option<Cell>, block: &mut [u8; BLOCK], at: usize) -> usize
    requires room { at + 112 ≤ BLOCK }
    ensures end { result ≤ at + 16 }
    ensures from { at ≤ result }
    ensures text { take result block.new ≡ take at block.old ++ zone_text zone }
{
    match zone {
        // without its line feed
        Some(cell) => put_cell_line(cell, block, at) - 1,
        None => {
            block[at] = b'0';
            at + 1
        }
    }
}

/// A zone, `0` where there is none.
impl Line for Option<Cell> {
    ghost line_of = { zone_line };

    ghost are_lines = { λ v. last_is_line _ };

    #[inline(always)]
    fn put(&self, block: &mut [u8; BLOCK], at: usize) -> usize {
        let end = put_zone(*self, block, at);
        block[end] = b'\n';
        end + 1
    }
}

/// A zone, or none, with its count.
impl Line for (Option<Cell>, u64) {
    ghost line_of = { count_line };

    ghost are_lines = { λ v. last_is_line _ };

    #[inline(always)]
    fn put(&self, block: &mut [u8; BLOCK], at: usize) -> usize {
        let end = put_zone(self.0, block, at);
        block[end] = b' ';
        let mut buffer = Buffer::new();
        let count = buffer.format(self.1);
        put_ended(block, end + 1, count.as_bytes(), count.len(), b'\n')
    }
}
