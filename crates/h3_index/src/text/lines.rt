//! The lines of cells, one after another.

ghost use Rattle.std.specs.Prelude.{◌≡◌, ◌+◌, ◌-◌, ◌*◌, ◌<◌, ◌≤◌, ◌++◌, ◌∷◌, [], drop, length, map, take};
ghost use Rattle.std.specs.Char.{digit_char};
ghost use Rattle.std.specs.List.{flat_map};
ghost use Rattle.h3_index.specs.Cell.{number_of, resolution};
ghost use Rattle.h3_index.specs.Descendants.{children};
ghost use Rattle.h3_index.specs.Digits.{last_digits};
ghost use Rattle.h3_index.specs.Text.{text_of};

use super::lanes::line_lanes;
use super::pairs::pair;
use crate::cell::Cell;
use std::simd::prelude::*;
use std::simd::u8x16;

/// The bytes of a cell's line: the fifteen digits of its text, and a line feed.
const LINE: usize = 16;

/// What one more in a child's own digit adds to a byte of two hexadecimal digits, by the number of
/// bits below the digit in it.
static STEPS: [u64; 4] = [1, 2, 4, 8];

/// Puts sixteen bytes into others from `at` on.
#[inline(always)]
fn put_line(line: u8x16, bytes: &mut [u8], at: usize)
    requires sixteen { length line ≡ LINE }
    requires room { at + LINE ≤ length bytes.old }
    ensures { bytes.new ≡ take at bytes.old ++ (line ++ drop LINE (drop at bytes.old)) }
{
    line.copy_to_slice(&mut bytes[at..]);
}

/// Puts a line whose two hexadecimal digits after the first `before` are those of a byte, and all
/// others those of another line.
#[inline(always)]
fn put_sibling(line: u8x16, byte: u64, before: usize, bytes: &mut [u8], at: usize) -> usize
    requires sixteen { length line ≡ LINE }
    requires byte { byte < 256 }
    requires within { before ≤ 13 }
    requires room { at + LINE ≤ length bytes.old }
    ensures end { result ≡ at + LINE }
    ensures line { take result bytes.new ≡ take at bytes.old ++ (take before line
        ++ (map digit_char (last_digits 16 2 byte) ++ drop 2 (drop before line))) }
{
    put_line(line, bytes, at);
    let digits = pair(byte);
    bytes[at + before] = digits[0];
    bytes[at + before + 1] = digits[1];
    at + LINE
}

/// Puts the text of a cell and a line feed into bytes from `at` on, and returns where they end.
/// The bytes after them may change too.
#[inline(always)]
pub fn put_cell_line(cell: Cell, bytes: &mut [u8], at: usize) -> usize
    requires room { at + LINE ≤ length bytes.old }
    ensures end { result ≡ at + LINE }
    ensures line { take result bytes.new
        ≡ take at bytes.old ++ (text_of (number_of cell) ++ 10 ∷ []) }
    ensures text { take (at + 15) bytes.new ≡ take at bytes.old ++ text_of (number_of cell) }
{
    put_line(line_lanes(cell.raw()), bytes, at);
    at + LINE
}

/// Puts the texts of the children of a cell, one level below it and in ascending order, each
/// with a line feed, into bytes from `at` on, and returns where they end. The bytes after them
/// may change too.
#[inline(always)]
pub fn put_children_lines(parent: Cell, bytes: &mut [u8], at: usize) -> usize
    requires coarse { resolution parent < 15 }
    requires room { at + 7 * LINE ≤ length bytes.old }
    ensures end { result ≡ at + LINE * length (children parent) }
    ensures few { length (children parent) ≤ 7 }
    ensures some { 6 ≤ length (children parent) }
    ensures lines { take result bytes.new ≡ take at bytes.old
        ++ flat_map (λ c. text_of (number_of c) ++ 10 ∷ []) (children parent) }
{
    let first = parent.child(0);
    let number = first.raw();
    let line = line_lanes(number);
    // A child's own digit lies in the two hexadecimal digits of a byte, that of the first child
    // and a number of steps.
    let places = 3 * (14 - parent.resolution());
    let after = usize::from(places / 4);
    let byte = number >> (4 * after) & 255;
    let step = STEPS[usize::from(places % 4)];
    let before = 13 - after;
    let mut end = put_sibling(line, byte, before, bytes, at);
    if !parent.is_pentagon() {
        end = put_sibling(line, byte + step, before, bytes, end);
    }
    for digit in 2..7 {
        end = put_sibling(line, byte + digit * step, before, bytes, end);
    }
    end
}
