//! Bytes that are looked at sixteen at once.

ghost use Rattle.std.specs.Prelude.{◌≡◌, ◌≤◌, ◌<◌, true, not, ◌+◌, drop, get_or, length, take, IfSome};
ghost use Rattle.std.specs.List.{list_all};
ghost use Rattle.h3_rows.specs.Lanes.{IsOneLine, StopsAfter, first_set};
ghost use Rattle.h3_rows.specs.Plain.{is_byte4};
ghost use Rattle.h3_rows.specs.declared.lanes.TheConstants.{LANES};

use std::simd::prelude::*;

/// The bytes that are looked at at once.
pub(crate) const LANES: usize = 16;

/// The place of the lowest bit of a mask, `LANES` if none is set.
#[inline(always)]
fn first_set(mask: u64) -> usize
    ensures { result ≡ first_set mask }
{
    if mask == 0 {
        LANES
    } else {
        mask.trailing_zeros() as usize
    }
}

/// How many of the `LANES` bytes from a place on come before the first that is one of four.
#[inline(always)]
fn run_before(first: u8, second: u8, third: u8, fourth: u8, bytes: &[u8], at: usize) -> usize
    requires { at + LANES ≤ length bytes.now }
    ensures { StopsAfter (is_byte4 first second third fourth) bytes.now at result }
{
    let lanes = u8x16::from_slice(&bytes[at..]);
    let stops = lanes.simd_eq(u8x16::splat(first))
        | lanes.simd_eq(u8x16::splat(second))
        | lanes.simd_eq(u8x16::splat(third))
        | lanes.simd_eq(u8x16::splat(fourth));
    first_set(stops.to_bitmask())
}

/// The place of the first of four bytes. `None` may be answered where fewer than `LANES` bytes are
/// after it.
#[inline(always)]
pub(crate) fn find_stop(first: u8, second: u8, third: u8, fourth: u8, bytes: &[u8]) -> Option<usize>
    ensures within { IfSome result (λ at. at < length bytes.now) }
    ensures passed { IfSome result (λ at.
        list_all (λ b. not (is_byte4 first second third fourth b)) (take at bytes.now) ≡ true) }
    ensures stops { IfSome result (λ at.
        is_byte4 first second third fourth (get_or bytes.now at 0) ≡ true) }
{
    let mut at = 0;
    while LANES <= bytes.len() - at {
        let run = run_before(first, second, third, fourth, bytes, at);
        if run < LANES {
            return Some(at + run);
        }
        at += LANES;
    }
    None
}

/// Whether the bytes from a place up to another are one line, of `LANES` bytes at most.
#[inline(always)]
pub(crate) fn is_one_line(bytes: &[u8], at: usize, end: usize) -> bool
    requires { at + LANES ≤ length bytes.now }
    ensures { result ≡ true → IsOneLine (drop at (take end bytes.now)) }
{
    let run = run_before(b'\n', b'\n', b'\n', b'\n', bytes, at);
    run < LANES && at + run + 1 == end
}
