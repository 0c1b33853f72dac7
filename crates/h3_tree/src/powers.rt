//! The powers of 7: a hexagon has 7^n descendants n levels down.

ghost use Rattle.std.specs.Prelude.{◌≡◌, ◌^◌, ◌<◌, ◌≤◌};

/// The powers of 7 that the levels below a cell can have.
const SEVENS: [u64; 16] = [
    1,
    7,
    49,
    343,
    2_401,
    16_807,
    117_649,
    823_543,
    5_764_801,
    40_353_607,
    282_475_249,
    1_977_326_743,
    13_841_287_201,
    96_889_010_407,
    678_223_072_849,
    4_747_561_509_943,
];

/// 7 to the power of a number of levels.
#[inline]
pub(crate) fn power_of_seven(levels: u8) -> u64
    requires { levels ≤ 15 }
    ensures is { result ≡ 7 ^ levels }
    ensures some { 0 < result }
{
    SEVENS[usize::from(levels)]
}
