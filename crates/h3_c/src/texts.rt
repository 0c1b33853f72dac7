//! The texts of indexes.

ghost use Rattle.std.specs.Prelude.{◌≡◌, ◌+◌, ◌<◌, ◌≤◌, ◌∷◌, ◌++◌, [], length, take, drop, ok_or};
ghost use Rattle.std.specs.Result.{result_unwrap_or};
ghost use Rattle.h3_index.specs.Text.{parsed_index, text_of};
ghost use Rattle.h3_index.specs.declared.error.H3Error.TheVariants.{Failed};
ghost use Rattle.h3_c.specs.Outcome.{code_of};

use crate::column::MEMORY_BOUNDS;
use crate::outcome::put;
use h3_index::{index_bytes, read_index};

/// The bytes of the longest text, and of the 0 byte that ends it.
const ROOM: usize = 17;

/// H3's `stringToH3`, with the length of the text.
#[unsafe(no_mangle)]
pub extern "C" fn h3w_stringToH3(text: &[u8], out: &mut u64) -> u32
    ensures code { result ≡ code_of (ok_or (parsed_index text.now) Failed) }
    ensures value { out.new ≡ result_unwrap_or (ok_or (parsed_index text.now) Failed) out.old }
{
    put(out, read_index(text))
}

/// H3's `h3ToString`.
#[unsafe(no_mangle)]
pub extern "C" fn h3w_h3ToString(h: u64, text: &mut [u8]) -> u32
    ensures small { length text.old < 17 → (result ≡ 14) × (text.new ≡ text.old) }
    ensures code { 17 ≤ length text.old → result ≡ 0 }
    ensures text { 17 ≤ length text.old →
        take (length (text_of h) + 1) text.new ≡ text_of h ++ 0 ∷ [] }
    ensures rest { drop 17 text.new ≡ drop 17 text.old }
{
    if text.len() < ROOM {
        return MEMORY_BOUNDS;
    }
    let (bytes, count) = index_bytes(h);
    text[..16].copy_from_slice(&bytes);
    text[count] = 0;
    0
}
