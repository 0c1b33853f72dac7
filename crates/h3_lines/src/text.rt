//! Texts that are answers.

ghost use Rattle.std.specs.Prelude.{◌≡◌, ◌+◌, ◌<◌, ◌≤◌, ◌++◌, ◌∷◌, [], length, take};
ghost use Rattle.h3_lines.specs.declared.text.TheConstants.{SHORT};

use crate::line::{BLOCK, put_ended};

/// The bytes that are copied of a text that is not longer, if there are as many.
pub const SHORT: usize = 16;

/// A text, the first `count` of some bytes. A short text is copied faster if more bytes are behind it.
#[derive(Clone, Copy, Drop)]
pub struct Text<'t> {
    /// The bytes of the text, and any more.
    pub bytes: &'t [u8],

    /// How many bytes the text has.
    pub count: usize,

    ghost within: { count ≤ length bytes.now },
}

impl<'t> Text<'t> {
    /// The text of these bytes.
    #[inline(always)]
    pub fn of(bytes: &'t [u8]) -> Text<'t>
        ensures { take result.count result.bytes.now ≡ bytes.now }
    {
        Text {
            bytes,
            count: bytes.len(),
        }
    }

    /// Its bytes alone.
    #[inline(always)]
    pub fn own_bytes(self) -> &'t [u8]
        ensures { result.now ≡ take self.entry.count self.entry.bytes.now }
    {
        &self.bytes[..self.count]
    }

    /// Puts the text and one byte more into a block from the byte `at` on, and returns where they end. The
    /// bytes after them may change too.
    #[inline(always)]
    pub fn put(self, block: &mut [u8; BLOCK], at: usize, last: u8) -> usize
        requires room { at + self.count + SHORT < BLOCK }
        ensures end { result ≡ at + self.entry.count + 1 }
        ensures line { take result block.new
            ≡ take at block.old ++ (take self.entry.count self.entry.bytes.now ++ last ∷ []) }
    {
        if self.count <= SHORT && SHORT <= self.bytes.len() {
            // A copy of as many bytes as the compiler knows is no call, and no branch.
            return put_ended(block, at, &self.bytes[..SHORT], self.count, last);
        }
        put_ended(block, at, self.own_bytes(), self.count, last)
    }
}
