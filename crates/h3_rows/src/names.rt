//! Names, each kept once, by its text.

ghost use Rattle.std.specs.Prelude.{◌≡◌, ◌+◌, ◌<◌, ◌≤◌, ◌++◌, ◌∷◌, ℕ, List, [], length, get_or, cond, Some, IfOk, IfNone, IfSome, OnErr, OnOk, vec_len, vec_capacity, bytes_eq};
ghost use Rattle.std.specs.HashMap.{get_by};
ghost use Rattle.h3_rows.specs.Areas.{AreWithin, name_text, names_in, number_for, place_of, with_name};

use crate::fields::unquoted;
use std::alloc::{AllocError, Global};
use std::collections::HashMap;

/// Names in the order in which they were first given, in one buffer, and the number of each by its text.
#[derive(Drop)]
pub struct Names {
    /// Whether quotes around a name are no part of its text.
    pub quotes: bool,

    /// The names, one after another.
    pub bytes: Vec<u8>,

    /// Where each of them begins and ends.
    pub spans: Vec<(usize, usize)>,

    /// The number of each text.
    pub places: HashMap<Vec<u8>, u32>,

    ghost within: { AreWithin bytes.items spans.items },
    ghost known: { (text : List ℕ) → get_by (λ k. bytes_eq text k.items) places
        ≡ place_of quotes text (names_in bytes.items spans.items) },
}

/// The text of a name.
fn name_text(quotes: bool, name: &[u8]) -> &[u8]
    ensures { result.now ≡ name_text quotes name.now }
{
    if quotes {
        return unquoted(name);
    }
    name
}

/// Puts a name behind the others. There is room for it.
fn keep(bytes: &mut Vec<u8>, spans: &mut Vec<(usize, usize)>, name: &[u8])
    requires bytes { vec_len bytes.old + length name.now ≤ vec_capacity bytes.old }
    requires spans { vec_len spans.old < vec_capacity spans.old }
    ensures bytes { bytes.new.items ≡ bytes.old.items ++ name.now }
    ensures spans { spans.new.items ≡ spans.old.items
        ++ (length bytes.old.items, length bytes.old.items + length name.now) ∷ [] }
{
    let start = bytes.len();
    let _ = bytes.extend_from_slice(name);
    let end = bytes.len();
    let _ = spans.push((start, end));
}

/// Puts the number of a text that has none yet.
fn put_text(
    places: &mut HashMap<Vec<u8>, u32>,
    alloc: Global,
    text: &[u8],
    number: u32,
) -> Result<(), AllocError>
    ensures ok { OnOk result ((other : List ℕ) → get_by (λ k. bytes_eq other k.items) places.new
        ≡ cond (bytes_eq text.now other) (Some number)
        (get_by (λ k. bytes_eq other k.items) places.old)) }
    ensures err { OnErr result ((other : List ℕ) → get_by (λ k. bytes_eq other k.items) places.new
        ≡ get_by (λ k. bytes_eq other k.items) places.old) }
{
    let key = Vec::from_slice(alloc, text)?;
    match places.insert(key, number) {
        Ok(_) => Ok(()),
        Err(_) => Err(AllocError),
    }
}

impl Names {
    /// No names.
    pub fn new(alloc: Global, quotes: bool) -> Names
        ensures names { names_in result.bytes.items result.spans.items ≡ [] }
        ensures quotes { result.quotes ≡ quotes }
    {
        Names {
            quotes,
            bytes: Vec::new(alloc),
            spans: Vec::new(alloc),
            places: HashMap::new(alloc),
        }
    }

    /// The name with this number, if there is one.
    pub fn get(&self, number: usize) -> Option<&[u8]>
        ensures some { IfSome result (λ name. name.now
            ≡ get_or (names_in self.now.bytes.items self.now.spans.items) number []) }
        ensures none { IfNone result
            (length (names_in self.now.bytes.items self.now.spans.items) ≤ number) }
    {
        if number >= self.spans.len() {
            return None;
        }
        let (start, end) = self.spans[number];
        Some(&self.bytes[start..end])
    }

    /// The number of the name with the text of a name that has no blanks at its ends. If there is none
    /// yet, the name is kept as it is, with the next number.
    ///
    /// # Errors
    ///
    /// `AllocError` if there is no memory for it, or there are 2^32 - 1 names already.
    pub fn number_of(&mut self, alloc: Global, name: &[u8]) -> Result<u32, AllocError>
        ensures number { IfOk result (λ n. n
            ≡ number_for self.old.quotes (names_in self.old.bytes.items self.old.spans.items) name.now) }
        ensures names { OnOk result (names_in self.new.bytes.items self.new.spans.items
            ≡ with_name self.old.quotes (names_in self.old.bytes.items self.old.spans.items) name.now) }
        ensures quotes { self.new.quotes ≡ self.old.quotes }
    {
        let text = name_text(self.quotes, name);
        match self.places.get(text) {
            Some(number) => return Ok(*number),
            None => {}
        }
        let count = self.spans.len();
        if count >= u32::MAX as usize {
            return Err(AllocError);
        }
        self.bytes.reserve(name.len())?;
        self.spans.reserve(1)?;
        put_text(&mut self.places, alloc, text, count as u32)?;
        keep(&mut self.bytes, &mut self.spans, name);
        Ok(count as u32)
    }
}
