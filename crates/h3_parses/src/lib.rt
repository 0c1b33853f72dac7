//! What command lines parse as, for tests. These have no contract: a test compares what words parse as
//! with a row, and the contract of `read_words` would be in each goal about what calls it.
#![tactic(auto)]

use h3_words::{ArgsError, Words, read_words};
use std::alloc::{AllocError, Global};

/// The words of a line.
pub fn words_of(alloc: Global, line: &str) -> Result<Vec<String>, AllocError> {
    let mut words = Vec::new(alloc);
    for word in line.split_whitespace() {
        words.push(String::from_str(alloc, word)?)?;
    }
    Ok(words)
}

/// What the words of a line parse as.
pub fn read(alloc: Global, line: &str) -> Result<Words, ArgsError> {
    match words_of(alloc, line) {
        Ok(words) => read_words(alloc, words),
        Err(_) => Err(ArgsError::Memory),
    }
}

/// Words in memory of their own.
fn copied(alloc: Global, words: &[&str]) -> Result<Vec<String>, AllocError> {
    let mut copies = Vec::new(alloc);
    for word in words {
        copies.push(String::from_str(alloc, word)?)?;
    }
    Ok(copies)
}

/// What words parse as, which may have blanks in them.
pub fn read_apart(alloc: Global, words: &[&str]) -> Result<Words, ArgsError> {
    match copied(alloc, words) {
        Ok(words) => read_words(alloc, words),
        Err(_) => Err(ArgsError::Memory),
    }
}
