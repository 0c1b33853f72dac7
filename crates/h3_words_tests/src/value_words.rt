//! Which values the options of rows may have.

use crate::expected::expect;
use h3_parses::read_apart;
use h3_words::ArgsError;
use std::alloc::Global;

/// Whether words are accepted, and not invalid.
fn are_accepted(alloc: Global, words: &[&str]) -> Option<bool> {
    match read_apart(alloc, words) {
        Ok(_) => Some(true),
        Err(ArgsError::Usage(_)) => Some(false),
        Err(_) => None,
    }
}

/// Whether `getResolutions --column a` may have an option with this value.
fn may_have(alloc: Global, option: &str, value: &str) -> Option<bool> {
    let words = ["h3", "getResolutions", "--column", "a", option, value];
    are_accepted(alloc, &words)
}

/// Options, values with blanks and control characters, and whether the option may have the value.
static BLANKS: [(&str, &str, bool); 13] = [
    ("--separator", " ", true),
    ("--separator", "\t", true),
    ("--separator", "\u{1f}", true),
    ("--separator", "\u{7f}", true),
    ("--separator", "\0", false),
    ("--separator", "\n", false),
    ("--separator", "\r", false),
    ("--separator", "\u{80}", false),
    ("--as", "a b", true),
    ("--as", "a\u{e9}", true),
    ("--as", "a\tb", false),
    ("--as", "a\nb", false),
    ("--as", "a\rb", false),
];

#[test]
fn reads_blanks_in_values(rt: HostRuntime) {
    for (option, value, may) in &BLANKS {
        expect(
            &rt,
            option,
            may_have(rt.alloc(), option, value) == Some(*may),
        );
    }
}

/// Whether zones with names, in a table without quotes, may have `--none` with this value.
fn may_have_none(alloc: Global, value: &str) -> Option<bool> {
    let words = [
        "h3",
        "cellsToZones",
        "--zones",
        "z",
        "--zone-field",
        "1",
        "--zone-name-field",
        "2",
        "--none",
        value,
    ];
    are_accepted(alloc, &words)
}

/// Values of `--none`, and whether it may have the value where a tab separates fields.
static NONES: [(&str, bool); 10] = [
    ("", true),
    ("-", true),
    (" ", true),
    ("no zone", true),
    ("a,b", true),
    ("a\u{e9}", true),
    ("a\tb", false),
    ("a\nb", false),
    ("a\r", false),
    ("\"", false),
];

#[test]
fn reads_texts_for_no_zone(rt: HostRuntime) {
    for (value, may) in &NONES {
        expect(&rt, value, may_have_none(rt.alloc(), value) == Some(*may));
    }
}
