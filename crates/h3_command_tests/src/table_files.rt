//! Commands over table files.

/// A file without its last line.
pub fn without_last(file: &str) -> &str {
    match file.trim_end().rsplit_once('\n') {
        Some((front, _)) => front,
        None => "",
    }
}

mod format_two;
