//! Rows of text.

use crate::Text;

/// A thing that rows of text test.
pub trait Subject {
    /// Runs a row, and returns whether the result is the expected one. If not, it puts the result
    /// into `made`, as [`Text::put_first`] does.
    fn preserves(&mut self, row: &'static str, made: &mut Text) -> bool;
}

/// Returns the first row that is wrong, and puts its result into `made`. Empty lines and those that begin with `#` are not rows.
pub fn wrong_row<S: Subject>(
    subject: &mut S,
    rows: &'static str,
    made: &mut Text,
) -> Option<&'static str> {
    for row in rows.lines() {
        if !row.is_empty() && !row.starts_with("#") && !subject.preserves(row, made) {
            return Some(row);
        }
    }
    None
}

/// Splits a text at the first such mark. Without the mark, the second part is empty.
pub fn split<'a>(text: &'a str, mark: &str) -> (&'a str, &'a str) {
    text.split_once(mark).unwrap_or((text, ""))
}
