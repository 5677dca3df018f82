//! Showing what a person typed.

use std::fmt;

/// The most octets of a word that are shown.
const MOST_SHOWN: usize = 32;

/// A word between quotes. A long word is cut and ends in two dots. Octets that are not printable
/// are escaped.
#[derive(Clone, Copy)]
pub(crate) struct Shown<'a>(pub(crate) &'a [u8]);

impl fmt::Display for Shown<'_> {
    fn fmt<W: fmt::Write>(&self, f: &mut fmt::Formatter<W>) -> fmt::Result {
        let front = &self.0[..self.0.len().min(MOST_SHOWN)];
        let end = if front.len() < self.0.len() { ".." } else { "" };
        write!(f, "'{}{end}'", front.escape_ascii())
    }
}
