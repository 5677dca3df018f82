//! The words that a system passes to the program.

use lapd_cli_options::words;
use std::alloc::Global;
use std::env::{Env, FillError};

/// A system that passes these words.
#[derive(Drop)]
struct Words<'a> {
    words: &'a [&'a [u8]],
}

impl Env for Words<'_> {
    fn arg(&self, i: usize, buf: &mut [u8]) -> Result<usize, FillError> {
        let Some(word) = self.words.get(i) else {
            return Err(FillError::NotPresent);
        };
        if buf.len() < word.len() {
            return Err(FillError::TooLong);
        }
        buf[..word.len()].copy_from_slice(word);
        Ok(word.len())
    }

    fn var(&self, _name: &str, _buf: &mut [u8]) -> Result<usize, FillError> {
        Err(FillError::NotPresent)
    }

    fn var_at(&self, _i: usize, _buf: &mut [u8]) -> Result<usize, FillError> {
        Err(FillError::NotPresent)
    }
}

/// The result of reading these words: their number and the octets of the last one, or the reported
/// fault.
fn read_words(alloc: Global, found: &[&[u8]]) -> String {
    let mut text = String::new(alloc);
    let read = words(alloc, &Words { words: found });
    let _ = match &read {
        Ok(read) => {
            let last = read.as_slice().last();
            write!(text, "{} {}", read.len(), last.map_or(0, |word| word.len()))
        }
        Err(fault) => write!(text, "{fault}"),
    };
    text
}

/// Checks that three words are read, the second empty and the third long, and that they are refused
/// if the third is not UTF-8. Returns what is wrong.
pub(crate) fn wrong_words(alloc: Global) -> Option<&'static str> {
    let read = read_words(alloc, &[b"lapd", b"", &[b'1'; 1000]]);
    let unread = read_words(alloc, &[b"lapd", b"answer", b"--k=\xff"]);
    if read.as_str() != "3 1000" {
        Some("three words: they are cut, or not all are read")
    } else if unread.as_str() != "error: argument 2 is not valid UTF-8" {
        Some("the third word is no text: another fault")
    } else {
        None
    }
}
