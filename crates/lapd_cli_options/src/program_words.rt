//! The words of the program's command line.

use std::alloc::Global;
use std::env::{Env, FillError};
use thiserror::Error;

/// Why the words could not be read.
#[derive(Clone, Copy, Debug, PartialEq, Eq, Error)]
pub enum WordsFault {
    /// The word at this index is not UTF-8. The program's name has index 0.
    #[error("error: argument {0} is not valid UTF-8")]
    NotText(usize),
    /// An allocation failed.
    #[error("out of memory")]
    Memory,
}

/// Reads the program's words, the first of which is its name.
///
/// # Errors
///
/// `NotText` at the first word that is not UTF-8, `Memory` if an allocation fails.
pub fn words<E: Env>(alloc: Global, env: &E) -> Result<Vec<String>, WordsFault> {
    let mut words = Vec::new(alloc);
    for place in 0..usize::MAX {
        let Some(octets) = octets_at(alloc, env, place)? else {
            break;
        };
        let word = String::from_utf8(octets).map_err(|_| WordsFault::NotText(place))?;
        words.push(word).map_err(|_| WordsFault::Memory)?;
    }
    Ok(words)
}

// The octets of the word at this index, if it exists. The buffer is doubled until they fit.
fn octets_at<E: Env>(alloc: Global, env: &E, place: usize) -> Result<Option<Vec<u8>>, WordsFault> {
    let mut octets = Vec::new(alloc);
    let mut room = 256usize;
    for _ in 0..usize::BITS {
        octets.resize(room, 0u8).map_err(|_| WordsFault::Memory)?;
        match env.arg(place, octets.as_mut_slice()) {
            Ok(len) => {
                octets.truncate(len);
                return Ok(Some(octets));
            }
            Err(FillError::NotPresent) => return Ok(None),
            Err(FillError::TooLong) => room = room.saturating_add(room),
        }
    }
    Err(WordsFault::Memory)
}
