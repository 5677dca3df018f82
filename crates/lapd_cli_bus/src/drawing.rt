//! The rows of a ladder of a bus.

use crate::words::push_frame_words;
use lapd_frame::Side;
use std::alloc::{AllocError, Global};

/// The columns before the line of the first terminal.
const MARGIN: usize = 1;

/// The columns from one line to the next.
const GAP: usize = 4;

/// The most columns of the words of a frame: a row of three terminals has 80 columns.
const MOST_WORDS: usize = 64;

/// The fate of a frame of the network side at the line of a terminal.
#[derive(Clone, Copy, PartialEq, Eq)]
pub(crate) enum Mark {
    /// The frame passes by.
    Passes,
    /// The terminal takes it.
    Arrives,
    /// The terminal does not get it.
    IsLost,
}

impl Mark {
    /// The octet at the line of the terminal.
    fn octet(self) -> u8 {
        match self {
            Mark::Passes => b'-',
            Mark::Arrives => b'<',
            Mark::IsLost => b'x',
        }
    }
}

/// Appends the line above the ladder, with the number of each terminal.
pub(crate) fn push_head(
    alloc: Global,
    text: &mut Vec<u8>,
    terminals: usize,
) -> Result<(), AllocError> {
    let mut width = MARGIN + 1;
    for at in 0..terminals {
        let number = format!(in alloc; "{at}")?;
        push_right(text, width, number.as_bytes())?;
        width = GAP;
    }
    push_right(text, GAP + 1, b"net")?;
    text.extend_from_slice(b"\n")
}

/// Appends a note below a row.
pub(crate) fn push_note(
    text: &mut Vec<u8>,
    terminals: usize,
    words: &[u8],
) -> Result<(), AllocError> {
    push_octet(text, b' ', MARGIN)?;
    for _at in 0..terminals {
        push_cell(text, b'|', b' ')?;
    }
    push_words(text, b"|    ", MOST_WORDS - 2, words)
}

/// Appends the row of a frame of the network side.
pub(crate) fn push_downward(
    alloc: Global,
    text: &mut Vec<u8>,
    marks: &[Mark],
    octets: &[u8],
) -> Result<(), AllocError> {
    push_octet(text, b' ', MARGIN)?;
    let mut is_reached = false;
    for mark in marks {
        is_reached = is_reached || *mark != Mark::Passes;
        if is_reached {
            push_cell(text, mark.octet(), b'-')?;
        } else {
            push_cell(text, b'|', b' ')?;
        }
    }
    push_words_of(alloc, text, Side::Network, octets)
}

/// Appends the row of a frame of the terminal at this index, which arrives or is lost.
pub(crate) fn push_upward(
    alloc: Global,
    text: &mut Vec<u8>,
    terminals: usize,
    at: usize,
    is_lost: bool,
    octets: &[u8],
) -> Result<(), AllocError> {
    push_octet(text, b' ', MARGIN)?;
    for before in 0..terminals {
        if before < at {
            push_cell(text, b'|', b' ')?;
        } else if before == at {
            push_cell(text, b'|', b'-')?;
        } else {
            push_cell(text, b'-', b'-')?;
        }
    }
    end_arrow(text, is_lost)?;
    push_words_of(alloc, text, Side::User, octets)
}

/// Writes the head of an arrow to the network side over its last two octets.
fn end_arrow(text: &mut Vec<u8>, is_lost: bool) -> Result<(), AllocError> {
    text.truncate(text.len().saturating_sub(2));
    text.extend_from_slice(if is_lost { b"x " } else { b"->" })
}

/// Appends the line of the network side and the words of a frame.
fn push_words_of(
    alloc: Global,
    text: &mut Vec<u8>,
    from: Side,
    octets: &[u8],
) -> Result<(), AllocError> {
    let mut words = String::new(alloc);
    push_frame_words(alloc, &mut words, from, octets)?;
    push_words(text, b"|  ", MOST_WORDS, words.as_bytes())
}

/// Appends the end of a row: these octets, and words, cut to this many columns.
fn push_words(
    text: &mut Vec<u8>,
    front: &[u8],
    most: usize,
    words: &[u8],
) -> Result<(), AllocError> {
    text.extend_from_slice(front)?;
    push_cut(text, most, words)?;
    text.extend_from_slice(b"\n")
}

/// Appends words; of more than this many octets the last two are `..`.
fn push_cut(text: &mut Vec<u8>, most: usize, words: &[u8]) -> Result<(), AllocError> {
    if words.len() <= most {
        return text.extend_from_slice(words);
    }
    text.extend_from_slice(words.get(..most.saturating_sub(2)).unwrap_or(words))?;
    text.extend_from_slice(b"..")
}

/// Appends the octet at a line, and another one up to the next line.
fn push_cell(text: &mut Vec<u8>, first: u8, rest: u8) -> Result<(), AllocError> {
    text.push(first)?;
    push_octet(text, rest, GAP - 1)
}

/// Appends words at the right of a column of this width.
fn push_right(text: &mut Vec<u8>, width: usize, words: &[u8]) -> Result<(), AllocError> {
    push_octet(text, b' ', width.saturating_sub(words.len()))?;
    text.extend_from_slice(words)
}

/// Appends an octet so many times.
fn push_octet(text: &mut Vec<u8>, octet: u8, count: usize) -> Result<(), AllocError> {
    for _column in 0..count {
        text.push(octet)?;
    }
    Ok(())
}
