//! Lines of a dump without offsets, as `od -An -tx1` and `xxd -p` print them.

use crate::cisco::first_word;
use crate::text::is_hex_digit;

/// The octets of a full line of `od -An -tx1`.
const SPACED: usize = 16;

/// The digits of a full line of `xxd -p`.
const PLAIN: usize = 60;

/// The form of a dump without offsets.
#[derive(Clone, Copy, Debug, PartialEq, Eq)]
pub(crate) enum BlockForm {
    /// Two digits behind each space (`od -An -tx1`).
    Spaced,
    /// Digits alone (`xxd -p`).
    Plain,
}

/// A line that may be of a dump without offsets.
#[derive(Clone, Copy)]
pub(crate) struct BlockLine {
    /// Its form.
    pub(crate) form: BlockForm,
    /// Whether it has as many octets as fit, so that the dump may go on in the next line.
    pub(crate) is_full: bool,
}

/// The line, if it may be of a dump without offsets.
pub(crate) fn block_line(line: &[u8]) -> Option<BlockLine> {
    if line.starts_with(b" ") {
        spaced_line(line)
    } else {
        plain_line(line)
    }
}

fn plain_line(line: &[u8]) -> Option<BlockLine> {
    let digits = line.trim_ascii_end();
    if digits.len() < 2 || digits.len() > PLAIN || digits.len() % 2 != 0 {
        return None;
    }
    if !digits.iter().all(|octet| is_hex_digit(*octet)) {
        return None;
    }
    Some(BlockLine {
        form: BlockForm::Plain,
        is_full: digits.len() == PLAIN,
    })
}

fn spaced_line(line: &[u8]) -> Option<BlockLine> {
    let mut count = 0usize;
    let mut rest = line.trim_ascii_end();
    for _octet in 0..line.len() {
        let [b' ', text @ ..] = rest else {
            return spaced_by(count, rest);
        };
        let (word, behind) = first_word(text);
        match word {
            [high, low] if is_hex_digit(*high) && is_hex_digit(*low) => {}
            _ => return None,
        }
        count = count.saturating_add(1);
        rest = behind;
    }
    spaced_by(count, rest)
}

// The line with so many octets, and this text behind them.
fn spaced_by(count: usize, rest: &[u8]) -> Option<BlockLine> {
    if !rest.is_empty() || count == 0 || count > SPACED {
        return None;
    }
    Some(BlockLine {
        form: BlockForm::Spaced,
        is_full: count == SPACED,
    })
}
