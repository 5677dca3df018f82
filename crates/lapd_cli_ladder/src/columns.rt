//! Words in columns of fixed width.

ghost use Rattle.std.specs.Prelude.{◌≡◌, ◌++◌, replicate, OnOk};
ghost use Rattle.lapd_cli_ladder.specs.Columns.{at_left, at_right, filled, shortened};

use std::alloc::AllocError;

/// Appends words at the left of a column of this width.
pub(crate) fn push_left(text: &mut Vec<u8>, width: usize, words: &[u8]) -> Result<(), AllocError>
    ensures { OnOk result (text.new.items ≡ text.old.items ++ at_left width words.now) }
{
    push_filled(text, b' ', width, words)
}

/// Appends words at the right of a column of this width.
pub(crate) fn push_right(text: &mut Vec<u8>, width: usize, words: &[u8]) -> Result<(), AllocError>
    ensures { OnOk result (text.new.items ≡ text.old.items ++ at_right width words.now) }
{
    push_many(text, b' ', width.saturating_sub(words.len()))?;
    text.extend_from_slice(words)
}

/// Appends words, and behind them this octet up to this width.
pub(crate) fn push_filled(
    text: &mut Vec<u8>,
    octet: u8,
    width: usize,
    words: &[u8],
) -> Result<(), AllocError>
    ensures { OnOk result (text.new.items ≡ text.old.items ++ filled octet width words.now) }
{
    text.extend_from_slice(words)?;
    push_many(text, octet, width.saturating_sub(words.len()))
}

/// Appends an octet so many times.
fn push_many(text: &mut Vec<u8>, octet: u8, count: usize) -> Result<(), AllocError>
    ensures { OnOk result (text.new.items ≡ text.old.items ++ replicate count octet) }
{
    for _ in 0..count {
        text.push(octet)?;
    }
    Ok(())
}

/// Appends words of at most this length, which is at least 2. Longer ones are cut.
pub(crate) fn push_shortened(
    text: &mut Vec<u8>,
    most: usize,
    words: &[u8],
) -> Result<(), AllocError>
    ensures { OnOk result (text.new.items ≡ text.old.items ++ shortened most words.now) }
{
    if words.len() <= most {
        return text.extend_from_slice(words);
    }
    text.extend_from_slice(&words[..most.saturating_sub(2)])?;
    text.extend_from_slice(b"..")
}
