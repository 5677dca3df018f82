//! The words below an arrow of a picture.

ghost use Rattle.std.specs.Prelude.{◌≡◌, ◌++◌, Some, drop, IfOk, OnOk};
ghost use Rattle.std.specs.String.{string_bytes};
ghost use Rattle.lapd_cli_render.specs.Names.{names_text};
ghost use Rattle.lapd_cli_ladder.specs.Picture.{cut_words, joined, message_words, note_words, said_words};
ghost use Rattle.lapd_follow.specs.Texts.{remarks_text};

use crate::frame_to_draw::FrameToDraw;
use crate::words::said_beside;
use lapd_cli_render::push_names;
use lapd_follow::Remarks;
use lapd_frame::Side;
use std::alloc::{AllocError, Global};

/// Appends the notes on a frame.
pub(crate) fn push_note_words(
    alloc: Global,
    text: &mut Vec<u8>,
    names: bool,
    frame: &FrameToDraw<'_>,
) -> Result<(), AllocError>
    ensures { OnOk result (text.new.items ≡ text.old.items ++ note_words names frame.now.packet
        frame.now.from frame.now.octets.now frame.now.said.now) }
{
    let message = message_words(alloc, names, frame.from, frame.octets)?;
    let said = said_words(alloc, names, frame.said)?;
    let mut both = Vec::new(alloc);
    push_joined(&mut both, message.as_slice(), said.as_slice())?;
    push_joined(text, cut_words(frame.packet.is_cut), both.as_slice())
}

/// Appends two notes, with a semicolon between them if there are both.
fn push_joined(text: &mut Vec<u8>, first: &[u8], second: &[u8]) -> Result<(), AllocError>
    ensures { OnOk result (text.new.items ≡ text.old.items ++ joined first.now second.now) }
{
    text.extend_from_slice(first)?;
    if !first.is_empty() && !second.is_empty() {
        text.extend_from_slice(b"; ")?;
    }
    text.extend_from_slice(second)
}

/// The mark of a packet that was cut.
fn cut_words(is_cut: bool) -> &'static [u8]
    ensures { result.now ≡ cut_words is_cut }
{
    if is_cut { b"[cut]" } else { b"" }
}

/// The name of the message in a frame, if that is requested and there is one. A frame whose sender
/// is not known has none.
fn message_words(
    alloc: Global,
    names: bool,
    from: Option<Side>,
    octets: &[u8],
) -> Result<Vec<u8>, AllocError>
    ensures { IfOk result (λ text. text.items ≡ message_words names from octets.now) }
{
    match from {
        None => Ok(Vec::new(alloc)),
        Some(from) => message_words_of(alloc, names, from, octets),
    }
}

/// The name of the message in a frame of this sender, if that is requested.
fn message_words_of(
    alloc: Global,
    names: bool,
    from: Side,
    octets: &[u8],
) -> Result<Vec<u8>, AllocError>
    ensures { IfOk result (λ text. text.items ≡ message_words names (Some from) octets.now) }
{
    let mut text = Vec::new(alloc);
    if names {
        let mut words = String::new(alloc);
        push_names(&mut words, from, octets)?;
        text.extend_from_slice(without_front(words.as_bytes(), 1))?;
    }
    Ok(text)
}

/// The remarks, without the semicolon before the first.
fn said_words(alloc: Global, names: bool, said: &Option<Remarks>) -> Result<Vec<u8>, AllocError>
    ensures { IfOk result (λ text. text.items ≡ said_words names said.now) }
{
    let mut text = Vec::new(alloc);
    if let Some(said) = said {
        let words = remarks_words(alloc, &said_beside(names, said))?;
        text.extend_from_slice(without_front(words.as_bytes(), 2))?;
    }
    Ok(text)
}

/// The remarks, each after a semicolon.
fn remarks_words(alloc: Global, said: &Remarks) -> Result<String, AllocError>
    ensures { IfOk result (λ text. string_bytes text ≡ remarks_text said.now) }
{
    format!(in alloc; "{said}")
}

/// The octets after the first `count`.
fn without_front(octets: &[u8], count: usize) -> &[u8]
    ensures { result.now ≡ drop count octets.now }
{
    if octets.len() < count {
        return &[];
    }
    &octets[count..]
}
