//! A ladder as a picture (SVG 1.1).

ghost use Rattle.std.specs.Prelude.{◌≡◌, ◌++◌, ◌<◌, ◌^◌, IfOk, OnOk};
ghost use Rattle.std.specs.Fmt.{decimal};
ghost use Rattle.lapd_cli_ladder.specs.Columns.{shortened};
ghost use Rattle.lapd_cli_ladder.specs.Words.{frame_words, known_words, reading_of};
ghost use Rattle.lapd_cli_ladder.specs.Picture.{arrow_element, begin_frame, begin_page, element_front, end_attributes, end_element, ends_elements, escaped, escaped_octet, frame_element, label_element, note_attributes, notes_element, number_element, page_before, page_border, page_element, page_height, picture_part, text_element, time_element};

use crate::columns::push_shortened;
use crate::ends::known_words;
use crate::frame_to_draw::FrameToDraw;
use crate::ladder::number_words;
use crate::picture_notes::push_note_words;
use crate::words::{frame_words, reading_of};
use lapd_follow::Remarks;
use lapd_frame::Side;
use std::alloc::{AllocError, Global};

/// How many frames a page has.
const FRAMES: u64 = 25;

/// The distance of two frames.
const DISTANCE: u64 = 36;

/// The distance of the first frame from the top of its page.
const TOP: u64 = 80;

/// The most letters above an arrow.
const MOST_WORDS: usize = 66;

/// The most letters below an arrow.
const MOST_NOTES: usize = 110;

/// The beginning of a picture, before the parts of its frames.
pub const PICTURE_BEGIN: &str =
    "<svg xmlns=\"http://www.w3.org/2000/svg\" width=\"940\" height=\"1000\">\n<style>@page{size:940px 1000px;margin:0}text{font:12px monospace;white-space:pre}.end{text-anchor:end}.middle{text-anchor:middle}.note{font-size:10px}path{fill:none;stroke:black}.page{fill:white;stroke:silver}.violation{fill:red}#head path{fill:black}</style>\n<marker id=\"head\" viewBox=\"0 0 10 10\" refX=\"10\" refY=\"5\" markerWidth=\"10\" markerHeight=\"10\" orient=\"auto\"><path d=\"M0 1 10 5 0 9z\"/></marker>\n";

/// The end of a picture, after the parts of its frames.
pub const PICTURE_END: &str = "</svg>\n";

/// The border of a page, and the headings of its columns.
const HEADINGS: &[u8] =
    b"<rect width=\"940\" height=\"1000\" class=\"page\"/><text x=\"60\" y=\"40\" class=\"end\">packet</text><text x=\"190\" y=\"40\" class=\"end\">time</text><text x=\"310\" y=\"40\" class=\"middle\">user</text><text x=\"810\" y=\"40\" class=\"middle\">network</text><text x=\"470\" y=\"990\" class=\"middle\">";

/// Appends the part of a picture for a frame, the one of this place, from 0.
///
/// # Errors
///
/// `AllocError` if an allocation fails. A part may have been appended.
pub fn push_picture_part(
    alloc: Global,
    text: &mut Vec<u8>,
    names: bool,
    place: u64,
    frame: &FrameToDraw<'_>,
) -> Result<(), AllocError>
    ensures { OnOk result (text.new.items ≡ text.old.items ++ picture_part names place
        frame.now.packet frame.now.time.now frame.now.from frame.now.octets.now frame.now.said.now
        frame.now.listener.now) }
{
    push_page_before(alloc, text, place)?;
    push_element(alloc, text, names, place, frame)
}

/// Appends the page of the frame of this place, if it is the first there.
fn push_page_before(alloc: Global, text: &mut Vec<u8>, place: u64) -> Result<(), AllocError>
    ensures { OnOk result (text.new.items ≡ text.old.items ++ page_before place) }
{
    if place % FRAMES == 0 {
        push_page(alloc, text, place / FRAMES)
    } else {
        Ok(())
    }
}

/// Appends a page.
fn push_page(alloc: Global, text: &mut Vec<u8>, page: u64) -> Result<(), AllocError>
    requires { page < 2 ^ 63 }
    ensures { OnOk result (text.new.items ≡ text.old.items ++ page_element page) }
{
    push_height(alloc, text, page)?;
    push_border(alloc, text, page)
}

/// Appends the height of the picture up to the end of a page.
#[tactic(auto, unfolding(crate::specs::Picture::page_height))]
fn push_height(alloc: Global, text: &mut Vec<u8>, page: u64) -> Result<(), AllocError>
    requires { page < 2 ^ 63 }
    ensures { OnOk result (text.new.items ≡ text.old.items ++ page_height page) }
{
    push_with_number(
        alloc,
        text,
        b"<style>svg{height:",
        page + 1,
        b"000px}</style>",
    )
}

/// Appends the border of a page, the headings of its columns, and its number.
#[tactic(auto, unfolding(crate::specs::Picture::page_border))]
fn push_border(alloc: Global, text: &mut Vec<u8>, page: u64) -> Result<(), AllocError>
    requires { page < 2 ^ 63 }
    ensures { OnOk result (text.new.items ≡ text.old.items ++ page_border page) }
{
    push_begin_page(alloc, text, page)?;
    push_with_number(alloc, text, HEADINGS, page + 1, b"</text></g>\n")
}

/// Appends the beginning of what is drawn on a page.
#[tactic(auto, unfolding(crate::specs::Picture::begin_page))]
fn push_begin_page(alloc: Global, text: &mut Vec<u8>, page: u64) -> Result<(), AllocError>
    ensures { OnOk result (text.new.items ≡ text.old.items ++ begin_page page) }
{
    push_with_number(
        alloc,
        text,
        b"<g transform=\"translate(0 ",
        page,
        b"000)\">",
    )
}

/// Appends the beginning of the frame of this place.
#[tactic(auto, unfolding(crate::specs::Picture::begin_frame))]
fn push_begin_frame(alloc: Global, text: &mut Vec<u8>, place: u64) -> Result<(), AllocError>
    ensures { OnOk result (text.new.items ≡ text.old.items ++ begin_frame place) }
{
    push_begin_page(alloc, text, place / FRAMES)?;
    push_with_number(
        alloc,
        text,
        b"<g transform=\"translate(0 ",
        place % FRAMES * DISTANCE + TOP,
        b")\">",
    )
}

/// Appends the frame of this place.
fn push_element(
    alloc: Global,
    text: &mut Vec<u8>,
    names: bool,
    place: u64,
    frame: &FrameToDraw<'_>,
) -> Result<(), AllocError>
    ensures { OnOk result (text.new.items ≡ text.old.items ++ frame_element names place
        frame.now.packet frame.now.time.now frame.now.from frame.now.octets.now frame.now.said.now
        frame.now.listener.now) }
{
    push_element_front(alloc, text, place, frame)?;
    push_ends(alloc, text, frame)?;
    push_label(alloc, text, names, frame)?;
    push_element_notes(alloc, text, names, frame)?;
    text.extend_from_slice(b"</g></g>\n")
}

/// Appends a frame up to its time.
#[tactic(auto, unfolding(crate::specs::Picture::element_front))]
fn push_element_front(
    alloc: Global,
    text: &mut Vec<u8>,
    place: u64,
    frame: &FrameToDraw<'_>,
) -> Result<(), AllocError>
    ensures { OnOk result (text.new.items ≡ text.old.items
        ++ element_front place frame.now.packet frame.now.time.now frame.now.from) }
{
    push_begin_frame(alloc, text, place)?;
    text.extend_from_slice(arrow_element(frame.from))?;
    push_number_element(alloc, text, frame.packet.number)?;
    push_time_element(text, frame.time)
}

/// Appends the words of both ends.
#[tactic(auto, unfolding(crate::specs::Picture::ends_elements))]
fn push_ends(alloc: Global, text: &mut Vec<u8>, frame: &FrameToDraw<'_>) -> Result<(), AllocError>
    ensures { OnOk result (text.new.items ≡ text.old.items
        ++ ends_elements frame.now.from frame.now.octets.now frame.now.listener.now) }
{
    push_end(alloc, text, Side::User, frame)?;
    push_end(alloc, text, Side::Network, frame)
}

/// Appends the number of a packet.
#[tactic(auto, unfolding(crate::specs::Picture::number_element))]
fn push_number_element(alloc: Global, text: &mut Vec<u8>, number: u64) -> Result<(), AllocError>
    ensures { OnOk result (text.new.items ≡ text.old.items ++ number_element number) }
{
    let digits = number_words(alloc, number)?;
    push_text(text, b"x=\"60\" class=\"end\"", digits.as_bytes())
}

/// Appends a time.
#[tactic(auto, unfolding(crate::specs::Picture::time_element))]
fn push_time_element(text: &mut Vec<u8>, time: &[u8]) -> Result<(), AllocError>
    ensures { OnOk result (text.new.items ≡ text.old.items ++ time_element time.now) }
{
    push_text(text, b"x=\"190\" class=\"end\"", time)
}

/// Appends the words of the end of this side.
#[tactic(auto, unfolding(crate::specs::Picture::end_element))]
fn push_end(
    alloc: Global,
    text: &mut Vec<u8>,
    side: Side,
    frame: &FrameToDraw<'_>,
) -> Result<(), AllocError>
    ensures { OnOk result (text.new.items ≡ text.old.items
        ++ end_element side frame.now.from frame.now.octets.now frame.now.listener.now) }
{
    let reading = reading_of(frame.from, frame.octets);
    let words = known_words(alloc, side, &reading, frame.listener)?;
    push_text(text, end_attributes(side), words.as_bytes())
}

/// The attributes of the words beside the upright line of this side.
fn end_attributes(side: Side) -> &'static [u8]
    ensures { result.now ≡ end_attributes side }
{
    match side {
        Side::User => b"x=\"300\" class=\"end\"",
        Side::Network => b"x=\"820\"",
    }
}

/// The words above an arrow.
fn label_words(alloc: Global, names: bool, frame: &FrameToDraw<'_>) -> Result<Vec<u8>, AllocError>
    ensures { IfOk result (λ label. label.items ≡ shortened 66 (frame_words names frame.now.from
        frame.now.octets.now (reading_of frame.now.from frame.now.octets.now))) }
{
    let reading = reading_of(frame.from, frame.octets);
    let words = frame_words(alloc, names, frame.from, frame.octets, &reading)?;
    let mut label = Vec::new(alloc);
    push_shortened(&mut label, MOST_WORDS, words.as_bytes())?;
    Ok(label)
}

/// Appends the words above an arrow.
#[tactic(auto, unfolding(crate::specs::Picture::label_element))]
fn push_label(
    alloc: Global,
    text: &mut Vec<u8>,
    names: bool,
    frame: &FrameToDraw<'_>,
) -> Result<(), AllocError>
    ensures { OnOk result (text.new.items
        ≡ text.old.items ++ label_element names frame.now.from frame.now.octets.now) }
{
    let label = label_words(alloc, names, frame)?;
    push_text(
        text,
        b"x=\"560\" y=\"-5\" class=\"middle\"",
        label.as_slice(),
    )
}

/// Appends the words below an arrow.
#[tactic(auto, unfolding(crate::specs::Picture::notes_element))]
fn push_element_notes(
    alloc: Global,
    text: &mut Vec<u8>,
    names: bool,
    frame: &FrameToDraw<'_>,
) -> Result<(), AllocError>
    ensures { OnOk result (text.new.items ≡ text.old.items ++ notes_element names
        frame.now.packet frame.now.from frame.now.octets.now frame.now.said.now) }
{
    let mut words = Vec::new(alloc);
    push_note_words(alloc, &mut words, names, frame)?;
    let mut notes = Vec::new(alloc);
    push_shortened(&mut notes, MOST_NOTES, words.as_slice())?;
    push_text(text, note_attributes(frame.said), notes.as_slice())
}

/// The attributes of the words below an arrow: they are red if a remark is a violation.
fn note_attributes(said: &Option<Remarks>) -> &'static [u8]
    ensures { result.now ≡ note_attributes said.now }
{
    match said {
        None => b"x=\"560\" y=\"12\" class=\"middle note\"",
        Some(said) => {
            if said.has_violation() {
                b"x=\"560\" y=\"12\" class=\"middle note violation\""
            } else {
                b"x=\"560\" y=\"12\" class=\"middle note\""
            }
        }
    }
}

/// The arrow of a frame that this side sent. It has no head if the sender is not known.
fn arrow_element(from: Option<Side>) -> &'static [u8]
    ensures { result.now ≡ arrow_element from }
{
    match from {
        Some(Side::User) => {
            b"<path d=\"M310-20v36M810-20v36\"/><path d=\"M310 0H810\" marker-end=\"url(#head)\"/>"
        }
        Some(Side::Network) => {
            b"<path d=\"M310-20v36M810-20v36\"/><path d=\"M810 0H310\" marker-end=\"url(#head)\"/>"
        }
        None => {
            b"<path d=\"M310-20v36M810-20v36M326 0H794\"/><text x=\"315\" y=\"4\">?</text><text x=\"798\" y=\"4\">?</text>"
        }
    }
}

/// Appends words in an element with these attributes.
#[tactic(auto, unfolding(crate::specs::Picture::text_element))]
fn push_text(text: &mut Vec<u8>, attributes: &[u8], words: &[u8]) -> Result<(), AllocError>
    ensures { OnOk result (text.new.items
        ≡ text.old.items ++ text_element attributes.now words.now) }
{
    text.extend_from_slice(b"<text ")?;
    text.extend_from_slice(attributes)?;
    text.extend_from_slice(b">")?;
    push_escaped(text, words)?;
    text.extend_from_slice(b"</text>")
}

/// Appends words as a text in XML.
fn push_escaped(text: &mut Vec<u8>, words: &[u8]) -> Result<(), AllocError>
    ensures { OnOk result (text.new.items ≡ text.old.items ++ escaped words.now) }
{
    for octet in words {
        push_octet(text, *octet)?;
    }
    Ok(())
}

/// Appends an octet of a text in XML.
fn push_octet(text: &mut Vec<u8>, octet: u8) -> Result<(), AllocError>
    ensures { OnOk result (text.new.items ≡ text.old.items ++ escaped_octet octet) }
{
    match octet {
        b'&' => text.extend_from_slice(b"&amp;"),
        b'<' => text.extend_from_slice(b"&lt;"),
        b'>' => text.extend_from_slice(b"&gt;"),
        _ => text.extend_from_slice(&[octet]),
    }
}

/// Appends octets, a number in decimal digits, and octets.
fn push_with_number(
    alloc: Global,
    text: &mut Vec<u8>,
    front: &[u8],
    number: u64,
    back: &[u8],
) -> Result<(), AllocError>
    ensures { OnOk result (text.new.items
        ≡ text.old.items ++ (front.now ++ (decimal number ++ back.now))) }
{
    text.extend_from_slice(front)?;
    push_number(alloc, text, number)?;
    text.extend_from_slice(back)
}

/// Appends a number in decimal digits.
fn push_number(alloc: Global, text: &mut Vec<u8>, number: u64) -> Result<(), AllocError>
    ensures { OnOk result (text.new.items ≡ text.old.items ++ decimal number) }
{
    let digits = number_words(alloc, number)?;
    text.extend_from_slice(digits.as_bytes())
}
