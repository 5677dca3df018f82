//! The texts of a result: its reason, and the frame that was received.

use crate::reasons::{doubt_words, reason_words};
use lapd_conform::{Doubt, Happening, Played, Reason, Verdict, What};
use lapd_frame::Side;
use lapd_trace::line;
use std::alloc::{AllocError, Global};

/// The reason of a fail that reached the purpose of its case.
const NOT_ALLOWED: &str = "the state table does not allow a frame";

/// The text if no frame was received.
const NOTHING: &str = "nothing";

/// Why a case did not pass; empty if it did.
pub(crate) fn reason_of(played: &Played) -> &'static str {
    match (played.verdict, played.reason) {
        (Verdict::Pass, _) => "",
        (Verdict::Fail, Some(reason)) => reason_words(reason),
        (Verdict::Fail, None) => NOT_ALLOWED,
        (Verdict::Inconclusive, reason) => inconclusive_words(played.doubt, reason),
    }
}

fn inconclusive_words(doubt: Doubt, reason: Option<Reason>) -> &'static str {
    match (doubt, reason) {
        (Doubt::Allowed, Some(reason)) => reason_words(reason),
        _ => doubt_words(doubt),
    }
}

/// The text of the frame that the table does not allow, or that was received last if the purpose
/// was not reached; a word if nothing was received, or if a frame was due before the next one of the
/// tester.
///
/// # Errors
///
/// An allocation failed.
pub(crate) fn seen_frame(alloc: Global, side: Side, played: &Played) -> Result<String, AllocError> {
    let place = match played.refused {
        Some(place) if place < played.happenings.len() => Some(place),
        _ => last_place(played),
    };
    match place {
        Some(place) => frame_at(alloc, side, played.happenings.as_slice(), place),
        None => String::from_str(alloc, NOTHING),
    }
}

/// The place of the last frame that was received, if it is what the purpose failed by.
fn last_place(played: &Played) -> Option<usize> {
    match played.reason {
        Some(Reason::Missing) => None,
        _ => last_received(played.happenings.as_slice()),
    }
}

fn last_received(happenings: &[Happening]) -> Option<usize> {
    let mut last = None;
    for place in 0..happenings.len() {
        if happenings[place].what == What::Received {
            last = Some(place);
        }
    }
    last
}

fn frame_at(
    alloc: Global,
    side: Side,
    happenings: &[Happening],
    place: usize,
) -> Result<String, AllocError> {
    match happenings.get(place) {
        Some(happening) if happening.what == What::Received => {
            line(alloc, side, happening.octets.as_slice())
        }
        _ => String::from_str(alloc, NOTHING),
    }
}
