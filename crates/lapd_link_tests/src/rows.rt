//! Rows of the state table (Q.921 Annex B), as text: an event, its outputs, and the condition of
//! the link afterwards.
//!
//! Events are lines of the command `answer`, and outputs are the lines that it prints. The expected
//! texts were written by hand, after the table.

mod awaiting;
mod drawn;
mod driven;
mod established;
mod every_state;
mod scripts;
mod tei_assigned;
mod timer_recovery;
mod transfer;

use crate::rows::driven::Driven;
use crate::rows::every_state::{
    ESTABLISHED, FAULTS_REPORTED, FRAMES_WITHOUT_ROW, IN_EVERY_STATE, NOT_ESTABLISHED,
};
use crate::text::with_octets;
use crate::wants::none_is_wrong;
use lapd_link::{IQueue, Link, Timer, Window};
use lapd_test_text::{Subject, Text, split, wrong_row};
use std::alloc::Global;
use std::test::Fail;

/// The state and all values that are not 0, false or empty, as in
/// `7 V(S)=1 T200 sent 01 unsent 02`.
pub(crate) fn condition_of(link: &Link) -> Text {
    let mut text = Text::new();
    text.shown("", &link.state());
    text.mark(" L3I", link.layer3_initiated());
    text.mark(" RP", link.release_pending());
    text.named(" RC=", u16::from(link.rc()));
    put_window(&mut text, &link.window());
    text.mark(" T200", link.running(Timer::T200));
    text.mark(" T203", link.running(Timer::T203));
    put_queue(&mut text, link.queue());
    text
}

/// V(S), V(A) and V(R) and the conditions.
pub(crate) fn put_window(text: &mut Text, window: &Window) {
    text.named(" V(S)=", u16::from(window.vs().value()));
    text.named(" V(A)=", u16::from(window.va().value()));
    text.named(" V(R)=", u16::from(window.vr().value()));
    text.mark(" peer-busy", window.peer_busy());
    text.mark(" own-busy", window.own_busy());
    text.mark(" rejecting", window.rejecting());
    text.mark(" ack-pending", window.ack_pending());
}

/// The messages, the sent ones first.
pub(crate) fn put_queue(text: &mut Text, queue: &IQueue) {
    let sent = queue.sent();
    for place in 0..queue.len() {
        text.mark(" sent", place == 0 && sent > 0);
        text.mark(" unsent", place == sent);
        text.put(" ");
        text.hex(queue.at(place));
    }
}

/// A place and its rows: a line `at script | condition` leads to a place, and the lines up to the
/// next such line are its rows.
///
/// A row of the state table is `name | event | outputs | condition`, with `-` for no outputs and
/// `=` for the condition before.
#[derive(Drop)]
struct Place {
    alloc: Global,
    place: &'static str,
}

impl Subject for Place {
    fn preserves(&mut self, row: &'static str, made: &mut Text) -> bool {
        match row.strip_prefix("at ") {
            Some(place) => {
                self.place = place;
                true
            }
            None => preserves(self.alloc, self.place, row, made),
        }
    }
}

/// Whether a row holds at a place.
fn preserves(alloc: Global, place: &str, row: &str, made: &mut Text) -> bool {
    match with_octets(alloc, row, "+260*aa", 260) {
        Some(row) => holds(alloc, parts_of(place, row.as_str()), made),
        None => false,
    }
}

/// The script and the condition of a place, and the event, the outputs and the condition afterwards
/// of a row.
fn parts_of<'a>(place: &'a str, row: &'a str) -> [&'a str; 5] {
    let (script, before) = split(place, " | ");
    let (_, rest) = split(row, " | ");
    let (event, rest) = split(rest, " | ");
    let (outs, after) = split(rest, " | ");
    let after = if after == "=" { before } else { after };
    [script, before, event, outs, after]
}

/// Whether a row holds over a new network link, with a window of two frames, N200 of 2 and room for
/// three messages.
fn holds(alloc: Global, parts: [&str; 5], made: &mut Text) -> bool {
    match Driven::new(alloc, "network 2 2 3") {
        Some(mut link) => {
            let so = link.keeps_to(parts);
            link.show_unless(so, made);
            so
        }
        None => false,
    }
}

/// The first wrong row of a table.
fn wrong_in(alloc: Global, table: &'static str, made: &mut Text) -> Option<&'static str> {
    wrong_row(&mut Place { alloc, place: "" }, table, made)
}

/// The first row that is wrong at one of these places.
fn wrong_at(
    alloc: Global,
    places: &'static str,
    rows: &'static str,
    made: &mut Text,
) -> Option<&'static str> {
    for place in places.lines() {
        let wrong = wrong_row(&mut Place { alloc, place }, rows, made);
        if wrong.is_some() {
            return wrong;
        }
    }
    None
}

#[test]
fn rows_of_the_state_table(rt: HostRuntime) -> Result<(), Fail> {
    let alloc = rt.alloc();
    let made = &mut Text::new();
    let looked = [
        wrong_in(alloc, tei_assigned::rows(), made),
        wrong_in(alloc, awaiting::rows(), made),
        wrong_in(alloc, established::rows(), made),
        wrong_in(alloc, transfer::rows(), made),
        wrong_in(alloc, timer_recovery::rows(), made),
        wrong_at(alloc, NOT_ESTABLISHED, IN_EVERY_STATE, made),
        wrong_at(alloc, ESTABLISHED, IN_EVERY_STATE, made),
        wrong_at(alloc, NOT_ESTABLISHED, FRAMES_WITHOUT_ROW, made),
        wrong_at(alloc, NOT_ESTABLISHED, FAULTS_REPORTED, made),
        scripts::wrong(alloc, made),
    ];
    none_is_wrong(&looked, made)
}
