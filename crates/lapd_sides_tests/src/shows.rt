//! Writes query results and outputs as text.

use crate::talk::link_of;
use lapd_link::{Link, Out};
use lapd_sides::{Assigner, EitherSide, LinkId, Tei, Terminal};
use lapd_tei::{TeiKind, TeiMessage, TeiOut};
use lapd_test_text::Text;
use lapd_timers::{Timer, TimerSet};

/// The name of a kind.
pub(crate) fn name_of(kind: TeiKind) -> &'static str {
    match kind {
        TeiKind::Request => "Request",
        TeiKind::Assigned => "Assigned",
        TeiKind::Denied => "Denied",
        TeiKind::CheckRequest => "CheckRequest",
        TeiKind::CheckResponse => "CheckResponse",
        TeiKind::Remove => "Remove",
        TeiKind::Verify => "Verify",
    }
}

/// Appends a side, or its link that these words name.
pub(crate) fn put_readers(text: &mut Text, side: &EitherSide, words: &str) {
    match link_of(words) {
        Some(id) => put_link_of_side(text, side, &id),
        None => put_side(text, side),
    }
}

/// Appends a side: its kind, how many frames it discarded, its next moment, and TEI management.
fn put_side(text: &mut Text, side: &EitherSide) {
    text.item("", &side.side());
    text.item("discarded ", &side.discarded());
    text.item_if("next ", side.next_deadline());
    put_timers(text, side.timers(None));
    match side {
        EitherSide::Network(side) => put_assigner(text, side.assigner()),
        EitherSide::User(side) => put_terminal(text, side.terminal()),
    }
}

/// Appends a link of a side, and its timers.
fn put_link_of_side(text: &mut Text, side: &EitherSide, id: &LinkId) {
    put_link(text, side.table().link(*id));
    put_timers(text, side.timers(Some(*id)));
}

/// Appends a link: its state, and how many messages wait and are sent.
pub(crate) fn put_link(text: &mut Text, link: Option<&Link>) {
    match link {
        Some(link) => {
            text.item("state ", &link.state());
            text.item("waiting ", &link.queue().len());
            text.item("sent ", &link.queue().sent());
        }
        None => text.put("no link;"),
    }
}

/// Puts behind which timers run, and until when.
pub(crate) fn put_timers(text: &mut Text, timers: Option<&TimerSet>) {
    let Some(timers) = timers else {
        return;
    };
    for timer in [Timer::T200, Timer::T201, Timer::T202, Timer::T203] {
        if timers.running(timer) {
            text.put(timer.name());
            text.item_if(" ", timers.deadline(timer));
        }
    }
}

/// Appends an assigner: the TEI under check, and those that are held.
pub(crate) fn put_assigner(text: &mut Text, assigner: &Assigner) {
    text.item_if("checks ", assigner.check());
    text.put("holds");
    for number in 0..128 {
        if let Some(tei) = Tei::new(number) {
            if assigner.holds(tei) {
                text.shown(" ", &tei);
            }
        }
    }
    text.put(";");
}

/// Appends a terminal: its state, its TEI, how often it asked, and its reference.
pub(crate) fn put_terminal(text: &mut Text, terminal: &Terminal) {
    text.item("state ", &terminal.state());
    text.item_if("TEI ", terminal.tei());
    text.item("asked ", &terminal.count());
    text.item_if("reference ", terminal.reference());
}

/// Appends a message of TEI management: its kind, Ri and Ai.
pub(crate) fn put_tei_message(text: &mut Text, message: &TeiMessage) {
    text.put(name_of(message.kind));
    text.shown(" ", &message.ri);
    text.item(" ", &message.ai);
}

/// Appends outputs of TEI management.
pub(crate) fn put_tei_outs(text: &mut Text, outs: &[TeiOut]) {
    for out in outs {
        put_tei_out(text, out);
    }
}

fn put_tei_out(text: &mut Text, out: &TeiOut) {
    match out {
        TeiOut::Send(message) => put_tei_message(text, message),
        TeiOut::Start(timer) => text.item("start ", timer),
        TeiOut::Stop(timer) => text.item("stop ", timer),
        TeiOut::Got(tei) => text.item("got ", tei),
        TeiOut::Gone(tei) => text.item("gone ", tei),
        TeiOut::Failed => text.put("failed;"),
        TeiOut::Given(tei) => text.item("given ", tei),
        TeiOut::Free(tei) => text.item("free ", tei),
        TeiOut::InUse(tei) => text.item("in use ", tei),
        TeiOut::Doubled(tei) => text.item("doubled ", tei),
    }
}

/// Puts an output of a link behind that is no frame and has no octets.
pub(crate) fn put_out(text: &mut Text, out: &Out) {
    match out {
        Out::Established => text.put("established;"),
        Out::Confirmed => text.put("confirmed;"),
        Out::Released => text.put("released;"),
        Out::ReleaseConfirm => text.put("release-confirmed;"),
        Out::Acknowledged(count) => text.item("acknowledged ", count),
        Out::Dropped(count) => text.item("dropped ", count),
        Out::Report(letter) => text.item("report ", &letter.name()),
        Out::Start(timer) => text.item("start ", timer),
        Out::Stop(timer) => text.item("stop ", timer),
        _ => text.put("another;"),
    }
}
