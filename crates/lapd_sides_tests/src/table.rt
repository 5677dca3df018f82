//! A table of the network side's links, driven by words.

ghost use Rattle.std.specs.Prelude.{◌≢◌, ◌<◌, IsTrue};

use crate::shows::{put_link, put_out};
use crate::stage::Stage;
use crate::talk::{behind_link, link_of, octets_of};
use crate::text::put_refused;
use lapd_frame::{Frame, MOST_OCTETS, Sapi, Side};
use lapd_link::{Event, Link, Out, Params};
use lapd_table::{LinkId, LinkTable, TableFault};
use lapd_test_text::{Text, split};
use std::alloc::Global;

/// Whether a link can have this id: neither management nor the group TEI.
fn is_of_link(id: LinkId) -> bool
    ensures { IsTrue result → (id.sapi ≢ Sapi.Management) × (id.tei < 127) }
{
    match id.sapi {
        Sapi::Management => false,
        Sapi::Call | Sapi::Packet => id.tei.value() < 127,
    }
}

/// Appends the outputs of a link: frames as octets, other outputs by name.
fn put_outs(text: &mut Text, link: Option<&Link>, outs: &[Out]) {
    let Some(link) = link else {
        return text.put("no link");
    };
    for out in outs {
        match link.frame(out, &[]) {
            Some(frame) => put_frame(text, &frame),
            None => put_out(text, out),
        }
    }
}

/// Appends the octets of a frame.
fn put_frame(text: &mut Text, frame: &Frame<'_>) {
    let mut room = [0; MOST_OCTETS];
    let len = lapd_frame::write(frame, Side::Network, &mut room);
    text.hex(room.get(..len).unwrap_or(&[]));
    text.put(";");
}

/// Adds a link with the parameters of primary rate access, and writes the result.
fn put_added(alloc: Global, table: &mut LinkTable, id: &LinkId, text: &mut Text) {
    if !is_of_link(*id) {
        return text.put("no link has this id");
    }
    match Link::new(alloc, table.side(), id.sapi, id.tei, Params::primary()) {
        Ok(link) => match table.add(link) {
            Ok(()) => text.put("done"),
            Err((fault, _)) => put_refused(text, &fault, None),
        },
        Err(_) => text.put("no memory"),
    }
}

/// Removes a link, and writes whether it existed.
fn put_removed(table: &mut LinkTable, id: &LinkId, text: &mut Text) {
    match table.remove(*id) {
        Some(_) => text.put("done"),
        None => put_refused(text, &TableFault::NoLink, None),
    }
}

/// Passes octets to the table. Writes the link that they are for and its outputs, or why there is
/// no such link.
fn put_received(table: &mut LinkTable, octets: &[u8], text: &mut Text) {
    match table.dispatch(octets) {
        Ok((id, outs)) => {
            text.item("", &id);
            put_outs(text, table.link(id), outs.as_slice());
        }
        Err(fault) => put_refused(text, &fault, None),
    }
}

/// Writes the existing links, in order.
fn put_links(table: &LinkTable, text: &mut Text) {
    match table.ids() {
        Ok(ids) => {
            for id in ids.as_slice() {
                text.item("", id);
            }
        }
        Err(_) => text.put("no memory"),
    }
}

/// Requests a link to establish, and writes its outputs.
fn put_establishment(table: &mut LinkTable, id: &LinkId, text: &mut Text) {
    if table.link(*id).is_none() {
        return text.put("no link");
    }
    match table.handle(*id, Event::Establish) {
        Ok(outs) => put_outs(text, table.link(*id), outs.as_slice()),
        Err(fault) => put_refused(text, &fault, None),
    }
}

/// Submits a message, and writes whether it is accepted or why it is returned.
fn put_given(table: &mut LinkTable, id: &LinkId, message: Vec<u8>, text: &mut Text) {
    if table.link(*id).is_none() {
        return text.put("no link");
    }
    match table.give(*id, message) {
        Ok(_) => text.put("taken"),
        Err(refused) => put_refused(text, &refused.fault, Some(refused.message.as_slice())),
    }
}

impl Stage {
    /// Creates a table, passes it octets of the user side, or writes the existing links.
    pub(crate) fn step_of_table(&mut self, words: &str, text: &mut Text) {
        let (word, behind) = split(words, " ");
        match word {
            "new" => self.table = LinkTable::new(self.alloc, Side::Network),
            "hear" => self.receive(behind, text),
            "links" => put_links(&self.table, text),
            "memory" => text.item("", &TableFault::Memory),
            _ => match link_of(behind) {
                Some(id) => self.step_of_link(word, &id, behind_link(behind), text),
                None => text.put("no link has these numbers"),
            },
        }
    }

    /// Adds, removes, establishes or shows a link, or submits a message to it.
    fn step_of_link(&mut self, word: &str, id: &LinkId, digits: &str, text: &mut Text) {
        match word {
            "add" => put_added(self.alloc, &mut self.table, id, text),
            "remove" => put_removed(&mut self.table, id, text),
            "establish" => put_establishment(&mut self.table, id, text),
            "give" => self.give(id, digits, text),
            _ => put_link(text, self.table.link(*id)),
        }
    }

    fn receive(&mut self, digits: &str, text: &mut Text) {
        match octets_of(self.alloc, digits) {
            Some(octets) => put_received(&mut self.table, octets.as_slice(), text),
            None => text.put("no memory"),
        }
    }

    fn give(&mut self, id: &LinkId, digits: &str, text: &mut Text) {
        match octets_of(self.alloc, digits) {
            Some(octets) => put_given(&mut self.table, id, octets, text),
            None => text.put("no memory"),
        }
    }
}
