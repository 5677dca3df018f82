//! A link of packet communication that is driven by its own calls, and the parameters of links.

use crate::rows::condition_of;
use crate::text::number_of;
use lapd_frame::{Control, Number, Role, Sapi, Side, Tei, write};
use lapd_link::{Event, GivenOuts, Link, LinkFault, Out, Outs, Params, Recovery, SendEffect};
use lapd_test_text::{Text, split};
use std::alloc::Global;

/// Operations on the link of SAPI 16 and TEI 126; the frames that it sends, with `-` for each
/// output that sends none, or why it refuses; and its condition.
pub(crate) const ROWS: &str = "\
# A new link is as it was made.
link network 1 | network 16 126 1 4
link network 2 | network 16 126 2 4
link network 1024 | network 16 126 1024 4

# A new link establishes and is released, and hands back a message that comes early.
link user 2 | user 16 126 2 4
link give 6561726c79 | L1 NotEstablished 6561726c79 4
link establish | 40fd7f - 5 L3I T200
link give 6561726c79 | L5 LayerThreeEstablishing 6561726c79 5 L3I T200
link release | 5 L3I RP T200
link establish | L4 Releasing 5 L3I RP T200

# Once the peer has established, two messages go out and stay in the queue.
link network 512 | network 16 126 512 4
link hear 02817f | for another link 4
link hear 40fd7f | 40fd73 - - 7 T203
link give 0801 | 42fd00000801 - - 7 V(S)=1 T200 sent 0801
link give 0802 | 42fd02000802 7 V(S)=2 T200 sent 0801 0802

# An RR, the second message and unit data are frames. A third message that is not there, a UA as a command, 261 octets and an
# indication are none.
link outputs | 40fd010b 42fd0a0a0802 42fd0309 - - - - 7 V(S)=2 T200 sent 0801 0802

# In state 7 a message is sent at once: the first one stops T203 and starts T200. It is returned if the peer is busy.
link network 512 | network 16 126 512 4
link at-once 0801 | returned 0801 4
link hear 40fd7f | 40fd73 - - 7 T203
link at-once 0801 | 42fd00000801 stop T203 start T200 7 V(S)=1 T200 sent 0801
link at-once 0802 | 42fd02000802 7 V(S)=2 T200 sent 0801 0802
link hear 42fd0500 | - 7 V(S)=2 peer-busy T200 sent 0801 0802
link at-once 0803 | returned 0803 7 V(S)=2 peer-busy T200 sent 0801 0802
";

/// k, N200 and room, from which parameters are made if each is in its range, and the defaults of
/// basic and primary rate access.
pub(crate) const PARAMETERS: &str = "\
made of 1 1 1 | k=1 N200=1 room=1
made of 127 100 1024 | k=127 N200=100 room=1024
made of 7 3 512 | k=7 N200=3 room=512
made of 0 3 512 | none
made of 128 3 512 | none
made of 255 3 512 | none
made of 7 0 512 | none
made of 7 101 512 | none
made of 7 255 512 | none
made of 7 3 0 | none
made of 7 3 1025 | none
made of 7 3 65535 | none
made call | k=1 N200=3 room=512
made packet | k=3 N200=3 room=512
made management | k=1 N200=3 room=512
made primary | k=7 N200=3 room=512
made of 7 3 512 last | k=7 N200=3 room=512 last
";

/// Appends the parameters of this kind, or those made of these numbers.
pub(crate) fn put_parameters(text: &mut Text, kind: &str, words: &str) {
    let made = match kind {
        "call" => Some(Params::basic(Sapi::Call)),
        "packet" => Some(Params::basic(Sapi::Packet)),
        "management" => Some(Params::basic(Sapi::Management)),
        "primary" => Some(Params::primary()),
        _ => parameters_of(words),
    };
    match made {
        Some(made) => {
            text.shown(" k=", &made.k());
            text.shown(" N200=", &made.n200());
            text.shown(" room=", &made.room());
            text.mark(" last", made.recovery() == Recovery::LastMessage);
        }
        None => text.put(" none"),
    }
}

/// The parameters of `k n200 room`; a `last` after them selects the recovery of the last message.
pub(crate) fn parameters_of(words: &str) -> Option<Params> {
    let (k, rest) = split(words, " ");
    let (n200, rest) = split(rest, " ");
    let (room, last) = split(rest, " ");
    let recovery = if last == "last" {
        Recovery::LastMessage
    } else {
        Recovery::Enquiry
    };
    let (k, n200) = (number_of(k) & 0xff, number_of(n200) & 0xff);
    match Params::new(k as u8, n200 as u8, number_of(room)) {
        Some(params) => Some(params.with_recovery(recovery)),
        None => None,
    }
}

/// A new link of this side and room.
pub(crate) fn new_link(alloc: Global, side: Side, room: u16) -> Option<Link> {
    match (Params::new(7, 3, room), Tei::new(126)) {
        (Some(params), Some(tei)) => Link::new(alloc, side, Sapi::Packet, tei, params).ok(),
        _ => None,
    }
}

/// Executes an operation on a link.
pub(crate) fn put(text: &mut Text, alloc: Global, link: &mut Link, action: &str, word: &str) {
    match action {
        "network" => renew(text, alloc, link, Side::Network, number_of(word)),
        "user" => renew(text, alloc, link, Side::User, number_of(word)),
        "establish" => establish(text, link),
        "release" => release(text, link),
        "hear" => receive(text, alloc, link, word),
        "give" => give(text, alloc, link, word),
        "at-once" => give_at_once(text, alloc, link, word),
        _ => put_frames(text, link),
    }
    text.put(" ");
    text.put_octets(condition_of(link).as_bytes());
}

/// Makes a new link of this side and room, and appends these as it shows them.
fn renew(text: &mut Text, alloc: Global, link: &mut Link, side: Side, room: u16) {
    if let Some(made) = new_link(alloc, side, room) {
        *link = made;
    }
    text.shown(" ", &link.side());
    text.shown(" ", &link.sapi());
    text.shown(" ", &link.tei());
    text.shown(" ", &link.room());
}

/// Layer 3 requests establishment.
fn establish(text: &mut Text, link: &mut Link) {
    let answer = link.handle(Event::Establish);
    put_answer(text, link, answer);
}

/// Layer 3 requests release.
fn release(text: &mut Text, link: &mut Link) {
    let answer = link.handle(Event::Release);
    put_answer(text, link, answer);
}

/// Receives octets of the other side.
fn receive(text: &mut Text, alloc: Global, link: &mut Link, digits: &str) {
    match hex::decode(alloc, digits) {
        Ok(octets) => receive_octets(text, link, octets.as_slice()),
        Err(_) => text.put(" no octets"),
    }
}

/// Receives a frame of the user, if it is for the link.
fn receive_octets(text: &mut Text, link: &mut Link, octets: &[u8]) {
    match lapd_frame::read(octets, Side::User) {
        Ok(frame) if link.side() == Side::Network && link.is_for(&frame.address()) => {
            let answer = link.handle(Event::Heard(&frame));
            put_answer(text, link, answer);
        }
        _ => text.put(" for another link"),
    }
}

/// Layer 3 submits a message; if it is returned, it is appended to the text.
fn give(text: &mut Text, alloc: Global, link: &mut Link, digits: &str) {
    match hex::decode(alloc, digits) {
        Ok(message) => match link.give(message) {
            Ok(outs) => put_outs(text, link, &outs),
            Err(back) => {
                text.shown(" ", &back.fault);
                text.put(" ");
                text.hex(back.message.as_slice());
            }
        },
        Err(_) => text.put(" no octets"),
    }
}

/// Layer 3 submits a message that is sent at once, or returned.
fn give_at_once(text: &mut Text, alloc: Global, link: &mut Link, digits: &str) {
    match hex::decode(alloc, digits) {
        Ok(message) => match link.give_at_once(message) {
            Ok(outs) => put_given(text, link, &outs),
            Err(back) => {
                text.put(" returned ");
                text.hex(back.as_slice());
            }
        },
        Err(_) => text.put(" no octets"),
    }
}

/// Appends the frame of a message that was sent at once, and its effect on the timers.
fn put_given(text: &mut Text, link: &Link, outs: &GivenOuts) {
    put_out(
        text,
        link,
        Out::SendMessage(outs.place, outs.field.control()),
        &[],
    );
    if let SendEffect::Starts { stops } = outs.effect {
        text.mark(" stop T203", stops);
        text.put(" start T200");
    }
}

/// Appends the frames of outputs, or why there are no outputs.
fn put_answer(text: &mut Text, link: &Link, answer: Result<Outs, LinkFault>) {
    match answer {
        Ok(outs) => put_outs(text, link, &outs),
        Err(fault) => text.shown(" ", &fault),
    }
}

/// Appends the frames of outputs.
fn put_outs(text: &mut Text, link: &Link, outs: &Outs) {
    for out in outs.as_slice() {
        put_out(text, link, *out, &[]);
    }
}

/// Appends the frame of an output, with the octets `input_octets` for unit data, or `-` if it sends none.
fn put_out(text: &mut Text, link: &Link, out: Out, input_octets: &[u8]) {
    let mut octets = [0; 264];
    text.put(" ");
    match link.frame(&out, input_octets) {
        Some(frame) => {
            let length = write(&frame, link.side(), &mut octets);
            text.hex(&octets[..length]);
        }
        None => text.put("-"),
    }
}

/// An I frame with this number as N(S) and as N(R), and with P=0.
fn i_frame(number: Number) -> Control {
    Control::I {
        ns: number,
        nr: number,
        p: false,
    }
}

/// Appends the frames of seven outputs.
fn put_frames(text: &mut Text, link: &Link) {
    let Some(nr) = Number::new(5) else {
        return;
    };
    let ready = Out::Send(Role::Answer, Control::Rr { nr, pf: true });
    let command = Out::Send(Role::Command, Control::Ua { f: true });
    put_out(text, link, ready, &[]);
    put_out(text, link, Out::SendMessage(1, i_frame(nr)), &[]);
    put_out(text, link, Out::SendUnit, b"\x09");
    put_out(text, link, Out::SendMessage(2, i_frame(nr)), &[]);
    put_out(text, link, command, &[]);
    put_out(text, link, Out::SendUnit, &[0; 261]);
    put_out(text, link, Out::Up, b"\x01");
}
