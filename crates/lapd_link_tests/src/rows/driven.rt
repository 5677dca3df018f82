//! A link that is led by lines as those of the command `answer`: events as text, and the outputs of each as text.

ghost use Rattle.std.specs.Prelude.{◌≡◌, Some, true};
ghost use Rattle.lapd_frame.specs.declared.Address.{Address};
ghost use Rattle.lapd_link.specs.Fault.{is_for_link};
ghost use Rattle.lapd_link.specs.Link.{IsForLink};

use crate::links::parameters_of;
use crate::rows::condition_of;
use lapd_frame::{Frame, FrameFault, MOST_OCTETS, Sapi, Side, Tei, write};
use lapd_link::{Event, Link, LinkFault, Out, Outs};
use lapd_test_text::{Text, split};
use std::alloc::Global;

/// A link of SAPI 0 and TEI 64 that lines lead on, and the outputs of the last step, a line for each.
#[derive(Drop)]
pub(super) struct Driven {
    pub(super) alloc: Global,
    link: Link,
    outs: Outs,
    printed: Text,
}

impl Driven {
    /// A new link of `side k n200 room`; a `last` after them selects the recovery of the last
    /// message. `None` if a number is out of range or an allocation fails.
    pub(super) fn new(alloc: Global, words: &str) -> Option<Driven> {
        let (side, numbers) = split(words, " ");
        let side = if side == "user" {
            Side::User
        } else {
            Side::Network
        };
        let params = parameters_of(numbers)?;
        match Tei::new(64) {
            Some(tei) => match Link::new(alloc, side, Sapi::Call, tei, params) {
                Ok(link) => Some(Driven {
                    alloc,
                    link,
                    outs: Outs::new(),
                    printed: Text::new(),
                }),
                Err(_) => None,
            },
            None => None,
        }
    }

    /// The link.
    pub(super) fn link(&self) -> &Link {
        &self.link
    }

    /// Does a line, and returns whether it is one.
    pub(super) fn does(&mut self, line: &[u8]) -> bool {
        self.printed.clear();
        let line = str::from_utf8(line).unwrap_or("");
        let (word, behind) = split(line, " ");
        match word {
            "frame" | "give" | "unit" => self.takes_digits(word, behind),
            "state" => {
                self.printed.shown("state ", &self.link.state());
                self.printed.put("\n");
                true
            }
            _ => self.takes_event(line),
        }
    }

    /// An event without octets.
    fn takes_event(&mut self, line: &str) -> bool {
        match line {
            "t200" => self.steps(Event::T200, &[]),
            "t203" => self.steps(Event::T203, &[]),
            "establish" => self.steps(Event::Establish, &[]),
            "release" => self.steps(Event::Release, &[]),
            "busy on" => self.steps(Event::BusyOn, &[]),
            "busy off" => self.steps(Event::BusyOff, &[]),
            _ => return false,
        }
        true
    }

    /// A frame of the other side, a message, or unit data.
    fn takes_digits(&mut self, word: &str, digits: &str) -> bool {
        let Ok(octets) = hex::decode(self.alloc, digits.as_bytes()) else {
            return false;
        };
        match word {
            "frame" => self.receives(octets.as_slice()),
            "give" => self.submits(octets),
            _ => self.steps(Event::Unit(octets.len()), octets.as_slice()),
        }
        true
    }

    /// Octets of the other side arrive.
    fn receives(&mut self, octets: &[u8]) {
        match lapd_frame::read(octets, self.link.side().other()) {
            Ok(frame) => self.receives_frame(&frame),
            Err(fault) => self.receives_fault(&fault),
        }
    }

    /// A frame arrives.
    fn receives_frame(&mut self, frame: &Frame<'_>) {
        if self.link.is_for(&frame.address()) {
            self.steps(Event::Heard(frame), frame.info());
        } else {
            self.printed.put("not-mine\n");
        }
    }

    /// Octets arrive that do not form a valid frame.
    fn receives_fault(&mut self, fault: &FrameFault)
        requires for_link { (a : Address) → fault.now.address ≡ Some a
            → is_for_link fault.now.kind ≡ true }
    {
        match &fault.address {
            Some(address) if self.link.is_for(address) => self.steps(Event::Fault(fault.kind), &[]),
            Some(_) => self.printed.put("not-mine\n"),
            None => {
                put_words(&mut self.printed, "discarded ", fault.kind.name());
                self.printed.put("\n");
            }
        }
    }

    /// Makes a step of the link, with the octets that belong to the event.
    fn steps(&mut self, event: Event<'_>, input_octets: &[u8])
        requires for_link { IsForLink self.old.link event }
    {
        match self.link.handle_into(event, &mut self.outs) {
            Ok(()) => put_outs(
                &mut self.printed,
                &self.link,
                self.outs.as_slice(),
                input_octets,
            ),
            Err(fault) => put_refusal(&mut self.printed, fault),
        }
    }

    /// Layer 3 submits a message.
    fn submits(&mut self, message: Vec<u8>) {
        match self.link.give_into(message, &mut self.outs) {
            Ok(()) => put_outs(&mut self.printed, &self.link, self.outs.as_slice(), &[]),
            Err(refused) => put_refusal(&mut self.printed, refused.fault),
        }
    }

    /// Whether these are the outputs of the last line.
    pub(super) fn has_printed(&self, text: &Text) -> bool {
        self.printed.as_bytes() == text.as_bytes()
    }

    /// Does the lines of a script, `; ` between them, whatever they call for.
    fn lead(&mut self, script: &str) -> bool {
        let mut rest = script;
        let mut done = true;
        for _ in 0..16 {
            let (line, behind) = split(rest, "; ");
            done = done && (line.is_empty() || self.does(line.as_bytes()));
            rest = behind;
        }
        done
    }

    /// Whether a line calls for these outputs.
    pub(super) fn gives(&mut self, line: &str, outs: &str) -> bool {
        self.does(line.as_bytes()) && is_printed(self.printed.as_bytes(), outs)
    }

    /// Whether it is in this condition.
    pub(super) fn is_in(&self, condition: &str) -> bool {
        condition_of(self.link()).is(condition)
    }

    /// Whether an event has these outputs and leads to this condition, after a script that led to
    /// its own.
    pub(super) fn keeps_to(&mut self, [script, before, event, outs, after]: [&str; 5]) -> bool {
        self.lead(script) && self.is_in(before) && self.gives(event, outs) && self.is_in(after)
    }

    /// Unless this holds, puts the last outputs and the condition into `made`.
    pub(super) fn show_unless(&self, so: bool, made: &mut Text) {
        if !so {
            let mut text = printed_text(self.printed.as_bytes());
            text.put(" | ");
            text.put(condition_of(self.link()).as_str());
            made.put_first(text.as_str());
        }
    }
}

/// Whether printed lines are these outputs.
fn is_printed(printed: &[u8], outs: &str) -> bool {
    printed_text(printed).is(outs)
}

/// Printed lines as outputs, `; ` between them, or `-` for none.
fn printed_text(printed: &[u8]) -> Text {
    let mut text = Text::new();
    match printed {
        [lines @ .., _] => {
            for octet in lines {
                if *octet == b'\n' {
                    text.put("; ");
                } else {
                    text.put_octets(&[*octet]);
                }
            }
        }
        _ => text.put("-"),
    }
    text
}

/// Puts the outputs of a step, a line for each.
fn put_outs(text: &mut Text, link: &Link, outs: &[Out], input_octets: &[u8]) {
    for out in outs {
        put_out(text, link, out, input_octets);
        text.put("\n");
    }
}

/// Puts the octets of a frame that is sent, or another output.
fn put_out(text: &mut Text, link: &Link, out: &Out, input_octets: &[u8]) {
    match link.frame(out, input_octets) {
        Some(frame) => {
            let mut octets = [0; MOST_OCTETS];
            let length = write(&frame, link.side(), &mut octets);
            text.put("send ");
            text.hex(&octets[..length]);
        }
        None => put_other(text, out, input_octets),
    }
}

/// Puts an output that is no frame.
fn put_other(text: &mut Text, out: &Out, input_octets: &[u8]) {
    match out {
        Out::Up => put_data(text, "data", input_octets),
        Out::UnitUp => put_data(text, "unit", input_octets),
        Out::Established => text.put("established"),
        Out::Confirmed => text.put("confirmed"),
        Out::Released => text.put("released"),
        Out::ReleaseConfirm => text.put("release-confirmed"),
        Out::Acknowledged(count) => text.shown("acknowledged ", count),
        Out::Dropped(count) => text.shown("dropped ", count),
        Out::Report(letter) => put_words(text, "report ", letter.name()),
        Out::Start(timer) => put_words(text, "start ", timer.name()),
        Out::Stop(timer) => put_words(text, "stop ", timer.name()),
        Out::Send(..) | Out::SendMessage(..) | Out::SendUnit => text.put("no frame"),
    }
}

/// Appends a word and a name.
fn put_words(text: &mut Text, word: &str, name: &str) {
    text.put(word);
    text.put(name);
}

/// Appends octets for layer 3.
fn put_data(text: &mut Text, word: &str, octets: &[u8]) {
    text.put(word);
    text.mark(" ", !octets.is_empty());
    text.hex(octets);
}

/// Puts why a request is refused.
fn put_refusal(text: &mut Text, fault: LinkFault) {
    put_words(text, "refused ", fault.name());
    text.put("\n");
}
