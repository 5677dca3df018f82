//! Checks that no held TEI is assigned again, with a separate set of the held TEIs.

use crate::shows::put_tei_message;
use crate::talk::Talk;
use lapd_frame::Side;
use lapd_sides::Acts;
use lapd_tei::{Assigner, AssignerEvent, Tei, TeiKind, TeiMessage, TeiOut};
use lapd_test_text::Text;
use rand_core::{Rng, SeedableRng};
use rand_pcg::Pcg32;

/// The number of random events.
const EVENTS: u32 = 50_000;

/// The number of TEIs that can be assigned: 64 to 126.
const TEIS: u32 = 63;

/// A set of held TEIs, with one bit for each, from 64 on.
#[derive(Clone, Copy)]
struct Held {
    marks: u64,
}

/// The bit of a TEI.
fn mark_of(tei: u8) -> u64 {
    1u64.wrapping_shl(u32::from(tei))
}

impl Held {
    /// Whether this TEI is held.
    fn has(&self, tei: u8) -> bool {
        (64..127).contains(&tei) && self.marks & mark_of(tei) != 0
    }

    /// Whether this message may answer a request with this reference: an assignment of a TEI that
    /// is not held, which is then held, or a denial if all are held.
    fn allows(&mut self, message: &TeiMessage, ri: u16) -> bool {
        match message.kind {
            TeiKind::Assigned => {
                let had = self.has(message.ai);
                self.marks |= mark_of(message.ai);
                message.ri == ri && !had && self.has(message.ai)
            }
            TeiKind::Denied => message.ri == ri && self.marks.count_ones() == TEIS,
            _ => true,
        }
    }

    /// Whether an assigner may have this output for a request with this reference.
    fn allows_out(&mut self, out: &TeiOut, ri: u16) -> bool {
        match out {
            TeiOut::Send(message) => self.allows(message, ri),
            TeiOut::Given(tei) => self.has(tei.value()),
            TeiOut::Free(tei) | TeiOut::Doubled(tei) => {
                if self.has(tei.value()) {
                    self.marks ^= mark_of(tei.value());
                }
                true
            }
            _ => true,
        }
    }

    /// Whether an assigner holds exactly these TEIs.
    fn are_of(&self, assigner: &Assigner) -> bool {
        let mut all = true;
        for number in 0..128 {
            if let Some(tei) = Tei::new(number) {
                all = all && assigner.holds(tei) == self.has(number);
            }
        }
        all
    }
}

/// A random event of an assigner, with this reference. Most responses are for the TEI under check.
fn event(random: &mut Pcg32, assigner: &Assigner, ri: u16) -> AssignerEvent {
    let any = Tei::new((random.next_u32() & 0x7f) as u8).unwrap_or(Tei::group());
    let kind = match random.next_u32() & 0x0f {
        0..6 => TeiKind::Request,
        6 | 7 => return AssignerEvent::Check(any),
        8 | 9 => return AssignerEvent::T201,
        10 | 11 => TeiKind::CheckResponse,
        12 | 13 => TeiKind::Verify,
        14 => return AssignerEvent::Remove(any),
        _ => TeiKind::Remove,
    };
    let checked = assigner.check().unwrap_or(any);
    let ai = if checked == Tei::group() {
        64
    } else {
        checked.value()
    };
    AssignerEvent::Heard(TeiMessage { ri, kind, ai })
}

/// Whether an assigner's outputs for a random event agree with the held TEIs.
fn is_allowed(assigner: &mut Assigner, held: &mut Held, random: &mut Pcg32) -> bool {
    let ri = (random.next_u32() & 0xffff) as u16;
    let event = event(random, assigner, ri);
    let mut all = true;
    for out in assigner.handle(event).as_slice() {
        all = all && held.allows_out(out, ri);
    }
    all && held.are_of(assigner)
}

/// Passes random events to an assigner. Writes the maximum number of held TEIs, or a failure if the
/// assigner's outputs or its held TEIs are wrong.
pub(crate) fn put_drawn(text: &mut Text) {
    let mut random = Pcg32::seed_from_u64(921);
    let mut assigner = Assigner::new(&[]);
    let mut held = Held { marks: 0 };
    let mut most = 0;
    for _ in 0..EVENTS {
        if !is_allowed(&mut assigner, &mut held, &mut random) {
            return text.put("a TEI is given that is held, or another is");
        }
        most = held.marks.count_ones().max(most);
    }
    text.item("most ", &most);
}

/// The message in the only frame of `acts`.
fn answer_of(acts: &Acts) -> Option<TeiMessage> {
    let [frame] = acts.frames() else {
        return None;
    };
    TeiMessage::read(frame.as_slice().strip_prefix(&[0xfe, 0xff, 0x03])?).ok()
}

impl Talk {
    /// Passes the side a request for each TEI that can be assigned, and one more. Writes each
    /// answer, up to the first that assigns a held TEI.
    pub(crate) fn requests(&mut self, text: &mut Text) {
        let mut held = Held { marks: 0 };
        for ri in 0..64 {
            if !self.answers(ri, &mut held, text) {
                text.put("held, or another's");
            }
        }
    }

    /// Passes the side a request with this reference. Returns whether the answer is allowed, and
    /// writes the assigned TEI, or the whole answer if it is a denial.
    fn answers(&mut self, ri: u16, held: &mut Held, text: &mut Text) -> bool {
        let [high, low] = ri.to_be_bytes();
        let request = [0xfc, 0xff, 0x03, 0x0f, high, low, 0x01, 0xff];
        let _ = self.side.take(&request, 0, &mut self.acts);
        match answer_of(&self.acts) {
            Some(message) => {
                if message.kind == TeiKind::Assigned {
                    text.shown("", &message.ai);
                    text.put(" ");
                } else {
                    put_tei_message(text, &message);
                }
                held.allows(&message, ri)
            }
            None => false,
        }
    }
}
