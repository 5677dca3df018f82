//! Random events, as lines of the command `answer`.

use crate::rows::drawn::plain::Plain;
use lapd_test_text::{Draws, split};

/// Events `event | then | line`, each drawn as often as the list contains it. `then` is the event
/// that follows a frame with N(R). [`Plain::put_words`] explains the letters of a line.
const COMMON: &str = "\
I | N(R) of I | frame _ c n N I
I | N(R) of I | frame _ c n N I
I | N(R) of I | frame _ c n N I
RR | N(R) of RR | frame _ e 01 N
RR | N(R) of RR | frame _ e 01 N
REJ | N(R) of REJ | frame _ e 09 N
RNR | N(R) of RNR | frame _ e 05 N
give | - | give _ G
give | - | give _ G
give | - | give _ G
T200 | - | t200
T203 | - | t203
busy off | - | busy _ off
busy off | - | busy _ off
busy on | - | busy _ on";

const FRAMES: &str = "\
I | N(R) of I | frame _ c n N I
I | N(R) of I | frame _ c n N I
RR | N(R) of RR | frame _ e 01 N
REJ | N(R) of REJ | frame _ e 09 N
RNR | N(R) of RNR | frame _ e 05 N";

const MESSAGES: &str = "give | - | give _ G";

const TIMERS: &str = "T200 | - | t200";

const ESTABLISHES: &str = "\
SABME | - | frame _ c 6f+
establish | - | establish
UA | - | frame _ r 63+
UA | - | frame _ r 63+
release | - | release
T200 | - | t200
T200 | - | t200
T200 | - | t200
T200 | - | t200";

const ALL: &str = "\
I | N(R) of I | frame _ c n N I
I | N(R) of I | frame _ c n N I
RR | N(R) of RR | frame _ e 01 N
REJ | N(R) of REJ | frame _ e 09 N
RNR | N(R) of RNR | frame _ e 05 N
SABME | - | frame _ c 6f+
DISC | - | frame _ c 43+
UI | - | frame _ c 03+ I
DM | - | frame _ r 0f+
UA | - | frame _ r 63+
FRMR | - | frame _ r 87+ 7f00020401
XID | - | frame _ e af+ I
F4 | - | frame _ c 1100
F4 | - | frame _ e 0d00
F4 | - | frame _ c 63+
F4 | - | frame _ r 6f+
F4 | - | frame _ r n N I
F4 | - | frame _ e ff
F5 | - | frame _ c 6f+ 00
F5 | - | frame _ r 0f+ aa
F6 | - | frame _ e 01 N 00
F6 | - | frame _ r 87+ 00000000
F7 | - | frame _ c n N L
F7 | - | frame _ c 03+ L
F7 | - | frame _ e af+ L
T200 | - | t200
T203 | - | t203
busy on | - | busy _ on
busy off | - | busy _ off
establish | - | establish
release | - | release
give | - | give _ G
give | - | give _ L
unit | - | unit J
unit | - | unit _ L";

/// Information of random frames.
const INFORMATION: &[&str] = &["", "00", "05aa", "0102ff"];

/// An event of the table, and the event that follows it.
pub(super) type Drawn = (&'static str, &'static str);

/// The list of events with this number.
fn events(number: u8) -> &'static str {
    match number {
        0 => ALL,
        1 => MESSAGES,
        2 => FRAMES,
        3 => TIMERS,
        4 => COMMON,
        _ => ESTABLISHES,
    }
}

/// Draws of events: the random sequence, and the number of the list that is mostly used.
#[derive(Drop)]
pub(super) struct EventDraws {
    draws: Draws,
    mood: u8,
}

impl EventDraws {
    /// Draws from this seed on.
    pub(super) fn new(seed: u64) -> EventDraws {
        EventDraws {
            draws: Draws::new(seed),
            mood: 0,
        }
    }

    /// A random number below this one.
    fn below(&mut self, limit: u32) -> u32 {
        self.draws.below(limit)
    }

    /// A random number below this one, at most 256.
    fn octet_below(&mut self, limit: u8) -> u8 {
        (self.below(u32::from(limit)) & 0xff) as u8
    }

    /// Draws an event for an end, sets the values of its frame, and composes its line.
    pub(super) fn draw(&mut self, plain: &mut Plain) -> Drawn {
        let number = self.number_for(plain);
        let (event, rest) = split(self.line_of(events(number)), " | ");
        let (then, words) = split(rest, " | ");
        self.receive(plain, number > 0, words.ends_with("L"));
        plain.put_words(words);
        (event, then)
    }

    /// The number of the list to draw from. While messages are queued other lists are rarely used,
    /// so that the queue fills.
    fn number_for(&mut self, plain: &Plain) -> u8 {
        if self.below(200) == 0 {
            self.mood = self.octet_below(4);
        }
        let establishes = plain.state < 7 && self.below(2) == 0;
        let common = if self.mood == 1 { 400 } else { 2 };
        if establishes {
            5
        } else if self.mood == 0 || self.below(60) == 0 {
            0
        } else if self.below(common) == 0 {
            4
        } else {
            self.mood
        }
    }

    /// A random line of a text.
    fn line_of(&mut self, text: &'static str) -> &'static str {
        let count = text.lines().count();
        let place = self.below((count & 0xff) as u32);
        text.lines().nth(place as usize).unwrap_or("")
    }

    /// Draws the numbers, bits and information of a frame. In a calm frame N(R) is valid, and N(S)
    /// mostly the expected one.
    fn receive(&mut self, plain: &mut Plain, calm: bool, long: bool) {
        let mut ns = self.octet_below(128);
        let mut nr = self.octet_below(128);
        let valid = self.octet_below(plain.outstanding().wrapping_add(1));
        let wanted = self.octet_below(6);
        if calm {
            nr = plain.behind_va(valid);
            if wanted > 0 {
                ns = plain.vr();
            }
        }
        let command = 1u8.wrapping_sub(self.octet_below(2));
        let p = 1u8.wrapping_sub(self.octet_below(2));
        let info = INFORMATION.get(usize::from(self.octet_below(4)));
        plain.receive(
            [ns, nr, p, command, u8::from(long)],
            info.copied().unwrap_or(""),
        );
    }
}
