//! Hostile octets: whatever a side receives, it sends only valid frames, discards frames that are
//! for no link, and leaves all other links unchanged.

mod discards;
mod drawn;
mod watch;

use crate::hostile::drawn::{MOST, OctetDraws, beginnings, completed};
use crate::hostile::watch::Watch;
use crate::talk::octets_of;
use std::alloc::Global;
use std::test::Fail;

/// Octets of received frames, from either side: frames of links and of TEI management, and octets
/// that do not form a valid frame.
const RECEIVED: &str = "\
00817f
008153
008173
00811f
02817f
028173
02810101
01817f
00807f
04817f
008101
0081010000
00817f00
00811100
00810d00
00810102
00810104
00810106
00810101
00810100
00810500
00810501
00810900
008100000801
0081000001
0081020002
0081040003
02810000aa
0281977f00020401
0081977f00020401
40817f
408153
408173
fcff030f123401ff
feff030f12340281
feff030f123403ff
feff030f00000481
fcff030f56780581
feff030f00000681
";

/// The number of random strings for a configuration, and the number for each new side.
const STRINGS: u32 = 100_000;

const STRINGS_OF_SIDE: u32 = 1_000;

/// The received octets, returned by reference.
fn received() -> &'static str {
    RECEIVED
}

impl Watch {
    /// Passes each prefix of these octets, the shortest first.
    fn receive_prefixes(&mut self, octets: &[u8]) {
        for len in 0..=octets.len() {
            self.receive(octets.get(..len).unwrap_or(&[]));
        }
    }

    /// Watches a new side, and passes each prefix of the octets that are written in hexadecimal.
    fn receive_line(&mut self, links: &str, state: u8, line: &str) {
        self.begin(links, state);
        match octets_of(self.alloc, line) {
            Some(octets) => self.receive_prefixes(octets.as_slice()),
            None => self.wrong.put("no memory;"),
        }
    }

    /// Passes no octets, each single octet, each pair of octets, and each pair after the address of
    /// the link (SAPI 0 and TEI 64, as a command and as a response).
    fn receive_two_octets(&mut self) {
        self.receive(&[]);
        for first in 0..=u8::MAX {
            self.receive(&[first]);
            for second in 0..=u8::MAX {
                self.receive(&[first, second]);
                self.receive(&[0x00, 0x81, first, second]);
                self.receive(&[0x02, 0x81, first, second]);
            }
        }
    }

    /// Passes enumerated strings: the octets of each line of `RECEIVED` and each prefix of them to a
    /// new side; then to one more side the strings of `receive_two_octets`, and strings of all lengths
    /// that begin like frames.
    fn receive_all(&mut self, links: &str, state: u8) {
        for line in received().lines() {
            self.receive_line(links, state, line);
        }
        self.begin(links, state);
        self.receive_two_octets();
        for beginning in beginnings() {
            self.receive_prefixes(completed(beginning, &[0xab; MOST]).as_slice());
        }
    }

    /// Passes random strings to new sides whose link is set to state 4 and state 7 alternately.
    fn receive_drawn(&mut self, links: &str) {
        let mut draws = OctetDraws::new(921);
        for number in 0..STRINGS {
            if number % STRINGS_OF_SIDE == 0 {
                let half = number / STRINGS_OF_SIDE % 2;
                self.begin(links, if half == 0 { 4 } else { 7 });
            }
            if number % 8 == 0 {
                self.lead();
            }
            self.look(draws.draw());
        }
    }

    /// Passes all strings to the side that these words describe.
    fn receive_everything(&mut self, links: &str) {
        self.receive_all(links, 4);
        self.receive_all(links, 7);
        self.receive_drawn(links);
    }
}

/// Passes all strings to the side that these words describe. Fails if any check failed.
fn receives_all_strings(alloc: Global, links: &str) -> Result<(), Fail> {
    let mut watch = Watch::new(alloc)?;
    watch.receive_everything(links);
    watch.end()
}

/// The side has a link for TEI 64 and each SAPI.
#[test]
fn a_network_side_receives_any_octets(rt: HostRuntime) -> Result<(), Fail> {
    receives_all_strings(rt.alloc(), "net 64 packets")
}

#[test]
fn a_user_side_receives_any_octets(rt: HostRuntime) -> Result<(), Fail> {
    receives_all_strings(rt.alloc(), "user 64 packets")
}

/// The side has a link for every TEI and SAPI.
#[test]
fn a_side_of_all_links_receives_any_octets(rt: HostRuntime) -> Result<(), Fail> {
    receives_all_strings(rt.alloc(), "net all packets")
}
