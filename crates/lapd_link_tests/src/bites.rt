//! Handwritten dialogues, with the remarks on each frame. A line is the sender, the frame in
//! hexadecimal digits and, after the colon, the remarks on it. A violation is marked by `!`. A line
//! that begins with `#` names a dialogue, which begins with a new listener.
//!
//! Frames have SAPI 0 and TEI 64: `0081` begins commands of the user and responses of the network,
//! `0281` the others. `7f` is SABME, `73` UA, `53` DISC, `1f` DM. RR, RNR and REJ are `01`, `05` and
//! `09`, then N(R) * 2 + P/F. An I frame is N(S) * 2, N(R) * 2 + P and its message. Each packet is
//! 40 ms after the one before.
//!
//! `fcff03` begins messages of TEI management of the user, `feff03` those of the network. Then `0f`,
//! the reference, the type and Ai * 2 + 1 follow: `01ff` requests a TEI, `0281` assigns TEI 64,
//! `03ff` denies one, `0481` checks TEI 64, `0581` answers, `0681` removes it, `0781` requests a
//! check.

use lapd_follow::{Class, Follower, Packet, Remark, Remarks};
use lapd_frame::{Side, read};
use lapd_test_text::{Text, split};
use std::alloc::Global;
use std::test::Fail;

const DIALOGUES: &str = "\
# an undisturbed call
user 00817f:
net 008173: begins establishment 1; answers packet 1 in 0.040000 s;
user 008100000801:
net 00810102:
net 028100020802:
user 02810102:
user 00810103:
net 00810103: answers packet 7 in 0.040000 s;
user 008153:
net 008173: ends establishment 1; answers packet 9 in 0.040000 s;
# V(R) is not reset when the link is established again
user 00817f:
net 008173: begins establishment 1; answers packet 1 in 0.040000 s;
user 0081000001:
user 0081020002:
net 00810104:
user 00817f:
net 008173: begins establishment 2; answers packet 6 in 0.040000 s;
user 0081000003:
net 00810906: !N(R) 3 is not from 0 to 1;
# V(S) is not reset when the link is established again
user 00817f:
net 008173: begins establishment 1; answers packet 1 in 0.040000 s;
user 0081000001:
net 00810102:
net 02817f:
user 028173: begins establishment 2; answers packet 5 in 0.040000 s;
user 0081020002: first N(S) is 1, not 0;
user 0081040002: N(S) 2, 0 expected;
# an I frame is repeated to a busy peer
user 00817f:
net 008173: begins establishment 1; answers packet 1 in 0.040000 s;
user 0081000001:
net 00810500:
user 0081020002: sent to a busy peer;
user 00810101:
net 00810501: answers packet 6 in 0.040000 s;
user 0081000001: repeated; !sent to a peer that answered a poll by RNR;
net 00810100:
user 0081000001: repeated;
net 00810104:
# N(S) is used again for other octets
user 00817f:
net 008173: begins establishment 1; answers packet 1 in 0.040000 s;
user 0081000001:
user 0081000001: repeated;
user 0081000002: !repeated with other octets;
net 00810102:
user 0081020002:
# UA without SABME
user 00817f:
net 008173: begins establishment 1; answers packet 1 in 0.040000 s;
net 008173: !UA without SABME or DISC;
# N(R) beyond V(S)
user 00817f:
net 008173: begins establishment 1; answers packet 1 in 0.040000 s;
user 0081000001:
net 00810104: !N(R) 2 is not from 0 to 1;
net 00810102:
net 00810100: !N(R) 0 is not from 1 to 1;
# a response without a poll
user 00817f:
net 008173: begins establishment 1; answers packet 1 in 0.040000 s;
net 00810101: !response without a poll;
user 00810101:
user 00810101: packet 4 is not answered;
net 00810101: answers packet 5 in 0.040000 s;
net 00810101: answers an earlier poll;
net 00810101: !response without a poll;
# the window is exceeded
user 00817f:
net 008173: begins establishment 1; answers packet 1 in 0.040000 s;
user 0081000001:
user 0081020001:
user 0081040001:
user 0081060001: !window of 3 is exceeded;
net 00810104:
user 0081080001:
user 00810a0001: !window of 3 is exceeded;
# the capture begins in the middle
net 008173: answers an earlier SABME or DISC;
user 0081040001:
net 00810107: answers an earlier poll;
user 00817f:
net 00810107: answers an earlier poll;
net 008173: begins establishment 1; answers packet 4 in 0.080000 s;
user 0081000001:
# the capture begins on an established link: I frames and their acknowledgements show its numbers
user 00810a0601:
net 0081010c:
net 0281060c02:
user 02810108: numbers known from here on;
user 00810c0803:
net 0081010e:
user 00810c0803: N(S) 6, 7 expected;
net 00810110: !N(R) 8 is not from 7 to 7;
user 008153:
net 008173: ends the establishment; answers packet 9 in 0.040000 s;
# the same; polls and their answers show them
user 00810107:
net 0081010d: answers packet 1 in 0.040000 s;
net 0281010d:
user 02810107: numbers known from here on; answers packet 3 in 0.040000 s;
user 00810c0601:
user 00810c0601: repeated;
user 00810c0602: !repeated with other octets;
# the same; the tag after 127 is 0
user 0081fefe01:
net 00810100:
net 0281fe0002:
user 02810100: numbers known from here on;
net 00810102: !N(R) 1 is not from 0 to 0;
# the same; other N(R), and an answer while two polls are open, show nothing
user 00810a0601:
net 0281060a02:
user 00810a0601:
net 00810112:
net 0281080c02:
net 0281010d:
net 0281010d: packet 6 is not answered;
user 02810107: answers packet 7 in 0.040000 s;
user 02810107: answers an earlier poll;
user 02810108:
user 0281010a: numbers known from here on;
# both establish at once, and frames of the old establishment are still on the line
user 00817f:
net 008173: begins establishment 1; answers packet 1 in 0.040000 s;
user 0081000001:
net 00810102:
user 00817f:
net 028100020802:
net 02817f:
user 028173: answers packet 7 in 0.040000 s;
net 008173: begins establishment 2; answers packet 5 in 0.160000 s;
user 0081000005:
net 00810102:
net 0281000209:
user 02810102:
# a SABME is sent again before its late answer arrives
user 00817f:
user 00817f: packet 1 is not answered;
net 008173: begins establishment 1; answers packet 2 in 0.040000 s;
net 0281000009:
user 02810102:
net 008173: answers an earlier SABME or DISC;
net 0281000009:
user 02810102:
# a lost frame is rejected and sent again
user 00817f:
net 008173: begins establishment 1; answers packet 1 in 0.040000 s;
user 0081000001:
user 0081040003: N(S) 2, 1 expected;
net 00810902:
user 0081020002:
user 0081040003:
net 00810106:
# I and S frames on a released link, until it is established again
user 00817f:
net 008173: begins establishment 1; answers packet 1 in 0.040000 s;
user 008153:
net 00810102:
net 008173: ends establishment 1; answers packet 3 in 0.080000 s;
user 0081000001: !sent on a released link;
net 00810100: !sent on a released link;
user 00817f:
user 0081000001: !sent on a released link;
net 008173: begins establishment 2; answers packet 8 in 0.080000 s;
user 0081020001:
net 00811f: ends establishment 2;
net 00810102: !sent on a released link;
# after a DISC that is sent again, a UA may answer an earlier SABME; the UA to a SABME may be lost
user 00817f:
user 00817f: packet 1 is not answered;
net 008173: begins establishment 1; answers packet 2 in 0.040000 s;
user 008153:
net 008173: answers packet 4 in 0.040000 s;
user 0081000001:
net 028153:
net 028153: packet 7 is not answered;
user 02811f: ends establishment 1; answers packet 8 in 0.040000 s;
net 02817f:
user 0081000001:
# SABME and DISC with P=0, and UA with F=0
user 00816f: !SABME with P=0;
net 008163: begins establishment 1; answers packet 1 in 0.040000 s;
user 00817f:
net 008163: begins establishment 2; !F=0 answers P=1; answers packet 3 in 0.040000 s;
user 008143: !DISC with P=0;
net 008163: ends establishment 2; answers packet 5 in 0.040000 s;
# an I frame with P=0 before the answer to a poll
user 00817f:
net 008173: begins establishment 1; answers packet 1 in 0.040000 s;
user 00810101:
net 00810100:
user 0081000001: !sent before packet 3 is answered;
user 0081000101: repeated; packet 3 is not answered;
net 00810103: answers packet 6 in 0.040000 s;
user 0081020001:
user 00810101:
net 02817f:
user 028173: begins establishment 2; answers packet 10 in 0.040000 s;
user 0081000001:
# TEIs are assigned and denied; then without a request
user fcff030f123401ff: requests a TEI, reference 1234;
net feff030f12340281: assigns TEI 64 to reference 1234;
user fcff030f567801ff: requests a TEI, reference 5678;
net feff030f567803ff: denies a TEI to reference 5678;
net feff030f12340283: assigns TEI 65 to reference 1234; no known request has this reference;
net feff030f567803ff: denies a TEI to reference 5678; no known request has this reference;
# one terminal answers each request of a check
user fcff030f00000781: requests a check of TEI 64;
net feff030f00000481: checks TEI 64;
user fcff030f00010581: answers the check of TEI 64, reference 0001;
net feff030f00000481: checks TEI 64;
user fcff030f00020581: answers the check of TEI 64, reference 0002;
net feff030f000004ff: checks all TEIs;
user fcff030f00030581: answers the check of TEI 64, reference 0003;
# two terminals answer a check, so the TEI is removed
net feff030f00000481: checks TEI 64;
user fcff030f00010581: answers the check of TEI 64, reference 0001;
user fcff030f00010581: answers the check of TEI 64, reference 0001;
user fcff030f00020581: answers the check of TEI 64, reference 0002; \
two terminals answer the check of TEI 64, references 0001 and 0002;
net feff030f00000681: removes TEI 64;
net feff030f00000681: removes TEI 64;
net feff030f000006ff: removes all TEIs;
# a TEI is assigned twice
user fcff030f123401ff: requests a TEI, reference 1234;
net feff030f12340281: assigns TEI 64 to reference 1234;
user fcff030f567801ff: requests a TEI, reference 5678;
net feff030f56780281: assigns TEI 64 to reference 5678; \
!TEI 64 is already assigned to reference 1234;
# a TEI below 64 is assigned
user fcff030f123401ff: requests a TEI, reference 1234;
net feff030f1234027f: assigns TEI 63 to reference 1234; \
!TEI 63 is not for automatic assignment;
# a TEI is assigned again: to the same reference, after a check, and after removals
user fcff030f123401ff: requests a TEI, reference 1234;
net feff030f12340281: assigns TEI 64 to reference 1234;
net feff030f12340281: assigns TEI 64 to reference 1234; no known request has this reference;
net feff030f00000481: checks TEI 64;
net feff030f00000481: checks TEI 64;
user fcff030f567801ff: requests a TEI, reference 5678;
net feff030f56780281: assigns TEI 64 to reference 5678;
net feff030f00000681: removes TEI 64;
user fcff030f000101ff: requests a TEI, reference 0001;
net feff030f00010281: assigns TEI 64 to reference 0001;
net feff030f000006ff: removes all TEIs;
user fcff030f000201ff: requests a TEI, reference 0002;
net feff030f00020281: assigns TEI 64 to reference 0002;
# a terminal that answered the check may have its TEI still
net feff030f00000481: checks TEI 64;
user fcff030f00010581: answers the check of TEI 64, reference 0001;
user fcff030f123401ff: requests a TEI, reference 1234;
net feff030f12340281: assigns TEI 64 to reference 1234; \
a terminal answered the last check of TEI 64;
# these are not messages of TEI management: of the wrong side, to another TEI, too short
user fcff030f12340281:
net feff030f123401ff:
user fc81030f123401ff:
user fcff030f123401:
user fcff030f123401fe:
net feff030f123402ff:
# the links of a TEI that is removed are new
user 00817f:
net 008173: begins establishment 1; answers packet 1 in 0.040000 s;
user 0081000001:
net feff030f00000681: removes TEI 64;
net 00810106:
user 00817f:
net 008173: begins establishment 1; answers packet 6 in 0.040000 s;
net feff030f000006ff: removes all TEIs;
net 00810106:
user 00817f:
net 008173: begins establishment 1; answers packet 10 in 0.040000 s;
";

/// A listener, with the text of its remarks on the last frame.
#[derive(Drop)]
struct Scene {
    line: Option<Follower>,
    packets: u64,
    text: Text,
}

impl Scene {
    /// Takes a frame in hexadecimal digits.
    fn take(&mut self, alloc: Global, sender: Side, digits: &str) {
        if let (Some(line), Ok(octets)) = (&mut self.line, hex::decode(alloc, digits.as_bytes())) {
            self.packets = self.packets.wrapping_add(1);
            let packet = Packet {
                number: self.packets,
                moment: Some(self.packets.wrapping_mul(40_000)),
            };
            follow(line, packet, sender, octets.as_slice(), &mut self.text);
        }
    }
}

/// Takes a frame, and writes the remarks on it.
fn follow(line: &mut Follower, packet: Packet, sender: Side, octets: &[u8], text: &mut Text) {
    if let Ok(frame) = read(octets, sender) {
        if let Ok(said) = line.frame(packet, sender, &frame) {
            put_remarks(text, &said);
        }
    }
}

fn put_remarks(text: &mut Text, said: &Remarks) {
    put_remark(text, &said.establishment);
    put_remark(text, &said.ns);
    put_remark(text, &said.window);
    put_remark(text, &said.busy);
    put_remark(text, &said.nr);
    put_remark(text, &said.bit);
    put_remark(text, &said.answer);
    put_remark(text, &said.identity);
    put_remark(text, &said.conflict);
}

fn put_remark(text: &mut Text, remark: &Option<Remark>) {
    if let Some(remark) = remark {
        text.put(" ");
        text.mark("!", remark.class() == Class::Violation);
        text.item("", remark);
    }
}

/// The first line whose remarks differ.
fn wrong_line(alloc: Global, text: &mut Text) -> Option<&'static str> {
    let mut scene = Scene {
        line: None,
        packets: 0,
        text: Text::new(),
    };
    for line in DIALOGUES.lines() {
        scene.text.clear();
        if line.starts_with("#") {
            scene.line = Follower::new(alloc, Some(3)).ok();
            scene.packets = 0;
        } else {
            let (words, wanted) = split(line, ":");
            let (side, digits) = split(words, " ");
            scene.take(
                alloc,
                if side == "user" {
                    Side::User
                } else {
                    Side::Network
                },
                digits,
            );
            if scene.text.as_str() != wanted {
                text.put(scene.text.as_str());
                return Some(line);
            }
        }
    }
    None
}

#[test]
fn each_frame_of_a_dialogue_has_its_remarks(rt: HostRuntime) -> Result<(), Fail> {
    let mut text = Text::new();
    match wrong_line(rt.alloc(), &mut text) {
        None => Ok(()),
        Some(line) => {
            let printed = text.as_str();
            Err(Fail::new(format_args!("{line}, and not{printed}")))
        }
    }
}
