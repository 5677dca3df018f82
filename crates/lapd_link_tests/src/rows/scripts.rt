//! Worked scripts, each over one link from its beginning.

use crate::rows::Driven;
use crate::text::with_octets;
use lapd_test_text::{Subject, Text, split, wrong_row};
use std::alloc::Global;

/// Scripts: a line `link side k n200 room` makes a new link, `event | outputs` is an event with its
/// outputs, and `= condition` is the condition of the link then. The other lines repeat an event,
/// once for each number from 0 on.
const SCRIPTS: &str = "\
# A user link with a window of three frames loses two messages, asks, and sends them again.
link user 3 3 512
establish | send 00817f; start T200
frame 008173 | confirmed; stop T200; start T203
give 01 | send 0081000001; stop T203; start T200
give 02 | send 0081020002
t200 | send 00810101; start T200
frame 00810900 | -
frame 00810101 | stop T200; start T203; send 0081000001; stop T203; start T200; send 0081020002
= 7 L3I RC=1 V(S)=2 T200 sent 01 02

# A number that was never sent breaks a new link.
link user 3 3 512
establish | send 00817f; start T200
frame 008173 | confirmed; stop T200; start T203
frame 00810104 | report J; send 00817f; stop T203; start T200
= 5 T200

# No enquiry is answered.
link user 3 3 512
establish | send 00817f; start T200
frame 008173 | confirmed; stop T200; start T203
t203 | send 00810101; start T200
t200 | send 00810101; start T200
t200 | send 00810101; start T200
t200 | send 00810101; start T200
t200 | report I; send 00817f; start T200
= 5 T200

# Unit data in state 4, either way.
link user 3 3 512
unit 0a | send 0081030a
frame 02810305 | unit 05
= 4

# A release waits for the answer to the SABME.
link user 3 3 512
establish | send 00817f; start T200
release | -
frame 008173 | send 008153; start T200
frame 008173 | stop T200; release-confirmed
= 4 L3I

# Each SABME is lost; after the last T200 runs no more.
link user 3 3 512
establish | send 00817f; start T200
t200 | send 00817f; start T200
t200 | send 00817f; start T200
t200 | send 00817f; start T200
t200 | report G; released
t200 | -
= 4 L3I RC=3

# A peer that is not there is told so.
link network 1 3 512
frame 008153 | send 00811f
= 4

# The longest message, and then one that is too long.
link network 1 3 512
frame 00817f | send 008173; established; start T203
frame 00810000+260*aa | data +260*aa; start T203; send 00810102
frame 00810200aa+260*aa | report O; send 02817f; stop T203; start T200
= 5 V(R)=1 T200

# The same SABME twice.
link network 1 3 512
frame 00817f | send 008173; established; start T203
frame 00817f | send 008173; report F; start T203
= 7 T203

# Establishment and release by the peer.
link network 1 3 512
frame 00817f | send 008173; established; start T203
frame 008153 | send 008173; released; stop T203
frame 008153 | send 00811f
= 4

# The second of four I frames is lost and REJ sent once, until it comes; then a repeated one is rejected.
link network 1 3 512
frame 00817f | send 008173; established; start T203
frame 0081000001 | data 01; start T203; send 00810102
frame 0081040003 | send 00810902; start T203
frame 0081060004 | start T203
frame 0081020002 | data 02; start T203; send 00810104
frame 0081040003 | data 03; start T203; send 00810106
frame 0081020102 | send 00810907; start T203
frame 0081020102 | send 00810107; start T203
= 7 V(R)=3 rejecting T203

# The numbers of received messages go round.
link network 1 3 512
frame 00817f | send 008173; established; start T203
126 messages come
frame 0081fc007e | data 7e; start T203; send 008101fe
frame 0081fe007f | data 7f; start T203; send 00810100
frame 0081000080 | data 80; start T203; send 00810102
frame 0081020081 | data 81; start T203; send 00810104
= 7 V(R)=2 T203

# A network link whose peer is busy, with room for two messages.
link network 1 3 2
give 01 | refused L1 NotEstablished
frame 00817f | send 008173; established; start T203
frame 00810500 | stop T203; start T200
give 01 | -
give 02 | -
give 03 | refused L2 QueueFull
give 03+260*aa | refused L3 TooLong
= 7 peer-busy T200 unsent 01 02

# A user link with a window of 127 frames gives 134 outputs in the longest step, and then acknowledges all.
link user 127 3 512
establish | send 00817f; start T200
frame 008173 | confirmed; stop T200; start T203
254 messages are given
frame 028100ff | data; send 02810103; acknowledged 127; stop T200; start T203; send 0081fe027f; \
    stop T203; start T200; send 0081000280; send 0081020281; send 0081040282; send 0081060283; \
    send 0081080284; send 00810a0285; send 00810c0286; send 00810e0287; send 0081100288; \
    send 0081120289; send 008114028a; send 008116028b; send 008118028c; send 00811a028d; \
    send 00811c028e; send 00811e028f; send 0081200290; send 0081220291; send 0081240292; \
    send 0081260293; send 0081280294; send 00812a0295; send 00812c0296; send 00812e0297; \
    send 0081300298; send 0081320299; send 008134029a; send 008136029b; send 008138029c; \
    send 00813a029d; send 00813c029e; send 00813e029f; send 00814002a0; send 00814202a1; \
    send 00814402a2; send 00814602a3; send 00814802a4; send 00814a02a5; send 00814c02a6; \
    send 00814e02a7; send 00815002a8; send 00815202a9; send 00815402aa; send 00815602ab; \
    send 00815802ac; send 00815a02ad; send 00815c02ae; send 00815e02af; send 00816002b0; \
    send 00816202b1; send 00816402b2; send 00816602b3; send 00816802b4; send 00816a02b5; \
    send 00816c02b6; send 00816e02b7; send 00817002b8; send 00817202b9; send 00817402ba; \
    send 00817602bb; send 00817802bc; send 00817a02bd; send 00817c02be; send 00817e02bf; \
    send 00818002c0; send 00818202c1; send 00818402c2; send 00818602c3; send 00818802c4; \
    send 00818a02c5; send 00818c02c6; send 00818e02c7; send 00819002c8; send 00819202c9; \
    send 00819402ca; send 00819602cb; send 00819802cc; send 00819a02cd; send 00819c02ce; \
    send 00819e02cf; send 0081a002d0; send 0081a202d1; send 0081a402d2; send 0081a602d3; \
    send 0081a802d4; send 0081aa02d5; send 0081ac02d6; send 0081ae02d7; send 0081b002d8; \
    send 0081b202d9; send 0081b402da; send 0081b602db; send 0081b802dc; send 0081ba02dd; \
    send 0081bc02de; send 0081be02df; send 0081c002e0; send 0081c202e1; send 0081c402e2; \
    send 0081c602e3; send 0081c802e4; send 0081ca02e5; send 0081cc02e6; send 0081ce02e7; \
    send 0081d002e8; send 0081d202e9; send 0081d402ea; send 0081d602eb; send 0081d802ec; \
    send 0081da02ed; send 0081dc02ee; send 0081de02ef; send 0081e002f0; send 0081e202f1; \
    send 0081e402f2; send 0081e602f3; send 0081e802f4; send 0081ea02f5; send 0081ec02f6; \
    send 0081ee02f7; send 0081f002f8; send 0081f202f9; send 0081f402fa; send 0081f602fb; \
    send 0081f802fc; send 0081fa02fd
frame 008101fc | acknowledged 127; stop T200; start T203
= 7 L3I V(S)=126 V(A)=126 V(R)=1 T203

# The other recovery: the last message goes out again with P=1, V(S) stays, and a REJ with F=1 ends the recovery.
link user 3 3 512 last
establish | send 00817f; start T200
frame 008173 | confirmed; stop T200; start T203
give 01 | send 0081000001; stop T203; start T200
give 02 | send 0081020002
t200 | send 0081020102; start T200
state | state 8
t200 | send 00810101; start T200
frame 00810905 | acknowledged 2; stop T200; start T203
give 03 | send 0081040003; stop T203; start T200
= 7 L3I RC=2 V(S)=3 V(A)=2 T200 sent 03

# With the peer busy it is an enquiry.
link user 3 3 512 last
establish | send 00817f; start T200
frame 008173 | confirmed; stop T200; start T203
give 01 | send 0081000001; stop T203; start T200
frame 00810500 | start T200
t200 | send 00810101; start T200
= 8 L3I RC=1 V(S)=1 peer-busy T200 sent 01
";

impl Subject for Driven {
    fn preserves(&mut self, row: &'static str, made: &mut Text) -> bool {
        let (word, rest) = split(row, " ");
        let so = match word {
            "link" => self.begins(rest),
            "=" => self.is_in(rest),
            "254" => self.takes("give ", 254),
            "126" => self.takes("frame 0081", 126),
            _ => self.passes(row),
        };
        self.show_unless(so, made);
        so
    }
}

impl Driven {
    /// Replaces the link by a new one.
    fn begins(&mut self, words: &str) -> bool {
        match Driven::new(self.alloc, words) {
            Some(link) => {
                *self = link;
                true
            }
            None => false,
        }
    }

    /// Whether an event has the outputs of a row `event | outputs`.
    fn passes(&mut self, row: &str) -> bool {
        match with_octets(self.alloc, row, "+260*aa", 260) {
            Some(row) => {
                let (event, outs) = split(row.as_str(), " | ");
                self.gives(event, outs)
            }
            None => false,
        }
    }

    /// Submits this many messages of one octet, or receives them in I frames with N(R)=0 and P=0,
    /// and ignores the outputs.
    fn takes(&mut self, front: &str, count: u8) -> bool {
        let mut done = true;
        for number in 0..count {
            done = done && self.does(message_line(front, number).as_bytes());
        }
        done
    }
}

/// The line that submits or receives the message with this number.
fn message_line(front: &str, number: u8) -> Text {
    let mut line = Text::new();
    line.put(front);
    if front != "give " {
        line.hex(&[number.wrapping_mul(2), 0]);
    }
    line.octet(number);
    line
}

/// The first wrong line of all scripts.
pub(super) fn wrong(alloc: Global, made: &mut Text) -> Option<&'static str> {
    match Driven::new(alloc, "user 1 1 1") {
        Some(mut link) => wrong_row(&mut link, SCRIPTS, made),
        None => Some("no link is made"),
    }
}
