//! Rows of steps: moves with their results and the final state of both sides, refused moves, and
//! how a line settles.

use crate::steps::lead;
use std::test::Fail;

/// Moves, then refused moves: a missing frame, a timer that does not run, a frame that T200 waits
/// for, and requests that the link refuses.
const MOVES: &str = "\
# a message
new, k=1: made
user establish: 00817f
net deliver: 008173
user deliver: nothing
user give 0801: 008100000801
net deliver: 00810102
user deliver: nothing
user shows: state 7, V 1 1 0, RC 0, T203, layer 3 initiated, begun [0], gave 0801, in 1 acked
net shows: state 7, V 0 0 1, RC 0, T203, begun [0], got 0801 in 1
# T200 does not expire while the enquiry or its answer is on its way
new, k=1: made
user establish: 00817f
net deliver: 008173
user deliver: nothing
user give 0801: 008100000801
net lose 0: nothing
user expire200: 00810101
user expire200: refused P3 NotYet network 0
user shows: state 8, V 1 0 0, RC 1, T200, layer 3 initiated, sent 1 of 0801, begun [0], gave 0801, in 1
net deliver: 00810101
user expire200: refused P3 NotYet user 0
user deliver: 008100000801
user shows: state 7, V 1 0 0, RC 1, T200, layer 3 initiated, sent 1 of 0801, begun [0], gave 0801, in 1
net shows: state 7, V 0 0 0, RC 0, T203, begun [0], line 008100000801
# the network is busy, so that a message waits
new, k=1: made
user establish: 00817f
net deliver: 008173
user deliver: nothing
net busy: 00810500
user deliver: nothing
user give 0801: nothing
user expire200: 00810101
net deliver: 00810501
user deliver: nothing
user shows: state 7, V 0 0 0, other busy, RC 1, T200, layer 3 initiated, sent 0 of 0801, begun [0], gave 0801, in 0
net shows: state 7, V 0 0 0, busy, RC 0, T203, begun [0]
# the network is no longer busy
new, k=1: made
user establish: 00817f
net deliver: 008173
user deliver: nothing
net busy: 00810500
user deliver: nothing
user give 0801: nothing
user expire200: 00810101
net deliver: 00810501
user deliver: nothing
net free: 00810100
user deliver: 008100000801
net deliver: 00810102
user shows: state 7, V 1 0 0, RC 1, T200, layer 3 initiated, sent 1 of 0801, begun [0], gave 0801, in 1, line 00810102
net shows: state 7, V 0 0 1, RC 0, T203, begun [0], got 0801 in 1
# both establish, and what the network gives is dropped by the user's second SABME; then both start anew
new, k=1: made
user establish: 00817f
net establish: 02817f
net deliver: 008173
user deliver: 028173
user lose 0: nothing
net deliver: nothing
net give aa: 02810000aa
user deliver: nothing
user expire200: 00817f
net deliver: 008173 tells [Send(Answer, Ua { f: true }), Report(F), Dropped(1), Established, Stop(T200), Start(T203)]
user deliver: nothing
user shows: state 7, V 0 0 0, RC 1, T203, layer 3 initiated, begun [0]
net shows: state 7, V 0 0 0, RC 0, T203, layer 3 initiated, begun [0, 0], gave aa, in 1 dropped
user restart: nothing
net restart: nothing
user shows: state 4, V 0 0 0, RC 0, begun [0]
net shows: state 4, V 0 0 0, RC 0, begun [0, 0], gave aa, in 1 dropped
# the network starts anew, and what is on the line is lost
new, k=1: made
user establish: 00817f
net restart: nothing
net deliver: refused P1 NothingThere
user expire200: 00817f
net deliver: 008173
user deliver: nothing
user shows: state 7, V 0 0 0, RC 1, T203, layer 3 initiated, begun [0]
net shows: state 7, V 0 0 0, RC 0, T203, begun [0]
# no SABME is answered
new, k=1: made
user establish: 00817f
net lose 0: nothing
user expire200: 00817f
net lose 0: nothing
user expire200: 00817f
net lose 0: nothing
user expire200: 00817f
net lose 0: nothing
user expire200: nothing tells [Report(G), Released]
user expire200: refused P2 NotRunning
user shows: state 4, V 0 0 0, RC 3, layer 3 initiated, begun []
net shows: state 4, V 0 0 0, RC 0, begun []
# the first of three I frames is lost: the second brings REJ, and all three are sent again
new, k=3: made
user establish: 00817f
net deliver: 008173
user deliver: nothing
user give 01: 0081000001
user give 02: 0081020002
user give 03: 0081040003
net lose 0: nothing
net deliver: 00810900
net deliver: nothing
net shows: state 7, V 0 0 0, rejecting, RC 0, T203, begun [0]
user deliver: 0081000001 0081020002 0081040003
net deliver: 00810102
net deliver: 00810104
net deliver: 00810106
user shows: state 7, V 3 0 0, RC 0, T200, layer 3 initiated, sent 3 of 01 02 03, begun [0], gave 01 02 03, in 1 1 1, line 00810102 00810104 00810106
net shows: state 7, V 0 0 3, RC 0, T203, begun [0], got 01 in 1 02 in 1 03 in 1
# the network is busy, and the user, which recovers by its last message, has none to send again
new, k=3, user with last message: made
user establish: 00817f
net deliver: 008173
user deliver: nothing
net busy: 00810500
user deliver: nothing
user give 0801: nothing
user expire200: 00810101
net deliver: 00810501
user deliver: nothing
user shows: state 7, V 0 0 0, other busy, RC 1, T200, layer 3 initiated, sent 0 of 0801, begun [0], gave 0801, in 0
net shows: state 7, V 0 0 0, busy, RC 0, T203, begun [0]
# the network is no longer busy, and the user would send its last message again
new, k=3, user with last message: made
user establish: 00817f
net deliver: 008173
user deliver: nothing
net busy: 00810500
user deliver: nothing
user give 0801: nothing
user expire200: 00810101
net deliver: 00810501
user deliver: nothing
net free: 00810100
user deliver: 008100000801
net deliver: 00810102
user shows: state 7, V 1 0 0, RC 1, T200, layer 3 initiated, sent 1 of 0801, begun [0], gave 0801, in 1, line 00810102
net shows: state 7, V 0 0 1, RC 0, T203, begun [0], got 0801 in 1
# both RR are lost: the last message comes again, and is rejected with nothing missing
new, k=3, user with last message: made
user establish: 00817f
net deliver: 008173
user deliver: nothing
user give 01: 0081000001
user give 02: 0081020002
net deliver: 00810102
net deliver: 00810104
user lose 0: nothing
user lose 0: nothing
user expire200: 0081020102
user expire200: refused P3 NotYet network 0
net deliver: 00810905
user deliver: nothing tells [Acknowledged(2), Stop(T200), Start(T203)]
user give 03: 0081040003
net deliver: 00810106
user shows: state 7, V 3 2 0, RC 1, T200, layer 3 initiated, sent 1 of 03, begun [0], gave 01 02 03, in 1 acked 1 acked 1, line 00810106
net shows: state 7, V 0 0 3, RC 0, T203, begun [0], got 01 in 1 02 in 1 03 in 1
# both I frames are lost: the last comes again and is rejected, and both are sent again
new, k=3, user with last message: made
user establish: 00817f
net deliver: 008173
user deliver: nothing
user give 01: 0081000001
user give 02: 0081020002
net lose 1: nothing
net lose 0: nothing
user expire200: 0081020102
net deliver: 00810901
user deliver: 0081000001 0081020002
net deliver: 00810102
net deliver: 00810104
user shows: state 7, V 2 0 0, RC 1, T200, layer 3 initiated, sent 2 of 01 02, begun [0], gave 01 02, in 1 1, line 00810102 00810104
net shows: state 7, V 0 0 2, RC 0, T203, begun [0], got 01 in 1 02 in 1
# new
new, k=1: made
user deliver: refused P1 NothingThere
net deliver: refused P1 NothingThere
user lose 0: refused P1 NothingThere
net expire200: refused P2 NotRunning
net expire203: refused P2 NotRunning
user give 01: refused L1 NotEstablished
user give too much: refused L3 TooLong
user unit too much: refused L3 TooLong
user shows: state 4, V 0 0 0, RC 0, begun []
net shows: state 4, V 0 0 0, RC 0, begun []
# a SABME is on its way
new, k=1: made
user establish: 00817f
net lose 1: refused P1 NothingThere
net lose the greatest: refused P1 NothingThere
user expire200: refused P3 NotYet network 0
user expire203: refused P2 NotRunning
user give 01: refused L5 LayerThreeEstablishing
# a command with P=1 behind another frame
new, k=1: made
user unit 05: 00810305
user establish: 00817f
user expire200: refused P3 NotYet network 1
net deliver: nothing
net shows: state 4, V 0 0 0, RC 0, begun [], units 05, line 00817f
# the answer is on its way
new, k=1: made
user establish: 00817f
net unit: 028103
net deliver: 008173
user expire200: refused P3 NotYet user 1
net deliver: refused P1 NothingThere
# both establish: each waits for its own frame on its way to the user
new, k=1: made
user establish: 00817f
net establish: 02817f
net deliver: 008173
user expire200: refused P3 NotYet user 1
net expire200: refused P3 NotYet user 0
# a release waits for the answer to the SABME
new, k=1: made
user establish: 00817f
user release: nothing
user give 01: refused L4 Releasing
user establish: refused L4 Releasing
user shows: state 5, V 0 0 0, RC 0, T200, layer 3 initiated, release pending, begun []
# no room for a third message
new, k=1, room for two: made
user establish: 00817f
net deliver: 008173
user deliver: nothing
user give 01: 0081000001
user give 02: nothing
user give 03: refused L2 QueueFull
user give too much: refused L3 TooLong
user shows: state 7, V 1 0 0, RC 0, T200, layer 3 initiated, sent 1 of 01 02, begun [0], gave 01 02, in 1 0
net shows: state 7, V 0 0 0, RC 0, T203, begun [0], line 0081000001";

/// A move whose allocation fails leaves the pair unchanged, and succeeds when it is made again. No
/// test can make an allocation fail: `tools/refuse-memory` fails each allocation of a run in turn,
/// and the test prints which step met it (docs/DEVELOPING.md).
#[test]
fn moves_without_memory(rt: HostRuntime) -> Result<(), Fail> {
    lead(&rt, MOVES)
}

/// How lines settle, and the results of runs: a run skips the moves that are refused when made one
/// by one.
const SETTLED: &str = "\
# a new pair
new, k=1: made
settle: at rest
user shows: state 4, V 0 0 0, RC 0, begun []
net shows: state 4, V 0 0 0, RC 0, begun []
# the SABME is lost
new, k=1: made
user establish: 00817f
net lose 0: nothing
settle: moves 3 at rest
user shows: state 7, V 0 0 0, RC 1, T203, layer 3 initiated, begun [0]
net shows: state 7, V 0 0 0, RC 0, T203, begun [0]
# the network is busy: the user asks again and again
new, k=1: made
user establish: 00817f
settle: moves 2 at rest
net busy: 00810500
user deliver: nothing
user give 0801: nothing
settle: moves 40
user shows: state 8, V 0 0 0, other busy, RC 1, T200, layer 3 initiated, sent 0 of 0801, begun [0], gave 0801, in 0
net shows: state 7, V 0 0 0, busy, RC 0, T203, begun [0], line 00810101
# three I frames are lost
new, k=3: made
user establish: 00817f
net deliver: 008173
user deliver: nothing
user give 01: 0081000001
user give 02: 0081020002
user give 03: 0081040003
net lose 0: nothing
net lose 0: nothing
net lose 0: nothing
settle: moves 9 at rest
user shows: state 7, V 3 3 0, RC 1, T203, layer 3 initiated, begun [0], gave 01 02 03, in 1 acked 1 acked 1 acked
net shows: state 7, V 0 0 3, RC 0, T203, begun [0], got 01 in 1 02 in 1 03 in 1
settle: at rest
# three I frames are lost, and both recover by their last message
new, k=3, both with last message: made
user establish: 00817f
net deliver: 008173
user deliver: nothing
user give 01: 0081000001
user give 02: 0081020002
user give 03: 0081040003
net lose 0: nothing
net lose 0: nothing
net lose 0: nothing
settle: moves 9 at rest
user shows: state 7, V 3 3 0, RC 1, T203, layer 3 initiated, begun [0], gave 01 02 03, in 1 acked 1 acked 1 acked
net shows: state 7, V 0 0 3, RC 0, T203, begun [0], got 01 in 1 02 in 1 03 in 1
settle: at rest
# moves one by one, of which the second, fifth and sixth are refused
new, k=3: made
user establish: 00817f
user expire200: refused P3 NotYet network 0
net deliver: 008173
user deliver: nothing
user deliver: refused P1 NothingThere
net lose 0: refused P1 NothingThere
user give 0801: 008100000801
net deliver: 00810102
user shows: state 7, V 1 0 0, RC 0, T200, layer 3 initiated, sent 1 of 0801, begun [0], gave 0801, in 1, line 00810102
net shows: state 7, V 0 0 1, RC 0, T203, begun [0], got 0801 in 1
# the same as one run, and then a run of no moves
new, k=3: made
run, user establish, user expire200, net deliver, user deliver, user deliver, net lose 0, user give 0801, net deliver: skipped 3
run: skipped 0
user shows: state 7, V 1 0 0, RC 0, T200, layer 3 initiated, sent 1 of 0801, begun [0], gave 0801, in 1, line 00810102
net shows: state 7, V 0 0 1, RC 0, T203, begun [0], got 0801 in 1
# three hundred messages over a line that loses every tenth frame
new, k=127: made
lose every tenth: at rest, got 300, acked 300, left 0, begun [0], V(S) 44";

#[test]
fn lines_settle(rt: HostRuntime) -> Result<(), Fail> {
    lead(&rt, SETTLED)
}

/// If an allocation fails while the line settles, a second `settle` completes, in at most as many
/// moves.
const SETTLED_AT_LAST: &str = "\
# three I frames are lost
new, k=3: made
user establish: 00817f
net deliver: 008173
user deliver: nothing
user give 01: 0081000001
user give 02: 0081020002
user give 03: 0081040003
net lose 0: nothing
net lose 0: nothing
net lose 0: nothing
settle in at most 9: at rest
user shows: state 7, V 3 3 0, RC 1, T203, layer 3 initiated, begun [0], gave 01 02 03, in 1 acked 1 acked 1 acked
net shows: state 7, V 0 0 3, RC 0, T203, begun [0], got 01 in 1 02 in 1 03 in 1";

#[test]
fn settles_without_memory(rt: HostRuntime) -> Result<(), Fail> {
    lead(&rt, SETTLED_AT_LAST)
}
