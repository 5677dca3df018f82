//! The end of each command's long help: the lines of its script, their output and an example.
//! `side_help` has those of `net` and `user`, `decode_help` that of `decode`, and `help` the other help
//! texts.

/// The end of the long help of `answer`.
pub const ANSWER: &str = "\
`lapd --help` describes scripts and HEX, and lists the faults F1 to F7 and the
exit statuses.

Lines of the script:
  frame HEX          the other side sent these octets
  t200, t203         the timer expires; if it does not run, nothing happens
  establish          layer 3 requests that the link is established (DL-ESTABLISH
                     request)
  release            layer 3 requests that the link is released (DL-RELEASE
                     request)
  give HEX           layer 3 submits a message of at most 260 octets (DL-DATA
                     request)
  unit HEX           layer 3 sends unit data of at most 260 octets (DL-UNIT DATA
                     request)
  busy on, busy off  this end can receive no more messages, or can receive them
                     again (own receiver busy)
  state              prints the state
There is no clock: a timer that was started expires only if the script says so.

Output of a line: nothing, or a line in one of these forms for each output, in
order:
  send HEX           this frame is sent to the other side
  start T200         the timer T200, or T203, is started anew
  stop T200          the timer T200, or T203, was running and is stopped
  established        the link is established (DL-ESTABLISH indication)
  confirmed          the link is established, as layer 3 requested (DL-ESTABLISH
                     confirm)
  released           the link is released (DL-RELEASE indication)
  release-confirmed  the link is released, as layer 3 requested (DL-RELEASE
                     confirm)
  data HEX           layer 3 receives the message of the I frame (DL-DATA
                     indication)
  unit HEX           layer 3 receives the unit data of the UI frame (DL-UNIT
                     DATA indication)
  acknowledged N     the other side has acknowledged N messages
  dropped N          N messages that were not acknowledged are discarded
  report X           error code X is reported to management (MDL-ERROR
                     indication)
  refused L1 NotEstablished
                     the request is refused, with one of L1 to L5, and changes
                     nothing
  discarded F1 TooShort
                     the octets are discarded, with one of F1 to F3
  not-mine           the octets have another SAPI or TEI than this link
  state N            the state is N

States:
  4  TEI assigned: the link is released
  5  awaiting establishment: a SABME was sent
  6  awaiting release: a DISC was sent
  7  multiple frame established
  8  timer recovery: the link is established, and this end waits for a response
     with F=1

Error codes:
  A  an unsolicited RR, RNR or REJ response with F=1
  B  an unsolicited DM with F=1
  C  an unsolicited UA with F=1
  D  an unsolicited UA with F=0
  E  a DM with F=0 in state 7 or 8
  F  re-establishment by the other side: a SABME in state 7 or 8
  G  a SABME and its N200 retransmissions were not answered
  H  a DISC and its N200 retransmissions were not answered
  I  the enquiries to the other side were not answered
  J  an N(R) that is not valid
  K  a FRMR in state 7 or 8
  L  a control field that is not defined (F4)
  M  an information field that is not permitted (F5)
  N  a frame of the wrong size (F6)
  O  an information field longer than N201 (F7)

Refusals:
  L1 NotEstablished          a message in state 4
  L2 QueueFull               a message, but the I queue already holds as many as
                             --room allows
  L3 TooLong                 a message or unit data of more than 260 octets
                             (N201)
  L4 Releasing               a message or `establish` while the link is being
                             released
  L5 LayerThreeEstablishing  a message while the link is being established for
                             layer 3

A frame of this link begins with 0081 if it is a command of the user side or a
response of the network side, and with 0281 otherwise. With other values of
--sapi and --tei, the first octet is 4 * SAPI or 4 * SAPI + 2, and the second is
2 * TEI + 1. The control field and the information field follow. The octets of a
control field, in hexadecimal:
  SABME 6f, DM 0f, UI 03, DISC 43, UA 63, FRMR 87, XID af; 10 more for P or F=1
  RR 01, RNR 05, REJ 09, and a second octet of 2 * N(R); 1 more for P=1 or F=1
  I 2 * N(S), and a second octet of 2 * N(R); 1 more for P=1

Examples. A line after < is a line of the script, and a line after > is printed.

The user side, `lapd answer --side user`, establishes the link and submits a
message:
  < establish
  > send 00817f
  > start T200
  < # the network side answers with UA, F=1
  < frame 008173
  > confirmed
  > stop T200
  > start T203
  < give 0801
  > send 008100000801
  > stop T203
  > start T200
  < # the network side acknowledges with RR, N(R)=1
  < frame 00810102
  > acknowledged 1
  > stop T200
  > start T203

The network side, `lapd answer --side net`, answers:
  < # the user side establishes the link with SABME, P=1
  < frame 00817f
  > send 008173
  > established
  > start T203
  < # it sends a message in an I frame, N(S)=0, N(R)=0
  < frame 008100000801
  > data 0801
  > start T203
  > send 00810102
  < # it releases the link with DISC, P=1
  < frame 008153
  > send 008173
  > released
  > stop T203";

/// The end of the long help of `bus`.
pub const BUS: &str = "\
`lapd --help` describes scripts and HEX, and lists the exit statuses.

The terminals are numbered from 0. At the start none of them has a TEI. The
network side assigns the TEIs 64 to 126. A message of the network side is in
transit until it is dropped, and each terminal receives it at most once. A
message of a terminal is in transit until the network side receives it or it is
dropped. Messages are numbered from 0 in the order of sending, among those in
transit in the same direction.

Lines of the script. RI, four hexadecimal digits, is the reference of the
message that the terminal may send:
  ask T RI       terminal T requests a TEI
  t202 T RI      the timer T202 of terminal T expires
  hear I T RI    terminal T receives message I of the network side
  drop I         message I of the network side is lost to the terminals that
                 have not received it
  hear-up I      the network side receives message I of a terminal
  drop-up I      message I of a terminal is lost
  check TEI      the network side checks a TEI, 0 to 126
  t201           the timer T201 of the network side expires
  leave T        terminal T leaves the bus without a message, and no longer has
                 a TEI
There is no clock: a timer that was started expires only if the script says so.

Output of a line: nothing, or a line in one of these forms for each output, in
order:
  up HEX            a terminal sends this frame
  down HEX          the network side sends this frame
  terminal T got N  terminal T now has TEI N
  terminal T gone N
                    terminal T no longer has TEI N
  terminal T failed
                    terminal T got no answer, and no longer requests a TEI
  net free N        no terminal answered the check of TEI N, which is free again
  net in-use N      one terminal answered the check of TEI N
  net doubled N     more than one terminal answered the check of TEI N, which is
                    removed and free again
  refused U1 NothingThere
                    there is no such terminal or message, or the timer does not
                    run
  refused U2 HeardBefore
                    the terminal has received this message before
A refused line changes nothing.

States of a terminal:
  1  TEI unassigned: it receives checks and removals, and does nothing
  2  assign awaiting TEI: it has requested a TEI, up to three times (N202), and
     T202 runs
  3  establish awaiting TEI: the same, in order to establish a link (not on this
     bus)
  4  TEI assigned: it answers a check of its TEI, and loses the TEI if that is
     removed or assigned to another terminal
A check ends when T201 expires. If no terminal has answered by then, the check
is sent a second time.

A message is 0f, two octets of reference, the kind, and 2 * TEI + 1. Its frame
begins with fcff03 from a terminal and with feff03 from the network side. The
kinds, in hexadecimal, are request 01, assigned 02, denied 03, check request 04,
check response 05, remove 06 and verify 07.

Example. A line after < is a line of the script, and a line after > is printed.
  < # terminal 0 requests a TEI, and the network side assigns TEI 64
  < ask 0 1234
  > up fcff030f123401ff
  < hear-up 0
  > down feff030f12340281
  < hear 0 0 0002
  > terminal 0 got 64
  < # a check that terminal 0 does not receive
  < check 64
  > down feff030f00000481
  < t201
  > down feff030f00000481
  < t201
  > net free 64

With --links the network side and each terminal is a whole side at basic access,
as `lapd net` and `lapd user` run it, with its links and timers. A frame of the
network side is in transit to each terminal, and one terminal may lose it while
another takes it. The script's clock begins at 0.

Lines of the script with --links. WHO is net, or the number of a terminal, which
ignores the TEI:
  take T             terminal T takes the first octets in transit to it
  take-up T          the network side takes the first octets in transit from
                     terminal T
  lose T N           the octets at place N, from 0, in transit to terminal T are
                     lost
  lose-up T N        the same, of those in transit from terminal T
  settle             octets are delivered until none are in transit, at most
                     10,000 times: the next of the network side to each
                     terminal, then the next of each to the network side
  tick MS            the clock advances by 1 to 3,600,000 ms, and the timers
                     that are due expire
  establish WHO SAPI TEI, release WHO SAPI TEI
                     layer 3 requests that the link is established, or released
  give WHO SAPI TEI HEX, unit WHO SAPI TEI HEX
                     layer 3 submits a message, or sends unit data
  busy WHO SAPI TEI on|off
                     the link can receive no more messages, or can receive them
                     again
  ask T              terminal T requests a TEI
  check TEI, remove TEI
                     the network side checks a TEI, or removes it
  check-all, remove-all
                     it checks, or removes, the TEIs of all terminals
  join T [TEI]       a new terminal replaces terminal T, with this fixed TEI, 0
                     to 126, or none
  restart            the network side restarts and knows no TEI
  restart-known      it restarts, and knows the TEIs that it held

Output of a line with --links: nothing, or lines that begin with the side, net
or its number:
  0 N>U SAPI 0 ..    the trace line of a frame that the side takes or sends
  0 0 64 confirmed   a report to the layers above, as of `lapd net` and `lapd
                     user`
  0 refused L1 NotEstablished
                     the side refuses the request, with one of L1 to L5, or B1
                     NoLink
  nothing            there is no such terminal, or there are no such octets
  settled N rest     `settle` made N deliveries, and no octets are in transit
  settled N          `settle` made N deliveries, its bound, and octets are in
                     transit
With --ladder a row is a frame that arrives, at < or >, or is lost, at x.
Reports are below it. The row of a frame of the network side is printed when
other output follows it.

Example with --links and --ladder:
  >  0   1  net
  < # terminal 0 requests a link, so it first requests a TEI
  < establish 0 0 0
  < take-up 0
  >  |------>|  63 127 UI P=0 identity request Ri=6199 Ai=127
  >  |   |   |    net tei given 64
  < # both terminals receive the assignment, and the SABME is lost
  < take 0
  < take 1
  < lose-up 0 0
  >  <---<---|  63 127 UI P=0 identity assigned Ri=6199 Ai=64
  >  |   |   |    terminal 0 tei got 64
  >  |-----x |  0 64 SABME P=1
  < # T200 expires
  < tick 1000
  >  |   |   |    at 1000 ms
  < settle
  >  |------>|  0 64 SABME P=1
  >  |   |   |    net 0 64 established
  < # no octets are in transit any more
  < take 0
  >  <---<---|  0 64 UA F=1
  >  |   |   |    terminal 0 0 64 confirmed
  > nothing";

/// The end of the long help of `pair`.
pub const PAIR: &str = "\
`lapd --help` describes scripts and HEX, and lists the exit statuses. `lapd
answer --help` lists the states, the error codes and the refusals L1 to L5.

There are two ends, the user side and the network side, with SAPI 0 and TEI 64,
and a line between them, which keeps frames in order in each direction. Each
line of the script makes one move, and `settle` and `recover` make several.
Nothing else happens: a frame is in transit until a move delivers it or loses
it. SIDE is user or net. --k, --n200 and --room hold for both sides.

Lines of the script:
  establish SIDE     its layer 3 requests that the link is established
                     (DL-ESTABLISH request)
  release SIDE       its layer 3 requests that the link is released (DL-RELEASE
                     request)
  give SIDE HEX      its layer 3 submits a message of at most 260 octets
                     (DL-DATA request)
  unit SIDE HEX      its layer 3 sends unit data of at most 260 octets (DL-UNIT
                     DATA request)
  deliver SIDE       the first frame on its way to this side arrives
  lose SIDE N        frame N of those on their way to this side is lost; the
                     first is 0
  expire200 SIDE     its timer T200 expires
  expire203 SIDE     its timer T203 expires
  busy SIDE on       it can receive no more messages (own receiver busy)
  busy SIDE off      it can receive messages again
  restart SIDE       it restarts in state 4; its I queue is dropped, and the
                     line is empty in both directions
  settle             makes moves, each the first possible of deliver net,
                     deliver user, expire200 user and expire200 net, until none
                     is possible; at most 8 for each message that is neither
                     acknowledged nor dropped, and 32 more
  recover            makes the moves of settle, and expire203 user or expire203
                     net if no other of them is possible and just one end is in
                     state 7, until none is possible; at most 2 for each frame
                     in transit, 3 for each message that is neither acknowledged
                     nor dropped, 6 for each retransmission that --n200 allows,
                     and 16 more

Output of a line: nothing, or a line in one of these forms for each output, in
order:
  U>N SAPI 0 TEI 64 C SABME P=1
                     this frame is sent; `lapd decode --help` describes the
                     parts of the text
  SIDE established   the link is established (DL-ESTABLISH indication)
  SIDE confirmed     the link is established, as layer 3 requested (DL-ESTABLISH
                     confirm)
  SIDE released      the link is released (DL-RELEASE indication)
  SIDE release-confirmed
                     the link is released, as layer 3 requested (DL-RELEASE
                     confirm)
  SIDE data HEX      layer 3 receives the message of the I frame (DL-DATA
                     indication)
  SIDE unit HEX      layer 3 receives the unit data of the UI frame (DL-UNIT
                     DATA indication)
  SIDE acknowledged N
                     the other side has acknowledged N messages
  SIDE dropped N     N messages that were not acknowledged are discarded
  SIDE report X      error code X is reported to management (MDL-ERROR
                     indication)
  refused P1 NothingThere
                     the move is refused, and changes nothing
  settled N rest     `settle` made N moves, and no move is possible any more
  settled N          `settle` made N moves, the most it makes, and another is
                     possible
  recovered N rest   the same for `recover`
  recovered N        the same for `recover`
Timers are not printed, nor what the moves of `settle` and `recover` do.

With --ladder a frame is printed when it arrives or is lost, as an arrow between
the user at the left and the network at the right; a lost one ends in an X.
Beside it are both ends after that: the state, and S, A and R with V(S), V(A)
and V(R). The other lines are notes between the ends, except refusals and the
last two lines, which do not change.

Refusals:
  P1 NothingThere    no such frame is on its way to this side
  P2 NotRunning      the timer does not run
  P3 NotYet SIDE N   T200 may not expire yet: a command with P=1 of this end, or
                     the response with F=1 to one, is still in transit, as frame
                     N on its way to SIDE
  L1 to L5           the link refuses the request

At the end of the script a line for each side is printed: its state, how many
messages it submitted (given) and received, and how many of those submitted were
acknowledged or dropped.

Examples. A line after < is a line of the script, and a line after > is printed.

A message is lost, and T200 recovers it, `lapd pair`:
  < establish user
  > U>N SAPI 0 TEI 64 C SABME P=1
  < deliver net
  > N>U SAPI 0 TEI 64 R UA F=1
  > net established
  < deliver user
  > user confirmed
  < give user 0801
  > U>N SAPI 0 TEI 64 C I N(S)=0 N(R)=0 P=0 info=0801
  < lose net 0
  < # T200 sends an enquiry, and the answer shows that the message is missing
  < expire200 user
  > U>N SAPI 0 TEI 64 C RR N(R)=0 P=1
  < expire200 user
  > refused P3 NotYet net 0
  < deliver net
  > N>U SAPI 0 TEI 64 R RR N(R)=0 F=1
  < deliver user
  > U>N SAPI 0 TEI 64 C I N(S)=0 N(R)=0 P=0 info=0801
  < deliver net
  > net data 0801
  > N>U SAPI 0 TEI 64 R RR N(R)=1 F=0
  < deliver user
  > user acknowledged 1
  < # another message is lost, and the same moves recover it
  < give user 0807
  > U>N SAPI 0 TEI 64 C I N(S)=1 N(R)=0 P=0 info=0807
  < lose net 0
  < settle
  > settled 5 rest
  > user: state 7, given 2, received 0, acknowledged 2, dropped 0
  > net: state 7, given 0, received 2, acknowledged 0, dropped 0

The network side restarts while the user side is still in state 7, `lapd pair`:
  < establish user
  > U>N SAPI 0 TEI 64 C SABME P=1
  < deliver net
  > N>U SAPI 0 TEI 64 R UA F=1
  > net established
  < deliver user
  > user confirmed
  < restart net
  < establish net
  > N>U SAPI 0 TEI 64 C SABME P=1
  < # the user side is established again, and reports it
  < deliver user
  > U>N SAPI 0 TEI 64 R UA F=1
  > user report F
  < deliver net
  > net confirmed
  > user: state 7, given 0, received 0, acknowledged 0, dropped 0
  > net: state 7, given 0, received 0, acknowledged 0, dropped 0";

/// The end of the long help of `loop`.
pub const LOOP: &str = "\
`lapd --help` describes scripts and HEX, and lists the exit statuses. `lapd pair
--help` lists the lines of the script, their output and the refusals: they are
the same here, without `settle` and `recover`.

Before it reads the script, the program connects to itself by TCP, at 127.0.0.1
and a port that the system chooses. Each frame that a line of the script sends
is written to this connection, and read back from it before the next line is
executed. On the connection each frame follows its length, a number of two
octets, the high one first.

If the program can't connect to itself, or a frame does not return, or returns
with other octets, the script ends with `device fault` and exit status 3. The
output of the line is printed before that.

Example. A line after < is a line of the script, and a line after > is printed.

A message is sent, `lapd loop`. The connection carries 0003 00817f, 0003 008173,
0006 008100000801 and 0004 00810102:
  < establish user
  > U>N SAPI 0 TEI 64 C SABME P=1
  < deliver net
  > N>U SAPI 0 TEI 64 R UA F=1
  > net established
  < deliver user
  > user confirmed
  < give user 0801
  > U>N SAPI 0 TEI 64 C I N(S)=0 N(R)=0 P=0 info=0801
  < deliver net
  > net data 0801
  > N>U SAPI 0 TEI 64 R RR N(R)=1 F=0
  < deliver user
  > user acknowledged 1
  > user: state 7, given 1, received 0, acknowledged 1, dropped 0
  > net: state 7, given 0, received 1, acknowledged 0, dropped 0";
