//! The end of the long help of `net` and `user`: the lines of their script, their output and an
//! example.

/// The end of the long help of `net`.
pub const NET: &str = "\
`lapd --help` describes scripts and HEX, and lists the faults F1 to F7 and the
exit statuses. `lapd answer --help` lists the states, the error codes and the
refusals L1 to L5.

The program waits for one connection, and then executes the script. User sides,
such as `lapd user`, are behind the connection. On standard error the program
prints the address on which it listens, with the port that the system chose for
port 0; the address that connected; and at the end of the script, that the other
side has closed the connection, if it has.

At the start no TEI is known. The network side assigns one to each terminal that
requests one, from 64 on, and adds its links with SAPI 0 and 16. With --tei, the
links of that TEI exist from the start, and with --pri those of TEI 0. The clock
begins at 0, and only `tick` advances it. T200 takes 1000 ms, T201 1000 ms and
T203 10000 ms, unless --t200, --t201 and --t203 set them.

Lines of the script. SAPI is 0, 16 or 63. TEI is 0 to 127; 127 means all
terminals:
  read                  waits for the next frame of the connection, and receives
                        it
  tick MS               advances the clock by MS milliseconds, 1 to 3600000, and
                        expires what is due
  establish SAPI TEI    layer 3 requests that the link is established
                        (DL-ESTABLISH request)
  release SAPI TEI      layer 3 requests that the link is released (DL-RELEASE
                        request)
  give SAPI TEI HEX     layer 3 submits a message of at most 260 octets (DL-DATA
                        request)
  unit SAPI TEI HEX     layer 3 sends unit data of at most 260 octets (DL-UNIT
                        DATA request)
  check TEI             checks whether a TEI is in use, and by one terminal
                        alone
  check-all             sends one check request to all terminals; each with a
                        TEI answers with it
  remove-all            removes all TEIs from the terminals, if this side holds
                        none

Check only TEIs that are held. A check of a TEI that no terminal has may end
after the TEI was assigned, and then frees it under its terminal. `check-all`
has no effect during a check.

Output of a line: the frame that was read, the frames that are sent, and then
the reports to the layers above:
  U>N SAPI 0 TEI 64 C SABME P=1
                        a frame; `lapd decode --help` describes the parts of the
                        text
  tei given N           TEI N is assigned
  tei free N            no terminal answered the check of TEI N: it is free
                        again, and its links are removed
  tei in-use N          one terminal answered the check of TEI N
  tei doubled N         more than one terminal answered the check of TEI N: it
                        is removed with its links
  SAPI TEI established  the link is established; `lapd answer --help` has the
                        other words
  refused B1 NoLink     there is no such link; a TEI has to be assigned first
  refused L1 NotEstablished
                        the link refuses the request, with one of L1 to L5
  refused S1 End        `read`: the other side has closed the connection
A refused request changes nothing. Octets with one of F1 to F3, and frames for
no link, are printed and discarded. Octets with one of F4 to F7 are printed, and
their link reports the fault.

With --json each line is an object, with its members in the order of their
names. The members of a frame are those of `lapd decode --help`. A report has
`primitive`, which is one of the words above, such as \"established\" or \"tei
given\"; `sapi` and `tei`, if it is about a link or a TEI; and `info`, `count` or
`report`, if octets, a number or a letter follow the word. A refusal has
`refused`, such as \"B1 NoLink\", and --strict counts it.

On the connection each frame follows its length, a number of two octets, the
high one first. A fault of the connection ends the script: `port` and the fault
are printed on standard error, and the exit status is 3. The faults are S2
BadLength (a length that is not from 3 to 264), S3 Cut (the end inside a frame),
S4 Device, S5 TooManyTurns and S6 Failed. With the real clock S2 is a length of
0: a frame of 1 or 2 octets is discarded, and of more than 264 octets the first
265 are processed, printed and recorded.

Example, with `lapd user --connect 127.0.0.1:4000` on the other side, whose
lines `lapd user --help` has. A line after < is a line of the script, and a line
after > is printed.
  < # a terminal requests a TEI
  < read
  > U>N SAPI 63 TEI 127 C UI P=0 info=0f619901ff
  > N>U SAPI 63 TEI 127 C UI P=0 info=0f61990281
  > tei given 64
  < # it establishes its link
  < read
  > U>N SAPI 0 TEI 64 C SABME P=1
  > N>U SAPI 0 TEI 64 R UA F=1
  > 0 64 established
  < # it sends a message
  < read
  > U>N SAPI 0 TEI 64 C I N(S)=0 N(R)=0 P=0 info=0801
  > N>U SAPI 0 TEI 64 R RR N(R)=1 F=0
  > 0 64 data 0801
  < give 0 64 0807
  > N>U SAPI 0 TEI 64 C I N(S)=0 N(R)=1 P=0 info=0807
  < read
  > U>N SAPI 0 TEI 64 R RR N(R)=1 F=0
  > 0 64 acknowledged 1
  < # it releases its link
  < read
  > U>N SAPI 0 TEI 64 C DISC P=1
  > N>U SAPI 0 TEI 64 R UA F=1
  > 0 64 released

With --clock real, or at a terminal without --clock, the clock is that of the
system. The side is served whenever the program waits, also for the next line of
a terminal or a pipe: frames are received when they arrive, and timers expire
when they are due. A script in a file is executed as fast as its lines allow.
These lines wait:
  read [MS]             until the next frame, for at most MS milliseconds; then
                        `nothing` is printed
  run [MS]              for MS milliseconds, or until the other side closes the
                        connection
  wait MS               for MS milliseconds
  expect WORDS.. MS     until a line is printed that begins with WORDS, for at
                        most MS milliseconds; then `expected WORDS..` is
                        printed, and the script ends with exit status 5; a *
                        stands for the rest of a word, as in `expect 0 *
                        established 3000`
MS is 1 to 3600000. `tick` is not valid; the other lines above are, and so are
these:
  busy SAPI TEI on      this side can receive no more messages of the link (own
                        receiver busy)
  busy SAPI TEI off     it can receive them again
  remove TEI            removes a TEI from the terminals that have it, and its
                        links
  state [SAPI TEI]      prints the state of the link, or of each link: the
                        state, V(S), V(A), V(R), RC, the messages in its queue,
                        who is busy, and each running timer with the
                        milliseconds left
  stats                 prints how many frames of each kind were sent and
                        received, their octets, I frames sent again, discarded
                        frames, and reports by their letters
  impair LOSS% [MS]     from now on loses each frame that this side sends with
                        this chance, and delays the others by MS milliseconds;
                        `impair 0%` ends it

The program ends at the end of the script. With --serve the side is then served
until the other side closes the connection, also with `</dev/null`.

A connection is lost when the other side closes it or breaks its framing, or
when it fails. `connection lost` is printed when the side next waits, and
standard error has the reason. A closed connection ends `run`, `wait` and
`expect`, and the script continues: `lost` and the frame is printed for a frame
that is sent from then on. A connection that fails ends the script with `port`,
its fault and exit status 3.

With --keep the program accepts the next connection when one is lost, and the
side continues as over a line that was interrupted: frames in transit are lost,
and so are those that are sent while there is no connection. `run`, `wait` and
`expect` do not end then.

With --clear, when the first connection is made, the program removes all TEIs
from the terminals, as `remove-all` does, before it sends anything else.

With --terminals N the program accepts up to N connections, each of a terminal
on the bus. Each frame of this side is sent to all of them, and only terminals
with its TEI use it. The script begins with the first connection. A connection
is removed if it closes, breaks the framing, does not accept a frame, or sends
no whole frame for --idle-limit MS. `connection lost` is printed, standard error
has its address and the reason, and the others continue. A closed connection
does not end `run` then, and --keep changes nothing.

With --keep or --terminals above 1, at basic access, the program audits the TEIs
of 64 to 126: when a terminal connects, and every --audit MS, it asks all
terminals for their TEIs. It removes a TEI that this side does not hold, such as
one that a former run assigned, and checks one that two terminals have, or that
no terminal answers for while no link of it is established.

With --terminals above 1 a TEI is tied to the connection that requested it, or
that used it first, until that connection ends. A frame with this TEI over
another connection is dropped, and the TEI is removed there. Anybody who can
connect is a terminal: listen only where you trust all.

With --keep and one connection, the connection ends if a SABME or DISC is never
answered.

If this side has no link for a frame, the frame is discarded. Standard error
reports the first one of each SAPI and TEI. A report on standard error is
dropped if nobody reads it, and so are frames that the reader of a named pipe of
--pcap or --ladder does not take at once; their number is reported.

T200 has to be longer than the way to the other side and back. Otherwise frames
are sent again whose answers are still on their way.

With --json and --time the last member is `time`. `expect` compares the words
that are printed without --json. Of a line that was not printed in time, the
words are in the member `expected`. The words of `nothing`, `connection lost`,
`state` and `stats` are in `line`, and `sapi`, `tei` and each NAME=NUMBER are
members.

Example, with the real clock:
  $ printf '%s\\n' 'expect 0 64 established 60000' 'give 0 64 0807' \\
      'expect 0 64 acknowledged 5000' state |
      lapd net --listen 127.0.0.1:4000 --clock real --time
  1 U>N SAPI 63 TEI 127 C UI P=0 info=0f619901ff
  1 N>U SAPI 63 TEI 127 C UI P=0 info=0f61990281
  1 tei given 64
  2 U>N SAPI 0 TEI 64 C SABME P=1
  2 N>U SAPI 0 TEI 64 R UA F=1
  2 0 64 established
  2 N>U SAPI 0 TEI 64 C I N(S)=0 N(R)=0 P=0 info=0807
  3 U>N SAPI 0 TEI 64 R RR N(R)=1 F=0
  3 0 64 acknowledged 1
  3 0 64 state 7 V(S)=1 V(A)=1 V(R)=0 RC=0 queue=0 T203=10000
  3 16 64 state 4 V(S)=0 V(A)=0 V(R)=0 RC=0 queue=0";

/// The end of the long help of `user`.
pub const USER: &str = "\
`lapd --help` describes scripts and HEX, and lists the faults F1 to F7 and the
exit statuses. `lapd answer --help` lists the states, the error codes and the
refusals L1 to L5.

The program connects, and then executes the script. A network side, such as
`lapd net`, is behind the connection. On standard error the program prints the
address to which it is connected, and at the end of the script, that the other
side has closed the connection, if it has.

This side is one terminal, at the start without a TEI. The lines `ask` and
`establish` request one, and `establish` takes effect once the TEI is assigned.
With --tei the side has that TEI from the start, and with --pri TEI 0, and
requests none. The clock begins at 0, and only `tick` advances it. T200 takes
1000 ms, T202 2000 ms and T203 10000 ms, unless --t200, --t202 and --t203 set
them.

Lines of the script. SAPI is 0, 16 or 63. TEI is 0 to 127 and ignored: the links
have the terminal's own:
  read                  waits for the next frame of the connection, and receives
                        it
  tick MS               advances the clock by MS milliseconds, 1 to 3600000, and
                        expires what is due
  establish SAPI TEI    layer 3 requests that the link is established
                        (DL-ESTABLISH request)
  release SAPI TEI      layer 3 requests that the link is released (DL-RELEASE
                        request)
  give SAPI TEI HEX     layer 3 submits a message of at most 260 octets (DL-DATA
                        request)
  unit SAPI TEI HEX     layer 3 sends unit data of at most 260 octets (DL-UNIT
                        DATA request)
  ask                   requests a TEI

Output of a line: the frame that was read, the frames that are sent, and then
the reports to the layers above:
  U>N SAPI 0 TEI 64 C SABME P=1
                        a frame; `lapd decode --help` describes the parts of the
                        text
  tei got N             the terminal has TEI N now, and its links exist
  tei gone N            it no longer has TEI N, and its links are removed
  tei failed            it got no answer, and no longer requests a TEI
  SAPI TEI established  the link is established; `lapd answer --help` has the
                        other words
  refused B1 NoLink     there is no such link; the terminal has no TEI
  refused L1 NotEstablished
                        the link refuses the request, with one of L1 to L5
  refused S1 End        `read`: the other side has closed the connection
A refused request changes nothing. Octets with one of F1 to F3, and frames for
no link, are printed and discarded. Octets with one of F4 to F7 are printed, and
their link reports the fault.

With --json each line is an object, with its members in the order of their
names. The members of a frame are those of `lapd decode --help`. A report has
`primitive`, which is one of the words above, such as \"established\" or \"tei
given\"; `sapi` and `tei`, if it is about a link or a TEI; and `info`, `count` or
`report`, if octets, a number or a letter follow the word. A refusal has
`refused`, such as \"B1 NoLink\", and --strict counts it.

On the connection each frame follows its length, a number of two octets, the
high one first. A fault of the connection ends the script: `port` and the fault
are printed on standard error, and the exit status is 3. The faults are S2
BadLength (a length that is not from 3 to 264), S3 Cut (the end inside a frame),
S4 Device, S5 TooManyTurns and S6 Failed. With the real clock S2 is a length of
0: a frame of 1 or 2 octets is discarded, and of more than 264 octets the first
265 are processed, printed and recorded.

Example, with `lapd net --listen 127.0.0.1:4000` on the other side, whose lines
`lapd net --help` has. A line after < is a line of the script, and a line after
> is printed.
  < establish 0 127
  > U>N SAPI 63 TEI 127 C UI P=0 info=0f619901ff
  < # it has a TEI now, and establishes its link
  < read
  > N>U SAPI 63 TEI 127 C UI P=0 info=0f61990281
  > U>N SAPI 0 TEI 64 C SABME P=1
  > tei got 64
  < read
  > N>U SAPI 0 TEI 64 R UA F=1
  > 0 64 confirmed
  < give 0 64 0801
  > U>N SAPI 0 TEI 64 C I N(S)=0 N(R)=0 P=0 info=0801
  < read
  > N>U SAPI 0 TEI 64 R RR N(R)=1 F=0
  > 0 64 acknowledged 1
  < # the network side sends a message
  < read
  > N>U SAPI 0 TEI 64 C I N(S)=0 N(R)=1 P=0 info=0807
  > U>N SAPI 0 TEI 64 R RR N(R)=1 F=0
  > 0 64 data 0807
  < release 0 64
  > U>N SAPI 0 TEI 64 C DISC P=1
  < read
  > N>U SAPI 0 TEI 64 R UA F=1
  > 0 64 release-confirmed

With --clock real, or at a terminal without --clock, the clock is that of the
system. The side is served whenever the program waits, also for the next line of
a terminal or a pipe: frames are received when they arrive, and timers expire
when they are due. A script in a file is executed as fast as its lines allow.
`tick` is not valid; the lines are:
  read [MS], run [MS], wait MS, expect WORDS.. MS, stats, impair LOSS% [MS]
                        as in `lapd net --help`; WORDS may leave out the TEI
                        after a SAPI, as in `expect 0 confirmed 3000`
  establish SAPI, release SAPI, give SAPI HEX, unit SAPI HEX, ask
                        as above, without a TEI: the links have the terminal's
                        own
  busy SAPI on, busy SAPI off, state [SAPI]
                        as in `lapd net --help`, without the TEI
The seed of the references of TEI management is --seed, or else a number that
the system draws.

The program ends at the end of the script. With --serve the side is then served
until the other side closes the connection. With --keep the program connects
again when the connection is lost: after 100 ms, and then after pauses that
double up to 5 seconds. The side continues as over a line that was interrupted:
frames in transit are lost, and so are those that are sent while there is no
connection. `lapd net --help` describes the line `connection lost`, which is
printed for each lost connection.

T200 has to be longer than the way to the other side and back. Otherwise frames
are sent again whose answers are still on their way.

With --json and --time the last member is `time`. `expect` compares the words
that are printed without --json. Of a line that was not printed in time, the
words are in the member `expected`. The words of `nothing`, `connection lost`,
`state` and `stats` are in `line`, and `sapi`, `tei` and each NAME=NUMBER are
members.

Example, with the real clock and the `lapd net` of the example of `lapd net
--help` on the other side:
  $ printf 'establish 0\\nexpect 0 64 confirmed 5000\\nread 1000\\n' |
      lapd user --connect 127.0.0.1:4000 --clock real --time
  0 U>N SAPI 63 TEI 127 C UI P=0 info=0f619901ff
  1 N>U SAPI 63 TEI 127 C UI P=0 info=0f61990281
  1 U>N SAPI 0 TEI 64 C SABME P=1
  1 tei got 64
  2 N>U SAPI 0 TEI 64 R UA F=1
  2 0 64 confirmed
  2 N>U SAPI 0 TEI 64 C I N(S)=0 N(R)=0 P=0 info=0807
  2 U>N SAPI 0 TEI 64 R RR N(R)=1 F=0
  2 0 64 data 0807";
