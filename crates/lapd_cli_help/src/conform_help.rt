//! The help of `conform`.

/// The description of the command `conform`.
pub const ABOUT: &str = "Tests another LAPD stack over TCP, by a suite of cases";

/// The help of its options.
pub const CONNECT: &str = "\
Connects to the stack at this address, such as
127.0.0.1:4000";

pub const LISTEN: &str = "Waits for the stack at this address";

pub const OF: &str = "\
The side that is tested, net or user; lapd is
the other one";

pub const STACK: &str = "\
Reads the parameters of the stack from this file;
without it they are those of `lapd net` and `user`";

pub const UPPER: &str = "\
Connects to the upper tester of the stack, which
makes requests of layer 3, at this address";

pub const CASES: &str = "\
Plays only cases whose names fit, such as '7-*' or
8-V-12; may be repeated";

pub const SUITE: &str = "Plays the suite in this file, not the built-in one";

pub const KNOWN: &str = "\
Cases that are known to fail, such as
7-V-01,8-O-02: they do not fail the run";

pub const DRAW: &str = "\
Draws so many stimuli in place of the suite, 1 to
1000000, and ends at the first wrong answer";

pub const SEED: &str = "\
The seed of --draw, 0 to 18446744073709551615; by
default any, which is printed";

pub const ANEW: &str = "\
Connects again for each case; the stack begins anew
with each connection";

pub const REPORT: &str = "\
Writes the frames of each case that fails into this
folder, as a capture, as text, and as a script of
`lapd answer`";

pub const JUNIT: &str = "Writes the results to this file, as JUnit XML";

pub const JSON: &str = "Prints each result as a JSON object";

pub const PRINT: &str = "\
Prints the cases of the suite as text, and tests
nothing";

/// The end of its short help.
pub const SHORT: &str = "\
`--help` describes the results, the stack file, the upper tester and the exit
statuses.";

/// The end of its long help.
pub const CONFORM: &str = "\
The tester is the other side of the line. It plays each case: it sends the
frames that the case names, and compares the answers. A case of a link fails
only if no run of the state table of Q.921 gives the frames that were seen, with
any of the choices that Q.921 leaves open, also when the case is played again.
docs/CONFORM.md describes the suite, and how the verdicts are found.

On the connection each frame follows its length, a number of two octets, the
high one first.

Output: a line for each case, and at the end the counts. Standard error has the
case that is played.
  pass NAME TITLE       the purpose of the case was reached, and the state table
                        allows all frames
  fail NAME TITLE; REASON; clause CLAUSE; wanted FRAMES; seen FRAME
                        the state table does not allow the frame that was seen,
                        or its absence
  known NAME TITLE; REASON; clause CLAUSE; wanted FRAMES; seen FRAME
                        the same, of a case of --known
  inconclusive NAME TITLE; REASON; wanted FRAMES; seen FRAME
                        nothing was decided, for this reason
  n/a NAME TITLE; needs NEED
                        the stack lacks this for the case

Lines of the stack file, each optional. Empty lines and lines that begin with #
are skipped; of two lines with one name the last one counts:
  tei TEI               the TEI of the link of SAPI 0, 0 to 126, or automatic;
                        by default automatic
  k FRAMES              the window, 1 to 127; by default 1
  n200 TIMES            N200, 1 to 100; by default 3
  n202 TIMES            N202, 1 to 100; by default 3
  t200 MS, t201 MS, t202 MS
                        the durations, 1 to 3600000; by default 1000, 1000 and
                        2000
  t203 MS               the duration of T203, or none if the stack lacks it; by
                        default 10000
  sapis some            the stack serves some SAPIs only, or all; by default
                        some
  layer3 passive        layer 3 of the stack makes no requests by itself, or is
                        active; by default passive
  upper REQUEST..       the requests that the upper tester takes: establish,
                        release, give, unit, busy, ask, check, remove; by
                        default all of the side
  confirms yes          the upper tester answers after the stack has processed
                        the request, or no; by default yes
  delay MS              how long a frame is in transit at most, 0 to 10000; by
                        default 0
So a stack of primary rate has the lines `tei 0` and `k 7`.

Lines to the upper tester, each answered by the line `done`:
  establish TEI, release TEI
                        layer 3 requests that the link of SAPI 0 is established,
                        or released
  give TEI, unit TEI    layer 3 submits the message 0102, or the unit data 0801
  busy TEI, ready TEI   the receiver is busy, or ready again
  ask                   a terminal requests a TEI
  check TEI, remove TEI the network side checks, or removes, a TEI
Without --upper, cases that need a request do not apply.

TEI management of a network side is judged only if the stack begins anew with
each case: with --anew the tester closes the connection after a case, and makes
the next one within 10 seconds.

With --draw STIMULI, frames, requests and pauses are drawn near the numbers of
the link, in rounds of 30, and judged as cases are; without --upper no requests
are drawn. A round that passes is not printed. The run ends at the first round
that fails, also when it is played again. Stimuli are left out as long as it
fails, and the rest is printed as a case. The output is a suite for --suite:
  # fail NAME drawn by seed SEED in round NUMBER; REASON; clause CLAUSE;
    seen FRAME
  case NAME drawn by seed SEED in round NUMBER
  ..
  # 120 stimuli of seed SEED in 4 rounds: 3 pass, 1 fail, 0 not judged
The same seed, number of stimuli, stack file and --upper draw the same stimuli.

With --report DIR, a case that fails is written to DIR/NAME.pcap, a capture, to
DIR/NAME.txt, its frames as lines that `lapd decode` reads, and if it tests a
link to DIR/NAME.answer, a script of `lapd answer`, which prints what our link
does instead; its first line has the command. With --json a result has the
members case, clause, needs, reason, seen, title, verdict and wanted, unless
they are empty, and the counts are not printed. With --draw the result has also
the member suite, and the counts are an object with the members failed, rounds,
seed, stimuli and unjudged. In the file of --junit an inconclusive case is
skipped, and so is one that does not apply or is known to fail.

Exit status:
  0  no case failed, or --known has each that did
  1  another case failed
  2  the command line, the stack file or the suite is not valid
  3  `device fault`: no connection could be made, or it was lost; or a file
     could not be read or written
  4  no case passed or failed, so nothing was judged; or `out of memory`
  141  the reader of standard output has ended

Example: `lapd net` is the stack under test.
  $ lapd net --listen 127.0.0.1:4000 --clock real --serve \\
      </dev/null >/dev/null &
  $ lapd conform --connect 127.0.0.1:4000 --of net --cases '7-V-0*'
  pass 7-V-01 RR command with P=1
  ..
  9 cases: 9 pass, 0 fail, 0 inconclusive, 0 n/a";
