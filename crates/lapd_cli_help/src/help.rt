//! The help texts. The parser prints a command's description, then the usage, the commands and the
//! options, and then the text that ends the help: a short one with `-h`, the long one with
//! `--help`. The long ones of the commands are in `command_help` and `decode_help`.

/// The description of the program.
pub const ABOUT: &str = "LAPD, the data link layer of the ISDN D channel (ITU-T Q.921)";

/// The description of the command `answer`.
pub const ANSWER_ABOUT: &str =
    "Runs one end of a link from a script, by default of SAPI 0 and TEI 64";

/// The description of the command `bus`.
pub const BUS_ABOUT: &str = "Runs a bus of terminals that get TEIs from a network, from a script";

/// The help of the options of `bus`.
pub const LINKS: &str = "\
Runs whole sides, with their links and timers,
and the octets in transit between them";

pub const BUS_LADDER: &str = "\
With --links, draws each frame that arrives or is
lost as an arrow between a terminal and the
network";

/// The description of the command `pair`.
pub const PAIR_ABOUT: &str = "Runs two ends of a link and the line between them, from a script";

/// The description of the command `loop`.
pub const LOOP_ABOUT: &str = "As `pair`, with each frame sent over TCP to the program itself";

/// The description of the command `net`.
pub const NET_ABOUT: &str = "Runs the network side of an interface over TCP, from a script";

/// The description of the command `user`.
pub const USER_ABOUT: &str = "Runs the user side of an interface over TCP, from a script";

/// The description of the command `decode`.
pub const DECODE_ABOUT: &str = "Prints the frames of captures, scripts, logs and dumps";

/// The help of `--recovery`.
pub const RECOVERY: &str = "\
The frame that T200 sends in state 7: enquiry,
or last for the last I frame";

/// The help of `--recovery-user`, of `pair` and `loop`.
pub const RECOVERY_USER: &str = "\
The frame that T200 of the user side sends in
state 7: enquiry, or last for the last I
frame";

/// The help of `--recovery-net`, of `pair` and `loop`.
pub const RECOVERY_NET: &str = "\
The frame that T200 of the network side sends
in state 7: enquiry, or last for the last I
frame";

/// The help of `--sapi`, of `answer`.
pub const SAPI: &str = "\
The SAPI of the link: 0 is call control, 16 is
packet communication on the D
channel";

/// The help of `--pri`.
pub const PRI: &str = "\
Primary rate: TEI 0 if --tei is absent, a window
of 7, and SAPI 16 only with --sapi16";

/// The help of `--sapi16`.
pub const SAPI16: &str = "\
With --pri, serves SAPI 16 too; without --pri,
SAPI 16 is always served";

/// The help of `--ladder`, of `pair`.
pub const PAIR_LADDER: &str = "\
Draws each frame that arrives or is lost as an
arrow between the user and the network, with
both ends after that";

/// The help of the files of `decode`.
pub const FILES: &str = "\
Files to print, by their content: captures (pcap, pcapng), or text
as on standard input; - is standard input";

/// The help of the options of `decode`.
pub const LOOSE: &str = "\
Allows spaces, colons, brackets and 0x in HEX, and lines
of libpri and of logs, hex dumps, and HEX alone; skips
and counts other lines";

pub const SPAN: &str = "\
Reads only the lines of this span of a log, such as 1 or
BR0/0; by default each span is printed by itself";

pub const SENDER: &str = "\
The side, net or user, that printed the lines of libpri
and of logs, and that sent the octets of a line or a
capture that does not name it; by default it is taken
from their kind and C/R bit";

pub const NAMES: &str = "\
Adds the message of TEI management or of Q.931 to the
line, in words";

pub const NO_OCTETS: &str = "\
With --names, leaves out the octets of information in
the line";

pub const JSON: &str = "Prints each frame as a JSON object, one per line";

pub const KEEP_GOING: &str = "\
Reports a bad line or packet on standard error, and
skips it";

pub const PCAP: &str = "\
Prints the frames of this pcap or pcapng file as they
arrive, - for standard input; no script is read";

pub const FOLLOW: &str = "\
Adds remarks on what each frame means for its link, and
prints a table of each link at the end; with --strict
also ends with exit status 5 if a frame violates Q.921";

pub const LADDER: &str = "\
Draws the frames as arrows between the user and the
network, with what is known of both ends and the remarks
of --follow";

pub const SVG: &str = "\
Draws the same into this file, as a picture (SVG) that a
browser shows, of 10000 frames at most without --count";

pub const HTML: &str = "\
Writes this file, a page for a browser with the frames,
their octets and fields, and what --follow says, of
10000 frames at most without --count";

pub const WRITE: &str = "\
Writes the frames to this file, as pcap of link type 177
(LINUX_LAPD) with their senders and times, and prints
none";

pub const CALLS: &str = "\
Prints a table of the calls of Q.931 in place of the
frames";

pub const SUMMARY: &str = "Prints only the tables of --follow";

pub const VIOLATIONS: &str = "\
Prints only frames that violate Q.921, with the remarks
and the tables of --follow";

pub const FRAME_TIME: &str = "\
Begins each trace line of a capture or a log with its
time, in seconds: absolute, since 1970; relative, since
the first printed frame; delta, since the printed frame
before; or as day, the time of day in UTC; or as utc or
local, the date and time in UTC or in your
time zone; or none";

pub const KINDS: &str = "\
Prints only frames of these kinds, with commas between:
i (I), s (supervisory), u (unnumbered)";

pub const NO_POLLS: &str = "Leaves out supervisory frames with P or F 1";

pub const COLOR: &str = "\
Prints trace lines in a color for each sender,
violations in red: always, never, or auto, if
standard output is a terminal and
NO_COLOR is not set";

pub const ANY_SAPI: &str = "Prints frames of all SAPIs, not only of 0, 16 and 63";

/// The help of `--json`, of `net` and `user`.
pub const SIDE_JSON: &str = "Prints each line as a JSON object";

/// The help of the options of the clock.
pub const CLOCK: &str = "\
The clock: script, which only `tick` advances, or
real; without this option real at a terminal, and
else script";

pub const TIME: &str = "\
With --clock real, begins each line with the
time, in milliseconds since the first connection";

pub const QUIET: &str = "\
With --clock real, prints no trace lines of
frames";

pub const SERVE: &str = "\
With --clock real, continues after the end of the
script, until the connection closes";

pub const KEEP: &str = "\
With --clock real, accepts or makes the next
connection when one is lost";

pub const CLEAR: &str = "\
With --clock real, first removes the TEIs of all
terminals, as `remove-all` does";

pub const NO_AUDIT: &str = "\
With --clock real, never audits the terminals'
TEIs";

pub const NO_TIES: &str = "\
With --clock real, lets every connection use
every TEI, as a copper bus does";

pub const LIVE_PCAP: &str = "\
With --clock real, writes each frame to this
file, as pcap of link type 177 (LINUX_LAPD), or
to a named pipe as pcapng";

pub const LIVE_LADDER: &str = "\
With --clock real, draws each frame into this
file, as an arrow between the user and the
network, with what is known of both ends: the
lines of decode --ladder";

/// The help of `--strict`.
pub const STRICT: &str = "\
Ends with exit status 5 if a line of the
script was refused";

/// The end of the program's short help.
pub const SHORT_PROGRAM: &str = "\
`lapd` without words is `lapd answer --side net`. The program reads a script
from standard input, a line for each event, and prints the output of each line.
`lapd help COMMAND` lists the lines of a command's script and their output, with
examples. `lapd --help` describes scripts, faults and exit statuses.";

/// The end of each command's short help.
pub const SHORT: &str = "\
The script is read from standard input. `--help` lists its lines and their
output, with an example.";

/// The end of the program's long help.
pub const PROGRAM: &str = "\
`lapd` without words is `lapd answer --side net`. `lapd help answer`, or `lapd
answer --help`, lists the lines of the script and their output, with examples.
So do those of `pair`, `bus`, `net`, `user` and `decode`. `lapd loop` has the
lines of `lapd pair`, without `settle` and `recover`.

Scripts:
  The program reads a script from standard input. It prints the output of each
  line before it waits for the next line, and ends at the end of the script. A
  line ends with a line feed, which the last line may lack. Words are separated
  by one space. Empty lines and lines that begin with # are skipped, but
  counted.

  HEX is octets in hexadecimal digits, two for each octet, in upper or lower
  case. The octets of a frame are those between its flags, without the frame
  check sequence. If there are no octets, HEX is left out together with the
  space before it, in scripts and in output.

At a terminal:
  If standard input is a terminal, a line that is not valid is reported, and the
  next one is read. `help` lists the lines. `quit`, or Ctrl-D at the beginning
  of a line, ends the script.

Faults of octets that do not form a valid frame:
  F1 TooShort          there are fewer than 3 octets, or the second control
                       octet is missing
  F2 BadAddress        the EA bit of the first octet is 1, or that of the second
                       octet is 0
  F3 SapiNotServed     the SAPI is not 0, 16 or 63
  F4 Undefined         the control field is not defined, or not for this command
                       or response
  F5 InfoNotPermitted  a SABME, DISC, DM or UA has an information field
  F6 WrongSize         an RR, RNR or REJ has more than 4 octets, or the
                       information field of a FRMR does not have 5
  F7 InfoTooLong       the information field of an I, UI or XID has more than
                       260 octets (N201)
If there are several, the first one in this order is reported: fewer than 3
octets (F1), F2, the missing control octet (F1), F3, F4, F5, F6, F7.

Exit status:
  0  the script was executed to its end
  1  `line N: bad command`: line N, counted from 1, is not valid for the
     command; the lines before it were executed. Of `decode`: a capture could
     not be read to its end, or a file is empty or neither a capture nor text
  2  the command line is not valid, or an output would overwrite an input of the
     command or a file of another kind: a picture or a ladder replaces a text, a
     capture replaces a capture
  3  `device fault`: a read or a write failed, or 1,000,000 reads did not reach
     the script's end; in `lapd loop`, `net` and `user` also if no connection
     could be made; with --pcap, --ladder and --gsmtap also if the file or the
     socket could not be opened. `port S3 Cut`, or another of S2 to S6: the
     connection of `net` or `user` failed
  4  `out of memory`
  5  with --strict: the script was executed to its end, and `refused` was
     printed for a line, or with --follow of `decode` a frame violates Q.921;
     with --clock real: an expected line was not printed in time
  141  the reader of standard output has ended, as `head` does: nothing is
       reported
The text of a status is printed on standard error. For 1, 3 and 5 a second line
has the reason.";
