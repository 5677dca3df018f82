//! The end of the long help of `decode`: its lines, captures and output, and an example.

/// The end of the long help of `decode`.
pub const DECODE: &str = "\
`lapd --help` describes scripts and HEX, and lists the faults F1 to F7 and the
exit statuses.

FILE is a capture or a text, by its first octets; a text that does not begin as
a script is read as with --loose. Without FILE and --pcap the text is standard
input. Several files are decoded one by one, each after a line ==> FILE <==. The
exit status is that of the first file that can't be read.

Lines of a text:
  SIDE HEX  this side, user or net, sent these octets
With --loose also, by the first of these forms that a line has:
  user 00 81 7f, net 0x00:0x81  in HEX spaces, tabs, colons, brackets and 0x are
                                ignored
  > [ 00 81 7f ]                libpri's own line: the side that printed it sent
                                these octets
  < [ 00 81 73 ]                the same: the other side sent these octets
  TEXT > [ 00 81 7f ] TEXT      the same in a log, as of Asterisk or FreeSWITCH;
                                also with <
  00000000: 0081 7f    TEXT     a hex dump (xxd, tcpdump), of one line or
                                several with the offset of each
  0000  00 81 7f    TEXT        the same of Wireshark, hexdump -C or od -tx1
  00 81 7f                      HEX alone
Lines of logs of Cisco (debug isdn q921), Osmocom and mISDN, trace lines of
lapd, lists such as 00-81-7f or 0x00,0x81, and dumps of xxd -i, xxd -p and
od -An are rewritten in these forms. Each span that a log names is a line of its
own, and --span picks one. Lines of no form are skipped with --loose, and their
number is printed on standard error at the end.

A capture is pcap or pcapng of link type 177 (LINUX_LAPD) or 203 (LAPD), or
GSMTAP over UDP and IP: in Ethernet, in raw IP, in captures of a loopback
interface of BSD, or in link type 113 or 276 (tcpdump -i any). Packets without
LAPD are skipped, and datagrams to port 4729 that are not GSMTAP are skipped and
counted. A line is printed before the program waits for the next packet, so FILE
may be a pipe. A fault is reported with the place of its packet or block in the
file, in octets from 0, and the exit status is 1. The line of a packet that was
not captured to its end ends with [cut].

If a capture or a loose line does not name the sender of a frame, and --sender
is absent, it is taken from the kind of the frame and its C/R bit, and after >
and < also from the lines before. Of RR, RNR, REJ and XID frames the C/R bit
does not say it: the line begins with ?>?, its role is ? and its last bit P/F.
An object lacks direction and role, and has pf. --follow leaves such a frame
out.

Output for a frame, in one line:
  U>N or N>U    the user side, or the network side, sent it
  SAPI n TEI n  its address
  C or R        it is a command, or a response
  NAME          it is a SABME, DM, UI, DISC, UA, FRMR, XID, RR, RNR, REJ or I
                frame
  N(S)=n        in an I frame
  N(R)=n        in an I, RR, RNR or REJ frame
  P=b or F=b    the P bit of a command, or the F bit of a response
  info=HEX      the information field, if it has octets
Output for octets that do not form a valid frame: U>N or N>U, the fault, such as
F1 TooShort, and HEX. With --names a message of TEI management or of Q.931
follows, in words:
  identity request Ri=6199 Ai=127
                its type, reference number and action indicator
  SETUP cr=1 from origin
                its name and call reference, and whether it is from or to the
                side at which the call began; cr=dummy if it has no reference
  bearer=speech channel=B2 cause=16 calling=5551234 called=200
                then these information elements, in the order of the message

With --no-octets the line has no info=HEX, but only these words.

With --time a trace line of a capture or a log begins with its time, in seconds
with six digits after a point, or with - if it is not known. The time of day is
UTC, such as 09:05:07.000000; local is the zone of TZ or /etc/localtime, such as
2026-11-30 09:05:07.000000. A year or date that a log does not have is not
printed. --sapi, --tei, --kinds and --no-polls choose the frames that are
printed, by their octets; octets that lack what is requested are left out.
--count ends the output after so many printed frames: no more packets are read,
and lines are skipped. With --any-sapi octets with a SAPI other than 0, 16 and
63 are read as if it were 0, and printed with it.

With --follow the remarks on a frame are last, each after `; `. Frames that are
not printed are followed too, up to the last one that --count allows. A frame
that is simply the next one of its link has none. `violation: ` marks what no
two ends do that follow Q.921, if each answer arrives before T200 expires. At
the end of the input a table of each link has its establishments and, of each
direction, the frames by kind, the messages, their octets, the repeated I
frames, the polls, the times of answers and the time that an end was busy.
Messages of TEI management have remarks too.

With --ladder each frame is an arrow between the user at the left and the
network at the right, with the number of its packet, its time, and what the
frames show of both ends: S and the next N(S), R and the last N(R), poll if a
poll is not answered, busy, or SABME sent or DISC sent if that is not answered.
In the arrow are SAPI, TEI and the fields, with --names behind the name of the
message in place of its octets; below it are the remarks. There are no tables.
A frame whose sender is not known is a line between two ?, without a head. --svg
draws the same into a file, on pages of 25 frames, 10000 frames at most without
--count.

--html writes a page for a browser, which loads nothing: the ladder with search,
filters and folding, and the octets of a frame beside their fields. --write
writes the frames as pcap, so that Wireshark opens a log. With - as the file of
--svg, --html or --write the output is standard output.

With --calls a line for each call of Q.931 has its reference and link, the words
of its information elements, when it was set up and answered, how long it
lasted, and how it ended. The options that choose frames choose the calls. With
--violations only frames that violate Q.921 are printed, and with --summary only
the tables.

With --json a line is an object with these members, in the order of their names:
  direction        \"U>N\" or \"N>U\", if the sender is known
  sapi, tei        numbers
  role             \"command\" or \"response\"
  frame            its name
  ns, nr           numbers, if the frame has them
  p, f or pf       0 or 1
  info             \"HEX\", if it has octets
  message          with --names, the words above
  fault, octets    instead of all members but direction: \"F1 TooShort\" and \"HEX\"
  cut              of a capture, true if the packet was not captured to its end
  packet           of a capture, the number of the packet, from 1
  time             of a capture, if known: \"SECONDS\" since 1970, with six digits
                   after a point
  remarks          with --follow, the last one: a list of objects with class,
                   clause and text
For example, in one line:
  {\"direction\":\"U>N\",\"frame\":\"SABME\",\"p\":1,\"role\":\"command\",
   \"sapi\":0,\"tei\":64}

Example. A line after < is a line of the script, and a line after > is printed.
  < user 00817f
  > U>N SAPI 0 TEI 64 C SABME P=1
  < net 008173
  > N>U SAPI 0 TEI 64 R UA F=1
  < user 008100000801
  > U>N SAPI 0 TEI 64 C I N(S)=0 N(R)=0 P=0 info=0801
  < net 00810102
  > N>U SAPI 0 TEI 64 R RR N(R)=1 F=0
  < net 06817f
  > N>U F3 SapiNotServed 06817f
  < user
  > U>N F1 TooShort";
