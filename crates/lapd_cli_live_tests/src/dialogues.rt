//! Scripts from files: the printed lines, and their times.

use crate::scenario_run::all_rows;
use std::test::Fail;

const ROWS: &str = r#"
=== a SABME is answered, and the rest of T203 is printed
net file done
5 00817f
---
run 100
state 0 64
---
5 U>N SAPI 0 TEI 64 C SABME P=1
5 N>U SAPI 0 TEI 64 R UA F=1
5 0 64 established
100 0 64 state 7 V(S)=0 V(A)=0 V(R)=0 RC=0 queue=0 T203=9905
=== a TEI is removed from its terminal, with its links (Q.921 5.3.4)
net file done
5 00817f
---
run 10
remove 64
---
5 U>N SAPI 0 TEI 64 C SABME P=1
5 N>U SAPI 0 TEI 64 R UA F=1
5 0 64 established
10 N>U SAPI 63 TEI 127 C UI P=0 info=0f00000681
10 N>U SAPI 63 TEI 127 C UI P=0 info=0f00000681
10 tei free 64
10 0 64 released
=== all TEIs are checked and removed, once none is held (Q.921 5.3.3, 5.3.4)
net file done
---
check-all
remove-all
remove 64
remove-all
---
0 N>U SAPI 63 TEI 127 C UI P=0 info=0f000004ff
0 N>U SAPI 63 TEI 127 C UI P=0 info=0f00000681
0 N>U SAPI 63 TEI 127 C UI P=0 info=0f00000681
0 tei free 64
0 N>U SAPI 63 TEI 127 C UI P=0 info=0f000006ff
0 N>U SAPI 63 TEI 127 C UI P=0 info=0f000006ff
=== T200 expires N200 times, and once more (Q.921 5.5.1.3)
net file done
---
establish 0 64
run 4500
---
0 N>U SAPI 0 TEI 64 C SABME P=1
1000 N>U SAPI 0 TEI 64 C SABME P=1
2000 N>U SAPI 0 TEI 64 C SABME P=1
3000 N>U SAPI 0 TEI 64 C SABME P=1
4000 0 64 report G
4000 0 64 released
=== T203 polls, and starts again after the answer (Q.921 5.6.7, Figure B.7)
net file done
0 00817f
10100 02810101
---
run 20100
---
0 U>N SAPI 0 TEI 64 C SABME P=1
0 N>U SAPI 0 TEI 64 R UA F=1
0 0 64 established
10000 N>U SAPI 0 TEI 64 C RR N(R)=0 P=1
10100 U>N SAPI 0 TEI 64 R RR N(R)=0 F=1
20100 N>U SAPI 0 TEI 64 C RR N(R)=0 P=1
=== an enquiry without an answer, N200 times (Q.921 5.6.7, 5.7)
net file quiet done
0 00817f
---
expect 0 64 report I 20000
---
0 0 64 established
14000 0 64 report I
=== an expected line is printed
net file quiet done
7 00817f
---
expect 0 64 est 500
stats
---
7 0 64 established
7 sent frames=1 octets=3 UA=1 again=0
7 received frames=1 octets=3 SABME=1 discarded=0
7 reports
=== an expected line is not printed
net file quiet unmet
7 00817f
---
expect 0 64 report 500
stats
---
7 0 64 established
500 expected 0 64 report
=== a terminal expects the lines of its link without the TEI, which its script doesn't know
user file quiet done
5 feff030f61990281
10 008173
20 028100000801
30 028153
---
establish 0
expect tei got * 100
expect 0 confirmed 100
expect 0 da 100
expect 0 64 released 100
---
5 tei got 64
10 0 64 confirmed
20 0 64 data 0801
30 0 64 released
=== a star stands for the rest of a word, and for no more
net file quiet unmet
5 00817f
10 008153
---
expect 0 6* est 100
expect * * released 100
expect 0 * released 20
---
5 0 64 established
10 0 64 released
30 expected 0 * released
=== the network side names the TEI
net file quiet unmet
5 00817f
---
expect 0 established 20
---
5 0 64 established
20 expected 0 established
=== in words that are printed as they were typed
user file quiet unmet
---
expect 0 confirmed 20
---
20 expected 0 confirmed
=== a frame of the last millisecond is received before the line ends
net file quiet done
300 00817f
310 008153
---
run 300
state 0 64
read 10
---
300 0 64 established
300 0 64 state 7 V(S)=0 V(A)=0 V(R)=0 RC=0 queue=0 T203=10000
310 0 64 released
=== a line that was printed before is not found in a file
net file quiet unmet
0 00817f
---
run 10
expect 0 64 established 20
---
0 0 64 established
30 expected 0 64 established
=== no frame arrives in time, and the next one is received
net file quiet done
150 00817f
---
read 100
read 100
read 100
---
100 nothing
150 0 64 established
250 nothing
=== one frame a read, of two that have arrived
net file done
5 00817f
5 008153
---
wait 3
read
read 10
read 10
---
5 U>N SAPI 0 TEI 64 C SABME P=1
5 N>U SAPI 0 TEI 64 R UA F=1
5 0 64 established
5 U>N SAPI 0 TEI 64 C DISC P=1
5 N>U SAPI 0 TEI 64 R UA F=1
5 0 64 released
15 nothing
=== frames of a bad length are discarded, or reported, and the link is established again (2.9, 5.8.5)
net file quiet done
0 00817f
5 ff
5 0081
5 00810000000000000000000000000000000000000000000000000000000000000000000000000000000000000000000000000000000000000000000000000000000000000000000000000000000000000000000000000000000000000000000000000000000000000000000000000000000000000000000000000000000000000000000000000000000000000000000000000000000000000000000000000000000000000000000000000000000000000000000000000000000000000000000000000000000000000000000000000000000000000000000000000000000000000000000000000000000000000000000000000000000000000000000000000000000000000000000000
10 028173
15 00810101
---
run 20
stats
---
0 0 64 established
5 0 64 report O
20 sent frames=3 octets=10 RR=1 SABME=1 UA=1 again=0
20 received frames=6 octets=278 RR=1 SABME=1 UA=1 other=3 discarded=2
20 reports O=1
=== waits that end without a frame end no line
net file done
5 wake
6 wake
50 00817f
---
read 20
read
run 10
---
20 nothing
50 U>N SAPI 0 TEI 64 C SABME P=1
50 N>U SAPI 0 TEI 64 R UA F=1
50 0 64 established
=== the other side closes the connection, and the script goes on
net file unmet
50 close
---
run
read
expect 0 64 established 500
---
50 refused S1 End
50 expected 0 64 established
=== the state of each link, and none of a link that does not exist
net file done
50 close
---
run
state 0 64
state 0 65
state
---
50 0 64 state 4 V(S)=0 V(A)=0 V(R)=0 RC=0 queue=0
50 refused B1 NoLink
50 0 64 state 4 V(S)=0 V(A)=0 V(R)=0 RC=0 queue=0
50 16 64 state 4 V(S)=0 V(A)=0 V(R)=0 RC=0 queue=0
=== a terminal gets its TEI and submits a message, which is rejected once
user file quiet done
10 feff030f61990281
20 008173
40 02810900
50 02810102
---
establish 0
expect 0 64 confirmed 100
give 0 0801
run 50
state 0
stats
---
10 tei got 64
20 0 64 confirmed
50 0 64 acknowledged 1
70 0 64 state 7 V(S)=1 V(A)=1 V(R)=0 RC=0 queue=0 T203=9980
70 sent frames=4 octets=23 I=2 SABME=1 UI=1 again=1
70 received frames=4 octets=19 RR=1 REJ=1 UA=1 UI=1 discarded=0
70 reports
=== objects, of which one is expected by its words
net file json unmet
7 00817f
9 0081000008
---
expect 0 64 data 500
read 10
state 0 64
establish 0 65
stats
expect 0 64 rep 20
---
{"direction":"U>N","frame":"SABME","p":1,"role":"command","sapi":0,"tei":64,"time":7}
{"direction":"N>U","f":1,"frame":"UA","role":"response","sapi":0,"tei":64,"time":7}
{"primitive":"established","sapi":0,"tei":64,"time":7}
{"direction":"U>N","frame":"I","info":"08","nr":0,"ns":0,"p":0,"role":"command","sapi":0,"tei":64,"time":9}
{"direction":"N>U","f":0,"frame":"RR","nr":1,"role":"response","sapi":0,"tei":64,"time":9}
{"info":"08","primitive":"data","sapi":0,"tei":64,"time":9}
{"line":"nothing","time":19}
{"RC":0,"T203":9990,"V(A)":0,"V(R)":1,"V(S)":0,"line":"state 7","queue":0,"sapi":0,"tei":64,"time":19}
{"refused":"B1 NoLink","time":19}
{"RR":1,"UA":1,"again":0,"frames":2,"line":"sent","octets":7,"time":19}
{"I":1,"SABME":1,"discarded":0,"frames":2,"line":"received","octets":8,"time":19}
{"line":"reports","time":19}
{"expected":"0 64 rep","time":39}
=== the network side is busy: it discards I frames, and says so to a poll (Q.921 5.6.6, Figure B.7)
net file done
0 00817f
5 0081000108
---
busy 0 64 on
busy 0 64 on
state 0 64
run 10
busy 0 64 off
state 0 64
busy 0 65 on
---
0 U>N SAPI 0 TEI 64 C SABME P=1
0 N>U SAPI 0 TEI 64 R UA F=1
0 0 64 established
0 N>U SAPI 0 TEI 64 R RNR N(R)=0 F=0
0 0 64 state 7 V(S)=0 V(A)=0 V(R)=0 RC=0 queue=0 own-busy T203=10000
5 U>N SAPI 0 TEI 64 C I N(S)=0 N(R)=0 P=1 info=08
5 N>U SAPI 0 TEI 64 R RNR N(R)=0 F=1
10 N>U SAPI 0 TEI 64 R RR N(R)=0 F=0
10 0 64 state 7 V(S)=0 V(A)=0 V(R)=0 RC=0 queue=0 T203=9995
10 refused B1 NoLink
=== a terminal is busy on a link of its own TEI
user file done
10 feff030f61990281
20 008173
---
busy 0 on
establish 0
expect 0 64 confirmed 100
busy 0 on
busy 16 off
state 0
---
0 refused B1 NoLink
0 U>N SAPI 63 TEI 127 C UI P=0 info=0f619901ff
10 N>U SAPI 63 TEI 127 C UI P=0 info=0f61990281
10 U>N SAPI 0 TEI 64 C SABME P=1
10 tei got 64
20 N>U SAPI 0 TEI 64 R UA F=1
20 0 64 confirmed
20 U>N SAPI 0 TEI 64 R RNR N(R)=0 F=0
20 0 64 state 7 V(S)=0 V(A)=0 V(R)=0 RC=0 queue=0 own-busy T203=10000
=== frames for no link are reported to the outside, each; octets that name none are only counted
net file quiet done
5 008353
6 408353
7 00837f
8 000000
9 00817f
---
run 10
stats
---
9 0 64 established
10 sent frames=1 octets=3 UA=1 again=0
10 received frames=5 octets=15 SABME=2 DISC=2 other=1 discarded=4
10 reports
---
discarded 0 65
discarded 16 65
discarded 0 65
=== a terminal without a TEI has no link
user file done
5 02817f
---
read
---
5 N>U SAPI 0 TEI 64 C SABME P=1
---
discarded 0 64
=== a lost frame is printed and counted as lost, and sent again when T200 expires
net file done
---
impair 100% 50
establish 0 64
impair 0
run 1000
stats
---
0 lost N>U SAPI 0 TEI 64 C SABME P=1
1000 N>U SAPI 0 TEI 64 C SABME P=1
1000 sent frames=2 octets=6 SABME=2 again=0
1000 received frames=0 octets=0 discarded=0
1000 reports
---
impair 100 50
impair 0 0
=== a lost frame as an object
net file json done
---
impair 100
establish 0 64
---
{"lost":"N>U SAPI 0 TEI 64 C SABME P=1","time":0}
---
impair 100 0
=== lines of lost frames are left out with the others
net file quiet done
---
impair 100% 3600000
establish 0 64
---
---
impair 100 3600000
=== words that are not ASCII are expected, and printed unchanged
net file unmet
---
expect é « 0 64 » 日本 10
---
10 expected é « 0 64 » 日本
=== the side is served behind the end of a file, until the connection is closed
net file serve quiet done
20 00817f
50 close
---
state 0 64
---
0 0 64 state 4 V(S)=0 V(A)=0 V(R)=0 RC=0 queue=0
20 0 64 established
=== without that it is not
net file quiet done
20 00817f
50 close
---
state 0 64
---
0 0 64 state 4 V(S)=0 V(A)=0 V(R)=0 RC=0 queue=0
=== the first line that is invalid ends the script
net file bad 4
---
state 0 64

# note
state 0
state 0 64
---
0 0 64 state 4 V(S)=0 V(A)=0 V(R)=0 RC=0 queue=0
"#;

/// Control characters are escaped when they are printed.
const CONTROLS: &str = "
=== control characters in awaited words are escaped
net file unmet
---
expect \u{1b}[2J\u{7}\u{7f}\u{85}é 10
---
10 expected \\x1b[2J\\x07\\x7f\\x85é
=== and so they are in an object
net file json unmet
---
expect \u{1b}[2J é 10
---
{\"expected\":\"\\\\x1b[2J é\",\"time\":10}
";

/// The rows. They are long, so only this function names them.
fn rows() -> [&'static str; 2] {
    [ROWS, CONTROLS]
}

#[test]
fn dialogues_follow_the_clock(rt: HostRuntime) -> Result<(), Fail> {
    for rows in rows() {
        all_rows(rt.alloc(), rows)?;
    }
    Ok(())
}
