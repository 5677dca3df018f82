//! Scripts over pipes, and sessions: lines of input arrive while a side is running.

use crate::scenario_run::all_rows;
use std::test::Fail;

const ROWS: &str = r#"
=== frames and lines are each served when they come
net session done
5 line
7 00817f
20 line
25 close
---
state 0 64
|state 0 64
---
5 0 64 state 4 V(S)=0 V(A)=0 V(R)=0 RC=0 queue=0
7 U>N SAPI 0 TEI 64 C SABME P=1
7 N>U SAPI 0 TEI 64 R UA F=1
7 0 64 established
20 0 64 state 7 V(S)=0 V(A)=0 V(R)=0 RC=0 queue=0 T203=9987
---
greet
=== so they are over a pipe
net pipe done
5 line
7 00817f
20 line
25 line
---
state 0 64
|state 0 64
---
5 0 64 state 4 V(S)=0 V(A)=0 V(R)=0 RC=0 queue=0
7 U>N SAPI 0 TEI 64 C SABME P=1
7 N>U SAPI 0 TEI 64 R UA F=1
7 0 64 established
20 0 64 state 7 V(S)=0 V(A)=0 V(R)=0 RC=0 queue=0 T203=9987
=== timers expire while a line is typed (Q.921 5.5.1.3)
net session done
5 line
1500 line
2010 line
---
establish 0 64
|stat|e 0 64
quit
---
5 N>U SAPI 0 TEI 64 C SABME P=1
1005 N>U SAPI 0 TEI 64 C SABME P=1
2005 N>U SAPI 0 TEI 64 C SABME P=1
2010 0 64 state 5 V(S)=0 V(A)=0 V(R)=0 RC=2 queue=0 T200=995
---
greet
=== timers expire while a script pauses
net pipe done
5 line
1500 line
2010 line
2020 line
---
establish 0 64
|stat|e 0 64
---
5 N>U SAPI 0 TEI 64 C SABME P=1
1005 N>U SAPI 0 TEI 64 C SABME P=1
2005 N>U SAPI 0 TEI 64 C SABME P=1
2010 0 64 state 5 V(S)=0 V(A)=0 V(R)=0 RC=2 queue=0 T200=995
=== two lines at once, of which one is passed over, and the last one has no line feed
net session done
1 line
2 line
---
# note

state 0 64
state 16 64---
1 0 64 state 4 V(S)=0 V(A)=0 V(R)=0 RC=0 queue=0
2 16 64 state 4 V(S)=0 V(A)=0 V(R)=0 RC=0 queue=0
---
greet
=== the last line of a script has no line feed
net pipe done
1 line
2 line
---
state 0 64
state 16 64---
1 0 64 state 4 V(S)=0 V(A)=0 V(R)=0 RC=0 queue=0
2 16 64 state 4 V(S)=0 V(A)=0 V(R)=0 RC=0 queue=0
=== neither a line that is expected in vain nor an invalid one ends a session
net session done
1 line
20 line
30 line
40 line
---
expect 0 64 established 10
|tick 5
|state 0 64
---
11 expected 0 64 established
30 0 64 state 4 V(S)=0 V(A)=0 V(R)=0 RC=0 queue=0
---
greet
refuse tick 5
=== a line is done as it is tidied, help lists the lines, and nothing behind quit is done
user session done
1 line
2 line
---
  state 0  
give 0 64 0801
 # note
 help 
state  0
  quit
state 0
|state 0
---
1 refused B1 NoLink
---
greet
refuse give 0 64 0801
help
refuse state  0
=== exit ends a session too
net session done
1 line
2 line
---
exit
state 0 64
|state 0 64
---
---
greet
=== in a script help, quit and spaces around a line are invalid
net pipe bad 2
1 line
2 line
---
state 0 64
quit
---
1 0 64 state 4 V(S)=0 V(A)=0 V(R)=0 RC=0 queue=0
=== further input does not cut the waits of a script short
net pipe done
5 line
6 line
7 line
---
run 100
read 100
wait 100
state 0 64
|state 16 64
---
205 nothing
305 0 64 state 4 V(S)=0 V(A)=0 V(R)=0 RC=0 queue=0
305 16 64 state 4 V(S)=0 V(A)=0 V(R)=0 RC=0 queue=0
=== nor what a script expects
net pipe unmet
5 line
6 line
---
expect 0 64 established 100
|state 0 64
---
105 expected 0 64 established
=== further input cuts the waits of a session short
net session done
5 line
6 line
7 line
---
run 100
read 100
wait 100
run
read
state 0 64
|state 16 64
---
6 0 64 state 4 V(S)=0 V(A)=0 V(R)=0 RC=0 queue=0
6 16 64 state 4 V(S)=0 V(A)=0 V(R)=0 RC=0 queue=0
---
greet
=== and what it expects
net session done
5 line
6 line
7 line
---
expect 0 64 established 100
|state 0 64
---
6 expected 0 64 established
6 0 64 state 4 V(S)=0 V(A)=0 V(R)=0 RC=0 queue=0
---
greet
=== a script expects a line that was printed while it paused
net pipe done
5 00817f
20 line
30 line
---
expect 0 64 established 500
state 0 64
---
5 U>N SAPI 0 TEI 64 C SABME P=1
5 N>U SAPI 0 TEI 64 R UA F=1
5 0 64 established
20 0 64 state 7 V(S)=0 V(A)=0 V(R)=0 RC=0 queue=0 T203=9985
=== a session expects a line that was printed while its line was typed
net session done
1 line
5 00817f
20 line
30 line
---
state 0 64
|expect 0 64 established 500
state 0 64
---
1 0 64 state 4 V(S)=0 V(A)=0 V(R)=0 RC=0 queue=0
5 U>N SAPI 0 TEI 64 C SABME P=1
5 N>U SAPI 0 TEI 64 R UA F=1
5 0 64 established
20 0 64 state 7 V(S)=0 V(A)=0 V(R)=0 RC=0 queue=0 T203=9985
---
greet
=== lines are found in their order, and each once
net pipe quiet unmet
5 00817f
6 008153
7 00817f
20 line
---
expect 0 64 established 10
expect 0 64 released 10
expect 0 64 established 10
expect 0 64 established 10
---
5 0 64 established
6 0 64 released
7 0 64 established
30 expected 0 64 established
=== a line before the one that was found is forgotten
net pipe quiet unmet
5 00817f
6 008153
20 line
---
expect 0 64 released 10
expect 0 64 established 10
---
5 0 64 established
6 0 64 released
30 expected 0 64 established
=== a line that looks for none forgets what was printed before it
net pipe quiet unmet
5 00817f
20 line
30 line
---
stats
|expect 0 64 established 10
---
5 0 64 established
20 sent frames=1 octets=3 UA=1 again=0
20 received frames=1 octets=3 SABME=1 discarded=0
20 reports
40 expected 0 64 established
=== an object is found by its words
net pipe json done
5 00817f
20 line
21 line
---
expect 0 64 established 10
---
{"direction":"U>N","frame":"SABME","p":1,"role":"command","sapi":0,"tei":64,"time":5}
{"direction":"N>U","f":1,"frame":"UA","role":"response","sapi":0,"tei":64,"time":5}
{"primitive":"established","sapi":0,"tei":64,"time":5}
=== frames are found by their lines, unless these are left out
net pipe quiet unmet
5 00817f
20 line
---
expect U>N 10
---
5 0 64 established
30 expected U>N
=== a script reads on without service once the connection is closed
net pipe done
5 close
---
state 0 64
|run
read
---
5 0 64 state 4 V(S)=0 V(A)=0 V(R)=0 RC=0 queue=0
5 refused S1 End
=== a lost connection is printed at once, and expected later
net pipe done
5 lost
5 close
---
expect connection lost 10
|read
---
5 connection lost
5 refused S1 End
=== a side of several connections is served on after a lost one
bus pipe quiet done
5 lost
6 00817f
9 line
9 line
---
expect connection lost 10
expect 0 64 established 10
---
5 connection lost
6 0 64 established
=== a lost connection ends an expect of it, and is an object with --json
net file json quiet done
5 lost
---
expect connection lost 10
---
{"line":"connection lost","time":5}
=== a line of a file is executed before a lost connection is printed
net file done
0 lost
---
state 0 64
wait 5
---
0 0 64 state 4 V(S)=0 V(A)=0 V(R)=0 RC=0 queue=0
0 connection lost
=== a session ends once the connection is closed
net session done
5 line
50 close
60 line
---
state 0 64
|state 16 64
---
5 0 64 state 4 V(S)=0 V(A)=0 V(R)=0 RC=0 queue=0
---
greet
=== the connection is closed while a line of a session waits
net session done
5 line
50 close
---
read
state 0 64
|state 16 64
---
50 refused S1 End
50 0 64 state 4 V(S)=0 V(A)=0 V(R)=0 RC=0 queue=0
---
greet
=== frames that arrived before the connection was closed are received
net session quiet done
5 00817f
5 008153
5 close
---
state 0 64
---
5 0 64 established
5 0 64 released
---
greet
=== a session is served behind the end of its lines
net session serve quiet done
5 line
6 line
20 00817f
50 close
---
state 0 64
---
5 0 64 state 4 V(S)=0 V(A)=0 V(R)=0 RC=0 queue=0
20 0 64 established
---
greet
=== but not behind quit
net session serve quiet done
5 line
20 00817f
---
quit
---
---
greet
=== so is a script over a pipe
user pipe serve quiet done
5 line
10 line
15 feff030f61990281
20 008173
50 close
---
establish 0
---
15 tei got 64
20 0 64 confirmed
=== an interrupted read is made again
net pipe done
1 line
2 line
3 line
4 line
---
state 0 64
|%|state 16 64
---
1 0 64 state 4 V(S)=0 V(A)=0 V(R)=0 RC=0 queue=0
3 16 64 state 4 V(S)=0 V(A)=0 V(R)=0 RC=0 queue=0
=== a read that fails ends a script
net pipe device
1 line
2 line
3 line
---
state 0 64
|*|state 16 64
---
1 0 64 state 4 V(S)=0 V(A)=0 V(R)=0 RC=0 queue=0
=== and a session
net session device
1 line
2 line
3 line
---
state 0 64
|*|state 16 64
---
1 0 64 state 4 V(S)=0 V(A)=0 V(R)=0 RC=0 queue=0
---
greet
=== frames for no link are reported to the outside during a session
net session done
3 408353
5 line
---
quit
---
3 U>N SAPI 16 TEI 65 C DISC P=1
---
greet
discarded 16 65
"#;

/// The rows. They are long, so only this function names them.
fn rows() -> &'static str {
    ROWS
}

#[test]
fn input_is_read_while_the_side_is_served(rt: HostRuntime) -> Result<(), Fail> {
    all_rows(rt.alloc(), rows())
}
