//! State 7, frames that Q.921 does not define.

/// The cases.
pub(crate) const CASES: &str = "\
# State 7, frames that Q.921 does not define.

case 7-I-01 I as a response: frame rejection
clause 5.8.5
state 7
send octets R 0000aa
expect C SABME P=1

case 7-I-02 no such S frame: frame rejection
clause 5.8.5
state 7
send octets C 0d00
expect C SABME P=1

case 7-I-03 no such U frame (SABM): frame rejection
clause 5.8.5
state 7
send octets C 3f
expect C SABME P=1

case 7-I-04 SABME as a response: frame rejection
clause 5.8.5
state 7
send octets R 7f
expect C SABME P=1

case 7-I-05 UA as a command: frame rejection
clause 5.8.5
state 7
send octets C 73
expect C SABME P=1

case 7-I-06 SABME with information: frame rejection
clause 5.8.5
state 7
send C SABME P=1 info=00
expect C SABME P=1

case 7-I-07 DISC with information: frame rejection
clause 5.8.5
state 7
send C DISC P=1 info=00
expect C SABME P=1

case 7-I-08 RR of five octets: frame rejection
clause 5.8.5
state 7
send octets R 010000
expect C SABME P=1

case 7-I-09 an I frame of N201 + 1 octets: frame rejection
clause 5.8.5
needs n201
state 7
send C I N(S)=0 N(R)=0 P=0 info=N201+1
expect C SABME P=1

case 7-I-10 frames too short for their kind are discarded
clause 2.9
state 7
send octets C 01
quiet 200 ms
send octets C 00
quiet 200 ms
send raw 00
quiet 200 ms
send C RR N(R)=0 P=1
expect R RR N(R)=0 F=1

case 7-I-11 a frame with a wrong extension bit is discarded
clause 2.9, 3.2
ends net
state 7
send raw 01017f
quiet 200 ms
send raw 0000017f
quiet 200 ms
send C RR N(R)=0 P=1
expect R RR N(R)=0 F=1

case 7-I-12 FRMR with information of three octets: establish again
clause 5.8.5, 5.8.6
state 7
send R FRMR F=0 info=000000
expect C SABME P=1

case 7-I-13 a frame for another TEI is discarded
clause 3.3.4
state 7
send C I N(S)=0 N(R)=0 P=1 tei=99
quiet 150 ms
send C I N(S)=0 N(R)=0 P=1
expect R RR N(R)=1 F=1

case 7-I-14 a frame for a SAPI that is not served is discarded
clause 2.9
needs sapis
state 7
send C I N(S)=0 N(R)=0 P=1 sapi=5
quiet 150 ms
send C I N(S)=0 N(R)=0 P=1
expect R RR N(R)=1 F=1

case 7-I-15 UI of N201 + 1 octets: frame rejection
clause 5.8.5
needs n201
state 7
send C UI P=0 info=N201+1
expect C SABME P=1

case 7-I-16 DM as a command: frame rejection
clause 5.8.5
state 7
send octets C 1f
expect C SABME P=1

case 7-I-17 DISC as a response: frame rejection
clause 5.8.5
state 7
send octets R 53
expect C SABME P=1

case 7-I-18 FRMR as a command: frame rejection
clause 5.8.5
state 7
send octets C 870000000001
expect C SABME P=1

case 7-I-19 UI as a response: frame rejection
clause 5.8.5
state 7
send octets R 030801
expect C SABME P=1

case 7-I-20 an S frame with a reserved bit set: frame rejection
clause 5.8.5, 3.4.3
state 7
send octets C 1101
expect C SABME P=1

case 7-I-21 UA with information: frame rejection
clause 5.8.5
state 7
send octets R 7300
expect C SABME P=1

case 7-I-22 DM with information: frame rejection
clause 5.8.5
state 7
send octets R 1f00
expect C SABME P=1

case 7-I-23 FRMR without information: establish again
clause 5.8.5, 5.8.6
state 7
send octets R 87
expect C SABME P=1
";
