//! State 8, timer recovery.

/// The cases.
pub(crate) const CASES: &str = "\
# State 8, timer recovery.

case 8-V-01 the response with F=1 ends timer recovery
clause 5.6.7
state 8
send R RR N(R)=0 F=1
quiet 150 %T200
send C I N(S)=0 N(R)=0 P=0
expect ack 1

case 8-V-02 a response with F=0 does not end it
clause 5.6.7, 5.8.3
state 8
send R RR N(R)=0 F=0
expect C RR N(R)=0 P=1
within 200 %T200
send R RR N(R)=0 F=1
quiet 140 %T200

case 8-V-03 a poll is answered in timer recovery
clause 5.6.7
state 8
send C RR N(R)=0 P=1
expect R RR N(R)=0 F=1
expect C RR N(R)=0 P=1
within 200 %T200

case 8-V-04 I is accepted and acknowledged in timer recovery
clause 5.6.2, 5.8.3
state 8
send C I N(S)=0 N(R)=0 P=0
expect ack 1
send C I N(S)=1 N(R)=0 P=1
expect R RR N(R)=2 F=1
expect C RR N(R)=2 P=1
within 200 %T200

case 8-V-05 RNR with F=1 ends it, and the busy end is polled after T200
clause 5.6.5, 5.6.7
state 8
send R RNR N(R)=0 F=1
expect C RR N(R)=0 P=1
at T200
send R RR N(R)=0 F=1
quiet 140 %T200

case 8-V-06 REJ with F=1 ends it
clause 5.6.4, 5.6.7
state 8
send R REJ N(R)=0 F=1
quiet 140 %T200
send C RR N(R)=0 P=1
expect R RR N(R)=0 F=1

case 8-V-07 SABME ends it
clause 5.5.1.2
state 8
send C SABME P=1
expect R UA F=1
quiet 140 %T200
send C I N(S)=0 N(R)=0 P=0
expect ack 1

case 8-V-08 DISC releases
clause 5.5.3.2
state 8
send C DISC P=1
expect R UA F=1
quiet 140 %T200
send C DISC P=1
expect R DM F=1

case 8-V-09 DISC with P=0, SABME with P=0
clause 5.5.3.2, 5.5.1.2
state 8
send C SABME P=0
expect R UA F=0
send C DISC P=0
expect R UA F=0

case 8-V-10 the answer says nothing was received: all again
clause 5.6.7
needs give
state 8-out
send R RR N(R)=0 F=1
expect C I N(S)=0 N(R)=0 P=0
send R RR N(R)=1 F=0
quiet 140 %T200

case 8-V-11 the answer says all was received
clause 5.6.7
needs give
state 8-out
send R RR N(R)=1 F=1
quiet 150 %T200
do give
expect C I N(S)=1 N(R)=0 P=0

case 8-V-12 RNR with F=1 acknowledges: an older N(R) is an error then
clause 5.6.5, 5.8.2
needs give
state 8-out
send R RNR N(R)=1 F=1
quiet 100 ms
send R RR N(R)=0 F=0
expect C SABME P=1

case 8-V-13 RR with F=0 acknowledges, and the state stays
clause 5.8.3
needs give
state 8-out
send R RR N(R)=1 F=0
expect C RR N(R)=0 P=1
or C I N(S)=0 N(R)=0 P=1
within 200 %T200
send R RR N(R)=1 F=1
quiet 140 %T200

case 8-V-14 N(R) of an I frame acknowledges in timer recovery
clause 5.6.3.2
needs give
state 8-out
send C I N(S)=0 N(R)=1 P=0
expect ack 1
send R RR N(R)=1 F=1
quiet 140 %T200
do give
expect C I N(S)=1 N(R)=1 P=0

case 8-V-15 REJ with F=0 repeats nothing before the answer to the poll
clause 5.6.4, 5.8.3
needs give
state 8-out
send R REJ N(R)=0 F=0
quiet 300 ms
send R RR N(R)=0 F=1
expect C I N(S)=0 N(R)=0 P=0

case 8-V-16 a message waits for the answer to the poll
clause 5.6.1, 5.6.7
needs give
needs k>1
state 8-out
do give
quiet 300 ms
send R RR N(R)=1 F=1
expect C I N(S)=1 N(R)=0 P=0

case 8-V-17 RNR with F=1, then RR: the message goes out once
clause 5.6.5
needs give
state 8-out
send R RNR N(R)=1 F=1
send C RNR N(R)=1 P=1
expect R RR N(R)=0 F=1
do give
quiet 200 ms
send R RR N(R)=1 F=0
expect C I N(S)=1 N(R)=0 P=0
send R RR N(R)=2 F=0
quiet 140 %T200

case 8-V-18 a late answer to an earlier poll, then the answer to the last
clause 5.6.7
needs give
state 8-out
expect C RR N(R)=0 P=1
or C I N(S)=0 N(R)=0 P=1
at T200
send R RR N(R)=1 F=1
quiet 100 ms
send R RR N(R)=1 F=1
quiet 140 %T200
send C RR N(R)=1 P=1
expect R RR N(R)=0 F=1

case 8-V-19 a release request: DISC
clause 5.5.3.2
needs release
state 8
do release
expect C DISC P=1
send R UA F=1
quiet 140 %T200

case 8-V-20 an establish request: SABME
clause 5.7.1
needs establish
state 8
do establish
expect C SABME P=1
send R UA F=1
quiet 140 %T200

case 8-V-21 N(R) of an I frame acknowledges in timer recovery: an older N(R) is an error then
clause 5.6.3.2, 5.8.2
needs give
state 8-out
send C I N(S)=0 N(R)=1 P=0
expect ack 1
send R RR N(R)=0 F=0
expect C SABME P=1

case 8-V-22 UI has no answer, and no effect
clause 5.2.3
state 8
send C UI P=0 info=0801
quiet 100 ms
send C UI P=1 info=0801
expect C RR N(R)=0 P=1
within 200 %T200
send R RR N(R)=0 F=1
quiet 140 %T200

case 8-V-23 RNR with P=1 is answered in timer recovery
clause 5.6.5, 5.6.7
state 8
send C RNR N(R)=0 P=1
expect R RR N(R)=0 F=1
expect C RR N(R)=0 P=1
within 200 %T200

case 8-V-24 REJ with P=1 is answered in timer recovery
clause 5.6.4, 5.6.7
state 8
send C REJ N(R)=0 P=1
expect R RR N(R)=0 F=1
expect C RR N(R)=0 P=1
within 200 %T200

case 8-V-25 the own receiver becomes busy and ready again in timer recovery
clause 5.6.6, 5.6.7
needs busy
state 8
do busy
expect * RNR N(R)=0 F=0
send C I N(S)=0 N(R)=0 P=0
expect * RNR N(R)=0 F=0
or nothing
within 100 ms
send C I N(S)=0 N(R)=0 P=1
expect R RNR N(R)=0 F=1
do ready
expect ack 0
send C I N(S)=0 N(R)=0 P=1
expect R RR N(R)=1 F=1

case 8-V-26 SABME while a message is out: it is not sent again
clause 5.5.1.2, 5.7.2
needs give
state 8-out
send C SABME P=1
expect R UA F=1
quiet 150 %T200
do give
expect C I N(S)=0 N(R)=0 P=0

case 8-V-27 RNR with F=0 acknowledges, and the state stays
clause 5.6.5, 5.8.3
needs give
state 8-out
send R RNR N(R)=1 F=0
expect C RR N(R)=0 P=1
within 200 %T200
send R RR N(R)=1 F=1
quiet 140 %T200

case 8-O-01 DM with F=1: establish again
clause 5.7.1, 5.8.7 Table 9
state 8
send R DM F=1
expect C SABME P=1

case 8-O-02 DM with F=0: establish again
clause 5.7.1, 5.8.7 Table 9
state 8
send R DM F=0
expect C SABME P=1

case 8-O-03 UA is ignored on the line
clause 5.8.7 Table 9
state 8
send R UA F=1
quiet 200 ms
expect C RR N(R)=0 P=1
within 200 %T200

case 8-O-04 FRMR: establish again
clause 5.8.6
state 8
send R FRMR F=0 info=0000000101
expect C SABME P=1

case 8-O-05 N(R) that was never sent: establish again
clause 5.8.2
state 8
send R RR N(R)=7 F=0
expect C SABME P=1

case 8-O-06 N(R) that was never sent, with F=1: establish again
clause 5.8.2
state 8
send R RR N(R)=7 F=1
expect C SABME P=1

case 8-O-07 an I frame out of sequence: REJ
clause 5.8.1
state 8
send C I N(S)=2 N(R)=0 P=0
expect R REJ N(R)=0 F=0
send C I N(S)=0 N(R)=0 P=0
expect ack 1

case 8-O-08 N(R) of an I frame that was never sent: establish again
clause 5.8.2
state 8
allow ack 1
send C I N(S)=0 N(R)=9 P=0
expect C SABME P=1

case 8-O-09 N(R) of REJ that was never sent: establish again
clause 5.8.2
state 8
send R REJ N(R)=3 F=0
expect C SABME P=1

case 8-O-10 an I frame out of sequence with P=1: REJ with F=1
clause 5.8.1
state 8
send C I N(S)=5 N(R)=0 P=1
expect R REJ N(R)=0 F=1

case 8-O-11 UA with F=0 is ignored on the line
clause 5.8.7 Table 9
state 8
send R UA F=0
quiet 200 ms
expect C RR N(R)=0 P=1
within 200 %T200

case 8-O-12 of I frames out of sequence the first is answered by REJ
clause 5.8.1
state 8
send C I N(S)=2 N(R)=0 P=0
expect R REJ N(R)=0 F=0
send C I N(S)=3 N(R)=0 P=0
quiet 100 ms
send C I N(S)=4 N(R)=0 P=1
expect R RR N(R)=0 F=1
or R REJ N(R)=0 F=1
send C I N(S)=0 N(R)=0 P=0
expect ack 1

case 8-O-13 N(R) of RNR that was never sent: establish again
clause 5.8.2
state 8
send R RNR N(R)=7 F=0
expect C SABME P=1

case 8-I-01 no such U frame: frame rejection
clause 5.8.5
state 8
send octets C 3f
expect C SABME P=1

case 8-I-02 I as a response: frame rejection
clause 5.8.5
state 8
send octets R 0000aa
expect C SABME P=1

case 8-I-03 RR of five octets: frame rejection
clause 5.8.5
state 8
send octets R 010000
expect C SABME P=1

case 8-I-04 SABME with information: frame rejection
clause 5.8.5
state 8
send C SABME P=1 info=00
expect C SABME P=1

case 8-I-05 frames too short for their kind are discarded
clause 2.9
state 8
send octets C 01
quiet 100 ms
send octets C 00
quiet 100 ms
expect C RR N(R)=0 P=1
within 200 %T200

case 8-T-01 N200 polls T200 apart without an answer, then SABME
clause 5.6.7, 5.7.1
state 7
send R RNR N(R)=0 F=0
repeat N200
expect C RR N(R)=0 P=1
at T200
end
expect C SABME P=1
at T200

case 8-T-02 T200 runs for a message that waited for the answer to the poll
clause 5.6.1, 5.6.7
needs give
needs k>1
state 8-out
do give
quiet 300 ms
send R RR N(R)=1 F=1
expect C I N(S)=1 N(R)=0 P=0
expect C RR N(R)=0 P=1
or C I N(S)=1 N(R)=0 P=1
at T200

case 8-T-03 RNR with F=1 starts T200 anew
clause 5.6.5, 5.6.7
state 8
pause 20 %T200
send R RNR N(R)=0 F=1
expect C RR N(R)=0 P=1
at T200
";
