//! State 5, awaiting establishment.

/// The cases.
pub(crate) const CASES: &str = "\
# State 5, awaiting establishment.

case 5-V-01 UA with F=1: state 7
clause 5.5.1.2
state 5
send R UA F=1
quiet 140 %T200
send C RR N(R)=0 P=1
expect R RR N(R)=0 F=1

case 5-V-02 DM with F=1: state 4
clause 5.5.1.2
state 5
send R DM F=1
quiet 140 %T200
send C DISC P=1
expect R DM F=1

case 5-V-03 SABME collides: UA, and state 7 after the own UA
clause 5.5.5.1
state 5
send C SABME P=1
expect R UA F=1
send R UA F=1
quiet 140 %T200
send C I N(S)=0 N(R)=0 P=1
expect R RR N(R)=1 F=1

case 5-V-04 DISC is answered by DM
clause 5.5.5.2
state 5
send C DISC P=1
expect R DM F=1

case 5-V-05 DISC with P=0 is answered by DM with F=0
clause 5.5.5.2
state 5
send C DISC P=0
expect R DM F=0

case 5-V-06 SABME with P=0 is answered by UA with F=0
clause 5.5.5.1
state 5
send C SABME P=0
expect R UA F=0

case 5-V-07 V(R) is 0 after the link is established again
clause 5.5.1.2, 5.7.2
state 7
send C I N(S)=0 N(R)=0 P=0
expect ack 1
send C I N(S)=1 N(R)=0 P=0
expect ack 2
send R DM F=0
expect C SABME P=1
send R UA F=1
quiet 100 ms
send C I N(S)=0 N(R)=0 P=0
expect ack 1

case 5-V-08 V(S) is 0 after the link is established again
clause 5.5.1.2, 5.7.2
needs give
state 7
do give
expect C I N(S)=0 N(R)=0 P=0
send R RR N(R)=1 F=0
quiet 100 ms
send R DM F=0
expect C SABME P=1
send R UA F=1
quiet 100 ms
do give
expect C I N(S)=0 N(R)=0 P=0

case 5-V-09 a message that waits is sent after the UA to a SABME of the data link
clause 5.7.2
needs give
state 5-line
do give
quiet 200 ms
send R UA F=1
expect C I N(S)=0 N(R)=0 P=0

case 5-V-10 a release request waits for the UA, then DISC
clause 5.5.3.2 Figure B.5
needs release
state 5
do release
quiet 100 ms
send R UA F=1
expect C DISC P=1
send R UA F=1
quiet 140 %T200

case 5-V-11 SABME alone does not end the state: the own SABME is sent again
clause 5.5.5.1
state 5
send C SABME P=1
expect R UA F=1
expect C SABME P=1
within 200 %T200

case 5-V-12 an establish request while the data link establishes: no other SABME
clause 5.5.1.2, 5.7.2
needs establish
state 5-line
do establish
quiet 300 ms
send R UA F=1
quiet 140 %T200
send C RR N(R)=0 P=1
expect R RR N(R)=0 F=1

case 5-V-13 a message that was out is not sent again after the link is established again
clause 5.5.1.2, 5.7.2
needs give
state 7
do give
expect C I N(S)=0 N(R)=0 P=0
send R DM F=0
expect C SABME P=1
send R UA F=1
quiet 150 %T200
do give
expect C I N(S)=0 N(R)=0 P=0

case 5-O-01 UA with F=0 is ignored
clause 5.8.7 Table 9
state 5
send R UA F=0
expect C SABME P=1
within 200 %T200

case 5-O-02 DM with F=0 is ignored
clause 5.5.6, 5.8.7
state 5
send R DM F=0
quiet 200 ms
expect C SABME P=1
within 200 %T200

case 5-O-03 S frames are ignored
clause 5.5.1.2
state 5
send C RR N(R)=0 P=1
quiet 100 ms
send C RNR N(R)=0 P=1
quiet 100 ms
send R REJ N(R)=0 F=1
quiet 100 ms
expect C SABME P=1
within 200 %T200

case 5-O-04 I is ignored
clause 5.5.1.2
state 5
send C I N(S)=0 N(R)=0 P=1
quiet 200 ms
expect C SABME P=1
within 200 %T200

case 5-O-05 FRMR is ignored
clause 5.5.1.2
state 5
send R FRMR F=0 info=7f00000000
quiet 200 ms
expect C SABME P=1
within 200 %T200

case 5-O-06 UI has no answer, and no effect
clause 5.2.3
state 5
send C UI P=0 info=0801
quiet 100 ms
send C UI P=1 info=0801
quiet 100 ms
expect C SABME P=1
within 200 %T200

case 5-I-01 a frame that Q.921 does not define is ignored
clause 5.8.5
state 5
send octets C 3f
quiet 200 ms
expect C SABME P=1
within 200 %T200

case 5-I-02 SABME with information has no answer
clause 5.8.5
state 5
send C SABME P=1 info=00
quiet 200 ms
expect C SABME P=1
within 200 %T200

case 5-T-01 SABME of the data link is sent N200 times more, then state 4
clause 5.5.1.3
state 5
repeat N200
expect C SABME P=1
at T200
end
quiet 200 %T200
send C DISC P=1
expect R DM F=1

case 5-T-02 the UA to the last SABME counts
clause 5.5.1.2
state 5
repeat N200
expect C SABME P=1
at T200
end
send R UA F=1
quiet 140 %T200
send C RR N(R)=0 P=1
expect R RR N(R)=0 F=1

case 5-T-03 the SABME after timer recovery is sent N200 times more
clause 5.5.1.3, 5.7.2
state 8
send R FRMR F=0 info=0000000101
expect C SABME P=1
repeat N200
expect C SABME P=1
at T200
end
quiet 150 %T200

case 5-T-04 after UA an idle line is polled after T203
clause 5.10, 5.5.1.2
needs t203
state 5
send R UA F=1
expect C RR N(R)=0 P=1
at T203
";
