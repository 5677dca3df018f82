//! State 7, frames at a wrong moment.

/// The cases.
pub(crate) const CASES: &str = "\
# State 7, frames at a wrong moment.

case 7-O-01 UA is ignored on the line
clause 5.8.7 Table 9
state 7
send R UA F=1
quiet 250 ms
send R UA F=0
quiet 250 ms
send C RR N(R)=0 P=1
expect R RR N(R)=0 F=1

case 7-O-02 DM with F=1 is ignored on the line
clause 5.8.7 Table 9
state 7
send R DM F=1
quiet 250 ms
send C RR N(R)=0 P=1
expect R RR N(R)=0 F=1

case 7-O-03 DM with F=0: establish again
clause 5.7.1, 5.8.7 Table 9
state 7
send R DM F=0
expect C SABME P=1

case 7-O-04 an S response with F=1 that nobody asked for
clause 5.8.7 Table 9
state 7
send R RR N(R)=0 F=1
quiet 250 ms
send C RR N(R)=0 P=1
expect R RR N(R)=0 F=1

case 7-O-05 FRMR: establish again
clause 5.8.6
state 7
send R FRMR F=0 info=0000000101
expect C SABME P=1

case 7-O-06 FRMR with F=1, of a SABME: establish again
clause 5.8.6
state 7
send R FRMR F=1 info=7f00000000
expect C SABME P=1

case 7-O-07 XID is answered by XID, or not at all
clause 5.4, 3.6.12
state 7
send C XID P=0
expect R XID F=0
or nothing
send C RR N(R)=0 P=1
expect R RR N(R)=0 F=1

case 7-O-08 a repeated I frame is not accepted again
clause 5.8.1
state 7
send C I N(S)=0 N(R)=0 P=0
expect ack 1
send C I N(S)=0 N(R)=0 P=0
expect R REJ N(R)=1 F=0
send C I N(S)=1 N(R)=0 P=0
expect ack 2

case 7-O-09 an I frame out of sequence: one REJ
clause 5.8.1
state 7
send C I N(S)=3 N(R)=0 P=0
expect R REJ N(R)=0 F=0
send C I N(S)=4 N(R)=0 P=0
expect R REJ N(R)=0 F=0
or nothing
send C I N(S)=0 N(R)=0 P=0
expect ack 1
send C I N(S)=2 N(R)=0 P=0
expect R REJ N(R)=1 F=0

case 7-O-10 an I frame out of sequence with P=1: REJ with F=1
clause 5.8.1
state 7
send C I N(S)=1 N(R)=0 P=1
expect R REJ N(R)=0 F=1

case 7-O-11 a second I frame out of sequence with P=1 is answered with F=1
clause 5.8.1
state 7
send C I N(S)=1 N(R)=0 P=0
expect R REJ N(R)=0 F=0
send C I N(S)=2 N(R)=0 P=1
expect R RR N(R)=0 F=1
or R REJ N(R)=0 F=1

case 7-O-12 N(R) that was never sent: establish again (RR)
clause 5.8.2
state 7
send R RR N(R)=5 F=0
expect C SABME P=1

case 7-O-13 N(R) that was never sent: establish again (I)
clause 5.8.2
state 7
allow ack 1
send C I N(S)=0 N(R)=5 P=0
expect C SABME P=1

case 7-O-14 N(R) that was never sent: establish again (REJ)
clause 5.8.2
state 7
send R REJ N(R)=1 F=0
expect C SABME P=1

case 7-O-15 N(R) that was never sent: establish again (RNR command with P=1)
clause 5.8.2
state 7
allow R RR N(R)=0 F=1
send C RNR N(R)=127 P=1
expect C SABME P=1

case 7-O-16 N(R) that was acknowledged before: establish again
clause 5.8.2
needs give
state 7
do give
expect C I N(S)=0
send R RR N(R)=1 F=0
quiet 100 ms
send R RR N(R)=0 F=0
expect C SABME P=1

case 7-O-17 after an I frame with a wrong N(R) the link begins anew with V(R)=0
clause 5.8.2
state 7
allow ack 1
send C I N(S)=0 N(R)=9 P=0
expect C SABME P=1
send R UA F=1
quiet 100 ms
forget
send C I N(S)=0 N(R)=0 P=0
expect ack 1

case 7-O-18 SABME clears the reject exception
clause 5.8.1
state 7
send C I N(S)=1 N(R)=0 P=0
expect R REJ N(R)=0 F=0
send C SABME P=1
expect R UA F=1
send C I N(S)=2 N(R)=0 P=0
expect R REJ N(R)=0 F=0

case 7-O-19 SABME clears peer receiver busy
clause 5.5.1.2
needs give
state 7
send R RNR N(R)=0 F=0
send C SABME P=1
expect R UA F=1
do give
expect C I N(S)=0 N(R)=0 P=0

case 7-O-20 N(R) = 0 after 127 messages was never sent: establish again
clause 3.5.2, 5.8.2
needs give
state 7
repeat 127
do give
expect C I N(S)=i N(R)=0 P=0
send R RR N(R)=i+1 F=0
end
send R RR N(R)=0 F=0
expect C SABME P=1

case 7-O-21 N(S) = 0 at V(R) = 127 is out of sequence
clause 3.5.2, 5.8.1
state 7
repeat 127
send C I N(S)=i N(R)=0 P=0
expect ack i+1
end
send C I N(S)=0 N(R)=0 P=0
expect R REJ N(R)=127 F=0
send C I N(S)=127 N(R)=0 P=0
expect ack 0
send C I N(S)=0 N(R)=0 P=0
expect ack 1

case 7-O-22 RNR with F=1 that nobody asked for: the busy end is polled
clause 5.8.7 Table 9, 5.6.5
state 7
send R RNR N(R)=0 F=1
expect C RR N(R)=0 P=1
within 200 %T200
send R RR N(R)=0 F=1
quiet 140 %T200

case 7-O-23 N(S) = 127 at V(R) = 0 is out of sequence
clause 3.5.2, 5.8.1
state 7
send C I N(S)=127 N(R)=0 P=1
expect R REJ N(R)=0 F=1
send C I N(S)=0 N(R)=0 P=0
expect ack 1

case 7-O-24 REJ with F=1 that nobody asked for
clause 5.8.7 Table 9
state 7
send R REJ N(R)=0 F=1
quiet 250 ms
send C RR N(R)=0 P=1
expect R RR N(R)=0 F=1
";
