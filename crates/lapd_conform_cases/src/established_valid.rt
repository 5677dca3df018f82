//! State 7, valid behaviour by the line alone.

/// The cases.
pub(crate) const CASES: &str = "\
# State 7, valid behaviour by the line alone.

case 7-V-01 RR command with P=1
clause 5.6.3.2
state 7
send C RR N(R)=0 P=1
expect R RR N(R)=0 F=1

case 7-V-02 RR without poll has no answer
clause 5.6.3.2
state 7
send C RR N(R)=0 P=0
quiet 250 ms
send R RR N(R)=0 F=0
quiet 250 ms

case 7-V-03 RNR command with P=1 is answered
clause 5.6.5
state 7
send C RNR N(R)=0 P=1
expect R RR N(R)=0 F=1

case 7-V-04 REJ command with P=1 is answered
clause 5.6.4
state 7
send C REJ N(R)=0 P=1
expect R RR N(R)=0 F=1

case 7-V-05 REJ response, nothing out, has no answer
clause 5.6.4
state 7
send R REJ N(R)=0 F=0
quiet 250 ms
send C RR N(R)=0 P=1
expect R RR N(R)=0 F=1

case 7-V-06 I is acknowledged
clause 5.6.2.2
state 7
send C I N(S)=0 N(R)=0 P=0
expect ack 1
quiet 250 ms

case 7-V-07 I with P=1 is answered with F=1
clause 5.6.2.1
state 7
send C I N(S)=0 N(R)=0 P=1
expect R RR N(R)=1 F=1
quiet 250 ms

case 7-V-08 three I frames at once are all acknowledged
clause 5.6.2.2
state 7
allow ack 1
allow ack 2
send C I N(S)=0 N(R)=0 P=0
send C I N(S)=1 N(R)=0 P=0
send C I N(S)=2 N(R)=0 P=0
expect ack 3
quiet 250 ms

case 7-V-09 an I frame of N201 octets
clause 5.9.3
state 7
send C I N(S)=0 N(R)=0 P=0 info=N201
expect ack 1

case 7-V-10 N(S) counts modulo 128
clause 3.5.2
state 7
repeat 131
send C I N(S)=i N(R)=0 P=0
expect ack i+1
end

case 7-V-11 UI has no answer
clause 5.2.3
state 7
send C UI P=0 info=0801
quiet 250 ms
send C UI P=1 info=0801
quiet 250 ms
send C RR N(R)=0 P=1
expect R RR N(R)=0 F=1

case 7-V-12 SABME establishes again, V(R) is 0
clause 5.5.1.2, 5.7.1
state 7
send C I N(S)=0 N(R)=0 P=0
expect ack 1
send C SABME P=1
expect R UA F=1
send C I N(S)=0 N(R)=0 P=0
expect ack 1

case 7-V-13 SABME with P=0 is answered by UA with F=0
clause 5.5.1.2
state 7
send C SABME P=0
expect R UA F=0

case 7-V-14 DISC with P=1 is answered by UA, the next one by DM
clause 5.5.3.2
state 7
send C DISC P=1
expect R UA F=1
send C DISC P=1
expect R DM F=1

case 7-V-15 DISC with P=0 is answered by UA with F=0
clause 5.5.3.2
state 7
send C DISC P=0
expect R UA F=0

case 7-V-20 a message is sent as I, its RR stops T200
clause 5.6.1, 5.6.3.2
needs give
state 7
do give
expect C I N(S)=0 N(R)=0 P=0
send R RR N(R)=1 F=0
quiet 150 %T200

case 7-V-21 N(R) of an I frame acknowledges
clause 5.6.3.2
needs give
state 7
do give
expect C I N(S)=0 N(R)=0 P=0
send C I N(S)=0 N(R)=1 P=0
expect ack 1
quiet 150 %T200
do give
expect C I N(S)=1 N(R)=1 P=0

case 7-V-22 no more than k I frames are out
clause 5.6.1, 5.9.5
needs give
state 7
repeat K+2
do give
end
repeat K
expect C I N(S)=i N(R)=0 P=0
end
quiet 250 ms
send R RR N(R)=1 F=0
expect C I N(S)=K N(R)=0 P=0
quiet 150 ms
send R RR N(R)=2 F=0
expect C I N(S)=K+1 N(R)=0 P=0
send R RR N(R)=K+2 F=0
quiet 140 %T200

case 7-V-23 REJ sends all again from N(R)
clause 5.6.4
needs give
needs k>2
state 7
do give 3
expect C I N(S)=0
expect C I N(S)=1
expect C I N(S)=2
send R REJ N(R)=1 F=0
expect C I N(S)=1 N(R)=0 P=0
expect C I N(S)=2 N(R)=0 P=0
send R RR N(R)=3 F=0
quiet 140 %T200

case 7-V-24 REJ with P=1 is answered, and all is sent again
clause 5.6.4
needs give
state 7
do give
expect C I N(S)=0
send C REJ N(R)=0 P=1
expect R RR N(R)=0 F=1
and C I N(S)=0 N(R)=0 P=0
send R RR N(R)=1 F=0
quiet 140 %T200
";
