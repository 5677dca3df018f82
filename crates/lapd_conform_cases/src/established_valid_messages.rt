//! State 7, valid behaviour with messages of layer 3.

/// The cases.
pub(crate) const CASES: &str = "\
# State 7, valid behaviour with messages of layer 3.

case 7-V-25 no I frame is sent to a busy end; after RR it is
clause 5.6.5
needs give
state 7
send C RNR N(R)=0 P=1
expect R RR N(R)=0 F=1
do give
quiet 300 ms
send R RR N(R)=0 F=0
expect C I N(S)=0 N(R)=0 P=0
send R RR N(R)=1 F=0
quiet 140 %T200

case 7-V-26 RNR acknowledges
clause 5.6.5
needs give
state 7
do give
expect C I N(S)=0
send R RNR N(R)=1 F=0
expect C RR N(R)=0 P=1
within 200 %T200
send R RR N(R)=1 F=1
quiet 140 %T200
do give
expect C I N(S)=1 N(R)=0 P=0

case 7-V-27 a busy end is polled every T200
clause 5.6.5
state 7
send R RNR N(R)=0 F=0
repeat 5
expect C RR N(R)=0 P=1
at T200
send R RNR N(R)=0 F=1
end
expect C RR N(R)=0 P=1
at T200
send R RR N(R)=0 F=1
quiet 150 %T200

case 7-V-28 SABME while a message is out: it is not sent again
clause 5.5.1.2, 5.7.1
needs give
state 7
do give
expect C I N(S)=0
send C SABME P=1
expect R UA F=1
quiet 150 %T200
do give
expect C I N(S)=0 N(R)=0 P=0

case 7-V-29 a release request: DISC with P=1
clause 5.5.3.2
needs release
state 7
do release
expect C DISC P=1
send R UA F=1
quiet 140 %T200

case 7-V-30 an establish request: SABME
clause 5.7.1
needs establish
state 7
do establish
expect C SABME P=1
send R UA F=1
quiet 140 %T200

case 7-V-31 the own receiver becomes busy and ready again
clause 5.6.6
needs busy
state 7
do busy
expect * RNR N(R)=0 F=0
send C RR N(R)=0 P=1
expect R RNR N(R)=0 F=1
send C I N(S)=0 N(R)=0 P=1
expect R RNR N(R)=0 F=1
do ready
expect ack 0
send C I N(S)=0 N(R)=0 P=1
expect R RR N(R)=1 F=1

case 7-V-32 a busy end discards an I frame, which is sent again later
clause 5.6.6
needs busy
state 7
do busy
expect * RNR N(R)=0 F=0
send C I N(S)=0 N(R)=0 P=0
expect * RNR N(R)=0 F=0
or nothing
do ready
expect ack 0
send C I N(S)=0 N(R)=0 P=0
expect ack 1

case 7-V-33 an acknowledgement does not wait for the own one
clause 5.6.2.2, 5.6.3.1
needs give
state 7
do give
expect C I N(S)=0
send C I N(S)=0 N(R)=0 P=0
expect ack 1
send R RR N(R)=1 F=0
quiet 140 %T200

case 7-V-34 messages of layer 3 in the window all the way round modulo 128
clause 3.5.2, 5.6.1
needs give
state 7
repeat 130
do give
expect C I N(S)=i N(R)=0 P=0
send R RR N(R)=i+1 F=0
end

case 7-V-35 an establish request discards the messages that wait
clause 5.7.1
needs establish
needs give
state 7
do give K+1
repeat K
expect C I N(S)=i
end
do establish
expect C SABME P=1
send R UA F=1
quiet 140 %T200

case 7-V-36 REJ around N(S)=127 sends all again from N(R)
clause 3.5.2, 5.6.4
needs give
needs k>1
state 7
repeat 126
do give
expect C I N(S)=i N(R)=0 P=0
send R RR N(R)=i+1 F=0
end
do give 2
expect C I N(S)=126 N(R)=0 P=0
expect C I N(S)=127 N(R)=0 P=0
send R REJ N(R)=127 F=0
expect C I N(S)=127 N(R)=0 P=0
send R RR N(R)=0 F=0
quiet 140 %T200

case 7-V-37 REJ clears peer receiver busy
clause 5.6.4
needs give
state 7
send R RNR N(R)=0 F=0
quiet 100 ms
send R REJ N(R)=0 F=0
quiet 100 ms
do give
expect C I N(S)=0 N(R)=0 P=0

case 7-V-38 DISC while a message is out: nothing is sent again
clause 5.5.3.2
needs give
state 7
do give
expect C I N(S)=0
send C DISC P=1
expect R UA F=1
quiet 150 %T200

case 7-V-39 an N(R) that acknowledges nothing new has no effect
clause 5.6.3.2
needs give
state 7
do give
expect C I N(S)=0
send R RR N(R)=0 F=0
quiet 100 ms
send R RR N(R)=1 F=0
quiet 140 %T200

case 7-V-40 N(R) of an I frame of a busy end acknowledges, and it is polled
clause 5.6.3.2, 5.6.5
needs give
state 7
do give
expect C I N(S)=0 N(R)=0 P=0
send R RNR N(R)=0 F=0
quiet 100 ms
send C I N(S)=0 N(R)=1 P=0
expect ack 1
expect C RR N(R)=1 P=1
within 200 %T200
send R RR N(R)=1 F=1
quiet 140 %T200

case 7-V-41 N(R) of an I frame acknowledges the first of two messages
clause 5.6.3.2
needs give
needs k>1
state 7
do give 2
expect C I N(S)=0 N(R)=0 P=0
expect C I N(S)=1 N(R)=0 P=0
send C I N(S)=0 N(R)=1 P=0
expect ack 1
send R RR N(R)=2 F=0
quiet 140 %T200

case 7-V-42 after SABME while a message is out, only the new one is sent again
clause 5.5.1.2, 5.6.4
needs give
needs k>1
state 7
do give
expect C I N(S)=0
send C SABME P=1
expect R UA F=1
do give
expect C I N(S)=0 N(R)=0 P=0
send R REJ N(R)=0 F=0
expect C I N(S)=0 N(R)=0 P=0
quiet 300 ms
";
