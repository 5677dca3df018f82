//! State 7, timers and counters.

/// The cases.
pub(crate) const CASES: &str = "\
# State 7, timers and counters.

case 7-T-01 an unacknowledged I frame: N200 polls T200 apart, then SABME
clause 5.6.7, 5.7.1
needs give
state 7
do give
expect C I N(S)=0
repeat N200
expect C RR N(R)=0 P=1
or C I N(S)=0 N(R)=0 P=1
at T200
end
expect C SABME P=1
at T200

case 7-T-02 a partial acknowledgement starts T200 anew
clause 5.6.3.2
needs give
needs k>1
state 7
do give 2
expect C I N(S)=0
expect C I N(S)=1
pause 40 %T200
send R RR N(R)=1 F=0
expect C RR N(R)=0 P=1
or C I N(S)=1 N(R)=0 P=1
at T200

case 7-T-03 an idle line is polled after T203
clause 5.10
needs t203
state 7
expect C RR N(R)=0 P=1
at T203
send R RR N(R)=0 F=1
expect C RR N(R)=0 P=1
at T203

case 7-T-04 polls of T203 without an answer: N200 more, then SABME
clause 5.10, 5.7.1
needs t203
state 7
expect C RR N(R)=0 P=1
at T203
repeat N200
expect C RR N(R)=0 P=1
at T200
end
expect C SABME P=1
at T200

case 7-T-05 REJ of the only I frame: T200 runs for the repetition
clause 5.6.4, 5.6.1
needs give
state 7
do give
expect C I N(S)=0
send R REJ N(R)=0 F=0
expect C I N(S)=0 N(R)=0 P=0
expect C RR N(R)=0 P=1
or C I N(S)=0 N(R)=0 P=1
at T200

case 7-T-06 a message waits for the answer to a poll of T203
clause 5.10, 5.6.1
needs give
needs t203
state 7
expect C RR N(R)=0 P=1
at T203
do give
quiet 300 ms
send R RR N(R)=0 F=1
expect C I N(S)=0 N(R)=0 P=0

case 7-T-07 a partial acknowledgement starts T200 anew while a message waits
clause 5.6.3.2
needs give
needs k>1
state 7
do give K+1
repeat K
expect C I
end
pause 40 %T200
send R RR N(R)=1 F=0
expect C I N(S)=K N(R)=0 P=0
expect C RR N(R)=0 P=1
or C I N(S)=K N(R)=0 P=1
at T200
";
