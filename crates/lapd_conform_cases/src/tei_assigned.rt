//! State 4, TEI assigned.

/// The cases.
pub(crate) const CASES: &str = "\
# State 4, TEI assigned.

case 4-V-01 SABME with P=1 is answered by UA with F=1
clause 5.5.1.2
state 4
send C SABME P=1
expect R UA F=1

case 4-V-02 SABME with P=0 is answered by UA with F=0
clause 5.5.1.2
state 4
send C SABME P=0
expect R UA F=0

case 4-V-03 DISC with P=1 is answered by DM with F=1
clause 5.5.4
state 4
send C DISC P=1
expect R DM F=1

case 4-V-04 DISC with P=0 is answered by DM with F=0
clause 5.5.4
state 4
send C DISC P=0
expect R DM F=0

case 4-V-05 UI has no answer, and no effect
clause 5.2.3
state 4
send C UI P=0 info=0801
quiet 250 ms
send C UI P=1 info=0801
quiet 250 ms
send C DISC P=1
expect R DM F=1

case 4-V-06 an establish request of layer 3: SABME with P=1; after UA state 7
clause 5.5.1.2
needs establish
state 4
do establish
expect C SABME P=1
send R UA F=1
quiet 100 ms
send C RR N(R)=0 P=1
expect R RR N(R)=0 F=1

case 4-V-07 a release request of layer 3 sends nothing
clause 5.5.3.1
needs release
state 4
do release
quiet 250 ms

case 4-V-08 SABME again, as if the UA was lost
clause 5.5.1.2
state 4
send C SABME P=1
expect R UA F=1
send C SABME P=1
expect R UA F=1
send C I N(S)=0 N(R)=0 P=0
expect ack 1

case 4-V-09 UI of layer 3
clause 5.2.2
needs unit
state 4
do unit
expect C UI P=0 info=0801 tei=*

case 4-V-10 V(R) and V(S) are 0 after release and establishment
clause 5.5.1.2
state 7
send C I N(S)=0 N(R)=0 P=0
expect ack 1
send C DISC P=1
expect R UA F=1
send C SABME P=1
expect R UA F=1
send C I N(S)=0 N(R)=0 P=0
expect ack 1

case 4-V-11 UI of N201 octets has no answer
clause 5.2.3, 5.9.3
state 4
send C UI P=0 info=N201
quiet 250 ms
send C DISC P=1
expect R DM F=1

case 4-V-12 SABME with P=0 establishes
clause 5.5.1.2
state 4
send C SABME P=0
expect R UA F=0
send C I N(S)=0 N(R)=0 P=1
expect R RR N(R)=1 F=1

case 4-V-13 a busy condition ends by release and establishment
clause 5.5.1.2
needs give
state 7
send R RNR N(R)=0 F=0
send C DISC P=1
expect R UA F=1
send C SABME P=1
expect R UA F=1
do give
expect C I N(S)=0 N(R)=0 P=0

case 4-O-01 RR, RNR, REJ commands with P=1 are discarded
clause 5.5.4
state 4
send C RR N(R)=0 P=1
quiet 250 ms
send C RNR N(R)=0 P=1
quiet 250 ms
send C REJ N(R)=0 P=1
quiet 250 ms

case 4-O-02 I is discarded
clause 5.5.4
state 4
send C I N(S)=0 N(R)=0 P=0
quiet 250 ms
send C I N(S)=0 N(R)=0 P=1
quiet 250 ms

case 4-O-03 UA is ignored on the line
clause 5.8.7 Table 9
state 4
send R UA F=1
quiet 250 ms
send R UA F=0
quiet 250 ms
send C DISC P=1
expect R DM F=1

case 4-O-04 DM with F=1 is ignored
clause 5.8.7 Table 9
state 4
send R DM F=1
quiet 250 ms
send C DISC P=1
expect R DM F=1

case 4-O-05 DM with F=0: SABME, or ignored by an end that is not able to establish
clause 5.5.4
state 4
send R DM F=0
expect C SABME P=1
or nothing

case 4-O-06 FRMR is ignored
clause 5.5.4
state 4
send R FRMR F=0 info=7f00000000
quiet 250 ms
send C DISC P=1
expect R DM F=1

case 4-O-07 XID is answered by XID, or not at all
clause 5.4, 3.6.12
state 4
send C XID P=0
expect R XID F=0
or nothing
send C DISC P=1
expect R DM F=1

case 4-I-01 SABME as a response is no SABME
clause 3.6.1 Table 5
state 4
send octets R 7f
quiet 250 ms
send C DISC P=1
expect R DM F=1

case 4-I-02 SABME with information does not establish
clause 5.8.5
state 4
send C SABME P=1 info=00
quiet 250 ms
send C DISC P=1
expect R DM F=1

case 4-I-03 SABM, which LAPD does not have, is no SABME
clause 3.6.1 Table 5
state 4
send octets C 3f
quiet 250 ms
send C DISC P=1
expect R DM F=1

case 4-I-04 a SABME with a wrong extension bit is discarded
clause 3.2, 2.9
ends net
state 4
send raw 01017f
quiet 250 ms
send raw 00007f
quiet 250 ms

case 4-I-05 SABME for a SAPI that is not served is discarded
clause 2.9
needs sapis
state 4
send C SABME P=1 sapi=5
quiet 250 ms

case 4-I-06 SABME for another TEI has no answer
clause 3.3.4
state 4
send C SABME P=1 tei=99
quiet 250 ms

case 4-I-07 SABME to the group TEI has no answer
clause 3.3.4.1, 5.1
state 4
send C SABME P=1 tei=127
quiet 250 ms

case 4-I-08 frames of one and two octets are discarded
clause 2.9
state 4
send raw 00
quiet 120 ms
send raw 0001
quiet 120 ms
send C DISC P=1
expect R DM F=1

case 4-I-09 UI of N201 + 1 octets has no effect
clause 5.8.5, 5.9.3
needs n201
state 4
send C UI P=0 info=N201+1
quiet 250 ms
send C DISC P=1
expect R DM F=1

case 4-I-10 DISC with information has no answer
clause 5.8.5
state 4
send C DISC P=1 info=00
quiet 250 ms
send C DISC P=1
expect R DM F=1

case 4-I-11 an S frame of five octets is ignored
clause 5.8.5
state 4
send octets C 010100
quiet 250 ms
send C DISC P=1
expect R DM F=1

case 4-I-12 DM as a command is ignored
clause 3.6.1 Table 5
state 4
send octets C 0f
quiet 250 ms
send C DISC P=1
expect R DM F=1

case 4-T-01 an unanswered SABME is sent N200 times more, T200 apart
clause 5.5.1.2, 5.5.1.3
needs establish
state 4
do establish
expect C SABME P=1
repeat N200
expect C SABME P=1
at T200
end
quiet 200 %T200
send C DISC P=1
expect R DM F=1
";
