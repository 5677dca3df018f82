//! State 6, awaiting release.

/// The cases.
pub(crate) const CASES: &str = "\
# State 6, awaiting release.

case 6-V-01 UA with F=1: state 4
clause 5.5.3.2
needs release
state 6
send R UA F=1
quiet 140 %T200
send C DISC P=1
expect R DM F=1

case 6-V-02 DM with F=1: state 4
clause 5.5.3.2
needs release
state 6
send R DM F=1
quiet 140 %T200
send C DISC P=1
expect R DM F=1

case 6-V-03 SABME is answered by DM
clause 5.5.5.2
needs release
state 6
send C SABME P=1
expect R DM F=1

case 6-V-04 SABME with P=0 is answered by DM with F=0
clause 5.5.5.2
needs release
state 6
send C SABME P=0
expect R DM F=0

case 6-V-05 DISC collides: UA
clause 5.5.5.1
needs release
state 6
send C DISC P=1
expect R UA F=1
send C DISC P=0
expect R UA F=0

case 6-O-01 UA with F=0 and DM with F=0 are ignored
clause 5.8.7 Table 9, Figure B.6
needs release
state 6
send R UA F=0
quiet 100 ms
send R DM F=0
quiet 100 ms
expect C DISC P=1
within 200 %T200

case 6-O-02 I and S frames are ignored
clause 5.5.3.2
needs release
state 6
send C I N(S)=0 N(R)=0 P=1
quiet 100 ms
send C RR N(R)=0 P=1
quiet 100 ms
send R REJ N(R)=0 F=1
quiet 100 ms
expect C DISC P=1
within 200 %T200

case 6-O-03 UI has no answer, and no effect
clause 5.2.3
needs release
state 6
send C UI P=0 info=0801
quiet 200 ms
expect C DISC P=1
within 200 %T200

case 6-O-04 FRMR is ignored
clause 5.5.3.2
needs release
state 6
send R FRMR F=0 info=5300000000
quiet 200 ms
expect C DISC P=1
within 200 %T200

case 6-I-01 a frame that Q.921 does not define is ignored
clause 5.8.5
needs release
state 6
send octets C 3f
quiet 200 ms
expect C DISC P=1
within 200 %T200

case 6-I-02 DISC with information has no answer
clause 5.8.5
needs release
state 6
send C DISC P=1 info=00
quiet 200 ms
expect C DISC P=1
within 200 %T200

case 6-T-01 DISC is sent N200 times more, T200 apart, then state 4
clause 5.5.3.3
needs release
state 6
repeat N200
expect C DISC P=1
at T200
end
quiet 200 %T200
send C DISC P=1
expect R DM F=1
";
