//! State 1, TEI unassigned: a terminal without a TEI.

/// The cases.
pub(crate) const CASES: &str = "\
# State 1, TEI unassigned: a terminal without a TEI.

case 1-V-01 a request for a TEI: Ai is 127, or a TEI of 64 to 126
clause 5.3.2
ends user
needs ask
needs automatic
state 1
do ask
expect tei Request Ai=requested

case 1-O-01 a check of all TEIs is not answered without a TEI
clause 5.3.3.2
ends user
needs automatic
state 1
send tei CheckRequest Ri=0 Ai=127
quiet 250 ms

case 1-O-02 Remove has no effect without a TEI
clause 5.3.4
ends user
needs ask
needs automatic
state 1
send tei Remove Ri=0 Ai=127
quiet 250 ms
do ask
expect tei Request

case 1-O-03 Assigned that nobody asked for has no effect
clause 5.3.2
ends user
needs automatic
state 1
send tei Assigned Ri=4660 Ai=70
quiet 150 ms
send tei CheckRequest Ri=0 Ai=70
quiet 250 ms

case 1-O-04 SABME is not answered without a TEI
clause 5.3.1, 3.3.4
ends user
needs automatic
state 1
send C SABME P=1 tei=70
quiet 250 ms

case 1-O-05 messages of a terminal are ignored by a terminal
clause 5.3.6.1 Table 8
ends user
needs automatic
state 1
send tei Request Ri=4660 Ai=127
quiet 150 ms
send tei CheckResponse Ri=4660 Ai=70
quiet 150 ms
send tei Verify Ri=0 Ai=70
quiet 250 ms
";
