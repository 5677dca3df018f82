//! State 2, assign awaiting TEI.

/// The cases.
pub(crate) const CASES: &str = "\
# State 2, assign awaiting TEI.

case 2-V-01 Assigned with another Ri is not for this terminal
clause 5.3.2
ends user
needs ask
needs automatic
state 1
allow C SABME tei=64
do ask
expect tei Request Ri=?r
send tei Assigned Ri=$r+1 Ai=65
quiet 150 ms
send tei CheckRequest Ri=0 Ai=65
quiet 150 ms
send tei Assigned Ri=$r Ai=64
quiet 150 ms
send tei CheckRequest Ri=0 Ai=64
expect tei CheckResponse Ai=64

case 2-V-02 Denied: it asks again, or gives up
clause 5.3.2
ends user
needs ask
needs automatic
state 1
do ask
expect tei Request Ri=?r
send tei Denied Ri=$r Ai=127
expect tei Request Ri=unlike-r
or nothing
within 150 %T202

case 2-O-01 a check before a TEI is assigned is not answered
clause 5.3.3.2
ends user
needs ask
needs automatic
state 1
do ask
expect tei Request Ri=?r
send tei CheckRequest Ri=0 Ai=127
quiet 250 ms

case 2-I-01 Assigned with TEI 127 is ignored
clause 5.3.2, 5.3.6.4
ends user
needs ask
needs automatic
state 1
do ask
expect tei Request Ri=?r
send tei Assigned Ri=$r Ai=127
quiet 200 ms
send tei CheckRequest Ri=0 Ai=127
quiet 250 ms

case 2-T-01 a Request, again after T202 with another Ri, N202 times in all
clause 5.3.2, 5.3.2.1
ends user
needs ask
needs automatic
state 1
do ask
expect tei Request Ri=?r Ai=requested
repeat N202-1
expect tei Request Ri=unlike-r Ai=requested
at T202
end

case 2-T-02 the Ri of a Request that was given up does not count
clause 5.3.2
ends user
needs ask
needs automatic
state 1
do ask
expect tei Request Ri=?r
expect tei Request Ri=?q
at T202
send tei Assigned Ri=$r Ai=66
allow C SABME tei=67
quiet 150 ms
send tei CheckRequest Ri=0 Ai=66
quiet 150 ms
send tei Assigned Ri=$q Ai=67
quiet 150 ms
send tei CheckRequest Ri=0 Ai=67
expect tei CheckResponse Ai=67
";
