//! State 3, establish awaiting TEI.

/// The cases.
pub(crate) const CASES: &str = "\
# State 3, establish awaiting TEI.

case 3-V-01 an establish request without a TEI: a TEI is requested, then SABME
clause 5.3.2, 5.5.1.1
ends user
needs automatic
needs establish
state 1
do establish
expect tei Request Ri=?r
send tei Assigned Ri=$r Ai=64
expect C SABME P=1 tei=64

case 3-V-02 the link of the assigned TEI is established
clause 5.3.2, 5.5.1.2
ends user
needs automatic
needs establish
state 1
do establish
expect tei Request Ri=?r
send tei Assigned Ri=$r Ai=64
expect C SABME P=1 tei=64
send R UA F=1 tei=64
quiet 100 ms
send C RR N(R)=0 P=1 tei=64
expect R RR N(R)=0 F=1 tei=64

case 3-V-03 Denied: it asks again, or gives up
clause 5.3.2
ends user
needs automatic
needs establish
state 1
do establish
expect tei Request Ri=?r
send tei Denied Ri=$r Ai=127
expect tei Request Ri=unlike-r
or nothing
within 150 %T202

case 3-O-01 Assigned with another Ri does not establish
clause 5.3.2
ends user
needs automatic
needs establish
state 1
do establish
expect tei Request Ri=?r
send tei Assigned Ri=$r+1 Ai=65
quiet 300 ms

case 3-T-01 the Request is repeated after T202, with another Ri, N202 times in all
clause 5.3.2.1
ends user
needs automatic
needs establish
state 1
do establish
expect tei Request Ri=?r Ai=requested
repeat N202-1
expect tei Request Ri=unlike-r Ai=requested
at T202
end
";
