//! TEI management of a terminal with a TEI.

/// The cases.
pub(crate) const CASES: &str = "\
# TEI management of a terminal with a TEI.

case u-V-01 a check of the own TEI is answered
clause 5.3.3.2
ends user
needs ask
needs automatic
state 1
allow C SABME tei=64
do ask
expect tei Request Ri=?r
send tei Assigned Ri=$r Ai=64
quiet 150 ms
send tei CheckRequest Ri=0 Ai=64
expect tei CheckResponse Ai=64

case u-V-02 a check of all TEIs is answered
clause 5.3.3.2
ends user
needs ask
needs automatic
state 1
allow C SABME tei=64
do ask
expect tei Request Ri=?r
send tei Assigned Ri=$r Ai=64
quiet 150 ms
send tei CheckRequest Ri=0 Ai=127
expect tei CheckResponse Ai=64

case u-V-03 a check of another TEI is not answered
clause 5.3.3.2
ends user
needs ask
needs automatic
state 1
allow C SABME tei=64
do ask
expect tei Request Ri=?r
send tei Assigned Ri=$r Ai=64
quiet 150 ms
send tei CheckRequest Ri=0 Ai=65
quiet 250 ms

case u-V-04 a removal of another TEI has no effect
clause 5.3.4
ends user
needs ask
needs automatic
state 1
allow C SABME tei=64
do ask
expect tei Request Ri=?r
send tei Assigned Ri=$r Ai=64
quiet 150 ms
send tei Remove Ri=0 Ai=65
quiet 100 ms
send tei CheckRequest Ri=0 Ai=64
expect tei CheckResponse Ai=64

case u-V-05 after its removal the TEI is not used
clause 5.3.4
ends user
needs ask
needs automatic
state 1
allow C SABME tei=64
do ask
expect tei Request Ri=?r
send tei Assigned Ri=$r Ai=64
quiet 150 ms
send tei Remove Ri=0 Ai=64
allow tei Request
quiet 150 ms
send tei CheckRequest Ri=0 Ai=64
quiet 250 ms
send C SABME P=1 tei=64
quiet 250 ms

case u-V-06 after a removal of all TEIs the TEI is not used
clause 5.3.4
ends user
needs ask
needs automatic
state 1
allow C SABME tei=64
do ask
expect tei Request Ri=?r
send tei Assigned Ri=$r Ai=64
quiet 150 ms
send tei Remove Ri=0 Ai=127
allow tei Request
quiet 150 ms
send tei CheckRequest Ri=0 Ai=127
quiet 250 ms

case u-O-01 another terminal is assigned the same TEI: the terminal drops it, or verifies
clause 5.3.4.2
ends user
needs ask
needs automatic
state 1
allow C SABME tei=64
do ask
expect tei Request Ri=?r
send tei Assigned Ri=$r Ai=64
quiet 150 ms
allow tei Request
send tei Assigned Ri=$r+1 Ai=64
expect tei Verify Ai=64
or nothing
send tei CheckRequest Ri=0 Ai=64
expect tei CheckResponse Ai=64
or nothing

case u-I-01 malformed and misdirected messages are ignored
clause 5.3.6.1
ends user
needs ask
needs automatic
state 1
allow C SABME tei=64
do ask
expect tei Request Ri=?r
send tei Assigned Ri=$r Ai=64
quiet 150 ms
send raw feff030f00000480
quiet 100 ms
send raw feff03ff00000481
quiet 100 ms
send raw fcff030f00000481
quiet 100 ms
send tei CheckResponse Ri=0 Ai=64
quiet 100 ms
send tei Verify Ri=0 Ai=64
quiet 100 ms
";
