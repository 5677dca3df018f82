//! TEI management of the network side.

/// The cases.
pub(crate) const CASES: &str = "\
# TEI management of the network side.

case n-V-01 a Request is answered with its Ri and a TEI of 64 to 126
clause 5.3.2
ends net
needs automatic
allow tei Remove Ai=127
send tei Request Ri=4660 Ai=127
expect tei Assigned Ri=4660 Ai=automatic

case n-V-02 two terminals have two TEIs
clause 5.3.2
ends net
needs automatic
allow tei Remove Ai=127
send tei Request Ri=4660 Ai=127
expect tei Assigned Ri=4660 Ai=?a
send tei Request Ri=22136 Ai=127
expect tei Assigned Ri=22136 Ai=unlike-a

case n-V-03 a TEI that is asked for is assigned, or another one, or denied
clause 5.3.2
ends net
needs automatic
allow tei Remove Ai=127
send tei Request Ri=4660 Ai=70
expect tei Assigned Ri=4660 Ai=automatic
or tei Denied Ri=4660

case n-V-04 the link of an assigned TEI is served
clause 5.3.2, 5.5.1
ends net
needs automatic
allow tei Remove Ai=127
send tei Request Ri=4660 Ai=127
expect tei Assigned Ri=4660 Ai=?a
send C SABME P=1 tei=$a
expect R UA F=1 tei=$a

case n-V-05 a check with one answer ends
clause 5.3.3.2
ends net
needs automatic
needs check
allow tei Remove Ai=127
send tei Request Ri=4660 Ai=127
expect tei Assigned Ri=4660 Ai=64
do check 64
expect tei CheckRequest Ai=64
or tei CheckRequest Ai=127
send tei CheckResponse Ri=17185 Ai=64
quiet 250 %T201

case n-V-06 a check with two answers: the TEI is removed, by two messages
clause 5.3.3.2, 5.3.4
ends net
needs automatic
needs check
send tei Request Ri=4660 Ai=127
allow tei Remove Ai=127
expect tei Assigned Ri=4660 Ai=64
do check 64
expect tei CheckRequest Ai=64
or tei CheckRequest Ai=127
send tei CheckResponse Ri=17185 Ai=64
send tei CheckResponse Ri=39030 Ai=64
expect tei Remove Ai=64
within 200 %T201
expect tei Remove Ai=64

case n-V-07 when all TEIs are assigned, a check or a denial
clause 5.3.2, 5.3.3
ends net
needs automatic
allow tei Remove Ai=127
repeat 63
send tei Request Ri=i+4096 Ai=127
expect tei Assigned Ai=automatic
end
send tei Request Ri=273 Ai=127
expect tei CheckRequest
or tei Denied Ri=273

case n-V-08 Verify: a check, if the network has this option
clause 5.3.5
ends net
needs automatic
allow tei Remove Ai=127
send tei Request Ri=4660 Ai=127
expect tei Assigned Ri=4660 Ai=?a
send tei Verify Ri=0 Ai=$a
expect tei CheckRequest Ai=$a
or tei CheckRequest Ai=127
or nothing

case n-V-09 removal on request: two messages
clause 5.3.4
ends net
needs automatic
needs remove
allow tei Remove Ai=127
send tei Request Ri=4660 Ai=127
expect tei Assigned Ri=4660 Ai=64
do remove 64
expect tei Remove Ai=64
expect tei Remove Ai=64

case n-V-10 a TEI that another terminal has is not assigned
clause 5.3.2
ends net
needs automatic
allow tei Remove Ai=127
send tei Request Ri=4660 Ai=127
expect tei Assigned Ri=4660 Ai=?a
send tei Request Ri=9029 Ai=$a
expect tei Assigned Ri=9029 Ai=unlike-a
or tei Denied Ri=9029

case n-O-01 messages of the network side are ignored by it
clause 5.3.6.1 Table 8
ends net
needs automatic
allow tei Remove Ai=127
send tei Assigned Ri=4660 Ai=64
quiet 150 ms
send tei Denied Ri=4660 Ai=127
quiet 150 ms
send tei CheckRequest Ri=0 Ai=127
quiet 150 ms

case n-O-02 a CheckResponse that nobody asked for has no effect
clause 5.3.3.2
ends net
needs automatic
allow tei Remove Ai=127
send tei Request Ri=4660 Ai=127
expect tei Assigned Ri=4660 Ai=?a
send tei CheckResponse Ri=17185 Ai=$a
send tei CheckResponse Ri=39321 Ai=$a
quiet 300 ms
send C SABME P=1 tei=$a
expect R UA F=1 tei=$a

case n-O-03 SABME with a TEI that nobody has is not answered on the link
clause 5.3.1
ends net
needs automatic
allow tei Remove
send C SABME P=1 tei=99
quiet 250 ms

case n-I-01 malformed Requests are ignored
clause 5.3.6.1
ends net
needs automatic
allow tei Remove Ai=127
send raw fcff030f123401fe
quiet 150 ms
send raw fcff030f123401
quiet 150 ms
send raw fcff03ff123401ff
quiet 150 ms
send raw fcff030f123408ff
quiet 150 ms

case n-I-02 a Request as a response is ignored
clause 3.3.2
ends net
needs automatic
allow tei Remove Ai=127
send raw feff030f123401ff
quiet 250 ms

case n-I-03 messages with a wrong management entity or without the extension bit have no effect
clause 5.3.6.1
ends net
needs automatic
allow tei Remove Ai=127
send raw fcff030e123401ff
quiet 150 ms
send raw fcff030f123401fe
quiet 150 ms
send tei Request Ri=4660 Ai=127
expect tei Assigned Ri=4660

case n-T-01 a check without an answer is made twice, T201 apart
clause 5.3.3.2
ends net
needs automatic
needs check
allow tei Remove Ai=127
send tei Request Ri=4660 Ai=127
expect tei Assigned Ri=4660 Ai=64
do check 64
expect tei CheckRequest Ai=64
or tei CheckRequest Ai=127
expect tei CheckRequest Ai=64
or tei CheckRequest Ai=127
at T201
";
