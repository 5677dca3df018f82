//! Rows of state 4, TEI assigned.

/// Each place with its rows.
pub(super) fn rows() -> &'static str {
    ROWS
}

const ROWS: &str = "
# A new link.
at state | 4
establish request | establish | send 02817f; start T200 | 5 L3I T200
release request | release | release-confirmed | =
data request | give 01 | refused L1 NotEstablished | =
data request of 260 octets | give +260*aa | refused L1 NotEstablished | =
data request of 261 octets | give aa+260*aa | refused L3 TooLong | =
busy | busy on | - | =
busy no longer | busy off | - | =
T200 does not run | t200 | - | =
T203 does not run | t203 | - | =

SABME P=0 | frame 00816f | send 008163; established; start T203 | 7 T203
SABME P=1 | frame 00817f | send 008173; established; start T203 | 7 T203
DISC P=0 | frame 008143 | send 00810f | =
DISC P=1 | frame 008153 | send 00811f | =
UA F=0 | frame 028163 | report D | =
UA F=1 | frame 028173 | report C | =
DM F=0 | frame 02810f | - | =
DM F=1 | frame 02811f | - | =

# A link that was established as layer 3 asked, and that the peer refused after a second SABME.
at establish; t200; frame 02811f | 4 L3I RC=1
establish request | establish | send 02817f; start T200 | 5 L3I T200
SABME P=1 | frame 00817f | send 008173; established; start T203 | 7 L3I RC=1 T203

# A link that was established, with every mark set, until the peer released it.
at frame 00817f; give 01; frame 00810000; frame 00810400; frame 00810500; busy on; frame 008153 \
    | 4 V(S)=1 V(R)=1 peer-busy own-busy rejecting
SABME P=0 | frame 00816f | send 008163; established; start T203 | 7 T203
SABME P=1 | frame 00817f | send 008173; established; start T203 | 7 T203
establish request | establish | send 02817f; start T200 | 5 L3I V(S)=1 V(R)=1 T200
busy no longer | busy off | - | =
busy | busy on | - | =
data request | give 01 | refused L1 NotEstablished | =
DISC P=1 | frame 008153 | send 00811f | =
";
