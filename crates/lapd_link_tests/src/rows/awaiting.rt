//! Rows of state 5, awaiting establishment, and of state 6, awaiting release.

/// Each place with its rows.
pub(super) fn rows() -> &'static str {
    ROWS
}

const ROWS: &str = "
# Layer 3 establishes.
at establish | 5 L3I T200
establish request | establish | - | =
release request | release | - | 5 L3I RP T200
data request | give 01 | refused L5 LayerThreeEstablishing | =
data request of 261 octets | give aa+260*aa | refused L3 TooLong | =
SABME P=0 | frame 00816f | send 008163 | =
SABME P=1 | frame 00817f | send 008173 | =
DISC P=0 | frame 008143 | send 00810f | =
DISC P=1 | frame 008153 | send 00811f | =
UA F=1 | frame 028173 | confirmed; stop T200; start T203 | 7 L3I T203
UA F=0 | frame 028163 | report D | =
DM F=1 | frame 02811f | stop T200; released | 4 L3I
DM F=0 | frame 02810f | - | =
T200, RC below N200 | t200 | send 02817f; start T200 | 5 L3I RC=1 T200

# Layer 3 establishes, and N200 SABME more have got no answer.
at establish; t200; t200 | 5 L3I RC=2 T200
T200, RC = N200 | t200 | report G; released | 4 L3I RC=2
UA F=1 | frame 028173 | confirmed; stop T200; start T203 | 7 L3I RC=2 T203
DM F=1 | frame 02811f | stop T200; released | 4 L3I RC=2
establish request | establish | - | =
release request | release | - | 5 L3I RP RC=2 T200

# Layer 3 establishes, and wants the link released.
at establish; release | 5 L3I RP T200
establish request | establish | refused L4 Releasing | =
release request | release | - | =
data request | give 01 | refused L4 Releasing | =
data request of 261 octets | give aa+260*aa | refused L3 TooLong | =
SABME P=0 | frame 00816f | send 008163 | =
SABME P=1 | frame 00817f | send 008173 | =
DISC P=0 | frame 008143 | send 00810f | =
DISC P=1 | frame 008153 | send 00811f | =
UA F=1 | frame 028173 | send 028153; start T200 | 6 L3I T200
UA F=0 | frame 028163 | report D | =
DM F=1 | frame 02811f | stop T200; release-confirmed | 4 L3I
DM F=0 | frame 02810f | - | =
T200, RC below N200 | t200 | send 02817f; start T200 | 5 L3I RP RC=1 T200

# As before, and N200 SABME more have got no answer.
at establish; release; t200; t200 | 5 L3I RP RC=2 T200
T200, RC = N200 | t200 | report G; release-confirmed | 4 L3I RC=2
UA F=1 | frame 028173 | send 028153; start T200 | 6 L3I T200
DM F=1 | frame 02811f | stop T200; release-confirmed | 4 L3I RC=2

# As before, and layer 3 wants the link released.
at frame 00817f; frame 02810f; release | 5 RP T200
establish request | establish | refused L4 Releasing | =
release request | release | - | =
data request | give 01 | refused L4 Releasing | =
UA F=1 | frame 028173 | send 028153; start T200 | 6 T200
DM F=1 | frame 02811f | stop T200; release-confirmed | 4
T200, RC below N200 | t200 | send 02817f; start T200 | 5 RP RC=1 T200

# The data link establishes again by itself, with nothing sent.
at frame 00817f; frame 02810f | 5 T200
establish request | establish | - | 5 L3I T200
release request | release | - | 5 RP T200
data request | give 01 | - | 5 T200 unsent 01
data request of 260 octets | give +260*aa | - | 5 T200 unsent +260*aa
data request of 261 octets | give aa+260*aa | refused L3 TooLong | =
SABME P=1 | frame 00817f | send 008173 | =
DISC P=1 | frame 008153 | send 00811f | =
UA F=1, V(S) = V(A) | frame 028173 | stop T200; start T203 | 7 T203
UA F=0 | frame 028163 | report D | =
DM F=1 | frame 02811f | stop T200; released | 4
T200, RC below N200 | t200 | send 02817f; start T200 | 5 RC=1 T200

# The data link establishes again by itself, and the queue is full of messages that were not sent.
at frame 00817f; frame 02810f; give 01; give 02; give 03 | 5 T200 unsent 01 02 03
establish request | establish | dropped 3 | 5 L3I T200
release request | release | dropped 3 | 5 RP T200
data request, the queue is full | give 04 | refused L2 QueueFull | =
data request of 261 octets | give aa+260*aa | refused L3 TooLong | =
SABME P=1 | frame 00817f | send 008173 | =
UA F=1, V(S) = V(A) | frame 028173 \
    | stop T200; start T203; send 0281000001; stop T203; start T200; send 0281020002 \
    | 7 V(S)=2 T200 sent 01 02 unsent 03
DM F=1 | frame 02811f | dropped 3; stop T200; released | 4
T200, RC below N200 | t200 | send 02817f; start T200 | 5 RC=1 T200 unsent 01 02 03

# The data link establishes again by itself for the last time, with a message that was not sent.
at frame 00817f; frame 02810f; give 01; t200; t200 | 5 RC=2 T200 unsent 01
T200, RC = N200 | t200 | dropped 1; report G; released | 4 RC=2
release request | release | dropped 1 | 5 RP RC=2 T200

# The data link establishes again by itself, with a message sent and not acknowledged, and another behind it.
at frame 00817f; give 01; frame 02810f; give 02 | 5 V(S)=1 T200 sent 01 unsent 02
establish request | establish | dropped 2 | 5 L3I V(S)=1 T200
release request | release | dropped 2 | 5 RP V(S)=1 T200
SABME P=0 | frame 00816f | send 008163 | =
DISC P=0 | frame 008143 | send 00810f | =
UA F=1, V(S) not V(A) | frame 028173 | dropped 2; established; stop T200; start T203 | 7 T203
UA F=0 | frame 028163 | report D | =
DM F=1 | frame 02811f | dropped 2; stop T200; released | 4 V(S)=1
T200, RC below N200 | t200 | send 02817f; start T200 | 5 RC=1 V(S)=1 T200 sent 01 unsent 02

# As before, and layer 3 establishes instead.
at frame 00817f; give 01; frame 02810f; establish | 5 L3I V(S)=1 T200
UA F=1 | frame 028173 | confirmed; stop T200; start T203 | 7 L3I T203
data request | give 02 | refused L5 LayerThreeEstablishing | =

# The link is being released.
at frame 00817f; release | 6 T200
establish request | establish | refused L4 Releasing | =
release request | release | - | =
data request | give 01 | refused L4 Releasing | =
data request of 261 octets | give aa+260*aa | refused L3 TooLong | =
SABME P=0 | frame 00816f | send 00810f | =
SABME P=1 | frame 00817f | send 00811f | =
DISC P=0 | frame 008143 | send 008163 | =
DISC P=1 | frame 008153 | send 008173 | =
UA F=1 | frame 028173 | stop T200; release-confirmed | 4
UA F=0 | frame 028163 | report D | =
DM F=1 | frame 02811f | stop T200; release-confirmed | 4
DM F=0 | frame 02810f | - | =
T200, RC below N200 | t200 | send 028153; start T200 | 6 RC=1 T200

# The link is being released, and N200 DISC more have got no answer.
at frame 00817f; release; t200; t200 | 6 RC=2 T200
T200, RC = N200 | t200 | report H; release-confirmed | 4 RC=2
UA F=1 | frame 028173 | stop T200; release-confirmed | 4 RC=2
DM F=1 | frame 02811f | stop T200; release-confirmed | 4 RC=2
DISC P=1 | frame 008153 | send 008173 | =
";
