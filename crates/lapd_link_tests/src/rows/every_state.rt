//! Rows that hold in every state, and rows that hold in every state without an established link.

/// Scripts that lead to each state, with and without layer 3, a release, messages and conditions;
/// and the condition that each leads to.
pub(super) const NOT_ESTABLISHED: &str = "\
state | 4
establish; frame 02811f | 4 L3I
establish | 5 L3I T200
establish; release | 5 L3I RP T200
frame 00817f; frame 02810f | 5 T200
frame 00817f; frame 02810f; release | 5 RP T200
frame 00817f; give 01; frame 02810f; give 02; t200 | 5 RC=1 V(S)=1 T200 sent 01 unsent 02
frame 00817f; release | 6 T200
establish; release; frame 028173; t200; t200 | 6 L3I RC=2 T200
frame 00817f; busy on; release | 6 own-busy T200
";

pub(super) const ESTABLISHED: &str = "\
frame 00817f | 7 T203
establish; frame 028173 | 7 L3I T203
frame 00817f; give 01; give 02; give 03 | 7 V(S)=2 T200 sent 01 02 unsent 03
frame 00817f; frame 02810500; give 01; give 02; give 03 | 7 peer-busy T200 unsent 01 02 03
frame 00817f; busy on | 7 own-busy T203
frame 00817f; frame 00810200 | 7 rejecting T203
frame 00817f; t203 | 8 T200
establish; frame 028173; t203; t200 | 8 L3I RC=1 T200
frame 00817f; give 01; give 02; give 03; t200 | 8 RC=1 V(S)=2 T200 sent 01 02 unsent 03
";

pub(super) const IN_EVERY_STATE: &str = "\
UI P=0 | frame 0081030a0b | unit 0a0b | =
UI P=1 | frame 0081130a | unit 0a | =
UI P=0 without information | frame 008103 | unit | =
UI P=1 of 260 octets | frame 008113+260*aa | unit +260*aa | =
unit data request | unit 0a0b | send 0281030a0b | =
unit data request of no octets | unit | send 028103 | =
unit data request of 260 octets | unit +260*aa | send 028103+260*aa | =
unit data request of 261 octets | unit aa+260*aa | refused L3 TooLong | =
data request of 261 octets | give aa+260*aa | refused L3 TooLong | =
XID command P=0 | frame 0081affe | - | =
XID command P=1 | frame 0081bf | - | =
XID response F=0 | frame 0281affe | - | =
XID response F=1 | frame 0281bf | - | =
";

pub(super) const FRAMES_WITHOUT_ROW: &str = "\
I P=0 | frame 0081000005 | - | =
I P=1 | frame 0081000105 | - | =
I P=1 out of sequence, N(R) not valid | frame 00810a0b | - | =
RR command P=0 | frame 00810100 | - | =
RR command P=1 | frame 00810101 | - | =
RR response F=0 | frame 02810100 | - | =
RR response F=1 | frame 02810101 | - | =
RNR command P=0 | frame 00810500 | - | =
RNR command P=1 | frame 00810501 | - | =
RNR response F=0 | frame 02810500 | - | =
RNR response F=1 | frame 02810501 | - | =
REJ command P=0 | frame 00810900 | - | =
REJ command P=1 | frame 00810901 | - | =
REJ response F=0 | frame 02810900 | - | =
REJ response F=1, N(R) not valid | frame 02810909 | - | =
DM F=0 | frame 02810f | - | =
FRMR F=0 | frame 0281877f00020401 | - | =
FRMR F=1 | frame 0281977f00020401 | - | =
busy | busy on | - | =
busy no longer | busy off | - | =
T203 does not run | t203 | - | =
";

pub(super) const FAULTS_REPORTED: &str = "\
undefined control field | frame 008177 | report L | =
reserved bit in an S frame | frame 00811100 | report L | =
SABME as a response | frame 02817f | report L | =
UA as a command | frame 008173 | report L | =
I as a response | frame 02810000 | report L | =
information in SABME | frame 00817f00 | report M | =
information in DM | frame 02811f00 | report M | =
S frame of five octets | frame 0081010000 | report N | =
FRMR with four octets of information | frame 0281877f000204 | report N | =
I with 261 octets of information | frame 00810000aa+260*aa | report O | =
UI with 261 octets of information | frame 008103aa+260*aa | report O | =
XID with 261 octets of information | frame 0281bfaa+260*aa | report O | =
";
