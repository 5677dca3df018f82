//! Rows of state 8, timer recovery.

/// Each place with its rows.
pub(super) fn rows() -> &'static str {
    ROWS
}

const ROWS: &str = "
# T203 expired, and nothing is to be acknowledged.
at frame 00817f; t203 | 8 T200
establish request | establish | send 02817f; start T200 | 5 L3I T200
release request | release | send 028153; start T200 | 6 T200
data request | give 01 | - | 8 T200 unsent 01
data request of 260 octets | give +260*aa | - | 8 T200 unsent +260*aa
data request of 261 octets | give aa+260*aa | refused L3 TooLong | =
busy | busy on | send 00810500 | 8 own-busy T200
not busy | busy off | - | =
T200, RC below N200 | t200 | send 02810101; start T200 | 8 RC=1 T200
T203 does not run | t203 | - | =

SABME P=0, V(S) = V(A) | frame 00816f \
    | send 008163; report F; stop T200; start T203 | 7 T203
SABME P=1, V(S) = V(A) | frame 00817f \
    | send 008173; report F; stop T200; start T203 | 7 T203
DISC P=0 | frame 008143 | send 008163; released; stop T200 | 4
DISC P=1 | frame 008153 | send 008173; released; stop T200 | 4
UA F=0 | frame 028163 | report D | =
UA F=1 | frame 028173 | report C | =
DM F=0 | frame 02810f | report E; send 02817f; start T200 | 5 T200
DM F=1 | frame 02811f | report B; send 02817f; start T200 | 5 T200
FRMR F=0 | frame 0281877f00020401 | report K; send 02817f; start T200 | 5 T200
FRMR F=1 | frame 0281977f00020401 | report K; send 02817f; start T200 | 5 T200

reserved bit in an S frame | frame 00811100 | report L; send 02817f; start T200 | 5 T200
information in DISC | frame 00815300 | report M; send 02817f; start T200 | 5 T200
FRMR with six octets of information | frame 0281977f0002040100 \
    | report N; send 02817f; start T200 | 5 T200
XID with 261 octets of information | frame 0081afaa+260*aa \
    | report O; send 02817f; start T200 | 5 T200

I P=0, N(S) = V(R) | frame 0081000005 | data 05; send 00810102 | 8 V(R)=1 T200
I P=1, N(S) = V(R) | frame 0081000105 | data 05; send 00810103 | 8 V(R)=1 T200
I P=0, N(S) not V(R) | frame 0081020005 | send 00810900 | 8 rejecting T200
I P=1, N(S) not V(R) | frame 0081020105 | send 00810901 | 8 rejecting T200
I P=0, N(R) not valid | frame 0081000205 \
    | data 05; report J; send 02817f; start T200 | 5 V(R)=1 T200
I P=1, N(R) not valid | frame 0081000305 \
    | data 05; send 00810103; report J; send 02817f; start T200 | 5 V(R)=1 T200
I P=1, N(S) not V(R), N(R) not valid | frame 0081020305 \
    | send 00810901; report J; send 02817f; start T200 | 5 T200

RR command P=0 | frame 00810100 | - | =
RR command P=1 | frame 00810101 | send 00810101 | =
RR response F=0 | frame 02810100 | - | =
RR response F=1 | frame 02810101 | stop T200; start T203 | 7 T203
REJ command P=0 | frame 00810900 | - | =
REJ command P=1 | frame 00810901 | send 00810101 | =
REJ response F=0 | frame 02810900 | - | =
REJ response F=1 | frame 02810901 | stop T200; start T203 | 7 T203
RNR command P=0 | frame 00810500 | - | 8 peer-busy T200
RNR command P=1 | frame 00810501 | send 00810101 | 8 peer-busy T200
RNR response F=0 | frame 02810500 | - | 8 peer-busy T200
RNR response F=1 | frame 02810501 | start T200 | 7 peer-busy T200

RR command P=0 | frame 00810102 | report J; send 02817f; start T200 | 5 T200
RR command P=1 | frame 00810103 \
    | send 00810101; report J; send 02817f; start T200 | 5 T200
RR response F=0 | frame 02810102 | report J; send 02817f; start T200 | 5 T200
RR response F=1 | frame 02810103 | report J; send 02817f; start T200 | 5 T200
REJ command P=0 | frame 008109fe | report J; send 02817f; start T200 | 5 T200
REJ command P=1 | frame 008109ff \
    | send 00810101; report J; send 02817f; start T200 | 5 T200
REJ response F=0 | frame 028109fe | report J; send 02817f; start T200 | 5 T200
REJ response F=1 | frame 028109ff | report J; send 02817f; start T200 | 5 T200
RNR command P=0 | frame 00810502 | report J; send 02817f; start T200 | 5 T200
RNR command P=1 | frame 00810503 \
    | send 00810101; report J; send 02817f; start T200 | 5 T200
RNR response F=0 | frame 02810502 | report J; send 02817f; start T200 | 5 T200
RNR response F=1 | frame 02810503 | report J; send 02817f; start T200 | 5 T200

# T200 expired, with two of three messages sent.
at frame 00817f; give 01; give 02; give 03; t200 | 8 RC=1 V(S)=2 T200 sent 01 02 unsent 03
data request, the queue is full | give 04 | refused L2 QueueFull | =
data request of 261 octets | give aa+260*aa | refused L3 TooLong | =
establish request | establish | dropped 3; send 02817f; start T200 | 5 L3I V(S)=2 T200
release request | release | dropped 3; send 028153; start T200 | 6 V(S)=2 T200
T200, RC below N200 | t200 \
    | send 02810101; start T200 | 8 RC=2 V(S)=2 T200 sent 01 02 unsent 03
busy | busy on | send 00810500 | 8 RC=1 V(S)=2 own-busy T200 sent 01 02 unsent 03
SABME P=0, V(S) not V(A) | frame 00816f \
    | send 008163; report F; dropped 3; established; stop T200; start T203 | 7 RC=1 T203
SABME P=1, V(S) not V(A) | frame 00817f \
    | send 008173; report F; dropped 3; established; stop T200; start T203 | 7 RC=1 T203
DISC P=1 | frame 008153 | dropped 3; send 008173; released; stop T200 | 4 RC=1 V(S)=2
DM F=1 | frame 02811f \
    | report B; send 02817f; start T200 | 5 V(S)=2 T200 sent 01 02 unsent 03
DM F=0 | frame 02810f \
    | report E; send 02817f; start T200 | 5 V(S)=2 T200 sent 01 02 unsent 03
undefined control field | frame 008177 \
    | report L; send 02817f; start T200 | 5 V(S)=2 T200 sent 01 02 unsent 03

RR F=1, N(R) = V(A) | frame 02810101 \
    | stop T200; start T203; send 0281000001; stop T203; start T200; send 0281020002 \
    | 7 RC=1 V(S)=2 T200 sent 01 02 unsent 03
RR F=1, N(R) between | frame 02810103 \
    | acknowledged 1; stop T200; start T203; send 0281020002; stop T203; start T200; \
    send 0281040003 | 7 RC=1 V(S)=3 V(A)=1 T200 sent 02 03
RR F=1, N(R) = V(S) | frame 02810105 \
    | acknowledged 2; stop T200; start T203; send 0281040003; stop T203; start T200 \
    | 7 RC=1 V(S)=3 V(A)=2 T200 sent 03
RR F=1, N(R) not valid | frame 02810107 \
    | report J; send 02817f; start T200 | 5 V(S)=2 T200 sent 01 02 unsent 03
REJ F=1, N(R) = V(A) | frame 02810901 \
    | stop T200; start T203; send 0281000001; stop T203; start T200; send 0281020002 \
    | 7 RC=1 V(S)=2 T200 sent 01 02 unsent 03
REJ F=1, N(R) between | frame 02810903 \
    | acknowledged 1; stop T200; start T203; send 0281020002; stop T203; start T200; \
    send 0281040003 | 7 RC=1 V(S)=3 V(A)=1 T200 sent 02 03
RNR F=1, N(R) = V(A) | frame 02810501 \
    | start T200 | 7 RC=1 peer-busy T200 unsent 01 02 03
RNR F=1, N(R) between | frame 02810503 \
    | acknowledged 1; start T200 | 7 RC=1 V(S)=1 V(A)=1 peer-busy T200 unsent 02 03
RNR F=1, N(R) = V(S) | frame 02810505 \
    | acknowledged 2; start T200 | 7 RC=1 V(S)=2 V(A)=2 peer-busy T200 unsent 03
RNR F=1, N(R) not valid | frame 02810507 \
    | report J; send 02817f; start T200 | 5 V(S)=2 T200 sent 01 02 unsent 03

RR F=0, N(R) = V(A) | frame 02810100 | - | =
RR F=0, N(R) between | frame 02810102 \
    | acknowledged 1 | 8 RC=1 V(S)=2 V(A)=1 T200 sent 02 unsent 03
RR F=0, N(R) = V(S) | frame 02810104 \
    | acknowledged 2 | 8 RC=1 V(S)=2 V(A)=2 T200 unsent 03
RR P=1, N(R) between | frame 00810103 \
    | send 00810101; acknowledged 1 | 8 RC=1 V(S)=2 V(A)=1 T200 sent 02 unsent 03
REJ F=0, N(R) = V(A) | frame 02810900 | - | =
REJ F=0, N(R) between | frame 02810902 \
    | acknowledged 1 | 8 RC=1 V(S)=2 V(A)=1 T200 sent 02 unsent 03
REJ P=1, N(R) = V(S) | frame 00810905 \
    | send 00810101; acknowledged 2 | 8 RC=1 V(S)=2 V(A)=2 T200 unsent 03
RNR F=0, N(R) between | frame 02810502 \
    | acknowledged 1 | 8 RC=1 V(S)=2 V(A)=1 peer-busy T200 sent 02 unsent 03
RNR P=1, N(R) = V(S) | frame 00810505 \
    | send 00810101; acknowledged 2 | 8 RC=1 V(S)=2 V(A)=2 peer-busy T200 unsent 03
I P=0, N(R) = V(A) | frame 0081000005 \
    | data 05; send 00810102 | 8 RC=1 V(S)=2 V(R)=1 T200 sent 01 02 unsent 03
I P=0, N(R) between | frame 0081000205 \
    | data 05; acknowledged 1; send 00810102 \
    | 8 RC=1 V(S)=2 V(A)=1 V(R)=1 T200 sent 02 unsent 03
I P=1, N(R) = V(S) | frame 0081000505 \
    | data 05; send 00810103; acknowledged 2 \
    | 8 RC=1 V(S)=2 V(A)=2 V(R)=1 T200 unsent 03
I P=0, N(S) not V(R), N(R) = V(S) | frame 0081020405 \
    | send 00810900; acknowledged 2 | 8 RC=1 V(S)=2 V(A)=2 rejecting T200 unsent 03
I P=0, N(R) not valid | frame 0081000605 \
    | data 05; report J; send 02817f; start T200 \
    | 5 V(S)=2 V(R)=1 T200 sent 01 02 unsent 03

# N200 enquiries more have got no answer.
at frame 00817f; t203; t200; t200 | 8 RC=2 T200
T200, RC = N200 | t200 | report I; send 02817f; start T200 | 5 T200
RR response F=1 | frame 02810101 | stop T200; start T203 | 7 RC=2 T203
SABME P=1 | frame 00817f | send 008173; report F; stop T200; start T203 | 7 RC=2 T203
DISC P=1 | frame 008153 | send 008173; released; stop T200 | 4 RC=2
release request | release | send 028153; start T200 | 6 T200

# T200 expired once more than N200 times in all, with a message to be acknowledged.
at frame 00817f; give 01; t200; t200 | 8 RC=2 V(S)=1 T200 sent 01
T200, RC = N200 | t200 | report I; send 02817f; start T200 | 5 V(S)=1 T200 sent 01

# Layer 3 established the link, so that only what the link does by itself takes that mark away.
at establish; frame 028173; t203; t200; t200 | 8 L3I RC=2 T200
T200, RC = N200 | t200 | report I; send 02817f; start T200 | 5 T200
DM F=0 | frame 02810f | report E; send 02817f; start T200 | 5 T200
DM F=1 | frame 02811f | report B; send 02817f; start T200 | 5 T200
FRMR F=1 | frame 0281977f00020401 | report K; send 02817f; start T200 | 5 T200
undefined control field | frame 008177 | report L; send 02817f; start T200 | 5 T200
I, N(R) not valid | frame 0081000205 \
    | data 05; report J; send 02817f; start T200 | 5 V(R)=1 T200
RNR F=1, N(R) not valid | frame 02810503 | report J; send 02817f; start T200 | 5 T200

# The peer is busy, and a message waits.
at frame 00817f; frame 02810500; give 01; t200 | 8 RC=1 peer-busy T200 unsent 01
RR F=1 | frame 02810101 \
    | stop T200; start T203; send 0281000001; stop T203; start T200 | 7 RC=1 V(S)=1 T200 sent 01
RR F=0 | frame 02810100 | - | 8 RC=1 T200 unsent 01
REJ P=0 | frame 00810900 | - | 8 RC=1 T200 unsent 01
REJ F=1 | frame 02810901 \
    | stop T200; start T203; send 0281000001; stop T203; start T200 | 7 RC=1 V(S)=1 T200 sent 01
RNR F=1 | frame 02810501 | start T200 | 7 RC=1 peer-busy T200 unsent 01
RNR F=0 | frame 02810500 | - | =
I P=0 | frame 0081000005 | data 05; send 00810102 | 8 RC=1 V(R)=1 peer-busy T200 unsent 01
SABME P=1, V(S) = V(A) | frame 00817f \
    | send 008173; report F; stop T200; start T203; send 0281000001; stop T203; start T200 \
    | 7 RC=1 V(S)=1 T200 sent 01
T200, RC below N200 | t200 | send 02810101; start T200 | 8 RC=2 peer-busy T200 unsent 01
RR F=1, N(R) not valid | frame 02810103 | report J; send 02817f; start T200 | 5 T200 unsent 01

# The own receiver is busy.
at frame 00817f; busy on; t203 | 8 own-busy T200
busy | busy on | - | =
busy no longer | busy off | send 00810100 | 8 T200
I P=0, N(S) = V(R) | frame 0081000005 | - | =
I P=1, N(S) = V(R) | frame 0081000105 | send 00810501 | =
I P=0, N(S) not V(R) | frame 0081020005 | - | =
I P=1, N(S) not V(R) | frame 0081020105 | send 00810501 | =
RR P=1 | frame 00810101 | send 00810501 | =
RR F=1 | frame 02810101 | stop T200; start T203 | 7 own-busy T203
T200, RC below N200 | t200 | send 02810501; start T200 | 8 RC=1 own-busy T200
SABME P=1 | frame 00817f | send 008173; report F; stop T200; start T203 | 7 T203
DISC P=1 | frame 008153 | send 008173; released; stop T200 | 4 own-busy
DM F=1 | frame 02811f | report B; send 02817f; start T200 | 5 T200
establish request | establish | send 02817f; start T200 | 5 L3I T200
release request | release | send 028153; start T200 | 6 own-busy T200

# An I frame is missing, and REJ was sent for it.
at frame 00817f; frame 00810200; t203 | 8 rejecting T200
I P=0, N(S) not V(R) | frame 0081040005 | - | =
I P=1, N(S) not V(R) | frame 0081040105 | send 00810101 | =
I P=0, N(S) = V(R) | frame 0081000005 | data 05; send 00810102 | 8 V(R)=1 T200
I P=1, N(S) = V(R) | frame 0081000105 | data 05; send 00810103 | 8 V(R)=1 T200
RR F=1 | frame 02810101 | stop T200; start T203 | 7 rejecting T203
SABME P=1 | frame 00817f | send 008173; report F; stop T200; start T203 | 7 T203
FRMR F=1 | frame 0281977f00020401 | report K; send 02817f; start T200 | 5 T200
";
