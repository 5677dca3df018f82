//! Rows of state 7, multiple frame established, without messages to acknowledge.

/// Each place with its rows.
pub(super) fn rows() -> &'static str {
    ROWS
}

const ROWS: &str = "
# The peer established the link.
at frame 00817f | 7 T203
establish request | establish | send 02817f; stop T203; start T200 | 5 L3I T200
release request | release | send 028153; stop T203; start T200 | 6 T200
data request | give 01 \
    | send 0281000001; stop T203; start T200 | 7 V(S)=1 T200 sent 01
data request of 260 octets | give +260*aa \
    | send 02810000+260*aa; stop T203; start T200 | 7 V(S)=1 T200 sent +260*aa
busy | busy on | send 00810500 | 7 own-busy T203
not busy | busy off | - | =
T203 | t203 | send 02810101; start T200 | 8 T200
T200 does not run | t200 | - | =

SABME P=0, V(S) = V(A) | frame 00816f | send 008163; report F; start T203 | =
SABME P=1, V(S) = V(A) | frame 00817f | send 008173; report F; start T203 | =
DISC P=0 | frame 008143 | send 008163; released; stop T203 | 4
DISC P=1 | frame 008153 | send 008173; released; stop T203 | 4
UA F=0 | frame 028163 | report D | =
UA F=1 | frame 028173 | report C | =
DM F=0 | frame 02810f | report E; send 02817f; stop T203; start T200 | 5 T200
DM F=1 | frame 02811f | report B | =
FRMR F=0 | frame 0281877f00020401 \
    | report K; send 02817f; stop T203; start T200 | 5 T200
FRMR F=1 | frame 0281977f00020401 \
    | report K; send 02817f; stop T203; start T200 | 5 T200

undefined control field | frame 008177 \
    | report L; send 02817f; stop T203; start T200 | 5 T200
I as a response | frame 0281000005 \
    | report L; send 02817f; stop T203; start T200 | 5 T200
information in UA | frame 02817300 \
    | report M; send 02817f; stop T203; start T200 | 5 T200
S frame of five octets | frame 0281010100 \
    | report N; send 02817f; stop T203; start T200 | 5 T200
I with 261 octets of information | frame 00810000aa+260*aa \
    | report O; send 02817f; stop T203; start T200 | 5 T200

I P=0, N(S) = V(R), N(R) = V(S) | frame 0081000005 \
    | data 05; start T203; send 00810102 | 7 V(R)=1 T203
I P=1, N(S) = V(R), N(R) = V(S) | frame 0081000105 \
    | data 05; send 00810103; start T203 | 7 V(R)=1 T203
I P=0 without information | frame 00810000 \
    | data; start T203; send 00810102 | 7 V(R)=1 T203
I P=0 of 260 octets | frame 00810000+260*aa \
    | data +260*aa; start T203; send 00810102 | 7 V(R)=1 T203
I P=0, N(S) not V(R) | frame 0081020005 | send 00810900; start T203 | 7 rejecting T203
I P=1, N(S) not V(R) | frame 0081020105 | send 00810901; start T203 | 7 rejecting T203
I P=0, N(S) before V(R) | frame 0081fe0005 | send 00810900; start T203 | 7 rejecting T203
I P=0, N(R) behind V(S) | frame 0081000205 \
    | data 05; report J; send 02817f; stop T203; start T200 | 5 V(R)=1 T200
I P=1, N(R) behind V(S) | frame 0081000305 \
    | data 05; send 00810103; report J; send 02817f; stop T203; start T200 | 5 V(R)=1 T200
I P=0, N(R) before V(A) | frame 008100fe05 \
    | data 05; report J; send 02817f; stop T203; start T200 | 5 V(R)=1 T200
I P=0, N(S) not V(R), N(R) not valid | frame 0081020205 \
    | send 00810900; report J; send 02817f; stop T203; start T200 | 5 T200
I P=1, N(S) not V(R), N(R) not valid | frame 0081020305 \
    | send 00810901; report J; send 02817f; stop T203; start T200 | 5 T200

RR command P=0 | frame 00810100 | start T203 | =
RR command P=1 | frame 00810101 | send 00810101; start T203 | =
RR response F=0 | frame 02810100 | start T203 | =
RR response F=1 | frame 02810101 | report A; start T203 | =
REJ command P=0 | frame 00810900 | start T203 | =
REJ command P=1 | frame 00810901 | send 00810101; start T203 | =
REJ response F=0 | frame 02810900 | start T203 | =
REJ response F=1 | frame 02810901 | report A; start T203 | =
RNR command P=0 | frame 00810500 | stop T203; start T200 | 7 peer-busy T200
RNR command P=1 | frame 00810501 \
    | send 00810101; stop T203; start T200 | 7 peer-busy T200
RNR response F=0 | frame 02810500 | stop T203; start T200 | 7 peer-busy T200
RNR response F=1 | frame 02810501 \
    | report A; stop T203; start T200 | 7 peer-busy T200

RR command P=0 | frame 00810102 \
    | report J; send 02817f; stop T203; start T200 | 5 T200
RR command P=1 | frame 00810103 \
    | send 00810101; report J; send 02817f; stop T203; start T200 | 5 T200
RR response F=0 | frame 02810102 \
    | report J; send 02817f; stop T203; start T200 | 5 T200
RR response F=1 | frame 02810103 \
    | report A; report J; send 02817f; stop T203; start T200 | 5 T200
REJ command P=0 | frame 00810902 \
    | report J; send 02817f; stop T203; start T200 | 5 T200
REJ command P=1 | frame 00810903 \
    | send 00810101; report J; send 02817f; stop T203; start T200 | 5 T200
REJ response F=0 | frame 028109fe \
    | report J; send 02817f; stop T203; start T200 | 5 T200
REJ response F=1 | frame 02810903 \
    | report A; report J; send 02817f; stop T203; start T200 | 5 T200
RNR command P=0 | frame 00810502 \
    | report J; send 02817f; stop T203; start T200 | 5 T200
RNR command P=1 | frame 00810503 \
    | send 00810101; report J; send 02817f; stop T203; start T200 | 5 T200
RNR response F=0 | frame 02810502 \
    | report J; send 02817f; stop T203; start T200 | 5 T200
RNR response F=1 | frame 028105ff \
    | report A; report J; send 02817f; stop T203; start T200 | 5 T200

# Layer 3 established the link, so that only what the link does by itself takes that mark away.
at establish; frame 028173 | 7 L3I T203
DM F=0 | frame 02810f | report E; send 02817f; stop T203; start T200 | 5 T200
FRMR F=0 | frame 0281877f00020401 \
    | report K; send 02817f; stop T203; start T200 | 5 T200
undefined control field | frame 008177 \
    | report L; send 02817f; stop T203; start T200 | 5 T200
I, N(R) not valid | frame 0081000205 \
    | data 05; report J; send 02817f; stop T203; start T200 | 5 V(R)=1 T200
RR, N(R) not valid | frame 02810102 \
    | report J; send 02817f; stop T203; start T200 | 5 T200
SABME P=1 | frame 00817f | send 008173; report F; start T203 | =
DISC P=1 | frame 008153 | send 008173; released; stop T203 | 4 L3I
release request | release | send 028153; stop T203; start T200 | 6 L3I T200

# The link recovered at the last enquiry, so that RC is still N200.
at frame 00817f; t203; t200; t200; frame 02810101 | 7 RC=2 T203
T203 | t203 | send 02810101; start T200 | 8 T200
release request | release | send 028153; stop T203; start T200 | 6 T200
establish request | establish | send 02817f; stop T203; start T200 | 5 L3I T200
DM F=0 | frame 02810f | report E; send 02817f; stop T203; start T200 | 5 T200
SABME P=1 | frame 00817f | send 008173; report F; start T203 | =

# As before, with a message sent.
at frame 00817f; t203; t200; t200; frame 02810101; give 01 | 7 RC=2 V(S)=1 T200 sent 01
T200 | t200 | send 02810101; start T200 | 8 RC=1 V(S)=1 T200 sent 01

# An I frame is missing, and REJ was sent for it.
at frame 00817f; frame 00810200 | 7 rejecting T203
I P=0, N(S) not V(R) | frame 0081040005 | start T203 | =
I P=1, N(S) not V(R) | frame 0081040105 | send 00810101; start T203 | =
I P=0, N(S) = V(R) | frame 0081000005 \
    | data 05; start T203; send 00810102 | 7 V(R)=1 T203
I P=1, N(S) = V(R) | frame 0081000105 \
    | data 05; send 00810103; start T203 | 7 V(R)=1 T203
I P=0, N(S) not V(R), N(R) not valid | frame 0081040205 \
    | report J; send 02817f; stop T203; start T200 | 5 T200
I P=1, N(S) not V(R), N(R) not valid | frame 0081040305 \
    | send 00810101; report J; send 02817f; stop T203; start T200 | 5 T200
RR command P=1 | frame 00810101 | send 00810101; start T203 | =
busy | busy on | send 00810500 | 7 own-busy rejecting T203
SABME P=1 | frame 00817f | send 008173; report F; start T203 | 7 T203
DISC P=1 | frame 008153 | send 008173; released; stop T203 | 4 rejecting
establish request | establish | send 02817f; stop T203; start T200 | 5 L3I T200
release request | release | send 028153; stop T203; start T200 | 6 rejecting T200
T203 | t203 | send 02810101; start T200 | 8 rejecting T200

# The own receiver is busy.
at frame 00817f; busy on | 7 own-busy T203
busy | busy on | - | =
busy no longer | busy off | send 00810100 | 7 T203
I P=0, N(S) = V(R) | frame 0081000005 | start T203 | =
I P=1, N(S) = V(R) | frame 0081000105 | send 00810501; start T203 | =
I P=0, N(S) not V(R) | frame 0081020005 | start T203 | =
I P=1, N(S) not V(R) | frame 0081020105 | send 00810501; start T203 | =
I P=0, N(R) not valid | frame 0081000205 \
    | report J; send 02817f; stop T203; start T200 | 5 T200
I P=1, N(R) not valid | frame 0081000305 \
    | send 00810501; report J; send 02817f; stop T203; start T200 | 5 T200
RR command P=1 | frame 00810101 | send 00810501; start T203 | =
REJ command P=1 | frame 00810901 | send 00810501; start T203 | =
RNR command P=1 | frame 00810501 \
    | send 00810501; stop T203; start T200 | 7 peer-busy own-busy T200
T203 | t203 | send 02810501; start T200 | 8 own-busy T200
data request | give 01 \
    | send 0281000001; stop T203; start T200 | 7 V(S)=1 own-busy T200 sent 01
SABME P=1 | frame 00817f | send 008173; report F; start T203 | 7 T203
DISC P=1 | frame 008153 | send 008173; released; stop T203 | 4 own-busy
DM F=0 | frame 02810f | report E; send 02817f; stop T203; start T200 | 5 T200
establish request | establish | send 02817f; stop T203; start T200 | 5 L3I T200
release request | release | send 028153; stop T203; start T200 | 6 own-busy T200
";
