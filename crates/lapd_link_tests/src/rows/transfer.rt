//! Rows of state 7, multiple frame established, with messages to send or to acknowledge.

/// Each place with its rows.
pub(super) fn rows() -> &'static str {
    ROWS
}

const ROWS: &str = "
# Two of three messages are sent, and the window is closed.
at frame 00817f; give 01; give 02; give 03 | 7 V(S)=2 T200 sent 01 02 unsent 03
data request, the queue is full | give 04 | refused L2 QueueFull | =
data request of 261 octets | give aa+260*aa | refused L3 TooLong | =
establish request | establish | dropped 3; send 02817f; start T200 | 5 L3I V(S)=2 T200
release request | release | dropped 3; send 028153; start T200 | 6 V(S)=2 T200
busy | busy on | send 00810500 | 7 V(S)=2 own-busy T200 sent 01 02 unsent 03
T200 | t200 | send 02810101; start T200 | 8 RC=1 V(S)=2 T200 sent 01 02 unsent 03
T203 does not run | t203 | - | =

SABME P=0, V(S) not V(A) | frame 00816f \
    | send 008163; report F; dropped 3; established; stop T200; start T203 | 7 T203
SABME P=1, V(S) not V(A) | frame 00817f \
    | send 008173; report F; dropped 3; established; stop T200; start T203 | 7 T203
DISC P=0 | frame 008143 | dropped 3; send 008163; released; stop T200 | 4 V(S)=2
DISC P=1 | frame 008153 | dropped 3; send 008173; released; stop T200 | 4 V(S)=2
UA F=1 | frame 028173 | report C | =
DM F=0 | frame 02810f \
    | report E; send 02817f; start T200 | 5 V(S)=2 T200 sent 01 02 unsent 03
DM F=1 | frame 02811f | report B | =
FRMR F=1 | frame 0281977f00020401 \
    | report K; send 02817f; start T200 | 5 V(S)=2 T200 sent 01 02 unsent 03
undefined control field | frame 008177 \
    | report L; send 02817f; start T200 | 5 V(S)=2 T200 sent 01 02 unsent 03

RR F=0, N(R) = V(A) | frame 02810100 | - | =
RR P=1, N(R) = V(A) | frame 00810101 | send 00810101 | =
RR F=0, N(R) between | frame 02810102 \
    | acknowledged 1; start T200; send 0281040003 | 7 V(S)=3 V(A)=1 T200 sent 02 03
RR P=1, N(R) between | frame 00810103 \
    | send 00810101; acknowledged 1; start T200; send 0281040003 \
    | 7 V(S)=3 V(A)=1 T200 sent 02 03
RR F=0, N(R) = V(S) | frame 02810104 \
    | acknowledged 2; stop T200; start T203; send 0281040003; stop T203; start T200 \
    | 7 V(S)=3 V(A)=2 T200 sent 03
RR F=1, N(R) = V(S) | frame 02810105 \
    | report A; acknowledged 2; stop T200; start T203; send 0281040003; stop T203; start T200 \
    | 7 V(S)=3 V(A)=2 T200 sent 03
RR F=0, N(R) behind V(S) | frame 02810106 \
    | report J; send 02817f; start T200 | 5 V(S)=2 T200 sent 01 02 unsent 03
RR F=0, N(R) before V(A) | frame 028101fe \
    | report J; send 02817f; start T200 | 5 V(S)=2 T200 sent 01 02 unsent 03

REJ F=0, N(R) = V(A) | frame 02810900 \
    | stop T200; start T203; send 0281000001; stop T203; start T200; send 0281020002 | =
REJ P=1, N(R) = V(A) | frame 00810901 \
    | send 00810101; stop T200; start T203; send 0281000001; stop T203; start T200; \
    send 0281020002 | =
REJ F=0, N(R) between | frame 02810902 \
    | acknowledged 1; stop T200; start T203; send 0281020002; stop T203; start T200; \
    send 0281040003 | 7 V(S)=3 V(A)=1 T200 sent 02 03
REJ F=1, N(R) between | frame 02810903 \
    | report A; acknowledged 1; stop T200; start T203; send 0281020002; stop T203; start T200; \
    send 0281040003 | 7 V(S)=3 V(A)=1 T200 sent 02 03
REJ F=0, N(R) = V(S) | frame 02810904 \
    | acknowledged 2; stop T200; start T203; send 0281040003; stop T203; start T200 \
    | 7 V(S)=3 V(A)=2 T200 sent 03
REJ F=0, N(R) not valid | frame 02810906 \
    | report J; send 02817f; start T200 | 5 V(S)=2 T200 sent 01 02 unsent 03

RNR F=0, N(R) = V(A) | frame 02810500 \
    | start T200 | 7 V(S)=2 peer-busy T200 sent 01 02 unsent 03
RNR P=1, N(R) = V(A) | frame 00810501 \
    | send 00810101; start T200 | 7 V(S)=2 peer-busy T200 sent 01 02 unsent 03
RNR F=0, N(R) between | frame 02810502 \
    | acknowledged 1; start T200 | 7 V(S)=2 V(A)=1 peer-busy T200 sent 02 unsent 03
RNR F=1, N(R) = V(S) | frame 02810505 \
    | report A; acknowledged 2; start T200 | 7 V(S)=2 V(A)=2 peer-busy T200 unsent 03
RNR F=0, N(R) not valid | frame 02810506 \
    | report J; send 02817f; start T200 | 5 V(S)=2 T200 sent 01 02 unsent 03

I P=0, N(R) = V(A) | frame 0081000005 \
    | data 05; send 00810102 | 7 V(S)=2 V(R)=1 T200 sent 01 02 unsent 03
I P=1, N(R) = V(A) | frame 0081000105 \
    | data 05; send 00810103 | 7 V(S)=2 V(R)=1 T200 sent 01 02 unsent 03
I P=0, N(R) between, acknowledged by the I frame that goes out | frame 0081000205 \
    | data 05; acknowledged 1; start T200; send 0281040203 \
    | 7 V(S)=3 V(A)=1 V(R)=1 T200 sent 02 03
I P=0, N(R) = V(S) | frame 0081000405 \
    | data 05; acknowledged 2; stop T200; start T203; send 0281040203; stop T203; start T200 \
    | 7 V(S)=3 V(A)=2 V(R)=1 T200 sent 03
I P=1, N(R) = V(S) | frame 0081000505 \
    | data 05; send 00810103; acknowledged 2; stop T200; start T203; send 0281040203; stop T203; \
    start T200 | 7 V(S)=3 V(A)=2 V(R)=1 T200 sent 03
I P=0, N(S) not V(R), N(R) = V(S) | frame 0081020405 \
    | send 00810900; acknowledged 2; stop T200; start T203; send 0281040003; stop T203; start T200 \
    | 7 V(S)=3 V(A)=2 rejecting T200 sent 03
I P=0, N(S) not V(R), N(R) between | frame 0081020205 \
    | send 00810900; acknowledged 1; start T200; send 0281040003 \
    | 7 V(S)=3 V(A)=1 rejecting T200 sent 02 03
I P=0, N(R) not valid | frame 0081000605 \
    | data 05; report J; send 02817f; start T200 \
    | 5 V(S)=2 V(R)=1 T200 sent 01 02 unsent 03

# One message is sent, and the window is open.
at frame 00817f; give 01 | 7 V(S)=1 T200 sent 01
data request | give 02 | send 0281020002 | 7 V(S)=2 T200 sent 01 02
RR F=0, N(R) = V(A) | frame 02810100 | - | =
RR F=0, N(R) = V(S) | frame 02810102 \
    | acknowledged 1; stop T200; start T203 | 7 V(S)=1 V(A)=1 T203
I P=0, N(R) = V(S) | frame 0081000205 \
    | data 05; acknowledged 1; stop T200; start T203; send 00810102 \
    | 7 V(S)=1 V(A)=1 V(R)=1 T203

# The window is closed, and no message waits.
at frame 00817f; give 01; give 02 | 7 V(S)=2 T200 sent 01 02
data request | give 03 | - | 7 V(S)=2 T200 sent 01 02 unsent 03
RR F=0, N(R) between | frame 02810102 \
    | acknowledged 1; start T200 | 7 V(S)=2 V(A)=1 T200 sent 02

# The peer is busy, and a message waits.
at frame 00817f; frame 02810500; give 01 | 7 peer-busy T200 unsent 01
data request | give 02 | - | 7 peer-busy T200 unsent 01 02
RR F=0 | frame 02810100 \
    | stop T200; start T203; send 0281000001; stop T203; start T200 | 7 V(S)=1 T200 sent 01
RR P=1 | frame 00810101 \
    | send 00810101; stop T200; start T203; send 0281000001; stop T203; start T200 \
    | 7 V(S)=1 T200 sent 01
REJ F=0 | frame 02810900 \
    | stop T200; start T203; send 0281000001; stop T203; start T200 | 7 V(S)=1 T200 sent 01
RNR F=0 | frame 02810500 | start T200 | =
I P=0, N(R) = V(S) | frame 0081000005 \
    | data 05; send 00810102 | 7 V(R)=1 peer-busy T200 unsent 01
I P=1, N(R) = V(S) | frame 0081000105 \
    | data 05; send 00810103 | 7 V(R)=1 peer-busy T200 unsent 01
I P=0, N(R) not valid | frame 0081000205 \
    | data 05; report J; send 02817f; start T200 | 5 V(R)=1 T200 unsent 01
RR F=0, N(R) not valid | frame 02810102 \
    | report J; send 02817f; start T200 | 5 T200 unsent 01
T200 | t200 | send 02810101; start T200 | 8 RC=1 peer-busy T200 unsent 01
SABME P=1, V(S) = V(A) | frame 00817f \
    | send 008173; report F; stop T200; start T203; send 0281000001; stop T203; start T200 \
    | 7 V(S)=1 T200 sent 01
DISC P=0 | frame 008143 | dropped 1; send 008163; released; stop T200 | 4 peer-busy
establish request | establish | dropped 1; send 02817f; start T200 | 5 L3I T200
release request | release | dropped 1; send 028153; start T200 | 6 peer-busy T200

# The peer became busy when two messages were sent.
at frame 00817f; give 01; give 02; frame 02810500 | 7 V(S)=2 peer-busy T200 sent 01 02
I P=0, N(R) = V(A) | frame 0081000005 \
    | data 05; send 00810102 | 7 V(S)=2 V(R)=1 peer-busy T200 sent 01 02
I P=0, N(R) between | frame 0081000205 \
    | data 05; acknowledged 1; send 00810102 | 7 V(S)=2 V(A)=1 V(R)=1 peer-busy T200 sent 02
I P=0, N(R) = V(S) | frame 0081000405 \
    | data 05; acknowledged 2; send 00810102 | 7 V(S)=2 V(A)=2 V(R)=1 peer-busy T200
RR F=0, N(R) between | frame 02810102 \
    | acknowledged 1; start T200 | 7 V(S)=2 V(A)=1 T200 sent 02
SABME P=1, V(S) not V(A) | frame 00817f \
    | send 008173; report F; dropped 2; established; stop T200; start T203 | 7 T203

# The own receiver is busy, and a message is sent: what is discarded acknowledges all the same.
at frame 00817f; busy on; give 01 | 7 V(S)=1 own-busy T200 sent 01
I P=0, N(R) = V(A) | frame 0081000005 | - | =
I P=0, N(R) = V(S) | frame 0081000205 \
    | acknowledged 1; stop T200; start T203 | 7 V(S)=1 V(A)=1 own-busy T203
I P=1, N(R) = V(S) | frame 0081000305 \
    | send 00810501; acknowledged 1; stop T200; start T203 | 7 V(S)=1 V(A)=1 own-busy T203
T200 | t200 | send 02810501; start T200 | 8 RC=1 V(S)=1 own-busy T200 sent 01

# Every mark is set.
at frame 00817f; give 01; frame 00810000; frame 00810400; frame 00810500; busy on \
    | 7 V(S)=1 V(R)=1 peer-busy own-busy rejecting T200 sent 01
SABME P=1 | frame 00817f \
    | send 008173; report F; dropped 1; established; stop T200; start T203 | 7 T203
DISC P=1 | frame 008153 | dropped 1; send 008173; released; stop T200 \
    | 4 V(S)=1 V(R)=1 peer-busy own-busy rejecting
FRMR F=0 | frame 0281877f00020401 \
    | report K; send 02817f; start T200 | 5 V(S)=1 V(R)=1 T200 sent 01
establish request | establish \
    | dropped 1; send 02817f; start T200 | 5 L3I V(S)=1 V(R)=1 T200
release request | release | dropped 1; send 028153; start T200 \
    | 6 V(S)=1 V(R)=1 peer-busy own-busy rejecting T200
T200 | t200 | send 02810503; start T200 \
    | 8 RC=1 V(S)=1 V(R)=1 peer-busy own-busy rejecting T200 sent 01
I P=1, N(S) = V(R) | frame 0081020105 | send 00810503 | =
I P=0, N(S) = V(R) | frame 0081020005 | - | =
busy no longer | busy off \
    | send 00810102 | 7 V(S)=1 V(R)=1 peer-busy rejecting T200 sent 01
";
