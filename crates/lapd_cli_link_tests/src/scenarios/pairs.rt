//! Scenarios of `pair` and `loop`.

/// Two ends; most have a window of one frame. `loop` runs the scenarios without `settle` too, over
/// a connection.
pub(crate) const PAIRS: &str = "\
lapd pair
# a message is received and acknowledged
establish user
    U>N SAPI 0 TEI 64 C SABME P=1
deliver net
    N>U SAPI 0 TEI 64 R UA F=1
    net established
deliver user
    user confirmed
give user 0801
    U>N SAPI 0 TEI 64 C I N(S)=0 N(R)=0 P=0 info=0801
deliver net
    net data 0801
    N>U SAPI 0 TEI 64 R RR N(R)=1 F=0
deliver user
    user acknowledged 1
.
    user: state 7, given 1, received 0, acknowledged 1, dropped 0
    net: state 7, given 0, received 1, acknowledged 0, dropped 0

lapd pair
# the network starts anew while a SABME is on its way
establish user
    U>N SAPI 0 TEI 64 C SABME P=1
restart net
deliver net
    refused P1 NothingThere
expire200 user
    U>N SAPI 0 TEI 64 C SABME P=1
deliver net
    N>U SAPI 0 TEI 64 R UA F=1
    net established
deliver user
    user confirmed
.
    user: state 7, given 0, received 0, acknowledged 0, dropped 0
    net: state 7, given 0, received 0, acknowledged 0, dropped 0

lapd pair
# both establish
establish user
    U>N SAPI 0 TEI 64 C SABME P=1
establish net
    N>U SAPI 0 TEI 64 C SABME P=1
deliver net
    N>U SAPI 0 TEI 64 R UA F=1
deliver user
    U>N SAPI 0 TEI 64 R UA F=1
deliver net
    net confirmed
deliver user
    user confirmed
.
    user: state 7, given 0, received 0, acknowledged 0, dropped 0
    net: state 7, given 0, received 0, acknowledged 0, dropped 0

lapd pair
# T200 waits for the SABME
establish user
    U>N SAPI 0 TEI 64 C SABME P=1
expire200 user
    refused P3 NotYet net 0
expire200 net
    refused P2 NotRunning
expire203 user
    refused P2 NotRunning
give user 01
    refused L5 LayerThreeEstablishing
give net 01
    refused L1 NotEstablished
lose net 1
    refused P1 NothingThere
lose user 0
    refused P1 NothingThere
lose net 00
lose net 0
    refused P1 NothingThere
.
    user: state 5, given 0, received 0, acknowledged 0, dropped 0
    net: state 4, given 0, received 0, acknowledged 0, dropped 0

lapd pair
# no SABME is answered
establish user
    U>N SAPI 0 TEI 64 C SABME P=1
lose net 0
expire200 user
    U>N SAPI 0 TEI 64 C SABME P=1
lose net 0
expire200 user
    U>N SAPI 0 TEI 64 C SABME P=1
lose net 0
expire200 user
    U>N SAPI 0 TEI 64 C SABME P=1
lose net 0
expire200 user
    user report G
    user released
expire200 user
    refused P2 NotRunning
.
    user: state 4, given 0, received 0, acknowledged 0, dropped 0
    net: state 4, given 0, received 0, acknowledged 0, dropped 0

lapd pair
# a message is lost, and T200 waits for the enquiry and for its answer
establish user
    U>N SAPI 0 TEI 64 C SABME P=1
deliver net
    N>U SAPI 0 TEI 64 R UA F=1
    net established
deliver user
    user confirmed
give user 0801
    U>N SAPI 0 TEI 64 C I N(S)=0 N(R)=0 P=0 info=0801
lose net 0
expire200 user
    U>N SAPI 0 TEI 64 C RR N(R)=0 P=1
expire200 user
    refused P3 NotYet net 0
deliver net
    N>U SAPI 0 TEI 64 R RR N(R)=0 F=1
expire200 user
    refused P3 NotYet user 0
deliver user
    U>N SAPI 0 TEI 64 C I N(S)=0 N(R)=0 P=0 info=0801
deliver net
    net data 0801
    N>U SAPI 0 TEI 64 R RR N(R)=1 F=0
deliver user
    user acknowledged 1
.
    user: state 7, given 1, received 0, acknowledged 1, dropped 0
    net: state 7, given 0, received 1, acknowledged 0, dropped 0

lapd pair
# the network is busy for a while
establish user
    U>N SAPI 0 TEI 64 C SABME P=1
deliver net
    N>U SAPI 0 TEI 64 R UA F=1
    net established
deliver user
    user confirmed
busy net on
    N>U SAPI 0 TEI 64 R RNR N(R)=0 F=0
deliver user
give user 0801
expire200 user
    U>N SAPI 0 TEI 64 C RR N(R)=0 P=1
deliver net
    N>U SAPI 0 TEI 64 R RNR N(R)=0 F=1
deliver user
busy net off
    N>U SAPI 0 TEI 64 R RR N(R)=0 F=0
deliver user
    U>N SAPI 0 TEI 64 C I N(S)=0 N(R)=0 P=0 info=0801
deliver net
    net data 0801
    N>U SAPI 0 TEI 64 R RR N(R)=1 F=0
.
    user: state 7, given 1, received 0, acknowledged 0, dropped 0
    net: state 7, given 0, received 1, acknowledged 0, dropped 0

lapd pair
# both establish, and what the network gives is dropped
establish user
    U>N SAPI 0 TEI 64 C SABME P=1
establish net
    N>U SAPI 0 TEI 64 C SABME P=1
deliver net
    N>U SAPI 0 TEI 64 R UA F=1
deliver user
    U>N SAPI 0 TEI 64 R UA F=1
lose user 0
deliver net
    net confirmed
give net AA
    N>U SAPI 0 TEI 64 C I N(S)=0 N(R)=0 P=0 info=aa
deliver user
expire200 user
    U>N SAPI 0 TEI 64 C SABME P=1
deliver net
    N>U SAPI 0 TEI 64 R UA F=1
    net report F
    net dropped 1
    net established
deliver user
    user confirmed
.
    user: state 7, given 0, received 0, acknowledged 0, dropped 0
    net: state 7, given 1, received 0, acknowledged 0, dropped 1

lapd pair
# unit data passes in state 4, and none of it
unit user 0a
    U>N SAPI 0 TEI 64 C UI P=0 info=0a
unit user
    U>N SAPI 0 TEI 64 C UI P=0
deliver net
    net unit 0a
deliver net
    net unit
release net
    net release-confirmed
.
    user: state 4, given 0, received 0, acknowledged 0, dropped 0
    net: state 4, given 0, received 0, acknowledged 0, dropped 0

lapd pair
# T203 enquires, and a release drops what waits
establish net
    N>U SAPI 0 TEI 64 C SABME P=1
deliver user
    U>N SAPI 0 TEI 64 R UA F=1
    user established
deliver net
    net confirmed
expire203 user
    U>N SAPI 0 TEI 64 C RR N(R)=0 P=1
deliver net
    N>U SAPI 0 TEI 64 R RR N(R)=0 F=1
deliver user
give net
    N>U SAPI 0 TEI 64 C I N(S)=0 N(R)=0 P=0
release net
    net dropped 1
    N>U SAPI 0 TEI 64 C DISC P=1
deliver user
    user data
    U>N SAPI 0 TEI 64 R RR N(R)=1 F=0
deliver user
    U>N SAPI 0 TEI 64 R UA F=1
    user released
deliver net
deliver net
    net release-confirmed
.
    user: state 4, given 0, received 1, acknowledged 0, dropped 0
    net: state 4, given 1, received 0, acknowledged 0, dropped 1

lapd pair
# a new pair rests, and settles after the SABME is lost
settle
    settled 0 rest
establish user
    U>N SAPI 0 TEI 64 C SABME P=1
lose net 0
settle
    settled 3 rest
settle
    settled 0 rest
.
    user: state 7, given 0, received 0, acknowledged 0, dropped 0
    net: state 7, given 0, received 0, acknowledged 0, dropped 0

lapd pair
# the network is busy, and the user asks until the bound is reached
establish user
    U>N SAPI 0 TEI 64 C SABME P=1
settle
    settled 2 rest
busy net on
    N>U SAPI 0 TEI 64 R RNR N(R)=0 F=0
deliver user
give user 0801
settle
    settled 40
.
    user: state 8, given 1, received 0, acknowledged 0, dropped 0
    net: state 7, given 0, received 0, acknowledged 0, dropped 0

lapd pair
# the network restarts, and T203 alone finds it out
establish user
    U>N SAPI 0 TEI 64 C SABME P=1
deliver net
    N>U SAPI 0 TEI 64 R UA F=1
    net established
deliver user
    user confirmed
restart net
settle
    settled 0 rest
recover
    recovered 11 rest
recover
    recovered 0 rest
.
    user: state 7, given 0, received 0, acknowledged 0, dropped 0
    net: state 7, given 0, received 0, acknowledged 0, dropped 0

lapd pair
# the network is busy, and holds up the recovery
establish user
    U>N SAPI 0 TEI 64 C SABME P=1
recover
    recovered 2 rest
busy net on
    N>U SAPI 0 TEI 64 R RNR N(R)=0 F=0
deliver user
give user 0801
recover
    recovered 37
.
    user: state 8, given 1, received 0, acknowledged 0, dropped 0
    net: state 7, given 0, received 0, acknowledged 0, dropped 0

lapd pair --k 3 --recovery-user last --recovery-net last
# two acknowledgements are lost, and the last message goes out again
establish user
    U>N SAPI 0 TEI 64 C SABME P=1
deliver net
    N>U SAPI 0 TEI 64 R UA F=1
    net established
deliver user
    user confirmed
give user 01
    U>N SAPI 0 TEI 64 C I N(S)=0 N(R)=0 P=0 info=01
give user 02
    U>N SAPI 0 TEI 64 C I N(S)=1 N(R)=0 P=0 info=02
deliver net
    net data 01
    N>U SAPI 0 TEI 64 R RR N(R)=1 F=0
deliver net
    net data 02
    N>U SAPI 0 TEI 64 R RR N(R)=2 F=0
lose user 1
lose user 0
expire200 user
    U>N SAPI 0 TEI 64 C I N(S)=1 N(R)=0 P=1 info=02
expire200 user
    refused P3 NotYet net 0
deliver net
    N>U SAPI 0 TEI 64 R REJ N(R)=2 F=1
deliver user
    user acknowledged 2
give user 03
    U>N SAPI 0 TEI 64 C I N(S)=2 N(R)=0 P=0 info=03
deliver net
    net data 03
    N>U SAPI 0 TEI 64 R RR N(R)=3 F=0
.
    user: state 7, given 3, received 0, acknowledged 2, dropped 0
    net: state 7, given 0, received 3, acknowledged 0, dropped 0

lapd pair --k 3
# three I frames are lost, and the line settles
establish user
    U>N SAPI 0 TEI 64 C SABME P=1
deliver net
    N>U SAPI 0 TEI 64 R UA F=1
    net established
deliver user
    user confirmed
give user 01
    U>N SAPI 0 TEI 64 C I N(S)=0 N(R)=0 P=0 info=01
give user 02
    U>N SAPI 0 TEI 64 C I N(S)=1 N(R)=0 P=0 info=02
give user 03
    U>N SAPI 0 TEI 64 C I N(S)=2 N(R)=0 P=0 info=03
lose net 0
lose net 0
lose net 0
settle
    settled 9 rest
.
    user: state 7, given 3, received 0, acknowledged 3, dropped 0
    net: state 7, given 0, received 3, acknowledged 0, dropped 0

lapd pair --k 3 --recovery-user last --recovery-net last
# three I frames are lost, and the line settles
establish user
    U>N SAPI 0 TEI 64 C SABME P=1
deliver net
    N>U SAPI 0 TEI 64 R UA F=1
    net established
deliver user
    user confirmed
give user 01
    U>N SAPI 0 TEI 64 C I N(S)=0 N(R)=0 P=0 info=01
give user 02
    U>N SAPI 0 TEI 64 C I N(S)=1 N(R)=0 P=0 info=02
give user 03
    U>N SAPI 0 TEI 64 C I N(S)=2 N(R)=0 P=0 info=03
lose net 0
lose net 0
lose net 0
settle
    settled 9 rest
.
    user: state 7, given 3, received 0, acknowledged 3, dropped 0
    net: state 7, given 0, received 3, acknowledged 0, dropped 0

lapd pair --room 1
# a note
lose net 00018446744073709551615
    refused P1 NothingThere

lose net one
! line 4: bad command

lapd pair
# both establish, a SABME is lost, and both refuse
establish user
    U>N SAPI 0 TEI 64 C SABME P=1
establish net
    N>U SAPI 0 TEI 64 C SABME P=1
give user 01
    refused L5 LayerThreeEstablishing
expire200 user
    refused P3 NotYet net 0
deliver user
    U>N SAPI 0 TEI 64 R UA F=1
lose net 1
lose net 0
lose net 7
    refused P1 NothingThere
deliver net
    refused P1 NothingThere
expire200 user
    U>N SAPI 0 TEI 64 C SABME P=1
restart net
deliver net
    refused P1 NothingThere
deliver user
    refused P1 NothingThere
expire200 user
    U>N SAPI 0 TEI 64 C SABME P=1
deliver net
    N>U SAPI 0 TEI 64 R UA F=1
    net established
deliver user
    user confirmed
.
    user: state 7, given 0, received 0, acknowledged 0, dropped 0
    net: state 7, given 0, received 0, acknowledged 0, dropped 0

lapd pair --k 3
# three messages, of which the first is lost
establish user
    U>N SAPI 0 TEI 64 C SABME P=1
deliver net
    N>U SAPI 0 TEI 64 R UA F=1
    net established
deliver user
    user confirmed
give user 01
    U>N SAPI 0 TEI 64 C I N(S)=0 N(R)=0 P=0 info=01
give user 02
    U>N SAPI 0 TEI 64 C I N(S)=1 N(R)=0 P=0 info=02
give user 03
    U>N SAPI 0 TEI 64 C I N(S)=2 N(R)=0 P=0 info=03
lose net 0
deliver net
    N>U SAPI 0 TEI 64 R REJ N(R)=0 F=0
deliver net
deliver user
    U>N SAPI 0 TEI 64 C I N(S)=0 N(R)=0 P=0 info=01
    U>N SAPI 0 TEI 64 C I N(S)=1 N(R)=0 P=0 info=02
    U>N SAPI 0 TEI 64 C I N(S)=2 N(R)=0 P=0 info=03
deliver net
    net data 01
    N>U SAPI 0 TEI 64 R RR N(R)=1 F=0
deliver net
    net data 02
    N>U SAPI 0 TEI 64 R RR N(R)=2 F=0
deliver net
    net data 03
    N>U SAPI 0 TEI 64 R RR N(R)=3 F=0
deliver user
    user acknowledged 1
deliver user
    user acknowledged 1
deliver user
    user acknowledged 1
.
    user: state 7, given 3, received 0, acknowledged 3, dropped 0
    net: state 7, given 0, received 3, acknowledged 0, dropped 0

lapd pair --k 3 --recovery-user last
# the last message of the user comes again
establish user
    U>N SAPI 0 TEI 64 C SABME P=1
deliver net
    N>U SAPI 0 TEI 64 R UA F=1
    net established
deliver user
    user confirmed
give user 01
    U>N SAPI 0 TEI 64 C I N(S)=0 N(R)=0 P=0 info=01
give user 02
    U>N SAPI 0 TEI 64 C I N(S)=1 N(R)=0 P=0 info=02
deliver net
    net data 01
    N>U SAPI 0 TEI 64 R RR N(R)=1 F=0
deliver net
    net data 02
    N>U SAPI 0 TEI 64 R RR N(R)=2 F=0
lose user 1
lose user 0
expire200 user
    U>N SAPI 0 TEI 64 C I N(S)=1 N(R)=0 P=1 info=02
expire200 user
    refused P3 NotYet net 0
deliver net
    N>U SAPI 0 TEI 64 R REJ N(R)=2 F=1
deliver user
    user acknowledged 2
give user 03
    U>N SAPI 0 TEI 64 C I N(S)=2 N(R)=0 P=0 info=03
deliver net
    net data 03
    N>U SAPI 0 TEI 64 R RR N(R)=3 F=0
.
    user: state 7, given 3, received 0, acknowledged 2, dropped 0
    net: state 7, given 0, received 3, acknowledged 0, dropped 0

lapd pair --k 3 --recovery-net last
# the last message of the network comes again, and the user enquires
establish net
    N>U SAPI 0 TEI 64 C SABME P=1
deliver user
    U>N SAPI 0 TEI 64 R UA F=1
    user established
deliver net
    net confirmed
give net 01
    N>U SAPI 0 TEI 64 C I N(S)=0 N(R)=0 P=0 info=01
give user 02
    U>N SAPI 0 TEI 64 C I N(S)=0 N(R)=0 P=0 info=02
lose user 0
lose net 0
expire200 net
    N>U SAPI 0 TEI 64 C I N(S)=0 N(R)=0 P=1 info=01
expire200 user
    U>N SAPI 0 TEI 64 C RR N(R)=0 P=1
deliver user
    user data 01
    U>N SAPI 0 TEI 64 R RR N(R)=1 F=1
deliver net
    N>U SAPI 0 TEI 64 R RR N(R)=0 F=1
deliver net
    net acknowledged 1
deliver user
    U>N SAPI 0 TEI 64 C I N(S)=0 N(R)=1 P=0 info=02
deliver user
    refused P1 NothingThere
deliver net
    net data 02
    N>U SAPI 0 TEI 64 R RR N(R)=1 F=0
deliver net
    refused P1 NothingThere
.
    user: state 7, given 1, received 1, acknowledged 0, dropped 0
    net: state 7, given 1, received 1, acknowledged 1, dropped 0

lapd pair
# the network is busy, unit data passes, and the link is released

unit user 0a
    U>N SAPI 0 TEI 64 C UI P=0 info=0a
unit net
    N>U SAPI 0 TEI 64 C UI P=0
deliver net
    net unit 0a
deliver user
    user unit
establish user
    U>N SAPI 0 TEI 64 C SABME P=1
deliver net
    N>U SAPI 0 TEI 64 R UA F=1
    net established
deliver user
    user confirmed
busy net on
    N>U SAPI 0 TEI 64 R RNR N(R)=0 F=0
deliver user
give user 0801
expire200 user
    U>N SAPI 0 TEI 64 C RR N(R)=0 P=1
deliver net
    N>U SAPI 0 TEI 64 R RNR N(R)=0 F=1
deliver user
busy net off
    N>U SAPI 0 TEI 64 R RR N(R)=0 F=0
deliver user
    U>N SAPI 0 TEI 64 C I N(S)=0 N(R)=0 P=0 info=0801
expire203 net
    N>U SAPI 0 TEI 64 C RR N(R)=0 P=1
deliver net
    net data 0801
    N>U SAPI 0 TEI 64 R RR N(R)=1 F=0
deliver user
    U>N SAPI 0 TEI 64 R RR N(R)=0 F=1
release user
    user dropped 1
    U>N SAPI 0 TEI 64 C DISC P=1
deliver net
deliver user
deliver user
    refused P1 NothingThere
.
    user: state 6, given 1, received 0, acknowledged 0, dropped 1
    net: state 7, given 0, received 1, acknowledged 0, dropped 0

lapd pair
# the longest frame
establish user
    U>N SAPI 0 TEI 64 C SABME P=1
deliver net
    N>U SAPI 0 TEI 64 R UA F=1
    net established
deliver user
    user confirmed
give user MOST
    U>N SAPI 0 TEI 64 C I N(S)=0 N(R)=0 P=0 info=MOST
deliver net
    net data MOST
    N>U SAPI 0 TEI 64 R RR N(R)=1 F=0
.
    user: state 7, given 1, received 0, acknowledged 0, dropped 0
    net: state 7, given 0, received 1, acknowledged 0, dropped 0";

/// Scenarios with the frames on the port.
pub(crate) const LOOPS: &str = "\
lapd loop
# the worked message
establish user
    U>N SAPI 0 TEI 64 C SABME P=1
>000300817f
<0003<00817f
deliver net
    N>U SAPI 0 TEI 64 R UA F=1
    net established
>0003008173
<0003<008173
deliver user
    user confirmed
give user 0801
    U>N SAPI 0 TEI 64 C I N(S)=0 N(R)=0 P=0 info=0801
>0006008100000801
<0006<008100000801
deliver net
    net data 0801
    N>U SAPI 0 TEI 64 R RR N(R)=1 F=0
>000400810102
<0004<00810102
deliver user
    user acknowledged 1
.
    user: state 7, given 1, received 0, acknowledged 1, dropped 0
    net: state 7, given 0, received 1, acknowledged 0, dropped 0

lapd loop
# a line is bad
establish user
    U>N SAPI 0 TEI 64 C SABME P=1
>000300817f
<0003<00817f
settle
! line 3: bad command

lapd loop
# a line is bad too
establish user
    U>N SAPI 0 TEI 64 C SABME P=1
>000300817f
<0003<00817f
recover
! line 3: bad command

lapd loop
# the first octet of the address comes back changed
establish user
    U>N SAPI 0 TEI 64 C SABME P=1
>000300817f
<0003<02817f
! device fault

lapd loop
# the second octet of the address comes back changed
establish user
    U>N SAPI 0 TEI 64 C SABME P=1
>000300817f
<0003<00837f
! device fault

lapd loop
# the control field comes back changed
establish user
    U>N SAPI 0 TEI 64 C SABME P=1
>000300817f
<0003<00816f
! device fault

lapd loop
# an octet more comes back
establish user
    U>N SAPI 0 TEI 64 C SABME P=1
>000300817f
<0004<00817f00
! device fault

lapd loop
# another frame comes back
establish user
    U>N SAPI 0 TEI 64 C SABME P=1
>000300817f
<0003<008173
! device fault

lapd loop
.
    user: state 4, given 0, received 0, acknowledged 0, dropped 0
    net: state 4, given 0, received 0, acknowledged 0, dropped 0

lapd loop
establish user
    U>N SAPI 0 TEI 64 C SABME P=1
>000300817f
<0003<00817f
deliver net
    N>U SAPI 0 TEI 64 R UA F=1
    net established
>0003008173
<0003<008173
state
! line 3: bad command";
