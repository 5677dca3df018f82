//! Scenarios of sides that test the port.

/// Lengths, repeated calls and the longest frame. The octets after one mark are read or written by
/// one call.
pub(crate) const SCENARIOS: &str = "\
lapd net --listen a:1
# a length of 2
read
<0002
! port S2 BadLength

lapd user --connect a:1
# a length of 2
read
<0002
! port S2 BadLength

lapd net --listen a:1
# a length of 0
read
<0000
! port S2 BadLength

lapd user --connect a:1
# a length of 0
read
<0000
! port S2 BadLength

lapd net --listen a:1
# a length of 265
read
<0109
! port S2 BadLength

lapd user --connect a:1
# a length of 265
read
<0109
! port S2 BadLength

lapd net --listen a:1
# a length that is low octet first
read
<0300
! port S2 BadLength

lapd user --connect a:1
# a length that is low octet first
read
<0300
! port S2 BadLength

lapd net --listen a:1
# a length of 264, and one octet
read
<0108<00<
! port S3 Cut

lapd user --connect a:1
# a length of 264, and one octet
read
<0108<00<
! port S3 Cut

lapd net --listen a:1
# a frame that is cut
read
<0004<00817f<
! port S3 Cut

lapd user --connect a:1
# a frame that is cut
read
<0004<00817f<
! port S3 Cut

lapd net --listen a:1
# half a length
read
<ff<
! port S3 Cut

lapd user --connect a:1
# half a length
read
<ff<
! port S3 Cut

lapd net --listen a:1
# a length alone
read
<0003<
! port S3 Cut

lapd user --connect a:1
# a length alone
read
<0003<
! port S3 Cut

lapd user --connect a:1
# two frames, and a length alone
read
<0003<00817f
    N>U F4 Undefined 00817f
read
<0004<02810101
    N>U SAPI 0 TEI 64 C RR N(R)=0 P=1
read
<0003<
! port S3 Cut

lapd user --connect a:1
# the longest frame
read
<0108<02810000MOST
    N>U SAPI 0 TEI 64 C I N(S)=0 N(R)=0 P=0 info=MOST

lapd user --connect a:1
# the longest frame goes out
establish 0 0
>0008fcff030f619901ff
    U>N SAPI 63 TEI 127 C UI P=0 info=0f619901ff
read
<0008<feff030f61990281
    N>U SAPI 63 TEI 127 C UI P=0 info=0f61990281
>000300817f
    U>N SAPI 0 TEI 64 C SABME P=1
    tei got 64
read
<0003<008173
    N>U SAPI 0 TEI 64 R UA F=1
    0 64 confirmed
give 0 64 MOST
>010800810000MOST
    U>N SAPI 0 TEI 64 C I N(S)=0 N(R)=0 P=0 info=MOST

lapd user --connect a:1
# an octet a turn
read
<00<03<00<81<7f
    N>U F4 Undefined 00817f

lapd user --connect a:1
# a read is interrupted
read
<00<%<03<00<81<7f
    N>U F4 Undefined 00817f

lapd user --connect a:1
# the last turn makes the frame whole
read
TURNS<00<03<00<81<7f
    N>U F4 Undefined 00817f

lapd user --connect a:1
# a turn is wanting
read
TURNS<%<00<03<00<81
! port S5 TooManyTurns

lapd user --connect a:1
# each turn is interrupted
read
TURNS<%<%<%<%<%
! port S5 TooManyTurns

lapd user --connect a:1
# one write
ask
>0008fcff030f619901ff
    U>N SAPI 63 TEI 127 C UI P=0 info=0f619901ff

lapd user --connect a:1
# an octet a write
ask
>00>08>fc>ff>03>0f>61>99>01>ff
    U>N SAPI 63 TEI 127 C UI P=0 info=0f619901ff

lapd user --connect a:1
# three octets a write
ask
>0008fc>ff030f>619901>ff
    U>N SAPI 63 TEI 127 C UI P=0 info=0f619901ff

lapd user --connect a:1
# two writes are interrupted
ask
>%>%>0008fcff>030f6199>01ff
    U>N SAPI 63 TEI 127 C UI P=0 info=0f619901ff

lapd user --connect a:1
# nothing is taken
ask
NOTHING
! port S5 TooManyTurns

lapd user --connect a:1
# the last turn takes the last octet
ask
WRITES>00>08>fc>ff>03>0f>61>99>01>ff
    U>N SAPI 63 TEI 127 C UI P=0 info=0f619901ff

lapd user --connect a:1
# a turn is wanting to write
ask
WRITES>%>00>08>fc>ff>03>0f>61>99>01
! port S5 TooManyTurns";
