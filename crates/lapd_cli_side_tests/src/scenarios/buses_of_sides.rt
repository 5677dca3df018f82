//! Scenarios of `bus --links`.

/// What the sides take, send and report. References are those of the seeds 921 and 922.
pub(crate) const LISTED: &str = "\
lapd bus --links --terminals 1
# a terminal obtains a TEI for its link, and a SABME is lost
establish 0 0 127
    0 U>N SAPI 63 TEI 127 C UI P=0 info=0f619901ff
take 0
    nothing
take-up 0
    net U>N SAPI 63 TEI 127 C UI P=0 info=0f619901ff
    net N>U SAPI 63 TEI 127 C UI P=0 info=0f61990281
    net tei given 64
take 0
    0 N>U SAPI 63 TEI 127 C UI P=0 info=0f61990281
    0 U>N SAPI 0 TEI 64 C SABME P=1
    0 tei got 64
lose-up 0 0
tick 999
tick 1
    0 U>N SAPI 0 TEI 64 C SABME P=1
take-up 0
    net U>N SAPI 0 TEI 64 C SABME P=1
    net N>U SAPI 0 TEI 64 R UA F=1
    net 0 64 established
take 0
    0 N>U SAPI 0 TEI 64 R UA F=1
    0 0 64 confirmed

lapd bus --links
# nothing to do, and refusals
take 0
    nothing
take-up 2
    nothing
lose 18446744073709551615 0
    nothing
lose-up 0 18446744073709551615
    nothing
ask 2
    nothing
join 2 64
    nothing
settle
    settled 0 rest
give 1 0 0 0801
    1 refused L1 NotEstablished
give net 0 64 0801
    net refused B1 NoLink
check 127
remove-all
    net N>U SAPI 63 TEI 127 C UI P=0 info=0f000006ff
    net N>U SAPI 63 TEI 127 C UI P=0 info=0f000006ff
tick 3600000
join 0 127
! line 14: bad command

lapd bus --links
# unit data to all terminals, which one of them loses
join 0 5
join 1 126
unit net 16 127 0102
    net N>U SAPI 16 TEI 127 C UI P=0 info=0102
lose 1 0
lose 1 0
    nothing
settle
    0 N>U SAPI 16 TEI 127 C UI P=0 info=0102
    0 16 127 unit 0102
    settled 1 rest
unit 1 16 0 03
    1 U>N SAPI 16 TEI 126 C UI P=0 info=03
take-up 1
    net U>N SAPI 16 TEI 126 C UI P=0 info=03

lapd bus --links
# the network side forgets the TEI of a terminal, and assigns it to another
ask 0
    0 U>N SAPI 63 TEI 127 C UI P=0 info=0f619901ff
settle
    net U>N SAPI 63 TEI 127 C UI P=0 info=0f619901ff
    net N>U SAPI 63 TEI 127 C UI P=0 info=0f61990281
    net tei given 64
    0 N>U SAPI 63 TEI 127 C UI P=0 info=0f61990281
    0 tei got 64
    1 N>U SAPI 63 TEI 127 C UI P=0 info=0f61990281
    settled 3 rest
restart
ask 1
    1 U>N SAPI 63 TEI 127 C UI P=0 info=0f0fd201ff
take-up 1
    net U>N SAPI 63 TEI 127 C UI P=0 info=0f0fd201ff
    net N>U SAPI 63 TEI 127 C UI P=0 info=0f0fd20281
    net tei given 64
lose 0 0
take 1
    1 N>U SAPI 63 TEI 127 C UI P=0 info=0f0fd20281
    1 tei got 64

lapd bus --links
# a network side that restarts and knows its TEIs
join 0 0
ask 1
    1 U>N SAPI 63 TEI 127 C UI P=0 info=0f0fd201ff
settle
    net U>N SAPI 63 TEI 127 C UI P=0 info=0f0fd201ff
    net N>U SAPI 63 TEI 127 C UI P=0 info=0f0fd20281
    net tei given 64
    0 N>U SAPI 63 TEI 127 C UI P=0 info=0f0fd20281
    1 N>U SAPI 63 TEI 127 C UI P=0 info=0f0fd20281
    1 tei got 64
    settled 3 rest
restart-known
establish net 16 64
    net N>U SAPI 16 TEI 64 C SABME P=1
establish net 0 0
    net refused B1 NoLink
settle
    0 N>U SAPI 16 TEI 64 C SABME P=1
    1 N>U SAPI 16 TEI 64 C SABME P=1
    1 U>N SAPI 16 TEI 64 R UA F=1
    1 16 64 established
    net U>N SAPI 16 TEI 64 R UA F=1
    net 16 64 confirmed
    settled 3 rest
busy 1 16 0 on
    1 U>N SAPI 16 TEI 64 R RNR N(R)=0 F=0
release net 16 64
    net N>U SAPI 16 TEI 64 C DISC P=1
";

/// The same, drawn. The row of a frame of the network side is printed when other output follows it.
pub(crate) const DRAWN: &str = "\
lapd bus --links --ladder --terminals 3
     0   1   2  net
# a frame that arrives at some terminals is one row
ask 0
ask 2
take-up 0
     |---------->|  63 127 UI P=0 identity request Ri=6199 Ai=127
     |   |   |   |    net tei given 64
take 0
take 1
take-up 2
     <---<-------|  63 127 UI P=0 identity assigned Ri=6199 Ai=64
     |   |   |   |    terminal 0 tei got 64
     |   |   |-->|  63 127 UI P=0 identity request Ri=040d Ai=127
     |   |   |   |    net tei given 65
lose 1 0
take 2
     |   x-------|  63 127 UI P=0 identity assigned Ri=040d Ai=65
take 2
     |   |   <---|  63 127 UI P=0 identity assigned Ri=6199 Ai=64
take 0
take 0
     <-------<---|  63 127 UI P=0 identity assigned Ri=040d Ai=65
     |   |   |   |    terminal 2 tei got 65
    nothing

lapd bus --links --ladder
     0   1  net
# requests, a refusal and a bad line
ask 1
release 0 0 0
    0 refused B1 NoLink
take-up 1
     |   |-->|  63 127 UI P=0 identity request Ri=0fd2 Ai=127
     |   |   |    net tei given 64
restart
     |   |   |    net restarts
take 1
join 0 64
     |   <---|  63 127 UI P=0 identity assigned Ri=0fd2 Ai=64
     |   |   |    terminal 1 tei got 64
     |   |   |    terminal 0 joins
release 0 16 0
     |   |   |    terminal 0 16 64 release-confirmed
take 0
take 1
     <-------|  63 127 UI P=0 identity assigned Ri=0fd2 Ai=64
     |   |   |    terminal 0 tei gone 64
    nothing
join 0 64 2
! line 11: bad command

lapd bus --links --ladder
     0   1  net
# a terminal misses the removal of its TEI, which another one gets
ask 0
settle
     |------>|  63 127 UI P=0 identity request Ri=6199 Ai=127
     |   |   |    net tei given 64
establish 0 0 0
lose-up 0 0
     <---<---|  63 127 UI P=0 identity assigned Ri=6199 Ai=64
     |   |   |    terminal 0 tei got 64
     |-----x |  0 64 SABME P=1
tick 1000
     |   |   |    at 1000 ms
settle
     |------>|  0 64 SABME P=1
     |   |   |    net 0 64 established
remove 64
     <---<---|  0 64 UA F=1
     |   |   |    terminal 0 0 64 confirmed
     |   |   |    net tei free 64
     |   |   |    net 0 64 released
lose 0 0
lose 0 0
     x-------|  63 127 UI P=0 identity remove Ri=0000 Ai=64
take 1
take 1
     x---<---|  63 127 UI P=0 identity remove Ri=0000 Ai=64
ask 1
take-up 1
     |   <---|  63 127 UI P=0 identity remove Ri=0000 Ai=64
     |   |-->|  63 127 UI P=0 identity request Ri=0fd2 Ai=127
     |   |   |    net tei given 64
take 1
give 0 0 0 0801
take-up 0
     |   <---|  63 127 UI P=0 identity assigned Ri=0fd2 Ai=64
     |   |   |    terminal 1 tei got 64
     |------>|  0 64 I N(S)=0 N(R)=0 P=0 info=0801
give 1 0 0 02
    1 refused L1 NotEstablished
take 0
.
     <-------|  63 127 UI P=0 identity assigned Ri=0fd2 Ai=64
     |   |   |    terminal 0 tei gone 64
     |   |   |    terminal 0 0 64 released

lapd bus --links --ladder --terminals 3
     0   1   2  net
# a call, and octets that do not fit a row
join 1 9
     |   |   |   |    terminal 1 joins
join 2 9
     |   |   |   |    terminal 2 joins
unit 1 0 0 0801010504038090a3
take-up 1
     |   |------>|  0 9 UI P=0 SETUP cr=1 from origin bearer=speech
unit net 0 127 00112233445566778899aabbccddeeff00112233445566778899aabbccddeeff
settle
.
     <---<---<---|  0 127 UI P=0 info=00112233445566778899aabbccddeeff001122334455..
     |   |   |   |    terminal 0 0 127 unit 00112233445566778899aabbccddeeff001122..
     |   |   |   |    terminal 1 0 127 unit 00112233445566778899aabbccddeeff001122..
     |   |   |   |    terminal 2 0 127 unit 00112233445566778899aabbccddeeff001122..";
