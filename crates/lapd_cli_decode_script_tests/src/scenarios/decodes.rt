//! Scenarios of `decode`.

/// Sent octets, and their trace lines.
pub(crate) const SCENARIOS: &str = "\
lapd decode
# octets and their trace lines
net 02810101
    N>U SAPI 0 TEI 64 C RR N(R)=0 P=1
user 02810101
    U>N SAPI 0 TEI 64 R RR N(R)=0 F=1
user 00810100
    U>N SAPI 0 TEI 64 C RR N(R)=0 P=0
net feff030f12340281
    N>U SAPI 63 TEI 127 C UI P=0 info=0f12340281
user 0081AFFE
    U>N SAPI 0 TEI 64 C XID P=0 info=fe
user 0281bf
    U>N SAPI 0 TEI 64 R XID F=1
net 0081977f00020401
    N>U SAPI 0 TEI 64 R FRMR F=1 info=7f00020401
user
    U>N F1 TooShort
net
    N>U F1 TooShort
user 048100
    U>N F1 TooShort 048100
user 008101
    U>N F1 TooShort 008101
user 058100
    U>N F2 BadAddress 058100
user 04817f
    U>N F3 SapiNotServed 04817f
user 00811100
    U>N F4 Undefined 00811100
user 00810d00
    U>N F4 Undefined 00810d00
user 02817f
    U>N F4 Undefined 02817f
user 00817f00
    U>N F5 InfoNotPermitted 00817f00
user 0081010000
    U>N F6 WrongSize 0081010000
net 00819700
    N>U F6 WrongSize 00819700

# net 0
user
    U>N F1 TooShort
#

lapd decode
nobody 00
! line 1: bad command

lapd decode
net 0
! line 1: bad command

lapd decode
net  00
! line 1: bad command

lapd decode
user
    U>N F1 TooShort

net 00 
! line 3: bad command

lapd decode
NET 00
! line 1: bad command

lapd decode
#
net 00 81
! line 2: bad command

lapd decode
decode
! line 1: bad command

lapd decode --kinds s --no-polls
# supervisory frames without P and F
user 00817f
user 008100000801
net 00810102
    N>U SAPI 0 TEI 64 R RR N(R)=1 F=0
net 02810103
user 00810100
    U>N SAPI 0 TEI 64 C RR N(R)=0 P=0
user
nobody 00
! line 8: bad command

lapd decode --sapi 63 --tei 127
# one SAPI and TEI
user 00817f
user fcff030f619901ff
    U>N SAPI 63 TEI 127 C UI P=0 info=0f619901ff
net fefb030f00070281
user fc
user 04817f

lapd decode --sapi 1
# a SAPI that is not served
user 00817f
user 04817f
    U>N F3 SapiNotServed 04817f

lapd decode --tei 64 --kinds i,u
user 00817f
    U>N SAPI 0 TEI 64 C SABME P=1
user 00837f
net 008173
    N>U SAPI 0 TEI 64 R UA F=1
user 008100000801
    U>N SAPI 0 TEI 64 C I N(S)=0 N(R)=0 P=0 info=0801
net 00810102
user 00

lapd decode --count 2 --kinds u
# lines after the second printed frame are skipped
user 00817f
    U>N SAPI 0 TEI 64 C SABME P=1
net 00810102
net 008173
    N>U SAPI 0 TEI 64 R UA F=1
user 00817f
nobody 00";
