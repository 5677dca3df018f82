//! Scenarios of `net` and `user`.

/// The octets received and sent on the port, and the printed lines.
pub(crate) const SCENARIOS: &str = "\
lapd net --listen a:1
# the network side assigns a TEI
read
<0008<fcff030f123401ff
    U>N SAPI 63 TEI 127 C UI P=0 info=0f123401ff
>0008feff030f12340281
    N>U SAPI 63 TEI 127 C UI P=0 info=0f12340281
    tei given 64
read
<0003<00817f
    U>N SAPI 0 TEI 64 C SABME P=1
>0003008173
    N>U SAPI 0 TEI 64 R UA F=1
    0 64 established
tick 10000
>000402810101
    N>U SAPI 0 TEI 64 C RR N(R)=0 P=1
read
<
    refused S1 End

lapd user --connect a:1
# the user side gets a TEI
ask
>0008fcff030f619901ff
    U>N SAPI 63 TEI 127 C UI P=0 info=0f619901ff
establish 0 127
read
<0008<feff030f61990281
    N>U SAPI 63 TEI 127 C UI P=0 info=0f61990281
>000300817f
    U>N SAPI 0 TEI 64 C SABME P=1
    tei got 64
read
<0003<008173
    N>U SAPI 0 TEI 64 R UA F=1
    0 64 confirmed
give 0 64 0801
>0006008100000801
    U>N SAPI 0 TEI 64 C I N(S)=0 N(R)=0 P=0 info=0801
read
<0004<00810102
    N>U SAPI 0 TEI 64 R RR N(R)=1 F=0
    0 64 acknowledged 1
read
<0006<028100020902
    N>U SAPI 0 TEI 64 C I N(S)=0 N(R)=1 P=0 info=0902
>000402810102
    U>N SAPI 0 TEI 64 R RR N(R)=1 F=0
    0 64 data 0902

lapd net --listen a:1
# the network's end of a dialogue
read
<0008<fcff030f619901ff
    U>N SAPI 63 TEI 127 C UI P=0 info=0f619901ff
>0008feff030f61990281
    N>U SAPI 63 TEI 127 C UI P=0 info=0f61990281
    tei given 64
read
<0003<00817f
    U>N SAPI 0 TEI 64 C SABME P=1
>0003008173
    N>U SAPI 0 TEI 64 R UA F=1
    0 64 established
read
<0006<008100000801
    U>N SAPI 0 TEI 64 C I N(S)=0 N(R)=0 P=0 info=0801
>000400810102
    N>U SAPI 0 TEI 64 R RR N(R)=1 F=0
    0 64 data 0801
give 0 64 0807
>0006028100020807
    N>U SAPI 0 TEI 64 C I N(S)=0 N(R)=1 P=0 info=0807
read
<0004<02810102
    U>N SAPI 0 TEI 64 R RR N(R)=1 F=0
    0 64 acknowledged 1
read
<0003<008153
    U>N SAPI 0 TEI 64 C DISC P=1
>0003008173
    N>U SAPI 0 TEI 64 R UA F=1
    0 64 released

lapd user --connect a:1
# the user's end of a dialogue
establish 0 127
>0008fcff030f619901ff
    U>N SAPI 63 TEI 127 C UI P=0 info=0f619901ff
read
<0008<feff030f61990281
    N>U SAPI 63 TEI 127 C UI P=0 info=0f61990281
>000300817f
    U>N SAPI 0 TEI 64 C SABME P=1
    tei got 64
read
<0003<008173
    N>U SAPI 0 TEI 64 R UA F=1
    0 64 confirmed
give 0 64 0801
>0006008100000801
    U>N SAPI 0 TEI 64 C I N(S)=0 N(R)=0 P=0 info=0801
read
<0004<00810102
    N>U SAPI 0 TEI 64 R RR N(R)=1 F=0
    0 64 acknowledged 1
read
<0006<028100020807
    N>U SAPI 0 TEI 64 C I N(S)=0 N(R)=1 P=0 info=0807
>000402810102
    U>N SAPI 0 TEI 64 R RR N(R)=1 F=0
    0 64 data 0807
release 0 64
>0003008153
    U>N SAPI 0 TEI 64 C DISC P=1
read
<0003<008173
    N>U SAPI 0 TEI 64 R UA F=1
    0 64 release-confirmed

lapd net --listen a:1
# of one tick all frames come before all primitives
read
<0008<fcff030f123401ff
    U>N SAPI 63 TEI 127 C UI P=0 info=0f123401ff
>0008feff030f12340281
    N>U SAPI 63 TEI 127 C UI P=0 info=0f12340281
    tei given 64
establish 0 64
>000302817f
    N>U SAPI 0 TEI 64 C SABME P=1
tick 1000
>000302817f
    N>U SAPI 0 TEI 64 C SABME P=1
establish 16 64
>000342817f
    N>U SAPI 16 TEI 64 C SABME P=1
tick 1000
>000302817f
    N>U SAPI 0 TEI 64 C SABME P=1
>000342817f
    N>U SAPI 16 TEI 64 C SABME P=1
tick 1000
>000302817f
    N>U SAPI 0 TEI 64 C SABME P=1
>000342817f
    N>U SAPI 16 TEI 64 C SABME P=1
tick 1000
>000342817f
    N>U SAPI 16 TEI 64 C SABME P=1
    0 64 report G
    0 64 released

lapd net --listen a:1
# no terminal answers for a TEI
check 64
>0008feff030f00000481
    N>U SAPI 63 TEI 127 C UI P=0 info=0f00000481
tick 1000
>0008feff030f00000481
    N>U SAPI 63 TEI 127 C UI P=0 info=0f00000481
tick 1000
    tei free 64

lapd net --listen a:1
# all TEIs are checked and removed, as long as none is held
check-all
>0008feff030f000004ff
    N>U SAPI 63 TEI 127 C UI P=0 info=0f000004ff
remove-all
>0008feff030f000006ff
    N>U SAPI 63 TEI 127 C UI P=0 info=0f000006ff
>0008feff030f000006ff
    N>U SAPI 63 TEI 127 C UI P=0 info=0f000006ff
read
<0008<fcff030f123401ff
    U>N SAPI 63 TEI 127 C UI P=0 info=0f123401ff
>0008feff030f12340281
    N>U SAPI 63 TEI 127 C UI P=0 info=0f12340281
    tei given 64
remove-all

lapd net --listen a:1
# one terminal answers for a TEI, then two
check 64
>0008feff030f00000481
    N>U SAPI 63 TEI 127 C UI P=0 info=0f00000481
read
<0008<fcff030f56780581
    U>N SAPI 63 TEI 127 C UI P=0 info=0f56780581
tick 1000
    tei in-use 64
check 64
>0008feff030f00000481
    N>U SAPI 63 TEI 127 C UI P=0 info=0f00000481
read
<0008<fcff030f56780581
    U>N SAPI 63 TEI 127 C UI P=0 info=0f56780581
read
<0008<fcff030f56780581
    U>N SAPI 63 TEI 127 C UI P=0 info=0f56780581
tick 1000
>0008feff030f00000681
    N>U SAPI 63 TEI 127 C UI P=0 info=0f00000681
>0008feff030f00000681
    N>U SAPI 63 TEI 127 C UI P=0 info=0f00000681
    tei doubled 64

lapd net --listen a:1
# unit data to one terminal and to all, and from one
read
<0008<fcff030f123401ff
    U>N SAPI 63 TEI 127 C UI P=0 info=0f123401ff
>0008feff030f12340281
    N>U SAPI 63 TEI 127 C UI P=0 info=0f12340281
    tei given 64
unit 16 64 0a0B
>00054281030a0b
    N>U SAPI 16 TEI 64 C UI P=0 info=0a0b
unit 0 127 0a
>000402ff030a
    N>U SAPI 0 TEI 127 C UI P=0 info=0a
unit 16 127
>000342ff03
    N>U SAPI 16 TEI 127 C UI P=0
read
<0004<008103ff
    U>N SAPI 0 TEI 64 C UI P=0 info=ff
    0 64 unit ff
read
<0003<008103
    U>N SAPI 0 TEI 64 C UI P=0
    0 64 unit
read
<0003<028103
    U>N F4 Undefined 028103
    0 64 report L

lapd net --listen a:1
# messages are dropped where the peer releases the link
read
<0008<fcff030f123401ff
    U>N SAPI 63 TEI 127 C UI P=0 info=0f123401ff
>0008feff030f12340281
    N>U SAPI 63 TEI 127 C UI P=0 info=0f12340281
    tei given 64
read
<0003<00817f
    U>N SAPI 0 TEI 64 C SABME P=1
>0003008173
    N>U SAPI 0 TEI 64 R UA F=1
    0 64 established
give 0 64 01
>00050281000001
    N>U SAPI 0 TEI 64 C I N(S)=0 N(R)=0 P=0 info=01
give 0 64 02
read
<0003<008153
    U>N SAPI 0 TEI 64 C DISC P=1
>0003008173
    N>U SAPI 0 TEI 64 R UA F=1
    0 64 dropped 2
    0 64 released
read
<0004<08810000
    U>N F3 SapiNotServed 08810000

lapd net --listen a:1
# what the network side refuses
establish 0 64
    refused B1 NoLink
release 16 64
    refused B1 NoLink
give 0 64 01
    refused B1 NoLink
unit 0 64 01
    refused B1 NoLink
establish 63 64
    refused B1 NoLink
unit 63 127 0a
    refused B1 NoLink
give 0 127 01
    refused B1 NoLink
check 127
read
<0008<fcff030f123401ff
    U>N SAPI 63 TEI 127 C UI P=0 info=0f123401ff
>0008feff030f12340281
    N>U SAPI 63 TEI 127 C UI P=0 info=0f12340281
    tei given 64
give 0 64 01
    refused L1 NotEstablished
release 0 64
    0 64 release-confirmed
establish 0 64
>000302817f
    N>U SAPI 0 TEI 64 C SABME P=1
give 0 64
    refused L5 LayerThreeEstablishing
release 0 64
establish 0 64
    refused L4 Releasing
read
<
    refused S1 End

lapd user --connect a:1
# what a user side without a TEI refuses
give 0 64 01
    refused L1 NotEstablished
give 63 64 01
    refused L1 NotEstablished
unit 0 64 01
    refused B1 NoLink
release 0 64
    refused B1 NoLink
establish 63 64
    refused B1 NoLink
read
<
    refused S1 End
read
<
    refused S1 End

lapd user --connect a:1
# no TEI is assigned
establish 16 0
>0008fcff030f619901ff
    U>N SAPI 63 TEI 127 C UI P=0 info=0f619901ff
read
<0008<feff030f619903ff
    N>U SAPI 63 TEI 127 C UI P=0 info=0f619903ff
tick 2000
>0008fcff030f769101ff
    U>N SAPI 63 TEI 127 C UI P=0 info=0f769101ff
tick 2000
>0008fcff030f15ec01ff
    U>N SAPI 63 TEI 127 C UI P=0 info=0f15ec01ff
tick 1999
tick 1
    tei failed
    16 127 released

lapd user --connect a:1
# an establishment is forgotten, and a TEI removed
# the terminal goes on asking
establish 0 0
>0008fcff030f619901ff
    U>N SAPI 63 TEI 127 C UI P=0 info=0f619901ff

release 0 0
    0 127 release-confirmed
read
<0008<feff030f61990281
    N>U SAPI 63 TEI 127 C UI P=0 info=0f61990281
    tei got 64
read
<0004<feff030a
    N>U SAPI 63 TEI 127 C UI P=0 info=0a
read
<0004<02ff030a
    N>U SAPI 0 TEI 127 C UI P=0 info=0a
    0 127 unit 0a
establish 0 0
>000300817f
    U>N SAPI 0 TEI 64 C SABME P=1
unit 0 127 0a
>00040081030a
    U>N SAPI 0 TEI 64 C UI P=0 info=0a
read
<0008<feff030f00000681
    N>U SAPI 63 TEI 127 C UI P=0 info=0f00000681
    tei gone 64
    0 64 released

lapd net --listen a:1 --pri
# the network side at primary rate
read
<0003<00017f
    U>N SAPI 0 TEI 0 C SABME P=1
>0003000173
    N>U SAPI 0 TEI 0 R UA F=1
    0 0 established

lapd user --connect a:1 --pri
# the user side at primary rate
establish 0 0
>000300017f
    U>N SAPI 0 TEI 0 C SABME P=1
read
<0003<000173
    N>U SAPI 0 TEI 0 R UA F=1
    0 0 confirmed

lapd net --listen a:1 --json
# lines that are objects
give 0 65 01
    {\"refused\":\"B1 NoLink\"}
read
<0008<fcff030f123401ff
    {\"direction\":\"U>N\",\"frame\":\"UI\",\"info\":\"0f123401ff\",\"p\":0,\"role\":\"command\",\"sapi\":63,\"tei\":127}
>0008feff030f12340281
    {\"direction\":\"N>U\",\"frame\":\"UI\",\"info\":\"0f12340281\",\"p\":0,\"role\":\"command\",\"sapi\":63,\"tei\":127}
    {\"primitive\":\"tei given\",\"tei\":64}
read
<0003<00817f
    {\"direction\":\"U>N\",\"frame\":\"SABME\",\"p\":1,\"role\":\"command\",\"sapi\":0,\"tei\":64}
>0003008173
    {\"direction\":\"N>U\",\"f\":1,\"frame\":\"UA\",\"role\":\"response\",\"sapi\":0,\"tei\":64}
    {\"primitive\":\"established\",\"sapi\":0,\"tei\":64}
tick 10000
>000402810101
    {\"direction\":\"N>U\",\"frame\":\"RR\",\"nr\":0,\"p\":1,\"role\":\"command\",\"sapi\":0,\"tei\":64}
read
<
    {\"refused\":\"S1 End\"}

lapd net --listen a:1
# lines of both sides
read
<
    refused S1 End
tick 1
tick 0003600000
release 00 00000
    refused B1 NoLink
establish 63 127
    refused B1 NoLink
unit 0 126 aB
    refused B1 NoLink
unit 16 1
    refused B1 NoLink
# tick

lapd user --connect a:1
# lines of both sides
read
<
    refused S1 End
tick 1
tick 0003600000
release 00 00000
    refused B1 NoLink
establish 63 127
    refused B1 NoLink
unit 0 126 aB
    refused B1 NoLink
unit 16 1
    refused B1 NoLink
# tick

lapd net --listen a:1
# behind a good line
tick 1
read 1
! line 3: bad command

lapd user --connect a:1
# behind a good line
tick 1
ask 64
! line 3: bad command";
