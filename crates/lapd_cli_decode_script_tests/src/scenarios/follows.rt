//! Scenarios of `decode --follow`.

/// Sent octets, their lines with remarks, and the tables at the end.
pub(crate) const SCENARIOS: &str = r#"lapd decode --follow
user 00817f
    U>N SAPI 0 TEI 64 C SABME P=1
nobody 00
! line 2: bad command

lapd decode --follow
user
    U>N F1 TooShort

lapd decode --follow
# both ends are set up as the user side, or the line is looped
user 00817f
    U>N SAPI 0 TEI 64 C SABME P=1
net 00817f
    N>U F4 Undefined 00817f; violation: C/R bit of the other side
net 008173
    N>U SAPI 0 TEI 64 R UA F=1; begins establishment 1; answers packet 1
.
    SAPI 0 TEI 64: establishments 1
      U>N I 0, RR 0, RNR 0, REJ 0, SABME 1, DISC 0, UA 0, DM 0, UI 0, FRMR 0, XID 0
      U>N messages 0, octets 0, repeated 0, polls 1
      N>U I 0, RR 0, RNR 0, REJ 0, SABME 0, DISC 0, UA 1, DM 0, UI 0, FRMR 0, XID 0
      N>U messages 0, octets 0, repeated 0, polls 0

lapd decode --follow
# V(R) is not reset when the link is established again
user 00817f
    U>N SAPI 0 TEI 64 C SABME P=1
net 008173
    N>U SAPI 0 TEI 64 R UA F=1; begins establishment 1; answers packet 1
user 008100000801
    U>N SAPI 0 TEI 64 C I N(S)=0 N(R)=0 P=0 info=0801
net 00810102
    N>U SAPI 0 TEI 64 R RR N(R)=1 F=0
user 00817f
    U>N SAPI 0 TEI 64 C SABME P=1
net 008173
    N>U SAPI 0 TEI 64 R UA F=1; begins establishment 2; answers packet 5
user 008100000802
    U>N SAPI 0 TEI 64 C I N(S)=0 N(R)=0 P=0 info=0802
net 00810104
    N>U SAPI 0 TEI 64 R RR N(R)=2 F=0; violation: N(R) 2 is not from 0 to 1
.
    SAPI 0 TEI 64: establishments 2
      U>N I 2, RR 0, RNR 0, REJ 0, SABME 2, DISC 0, UA 0, DM 0, UI 0, FRMR 0, XID 0
      U>N messages 2, octets 4, repeated 0, polls 2
      N>U I 0, RR 2, RNR 0, REJ 0, SABME 0, DISC 0, UA 2, DM 0, UI 0, FRMR 0, XID 0
      N>U messages 0, octets 0, repeated 0, polls 0

lapd decode --follow --json
user 00817f
    {"direction":"U>N","frame":"SABME","p":1,"role":"command","sapi":0,"tei":64,"remarks":[]}
net 008173
    {"direction":"N>U","f":1,"frame":"UA","role":"response","sapi":0,"tei":64,"remarks":[{"class":"normal","clause":"5.5.1.2","text":"begins establishment 1"},{"class":"normal","clause":"3.5.1","text":"answers packet 1"}]}
user
    {"direction":"U>N","fault":"F1 TooShort","remarks":[]}
.
    {"establishments":1,"network":{"disc":0,"dm":0,"frmr":0,"i":0,"messages":0,"octets":0,"polls":0,"rej":0,"repeated":0,"rnr":0,"rr":0,"sabme":0,"ua":1,"ui":0,"xid":0},"sapi":0,"tei":64,"user":{"disc":0,"dm":0,"frmr":0,"i":0,"messages":0,"octets":0,"polls":1,"rej":0,"repeated":0,"rnr":0,"rr":0,"sabme":1,"ua":0,"ui":0,"xid":0}}

lapd decode --follow --kinds s
# frames that are not printed are followed
user 00817f
net 008173
user 008100000801
net 00810102
    N>U SAPI 0 TEI 64 R RR N(R)=1 F=0
net 00810103
    N>U SAPI 0 TEI 64 R RR N(R)=1 F=1; violation: response without a poll
user 00810101
    U>N SAPI 0 TEI 64 C RR N(R)=0 P=1
net 00810103
    N>U SAPI 0 TEI 64 R RR N(R)=1 F=1; answers packet 6
.
    SAPI 0 TEI 64: establishments 1
      U>N I 1, RR 1, RNR 0, REJ 0, SABME 1, DISC 0, UA 0, DM 0, UI 0, FRMR 0, XID 0
      U>N messages 1, octets 2, repeated 0, polls 2
      N>U I 0, RR 3, RNR 0, REJ 0, SABME 0, DISC 0, UA 1, DM 0, UI 0, FRMR 0, XID 0
      N>U messages 0, octets 0, repeated 0, polls 0

lapd decode --follow --count 1
# the tables count the frames up to the last printed one
user 00817f
    U>N SAPI 0 TEI 64 C SABME P=1
net 008173
.
    SAPI 0 TEI 64: establishments 0
      U>N I 0, RR 0, RNR 0, REJ 0, SABME 1, DISC 0, UA 0, DM 0, UI 0, FRMR 0, XID 0
      U>N messages 0, octets 0, repeated 0, polls 1
      N>U I 0, RR 0, RNR 0, REJ 0, SABME 0, DISC 0, UA 0, DM 0, UI 0, FRMR 0, XID 0
      N>U messages 0, octets 0, repeated 0, polls 0

lapd decode --follow --k 1
# two links, a window that is exceeded, a repetition, and a line that is no line
user 00817f
    U>N SAPI 0 TEI 64 C SABME P=1
net 008173
    N>U SAPI 0 TEI 64 R UA F=1; begins establishment 1; answers packet 1
user fcff030f619901ff
    U>N SAPI 63 TEI 127 C UI P=0 info=0f619901ff; requests a TEI, reference 6199
user
    U>N F1 TooShort
user 00810000aa
    U>N SAPI 0 TEI 64 C I N(S)=0 N(R)=0 P=0 info=aa
user 00810000aa
    U>N SAPI 0 TEI 64 C I N(S)=0 N(R)=0 P=0 info=aa; repeated
user 00810200bb
    U>N SAPI 0 TEI 64 C I N(S)=1 N(R)=0 P=0 info=bb; violation: window of 1 is exceeded
net 00810101
    N>U SAPI 0 TEI 64 R RR N(R)=0 F=1; violation: response without a poll
user 00810101
    U>N SAPI 0 TEI 64 C RR N(R)=0 P=1
user 00810101
    U>N SAPI 0 TEI 64 C RR N(R)=0 P=1; packet 9 is not answered
.
    SAPI 0 TEI 64: establishments 1
      U>N I 3, RR 2, RNR 0, REJ 0, SABME 1, DISC 0, UA 0, DM 0, UI 0, FRMR 0, XID 0
      U>N messages 2, octets 3, repeated 1, polls 3
      N>U I 0, RR 1, RNR 0, REJ 0, SABME 0, DISC 0, UA 1, DM 0, UI 0, FRMR 0, XID 0
      N>U messages 0, octets 0, repeated 0, polls 0
    SAPI 63 TEI 127: establishments 0
      U>N I 0, RR 0, RNR 0, REJ 0, SABME 0, DISC 0, UA 0, DM 0, UI 1, FRMR 0, XID 0
      U>N messages 0, octets 5, repeated 0, polls 0
      N>U I 0, RR 0, RNR 0, REJ 0, SABME 0, DISC 0, UA 0, DM 0, UI 0, FRMR 0, XID 0
      N>U messages 0, octets 0, repeated 0, polls 0

lapd decode --follow
# a TEI is given twice, and two terminals answer its check
user fcff030f123401ff
    U>N SAPI 63 TEI 127 C UI P=0 info=0f123401ff; requests a TEI, reference 1234
net feff030f12340281
    N>U SAPI 63 TEI 127 C UI P=0 info=0f12340281; assigns TEI 64 to reference 1234
user fcff030f567801ff
    U>N SAPI 63 TEI 127 C UI P=0 info=0f567801ff; requests a TEI, reference 5678
net feff030f56780281
    N>U SAPI 63 TEI 127 C UI P=0 info=0f56780281; assigns TEI 64 to reference 5678; violation: TEI 64 is already assigned to reference 1234
net feff030f00000481
    N>U SAPI 63 TEI 127 C UI P=0 info=0f00000481; checks TEI 64
user fcff030f00010581
    U>N SAPI 63 TEI 127 C UI P=0 info=0f00010581; answers the check of TEI 64, reference 0001
user fcff030f00020581
    U>N SAPI 63 TEI 127 C UI P=0 info=0f00020581; answers the check of TEI 64, reference 0002; two terminals answer the check of TEI 64, references 0001 and 0002
net feff030f00000681
    N>U SAPI 63 TEI 127 C UI P=0 info=0f00000681; removes TEI 64
.
    SAPI 63 TEI 127: establishments 0
      U>N I 0, RR 0, RNR 0, REJ 0, SABME 0, DISC 0, UA 0, DM 0, UI 4, FRMR 0, XID 0
      U>N messages 0, octets 20, repeated 0, polls 0
      N>U I 0, RR 0, RNR 0, REJ 0, SABME 0, DISC 0, UA 0, DM 0, UI 4, FRMR 0, XID 0
      N>U messages 0, octets 20, repeated 0, polls 0

lapd decode --follow --json
net feff030f56780281
    {"direction":"N>U","frame":"UI","info":"0f56780281","p":0,"role":"command","sapi":63,"tei":127,"remarks":[{"class":"normal","clause":"5.3.2","text":"assigns TEI 64 to reference 5678"},{"class":"recovery","clause":"5.3.2","text":"no known request has this reference"}]}
.
    {"establishments":0,"network":{"disc":0,"dm":0,"frmr":0,"i":0,"messages":0,"octets":5,"polls":0,"rej":0,"repeated":0,"rnr":0,"rr":0,"sabme":0,"ua":0,"ui":1,"xid":0},"sapi":63,"tei":127,"user":{"disc":0,"dm":0,"frmr":0,"i":0,"messages":0,"octets":0,"polls":0,"rej":0,"repeated":0,"rnr":0,"rr":0,"sabme":0,"ua":0,"ui":0,"xid":0}}"#;
