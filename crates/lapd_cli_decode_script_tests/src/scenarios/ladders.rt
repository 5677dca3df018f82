//! Scenarios of `decode --ladder` and `decode --svg`.

/// Sent octets, and their parts of the ladder or picture.
pub(crate) const SCENARIOS: &str = r##"lapd decode --ladder
user
    packet       user |                                                | network
         1            |-- F1 TooShort -------------------------------->|
user 00817f
         2 SABME sent |-- 0 64 SABME P=1 ----------------------------->| -
nobody 00
! line 3: bad command

lapd decode --ladder --names
# a link is established, a message is lost, and the network rejects the next one
user 00817f
    packet       user |                                                | network
         1 SABME sent |-- 0 64 SABME P=1 ----------------------------->| -
net 008173
         2      S0 R0 |<-- 0 64 UA F=1 --------------------------------| S0 R0
                      |  begins establishment 1                        |
                      |  answers packet 1                              |
user 0081000008010105
         3      S1 R0 |-- SETUP 0 64 I N(S)=0 N(R)=0 P=0 ------------->| S0 R0
                      |  SETUP cr=1 from origin                        |
user 008102000801010f
         4      S2 R0 |-- CONNECT ACKNOWLEDGE 0 64 I N(S)=1 N(R)=0.. ->| S0 R0
                      |  CONNECT ACKNOWLEDGE cr=1 from origin          |
net 00810900
         5      S2 R0 |<-- 0 64 REJ N(R)=0 F=0 ------------------------| S0 R0
user 0081000008010105
         6      S2 R0 |-- SETUP 0 64 I N(S)=0 N(R)=0 P=0 ------------->| S0 R0
                      |  SETUP cr=1 from origin                        |
                      |  repeated                                      |
net 00810502
         7      S2 R0 |<-- 0 64 RNR N(R)=1 F=0 ------------------------| S0 R1 busy
user 00810101
         8 S2 R0 poll |-- 0 64 RR N(R)=0 P=1 ------------------------->| S0 R1 busy
net 00810503
         9      S2 R0 |<-- 0 64 RNR N(R)=1 F=1 ------------------------| S0 R1 busy
                      |  answers packet 8                              |
user 008102000801010f
        10      S2 R0 |-- CONNECT ACKNOWLEDGE 0 64 I N(S)=1 N(R)=0.. ->| S0 R1 busy
                      |  CONNECT ACKNOWLEDGE cr=1 from origin          |
                      |  repeated                                      |
                      |  violation: sent to a peer that answered a poll by RNR |
user 008153
        11  DISC sent |-- 0 64 DISC P=1 ------------------------------>| -
net 008173
        12          - |<-- 0 64 UA F=1 --------------------------------| -
                      |  ends establishment 1                          |
                      |  answers packet 11                             |

lapd decode --ladder --names
# the name of a message of TEI management says what its remark says
user fcff030f619901ff
    packet       user |                                                | network
         1          - |-- 63 127 UI P=0 info=0f619901ff -------------->| -
                      |  identity request Ri=6199 Ai=127               |

lapd decode --names --follow
# the same in lines
user fcff030f619901ff
    U>N SAPI 63 TEI 127 C UI P=0 info=0f619901ff identity request Ri=6199 Ai=127
.
    SAPI 63 TEI 127: establishments 0
      U>N I 0, RR 0, RNR 0, REJ 0, SABME 0, DISC 0, UA 0, DM 0, UI 1, FRMR 0, XID 0
      U>N messages 0, octets 5, repeated 0, polls 0
      N>U I 0, RR 0, RNR 0, REJ 0, SABME 0, DISC 0, UA 0, DM 0, UI 0, FRMR 0, XID 0
      N>U messages 0, octets 0, repeated 0, polls 0

lapd decode --ladder --kinds i --count 2
# frames that are not printed are followed, and a long one is cut
user 00817f
net 008173
user 008100000000000000000000000000000000000000000000
    packet       user |                                                | network
         3      S1 R0 |-- 0 64 I N(S)=0 N(R)=0 P=0 info=0000000000.. ->| S0 R0
net 02810002aa
         4      S1 R0 |<-- 0 64 I N(S)=0 N(R)=1 P=0 info=aa -----------| S1 R1
nobody 00

lapd decode --ladder
# a TEI is given twice
user fcff030f123401ff
    packet       user |                                                | network
         1          - |-- 63 127 UI P=0 info=0f123401ff -------------->| -
                      |  requests a TEI, reference 1234                |
net feff030f12340281
         2          - |<-- 63 127 UI P=0 info=0f12340281 --------------| -
                      |  assigns TEI 64 to reference 1234              |
user fcff030f567801ff
         3          - |-- 63 127 UI P=0 info=0f567801ff -------------->| -
                      |  requests a TEI, reference 5678                |
net feff030f56780281
         4          - |<-- 63 127 UI P=0 info=0f56780281 --------------| -
                      |  assigns TEI 64 to reference 5678              |
                      |  violation: TEI 64 is already assigned to reference 1234 |
net feff030f000006ff
         5          - |<-- 63 127 UI P=0 info=0f000006ff --------------| -
                      |  removes all TEIs                              |

lapd decode --svg picture --names
# a picture without its beginning and its end
user
    <style>svg{height:1000px}</style><g transform="translate(0 0000)"><rect width="940" height="1000" class="page"/><text x="60" y="40" class="end">packet</text><text x="190" y="40" class="end">time</text><text x="310" y="40" class="middle">user</text><text x="810" y="40" class="middle">network</text><text x="470" y="990" class="middle">1</text></g>
    <g transform="translate(0 0000)"><g transform="translate(0 80)"><path d="M310-20v36M810-20v36"/><path d="M310 0H810" marker-end="url(#head)"/><text x="60" class="end">1</text><text x="190" class="end"></text><text x="300" class="end"></text><text x="820"></text><text x="560" y="-5" class="middle">F1 TooShort</text><text x="560" y="12" class="middle note"></text></g></g>
user 00817f
    <g transform="translate(0 0000)"><g transform="translate(0 116)"><path d="M310-20v36M810-20v36"/><path d="M310 0H810" marker-end="url(#head)"/><text x="60" class="end">2</text><text x="190" class="end"></text><text x="300" class="end">SABME sent</text><text x="820">-</text><text x="560" y="-5" class="middle">0 64 SABME P=1</text><text x="560" y="12" class="middle note"></text></g></g>
net 008173
    <g transform="translate(0 0000)"><g transform="translate(0 152)"><path d="M310-20v36M810-20v36"/><path d="M810 0H310" marker-end="url(#head)"/><text x="60" class="end">3</text><text x="190" class="end"></text><text x="300" class="end">S0 R0</text><text x="820">S0 R0</text><text x="560" y="-5" class="middle">0 64 UA F=1</text><text x="560" y="12" class="middle note">begins establishment 1; answers packet 2</text></g></g>
user 0081000008010105700380263c
    <g transform="translate(0 0000)"><g transform="translate(0 188)"><path d="M310-20v36M810-20v36"/><path d="M310 0H810" marker-end="url(#head)"/><text x="60" class="end">4</text><text x="190" class="end"></text><text x="300" class="end">S1 R0</text><text x="820">S0 R0</text><text x="560" y="-5" class="middle">SETUP 0 64 I N(S)=0 N(R)=0 P=0</text><text x="560" y="12" class="middle note">SETUP cr=1 from origin called=&amp;&lt;</text></g></g>
net 008173
    <g transform="translate(0 0000)"><g transform="translate(0 224)"><path d="M310-20v36M810-20v36"/><path d="M810 0H310" marker-end="url(#head)"/><text x="60" class="end">5</text><text x="190" class="end"></text><text x="300" class="end">-</text><text x="820">S0 R0</text><text x="560" y="-5" class="middle">0 64 UA F=1</text><text x="560" y="12" class="middle note violation">violation: UA without SABME or DISC</text></g></g>
user 0081000000000000000000000000000000000000000000000000000000000000000000000000000000000000
    <g transform="translate(0 0000)"><g transform="translate(0 260)"><path d="M310-20v36M810-20v36"/><path d="M310 0H810" marker-end="url(#head)"/><text x="60" class="end">6</text><text x="190" class="end"></text><text x="300" class="end">-</text><text x="820">S0 R0</text><text x="560" y="-5" class="middle">0 64 I N(S)=0 N(R)=0 P=0 info=0000000000000000000000000000000000..</text><text x="560" y="12" class="middle note"></text></g></g>"##;
