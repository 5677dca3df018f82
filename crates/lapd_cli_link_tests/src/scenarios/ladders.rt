//! Scenarios of `pair --ladder`.

/// Moves, and their parts of the ladder.
pub(crate) const SCENARIOS: &str = "\
lapd pair --ladder --k 7
                 user |                                                | network
# a message is lost
establish user
deliver net
           5 S0 A0 R0 |-- 0 64 SABME P=1 ----------------------------->| 7 S0 A0 R0
                      |  net established                               |
deliver user
           7 S0 A0 R0 |<-- 0 64 UA F=1 --------------------------------| 7 S0 A0 R0
                      |  user confirmed                                |
give user 01
give user 02
lose net 0
           7 S2 A0 R0 |-- 0 64 I N(S)=0 N(R)=0 P=0 info=01 -X          | 7 S0 A0 R0
deliver net
           7 S2 A0 R0 |-- 0 64 I N(S)=1 N(R)=0 P=0 info=02 ----------->| 7 S0 A0 R0
deliver user
           7 S2 A0 R0 |<-- 0 64 REJ N(R)=0 F=0 ------------------------| 7 S0 A0 R0
deliver net
           7 S2 A0 R0 |-- 0 64 I N(S)=0 N(R)=0 P=0 info=01 ----------->| 7 S0 A0 R1
                      |  net data 01                                   |
deliver net
           7 S2 A0 R0 |-- 0 64 I N(S)=1 N(R)=0 P=0 info=02 ----------->| 7 S0 A0 R2
                      |  net data 02                                   |
deliver user
           7 S2 A1 R0 |<-- 0 64 RR N(R)=1 F=0 -------------------------| 7 S0 A0 R2
                      |  user acknowledged 1                           |
lose user 0
           7 S2 A1 R0 |          X-- 0 64 RR N(R)=2 F=0 ---------------| 7 S0 A0 R2
settle
                      |  settled 3 rest                                |
deliver net
    refused P1 NothingThere
.
    user: state 7, given 2, received 0, acknowledged 2, dropped 0
    net: state 7, given 0, received 2, acknowledged 0, dropped 0

lapd pair --ladder
                 user |                                                | network
# frames of the network are lost, and a long one
establish net
lose user 0
           4 S0 A0 R0 |          X-- 0 64 SABME P=1 -------------------| 5 S0 A0 R0
expire200 net
expire200 net
    refused P3 NotYet user 0
deliver user
           7 S0 A0 R0 |<-- 0 64 SABME P=1 -----------------------------| 5 S0 A0 R0
                      |  user established                              |
deliver net
           7 S0 A0 R0 |-- 0 64 UA F=1 -------------------------------->| 7 S0 A0 R0
                      |  net confirmed                                 |
give net 000102030405060708
lose user 0
           7 S0 A0 R0 |          X-- 0 64 I N(S)=0 N(R)=0 P=0 info=.. -| 7 S1 A0 R0
lose user 0
    refused P1 NothingThere
expire200 net
deliver user
           7 S0 A0 R0 |<-- 0 64 RR N(R)=0 P=1 -------------------------| 8 S1 A0 R0
.
    user: state 7, given 0, received 0, acknowledged 0, dropped 0
    net: state 8, given 1, received 0, acknowledged 0, dropped 0";
