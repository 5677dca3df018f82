//! Failed allocations (docs/DEVELOPING.md).

use crate::run::Decode;
use lapd_test_scenario::survives;
use std::test::Fail;

#[test]
fn decodes_while_there_is_memory(rt: HostRuntime) -> Result<(), Fail> {
    survives(&rt, &Decode, "lapd decode", OCTETS)
}

#[test]
fn follows_while_there_is_memory(rt: HostRuntime) -> Result<(), Fail> {
    survives(&rt, &Decode, "lapd decode --follow --k 1", FOLLOWED)
}

#[test]
fn draws_while_there_is_memory(rt: HostRuntime) -> Result<(), Fail> {
    survives(&rt, &Decode, "lapd decode --ladder", DRAWN)
}

const DRAWN: &str = "\
user
    packet       user |                                                | network
         1            |-- F1 TooShort -------------------------------->|
net 02817f
         2          - |<-- 0 64 SABME P=1 -----------------------------| SABME sent
";

const FOLLOWED: &str = "\
user
    U>N F1 TooShort
net 02817f
    N>U SAPI 0 TEI 64 C SABME P=1
user 028173
    U>N SAPI 0 TEI 64 R UA F=1; begins establishment 1; answers packet 2
.
    SAPI 0 TEI 64: establishments 1
      U>N I 0, RR 0, RNR 0, REJ 0, SABME 0, DISC 0, UA 1, DM 0, UI 0, FRMR 0, XID 0
      U>N messages 0, octets 0, repeated 0, polls 0
      N>U I 0, RR 0, RNR 0, REJ 0, SABME 1, DISC 0, UA 0, DM 0, UI 0, FRMR 0, XID 0
      N>U messages 0, octets 0, repeated 0, polls 1
";

const OCTETS: &str = "\
user
    U>N F1 TooShort
net 02810101
    N>U SAPI 0 TEI 64 C RR N(R)=0 P=1
user
    U>N F1 TooShort
";
