//! Messages in words, as `decode --names` prints them.

use crate::lines::rows_hold;
use lapd_cli_decode::Style;
use std::test::Fail;

// A line, and its trace line. tshark 4.0.17 shows the same elements. In this order: SETUP with a
// single octet and all elements but a cause; messages of libpri, as in c/interop/run; a cause
// without and with octet 3a; no call reference; capabilities; channels of basic and other
// interfaces, and a map, an interface identifier and a reserved value, which are not shown; withheld
// numbers; digits that are not visible; elements that are too short; elements that are cut short;
// and shifts.
const MESSAGES: &str = "\
user 0081000008010105a104038090a318018a6c09218035353531323334700481323030|U>N SAPI 0 TEI 64 C I N(S)=0 N(R)=0 P=0 info=08010105a104038090a318018a6c09218035353531323334700481323030 SETUP cr=1 from origin bearer=speech channel=B2 calling=5551234 called=200
user 008100000801010504038090a318018a700481323030|U>N SAPI 0 TEI 64 C I N(S)=0 N(R)=0 P=0 info=0801010504038090a318018a700481323030 SETUP cr=1 from origin bearer=speech channel=B2 called=200
user 00810000080200010504038090a31803a983821e028083700481323030|U>N SAPI 0 TEI 64 C I N(S)=0 N(R)=0 P=0 info=080200010504038090a31803a983821e028083700481323030 SETUP cr=1 from origin bearer=speech channel=2 called=200
user 008100000801815a08028181|U>N SAPI 0 TEI 64 C I N(S)=0 N(R)=0 P=0 info=0801815a08028181 RELEASE COMPLETE cr=1 to origin cause=1
user 008100000801814508028090|U>N SAPI 0 TEI 64 C I N(S)=0 N(R)=0 P=0 info=0801814508028090 DISCONNECT cr=1 to origin cause=16
user 008100000801014d0803008091|U>N SAPI 0 TEI 64 C I N(S)=0 N(R)=0 P=0 info=0801014d0803008091 RELEASE cr=1 from origin cause=17
user 0081000008007b7003813132|U>N SAPI 0 TEI 64 C I N(S)=0 N(R)=0 P=0 info=08007b7003813132 INFORMATION cr=dummy called=12
user 00810000080101050401890401900401910401980401880401870401a0|U>N SAPI 0 TEI 64 C I N(S)=0 N(R)=0 P=0 info=080101050401890401900401910401980401880401870401a0 SETUP cr=1 from origin bearer=restricted bearer=3.1kHz bearer=tones bearer=video bearer=unrestricted bearer=7 bearer=0
user 00810000080101051801801801811801831801a01801a31803a983871803a993871802e9811801a2|U>N SAPI 0 TEI 64 C I N(S)=0 N(R)=0 P=0 info=080101051801801801811801831801a01801a31803a983871803a993871802e9811801a2 SETUP cr=1 from origin channel=none channel=B1 channel=any channel=none channel=any channel=7
user 00810000080101056c0200a36c01a1700181|U>N SAPI 0 TEI 64 C I N(S)=0 N(R)=0 P=0 info=080101056c0200a36c01a1700181 SETUP cr=1 from origin calling= calling= called=
user 0081000008010105700981232a217e225c207f|U>N SAPI 0 TEI 64 C I N(S)=0 N(R)=0 P=0 info=08010105700981232a217e225c207f SETUP cr=1 from origin called=#*!~????
user 008100000801010570038131806c04a10a31ff|U>N SAPI 0 TEI 64 C I N(S)=0 N(R)=0 P=0 info=0801010570038131806c04a10a31ff SETUP cr=1 from origin called=1? calling=?1?
user 008100000801010504000801800801000802008018001802a9836c006c0100700070028131|U>N SAPI 0 TEI 64 C I N(S)=0 N(R)=0 P=0 info=0801010504000801800801000802008018001802a9836c006c0100700070028131 SETUP cr=1 from origin called=1
user 008100000801010504038090|U>N SAPI 0 TEI 64 C I N(S)=0 N(R)=0 P=0 info=0801010504038090 SETUP cr=1 from origin
user 008100000801010504038090a37004813230|U>N SAPI 0 TEI 64 C I N(S)=0 N(R)=0 P=0 info=0801010504038090a37004813230 SETUP cr=1 from origin bearer=speech
user 008100000801010504038090a370|U>N SAPI 0 TEI 64 C I N(S)=0 N(R)=0 P=0 info=0801010504038090a370 SETUP cr=1 from origin bearer=speech
user 008100000801010504038090a39670028131|U>N SAPI 0 TEI 64 C I N(S)=0 N(R)=0 P=0 info=0801010504038090a39670028131 SETUP cr=1 from origin bearer=speech
user 008100000801010504038090a39e70028131|U>N SAPI 0 TEI 64 C I N(S)=0 N(R)=0 P=0 info=0801010504038090a39e70028131 SETUP cr=1 from origin bearer=speech";

// Without the octets of information; those that do not form a valid frame are shown.
const BRIEF: &str = "\
user fcff030f619901ff|U>N SAPI 63 TEI 127 C UI P=0 identity request Ri=6199 Ai=127
user 0081000008010105700481323030|U>N SAPI 0 TEI 64 C I N(S)=0 N(R)=0 P=0 SETUP cr=1 from origin called=200
net 0281000208|N>U SAPI 0 TEI 64 C I N(S)=0 N(R)=1 P=0
net 00810103|N>U SAPI 0 TEI 64 R RR N(R)=1 F=1
net 0281ff|N>U F4 Undefined 0281ff";

#[test]
fn octets_are_left_out(rt: HostRuntime) -> Result<(), Fail> {
    rows_hold(rt.alloc(), BRIEF, Style::Brief)
}

#[test]
fn messages_are_named(rt: HostRuntime) -> Result<(), Fail> {
    rows_hold(rt.alloc(), MESSAGES, Style::Named)
}
