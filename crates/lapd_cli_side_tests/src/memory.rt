//! Failed allocations (docs/DEVELOPING.md).

use crate::run::SideCommands;
use lapd_test_scenario::survives;
use std::test::Fail;

#[test]
fn sides_without_memory(rt: HostRuntime) -> Result<(), Fail> {
    survives(&rt, &SideCommands, "lapd net", NETWORK)?;
    survives(&rt, &SideCommands, "lapd user", USER)
}

const NETWORK: &str = "\
read
<0008<fcff030f123401ff
    U>N SAPI 63 TEI 127 C UI P=0 info=0f123401ff
>0008feff030f12340281
    N>U SAPI 63 TEI 127 C UI P=0 info=0f12340281
    tei given 64
read
<0003<00817f
    U>N SAPI 0 TEI 64 C SABME P=1
>0003008173
    N>U SAPI 0 TEI 64 R UA F=1
    0 64 established
tick 10000
>000402810101
    N>U SAPI 0 TEI 64 C RR N(R)=0 P=1
read
<
    refused S1 End
";

const USER: &str = "\
ask
>0008fcff030f619901ff
    U>N SAPI 63 TEI 127 C UI P=0 info=0f619901ff
establish 0 127
read
<0008<feff030f61990281
    N>U SAPI 63 TEI 127 C UI P=0 info=0f61990281
>000300817f
    U>N SAPI 0 TEI 64 C SABME P=1
    tei got 64
read
<0003<008173
    N>U SAPI 0 TEI 64 R UA F=1
    0 64 confirmed
give 0 64 0801
>0006008100000801
    U>N SAPI 0 TEI 64 C I N(S)=0 N(R)=0 P=0 info=0801
read
<0004<00810102
    N>U SAPI 0 TEI 64 R RR N(R)=1 F=0
    0 64 acknowledged 1
read
<0006<028100020902
    N>U SAPI 0 TEI 64 C I N(S)=0 N(R)=1 P=0 info=0902
>000402810102
    U>N SAPI 0 TEI 64 R RR N(R)=1 F=0
    0 64 data 0902
";
