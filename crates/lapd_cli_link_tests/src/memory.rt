//! Failed allocations (docs/DEVELOPING.md).

use crate::run::LinkCommands;
use lapd_test_scenario::survives;
use std::test::Fail;

#[test]
fn scenarios_while_there_is_memory(rt: HostRuntime) -> Result<(), Fail> {
    survives(&rt, &LinkCommands, "lapd pair", MESSAGE)
}

#[test]
fn moves_are_drawn_while_there_is_memory(rt: HostRuntime) -> Result<(), Fail> {
    survives(&rt, &LinkCommands, "lapd pair --ladder", DRAWN_MOVES)
}

const DRAWN_MOVES: &str =
    "                 user |                                                | network
establish user
deliver net
           5 S0 A0 R0 |-- 0 64 SABME P=1 ----------------------------->| 7 S0 A0 R0
                      |  net established                               |
lose user 0
           5 S0 A0 R0 |          X-- 0 64 UA F=1 ----------------------| 7 S0 A0 R0
.
    user: state 5, given 0, received 0, acknowledged 0, dropped 0
    net: state 7, given 0, received 0, acknowledged 0, dropped 0
";

const MESSAGE: &str = "\
establish user
    U>N SAPI 0 TEI 64 C SABME P=1
deliver net
    N>U SAPI 0 TEI 64 R UA F=1
    net established
deliver user
    user confirmed
give user 0801
    U>N SAPI 0 TEI 64 C I N(S)=0 N(R)=0 P=0 info=0801
deliver net
    net data 0801
    N>U SAPI 0 TEI 64 R RR N(R)=1 F=0
lose user 0
settle
    settled 3 rest
.
    user: state 7, given 1, received 0, acknowledged 1, dropped 0
    net: state 7, given 0, received 1, acknowledged 0, dropped 0
";

#[test]
fn requests_while_there_is_memory(rt: HostRuntime) -> Result<(), Fail> {
    let words = "lapd answer --side user --k 3 --room 2";
    survives(&rt, &LinkCommands, words, REQUESTS)
}

const REQUESTS: &str = "\
establish
    send 00817f
    start T200
frame 008173
    confirmed
    stop T200
    start T203
give 0102
    send 008100000102
    stop T203
    start T200
unit 03
    send 00810303
give 0405
    send 008102000405
state
    state 7
";

#[test]
fn memory_runs_out(rt: HostRuntime) -> Result<(), Fail> {
    survives(&rt, &LinkCommands, "lapd answer --k 3 --room 2", FRAMES)
}

const FRAMES: &str = "\
state
    state 4
frame 008153
    send 00811f
frame 008153
    send 00811f
";
