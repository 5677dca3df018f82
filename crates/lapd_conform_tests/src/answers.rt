//! Tests of the scripts of `lapd answer` that a report has.

use crate::judge::Bench;
use lapd_cli_conform::push_answer_script;
use lapd_conform::Stack;
use lapd_sides::Side;
use lapd_test_text::Text;
use std::test::Fail;

/// A dialogue with a network side, as the tests of the judge write it.
const DIALOGUE: &str =
    "100>00817f 110<008173 120?give 130<028100000102 1200<02810101 1300>00810102 1310<008163";

/// The script of it. T200 expires 1 s after the request.
const SCRIPT: &str = "\
# lapd answer --side net --tei 64 --k 7 --n200 3 <7-V-20.answer
# It prints what our link does in the place of the stack.
# 0 ms: U>N SAPI 0 TEI 64 C SABME P=1
frame 00817f
# 10 ms: the stack sent N>U SAPI 0 TEI 64 R UA F=1
# 20 ms
give 0102
# 30 ms: the stack sent N>U SAPI 0 TEI 64 C I N(S)=0 N(R)=0 P=0 info=0102
# 1020 ms
t200
# 1100 ms: the stack sent N>U SAPI 0 TEI 64 C RR N(R)=0 P=1
# 1200 ms: U>N SAPI 0 TEI 64 C RR N(R)=1 P=0
frame 00810102
# 1210 ms: the stack sent N>U SAPI 0 TEI 64 R UA F=0
";

#[test]
fn a_script_has_the_frames_and_the_timers(rt: HostRuntime) -> Result<(), Fail> {
    let bench = Bench { alloc: rt.alloc() };
    let mut made = Text::new();
    if let Ok(happenings) = bench.happenings(DIALOGUE) {
        let mut text = Vec::new(rt.alloc());
        let stack = Stack::new(Side::Network);
        let pushed = push_answer_script(
            rt.alloc(),
            &mut text,
            &stack,
            "7-V-20",
            happenings.as_slice(),
        );
        if pushed.is_ok() {
            made.put_octets(text.as_slice());
        }
    }
    let made = made.as_str();
    assert_eq!(rt; made, SCRIPT);
    Ok(())
}
