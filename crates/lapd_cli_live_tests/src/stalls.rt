//! The program is stopped for longer than its timers run, or a writer blocks for that long: no
//! timer may expire whose answer has arrived meanwhile. And a flood of frames must not stop the
//! timers.

use crate::made::{Arrivals, Input, Made, Trouble};
use crate::scenario_run::{Who, all_rows, scenario};
use crate::typed::{Keys, Reads};
use lapd_cli_live::{LineStyle, Style};
use lapd_test_text::wants;
use std::alloc::{AllocError, Global};
use std::test::Fail;

const ROWS: &str = r#"
=== a wait stalls, the UA has arrived, and T200 does not expire (Q.921 5.5.1.3)
net file done
5 stall 3000
10 028173
---
establish 0 64
run 5000
state 0 64
---
0 N>U SAPI 0 TEI 64 C SABME P=1
3005 U>N SAPI 0 TEI 64 R UA F=1
3005 0 64 confirmed
5000 0 64 state 7 V(S)=0 V(A)=0 V(R)=0 RC=0 queue=0 T203=8005
=== a send stalls, and the UA has arrived
net file done
0 stall 3000
10 028173
---
establish 0 64
run 2000
---
0 N>U SAPI 0 TEI 64 C SABME P=1
3000 U>N SAPI 0 TEI 64 R UA F=1
3000 0 64 confirmed
=== a send stalls, and the next line finds the UA
net file done
0 stall 3000
10 028173
---
establish 0 64
release 0 64
---
0 N>U SAPI 0 TEI 64 C SABME P=1
3000 U>N SAPI 0 TEI 64 R UA F=1
3000 0 64 confirmed
3000 N>U SAPI 0 TEI 64 C DISC P=1
=== the UA has not arrived: T200 expires once, however long the stall was
net file done
5 stall 3000
3100 028173
---
establish 0 64
run 4000
---
0 N>U SAPI 0 TEI 64 C SABME P=1
3005 N>U SAPI 0 TEI 64 C SABME P=1
3100 U>N SAPI 0 TEI 64 R UA F=1
3100 0 64 confirmed
=== an enquiry is answered during a stall (Q.921 5.6.7)
net file done
0 00817f
10001 stall 3000
10010 02810101
---
run 15000
state 0 64
---
0 U>N SAPI 0 TEI 64 C SABME P=1
0 N>U SAPI 0 TEI 64 R UA F=1
0 0 64 established
10000 N>U SAPI 0 TEI 64 C RR N(R)=0 P=1
13001 U>N SAPI 0 TEI 64 R RR N(R)=0 F=1
15000 0 64 state 7 V(S)=0 V(A)=0 V(R)=0 RC=0 queue=0 T203=8001
=== a message is acknowledged during a stall, and no enquiry follows (Q.921 5.6.3.2)
net file done
0 00817f
5 stall 3000
10 02810102
---
give 0 64 0801
run 5000
---
0 U>N SAPI 0 TEI 64 C SABME P=1
0 N>U SAPI 0 TEI 64 R UA F=1
0 0 64 established
0 N>U SAPI 0 TEI 64 C I N(S)=0 N(R)=0 P=0 info=0801
3005 U>N SAPI 0 TEI 64 R RR N(R)=1 F=0
3005 0 64 acknowledged 1
=== a TEI is assigned during a stall, and no second one is requested (Q.921 5.3.2)
user file done
5 stall 3000
10 feff030f61990281
3010 008173
---
establish 0
run 4000
---
0 U>N SAPI 63 TEI 127 C UI P=0 info=0f619901ff
3005 N>U SAPI 63 TEI 127 C UI P=0 info=0f61990281
3005 U>N SAPI 0 TEI 64 C SABME P=1
3005 tei got 64
3010 N>U SAPI 0 TEI 64 R UA F=1
3010 0 64 confirmed
=== a check of a TEI is answered during a stall, and the TEI is not removed (Q.921 5.3.3.2)
net file done
5 stall 3000
10 fcff030f12340581
---
check 64
run 5000
---
0 N>U SAPI 63 TEI 127 C UI P=0 info=0f00000481
3005 U>N SAPI 63 TEI 127 C UI P=0 info=0f12340581
3005 tei in-use 64
=== two links are due at the same moment, and both are answered during a stall
net file done
5 stall 3000
10 028173
11 428173
---
establish 0 64
establish 16 64
run 5000
---
0 N>U SAPI 0 TEI 64 C SABME P=1
0 N>U SAPI 16 TEI 64 C SABME P=1
3005 U>N SAPI 0 TEI 64 R UA F=1
3005 0 64 confirmed
3005 U>N SAPI 16 TEI 64 R UA F=1
3005 16 64 confirmed
=== of two links that are due, only the one expires that was not answered
net file done
5 stall 3000
10 428173
3500 028173
---
establish 0 64
establish 16 64
run 4000
---
0 N>U SAPI 0 TEI 64 C SABME P=1
0 N>U SAPI 16 TEI 64 C SABME P=1
3005 U>N SAPI 16 TEI 64 R UA F=1
3005 16 64 confirmed
3005 N>U SAPI 0 TEI 64 C SABME P=1
3500 U>N SAPI 0 TEI 64 R UA F=1
3500 0 64 confirmed
=== a line that is read after a stall finds what had arrived before
net session done
5 line
990 stall 3000
995 028173
996 line
4000 close
---
establish 0 64
|release 0 64
---
5 N>U SAPI 0 TEI 64 C SABME P=1
3990 U>N SAPI 0 TEI 64 R UA F=1
3990 0 64 confirmed
3990 N>U SAPI 0 TEI 64 C DISC P=1
---
greet
=== a flood of frames that are discarded: T200 expires after 4,096 of them at most
net file quiet done
1 flood 000000
---
establish 0 64
run 5000
stats
---
12288 sent frames=4 octets=12 SABME=4 again=0
12288 received frames=12288 octets=36864 other=12288 discarded=12288
12288 reports
16384 0 64 report G
16384 0 64 released
=== with 127 connections T200 expires after 256 of them at most
bus file quiet done
1 flood 000000
---
establish 0 64
run 5000
stats
---
4096 0 64 report G
4096 0 64 released
5376 sent frames=4 octets=12 SABME=4 again=0
5376 received frames=5376 octets=16128 other=5376 discarded=5376
5376 reports G=1
"#;

/// The immediate answers of a terminal.
const BY_USER: &str = "\
02817f 028173
42817f 428173
028100000801 02810102
428153 428173
02810101 02810103
feff030f00000481 fcff030f12340581
";

/// A dialogue of the network side, in which each frame is answered immediately.
const OF_NET: &str = "\
establish 0 64
establish 16 64
give 0 64 0801
check 64
run 1500
release 16 64
run 10500
run 1
";

/// The immediate answers of the network side.
const BY_NET: &str = "\
fcff030f619901ff feff030f61990281
00817f 008173
008100000801 00810102
00810101 00810103
";

/// A dialogue of a terminal.
const OF_USER: &str = "\
establish 0
expect 0 64 confirmed 5000
give 0 0801
expect 0 64 acknowledged 5000
run 10500
run 1
";

const STYLE: Style = Style {
    time: false,
    quiet: false,
    lines: LineStyle::Text,
};

/// The printed lines without their times, and the number of calls of the surroundings.
fn printed(
    alloc: Global,
    who: Who,
    trouble: Trouble,
) -> Result<Option<(Vec<u8>, u64)>, AllocError> {
    let (input, answers) = match who {
        Who::Net | Who::Bus => (OF_NET, BY_USER),
        Who::User => (OF_USER, BY_NET),
    };
    let reads = Reads::new();
    let keys = Keys::new(input, &reads);
    let events = "100000 close\n";
    let arrivals = Arrivals { events, answers };
    let made = Made::new(alloc, arrivals, Input::File, trouble);
    let scenario_run = scenario(alloc, who, STYLE, made, keys, false)?;
    match scenario_run.ended {
        Ok(()) => Ok(Some((scenario_run.printed, scenario_run.made.calls))),
        Err(_) => Ok(None),
    }
}

/// Fails unless the output is the same if the program is stopped before any one call.
fn is_steady(alloc: Global, name: &str, who: Who) -> Result<(), Fail> {
    let Some((wanted, calls)) = printed(alloc, who, Trouble::Never)? else {
        return wants(false, name, "the script fails");
    };
    let some = 40 < calls && calls < 200;
    wants(some, name, "it has another number of calls")?;
    for call in 1..=calls {
        let Some((text, _calls)) = printed(alloc, who, Trouble::StallsAt(call))? else {
            return wants(false, name, "a stall ends the script");
        };
        if text.as_slice() != wanted.as_slice() {
            let text = String::from_utf8_lossy(alloc, text.as_slice())?;
            let text = text.as_str();
            return Err(Fail::new(format_args!("{name}, a stall before call {call}:\n{text}")));
        }
    }
    Ok(())
}

/// The rows. They are long, so only this function names them.
fn rows() -> &'static str {
    ROWS
}

#[test]
fn no_timer_expires_early(rt: HostRuntime) -> Result<(), Fail> {
    all_rows(rt.alloc(), rows())?;
    is_steady(rt.alloc(), "net", Who::Net)?;
    is_steady(rt.alloc(), "user", Who::User)
}
