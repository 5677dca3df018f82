//! Scenarios of `bus`.

/// One terminal, and two.
pub(crate) const SCENARIOS: &str = "\
lapd bus --terminals 1
# a check that is answered
ask 0 abCD
    up fcff030fabcd01ff
hear-up 0
    down feff030fabcd0281
hear 0 0 0001
    terminal 0 got 64
check 064
    down feff030f00000481
hear 1 0 5678
    up fcff030f56780581
hear-up 0
t201
    net in-use 64
leave 0
    terminal 0 gone 64

lapd bus --terminals 1
# messages are dropped, and the group is not checked
ask 0 0001
    up fcff030f000101ff
drop-up 0
drop-up 0
    refused U1 NothingThere
check 127
drop 0
    refused U1 NothingThere
leave 0
leave 1
    refused U1 NothingThere
hear 0 0 0001
    refused U1 NothingThere

lapd bus --terminals 1
# a place that is a number, and names nothing
# note

ask 18446744073709551615 0001
    refused U1 NothingThere

lapd bus
# two terminals ask
ask 0 1234
    up fcff030f123401ff
ask 1 5678
    up fcff030f567801ff
hear-up 0
    down feff030f12340281
hear 0 1 0001
hear 0 0 0002
    terminal 0 got 64
hear 0 0 0003
    refused U2 HeardBefore
hear-up 0
    down feff030f56780283
hear 1 1 0004
    terminal 1 got 65

lapd bus
# a check in vain
check 64
    down feff030f00000481
t201
    down feff030f00000481
t201
    net free 64
t201
    refused U1 NothingThere

lapd bus
# a terminal that nobody answers
ask 0 0001
    up fcff030f000101ff
t202 0 0002
    up fcff030f000201ff
t202 0 0003
    up fcff030f000301ff
t202 0 0004
    terminal 0 failed
t202 0 0005
    refused U1 NothingThere

lapd bus
# two terminals answer for one TEI
ask 0 0001
    up fcff030f000101ff
ask 1 0001
    up fcff030f000101ff
hear-up 0
    down feff030f00010281
hear 0 0 0002
    terminal 0 got 64
hear 0 1 0003
    terminal 1 got 64
check 64
    down feff030f00000481
hear 1 0 0004
    up fcff030f00040581
hear 1 1 0005
    up fcff030f00050581
hear-up 1
hear-up 1
t201
    down feff030f00000681
    down feff030f00000681
    net doubled 64
hear 2 0 0006
    terminal 0 gone 64
hear 3 1 0007
    terminal 1 gone 64

lapd bus
# nothing
";
