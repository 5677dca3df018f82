//! Scenarios of `answer`.

/// Most are for a link with SAPI 0 and TEI 64.
pub(crate) const SCENARIOS: &str = "\
lapd answer
# a link comes and goes
frame 00817f
    send 008173
    established
    start T203
frame 008153
    send 008173
    released
    stop T203
frame 008153
    send 00811f

lapd answer
# a release in state 4
frame 008153
    send 00811f

lapd answer
# established twice
frame 00817f
    send 008173
    established
    start T203
frame 00817f
    send 008173
    report F
    start T203
state
    state 7

lapd answer
# frames that are none, and one of another link
frame
    discarded F1 TooShort
frame 04817f
    discarded F3 SapiNotServed
frame 00837f
    not-mine
frame 00817f00
    report M
state
    state 4

lapd answer
# faults of this link and of another
frame 008177
    report L
frame 00837700
    not-mine

lapd answer
# a bad address, and a report
frame 01817F
    discarded F2 BadAddress
frame 02817f
    report L

lapd answer
# responses in state 4
frame 028173
    report C
frame 028163
    report D

lapd answer
# an odd number of digits
state
    state 4
frame 0
! line 3: bad command

lapd answer
# a space behind a word

state
    state 4
#
state 
! line 5: bad command

lapd answer
# a busy that is neither on nor off
t200
busy on

busy maybe
! line 5: bad command

lapd answer
# nothing


lapd answer --side user
# the user side is established
frame 02817f
    send 028173
    established
    start T203

lapd answer --sapi 16 --tei 0 --k 3
# a SABME at the link of SAPI 16 and TEI 0 (Q.921 3.3.3, 3.3.4)
frame 40017f
    send 400173
    established
    start T203

lapd answer --side user --k 3 --room 2
# two messages, an enquiry, and both are sent again
establish
    send 00817f
    start T200
frame 008173
    confirmed
    stop T200
    start T203
give 01
    send 0081000001
    stop T203
    start T200
give 02
    send 0081020002
t200
    send 00810101
    start T200
state
    state 8
frame 00810900
frame 00810101
    stop T200
    start T203
    send 0081000001
    stop T203
    start T200
    send 0081020002

lapd answer --side user --k 3 --room 2
# N(R) is not valid
establish
    send 00817f
    start T200
frame 008173
    confirmed
    stop T200
    start T203
frame 00810104
    report J
    send 00817f
    stop T203
    start T200

lapd answer --side user --k 3 --room 2
# no answer to an enquiry
establish
    send 00817f
    start T200
frame 008173
    confirmed
    stop T200
    start T203
t203
    send 00810101
    start T200
t200
    send 00810101
    start T200
t200
    send 00810101
    start T200
t200
    send 00810101
    start T200
t200
    report I
    send 00817f
    start T200

lapd answer --side user --k 3 --room 2
# unit data passes in state 4
unit 0a
    send 0081030a
frame 02810305
    unit 05
unit
    send 008103
frame 028103
    unit
state
    state 4

lapd answer --side user --k 3 --room 2
# the release waits for the answer to the SABME
establish
    send 00817f
    start T200
release
frame 008173
    send 008153
    start T200
frame 008173
    stop T200
    release-confirmed

lapd answer --side user --k 3 --room 2
# no answer to the SABME
establish
    send 00817f
    start T200
t200
    send 00817f
    start T200
t200
    send 00817f
    start T200
t200
    send 00817f
    start T200
t200
    report G
    released
state
    state 4
t200

lapd answer --side user --k 3 --room 2
# the peer is busy, and a third message finds no room
establish
    send 00817f
    start T200
frame 008173
    confirmed
    stop T200
    start T203
frame 00810500
    stop T203
    start T200
give 01
give
give 03
    refused L2 QueueFull
frame 00810100
    stop T200
    start T203
    send 0081000001
    stop T203
    start T200
    send 00810200

lapd answer --side user --k 3 --room 2
# a message of no octets comes
frame 02817f
    send 028173
    established
    start T203
frame 02810000
    data
    start T203
    send 02810102
frame 02810200aB
    data ab
    start T203
    send 02810104

lapd answer --n200 1
# what state 4 refuses, and what state 5 does
give 01
    refused L1 NotEstablished
release
    release-confirmed
t203
busy on
establish
    send 02817f
    start T200
give 01
    refused L5 LayerThreeEstablishing
release
give 01
    refused L4 Releasing
establish
    refused L4 Releasing
state
    state 5

lapd answer --n200 1
# the second message goes out when the first is acknowledged
frame 00817f
    send 008173
    established
    start T203
give 0a
    send 028100000a
    stop T203
    start T200
give 0B0C
frame 02810102
    acknowledged 1
    stop T200
    start T203
    send 028102000b0c
    stop T203
    start T200

lapd answer --n200 1
# a message is dropped by the release
frame 00817f
    send 008173
    established
    start T203
give 0a
    send 028100000a
    stop T203
    start T200
release
    dropped 1
    send 028153
    start T200
establish
    refused L4 Releasing
state
    state 6
frame 028173
    stop T200
    release-confirmed

lapd answer --n200 1
# this end is busy
frame 00817f
    send 008173
    established
    start T203
busy on
    send 00810500
busy on
frame 00810001aa
    send 00810501
    start T203
busy off
    send 00810100
busy off

lapd answer --n200 1
# the SABME is sent again once
establish
    send 02817f
    start T200
t200
    send 02817f
    start T200
t200
    report G
    released";

/// Long frames. 260 octets of information are accepted, and one more is reported. 261 octets are
/// refused in every state, and 260 octets of unit data are sent.
pub(crate) const LONG: &str = "\
lapd answer
# long frames
frame 00817f
    send 008173
    established
    start T203
frame 00810000MOST
    data MOST
    start T203
    send 00810102
frame 00810200MOSTaa
    report O
    send 02817f
    stop T203
    start T200
state
    state 5

lapd answer
# state 4
give MOSTaa
    refused L3 TooLong
unit MOSTaa
    refused L3 TooLong
unit MOST
    send 028103MOST
state
    state 4

lapd answer
# state 5
establish
    send 02817f
    start T200
give MOSTaa
    refused L3 TooLong
unit MOSTaa
    refused L3 TooLong
unit MOST
    send 028103MOST
state
    state 5

lapd answer
# state 6
establish
    send 02817f
    start T200
release
frame 028173
    send 028153
    start T200
give MOSTaa
    refused L3 TooLong
unit MOSTaa
    refused L3 TooLong
unit MOST
    send 028103MOST
state
    state 6

lapd answer
# state 7
frame 00817f
    send 008173
    established
    start T203
give MOSTaa
    refused L3 TooLong
unit MOSTaa
    refused L3 TooLong
unit MOST
    send 028103MOST
state
    state 7

lapd answer
# state 8
frame 00817f
    send 008173
    established
    start T203
t203
    send 02810101
    start T200
give MOSTaa
    refused L3 TooLong
unit MOSTaa
    refused L3 TooLong
unit MOST
    send 028103MOST
state
    state 8

lapd answer
# a line of more than 20,000 octets
frame 008303MOSTMOSTMOSTMOSTMOSTMOSTMOSTMOSTMOSTMOSTMOSTMOSTMOST\
MOSTMOSTMOSTMOSTMOSTMOSTMOSTMOSTMOSTMOSTMOSTMOSTMOST\
MOSTMOSTMOSTMOSTMOSTMOSTMOSTMOSTMOSTMOSTMOSTMOSTMOST
    not-mine
state
    state 4";
