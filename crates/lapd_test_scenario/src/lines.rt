//! Lines of each command: a command, a line of it, and what is wrong with it, if anything is.

/// Bad lines, and why they are bad.
pub(crate) const BAD: &str = "\
answer: frame 0 => frame HEX: an odd number of digits
answer: frame 0g => frame HEX: 'g' is not a hexadecimal digit
answer: give 0x1 => give HEX: 'x' is not a hexadecimal digit
answer: frame 00 01 => frame HEX: unexpected extra word '01'
answer: busy => busy on|off: on|off is missing
answer: busy of => busy on|off: on|off must be 'on' or 'off', not 'of'
answer: state 7 => state: unexpected extra word '7'
answer: t200  => the line ends with a space
answer:  t200 => the line begins with a space
answer: frame  00 => there are two spaces in a row in the line
answer: fram 00 => 'fram' is not a line of answer; valid lines: frame HEX, t200, t203, establish, release, give HEX, unit HEX, busy on|off, state
answer: 01234567890123456789012345678901 => '01234567890123456789012345678901' is not a line of answer; valid lines: frame HEX, t200, t203, establish, release, give HEX, unit HEX, busy on|off, state
answer: 012345678901234567890123456789012 => '01234567890123456789012345678901..' is not a line of answer; valid lines: frame HEX, t200, t203, establish, release, give HEX, unit HEX, busy on|off, state
pair: establish => establish SIDE: SIDE is missing
pair: give usr 01 => give SIDE HEX: SIDE must be 'user' or 'net', not 'usr'
pair: unit net 1 => unit SIDE HEX: an odd number of digits
pair: lose net => lose SIDE N: N is missing
pair: lose net -1 => lose SIDE N: N must be a number below 2^64 in decimal digits, not '-1'
pair: lose net 18446744073709551616 => lose SIDE N: N must be a number below 2^64 in decimal digits, not '18446744073709551616'
pair: lose net 0 1 => lose SIDE N: unexpected extra word '1'
pair: busy user => busy SIDE on|off: on|off is missing
pair: settle net => settle: unexpected extra word 'net'
pair: recover 1 => recover: unexpected extra word '1'
pair: state => 'state' is not a line of pair; valid lines: establish SIDE, release SIDE, give SIDE HEX, unit SIDE HEX, deliver SIDE, lose SIDE N, expire200 SIDE, expire203 SIDE, busy SIDE on|off, restart SIDE, settle, recover
loop: settle => 'settle' is not a line of loop; valid lines: establish SIDE, release SIDE, give SIDE HEX, unit SIDE HEX, deliver SIDE, lose SIDE N, expire200 SIDE, expire203 SIDE, busy SIDE on|off, restart SIDE
net: tick => tick MS: MS is missing
net: tick 0 => tick MS: MS must be a number from 1 to 3,600,000, not '0'
net: tick 3600001 => tick MS: MS must be a number from 1 to 3,600,000, not '3600001'
net: establish 0 => establish SAPI TEI: TEI is missing
net: establish 5 64 => establish SAPI TEI: SAPI must be 0, 16 or 63, not '5'
net: establish 256 64 => establish SAPI TEI: SAPI must be 0, 16 or 63, not '256'
net: check 128 => check TEI: TEI must be a number from 0 to 127, not '128'
net: ask => 'ask' is not a line of net; valid lines: read, tick MS, establish SAPI TEI, release SAPI TEI, give SAPI TEI HEX, unit SAPI TEI HEX, check TEI, check-all, remove-all
user: give 0 64 0g => give SAPI TEI HEX: 'g' is not a hexadecimal digit
user: check 64 => 'check' is not a line of user; valid lines: read, tick MS, establish SAPI TEI, release SAPI TEI, give SAPI TEI HEX, unit SAPI TEI HEX, ask
net: state => 'state' needs --clock real
net: run 5 => 'run' needs --clock real
net: wait => 'wait' needs --clock real
net: expect 0 64 established 5 => 'expect' needs --clock real
net: busy 0 64 on => 'busy' needs --clock real
user: stats => 'stats' needs --clock real
user: impair 5% => 'impair' needs --clock real
live net: tick 5 => 'tick' is not valid with --clock real, which runs by itself
live net: read 0 => read [MS]: MS must be a number from 1 to 3,600,000, not '0'
live net: run 1 1 => run [MS]: unexpected extra word '1'
live net: wait => wait MS: MS is missing
live net: expect => expect WORDS.. MS: WORDS.. is missing
live net: expect 5 => expect WORDS.. MS: MS is missing
live net: expect  5 => there are two spaces in a row in the line
live net: expect a b 0 => expect WORDS.. MS: MS must be a number from 1 to 3,600,000, not '0'
live net: establish 0 => establish SAPI TEI: TEI is missing
live net: give 0 64 080 => give SAPI TEI HEX: an odd number of digits
live net: busy 0 64 => busy SAPI TEI on|off: on|off is missing
live net: busy 0 64 of => busy SAPI TEI on|off: on|off must be 'on' or 'off', not 'of'
live net: state 0 => state [SAPI TEI]: TEI is missing
live net: state 1 64 => state [SAPI TEI]: SAPI must be 0, 16 or 63, not '1'
live net: state 0 64 1 => state [SAPI TEI]: unexpected extra word '1'
live net: impair => impair LOSS% [DELAY MS]: LOSS% is missing
live net: impair 101% => impair LOSS% [DELAY MS]: LOSS% must be a number from 0 to 100, not '101%'
live net: impair 1% x => impair LOSS% [DELAY MS]: DELAY MS must be a number from 0 to 3,600,000, not 'x'
live net: ask => 'ask' is not a line of net; valid lines: read [MS], run [MS], wait MS, expect WORDS.. MS, establish SAPI TEI, release SAPI TEI, give SAPI TEI HEX, unit SAPI TEI HEX, busy SAPI TEI on|off, check TEI, remove TEI, check-all, remove-all, state [SAPI TEI], stats, impair LOSS% [DELAY MS]
live user: give 0 64 0801 => give SAPI HEX: unexpected extra word '0801'
live user: state 1 => state [SAPI]: SAPI must be 0, 16 or 63, not '1'
live user: check 64 => 'check' is not a line of user; valid lines: read [MS], run [MS], wait MS, expect WORDS.. MS, establish SAPI, release SAPI, give SAPI HEX, unit SAPI HEX, busy SAPI on|off, ask, state [SAPI], stats, impair LOSS% [DELAY MS]
bus: ask 0 12 => ask T RI: RI must be four hexadecimal digits, not '12'
bus: ask x 1234 => ask T RI: T must be a number below 2^64 in decimal digits, not 'x'
bus: hear 0 1 => hear I T RI: RI is missing
bus: drop -0 => drop I: I must be a number below 2^64 in decimal digits, not '-0'
bus: up 0 => 'up' is not a line of bus; valid lines: ask T RI, t202 T RI, hear I T RI, drop I, hear-up I, drop-up I, check TEI, t201, leave T
bus: take 0 => 'take' needs --links
bus: restart-known => 'restart-known' needs --links
bus --links: take => take T: T is missing
bus --links: take net => take T: T must be a number below 2^64 in decimal digits, not 'net'
bus --links: lose 0 => lose T N: N is missing
bus --links: lose-up 0 -1 => lose-up T N: N must be a number below 2^64 in decimal digits, not '-1'
bus --links: give user 0 64 01 => give WHO SAPI TEI HEX: WHO must be 'net' or the number of a terminal, not 'user'
bus --links: give 0 64 0801 => give WHO SAPI TEI HEX: SAPI must be 0, 16 or 63, not '64'
bus --links: busy net 0 64 => busy WHO SAPI TEI on|off: on|off is missing
bus --links: ask 0 1234 => ask T: unexpected extra word '1234'
bus --links: join 0 127 => join T [TEI]: TEI must be a number from 0 to 126, not '127'
bus --links: join 0 5 6 => join T [TEI]: unexpected extra word '6'
bus --links: tick 3600001 => tick MS: MS must be a number from 1 to 3,600,000, not '3600001'
bus --links: check 128 => check TEI: TEI must be a number from 0 to 127, not '128'
bus --links: t201 => 't201' is not a line of bus --links; valid lines: take T, take-up T, lose T N, lose-up T N, settle, tick MS, establish WHO SAPI TEI, release WHO SAPI TEI, give WHO SAPI TEI HEX, unit WHO SAPI TEI HEX, busy WHO SAPI TEI on|off, ask T, check TEI, remove TEI, check-all, remove-all, join T [TEI], restart, restart-known
decode: net 0 => net HEX: an odd number of digits
decode: 00 => '00' is not a line of decode; valid lines: user HEX, net HEX";

/// Valid lines, at least one of each form.
pub(crate) const GOOD: &str = "\
answer: frame 00817f
answer: frame
answer: t200
answer: t203
answer: establish
answer: release
answer: give aB
answer: unit
answer: busy on
answer: busy off
answer: state
answer: # frame 0
answer: 
pair: establish user
pair: release net
pair: give user 0801
pair: give net
pair: unit net FF
pair: deliver user
pair: lose user 18446744073709551615
pair: expire200 net
pair: expire203 user
pair: busy net on
pair: busy user off
pair: restart net
pair: settle
pair: recover
loop: establish net
loop: release user
loop: give net 01
loop: unit user
loop: deliver net
loop: lose net 000
loop: expire200 user
loop: expire203 net
loop: busy user on
loop: restart user
net: read
net: tick 1
net: tick 0003600000
net: establish 0 64
net: release 16 127
net: give 63 0 01
net: unit 00 127
net: check 064
user: read
user: tick 3600000
user: establish 0 64
user: release 63 1
user: give 0 64
user: unit 16 127 0102
user: ask
live net: read
live net: read 3600000
live net: run
live net: run 1
live net: wait 5
live net: expect 0 64 established 100
live net: expect  é  5
live net: establish 0 64
live net: release 0 64
live net: give 0 64 0801
live net: unit 0 127
live net: busy 0 64 on
live net: check 64
live net: state
live net: state 0 64
live net: stats
live net: impair 20%
live net: impair 0 3600000
live user: read 1
live user: run
live user: wait 1
live user: expect \x1b 1
live user: establish 0
live user: release 16
live user: give 0
live user: unit 0 01
live user: busy 0 off
live user: ask
live user: state
live user: state 16
live user: stats
live user: impair 100% 0
bus: ask 0 12aB
bus: t202 18446744073709551615 0000
bus: hear 0 1 ffff
bus: drop 0
bus: hear-up 1
bus: drop-up 00
bus: check 127
bus: t201
bus: leave 1
bus --links: take 0
bus --links: take-up 18446744073709551615
bus --links: lose 1 0
bus --links: lose-up 127 00
bus --links: settle
bus --links: tick 3600000
bus --links: establish 0 0 127
bus --links: release net 16 64
bus --links: give 1 0 0 0801
bus --links: unit net 0 127
bus --links: busy 1 0 0 off
bus --links: ask 1
bus --links: check 127
bus --links: remove 64
bus --links: check-all
bus --links: remove-all
bus --links: join 0
bus --links: join 1 126
bus --links: restart
bus --links: restart-known
decode: user
decode: net 00817f";

/// Typed lines, and their tidied form.
pub(crate) const TYPED: &str = "\
answer:   frame 00 81 7f  => frame 00817f
answer: frame 0x00817f => frame 00817f
answer: frame 00:81:7F => frame 00817F
answer: frame  00 0X81:0x7f => frame 00817f
answer: frame => frame
answer: frame 0x => frame 0x
answer: frame :  : => frame :  :
answer: frame 008 17f => frame 00817f
answer: busy  on  => busy  on
answer: fram 0x00 81 => fram 0x00 81
answer:   # note  => # note
answer:   => 
answer:  help => help
decode: user 00 81 7f => user 00817f
net: give 0 64 08:01 => give 0 64 0801
net: give 0 64 0x08 01 => give 0 64 0801
net: give 0x0 64 08 01 => give 0x0 64 0801
net: give 0 => give 0
net: check 0x40 => check 0x40
bus --links: give net 0 64 08 01 => give net 0 64 0801
live net:  unit 0 127 0x01 => unit 0 127 01
live net: expect 0x 0 :  5 => expect 0x 0 :  5
live user: give 0 08 01 => give 0 0801
live user: state  => state";

/// Commands, and lines that are not valid for them, separated by bars.
pub(crate) const NONE: &str = "\
answer: frame |frame 0|frame 00 81|frame  00817f|frame 00817g|frames|Frame 00817f| state|state |state  |state 1|\
    state\r|t200 1|t203 1|t201|t202|T200|establish user|release user|give 0|give |give 01 02|give user 01|unit 0|unit 0x|\
    unit 01 02|busy|busy |busy maybe|busy On|busy on off|busy  off|settle|recover
bus: ask 18446744073709551616 0001|ask 0|ask 0 1|ask 0 00001|ask 0 000g|ask +0 0001|ask  0 0001|ask 0 0001 |\
    \x20ask 0 0001|ASK 0 0001|ask 0 0001 1|hear 0 0|drop|drop x|check 128|check 999999999999999999999|t201 0|t203|leave|\
    state
bus --links: take -1|take net|take 0 0|Take 0|take  0|take-up|take-up x|lose 0|lose net 0|lose 0 0 0|lose-up|settle 1|tick 0|tick|check|\
    establish 0 0|establish Net 0 64|establish 0 1 64|establish user 0 64|release 0 0 128|give 0 0 0 0|unit net 0 127 0g|\
    busy 1 0 0 ON|busy 1 0 0|ask|ask net|ask 0 0001|check 64 64|remove|remove 128|check-all 1|join|join net|join 0 127|join 0 5 6|\
    restart 0|restart known|restart-known 64|leave 0|hear 0 0 0001|read|state
pair: establish|establish user net|establish users|establish User|establish network| establish user|establish user |\
    establish  user|deliver|deliver net 0|lose net|lose net |lose net +1|lose net -1|lose net 1a|lose net 0x1|lose net 1 1|\
    lose net 18446744073709551616|lose net 99999999999999999999999999999999999999999|lose 0 net|expire user 200|expire200|\
    expire201 user|t200 user|busy user|busy on user|busy user On|busy user on off|give 01 user|give user 0|give user 01 02|\
    unit net 0g|restart|restart user net|settle | settle|settle user|settle 9|recover |recovered|settles|Settle|state|frame user 00817f
live net: read |read 3600001|read -1|run 0|run x|wait|wait 0|wait 1 1|expect|expect |expect 5|expect  5|expect a|\
    expect a 0|expect a 3600001|expect a  5 |state 0|state 0 128|state 0 64 |state  0 64|stats 1|ask|establish 0|give 0 0801|\
    check|Read|busy 0 64|busy 0 on|busy 0 64 On|busy 0 64 on off|busy 1 64 on|impair|impair |impair %|impair 101|impair 1%%|\
    impair %1|impair 1 3600001|impair 1 2 3|impair -1|tick 5|settle
live user: tick 5|check 64|establish 0 64|give 0 64 0801|give 0 080|state 0 64|ask 1|release|establish 1|busy 0 64 on|\
    busy 0|busy on|expect 5|impair
net, user: read 1|read | read|Read|tick|tick |tick 0|tick 3600001|tick 18446744073709551617|tick -1|tick +1|tick 0x1|\
    tick 1 1|tick  1|check|check 128|check 256|check 384|check -1|check 64 64|check 64 |ask 64|ask |establish|establish 0|\
    establish 0 |establish 1 64|establish 256 64|establish 62 64|establish 0 128|establish 0 320|establish 0 64 1|\
    establish  0 64|establish user|release 0|release 15 64|release 0 64 |give|give 0|give 0801|give 0 64 080|give 0 64 0g|\
    give 0 64 08 01|give 0 64 |give 0 128 01|unit 0|unit 17 64 01|unit 0 64 0|busy 0 64 on|restart 0 64|deliver net|settle|\
    state|t200|frame 00817f|\t|read\r";
