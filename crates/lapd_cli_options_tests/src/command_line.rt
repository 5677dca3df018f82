//! The meaning of the program's words, and the report of invalid words.

mod words;

use lapd_cli_help::help;
use lapd_cli_options::{
    CaseChoice, Chosen, Clock, Color, Conformance, DecodeOptions, Durations, Filter, FollowOptions,
    Interface, Invocation, Job, NoInvocation, Params, PrintedLayout, PrintedTime, Recovery, Side,
    Stimuli, parse_words,
};
use lapd_cli_script::{PortFault, ScriptFault};
use lapd_timers::Timer;
use std::alloc::Global;
use std::test::Fail;

/// Words, separated by spaces or bars, and their meaning, in which `~` means a line feed. The
/// meaning lists:
///
/// - for a link: the window, N200, the capacity of the I queue and the recovery;
/// - for an interface: the same for SAPI 0 and for SAPI 16, T200 to T203, whether SAPI 16 is
///   served, the seed (`-` without one), and the TEIs;
/// - for `decode`: whether links are followed and their window, the time, the count, the sender,
///   whether SAPIs are not checked, the colors, the frames that are printed if not all are, and
///   the files;
/// - for a clock that is not named: `open`;
/// - for the real clock: the number of terminals, the file, the address of GSMTAP and the other
///   flags.
const ROWS: &str = "\
lapd => answer net 0 64 1 3 512 enquiry
lapd answer => answer net 0 64 1 3 512 enquiry
lapd answer --side net => answer net 0 64 1 3 512 enquiry
lapd answer --side=user => answer user 0 64 1 3 512 enquiry
lapd answer --side user --k 3 => answer user 0 64 3 3 512 enquiry
lapd answer --k 127 --n200 100 --room 1024 => answer net 0 64 127 100 1024 enquiry
lapd answer --room=1 --n200=1 --k=1 --side=user => answer user 0 64 1 1 1 enquiry
lapd answer --n200 7 => answer net 0 64 1 7 512 enquiry
lapd answer --room 0002 => answer net 0 64 1 3 2 enquiry
lapd answer --recovery last => answer net 0 64 1 3 512 last
lapd decode => decode
lapd bus => bus 2
lapd bus --terminals 1 => bus 1
lapd bus --terminals=0127 => bus 127
lapd bus --links => bus 2 links
lapd bus --ladder --terminals 3 --links => bus 3 links ladder
lapd bus --strict --links => bus 2 links strict
lapd pair => pair 1 3 512 enquiry 1 3 512 enquiry
lapd pair --k 7 --n200 2 --room 9 --recovery-user last => pair 7 2 9 last 7 2 9 enquiry
lapd pair --recovery-net=last --recovery-user=enquiry => pair 1 3 512 enquiry 1 3 512 last
lapd pair --ladder --k 7 => pair 7 3 512 enquiry 7 3 512 enquiry ladder
lapd loop => loop 1 3 512 enquiry 1 3 512 enquiry
lapd loop --k=7 --n200=2 --room=9 --recovery-net=last => loop 7 2 9 enquiry 7 2 9 last
lapd net --listen 127.0.0.1:7000 => net 1 3 512 enquiry 3 3 512 enquiry 1000 1000 2000 10000 with-16 - at 127.0.0.1:7000 open
lapd|user|--connect=no address:65535 => user 1 3 512 enquiry 3 3 512 enquiry 1000 1000 2000 10000 with-16 - at no address:65535 open
lapd answer --strict --side user => answer user 0 64 1 3 512 enquiry strict
lapd net --listen=[::1]:0 --strict => net 1 3 512 enquiry 3 3 512 enquiry 1000 1000 2000 10000 with-16 - at [::1]:0 open strict
lapd decode --strict => decode strict
lapd net --listen a:1 => net 1 3 512 enquiry 3 3 512 enquiry 1000 1000 2000 10000 with-16 - at a:1 open
lapd user --connect a:1 --clock script => user 1 3 512 enquiry 3 3 512 enquiry 1000 1000 2000 10000 with-16 - at a:1
lapd net --listen a:1 --clock real => net 1 3 512 enquiry 3 3 512 enquiry 1000 1000 2000 10000 with-16 - at a:1 real 1 - -
lapd user --clock=real --time --connect=a:1 => user 1 3 512 enquiry 3 3 512 enquiry 1000 1000 2000 10000 with-16 - at a:1 real 1 - - time
lapd user --connect=a:1 --quiet --clock=real => user 1 3 512 enquiry 3 3 512 enquiry 1000 1000 2000 10000 with-16 - at a:1 real 1 - - quiet
lapd net --listen=a:1 --clock=real --terminals=127 --pcap line.pcap --gsmtap b:4729 => net 1 3 512 enquiry 3 3 512 enquiry 1000 1000 2000 10000 with-16 - at a:1 real 127 line.pcap b:4729
lapd net --listen=a:1 --clock=real --ladder rungs --pcap=line.pcap => net 1 3 512 enquiry 3 3 512 enquiry 1000 1000 2000 10000 with-16 - at a:1 real 1 line.pcap - ladder rungs
lapd user --ladder=/dev/stdout --connect=a:1 --clock=real --quiet => user 1 3 512 enquiry 3 3 512 enquiry 1000 1000 2000 10000 with-16 - at a:1 real 1 - - quiet ladder /dev/stdout
lapd net --listen=a:1 --clock=real --serve => net 1 3 512 enquiry 3 3 512 enquiry 1000 1000 2000 10000 with-16 - at a:1 real 1 - - serve
lapd net --listen=a:1 --clock=real --keep --audit=5000 --no-ties --idle-limit 9 => net 1 3 512 enquiry 3 3 512 enquiry 1000 1000 2000 10000 with-16 - at a:1 real 1 - - keep idle 9 audit 5000 no-ties
lapd user --connect=a:1 --clock=real --idle-limit 9 => user 1 3 512 enquiry 3 3 512 enquiry 1000 1000 2000 10000 with-16 - at a:1 real 1 - - idle 9
lapd net --listen=a:1 --clock=real --no-audit => net 1 3 512 enquiry 3 3 512 enquiry 1000 1000 2000 10000 with-16 - at a:1 real 1 - - no-audit
lapd net --listen=a:1 --clear --clock=real => net 1 3 512 enquiry 3 3 512 enquiry 1000 1000 2000 10000 with-16 - at a:1 real 1 - - clear
lapd user --keep --connect=a:1 --clock=real => user 1 3 512 enquiry 3 3 512 enquiry 1000 1000 2000 10000 with-16 - at a:1 real 1 - - keep
lapd net --listen=a:1 --clock=real --terminals=2 --idle-limit 3600000 => net 1 3 512 enquiry 3 3 512 enquiry 1000 1000 2000 10000 with-16 - at a:1 real 2 - - idle 3600000
lapd net --listen=a:1 => net 1 3 512 enquiry 3 3 512 enquiry 1000 1000 2000 10000 with-16 - at a:1 open
lapd net --listen=a:1 --json => net 1 3 512 enquiry 3 3 512 enquiry 1000 1000 2000 10000 with-16 - at a:1 open json
lapd user --json --connect=a:1 --clock=real => user 1 3 512 enquiry 3 3 512 enquiry 1000 1000 2000 10000 with-16 - at a:1 real 1 - - json
lapd decode --json => decode
lapd decode --follow => decode follow
lapd decode --follow --strict => decode follow strict
lapd decode --k 127 --follow => decode follow 127
lapd decode --ladder => decode follow ladder
lapd decode --ladder --follow --k 7 => decode follow 7 ladder
lapd decode --ladder --pcap a --sender user => decode follow ladder from user
lapd decode --ladder --pcap a --time absolute => decode follow ladder absolute
lapd decode --svg b => decode follow picture count 10000
lapd decode --pcap a --svg=b --count 2 => decode follow picture count 2
lapd decode --html b => decode follow page count 10000
lapd decode a --html=b --count 2 --k 7 => decode follow 7 page count 2 of a
lapd decode --write b a => decode capture of a
lapd decode --write=- --violations --tei 64 a => decode follow capture tei 64 isu polls violations of a
lapd decode --calls a b => decode calls of a b
lapd decode --summary a => decode follow  polls of a
lapd decode --call 32767 a => decode isu polls call 32767 of a
lapd decode --violations --names --count 1 => decode follow count 1 isu polls violations
lapd decode a => decode of a
lapd decode a - --follow b => decode follow of a - b
lapd decode --time delta a --svg b => decode follow picture delta count 10000 of a
lapd decode -- --follow => decode of --follow
lapd decode --time none --kinds i,s,u => decode
lapd decode --time absolute --pcap a => decode absolute
lapd decode --time local a => decode local of a
lapd decode --time utc --loose => decode utc
lapd decode --time=relative --pcap=a => decode relative
lapd decode --time day a => decode day of a
lapd decode --no-octets --names --follow => decode follow no-octets
lapd decode --time delta --pcap - --count 1 => decode delta count 1
lapd decode --count 18446744073709551615 => decode count 18446744073709551615
lapd decode --sapi 63 --tei 127 => decode sapi 63 tei 127 isu polls
lapd decode --sapi=0 --kinds=s => decode sapi 0 s polls
lapd decode --tei=0 --kinds i,u --no-polls => decode tei 0 iu
lapd decode --kinds i,s --follow => decode follow is polls
lapd decode --kinds u,s,s,i => decode
lapd decode --kinds=u,i,u => decode iu polls
lapd decode --any-sapi => decode any-sapi
lapd decode --color auto => decode
lapd decode --color=always --follow => decode follow always
lapd decode --color never => decode never
lapd decode --sender net => decode from net
lapd decode --sender=user --any-sapi => decode from user any-sapi
lapd net --listen 127.0.0.1:4000 => net 1 3 512 enquiry 3 3 512 enquiry 1000 1000 2000 10000 with-16 - at 127.0.0.1:4000 open
lapd user --connect 127.0.0.1:4000 => user 1 3 512 enquiry 3 3 512 enquiry 1000 1000 2000 10000 with-16 - at 127.0.0.1:4000 open
lapd net --listen 127.0.0.1:4000 --pri => net 7 3 512 enquiry 7 3 512 enquiry 1000 1000 2000 10000 without-16 - 0 at 127.0.0.1:4000 open
lapd user --connect 127.0.0.1:4000 --pri => user 7 3 512 enquiry 7 3 512 enquiry 1000 1000 2000 10000 without-16 - 0 at 127.0.0.1:4000 open
lapd net --listen 127.0.0.1:4000 --pri --sapi16 => net 7 3 512 enquiry 7 3 512 enquiry 1000 1000 2000 10000 with-16 - 0 at 127.0.0.1:4000 open
lapd net --listen 127.0.0.1:4000 --pri --k 127 => net 127 3 512 enquiry 127 3 512 enquiry 1000 1000 2000 10000 without-16 - 0 at 127.0.0.1:4000 open
lapd net --listen 127.0.0.1:4000 --pri --tei 64 => net 7 3 512 enquiry 7 3 512 enquiry 1000 1000 2000 10000 without-16 - 64 at 127.0.0.1:4000 open
lapd net --listen 127.0.0.1:4000 --tei 0 --tei 126 => net 1 3 512 enquiry 3 3 512 enquiry 1000 1000 2000 10000 with-16 - 0 126 at 127.0.0.1:4000 open
lapd user --connect 127.0.0.1:4000 --tei 126 => user 1 3 512 enquiry 3 3 512 enquiry 1000 1000 2000 10000 with-16 - 126 at 127.0.0.1:4000 open
lapd user --connect 127.0.0.1:4000 --k 1 => user 1 3 512 enquiry 1 3 512 enquiry 1000 1000 2000 10000 with-16 - at 127.0.0.1:4000 open
lapd user --connect 127.0.0.1:4000 --n200 100 --room 1024 => user 1 100 1024 enquiry 3 100 1024 enquiry 1000 1000 2000 10000 with-16 - at 127.0.0.1:4000 open
lapd user --connect 127.0.0.1:4000 --n200 1 --room 1 => user 1 1 1 enquiry 3 1 1 enquiry 1000 1000 2000 10000 with-16 - at 127.0.0.1:4000 open
lapd user --connect 127.0.0.1:4000 --recovery last => user 1 3 512 last 3 3 512 last 1000 1000 2000 10000 with-16 - at 127.0.0.1:4000 open
lapd user --connect 127.0.0.1:4000 --t200 1 --t201 2 --t202 3 --t203 3600000 => user 1 3 512 enquiry 3 3 512 enquiry 1 2 3 3600000 with-16 - at 127.0.0.1:4000 open
lapd net --listen 127.0.0.1:4000 --seed 18446744073709551615 => net 1 3 512 enquiry 3 3 512 enquiry 1000 1000 2000 10000 with-16 18446744073709551615 at 127.0.0.1:4000 open
lapd net --listen 127.0.0.1:4000 --seed 0 => net 1 3 512 enquiry 3 3 512 enquiry 1000 1000 2000 10000 with-16 0 at 127.0.0.1:4000 open
lapd user --connect a:1 --clock real --seed 921 => user 1 3 512 enquiry 3 3 512 enquiry 1000 1000 2000 10000 with-16 921 at a:1 real 1 - -
lapd answer --sapi 16 --tei 126 --k 3 --side user => answer user 16 126 3 3 512 enquiry
lapd answer --sapi 0 --tei 0 => answer net 0 0 1 3 512 enquiry
lapd --side user => refused
lapd --k 3 => refused
lapd -- => refused
lapd  => refused
lapd answer --side user --side net => refused
lapd answer --side => refused
lapd answer --side other => refused
lapd answer --recovery other => refused
lapd answer more => refused
lapd answer --version => refused
lapd pair more => refused
lapd pair --side user => refused
lapd pair --recovery last => refused
lapd pair --recovery-user other => refused
lapd pair --recovery-net => refused
lapd pair --k 3 --k 3 => refused
lapd loop --ladder => refused
lapd loop more => refused
lapd loop --side user => refused
lapd loop --recovery last => refused
lapd loop --k => refused
lapd net => refused
lapd net --listen => refused
lapd net --connect 127.0.0.1:7000 => refused
lapd net --listen a:1 --listen a:1 => refused
lapd user => refused
lapd user --listen 127.0.0.1:7000 => refused
lapd user --connect a:1 --clock real --terminals 2 => refused
lapd user --connect a:1 --clock real --audit 1000 => refused
lapd net --listen a:1 --clock real --serve --serve => refused
lapd net --listen a:1 --clock real --keep 3 => refused
lapd answer --serve => refused
lapd net --listen a:1 --clock other => refused
lapd answer --clock real => refused
lapd decode --side user => refused
lapd decode --follow --follow => refused
lapd decode --time now => refused
lapd decode --time => refused
lapd decode --sender both => refused
lapd decode --color no => refused
lapd decode --any-sapi --any-sapi => refused
lapd decode --kinds => refused
lapd decode --no-polls --no-polls => refused
lapd decode --count 1 --count 1 => refused
lapd decode --sapi => refused
lapd --terminals 3 => refused
lapd bus more => refused
lapd bus --k 3 => refused
lapd bus --links --links => refused
lapd pair --links => refused
lapd bus --terminals => refused
lapd bus --terminals 3 --terminals 3 => refused
lapd other => refused
lapd help other => refused
lapd --strict => refused
lapd pair --strict --strict => refused
lapd answer --k => refused
lapd answer --k --side user => refused
lapd answer --k 3 --k 3 => refused
lapd answer --n200 3 --n200 4 => refused
lapd answer --room 2 --room 2 => refused
lapd --help => a text
lapd -h => a text
lapd help => a text
lapd help net => a text
lapd answer --help => a text
lapd answer -h => the short help
lapd bus --help => a text
lapd pair --help => a text
lapd loop --help => a text
lapd net --help => a text
lapd net -h => the short help
lapd user -h => the short help
lapd pair -h => the short help
lapd loop -h => the short help
lapd bus -h => the short help
lapd decode -h => the short help
lapd user --help => a text
lapd decode --help => a text
lapd --version => a text
lapd -V => a text
lapd foo --side => refused error: unrecognized subcommand 'foo'~~Usage: lapd [COMMAND]~~For more information, try '--help'.~
lapd call.pcap => refused error: unrecognized subcommand 'call.pcap'~~  tip: lapd decode call.pcap prints the frames of a file~~Usage: lapd [COMMAND]~~For more information, try '--help'.~
lapd decode -r a => refused error: unexpected argument '-r' found~~  tip: a file needs no option: lapd decode FILE~~Usage: lapd decode [OPTIONS] [FILE]...~~For more information, try '--help'.~
lapd user --listen a:1 => refused error: unexpected argument '--listen' found~~  tip: the user side connects: --connect ADDRESS; `lapd net` waits~~Usage: lapd user [OPTIONS] --connect <ADDRESS>~~For more information, try '--help'.~
lapd anwser => refused error: unrecognized subcommand 'anwser'~~  tip: a similar subcommand exists: 'answer'~~Usage: lapd [COMMAND]~~For more information, try '--help'.~
lapd answer --k 0 => error: invalid value '0' for '--k <FRAMES>': not a number from 1 to 127 in decimal digits~
lapd pair --k 128 => error: invalid value '128' for '--k <FRAMES>': not a number from 1 to 127 in decimal digits~
lapd answer --k 128 => error: invalid value '128' for '--k <FRAMES>': not a number from 1 to 127 in decimal digits~
lapd answer --k 257 => error: invalid value '257' for '--k <FRAMES>': not a number from 1 to 127 in decimal digits~
lapd answer --k  => error: invalid value '' for '--k <FRAMES>': not a number from 1 to 127 in decimal digits~
lapd answer --k +3 => error: invalid value '+3' for '--k <FRAMES>': not a number from 1 to 127 in decimal digits~
lapd answer --k -3 => error: invalid value '-3' for '--k <FRAMES>': not a number from 1 to 127 in decimal digits~
lapd answer --k=three\t => error: invalid value 'three\\t' for '--k <FRAMES>': not a number from 1 to 127 in decimal digits~
lapd answer --n200 0 => error: invalid value '0' for '--n200 <TIMES>': not a number from 1 to 100 in decimal digits~
lapd answer --n200 101 --k 127 => error: invalid value '101' for '--n200 <TIMES>': not a number from 1 to 100 in decimal digits~
lapd answer --room 0 => error: invalid value '0' for '--room <MESSAGES>': not a number from 1 to 1024 in decimal digits~
lapd answer --room 1025 --n200 100 => error: invalid value '1025' for '--room <MESSAGES>': not a number from 1 to 1024 in decimal digits~
lapd answer --room 1,024 => error: invalid value '1,024' for '--room <MESSAGES>': not a number from 1 to 1024 in decimal digits~
lapd answer --room 18446744073709551617 => error: invalid value '18446744073709551617' for '--room <MESSAGES>': not a number from 1 to 1024 in decimal digits~
lapd loop --n200 101 => error: invalid value '101' for '--n200 <TIMES>': not a number from 1 to 100 in decimal digits~
lapd bus --terminals 0 => error: invalid value '0' for '--terminals <TERMINALS>': not a number from 1 to 127 in decimal digits~
lapd bus --terminals 128 => error: invalid value '128' for '--terminals <TERMINALS>': not a number from 1 to 127 in decimal digits~
lapd bus --ladder => error: --ladder requires --links~
lapd bus --links --terminals 0 --ladder => error: invalid value '0' for '--terminals <TERMINALS>': not a number from 1 to 127 in decimal digits~
lapd decode --k 3 => error: --k requires --follow~
lapd decode --no-octets => error: --no-octets requires --names~
lapd decode --no-octets --names --json => error: --no-octets cannot be used with --json~
lapd decode --no-octets --names --svg a => error: --no-octets cannot be used with --svg~
lapd decode --ladder --no-octets => error: --no-octets cannot be used with --ladder~
lapd decode --time delta => error: --time requires a capture or a log: --pcap FILE, FILE, or --loose~
lapd decode --pcap a b => error: --pcap cannot be used with FILE; without --pcap, FILE may be a capture~
lapd decode a b --svg c => error: --svg takes one FILE~
lapd decode --ladder --json => error: --ladder cannot be used with --json~
lapd decode --svg a --json => error: --svg cannot be used with --json~
lapd decode --ladder --any-sapi => error: --ladder cannot be used with --any-sapi~
lapd decode --svg a --ladder => error: --ladder cannot be used with --svg~
lapd decode --html a --svg b => error: --svg cannot be used with --html~
lapd decode --calls --write a => error: --write cannot be used with --calls~
lapd decode --calls --json => error: --calls cannot be used with --json~
lapd decode --write a --follow b => error: --write cannot be used with --follow~
lapd decode --html a --time day b => error: --time cannot be used with --html~
lapd decode a b --write c => error: --write takes one FILE~
lapd decode --summary --ladder => error: --ladder cannot be used with --summary~
lapd decode --summary --violations => error: --summary cannot be used with --violations~
lapd decode --summary --count 3 => error: --summary cannot be used with --count~
lapd decode --count 0 => error: invalid value '0' for '--count <FRAMES>': not a number from 1 to 18446744073709551615 in decimal digits~
lapd decode --count 18446744073709551616 => error: invalid value '18446744073709551616' for '--count <FRAMES>': not a number from 1 to 18446744073709551615 in decimal digits~
lapd decode --sapi 64 => error: invalid value '64' for '--sapi <SAPI>': not a number from 0 to 63 in decimal digits~
lapd decode --tei 128 => error: invalid value '128' for '--tei <TEI>': not a number from 0 to 127 in decimal digits~
lapd decode --call 32768 => error: invalid value '32768' for '--call <NUMBER>': not a number from 0 to 32767 in decimal digits~
lapd decode --kinds s,i,x => error: invalid value 's,i,x' for '--kinds <KINDS>': not a list of i, s and u~
lapd decode --kinds su => error: invalid value 'su' for '--kinds <KINDS>': not a list of i, s and u~
lapd decode --kinds i, => error: invalid value 'i,' for '--kinds <KINDS>': not a list of i, s and u~
lapd decode --follow --k 128 => error: invalid value '128' for '--k <FRAMES>': not a number from 1 to 127 in decimal digits~
lapd user --connect=a:1 --time => error: --time requires --clock real~
lapd net --listen=a:1 --clock=script --quiet => error: --quiet requires --clock real~
lapd net --listen=a:1 --terminals 1 => error: --terminals requires --clock real~
lapd net --listen=a:1 --serve => error: --serve requires --clock real~
lapd user --connect=a:1 --clock=script --keep => error: --keep requires --clock real~
lapd net --listen=a:1 --idle-limit 1000 => error: --idle-limit requires --clock real~
lapd net --listen=a:1 --clear => error: --clear requires --clock real~
lapd net --listen=a:1 --clock=real --clear --tei 64 => error: --clear cannot be used with --tei~
lapd net --listen=a:1 --clock=real --pri --clear => error: --clear cannot be used with --pri~
lapd net --listen=a:1 --audit 1000 => error: --audit requires --clock real~
lapd net --listen=a:1 --clock=real --audit 1000 => error: --audit requires --keep or --terminals above 1~
lapd net --listen=a:1 --clock=real --keep --audit 1000 --no-audit => error: --audit cannot be used with --no-audit~
lapd net --listen=a:1 --clock=real --keep --audit 1000 --pri => error: --audit cannot be used with --pri~
lapd net --listen=a:1 --clock=real --keep --audit 0 => error: invalid value '0' for '--audit <MS>': not a number from 1 to 3600000 in decimal digits~
lapd net --listen=a:1 --no-ties => error: --no-ties requires --clock real~
lapd net --listen=a:1 --clock=real --terminals=2 --idle-limit=0 => error: invalid value '0' for '--idle-limit <MS>': not a number from 1 to 3600000 in decimal digits~
lapd net --listen=a:1 --clock=real --terminals=2 --idle-limit=3600001 => error: invalid value '3600001' for '--idle-limit <MS>': not a number from 1 to 3600000 in decimal digits~
lapd net --listen=a:1 --pcap line.pcap => error: --pcap requires --clock real~
lapd user --connect=a:1 --ladder rungs => error: --ladder requires --clock real~
lapd user --connect=a:1 --gsmtap b:4729 => error: --gsmtap requires --clock real~
lapd net --listen=a:1 --clock=real --terminals=128 => error: invalid value '128' for '--terminals <TERMINALS>': not a number from 1 to 127 in decimal digits~
lapd user --connect=a:1 --clock=real --gsmtap=b => user 1 3 512 enquiry 3 3 512 enquiry 1000 1000 2000 10000 with-16 - at a:1 real 1 - b
lapd net --listen foo => net 1 3 512 enquiry 3 3 512 enquiry 1000 1000 2000 10000 with-16 - at foo open
lapd net --listen 127.0.0.1 => net 1 3 512 enquiry 3 3 512 enquiry 1000 1000 2000 10000 with-16 - at 127.0.0.1 open
lapd user --connect=127.0.0.1:65536 => user 1 3 512 enquiry 3 3 512 enquiry 1000 1000 2000 10000 with-16 - at 127.0.0.1:65536 open
lapd user --connect :80 => user 1 3 512 enquiry 3 3 512 enquiry 1000 1000 2000 10000 with-16 - at :80 open
lapd|user|--connect=no address => user 1 3 512 enquiry 3 3 512 enquiry 1000 1000 2000 10000 with-16 - at no address open
lapd net --listen 127.0.0.1:4000 --tei 127 => error: invalid value '127' for '--tei <TEI>': not a number from 0 to 126 in decimal digits~
lapd user --connect 127.0.0.1:4000 --tei 127 => error: invalid value '127' for '--tei <TEI>': not a number from 0 to 126 in decimal digits~
lapd net --listen 127.0.0.1:4000 --k 0 => error: invalid value '0' for '--k <FRAMES>': not a number from 1 to 127 in decimal digits~
lapd user --connect 127.0.0.1:4000 --k 128 => error: invalid value '128' for '--k <FRAMES>': not a number from 1 to 127 in decimal digits~
lapd net --listen 127.0.0.1:4000 --n200 101 => error: invalid value '101' for '--n200 <TIMES>': not a number from 1 to 100 in decimal digits~
lapd net --listen 127.0.0.1:4000 --room 1025 => error: invalid value '1025' for '--room <MESSAGES>': not a number from 1 to 1024 in decimal digits~
lapd net --listen 127.0.0.1:4000 --t200 0 => error: invalid value '0' for '--t200 <MS>': not a number from 1 to 3600000 in decimal digits~
lapd net --listen 127.0.0.1:4000 --t201 3600001 => error: invalid value '3600001' for '--t201 <MS>': not a number from 1 to 3600000 in decimal digits~
lapd user --connect 127.0.0.1:4000 --t202 0 => error: invalid value '0' for '--t202 <MS>': not a number from 1 to 3600000 in decimal digits~
lapd user --connect 127.0.0.1:4000 --t203 3600001 => error: invalid value '3600001' for '--t203 <MS>': not a number from 1 to 3600000 in decimal digits~
lapd user --connect 127.0.0.1:4000 --seed 18446744073709551616 => error: invalid value '18446744073709551616' for '--seed <NUMBER>': not a number from 0 to 18446744073709551615 in decimal digits~
lapd answer --tei 127 => error: invalid value '127' for '--tei <TEI>': not a number from 0 to 126 in decimal digits~
lapd conform --connect a:1 --of net => test net connect a:1 - - -
lapd conform --of=user --listen=:1 --upper b:2 --stack s => test user listen :1 b:2 s -
lapd conform --cases 7-* --cases=8-V-12 --connect a:1 --of net --suite t => test net connect a:1 - - t of 7-* 8-V-12
lapd conform --listen a:1 --of user --anew --json --report d => test user listen a:1 - - - anew json into d -
lapd conform --junit=j --connect a:1 --of net => test net connect a:1 - - - into - j
lapd conform --connect a:1 --of net --known 7-V-01,7-V-02 --known=8-V-01 => test net connect a:1 - - - known 7-V-01,7-V-02 known 8-V-01
lapd conform --connect a:1 --of net --draw 5 --known 7-V-01 => error: --draw cannot be used with --known~
lapd conform --connect a:1 --of net --draw 500 => test net connect a:1 - - draw 500
lapd conform --connect a:1 --of net --draw=1 --seed 18446744073709551615 --anew => test net connect a:1 - - draw 1 seed 18446744073709551615 anew
lapd conform --listen a:1 --of user --draw 1000000 --seed=0 --upper b:2 --stack s --report d --junit j => test user listen a:1 b:2 s draw 1000000 seed 0 into d j
lapd conform --connect a:1 --of net --draw 0 => error: invalid value '0' for '--draw <STIMULI>': not a number from 1 to 1000000 in decimal digits~
lapd conform --connect a:1 --of net --draw 1000001 => error: invalid value '1000001' for '--draw <STIMULI>': not a number from 1 to 1000000 in decimal digits~
lapd conform --connect a:1 --of net --draw 5 --seed -1 => error: invalid value '-1' for '--seed <NUMBER>': not a number from 0 to 18446744073709551615 in decimal digits~
lapd conform --connect a:1 --of net --seed 5 => error: --seed requires --draw~
lapd conform --print --seed 5 => error: --seed requires --draw~
lapd conform --connect a:1 --of net --draw 5 --cases 7-* => error: --draw cannot be used with --cases~
lapd conform --connect a:1 --of net --draw 5 --suite t => error: --draw cannot be used with --suite~
lapd conform --print --draw 5 => error: --draw cannot be used with --print~
lapd conform --draw 5 => error: --of net or --of user is required: the side that is tested~
lapd conform --print => print -
lapd conform --print --suite t --cases *-T-* => print t of *-T-*
lapd conform --help => a text
lapd conform --connect a:1 => error: --of net or --of user is required: the side that is tested~
lapd conform --of net => error: --connect ADDRESS or --listen ADDRESS of the stack is required~
lapd conform --of net --connect a:1 --listen a:2 => error: --connect cannot be used with --listen~
lapd conform --of both => refused
lapd conform --strict --print => refused
lapd conform --print more => refused
lapd confrom => refused error: unrecognized subcommand 'confrom'~~  tip: a similar subcommand exists: 'conform'~~Usage: lapd [COMMAND]~~For more information, try '--help'.~";

/// Results of scripts, and the exit status of each.
const ENDS: &[(ScriptFault, &str)] = &[
    (ScriptFault::BadLine(7), "line 7: bad command, status 1"),
    (ScriptFault::Device, "device fault, status 3"),
    (ScriptFault::Memory, "out of memory, status 4"),
    (
        ScriptFault::Port(PortFault::BadLength),
        "port S2 BadLength, status 3",
    ),
    (ScriptFault::Port(PortFault::Cut), "port S3 Cut, status 3"),
    (
        ScriptFault::Port(PortFault::Failed),
        "port S6 Failed, status 3",
    ),
];

/// The meaning of these words, as text, as far as it can be allocated.
fn shown_words(alloc: Global, words: &[&str]) -> String {
    let mut text = String::new(alloc);
    let chosen = parse_words(alloc, words);
    match &chosen {
        Ok(Chosen::Script(chosen)) => show(&mut text, chosen),
        Ok(Chosen::Conform(conformance)) => show_conformance(&mut text, conformance),
        Err(unchosen) => show_none(&mut text, unchosen),
    }
    text
}

/// The columns of help.
const WIDTH: usize = 100;

fn show_none(text: &mut String, unchosen: &NoInvocation<'_>) {
    let _ = match unchosen {
        NoInvocation::Shown(shown) if shown.lines().any(|line| line.len() > WIDTH) => {
            text.push_str("lines of more than 100 columns")
        }
        NoInvocation::Shown(shown) if shown.trim_end().ends_with(help::SHORT) => {
            text.push_str("the short help")
        }
        NoInvocation::Shown(_) => text.push_str("a text"),
        NoInvocation::Refused(said) => write!(text, "refused {said}"),
        _ => write!(text, "{unchosen}"),
    };
}

fn show_conformance(text: &mut String, conformance: &Conformance<'_>) {
    match conformance {
        Conformance::Print(cases) => {
            let _ = text.push_str("print");
            show_cases(text, cases);
        }
        Conformance::Test(test) => {
            let side = if test.side == Side::User {
                "user"
            } else {
                "net"
            };
            let how = if test.listens { "listen" } else { "connect" };
            let (upper, stack) = (test.upper.unwrap_or("-"), test.stack.unwrap_or("-"));
            let _ = write!(text, "test {side} {how} {} {upper} {stack}", test.address);
            show_stimuli(text, &test.stimuli);
            let _ = text.push_str(if test.anew { " anew" } else { "" });
            let _ = text.push_str(if test.json { " json" } else { "" });
            if test.report.is_some() || test.junit.is_some() {
                let (report, junit) = (test.report.unwrap_or("-"), test.junit.unwrap_or("-"));
                let _ = write!(text, " into {report} {junit}");
            }
        }
    }
}

fn show_stimuli(text: &mut String, stimuli: &Stimuli<'_>) {
    match stimuli {
        Stimuli::Cases(cases, known) => {
            show_cases(text, cases);
            for names in known {
                let _ = write!(text, " known {names}");
            }
        }
        Stimuli::Drawn(count, seed) => {
            let _ = write!(text, " draw {count}");
            if let Some(seed) = seed {
                let _ = write!(text, " seed {seed}");
            }
        }
    }
}

fn show_cases(text: &mut String, cases: &CaseChoice<'_>) {
    let _ = write!(text, " {}", cases.suite.unwrap_or("-"));
    show_files(text, cases.patterns.as_slice());
}

fn show(text: &mut String, chosen: &Invocation<'_>) {
    show_job(text, &chosen.job);
    if let Some(address) = chosen.address {
        let _ = write!(text, " at {address}");
    }
    show_files(text, chosen.files.as_slice());
    let _ = text.push_str(if chosen.is_clock_open { " open" } else { "" });
    if let Clock::Real(options) = &chosen.clock {
        let (pcap, gsmtap) = (options.pcap.unwrap_or("-"), options.gsmtap.unwrap_or("-"));
        let _ = write!(text, " real {} {pcap} {gsmtap}", options.terminals);
        let _ = text.push_str(if options.time { " time" } else { "" });
        let _ = text.push_str(if options.quiet { " quiet" } else { "" });
        let _ = text.push_str(if options.serve { " serve" } else { "" });
        let _ = text.push_str(if options.keep { " keep" } else { "" });
        let _ = text.push_str(if options.clear { " clear" } else { "" });
        if let Some(limit) = options.idle_limit {
            let _ = write!(text, " idle {limit}");
        }
        match options.audit {
            Some(60_000) => {}
            Some(interval) => {
                let _ = write!(text, " audit {interval}");
            }
            None => {
                let _ = text.push_str(" no-audit");
            }
        }
        let _ = text.push_str(if options.ties { "" } else { " no-ties" });
        if let Some(file) = options.ladder {
            let _ = write!(text, " ladder {file}");
        }
    }
    let _ = text.push_str(if chosen.json { " json" } else { "" });
    let _ = text.push_str(if chosen.strict { " strict" } else { "" });
}

fn show_files(text: &mut String, files: &[&str]) {
    if !files.is_empty() {
        let _ = text.push_str(" of");
    }
    for file in files {
        let _ = write!(text, " {file}");
    }
}

fn show_job(text: &mut String, job: &Job) {
    match job {
        Job::Answer(end) => {
            let side = if end.side == Side::User {
                "user"
            } else {
                "net"
            };
            let (sapi, tei) = (end.sapi.value(), end.tei.value());
            let _ = write!(text, "answer {side} {sapi} {tei}");
            show_params(text, &end.params);
        }
        Job::Bus { terminals } => {
            let _ = write!(text, "bus {terminals}");
        }
        Job::BusLinks {
            terminals,
            is_drawn,
        } => {
            let _ = write!(text, "bus {terminals} links");
            let _ = text.push_str(if *is_drawn { " ladder" } else { "" });
        }
        Job::Pair {
            user,
            network,
            is_drawn,
        } => {
            show_ends(text, "pair", user, network);
            let _ = text.push_str(if *is_drawn { " ladder" } else { "" });
        }
        Job::Loop { user, network } => show_ends(text, "loop", user, network),
        Job::Net(interface) => show_interface(text, "net", interface),
        Job::User(interface) => show_interface(text, "user", interface),
        Job::Decode(options) => {
            let _ = text.push_str("decode");
            show_follow(text, options.follow);
            show_output(text, options);
            show_frames(text, &options.frames);
        }
    }
}

fn show_follow(text: &mut String, follow: Option<FollowOptions>) {
    if let Some(options) = follow {
        let _ = text.push_str(" follow");
        if let Some(k) = options.k {
            let _ = write!(text, " {k}");
        }
    }
}

fn show_output(text: &mut String, options: &DecodeOptions) {
    let _ = text.push_str(match options.layout {
        PrintedLayout::Lines => "",
        PrintedLayout::Ladder => " ladder",
        PrintedLayout::Picture => " picture",
        PrintedLayout::Page => " page",
        PrintedLayout::Capture => " capture",
        PrintedLayout::Calls => " calls",
    });
    let _ = text.push_str(match options.time {
        PrintedTime::Hidden => "",
        PrintedTime::Absolute => " absolute",
        PrintedTime::Utc => " utc",
        PrintedTime::Local => " local",
        PrintedTime::Relative => " relative",
        PrintedTime::Delta => " delta",
        PrintedTime::Day => " day",
    });
    let _ = text.push_str(if options.no_octets { " no-octets" } else { "" });
    if let Some(count) = options.count {
        let _ = write!(text, " count {count}");
    }
    let _ = text.push_str(match options.sender {
        None => "",
        Some(Side::Network) => " from net",
        Some(Side::User) => " from user",
    });
    let _ = text.push_str(if options.any_sapi { " any-sapi" } else { "" });
    let _ = text.push_str(match options.color {
        Color::Auto => "",
        Color::Always => " always",
        Color::Never => " never",
    });
}

fn show_frames(text: &mut String, frames: &Filter) {
    if *frames == Filter::ALL {
        return;
    }
    if let Some(sapi) = frames.sapi {
        let _ = write!(text, " sapi {sapi}");
    }
    if let Some(tei) = frames.tei {
        let _ = write!(text, " tei {tei}");
    }
    let _ = text.push_str(" ");
    let _ = text.push_str(if frames.i { "i" } else { "" });
    let _ = text.push_str(if frames.s { "s" } else { "" });
    let _ = text.push_str(if frames.u { "u" } else { "" });
    let _ = text.push_str(if frames.polls { " polls" } else { "" });
    if let Some(call) = frames.call {
        let _ = write!(text, " call {call}");
    }
    let _ = text.push_str(if frames.only_violations {
        " violations"
    } else {
        ""
    });
}

fn show_ends(text: &mut String, job: &str, one: &Params, other: &Params) {
    let _ = text.push_str(job);
    show_params(text, one);
    show_params(text, other);
}

fn show_params(text: &mut String, params: &Params) {
    let recovery = match params.recovery() {
        Recovery::Enquiry => "enquiry",
        Recovery::LastMessage => "last",
    };
    let (k, n200, room) = (params.k(), params.n200(), params.room());
    let _ = write!(text, " {k} {n200} {room} {recovery}");
}

fn show_interface(text: &mut String, job: &str, interface: &Interface) {
    show_ends(text, job, &interface.params0, &interface.params16);
    show_durations(text, &interface.durations);
    let served = if interface.sapi16 { "with" } else { "without" };
    let _ = write!(text, " {served}-16");
    let _ = match interface.seed {
        Some(seed) => write!(text, " {seed}"),
        None => text.push_str(" -"),
    };
    for tei in interface.teis.as_slice() {
        let _ = write!(text, " {}", tei.value());
    }
}

fn show_durations(text: &mut String, durations: &Durations) {
    for timer in [Timer::T200, Timer::T201, Timer::T202, Timer::T203] {
        let _ = write!(text, " {}", durations.of(timer));
    }
}

/// The program's words, separated by bars if there are any, else by single spaces. The first word
/// is the program's name.
fn words_of<'a>(alloc: Global, row: &'a str) -> Vec<&'a str> {
    let mut words = Vec::new(alloc);
    let parted_by = if row.contains('|') { '|' } else { ' ' };
    for word in row.split(parted_by) {
        let _ = words.push(word);
    }
    words
}

/// Whether the words of a row have the meaning in the row. For words that the parser refuses, its
/// text is not compared.
fn row_holds(alloc: Global, row: &str) -> bool {
    let (words, wanted) = row.split_once(" => ").unwrap_or((row, ""));
    let words = words_of(alloc, words);
    let shown = shown_words(alloc, words.as_slice());
    shown.split('\n').eq(wanted.split('~'))
        || wanted == "refused" && shown.starts_with("refused error: ")
}

/// Whether a fault has this text and status.
fn is_end(alloc: Global, fault: ScriptFault, wanted: &str) -> bool {
    match format!(in alloc; "{fault}, status {}", fault.status()) {
        Ok(text) => text.as_str() == wanted,
        Err(_) => false,
    }
}

/// The first row that does not hold.
fn wrong_row(alloc: Global) -> Option<&'static str> {
    for row in ROWS.lines() {
        if !row_holds(alloc, row) {
            return Some(row);
        }
    }
    for (fault, wanted) in ENDS {
        if !is_end(alloc, *fault, *wanted) {
            return Some(*wanted);
        }
    }
    words::wrong_words(alloc)
}

#[test]
fn words_choose_a_job(rt: HostRuntime) -> Result<(), Fail> {
    match wrong_row(rt.alloc()) {
        Some(row) => {
            let (words, _) = row.split_once(" => ").unwrap_or((row, ""));
            let words = words_of(rt.alloc(), words);
            let shown = shown_words(rt.alloc(), words.as_slice());
            let shown = shown.as_str();
            Err(Fail::new(format_args!("{row}: they come to {shown}")))
        }
        None => Ok(()),
    }
}
