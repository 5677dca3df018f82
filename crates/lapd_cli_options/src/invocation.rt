ghost use Rattle.std.specs.Prelude.{◌≡◌};
ghost use Rattle.lapd_cli_options.specs.CommandLine.{IsDefault, terminal_clock, time_in_capture, typed_invocation};

use crate::conform_options::Conformance;
use lapd_cli_values::{Interface, LinkEnd, Params, Sapi, Side, Tei};
use lapd_filter::Filter;
use std::alloc::Global;

/// The meaning of the program's words.
#[derive(Drop)]
pub enum Chosen<'a> {
    /// Execute a script.
    Script(Invocation<'a>),
    /// Test the conformance of a stack.
    Conform(Conformance<'a>),
}

/// A command that executes a script, with its options.
#[derive(Drop)]
pub struct Invocation<'a> {
    /// The program's job.
    pub job: Job,
    /// The address and port of `net` or `user`, unchanged from the command line.
    pub address: Option<&'a str>,
    /// The files of `decode`, unchanged from the command line. If there are any, `pcap` is `None`.
    pub files: Vec<&'a str>,
    /// The file of `decode --pcap`, unchanged from the command line.
    pub pcap: Option<&'a str>,
    /// The file of `decode --svg`, unchanged from the command line.
    pub svg: Option<&'a str>,
    /// The file of `decode --html`, unchanged from the command line.
    pub html: Option<&'a str>,
    /// The file of `decode --write`, unchanged from the command line.
    pub write: Option<&'a str>,
    /// The span whose lines `decode` reads, unchanged from the command line; all if `None`.
    pub span: Option<&'a str>,
    /// The clock of `net` or `user`.
    pub clock: Clock<'a>,
    /// Whether `net` or `user` name no clock, so that it is the real one at a terminal
    /// ([`Invocation::typed`]).
    pub is_clock_open: bool,
    /// Whether `net` or `user` prints each line as a JSON object. `decode` has a field of its own.
    pub json: bool,
    /// Whether the exit status reports that a line of the script was refused.
    pub strict: bool,
}

/// The program's job.
#[derive(Drop)]
pub enum Job {
    /// Execute a script on this end of a link.
    Answer(LinkEnd),
    /// Execute a script on a bus of 1 to 127 terminals.
    Bus {
        terminals: u8,
    },
    /// Execute a script on a bus of a network side and 1 to 127 terminals, each a whole side. Print
    /// its output, or draw it.
    BusLinks {
        terminals: u8,
        is_drawn: bool,
    },
    /// Execute a script of moves on two ends with these parameters, and the line between them.
    /// Print its output, or draw it.
    Pair {
        user: Params,
        network: Params,
        is_drawn: bool,
    },
    /// Like `Pair`, but each frame is sent over a connection of the process to itself.
    Loop {
        user: Params,
        network: Params,
    },
    /// Execute a script on the network side of this interface, over the first connection accepted
    /// at the address.
    Net(Interface),
    /// Execute a script on the user side of this interface, over a connection to the address.
    User(Interface),
    /// Print octets as trace lines.
    Decode(DecodeOptions),
}

/// The clock of a side.
#[derive(Clone, Copy)]
pub enum Clock<'a> {
    /// The script's clock, which only `tick` advances. All commands without a side use it too.
    Script,
    /// The real clock.
    Real(LiveOptions<'a>),
}

/// The interval of the audits of TEIs, in milliseconds, if `--audit` is absent.
pub(crate) const USUAL_AUDIT: u64 = 60_000;

/// The options of the real clock.
#[derive(Clone, Copy)]
pub struct LiveOptions<'a> {
    /// Whether each line begins with the time, in milliseconds since the start.
    pub time: bool,
    /// Whether the trace lines of frames are left out.
    pub quiet: bool,
    /// Whether the side runs on after the end of the script, until the connection closes.
    pub serve: bool,
    /// Whether a lost connection is replaced by the next one.
    pub keep: bool,
    /// Whether the network side first removes the TEIs of all terminals. It then knows no TEI.
    pub clear: bool,
    /// The number of terminals that the network side accepts, 1 to 127. On the user side it is 1.
    pub terminals: u8,
    /// How long a connection may go without sending a whole frame, 1 to 3,600,000 milliseconds; no
    /// limit if `None`.
    pub idle_limit: Option<u64>,
    /// The interval of the audits of TEIs of a network side that accepts several connections, 1 to
    /// 3,600,000 milliseconds; no audits if `None`.
    pub audit: Option<u64>,
    /// Whether a TEI is tied to the connection that uses it.
    pub ties: bool,
    /// The file of `--pcap`, unchanged from the command line.
    pub pcap: Option<&'a str>,
    /// The file of `--ladder`, unchanged from the command line.
    pub ladder: Option<&'a str>,
    /// The address and port of `--gsmtap`, unchanged from the command line.
    pub gsmtap: Option<&'a str>,
}

impl LiveOptions<'static> {
    /// No option of the real clock is present.
    const USUAL: LiveOptions<'static> = LiveOptions {
        time: false,
        quiet: false,
        serve: false,
        keep: false,
        clear: false,
        terminals: 1,
        idle_limit: None,
        audit: Some(USUAL_AUDIT),
        ties: true,
        pcap: None,
        ladder: None,
        gsmtap: None,
    };
}

/// The options of `decode`.
#[derive(Clone, Copy)]
pub struct DecodeOptions {
    /// Whether lines may have more forms, such as those of libpri, of logs and of hex dumps.
    pub loose: bool,
    /// The sender of what libpri prints after `>`, and of octets whose line or capture does not
    /// name the sender. If `None`, it is the network for lines, and for captures the side that the
    /// kind and C/R bit of the frame name (Q.921 3.3.2).
    pub sender: Option<Side>,
    /// Whether the message in a frame is named.
    pub names: bool,
    /// Whether the octets of information are left out of a trace line with names.
    pub no_octets: bool,
    /// Whether each frame is printed as a JSON object.
    pub json: bool,
    /// The layout of the frames.
    pub layout: PrintedLayout,
    /// Whether bad lines and packets are reported and skipped.
    pub keep_going: bool,
    /// How the links are followed; `None` if they are not.
    pub follow: Option<FollowOptions>,
    /// The requested time before each trace line of a capture or a log.
    pub time: PrintedTime,
    /// After how many printed frames the output ends, at least 1; never if `None`.
    pub count: Option<u64>,
    /// Which frames are printed.
    pub frames: Filter,
    /// Whether octets with a SAPI other than 0, 16 and 63 are printed as frames.
    pub any_sapi: bool,
    /// When trace lines are printed in colors.
    pub color: Color,
}

/// When lines are printed in colors.
#[derive(Clone, Copy)]
pub enum Color {
    /// If standard output is a terminal and the variable `NO_COLOR` is not set, or empty.
    Auto,
    /// Always.
    Always,
    /// Never.
    Never,
}

/// The layout of the frames that `decode` prints. If they are drawn, their links are followed, and
/// frames of a capture have times.
#[derive(Clone, Copy, PartialEq, Eq)]
pub enum PrintedLayout {
    /// A line each.
    Lines,
    /// A ladder.
    Ladder,
    /// A ladder as a picture, in the file of `--svg`.
    Picture,
    /// A page for a browser, in the file of `--html`.
    Page,
    /// A capture, in the file of `--write`.
    Capture,
    /// A table of the calls, without the frames.
    Calls,
}

/// The time before each trace line of a capture or a log.
#[derive(Clone, Copy)]
pub enum PrintedTime {
    /// None.
    Hidden,
    /// The seconds since 1970.
    Absolute,
    /// The seconds since the first printed frame.
    Relative,
    /// The seconds since the printed frame before.
    Delta,
    /// The time of day, of the time zone UTC.
    Day,
    /// The date and the time of day, of the time zone UTC.
    Utc,
    /// The same of the user's time zone. A log whose times have no zone has its own.
    Local,
}

/// The options of `decode --follow`.
#[derive(Clone, Copy)]
pub struct FollowOptions {
    /// The window k of all links, 1 to 127; `None` if 127 is checked.
    pub k: Option<u8>,
}

impl DecodeOptions {
    /// The time of each frame of a capture: in a drawing it is relative if none is requested.
    pub fn time_in_capture(self) -> PrintedTime
        ensures { result ≡ time_in_capture self }
    {
        match (self.layout, self.time) {
            (PrintedLayout::Lines, time) => time,
            (_, PrintedTime::Hidden) => PrintedTime::Relative,
            (_, time) => time,
        }
    }
}

impl Invocation<'_> {
    /// The job of the program without words.
    pub(crate) fn by_no_word(alloc: Global) -> Invocation<'static>
        ensures { IsDefault result }
    {
        let end = LinkEnd {
            side: Side::Network,
            sapi: Sapi::Call,
            tei: Tei::new(64).unwrap(),
            params: Params::basic(Sapi::Call),
        };
        Invocation {
            job: Job::Answer(end),
            address: None,
            files: Vec::new(alloc),
            pcap: None,
            svg: None,
            html: None,
            write: None,
            span: None,
            clock: Clock::Script,
            is_clock_open: false,
            json: false,
            strict: false,
        }
    }
}

impl<'a> Invocation<'a> {
    /// The meaning of the words if standard input is a terminal: `net` and `user` use the real
    /// clock if no clock is named.
    pub fn typed(self) -> Invocation<'a>
        ensures { result ≡ typed_invocation self.entry }
    {
        let clock = clock_at_terminal(self.is_clock_open, self.clock);
        Invocation { clock, ..self }
    }
}

/// The clock at a terminal: the real one if no clock is named.
fn clock_at_terminal(is_open: bool, clock: Clock<'_>) -> Clock<'_>
    ensures { result ≡ terminal_clock is_open clock.entry }
{
    if is_open {
        Clock::Real(LiveOptions::USUAL)
    } else {
        clock
    }
}
