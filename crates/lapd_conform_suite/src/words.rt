//! The words of a suite, each with its meaning.

ghost use Rattle.std.specs.Prelude.{◌≡◌, map};
ghost use Rattle.lapd_conform_suite.specs.Words.{row_of, keywords as keywords_rows, needs as needs_rows, preambles as preambles_rows, requests as requests_rows, units as units_rows, kinds as kinds_rows, tei_kinds as tei_kinds_rows, openings as openings_rows, fields as fields_rows, bases as bases_rows, choices as choices_rows, roles as roles_rows, sides as sides_rows, timers as timers_rows};

use lapd_frame::{Role, Side};
use lapd_tei::TeiKind;
use lapd_timers::Timer;

/// A word and its meaning.
#[derive(Clone, Copy)]
pub struct Named<T> {
    /// The word.
    pub word: &'static str,
    /// Its meaning.
    pub value: T,
}

/// The rows of a table.
macro_rules! table {
    ($kind:ident: $($word:literal $value:ident)*) => {
        &[$(Named { word: $word, value: $kind::$value }),*]
    };
}

/// The first word of a line.
#[derive(Clone, Copy)]
pub enum Keyword {
    /// `case`: A case begins.
    Case,
    /// `clause`: The clauses of Q.921 that the case tests.
    Clause,
    /// `ends`: The only end that the case is for.
    Ends,
    /// `needs`: A capability that the stack must have for the case.
    Needs,
    /// `state`: The preamble: leads the stack into a state.
    State,
    /// `send`: The tester sends a frame.
    Send,
    /// `do`: The upper tester makes a request.
    Do,
    /// `expect`: The frame that the stack sends next.
    Expect,
    /// `or`: Another frame that is right too.
    Or,
    /// `and`: One more frame, in any order.
    And,
    /// `at`: The frame is sent when a timer expires.
    At,
    /// `within`: The frame is sent within a time.
    Within,
    /// `quiet`: The stack sends nothing for a time.
    Quiet,
    /// `pause`: A wait.
    Pause,
    /// `allow`: A frame that the stack may send at any time from here on.
    Allow,
    /// `forget`: Ends all allowances.
    Forget,
    /// `repeat`: Repeats the lines up to `end`.
    Repeat,
    /// `end`: The end of a repetition.
    End,
}

const KEYWORDS: &[Named<Keyword>] =
    table!(Keyword: "case" Case "clause" Clause "ends" Ends "needs" Needs "state" State "send" Send "do" Do "expect" Expect "or" Or "and" And "at" At "within" Within "quiet" Quiet "pause" Pause "allow" Allow "forget" Forget "repeat" Repeat "end" End);

/// The words of a [`Keyword`].
pub(crate) fn keywords() -> &'static [Named<Keyword>]
    ensures { map row_of result.now ≡ keywords_rows }
{
    KEYWORDS
}

/// A need of a case: a capability of the stack.
#[derive(Clone, Copy, PartialEq, Eq)]
pub enum Need {
    /// `give`: Its upper tester submits messages.
    Give,
    /// `unit`: Its upper tester sends unit data.
    Unit,
    /// `busy`: Its upper tester makes it busy and ready.
    Busy,
    /// `check`: Its upper tester begins the check of a TEI.
    Check,
    /// `ask`: Its upper tester requests a TEI.
    Ask,
    /// `remove`: Its upper tester removes a TEI.
    Remove,
    /// `establish`: Its upper tester establishes the link.
    Establish,
    /// `release`: Its upper tester releases the link.
    Release,
    /// `k>1`: Its window k is above 1.
    WindowOverOne,
    /// `k>2`: Its window k is above 2.
    WindowOverTwo,
    /// `t203`: It supervises idle links by T203.
    IdleTimer,
    /// `n201`: It rejects frames over N201.
    LongestLength,
    /// `sapis`: It serves some SAPIs only.
    ServedSapis,
    /// `automatic`: It assigns, or requests, automatic TEIs.
    AutomaticTei,
}

const NEEDS: &[Named<Need>] =
    table!(Need: "give" Give "unit" Unit "busy" Busy "check" Check "ask" Ask "remove" Remove "establish" Establish "release" Release "k>1" WindowOverOne "k>2" WindowOverTwo "t203" IdleTimer "n201" LongestLength "sapis" ServedSapis "automatic" AutomaticTei);

/// The words of a [`Need`].
pub(crate) fn needs() -> &'static [Named<Need>]
    ensures { map row_of result.now ≡ needs_rows }
{
    NEEDS
}

/// The state into which the preamble leads the stack.
#[derive(Clone, Copy)]
pub enum Preamble {
    /// `1`: State 1: no TEI.
    TeiUnassigned,
    /// `2`: State 2: a TEI is requested.
    AssignAwaitingTei,
    /// `3`: State 3: a TEI and a link are requested.
    EstablishAwaitingTei,
    /// `4`: State 4.
    TeiAssigned,
    /// `5`: State 5, in any way.
    AwaitingEstablishment,
    /// `5-line`: State 5, and the data link requested the establishment.
    LineEstablishes,
    /// `6`: State 6.
    AwaitingRelease,
    /// `7`: State 7.
    Established,
    /// `8`: State 8, with nothing outstanding.
    TimerRecovery,
    /// `8-out`: State 8, with one I frame outstanding.
    OneOutstanding,
}

const PREAMBLES: &[Named<Preamble>] =
    table!(Preamble: "1" TeiUnassigned "2" AssignAwaitingTei "3" EstablishAwaitingTei "4" TeiAssigned "5" AwaitingEstablishment "5-line" LineEstablishes "6" AwaitingRelease "7" Established "8" TimerRecovery "8-out" OneOutstanding);

/// The words of a [`Preamble`].
pub(crate) fn preambles() -> &'static [Named<Preamble>]
    ensures { map row_of result.now ≡ preambles_rows }
{
    PREAMBLES
}

/// A request to the upper tester.
#[derive(Clone, Copy, Debug, PartialEq, Eq)]
pub enum Request {
    /// `establish`: DL-ESTABLISH request.
    Establish,
    /// `release`: DL-RELEASE request.
    Release,
    /// `give`: DL-DATA request.
    Give,
    /// `unit`: DL-UNIT DATA request.
    Unit,
    /// `busy`: The own receiver becomes busy.
    Busy,
    /// `ready`: The own receiver is ready again.
    Ready,
    /// `ask`: A TEI is requested.
    Ask,
    /// `check`: The check of a TEI begins.
    Check,
    /// `remove`: A TEI is removed.
    Remove,
}

const REQUESTS: &[Named<Request>] =
    table!(Request: "establish" Establish "release" Release "give" Give "unit" Unit "busy" Busy "ready" Ready "ask" Ask "check" Check "remove" Remove);

/// The words of a [`Request`].
pub(crate) fn requests() -> &'static [Named<Request>]
    ensures { map row_of result.now ≡ requests_rows }
{
    REQUESTS
}

/// The unit of a time.
#[derive(Clone, Copy)]
pub enum TimeUnit {
    /// `ms`: Milliseconds.
    Milliseconds,
    /// `%T200`: Hundredths of T200.
    PercentOfT200,
    /// `%T201`: Hundredths of T201.
    PercentOfT201,
    /// `%T202`: Hundredths of T202.
    PercentOfT202,
    /// `%T203`: Hundredths of T203.
    PercentOfT203,
}

const UNITS: &[Named<TimeUnit>] =
    table!(TimeUnit: "ms" Milliseconds "%T200" PercentOfT200 "%T201" PercentOfT201 "%T202" PercentOfT202 "%T203" PercentOfT203);

/// The words of a [`TimeUnit`].
pub(crate) fn units() -> &'static [Named<TimeUnit>]
    ensures { map row_of result.now ≡ units_rows }
{
    UNITS
}

/// The kind of a frame (Q.921 3.6, Table 5).
#[derive(Clone, Copy, PartialEq, Eq)]
pub enum Kind {
    /// `I`: I.
    Information,
    /// `RR`: RR.
    ReceiveReady,
    /// `RNR`: RNR.
    ReceiveNotReady,
    /// `REJ`: REJ.
    Reject,
    /// `SABME`: SABME.
    Sabme,
    /// `DM`: DM.
    DisconnectedMode,
    /// `UI`: UI.
    UnnumberedInformation,
    /// `DISC`: DISC.
    Disconnect,
    /// `UA`: UA.
    UnnumberedAcknowledgement,
    /// `FRMR`: FRMR.
    FrameReject,
    /// `XID`: XID.
    ExchangeIdentification,
}

const KINDS: &[Named<Kind>] =
    table!(Kind: "I" Information "RR" ReceiveReady "RNR" ReceiveNotReady "REJ" Reject "SABME" Sabme "DM" DisconnectedMode "UI" UnnumberedInformation "DISC" Disconnect "UA" UnnumberedAcknowledgement "FRMR" FrameReject "XID" ExchangeIdentification);

/// The words of a [`Kind`].
pub(crate) fn kinds() -> &'static [Named<Kind>]
    ensures { map row_of result.now ≡ kinds_rows }
{
    KINDS
}

const TEI_KINDS: &[Named<TeiKind>] =
    table!(TeiKind: "Request" Request "Assigned" Assigned "Denied" Denied "CheckRequest" CheckRequest "CheckResponse" CheckResponse "Remove" Remove "Verify" Verify);

/// The words of a [`TeiKind`].
pub(crate) fn tei_kinds() -> &'static [Named<TeiKind>]
    ensures { map row_of result.now ≡ tei_kinds_rows }
{
    TEI_KINDS
}

/// The first word of a frame.
#[derive(Clone, Copy)]
pub enum Opening {
    /// `C`: A command of the link.
    Command,
    /// `R`: A response of the link.
    Response,
    /// `*`: A command or a response of the link.
    CommandOrResponse,
    /// `tei`: A message of TEI management.
    Tei,
    /// `octets`: Octets after the address of the link.
    Octets,
    /// `raw`: All octets of a frame.
    Raw,
    /// `ack`: RR with F=0, or I, with this N(R).
    Acknowledgement,
    /// `nothing`: No frame.
    Nothing,
}

const OPENINGS: &[Named<Opening>] =
    table!(Opening: "C" Command "R" Response "*" CommandOrResponse "tei" Tei "octets" Octets "raw" Raw "ack" Acknowledgement "nothing" Nothing);

/// The words of an [`Opening`].
pub(crate) fn openings() -> &'static [Named<Opening>]
    ensures { map row_of result.now ≡ openings_rows }
{
    OPENINGS
}

/// A field of a frame.
#[derive(Clone, Copy)]
pub enum Field {
    /// `N(S)=`: N(S).
    SendNumber,
    /// `N(R)=`: N(R).
    ReceiveNumber,
    /// `P=`: The poll bit.
    Poll,
    /// `F=`: The final bit.
    Final,
    /// `sapi=`: The SAPI.
    Sapi,
    /// `tei=`: The TEI.
    Tei,
    /// `Ri=`: The reference number (Ri).
    Reference,
    /// `Ai=`: The action indicator (Ai).
    ActionIndicator,
    /// `info=`: The information.
    Information,
}

impl Field {
    ghost use Rattle.lapd_conform_suite.specs.Words.{is_information};

    /// Whether it is the information.
    pub(crate) fn is_information(self) -> bool
        ensures { result ≡ is_information self }
    {
        matches!(self, Field::Information)
    }
}

const FIELDS: &[Named<Field>] =
    table!(Field: "N(S)=" SendNumber "N(R)=" ReceiveNumber "P=" Poll "F=" Final "sapi=" Sapi "tei=" Tei "Ri=" Reference "Ai=" ActionIndicator "info=" Information);

/// The words of a [`Field`].
pub(crate) fn fields() -> &'static [Named<Field>]
    ensures { map row_of result.now ≡ fields_rows }
{
    FIELDS
}

/// The base of a number.
#[derive(Clone, Copy)]
pub enum Base {
    /// `K`: The window k.
    Window,
    /// `N200`: N200.
    N200,
    /// `N201`: N201.
    N201,
    /// `N202-1`: The requests of a TEI after the first.
    LastRequests,
    /// `N202`: N202.
    N202,
    /// `i`: The number of repetitions before this one.
    Turn,
    /// `$a`: The value that `?a` kept.
    ValueA,
    /// `$q`: The value that `?q` kept.
    ValueQ,
    /// `$r`: The value that `?r` kept.
    ValueR,
}

const BASES: &[Named<Base>] =
    table!(Base: "K" Window "N200" N200 "N201" N201 "N202-1" LastRequests "N202" N202 "i" Turn "$a" ValueA "$q" ValueQ "$r" ValueR);

/// The words of a [`Base`].
pub(crate) fn bases() -> &'static [Named<Base>]
    ensures { map row_of result.now ≡ bases_rows }
{
    BASES
}

/// A value of a field that is no number.
#[derive(Clone, Copy)]
pub enum Choice {
    /// `*`: Any value.
    Any,
    /// `?a`: Any value, kept as `$a`.
    KeepA,
    /// `?q`: Any value, kept as `$q`.
    KeepQ,
    /// `?r`: Any value, kept as `$r`.
    KeepR,
    /// `automatic`: 64 to 126, the automatic TEIs.
    Automatic,
    /// `requested`: 64 to 127, what a terminal may request.
    Requested,
    /// `unlike-a`: Any value but `$a`.
    UnlikeA,
    /// `unlike-q`: Any value but `$q`.
    UnlikeQ,
    /// `unlike-r`: Any value but `$r`.
    UnlikeR,
}

const CHOICES: &[Named<Choice>] =
    table!(Choice: "*" Any "?a" KeepA "?q" KeepQ "?r" KeepR "automatic" Automatic "requested" Requested "unlike-a" UnlikeA "unlike-q" UnlikeQ "unlike-r" UnlikeR);

/// The words of a [`Choice`].
pub(crate) fn choices() -> &'static [Named<Choice>]
    ensures { map row_of result.now ≡ choices_rows }
{
    CHOICES
}

const ROLES: &[Named<Role>] = table!(Role: "C" Command "R" Answer);

/// The words of a [`Role`].
pub(crate) fn roles() -> &'static [Named<Role>]
    ensures { map row_of result.now ≡ roles_rows }
{
    ROLES
}

const SIDES: &[Named<Side>] = table!(Side: "net" Network "user" User);

/// The words of a [`Side`].
pub(crate) fn sides() -> &'static [Named<Side>]
    ensures { map row_of result.now ≡ sides_rows }
{
    SIDES
}

const TIMERS: &[Named<Timer>] = table!(Timer: "T200" T200 "T201" T201 "T202" T202 "T203" T203);

/// The words of a [`Timer`].
pub(crate) fn timers() -> &'static [Named<Timer>]
    ensures { map row_of result.now ≡ timers_rows }
{
    TIMERS
}
