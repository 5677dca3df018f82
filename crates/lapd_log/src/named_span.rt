//! The D channel that a line of a log names.

ghost use Rattle.std.specs.Prelude.{◌≡◌, unwrap_or};
ghost use Rattle.lapd_log.specs.Spans.{channel_in, named_by, port_at, port_in, span_in};

use crate::text::{behind, digits_behind, number_at};

/// A D channel, as a line of a log names it.
#[derive(Clone, Copy, Debug, PartialEq, Eq)]
pub struct NamedSpan {
    /// The number of the span: the line to which the channel belongs.
    pub span: u64,
    /// The number of the D channel among those of the span; 0 if the line names none.
    pub channel: u64,
}

/// The D channel that a line of Asterisk or FreeSWITCH names, as in `PRI Span: 1`,
/// `[PRI Span: 1 D-Channel: 0]` and `[s1c16]`.
pub fn span_in(line: &[u8]) -> Option<NamedSpan>
    ensures { result ≡ span_in line.now }
{
    match behind(b"Span: ", line) {
        Some(rest) => named_by(number_at(rest), channel_in(rest)),
        None => port_in(line),
    }
}

/// The D channel with these numbers, if there is a number of a span.
fn named_by(span: Option<u64>, channel: u64) -> Option<NamedSpan>
    ensures { result ≡ named_by span channel }
{
    match span {
        None => None,
        Some(span) => Some(NamedSpan { span, channel }),
    }
}

/// The number of the D channel that a text names; 0 if it names none.
fn channel_in(text: &[u8]) -> u64
    ensures { result ≡ channel_in text.now }
{
    match behind(b"D-Channel: ", text) {
        Some(rest) => number_at(rest).unwrap_or(0),
        None => 0,
    }
}

/// The D channel of the first `[sN`, of which a port of FreeSWITCH follows.
fn port_in(line: &[u8]) -> Option<NamedSpan>
    ensures { result ≡ port_in line.now }
{
    match behind(b"[s", line) {
        Some(rest) => port_at(rest),
        None => None,
    }
}

/// The D channel of `NcM`.
fn port_at(text: &[u8]) -> Option<NamedSpan>
    ensures { result ≡ port_at text.now }
{
    match digits_behind(text) {
        [b'c', ..] => named_by(number_at(text), 0),
        _ => None,
    }
}
