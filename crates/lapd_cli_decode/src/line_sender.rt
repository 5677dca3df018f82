//! Who sent the octets of a loose line.

ghost use Rattle.std.specs.Prelude.{◌≡◌, option_map};
ghost use Rattle.lapd_field.specs.Address.{other_side};
ghost use Rattle.lapd_cli_decode.specs.LogSenders.{line_sender, or_side, printer_after};

use lapd_cli_frames::named_or_by_kind;
use lapd_follow::sender_by_kind;
use lapd_frame::Side;

/// The sender of a loose line's octets, as far as the line says.
#[derive(Clone, Copy)]
pub(crate) enum LineSender {
    /// This side sent them.
    Named(Side),
    /// The side that printed the line sent them.
    Printer,
    /// The side that printed the line received them.
    Peer,
    /// Nothing.
    Unnamed,
    /// The octets continue those of an earlier line.
    Continued,
}

impl LineSender {
    /// The sender of these octets, if it is known. `chosen` is the chosen printer of the lines, and
    /// `shown` the one that the lines before showed. No C/R bit overrules a mark of a known printer.
    pub(crate) fn side(
        &self,
        chosen: Option<Side>,
        shown: Option<Side>,
        octets: &[u8],
    ) -> Option<Side>
        ensures { result ≡ line_sender chosen shown self.now octets.now }
    {
        match self {
            LineSender::Named(side) => Some(*side),
            LineSender::Printer => named_or_by_kind(or_side(chosen, shown), octets),
            LineSender::Peer => named_or_by_kind(other(or_side(chosen, shown)), octets),
            LineSender::Unnamed => named_or_by_kind(chosen, octets),
            LineSender::Continued => None,
        }
    }

    /// The printer of the lines, by the first marked octets whose kind and C/R bit show it.
    pub(crate) fn printer(&self, shown: Option<Side>, octets: &[u8]) -> Option<Side>
        ensures { result ≡ printer_after shown self.now octets.now }
    {
        match self {
            LineSender::Printer => or_side(shown, sender_by_kind(octets)),
            LineSender::Peer => or_side(shown, other(sender_by_kind(octets))),
            LineSender::Named(_) | LineSender::Unnamed | LineSender::Continued => shown,
        }
    }
}

/// The first side, or else the second.
fn or_side(first: Option<Side>, second: Option<Side>) -> Option<Side>
    ensures { result ≡ or_side first second }
{
    match first {
        None => second,
        Some(side) => Some(side),
    }
}

/// The other side.
fn other(side: Option<Side>) -> Option<Side>
    ensures { result ≡ option_map other_side side }
{
    match side {
        None => None,
        Some(side) => Some(side.other()),
    }
}
