ghost use Rattle.std.specs.Prelude.{◌≡◌};
ghost use Rattle.lapd_cli_frames.specs.Drawn.{ladder_of};
ghost use Rattle.lapd_cli_frames.specs.Filter.{is_again, is_sent_again, reaches, takes_by, takes_filtered, takes_said};
ghost use Rattle.lapd_cli_frames.specs.Frames.{said_if};

use crate::call_filter::is_of_call;
use crate::frame_time::FrameTime;
use crate::style::Style;
use lapd_cli_ladder::LadderStyle;
use lapd_filter::Filter;
use lapd_follow::{Remark, Remarks};

/// The layout of the output.
#[derive(Clone, Copy, Debug, PartialEq, Eq)]
pub enum Layout {
    /// A line for each frame.
    Lines,
    /// A drawing. Of the style only the names count, and there are no tables.
    Drawn(Drawing),
}

/// How frames are drawn.
#[derive(Clone, Copy, Debug, PartialEq, Eq)]
pub enum Drawing {
    /// A ladder of lines.
    Ladder,
    /// The same as a picture (SVG), without its beginning and its end.
    Picture,
    /// The rows of a page for a browser, without its beginning and its end.
    Page,
    /// The records of a pcap file of link type 177, without its head.
    Records,
}

/// How frames are printed, and which.
#[derive(Clone, Copy)]
pub struct FrameStyle {
    /// The layout of all frames.
    pub layout: Layout,
    /// The style of each line.
    pub style: Style,
    /// The time before a trace line. The lines of a script have no time, so there it is `-`.
    pub time: FrameTime,
    /// Which frames are printed; all if `None`.
    pub filter: Option<Filter>,
    /// Whether I frames that are sent again are left out, if links are followed.
    pub once: bool,
    /// Whether octets with a SAPI other than 0, 16 and 63 are read as frames, and not as fault F3.
    pub any_sapi: bool,
    /// Whether trace lines are printed in the color of their sender, or of a violation.
    pub is_colored: bool,
    /// After how many printed frames the output ends; never if `None`.
    pub count: Option<u64>,
}

impl FrameStyle {
    /// All frames as their trace lines.
    pub const PLAIN: FrameStyle = FrameStyle {
        layout: Layout::Lines,
        style: Style::Plain,
        time: FrameTime::Hidden,
        filter: None,
        once: false,
        any_sapi: false,
        is_colored: false,
        count: None,
    };

    /// How a ladder is drawn.
    pub(crate) fn ladder(&self) -> LadderStyle
        ensures { result ≡ ladder_of self.now }
    {
        LadderStyle {
            time_width: self.time.width(),
            names: self.style.has_names(),
        }
    }

    /// Whether a frame of these octets, with these remarks if links are followed, is printed.
    pub(crate) fn takes(&self, is_followed: bool, said: &Remarks, octets: &[u8]) -> bool
        ensures { result ≡ takes_by self.now.once self.now.filter (said_if is_followed said.now)
            octets.now }
    {
        if self.once && is_sent_again(is_followed, said) {
            return false;
        }
        takes_filtered(&self.filter, is_followed, said, octets)
    }

    /// Whether the output ends after so many printed frames.
    pub(crate) fn ends_after(&self, printed: u64) -> bool
        ensures { result ≡ reaches self.now.count printed }
    {
        match self.count {
            None => false,
            Some(count) => count <= printed,
        }
    }
}

/// Whether the remarks on a frame, if links are followed, show that it is sent again.
fn is_sent_again(is_followed: bool, said: &Remarks) -> bool
    ensures { result ≡ is_sent_again (said_if is_followed said.now) }
{
    if is_followed {
        is_again(&said.ns)
    } else {
        false
    }
}

/// Whether this is the remark on an I frame that is sent again: it is not acknowledged, or its N(S)
/// is less than 64 before the next one.
fn is_again(ns: &Option<Remark>) -> bool
    ensures { result ≡ is_again ns.now }
{
    match *ns {
        Some(Remark::Repeated) => true,
        Some(Remark::NsExpected { ns, expected }) => {
            (expected.value() + 128 - ns.value()) % 128 < 64
        }
        _ => false,
    }
}

/// Whether this filter, if there is one, takes a frame.
fn takes_filtered(filter: &Option<Filter>, is_followed: bool, said: &Remarks, octets: &[u8]) -> bool
    ensures { result ≡ takes_filtered filter.now (said_if is_followed said.now) octets.now }
{
    match filter {
        None => true,
        Some(filter) => takes_said(filter, is_followed, said, octets),
    }
}

/// Whether this filter takes a frame of these octets, with these remarks if links are followed.
fn takes_said(filter: &Filter, is_followed: bool, said: &Remarks, octets: &[u8]) -> bool
    ensures { result ≡ takes_said filter.now (said_if is_followed said.now) octets.now }
{
    filter.takes(octets)
        && is_of_call(filter.call, octets)
        && (!filter.only_violations || is_followed && said.has_violation())
}
