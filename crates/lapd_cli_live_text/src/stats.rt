//! Statistics of a side: frames and octets on the line, and reports.

ghost use Rattle.std.specs.Prelude.{◌≡◌, ◌<◌, ◌++◌, OnOk, flat_map};
ghost use Rattle.std.specs.String.{string_bytes};
ghost use Rattle.lapd_frame.specs.declared.Side.{Side};
ghost use Rattle.lapd_frame.specs.Reading.{frame_at};
ghost use Rattle.lapd_cli_live_text.specs.Stats.{after_sent_control, letter_place, letter_text, letters_text, link_place, nothing_counted, numbered, received_counted, received_words, reports_words, restarted, sent_counted, sent_words, primitive_counted};

use crate::frame_kind::FrameKind;
use crate::link_text::push_number;
use crate::traffic::{Traffic, push_count};
use lapd_frame::{Address, Control, Frame, FrameFault, Sapi};
use lapd_link::Letter;
use lapd_sides_links::{Primitive, What};
use std::alloc::AllocError;

/// The number of letters of reports (Q.921 Appendix II).
const LETTERS: usize = 15;

/// The number of links that may exist: 128 TEIs of each of three SAPIs.
const LINKS: usize = 384;

/// All letters, in the order in which their counts are printed.
const ALL_LETTERS: [Letter; LETTERS] = [
    Letter::A,
    Letter::B,
    Letter::C,
    Letter::D,
    Letter::E,
    Letter::F,
    Letter::G,
    Letter::H,
    Letter::I,
    Letter::J,
    Letter::K,
    Letter::L,
    Letter::M,
    Letter::N,
    Letter::O,
];

/// Counts of frames and octets on the line, and of reports. A count that reaches `u64::MAX` stays
/// there.
#[derive(Drop)]
pub struct Stats {
    sent: Traffic,
    received: Traffic,
    /// I frames that were sent again.
    again: u64,
    /// Reports by their letters.
    reports: [u64; LETTERS],
    /// For each link, the N(S) of its next new I frame.
    next: [u8; LINKS],
}

impl Stats {
    /// Statistics with all counts 0.
    #[tactic(auto, unfolding(crate::specs::Stats::nothing_counted))]
    pub fn new() -> Stats
        ensures { result ≡ nothing_counted }
    {
        Stats {
            sent: Traffic::new(),
            received: Traffic::new(),
            again: 0,
            reports: [0; LETTERS],
            next: [0; LINKS],
        }
    }

    /// Counts a frame that this side sent. `frame` is what [`lapd_frame::read`] returned for its
    /// octets. An I frame was sent again unless its N(S) is the next new one of its link. A SABME
    /// or UA restarts its link's numbers at 0.
    #[tactic(auto, unfolding(crate::specs::Stats::sent_counted))]
    pub fn count_sent(&mut self, octets: &[u8], frame: &Result<Frame<'_>, FrameFault>)
        ensures { (from : Side) → frame.now ≡ frame_at from octets.now
            → self.new ≡ sent_counted self.old from octets.now }
    {
        match frame {
            Ok(frame) => {
                let control = frame.control();
                self.sent.count(FrameKind::of(&control), octets.len());
                self.follow_sent(&control, place_of(frame.address()));
            }
            Err(_) => self.sent.count(FrameKind::Other, octets.len()),
        }
    }

    /// Counts a frame that this side received. `frame` is what [`lapd_frame::read`] returned for
    /// its octets.
    #[tactic(auto, unfolding(crate::specs::Stats::received_counted))]
    pub fn count_received(&mut self, octets: &[u8], frame: &Result<Frame<'_>, FrameFault>)
        ensures { (from : Side) → frame.now ≡ frame_at from octets.now
            → self.new ≡ received_counted self.old from octets.now }
    {
        let kind = match frame {
            Ok(frame) => FrameKind::of(&frame.control()),
            Err(_) => FrameKind::Other,
        };
        self.received.count(kind, octets.len());
    }

    /// Counts a report by its letter. No other primitive is counted.
    #[tactic(auto, unfolding(crate::specs::Stats::primitive_counted))]
    pub fn count_primitive(&mut self, primitive: &Primitive)
        ensures { self.new ≡ primitive_counted self.old primitive.now }
    {
        if let Primitive::Of(_, What::Report(letter)) = primitive {
            let place = place_of_letter(*letter);
            self.reports[place] = self.reports[place].saturating_add(1);
        }
    }

    /// Appends the line of sent frames, without a line feed.
    ///
    /// # Errors
    ///
    /// `AllocError`. A front of the line may have been appended.
    #[tactic(auto, unfolding(crate::specs::Stats::sent_words))]
    pub fn push_sent(&self, text: &mut String) -> Result<(), AllocError>
        ensures { OnOk result (string_bytes text.new
            ≡ string_bytes text.old ++ sent_words self.now) }
    {
        text.push_str("sent")?;
        self.sent.push(text)?;
        push_number("again", self.again, text)
    }

    /// Appends the line of received frames, without a line feed. `discarded` of them were
    /// discarded.
    ///
    /// # Errors
    ///
    /// `AllocError`. A front of the line may have been appended.
    #[tactic(auto, unfolding(crate::specs::Stats::received_words))]
    pub fn push_received(&self, discarded: u64, text: &mut String) -> Result<(), AllocError>
        ensures { OnOk result (string_bytes text.new
            ≡ string_bytes text.old ++ received_words self.now discarded) }
    {
        text.push_str("received")?;
        self.received.push(text)?;
        push_number("discarded", discarded, text)
    }

    /// Appends the line of reports, without a line feed.
    ///
    /// # Errors
    ///
    /// `AllocError`. A front of the line may have been appended.
    #[tactic(auto, unfolding(crate::specs::Stats::reports_words))]
    pub fn push_reports(&self, text: &mut String) -> Result<(), AllocError>
        ensures { OnOk result (string_bytes text.new
            ≡ string_bytes text.old ++ reports_words self.now) }
    {
        text.push_str("reports")?;
        push_all_letters(&self.reports, text)
    }

    /// Updates the numbers of a link after a frame was sent.
    fn follow_sent(&mut self, control: &Control, place: usize)
        requires { place < LINKS }
        ensures { self.new ≡ after_sent_control control.now place self.old }
    {
        match control {
            Control::I { ns, .. } => self.count_ns(place, ns.value()),
            Control::Sabme { .. } | Control::Ua { .. } => self.next[place] = 0,
            _ => {}
        }
    }

    /// Counts an I frame with this N(S) as sent again, unless it is the next new one of its link.
    fn count_ns(&mut self, place: usize, ns: u8)
        requires { place < LINKS }
        ensures { self.new ≡ numbered place ns self.old }
    {
        if self.next[place] == ns {
            self.next[place] = ns.wrapping_add(1) % 128;
        } else {
            self.again = self.again.saturating_add(1);
        }
    }
}

/// Appends the counts of reports that are not 0.
#[tactic(auto, unfolding(crate::specs::Stats::letters_text))]
fn push_all_letters(counts: &[u64; LETTERS], text: &mut String) -> Result<(), AllocError>
    ensures { OnOk result (string_bytes text.new
        ≡ string_bytes text.old ++ letters_text counts.now) }
{
    push_letters(&ALL_LETTERS, counts, text)
}

/// Appends the counts of these letters that are not 0.
fn push_letters(
    letters: &[Letter],
    counts: &[u64; LETTERS],
    text: &mut String,
) -> Result<(), AllocError>
    ensures { OnOk result (string_bytes text.new
        ≡ string_bytes text.old ++ flat_map (letter_text counts.now) letters.now) }
{
    for letter in letters {
        push_count(letter.name(), counts[place_of_letter(*letter)], text)?;
    }
    Ok(())
}

/// The index of the link with this address.
fn place_of(address: Address) -> usize
    ensures value { result ≡ link_place address }
    ensures within { result < LINKS }
{
    let first = match address.sapi {
        Sapi::Call => 0,
        Sapi::Packet => 128,
        Sapi::Management => 256,
    };
    first + usize::from(address.tei.value())
}

/// The index of a letter's count.
fn place_of_letter(letter: Letter) -> usize
    ensures value { result ≡ letter_place letter }
    ensures within { result < LETTERS }
{
    match letter {
        Letter::A => 0,
        Letter::B => 1,
        Letter::C => 2,
        Letter::D => 3,
        Letter::E => 4,
        Letter::F => 5,
        Letter::G => 6,
        Letter::H => 7,
        Letter::I => 8,
        Letter::J => 9,
        Letter::K => 10,
        Letter::L => 11,
        Letter::M => 12,
        Letter::N => 13,
        Letter::O => 14,
    }
}
