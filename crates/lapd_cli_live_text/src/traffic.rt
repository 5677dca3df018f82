//! Counts of the frames that were sent, or of those that were received.

ghost use Rattle.std.specs.Prelude.{◌≡◌, ◌++◌, OnOk, flat_map, sum};
ghost use Rattle.std.specs.String.{string_bytes};
ghost use Rattle.lapd_cli_live_text.specs.Stats.{count_text, counted, kind_text, kinds_text, no_traffic, traffic_text, up_to_most};

use crate::frame_kind::{ALL_KINDS, FrameKind, KINDS};
use crate::link_text::push_number;
use std::alloc::AllocError;

/// The numbers of frames of each kind, and of their octets, that were sent or received. A count
/// that reaches `u64::MAX` stays there.
#[derive(Drop)]
pub(crate) struct Traffic {
    frames: [u64; KINDS],
    octets: u64,
}

impl Traffic {
    /// All counts 0.
    #[tactic(auto, unfolding(crate::specs::Stats::no_traffic))]
    pub(crate) fn new() -> Traffic
        ensures { result ≡ no_traffic }
    {
        Traffic {
            frames: [0; KINDS],
            octets: 0,
        }
    }

    /// Counts a frame of this kind, which has so many octets.
    pub(crate) fn count(&mut self, kind: FrameKind, octets: usize)
        ensures { self.new ≡ counted kind octets self.old }
    {
        let place = kind.place();
        self.frames[place] = self.frames[place].saturating_add(1);
        self.octets = self.octets.saturating_add(octets as u64);
    }

    /// Appends the numbers of frames and octets, and of frames of each kind.
    pub(crate) fn push(&self, text: &mut String) -> Result<(), AllocError>
        ensures { OnOk result (string_bytes text.new
            ≡ string_bytes text.old ++ traffic_text self.now) }
    {
        push_number("frames", all_of(&self.frames), text)?;
        push_number("octets", self.octets, text)?;
        push_all_kinds(&self.frames, text)
    }
}

/// The sum of counts, at most `u64::MAX`.
fn all_of(counts: &[u64]) -> u64
    ensures { result ≡ up_to_most (sum counts.now) }
{
    let mut all: u64 = 0;
    for count in counts {
        all = all.saturating_add(*count);
    }
    all
}

/// Appends the counts that are not 0.
#[tactic(auto, unfolding(crate::specs::Stats::kinds_text))]
fn push_all_kinds(counts: &[u64; KINDS], text: &mut String) -> Result<(), AllocError>
    ensures { OnOk result (string_bytes text.new
        ≡ string_bytes text.old ++ kinds_text counts.now) }
{
    push_kinds(&ALL_KINDS, counts, text)
}

/// Appends the counts of these kinds that are not 0.
fn push_kinds(
    kinds: &[FrameKind],
    counts: &[u64; KINDS],
    text: &mut String,
) -> Result<(), AllocError>
    ensures { OnOk result (string_bytes text.new
        ≡ string_bytes text.old ++ flat_map (kind_text counts.now) kinds.now) }
{
    for kind in kinds {
        push_count(kind.name(), counts[kind.place()], text)?;
    }
    Ok(())
}

/// Appends a count with its name, if it is not 0.
pub(crate) fn push_count(name: &str, count: u64, text: &mut String) -> Result<(), AllocError>
    ensures { OnOk result (string_bytes text.new
        ≡ string_bytes text.old ++ count_text name.now count) }
{
    if count == 0 {
        return Ok(());
    }
    push_number(name, count, text)
}
