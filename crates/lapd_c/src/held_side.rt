//! A side together with its results that wait to be fetched.

ghost use Rattle.std.specs.Prelude.{◌≡◌, ◌<◌, ◌≤◌, [], length, option_copied, None, IfOk, OnErr, OnOk};
ghost use Rattle.lapd_sides_links.specs.Effects.{no_effects};
ghost use Rattle.lapd_sides.specs.Either.{Takes, Answers, Gives};
ghost use Rattle.lapd_sides.specs.Queued.{LacksRoom};
ghost use Rattle.lapd_c.specs.Calls.{or_never, waiting, items_waiting, is_full, Asks, BeginsCounting, Checks, HasSetTimers, IsReady, Ticks, TicksReady, ReturnsCounters, ReturnsDeadline, ReturnsDiscarded, ReturnsState, ReturnsTerminal, FetchesFrame, FetchesItem, FetchesNext, FetchesPrimitive, overwritten};
ghost use Rattle.lapd_c.specs.TeiLists.{HasTeis, ReturnsLinks, ReturnsList, ReturnsTeis};
ghost use Rattle.lapd_c.specs.SideQueries.{HasCheck, HasTerminal, link_meant, link_of_call, or_no_tei, state_of_terminal, tei_of_terminal, with_own_tei};

use crate::codes::{
    CHECK_RUNS, DONE, MEMORY, NO_LINK, NOT_COUNTING, OUT_OF_RANGE, PENDING, code_of,
};
use crate::flat_primitive::{FlatPrimitive, flatten};
use crate::link_counters::FlatCounters;
use crate::link_counts::{LinkCounts, count_received, count_results};
use crate::link_state::LinkState;
use crate::tei_lists::{Teis, tei_alone, teis_held, teis_with_link};
use lapd_link::Link;
use lapd_sides::{
    Durations, EitherSide, LinkId, LinkTable, QueuedSide, Request, Sapi, Tei, Terminal,
};
use std::alloc::{AllocError, Global};

/// A side with the results of its calls that C has not fetched.
#[derive(Drop)]
pub struct HeldSide {
    /// The counters of the links, if the side counts.
    counts: Option<LinkCounts>,
    /// If this many frames or primitives wait, calls that could add more are refused.
    most_waiting: u16,
    // Last, because most of it is not touched by most calls.
    queued: QueuedSide,
}

/// The number for no TEI, which is LAPD_NO_TEI in C.
const NO_TEI: u8 = 255;

impl HeldSide {
    /// Holds a new side without results, with this limit for waiting frames and for waiting
    /// primitives.
    pub(crate) fn new(
        alloc: Global,
        side: EitherSide,
        most_waiting: u16,
    ) -> Result<HeldSide, AllocError>
        ensures { IfOk result (λ held. held ≡ record {
          queued = record {
            side = side;
            acts = no_effects;
            backlog = no_effects;
          };
          most_waiting = most_waiting;
          counts = None;
        }) }
    {
        Ok(HeldSide {
            queued: QueuedSide::new(alloc, side)?,
            most_waiting,
            counts: None,
        })
    }

    /// Whether so many results wait that a call must be refused.
    fn is_full(&self) -> bool
        ensures { result ≡ is_full self.now }
    {
        let most = usize::from(self.most_waiting);
        most <= self.queued.frames_waiting() || most <= self.queued.primitives_waiting()
    }

    /// If the side counts, sets the waiting results aside, so that those of the next call are the
    /// last ones.
    ///
    /// # Errors
    ///
    /// `AllocError` if an allocation failed. Nothing is changed.
    #[inline(always)]
    fn make_ready(&mut self) -> Result<(), AllocError>
        ensures ready { OnOk result (IsReady self.old self.new) }
        ensures lacks { OnErr result (LacksRoom self.old.queued self.new.queued) }
        ensures rest { self.new ≡ record self.old { queued = self.new.queued } }
    {
        match &self.counts {
            Some(_) => self.queued.set_aside(),
            None => Ok(()),
        }
    }

    /// Processes octets received from the line at the time `now`.
    pub(crate) fn take(&mut self, octets: &[u8], now: u64) -> u32
        ensures { Asks (Takes octets.now now) octets.now self.old self.new result }
    {
        if self.is_full() {
            return PENDING;
        }
        match self.make_ready() {
            Ok(()) => {
                count_received(&mut self.counts, &self.queued, octets);
                let result = self.queued.take(octets, now);
                count_results(&mut self.counts, &self.queued);
                code_of(result)
            }
            Err(_) => MEMORY,
        }
    }

    /// Executes a request at the time `now`.
    pub(crate) fn request(&mut self, request: Request, now: u64) -> u32
        ensures { Asks (Answers request now) [] self.old self.new result }
    {
        if self.is_full() {
            return PENDING;
        }
        match self.make_ready() {
            Ok(()) => {
                let result = self.queued.request(request, now);
                count_results(&mut self.counts, &self.queued);
                code_of(result)
            }
            Err(_) => MEMORY,
        }
    }

    /// Submits a copy of these octets to a link as a layer 3 message, at the time `now`.
    pub(crate) fn give(&mut self, id: &LinkId, octets: &[u8], now: u64) -> u32
        ensures { Asks (Gives id.now octets.now now) [] self.old self.new result }
    {
        if self.is_full() {
            return PENDING;
        }
        match self.make_ready() {
            Ok(()) => {
                let result = self.queued.give(*id, octets, now);
                count_results(&mut self.counts, &self.queued);
                code_of(result)
            }
            Err(_) => MEMORY,
        }
    }

    /// Executes a request of a check at the time `now`, unless a check is in progress.
    pub(crate) fn check(&mut self, request: Request, now: u64) -> u32
        ensures { Checks request now self.old self.new result }
    {
        if self.is_full() {
            return PENDING;
        }
        match self.checked() {
            Some(_) => CHECK_RUNS,
            None => self.request(request, now),
        }
    }

    /// The TEI under check, if this is a network side that checks one.
    fn checked(&self) -> Option<Tei>
        ensures { HasCheck self.now.queued.side result }
    {
        match self.queued.side() {
            EitherSide::Network(side) => side.assigner().check(),
            EitherSide::User(_) => None,
        }
    }

    /// Expires the first timer that is due at the time `now`. `expired` is 1 if one was due, else
    /// 0.
    pub(crate) fn tick(&mut self, now: u64, expired: &mut u8) -> u32
        ensures { Ticks now expired.new self.old self.new result }
    {
        *expired = 0;
        if self.is_full() {
            return PENDING;
        }
        match self.tick_ready(now) {
            Ok(is_due) => {
                count_results(&mut self.counts, &self.queued);
                if is_due {
                    *expired = 1;
                }
                DONE
            }
            Err(_) => MEMORY,
        }
    }

    /// Expires the first timer that is due, after `make_ready`.
    ///
    /// # Errors
    ///
    /// `AllocError` if an allocation failed. Nothing is changed.
    fn tick_ready(&mut self, now: u64) -> Result<bool, AllocError>
        ensures ticked { IfOk result (λ is_due. TicksReady now is_due self.old self.new) }
        ensures lacks { OnErr result (LacksRoom self.old.queued self.new.queued) }
        ensures rest { self.new ≡ record self.old { queued = self.new.queued } }
    {
        self.make_ready()?;
        self.queued.tick(now)
    }

    /// Sets how long timers run when they are started from then on.
    pub(crate) fn set_timers(&mut self, durations: Durations) -> u32
        ensures { HasSetTimers durations self.old self.new result }
    {
        self.queued.set_durations(durations);
        DONE
    }

    /// Begins to count, from 0.
    pub(crate) fn begin_counting(&mut self, alloc: Global) -> u32
        ensures { BeginsCounting self.old self.new result }
    {
        match LinkCounts::new(alloc) {
            Ok(counts) => {
                self.counts = Some(counts);
                DONE
            }
            Err(_) => MEMORY,
        }
    }

    /// Sets `counters` to those of the link with this id, or to 0 if the side does not count.
    pub(crate) fn counters(&self, id: LinkId, counters: &mut FlatCounters) -> u32
        ensures { ReturnsCounters id counters.new self.now self.now result }
    {
        match &self.counts {
            Some(counts) => {
                *counters = FlatCounters::of(counts.counters(id));
                DONE
            }
            None => {
                *counters = FlatCounters::nothing();
                NOT_COUNTING
            }
        }
    }

    /// Sets `moment` to the next moment at which something is due, in milliseconds, or to the
    /// greatest moment if no timer runs.
    pub(crate) fn next_deadline(&self, moment: &mut u64) -> u32
        ensures { ReturnsDeadline moment.new self.now self.now result }
    {
        *moment = moment_or_never(self.queued.side().next_deadline());
        DONE
    }

    /// Sets `count` to the number of discarded frames.
    pub(crate) fn discarded(&self, count: &mut u64) -> u32
        ensures { ReturnsDiscarded count.new self.now self.now result }
    {
        *count = self.queued.side().discarded();
        DONE
    }

    /// The terminal of a user side.
    fn terminal(&self) -> Option<&Terminal>
        ensures { HasTerminal self.now.queued.side (option_copied result) }
    {
        match self.queued.side() {
            EitherSide::Network(_) => None,
            EitherSide::User(side) => Some(side.terminal()),
        }
    }

    /// Sets `state` and `tei` to the state and the TEI of a user side's terminal.
    pub(crate) fn terminal_state(&self, state: &mut u8, tei: &mut u8) -> u32
        ensures { ReturnsTerminal state.new tei.new self.now self.now result }
    {
        let terminal = self.terminal();
        *state = state_of_terminal(terminal);
        *tei = tei_of_terminal(terminal);
        DONE
    }

    /// Sets `state` to the state of a link. On a user side, the link has the terminal's TEI.
    pub(crate) fn state(&self, id: LinkId, state: &mut LinkState) -> u32
        ensures { ReturnsState id state.new self.now self.now result }
    {
        match link_meant(
            self.queued.side().table(),
            link_of_call(self.terminal(), id),
        ) {
            Some(link) => {
                *state = LinkState::of(link);
                DONE
            }
            None => {
                *state = LinkState::nothing();
                NO_LINK
            }
        }
    }

    /// Writes the TEIs that a network side holds, or the one that a user side has, to the beginning
    /// of the buffer, if they fit. `count` is their number.
    pub(crate) fn teis(&self, buffer: &mut [u8], count: &mut usize) -> u32
        ensures { ReturnsTeis self.now self.now result count.new
            (record { before = buffer.old; after = buffer.new }) }
    {
        let teis = self.own_teis();
        write_list(teis.as_slice(), buffer, count)
    }

    /// The TEIs that a network side holds, or the one that a user side has.
    fn own_teis(&self) -> Teis
        ensures { HasTeis self.now.queued.side result.items }
    {
        match self.queued.side() {
            EitherSide::Network(side) => teis_held(side.assigner()),
            EitherSide::User(side) => tei_alone(side.terminal().tei()),
        }
    }

    /// Writes the TEIs of the links with this SAPI, like `teis`.
    pub(crate) fn links(&self, sapi: Sapi, buffer: &mut [u8], count: &mut usize) -> u32
        ensures { ReturnsLinks sapi self.now self.now result count.new
            (record { before = buffer.old; after = buffer.new }) }
    {
        let teis = teis_with_link(self.queued.side().table(), sapi);
        write_list(teis.as_slice(), buffer, count)
    }

    /// Moves the first waiting frame to the beginning of the buffer. `count` is its number of
    /// octets, or 0 if no frame is left. If the buffer is too small, only `count` is set, and the
    /// frame still waits.
    pub(crate) fn next_frame(&mut self, buffer: &mut [u8], count: &mut usize) -> u32
        ensures { FetchesFrame self.old self.new result count.new
            (record { before = buffer.old; after = buffer.new }) }
    {
        let Some(frame) = self.queued.first_frame() else {
            *count = 0;
            return DONE;
        };
        *count = frame.len();
        if buffer.len() < frame.len() {
            return OUT_OF_RANGE;
        }
        overwrite(buffer, frame);
        self.queued.remove_frame();
        DONE
    }

    /// Fetches the first waiting frame, otherwise the first waiting primitive. `left` is the number
    /// of those that still wait.
    pub(crate) fn next(
        &mut self,
        item: &mut FlatPrimitive,
        buffer: &mut [u8],
        left: &mut usize,
    ) -> u32
        ensures { FetchesNext self.old self.new result item.new left.new
            (record { before = buffer.old; after = buffer.new }) }
    {
        let code = self.next_item(item, buffer);
        *left = self.items_waiting();
        code
    }

    /// Fetches the first waiting frame, otherwise the first waiting primitive.
    fn next_item(&mut self, item: &mut FlatPrimitive, buffer: &mut [u8]) -> u32
        ensures { FetchesItem self.old self.new result item.new
            (record { before = buffer.old; after = buffer.new }) }
    {
        let Some(frame) = self.queued.first_frame() else {
            return self.next_primitive(item, buffer);
        };
        *item = FlatPrimitive::of_frame(frame);
        if buffer.len() < frame.len() {
            return OUT_OF_RANGE;
        }
        overwrite(buffer, frame);
        self.queued.remove_frame();
        DONE
    }

    /// How many frames and primitives wait, up to the greatest `usize`.
    fn items_waiting(&self) -> usize
        ensures { result ≡ items_waiting self.now }
    {
        let frames = self.queued.frames_waiting();
        frames.saturating_add(self.queued.primitives_waiting())
    }

    /// Fetches the first waiting primitive, and copies its octets to the beginning of the buffer.
    /// If the buffer is too small for them, the primitive still waits.
    // Inlined, so that a program that asks until none is left saves no registers the last time.
    #[inline(always)]
    pub(crate) fn next_primitive(&mut self, delivered: &mut FlatPrimitive, buffer: &mut [u8]) -> u32
        ensures { FetchesPrimitive self.old self.new result delivered.new
            (record { before = buffer.old; after = buffer.new }) }
    {
        if self.queued.first_primitive().is_none() {
            *delivered = FlatPrimitive::nothing();
            return DONE;
        }
        self.fetch_primitive(delivered, buffer)
    }

    /// Like `next_primitive`, if there is one.
    #[inline(never)]
    fn fetch_primitive(&mut self, delivered: &mut FlatPrimitive, buffer: &mut [u8]) -> u32
        requires waits { 0 < length (waiting self.old).primitives }
        ensures { FetchesPrimitive self.old self.new result delivered.new
            (record { before = buffer.old; after = buffer.new }) }
    {
        let Some(primitive) = self.queued.first_primitive() else {
            unreachable!();
        };
        let (form, octets) = flatten(primitive);
        *delivered = form;
        if buffer.len() < octets.len() {
            return OUT_OF_RANGE;
        }
        overwrite(buffer, octets);
        self.queued.remove_primitive();
        DONE
    }
}

/// The moment, or the greatest moment if there is none.
fn moment_or_never(moment: Option<u64>) -> u64
    ensures { result ≡ or_never moment }
{
    match moment {
        Some(moment) => moment,
        None => u64::MAX,
    }
}

/// The state of a terminal, 1 to 4; 0 without a terminal.
fn state_of_terminal(terminal: Option<&Terminal>) -> u8
    ensures { result ≡ state_of_terminal (option_copied terminal.entry) }
{
    match terminal {
        Some(terminal) => terminal.state(),
        None => 0,
    }
}

/// The TEI of a terminal; 255 if it has none, and without a terminal.
fn tei_of_terminal(terminal: Option<&Terminal>) -> u8
    ensures { result ≡ tei_of_terminal (option_copied terminal.entry) }
{
    match terminal {
        Some(terminal) => or_no_tei(terminal.tei()),
        None => NO_TEI,
    }
}

/// The number of a TEI, or 255 if there is none.
fn or_no_tei(tei: Option<Tei>) -> u8
    ensures { result ≡ or_no_tei tei }
{
    match tei {
        Some(tei) => tei.value(),
        None => NO_TEI,
    }
}

/// The id of the link that C means: on a user side, that of the terminal's own TEI.
fn link_of_call(terminal: Option<&Terminal>, id: LinkId) -> Option<LinkId>
    ensures { result ≡ link_of_call (option_copied terminal.entry) id }
{
    match terminal {
        Some(terminal) => with_own_tei(id, terminal.tei()),
        None => Some(id),
    }
}

/// The id of a terminal's link, if the terminal has a TEI.
fn with_own_tei(id: LinkId, tei: Option<Tei>) -> Option<LinkId>
    ensures { result ≡ with_own_tei id tei }
{
    match tei {
        Some(tei) => Some(LinkId { tei, sapi: id.sapi }),
        None => None,
    }
}

/// The link with this id, if there is one.
fn link_meant(table: &LinkTable, id: Option<LinkId>) -> Option<&Link>
    ensures { option_copied result ≡ link_meant table.now id }
{
    match id {
        Some(id) => table.link(id),
        None => None,
    }
}

/// Writes a list to the beginning of a buffer, if it fits. `count` is the length of the list.
fn write_list(list: &[u8], buffer: &mut [u8], count: &mut usize) -> u32
    ensures { ReturnsList list.now result count.new
        (record { before = buffer.old; after = buffer.new }) }
{
    *count = list.len();
    if buffer.len() < list.len() {
        return OUT_OF_RANGE;
    }
    overwrite(buffer, list);
    DONE
}

/// Overwrites the beginning of a buffer with these octets.
// Most primitives have none, and a frame without information has four: neither is worth a call of
// the C library.
#[inline(always)]
pub(crate) fn overwrite(buffer: &mut [u8], octets: &[u8])
    requires { length octets.now ≤ length buffer.old }
    ensures { buffer.new ≡ overwritten octets.now buffer.old }
{
    match octets.len() {
        0 => {}
        4 => buffer[..4].copy_from_slice(&octets[..4]),
        len => buffer[..len].copy_from_slice(octets),
    }
}
