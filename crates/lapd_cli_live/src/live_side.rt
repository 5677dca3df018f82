//! A side that runs on the real clock.

ghost use Rattle.std.specs.Prelude.{◌≡◌, ◌∷◌, [], map, IfOk, IfSome, OnErr, OnOk};
ghost use Rattle.std.specs.List.{All};
ghost use Rattle.lapd_sides_links.specs.Effects.{HasLeastOctets};
ghost use Rattle.lapd_frame.specs.declared.Side.{Side as SideValue};
ghost use Rattle.lapd_cli_wire.specs.IoEvents.{SendsFront};
ghost use Rattle.lapd_cli_live.specs.Entries.{Delivered};
ghost use Rattle.std.specs.Io.KnownBytes.{Keeps};
ghost use Rattle.lapd_cli_live.specs.Printers.{PrintsOn, SendsAll, shown};
ghost use Rattle.lapd_cli_live.specs.Steps.{end_by_wait as end_of_wait, ended_by as ends_by, most_frames, request_for};

use crate::fault::LiveFault;
use crate::printer::Printer;
use crate::service::{EndReason, Service, Until};
use lapd_cli_script::LineFault;
use lapd_cli_wire::{Incident, Lines, MOST_RECEIVED, Outside, Woken, is_reached};
use lapd_frame::{Frame, FrameFault, Side, read};
use lapd_port::PortFault;
use lapd_sides::{Acts, EitherSide, FrameOctets, Letter, LinkId, Primitive, Request, What};
use lapd_tei_audit::AuditStep;
use lapd_timers::earlier;
use std::alloc::Global;
use std::io::Write;

/// The writes of a step that answers each frame by one frame, with up to 16 connections.
const WRITES: u64 = 4096;

/// The frames of a step with more connections: room for two answers of each of 127 terminals.
const LEAST_FRAMES: u64 = 256;

/// The most frames that a step receives with this many connections, 256 to 4,096. Each frame of the
/// side is written to each connection. So a flood of one terminal delays timers and lines of the
/// others by about the same time with 1 to 16 connections, and by 8 times that with 127.
pub fn frames_of_step(connections: u8) -> u64
    ensures { result ≡ most_frames connections }
{
    (WRITES / u64::from(connections.max(1))).max(LEAST_FRAMES)
}

/// A side with its surroundings and its printer.
#[derive(Drop)]
pub struct LiveSide<O, W> {
    pub(crate) alloc: Global,
    pub(crate) side: EitherSide,
    acts: Acts,
    pub(crate) outside: O,
    pub(crate) printer: Printer<W>,
    pub(crate) most: u64,
}

impl<O: Outside, W: Write> LiveSide<O, W> {
    ghost use Rattle.lapd_cli_live.specs.Log.{Between, HappenBeside, IsCarriedOut, ReadsClock, Shows};
    ghost use Rattle.lapd_cli_live.specs.Steps.{CatchesUp, DoesDue, EndsAfter, HasReceived, IsAsked, IsAskedFirst, IsExecuted, IsForAudit, IsServed, Looks, Proceeds, Step, TakesAt, WaitsFor, connection_lost, loss_events};

    /// A side with these surroundings. `acts` is the buffer for the output of its calls. A step
    /// receives at most `most` frames, as [`frames_of_step`] returns it for its connections.
    pub fn new(
        alloc: Global,
        side: EitherSide,
        acts: Acts,
        outside: O,
        printer: Printer<W>,
        most: u64,
    ) -> LiveSide<O, W>
        ensures side { result.side ≡ side }
        ensures outside { result.outside ≡ outside }
        ensures printer { result.printer ≡ printer }
        ensures most { result.most ≡ most }
    {
        LiveSide {
            alloc,
            side,
            acts,
            outside,
            printer,
            most,
        }
    }

    /// Flushes the printer, and returns the surroundings, the writer and the flush's result. If the
    /// flush succeeded and the writer's contents are known, the writer holds exactly what the side
    /// printed.
    pub fn into_parts(self) -> (O, W, Result<(), LiveFault>)
        ensures outside { result.0 ≡ self.outside }
        ensures printed { OnOk result.2
            (Keeps (shown W.contents self.printer).text (W.contents result.1)) }
    {
        let LiveSide {
            outside,
            printer,
            ..
        } = self;
        let (out, flushed) = printer.into_inner();
        (outside, out, flushed)
    }

    /// Reads the clock. A moment earlier than the last one is a fault.
    pub(crate) fn read_clock(&mut self) -> Result<u64, LiveFault>
        ensures { IfOk result (λ now.
            Between O.io_events O.impaired_by W.contents self.old self.new (ReadsClock now)) }
    {
        let now = self.outside.moment()?;
        if now < self.printer.moment() {
            return Err(LiveFault::Port(PortFault::Device));
        }
        self.printer.set_moment(now);
        Ok(now)
    }

    /// Sends and prints the output of the last call. On an error, a front of the frames was sent.
    fn carry_out(&mut self) -> Result<(), LiveFault>
        ensures carried { OnOk result
            (Between O.io_events O.impaired_by W.contents self.old self.new
            (IsCarriedOut self.old.acts)) }
        ensures err { OnErr result (SendsFront self.old.acts.frames (O.io_events self.old.outside)
            (O.io_events self.new.outside)) }
    {
        self.put_acts()?;
        self.note_unanswered();
        Ok(())
    }

    /// Sends and prints the output of the last call, and notes nothing.
    fn put_acts(&mut self) -> Result<(), LiveFault>
        ensures carried { OnOk result
            (Between O.io_events O.impaired_by W.contents self.old self.new
            (IsCarriedOut self.old.acts)) }
        ensures err { OnErr result (SendsFront self.old.acts.frames (O.io_events self.old.outside)
            (O.io_events self.new.outside)) }
    {
        let own = self.side.side();
        let (frames, primitives) = (self.acts.frames(), self.acts.primitives());
        send_all(own, frames, &mut self.outside, &mut self.printer)?;
        put_primitives(primitives, &mut self.printer)
    }

    /// Notes a link whose SABME or DISC the other side did not answer, by the output of the last
    /// call.
    fn note_unanswered(&mut self)
        ensures { Between O.io_events O.impaired_by W.contents self.old self.new (λ a b. b ≡ a) }
    {
        if let Some(id) = unanswered(self.acts.primitives()) {
            self.outside.note(Incident::Unanswered(id));
        }
    }

    /// Notes a request to all terminals that has sent nothing.
    fn note_without_effect(&mut self, incident: Option<Incident>)
        ensures { Between O.io_events O.impaired_by W.contents self.old self.new (λ a b. b ≡ a) }
    {
        match incident {
            Some(incident) if self.acts.frames().is_empty() => self.outside.note(incident),
            _ => {}
        }
    }

    /// Processes a frame at the moment `now`, and sends and prints the output. `now` was read just
    /// before the frame was received.
    fn take(&mut self, octets: &[u8], now: u64) -> Result<(), LiveFault>
        ensures { OnOk result
            (Between O.io_events O.impaired_by W.contents self.old self.new
            (TakesAt octets.now now)) }
    {
        let own = self.side.side();
        let from = own.other();
        let frame = read(octets, from);
        self.printer.put_received(own, octets, &frame)?;
        let discarded = self.side.discarded();
        let Ok(()) = self.side.take(octets, now, &mut self.acts) else {
            return Err(LiveFault::Line(LineFault::Memory));
        };
        let is_discarded = discarded < self.side.discarded();
        report_discarded(is_discarded, &frame, &mut self.outside);
        self.carry_out()
    }

    /// Processes the next frame that has arrived. Returns `false` if none has.
    fn receive_one(&mut self) -> Result<bool, LiveFault>
        ensures { IfOk result (λ matched.
            Between O.io_events O.impaired_by W.contents self.old self.new (Looks matched)) }
    {
        let now = self.read_clock()?;
        let mut frame = [0; MOST_RECEIVED];
        match self.outside.receive(&mut frame)? {
            Some(count) => {
                self.take(&frame[..count], now)?;
                Ok(true)
            }
            None => Ok(false),
        }
    }

    /// Processes the frames that have arrived, at most as many as a step receives, and none behind
    /// one that ends the service.
    fn receive_all(&mut self, until: Until) -> Result<Option<EndReason>, LiveFault>
        ensures { IfOk result (λ end_reason.
            Between O.io_events O.impaired_by W.contents self.old self.new
            (HasReceived until end_reason)) }
    {
        for _frame in 0..self.most {
            if !self.receive_one()? {
                return Ok(None);
            }
            let end_reason = ended_by(until, true, self.printer.is_matched());
            if end_reason.is_some() {
                return Ok(end_reason);
            }
        }
        Ok(None)
    }

    /// Expires all timers that are due at the printer's moment, one after another, and sends and
    /// prints the output. The bound is never reached; it only proves termination.
    fn expire_due(&mut self) -> Result<(), LiveFault>
        ensures { OnOk result
            (Between O.io_events O.impaired_by W.contents self.old self.new DoesDue) }
    {
        let now = self.printer.moment();
        for _tick in 0..u64::MAX {
            if !self.side.tick(now, &mut self.acts) {
                return Ok(());
            }
            self.carry_out()?;
        }
        Err(LiveFault::Line(LineFault::Device))
    }

    /// Processes the frames that have arrived, and then expires the timers that are due. Returns
    /// the moment.
    pub(crate) fn catch_up(&mut self) -> Result<u64, LiveFault>
        ensures moment { IfOk result (λ now. now ≡ self.new.printer.moment) }
        ensures does { OnOk result
            (Between O.io_events O.impaired_by W.contents self.old self.new
            (CatchesUp Until.NoEvent)) }
    {
        self.receive_all(Until::NoEvent)?;
        self.expire_due()?;
        Ok(self.printer.moment())
    }

    /// Catches up with the clock, and then submits a request to the side. If it is refused, the
    /// reason is printed.
    ///
    /// # Errors
    ///
    /// Those of [`Outside`], `Device` and `Memory`.
    pub fn ask(&mut self, request: Request) -> Result<(), LiveFault>
        ensures { OnOk result
            (Between O.io_events O.impaired_by W.contents self.old self.new (IsAsked request)) }
    {
        let without_effect = incident_without_effect(&request);
        self.catch_up()?;
        self.execute(request)?;
        self.note_without_effect(without_effect);
        Ok(())
    }

    /// Reads the clock, and submits a request to the side before anything is received. If it is
    /// refused, the reason is printed.
    ///
    /// # Errors
    ///
    /// Those of [`Outside`], `Device` and `Memory`.
    pub fn ask_first(&mut self, request: Request) -> Result<(), LiveFault>
        ensures { OnOk result (Between O.io_events O.impaired_by W.contents self.old self.new
            (IsAskedFirst request)) }
    {
        self.read_clock()?;
        self.execute(request)
    }

    /// Submits a request to the side at the printer's moment. If it is refused, the reason is
    /// printed.
    fn execute(&mut self, request: Request) -> Result<(), LiveFault>
        ensures { OnOk result (Between O.io_events O.impaired_by W.contents self.old self.new
            (IsExecuted request)) }
    {
        let now = self.printer.moment();
        let answered = self.side.request(request, now, &mut self.acts);
        self.carry_out()?;
        match answered {
            Ok(()) => Ok(()),
            Err(fault) => self.printer.put_refused(fault.kind),
        }
    }

    /// The moment `ms` milliseconds from now, if given.
    pub(crate) fn end_after(&mut self, ms: Option<u64>) -> Result<Option<u64>, LiveFault>
        ensures { IfOk result (λ end.
            Between O.io_events O.impaired_by W.contents self.old self.new (EndsAfter ms end)) }
    {
        let now = self.read_clock()?;
        match ms {
            Some(ms) => Ok(Some(now.saturating_add(ms))),
            None => Ok(None),
        }
    }

    /// Prints that a connection was lost.
    ///
    /// # Errors
    ///
    /// `Memory`.
    pub fn print_loss(&mut self) -> Result<(), LiveFault>
        ensures { OnOk result (Between O.io_events O.impaired_by W.contents self.old self.new
            (HappenBeside (Shows connection_lost ∷ []))) }
    {
        self.printer.put_words("connection lost")
    }

    /// Prints that a connection was lost, if that ended a wait.
    fn put_loss(&mut self, woken: Woken) -> Result<(), LiveFault>
        ensures { OnOk result (Between O.io_events O.impaired_by W.contents self.old self.new
            (HappenBeside (loss_events woken))) }
    {
        match woken {
            Woken::Lost => self.print_loss(),
            Woken::Arrival | Woken::Line | Woken::Due | Woken::Closed => Ok(()),
        }
    }

    /// Waits once, until the next deadline or the end of the service, whichever is first. Then it
    /// reads the clock, so that the next lines have the moment at which the wait ended, and prints
    /// that a connection was lost, if that ended the wait.
    fn wait(&mut self, service: Service) -> Result<Option<EndReason>, LiveFault>
        ensures { IfOk result (λ end_reason.
            Between O.io_events O.impaired_by W.contents self.old self.new
            (WaitsFor service end_reason)) }
    {
        self.printer.flush()?;
        let until = earlier(self.side.next_deadline(), service.end);
        let woken = self.outside.wait(until, service.lines)?;
        self.read_clock()?;
        self.put_loss(woken)?;
        Ok(end_by_wait(service.lines, woken))
    }

    /// The request of the next step of an audit of TEIs, if there is one.
    fn next_audit(&mut self) -> Option<Request>
        ensures unchanged { Between O.io_events O.impaired_by W.contents self.old self.new
            (λ a b. b ≡ a) }
        ensures request { IfSome result (IsForAudit self.old.side) }
    {
        match &self.side {
            EitherSide::Network(side) => {
                let step = self.outside.next_audit(side.assigner(), side.table())?;
                Some(request_of(step))
            }
            EitherSide::User(_) => None,
        }
    }

    /// Does the next step of an audit of TEIs, or waits if there is none. Returns why the service
    /// ends, if it does.
    fn proceed(&mut self, service: Service) -> Result<Option<EndReason>, LiveFault>
        ensures { IfOk result (λ end_reason.
            Between O.io_events O.impaired_by W.contents self.old self.new
            (Proceeds service end_reason)) }
    {
        match self.next_audit() {
            Some(request) => {
                self.execute(request)?;
                Ok(None)
            }
            None => self.wait(service),
        }
    }

    /// One step: processes the frames that have arrived, expires the timers that are due, and then
    /// does the next step of an audit of TEIs, or waits. Returns why the service ends, if it does.
    fn step(&mut self, service: Service) -> Result<Option<EndReason>, LiveFault>
        ensures { IfOk result (λ end_reason.
            Between O.io_events O.impaired_by W.contents self.old self.new
            (λ a b. Step service a b end_reason)) }
    {
        let end_reason = self.receive_all(service.until)?;
        if end_reason.is_some() {
            return Ok(end_reason);
        }
        self.expire_due()?;
        let end_reason = ended_by(service.until, false, self.printer.is_matched());
        if end_reason.is_some() {
            return Ok(end_reason);
        }
        if is_reached(service.end, self.printer.moment()) {
            return Ok(Some(EndReason::End));
        }
        self.proceed(service)
    }

    /// Serves the side, step by step, until the service ends. Returns why it ended.
    ///
    /// # Errors
    ///
    /// Those of [`Outside`], `Device` and `Memory`.
    pub fn serve(&mut self, service: Service) -> Result<EndReason, LiveFault>
        ensures { IfOk result (λ end_reason.
            Between O.io_events O.impaired_by W.contents self.old self.new
            (IsServed service end_reason)) }
    {
        for _step in 0..u64::MAX {
            if let Some(end_reason) = self.step(service)? {
                return Ok(end_reason);
            }
        }
        Err(LiveFault::Line(LineFault::Device))
    }
}

/// Reports that a frame of the other side was discarded, if it was and it names a link.
fn report_discarded<O: Outside>(
    is_discarded: bool,
    frame: &Result<Frame<'_>, FrameFault>,
    outside: &mut O,
)
    ensures io_events { O.io_events outside.new ≡ O.io_events outside.old }
    ensures impaired_by { O.impaired_by outside.new ≡ O.impaired_by outside.old }
{
    match frame {
        Ok(frame) if is_discarded => {
            let address = frame.address();
            outside.note(Incident::Discarded(LinkId {
                sapi: address.sapi,
                tei: address.tei,
            }));
        }
        _ => {}
    }
}

/// The first link whose SABME or DISC the other side did not answer.
fn unanswered(primitives: &[Primitive]) -> Option<LinkId> {
    for primitive in primitives {
        if let Primitive::Of(id, What::Report(Letter::G | Letter::H)) = primitive {
            return Some(*id);
        }
    }
    None
}

/// The incident of a request to all terminals that sends nothing.
fn incident_without_effect(request: &Request) -> Option<Incident> {
    match request {
        Request::CheckAll => Some(Incident::NotChecked),
        Request::RemoveAll => Some(Incident::NotRemoved),
        _ => None,
    }
}

/// The request that does a step of an audit.
fn request_of(step: AuditStep) -> Request
    ensures { result ≡ request_for step }
{
    match step {
        AuditStep::Remove(tei) => Request::Remove(tei),
        AuditStep::Check(tei) => Request::Check(tei),
        AuditStep::CheckAll => Request::CheckAll,
    }
}

/// Sends these frames, and prints each once it is sent.
fn send_all<O: Outside, W: Write>(
    own: Side,
    frames: &[FrameOctets],
    outside: &mut O,
    printer: &mut Printer<W>,
) -> Result<(), LiveFault>
    requires { All (λ f. HasLeastOctets f.items) frames.now }
    ensures sent { OnOk result
        (SendsAll own (map (λ f. f.items) frames.now) (O.io_events outside.old)
        (O.io_events outside.new) (O.impaired_by outside.old) (O.impaired_by outside.new)
        W.contents printer.old printer.new) }
    ensures err { OnErr result (SendsFront (map (λ f. f.items) frames.now) (O.io_events outside.old)
        (O.io_events outside.new)) }
{
    for frame in frames {
        let octets = frame.as_slice();
        let sending = outside.send(octets)?;
        printer.put_sent(own, octets, sending)?;
    }
    Ok(())
}

/// Prints these primitives to layer 3.
fn put_primitives<W: Write>(
    primitives: &[Primitive],
    printer: &mut Printer<W>,
) -> Result<(), LiveFault>
    ensures { (own : SideValue) → OnOk result
        (PrintsOn W.contents own (map Delivered primitives.now) printer.old printer.new) }
{
    for primitive in primitives {
        printer.put_primitive(primitive)?;
    }
    Ok(())
}

/// Why a service ends, if a processed frame or the awaited line ends it.
fn ended_by(until: Until, is_taken: bool, is_matched: bool) -> Option<EndReason>
    ensures { result ≡ ends_by until is_taken is_matched }
{
    match until {
        Until::Frame if is_taken => Some(EndReason::Frame),
        Until::Matched if is_matched => Some(EndReason::Matched),
        Until::NoEvent | Until::Frame | Until::Matched => None,
    }
}

/// Why a service ends, if the reason that ended a wait ends the service too.
fn end_by_wait(lines: Lines, woken: Woken) -> Option<EndReason>
    ensures { result ≡ end_of_wait lines woken }
{
    match (woken, lines) {
        (Woken::Closed, _) => Some(EndReason::Closed),
        (Woken::Line, Lines::Awaited) => Some(EndReason::Line),
        (Woken::Line, Lines::Ignored) | (Woken::Arrival | Woken::Lost | Woken::Due, _) => None,
    }
}
