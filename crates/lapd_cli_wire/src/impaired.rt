//! A line that loses and delays the frames of one side on purpose, to try how links recover.

ghost use Rattle.std.specs.Prelude.{◌≡◌, ◌≤◌, length, IfOk, IfSome, OnOk};
ghost use Rattle.lapd_port.specs.SocketText.{IsFrameLength};

use crate::delays::Delays;
use crate::impairment::Impairment;
use crate::outside::{Incident, Lines, MOST_RECEIVED, Outside, Sending, Woken, is_reached};
use lapd_port::PortFault;
use lapd_table::LinkTable;
use lapd_tei::Assigner;
use lapd_tei_audit::AuditStep;
use lapd_timers::earlier;
use std::alloc::Global;

/// A line and a clock, with a line that can be impaired ([`Outside::impair`]). Each frame that the
/// side sends is lost with the chance that was set. Otherwise it is sent when the delay has passed,
/// after the frames that were passed in before it. Received frames are not impaired.
#[derive(Drop)]
pub struct Impaired<O> {
    inner: O,
    delays: Delays,
}

impl<O: Outside> Impaired<O> {
    ghost use Rattle.std.specs.Prelude.{[]};
    ghost use Rattle.rand_core.specs.Pcg32Seed.{pcg32_seed};
    ghost use Rattle.rand_pcg.specs.Pcg.{pcg32_of_seed};
    ghost use Rattle.lapd_cli_wire.specs.Delays.{AddsSome, IsOver, PutsOff, Round, SendsDue, WaitsOnce};

    /// Creates a line that is not impaired yet. The seed decides which frames are lost later.
    pub fn new(alloc: Global, inner: O, seed: u64) -> Impaired<O>
        ensures inner { result.inner ≡ inner }
        ensures loss { result.delays.impairment.loss ≡ 0 }
        ensures delay { result.delays.impairment.delay ≡ 0 }
        ensures random { result.delays.random ≡ pcg32_of_seed (pcg32_seed 16 seed) }
        ensures none { result.delays.delayed.items ≡ [] }
    {
        Impaired {
            inner,
            delays: Delays::new(alloc, seed),
        }
    }

    /// Returns the line and the clock. Delayed frames that were not sent yet are lost.
    pub fn into_inner(self) -> O
        ensures { result ≡ self.inner }
    {
        self.inner
    }

    /// Sends the delayed frames that are due.
    fn send_due(&mut self) -> Result<(), PortFault>
        ensures sends { OnOk result (AddsSome (O.io_events self.old.inner)
            (O.io_events self.new.inner) (SendsDue self.old.delays self.new.delays)) }
        ensures impairment { self.new.delays.impairment ≡ self.old.delays.impairment }
    {
        let now = self.inner.moment()?;
        while let Some(frame) = self.delays.take_due(now) {
            let _ = self.inner.send(frame.octets.as_slice())?;
        }
        Ok(())
    }

    /// Sends the frames that are due, and waits once, until the next frame is due or until `until`.
    fn wait_once(&mut self, until: Option<u64>, lines: Lines) -> Result<Woken, PortFault>
        ensures waits { IfOk result
            (λ woken. AddsSome (O.io_events self.old.inner) (O.io_events self.new.inner)
            (WaitsOnce until woken self.old.delays self.new.delays)) }
        ensures impairment { self.new.delays.impairment ≡ self.old.delays.impairment }
    {
        self.send_due()?;
        let next = earlier(until, self.delays.next_moment());
        self.inner.wait(next, lines)
    }

    /// Whether the wait of the side is over. The moment of a delayed frame alone does not end it.
    fn is_over(&mut self, until: Option<u64>, woken: Woken) -> Result<bool, PortFault>
        ensures delays { self.new.delays ≡ self.old.delays }
        ensures over { IfOk result
            (λ over. AddsSome (O.io_events self.old.inner) (O.io_events self.new.inner)
            (IsOver until woken over)) }
    {
        match woken {
            Woken::Due => Ok(is_reached(until, self.inner.moment()?)),
            Woken::Arrival | Woken::Lost | Woken::Line | Woken::Closed => Ok(true),
        }
    }

    /// Waits once, and returns what ended the wait of the side, if it is over.
    fn wait_round(&mut self, until: Option<u64>, lines: Lines) -> Result<(Woken, bool), PortFault>
        ensures round { IfOk result
            (λ end. AddsSome (O.io_events self.old.inner) (O.io_events self.new.inner)
            (Round until end.0 end.1 self.old.delays self.new.delays)) }
        ensures impairment { self.new.delays.impairment ≡ self.old.delays.impairment }
    {
        let woken = self.wait_once(until, lines)?;
        let is_over = self.is_over(until, woken)?;
        Ok((woken, is_over))
    }

    /// Delays a frame of 3 to 264 octets.
    fn put_off(&mut self, frame: &[u8]) -> Result<(), PortFault>
        requires { IsFrameLength (length frame.now) }
        ensures puts_off { OnOk result (AddsSome (O.io_events self.old.inner)
            (O.io_events self.new.inner) (PutsOff frame.now self.old.delays self.new.delays)) }
        ensures impairment { self.new.delays.impairment ≡ self.old.delays.impairment }
    {
        let now = self.inner.moment()?;
        match self.delays.put_off(frame, now) {
            Ok(()) => Ok(()),
            Err(_) => Err(PortFault::Device),
        }
    }
}

impl<O: Outside> Outside for Impaired<O> {
    ghost use Rattle.std.specs.Prelude.{◌∷◌, [], Some};
    ghost use Rattle.lapd_cli_wire.specs.IoEvents.{Adds, Reads};
    ghost use Rattle.lapd_cli_wire.specs.Delays.{AddsSome, PassesFrame, Receives, WaitsOn};

    ghost impaired_by = { λ line. Some line.delays.impairment };

    fn moment(&mut self) -> Result<u64, PortFault>
        ensures moment { IfOk result (λ now. Adds (O.io_events self.old.inner)
            (O.io_events self.new.inner) (Reads now ∷ [])) }
        ensures delays { self.new.delays ≡ self.old.delays }
    {
        self.inner.moment()
    }

    fn receive(&mut self, frame: &mut [u8; MOST_RECEIVED]) -> Result<Option<usize>, PortFault>
        ensures room { IfOk result (λ count. IfSome count (λ count. count ≤ MOST_RECEIVED)) }
        ensures does { IfOk result (λ count. AddsSome (O.io_events self.old.inner)
            (O.io_events self.new.inner)
            (Receives frame.new count self.old.delays self.new.delays)) }
        ensures impairment { self.new.delays.impairment ≡ self.old.delays.impairment }
    {
        self.send_due()?;
        self.inner.receive(frame)
    }

    fn wait(&mut self, until: Option<u64>, lines: Lines) -> Result<Woken, PortFault>
        ensures waits { IfOk result
            (λ woken. AddsSome (O.io_events self.old.inner) (O.io_events self.new.inner)
            (WaitsOn until woken self.old.delays self.new.delays)) }
        ensures impairment { self.new.delays.impairment ≡ self.old.delays.impairment }
    {
        for _sleep in 0..u64::MAX {
            let (woken, is_over) = self.wait_round(until, lines)?;
            if is_over {
                return Ok(woken);
            }
        }
        Err(PortFault::TooManyTurns)
    }

    fn send(&mut self, frame: &[u8]) -> Result<Sending, PortFault>
        requires { IsFrameLength (length frame.now) }
        ensures passes { IfOk result
            (λ sending. AddsSome (O.io_events self.old.inner) (O.io_events self.new.inner)
            (PassesFrame frame.now sending self.old.delays self.new.delays)) }
        ensures impairment { self.new.delays.impairment ≡ self.old.delays.impairment }
    {
        if self.delays.draw() {
            return Ok(Sending::Lost);
        }
        if self.delays.is_direct() {
            return self.inner.send(frame);
        }
        self.put_off(frame)?;
        Ok(Sending::Sent)
    }

    fn note(&mut self, incident: Incident) {
        self.inner.note(incident);
    }

    fn next_audit(&mut self, assigner: &Assigner, links: &LinkTable) -> Option<AuditStep> {
        self.inner.next_audit(assigner, links)
    }

    fn impair(&mut self, impairment: Impairment)
        ensures inner { self.new.inner ≡ self.old.inner }
        ensures impairment { self.new.delays
            ≡ record (self.old.delays) { impairment = impairment } }
    {
        self.delays.impairment = impairment;
    }
}
