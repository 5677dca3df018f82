//! A line that is tapped.

ghost use Rattle.std.specs.Prelude.{◌≡◌, ◌≤◌, List, [], ◌∷◌, Option, None, length};
ghost use Rattle.lapd_cli_wire.specs.IoEvents.{Adds, IoEvent};
ghost use Rattle.lapd_cli_wire.specs.Passed.{ArePassed, PassedFrame, passed_more, passed_frame};

use crate::impairment::Impairment;
use crate::outside::{Incident, Lines, MOST_RECEIVED, Outside, Sending, Woken};
use lapd_frame::Side;
use lapd_port::PortFault;
use lapd_table::LinkTable;
use lapd_tei::Assigner;
use lapd_tei_audit::AuditStep;

/// Receives a copy of each frame of a line, such as a capture file or a socket. It reports its own
/// errors, and the line continues without it.
///
/// An implementation that records the frames returns them by `passed_frames`.
pub trait Tap {
    /// The frames that it was passed so far, if they are recorded.
    ghost passed_frames: { Self → Option (List PassedFrame) } = { λ _. None };

    /// Records a frame of at most 265 octets that the side `from` sent, at a moment in milliseconds
    /// since the start.
    fn pass(&mut self, from: Side, moment: u64, frame: &[u8])
        requires { length frame.now ≤ MOST_RECEIVED }
        ensures passed_frames { passed_frames self.new ≡ passed_more (passed_frames self.old)
            (passed_frame from frame.now ∷ []) };
}

/// The surroundings of a side, with a tap. The tap is passed each frame that is received or sent,
/// once and in order, with the last moment that was read. All calls are forwarded to the inner
/// line.
#[derive(Drop)]
pub struct Tapped<O: Outside, T: Tap> {
    inner: O,
    tap: T,
    /// The side whose line this is.
    own: Side,
    /// The last moment that was read, in milliseconds since the start.
    moment: u64,
    ghost are_passed: { ∥ ArePassed own (O.io_events inner) (T.passed_frames tap) ∥₁ },
}

impl<O: Outside, T: Tap> Tapped<O, T> {
    /// Taps the line of this side from here on. If both are recorded, the tap was passed the frames
    /// of the calls so far.
    pub fn new(own: Side, inner: O, tap: T) -> Tapped<O, T>
        requires { ArePassed own (O.io_events inner) (T.passed_frames tap) }
    {
        Tapped {
            inner,
            tap,
            own,
            moment: 0,
        }
    }

    /// Returns the inner line and the tap, which was passed exactly the frames that were received
    /// and sent.
    pub fn into_parts(self) -> (O, T)
        ensures { ∥ ArePassed self.own (O.io_events result.0) (T.passed_frames result.1) ∥₁ }
    {
        (self.inner, self.tap)
    }
}

impl<O: Outside, T: Tap> Outside for Tapped<O, T> {
    ghost io_events = { λ tapped. O.io_events tapped.inner };

    ghost impaired_by = { λ tapped. O.impaired_by tapped.inner };

    fn moment(&mut self) -> Result<u64, PortFault> {
        let now = self.inner.moment()?;
        self.moment = now;
        Ok(now)
    }

    fn receive(&mut self, frame: &mut [u8; MOST_RECEIVED]) -> Result<Option<usize>, PortFault> {
        let received = self.inner.receive(frame)?;
        if let Some(count) = received {
            self.tap
                .pass(self.own.other(), self.moment, &frame[..count]);
        }
        Ok(received)
    }

    fn wait(&mut self, until: Option<u64>, lines: Lines) -> Result<Woken, PortFault> {
        self.inner.wait(until, lines)
    }

    fn send(&mut self, frame: &[u8]) -> Result<Sending, PortFault> {
        let sending = self.inner.send(frame)?;
        self.tap.pass(self.own, self.moment, frame);
        Ok(sending)
    }

    fn note(&mut self, incident: Incident) {
        self.inner.note(incident);
    }

    fn next_audit(&mut self, assigner: &Assigner, links: &LinkTable) -> Option<AuditStep> {
        self.inner.next_audit(assigner, links)
    }

    fn impair(&mut self, impairment: Impairment) {
        self.inner.impair(impairment);
    }
}
