//! The surroundings of a side: the other side, behind a line, and a clock.

ghost use Rattle.std.specs.Prelude.{◌≡◌, ◌≤◌, List, Option, None, option_map, length, IfOk, IfSome, OnErr, OnOk, ◌∷◌, []};
ghost use Rattle.lapd_port.specs.SocketText.{IsFrameLength};
ghost use Rattle.lapd_cli_wire.specs.IoEvents.{Adds, IoEvent, Reads, Sends, Waits, is_reached as is_past, received};
ghost use Rattle.lapd_cli_wire.specs.declared.impairment.Impairment.{Impairment as ImpairmentValue};

use crate::impairment::Impairment;
use lapd_port::{MOST_OCTETS, PortFault};
use lapd_table::{LinkId, LinkTable};
use lapd_tei::Assigner;
use lapd_tei_audit::AuditStep;

/// The most octets that are kept of a received frame: one more than the longest valid frame has. A
/// longer frame has the fault of its first 265 octets (Q.921 5.8.5, 5.9.3).
pub const MOST_RECEIVED: usize = MOST_OCTETS + 1;

/// Why a wait ended.
#[derive(Clone, Copy)]
pub enum Woken {
    /// A frame may have arrived, or an audit may have a step to do.
    Arrival,
    /// A connection was lost. Each loss ends one wait, once every frame that had arrived over the
    /// connection was received.
    Lost,
    /// A line of input can be read.
    Line,
    /// The moment until which the call should wait is reached.
    Due,
    /// The other side has closed the connection, and every frame that it sent was received.
    Closed,
}

/// Whether a line of input ends a wait.
#[derive(Clone, Copy)]
pub enum Lines {
    /// It ends a wait.
    Awaited,
    /// It does not end a wait: it is read later.
    Ignored,
}

/// The fate of a frame that was passed to the line.
#[derive(Clone, Copy)]
pub enum Sending {
    /// It was sent.
    Sent,
    /// It was lost on purpose, to try how a link recovers.
    Lost,
}

/// What a side reports to its surroundings, beside its frames.
#[derive(Clone, Copy)]
pub enum Incident {
    /// It discarded a frame: it has no link with this SAPI and TEI.
    Discarded(LinkId),
    /// The other side answered no SABME or DISC of this link, N200 + 1 times (report G or H).
    Unanswered(LinkId),
    /// A check of all TEIs had no effect: a check is in progress.
    NotChecked,
    /// A removal of all TEIs had no effect: the side holds a TEI.
    NotRemoved,
}

/// The surroundings of a side: the line with the other side behind it, and a clock. Moments are
/// milliseconds since the start.
///
/// An implementation that records its calls returns them by `io_events`, in order. If it knows how
/// its frames are impaired, it returns that by `impaired_by`. Clauses about these hold for such an
/// implementation, and all others for every implementation.
pub trait Outside {
    /// The calls so far, if they are recorded.
    ghost io_events: { Self → Option (List IoEvent) } = { λ _. None };

    /// How frames are impaired that are sent, if it is known.
    ghost impaired_by: { Self → Option ImpairmentValue } = { λ _. None };

    /// Reads the clock.
    ///
    /// # Errors
    ///
    /// S4 if there is no clock.
    fn moment(&mut self) -> Result<u64, PortFault>
        ensures io_events { IfOk result (λ now. Adds (io_events self.old) (io_events self.new)
            (Reads now ∷ [])) }
        ensures err { OnErr result (io_events self.new ≡ io_events self.old) }
        ensures impaired_by { impaired_by self.new ≡ impaired_by self.old };

    /// Receives the next frame that has arrived, without waiting, into the beginning of `frame`,
    /// and returns its number of octets. `None` if no whole frame had arrived when the call began.
    /// Part of a frame is kept until the rest arrives. A frame may have any length; only the first
    /// 265 octets of a longer one are received.
    ///
    /// # Errors
    ///
    /// S2 to S6.
    fn receive(&mut self, frame: &mut [u8; MOST_RECEIVED]) -> Result<Option<usize>, PortFault>
        ensures room { IfOk result (λ count. IfSome count (λ count. count ≤ MOST_RECEIVED)) }
        ensures io_events { IfOk result (λ count. Adds (io_events self.old) (io_events self.new)
            (received frame.new count)) }
        ensures err { OnErr result (io_events self.new ≡ io_events self.old) }
        ensures impaired_by { impaired_by self.new ≡ impaired_by self.old };

    /// Waits until a frame may have arrived, a line of input can be read, a connection is lost, the
    /// only one is closed, or the moment `until` is reached. `None` is no moment.
    ///
    /// # Errors
    ///
    /// S2 to S6.
    fn wait(&mut self, until: Option<u64>, lines: Lines) -> Result<Woken, PortFault>
        ensures io_events { IfOk result (λ woken. Adds (io_events self.old) (io_events self.new)
            (Waits until woken ∷ [])) }
        ensures err { OnErr result (io_events self.new ≡ io_events self.old) }
        ensures impaired_by { impaired_by self.new ≡ impaired_by self.old };

    /// Sends a frame of 3 to 264 octets.
    ///
    /// # Errors
    ///
    /// S4 to S6. Part of the frame may have been sent.
    fn send(&mut self, frame: &[u8]) -> Result<Sending, PortFault>
        requires { IsFrameLength (length frame.now) }
        ensures io_events { OnOk result (Adds (io_events self.old) (io_events self.new)
            (Sends frame.now ∷ [])) }
        ensures err { OnErr result (io_events self.new ≡ io_events self.old) }
        ensures impaired_by { impaired_by self.new ≡ impaired_by self.old };

    /// Notes an incident.
    fn note(&mut self, incident: Incident)
        ensures io_events { io_events self.new ≡ io_events self.old }
        ensures impaired_by { impaired_by self.new ≡ impaired_by self.old };

    /// The next step of an audit of the TEIs of a network side (Q.921 5.3.3), which holds these TEIs
    /// and has these links. `None` if there is nothing to do at the moment, or no audit.
    fn next_audit(&mut self, assigner: &Assigner, links: &LinkTable) -> Option<AuditStep>
        ensures io_events { io_events self.new ≡ io_events self.old }
        ensures impaired_by { impaired_by self.new ≡ impaired_by self.old };

    /// Loses this share of the sent frames from now on, and delays the others.
    fn impair(&mut self, impairment: Impairment)
        ensures io_events { io_events self.new ≡ io_events self.old }
        ensures impaired_by { impaired_by self.new
            ≡ option_map (λ _. impairment) (impaired_by self.old) };
}

/// Whether there is such a moment and it is reached at the time `now`.
pub fn is_reached(moment: Option<u64>, now: u64) -> bool
    ensures { result ≡ is_past moment now }
{
    match moment {
        Some(moment) => moment <= now,
        None => false,
    }
}
