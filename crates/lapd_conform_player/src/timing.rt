//! The moments from which expectations count, and how late the stack was.

ghost use Rattle.std.specs.Prelude.{◌≡◌, ◌≤◌, true, false};

use lapd_frame::Control;

/// The moments from which expectations count, and how late the stack was, in milliseconds.
#[derive(Clone, Copy)]
pub(crate) struct Timing {
    /// The moment of the last frame or request.
    pub mark: u64,
    /// A request was made after the last frame.
    pub has_requested: bool,
    /// A frame or an expiry was late.
    pub is_late: bool,
    /// The longest time that the stack took to answer a poll.
    pub latency: u64,
    /// The moment of the first poll whose response the tester has not received.
    polled: Option<u64>,
}

impl Timing {
    /// Before the first line.
    pub fn new() -> Timing {
        Timing {
            mark: 0,
            has_requested: false,
            is_late: false,
            latency: 0,
            polled: None,
        }
    }

    /// The tester sent these octets at the moment `at`. Only polls in a row are measured.
    pub fn send(&mut self, octets: &[u8], at: u64) {
        self.polled = if is_poll(octets) {
            self.polled.or(Some(at))
        } else {
            None
        };
        self.mark = at;
        self.has_requested = false;
    }

    /// The tester received a response with F=1 at the moment `at`. If a poll was repeated, the stack
    /// may answer the first one.
    pub fn receive_answer(&mut self, at: u64)
        ensures { self.old.latency ≤ self.new.latency }
    {
        if let Some(since) = self.polled {
            self.latency = self.latency.max(at.saturating_sub(since));
            self.polled = None;
        }
    }

    /// A request was made at the moment `at`.
    pub fn request(&mut self, at: u64) {
        self.mark = at;
        self.has_requested = true;
    }

    /// An expected frame arrived at the moment `at`. It was due by the moment `due`.
    pub fn arrive(&mut self, at: u64, due: u64)
        ensures late { self.old.is_late ≡ true → self.new.is_late ≡ true }
        ensures in_time { at ≤ due → self.new.is_late ≡ self.old.is_late }
    {
        if at > due {
            self.is_late = true;
        }
        self.mark = at;
        self.has_requested = false;
    }
}

/// Whether octets are a frame that the stack answers at once: SABME or DISC with P=1, or an S frame
/// with P/F = 1. The address is not checked.
fn is_poll(octets: &[u8]) -> bool {
    match octets {
        [_, _, field @ ..] => match Control::read(field) {
            Ok((control, length)) => length == field.len() && is_answered(control),
            Err(_) => false,
        },
        _ => false,
    }
}

fn is_answered(control: Control) -> bool {
    matches!(
        control,
        Control::Sabme { p: true }
            | Control::Disc { p: true }
            | Control::Rr { pf: true, .. }
            | Control::Rnr { pf: true, .. }
            | Control::Rej { pf: true, .. }
    )
}
