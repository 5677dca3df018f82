//! The frame that an output sends.

ghost use Rattle.std.specs.Prelude.{◌≡◌, drop, slice_get};
ghost use Rattle.lapd_link_definition.specs.End.{End};
ghost use Rattle.lapd_link.specs.Link.{LinkRepresents, setup_of};
ghost use Rattle.lapd_link.specs.SentFrame.{link_frame, message_frame, made_frame};

use crate::Link;
use lapd_frame::{Address, Control, Frame, Role};
use lapd_link_definition::Out;

impl Link {
    /// The frame that an output of the last step sends, or `None` for an output that is not sent.
    /// To spell it, call [`lapd_frame::write`] with the side of this link as the sender.
    /// `input_octets` are the octets of the unit data of the step (empty for any other event). The
    /// frame borrows its information.
    ///
    /// For each output of the last step that is sent, the result is `Some` if `input_octets` has at
    /// most 260 octets.
    ///
    /// - `Send`: with this role and control field, without information.
    /// - `SendMessage`: the I command with the message at this place of the queue (Q.921 5.6.1).
    /// - `SendUnit`: the UI command with P=0 and the octets of `input_octets` (Q.921 5.2).
    ///
    /// For an output of another step it also returns `None` if the parts do not form a frame of the
    /// control table (Q.921 Table 5): the wrong role, more than 260 octets, or a place without a
    /// message.
    #[inline(always)]
    pub fn frame<'a>(&'a self, out: &Out, input_octets: &'a [u8]) -> Option<Frame<'a>>
        ensures { (e : End) → LinkRepresents self.now e
            → result ≡ made_frame (setup_of self.now)
            (drop e.first e.given) input_octets.now out.now }
    {
        match out {
            Out::Send(role, control) => self.frame_with(*role, *control, &[]),
            Out::SendMessage(place, control) => self.message_frame(*place, *control),
            Out::SendUnit => self.frame_with(Role::Command, Control::Ui { p: false }, input_octets),
            _ => None,
        }
    }

    /// The I command with the message at this place of the queue.
    #[inline(always)]
    fn message_frame(&self, place: u16, control: Control) -> Option<Frame<'_>>
        ensures { (e : End) → LinkRepresents self.now e
            → result ≡ message_frame (setup_of self.now) control
            (slice_get (drop e.first e.given) place) }
    {
        self.frame_with(Role::Command, control, self.queue().get(place)?)
    }

    /// The frame with the link's address and these parts.
    #[inline(always)]
    fn frame_with<'a>(&self, role: Role, control: Control, info: &'a [u8]) -> Option<Frame<'a>>
        ensures { result ≡ link_frame (setup_of self.now) role control info.now }
    {
        let address = Address {
            sapi: self.sapi(),
            tei: self.tei(),
            role,
        };
        Frame::new(address, control, info).ok()
    }
}
