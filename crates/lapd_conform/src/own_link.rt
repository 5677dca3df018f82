//! Our own link in the place of the stack.

ghost use Rattle.std.specs.Prelude.{◌<◌, ◌≡◌};

use lapd_conform_player::Request;
use lapd_link::{Event, Frame, FrameFault, Link, Out, Outs, Params, Sapi, Side, Tei, Timer};
use std::alloc::{AllocError, Global};

/// The information of each message that a request sends.
pub(crate) const MESSAGE: &[u8] = &[1, 2];

/// Our own link in the place of the stack, and the outputs of its last step.
#[derive(Drop)]
pub struct OwnLink {
    link: Link,
    outs: Outs,
}

impl OwnLink {
    ghost use Rattle.lapd_link.specs.Link.{IsForLink};

    /// A link of SAPI 0 in state 4, without outputs. A TEI above 126 counts as 126.
    ///
    /// # Errors
    ///
    /// An allocation failed.
    pub fn new(alloc: Global, side: Side, tei: u8, params: Params) -> Result<OwnLink, AllocError> {
        Ok(OwnLink {
            link: Link::new(alloc, side, Sapi::Call, link_tei(tei), params)?,
            outs: Outs::new(),
        })
    }

    /// Its link.
    pub fn link(&self) -> &Link {
        &self.link
    }

    /// The outputs of its last step.
    pub fn outs(&self) -> &[Out] {
        self.outs.as_slice()
    }

    /// Processes octets of the tester. There are no outputs if they are not for the link.
    pub fn receive(&mut self, octets: &[u8]) {
        self.outs.clear();
        match lapd_frame::read(octets, self.link.side().other()) {
            Ok(frame) => self.receive_frame(&frame),
            Err(fault) => self.receive_fault(&fault),
        }
    }

    fn receive_frame(&mut self, frame: &Frame<'_>) {
        if self.link.is_for(&frame.address()) {
            self.handle(Event::Heard(frame));
        }
    }

    fn receive_fault(&mut self, fault: &FrameFault) {
        if let Some(address) = &fault.address
            && fault.kind.is_for_link()
            && self.link.is_for(address)
        {
            self.handle(Event::Fault(fault.kind));
        }
    }

    /// Processes a request. There are no outputs if the link refuses it, or if it is not for the
    /// link.
    ///
    /// # Errors
    ///
    /// An allocation failed.
    pub fn request(&mut self, request: Request) -> Result<(), AllocError> {
        self.outs.clear();
        match request {
            Request::Establish => self.handle(Event::Establish),
            Request::Release => self.handle(Event::Release),
            Request::Give => return self.give(),
            Request::Busy => self.handle(Event::BusyOn),
            Request::Ready => self.handle(Event::BusyOff),
            Request::Unit | Request::Ask | Request::Check | Request::Remove => {}
        }
        Ok(())
    }

    fn give(&mut self) -> Result<(), AllocError> {
        let message = self.link.new_message(MESSAGE)?;
        let _ = self.link.give_into(message, &mut self.outs);
        Ok(())
    }

    /// Expires a timer.
    pub fn expire(&mut self, timer: Timer) {
        match timer {
            Timer::T200 => self.handle(Event::T200),
            Timer::T203 => self.handle(Event::T203),
            Timer::T201 | Timer::T202 => self.outs.clear(),
        }
    }

    /// Handles an event. If the link refuses it, there are no outputs.
    fn handle(&mut self, event: Event)
        requires { IsForLink self.old.link event }
    {
        let _ = self.link.handle_into(event, &mut self.outs);
    }
}

/// The TEI of a link: this one, or the greatest of a link if it is greater.
fn link_tei(tei: u8) -> Tei
    ensures { result < 127 }
{
    match Tei::new(tei.min(126)) {
        Some(tei) => tei,
        None => unreachable!(),
    }
}
