//! One end of the link, between messages and octets.

use crate::bench_fault::BenchFault;
use crate::wire::Wire;
use lapd_frame::{
    Address, MessageField, PredictedFrame, Response, Role, Sapi, Side, Tei, read, read_predicted,
};
use lapd_link::{Event, Link, NrEffect, Out, Outs, Params, PredictedOuts};
use std::alloc::Global;

/// One end of the link, the outputs of its last step, and how many messages it has submitted,
/// received and seen acknowledged.
#[derive(Drop)]
pub struct End {
    link: Link,
    outs: Outs,
    pub given: u64,
    pub received: u64,
    pub acknowledged: u64,
}

impl End {
    /// An end of this side, not yet established, of service access point 0 and terminal endpoint
    /// 64, with the parameters of primary rate access.
    ///
    /// # Errors
    ///
    /// `Memory`.
    pub fn new(alloc: Global, side: Side) -> Result<End, BenchFault> {
        let tei = Tei::new(64).unwrap();
        let link = Link::new(alloc, side, Sapi::Call, tei, Params::primary())?;
        Ok(End {
            link,
            outs: Outs::new(),
            given: 0,
            received: 0,
            acknowledged: 0,
        })
    }

    /// Requests the link to be established.
    ///
    /// # Errors
    ///
    /// As [`End::give`].
    pub fn establish(&mut self, to: &mut Wire) -> Result<(), BenchFault> {
        self.link.handle_into(Event::Establish, &mut self.outs)?;
        self.carry_out(to)
    }

    /// Queues a message with these octets, and sends it if the window is open.
    ///
    /// # Errors
    ///
    /// `Link` if the link refuses the message, `Memory`, or `LineFull`.
    pub fn give(&mut self, octets: &[u8], to: &mut Wire) -> Result<(), BenchFault> {
        let message = self.link.new_message(octets)?;
        match self.link.give_at_once(message) {
            Ok(outs) => {
                self.given = self.given.wrapping_add(1);
                self.send_message(outs.place, outs.field, to)
            }
            Err(message) => self.give_any(message, to),
        }
    }

    /// Queues any message.
    #[inline(never)]
    fn give_any(&mut self, message: Vec<u8>, to: &mut Wire) -> Result<(), BenchFault> {
        self.link.give_into(message, &mut self.outs)?;
        self.given = self.given.wrapping_add(1);
        self.carry_out(to)
    }

    /// Receives all frames on the line, and sends the responses.
    ///
    /// # Errors
    ///
    /// `NoFrame` for octets that do not form a valid frame, `NotForLink`, `Link` if the link
    /// refuses, or `LineFull`.
    pub fn receive(&mut self, from: &mut Wire, to: &mut Wire) -> Result<(), BenchFault> {
        for slot in from.under_way() {
            self.receive_frame(slot.octets(), from.sender(), to)?;
        }
        from.clear();
        Ok(())
    }

    /// Receives a frame from this side, as a side does: by header prediction if the link predicts
    /// it, else in general.
    #[inline(always)]
    fn receive_frame(
        &mut self,
        octets: &[u8],
        sender: Side,
        to: &mut Wire,
    ) -> Result<(), BenchFault> {
        match read_predicted(octets, sender) {
            Some(frame) => match self.predicted_step(&frame) {
                Some(outs) => self.carry_out_predicted(&outs, to),
                None => self.receive_any(octets, sender, to),
            },
            None => self.receive_any(octets, sender, to),
        }
    }

    /// The outputs of the link's step for a frame that it predicts.
    #[inline(always)]
    fn predicted_step(&mut self, frame: &PredictedFrame<'_>) -> Option<PredictedOuts> {
        if frame.sapi == self.link.sapi() && frame.tei == self.link.tei() {
            self.link.predicted_step(frame.kind, frame.nr)
        } else {
            None
        }
    }

    /// Receives any frame.
    #[inline(never)]
    fn receive_any(
        &mut self,
        octets: &[u8],
        sender: Side,
        to: &mut Wire,
    ) -> Result<(), BenchFault> {
        let frame = read(octets, sender)?;
        if !self.link.is_for(&frame.address()) {
            return Err(BenchFault::NotForLink);
        }
        self.link.handle_into(Event::Heard(&frame), &mut self.outs)?;
        self.carry_out(to)
    }

    /// Sends the responses of a predicted step, and counts the messages that it reports.
    #[inline(always)]
    fn carry_out_predicted(
        &mut self,
        outs: &PredictedOuts,
        to: &mut Wire,
    ) -> Result<(), BenchFault> {
        self.respond(outs.response, to)?;
        if outs.is_up {
            self.received = self.received.wrapping_add(1);
        }
        match outs.nr {
            NrEffect::All { count, .. } | NrEffect::Part { count } => {
                self.acknowledged = self.acknowledged.wrapping_add(u64::from(count));
            }
            NrEffect::Nothing => {}
        }
        self.respond(outs.acknowledgement, to)
    }

    /// Sends a response, if there is one.
    #[inline(always)]
    fn respond(&mut self, response: Option<Response>, to: &mut Wire) -> Result<(), BenchFault> {
        match response {
            Some(response) => {
                let header = response.octets(self.address(Role::Answer), self.link.side());
                to.send_parts(header, &[])
            }
            None => Ok(()),
        }
    }

    /// Sends the message at this place of the queue, with this control field.
    #[inline(always)]
    fn send_message(
        &mut self,
        place: u16,
        field: MessageField,
        to: &mut Wire,
    ) -> Result<(), BenchFault> {
        let header = field.octets(self.address(Role::Command), self.link.side());
        match self.link.queue().get(place) {
            Some(message) => to.send_parts(header, message),
            None => Ok(()),
        }
    }

    /// The address of the link's frames with this role.
    #[inline(always)]
    fn address(&self, role: Role) -> Address {
        Address {
            sapi: self.link.sapi(),
            tei: self.link.tei(),
            role,
        }
    }

    /// Sends the frames of its last step, and counts the messages that the step reports.
    #[inline(always)]
    fn carry_out(&mut self, to: &mut Wire) -> Result<(), BenchFault> {
        for out in self.outs.as_slice() {
            match out {
                Out::Up => self.received = self.received.wrapping_add(1),
                Out::Acknowledged(count) => {
                    self.acknowledged = self.acknowledged.wrapping_add(u64::from(*count));
                }
                _ => {
                    if let Some(frame) = self.link.frame(out, &[]) {
                        to.send(&frame)?;
                    }
                }
            }
        }
        Ok(())
    }
}
