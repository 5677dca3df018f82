//! The effect of each move on the side that makes it.

ghost use Rattle.std.specs.Prelude.{◌≡◌, ◌≤◌, [], true, length, IfOk, IfErr, OnErr};
ghost use Rattle.lapd_frame.specs.Frame.{n201};
ghost use Rattle.lapd_link.specs.Link.{setup_of, is_address_of};
ghost use Rattle.lapd_mod128.specs.Counting.{Tagged};
ghost use Rattle.lapd_link_definition.specs.Input.{Give, UnitData, input_of};
ghost use Rattle.lapd_pair_laws.specs.Line.{Flight};
ghost use Rattle.lapd_pair_laws.specs.Move.{takes, receives, delivers, loses, expires_200, expires_203, acts, busy_input, quietly, restarts};
ghost use Rattle.lapd_pair.specs.Line.{fields_of};
ghost use Rattle.lapd_pair.specs.Moves.{move_of};
ghost use Rattle.lapd_pair.specs.Station.{Acts, with_outs, StationRefusesAs, ShowsStationAsBefore, ActsInView, RefusesInView, ShowsViewAsBefore, IsAsked};

use crate::line::Line;
use crate::moves::Move;
use crate::pair_fault::PairFault;
use crate::recorded_link::{RecordedLink, new_link};
use lapd_frame::{Frame, read};
use lapd_link::{Event, Outs, Timer};
use std::alloc::Global;

impl RecordedLink {
    /// Makes this move. `inward` carries the frames to this side, and `outward` those to the other.
    ///
    /// # Errors
    ///
    /// P1 to P5. This side and the line then represent the same state as before.
    pub fn act(
        &mut self,
        alloc: Global,
        mv: &Move,
        inward: &mut Line,
        outward: &mut Line,
        outs: &mut Outs,
    ) -> Result<(), PairFault>
        ensures ok { IfOk (with_outs result outs.new)
            (ActsInView self.old inward.old outward.old self.new inward.new outward.new
            (λ side v. acts Tagged side (move_of mv.now).event v)) }
        ensures err { IfErr (with_outs result outs.new)
            (RefusesInView self.old inward.old outward.old
            (λ side v. acts Tagged side (move_of mv.now).event v)) }
        ensures unchanged { OnErr (with_outs result outs.new)
            (ShowsViewAsBefore self.old inward.old outward.old self.new inward.new outward.new) }
    {
        match mv {
            Move::Give(_, message) => self.take_message(alloc, message, outward, outs),
            Move::Establish(_) => self.take(Event::Establish, &[], outward, outs),
            Move::Release(_) => self.take(Event::Release, &[], outward, outs),
            Move::Deliver(_) => self.deliver(alloc, inward, outward, outs),
            Move::Lose(_, place) => self.lose(*place, inward, outward, outs),
            Move::Expire200(_) => self.expire_200(inward, outward, outs),
            Move::Expire203(_) => self.expire_203(outward, outs),
            Move::Busy(_, on) => self.set_busy(*on, outward, outs),
            Move::Unit(_, octets) => self.take_unit(octets, outward, outs),
            Move::Restart(_) => self.restart(alloc, inward, outward, outs),
        }
    }

    /// Executes a request of layer 3 or an expiry of a timer. `octets` are the unit data to send.
    fn take(
        &mut self,
        event: Event,
        octets: &[u8],
        outward: &mut Line,
        outs: &mut Outs,
    ) -> Result<(), PairFault>
        requires asked { IsAsked (input_of event) octets.now }
        ensures ok { IfOk (with_outs result outs.new)
            (Acts self.old outward.old self.new outward.new
            (λ side v. takes Tagged (input_of event.entry) octets.now v)) }
        ensures err { IfErr (with_outs result outs.new)
            (StationRefusesAs self.old
            (λ side v. takes Tagged (input_of event.entry) octets.now v)) }
        ensures unchanged { OnErr (with_outs result outs.new)
            (ShowsStationAsBefore self.old outward.old self.new outward.new) }
    {
        if let Some(fault) = self.link.refusal(&event) {
            return Err(PairFault::Refused(fault));
        }
        let Ok(()) = self.make_room(outward) else {
            return Err(PairFault::Memory);
        };
        self.step(event, octets, None, outward, outs)
    }

    /// Makes the side own busy, or ends that condition.
    fn set_busy(&mut self, on: bool, outward: &mut Line, outs: &mut Outs) -> Result<(), PairFault>
        ensures ok { IfOk (with_outs result outs.new)
            (Acts self.old outward.old self.new outward.new
            (λ side v. takes Tagged (busy_input on) [] v)) }
        ensures err { IfErr (with_outs result outs.new)
            (StationRefusesAs self.old (λ side v. takes Tagged (busy_input on) [] v)) }
        ensures unchanged { OnErr (with_outs result outs.new)
            (ShowsStationAsBefore self.old outward.old self.new outward.new) }
    {
        if on {
            self.take(Event::BusyOn, &[], outward, outs)
        } else {
            self.take(Event::BusyOff, &[], outward, outs)
        }
    }

    /// Sends unit data of layer 3.
    fn take_unit(
        &mut self,
        octets: &[u8],
        outward: &mut Line,
        outs: &mut Outs,
    ) -> Result<(), PairFault>
        ensures ok { IfOk (with_outs result outs.new)
            (Acts self.old outward.old self.new outward.new
            (λ side v. takes Tagged (UnitData (length octets.now)) octets.now v)) }
        ensures err { IfErr (with_outs result outs.new)
            (StationRefusesAs self.old (λ side v. takes Tagged
            (UnitData (length octets.now)) octets.now v)) }
        ensures unchanged { OnErr (with_outs result outs.new)
            (ShowsStationAsBefore self.old outward.old self.new outward.new) }
    {
        self.take(Event::Unit(octets.len()), octets, outward, outs)
    }

    /// Submits a message of layer 3.
    fn take_message(
        &mut self,
        alloc: Global,
        message: &[u8],
        outward: &mut Line,
        outs: &mut Outs,
    ) -> Result<(), PairFault>
        ensures ok { IfOk (with_outs result outs.new)
            (Acts self.old outward.old self.new outward.new
            (λ side v. takes Tagged (Give message.now) [] v)) }
        ensures err { IfErr (with_outs result outs.new)
            (StationRefusesAs self.old (λ side v. takes Tagged (Give message.now) [] v)) }
        ensures unchanged { OnErr (with_outs result outs.new)
            (ShowsStationAsBefore self.old outward.old self.new outward.new) }
    {
        if let Some(fault) = self.link.give_refusal(message.len()) {
            return Err(PairFault::Refused(fault));
        }
        let Ok(preserved) = Vec::from_slice(alloc, message) else {
            return Err(PairFault::Memory);
        };
        let Ok(queued) = Vec::from_slice(alloc, message) else {
            return Err(PairFault::Memory);
        };
        let Ok(()) = self.make_room_for_message(outward) else {
            return Err(PairFault::Memory);
        };
        self.give(queued, preserved, outward, outs)
    }

    /// Processes a frame from the other side.
    fn receive(
        &mut self,
        alloc: Global,
        frame: &Frame<'_>,
        outward: &mut Line,
        outs: &mut Outs,
    ) -> Result<(), PairFault>
        requires for_link { is_address_of (setup_of self.old.link) frame.now.address ≡ true }
        ensures ok { IfOk (with_outs result outs.new)
            (λ outs. (flight : Flight) → fields_of flight ≡ frame.now → length flight.info ≤ n201
            → Acts self.old outward.old self.new outward.new
            (λ side v. receives Tagged flight v) outs) }
        ensures err { IfErr (with_outs result outs.new)
            (λ fault. (flight : Flight) → fields_of flight ≡ frame.now
            → StationRefusesAs self.old (λ side v. receives Tagged flight v) fault) }
        ensures unchanged { OnErr (with_outs result outs.new)
            (ShowsStationAsBefore self.old outward.old self.new outward.new) }
    {
        let Ok(copy) = Vec::from_slice(alloc, frame.info()) else {
            return Err(PairFault::Memory);
        };
        let Ok(()) = self.make_room(outward) else {
            return Err(PairFault::Memory);
        };
        self.step(Event::Heard(frame), frame.info(), Some(copy), outward, outs)
    }

    /// Removes the first frame in transit to this side and processes it.
    fn deliver(
        &mut self,
        alloc: Global,
        inward: &mut Line,
        outward: &mut Line,
        outs: &mut Outs,
    ) -> Result<(), PairFault>
        ensures ok { IfOk (with_outs result outs.new)
            (ActsInView self.old inward.old outward.old self.new inward.new outward.new
            (λ side v. delivers Tagged v.incoming v)) }
        ensures err { IfErr (with_outs result outs.new)
            (RefusesInView self.old inward.old outward.old
            (λ side v. delivers Tagged v.incoming v)) }
        ensures unchanged { OnErr (with_outs result outs.new)
            (ShowsViewAsBefore self.old inward.old outward.old self.new inward.new outward.new) }
    {
        let Some(octets) = inward.first() else {
            return Err(PairFault::NothingThere);
        };
        let Ok(frame) = read(octets, self.link.side().other()) else {
            return Err(PairFault::NothingThere);
        };
        if !self.link.is_for(&frame.address()) {
            return Err(PairFault::NothingThere);
        }
        match self.receive(alloc, &frame, outward, outs) {
            Ok(()) => {
                inward.take_first();
                Ok(())
            }
            Err(fault) => Err(fault),
        }
    }

    /// T200 expires if it runs and no frame that it waits for is in transit.
    // Not inlined because it is rare: `act` is compiled as one piece, which inlining would slow
    // down.
    #[inline(never)]
    fn expire_200(
        &mut self,
        inward: &mut Line,
        outward: &mut Line,
        outs: &mut Outs,
    ) -> Result<(), PairFault>
        ensures ok { IfOk (with_outs result outs.new)
            (ActsInView self.old inward.old outward.old self.new inward.new outward.new
            (λ side v. expires_200 Tagged side v)) }
        ensures err { IfErr (with_outs result outs.new)
            (RefusesInView self.old inward.old outward.old (λ side v. expires_200 Tagged side v)) }
        ensures unchanged { OnErr (with_outs result outs.new)
            (ShowsViewAsBefore self.old inward.old outward.old self.new inward.new outward.new) }
    {
        if !self.link.running(Timer::T200) {
            return Err(PairFault::NotRunning);
        }
        let side = self.link.side();
        if let Some(place) = outward.first_poll(side) {
            return Err(PairFault::NotYet(side.other(), place));
        }
        if let Some(place) = inward.first_final(side.other()) {
            return Err(PairFault::NotYet(side, place));
        }
        self.take(Event::T200, &[], outward, outs)
    }

    /// T203 expires if it runs.
    fn expire_203(&mut self, outward: &mut Line, outs: &mut Outs) -> Result<(), PairFault>
        ensures ok { IfOk (with_outs result outs.new)
            (Acts self.old outward.old self.new outward.new (λ side v. expires_203 Tagged v)) }
        ensures err { IfErr (with_outs result outs.new)
            (StationRefusesAs self.old (λ side v. expires_203 Tagged v)) }
        ensures unchanged { OnErr (with_outs result outs.new)
            (ShowsStationAsBefore self.old outward.old self.new outward.new) }
    {
        if !self.link.running(Timer::T203) {
            return Err(PairFault::NotRunning);
        }
        self.take(Event::T203, &[], outward, outs)
    }

    /// Restarts this side, and drops all frames in transit in both directions.
    fn restart(
        &mut self,
        alloc: Global,
        inward: &mut Line,
        outward: &mut Line,
        outs: &mut Outs,
    ) -> Result<(), PairFault>
        ensures ok { IfOk (with_outs result outs.new)
            (ActsInView self.old inward.old outward.old self.new inward.new outward.new
            (λ side v. quietly (restarts v))) }
        ensures err { IfErr (with_outs result outs.new)
            (RefusesInView self.old inward.old outward.old (λ side v. quietly (restarts v))) }
        ensures unchanged { OnErr (with_outs result outs.new)
            (ShowsViewAsBefore self.old inward.old outward.old self.new inward.new outward.new) }
    {
        let Ok(link) = new_link(alloc, self.link.side(), self.link.params()) else {
            return Err(PairFault::Memory);
        };
        self.link = link;
        self.history.discard_rest();
        inward.clear();
        outward.clear();
        outs.clear();
        Ok(())
    }

    /// Loses the frame in transit to this side at this index.
    fn lose(
        &self,
        place: usize,
        inward: &mut Line,
        outward: &Line,
        outs: &mut Outs,
    ) -> Result<(), PairFault>
        ensures ok { IfOk (with_outs result outs.new)
            (ActsInView self.now inward.old outward.now self.now inward.new outward.now
            (λ side v. loses place v)) }
        ensures err { IfErr (with_outs result outs.new)
            (RefusesInView self.now inward.old outward.now (λ side v. loses place v)) }
        ensures unchanged { OnErr (with_outs result outs.new) (inward.new ≡ inward.old) }
    {
        if inward.lose(place) {
            outs.clear();
            Ok(())
        } else {
            Err(PairFault::NothingThere)
        }
    }
}
