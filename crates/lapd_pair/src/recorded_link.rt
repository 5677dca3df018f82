//! One side of a pair: its end of the link and its recorded history.

ghost use Rattle.std.specs.Prelude.{◌≡◌, ◌≤◌, ◌+◌, ◌==◌, not, ℕ, List, [], ◌∷◌, Option, Vec, IfOk, IfErr, IfSome, OnOk, OnErr, length};
ghost use Rattle.std.specs.declared.alloc.Global.{Global};
ghost use Rattle.lapd_frame.specs.declared.Side.{Side};
ghost use Rattle.lapd_frame.specs.Frame.{n201};
ghost use Rattle.lapd_link.specs.Link.{LinkRepresents, setup_of, IsForLink};
ghost use Rattle.lapd_mod128.specs.Counting.{Tagged};
ghost use Rattle.lapd_link_definition.specs.declared.out.Out as states;
ghost use Rattle.lapd_link_definition.specs.Counts.{ups, unit_ups};
ghost use Rattle.lapd_link_definition.specs.End.{End, new_end};
ghost use Rattle.lapd_link_definition.specs.Input.{Give, input_of};
ghost use Rattle.lapd_link_definition.specs.Table.{step};
ghost use Rattle.lapd_pair_laws.specs.Histories.{Occasion, Story, after_outputs, with_beginning};
ghost use Rattle.lapd_pair_laws.specs.Histories as histories;
ghost use Rattle.lapd_pair_laws.specs.Consistent.{IsConsistent};
ghost use Rattle.lapd_pair_laws.specs.Line.{Flight};
ghost use Rattle.lapd_pair_laws.specs.Move as world;
ghost use Rattle.lapd_pair_laws.specs.Move.{View, stepped};
ghost use Rattle.lapd_pair_laws.specs.World.{new_station};
ghost use Rattle.lapd_pair.specs.Line.{IsOn, HasRoomFor};
ghost use Rattle.lapd_pair.specs.Setup.{setup_for};

use crate::line::Line;
use crate::log::Log;
use crate::pair_fault::PairFault;
use lapd_frame::{Sapi, Side, Tei};
use lapd_link::{Event, Link, MOST_OUTPUTS, Out, Outs, Params};
use std::alloc::{AllocError, Global};

/// One side of a pair: its end of the link and its recorded history.
#[derive(Drop)]
pub struct RecordedLink {
    pub link: Link,
    pub history: Log,
}

/// Creates this side's link, with SAPI 0 and TEI 64.
pub fn new_link(alloc: Global, side: Side, params: Params) -> Result<Link, AllocError>
    ensures end { IfOk result (λ link. LinkRepresents link (new_end params)) }
    ensures setup { IfOk result (λ link. setup_of link ≡ setup_for side) }
{
    let tei = Tei::new(64).unwrap();
    Link::new(alloc, side, Sapi::Call, tei, params)
}

impl RecordedLink {
    ghost use Rattle.lapd_pair.specs.Histories.{IsHistory, HasHistoryRoom, step_room, data_room, message_room};
    ghost use Rattle.lapd_pair.specs.Station.{IsStation, IsActed, HasOctets, with_outs};
    ghost use Rattle.lapd_pair.specs.Moves.{IsRefusedAs};
    ghost use Rattle.lapd_pair.specs.Recording.{IsBetweenOutputs, IsCopy, flight_of, with_sent, history_after};

    /// Creates a side with its end of the link in state 4 and an empty history.
    pub fn new(alloc: Global, side: Side, params: Params) -> Result<RecordedLink, AllocError>
        ensures station { IfOk result (λ s. IsStation side s (new_station params)) }
        ensures window { params.k ≤ 127 }
        ensures some { 1 ≤ params.k }
    {
        Ok(RecordedLink {
            link: new_link(alloc, side, params)?,
            history: Log::new(alloc),
        })
    }

    /// Allocates the space on the line and in the history that one step may need.
    pub fn make_room(&mut self, outward: &mut Line) -> Result<(), AllocError>
        ensures line_room { OnOk result (HasRoomFor MOST_OUTPUTS outward.new) }
        ensures history_room { OnOk result (HasHistoryRoom step_room self.new.history) }
        ensures station { (side : Side) (t : world.Station) → IsStation side self.old t
            → IsStation side self.new t }
        ensures line { (from : Side) (frames : List Flight) → IsOn from outward.old frames
            → IsOn from outward.new frames }
        ensures link { self.new.link ≡ self.old.link }
    {
        outward.reserve(MOST_OUTPUTS)?;
        self.history.reserve()
    }

    /// Allocates the space on the line and in the history that a submitted message needs.
    pub fn make_room_for_message(&mut self, outward: &mut Line) -> Result<(), AllocError>
        ensures line_room { OnOk result (HasRoomFor MOST_OUTPUTS outward.new) }
        ensures history_room { OnOk result (HasHistoryRoom message_room self.new.history) }
        ensures station { (side : Side) (t : world.Station) → IsStation side self.old t
            → IsStation side self.new t }
        ensures line { (from : Side) (frames : List Flight) → IsOn from outward.old frames
            → IsOn from outward.new frames }
        ensures link { self.new.link ≡ self.old.link }
    {
        outward.reserve(MOST_OUTPUTS)?;
        self.history.reserve_given()
    }

    /// Puts the frame of an output on the line, if the output sends one.
    #[inline(always)]
    fn put_sent(&self, out: &Out, octets: &[u8], outward: &mut Line)
        requires { HasRoomFor 1 outward.old }
        ensures shows { (side : Side) (e : End) (o : Occasion) (rest : List states.Out)
            (copy : Option (Vec ℕ Global)) (t : Story) → octets.now ≡ o.octets
            → IsBetweenOutputs side e o (out.now ∷ rest) self.now outward.old copy t
            → IsOn side outward.new (with_sent (flight_of o t.history.passed out.now) t.line) }
        ensures room { (n : ℕ) → HasRoomFor (n + 1) outward.old → HasRoomFor n outward.new }
    {
        if let Some(frame) = self.link.frame(out, octets) {
            outward.put(self.link.side(), &frame);
        }
    }

    /// Records an output in the history. If the output delivers to layer 3, the copy of the octets
    /// just received moves into the history.
    #[inline(always)]
    fn write_down(&mut self, out: &Out, copy: &mut Option<Vec<u8>>)
        requires { IfSome copy.old (λ _. HasHistoryRoom data_room self.old.history) }
        ensures shows { (side : Side) (e : End) (o : Occasion) (rest : List states.Out)
            (line : Line) (t : Story)
            → IsBetweenOutputs side e o (out.now ∷ rest) self.old line copy.old t
            → IsHistory self.new.history e.given (history_after o out.now t.history) }
        ensures copied { (octets : List ℕ) (rest : List states.Out)
            → IsCopy octets (ups (out.now ∷ rest) + unit_ups (out.now ∷ rest)) copy.old
            → IsCopy octets (ups rest + unit_ups rest) copy.new }
        ensures room { IfSome copy.new (λ _. HasHistoryRoom data_room self.new.history) }
        ensures link { self.new.link ≡ self.old.link }
    {
        match out {
            Out::SendMessage(place, _) => self.history.send(*place),
            Out::Up => {
                if let Some(octets) = copy.take() {
                    self.history.receive(octets);
                }
            }
            Out::UnitUp => {
                if let Some(octets) = copy.take() {
                    self.history.receive_unit(octets);
                }
            }
            Out::Acknowledged(n) => self.history.acknowledge(*n),
            Out::Dropped(n) => self.history.discard(*n),
            Out::Send(_, _)
            | Out::SendUnit
            | Out::Established
            | Out::Confirmed
            | Out::Released
            | Out::ReleaseConfirm
            | Out::Start(_)
            | Out::Stop(_)
            | Out::Report(_) => {}
        }
    }

    /// Sends and records all outputs of a step, one after another.
    #[inline(always)]
    fn carry_out(
        &mut self,
        outs: &[Out],
        octets: &[u8],
        copy: &mut Option<Vec<u8>>,
        outward: &mut Line,
    )
        requires line_room { HasRoomFor (length outs.now) outward.old }
        requires history_room { IfSome copy.old (λ _. HasHistoryRoom data_room self.old.history) }
        ensures shows { (side : Side) (e : End) (o : Occasion) (t : Story) → octets.now ≡ o.octets
            → IsBetweenOutputs side e o outs.now self.old outward.old copy.old t
            → IsBetweenOutputs side e o [] self.new outward.new copy.new
            (after_outputs o outs.now t) }
        ensures link { self.new.link ≡ self.old.link }
    {
        for out in outs {
            self.put_sent(out, octets, outward);
            self.write_down(out, copy);
        }
    }

    /// Records the beginning of an establishment, if one begins.
    fn note_beginning(&mut self, begins: bool)
        requires { HasHistoryRoom step_room self.old.history }
        ensures shows { (messages : List (List ℕ)) (h : histories.History) (before now : ℕ)
            → begins ≡ not (before == now)
            → IsHistory self.old.history messages h → IsHistory self.new.history messages
            (with_beginning before now h) }
        ensures room { HasHistoryRoom data_room self.new.history }
        ensures link { self.new.link ≡ self.old.link }
    {
        if begins {
            self.history.begin();
        }
    }

    /// Runs one step of the state table for any event, puts the frames of its outputs on the line
    /// and records the rest. `octets` are the information field of the received frame, with a copy
    /// for layer 3 in `copy`, or the unit data to send.
    #[inline(always)]
    pub fn step(
        &mut self,
        event: Event,
        octets: &[u8],
        copy: Option<Vec<u8>>,
        outward: &mut Line,
        outs: &mut Outs,
    ) -> Result<(), PairFault>
        requires for_link { IsForLink self.old.link event }
        requires line_room { HasRoomFor MOST_OUTPUTS outward.old }
        requires history_room { HasHistoryRoom step_room self.old.history }
        ensures ok { IfOk (with_outs result outs.new)
            (λ outs. (side : Side) (place : ℕ) (v : View) → IsConsistent Tagged v.station
            → IsStation side self.old v.station → IsOn side outward.old v.outgoing
            → length octets.now ≤ n201 → HasOctets (input_of event.entry) octets.now copy
            → IsActed side self.new outward.new (stepped octets.now place v
            (step Tagged (input_of event.entry) v.station.end)) outs.items) }
        ensures err { IfErr (with_outs result outs.new)
            (λ fault. (octets : List ℕ) (place : ℕ) (side : Side) (v : View)
            → IsStation side self.old v.station → IsRefusedAs fault
            (stepped octets place v (step Tagged (input_of event.entry) v.station.end))) }
        ensures unchanged { OnErr (with_outs result outs.new)
            ((self.new ≡ self.old) × (outward.new ≡ outward.old)) }
    {
        let mut copy = copy;
        let begins = self.link.begins(&event);
        match self.link.handle_into(event, outs) {
            Ok(()) => {
                self.note_beginning(begins);
                self.carry_out(outs.as_slice(), octets, &mut copy, outward);
                Ok(())
            }
            Err(fault) => Err(PairFault::Refused(fault)),
        }
    }

    /// Submits a message of layer 3, and records its copy in the history.
    pub fn give(
        &mut self,
        message: Vec<u8>,
        copy: Vec<u8>,
        outward: &mut Line,
        outs: &mut Outs,
    ) -> Result<(), PairFault>
        requires line_room { HasRoomFor MOST_OUTPUTS outward.old }
        requires history_room { HasHistoryRoom message_room self.old.history }
        ensures ok { IfOk (with_outs result outs.new)
            (λ outs. (side : Side) (v : View) → IsConsistent Tagged v.station
            → IsStation side self.old v.station → IsOn side outward.old v.outgoing
            → copy.items ≡ message.items
            → IsActed side self.new outward.new (stepped [] 0 v
            (step Tagged (Give message.items) v.station.end)) outs.items) }
        ensures err { IfErr (with_outs result outs.new)
            (λ fault. (side : Side) (v : View) → IsStation side self.old v.station
            → IsRefusedAs fault (stepped [] 0 v (step Tagged (Give message.items) v.station.end))) }
        ensures unchanged { OnErr (with_outs result outs.new)
            ((self.new ≡ self.old) × (outward.new ≡ outward.old)) }
    {
        match self.link.give_into(message, outs) {
            Ok(()) => {
                self.history.give(copy);
                self.carry_out(outs.as_slice(), &[], &mut None, outward);
                Ok(())
            }
            Err(refused) => Err(PairFault::Refused(refused.fault)),
        }
    }
}
