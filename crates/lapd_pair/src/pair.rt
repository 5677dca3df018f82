//! Both ends of one data link, and the line between them.

ghost use Rattle.std.specs.Prelude.{◌≡◌, ◌≤◌, ◌<◌, ◌+◌, ℕ, List, [], ◌∷◌, map, take, length, true, IfOk, IfErr, OnOk, OnErr, is_ok};
ghost use Rattle.lapd_mod128.specs.Counting.{Tagged};
ghost use Rattle.lapd_pair.specs.Pair.{IsReached};

use crate::fate::Fate;
use crate::line::Line;
use crate::moves::Move;
use crate::pair_fault::{PairFault, RunFault};
use crate::received::Received;
use crate::recorded_link::RecordedLink;
use crate::settled::Settled;
use arrayvec::ArrayVec;
use lapd_frame::{MOST_OCTETS, Side};
use lapd_link::{Link, Outs, Params, Timer};
use std::alloc::{AllocError, Global};

/// Both ends of one data link of SAPI 0 and TEI 64, user and network, and the line between them,
/// which keeps frames in order and may lose any of them. The pair records what each side received
/// and the fate of each submitted message.
#[derive(Drop)]
pub struct Pair {
    alloc: Global,
    user: RecordedLink,
    network: RecordedLink,
    to_user: Line,
    to_network: Line,
    ghost reached: { ∥ IsReached user network to_user to_network ∥₁ },
}

impl Pair {
    ghost use Rattle.lapd_pair_laws.specs.Reports.{AllReportsExpected};
    ghost use Rattle.lapd_link_definition.specs.Reports.{AreExpected};
    ghost use Rattle.lapd_pair_laws.specs.World.{World, new_world, happens, run, outcomes};
    ghost use Rattle.lapd_pair.specs.Moves.{move_of, IsRefusedAs};
    ghost use Rattle.lapd_pair.specs.Readers.{AreSafeReadings};
    ghost use Rattle.lapd_pair.specs.Runs.{PairRepresents, HasHappened, HasStoppedAt, IsSafePair, moves_made, refusals};
    ghost use Rattle.lapd_pair.specs.Station.{with_outs};

    /// Creates a pair with both ends in state 4 and no frame in transit.
    ///
    /// # Errors
    ///
    /// `AllocError` if the allocation of an I queue failed.
    pub fn new(alloc: Global, user: Params, network: Params) -> Result<Pair, AllocError>
        ensures representation { IfOk result
            (λ pair. PairRepresents pair (new_world user network)) }
        ensures readers { IfOk result (λ pair. AreSafeReadings pair) }
    {
        Ok(Pair {
            alloc,
            user: RecordedLink::new(alloc, Side::User, user)?,
            network: RecordedLink::new(alloc, Side::Network, network)?,
            to_user: Line::new(alloc),
            to_network: Line::new(alloc),
        })
    }

    /// Makes one move and returns the outputs of its step, in order. [`Pair::line`] returns the
    /// frames that it put on the line.
    ///
    /// After it, as after every call, the histories are safe in both directions: a side received
    /// only messages that the other side submitted, in order and at most once each; within one
    /// establishment it skipped none; and each message that the sender counts as acknowledged was
    /// received. `readers` states this for the results of [`Pair::given`], [`Pair::fates`],
    /// [`Pair::received`] and [`Pair::begun`]. The outputs contain no error report other than F, G,
    /// H and I. Every N(R) that ever arrived in states 7 and 8 was valid, and no response arrived
    /// unsolicited (`IsSafePair`).
    ///
    /// # Errors
    ///
    /// P1 if the frame to deliver or lose does not exist. P2 if the timer does not run. P3 if T200
    /// waits for a frame in transit. P4 if the link refuses the move. P5, after these checks, if an
    /// allocation failed. The pair is unchanged.
    pub fn apply(&mut self, mv: &Move) -> Result<Outs, PairFault>
        ensures ok { IfOk result (λ outs. (w : World) → PairRepresents self.old w
            → HasHappened self.new (happens Tagged (move_of mv.now) w) outs.items) }
        ensures err { IfErr result (λ fault. (w : World) → PairRepresents self.old w
            → IsRefusedAs fault (happens Tagged (move_of mv.now) w)) }
        ensures unchanged { OnErr result ((w : World) → PairRepresents self.old w
            → PairRepresents self.new w) }
        ensures reports { IfOk result (λ outs. AreExpected outs.items) }
        ensures safe { ∥ IsSafePair self.new ∥₁ }
        ensures readers { AreSafeReadings self.new }
    {
        let mut outs = Outs::new();
        match self.apply_into(mv, &mut outs) {
            Ok(()) => Ok(outs),
            Err(fault) => Err(fault),
        }
    }

    /// Makes one move like [`Pair::apply`], and overwrites `outs` with its outputs. The caller
    /// reuses `outs` for each move.
    ///
    /// # Errors
    ///
    /// As for [`Pair::apply`]. The content of `outs` is then unspecified.
    pub fn apply_into(&mut self, mv: &Move, outs: &mut Outs) -> Result<(), PairFault>
        ensures ok { IfOk (with_outs result outs.new)
            (λ made. (w : World) → PairRepresents self.old w
            → HasHappened self.new (happens Tagged (move_of mv.now) w) made.items) }
        ensures err { IfErr (with_outs result outs.new)
            (λ fault. (w : World) → PairRepresents self.old w
            → IsRefusedAs fault (happens Tagged (move_of mv.now) w)) }
        ensures unchanged { OnErr (with_outs result outs.new)
            ((w : World) → PairRepresents self.old w → PairRepresents self.new w) }
        ensures reports { IfOk (with_outs result outs.new) (λ made. AreExpected made.items) }
        ensures safe { ∥ IsSafePair self.new ∥₁ }
        ensures readers { AreSafeReadings self.new }
    {
        match mv.side() {
            Side::User => self.user.act(
                self.alloc,
                mv,
                &mut self.to_user,
                &mut self.to_network,
                outs,
            ),
            Side::Network => self.network.act(
                self.alloc,
                mv,
                &mut self.to_network,
                &mut self.to_user,
                outs,
            ),
        }
    }

    /// Makes these moves one after another, and returns how many were refused. A move refused with
    /// P1 to P4 is skipped. Afterwards the histories are safe as after [`Pair::apply`], also on
    /// error.
    ///
    /// # Errors
    ///
    /// `RunFault`, with the index of the move, if an allocation failed. The moves made before it
    /// remain in effect.
    pub fn run(&mut self, moves: &[Move]) -> Result<u64, RunFault>
        ensures ok { IfOk result (λ refused. (w : World) → PairRepresents self.old w
            → PairRepresents self.new (run Tagged (map move_of moves.now) w)
            × (refused ≡ refusals (map move_of moves.now) w)) }
        ensures err { IfErr result (λ fault. (w : World) → PairRepresents self.old w
            → HasStoppedAt fault.at (map move_of moves.now) self.new w) }
        ensures reports { (w : World) → PairRepresents self.old w
            → AllReportsExpected (outcomes Tagged (moves_made result (map move_of moves.now)) w) }
        ensures safe { ∥ IsSafePair self.new ∥₁ }
        ensures readers { AreSafeReadings self.new }
    {
        let mut refused = 0;
        let mut outs = Outs::new();
        for (at, mv) in moves.iter().enumerate() {
            match self.apply_into(mv, &mut outs) {
                Ok(()) => {}
                Err(fault) => {
                    if fault.is_memory() {
                        return Err(RunFault { at });
                    }
                    refused += 1;
                }
            }
        }
        Ok(refused)
    }
}

/// The contents of a pair.
impl Pair {
    ghost use Rattle.lapd_link.specs.Link.{LinkRepresents, setup_of};
    ghost use Rattle.lapd_frame.specs.Address.{other_side};
    ghost use Rattle.lapd_frame.specs.Frame.{spelling};
    ghost use Rattle.lapd_pair_laws.specs.World.{World, left, view_of};
    ghost use Rattle.lapd_pair.specs.Histories.{of_received, octets_and_establishment, fates_of};
    ghost use Rattle.lapd_pair.specs.Line.{fields_of};
    ghost use Rattle.lapd_pair.specs.Readers.{history_of, given_by, fates_by, received_by, begun_by};
    ghost use Rattle.lapd_pair.specs.Runs.{PairRepresents};
    ghost use Rattle.lapd_pair.specs.Setup.{setup_for};
    ghost use Rattle.lapd_pair.specs.Station.{IsStation};

    /// The recorded link of this side.
    fn station(&self, side: Side) -> &RecordedLink
        ensures shows { (w : World) → PairRepresents self.now w
            → IsStation side result.now (view_of side w).station }
        ensures history { result.now.history ≡ history_of side self.now }
    {
        match side {
            Side::User => &self.user,
            Side::Network => &self.network,
        }
    }

    /// The messages that this side's layer 3 submitted and the link accepted, in order.
    pub fn given(&self, side: Side) -> &[Vec<u8>]
        ensures shows { (w : World) → PairRepresents self.now w
            → map (λ message. message.items) result.now ≡ (view_of side w).station.end.given }
        ensures now { result.now ≡ given_by side self.now }
    {
        self.station(side).history.given()
    }

    /// The messages that this side's layer 3 received, in order.
    pub fn received(&self, side: Side) -> &[Received]
        ensures shows { (w : World) → PairRepresents self.now w
            → map of_received result.now ≡ map octets_and_establishment
            (view_of side w).station.history.received }
        ensures now { result.now ≡ received_by side self.now }
    {
        self.station(side).history.received()
    }

    /// The unit data that this side's layer 3 received, in order.
    pub fn units(&self, side: Side) -> &[Vec<u8>]
        ensures { (w : World) → PairRepresents self.now w
            → map (λ unit. unit.items) result.now ≡ (view_of side w).station.history.units }
    {
        self.station(side).history.units()
    }

    /// The fate of each message of [`Pair::given`].
    pub fn fates(&self, side: Side) -> &[Fate]
        ensures shows { (w : World) → PairRepresents self.now w
            → result.now ≡ fates_of (length (view_of side w).station.end.given)
            (view_of side w).station.history }
        ensures now { result.now ≡ fates_by side self.now }
    {
        self.station(side).history.fates()
    }

    /// For each establishment of this side, how many messages the side had received before it
    /// began.
    pub fn begun(&self, side: Side) -> &[u64]
        ensures shows { (w : World) → PairRepresents self.now w
            → result.now ≡ (view_of side w).station.history.begun }
        ensures now { result.now ≡ begun_by side self.now }
    {
        self.station(side).history.begun()
    }

    /// How many messages of this side were acknowledged.
    pub fn acknowledged(&self, side: Side) -> u64
        ensures { (w : World) → PairRepresents self.now w
            → result ≡ length (view_of side w).station.history.acked }
    {
        self.station(side).history.acknowledged()
    }

    /// How many messages of this side were dropped. The peer may have received them.
    pub fn dropped(&self, side: Side) -> u64
        ensures { (w : World) → PairRepresents self.now w
            → result ≡ length (view_of side w).station.history.dropped }
    {
        self.station(side).history.dropped()
    }

    /// How many messages of both sides are neither acknowledged nor dropped.
    pub fn left(&self) -> u64
        ensures { (w : World) → PairRepresents self.now w → result ≡ left w }
    {
        self.user.history.waiting() as u64 + self.network.history.waiting() as u64
    }

    /// The octets of the frames in transit to this side, in order.
    pub fn line(&self, to: Side) -> &[ArrayVec<u8, MOST_OCTETS>]
        ensures { (w : World) → PairRepresents self.now w
            → map (λ frame. frame.items) result.now ≡ map
            (λ frame. spelling (other_side to) (fields_of frame)) (view_of to w).incoming }
    {
        match to {
            Side::User => self.to_user.frames(),
            Side::Network => self.to_network.frames(),
        }
    }

    /// This side's end of the link, of SAPI 0 and TEI 64.
    pub fn link(&self, side: Side) -> &Link
        ensures end { (w : World) → PairRepresents self.now w
            → LinkRepresents result.now (view_of side w).station.end }
        ensures setup { (w : World) → PairRepresents self.now w
            → setup_of result.now ≡ setup_for side }
    {
        &self.station(side).link
    }
}

/// Settling a pair.
impl Pair {
    ghost use Rattle.std.specs.Prelude.{option_map};
    ghost use Rattle.lapd_pair_laws.specs.World.{World};
    ghost use Rattle.lapd_pair_laws.specs.Settle.{next_move, bound};
    ghost use Rattle.lapd_pair.specs.Moves.{move_of};
    ghost use Rattle.lapd_pair.specs.Readers.{AreSafeReadings};
    ghost use Rattle.lapd_pair.specs.Runs.{PairRepresents, IsSafePair};
    ghost use Rattle.lapd_pair.specs.Settles.{Settles, StopsSettling, EmptiesWhereQuiet, IsDrainedPair};

    /// Makes moves until none is possible, at most 8 for each message of [`Pair::left`] and 32
    /// more. Each move is the first possible one of: deliver the next frame to the network; deliver
    /// the next frame to the user; T200 of the user expires; T200 of the network expires.
    ///
    /// Suppose that both ends are in state 7 at the start, neither is own busy and no frame is in
    /// transit. Then it makes at most 3 moves for each message and 8 more, no further move is
    /// possible, and no message is left. It drops no message; each message that was left was
    /// received and is acknowledged, because no frame is lost (Q.921 5.6).
    ///
    /// # Errors
    ///
    /// P5 if an allocation failed for the next move, which is possible. The moves made before it
    /// remain in effect.
    pub fn settle(&mut self) -> Result<Settled, PairFault>
        ensures ok { IfOk result (λ done. Settles self.old self.new done) }
        ensures err { IfErr result (λ fault. StopsSettling self.old self.new fault) }
        ensures emptied { IfOk result (λ done. EmptiesWhereQuiet self.old done) }
        ensures drained { OnOk result (∥ IsDrainedPair self.old self.new ∥₁) }
        ensures safe { ∥ IsSafePair self.new ∥₁ }
        ensures readers { AreSafeReadings self.new }
    {
        let most = self.most_moves();
        let mut outs = Outs::new();
        for moves in 0..most {
            let Some(mv) = self.next_move() else {
                return Ok(Settled { moves, rest: true });
            };
            match self.apply_into(&mv, &mut outs) {
                Ok(()) => {}
                Err(fault) => return Err(fault),
            }
        }
        Ok(Settled {
            moves: most,
            rest: self.next_move().is_none(),
        })
    }

    /// The most moves that `settle` makes.
    fn most_moves(&self) -> u64
        ensures { (w : World) → PairRepresents self.now w → result ≡ bound w }
    {
        let left = u64::from(self.user.link.waiting()) + u64::from(self.network.link.waiting());
        8 * (left + 4)
    }

    /// The move that `settle` makes next.
    fn next_move(&self) -> Option<Move>
        ensures { (w : World) → PairRepresents self.now w
            → option_map (λ mv. move_of mv) result ≡ next_move Tagged w }
    {
        if self.to_network.first().is_some() {
            return Some(Move::Deliver(Side::Network));
        }
        if self.to_user.first().is_some() {
            return Some(Move::Deliver(Side::User));
        }
        if self.user.link.running(Timer::T200) {
            return Some(Move::Expire200(Side::User));
        }
        if self.network.link.running(Timer::T200) {
            return Some(Move::Expire200(Side::Network));
        }
        None
    }
}

/// Recovery of a pair.
impl Pair {
    ghost use Rattle.std.specs.Prelude.{option_map};
    ghost use Rattle.lapd_pair_laws.specs.World.{World};
    ghost use Rattle.lapd_recovery_laws.specs.Own.{first_own, are_apart};
    ghost use Rattle.lapd_recovery_laws.specs.Own as own;
    ghost use Rattle.lapd_pair.specs.Moves.{move_of};
    ghost use Rattle.lapd_pair.specs.Readers.{AreSafeReadings};
    ghost use Rattle.lapd_pair.specs.Recovers.{Recovers, StopsRecovering, ComesBack, most_retries, recovery_bound};
    ghost use Rattle.lapd_pair.specs.Runs.{PairRepresents, IsSafePair};

    /// Makes moves until none is possible, as if the line works again and layer 3 requests nothing.
    /// Each move is the first possible one of: deliver the next frame to the network; deliver the
    /// next frame to the user; T200 of the user expires; T200 of the network expires; and, if one
    /// end is in state 7 and the other is not, T203 of the user expires; T203 of the network
    /// expires.
    ///
    /// Suppose that no end in state 7 or 8 is own busy at the start. Then it makes at most 2 moves
    /// for each frame in transit, 3 for each message of [`Pair::left`], 6 for each retransmission
    /// that the greater N200 allows, and 15 more. No further move is possible, and both ends agree:
    /// both are in state 4, or both in state 7 with equal numbers. No message is left: each was
    /// received and acknowledged, or dropped.
    ///
    /// It never makes more than 16 moves besides those for frames, messages and retransmissions. If
    /// another move is then possible, `rest` is false, for example with a busy end.
    ///
    /// # Errors
    ///
    /// P5 if an allocation failed for the next move, which is possible. The moves made before it
    /// remain in effect.
    pub fn recover(&mut self) -> Result<Settled, PairFault>
        ensures ok { IfOk result (λ done. Recovers self.old self.new done) }
        ensures err { IfErr result (λ fault. StopsRecovering self.old self.new fault) }
        ensures agreed { IfOk result (λ done. ComesBack self.old done) }
        ensures safe { ∥ IsSafePair self.new ∥₁ }
        ensures readers { AreSafeReadings self.new }
    {
        let most = self.most_recovery_moves();
        let mut outs = Outs::new();
        for moves in 0..most {
            let Some(mv) = self.next_own_move() else {
                return Ok(Settled { moves, rest: true });
            };
            match self.apply_into(&mv, &mut outs) {
                Ok(()) => {}
                Err(fault) => return Err(fault),
            }
        }
        Ok(Settled {
            moves: most,
            rest: self.next_own_move().is_none(),
        })
    }

    /// The most moves that `recover` makes.
    fn most_recovery_moves(&self) -> u64
        ensures bound { (w : World) → PairRepresents self.now w → result ≡ recovery_bound w }
        ensures retries { (w : World) → PairRepresents self.now w → 1 ≤ most_retries w }
    {
        let frames = self.to_user.frames().len() as u64 + self.to_network.frames().len() as u64;
        let left = u64::from(self.user.link.waiting()) + u64::from(self.network.link.waiting());
        2 * frames + 3 * left + 6 * u64::from(self.most_retries()) + 16
    }

    /// The greater N200 of both ends.
    fn most_retries(&self) -> u8
        ensures same { (w : World) → PairRepresents self.now w → result ≡ most_retries w }
        ensures low { 1 ≤ result }
        ensures high { result ≤ 100 }
    {
        let user = self.user.link.params().n200();
        let network = self.network.link.params().n200();
        if user < network { network } else { user }
    }

    /// The move that `recover` makes next.
    fn next_own_move(&self) -> Option<Move>
        ensures { (w : World) → PairRepresents self.now w
            → option_map (λ mv. move_of mv) result ≡ first_own Tagged own.tried w }
    {
        if let Some(mv) = self.next_move() {
            return Some(mv);
        }
        if !self.are_apart() {
            return None;
        }
        if self.user.link.running(Timer::T203) {
            return Some(Move::Expire203(Side::User));
        }
        if self.network.link.running(Timer::T203) {
            return Some(Move::Expire203(Side::Network));
        }
        None
    }

    /// Whether one end is in state 7 and the other is not.
    fn are_apart(&self) -> bool
        ensures { (w : World) → PairRepresents self.now w → result ≡ are_apart w }
    {
        let network = self.network.link.state() == 7;
        if self.user.link.state() == 7 {
            !network
        } else {
            network
        }
    }
}
