//! A law about the moves of a pair. Calling it does nothing.

ghost use Rattle.std.specs.Prelude.{◌≡◌, drop, Ok};
ghost use Rattle.lapd_link.specs.SentFrame.{HaveFrames};
ghost use Rattle.lapd_mod128.specs.Counting.{Tagged};
ghost use Rattle.lapd_pair.specs.Setup.{setup_for};
ghost use Rattle.lapd_link_definition.specs.End.{End};
ghost use Rattle.lapd_pair_laws.specs.Consistent.{IsConsistentWorld};
ghost use Rattle.lapd_pair_laws.specs.Move.{Move};
ghost use Rattle.lapd_pair_laws.specs.World.{World, Happened, happens, view_of};

/// In every move, each output that sends a frame has one: the message that it carries exists in the
/// side's state after the move, and its parts form a frame of the control table (Q.921 Table 5,
/// 5.6.1, 5.9.3).
pub fn sent_outputs_of_moves_have_frames()
    ensures { (move : Move) (w : World) (happened : Happened) → IsConsistentWorld Tagged w
        → happens Tagged move w ≡ Ok happened
        → let e : End = (view_of move.side happened.world).station.end in
        HaveFrames (setup_for move.side) (drop e.first e.given) happened.outs }
{}
