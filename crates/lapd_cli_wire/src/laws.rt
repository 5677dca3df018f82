//! A law of received frames, over the definition of frames. Calling it has no effect.

ghost use Rattle.std.specs.Prelude.{◌≡◌, ◌<◌, ℕ, List, length, take};
ghost use Rattle.lapd_frame.specs.declared.Side.{Side};
ghost use Rattle.lapd_frame.specs.Reading.{frame_at};

/// A frame of more than 264 octets has the fault of its first 265. So a line need not receive more
/// of it ([`MOST_RECEIVED`](crate::MOST_RECEIVED)): the side discards or reports the whole frame
/// for the same reason, at the same link (Q.921 2.9, 5.8.5).
pub fn long_frames_keep_their_fault()
    ensures { (from : Side) (octets : List ℕ) → 264 < length octets
        → frame_at from (take 265 octets) ≡ frame_at from octets }
{}
