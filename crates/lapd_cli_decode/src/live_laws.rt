//! A law of ladders that are drawn while frames pass, over definitions. Calling it has no effect.

ghost use Rattle.std.specs.Prelude.{◌≡◌, ◌<◌, ◌^◌, ◌++◌, Bool, List, Ok, Option, length};
ghost use Rattle.lapd_frame.specs.declared.Side.{Side};
ghost use Rattle.lapd_capture.specs.ReadBack.{LineFrame, records_of};
ghost use Rattle.lapd_capture.specs.Reading.{Reading, opened};
ghost use Rattle.lapd_capture.specs.Written.{file_octets};
ghost use Rattle.lapd_cli_frames.specs.LiveLadder.{new_ladder, rungs_of};
ghost use Rattle.lapd_cli_decode.specs.DecodedLadder.{AreCaptured, DecodesAs, captured_ladder};

/// The ladder that a [`crate::FrameDrawer`] draws of frames is the one that `decode --ladder`
/// prints for their capture, as a `CaptureWriter` of `lapd_capture` writes it for either side.
pub fn ladder_is_decoded()
    ensures { (sender : Option Side) (keeps_going : Bool) (own : Side) (frames : List LineFrame)
        (start : Reading) → AreCaptured frames → length frames < 2 ^ 64
        → opened (file_octets ++ records_of own frames) ≡ Ok start
        → DecodesAs (captured_ladder sender keeps_going) start (rungs_of frames new_ladder) }
{}
