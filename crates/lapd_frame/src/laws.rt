//! Laws of the grammar, over its definitions. Calling them has no effect.

ghost use Rattle.std.specs.Prelude.{◌≡◌, ℕ, List, Ok};
ghost use Rattle.lapd_field.specs.declared.side.Side.{Side};
ghost use Rattle.lapd_frame.specs.Frame.{Fields, IsFrame, spelling};
ghost use Rattle.lapd_frame.specs.Reading.{frame_at};

/// Reading the octets of a frame returns the frame.
pub fn read_as_spelled()
    ensures { (from : Side) (f : Fields) → IsFrame f → frame_at from (spelling from f) ≡ Ok f }
{}

/// Each frame has one spelling: octets are read as a frame only if the frame is written as these
/// octets.
pub fn one_spelling()
    ensures { (from : Side) (octets : List ℕ) (f : Fields) → frame_at from octets ≡ Ok f
        → octets ≡ spelling from f }
{}

/// Two frames that one side writes as the same octets are the same frame.
pub fn one_frame()
    ensures { (from : Side) (f g : Fields) → IsFrame f → IsFrame g
        → spelling from f ≡ spelling from g → f ≡ g }
{}
