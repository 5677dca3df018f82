//! Laws of the senders that are found, over their definitions. Calling them has no effect.

ghost use Rattle.std.specs.Prelude.{◌≡◌, ℕ, Bool, List, Option, Some, None};
ghost use Rattle.lapd_frame.specs.declared.Role.{Role};
ghost use Rattle.lapd_frame.specs.declared.Side.{Side};
ghost use Rattle.lapd_frame.specs.declared.Side.TheVariants.{Network, User};
ghost use Rattle.lapd_frame.specs.Frame.{Fields, IsFrame, spelling};
ghost use Rattle.lapd_frame.specs.Reading.{frame_at};
ghost use Rattle.lapd_follow.specs.Listening.{Listening};
ghost use Rattle.lapd_cli_render.specs.declared.Packet.{Packet};
ghost use Rattle.lapd_cli_ladder.specs.Words.{frame_words, known_words};
ghost use Rattle.lapd_cli_frames.specs.declared.style.Style.{Style};
ghost use Rattle.lapd_follow.specs.Senders.{role_by_kind, sender_by_kind};
ghost use Rattle.lapd_cli_frames.specs.ShownText.{shown_text};

/// If a side sends a frame that only a command or only a response can be, the octets name that
/// side.
pub fn sender_is_found()
    ensures { (from : Side) (f : Fields) (kind : Role) → IsFrame f
        → role_by_kind f.control ≡ Some kind → sender_by_kind (spelling from f) ≡ Some from }
{}

/// Octets that name no sender are shown alike, whichever side reads them.
pub fn both_read_alike()
    ensures { (style : Style) (is_cut : Bool) (packet : Option Packet) (octets : List ℕ)
        → sender_by_kind octets ≡ None
        → shown_text style is_cut packet None octets (frame_at User octets)
        ≡ shown_text style is_cut packet None octets (frame_at Network octets) }
{}

/// Octets that name no sender are drawn with the same words, and the same ends beside them,
/// whichever side reads them.
pub fn both_draw_alike()
    ensures words { (names : Bool) (octets : List ℕ) → sender_by_kind octets ≡ None
        → frame_words names None octets (frame_at User octets)
        ≡ frame_words names None octets (frame_at Network octets) }
    ensures ends { (side : Side) (octets : List ℕ) (listening : Option Listening)
        → sender_by_kind octets ≡ None
        → known_words side (frame_at User octets) listening
        ≡ known_words side (frame_at Network octets) listening }
{}
