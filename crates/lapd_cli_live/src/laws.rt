//! Laws of the service.

ghost use Rattle.std.specs.Prelude.{◌≡◌, ℕ, Bool, List, Some};
ghost use Rattle.lapd_cli_live.specs.declared.service.Service.{Service};
ghost use Rattle.lapd_cli_live.specs.declared.service.Until.{Until};
ghost use Rattle.lapd_cli_live.specs.declared.service.EndReason.TheVariants.{End};
ghost use Rattle.lapd_cli_wire.specs.IoEvents.{IoEvent};
ghost use Rattle.lapd_cli_wire.specs.declared.outside.Lines.{Lines};
ghost use Rattle.lapd_cli_live.specs.Log.{LiveState};
ghost use Rattle.lapd_cli_live.specs.Steps.{CatchesUp, IsServed};
ghost use Rattle.lapd_cli_live.specs.WaitingLines.{Expects, PrintsMeanwhile};
ghost use Rattle.lapd_cli_live.specs.PromptLine.{Arrival, EndsInTime, ExpiresInTime, IsPrompt, one_left, three_at_once, three_received};

/// No timer expires early. Before the side expires timers for a moment, it receives every frame
/// that arrived in an earlier millisecond, if the line passes on all frames that have arrived. So
/// T200 does not expire if its response has arrived. The only exception is a flood: as many frames
/// at once as a step of the side receives, 256 to 4,096 by the number of its connections
/// ([`frames_of_step`](crate::frames_of_step)).
pub fn no_timer_expires_early()
    ensures { (arrivals : List Arrival) (until : Until) (a b : LiveState) (io_events : List IoEvent)
        → CatchesUp until a b → b.io_events ≡ Some io_events → IsPrompt arrivals io_events
        → ExpiresInTime arrivals until a b }
{}

/// No service of a number of milliseconds, such as `run 300`, ends before frames that arrived
/// earlier are received. Its last look at the line comes after the clock has shown its end, and
/// finds no frame that arrived in an earlier millisecond. The only exception is a flood: as many
/// frames at once as a step of the side receives.
pub fn no_service_ends_early()
    ensures { (arrivals : List Arrival) (service : Service) (a b : LiveState)
        (io_events : List IoEvent) → IsServed service End a b → b.io_events ≡ Some io_events
        → IsPrompt arrivals io_events → EndsInTime arrivals service b }
{}

/// Any number of frames may arrive in a millisecond, before and after the looks in it. A frame that
/// is left on the line until the next millisecond does not meet the premise.
pub fn prompt_lines_are_computed()
    ensures three { IsPrompt three_at_once three_received }
    ensures left { IsPrompt three_at_once one_left → ⊥ }
{}

/// While an `expect` serves the side, it finds a line exactly if the side prints one that begins
/// with the words.
pub fn expect_finds_what_is_printed()
    ensures { (words : List ℕ) (ms : ℕ) (lines : Lines) (matched : Bool) (a b : LiveState)
        → Expects words ms lines matched a b → PrintsMeanwhile words ms matched a b }
{}
