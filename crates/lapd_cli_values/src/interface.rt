//! The configuration of `net` and `user`.

ghost use Rattle.std.specs.Prelude.{◌<◌};
ghost use Rattle.std.specs.List.{All};

use lapd_link_definition::{Params, Tei};
use lapd_timers::Durations;

/// The configuration of one side of an interface.
#[derive(Drop)]
pub struct Interface {
    /// Whether the interface is at primary rate; otherwise it is at basic access.
    pub pri: bool,
    /// The parameters of the links of SAPI 0.
    pub params0: Params,
    /// The parameters of the links of SAPI 16.
    pub params16: Params,
    /// The durations of the timers.
    pub durations: Durations,
    /// Whether SAPI 16 is served in addition to SAPI 0.
    pub sapi16: bool,
    /// The seed of the user side's reference numbers (Ri), if set by `--seed`.
    pub seed: Option<u64>,
    /// The known TEIs, each 0 to 126: on the network side all of them, on the user side its fixed
    /// TEI.
    pub teis: Vec<Tei>,
    ghost own: { All (λ tei. tei < 127) teis.items },
}

impl Interface {
    ghost use Rattle.std.specs.Prelude.{◌≡◌, ◌<◌, IfSome, option_map};
    ghost use Rattle.lapd_cli_values.specs.Interfaces.{first_of};

    /// The fixed TEI of a user side, 0 to 126: the first known TEI.
    pub fn fixed(&self) -> Option<Tei>
        ensures first { result ≡ first_of self.now.teis.items }
        ensures own { IfSome result (λ tei. tei < 127) }
    {
        self.teis.first().copied()
    }
}
