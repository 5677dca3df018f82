ghost use Rattle.std.specs.Prelude.{◌≡◌, ◌&&◌, ◌==◌, false};
ghost use Rattle.lapd_link_definition.specs.Parameters.{basic_parameters, primary_parameters};
ghost use Rattle.lapd_timers.specs.Durations.{standard_lengths};
ghost use Rattle.lapd_tei.specs.Message.{group_tei};
ghost use Rattle.lapd_sides_links.specs.Links.{is_served};

use lapd_link::{Params, Sapi, Tei};
use lapd_table::LinkId;
use lapd_timers::Durations;

/// The configuration of a side.
#[derive(Clone, Copy, Debug, PartialEq, Eq)]
pub struct Config {
    /// Whether to serve SAPI 16 (packet communication) as well as SAPI 0 (call control).
    pub sapi16: bool,
    /// The parameters of the links of SAPI 0.
    pub params0: Params,
    /// The parameters of the links of SAPI 16.
    pub params16: Params,
    /// The durations of the timers.
    pub durations: Durations,
    /// The seed of a user side's references (Ri, Q.921 5.3.2). Terminals on one bus must have
    /// different seeds: with the same seed, two terminals draw the same Ri and can be assigned one
    /// TEI. Draw it from the system (as by `getrandom`), not from the time or a constant.
    pub seed: u64,
}

impl Config {
    /// The values of Q.921 5.9 for basic access, with call control only: [`Params::basic`] and
    /// [`Durations::standard`]. The parameters of SAPI 16 are set too, for a caller that enables
    /// it. `seed` is [`Config::seed`].
    pub fn basic(seed: u64) -> Config
        ensures { result ≡ record {
          sapi16 = false;
          params0 = basic_parameters Sapi.Call;
          params16 = basic_parameters Sapi.Packet;
          durations = standard_lengths;
          seed = seed;
        } }
    {
        Config {
            sapi16: false,
            params0: Params::basic(Sapi::Call),
            params16: Params::basic(Sapi::Packet),
            durations: Durations::standard(),
            seed,
        }
    }

    /// The values of Q.921 5.9 for primary rate, with call control only: [`Params::primary`] and
    /// [`Durations::standard`]. `seed` is [`Config::seed`].
    pub fn primary(seed: u64) -> Config
        ensures { result ≡ record {
          sapi16 = false;
          params0 = primary_parameters;
          params16 = primary_parameters;
          durations = standard_lengths;
          seed = seed;
        } }
    {
        Config {
            params0: Params::primary(),
            params16: Params::primary(),
            ..Config::basic(seed)
        }
    }

    /// Whether a SAPI has links. Call control does, and packet communication if it is enabled;
    /// management does not.
    pub fn serves(&self, sapi: Sapi) -> bool
        ensures { result ≡ is_served self.now sapi }
    {
        match sapi {
            Sapi::Call => true,
            Sapi::Packet => self.sapi16,
            Sapi::Management => false,
        }
    }

    /// Whether this id is the group TEI in a SAPI that is served.
    pub fn serves_group(&self, id: &LinkId) -> bool
        ensures { result ≡ is_served self.now id.now.sapi && (id.now.tei == group_tei) }
    {
        self.serves(id.sapi) && id.tei == Tei::group()
    }
}
