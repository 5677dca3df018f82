//! The configuration of a side, in the form that C passes.

ghost use Rattle.std.specs.Prelude.{◌≡◌, ◌<◌, IfOk, IfSome, MatchOption, true, false};
ghost use Rattle.std.specs.List.{All, list_all};
ghost use Rattle.lapd_c.specs.Settings.{config_of, network_config, user_config, is_own_tei, own_tei, fixed_tei, is_0, is_fixed_tei};
ghost use Rattle.lapd_c.specs.WrongSetting.{wrong_setting};
ghost use Rattle.lapd_link_definition.specs.Parameters.{lies_between};
ghost use Rattle.lapd_timers.specs.Durations.{is_length};

use lapd_sides::{Config, Durations, Params, Tei};
use std::alloc::{AllocError, Global};

/// The size of [`Settings`] in octets.
pub const SETTINGS_SIZE: u32 = 64;

/// The configuration of a side.
#[repr(C)]
#[derive(Clone, Copy)]
pub struct Settings {
    /// The size of the struct that the program was compiled with: [`SETTINGS_SIZE`].
    pub size: u32,
    /// T200 in milliseconds, 1 to 3,600,000, as are the next three.
    pub t200: u32,
    /// T201.
    pub t201: u32,
    /// T202.
    pub t202: u32,
    /// T203.
    pub t203: u32,
    /// The capacity of a link's message queue, 1 to 1,024.
    pub room: u16,
    /// If this many frames or primitives wait, calls that could add more are refused; 1 to 65,535.
    pub most_waiting: u16,
    /// The seed of a user side's references (Ri, Q.921 5.3.2). Terminals on one bus must have
    /// different seeds: with the same seed, two terminals draw the same Ri and can be assigned one
    /// TEI.
    pub seed: u64,
    /// N200, 1 to 100.
    pub n200: u8,
    /// The window of SAPI 0, 1 to 127.
    pub k0: u8,
    /// The window of SAPI 16, 1 to 127.
    pub k16: u8,
    /// 0: only SAPI 0 is served. Otherwise SAPI 16 is served too.
    pub sapi16: u8,
    /// Room for settings of later versions, each 0.
    pub reserved: [u64; 3],
}

impl Settings {
    /// The configuration of a network side that holds these TEIs; `None` if a number is out of
    /// range.
    pub(crate) fn network_config(&self, known: &[u8]) -> Option<Config>
        ensures { result ≡ network_config self.now known.now }
    {
        if are_own_teis(known) {
            self.config()
        } else {
            None
        }
    }

    /// The configuration of a user side with this fixed TEI, or 255 for none; `None` if a number is
    /// out of range.
    pub(crate) fn user_config(&self, fixed: u8) -> Option<Config>
        ensures { result ≡ user_config self.now fixed }
    {
        if is_fixed_tei(fixed) {
            self.config()
        } else {
            None
        }
    }

    /// The configuration; `None` if a number is out of range.
    fn config(&self) -> Option<Config>
        ensures { result ≡ config_of self.now }
    {
        if self.size != SETTINGS_SIZE || self.most_waiting == 0 || !self.are_reserved_0() {
            return None;
        }
        let params0 = Params::new(self.k0, self.n200, self.room)?;
        let params16 = Params::new(self.k16, self.n200, self.room)?;
        let durations = Durations::new(self.t200, self.t201, self.t202, self.t203)?;
        Some(Config {
            sapi16: self.sapi16 != 0,
            params0,
            params16,
            durations,
            seed: self.seed,
        })
    }

    /// The number of a setting that is out of its range, as in `lapd_setting` of c/lapd.h; 0 if none
    /// is. Another size is found first.
    pub(crate) fn wrong_setting(&self) -> u8
        ensures { result ≡ wrong_setting self.now }
    {
        if self.size != SETTINGS_SIZE {
            1
        } else if self.most_waiting == 0 {
            7
        } else if !self.are_reserved_0() {
            11
        } else if !lies_between(1, u16::from(self.k0), 127) {
            9
        } else if !lies_between(1, u16::from(self.n200), 100) {
            8
        } else if !lies_between(1, self.room, 1024) {
            6
        } else if !lies_between(1, u16::from(self.k16), 127) {
            10
        } else if !is_length(self.t200) {
            2
        } else if !is_length(self.t201) {
            3
        } else if !is_length(self.t202) {
            4
        } else if !is_length(self.t203) {
            5
        } else {
            0
        }
    }

    /// Whether all room is 0.
    fn are_reserved_0(&self) -> bool
        ensures { result ≡ list_all is_0 self.now.reserved }
    {
        self.reserved.iter().all(|number| *number == 0)
    }
}

/// Whether a number is in this range.
fn lies_between(low: u16, number: u16, high: u16) -> bool
    ensures { result ≡ lies_between low number high }
{
    low <= number && number <= high
}

/// Whether a timer may run for so long, in milliseconds.
fn is_length(duration: u32) -> bool
    ensures { result ≡ is_length duration }
{
    1 <= duration && duration <= 3_600_000
}

/// Whether each value is 0 to 126.
fn are_own_teis(values: &[u8]) -> bool
    ensures { result ≡ list_all is_own_tei values.now }
{
    values.iter().all(|value| *value < 127)
}

/// Whether the value is a fixed TEI, 0 to 126, or 255 for none.
fn is_fixed_tei(value: u8) -> bool
    ensures { result ≡ is_fixed_tei value }
{
    value == 255 || value < 127
}

/// Converts TEIs, each 0 to 126.
pub(crate) fn known_teis(alloc: Global, values: &[u8]) -> Result<Vec<Tei>, AllocError>
    requires { list_all is_own_tei values.now ≡ true }
    ensures { IfOk result (λ known. (known.items ≡ values.now)
        × All (λ tei. tei < 127) known.items) }
{
    let mut known = Vec::with_capacity(alloc, values.len())?;
    for value in values {
        let Some(tei) = own_tei(*value) else {
            unreachable!()
        };
        known.push(tei)?;
    }
    Ok(known)
}

/// Converts a TEI, 0 to 126; `None` for any other number.
pub(crate) fn own_tei(value: u8) -> Option<Tei>
    ensures value { result ≡ own_tei value }
    ensures named { MatchOption result (is_own_tei value ≡ false)
        (λ tei. (tei ≡ value) × (tei < 127)) }
{
    if value < 127 { Tei::new(value) } else { None }
}

/// The fixed TEI, or `None` for 255.
pub(crate) fn fixed_tei(value: u8) -> Option<Tei>
    requires { is_fixed_tei value ≡ true }
    ensures fixed { result ≡ fixed_tei value }
    ensures own { IfSome result (λ tei. tei < 127) }
{
    if value == 255 { None } else { Tei::new(value) }
}
