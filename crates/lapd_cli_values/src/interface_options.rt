//! The texts of the options of `net` and `user`, and the interface they choose.

ghost use Rattle.std.specs.Prelude.{◌≡◌, ◌<◌, [], ◌∷◌, map, option_map, IfOk, MatchResult};
ghost use Rattle.std.specs.List.{All};
ghost use Rattle.std.specs.Str.Parse.{digits_value};
ghost use Rattle.lapd_cli_values.specs.Interfaces.{AreLengths, AreTeis, IsSeed, lengths_written, link_written, seed_meant, teis_meant, teis_written, default_window, window_meant};
ghost use Rattle.lapd_cli_values.specs.InterfaceChoices.{IsChosenBy, IsNoneOfItsRange, window_of};
ghost use Rattle.lapd_cli_values.specs.Numerals.{AreWritten};
ghost use Rattle.lapd_cli_values.specs.Options.{IsNumberFrom};

use crate::interface::Interface;
use crate::number_option::{KNOWN_TEI, NumberOption, SEED, T200, T201, T202, T203};
use crate::out_of_range::{OutOfRange, number_written, params_written};
use lapd_link_definition::{Params, Recovery, Sapi, Tei};
use lapd_timers::Durations;
use std::alloc::{AllocError, Global};

/// The texts of the options of an interface that may be given once, or their defaults.
#[derive(Clone, Copy)]
pub struct InterfaceOptions<'a> {
    /// Whether the interface is at primary rate.
    pub pri: bool,
    /// Whether to serve SAPI 16 at primary rate.
    pub sapi16: bool,
    /// The window k of all links.
    pub k: Option<&'a str>,
    /// N200 of all links.
    pub n200: &'a str,
    /// The capacity of the I queues of all links.
    pub room: &'a str,
    /// The frame that a link sends when T200 expires in state 7.
    pub recovery: Recovery,
    /// The duration of T200.
    pub t200: &'a str,
    /// The duration of T201.
    pub t201: &'a str,
    /// The duration of T202.
    pub t202: &'a str,
    /// The duration of T203.
    pub t203: &'a str,
    /// The seed of the user side's reference numbers (Ri).
    pub seed: Option<&'a str>,
}

/// Why no interface could be configured.
#[derive(Clone, Copy)]
pub enum InterfaceFault<'a> {
    /// A number is not in its option's range.
    OutOfRange(OutOfRange<'a>),
    /// An allocation failed.
    Memory,
}

/// The interface configured by the options that may be given once and by the TEIs. At primary rate
/// without a TEI, TEI 0 is known.
///
/// # Errors
///
/// `OutOfRange` at a number that is not in its option's range, `Memory` if an allocation fails.
pub fn interface_written<'a>(
    alloc: Global,
    options: &InterfaceOptions<'a>,
    teis: &[&'a str],
) -> Result<Interface, InterfaceFault<'a>>
    ensures { MatchResult result
        (λ interface. IsChosenBy options.now (map (λ t. t.now) teis.now) interface)
        (λ fault. IsNoneOfItsRange fault) }
{
    let links0 = links_written(options, Sapi::Call);
    let links16 = links_written(options, Sapi::Packet);
    let durations = durations_written(options.t200, options.t201, options.t202, options.t203);
    let seed = seed_written(options.seed);
    match (links0, links16, durations, seed) {
        (Ok(params0), Ok(params16), Ok(durations), Ok(seed)) => {
            match known_teis(alloc, options.pri, teis) {
                Ok(teis) => Ok(Interface {
                    pri: options.pri,
                    params0,
                    params16,
                    durations,
                    sapi16: !options.pri || options.sapi16,
                    seed,
                    teis,
                }),
                Err(fault) => Err(fault),
            }
        }
        (Err(fault), _, _, _)
        | (_, Err(fault), _, _)
        | (_, _, Err(fault), _)
        | (_, _, _, Err(fault)) => Err(InterfaceFault::OutOfRange(fault)),
    }
}

// The parameters of the links of this SAPI.
fn links_written<'a>(options: &InterfaceOptions<'a>, sapi: Sapi) -> Result<Params, OutOfRange<'a>>
    ensures { MatchResult result
        (λ params. AreWritten (window_of options.now sapi) options.now.n200.now options.now.room.now
        × (params ≡ link_written (window_of options.now sapi) options.now.n200.now
        options.now.room.now options.now.recovery))
        (λ fault. ¬ IsNumberFrom fault.option.least fault.option.most fault.written.now) }
{
    let k = window(options.pri, sapi, options.k);
    match params_written(k, options.n200, options.room) {
        Ok(params) => Ok(params.with_recovery(options.recovery)),
        Err(fault) => Err(fault),
    }
}

// The window in the options, or the default.
fn window<'a>(pri: bool, sapi: Sapi, k: Option<&'a str>) -> &'a str
    ensures { result.now ≡ window_meant pri sapi (option_map (λ k. k.now) k.entry) }
{
    match k {
        Some(k) => k,
        None => default_window(pri, sapi),
    }
}

// The default window (Q.921 5.9.5).
fn default_window(pri: bool, sapi: Sapi) -> &'static str
    ensures { result.now ≡ default_window pri sapi }
{
    if pri {
        return "7";
    }
    match sapi {
        Sapi::Packet => "3",
        Sapi::Call | Sapi::Management => "1",
    }
}

/// The durations of the timers, from texts in milliseconds.
///
/// # Errors
///
/// `OutOfRange` at the first of the four that is not from 1 to 3,600,000.
pub fn durations_written<'a>(
    t200: &'a str,
    t201: &'a str,
    t202: &'a str,
    t203: &'a str,
) -> Result<Durations, OutOfRange<'a>>
    ensures { MatchResult result
        (λ durations. AreLengths t200.now t201.now t202.now t203.now
        × (durations ≡ lengths_written t200.now t201.now t202.now t203.now))
        (λ fault. ¬ IsNumberFrom fault.option.least fault.option.most fault.written.now) }
{
    let t200 = milliseconds(T200, t200)?;
    let t201 = milliseconds(T201, t201)?;
    let t202 = milliseconds(T202, t202)?;
    let t203 = milliseconds(T203, t203)?;
    match Durations::new(t200, t201, t202, t203) {
        Some(durations) => Ok(durations),
        None => unreachable!(),
    }
}

// The seed, if present.
fn seed_written<'a>(written: Option<&'a str>) -> Result<Option<u64>, OutOfRange<'a>>
    ensures { MatchResult result
        (λ seed. IsSeed (option_map (λ s. s.now) written.entry)
        × (seed ≡ seed_meant (option_map (λ s. s.now) written.entry)))
        (λ fault. ¬ IsNumberFrom fault.option.least fault.option.most fault.written.now) }
{
    match written {
        Some(written) => match number_written(SEED, written) {
            Ok(seed) => Ok(Some(seed)),
            Err(fault) => Err(fault),
        },
        None => Ok(None),
    }
}

// The duration of a timer, from its option's text.
fn milliseconds(option: NumberOption, written: &str) -> Result<u32, OutOfRange<'_>>
    requires { option.most < 4294967296 }
    ensures { MatchResult result
        (λ number. IsNumberFrom option.least option.most written.now
        × (number ≡ digits_value 10 written.now))
        (λ fault. (fault ≡ record { option = option; written = written.entry })
        × (¬ IsNumberFrom option.least option.most written.now)) }
{
    match number_written(option, written) {
        Ok(number) => Ok(number as u32),
        Err(fault) => Err(fault),
    }
}

/// The TEI of an option, from its text.
///
/// # Errors
///
/// `OutOfRange` if the text is not a number from 0 to 126.
pub fn tei_written(option: NumberOption, written: &str) -> Result<Tei, OutOfRange<'_>>
    requires { option.most < 127 }
    ensures { MatchResult result
        (λ tei. IsNumberFrom option.least option.most written.now
        × (tei ≡ digits_value 10 written.now))
        (λ fault. (fault ≡ record { option = option; written = written.entry })
        × (¬ IsNumberFrom option.least option.most written.now)) }
{
    match number_written(option, written) {
        Ok(number) => Ok(Tei::new(number as u8).unwrap()),
        Err(fault) => Err(fault),
    }
}

// The known TEIs.
fn known_teis<'a>(
    alloc: Global,
    pri: bool,
    teis: &[&'a str],
) -> Result<Vec<Tei>, InterfaceFault<'a>>
    ensures { MatchResult result
        (λ known. AreTeis (map (λ t. t.now) teis.now)
        × (known.items ≡ teis_meant pri (teis_written (map (λ t. t.now) teis.now)))
        × All (λ tei. tei < 127) known.items)
        (λ fault. IsNoneOfItsRange fault) }
{
    match listed_teis(alloc, teis) {
        Ok(known) => match or_tei_zero(pri, known) {
            Ok(known) => Ok(known),
            Err(_) => Err(InterfaceFault::Memory),
        },
        Err(fault) => Err(fault),
    }
}

// These TEIs; at primary rate TEI 0 if there is none.
fn or_tei_zero(pri: bool, mut known: Vec<Tei>) -> Result<Vec<Tei>, AllocError>
    requires { All (λ tei. tei < 127) known.items }
    ensures { IfOk result (λ meant. (meant.items ≡ teis_meant pri known.items)
        × All (λ tei. tei < 127) meant.items) }
{
    if pri && known.is_empty() {
        known.push(Tei::new(0).unwrap())?;
    }
    Ok(known)
}

// The TEIs that these texts spell, in order.
fn listed_teis<'a>(alloc: Global, teis: &[&'a str]) -> Result<Vec<Tei>, InterfaceFault<'a>>
    ensures { MatchResult result
        (λ known. AreTeis (map (λ t. t.now) teis.now)
        × (known.items ≡ teis_written (map (λ t. t.now) teis.now))
        × All (λ tei. tei < 127) known.items)
        (λ fault. IsNoneOfItsRange fault) }
{
    let mut known = Vec::new(alloc);
    for written in teis {
        match tei_written(KNOWN_TEI, written) {
            Ok(tei) => {
                let Ok(()) = known.push(tei) else {
                    return Err(InterfaceFault::Memory);
                };
            }
            Err(fault) => return Err(InterfaceFault::OutOfRange(fault)),
        }
    }
    Ok(known)
}
