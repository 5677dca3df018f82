//! The units of time of an interface.

ghost use Rattle.std.specs.Prelude.{◌≡◌, ◌<◌, ◌^◌, ◌*◌, ◌+◌, drop, Some};
ghost use Rattle.lapd_capture.specs.Reading.{first_unserved, front_unserved, snapped};
ghost use Rattle.lapd_capture.specs.Moment.{missing_in, moment_in, padded, units_in, units_of};

use crate::link_type::LinkType;
use crate::order::Order;

/// How many options of an interface, or of a block, are looked at.
const MOST_OPTIONS: usize = 64;

/// The code of the option if_tsresol.
const RESOLUTION: usize = 9;

/// The code of the option epb_dropcount.
const DROPPED: usize = 4;

/// The length of its value, in octets.
const DROPPED_OCTETS: usize = 8;

/// An interface of a capture.
#[derive(Clone, Copy, Default)]
pub struct Interface {
    /// Its link type.
    pub(crate) link: LinkType,
    /// How many units of time a second has; 0 if it is not known.
    pub(crate) units: u64,
    /// The most octets of a packet that are captured; 0 if there is no limit, and for pcap, where
    /// each record says how many were captured.
    pub(crate) snap: usize,
}

/// The number of the first link type of these interfaces from which frames can't be read.
#[tactic(auto, using(crate::proofs::Unserved::number_found, crate::proofs::Unserved::number_passed))]
pub(crate) fn first_unserved(interfaces: &[Interface]) -> Option<usize>
    ensures { result ≡ first_unserved interfaces.now }
{
    let mut rest = interfaces;
    while let [_, behind @ ..] = rest {
        match front_unserved(rest) {
            Some(number) => return Some(number),
            None => rest = behind,
        }
    }
    None
}

/// The number of the first link type, if frames can't be read from it.
fn front_unserved(interfaces: &[Interface]) -> Option<usize>
    ensures { result ≡ front_unserved interfaces.now }
{
    match interfaces {
        [] => None,
        [interface, ..] => interface.link.unserved(),
    }
}

/// The moment after this many units of time, in microseconds.
fn moment_in(units: u64, ticks: u128) -> Option<u64>
    requires { ticks < 2 ^ 100 }
    ensures { result ≡ moment_in units ticks }
{
    if units == 0 {
        return None;
    }
    let moment = ticks * 1_000_000 / u128::from(units);
    if moment < 0x1_0000_0000_0000_0000 {
        Some(moment as u64)
    } else {
        None
    }
}

impl Interface {
    /// How many octets of a packet of this original length are captured.
    pub(crate) fn snapped(self, original: usize) -> usize
        ensures { result ≡ snapped (Some self) original }
    {
        if self.snap == 0 {
            original
        } else {
            self.snap.min(original)
        }
    }

    /// The moment of a packet, by the units of time since 1970.
    pub(crate) fn moment_of(self, ticks: u64) -> Option<u64>
        ensures { result ≡ moment_in self.units ticks }
    {
        moment_in(self.units, u128::from(ticks))
    }

    /// The moment of a packet, by its seconds since 1970 and the units of time after them.
    pub(crate) fn moment_at(self, seconds: u32, parts: u32) -> Option<u64>
        ensures { result ≡ moment_in self.units (seconds * self.units + parts) }
    {
        let ticks = u128::from(seconds) * u128::from(self.units) + u128::from(parts);
        moment_in(self.units, ticks)
    }
}

/// The units of an interface with these options.
pub(crate) fn units_in(order: Order, options: &[u8]) -> u64
    ensures { result ≡ units_in order options.now }
{
    let mut rest = options;
    for _option in 0..MOST_OPTIONS {
        if rest.len() < 5 {
            return 1_000_000;
        }
        let code = order.u16_at(0, rest);
        if code == 0 {
            return 1_000_000;
        }
        if code == RESOLUTION {
            return units_of(rest[4]);
        }
        rest = after(4 + padded(order.u16_at(2, rest)), rest);
    }
    1_000_000
}

/// How many packets are missing before a block with these options.
pub(crate) fn missing_in(order: Order, options: &[u8]) -> u64
    ensures { result ≡ missing_in order options.now }
{
    let mut rest = options;
    for _option in 0..MOST_OPTIONS {
        if rest.len() < 4 + DROPPED_OCTETS {
            return 0;
        }
        let code = order.u16_at(0, rest);
        if code == 0 {
            return 0;
        }
        if code == DROPPED {
            return order.u64_at(4, rest);
        }
        rest = after(4 + padded(order.u16_at(2, rest)), rest);
    }
    0
}

/// The octets after the first `count`; none if there are no more.
pub(crate) fn after(count: usize, octets: &[u8]) -> &[u8]
    ensures { result.now ≡ drop count octets.now }
{
    if count < octets.len() {
        &octets[count..]
    } else {
        &[]
    }
}

/// The length of a value with its padding.
pub(crate) fn padded(count: usize) -> usize
    requires { count < 2 ^ 32 }
    ensures { result ≡ padded count }
{
    count + (4 - count % 4) % 4
}

/// How many units of time a second has, by the octet of if_tsresol.
fn units_of(octet: u8) -> u64
    ensures { result ≡ units_of octet }
{
    match octet {
        0 => 1,
        1 => 10,
        2 => 100,
        3 => 1000,
        4 => 10_000,
        5 => 100_000,
        6 => 1_000_000,
        7 => 10_000_000,
        8 => 100_000_000,
        9 => 1_000_000_000,
        10..=127 => 0,
        128..=191 => 1 << (octet - 128),
        _ => 0,
    }
}
