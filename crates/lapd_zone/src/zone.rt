//! A time zone.

ghost use Rattle.std.specs.Prelude.{◌≡◌, ◌↔◌, ◌<◌, ◌≤◌, ◌/◌, pos, IfNone, IfOk, IfSome, IsSome};
ghost use Rattle.jiff_core.specs.Timestamp.{nanos_of_seconds};
ghost use Rattle.jiff_tz.specs.PosixReader.{read_whole};
ghost use Rattle.lapd_zone.specs.Zone.{IsNoTable, IsRuleOf, IsTableOf, local_time, moved, offset_at, utc_table, within_9999};

use jiff_core::{Error, Offset, Timestamp};
use jiff_tz::{Tzif, posix};
use std::alloc::{AllocError, Global};

/// The first second of which `jiff_core` has no moment, 30 December 9999 at 22:00:01 UTC.
const END: u64 = 253_402_207_201;

/// The seconds of 400 years, after which the calendar repeats.
const CYCLE: u64 = 12_622_780_800;

/// A time zone: how far a clock is ahead of UTC, or behind it, at each moment since 1970.
#[derive(Drop)]
pub enum Zone {
    /// UTC.
    Utc,
    /// The zone of a TZif file.
    Table(Tzif),
    /// The zone of a POSIX TZ string.
    Rule(posix::TimeZone),
}

impl Zone {
    /// UTC. It allocates nothing, though the other zones do.
    pub fn utc(_alloc: Global) -> Zone
        ensures { result ≡ utc_table }
    {
        Zone::Utc
    }

    /// The zone of this TZif file (RFC 8536); `None` if it is no such file.
    ///
    /// # Errors
    ///
    /// `AllocError` if an allocation fails.
    pub fn of_file(alloc: Global, file: &[u8]) -> Result<Option<Zone>, AllocError>
        ensures zone { IfOk result (λ found. IfSome found (λ zone. IsTableOf file.now zone)) }
        ensures none { IfOk result (λ found. IfNone found (IsNoTable file.now)) }
    {
        match Tzif::parse(alloc, None, file) {
            Ok(table) => Ok(Some(Zone::Table(table))),
            Err(Error::OutOfMemory) => Err(AllocError),
            Err(_) => Ok(None),
        }
    }

    /// The zone of this POSIX TZ string, such as `CET-1CEST,M3.5.0,M10.5.0/3`; `None` if it is no
    /// such string.
    pub fn of_text(text: &[u8]) -> Option<Zone>
        ensures succeeds { IsSome result ↔ IsSome (read_whole text.now) }
        ensures zone { IfSome result (λ zone. IsRuleOf text.now zone) }
    {
        match posix::TimeZone::parse(text) {
            Ok(rule) => Some(Zone::Rule(rule)),
            Err(_) => None,
        }
    }

    /// The microseconds since 1970 that a clock in this zone shows at a moment, which is counted so
    /// too, in UTC.
    pub fn local(&self, micros: u64) -> u64
        ensures { result ≡ local_time self.now micros }
    {
        moved(self.offset_at(micros / 1_000_000), micros)
    }

    /// The offset at a moment, in seconds since 1970.
    fn offset_at(&self, seconds: u64) -> Offset
        ensures { result.seconds ≡ offset_at self.now seconds }
    {
        let moment = moment_of(within_9999(seconds));
        match self {
            Zone::Utc => Offset::UTC,
            Zone::Table(table) => table.to_offset(moment),
            Zone::Rule(rule) => rule.to_offset(moment),
        }
    }
}

/// The same second, or the same of the last 400 years before the end.
fn within_9999(seconds: u64) -> u64
    ensures value { result ≡ within_9999 seconds }
    ensures within { result < 253402207201 }
{
    if seconds < END {
        seconds
    } else {
        END - CYCLE + (seconds - END) % CYCLE
    }
}

/// The moment of a second since 1970.
fn moment_of(seconds: u64) -> Timestamp
    requires { seconds < 253402207201 }
    ensures { result.nanosecond ≡ nanos_of_seconds (pos seconds) }
{
    Timestamp {
        nanosecond: seconds as i128 * 1_000_000_000,
    }
}

/// A moment, moved by an offset.
fn moved(offset: Offset, micros: u64) -> u64
    ensures { result ≡ moved offset.seconds micros }
{
    let distance = u64::from(offset.seconds.unsigned_abs()) * 1_000_000;
    if offset.seconds < 0 {
        micros.saturating_sub(distance)
    } else {
        micros.saturating_add(distance)
    }
}
