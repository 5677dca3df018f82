//! The kind of a file, by its first octets.

ghost use Rattle.std.specs.Prelude.{◌≡◌, ◌≤◌, ℕ, List, Some, IfOk, IfErr, take};
ghost use Rattle.std.specs.Io.KnownBytes.{Consumes};
ghost use Rattle.std.specs.List.{list_any};
ghost use Rattle.lapd_capture.specs.FileKind.{is_control, is_magic, kind_by_magic, kind_by_octets, kind_of_file, kind_of_front};
ghost use Rattle.lapd_capture.specs.Takes.{IsApart};

use crate::capture_reader::{SECTION, order_of_pcap};
use crate::fault::ReadFault;
use crate::order::Order;
use crate::taking::fill;
use std::io::Read;

/// How many octets at the beginning of a file its kind depends on.
pub const KIND_OCTETS: usize = 8;

/// The kind of a file.
#[derive(Clone, Copy, Debug, PartialEq, Eq)]
pub enum FileKind {
    /// It begins as a pcap or pcapng file.
    Capture,
    /// The file is compressed by gzip.
    Gzip,
    /// It begins as a text, in ASCII or an extension of it.
    Text,
    /// It begins with octets that no text has.
    Other,
    /// It has no octets.
    Empty,
}

/// The kind of a file with these octets. The first [`KIND_OCTETS`] decide.
pub fn kind_of_file(octets: &[u8]) -> FileKind
    ensures { result ≡ kind_of_file octets.now }
{
    kind_of_front(&octets[..octets.len().min(KIND_OCTETS)])
}

/// Reads the octets that decide on the kind of a file into `front`, and returns how many there are:
/// fewer than [`KIND_OCTETS`] if the file ends before.
///
/// # Errors
///
/// `Device` if a read fails.
pub fn take_front<R: Read>(
    source: &mut R,
    front: &mut [u8; KIND_OCTETS],
) -> Result<usize, ReadFault>
    ensures bound { IfOk result (λ count. count ≤ KIND_OCTETS) }
    ensures octets { IfOk result (λ count. Consumes (R.remaining source.old)
        (R.remaining source.new) (take count front.new)) }
    ensures kind { (octets : List ℕ) → R.remaining source.old ≡ Some octets → IfOk result
        (λ count. kind_of_file (take count front.new) ≡ kind_of_file octets) }
    ensures err { IfErr result IsApart }
{
    fill(source, front)
}

/// The kind of a file with these first octets.
fn kind_of_front(front: &[u8]) -> FileKind
    ensures { result ≡ kind_of_front front.now }
{
    if front.is_empty() {
        return FileKind::Empty;
    }
    if front.len() < 4 {
        return kind_by_octets(front);
    }
    kind_by_magic(Order::Big.u32_at(0, front), front)
}

/// The kind of a file with these first octets, of which the first four are this number.
fn kind_by_magic(magic: usize, front: &[u8]) -> FileKind
    ensures { result ≡ kind_by_magic magic front.now }
{
    if is_magic(magic) {
        return FileKind::Capture;
    }
    if magic / 0x1_0000 == 0x1f8b {
        return FileKind::Gzip;
    }
    kind_by_octets(front)
}

/// Whether a capture begins with this number.
fn is_magic(magic: usize) -> bool
    ensures { result ≡ is_magic magic }
{
    magic == SECTION || order_of_pcap(magic).is_some()
}

/// The kind of a file with these first octets, at least one, that is no capture.
fn kind_by_octets(front: &[u8]) -> FileKind
    ensures { result ≡ kind_by_octets front.now }
{
    if has_control(front) {
        FileKind::Other
    } else {
        FileKind::Text
    }
}

/// Whether no text has one of these octets.
fn has_control(octets: &[u8]) -> bool
    ensures { result ≡ list_any is_control octets.now }
{
    octets.iter().any(|octet| is_control(*octet))
}

/// Whether no text has this octet.
fn is_control(octet: u8) -> bool
    ensures { result ≡ is_control octet }
{
    matches!(octet, 0..=8 | 14..=26 | 28..=31 | 127)
}
