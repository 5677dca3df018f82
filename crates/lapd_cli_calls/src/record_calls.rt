//! The calls in the records of a capture.

use crate::call_table::CallTable;
use lapd_frame::Side;
use std::alloc::{AllocError, Global};
use std::io::{self, Write};

/// The octets of a record before its packet, and those of the packet before its frame.
const HEADER: usize = 16;

/// A writer that takes the records of a pcap file of link type 177, without the head of the file,
/// and makes the table of their calls.
#[derive(Drop)]
pub struct RecordCalls {
    alloc: Global,
    table: CallTable,
    /// The octets of a record that is not complete.
    left: Vec<u8>,
}

impl RecordCalls {
    /// Before the first record.
    pub fn new(alloc: Global) -> RecordCalls {
        RecordCalls {
            alloc,
            table: CallTable::new(alloc),
            left: Vec::new(alloc),
        }
    }

    /// The table of the calls so far.
    pub fn table(&self) -> &CallTable {
        &self.table
    }

    /// Takes more octets of the records.
    fn take(&mut self, octets: &[u8]) -> Result<(), AllocError> {
        self.left.extend_from_slice(octets)?;
        let mut rest = self.left.as_slice();
        for _record in 0..self.left.len() {
            let Some((record, behind)) = first_record(rest) else {
                break;
            };
            take_record(&mut self.table, record)?;
            rest = behind;
        }
        let mut left = Vec::new(self.alloc);
        left.extend_from_slice(rest)?;
        self.left = left;
        Ok(())
    }
}

impl Write for RecordCalls {
    fn write(&mut self, octets: &[u8]) -> io::Result<usize> {
        self.take(octets)?;
        Ok(octets.len())
    }

    fn flush(&mut self) -> io::Result<()> {
        Ok(())
    }
}

/// The first record of these octets, and the octets after it, if it is complete.
fn first_record(octets: &[u8]) -> Option<(&[u8], &[u8])> {
    let [_, _, _, _, _, _, _, _, a, b, c, d, ..] = octets else {
        return None;
    };
    let count = u32::from_be_bytes([*a, *b, *c, *d]) as usize;
    if octets.len() < HEADER || octets.len() - HEADER < count {
        return None;
    }
    Some(octets.split_at(HEADER + count))
}

/// Takes a record. A frame whose sender is not known has no message of a call.
fn take_record(table: &mut CallTable, record: &[u8]) -> Result<(), AllocError> {
    let [s0, s1, s2, s3, p0, p1, p2, p3, rest @ ..] = record else {
        return Ok(());
    };
    let [
        _,
        _,
        _,
        _,
        _,
        _,
        _,
        _,
        _,
        kind,
        _,
        _,
        _,
        _,
        _,
        _,
        _,
        _,
        _,
        _,
        _,
        _,
        _,
        _,
        frame @ ..,
    ] = rest
    else {
        return Ok(());
    };
    let from = match *kind {
        4 => Side::Network,
        0 => Side::User,
        _ => return Ok(()),
    };
    let seconds = u64::from(u32::from_be_bytes([*s0, *s1, *s2, *s3]));
    let parts = u64::from(u32::from_be_bytes([*p0, *p1, *p2, *p3]));
    table.take(moment_of(seconds, parts), from, frame)
}

/// A time in microseconds. A frame without a time has 0 there.
fn moment_of(seconds: u64, parts: u64) -> Option<u64> {
    match seconds.saturating_mul(1_000_000).saturating_add(parts) {
        0 => None,
        moment => Some(moment),
    }
}
