//! Why system calls and connections fail, in the usual words.

use lapd_port::PortFault;
use std::fmt;
use std::io::{self, ErrorKind};

/// The error numbers for running out of descriptors, in the system or in this process (ENFILE and
/// EMFILE).
const NO_DESCRIPTORS: [i32; 2] = [23, 24];

/// Why a system call failed: the kind of its error in words, or the error's own text if its kind
/// says nothing.
#[derive(Clone, Copy)]
pub struct Reason<'a>(pub &'a io::Error);

/// The kind of an error, in words.
#[derive(Clone, Copy)]
pub struct KindReason(pub ErrorKind);

impl fmt::Display for Reason<'_> {
    fn fmt<W: fmt::Write>(&self, f: &mut fmt::Formatter<W>) -> fmt::Result {
        match self.0.kind() {
            _ if has_no_descriptors(self.0) => f.write_str("too many open files"),
            ErrorKind::Uncategorized | ErrorKind::InvalidInput => self.0.fmt(f),
            kind => KindReason(kind).fmt(f),
        }
    }
}

impl fmt::Display for KindReason {
    fn fmt<W: fmt::Write>(&self, f: &mut fmt::Formatter<W>) -> fmt::Result {
        match self.0 {
            ErrorKind::NotFound => f.write_str("no such file or directory"),
            ErrorKind::AlreadyExists => f.write_str("file exists"),
            ErrorKind::StorageFull => f.write_str("no space left on device"),
            ErrorKind::ReadOnlyFilesystem => f.write_str("read-only file system"),
            ErrorKind::FilesystemLoop => f.write_str("too many levels of symbolic links"),
            ErrorKind::InvalidFilename => f.write_str("file name too long"),
            ErrorKind::InvalidInput => f.write_str("invalid argument"),
            ErrorKind::WriteZero => f.write_str("nothing could be written"),
            ErrorKind::Uncategorized | ErrorKind::Other => f.write_str("input or output error"),
            kind => kind.fmt(f),
        }
    }
}

/// A fault of a connection, in words.
pub fn port_reason(fault: PortFault) -> &'static str {
    match fault {
        PortFault::End => "the other side has closed the connection",
        PortFault::BadLength => "received a bad frame length (not 3 to 264)",
        PortFault::Cut => "the other side closed the connection inside a frame",
        PortFault::Device => "the connection failed",
        PortFault::TooManyTurns => "no complete frame after 4,096 reads or writes",
        PortFault::Failed => "the connection had already failed",
    }
}

fn has_no_descriptors(error: &io::Error) -> bool {
    match error.raw_os_error() {
        Some(number) => NO_DESCRIPTORS.contains(&number),
        None => false,
    }
}
