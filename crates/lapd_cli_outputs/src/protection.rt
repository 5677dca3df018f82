//! Which files an output must not overwrite.

use lapd_capture::{FileKind, KIND_OCTETS, ReadFault, kind_of_file, take_front};
use std::fs::{self, File, Metadata};
use std::io::{self, ErrorKind};
use std::os::unix::fs::{FileTypeExt, MetadataExt};

/// The name of standard input as a file.
const STANDARD_INPUT: &str = "-";

/// The content of an output.
#[derive(Clone, Copy)]
pub enum Content {
    /// A capture.
    Capture,
    /// A ladder or a picture, which are text.
    Drawing,
}

/// Why a file must not be overwritten.
#[derive(Clone, Copy)]
pub enum Protection {
    /// The same command reads it.
    Input,
    /// Standard output or standard error is written into it.
    Stream(&'static str),
    /// It begins as a capture, and a drawing was to replace it.
    Capture,
    /// It begins with octets that no text has, and a drawing was to replace it.
    NotText,
    /// It has octets but no capture, and a capture was to replace it.
    NotCapture,
}

/// Why this file must not be overwritten by such an output of a command that reads these inputs;
/// `-` is standard input. `None` if it may be, or does not exist.
///
/// # Errors
///
/// The system's error if the file can't be read.
pub fn protection_of(
    rt: &HostRuntime,
    path: &str,
    content: Content,
    inputs: &[&str],
) -> io::Result<Option<Protection>> {
    let Ok(found) = fs::metadata(rt, path) else {
        return Ok(None);
    };
    if inputs
        .iter()
        .any(|input| is_same_file(rt, path, path_of(input)))
    {
        return Ok(Some(Protection::Input));
    }
    if !found.is_file() || found.len() == 0 {
        return Ok(None);
    }
    Ok(protection_by(content, kind_at(rt, path)?))
}

/// The standard stream that is written into this regular file, if any.
pub(crate) fn stream_into(rt: &HostRuntime, path: &str) -> Option<&'static str> {
    match fs::metadata(rt, path) {
        Ok(found) if found.is_file() => {}
        _ => return None,
    }
    if is_same_file(rt, path, "/dev/stdout") {
        Some("standard output")
    } else if is_same_file(rt, path, "/dev/stderr") {
        Some("standard error")
    } else {
        None
    }
}

/// Whether both paths lead to the same file, by device and inode. A terminal, another character
/// device and a socket may serve several streams, so they count as no file.
pub(crate) fn is_same_file(rt: &HostRuntime, path: &str, other: &str) -> bool {
    match (fs::metadata(rt, path), fs::metadata(rt, other)) {
        (Ok(found), Ok(other)) => {
            has_one_use(&found) && found.dev() == other.dev() && found.ino() == other.ino()
        }
        _ => false,
    }
}

/// Whether one stream alone can use the file.
fn has_one_use(found: &Metadata) -> bool {
    let kind = found.file_type();
    kind.is_file() || kind.is_fifo() || kind.is_block_device()
}

/// The path of an input.
fn path_of<'a>(input: &'a str) -> &'a str {
    if input == STANDARD_INPUT {
        "/dev/stdin"
    } else {
        input
    }
}

/// The kind of a file, by its first octets.
fn kind_at(rt: &HostRuntime, path: &str) -> io::Result<FileKind> {
    let mut file = File::open(rt, path)?;
    let mut front = [0; KIND_OCTETS];
    match take_front(&mut file, &mut front) {
        Ok(count) => Ok(kind_of_file(&front[..count])),
        Err(ReadFault::Device(kind)) => Err(io::Error::from(kind)),
        Err(_) => Err(io::Error::from(ErrorKind::OutOfMemory)),
    }
}

/// Why a file of this kind must not be overwritten by such an output: a capture replaces a capture
/// or an empty file, and a drawing a text or an empty file.
fn protection_by(content: Content, kind: FileKind) -> Option<Protection> {
    match (content, kind) {
        (_, FileKind::Empty)
        | (Content::Capture, FileKind::Capture)
        | (Content::Drawing, FileKind::Text) => None,
        (Content::Capture, _) => Some(Protection::NotCapture),
        (Content::Drawing, FileKind::Capture) => Some(Protection::Capture),
        (Content::Drawing, _) => Some(Protection::NotText),
    }
}
