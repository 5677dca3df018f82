//! The kinds of files, by their first octets.

use crate::read::parts_of;
use lapd_capture::{FileKind, KIND_OCTETS, kind_of_file, take_front};
use lapd_test_text::wants;
use std::alloc::Global;
use std::test::Fail;

// The octets of a file, and its kind.
const KINDS: &str = "\
|empty
d4c3b2a102000400000000000000000000000400b1000000|capture
a1b23c4d|capture
0a0d0d0a1c000000|capture
1f8b0800000000000003|gzip
757365722030303831|text
7573657220303038310000|text
0a|text
1b5b33316d3e205b|text
efbbbf757365720a|text
7f454c4602010100|other
736e6f6f70000000|other
5500530045005200|other
d4c3b200|other
00|other";

#[test]
fn kinds_of_files_are_found(rt: HostRuntime) -> Result<(), Fail> {
    for row in KINDS.lines() {
        let (digits, kind) = row.split_once('|').unwrap_or(("", ""));
        let so = has_kind(rt.alloc(), digits, kind_named(kind));
        wants(so, row, "its kind")?;
    }
    Ok(())
}

fn kind_named(name: &str) -> FileKind {
    match name {
        "empty" => FileKind::Empty,
        "capture" => FileKind::Capture,
        "gzip" => FileKind::Gzip,
        "text" => FileKind::Text,
        _ => FileKind::Other,
    }
}

// Whether a file is of this kind, by all its octets and by its front, read octet by octet.
fn has_kind(alloc: Global, digits: &str, kind: FileKind) -> bool {
    let Ok(octets) = hex::decode(alloc, digits.as_bytes()) else {
        return false;
    };
    let mut source = parts_of(octets.as_slice(), 1);
    let mut front = [0; KIND_OCTETS];
    let Ok(count) = take_front(&mut source, &mut front) else {
        return false;
    };
    kind_of_file(octets.as_slice()) == kind
        && kind_of_file(&front[..count]) == kind
        && octets.as_slice().starts_with(&front[..count])
}
