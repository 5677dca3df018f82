//! Lines of a script of `decode`.

use lapd_cli_script::{LineFault, Words};
use std::alloc::Global;

/// Whether this is a line of a script of `decode`, `user HEX` or `net HEX`; also if memory ran out
/// before that was known.
pub fn is_script_line(alloc: Global, line: &[u8]) -> bool {
    let mut words = Words::of(line);
    match words.next_word() {
        Some(b"user") | Some(b"net") => {}
        _ => return false,
    }
    match words.octets(alloc) {
        Ok(_) | Err(LineFault::Memory) => true,
        Err(_) => false,
    }
}
