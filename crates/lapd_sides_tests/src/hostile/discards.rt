//! Decides by simple rules which octets a side discards.

/// Whether the octets are too short, their address is not valid, or their SAPI is not served: F1,
/// F2 or F3.
fn are_for_nobody(octets: &[u8]) -> bool {
    let [first, second, third, ..] = octets else {
        return true;
    };
    let is_address = first % 2 == 0 && second % 2 == 1;
    let is_cut = octets.len() == 3 && third % 4 != 3;
    !is_address || is_cut || !matches!(first / 4, 0 | 16 | 63)
}

/// Whether the octets are a UI command of the other side to all terminals, with information that
/// fits: of SAPI 63, which is for TEI management, or of a SAPI that a user side serves.
fn is_for_all(octets: &[u8], to_network: bool) -> bool {
    let [first, 0xff, 0x03 | 0x13, ..] = octets else {
        return false;
    };
    let is_command = (first & 2 == 0) == to_network;
    is_command && octets.len() <= 263 && (first / 4 == 63 || !to_network)
}

/// Whether octets are a UI command of SAPI 63 and TEI 127, which is for TEI management.
pub(super) fn is_for_management(octets: &[u8], to_network: bool) -> bool {
    match octets {
        [first, ..] => first / 4 == 63 && is_for_all(octets, to_network),
        _ => false,
    }
}

/// Whether a side that serves SAPI 0 and 16 discards these octets: they are not for an existing
/// link, not for TEI management, and not unit data to all terminals.
pub(super) fn is_discarded(octets: &[u8], to_network: bool, is_for_link: bool) -> bool {
    are_for_nobody(octets) || !(is_for_link || is_for_all(octets, to_network))
}
