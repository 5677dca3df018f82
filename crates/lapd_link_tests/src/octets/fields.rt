//! Numbers, and the address and control fields, over all octets (Q.921 3.3 to 3.6). The rows of
//! frames test their names.

use lapd_frame::FieldFault::{BadAddress, SapiNotServed, TooShort, Undefined};
use lapd_frame::{Address, Control, Number, Role, Sapi, Side, Tei};
use lapd_mod128::Seq;

/// Whether a value is accepted as a counter, a number and a TEI exactly if it is at most 127.
fn has_seven_bits(value: u8) -> bool {
    match (Seq::new(value), Number::new(value), Tei::new(value)) {
        (Some(counter), Some(number), Some(tei)) => {
            counter.value() == value && number.value() == value && tei.value() == value
        }
        (None, None, None) => value > 127,
        _ => false,
    }
}

/// Whether a value is read as a service access point exactly if it is served.
fn is_served(value: u8) -> bool {
    let served = match value {
        0 => Some(Sapi::Call),
        16 => Some(Sapi::Packet),
        63 => Some(Sapi::Management),
        _ => None,
    };
    match Sapi::new(value) {
        Some(sapi) => Some(sapi) == served && sapi.value() == value,
        None => served.is_none(),
    }
}

/// Whether two octets are an address of this side: EA is 0 in the first and 1 in the second, the
/// SAPI is served, and C/R is 1 in commands of the network and responses of the user.
fn is_address(octets: [u8; 2], from: Side) -> bool {
    let [first, second] = octets;
    let extends = first % 2 == 0 && second % 2 == 1;
    let sent = first / 2 % 2 == 1;
    match Address::read(octets, from) {
        Ok(address) => {
            let is_of_network = (address.role == Role::Command) == (from == Side::Network);
            extends
                && address.sapi.value() == first / 4
                && address.tei.value() == second / 2
                && is_of_network == sent
                && address.write(from) == octets
        }
        Err(BadAddress) => !extends,
        Err(fault) => extends && fault == SapiNotServed && Sapi::new(first / 4).is_none(),
    }
}

/// Whether a control field is read from two octets as from more, and from the first alone if it is
/// the field of a U frame; and whether it is written unchanged.
fn is_control(octets: [u8; 2]) -> bool {
    let [first, second] = octets;
    let alone = Control::read(&[first]);
    let more = Control::read(&[first, second, 0x7f]);
    let is_alone = if first % 4 == 3 {
        alone == Control::read(&octets)
    } else {
        alone == Err(TooShort)
    };
    is_alone && more == Control::read(&octets) && is_written(octets)
}

/// Whether the field at the front of two octets is written unchanged, or there is no field.
fn is_written(octets: [u8; 2]) -> bool {
    match Control::read(&octets) {
        Ok((field, length)) => octets.get(..length) == Some(field.write().as_slice()),
        Err(fault) => fault == Undefined,
    }
}

/// How many pairs of octets begin with a control field: I frames, three S frames, and seven U
/// frames with P/F 0 and 1.
const FIELDS: u32 = 128 * 256 + 3 * 256 + 14 * 256;

/// The first wrong result for values and pairs of octets.
pub(crate) fn wrong() -> Option<&'static str> {
    let mut fields = 0u32;
    for number in 0..65_536u32 {
        let [_, _, first, second] = number.to_be_bytes();
        let octets = [first, second];
        if first == 0 && !(has_seven_bits(second) && is_served(second)) {
            return Some("a value: what it is, or none");
        }
        if !is_address(octets, Side::Network) || !is_address(octets, Side::User) {
            return Some("two octets: an address, or why none");
        }
        if !is_control(octets) {
            return Some("two octets: a control field, or why none");
        }
        fields = fields.wrapping_add(u32::from(Control::read(&octets).is_ok()));
    }
    if fields == FIELDS && Tei::group().value() == 127 {
        None
    } else {
        Some("how many pairs of octets are a control field, or the group TEI")
    }
}
