//! The names of faults, timers and sides, and the information of a frame reject (Q.921 3.6.11,
//! Figure 6).

use lapd_frame::{FaultKind, FieldFault, FrameFault, FrmrInfo, Number, Side};
use lapd_link::LinkFault;
use lapd_test_text::Text;
use lapd_timers::Timer;
use std::fmt::Display;

/// How faults of frames and fields, refusals of a link, timers and sides print, and the other side
/// of each side. The lines of frames and links test `name`.
pub(crate) const NAMES: &str = "\
names faults | F1 TooShort, F2 BadAddress, F3 SapiNotServed, F4 Undefined, F5 InfoNotPermitted, F6 WrongSize, F7 InfoTooLong,
names fields | F1 TooShort, F2 BadAddress, F3 SapiNotServed, F4 Undefined,
names frames | F2 BadAddress, F6 WrongSize,
names refusals | L1 NotEstablished, L2 QueueFull, L3 TooLong, L4 Releasing, L5 LayerThreeEstablishing,
names timers | T200, T201, T202, T203,
names sides | network, user, user, network,
";

const FAULTS: &[FaultKind] = &[
    FaultKind::TooShort,
    FaultKind::BadAddress,
    FaultKind::SapiNotServed,
    FaultKind::Undefined,
    FaultKind::InfoNotPermitted,
    FaultKind::WrongSize,
    FaultKind::InfoTooLong,
];

const FIELD_FAULTS: &[FieldFault] = &[
    FieldFault::TooShort,
    FieldFault::BadAddress,
    FieldFault::SapiNotServed,
    FieldFault::Undefined,
];

const REFUSALS: &[LinkFault] = &[
    LinkFault::NotEstablished,
    LinkFault::QueueFull,
    LinkFault::TooLong,
    LinkFault::Releasing,
    LinkFault::LayerThreeEstablishing,
];

const TIMERS: &[Timer] = &[Timer::T200, Timer::T201, Timer::T202, Timer::T203];

/// A fault of a frame for no link.
fn of_frame(kind: FaultKind) -> FrameFault {
    let address = None;
    FrameFault { kind, address }
}

/// Appends how the values of a kind print.
pub(crate) fn put_names(text: &mut Text, kind: &str) {
    match kind {
        "faults" => put_all(text, FAULTS),
        "fields" => put_all(text, FIELD_FAULTS),
        "frames" => put_all(
            text,
            &[
                of_frame(FaultKind::BadAddress),
                of_frame(FaultKind::WrongSize),
            ],
        ),
        "refusals" => put_all(text, REFUSALS),
        "timers" => put_all(text, TIMERS),
        _ => put_all(
            text,
            &[
                Side::Network,
                Side::User,
                Side::Network.other(),
                Side::User.other(),
            ],
        ),
    }
}

/// Appends how each of these values prints.
fn put_all<T: Display>(text: &mut Text, values: &[T]) {
    for value in values {
        text.shown(" ", value);
        text.put(",");
    }
}

/// The first wrong frame reject: octets and their fields, with the numbers 0, 1, 2 and 127.
fn wrong_reject(zero: Number, one: Number, two: Number, last: Number) -> Option<&'static str> {
    let sabme = FrmrInfo {
        rejected: [0x7f, 0x00],
        vs: one,
        vr: two,
        cr: false,
        w: true,
        x: false,
        y: false,
        z: false,
    };
    let response = FrmrInfo {
        rejected: [0x01, 0x14],
        vs: last,
        vr: zero,
        cr: true,
        w: false,
        z: true,
        ..sabme
    };
    let other_bits = FrmrInfo {
        rejected: [0x00, 0x02],
        vs: zero,
        vr: last,
        w: false,
        x: true,
        y: true,
        ..sabme
    };
    if FrmrInfo::read(&[0x7f, 0x00, 0x02, 0x04, 0x01]) != sabme {
        Some("a SABME with an undefined control field: something else is read")
    } else if FrmrInfo::read(&[0x01, 0x14, 0xfe, 0x01, 0x08]) != response {
        Some("a response with an N(R) that is not valid: something else is read")
    } else if FrmrInfo::read(&[0x00, 0x02, 0x01, 0xfe, 0xf6]) != other_bits {
        Some("other bits are not looked at: something else is read")
    } else {
        None
    }
}

/// The first wrong frame reject.
pub(crate) fn wrong() -> Option<&'static str> {
    match (
        Number::new(0),
        Number::new(1),
        Number::new(2),
        Number::new(127),
    ) {
        (Some(zero), Some(one), Some(two), Some(last)) => wrong_reject(zero, one, two, last),
        _ => Some("seven bits: no number"),
    }
}
