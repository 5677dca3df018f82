//! Audits of the TEIs of a bus (Q.921 5.3.3), call by call.

use lapd_sides::Tei;
use lapd_tei::{Assigner, AssignerEvent, TeiKind, TeiMessage};
use lapd_tei_audit::{AuditStep, TeiAudit, UsedTei, used_tei};
use lapd_test_text::all_hold;
use std::test::Fail;

/// T201 and the interval, in milliseconds.
const T201: u32 = 1000;

const INTERVAL: u64 = 60_000;

/// No link is established.
const NONE_UP: [bool; 127] = [false; 127];

fn tei(value: u8) -> Tei {
    Tei::new(value).unwrap_or(Tei::group())
}

/// An assigner that has assigned this many TEIs, from 64 on.
fn assigned(count: u16) -> Assigner {
    let mut assigner = Assigner::new(&[]);
    for ri in 0..count {
        let (kind, ai) = (TeiKind::Request, 127);
        let _ = assigner.handle(AssignerEvent::Heard(TeiMessage { ri, kind, ai }));
    }
    assigner
}

/// An audit whose terminals were asked at 0, when one joined.
fn asked(assigner: &Assigner) -> TeiAudit {
    let mut audit = TeiAudit::new(T201, INTERVAL);
    audit.request();
    let _ = audit.next(assigner, &NONE_UP, 0);
    audit
}

/// An audit that nobody joins asks after its interval, and one that somebody joins at once.
fn asks() -> bool {
    let assigner = Assigner::new(&[]);
    let mut audit = TeiAudit::new(T201, INTERVAL);
    let early = audit.next(&assigner, &NONE_UP, INTERVAL - 1);
    let late = audit.next(&assigner, &NONE_UP, INTERVAL);
    audit.request();
    let waits = audit.next(&assigner, &NONE_UP, INTERVAL + 999);
    let again = audit.next(&assigner, &NONE_UP, INTERVAL + 1000);
    let ask = Some(AuditStep::CheckAll);
    early.is_none() && late == ask && waits.is_none() && again == ask
}

/// A TEI that the side does not hold is removed at once, by an answer or by a discarded frame.
fn removes() -> bool {
    let assigner = assigned(1);
    let mut audit = asked(&assigner);
    audit.count_answer(tei(64));
    let held = audit.next(&assigner, &NONE_UP, 1);
    audit.count_answer(tei(70));
    let answered = audit.next(&assigner, &NONE_UP, 1);
    audit.see(tei(71));
    let seen = audit.next(&assigner, &NONE_UP, 1);
    audit.see(tei(1));
    let fixed = audit.next(&assigner, &NONE_UP, 1);
    held.is_none()
        && answered == Some(AuditStep::Remove(tei(70)))
        && seen == Some(AuditStep::Remove(tei(71)))
        && fixed.is_none()
}

/// A TEI that two terminals answer for is checked after T201, and not during another check.
fn checks_doubled() -> bool {
    let mut assigner = assigned(2);
    let mut audit = asked(&assigner);
    for value in [64, 64, 65, 65] {
        audit.count_answer(tei(value));
    }
    let early = audit.next(&assigner, &NONE_UP, 999);
    let first = audit.next(&assigner, &NONE_UP, 1000);
    let _ = assigner.handle(AssignerEvent::Check(tei(64)));
    let meanwhile = audit.next(&assigner, &NONE_UP, 1000);
    let _ = assigner.handle(AssignerEvent::Remove(tei(64)));
    let second = audit.next(&assigner, &NONE_UP, 2000);
    early.is_none()
        && first == Some(AuditStep::Check(tei(64)))
        && meanwhile.is_none()
        && second == Some(AuditStep::Check(tei(65)))
}

/// A held TEI that nobody answers for is checked, unless a link of it is established.
fn checks_silent() -> bool {
    let assigner = assigned(2);
    let mut up = NONE_UP;
    up[64] = true;
    let mut audit = asked(&assigner);
    let silent = audit.next(&assigner, &up, 1000);
    let then = audit.next(&assigner, &up, 1000);
    silent == Some(AuditStep::Check(tei(65))) && then.is_none()
}

/// The TEI that a terminal has is in the address of a frame, or in an answer to a check.
fn finds() -> bool {
    used_tei(b"\x00\x81\x7f") == UsedTei::Link(tei(64))
        && used_tei(b"\x40\x83\x11\x00") == UsedTei::Link(tei(65))
        && used_tei(b"\xfc\xff\x03\x0f\x12\x34\x05\x81") == UsedTei::Answer(tei(64))
        && used_tei(b"\xfc\xff\x03\x0f\x12\x34\x01\xff") == UsedTei::Nothing
        && used_tei(b"\x00\x80\x7f") == UsedTei::Nothing
}

#[test]
fn audits_find_what_terminals_have() -> Result<(), Fail> {
    all_hold(&[
        (asks(), "asks", "when all terminals are asked"),
        (removes(), "removes", "unknown TEIs"),
        (checks_doubled(), "checks", "doubled TEIs"),
        (checks_silent(), "checks", "silent TEIs"),
        (finds(), "finds", "the TEI of a frame"),
    ])
}
