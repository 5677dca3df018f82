ghost use Rattle.std.specs.Prelude.{◌≡◌, ◌++◌, true, [], Option, Some};
ghost use Rattle.std.specs.Fmt.{DisplaysOnOk};
ghost use Rattle.lapd_frame.specs.Reading.{is_command};
ghost use Rattle.lapd_follow.specs.Exchange.{Exchange};
ghost use Rattle.lapd_follow.specs.Listening.{no_remarks};
ghost use Rattle.lapd_follow.specs.Remarks.{unexpected_ua, ended, ua_remark, sent_remark, establishment_remark, repeated, out_of_sequence, ns_remark, is_in_window, k_or_most, window_remark, sent_to_busy, nr_remark, without_p, ua_bit, before_answer, bit_remark, time_from, answers_poll, answer_to, response_to, left_unanswered, supervisory_remark, answer_remark, ns_of, window_of, busy_of, nr_of, remarks_on, has_violation, is_empty, is_violation};
ghost use Rattle.lapd_follow.specs.Texts.{noted_text, remarks_text};

use crate::dialogue::Dialogue;
use crate::end::{Busy, End};
use crate::noted::put_noted;
use crate::numbering::counter;
use crate::unacknowledged::Unacknowledged;
use crate::{Class, Numbering, Packet, Polls, Remark};
use lapd_frame::{Control, Frame, Role};
use lapd_mod128::Seq;
use std::fmt;

/// The remarks on one frame, at most one of each kind.
#[derive(Clone, Copy, Debug, PartialEq, Eq)]
pub struct Remarks {
    /// Whether a UA begins an establishment, a UA or DM ends it, or an I or S frame is sent on a
    /// released link or shows the last of the numbers.
    pub establishment: Option<Remark>,
    /// On the N(S) of an I frame.
    pub ns: Option<Remark>,
    /// Whether an I frame exceeds the window.
    pub window: Option<Remark>,
    /// Whether the receiver of an I frame is busy.
    pub busy: Option<Remark>,
    /// On the N(R) of an I or S frame.
    pub nr: Option<Remark>,
    /// On the P bit of a SABME, DISC or I frame, on the F bit of a UA, or on the C/R bit of octets
    /// that are not a valid frame.
    pub bit: Option<Remark>,
    /// The poll that a response answers, or the poll before this one that was not answered.
    pub answer: Option<Remark>,
    /// The message of TEI management that the frame carries.
    pub identity: Option<Remark>,
    /// How this message conflicts with earlier ones.
    pub conflict: Option<Remark>,
}

#[tactic(auto, using(crate::proofs::Silent::no_text))]
impl Remarks {
    /// No remarks.
    pub fn none() -> Remarks
        ensures { result ≡ no_remarks }
    {
        Remarks {
            establishment: None,
            ns: None,
            window: None,
            busy: None,
            nr: None,
            bit: None,
            answer: None,
            identity: None,
            conflict: None,
        }
    }

    /// Whether there is no remark. Then nothing is printed of them.
    pub fn is_empty(&self) -> bool
        ensures value { result ≡ is_empty self.now }
        ensures text { result ≡ true → remarks_text self.now ≡ [] }
    {
        self.establishment.is_none()
            && self.ns.is_none()
            && self.window.is_none()
            && self.busy.is_none()
            && self.nr.is_none()
            && self.bit.is_none()
            && self.answer.is_none()
            && self.identity.is_none()
            && self.conflict.is_none()
    }

    /// Whether one of them is a violation.
    pub fn has_violation(&self) -> bool
        ensures { result ≡ has_violation self.now }
    {
        is_violation(&self.establishment)
            || is_violation(&self.ns)
            || is_violation(&self.window)
            || is_violation(&self.busy)
            || is_violation(&self.nr)
            || is_violation(&self.bit)
            || is_violation(&self.answer)
            || is_violation(&self.identity)
            || is_violation(&self.conflict)
    }
}

impl fmt::Display for Remarks {
    ghost output = { λ remarks. Some (remarks_text remarks) };

    /// Each remark after a semicolon and a space; a violation is marked.
    fn fmt<W: fmt::Write>(&self, f: &mut fmt::Formatter<W>) -> fmt::Result {
        put_on_numbers(self, f)?;
        put_on_polls(self, f)
    }
}

/// Writes the remarks on the establishment, on N(S) and on the receiver of an I frame.
fn put_on_numbers<W: fmt::Write>(said: &Remarks, f: &mut fmt::Formatter<W>) -> fmt::Result
    ensures { DisplaysOnOk W.write_str_gives f.old result
        (Some (noted_text said.now.establishment ++ (noted_text said.now.ns
        ++ (noted_text said.now.window ++ noted_text said.now.busy)))) f.new }
{
    put_noted(&said.establishment, f)?;
    put_noted(&said.ns, f)?;
    put_noted(&said.window, f)?;
    put_noted(&said.busy, f)
}

/// Writes the other remarks.
fn put_on_polls<W: fmt::Write>(said: &Remarks, f: &mut fmt::Formatter<W>) -> fmt::Result
    ensures { DisplaysOnOk W.write_str_gives f.old result
        (Some (noted_text said.now.nr ++ (noted_text said.now.bit ++ (noted_text said.now.answer
        ++ (noted_text said.now.identity ++ noted_text said.now.conflict))))) f.new }
{
    put_noted(&said.nr, f)?;
    put_noted(&said.bit, f)?;
    put_noted(&said.answer, f)?;
    put_noted(&said.identity, f)?;
    put_noted(&said.conflict, f)
}

/// Whether the remark is a violation.
fn is_violation(remark: &Option<Remark>) -> bool
    ensures { result ≡ is_violation remark.now }
{
    match remark {
        None => false,
        Some(remark) => matches!(remark.class(), Class::Violation),
    }
}

/// Replaces `said` with the remarks of its own link on a frame. `k` is the window, if it is known.
pub(crate) fn put_remarks(
    k: Option<u8>,
    packet: Packet,
    frame: &Frame<'_>,
    dialogue: &Dialogue,
    said: &mut Remarks,
)
    ensures { said.new ≡ remarks_on k packet frame.now dialogue.now }
{
    let control = frame.control();
    said.establishment = establishment_remark(&control, dialogue);
    said.ns = ns_of(&control, frame.info(), dialogue);
    said.window = window_of(k, &control, dialogue);
    said.busy = busy_of(&control, dialogue);
    said.nr = nr_of(&control, dialogue);
    said.bit = bit_remark(&control, dialogue);
    said.answer = answer_remark(&control, frame.address().role, packet, dialogue);
    said.identity = None;
    said.conflict = None;
}

/// The remark on establishment: of a UA or DM, or of an I or S frame.
fn establishment_remark(control: &Control, dialogue: &Dialogue) -> Option<Remark>
    ensures { result ≡ establishment_remark control.now dialogue.now }
{
    match *control {
        Control::I { .. } | Control::Rr { .. } | Control::Rnr { .. } | Control::Rej { .. } => {
            sent_remark(dialogue)
        }
        Control::Dm { .. } => ended(true, dialogue),
        Control::Ua { .. } => ua_remark(dialogue),
        _ => None,
    }
}

fn sent_remark(dialogue: &Dialogue) -> Option<Remark>
    ensures { result ≡ sent_remark dialogue.now }
{
    if dialogue.from.is_released {
        Some(Remark::SentReleased)
    } else if dialogue.is_learned() {
        Some(Remark::NumbersKnown)
    } else {
        None
    }
}

/// The remark on a frame that releases the link, or not.
fn ended(is_release: bool, dialogue: &Dialogue) -> Option<Remark>
    ensures { result ≡ ended is_release dialogue.now }
{
    if is_release && dialogue.is_established {
        Some(Remark::Ends(dialogue.establishments))
    } else {
        None
    }
}

fn ua_remark(dialogue: &Dialogue) -> Option<Remark>
    ensures { result ≡ ua_remark dialogue.now }
{
    if dialogue.to.commands.last.is_none() {
        Some(unexpected_ua(dialogue.to.commands))
    } else if dialogue.begins_establishment() {
        Some(Remark::Begins(dialogue.establishments.saturating_add(1)))
    } else {
        ended(dialogue.to.awaits_release(), dialogue)
    }
}

fn unexpected_ua(commands: Polls) -> Remark
    ensures { result ≡ unexpected_ua commands }
{
    if commands.complete && commands.unanswered == 0 {
        Remark::UaWithoutCommand
    } else {
        Remark::LateUa
    }
}

/// The remark on the N(S) of an I frame.
fn ns_of(control: &Control, octets: &[u8], dialogue: &Dialogue) -> Option<Remark>
    ensures { result ≡ ns_of control.now octets.now dialogue.now }
{
    match *control {
        Control::I { ns, .. } => ns_remark(
            counter(ns),
            octets,
            &dialogue.from.unacknowledged,
            dialogue.from.numbering,
            dialogue.to.numbering,
        ),
        _ => None,
    }
}

fn ns_remark(
    ns: Seq,
    octets: &[u8],
    unacknowledged: &Unacknowledged,
    own: Option<Numbering>,
    peer: Option<Numbering>,
) -> Option<Remark>
    ensures { result ≡ ns_remark ns octets.now unacknowledged.now own peer }
{
    match (own, peer) {
        (Some(own), Some(_)) if ns.value() != own.next.value() => {
            Some(out_of_sequence(ns, octets, own, unacknowledged))
        }
        _ => None,
    }
}

fn out_of_sequence(
    ns: Seq,
    octets: &[u8],
    own: Numbering,
    unacknowledged: &Unacknowledged,
) -> Remark
    ensures { result ≡ out_of_sequence ns octets.now own unacknowledged.now }
{
    if own.is_first {
        return Remark::FirstNs(ns);
    }
    let distance = usize::from(Seq::distance(ns, own.next));
    match unacknowledged.from_end(distance) {
        None => Remark::NsExpected {
            ns,
            expected: own.next,
        },
        Some(earlier) => {
            if earlier == octets {
                Remark::Repeated
            } else {
                Remark::RepeatedOtherwise
            }
        }
    }
}

/// The remark on the window of an I frame.
fn window_of(k: Option<u8>, control: &Control, dialogue: &Dialogue) -> Option<Remark>
    ensures { result ≡ window_of k control.now dialogue.now }
{
    match *control {
        Control::I { ns, .. } => window_remark(
            k_or_most(k),
            counter(ns),
            dialogue.from.numbering,
            dialogue.to.numbering,
        ),
        _ => None,
    }
}

/// The window: the greatest one if it is not known.
fn k_or_most(k: Option<u8>) -> u8
    ensures { result ≡ k_or_most k }
{
    k.unwrap_or(127)
}

fn window_remark(k: u8, ns: Seq, own: Option<Numbering>, peer: Option<Numbering>) -> Option<Remark>
    ensures { result ≡ window_remark k ns own peer }
{
    match (own, peer) {
        (Some(own), Some(peer)) => {
            if is_in_window(k, ns, own, peer) {
                None
            } else {
                Some(Remark::WindowExceeded(k))
            }
        }
        _ => None,
    }
}

/// Whether an I frame is within the window.
fn is_in_window(k: u8, ns: Seq, own: Numbering, peer: Numbering) -> bool
    ensures { result ≡ is_in_window k ns own peer }
{
    let back = Seq::distance(ns, own.next);
    Seq::distance(peer.nr, ns) < k || (0 < back && back <= k)
}

/// The remark on the receiver of an I frame.
fn busy_of(control: &Control, dialogue: &Dialogue) -> Option<Remark>
    ensures { result ≡ busy_of control.now dialogue.now }
{
    match *control {
        Control::I { p, .. } => sent_to_busy(p, dialogue.to.busy),
        _ => None,
    }
}

fn sent_to_busy(p: bool, busy: Busy) -> Option<Remark>
    ensures { result ≡ sent_to_busy p busy }
{
    match (busy, p) {
        (Busy::Free, _) => None,
        (Busy::Answered, false) => Some(Remark::SentToKnownBusy),
        _ => Some(Remark::SentToBusy),
    }
}

/// The remark on the N(R) of an I or S frame.
fn nr_of(control: &Control, dialogue: &Dialogue) -> Option<Remark>
    ensures { result ≡ nr_of control.now dialogue.now }
{
    match *control {
        Control::I { nr, .. }
        | Control::Rr { nr, .. }
        | Control::Rnr { nr, .. }
        | Control::Rej { nr, .. } => nr_remark(
            counter(nr),
            dialogue.from.numbering,
            dialogue.to.numbering,
        ),
        _ => None,
    }
}

fn nr_remark(nr: Seq, own: Option<Numbering>, peer: Option<Numbering>) -> Option<Remark>
    ensures { result ≡ nr_remark nr own peer }
{
    match (own, peer) {
        (Some(own), Some(peer)) => {
            if Seq::within(own.nr, nr, peer.next) {
                None
            } else {
                Some(Remark::NrOutside {
                    nr,
                    first: own.nr,
                    last: peer.next,
                })
            }
        }
        _ => None,
    }
}

/// The remark on the P bit of a SABME, DISC or I frame, or on the F bit of a UA.
fn bit_remark(control: &Control, dialogue: &Dialogue) -> Option<Remark>
    ensures { result ≡ bit_remark control.now dialogue.now }
{
    match *control {
        Control::I { p, .. } => before_answer(p, dialogue.from.awaited),
        Control::Sabme { p } => without_p(p, Remark::SabmeWithoutP),
        Control::Disc { p } => without_p(p, Remark::DiscWithoutP),
        Control::Ua { f } => ua_bit(f, &dialogue.to),
        _ => None,
    }
}

fn without_p(p: bool, remark: Remark) -> Option<Remark>
    ensures { result ≡ without_p p remark }
{
    if p { None } else { Some(remark) }
}

fn ua_bit(f: bool, peer: &End) -> Option<Remark>
    ensures { result ≡ ua_bit f peer.now }
{
    if !f && peer.commands.last.is_some() && peer.is_polling {
        Some(Remark::UaWithoutF)
    } else {
        None
    }
}

fn before_answer(p: bool, awaited: Option<Packet>) -> Option<Remark>
    ensures { result ≡ before_answer p awaited }
{
    match (p, awaited) {
        (false, Some(poll)) => Some(Remark::BeforeAnswer(poll.number)),
        _ => None,
    }
}

/// The remark on a packet that answers this poll.
fn answers_poll(packet: Packet, poll: Packet) -> Remark
    ensures { result ≡ answers_poll packet poll }
{
    Remark::Answers {
        packet: poll.number,
        after: time_from(poll.moment, packet.moment),
    }
}

/// The time from one moment to another, in microseconds, if both are known.
pub(crate) fn time_from(first: Option<u64>, last: Option<u64>) -> Option<u64>
    ensures { result ≡ time_from first last }
{
    match (first, last) {
        (Some(first), Some(last)) => Some(last.saturating_sub(first)),
        _ => None,
    }
}

fn answer_to(packet: Packet, poll: Option<Packet>) -> Option<Remark>
    ensures { result ≡ answer_to packet poll }
{
    match poll {
        None => None,
        Some(poll) => Some(answers_poll(packet, poll)),
    }
}

fn response_to(packet: Packet, polls: Polls) -> Remark
    ensures { result ≡ response_to packet polls.last polls }
{
    match polls.last {
        Some(poll) => answers_poll(packet, poll),
        None => {
            if polls.complete && polls.unanswered == 0 {
                Remark::ResponseWithoutPoll
            } else {
                Remark::LateResponse
            }
        }
    }
}

fn left_unanswered(poll: Option<Packet>) -> Option<Remark>
    ensures { result ≡ left_unanswered poll }
{
    match poll {
        None => None,
        Some(poll) => Some(Remark::NotAnswered(poll.number)),
    }
}

/// The remark on the P or F bit of an S frame.
fn supervisory_remark(role: Role, pf: bool, packet: Packet, dialogue: &Dialogue) -> Option<Remark>
    ensures { result ≡ supervisory_remark role pf packet dialogue.now }
{
    match (pf, role) {
        (false, _) => None,
        (true, Role::Command) => left_unanswered(dialogue.from.polls.last),
        (true, Role::Answer) => Some(response_to(packet, dialogue.to.polls)),
    }
}

/// The remark on a poll or a response.
fn answer_remark(
    control: &Control,
    role: Role,
    packet: Packet,
    dialogue: &Dialogue,
) -> Option<Remark>
    ensures { result ≡ answer_remark control.now role packet dialogue.now }
{
    match *control {
        Control::I { p, .. } => {
            if p {
                left_unanswered(dialogue.from.polls.last)
            } else {
                None
            }
        }
        Control::Rr { pf, .. } | Control::Rnr { pf, .. } | Control::Rej { pf, .. } => {
            supervisory_remark(role, pf, packet, dialogue)
        }
        Control::Sabme { .. } | Control::Disc { .. } => {
            left_unanswered(dialogue.from.commands.last)
        }
        Control::Dm { f } => {
            if f {
                answer_to(packet, dialogue.to.commands.last)
            } else {
                None
            }
        }
        Control::Ua { .. } => answer_to(packet, dialogue.to.commands.last),
        Control::Ui { .. } | Control::Frmr { .. } | Control::Xid { .. } => None,
    }
}
