ghost use Rattle.std.specs.Prelude.{◌≡◌, Some};
ghost use Rattle.lapd_follow.specs.Remarks.{class_of};
ghost use Rattle.lapd_follow.specs.Texts.{assignment_text, class_name, clause_of, ended_text, remark_text};

use crate::Identity;
use crate::reference::Reference;
use crate::seconds::Seconds;
use lapd_frame::Tei;
use lapd_mod128::Seq;
use std::fmt;

/// The class of a remark: whether Q.921 allows what it reports.
#[derive(Clone, Copy, Debug, PartialEq, Eq)]
pub enum Class {
    /// An undisturbed data link does it.
    Normal,
    /// Two ends that follow Q.921 do it only if frames are lost or late.
    Recovery,
    /// Two ends that follow Q.921 never do it.
    Violation,
}

impl Class {
    /// Its name.
    pub fn name(self) -> &'static str
        ensures { result.now ≡ class_name self }
    {
        match self {
            Class::Normal => "normal",
            Class::Recovery => "recovery",
            Class::Violation => "violation",
        }
    }
}

/// A remark on a frame.
#[derive(Clone, Copy, Debug, PartialEq, Eq)]
pub enum Remark {
    /// The UA begins the establishment with this number (Q.921 5.5.1.2).
    Begins(u64),
    /// The UA or DM ends the establishment with this number, or 0 if that began before its first
    /// frame was seen (Q.921 5.5.3.2).
    Ends(u64),
    /// The frame shows the last of the numbers of both ends of a link that was established before
    /// its first frame was seen (Q.921 3.5.2).
    NumbersKnown,
    /// The UA answers an earlier SABME or DISC, or one that was not seen.
    LateUa,
    /// The frame is a UA, but every SABME and DISC is answered (Q.921 3.6.8).
    UaWithoutCommand,
    /// The frame is an I or S frame of an end that released the link, and the link is not
    /// established again (Q.921 5.5.4).
    SentReleased,
    /// The first N(S) of an establishment is this, and not 0 (Q.921 5.5.1.2).
    FirstNs(Seq),
    /// The N(S) is not the next one (Q.921 5.6.2).
    NsExpected {
        /// N(S) of the frame.
        ns: Seq,
        /// The N(S) that its receiver expects.
        expected: Seq,
    },
    /// An I frame that is not acknowledged is sent again (Q.921 5.6.4).
    Repeated,
    /// An N(S) that is not acknowledged is used again, for other octets (Q.921 5.6.1).
    RepeatedOtherwise,
    /// More than k I frames are outstanding (Q.921 5.9.5).
    WindowExceeded(u8),
    /// An I frame to an end that reported that it is busy; the report may be lost (Q.921 5.6.5).
    SentToBusy,
    /// An I frame to an end that reported, in answer to a poll, that it is busy (Q.921 5.6.5).
    SentToKnownBusy,
    /// The N(R) is not from the last one to the next N(S) of the peer (Q.921 3.5.2.3).
    NrOutside {
        /// N(R) of the frame.
        nr: Seq,
        /// The last N(R) of its sender.
        first: Seq,
        /// The next N(S) of the peer.
        last: Seq,
    },
    /// The frame is a SABME with P=0 (Q.921 5.5.1.2).
    SabmeWithoutP,
    /// The frame is a DISC with P=0 (Q.921 5.5.3.2).
    DiscWithoutP,
    /// The frame is a UA with F=0, and the SABME or DISC that it answers has P=1 (Q.921 5.5.1.2,
    /// 5.5.3.2).
    UaWithoutF,
    /// Octets that are not a valid frame of their sender, but have the C/R bit of the other side
    /// (Q.921 3.3.2): both ends are set up as the same side, or the line is looped.
    OtherSidesBit,
    /// An I frame with P=0 is sent before the poll in this packet is answered (Q.921 5.6.7).
    BeforeAnswer(u64),
    /// The response answers a poll (Q.921 3.5.1).
    Answers {
        /// The number of the packet that polled.
        packet: u64,
        /// How many microseconds after it, if both moments are known.
        after: Option<u64>,
    },
    /// The response has F=1 and answers an earlier poll, or one that was not seen.
    LateResponse,
    /// The response has F=1, but every poll is answered (Q.921 5.6.2.1).
    ResponseWithoutPoll,
    /// The poll is sent while the one in this packet is not answered (Q.921 5.6.7).
    NotAnswered(u64),
    /// The frame carries this message of TEI management (Q.921 5.3).
    Manages(Identity),
    /// A TEI is assigned or denied, but no known request has the reference (Q.921 5.3.2).
    Unrequested,
    /// The assigned TEI is below 64, and so not for automatic assignment (Q.921 3.3.4.2).
    NotAutomatic(Tei),
    /// A TEI is assigned that was assigned before, and neither removed nor checked since (Q.921
    /// 5.3.2).
    AssignedTwice {
        /// The TEI, 0 to 126.
        tei: Tei,
        /// The reference to which it was assigned before.
        ri: u16,
    },
    /// A TEI is assigned, but a terminal answered its last check (Q.921 5.3.3.2).
    AssignedInUse(Tei),
    /// Two terminals answer the check of a TEI (Q.921 5.3.3.2).
    TwoResponses {
        /// The TEI, 0 to 126.
        tei: Tei,
        /// The reference of the first response.
        first: u16,
        /// The reference of this one.
        second: u16,
    },
}

impl Remark {
    /// The class of the remark.
    pub fn class(&self) -> Class
        ensures { result ≡ class_of self.now }
    {
        match *self {
            Remark::Begins(_)
            | Remark::Ends(_)
            | Remark::NumbersKnown
            | Remark::Answers { .. }
            | Remark::Manages(_) => Class::Normal,
            Remark::LateUa
            | Remark::FirstNs(_)
            | Remark::NsExpected { .. }
            | Remark::Repeated
            | Remark::SentToBusy
            | Remark::LateResponse
            | Remark::NotAnswered(_)
            | Remark::Unrequested
            | Remark::AssignedInUse(_)
            | Remark::TwoResponses { .. } => Class::Recovery,
            Remark::UaWithoutCommand
            | Remark::SentReleased
            | Remark::RepeatedOtherwise
            | Remark::WindowExceeded(_)
            | Remark::SentToKnownBusy
            | Remark::NrOutside { .. }
            | Remark::SabmeWithoutP
            | Remark::DiscWithoutP
            | Remark::UaWithoutF
            | Remark::OtherSidesBit
            | Remark::BeforeAnswer(_)
            | Remark::NotAutomatic(_)
            | Remark::AssignedTwice { .. }
            | Remark::ResponseWithoutPoll => Class::Violation,
        }
    }

    /// The clause of Q.921 on which the remark depends.
    pub fn clause(&self) -> &'static str
        ensures { result.now ≡ clause_of self.now }
    {
        match *self {
            Remark::Begins(_) => "5.5.1.2",
            Remark::Ends(_) => "5.5.3.2",
            Remark::NumbersKnown => "3.5.2",
            Remark::LateUa => "5.5.1.3",
            Remark::UaWithoutCommand => "3.6.8",
            Remark::SentReleased => "5.5.4",
            Remark::FirstNs(_) => "5.5.1.2",
            Remark::NsExpected { .. } => "5.6.2",
            Remark::Repeated => "5.6.4",
            Remark::RepeatedOtherwise => "5.6.1",
            Remark::WindowExceeded(_) => "5.9.5",
            Remark::SentToBusy => "5.6.5",
            Remark::SentToKnownBusy => "5.6.5",
            Remark::NrOutside { .. } => "3.5.2.3",
            Remark::SabmeWithoutP => "5.5.1.2",
            Remark::DiscWithoutP => "5.5.3.2",
            Remark::UaWithoutF => "5.5.1.2",
            Remark::OtherSidesBit => "3.3.2",
            Remark::BeforeAnswer(_) => "5.6.7",
            Remark::Answers { .. } => "3.5.1",
            Remark::LateResponse => "5.6.7",
            Remark::ResponseWithoutPoll => "5.6.2.1",
            Remark::NotAnswered(_) => "5.6.7",
            Remark::Manages(message) => message.clause(),
            Remark::Unrequested => "5.3.2",
            Remark::NotAutomatic(_) => "3.3.4.2",
            Remark::AssignedTwice { .. } => "5.3.2",
            Remark::AssignedInUse(_) => "5.3.3.2",
            Remark::TwoResponses { .. } => "5.3.3.2",
        }
    }
}

impl fmt::Display for Remark {
    ghost output = { λ remark. Some (remark_text remark) };

    fn fmt<W: fmt::Write>(&self, f: &mut fmt::Formatter<W>) -> fmt::Result {
        match *self {
            Remark::Begins(number) => write!(f, "begins establishment {number}"),
            Remark::Ends(number) => {
                let ended = Ended { number };
                write!(f, "{ended}")
            }
            Remark::NumbersKnown => write!(f, "numbers known from here on"),
            Remark::LateUa => write!(f, "answers an earlier SABME or DISC"),
            Remark::UaWithoutCommand => write!(f, "UA without SABME or DISC"),
            Remark::SentReleased => write!(f, "sent on a released link"),
            Remark::FirstNs(ns) => {
                let ns = ns.value();
                write!(f, "first N(S) is {ns}, not 0")
            }
            Remark::NsExpected { ns, expected } => {
                let ns = ns.value();
                let expected = expected.value();
                write!(f, "N(S) {ns}, {expected} expected")
            }
            Remark::Repeated => write!(f, "repeated"),
            Remark::RepeatedOtherwise => write!(f, "repeated with other octets"),
            Remark::WindowExceeded(k) => write!(f, "window of {k} is exceeded"),
            Remark::SentToBusy => write!(f, "sent to a busy peer"),
            Remark::SentToKnownBusy => write!(f, "sent to a peer that answered a poll by RNR"),
            Remark::NrOutside { nr, first, last } => {
                let nr = nr.value();
                let first = first.value();
                let last = last.value();
                write!(f, "N(R) {nr} is not from {first} to {last}")
            }
            Remark::SabmeWithoutP => write!(f, "SABME with P=0"),
            Remark::DiscWithoutP => write!(f, "DISC with P=0"),
            Remark::UaWithoutF => write!(f, "F=0 answers P=1"),
            Remark::OtherSidesBit => write!(f, "C/R bit of the other side"),
            Remark::BeforeAnswer(packet) => write!(f, "sent before packet {packet} is answered"),
            Remark::Answers {
                packet,
                after: None,
            } => write!(f, "answers packet {packet}"),
            Remark::Answers {
                packet,
                after: Some(after),
            } => {
                let after = Seconds { time: after };
                write!(f, "answers packet {packet} in {after} s")
            }
            Remark::LateResponse => write!(f, "answers an earlier poll"),
            Remark::ResponseWithoutPoll => write!(f, "response without a poll"),
            Remark::NotAnswered(packet) => write!(f, "packet {packet} is not answered"),
            Remark::Manages(message) => write!(f, "{message}"),
            Remark::Unrequested => write!(f, "no known request has this reference"),
            Remark::NotAutomatic(tei) => {
                let tei = tei.value();
                write!(f, "TEI {tei} is not for automatic assignment")
            }
            Remark::AssignedTwice { tei, ri } => {
                let earlier = Assignment {
                    tei: tei.value(),
                    ri,
                };
                write!(f, "{earlier}")
            }
            Remark::AssignedInUse(tei) => {
                let tei = tei.value();
                write!(f, "a terminal answered the last check of TEI {tei}")
            }
            Remark::TwoResponses { tei, first, second } => {
                let tei = tei.value();
                let first = Reference { ri: first };
                let second = Reference { ri: second };
                write!(
                    f,
                    "two terminals answer the check of TEI {tei}, references {first} and {second}"
                )
            }
        }
    }
}

/// The end of an establishment.
#[derive(Clone, Copy)]
struct Ended {
    number: u64,
}

impl fmt::Display for Ended {
    ghost output = { λ ended. Some (ended_text ended.number) };

    fn fmt<W: fmt::Write>(&self, f: &mut fmt::Formatter<W>) -> fmt::Result {
        let number = self.number;
        if number == 0 {
            write!(f, "ends the establishment")
        } else {
            write!(f, "ends establishment {number}")
        }
    }
}

/// An earlier assignment.
#[derive(Clone, Copy)]
struct Assignment {
    tei: u8,
    ri: u16,
}

impl fmt::Display for Assignment {
    ghost output = { λ earlier. Some (assignment_text earlier.tei earlier.ri) };

    fn fmt<W: fmt::Write>(&self, f: &mut fmt::Formatter<W>) -> fmt::Result {
        let tei = self.tei;
        let reference = Reference { ri: self.ri };
        write!(f, "TEI {tei} is already assigned to reference {reference}")
    }
}
