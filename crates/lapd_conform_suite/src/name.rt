//! Names of cases.

ghost use Rattle.std.specs.Prelude.{◌≡◌, ◌<◌};
ghost use Rattle.lapd_conform_suite.specs.Names.{class_at, digits_at, group_at, name_at, name_in, slot_of};
ghost use Rattle.lapd_conform_suite.specs.Reading.{ReadsAs};

use crate::fault::{Fault, Wanted};
use std::fmt;

/// The subject of a case: a state of the link or of the terminal, or TEI management.
#[derive(Clone, Copy, PartialEq, Eq)]
pub enum Group {
    /// `1`: TEI unassigned.
    TeiUnassigned,
    /// `2`: assign awaiting TEI.
    AssignAwaitingTei,
    /// `3`: establish awaiting TEI.
    EstablishAwaitingTei,
    /// `4`: TEI assigned.
    TeiAssigned,
    /// `5`: awaiting establishment.
    AwaitingEstablishment,
    /// `6`: awaiting release.
    AwaitingRelease,
    /// `7`: multiple frame established.
    Established,
    /// `8`: timer recovery.
    TimerRecovery,
    /// `n`: TEI management of the network side.
    NetworkTei,
    /// `u`: TEI management of a terminal.
    UserTei,
}

/// The class of a case, after the groups of Q.921 bis.
#[derive(Clone, Copy, PartialEq, Eq)]
pub enum Class {
    /// `V`: valid behaviour.
    Valid,
    /// `O`: frames at a wrong moment.
    Inopportune,
    /// `I`: frames that Q.921 does not define.
    Invalid,
    /// `T`: timers and counters.
    Timer,
}

/// The name of a case, such as `7-V-01`.
#[derive(Clone, Copy, PartialEq, Eq)]
pub struct Name {
    /// The state, or TEI management.
    pub group: Group,
    /// The class.
    pub class: Class,
    /// The number in its state and class, 0 to 99.
    pub number: u8,
}

/// The number of groups times the number of classes.
pub(crate) const SLOTS: usize = 40;

impl Name {
    /// The place of the name's state and class among all of them.
    pub(crate) fn slot(self) -> usize
        ensures slot { result ≡ slot_of self }
        ensures below { result < SLOTS }
    {
        let class = match self.class {
            Class::Valid => 0,
            Class::Inopportune => 1,
            Class::Invalid => 2,
            Class::Timer => 3,
        };
        let group = match self.group {
            Group::TeiUnassigned => 0,
            Group::AssignAwaitingTei => 4,
            Group::EstablishAwaitingTei => 8,
            Group::TeiAssigned => 12,
            Group::AwaitingEstablishment => 16,
            Group::AwaitingRelease => 20,
            Group::Established => 24,
            Group::TimerRecovery => 28,
            Group::NetworkTei => 32,
            Group::UserTei => 36,
        };
        group + class
    }
}

/// Reads the name of a case: a state, a class and two digits, as in `7-V-01`.
pub(crate) fn read_name<'s>(word: &'s [u8]) -> Result<Name, Fault<'s>>
    ensures { ReadsAs (λ name. name) result (name_at word.now) }
{
    match name_of(word) {
        Some(name) => Ok(name),
        None => Err(Fault {
            found: word,
            wanted: Wanted::Name,
        }),
    }
}

fn name_of(word: &[u8]) -> Option<Name>
    ensures { result ≡ name_in word.now }
{
    if word.len() != 6 || word[1] != b'-' || word[3] != b'-' {
        return None;
    }
    let group = group_of(word[0])?;
    let class = class_of(word[2])?;
    let number = digits_of(word[4], word[5])?;
    Some(Name {
        group,
        class,
        number,
    })
}

fn group_of(octet: u8) -> Option<Group>
    ensures { result ≡ group_at octet }
{
    match octet {
        b'1' => Some(Group::TeiUnassigned),
        b'2' => Some(Group::AssignAwaitingTei),
        b'3' => Some(Group::EstablishAwaitingTei),
        b'4' => Some(Group::TeiAssigned),
        b'5' => Some(Group::AwaitingEstablishment),
        b'6' => Some(Group::AwaitingRelease),
        b'7' => Some(Group::Established),
        b'8' => Some(Group::TimerRecovery),
        b'n' => Some(Group::NetworkTei),
        b'u' => Some(Group::UserTei),
        _ => None,
    }
}

fn class_of(octet: u8) -> Option<Class>
    ensures { result ≡ class_at octet }
{
    match octet {
        b'V' => Some(Class::Valid),
        b'O' => Some(Class::Inopportune),
        b'I' => Some(Class::Invalid),
        b'T' => Some(Class::Timer),
        _ => None,
    }
}

fn digits_of(tens: u8, units: u8) -> Option<u8>
    ensures { result ≡ digits_at tens units }
{
    if tens.is_ascii_digit() && units.is_ascii_digit() {
        Some((tens - b'0') * 10 + (units - b'0'))
    } else {
        None
    }
}

impl Group {
    /// The letter or digit of the group.
    pub fn letter(self) -> char {
        match self {
            Group::TeiUnassigned => '1',
            Group::AssignAwaitingTei => '2',
            Group::EstablishAwaitingTei => '3',
            Group::TeiAssigned => '4',
            Group::AwaitingEstablishment => '5',
            Group::AwaitingRelease => '6',
            Group::Established => '7',
            Group::TimerRecovery => '8',
            Group::NetworkTei => 'n',
            Group::UserTei => 'u',
        }
    }
}

impl Class {
    /// The letter of the class.
    pub fn letter(self) -> char {
        match self {
            Class::Valid => 'V',
            Class::Inopportune => 'O',
            Class::Invalid => 'I',
            Class::Timer => 'T',
        }
    }
}

impl fmt::Display for Name {
    fn fmt<W: fmt::Write>(&self, f: &mut fmt::Formatter<W>) -> fmt::Result {
        let (group, class) = (self.group.letter(), self.class.letter());
        write!(f, "{group}-{class}-{:02}", self.number)
    }
}
