//! The primitives that a side reports to the layers above it.

ghost use Rattle.std.specs.Prelude.{◌≡◌, Some};
ghost use Rattle.lapd_sides_links.specs.Texts.{primitive_text, what_text, what_word};

use crate::Octets;
use lapd_link::{Letter, Out};
use lapd_table::LinkId;
use lapd_tei::TeiOut;
use std::fmt;

/// A primitive of a link for layer 3 or management (Q.921 4.1). It prints as the programs `net` and
/// `user` print it, as in `established` and `data 0801`.
#[derive(Debug, Drop)]
pub enum What {
    /// A message was received from the peer (DL-DATA indication).
    Up(Octets),
    /// Unit data was received from the peer (DL-UNIT DATA indication).
    UnitUp(Octets),
    /// The link is established (DL-ESTABLISH indication).
    Established,
    /// The link is established, as requested (DL-ESTABLISH confirm).
    Confirmed,
    /// The link is released (DL-RELEASE indication).
    Released,
    /// The link is released, as requested (DL-RELEASE confirm).
    ReleaseConfirm,
    /// The peer acknowledged this number of messages, at least one.
    Acknowledged(u16),
    /// This number of messages was dropped, at least one.
    Dropped(u16),
    /// An error is reported (MDL-ERROR indication, Q.921 Appendix II).
    Report(Letter),
}

/// A primitive for the layers above. It prints as the programs `net` and `user` print it, as in
/// `0 64 established` and `tei given 64`.
#[derive(Debug, Drop)]
pub enum Primitive {
    /// A primitive of the link with this id. The TEI is 127 for unit data to the group, and for a
    /// SAPI while the terminal has no TEI.
    Of(LinkId, What),
    /// An outcome of TEI management: never a message, nor the start or stop of a timer.
    Management(TeiOut),
}

impl Primitive {
    /// A copy of the primitive.
    pub(crate) fn copy(&self) -> Primitive
        ensures { result ≡ self.now }
    {
        match self {
            Primitive::Of(id, what) => Primitive::Of(*id, what.copy()),
            Primitive::Management(outcome) => Primitive::Management(*outcome),
        }
    }
}

impl What {
    /// A copy of the primitive.
    #[inline(always)]
    fn copy(&self) -> What
        ensures { result ≡ self.now }
    {
        match self {
            What::Up(octets) => What::Up(octets.copy()),
            What::UnitUp(octets) => What::UnitUp(octets.copy()),
            What::Established => What::Established,
            What::Confirmed => What::Confirmed,
            What::Released => What::Released,
            What::ReleaseConfirm => What::ReleaseConfirm,
            What::Acknowledged(count) => What::Acknowledged(*count),
            What::Dropped(count) => What::Dropped(*count),
            What::Report(letter) => What::Report(*letter),
        }
    }

    /// The first word of the printed form, as in `established` and `data`.
    pub fn word(&self) -> &'static str
        ensures { result.now ≡ what_word self.now }
    {
        match self {
            What::Up(_) => Out::Up.word(),
            What::UnitUp(_) => Out::UnitUp.word(),
            What::Established => Out::Established.word(),
            What::Confirmed => Out::Confirmed.word(),
            What::Released => Out::Released.word(),
            What::ReleaseConfirm => Out::ReleaseConfirm.word(),
            What::Acknowledged(n) => Out::Acknowledged(*n).word(),
            What::Dropped(n) => Out::Dropped(*n).word(),
            What::Report(letter) => Out::Report(*letter).word(),
        }
    }
}

impl fmt::Display for What {
    ghost output = { λ what. Some (what_text what) };

    fn fmt<W: fmt::Write>(&self, f: &mut fmt::Formatter<W>) -> fmt::Result {
        f.write_str(self.word())?;
        match self {
            What::Up(octets) | What::UnitUp(octets) if octets.as_slice().is_empty() => Ok(()),
            What::Up(octets) | What::UnitUp(octets) => write!(f, " {octets}"),
            What::Acknowledged(n) | What::Dropped(n) => write!(f, " {n}"),
            What::Report(letter) => write!(f, " {}", letter.name()),
            What::Established | What::Confirmed | What::Released | What::ReleaseConfirm => Ok(()),
        }
    }
}

impl fmt::Display for Primitive {
    ghost output = { λ primitive. Some (primitive_text primitive) };

    fn fmt<W: fmt::Write>(&self, f: &mut fmt::Formatter<W>) -> fmt::Result {
        match self {
            Primitive::Of(id, what) => {
                let sapi = id.sapi;
                let tei = id.tei;
                write!(f, "{sapi} {tei} {what}")
            }
            Primitive::Management(TeiOut::Given(tei)) => write!(f, "tei given {tei}"),
            Primitive::Management(TeiOut::Got(tei)) => write!(f, "tei got {tei}"),
            Primitive::Management(TeiOut::Gone(tei)) => write!(f, "tei gone {tei}"),
            Primitive::Management(TeiOut::Failed) => write!(f, "tei failed"),
            Primitive::Management(TeiOut::Free(tei)) => write!(f, "tei free {tei}"),
            Primitive::Management(TeiOut::InUse(tei)) => write!(f, "tei in-use {tei}"),
            Primitive::Management(TeiOut::Doubled(tei)) => write!(f, "tei doubled {tei}"),
            Primitive::Management(TeiOut::Send(_) | TeiOut::Start(_) | TeiOut::Stop(_)) => Ok(()),
        }
    }
}
