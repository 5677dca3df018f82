//! A primitive in the form that C reads.

ghost use Rattle.std.specs.Prelude.{◌≡◌};
ghost use Rattle.lapd_c.specs.FlatPrimitives.{flat, flat_frame, nothing, octets_of, octets_up, kind_of_link, count_of, letter_of, kind_of_outcome, tei_of_outcome, link_of};
ghost use Rattle.lapd_frame.specs.Address.{sapi_value};
ghost use Rattle.lapd_link_definition.specs.Out.{letter_code};

use lapd_sides::{Letter, LinkId, Primitive, Sapi, Tei, TeiOut, What};

/// A primitive for the layers above, as numbers. Its octets are returned separately.
#[repr(C)]
#[derive(Clone, Copy)]
pub struct FlatPrimitive {
    /// The kind; 0 if no primitive is left.
    pub kind: u8,
    /// The SAPI of the link; 63 for TEI management, and 0 for a frame.
    pub sapi: u8,
    /// The TEI of the link; 127 for the group, or if there is none; 0 for a frame.
    pub tei: u8,
    /// The letter of an error report, `A` to `O`; else 0.
    pub letter: u8,
    /// The number of messages that were acknowledged or dropped; else 0.
    pub count: u16,
    /// The number of octets for layer 3, or of the frame.
    pub octets: usize,
    /// Room for a field of a later version: 0.
    pub reserved: u64,
}

/// The kind of a received message.
const MESSAGE: u8 = 1;

/// The kind of an acknowledgement.
const ACKNOWLEDGED: u8 = 7;

/// The kind of a frame to send.
const FRAME: u8 = 32;

impl FlatPrimitive {
    /// The value that stands for no primitive.
    pub(crate) fn nothing() -> FlatPrimitive
        ensures { result ≡ nothing }
    {
        FlatPrimitive {
            kind: 0,
            sapi: 0,
            tei: 0,
            letter: 0,
            count: 0,
            octets: 0,
            reserved: 0,
        }
    }

    /// A frame to send, in the form of a primitive.
    pub(crate) fn of_frame(frame: &[u8]) -> FlatPrimitive
        ensures { result ≡ flat_frame frame.now }
    {
        FlatPrimitive {
            kind: FRAME,
            sapi: 0,
            tei: 0,
            letter: 0,
            count: 0,
            octets: frame.len(),
            reserved: 0,
        }
    }

    /// A primitive of a link that has no letter.
    #[inline(always)]
    fn of_link(id: &LinkId, kind: u8, count: u16, octets: usize) -> FlatPrimitive
        ensures { result ≡ record {
          kind = kind;
          sapi = sapi_value id.now.sapi;
          tei = id.now.tei;
          letter = 0;
          count = count;
          octets = octets;
          reserved = 0;
        } }
    {
        FlatPrimitive {
            kind,
            sapi: id.sapi.value(),
            tei: id.tei.value(),
            letter: 0,
            count,
            octets,
            reserved: 0,
        }
    }

    /// Converts a primitive.
    fn of(primitive: &Primitive) -> FlatPrimitive
        ensures { result ≡ flat primitive.now }
    {
        match primitive {
            Primitive::Of(id, what) => FlatPrimitive {
                kind: kind_of_link(what),
                sapi: id.sapi.value(),
                tei: id.tei.value(),
                letter: letter_of(what),
                count: count_of(what),
                octets: octets_up(what).len(),
                reserved: 0,
            },
            Primitive::Management(outcome) => FlatPrimitive {
                kind: kind_of_outcome(outcome),
                sapi: 63,
                tei: tei_of_outcome(outcome),
                letter: 0,
                count: 0,
                octets: 0,
                reserved: 0,
            },
        }
    }
}

/// Converts a primitive, and returns its octets for layer 3.
// Messages and acknowledgements are most primitives: they have arms of their own.
#[inline(always)]
pub(crate) fn flatten(primitive: &Primitive) -> (FlatPrimitive, &[u8])
    ensures form { result.0 ≡ flat primitive.now }
    ensures octets { result.1.now ≡ octets_of primitive.now }
{
    match primitive {
        Primitive::Of(id, What::Up(octets)) => {
            let octets = octets.as_slice();
            (FlatPrimitive::of_link(id, MESSAGE, 0, octets.len()), octets)
        }
        Primitive::Of(id, What::Acknowledged(count)) => {
            (FlatPrimitive::of_link(id, ACKNOWLEDGED, *count, 0), &[])
        }
        _ => (FlatPrimitive::of(primitive), octets_of(primitive)),
    }
}

/// The octets of a primitive for layer 3.
fn octets_of(primitive: &Primitive) -> &[u8]
    ensures { result.now ≡ octets_of primitive.now }
{
    match primitive {
        Primitive::Of(_, what) => octets_up(what),
        Primitive::Management(_) => &[],
    }
}

/// The octets of a link's primitive for layer 3.
fn octets_up(what: &What) -> &[u8]
    ensures { result.now ≡ octets_up what.now }
{
    match what {
        What::Up(octets) => octets.as_slice(),
        What::UnitUp(octets) => octets.as_slice(),
        _ => &[],
    }
}

/// The kind of a link's primitive.
fn kind_of_link(what: &What) -> u8
    ensures { result ≡ kind_of_link what.now }
{
    match what {
        What::Up(_) => MESSAGE,
        What::UnitUp(_) => 2,
        What::Established => 3,
        What::Confirmed => 4,
        What::Released => 5,
        What::ReleaseConfirm => 6,
        What::Acknowledged(_) => ACKNOWLEDGED,
        What::Dropped(_) => 8,
        What::Report(_) => 9,
    }
}

/// The number of messages that were acknowledged or dropped.
fn count_of(what: &What) -> u16
    ensures { result ≡ count_of what.now }
{
    match what {
        What::Acknowledged(count) => *count,
        What::Dropped(count) => *count,
        _ => 0,
    }
}

/// The letter of an error report, as a character.
fn letter_of(what: &What) -> u8
    ensures { result ≡ letter_of what.now }
{
    match what {
        What::Report(letter) => letter_code(*letter),
        _ => 0,
    }
}

/// The ASCII code of a letter.
fn letter_code(letter: Letter) -> u8
    ensures { result ≡ letter_code letter }
{
    match letter {
        Letter::A => b'A',
        Letter::B => b'B',
        Letter::C => b'C',
        Letter::D => b'D',
        Letter::E => b'E',
        Letter::F => b'F',
        Letter::G => b'G',
        Letter::H => b'H',
        Letter::I => b'I',
        Letter::J => b'J',
        Letter::K => b'K',
        Letter::L => b'L',
        Letter::M => b'M',
        Letter::N => b'N',
        Letter::O => b'O',
    }
}

/// The kind of an outcome of TEI management.
fn kind_of_outcome(outcome: &TeiOut) -> u8
    ensures { result ≡ kind_of_outcome outcome.now }
{
    match outcome {
        TeiOut::Got(_) => 16,
        TeiOut::Gone(_) => 17,
        TeiOut::Failed => 18,
        TeiOut::Given(_) => 19,
        TeiOut::Free(_) => 20,
        TeiOut::InUse(_) => 21,
        TeiOut::Doubled(_) => 22,
        TeiOut::Send(_) => 0,
        TeiOut::Start(_) => 0,
        TeiOut::Stop(_) => 0,
    }
}

/// The TEI of an outcome of TEI management; 127 if it has none.
fn tei_of_outcome(outcome: &TeiOut) -> u8
    ensures { result ≡ tei_of_outcome outcome.now }
{
    match outcome {
        TeiOut::Got(own) => own.value(),
        TeiOut::Gone(own) => own.value(),
        TeiOut::Given(own) => own.value(),
        TeiOut::Free(own) => own.value(),
        TeiOut::InUse(own) => own.value(),
        TeiOut::Doubled(own) => own.value(),
        TeiOut::Failed => 127,
        TeiOut::Send(_) => 127,
        TeiOut::Start(_) => 127,
        TeiOut::Stop(_) => 127,
    }
}

/// The link with this SAPI and TEI; `None` if the SAPI is not 0, 16 or 63, or the TEI is above 127.
pub(crate) fn link_of(sapi: u8, tei: u8) -> Option<LinkId>
    ensures { result ≡ link_of sapi tei }
{
    let sapi = Sapi::new(sapi)?;
    let tei = Tei::new(tei)?;
    Some(LinkId { tei, sapi })
}
