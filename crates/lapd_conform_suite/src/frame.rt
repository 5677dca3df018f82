//! Frames in words, to be sent or compared.

ghost use Rattle.std.specs.Prelude.{◌≡◌, ◌∷◌, []};
ghost use Rattle.lapd_conform_suite.specs.Frames.{after_field, after_fields, all_digits, are_known, frame_by, frame_in, hex_octets, information_in, is_comparable as comparable, is_known, is_sendable as sendable, kind_and_fields, link_frame, no_fields, with_field, with_information};
ghost use Rattle.lapd_conform_suite.specs.Reading.{ReadsAs};

use crate::fault::{Fault, Wanted};
use crate::number::{Number, Value, read_field_value, read_number};
use crate::reading::{end, front_of, read_value, take_word};
use crate::words::{Field, Kind, Opening, fields, kinds, openings, roles, tei_kinds};
use lapd_cli_script::Words;
use lapd_frame::Role;
use lapd_tei::TeiKind;

/// The information of a frame.
#[derive(Clone, Copy)]
pub enum Information {
    /// None is named: any, or the least that its kind needs in a frame that is sent.
    LeftOut,
    /// The octets of the line's text.
    Octets,
    /// N201 octets.
    Longest,
    /// One octet more than N201.
    TooLong,
}

/// The fields of a frame.
#[derive(Clone, Copy)]
pub struct Fields {
    /// N(S).
    pub send_number: Value,
    /// N(R).
    pub receive_number: Value,
    /// The poll or final bit.
    pub bit: Value,
    /// The SAPI; left out: the link's.
    pub sapi: Value,
    /// The TEI; left out: the link's.
    pub tei: Value,
    /// The reference number (Ri) of TEI management.
    pub reference: Value,
    /// The action indicator (Ai) of TEI management.
    pub action_indicator: Value,
    /// The information.
    pub information: Information,
}

/// A frame in words.
#[derive(Clone, Copy)]
pub enum Pattern {
    /// No frame.
    Nothing,
    /// RR with F=0, or an I frame, whose N(R) is this number: it acknowledges.
    Acknowledgement(Number),
    /// A command.
    Command(Kind, Fields),
    /// A response.
    Response(Kind, Fields),
    /// A command or a response.
    Either(Kind, Fields),
    /// A message of TEI management.
    Tei(TeiKind, Fields),
    /// The address of the link in this role, and the octets of the line's text.
    Octets(Role),
    /// The octets of the line's text.
    Raw,
}

/// A frame in words, with the hexadecimal digits of its octets.
#[derive(Clone, Copy)]
pub(crate) struct Framed<'s> {
    pub pattern: Pattern,
    pub digits: &'s [u8],
}

/// The fields that were read so far.
#[derive(Clone, Copy)]
struct ReadFields<'s> {
    fields: Fields,
    digits: &'s [u8],
}

/// Reads a frame in words.
pub(crate) fn read_frame<'s>(mut words: Words<'s>) -> Result<Framed<'s>, Fault<'s>>
    ensures { ReadsAs (λ framed. (framed.pattern, framed.digits.now)) result
        (frame_in words.entry) }
{
    let opening = read_value(openings(), Wanted::Opening, take_word(&mut words))?;
    match opening {
        Opening::Command => read_link_frame(Role::Command, words),
        Opening::Response => read_link_frame(Role::Answer, words),
        Opening::CommandOrResponse => read_either(words),
        Opening::Tei => read_tei(words),
        Opening::Octets => read_octets(words),
        Opening::Raw => read_raw(words),
        Opening::Acknowledgement => read_acknowledgement(words),
        Opening::Nothing => read_nothing(words),
    }
}

fn read_nothing<'s>(words: Words<'s>) -> Result<Framed<'s>, Fault<'s>>
    ensures { ReadsAs (λ framed. (framed.pattern, framed.digits.now)) result
        (frame_by Opening.Nothing words.entry) }
{
    end(words)?;
    Ok(Framed {
        pattern: Pattern::Nothing,
        digits: &[],
    })
}

fn read_acknowledgement<'s>(mut words: Words<'s>) -> Result<Framed<'s>, Fault<'s>>
    ensures { ReadsAs (λ framed. (framed.pattern, framed.digits.now)) result
        (frame_by Opening.Acknowledgement words.entry) }
{
    let number = read_number(take_word(&mut words))?;
    end(words)?;
    Ok(Framed {
        pattern: Pattern::Acknowledgement(number),
        digits: &[],
    })
}

fn read_raw<'s>(mut words: Words<'s>) -> Result<Framed<'s>, Fault<'s>>
    ensures { ReadsAs (λ framed. (framed.pattern, framed.digits.now)) result
        (frame_by Opening.Raw words.entry) }
{
    let digits = read_hex(take_word(&mut words))?;
    end(words)?;
    Ok(Framed {
        pattern: Pattern::Raw,
        digits,
    })
}

/// Octets after the address of the link: `C` or `R`, and digits.
fn read_octets<'s>(mut words: Words<'s>) -> Result<Framed<'s>, Fault<'s>>
    ensures { ReadsAs (λ framed. (framed.pattern, framed.digits.now)) result
        (frame_by Opening.Octets words.entry) }
{
    let role = read_value(roles(), Wanted::Opening, take_word(&mut words))?;
    let digits = read_hex(take_word(&mut words))?;
    end(words)?;
    Ok(Framed {
        pattern: Pattern::Octets(role),
        digits,
    })
}

/// Octets in hexadecimal digits, at least one.
fn read_hex<'s>(word: &'s [u8]) -> Result<&'s [u8], Fault<'s>>
    ensures { ReadsAs (λ digits. digits.now) result (hex_octets word.now) }
{
    if !word.is_empty() && word.len() % 2 == 0 && are_digits(word) {
        Ok(word)
    } else {
        Err(Fault {
            found: word,
            wanted: Wanted::Octets,
        })
    }
}

/// Whether all octets are hexadecimal digits.
fn are_digits(word: &[u8]) -> bool
    ensures { result ≡ all_digits word.now }
{
    let mut left = word;
    while let [octet, rest @ ..] = left {
        if !octet.is_ascii_hexdigit() {
            return false;
        }
        left = rest;
    }
    true
}

fn read_link_frame<'s>(role: Role, words: Words<'s>) -> Result<Framed<'s>, Fault<'s>>
    ensures { ReadsAs (λ framed. (framed.pattern, framed.digits.now)) result
        (link_frame role words.entry) }
{
    let (kind, read) = read_kind_and_fields(words)?;
    let pattern = match role {
        Role::Command => Pattern::Command(kind, read.fields),
        Role::Answer => Pattern::Response(kind, read.fields),
    };
    Ok(Framed {
        pattern,
        digits: read.digits,
    })
}

fn read_either<'s>(words: Words<'s>) -> Result<Framed<'s>, Fault<'s>>
    ensures { ReadsAs (λ framed. (framed.pattern, framed.digits.now)) result
        (frame_by Opening.CommandOrResponse words.entry) }
{
    let (kind, read) = read_kind_and_fields(words)?;
    Ok(Framed {
        pattern: Pattern::Either(kind, read.fields),
        digits: read.digits,
    })
}

fn read_tei<'s>(mut words: Words<'s>) -> Result<Framed<'s>, Fault<'s>>
    ensures { ReadsAs (λ framed. (framed.pattern, framed.digits.now)) result
        (frame_by Opening.Tei words.entry) }
{
    let kind = read_value(tei_kinds(), Wanted::TeiKind, take_word(&mut words))?;
    let read = read_fields(words)?;
    Ok(Framed {
        pattern: Pattern::Tei(kind, read.fields),
        digits: read.digits,
    })
}

fn read_kind_and_fields<'s>(mut words: Words<'s>) -> Result<(Kind, ReadFields<'s>), Fault<'s>>
    ensures { ReadsAs (λ read. (read.0, (read.1.fields, read.1.digits.now))) result
        (kind_and_fields words.entry) }
{
    let kind = read_value(kinds(), Wanted::Kind, take_word(&mut words))?;
    let read = read_fields(words)?;
    Ok((kind, read))
}

fn read_fields<'s>(mut words: Words<'s>) -> Result<ReadFields<'s>, Fault<'s>>
    ensures { ReadsAs (λ read. (read.fields, read.digits.now)) result
        (after_fields words.entry (no_fields, [])) }
{
    let mut read = ReadFields {
        fields: Fields::left_out(),
        digits: &[],
    };
    while let Some(word) = words.next_word() {
        read = read_one_field(word, read)?;
    }
    Ok(read)
}

fn read_one_field<'s>(word: &'s [u8], read: ReadFields<'s>) -> Result<ReadFields<'s>, Fault<'s>>
    ensures { ReadsAs (λ next. (next.fields, next.digits.now)) result
        (after_field word.now (read.entry.fields, read.entry.digits.now)) }
{
    let Some((field, rest)) = front_of(fields(), word) else {
        return Err(Fault {
            found: word,
            wanted: Wanted::Field,
        });
    };
    if field.is_information() {
        return read_information(rest, read);
    }
    let value = read_field_value(rest)?;
    Ok(ReadFields {
        fields: read.fields.with(field, value),
        digits: read.digits,
    })
}

fn read_information<'s>(word: &'s [u8], read: ReadFields<'s>) -> Result<ReadFields<'s>, Fault<'s>>
    ensures { ReadsAs (λ next. (next.fields, next.digits.now)) result
        (information_in word.now (read.entry.fields, read.entry.digits.now)) }
{
    if word == b"N201".as_slice() {
        Ok(ReadFields {
            fields: read.fields.with_information(Information::Longest),
            digits: read.digits,
        })
    } else if word == b"N201+1".as_slice() {
        Ok(ReadFields {
            fields: read.fields.with_information(Information::TooLong),
            digits: read.digits,
        })
    } else {
        let digits = read_hex(word)?;
        Ok(ReadFields {
            fields: read.fields.with_information(Information::Octets),
            digits,
        })
    }
}

impl Fields {
    /// No field is named.
    pub fn left_out() -> Fields
        ensures { result ≡ no_fields }
    {
        Fields {
            send_number: Value::LeftOut,
            receive_number: Value::LeftOut,
            bit: Value::LeftOut,
            sapi: Value::LeftOut,
            tei: Value::LeftOut,
            reference: Value::LeftOut,
            action_indicator: Value::LeftOut,
            information: Information::LeftOut,
        }
    }

    /// With this value of a field. The information is no value.
    fn with(self, field: Field, value: Value) -> Fields
        ensures { result ≡ with_field field value self }
    {
        match field {
            Field::SendNumber => Fields {
                send_number: value,
                ..self
            },
            Field::ReceiveNumber => Fields {
                receive_number: value,
                ..self
            },
            Field::Poll => Fields { bit: value, ..self },
            Field::Final => Fields { bit: value, ..self },
            Field::Sapi => Fields {
                sapi: value,
                ..self
            },
            Field::Tei => Fields { tei: value, ..self },
            Field::Reference => Fields {
                reference: value,
                ..self
            },
            Field::ActionIndicator => Fields {
                action_indicator: value,
                ..self
            },
            Field::Information => self,
        }
    }

    fn with_information(self, information: Information) -> Fields
        ensures { result ≡ with_information information self }
    {
        Fields {
            information,
            ..self
        }
    }

    /// Whether no value is a choice, so that a frame with these fields can be sent.
    fn are_known(self) -> bool
        ensures { result ≡ are_known self }
    {
        is_known(self.send_number)
            && is_known(self.receive_number)
            && is_known(self.bit)
            && is_known(self.sapi)
            && is_known(self.tei)
            && is_known(self.reference)
            && is_known(self.action_indicator)
    }
}

fn is_known(value: Value) -> bool
    ensures { result ≡ is_known value }
{
    !matches!(value, Value::Choice(_))
}

/// Whether a frame can be sent: its role and all its values are known.
pub(crate) fn is_sendable(pattern: Pattern) -> bool
    ensures { result ≡ sendable pattern }
{
    match pattern {
        Pattern::Command(_, fields) => fields.are_known(),
        Pattern::Response(_, fields) => fields.are_known(),
        Pattern::Tei(_, fields) => fields.are_known(),
        Pattern::Octets(_) => true,
        Pattern::Raw => true,
        Pattern::Nothing => false,
        Pattern::Acknowledgement(_) => false,
        Pattern::Either(_, _) => false,
    }
}

/// Whether a frame is compared by its fields.
pub(crate) fn is_comparable(pattern: Pattern) -> bool
    ensures { result ≡ comparable pattern }
{
    !matches!(pattern, Pattern::Octets(_) | Pattern::Raw)
}
