//! Primitives of a side as JSON objects.

ghost use Rattle.std.specs.Prelude.{◌≡◌, IfOk, OnOk};
ghost use Rattle.std.specs.String.{string_bytes};
ghost use Rattle.serde_json.specs.View.{members_view};
ghost use Rattle.lapd_cli_render.specs.Json.{object_text};
ghost use Rattle.lapd_cli_side_lines.specs.Primitives.{primitive_members, with_link, with_outcome, with_primitive, with_tei, with_primitive_members, with_what};

use lapd_cli_render::{Members, put_octets};
use lapd_sides_links::{LinkId, Primitive, Tei, TeiOut, What};
use std::alloc::{AllocError, Global};

/// Returns the JSON object for a primitive, in one line without line feeds and without spaces
/// outside texts. Its members are in alphabetical order. The text is empty for messages and timers
/// of TEI management, which are not passed to layer 3.
///
/// ```text
/// {"info":"0802","primitive":"data","sapi":0,"tei":64}
/// {"count":1,"primitive":"acknowledged","sapi":0,"tei":64}
/// {"primitive":"tei given","tei":64}
/// ```
///
/// # Errors
///
/// `AllocError` if an allocation fails.
pub fn primitive_object(alloc: Global, primitive: &Primitive) -> Result<String, AllocError>
    ensures { IfOk result (λ text.
        string_bytes text ≡ object_text (primitive_members primitive.now)) }
{
    let mut members = Members::new(alloc);
    put_primitive_members(alloc, &mut members, primitive)?;
    members.into_text()
}

/// Adds a primitive and its link.
fn put_primitive_members(
    alloc: Global,
    members: &mut Members,
    delivered: &Primitive,
) -> Result<(), AllocError>
    ensures { OnOk result (members_view members.new.map.entries
        ≡ with_primitive_members delivered.now (members_view members.old.map.entries)) }
{
    match delivered {
        Primitive::Of(id, what) => {
            put_link(members, id)?;
            put_what(alloc, members, what)
        }
        Primitive::Management(outcome) => put_outcome(members, *outcome),
    }
}

/// Adds SAPI and TEI of a link.
fn put_link(members: &mut Members, id: &LinkId) -> Result<(), AllocError>
    ensures { OnOk result (members_view members.new.map.entries
        ≡ with_link id.now (members_view members.old.map.entries)) }
{
    members.put_number("sapi", u64::from(id.sapi.value()))?;
    members.put_number("tei", u64::from(id.tei.value()))
}

/// Adds a primitive of a link.
fn put_what(alloc: Global, members: &mut Members, what: &What) -> Result<(), AllocError>
    ensures { OnOk result (members_view members.new.map.entries
        ≡ with_what what.now (members_view members.old.map.entries)) }
{
    put_primitive(members, what.word())?;
    match what {
        What::Up(octets) | What::UnitUp(octets) => {
            put_octets(alloc, members, "info", octets.as_slice())
        }
        What::Acknowledged(count) | What::Dropped(count) => {
            members.put_number("count", u64::from(*count))
        }
        What::Report(letter) => members.put_text("report", letter.name()),
        What::Established | What::Confirmed | What::Released | What::ReleaseConfirm => Ok(()),
    }
}

/// Adds the outcome of a procedure of TEI management.
fn put_outcome(members: &mut Members, outcome: TeiOut) -> Result<(), AllocError>
    ensures { OnOk result (members_view members.new.map.entries
        ≡ with_outcome outcome (members_view members.old.map.entries)) }
{
    match outcome {
        TeiOut::Given(tei) => put_tei(members, "tei given", tei),
        TeiOut::Got(tei) => put_tei(members, "tei got", tei),
        TeiOut::Gone(tei) => put_tei(members, "tei gone", tei),
        TeiOut::Failed => put_primitive(members, "tei failed"),
        TeiOut::Free(tei) => put_tei(members, "tei free", tei),
        TeiOut::InUse(tei) => put_tei(members, "tei in-use", tei),
        TeiOut::Doubled(tei) => put_tei(members, "tei doubled", tei),
        TeiOut::Send(_) | TeiOut::Start(_) | TeiOut::Stop(_) => Ok(()),
    }
}

/// Adds the word of a primitive.
fn put_primitive(members: &mut Members, word: &str) -> Result<(), AllocError>
    ensures { OnOk result (members_view members.new.map.entries
        ≡ with_primitive word.now (members_view members.old.map.entries)) }
{
    members.put_text("primitive", word)
}

/// Adds the TEI of an outcome.
fn put_tei(members: &mut Members, word: &str, tei: Tei) -> Result<(), AllocError>
    ensures { OnOk result (members_view members.new.map.entries
        ≡ with_tei word.now tei (members_view members.old.map.entries)) }
{
    put_primitive(members, word)?;
    members.put_number("tei", u64::from(tei.value()))
}
