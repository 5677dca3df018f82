//! The lines that report primitives and refusals of a side.

ghost use Rattle.std.specs.Prelude.{◌≡◌, [], ◌∷◌, ◌++◌, OnOk};
ghost use Rattle.std.specs.Fmt.{decimal};
ghost use Rattle.std.specs.String.{string_bytes};
ghost use Rattle.std.specs.Io.KnownBytes.{Appends};
ghost use Rattle.lapd_frame.specs.Address.{sapi_value};
ghost use Rattle.lapd_cli_script.specs.Line.{text_line};
ghost use Rattle.lapd_sides_links.specs.Texts.{id_text, primitive_text, what_rest};
ghost use Rattle.lapd_cli_side_lines.specs.SideTexts.{primitive_line, primitives_text, refusal_line, refused_line, styled_primitive};
ghost use Rattle.lapd_cli_side_lines.specs.LineRequests.{IsGood};

use crate::line_style::LineStyle;
use crate::primitives::primitive_object;
use lapd_cli_script::LineFault;
use lapd_frame::Sapi;
use lapd_sides::{LinkId, Primitive, SideKind, TeiOut, What};
use std::alloc::{AllocError, Global};
use std::io::Write;

/// Appends the lines of these primitives, in order.
///
/// # Errors
///
/// `AllocError` if an allocation fails. Part of the text may have been appended.
pub fn push_primitives(
    alloc: Global,
    style: LineStyle,
    primitives: &[Primitive],
    text: &mut String,
) -> Result<(), AllocError>
    ensures { OnOk result (string_bytes text.new
        ≡ string_bytes text.old ++ primitives_text style primitives.now) }
{
    for primitive in primitives {
        push_primitive(alloc, style, primitive, text)?;
    }
    Ok(())
}

/// Appends the line of a primitive, in this style. Messages and timers of TEI management have no
/// line.
///
/// # Errors
///
/// `AllocError` if an allocation fails. Part of the text may have been appended.
pub fn push_primitive(
    alloc: Global,
    style: LineStyle,
    primitive: &Primitive,
    text: &mut String,
) -> Result<(), AllocError>
    ensures { OnOk result (string_bytes text.new
        ≡ string_bytes text.old ++ primitive_line style primitive.now) }
{
    match primitive {
        Primitive::Management(TeiOut::Send(_) | TeiOut::Start(_) | TeiOut::Stop(_)) => Ok(()),
        Primitive::Of(..)
        | Primitive::Management(
            TeiOut::Given(_)
            | TeiOut::Got(_)
            | TeiOut::Gone(_)
            | TeiOut::Failed
            | TeiOut::Free(_)
            | TeiOut::InUse(_)
            | TeiOut::Doubled(_),
        ) => push_styled_primitive(alloc, style, primitive, text),
    }
}

/// Appends the line of a primitive that is printed.
fn push_styled_primitive(
    alloc: Global,
    style: LineStyle,
    primitive: &Primitive,
    text: &mut String,
) -> Result<(), AllocError>
    ensures { OnOk result (string_bytes text.new
        ≡ string_bytes text.old ++ text_line (styled_primitive style primitive.now)) }
{
    match style {
        LineStyle::Text => push_words(alloc, primitive, text),
        LineStyle::Json => push_line(text, primitive_object(alloc, primitive)?.as_str()),
    }
}

/// Appends the line of a primitive in words.
fn push_words(alloc: Global, primitive: &Primitive, text: &mut String) -> Result<(), AllocError>
    ensures { OnOk result (string_bytes text.new
        ≡ string_bytes text.old ++ text_line (primitive_text primitive.now)) }
{
    match primitive {
        Primitive::Of(id, what) => {
            push_id(id, text)?;
            text.push_str(what.word())?;
            push_rest(alloc, what, text)?;
            text.push('\n')
        }
        Primitive::Management(_) => writeln!(text, "{primitive}"),
    }
}

/// Appends the SAPI and the TEI of a link, with a space after each.
fn push_id(id: &LinkId, text: &mut String) -> Result<(), AllocError>
    ensures { OnOk result (string_bytes text.new ≡ string_bytes text.old ++ id_text id.now) }
{
    text.push_str(sapi_words(id.sapi))?;
    text.push_str(itoa::Buffer::new().format(id.tei.value()))?;
    text.push(' ')
}

/// The number of a SAPI, with a space after it.
fn sapi_words(sapi: Sapi) -> &'static str
    ensures { result.now ≡ decimal (sapi_value sapi) ++ 32 ∷ [] }
{
    match sapi {
        Sapi::Call => "0 ",
        Sapi::Packet => "16 ",
        Sapi::Management => "63 ",
    }
}

/// Appends what follows the word of a link's primitive: octets, a count or the letter of a report.
fn push_rest(alloc: Global, what: &What, text: &mut String) -> Result<(), AllocError>
    ensures { OnOk result (string_bytes text.new ≡ string_bytes text.old ++ what_rest what.now) }
{
    match what {
        What::Up(octets) | What::UnitUp(octets) => {
            lapd_trace::push_octets(alloc, text, " ", octets.as_slice())
        }
        What::Acknowledged(n) | What::Dropped(n) => {
            text.push(' ')?;
            text.push_str(itoa::Buffer::new().format(*n))
        }
        What::Report(letter) => {
            text.push(' ')?;
            text.push_str(letter.name())
        }
        What::Established | What::Confirmed | What::Released | What::ReleaseConfirm => Ok(()),
    }
}

/// Appends the line of a refusal, with the reason `why`.
fn push_refused(
    alloc: Global,
    style: LineStyle,
    why: &str,
    text: &mut String,
) -> Result<(), AllocError>
    ensures { OnOk result (string_bytes text.new
        ≡ string_bytes text.old ++ refused_line style why.now) }
{
    match style {
        LineStyle::Text => writeln!(text, "refused {why}"),
        LineStyle::Json => push_line(
            text,
            lapd_cli_render::text_line(alloc, "refused", why)?.as_str(),
        ),
    }
}

/// Prints the line of a refusal, with the reason `why`, and flushes the writer.
///
/// # Errors
///
/// `Device` if the writer fails, and `Memory` if an allocation fails.
pub fn put_refused<W: Write>(
    alloc: Global,
    style: LineStyle,
    why: &str,
    out: &mut W,
) -> Result<(), LineFault>
    ensures ok { OnOk result (Appends (W.contents out.old) (W.contents out.new)
        (refused_line style why.now)) }
    ensures good { IsGood result }
{
    let mut text = String::new(alloc);
    let Ok(()) = push_refused(alloc, style, why, &mut text) else {
        return Err(LineFault::Memory);
    };
    out.write_all(text.as_bytes())?;
    out.flush()?;
    Ok(())
}

/// Prints the line of a request that the side refused, with this reason, and flushes the writer.
///
/// # Errors
///
/// As for [`put_refused`].
pub fn put_refusal<W: Write>(
    alloc: Global,
    style: LineStyle,
    kind: SideKind,
    out: &mut W,
) -> Result<(), LineFault>
    ensures ok { OnOk result (Appends (W.contents out.old) (W.contents out.new)
        (refusal_line style kind)) }
    ensures good { IsGood result }
{
    let Ok(why) = format!(in alloc; "{kind}") else {
        return Err(LineFault::Memory);
    };
    put_refused(alloc, style, why.as_str(), out)
}

/// Appends a line, with a line feed.
pub(crate) fn push_line(text: &mut String, line: &str) -> Result<(), AllocError>
    ensures { OnOk result (string_bytes text.new ≡ string_bytes text.old ++ text_line line.now) }
{
    text.push_str(line)?;
    text.push('\n')
}
