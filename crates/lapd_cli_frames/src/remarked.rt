//! The line of a frame with the remarks of a listener.

ghost use Rattle.std.specs.Prelude.{◌≡◌, ◌++◌, true, Some, IfOk, OnOk};
ghost use Rattle.std.specs.Io.KnownBytes.{Appends, Keeps};
ghost use Rattle.std.specs.String.{string_bytes};
ghost use Rattle.lapd_cli_script.specs.Line.{text_line};
ghost use Rattle.lapd_cli_frames.specs.Frames.{said_if};
ghost use Rattle.lapd_cli_frames.specs.Remarked.{listed, object_or_none, remark_objects, remarked, remarks_member, with_remarks, RemarkedEnds};
ghost use Rattle.lapd_follow.specs.Texts.{remarks_text};
ghost use Rattle.lapd_cli_ladder.specs.Words.{said_beside};

use crate::style::Style;
use lapd_cli_ladder::said_beside;
use lapd_cli_script::{LineFault, put_line};
use lapd_follow::{Remark, Remarks};
use std::alloc::{AllocError, Global};
use std::fmt;
use std::io::Write;

/// A remark as a JSON object, after a comma; nothing if there is none.
#[derive(Clone, Copy)]
struct RemarkObject {
    remark: Option<Remark>,
}

impl fmt::Display for RemarkObject {
    ghost output = { λ object. Some (object_or_none object.remark) };

    fn fmt<W: fmt::Write>(&self, f: &mut fmt::Formatter<W>) -> fmt::Result {
        match self.remark {
            None => write!(f, ""),
            Some(remark) => {
                let class = remark.class().name();
                let clause = remark.clause();
                write!(
                    f,
                    ",{{\"class\":\"{class}\",\"clause\":\"{clause}\",\"text\":\"{remark}\"}}"
                )
            }
        }
    }
}

/// Prints the text of a frame as one line, with the remarks on it if its link is followed. It may
/// append these to the text.
///
/// # Errors
///
/// `Memory` if an allocation fails, before anything is printed; `Device` if the writer fails.
pub(crate) fn put_frame<W: Write>(
    alloc: Global,
    style: Style,
    text: &mut String,
    is_followed: bool,
    said: &Remarks,
    out: &mut W,
) -> Result<(), LineFault>
    ensures { RemarkedEnds (text_line (remarked style (said_if is_followed said.now)
        (string_bytes text.old))) result (W.contents out.old) (W.contents out.new) }
{
    if is_followed {
        put_remarked(alloc, style, text, said, out)
    } else {
        put_line(text.as_bytes(), &[], out)
    }
}

/// Prints the text of a frame with the remarks on it, as one line.
fn put_remarked<W: Write>(
    alloc: Global,
    style: Style,
    text: &mut String,
    said: &Remarks,
    out: &mut W,
) -> Result<(), LineFault>
    ensures { RemarkedEnds (text_line (with_remarks style said.now (string_bytes text.old))) result
        (W.contents out.old) (W.contents out.new) }
{
    match style {
        Style::Plain => put_trace(text, said, out),
        Style::Named | Style::Brief => put_beside(text, said, out),
        Style::Json | Style::NamedJson => put_object(alloc, text.as_bytes(), said, out),
    }
}

/// Appends the remarks to the trace line of their frame, which has the name of its message, and
/// prints it. It is not inlined, so that its copy of the remarks takes no time in other styles.
#[inline(never)]
fn put_beside<W: Write>(text: &mut String, said: &Remarks, out: &mut W) -> Result<(), LineFault>
    ensures { RemarkedEnds (text_line (string_bytes text.old
        ++ remarks_text (said_beside true said.now))) result (W.contents out.old)
        (W.contents out.new) }
{
    put_trace(text, &said_beside(true, said), out)
}

/// Appends the remarks to the trace line of their frame, and prints it.
fn put_trace<W: Write>(text: &mut String, said: &Remarks, out: &mut W) -> Result<(), LineFault>
    ensures { RemarkedEnds (text_line (string_bytes text.old ++ remarks_text said.now)) result
        (W.contents out.old) (W.contents out.new) }
{
    if !said.is_empty() {
        let Ok(()) = write!(text, "{said}") else {
            return Err(LineFault::Memory);
        };
    }
    put_line(text.as_bytes(), &[], out)
}

/// Prints the object of a frame with the remarks as its last member.
fn put_object<W: Write>(
    alloc: Global,
    text: &[u8],
    said: &Remarks,
    out: &mut W,
) -> Result<(), LineFault>
    ensures { RemarkedEnds (text_line (with_remarks Style.Json said.now text.now)) result
        (W.contents out.old) (W.contents out.new) }
{
    let Ok(member) = remarks_member(alloc, said) else {
        return Err(LineFault::Memory);
    };
    let front = &text[..text.len().saturating_sub(1)];
    put_line(front, member.as_bytes(), out)
}

/// The last member of an object, and its end.
fn remarks_member(alloc: Global, said: &Remarks) -> Result<String, AllocError>
    ensures { IfOk result (λ text. string_bytes text ≡ remarks_member said.now) }
{
    let objects = remark_objects(alloc, said)?;
    let list = listed(objects.as_str());
    format!(in alloc; ",\"remarks\":[{list}]}}")
}

/// The remarks as objects, each after a comma.
fn remark_objects(alloc: Global, said: &Remarks) -> Result<String, AllocError>
    ensures { IfOk result (λ text. string_bytes text ≡ remark_objects said.now) }
{
    let establishment = object_of(said.establishment);
    let ns = object_of(said.ns);
    let window = object_of(said.window);
    let busy = object_of(said.busy);
    let nr = object_of(said.nr);
    let bit = object_of(said.bit);
    let answer = object_of(said.answer);
    let identity = object_of(said.identity);
    let conflict = object_of(said.conflict);
    format!(in alloc; "{establishment}{ns}{window}{busy}{nr}{bit}{answer}{identity}{conflict}")
}

/// A remark as an object.
fn object_of(remark: Option<Remark>) -> RemarkObject
    ensures { result.remark ≡ remark }
{
    RemarkObject { remark }
}

/// The objects without the first comma.
fn listed(objects: &str) -> &str
    ensures { result.now ≡ listed objects.now }
{
    match objects.strip_prefix(",") {
        Some(list) => list,
        None => "",
    }
}
