//! Colors of printed lines, by the escape sequences of terminals (ECMA-48 8.3.117).

ghost use Rattle.std.specs.Prelude.{◌≡◌, ◌++◌, true, IfOk, OnOk};
ghost use Rattle.std.specs.String.{string_bytes};
ghost use Rattle.lapd_cli_script.specs.Line.{text_line};
ghost use Rattle.lapd_cli_frames.specs.Color.{color_end, color_of, color_of_sender, colored};
ghost use Rattle.lapd_cli_frames.specs.Frames.{said_if};
ghost use Rattle.lapd_cli_frames.specs.Remarked.{RemarkedEnds, remarked};
ghost use Rattle.lapd_cli_frames.specs.declared.style.Style.TheVariants.{Plain};

use crate::remarked::put_frame;
use crate::style::Style;
use lapd_cli_ladder::said_beside;
use lapd_cli_script::{LineFault, put_line};
use lapd_follow::Remarks;
use lapd_frame::Side;
use std::alloc::{AllocError, Global};
use std::io::Write;

/// The color of lines again that have none.
const END: &str = "\x1b[0m";

/// Prints the text of a frame as one line, with the remarks on it if its link is followed, and in
/// the color of its sender or of a violation if colors are requested.
///
/// # Errors
///
/// `Memory` if an allocation fails, before anything is printed; `Device` if the writer fails.
pub(crate) fn put_colored<W: Write>(
    alloc: Global,
    is_colored: bool,
    style: Style,
    from: Option<Side>,
    text: &mut String,
    is_followed: bool,
    said: &Remarks,
    out: &mut W,
) -> Result<(), LineFault>
    ensures { RemarkedEnds (text_line (colored is_colored style
        (color_of from (said_if is_followed said.now))
        (remarked style (said_if is_followed said.now) (string_bytes text.old)))) result
        (W.contents out.old) (W.contents out.new) }
{
    if is_colored {
        put_in_colors(alloc, style, from, text, is_followed, said, out)
    } else {
        put_frame(alloc, style, text, is_followed, said, out)
    }
}

/// The same with colors. It is not inlined, so that its copy of the remarks takes no time without.
#[inline(never)]
#[tactic(auto, using(crate::proofs::Colored::named_beside, crate::proofs::Colored::brief_beside))]
fn put_in_colors<W: Write>(
    alloc: Global,
    style: Style,
    from: Option<Side>,
    text: &mut String,
    is_followed: bool,
    said: &Remarks,
    out: &mut W,
) -> Result<(), LineFault>
    ensures { RemarkedEnds (text_line (colored true style
        (color_of from (said_if is_followed said.now))
        (remarked style (said_if is_followed said.now) (string_bytes text.old)))) result
        (W.contents out.old) (W.contents out.new) }
{
    let color = color_of(from, is_followed, said);
    match style {
        Style::Plain => put_in_color(alloc, color, text.as_str(), is_followed, said, out),
        Style::Named | Style::Brief => {
            let said = said_beside(true, said);
            put_in_color(alloc, color, text.as_str(), is_followed, &said, out)
        }
        Style::Json | Style::NamedJson => put_frame(alloc, style, text, is_followed, said, out),
    }
}

/// Prints a line in this color.
fn put_in_color<W: Write>(
    alloc: Global,
    color: &str,
    text: &str,
    is_followed: bool,
    said: &Remarks,
    out: &mut W,
) -> Result<(), LineFault>
    ensures { RemarkedEnds (text_line (color.now
        ++ (remarked Plain (said_if is_followed said.now) text.now ++ color_end))) result
        (W.contents out.old) (W.contents out.new) }
{
    let Ok(line) = line_in_color(alloc, color, text, is_followed, said) else {
        return Err(LineFault::Memory);
    };
    put_line(line.as_bytes(), &[], out)
}

/// The line in this color.
fn line_in_color(
    alloc: Global,
    color: &str,
    text: &str,
    is_followed: bool,
    said: &Remarks,
) -> Result<String, AllocError>
    ensures { IfOk result (λ line. string_bytes line
        ≡ color.now ++ (remarked Plain (said_if is_followed said.now) text.now ++ color_end)) }
{
    let mut line = String::new(alloc);
    line.push_str(color)?;
    push_remarked(&mut line, text, is_followed, said)?;
    line.push_str(END)?;
    Ok(line)
}

/// Appends a text with the remarks on it, if links are followed.
fn push_remarked(
    line: &mut String,
    text: &str,
    is_followed: bool,
    said: &Remarks,
) -> Result<(), AllocError>
    ensures { OnOk result (string_bytes line.new
        ≡ string_bytes line.old ++ remarked Plain (said_if is_followed said.now) text.now) }
{
    if is_followed {
        write!(line, "{text}{said}")
    } else {
        line.push_str(text)
    }
}

/// The color of a line with these remarks, if links are followed.
fn color_of(from: Option<Side>, is_followed: bool, said: &Remarks) -> &'static str
    ensures { result.now ≡ color_of from (said_if is_followed said.now) }
{
    if is_followed && said.has_violation() {
        "\x1b[31m"
    } else {
        color_of_sender(from)
    }
}

/// The color of the lines of a sender.
fn color_of_sender(from: Option<Side>) -> &'static str
    ensures { result.now ≡ color_of_sender from }
{
    match from {
        Some(Side::User) => "\x1b[36m",
        Some(Side::Network) => "\x1b[32m",
        None => "\x1b[33m",
    }
}
