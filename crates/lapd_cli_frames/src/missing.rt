//! Frames that a record lacks.

ghost use Rattle.std.specs.Prelude.{◌≡◌, Some, IfOk};
ghost use Rattle.std.specs.String.{string_bytes};
ghost use Rattle.lapd_cli_frames.specs.Missing.{missing_by, missing_object, missing_text, missing_words};
ghost use Rattle.lapd_cli_frames.specs.Remarked.{RemarkedEnds};
ghost use Rattle.lapd_cli_page.specs.Row.{missing_row};

use crate::drawn::put_text;
use crate::frame_style::{Drawing, Layout};
use crate::style::Style;
use lapd_cli_page::push_missing_row;
use lapd_cli_script::{LineFault, put_line};
use std::alloc::{AllocError, Global};
use std::fmt;
use std::io::Write;

/// How many frames a record lacks, shown in words, such as `2 frames are missing here`.
#[derive(Clone, Copy, Debug, PartialEq, Eq)]
pub struct Missing {
    /// Their number.
    pub count: u64,
}

impl fmt::Display for Missing {
    ghost output = { λ missing. Some (missing_words missing.count) };

    fn fmt<W: fmt::Write>(&self, f: &mut fmt::Formatter<W>) -> fmt::Result {
        let count = self.count;
        if count == 1 {
            write!(f, "1 frame is missing here")
        } else {
            write!(f, "{count} frames are missing here")
        }
    }
}

/// Prints how many frames are missing here as a line, or as a row of a page; nothing in a
/// picture or a pcap file, which have no place for it.
///
/// # Errors
///
/// `Memory` if an allocation fails, before anything is printed; `Device` if the writer fails.
pub(crate) fn put_missing<W: Write>(
    alloc: Global,
    layout: Layout,
    style: Style,
    count: u64,
    out: &mut W,
) -> Result<(), LineFault>
    ensures { RemarkedEnds (missing_by layout style count) result (W.contents out.old)
        (W.contents out.new) }
{
    match layout {
        Layout::Lines | Layout::Drawn(Drawing::Ladder) => put_missing_line(
            alloc, style, count, out,
        ),
        Layout::Drawn(Drawing::Page) => put_missing_row(alloc, count, out),
        Layout::Drawn(Drawing::Picture | Drawing::Records) => Ok(()),
    }
}

/// Prints how many frames are missing here as a row of a page.
fn put_missing_row<W: Write>(alloc: Global, count: u64, out: &mut W) -> Result<(), LineFault>
    ensures { RemarkedEnds (missing_row count) result (W.contents out.old) (W.contents out.new) }
{
    let mut row = Vec::new(alloc);
    let Ok(()) = push_missing_row(alloc, &mut row, count) else {
        return Err(LineFault::Memory);
    };
    put_text(row.as_slice(), out)
}

/// Prints how many frames are missing here as a line.
fn put_missing_line<W: Write>(
    alloc: Global,
    style: Style,
    count: u64,
    out: &mut W,
) -> Result<(), LineFault>
    ensures { RemarkedEnds (missing_by Layout.Lines style count) result (W.contents out.old)
        (W.contents out.new) }
{
    let Ok(line) = missing_text(alloc, style, count) else {
        return Err(LineFault::Memory);
    };
    put_line(line.as_bytes(), &[], out)
}

/// This many frames are missing, in words or as an object.
fn missing_text(alloc: Global, style: Style, count: u64) -> Result<String, AllocError>
    ensures { IfOk result (λ text. string_bytes text ≡ missing_text style count) }
{
    match style {
        Style::Plain | Style::Named | Style::Brief => {
            let missing = Missing { count };
            format!(in alloc; "{missing}")
        }
        Style::Json | Style::NamedJson => format!(in alloc; "{{\"missing\":{count}}}"),
    }
}
