ghost use Rattle.std.specs.Prelude.{◌++◌, Some};
ghost use Rattle.std.specs.Fmt.{DisplaysOnOk};
ghost use Rattle.lapd_follow.specs.Remarks.{class_of};
ghost use Rattle.lapd_follow.specs.Texts.{marked_text, noted_text, remark_text};

use crate::{Class, Remark};
use std::fmt;
use std::fmt::Display;

/// Writes a remark after the line of its frame; nothing if there is none.
#[inline(always)]
pub(crate) fn put_noted<W: fmt::Write>(
    remark: &Option<Remark>,
    f: &mut fmt::Formatter<W>,
) -> fmt::Result
    ensures { DisplaysOnOk W.write_str_gives f.old result (Some (noted_text remark.now)) f.new }
{
    match remark {
        None => Ok(()),
        Some(remark) => put_marked(remark, f),
    }
}

/// Writes a remark after a semicolon. A violation is marked.
#[inline(never)]
fn put_marked<W: fmt::Write>(remark: &Remark, f: &mut fmt::Formatter<W>) -> fmt::Result
    ensures { DisplaysOnOk W.write_str_gives f.old result
        (Some (marked_text (class_of remark.now) (remark_text remark.now))) f.new }
{
    match remark.class() {
        Class::Normal | Class::Recovery => put_after("; ", remark, f),
        Class::Violation => put_after("; violation: ", remark, f),
    }
}

/// Writes a remark after this mark.
fn put_after<W: fmt::Write>(mark: &str, remark: &Remark, f: &mut fmt::Formatter<W>) -> fmt::Result
    ensures { DisplaysOnOk W.write_str_gives f.old result
        (Some (mark.now ++ remark_text remark.now)) f.new }
{
    f.write_str(mark)?;
    remark.fmt(f)
}
