//! The line of a result.

ghost use Rattle.std.specs.Prelude.{◌≡◌, ◌++◌, OnOk};
ghost use Rattle.lapd_cli_conform.specs.Results.{frames_text, grade_word, known_grade, part_text, result_line, tail_by};

use std::alloc::AllocError;

/// The verdict on a case, or that it does not apply.
#[derive(Clone, Copy, Debug, PartialEq, Eq)]
pub enum Grade {
    /// The case passed.
    Pass,
    /// The case failed.
    Fail,
    /// The case failed, as is known.
    Known,
    /// Nothing was decided.
    Inconclusive,
    /// The case does not apply to the stack.
    NotApplicable,
}

impl Grade {
    /// The word of a result.
    pub fn word(self) -> &'static [u8]
        ensures { result.now ≡ grade_word self }
    {
        match self {
            Grade::Pass => b"pass",
            Grade::Fail => b"fail",
            Grade::Known => b"known",
            Grade::Inconclusive => b"inconclusive",
            Grade::NotApplicable => b"n/a",
        }
    }

    /// The grade of a case that is known to fail, or not: a fail that is known is none.
    pub fn if_known(self, is_known: bool) -> Grade
        ensures { result ≡ known_grade self is_known }
    {
        match self {
            Grade::Fail if is_known => Grade::Known,
            _ => self,
        }
    }
}

/// The result of a case, in words. A text that is empty is left out.
#[derive(Clone, Copy)]
pub struct CaseReport<'t> {
    /// The verdict.
    pub grade: Grade,
    /// The name of the case.
    pub name: &'t [u8],
    /// The title of the case.
    pub title: &'t [u8],
    /// The clauses of Q.921 that the case tests.
    pub clause: &'t [u8],
    /// The need of the case that the stack does not meet.
    pub needs: &'t [u8],
    /// Why the case failed, or nothing was decided; or that it passed and is known to fail.
    pub reason: &'t [u8],
    /// The frames that were expected.
    pub wanted: &'t [u8],
    /// The frame that was received.
    pub seen: &'t [u8],
    /// The text of a drawn case, with its line feeds.
    pub suite: &'t [u8],
}

/// Appends the line of a result, with its line feed: the verdict, the name and the title, and what
/// explains the verdict.
///
/// # Errors
///
/// An allocation failed. Part of the line may have been appended.
pub fn push_line(text: &mut Vec<u8>, report: &CaseReport<'_>) -> Result<(), AllocError>
    ensures { OnOk result (text.new.items ≡ text.old.items ++ result_line report.now) }
{
    text.extend_from_slice(report.grade.word())?;
    text.push(b' ')?;
    text.extend_from_slice(report.name)?;
    text.push(b' ')?;
    text.extend_from_slice(report.title)?;
    push_tail(text, report)?;
    text.push(b'\n')?;
    Ok(())
}

/// Appends what explains the verdict.
fn push_tail(text: &mut Vec<u8>, report: &CaseReport<'_>) -> Result<(), AllocError>
    ensures { OnOk result (text.new.items ≡ text.old.items ++ tail_by report.now.grade report.now) }
{
    match report.grade {
        Grade::Pass => push_part(text, b"", report.reason),
        Grade::NotApplicable => push_part(text, b"needs ", report.needs),
        Grade::Inconclusive => {
            push_part(text, b"", report.reason)?;
            push_frames(text, report)
        }
        Grade::Fail | Grade::Known => {
            push_part(text, b"", report.reason)?;
            push_part(text, b"clause ", report.clause)?;
            push_frames(text, report)
        }
    }
}

/// Appends the frames that were expected, and the one that was received.
fn push_frames(text: &mut Vec<u8>, report: &CaseReport<'_>) -> Result<(), AllocError>
    ensures { OnOk result (text.new.items ≡ text.old.items ++ frames_text report.now) }
{
    push_part(text, b"wanted ", report.wanted)?;
    push_part(text, b"seen ", report.seen)
}

/// Appends a part of a line after `; `, unless its value is empty.
fn push_part(text: &mut Vec<u8>, name: &[u8], value: &[u8]) -> Result<(), AllocError>
    ensures { OnOk result (text.new.items ≡ text.old.items ++ part_text name.now value.now) }
{
    if value.is_empty() {
        return Ok(());
    }
    text.extend_from_slice(b"; ")?;
    text.extend_from_slice(name)?;
    text.extend_from_slice(value)?;
    Ok(())
}
