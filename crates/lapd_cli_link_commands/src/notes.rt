//! The output of a line, as notes of a ladder.

ghost use Rattle.std.specs.Prelude.{◌≡◌, ◌++◌, OnOk};
ghost use Rattle.lapd_cli_link_commands.specs.PairLadder.{noted_line, notes_in};

use lapd_cli_ladder::push_note;
use lapd_cli_script::first_line;
use std::alloc::{AllocError, Global};

/// Appends the lines of a text as notes, except trace lines.
#[tactic(auto, using(crate::proofs::NotedLines::notes_cut, crate::proofs::NotedLines::notes_whole))]
pub(crate) fn push_notes(alloc: Global, drawn: &mut Vec<u8>, text: &[u8]) -> Result<(), AllocError>
    ensures { OnOk result (drawn.new.items ≡ drawn.old.items ++ notes_in text.now) }
{
    let mut rest = text;
    while let Some((line, behind)) = first_line(rest) {
        push_noted(alloc, drawn, line)?;
        rest = behind;
    }
    push_noted(alloc, drawn, rest)
}

/// Appends a line as a note, unless it is empty or a trace line.
fn push_noted(alloc: Global, drawn: &mut Vec<u8>, line: &[u8]) -> Result<(), AllocError>
    ensures { OnOk result (drawn.new.items ≡ drawn.old.items ++ noted_line line.now) }
{
    match line {
        [] | [b'U' | b'N', ..] => Ok(()),
        words => push_note(alloc, drawn, 0, words),
    }
}
