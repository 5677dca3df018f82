//! Rows: a dialogue of a side over time.
//!
//! Rows begin with `=== `. A row has a name, a line of words, and four texts, each ended by `---`:
//! the events ([`Arrivals`]), the lines of input, the output, and the reports to the surroundings
//! and to a person (`lines_printed` of [`Made`] and [`Reader`]). The last text may be left out. The
//! words:
//!
//! - `net`: the network side, which knows TEI 64, `bus`: this side with 127 connections, or `user`:
//!   a user side without a TEI; all at basic access with SAPI 16
//! - `file`: a script in a file, `pipe`: a script over a pipe, or `session`: lines that a person
//!   types
//! - `quiet`, `json`: the style; each line has its time
//! - `serve`: the side runs on after the end of the input
//! - how it ends: `done`, `unmet`, `bad N`, `device` or another fault

use crate::made::{Arrivals, Input, Made, Trouble};
use crate::typed::{Keys, Reader, Reads};
use lapd_cli_live::{
    LineStyle, LiveSide, LiveStop, Printer, Style, frames_of_step, live_script, live_session,
};
use lapd_cli_script::ScriptFault;
use lapd_sides::{Acts, Config, EitherSide, NetSide, Tei, UserSide};
use std::alloc::{AllocError, Global};
use std::test::Fail;

/// The side under test.
#[derive(Clone, Copy)]
pub(crate) enum Who {
    /// The network side, which knows TEI 64.
    Net,
    /// The same with 127 connections.
    Bus,
    /// A user side without a TEI.
    User,
}

/// A row.
#[derive(Clone, Copy)]
struct Row {
    name: &'static str,
    words: &'static str,
    events: &'static str,
    input: &'static str,
    printed: &'static str,
    lines_printed: &'static str,
}

/// The result of the lines of input, the surroundings afterwards, the output, and the reports to a
/// console.
#[derive(Drop)]
pub(crate) struct ScenarioRun<'s> {
    pub(crate) ended: Result<(), LiveStop>,
    pub(crate) made: Made<'s>,
    pub(crate) printed: Vec<u8>,
    lines_printed: String,
}

/// A side at basic access (Q.921 5.9).
fn side_of(alloc: Global, who: Who) -> Result<EitherSide, AllocError> {
    let config = Config {
        sapi16: true,
        ..Config::basic(921)
    };
    match who {
        Who::Net | Who::Bus => {
            let known = [Tei::new(64).unwrap_or(Tei::group())];
            Ok(EitherSide::Network(NetSide::new(alloc, config, &known)?))
        }
        Who::User => Ok(EitherSide::User(UserSide::new(alloc, config, None)?)),
    }
}

/// The number of this side's connections.
fn connections_of(who: Who) -> u8 {
    match who {
        Who::Bus => 127,
        Who::Net | Who::User => 1,
    }
}

/// This side in these surroundings, which prints into memory.
fn made_live<'s>(
    alloc: Global,
    who: Who,
    style: Style,
    made: Made<'s>,
) -> Result<LiveSide<Made<'s>, Vec<u8>>, AllocError> {
    let side = side_of(alloc, who)?;
    let acts = Acts::new(alloc)?;
    let printer = Printer::new(alloc, Vec::new(alloc), style);
    let most = frames_of_step(connections_of(who));
    Ok(LiveSide::new(alloc, side, acts, made, printer, most))
}

/// Executes a script on this side.
pub(crate) fn scenario<'s>(
    alloc: Global,
    who: Who,
    style: Style,
    made: Made<'s>,
    mut keys: Keys<'_>,
    serve_on: bool,
) -> Result<ScenarioRun<'s>, AllocError> {
    let live = made_live(alloc, who, style, made)?;
    let (ended, live) = live_script(alloc, live, &mut keys, serve_on);
    let (made, printed, _flushed) = live.into_parts();
    Ok(ScenarioRun {
        ended,
        made,
        printed,
        lines_printed: String::new(alloc),
    })
}

/// Runs a session on this side.
pub(crate) fn hold<'s>(
    alloc: Global,
    who: Who,
    style: Style,
    made: Made<'s>,
    mut keys: Keys<'_>,
    serve_on: bool,
) -> Result<ScenarioRun<'s>, AllocError> {
    let live = made_live(alloc, who, style, made)?;
    let mut reader = Reader::new(alloc);
    let (ended, live) = live_session(alloc, live, &mut keys, &mut reader, serve_on);
    let (made, printed, _flushed) = live.into_parts();
    Ok(ScenarioRun {
        ended,
        made,
        printed,
        lines_printed: reader.lines_printed,
    })
}

/// Whether a word is among these.
fn has(words: &str, word: &str) -> bool {
    words.split(' ').any(|other| other == word)
}

/// Runs a row.
fn run_row<'s>(alloc: Global, row: &Row, reads: &'s Reads) -> Result<ScenarioRun<'s>, AllocError> {
    let who = if has(row.words, "net") {
        Who::Net
    } else if has(row.words, "bus") {
        Who::Bus
    } else {
        Who::User
    };
    let style = Style {
        time: true,
        quiet: has(row.words, "quiet"),
        lines: if has(row.words, "json") {
            LineStyle::Json
        } else {
            LineStyle::Text
        },
    };
    let input = if has(row.words, "file") {
        Input::File
    } else {
        Input::Typed(reads)
    };
    let arrivals = Arrivals {
        events: row.events,
        answers: "",
    };
    let made = Made::new(alloc, arrivals, input, Trouble::Never);
    let keys = Keys::new(row.input, reads);
    let serve_on = has(row.words, "serve");
    if has(row.words, "session") {
        hold(alloc, who, style, made, keys, serve_on)
    } else {
        scenario(alloc, who, style, made, keys, serve_on)
    }
}

/// The word for the result of the lines of input.
fn end_text(alloc: Global, ended: Result<(), LiveStop>) -> Result<String, AllocError> {
    match ended {
        Ok(()) => format!(in alloc; "done"),
        Err(LiveStop::Unmet) => format!(in alloc; "unmet"),
        Err(LiveStop::Script(ScriptFault::BadLine(number))) => { format!(in alloc; "bad {number}") }
        Err(LiveStop::Script(ScriptFault::Device)) => format!(in alloc; "device"),
        Err(LiveStop::Script(fault)) => format!(in alloc; "{fault}"),
    }
}

/// Reads a row, which begins after its mark.
fn row_of(text: &'static str) -> Option<Row> {
    let (name, behind) = text.split_once('\n')?;
    let (words, behind) = behind.split_once('\n')?;
    let (events, behind) = behind.split_once("---\n")?;
    let (input, behind) = behind.split_once("---\n")?;
    let (printed, lines_printed) = behind.split_once("---\n").unwrap_or((behind, ""));
    Some(Row {
        name,
        words,
        events,
        input,
        printed,
        lines_printed,
    })
}

/// The reports to a person and to the surroundings.
fn printed_text(alloc: Global, scenario_run: &ScenarioRun<'_>) -> Result<String, AllocError> {
    let mut text = String::new(alloc);
    text.push_str(scenario_run.lines_printed.as_str())?;
    text.push_str(scenario_run.made.lines_printed.as_str())?;
    Ok(text)
}

/// The difference from the row, if there is one.
fn other_than(
    alloc: Global,
    row: &Row,
    scenario_run: &ScenarioRun<'_>,
) -> Result<Option<String>, AllocError> {
    let printed = String::from_utf8_lossy(alloc, scenario_run.printed.as_slice())?;
    let printed = printed.as_str();
    if printed != row.printed {
        return Ok(Some(format!(in alloc; "it prints\n{printed}")?));
    }
    let lines_printed = printed_text(alloc, scenario_run)?;
    let lines_printed = lines_printed.as_str();
    if lines_printed != row.lines_printed {
        return Ok(Some(format!(in alloc; "it reports\n{lines_printed}")?));
    }
    let end = end_text(alloc, scenario_run.ended)?;
    let end = end.as_str();
    if !row.words.ends_with(end) {
        return Ok(Some(format!(in alloc; "it ends {end}")?));
    }
    Ok(None)
}

/// Runs a row, and returns what differs from it.
fn difference<'s>(
    alloc: Global,
    row: &Row,
    reads: &'s Reads,
) -> Result<Option<String>, AllocError> {
    let scenario_run = run_row(alloc, row, reads)?;
    other_than(alloc, row, &scenario_run)
}

/// Fails if this row differs.
fn holds(alloc: Global, row: &Row) -> Result<(), Fail> {
    let reads = Reads::new();
    match difference(alloc, row, &reads)? {
        Some(differs) => {
            let name = row.name;
            Err(Fail::new(format_args!("{name}: {differs}")))
        }
        None => Ok(()),
    }
}

/// Fails at the first of these rows that differs.
pub(crate) fn all_rows(alloc: Global, rows: &'static str) -> Result<(), Fail> {
    for text in rows.split("=== ").skip(1) {
        let Some(row) = row_of(text) else {
            return Err(Fail::new(format_args!("not a row: {text}")));
        };
        holds(alloc, &row)?;
    }
    Ok(())
}
