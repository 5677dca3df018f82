//! The lines of a side that is served with the real clock.

ghost use Rattle.std.specs.Prelude.{◌≡◌};
ghost use Rattle.lapd_cli_script.specs.Line.{Reads};
ghost use Rattle.lapd_cli_grammar.specs.Values.{line_values};
ghost use Rattle.lapd_cli_live_text.specs.LiveRequests.{live_request, live_request_of, live_request_of_line, live_script_of as live_script_named};

use lapd_cli_grammar::{FormedLine, Script, read_form};
use lapd_cli_script::LineFault;
use lapd_cli_side_lines::{link_of, side_request};
use lapd_cli_wire::Impairment;
use lapd_frame::{Side, Tei};
use lapd_sides::{LinkId, Request};
use std::alloc::Global;

/// The request of a line.
#[derive(Drop)]
pub enum LiveLine<'l> {
    /// Serve the side until the next frame is received, for so many milliseconds at most, 1 to
    /// 3,600,000.
    Read(Option<u64>),
    /// Serve the side for so many milliseconds, 1 to 3,600,000, or until the connection is closed.
    Run(Option<u64>),
    /// Serve the side until a line is printed that begins with these words, for so many
    /// milliseconds at most, 1 to 3,600,000. The words are UTF-8, at least an octet.
    Expect(&'l [u8], u64),
    /// Print the state of a link, or of each.
    State(Option<LinkId>),
    /// Print the statistics.
    Stats,
    /// Pass a request to the side.
    Ask(Request),
    /// Lose and delay frames that are sent.
    Impair(Impairment),
}

/// Reads what a line of this side requests. Links of the user side have the TEI `own`, and its
/// lines name no TEI.
///
/// # Errors
///
/// `Bad` if the line is not a line of this side, `Memory` if an allocation fails.
pub fn read_live_line<'l>(
    alloc: Global,
    side: Side,
    own: Tei,
    line: &'l [u8],
) -> Result<LiveLine<'l>, LineFault>
    ensures { Reads live_request_of result (live_request_of_line side own line.now) }
{
    let line = read_form(alloc, live_script_of(side), line)?;
    live_line(own, line)
}

/// The script with the lines of this side.
fn live_script_of(side: Side) -> Script
    ensures { result ≡ live_script_named side }
{
    match side {
        Side::Network => Script::LiveNet,
        Side::User => Script::LiveUser,
    }
}

/// The request of a line that has a form.
fn live_line<'l>(own: Tei, line: FormedLine<'l>) -> Result<LiveLine<'l>, LineFault>
    ensures { Reads live_request_of result (live_request own
        (line.entry.word.now, line_values line.entry.values)) }
{
    let FormedLine { word, values } = line;
    if word == b"read".as_slice() {
        Ok(LiveLine::Read(values.ms))
    } else if word == b"run".as_slice() || word == b"wait".as_slice() {
        Ok(LiveLine::Run(values.ms))
    } else if word == b"expect".as_slice() {
        match values.ms {
            Some(ms) => Ok(LiveLine::Expect(values.text, ms)),
            None => Err(LineFault::Bad),
        }
    } else if word == b"state".as_slice() {
        Ok(LiveLine::State(link_of(own, &values)))
    } else if word == b"stats".as_slice() {
        Ok(LiveLine::Stats)
    } else if word == b"impair".as_slice() {
        let (loss, delay) = (values.loss, values.delay);
        Ok(LiveLine::Impair(Impairment { loss, delay }))
    } else {
        Ok(LiveLine::Ask(side_request(own, word, values)?))
    }
}
