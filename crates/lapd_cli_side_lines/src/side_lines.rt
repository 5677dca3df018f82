//! The request lines of `net` and `user`.

ghost use Rattle.std.specs.Prelude.{◌≡◌};
ghost use Rattle.lapd_cli_script.specs.Line.{Reads};
ghost use Rattle.lapd_cli_grammar.specs.Values.{line_values};
ghost use Rattle.lapd_cli_side_lines.specs.LineRequests.{line_request_of, link_of as link_named, link_request as request_of_link, request_of, request_of_line, script_of as script_named, script_request, side_request as request_of_side};

use lapd_cli_grammar::{FormedLine, Script, Values, read_form};
use lapd_cli_script::LineFault;
use lapd_frame::{Side, Tei};
use lapd_sides::{LinkId, Request};
use std::alloc::Global;

/// The request of a line of a side's script.
#[derive(Drop)]
pub enum SideLine {
    /// Read one frame from the port, and pass it to the side.
    Read,
    /// Advance the clock by this many milliseconds, 1 to 3,600,000, and expire each timer that is
    /// then due.
    Tick(u64),
    /// Make this request of the side.
    Ask(Request),
}

/// Parses a line of this side's script.
///
/// # Errors
///
/// `Bad` if the line is not a valid line of this side, and `Memory` if an allocation fails.
pub fn read_line(alloc: Global, side: Side, line: &[u8]) -> Result<SideLine, LineFault>
    ensures { Reads request_of result (request_of_line side line.now) }
{
    let line = read_form(alloc, script_of(side), line)?;
    script_line(line)
}

/// The script with the lines of this side.
fn script_of(side: Side) -> Script
    ensures { result ≡ script_named side }
{
    match side {
        Side::Network => Script::Net,
        Side::User => Script::User,
    }
}

/// The request of a line of a script.
fn script_line(line: FormedLine<'_>) -> Result<SideLine, LineFault>
    ensures { Reads request_of result (script_request
        (line.entry.word.now, line_values line.entry.values)) }
{
    let FormedLine { word, values } = line;
    if word == b"read".as_slice() {
        Ok(SideLine::Read)
    } else if word == b"tick".as_slice() {
        match values.ms {
            Some(ms) => Ok(SideLine::Tick(ms)),
            None => Err(LineFault::Bad),
        }
    } else {
        Ok(SideLine::Ask(side_request(Tei::group(), word, values)?))
    }
}

/// The request of the side in a line with this first word and these values, with either clock. The
/// link of a line that names the SAPI alone has the TEI `own`.
///
/// # Errors
///
/// `Bad` if the word requests nothing of a side, or a value is missing.
pub fn side_request(own: Tei, word: &[u8], values: Values<'_>) -> Result<Request, LineFault>
    ensures { Reads line_request_of result (request_of_side own word.now (line_values values.entry)) }
{
    if word == b"ask".as_slice() {
        Ok(Request::AskTei)
    } else if word == b"check".as_slice() {
        Ok(Request::Check(tei_of(&values)?))
    } else if word == b"remove".as_slice() {
        Ok(Request::Remove(tei_of(&values)?))
    } else if word == b"check-all".as_slice() {
        Ok(Request::CheckAll)
    } else if word == b"remove-all".as_slice() {
        Ok(Request::RemoveAll)
    } else {
        match link_of(own, &values) {
            Some(id) => link_request(word, values, id),
            None => Err(LineFault::Bad),
        }
    }
}

/// The TEI that a line names.
fn tei_of(values: &Values<'_>) -> Result<Tei, LineFault>
    ensures { Reads (λ tei. tei) result values.now.tei }
{
    match values.tei {
        Some(tei) => Ok(tei),
        None => Err(LineFault::Bad),
    }
}

/// The link that a line names. If it names the SAPI alone, the link has the TEI `own`. `None` if it
/// names no SAPI.
pub fn link_of(own: Tei, values: &Values<'_>) -> Option<LinkId>
    ensures { result ≡ link_named own (line_values values.now) }
{
    let sapi = values.sapi?;
    let tei = values.tei.unwrap_or(own);
    Some(LinkId { sapi, tei })
}

/// The request of this link.
fn link_request(word: &[u8], values: Values<'_>, id: LinkId) -> Result<Request, LineFault>
    ensures { Reads line_request_of result (request_of_link word.now (line_values values.entry) id) }
{
    if word == b"establish".as_slice() {
        Ok(Request::Establish(id))
    } else if word == b"release".as_slice() {
        Ok(Request::Release(id))
    } else if word == b"give".as_slice() {
        Ok(Request::Give(id, values.octets))
    } else if word == b"unit".as_slice() {
        Ok(Request::Unit(id, values.octets))
    } else if word == b"busy".as_slice() {
        Ok(Request::Busy(id, values.on))
    } else {
        Err(LineFault::Bad)
    }
}
