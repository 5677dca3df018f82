//! The lines of the script.

use lapd_bus::Station;
use lapd_cli_grammar::{FormedLine, Script, Values, read_form};
use lapd_cli_script::LineFault;
use lapd_cli_side_lines::side_request;
use lapd_sides::{Request, Tei};
use std::alloc::Global;

/// The meaning of a line of the script.
#[derive(Drop)]
pub(crate) enum BusLine {
    /// The side takes the first octets in transit to it.
    Take(Station),
    /// The octets in transit to the side at this place, from 0, are lost.
    Lose(Station, usize),
    /// Octets are delivered until none are in transit.
    Settle,
    /// The clock advances by this many milliseconds, 1 to 3,600,000.
    Tick(u64),
    /// The side executes this request.
    Ask(Station, Request),
    /// A new terminal with this fixed TEI, or with none, replaces the terminal at this index.
    Join(usize, Option<Tei>),
    /// The network side restarts.
    Restart(Known),
}

/// The TEIs that a new network side knows.
#[derive(Clone, Copy)]
pub(crate) enum Known {
    /// No TEI.
    Nothing,
    /// All TEIs that the network side before it held.
    Held,
}

/// Parses a line of the script.
///
/// # Errors
///
/// `Bad` if the line is not valid, and `Memory` if an allocation fails.
pub(crate) fn read_line(alloc: Global, line: &[u8]) -> Result<BusLine, LineFault> {
    let FormedLine { word, values } = read_form(alloc, Script::BusLinks, line)?;
    match move_named(word, &values) {
        Some(line) => Ok(line),
        None => request_named(word, values),
    }
}

/// The line of this word, unless it makes a request of a side.
fn move_named(word: &[u8], values: &Values<'_>) -> Option<BusLine> {
    if word == b"settle".as_slice() {
        Some(BusLine::Settle)
    } else if word == b"tick".as_slice() {
        Some(BusLine::Tick(values.ms?))
    } else if word == b"join".as_slice() {
        Some(BusLine::Join(terminal_of(values)?, values.tei))
    } else if word == b"restart".as_slice() {
        Some(BusLine::Restart(Known::Nothing))
    } else if word == b"restart-known".as_slice() {
        Some(BusLine::Restart(Known::Held))
    } else {
        transit_named(word, values)
    }
}

/// The line of this word, if a side takes or loses octets.
fn transit_named(word: &[u8], values: &Values<'_>) -> Option<BusLine> {
    let at = terminal_of(values)?;
    if word == b"take".as_slice() {
        Some(BusLine::Take(Station::Terminal(at)))
    } else if word == b"take-up".as_slice() {
        Some(BusLine::Take(Station::Network(at)))
    } else if word == b"lose".as_slice() {
        Some(BusLine::Lose(Station::Terminal(at), values.place? as usize))
    } else if word == b"lose-up".as_slice() {
        Some(BusLine::Lose(Station::Network(at), values.place? as usize))
    } else {
        None
    }
}

/// The index of the terminal that a line names.
fn terminal_of(values: &Values<'_>) -> Option<usize> {
    Some(values.terminal? as usize)
}

/// The line of this word, which makes a request of a side. A terminal ignores the TEI of a link.
///
/// # Errors
///
/// `Bad` if the word requests nothing, or a value is missing.
fn request_named(word: &[u8], values: Values<'_>) -> Result<BusLine, LineFault> {
    let station = station_of(&values);
    Ok(BusLine::Ask(station, side_request(Tei::group(), word, values)?))
}

/// The side that a line names: a terminal, or else the network side.
fn station_of(values: &Values<'_>) -> Station {
    match terminal_of(values) {
        Some(at) => Station::Terminal(at),
        None => NETWORK,
    }
}

/// The network side, by the line of the first terminal.
pub(crate) const NETWORK: Station = Station::Network(0);
