//! Running a scenario.

use crate::CommandWords;
use crate::commands::Commands;
use crate::scenario::{Console, Line, Scenario, mark_of};
use lapd_cli_console::{RecentLines, Refusals, Watched};
use lapd_cli_script::ScriptFault;
use lapd_port::{FromRead, FromWrite, Port, PortFault, Sink, Source};
use std::alloc::{AllocError, Global};
use std::net::TcpStream;

/// How to run a scenario.
#[derive(Clone, Copy)]
pub enum Trial<'a> {
    /// With a port of its own.
    Alone,
    /// With a port of its own, and then each of its prefixes.
    Fronts,
    /// With a port that reads from one stream and writes to another.
    Over(&'a TcpStream, &'a TcpStream),
}

/// Whether a scenario runs as written, as the command of the words on its first line.
pub fn row_passes<C: Commands>(alloc: Global, commands: &C, row: &str, trial: Trial<'_>) -> bool {
    let (words, scenario) = row.split_once('\n').unwrap_or((row, ""));
    words_pass(alloc, commands, CommandWords(words), scenario, trial)
}

/// Whether a scenario runs as written, as the command of these words.
pub(crate) fn words_pass<C: Commands>(
    alloc: Global,
    commands: &C,
    words: CommandWords<'_>,
    scenario: &str,
    trial: Trial<'_>,
) -> bool {
    match filled(alloc, scenario) {
        Ok(scenario) => is_tried(alloc, (commands, words), scenario.as_str(), trial),
        Err(_) => false,
    }
}

/// Names of repeated texts, with the number of repetitions: 260 octets of information, and calls
/// that are interrupted or move nothing.
const REPEATED: &[(&str, &str, usize)] = &[
    ("MOST", "aa", 260),
    ("TURNS", "<%", 4091),
    ("WRITES", ">%", 4086),
    ("NOTHING", ">", 4096),
];

/// A scenario with these texts in place of their names.
fn filled(alloc: Global, scenario: &str) -> Result<String, AllocError> {
    let mut filled = format!(in alloc; "{scenario}\n")?;
    for (name, text, count) in REPEATED {
        let text = text.repeat(alloc, *count)?;
        filled = filled.replace(alloc, *name, text.as_str())?;
    }
    Ok(filled)
}

/// The commands, and the words that choose one of them.
type Chosen<'a, C> = (&'a C, CommandWords<'a>);

fn is_tried<C: Commands>(
    alloc: Global,
    chosen: Chosen<'_, C>,
    scenario: &str,
    trial: Trial<'_>,
) -> bool {
    match trial {
        Trial::Alone => passes(alloc, chosen, scenario, &[1, 2, 7, 512]),
        Trial::Fronts => {
            passes(alloc, chosen, scenario, &[1, 2, 7, 512]) && fronts_pass(alloc, chosen, scenario)
        }
        Trial::Over(from, to) => {
            let port = Port::new(FromRead::new(from), FromWrite::new(to));
            passes_over(alloc, chosen, &Scenario::new(scenario, 512), port)
        }
    }
}

/// Whether a scenario runs as written with each of these numbers as the most octets per call.
fn passes<C: Commands>(
    alloc: Global,
    chosen: Chosen<'_, C>,
    scenario: &str,
    numbers: &[usize],
) -> bool {
    for most in numbers {
        let scenario = Scenario::new(scenario, *most);
        let port = Port::new(
            FromRead::new(Line(&scenario)),
            FromWrite::new(Line(&scenario)),
        );
        if !passes_over(alloc, chosen, &scenario, port) {
            return false;
        }
    }
    true
}

fn fronts_pass<C: Commands>(alloc: Global, chosen: Chosen<'_, C>, scenario: &str) -> bool {
    for place in 0..scenario.len() {
        if !front_passes(alloc, chosen, scenario, place) {
            return false;
        }
    }
    true
}

/// Whether a scenario runs as written with this port. The reader and the writer are wrapped as in
/// the program.
fn passes_over<C: Commands, S: Source + Drop, K: Sink + Drop>(
    alloc: Global,
    chosen: Chosen<'_, C>,
    scenario: &Scenario<'_>,
    port: Port<S, K>,
) -> bool {
    let (commands, words) = chosen;
    let mut script = RecentLines::new(Console(scenario));
    let mut out = Watched::new(Refusals::new(Console(scenario), true));
    let (ended, mut port) = commands.run(alloc, words, &mut script, &mut out, port);
    let fault = script.fault().or(out.fault());
    let is_failed = match ended {
        Err(ScriptFault::Port(fault)) => has_failed(&mut port, fault),
        _ => true,
    };
    is_failed && fault == scenario.fault.get() && scenario.ends(alloc, ended)
}

/// Whether a port has failed, and its streams have failed exactly if the fault says so.
fn has_failed<S: Source, K: Sink>(port: &mut Port<S, K>, fault: PortFault) -> bool {
    let failures = port
        .source()
        .failures()
        .saturating_add(port.sink().failures());
    let read = port.read_frame(&mut [0; 264]);
    let written = port.write_frame(&[0; 3]);
    failures == u64::from(fault == PortFault::Device)
        && read == Err(PortFault::Failed)
        && written == Err(PortFault::Failed)
}

/// Whether a prefix of a scenario runs as written if the call after it fails, or if the port's
/// input ends within a frame.
fn front_passes<C: Commands>(
    alloc: Global,
    chosen: Chosen<'_, C>,
    scenario: &str,
    place: usize,
) -> bool {
    let (front, rest) = scenario.split_at_checked(place).unwrap_or((scenario, ""));
    let begun = front.rsplit('\n').next().unwrap_or(front);
    let line = scenario
        .get(place.saturating_sub(begun.len())..)
        .unwrap_or("");
    let behind = match mark_of(line.as_bytes()) {
        b"" => "*",
        b"    " if begun.len() > 3 => "*",
        b"<" if is_within(begun, rest) => "<*",
        b">" if is_within(begun, rest) => ">*",
        _ => return true,
    };
    let is_cut = behind == "<*" && !begun.is_empty();
    let is_reported = behind != "*" && chosen.1.command() != "loop";
    let (fault, cut) = if is_reported {
        ("port S4 Device", "port S3 Cut")
    } else {
        ("device fault", "device fault")
    };
    ends_by(alloc, chosen, front, behind, fault)
        && (!is_cut || ends_by(alloc, chosen, front, "<", cut))
}

/// Whether this prefix of a port's line ends after an octet that is not the last, or is empty.
fn is_within(begun: &str, rest: &str) -> bool {
    let digits = begun.rsplit(['<', '>']).next().unwrap_or("");
    let is_whole = digits.len() % 2 == 0 && !digits.is_empty() && !rest.starts_with('\n');
    begun.is_empty() || is_whole
}

/// Whether a prefix of a scenario runs as written, followed by `behind`, and ends with this fault.
fn ends_by<C: Commands>(
    alloc: Global,
    chosen: Chosen<'_, C>,
    front: &str,
    behind: &str,
    fault: &str,
) -> bool {
    match format!(in alloc; "{front}{behind}\n! {fault}\n") {
        Ok(scenario) if behind == "*" => passes(alloc, chosen, scenario.as_str(), &[512]),
        Ok(scenario) => passes(alloc, chosen, scenario.as_str(), &[1, 512]),
        Err(_) => false,
    }
}
