//! A side and its calls, with their results as text.

ghost use Rattle.std.specs.Prelude.{◌≡◌, ◌<◌, IfOk};
ghost use Rattle.std.specs.List.{All};

use crate::shows::put_readers;
use crate::text::{number_of, numbers_of, put_octets, put_refused};
use lapd_sides::{
    Acts, Config, Durations, EitherSide, LinkId, NetSide, Params, Request, Sapi, SideFault, Tei,
    UserSide,
};
use lapd_test_text::{Text, split};
use std::alloc::{AllocError, Global};

/// A side, and the results of its last call.
#[derive(Drop)]
pub(crate) struct Talk {
    alloc: Global,
    pub(crate) side: EitherSide,
    pub(crate) acts: Acts,
}

/// A window of 7, N200 = 3, and a queue of 64 messages; the values of basic access if a number were
/// out of range.
pub(crate) fn params() -> Params {
    Params::new(7, 3, 64).unwrap_or(Params::basic(Sapi::Call))
}

/// The configuration that these words describe: basic access, standard durations, and the seed 921.
/// `packets` serves SAPI 16 too. `fast`, for the comparison with a pair, sets T200 to a millisecond
/// and T203 to an hour.
fn config_of(words: &str) -> Config {
    let mut config = Config {
        sapi16: words.contains("packets"),
        ..Config::basic(921)
    };
    if words.contains("fast") {
        config.params0 = params();
        config.durations = Durations::new(1, 1_000, 2_000, 3_600_000).unwrap_or(
            Durations::standard(),
        );
    }
    config
}

/// The TEI with this number, 0 to 126.
pub(crate) fn tei(number: u8) -> Tei
    requires { number < 127 }
    ensures { result ≡ number }
{
    Tei::new(number).unwrap()
}

/// Every TEI that a link can have.
fn every_tei(alloc: Global) -> Result<Vec<Tei>, AllocError>
    ensures { IfOk result (λ known. All (λ tei. tei < 127) known.items) }
{
    let mut known = Vec::new(alloc);
    for number in 0..127 {
        known.push(tei(number))?;
    }
    Ok(known)
}

/// A network side that knows all TEIs, TEI 64 (passed twice), or none.
fn network_side(alloc: Global, words: &str) -> Result<NetSide, AllocError> {
    let config = config_of(words);
    if words.contains("all") {
        NetSide::new(alloc, config, every_tei(alloc)?.as_slice())
    } else if words.contains("64") {
        NetSide::new(alloc, config, &[tei(64), tei(64)])
    } else {
        NetSide::new(alloc, config, &[])
    }
}

/// A user side with TEI 64, or without a TEI.
fn user_side(alloc: Global, words: &str) -> Result<UserSide, AllocError> {
    let fixed = if words.contains("64") {
        Some(tei(64))
    } else {
        None
    };
    UserSide::new(alloc, config_of(words), fixed)
}

/// The side that these words describe.
pub(crate) fn side_of(alloc: Global, words: &str) -> Result<EitherSide, AllocError> {
    if words.starts_with("net") {
        Ok(EitherSide::Network(network_side(alloc, words)?))
    } else {
        Ok(EitherSide::User(user_side(alloc, words)?))
    }
}

/// The link of the SAPI and TEI at the beginning of these words; `None` if the SAPI or TEI is not
/// valid.
pub(crate) fn link_of(words: &str) -> Option<LinkId> {
    let [sapi, tei, _, _] = numbers_of(words);
    match (Sapi::new((sapi & 0xff) as u8), Tei::new((tei & 0xff) as u8)) {
        (Some(sapi), Some(tei)) => Some(LinkId { sapi, tei }),
        _ => None,
    }
}

/// The octets that are written in hexadecimal digits, or a number of octets `aa`, as in `[261]`.
/// `None` also if an allocation fails.
pub(crate) fn octets_of(alloc: Global, digits: &str) -> Option<Vec<u8>> {
    match digits.strip_prefix("[") {
        Some(count) => run_of(alloc, number_of(split(count, "]").0) as usize),
        None => hex::decode(alloc, digits.as_bytes()).ok(),
    }
}

/// This number of octets `aa`.
fn run_of(alloc: Global, count: usize) -> Option<Vec<u8>> {
    let mut octets = Vec::new(alloc);
    match octets.resize(count, 0xaa) {
        Ok(()) => Some(octets),
        Err(_) => None,
    }
}

/// The words after the link at the beginning of these words.
pub(crate) fn behind_link(words: &str) -> &str {
    split(split(words, " ").1, " ").1
}

/// The request that a word names, with the link and octets after it, if any; `None` also if an
/// allocation fails.
fn request_of(alloc: Global, word: &str, behind: &str) -> Option<Request> {
    let id = link_of(behind).unwrap_or(LinkId {
        sapi: Sapi::Call,
        tei: Tei::group(),
    });
    match word {
        "establish" => Some(Request::Establish(id)),
        "release" => Some(Request::Release(id)),
        "unit" => Some(Request::Unit(id, octets_of(alloc, behind_link(behind))?)),
        "give" => Some(Request::Give(id, octets_of(alloc, behind_link(behind))?)),
        "busy" => Some(Request::Busy(id, true)),
        "ready" => Some(Request::Busy(id, false)),
        "ask" => Some(Request::AskTei),
        "check" => Some(Request::Check(id.tei)),
        "remove" => Some(Request::Remove(id.tei)),
        "check-all" => Some(Request::CheckAll),
        "remove-all" => Some(Request::RemoveAll),
        _ => None,
    }
}

impl Talk {
    /// Creates the side that these words describe.
    pub(crate) fn of(alloc: Global, words: &str) -> Result<Talk, AllocError> {
        let acts = Acts::new(alloc)?;
        let side = side_of(alloc, words)?;
        Ok(Talk { alloc, side, acts })
    }

    /// Runs a step of the side: a call, a query of the side or of a link, a check that its next
    /// deadline is exact, or requests for all TEIs.
    pub(crate) fn step(&mut self, words: &str, text: &mut Text) {
        let (word, behind) = split(words, " ");
        match word {
            "shows" => put_readers(text, &self.side, behind),
            "exact" => text.put(if self.is_exact() { "yes" } else { "no" }),
            "requests" => self.requests(text),
            _ => self.call(words, text),
        }
    }

    /// Makes the call that these words describe (a time, the call, and its arguments), and writes
    /// its result, or `none` if nothing is due.
    pub(crate) fn call(&mut self, words: &str, text: &mut Text) {
        let (now, rest) = split(words, " ");
        let (word, behind) = split(rest, " ");
        match word {
            "take" => self.take(behind, number_of(now), text),
            "submit" => self.submit(behind, number_of(now), text),
            "tick" => {
                if !self.side.tick(number_of(now), &mut self.acts) {
                    text.put("none;");
                }
            }
            _ => self.ask(word, behind, number_of(now), text),
        }
        put_acts(text, &self.acts);
    }

    /// Passes octets to the side. Writes a refusal. If the octets cannot be allocated, says so, and
    /// discards the results of the call before.
    fn take(&mut self, digits: &str, now: u64, text: &mut Text) {
        match octets_of(self.alloc, digits) {
            Some(octets) => put_end(
                text,
                &self.side.take(octets.as_slice(), now, &mut self.acts),
            ),
            None => {
                self.acts.clear();
                text.put("no memory");
            }
        }
    }

    /// Submits a message by its octets, and writes a refusal.
    fn submit(&mut self, words: &str, now: u64, text: &mut Text) {
        match (link_of(words), octets_of(self.alloc, behind_link(words))) {
            (Some(id), Some(octets)) => {
                let result = self.side.give(id, octets.as_slice(), now, &mut self.acts);
                put_end(text, &result);
            }
            _ => text.put("no memory"),
        }
    }

    /// Makes a request, and writes a refusal.
    fn ask(&mut self, word: &str, behind: &str, now: u64, text: &mut Text) {
        match request_of(self.alloc, word, behind) {
            Some(request) => put_end(text, &self.side.request(request, now, &mut self.acts)),
            None => {
                self.acts.clear();
                text.put("no memory");
            }
        }
    }

    /// Whether no timer is due a millisecond before the side's next deadline, and one is due at it.
    /// A side without a deadline must never have a timer that is due.
    fn is_exact(&mut self) -> bool {
        let acts = &mut self.acts;
        match self.side.next_deadline() {
            Some(moment) => {
                !self.side.tick(moment.saturating_sub(1), acts) && self.side.tick(moment, acts)
            }
            None => !self.side.tick(u64::MAX, acts),
        }
    }
}

/// Appends the results of a call: each frame and each primitive, followed by `;`.
fn put_acts(text: &mut Text, acts: &Acts) {
    for frame in acts.frames() {
        put_octets(text, frame.as_slice());
        text.put(";");
    }
    for primitive in acts.primitives() {
        text.item("", primitive);
    }
}

/// Appends a refusal, if any, and the message that it returns.
fn put_end(text: &mut Text, done: &Result<(), SideFault>) {
    if let Err(fault) = done {
        match &fault.message {
            Some(message) => put_refused(text, &fault.kind, Some(message.as_slice())),
            None => put_refused(text, &fault.kind, None),
        }
    }
}
