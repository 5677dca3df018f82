//! The memory of the wrappers of standard streams, and typed lines.

use lapd_cli_answer::answer;
use lapd_cli_console::{PrintedAnswers, RecentLines, Refusals, Script, Session};
use lapd_cli_script::ScriptFault;
use lapd_cli_values::{Params, Sapi, Side, Tei};
use lapd_test_scenario::{Console, Scenario};
use lapd_test_text::Parts;
use std::alloc::{AllocError, Global};
use std::io::{self, BufReader, ErrorKind, Read, Write};
use std::test::Fail;

/// A text of `lines` lines with 0 to 88 letters each.
fn long_text(alloc: Global, lines: u32) -> Result<String, AllocError> {
    let letters = "abcdefghijklmnopqrstuvwxyz".repeat(alloc, 4)?;
    let mut text = String::new(alloc);
    for number in 0..lines {
        let length = (number.wrapping_mul(7) % 89) as usize;
        text.push_str(letters.get(..length).unwrap_or(""))?;
        text.push('\n')?;
    }
    Ok(text)
}

/// Whether a text is passed on in parts of at most `most` octets, and its last lines are kept as
/// long as they should be.
fn preserves(text: &str, most: usize) -> bool {
    let mut recent = RecentLines::new(Parts {
        octets: text.as_bytes(),
        most,
        fault: None,
    });
    let mut part = [0u8; 8192];
    let mut read = 0usize;
    for _round in 0..text.len() {
        let count = recent.read(&mut part).unwrap_or(0);
        if count == 0 {
            break;
        }
        let (begin, end) = (read, read.saturating_add(count));
        read = end;
        if text.as_bytes().get(begin..end) != part.get(..count)
            || !has_last_lines(&recent, text.get(..end).unwrap_or(""), count)
        {
            return false;
        }
    }
    read == text.len()
}

/// Whether the reader has kept the last line read so far, and the line before it if that ended in
/// the last part, and no line after them.
fn has_last_lines(recent: &RecentLines<Parts<'_>>, front: &str, part: usize) -> bool {
    let feeds = front.split('\n').count().saturating_sub(1) as u64;
    let mut lines = front.rsplit('\n');
    let (last, before) = (lines.next().unwrap_or(""), lines.next().unwrap_or(""));
    let is_removed = part <= last.len();
    recent.line(feeds.saturating_add(1)) == Some(last.as_bytes())
        && (is_removed || recent.line(feeds) == Some(before.as_bytes()))
        && recent.line(feeds.saturating_add(2)).is_none()
        && recent.line(0).is_none()
}

/// Whether the last lines of long texts are kept, with parts of these lengths.
fn takes_long(alloc: Global) -> Result<bool, AllocError> {
    let (short, long) = (long_text(alloc, 30)?, long_text(alloc, 400)?);
    Ok(
        preserves(short.as_str(), 2)
            && preserves(short.as_str(), 7)
            && preserves(short.as_str(), 100)
            && preserves(long.as_str(), 8191)
            && preserves(long.as_str(), 8192),
    )
}

/// Comments that are skipped, one of which is not UTF-8. The last line lacks its line feed.
const NOTES: &[u8] = b"\n# note\n\n#\xff\nstate\n\nframe 008153";

/// Whether such comments are skipped, and the beginning of a bad line after them is kept, with the
/// line after it.
fn cuts(alloc: Global) -> Result<bool, AllocError> {
    let mut text = NOTES.to_vec(alloc)?;
    let mut printed = Vec::new(alloc);
    let answered = ends(alloc, &mut NOTES, &mut printed) == Ok(());
    text.resize(10_000, b'0')?;
    text.extend_from_slice(b"g\nstate\n")?;
    let mut recent = RecentLines::new(text.as_slice());
    let ended = ends(alloc, &mut recent, &mut io::sink());
    Ok(
        answered
            && printed.as_slice() == b"state 4\nsend 00811f\n".as_slice()
            && ended == Err(ScriptFault::BadLine(7))
            && recent.line(7) == text.get(19..4115)
            && recent.line(8) == Some(b"state".as_slice()),
    )
}

/// How `answer` ends.
fn ends<R: Read, W: Write>(alloc: Global, script: &mut R, out: &mut W) -> Result<(), ScriptFault> {
    let params = Params::basic(Sapi::Call);
    let tei = Tei::new(64).unwrap();
    answer(alloc, script, out, Side::Network, Sapi::Call, tei, params)
}

/// Texts, and the first refusal in each, with `~` for a line feed.
const REFUSED: &str = "\
state 4~refused L1 NotEstablished~send 00~refused L2 QueueFull~ => refused L1 NotEstablished
state 4~data refused ~refuse d~refused~5x refused L1~7 8 refused L1~~refused L1 => none
12 0 64 established~1566 refused B1 NoLink~refused L2 QueueFull~ => 1566 refused B1 NoLink
{\"line\":\"refused\"}~{\"refused\":\"B1 NoLink\",\"time\":1566}~ => {\"refused\":\"B1 NoLink\",\"time\":1566}";

/// Whether the first refusal of each text is noted, however long the parts are in which it is
/// written.
fn are_refused(alloc: Global) -> Result<bool, AllocError> {
    for row in REFUSED.lines() {
        let (text, first) = row.split_once(" => ").unwrap_or((row, ""));
        let text = text.replace(alloc, "~", "\n")?;
        for most in 1..70 {
            if !refuses(text.as_bytes(), most, first) {
                return Ok(false);
            }
        }
    }
    Ok(true)
}

/// Whether this is the first noted refusal of a text written in such parts, and none is noted if
/// not requested.
fn refuses(text: &[u8], most: usize, first: &str) -> bool {
    let mut wanted = Refusals::new(io::sink(), true);
    let mut unwanted = Refusals::new(io::sink(), false);
    for part in text.chunks(most.max(1)) {
        let _ = wanted.write_all(part);
        let _ = unwanted.write_all(part);
    }
    wanted.first().unwrap_or(b"none") == first.as_bytes() && unwanted.first().is_none()
}

/// Typed lines, the reports about them, and the output of `answer`. Nothing is read after `quit`.
const TYPED: &str = "\
state
    state 4
help
    the lines of answer:
      frame HEX
      t200
      t203
      establish
      release
      give HEX
      unit HEX
      busy on|off
      state
    help (prints this list), quit (ends the script)
fram 00
    not executed: 'fram' is not a line of answer; valid lines: frame HEX, t200, t203, establish, release, give HEX, unit HEX, busy on|off, state
frame 0
    not executed: frame HEX: an odd number of digits

# frame 0
state 
    state 4
frame 0x00 81:7f
    send 008173
    established
    start T203
state
    state 7
quit
!
";

/// Whether a session of `answer` runs so, with at most `most` octets per call. At the second
/// `state` the answer must be printed before more is read.
fn is_typed(alloc: Global, most: usize) -> bool {
    let scenario = Scenario::new(TYPED, most);
    let Ok(typed) = BufReader::new(alloc, Console(&scenario)) else {
        return false;
    };
    let answers = PrintedAnswers::new(Console(&scenario));
    let mut session = Session::new(alloc, Script::Answer, typed, answers);
    let ended = ends(alloc, &mut session, &mut Console(&scenario));
    scenario.ends(alloc, ended)
}

/// Whether a script may take a million reads, if the last one reaches its end. Interrupted reads
/// are repeated, and are not faults.
fn reads_a_million(alloc: Global) -> Result<bool, AllocError> {
    let feeds = "\n".repeat(alloc, 1_500_000)?;
    let mut few = Parts {
        octets: feeds.as_bytes().get(..999_999).unwrap_or(b""),
        most: 1,
        fault: None,
    };
    let mut many = Parts {
        octets: feeds.as_bytes(),
        most: 1,
        fault: None,
    };
    let mut interrupted = RecentLines::new(Parts {
        octets: b"state\n",
        most: 8,
        fault: Some(ErrorKind::Interrupted),
    });
    let reached = ends(alloc, &mut few, &mut io::sink());
    let ended = ends(alloc, &mut many, &mut io::sink());
    let unread = ends(alloc, &mut interrupted, &mut io::sink());
    Ok(
        reached == Ok(())
            && ended == Err(ScriptFault::Device)
            && many.octets.len() == 500_000
            && unread == Err(ScriptFault::Device)
            && interrupted.fault().is_none(),
    )
}

/// The first check of `answer` that fails; empty if none does.
fn wrong(alloc: Global) -> Result<&'static str, AllocError> {
    for most in [1, 5, 64, 512] {
        if !is_typed(alloc, most) {
            return Ok("a session");
        }
    }
    Ok(if !takes_long(alloc)? {
        "the last lines of a long text"
    } else if !cuts(alloc)? {
        "notes, and a long line"
    } else if !are_refused(alloc)? {
        "the first refusal"
    } else if !reads_a_million(alloc)? {
        "a million reads"
    } else {
        ""
    })
}

#[test]
fn streams_are_watched(rt: HostRuntime) -> Result<(), Fail> {
    let wrong = wrong(rt.alloc())?;
    if wrong.is_empty() {
        Ok(())
    } else {
        Err(Fail::new(format_args!("{wrong}")))
    }
}
