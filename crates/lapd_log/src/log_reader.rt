//! A reader of logs that rewrites their lines in the forms that `decode` reads.

ghost use Rattle.std.specs.Prelude.{◌≤◌, length};

use crate::block::{BlockForm, block_line};
use crate::cisco::{cisco_line, interface_in};
use crate::listed::{goes_on, is_list, plain};
use crate::log_clock::LogClock;
use crate::named_span::span_in;
use crate::stamp::{Stamp, StampDate};
use crate::text::behind;
use crate::trace::{TraceLine, trace_line};
use crate::traced::traced_line;
use crate::word_dump::{has_offset, is_word_dump};
use arrayvec::ArrayVec;
use lapd_cli_script::first_line;
use lapd_frame::{MOST_OCTETS, Side};
use lapd_zone::Zone;
use std::alloc::{AllocError, Global};
use std::io::{self, ErrorKind, Read};
use std::mem;

/// How many octets are read at a time.
const PART: usize = 4096;

/// The most octets of a line that is rewritten.
const MOST_LINE: usize = 8192;

/// The digits of an octet.
const DIGITS: &[u8; 16] = b"0123456789abcdef";

/// How the lines of a log are read.
#[derive(Clone, Copy)]
pub struct LogStyle<'a, 'z> {
    /// The side that printed the log. If it is `None`, a line of Cisco that does not say it is
    /// taken as of the user side.
    pub printer: Option<Side>,
    /// The span whose lines are read; the first one that a line names, if it is `None`.
    pub span: Option<&'a str>,
    /// The times that are put in front of lines.
    pub times: LogTimes<'z>,
}

/// The times that are put in front of the lines of a log.
#[derive(Clone, Copy)]
pub enum LogTimes<'a> {
    /// None.
    Hidden,
    /// All times, in UTC. A time without a zone is taken as UTC.
    All,
    /// The same of times with their year.
    Dated,
    /// All times, as a clock in this zone shows them. A time without a zone is unchanged.
    Local(&'a Zone),
}

/// A reader of text that rewrites the lines of another reader's log in the forms that `decode`
/// reads: lines of Cisco, of Osmocom and of mISDN, trace lines of `lapd`, and octets that are listed
/// with commas, dashes or escapes. Lists and dumps without offsets that have several lines are
/// joined to one, which follows empty lines, so that the lines keep their numbers. If times are
/// requested, a line with a time has it in front, as `@` and the microseconds since 1970, and a line
/// without one has that of the line before; but not a line of a dump with offsets. Lines of dumps of
/// words of 16 bits are left out. Other lines are unchanged.
///
/// Only the lines of one span are passed on, and those of no span. A line that names no span is of
/// the same one as the line before. The lines of other spans are kept ([`LogReader::others`]),
/// unless a span is chosen.
///
/// A line is passed on when it was read, the last line of a dump when the next one was. Its memory
/// is bounded but for the lines of other spans.
#[derive(Drop)]
pub struct LogReader<'a, 'z, R> {
    alloc: Global,
    reader: R,
    style: LogStyle<'a, 'z>,
    /// The line that is being read.
    line: Vec<u8>,
    /// Whether the beginning of this line was passed on, since it is too long to be rewritten.
    is_long: bool,
    /// The span whose lines are passed on; empty if no line named one yet.
    span: Vec<u8>,
    /// The span of the last line that named one.
    last_span: Vec<u8>,
    /// Whether a line named the span whose lines are passed on.
    has_span: bool,
    /// The lines of other spans.
    others: Vec<u8>,
    /// The times of the lines so far.
    clock: LogClock,
    /// Whether a time without its year was read.
    is_yearless: bool,
    /// The lines of a list or a dump that is being read: as they are, and its octets.
    held: Held,
    /// Whether a line of a dump of words of 16 bits was left out.
    has_words: bool,
    /// Whether the line before is digits alone.
    is_behind_digits: bool,
    /// The text to be passed on, of which so much was.
    ready: Vec<u8>,
    passed: usize,
    is_ended: bool,
}

/// The lines of a list or a dump that is being read.
#[derive(Drop)]
struct Held {
    form: HeldForm,
    lines: u64,
    raw: Vec<u8>,
    digits: Vec<u8>,
}

#[derive(Clone, Copy, PartialEq, Eq)]
enum HeldForm {
    Nothing,
    List,
    Block(BlockForm),
    /// A dump whose last line was read.
    Closed,
}

impl LogTimes<'_> {
    // The microseconds since 1970 that are put in front of a line with this time.
    fn shown(self, stamp: Stamp) -> u64 {
        match self {
            LogTimes::Local(zone) if stamp.has_zone => zone.local(stamp.micros),
            _ => stamp.micros,
        }
    }
}

impl<'a, 'z, R: Read + Drop> LogReader<'a, 'z, R> {
    /// Rewrites the text of this reader.
    ///
    /// # Errors
    ///
    /// `AllocError` if an allocation fails.
    pub fn new(
        alloc: Global,
        reader: R,
        style: LogStyle<'a, 'z>,
    ) -> Result<LogReader<'a, 'z, R>, AllocError> {
        let mut span = Vec::new(alloc);
        if let Some(chosen) = style.span {
            span.extend_from_slice(chosen.as_bytes())?;
        }
        Ok(LogReader {
            alloc,
            reader,
            style,
            line: Vec::new(alloc),
            is_long: false,
            span,
            last_span: Vec::new(alloc),
            has_span: false,
            others: Vec::new(alloc),
            clock: LogClock::NEW,
            is_yearless: false,
            held: Held {
                form: HeldForm::Nothing,
                lines: 0,
                raw: Vec::new(alloc),
                digits: Vec::new(alloc),
            },
            has_words: false,
            is_behind_digits: false,
            ready: Vec::new(alloc),
            passed: 0,
            is_ended: false,
        })
    }

    /// The span whose lines were passed on; empty if no line named one.
    pub fn span(&self) -> &[u8] {
        self.span.as_slice()
    }

    /// Whether a line named the span whose lines are passed on.
    pub fn has_span(&self) -> bool {
        self.has_span
    }

    /// The span of the last line that named one, as [`span_name`] shows it; empty if no line did.
    ///
    /// # Errors
    ///
    /// `AllocError` if an allocation fails.
    pub fn last_span(&self) -> Result<String, AllocError> {
        shown_name(self.alloc, self.last_span.as_slice())
    }

    /// Whether a line of a dump of words of 16 bits was left out: its octets may be exchanged.
    pub fn has_words(&self) -> bool {
        self.has_words
    }

    /// How many times were before the one above them; such a time is passed on unchanged.
    pub fn times_gone_back(&self) -> u64 {
        self.clock.gone_back()
    }

    /// Whether a time was passed on whose line does not have the year. It is as of a year from 1972
    /// to 1979, or of the first days of 1970 if it has no date.
    pub fn is_yearless(&self) -> bool {
        self.is_yearless
    }

    /// Whether a time was passed on.
    pub fn has_times(&self) -> bool {
        self.clock.last().is_some()
    }

    /// The lines of other spans that were kept, and forgets them.
    pub fn others(&mut self) -> Vec<u8> {
        let none = Vec::new(self.alloc);
        mem::replace(&mut self.others, none)
    }

    // Passes on text that is ready. Returns how many octets.
    fn pass(&mut self, octets: &mut [u8]) -> usize
        ensures { result ≤ length octets.new }
    {
        let left = behind_first(self.passed, self.ready.as_slice());
        let count = left.len().min(octets.len());
        octets[..count].copy_from_slice(&left[..count]);
        self.passed = self.passed.saturating_add(count);
        count
    }

    // Takes octets that were read; none at the end.
    fn take(&mut self, octets: &[u8]) -> Result<(), AllocError> {
        self.ready.clear();
        self.passed = 0;
        if octets.is_empty() {
            self.is_ended = true;
            if !self.line.is_empty() {
                self.end_line(&[])?;
            }
            return self.end_held();
        }
        for octet in octets {
            self.take_octet(*octet)?;
        }
        Ok(())
    }

    // Takes an octet of a line, or the line feed behind it.
    fn take_octet(&mut self, octet: u8) -> Result<(), AllocError> {
        if octet == b'\n' {
            return self.end_line(b"\n");
        }
        if self.line.len() >= MOST_LINE {
            self.end_held()?;
            self.is_long = true;
            self.ready.extend_from_slice(self.line.as_slice())?;
            self.line.clear();
        }
        self.line.push(octet)?;
        Ok(())
    }

    // Ends a line with this line feed, or at the end without one.
    fn end_line(&mut self, feed: &[u8]) -> Result<(), AllocError> {
        let none = Vec::new(self.alloc);
        let line = mem::replace(&mut self.line, none);
        if self.is_long {
            self.is_long = false;
            self.ready.extend_from_slice(line.as_slice())?;
            return self.ready.extend_from_slice(feed);
        }
        self.route(line.as_slice(), feed)
    }

    // Passes a line on, or keeps it if it is of another span.
    fn route(&mut self, line: &[u8], feed: &[u8]) -> Result<(), AllocError> {
        if self.is_own(line)? {
            return self.rewrite(line, feed);
        }
        if self.style.span.is_none() {
            self.others.extend_from_slice(line)?;
            self.others.push(b'\n')?;
        }
        self.ready.extend_from_slice(feed)
    }

    // Whether a line is of the span whose lines are passed on, or of none.
    fn is_own(&mut self, line: &[u8]) -> Result<bool, AllocError> {
        let mut name = Vec::new(self.alloc);
        push_name(self.alloc, &mut name, line)?;
        if !name.is_empty() {
            self.last_span = name;
        }
        if self.last_span.is_empty() {
            return Ok(true);
        }
        if self.span.is_empty() {
            self.span.extend_from_slice(self.last_span.as_slice())?;
        }
        let is_own = is_named(
            self.style.span.is_some(),
            self.span.as_slice(),
            self.last_span.as_slice(),
        );
        self.has_span |= is_own;
        Ok(is_own)
    }

    // ---- The lines of the span.

    // Rewrites a line.
    fn rewrite(&mut self, line: &[u8], feed: &[u8]) -> Result<(), AllocError> {
        if self.hold(line)? {
            return Ok(());
        }
        self.end_held()?;
        self.take_time(line);
        self.is_behind_digits = false;
        if is_word_dump(line) {
            self.has_words = true;
        } else if matches!(line, [] | [b'#', ..]) || has_offset(line) {
            self.ready.extend_from_slice(line)?;
        } else {
            self.push_time()?;
            self.push_line(line)?;
        }
        self.ready.extend_from_slice(feed)
    }

    // Takes the time of a line, if it has one that is requested.
    fn take_time(&mut self, line: &[u8]) {
        let times = self.style.times;
        if matches!(times, LogTimes::Hidden) {
            return;
        }
        if let Some(stamp) = self.clock.stamp_in(line) {
            let is_whole = stamp.date == StampDate::Whole;
            if is_whole || !matches!(times, LogTimes::Dated) {
                self.is_yearless |= !is_whole;
                self.clock.take(times.shown(stamp));
            }
        }
    }

    // Appends the time in front of a line.
    fn push_time(&mut self) -> Result<(), AllocError> {
        let Some(time) = self.clock.last() else {
            return Ok(());
        };
        let text = format!(in self.alloc; "@{time} ")?;
        self.ready.extend_from_slice(text.as_bytes())
    }

    // Appends a line that is not held, rewritten.
    fn push_line(&mut self, line: &[u8]) -> Result<(), AllocError> {
        if behind(b"> [ ", line).is_some() || behind(b"< [ ", line).is_some() {
            return self.ready.extend_from_slice(line);
        }
        let printer = self.style.printer.unwrap_or(Side::User);
        if let Some(cisco) = cisco_line(line, printer) {
            if cisco.is_digits() {
                self.push_sender(cisco.from)?;
                return self.ready.extend_from_slice(cisco.text);
            }
            let mut octets = ArrayVec::new();
            if cisco.octets_into(self.alloc, &mut octets)? {
                self.push_sender(cisco.from)?;
                return push_digits(&mut self.ready, octets.as_slice());
            }
        }
        if let Some(trace) = trace_line(line) {
            return self.push_trace(trace, line);
        }
        if let Some(traced) = traced_line(line) {
            let mark: &[u8] = if traced.is_sent { b"> " } else { b"< " };
            self.ready.extend_from_slice(mark)?;
            return self.ready.extend_from_slice(traced.text);
        }
        self.push_sides_list(line)
    }

    // Appends the octets of a trace line, or the line unchanged if it does not fix them.
    fn push_trace(&mut self, trace: TraceLine<'_>, line: &[u8]) -> Result<(), AllocError> {
        if let Some(digits) = trace.faulty_digits() {
            self.push_sender(trace.from)?;
            return self.ready.extend_from_slice(digits);
        }
        let mut octets = ArrayVec::new();
        if !trace.octets_into(self.alloc, &mut octets)? {
            return self.ready.extend_from_slice(line);
        }
        self.push_sender(trace.from)?;
        push_digits(&mut self.ready, octets.as_slice())
    }

    // Appends the side that sent the octets behind it.
    fn push_sender(&mut self, from: Side) -> Result<(), AllocError> {
        let word: &[u8] = match from {
            Side::User => b"user ",
            Side::Network => b"net ",
        };
        self.ready.extend_from_slice(word)
    }

    // Appends a line with a list behind the side that sent its octets, or another line.
    fn push_sides_list(&mut self, line: &[u8]) -> Result<(), AllocError> {
        let (word, text) = if line.starts_with(b"user ") {
            line.split_at(line.len().min(5))
        } else if line.starts_with(b"net ") {
            line.split_at(line.len().min(4))
        } else {
            return self.ready.extend_from_slice(line);
        };
        self.ready.extend_from_slice(word)?;
        if is_list(text) {
            push_plain(&mut self.ready, text)
        } else {
            self.ready.extend_from_slice(text)
        }
    }

    // ---- Lists and dumps, of one line or several.

    // Holds a line of a list or a dump back. Returns whether it is one.
    fn hold(&mut self, line: &[u8]) -> Result<bool, AllocError> {
        if is_list(line) {
            if self.held.form != HeldForm::List {
                self.end_held()?;
                self.held.form = HeldForm::List;
            }
            self.held.push(line)?;
            if !goes_on(line) {
                self.end_held()?;
            }
            self.is_behind_digits = false;
            return Ok(true);
        }
        let Some(part) = block_line(line) else {
            return Ok(false);
        };
        if self.held.form == HeldForm::Block(part.form) {
            self.held.push(line)?;
            if !part.is_full {
                self.end_block(part.form)?;
            }
            return Ok(true);
        }
        if self.held.form == HeldForm::Closed && part.form == BlockForm::Plain {
            self.release()?;
            self.is_behind_digits = true;
        }
        let is_begun = part.is_full && !(part.form == BlockForm::Plain && self.is_behind_digits);
        if is_begun {
            self.end_held()?;
            self.held.form = HeldForm::Block(part.form);
            self.held.push(line)?;
            return Ok(true);
        }
        if part.form == BlockForm::Plain {
            self.end_held()?;
            self.is_behind_digits = true;
            self.push_time()?;
            self.ready.extend_from_slice(line)?;
            self.ready.push(b'\n')?;
            return Ok(true);
        }
        Ok(false)
    }

    // Ends a dump behind its last line: the next line shows whether its digits were one.
    fn end_block(&mut self, form: BlockForm) -> Result<(), AllocError> {
        match form {
            BlockForm::Spaced => self.end_held(),
            BlockForm::Plain => {
                self.held.form = HeldForm::Closed;
                Ok(())
            }
        }
    }

    // Passes on what is held, joined to one line behind empty lines.
    fn end_held(&mut self) -> Result<(), AllocError> {
        if self.held.form == HeldForm::Nothing {
            return Ok(());
        }
        for _line in 1..self.held.lines {
            self.ready.push(b'\n')?;
        }
        self.push_time()?;
        self.ready.extend_from_slice(self.held.digits.as_slice())?;
        self.ready.push(b'\n')?;
        self.held.clear();
        Ok(())
    }

    // Passes on what is held, unchanged.
    fn release(&mut self) -> Result<(), AllocError> {
        self.ready.extend_from_slice(self.held.raw.as_slice())?;
        self.held.clear();
        Ok(())
    }
}

impl Held {
    // Appends a line.
    fn push(&mut self, line: &[u8]) -> Result<(), AllocError> {
        self.lines = self.lines.saturating_add(1);
        self.raw.extend_from_slice(line)?;
        self.raw.push(b'\n')?;
        push_plain(&mut self.digits, line)
    }

    // Forgets all lines.
    fn clear(&mut self) {
        self.form = HeldForm::Nothing;
        self.lines = 0;
        self.raw.clear();
        self.digits.clear();
    }
}

impl<R: Read + Drop> Read for LogReader<'_, '_, R> {
    fn read(&mut self, octets: &mut [u8]) -> io::Result<usize> {
        let mut part = [0; PART];
        for _read in 0..u64::MAX {
            let count = self.pass(octets);
            if count > 0 || self.is_ended || octets.is_empty() {
                return Ok(count);
            }
            let count = self.reader.read(&mut part)?;
            if self.take(&part[..count]).is_err() {
                return Err(io::Error::from(ErrorKind::OutOfMemory));
            }
        }
        Err(io::Error::from(ErrorKind::Interrupted))
    }
}

// The octets after the first `count`; none if there are no more.
fn behind_first(count: usize, octets: &[u8]) -> &[u8] {
    if count < octets.len() {
        &octets[count..]
    } else {
        &[]
    }
}

/// The span that the first line of a text names, as a heading shows it: `?` stands for each octet
/// that is not visible in ASCII, and for quotes and backslashes. It is empty if the line names none.
///
/// # Errors
///
/// `AllocError` if an allocation fails.
pub fn span_name(alloc: Global, text: &[u8]) -> Result<String, AllocError> {
    let line = match first_line(text) {
        Some((line, _)) => line,
        None => text,
    };
    let mut name = Vec::new(alloc);
    push_name(alloc, &mut name, line)?;
    shown_name(alloc, name.as_slice())
}

// The name of a span as a heading shows it.
fn shown_name(alloc: Global, name: &[u8]) -> Result<String, AllocError> {
    let mut shown = String::new(alloc);
    for octet in name {
        let character = match octet {
            b'"' | b'\\' => '?',
            b' '..=b'~' => char::from(*octet),
            _ => '?',
        };
        shown.push(character)?;
    }
    Ok(shown)
}

// Appends the name of the span that a line names: its number, with the D channel behind it unless
// that is 0, or the interface of a line of Cisco.
fn push_name(alloc: Global, name: &mut Vec<u8>, line: &[u8]) -> Result<(), AllocError> {
    if let Some(named) = span_in(line) {
        let text = match named.channel {
            0 => format!(in alloc; "{}", named.span)?,
            channel => format!(in alloc; "{} D-Channel {channel}", named.span)?,
        };
        return name.extend_from_slice(text.as_bytes());
    }
    if cisco_line(line, Side::User).is_some() {
        return name.extend_from_slice(interface_in(line));
    }
    Ok(())
}

// Whether a span is this one. A chosen one is named by its number alone too.
fn is_named(is_chosen: bool, span: &[u8], name: &[u8]) -> bool {
    if !is_chosen {
        return span == name;
    }
    match name.strip_prefix(span) {
        Some([]) | Some([b' ', ..]) => true,
        _ => false,
    }
}

// Appends octets as digits.
fn push_digits(text: &mut Vec<u8>, octets: &[u8]) -> Result<(), AllocError> {
    for octet in octets {
        text.push(DIGITS[usize::from(*octet / 16)])?;
        text.push(DIGITS[usize::from(*octet % 16)])?;
    }
    Ok(())
}

// Appends a list, with a space in the place of each octet that is no digit. The `0x` before an
// octet, and `x` in an escape, are left out.
fn push_plain(text: &mut Vec<u8>, list: &[u8]) -> Result<(), AllocError> {
    let mut rest = list;
    for _octet in 0..list.len() {
        let [first, next @ ..] = rest else {
            return Ok(());
        };
        match rest {
            [b'0', b'x' | b'X', digits @ ..] => {
                text.push(b' ')?;
                rest = digits;
            }
            _ => {
                text.push(plain(*first))?;
                rest = next;
            }
        }
    }
    Ok(())
}
