//! A reader that keeps the lines it read last.

ghost use Rattle.std.specs.Prelude.{◌≡◌, ◌∷◌, ◌++◌, ◌≤◌, ◌-◌, ◌^◌, IfNone, IfSome, None, length, min, option_map, slice_get, take};
ghost use Rattle.std.specs.Io.{ReadsAtMost};
ghost use Rattle.std.specs.Io.KnownBytes.{ReadConsumes};
ghost use Rattle.lapd_cli_script.specs.WalkState.{HasNoFeed};
ghost use Rattle.lapd_cli_console.specs.Fault.{Remembers};
ghost use Rattle.lapd_cli_console.specs.Recent.{HasRead, ReadOctets, after_octets, after_read, feeds, forgotten, kept_line, line_begun, line_front, lines_in, nothing_read};

use arrayvec::ArrayVec;
use lapd_cli_script::first_line;
use memchr::memrchr;
use std::io::{self, ErrorKind, Read};

/// The number of kept octets of a read: as many as running a script reads at a time.
const PART: usize = 8192;

/// The number of kept octets of a line that began in an earlier read.
const HEAD: usize = 4096;

/// A reader that passes another reader's octets on, at most 8,192 in one read, and keeps the lines it
/// read last. Its memory is bounded: it keeps the octets of the last read, and at most 4,096 octets
/// of the line that they continue.
#[derive(Drop)]
pub struct RecentLines<R> {
    reader: R,
    // The number of lines that ended before the line in `head`.
    ended: u64,
    // The beginning of the line that `part` continues, with its octets in `part`.
    head: ArrayVec<u8, HEAD>,
    // The octets read last.
    part: ArrayVec<u8, PART>,
    fault: Option<ErrorKind>,
}

impl<R: Read> RecentLines<R> {
    /// Keeps the octets read from this reader.
    pub fn new(reader: R) -> RecentLines<R>
        ensures reader { result.reader ≡ reader }
        ensures read { HasRead result nothing_read }
        ensures fault { result.fault ≡ None }
    {
        RecentLines {
            reader,
            ended: 0,
            head: ArrayVec::new(),
            part: ArrayVec::new(),
            fault: None,
        }
    }

    /// The line with this number, counted from 1, without its line feed and cut to 4,096 octets.
    /// The last line may be incomplete. Returns `None` if there is no such line yet, or if it ended
    /// before the octets read last.
    pub fn line(&self, number: u64) -> Option<&[u8]>
        ensures { (r : ReadOctets) → HasRead self.now r
            → option_map (λ line. line.now) result ≡ kept_line r number }
    {
        let place = number.checked_sub(1)?.checked_sub(self.ended)?;
        if place == 0 {
            return Some(self.head.as_slice());
        }
        let line = line_at(self.part.as_slice(), place)?;
        Some(&line[..line.len().min(HEAD)])
    }

    /// The kind of the last failed read. Interruptions do not count. Returns `None` if no read
    /// failed.
    pub fn fault(&self) -> Option<ErrorKind>
        ensures { result ≡ self.now.fault }
    {
        self.fault
    }

    /// Keeps octets that were read, if there are any.
    fn retain(&mut self, octets: &[u8])
        requires { length octets.now ≤ PART }
        ensures read { (r : ReadOctets) → HasRead self.old r
            → HasRead self.new (after_octets r octets.now) }
        ensures reader { self.new.reader ≡ self.old.reader }
        ensures fault { self.new.fault ≡ self.old.fault }
    {
        if octets.is_empty() {
            return;
        }
        self.forget_ended();
        let _ = self.part.try_extend_from_slice(octets);
        lengthen(&mut self.head, before_feed(octets));
    }

    /// Drops the lines that ended in the octets read last.
    fn forget_ended(&mut self)
        ensures read { (r : ReadOctets) → HasRead self.old r → HasRead self.new (forgotten r) }
        ensures reader { self.new.reader ≡ self.old.reader }
        ensures fault { self.new.fault ≡ self.old.fault }
    {
        self.count_ended();
        self.part.clear();
    }

    /// Counts the lines that ended in the octets read last, and begins the line behind them.
    fn count_ended(&mut self)
        ensures ended { (r : ReadOctets) → HasRead self.old r
            → self.new.ended ≡ min (feeds (r.before ++ r.last)) (2 ^ 64 - 1) }
        ensures head { (r : ReadOctets) → HasRead self.old r
            → self.new.head.items ≡ take HEAD (line_begun (r.before ++ r.last)) }
        ensures reader { self.new.reader ≡ self.old.reader }
        ensures fault { self.new.fault ≡ self.old.fault }
    {
        let Some((_ended, begun)) = cut_at_last_feed(self.part.as_slice()) else {
            return;
        };
        self.ended = self.ended.saturating_add(feeds_in(self.part.as_slice()));
        self.head.clear();
        lengthen(&mut self.head, begun);
    }
}

impl<R: Read> Read for RecentLines<R> {
    ghost remaining = { λ recent. R.remaining recent.reader };

    fn read(&mut self, octets: &mut [u8]) -> io::Result<usize>
        ensures bound { ReadsAtMost result octets.new }
        ensures bytes { ReadConsumes (R.remaining self.old.reader)
            (R.remaining self.new.reader) result octets.new }
        ensures read { (r : ReadOctets) → HasRead self.old r
            → HasRead self.new (after_read r result octets.new) }
        ensures fault { Remembers self.old.fault self.new.fault result }
    {
        let room = octets.len().min(PART);
        match self.reader.read(&mut octets[..room]) {
            Ok(count) => {
                self.retain(&octets[..count]);
                Ok(count)
            }
            Err(error) => {
                if error.kind() != ErrorKind::Interrupted {
                    self.fault = Some(error.kind());
                }
                Err(error)
            }
        }
    }
}

/// Appends as many of these octets to the beginning of a line as it has room for.
fn lengthen(head: &mut ArrayVec<u8, HEAD>, octets: &[u8])
    ensures { head.new.items ≡ take HEAD (head.old.items ++ octets.now) }
{
    let room = head.remaining_capacity();
    let _ = head.try_extend_from_slice(&octets[..octets.len().min(room)]);
}

/// The number of line feeds. Searching for each is faster than comparing each octet, unless lines
/// are very short.
fn feeds_in(octets: &[u8]) -> u64
    ensures { result ≡ min (feeds octets.now) (2 ^ 64 - 1) }
{
    let mut feeds: u64 = 0;
    let mut rest = octets;
    while let Some((_line, behind)) = first_line(rest) {
        feeds = feeds.saturating_add(1);
        rest = behind;
    }
    feeds
}

/// The octets before the last line feed, and those after it.
fn cut_at_last_feed(octets: &[u8]) -> Option<(&[u8], &[u8])>
    ensures none { IfNone result (HasNoFeed octets.now) }
    ensures parts { IfSome result (λ parts. HasNoFeed parts.1.now
        × (octets.now ≡ parts.0.now ++ 10 ∷ parts.1.now)) }
{
    let end = memrchr(b'\n', octets)?;
    Some((&octets[..end], &octets[end + 1..]))
}

/// The octets before the first line feed; all if there is none.
fn before_feed(octets: &[u8]) -> &[u8]
    ensures { result.now ≡ line_front octets.now }
{
    match first_line(octets) {
        Some((line, _behind)) => line,
        None => octets,
    }
}

/// The line after this many line feeds.
fn line_at(octets: &[u8], feeds: u64) -> Option<&[u8]>
    ensures { option_map (λ line. line.now) result ≡ slice_get (lines_in octets.now) feeds }
{
    let mut rest = octets;
    for _feed in 0..feeds {
        let (_line, behind) = first_line(rest)?;
        rest = behind;
    }
    Some(before_feed(rest))
}
