ghost use Rattle.std.specs.Prelude.{◌<◌, ◌≡◌, ◌+◌, drop, length, [], IfSome, None, is_some};
ghost use Rattle.std.specs.List.{list_any};
ghost use Rattle.lapd_cli_live.specs.RecentOutput.{begins_with, line_octets, lines_behind};

use lapd_cli_live_text::begins_as;
use std::alloc::{AllocError, Global};

/// The most lines that are kept. When one more is printed, all earlier lines are forgotten.
const MOST_LINES: usize = 1000;

/// The lines that were printed while a line of input was awaited. A later `expect` still finds
/// them.
#[derive(Drop)]
pub(crate) struct RecentOutput {
    alloc: Global,
    lines: Vec<Vec<u8>>,
    is_retained: bool,
}

impl RecentOutput {
    ghost use Rattle.std.specs.Prelude.{[], false, true, OnOk};
    ghost use Rattle.lapd_cli_live.specs.RecentOutput.{has_line, recent_lines, with_line};

    /// No lines. Printed lines are not kept yet.
    pub(crate) fn new(alloc: Global) -> RecentOutput
        ensures lines { recent_lines result ≡ [] }
        ensures preserved { result.is_retained ≡ false }
    {
        RecentOutput {
            alloc,
            lines: Vec::new(alloc),
            is_retained: false,
        }
    }

    /// Keeps the lines that are printed from now on.
    pub(crate) fn retain(&mut self)
        ensures lines { recent_lines self.new ≡ recent_lines self.old }
        ensures preserved { self.new.is_retained ≡ true }
    {
        self.is_retained = true;
    }

    /// Forgets all lines, and stops keeping them.
    pub(crate) fn forget(&mut self)
        ensures lines { recent_lines self.new ≡ [] }
        ensures preserved { self.new.is_retained ≡ false }
    {
        self.is_retained = false;
        self.lines.clear();
    }

    /// Adds a printed line, if lines are kept.
    ///
    /// # Errors
    ///
    /// `AllocError`.
    pub(crate) fn add(&mut self, line: &[u8]) -> Result<(), AllocError>
        ensures lines { OnOk result (recent_lines self.new
            ≡ with_line self.old.is_retained line.now (recent_lines self.old)) }
        ensures preserved { self.new.is_retained ≡ self.old.is_retained }
    {
        if !self.is_retained {
            return Ok(());
        }
        if self.lines.len() >= MOST_LINES {
            self.lines.clear();
        }
        let mut copy = Vec::new(self.alloc);
        copy.extend_from_slice(line)?;
        self.lines.push(copy)?;
        Ok(())
    }

    /// Returns whether a kept line begins with these words. The first such line is forgotten with
    /// the lines before it, or all lines if there is none. Stops keeping lines.
    pub(crate) fn take(&mut self, words: &[u8]) -> bool
        ensures matched { result ≡ has_line words.now (recent_lines self.old) }
        ensures lines { recent_lines self.new ≡ lines_behind words.now (recent_lines self.old) }
        ensures preserved { self.new.is_retained ≡ false }
    {
        self.is_retained = false;
        match place_of(self.lines.as_slice(), words) {
            Some(place) => {
                let _ = self.lines.drain(..=place);
                true
            }
            None => {
                self.lines.clear();
                false
            }
        }
    }
}

/// The index of the first of these lines that begins with these words.
fn place_of(lines: &[Vec<u8>], words: &[u8]) -> Option<usize>
    ensures within { IfSome result (λ place. place < length lines.now) }
    ensures matched { is_some result ≡ list_any (begins_with words.now) lines.now }
    ensures first { IfSome result (λ place. line_octets (drop (place + 1) lines.now)
        ≡ lines_behind words.now (line_octets lines.now)) }
    ensures none { result ≡ None → lines_behind words.now (line_octets lines.now) ≡ [] }
{
    for (place, line) in lines.iter().enumerate() {
        if begins_as(words, line.as_slice()) {
            return Some(place);
        }
    }
    None
}
