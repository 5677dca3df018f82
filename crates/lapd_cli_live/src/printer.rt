//! The lines that a side prints while it runs on the real clock.

ghost use Rattle.std.specs.Prelude.{◌≡◌, ◌||◌, ◌++◌, ◌∷◌, [], ℕ, List, codes, OnOk};
ghost use Rattle.std.specs.String.{string_bytes};
ghost use Rattle.lapd_cli_render.specs.Json.{frame_members, object_text, text_members};
ghost use Rattle.lapd_trace.specs.Trace.{trace_line};
ghost use Rattle.lapd_cli_live_text.specs.Stats.{received_words, reports_words, sent_words};
ghost use Rattle.lapd_cli_live.specs.Entries.{Dated, Lost, Named, Received, Sent, Delivered, Worded, begins_so as begins, moment_text, refused, sent_entry, stats_entries, timed_object, unless_quiet, with_moment};
ghost use Rattle.lapd_frame.specs.declared.Side.{Side as SideValue};
ghost use Rattle.lapd_frame.specs.Address.{other_side};
ghost use Rattle.lapd_frame.specs.Reading.{frame_at};
ghost use Rattle.lapd_cli_script.specs.Line.{text_line};
ghost use Rattle.lapd_cli_side_lines.specs.SideTexts.{frame_text_line};

use crate::fault::LiveFault;
use crate::recent_output::RecentOutput;
use crate::style::Style;
use lapd_cli_live_text::{Stats, begins_as, words_object};
use lapd_cli_script::LineFault;
use lapd_cli_side_lines::{LineStyle, primitive_object, push_primitive, push_trace_of};
use lapd_cli_wire::Sending;
use lapd_frame::{Frame, FrameFault, Side, read};
use lapd_sides::{Primitive, SideKind};
use std::alloc::{AllocError, Global};
use std::io::Write;

/// Prints the lines of a side, counts its frames, and looks for an awaited line. Printed text is
/// buffered until [`Printer::flush`], so that a slow writer doesn't delay a frame.
#[derive(Drop)]
pub struct Printer<W> {
    pub(crate) alloc: Global,
    pub(crate) out: W,
    pub(crate) style: Style,
    /// The moment that printed lines have, in milliseconds since the start.
    pub(crate) moment: u64,
    /// Printed text that was not written to the writer yet.
    pub(crate) text: Vec<u8>,
    /// A buffer for one line in words, with its line feed.
    pub(crate) line: String,
    /// The words that an awaited line begins with; empty if no line is awaited.
    pub(crate) awaited: Vec<u8>,
    pub(crate) is_matched: bool,
    pub(crate) stats: Stats,
    /// The lines that were printed while a line of input was awaited.
    pub(crate) recent_output: RecentOutput,
}

impl<W: Write> Printer<W> {
    ghost use Rattle.std.specs.Prelude.{true, false};
    ghost use Rattle.std.specs.Io.KnownBytes.{Keeps};
    ghost use Rattle.lapd_cli_live.specs.Printers.{Awaits, PrintsOn, PutsLine, shown};
    ghost use Rattle.lapd_cli_live.specs.RecentOutput.{has_line, recent_lines, lines_behind, with_line};

    /// Prints lines of this style.
    pub fn new(alloc: Global, out: W, style: Style) -> Printer<W>
        ensures out { result.out ≡ out }
        ensures text { result.text.items ≡ [] }
        ensures style { result.style ≡ style }
        ensures moment { result.moment ≡ 0 }
        ensures lines { recent_lines result.recent_output ≡ [] }
        ensures preserved { result.recent_output.is_retained ≡ false }
    {
        Printer {
            alloc,
            out,
            style,
            moment: 0,
            text: Vec::new(alloc),
            line: String::new(alloc),
            awaited: Vec::new(alloc),
            is_matched: false,
            stats: Stats::new(),
            recent_output: RecentOutput::new(alloc),
        }
    }

    /// Flushes, and returns the writer and the flush's result. If the flush succeeded and the
    /// writer's contents are known, the writer holds exactly what was printed.
    pub fn into_inner(mut self) -> (W, Result<(), LiveFault>)
        ensures { OnOk result.1 (Keeps (shown W.contents self).text (W.contents result.0)) }
    {
        let flushed = self.flush();
        let Printer { out, .. } = self;
        (out, flushed)
    }

    /// The moment that printed lines have, in milliseconds since the start.
    pub(crate) fn moment(&self) -> u64
        ensures { result ≡ self.now.moment }
    {
        self.moment
    }

    /// Sets the moment that printed lines have from now on.
    pub(crate) fn set_moment(&mut self, now: u64)
        ensures moment { self.new.moment ≡ now }
        ensures dated { (own : SideValue) →
            PrintsOn W.contents own (Dated now ∷ []) self.old self.new }
    {
        self.moment = now;
    }

    /// Awaits a line that begins with these words, from now on. Empty words await no line.
    ///
    /// # Errors
    ///
    /// `AllocError`.
    pub(crate) fn await_line(&mut self, words: &[u8]) -> Result<(), AllocError>
        ensures { OnOk result (Awaits words.now self.old self.new) }
    {
        self.is_matched = false;
        self.awaited.clear();
        self.awaited.extend_from_slice(words)
    }

    /// Stops awaiting a line. Returns whether the awaited line was printed.
    pub(crate) fn end_wait(&mut self) -> bool
        ensures matched { result ≡ self.old.is_matched }
        ensures ends { Awaits [] self.old self.new }
    {
        let was_matched = self.is_matched;
        self.awaited.clear();
        self.is_matched = false;
        was_matched
    }

    /// Keeps the lines that are printed from now on for the next `expect`, as a line of input is
    /// awaited.
    pub(crate) fn retain_unseen(&mut self)
        ensures same { self.new ≡ record self.old { recent_output = self.new.recent_output } }
        ensures lines { recent_lines self.new.recent_output ≡ recent_lines self.old.recent_output }
        ensures preserved { self.new.recent_output.is_retained ≡ true }
    {
        self.recent_output.retain();
    }

    /// Forgets the kept lines, as a line of input is executed that isn't an `expect`.
    pub(crate) fn forget_unseen(&mut self)
        ensures same { self.new ≡ record self.old { recent_output = self.new.recent_output } }
        ensures lines { recent_lines self.new.recent_output ≡ [] }
        ensures preserved { self.new.recent_output.is_retained ≡ false }
    {
        self.recent_output.forget();
    }

    /// Returns whether a kept line begins with these words. The first such line is forgotten with
    /// the lines before it, or all lines if there is none.
    pub(crate) fn take_unseen(&mut self, words: &[u8]) -> bool
        ensures same { self.new ≡ record self.old { recent_output = self.new.recent_output } }
        ensures matched { result ≡ has_line words.now (recent_lines self.old.recent_output) }
        ensures lines { recent_lines self.new.recent_output
            ≡ lines_behind words.now (recent_lines self.old.recent_output) }
        ensures preserved { self.new.recent_output.is_retained ≡ false }
    {
        self.recent_output.take(words)
    }

    /// Whether the awaited line was printed.
    pub(crate) fn is_matched(&self) -> bool
        ensures { result ≡ self.now.is_matched }
    {
        self.is_matched
    }

    /// Counts a frame that the other side sent, and prints its line. `own` is this side, and
    /// `frame` is what [`lapd_frame::read`] returned for the octets.
    ///
    /// # Errors
    ///
    /// `Memory`.
    pub(crate) fn put_received(
        &mut self,
        own: Side,
        octets: &[u8],
        frame: &Result<Frame<'_>, FrameFault>,
    ) -> Result<(), LiveFault>
        requires was_read { frame.now ≡ frame_at (other_side own) octets.now }
        ensures { OnOk result (PrintsOn W.contents own (Received octets.now ∷ [])
            self.old self.new) }
    {
        self.stats.count_received(octets, frame);
        self.put_frame(own.other(), octets, frame)
    }

    /// Counts a frame that this side sent, and prints its line, or that it was lost on purpose.
    ///
    /// # Errors
    ///
    /// `Memory`.
    pub(crate) fn put_sent(
        &mut self,
        own: Side,
        octets: &[u8],
        sending: Sending,
    ) -> Result<(), LiveFault>
        ensures { OnOk result (PrintsOn W.contents own (sent_entry octets.now sending ∷ [])
            self.old self.new) }
    {
        let frame = read(octets, own);
        self.stats.count_sent(octets, &frame);
        match sending {
            Sending::Sent => self.put_frame(own, octets, &frame),
            Sending::Lost => self.put_lost(own, octets),
        }
    }

    /// Prints the line of a frame from this sender, unless the style omits lines of frames. `frame`
    /// is what [`lapd_frame::read`] returned for the octets.
    fn put_frame(
        &mut self,
        from: Side,
        octets: &[u8],
        frame: &Result<Frame<'_>, FrameFault>,
    ) -> Result<(), LiveFault>
        requires was_read { frame.now ≡ frame_at from octets.now }
        ensures { OnOk result (PutsLine (unless_quiet self.old.style
            (frame_text_line LineStyle.Text from octets.now))
            (object_text (frame_members from octets.now)) self.old self.new) }
    {
        if self.style.quiet {
            return Ok(());
        }
        self.line.clear();
        push_trace_of(self.alloc, &mut self.line, from, octets, frame)?;
        match self.style.lines {
            LineStyle::Text => self.put_words_line(),
            LineStyle::Json => {
                let object = lapd_cli_render::line_of(self.alloc, from, octets, frame)?;
                self.put_object_line(object.as_str())
            }
        }
    }

    /// Prints that a frame was lost on purpose, unless the style omits lines of frames.
    fn put_lost(&mut self, from: Side, octets: &[u8]) -> Result<(), LiveFault>
        ensures { OnOk result (PutsLine (unless_quiet self.old.style
            (text_line (codes "lost" ++ 32 ∷ trace_line from octets.now)))
            (object_text (text_members (codes "lost") (trace_line from octets.now)))
            self.old self.new) }
    {
        if self.style.quiet {
            return Ok(());
        }
        let line = lapd_trace::line(self.alloc, from, octets)?;
        self.put_text("lost", line.as_str())
    }

    /// Prints a primitive to layer 3, if it has a line.
    ///
    /// # Errors
    ///
    /// `Memory`.
    pub(crate) fn put_primitive(&mut self, primitive: &Primitive) -> Result<(), LiveFault>
        ensures { (own : SideValue) → OnOk result
            (PrintsOn W.contents own (Delivered primitive.now ∷ []) self.old self.new) }
    {
        self.stats.count_primitive(primitive);
        self.line.clear();
        push_primitive(self.alloc, LineStyle::Text, primitive, &mut self.line)?;
        match self.style.lines {
            LineStyle::Text => self.put_words_line(),
            LineStyle::Json => {
                let object = primitive_object(self.alloc, primitive)?;
                self.put_object_line(object.as_str())
            }
        }
    }

    /// Prints why a request was refused.
    ///
    /// # Errors
    ///
    /// `Memory`, also if the request was refused for lack of memory.
    pub(crate) fn put_refused(&mut self, kind: SideKind) -> Result<(), LiveFault>
        ensures { (own : SideValue) → OnOk result
            (PrintsOn W.contents own (refused kind ∷ []) self.old self.new) }
    {
        if kind == SideKind::Memory {
            return Err(LiveFault::Line(LineFault::Memory));
        }
        let why = format!(in self.alloc; "{kind}")?;
        self.put_named("refused", why.as_str())
    }

    /// Prints a name, a space and a text, or an object with the text as its member of that name.
    ///
    /// # Errors
    ///
    /// `Memory`.
    pub(crate) fn put_named(&mut self, name: &str, text: &str) -> Result<(), LiveFault>
        ensures { (own : SideValue) → OnOk result
            (PrintsOn W.contents own (Named name.now text.now ∷ []) self.old self.new) }
    {
        self.put_text(name, text)
    }

    /// Prints a name, a space and a text.
    fn put_text(&mut self, name: &str, text: &str) -> Result<(), LiveFault>
        ensures { OnOk result (PutsLine (text_line (name.now ++ 32 ∷ text.now))
            (object_text (text_members name.now text.now)) self.old self.new) }
    {
        self.line.clear();
        self.line.push_str(name)?;
        self.line.push(' ')?;
        self.line.push_str(text)?;
        self.line.push('\n')?;
        match self.style.lines {
            LineStyle::Text => self.put_words_line(),
            LineStyle::Json => {
                let object = lapd_cli_render::text_line(self.alloc, name, text)?;
                self.put_object_line(object.as_str())
            }
        }
    }

    /// Prints a line of words and named numbers.
    ///
    /// # Errors
    ///
    /// `Memory`.
    pub(crate) fn put_words(&mut self, words: &str) -> Result<(), LiveFault>
        ensures { (own : SideValue) → OnOk result
            (PrintsOn W.contents own (Worded words.now ∷ []) self.old self.new) }
    {
        self.line.clear();
        self.line.push_str(words)?;
        self.line.push('\n')?;
        match self.style.lines {
            LineStyle::Text => self.put_words_line(),
            LineStyle::Json => {
                let object = words_object(self.alloc, words)?;
                self.put_object_line(object.as_str())
            }
        }
    }

    /// Prints the three lines of statistics. `discarded` is the number of discarded frames.
    ///
    /// # Errors
    ///
    /// `Memory`.
    pub(crate) fn put_stats(&mut self, discarded: u64) -> Result<(), LiveFault>
        ensures { (own : SideValue) → OnOk result (PrintsOn W.contents own
            (stats_entries self.old.stats discarded) self.old self.new) }
    {
        self.put_sent_stats()?;
        self.put_received_stats(discarded)?;
        self.put_reports()
    }

    /// Prints the numbers of sent frames.
    fn put_sent_stats(&mut self) -> Result<(), LiveFault>
        ensures { (own : SideValue) → OnOk result (PrintsOn W.contents own
            (Worded (sent_words self.old.stats) ∷ []) self.old self.new) }
    {
        let mut words = String::new(self.alloc);
        self.stats.push_sent(&mut words)?;
        self.put_words(words.as_str())
    }

    /// Prints the numbers of received frames.
    fn put_received_stats(&mut self, discarded: u64) -> Result<(), LiveFault>
        ensures { (own : SideValue) → OnOk result (PrintsOn W.contents own
            (Worded (received_words self.old.stats discarded) ∷ []) self.old self.new) }
    {
        let mut words = String::new(self.alloc);
        self.stats.push_received(discarded, &mut words)?;
        self.put_words(words.as_str())
    }

    /// Prints the errors that were reported.
    fn put_reports(&mut self) -> Result<(), LiveFault>
        ensures { (own : SideValue) → OnOk result (PrintsOn W.contents own
            (Worded (reports_words self.old.stats) ∷ []) self.old self.new) }
    {
        let mut words = String::new(self.alloc);
        self.stats.push_reports(&mut words)?;
        self.put_words(words.as_str())
    }

    /// Writes the buffered text to the writer, and flushes the writer. If this succeeds, the buffer
    /// is empty.
    ///
    /// # Errors
    ///
    /// `Device`.
    pub(crate) fn flush(&mut self) -> Result<(), LiveFault>
        ensures shown { (own : SideValue) → OnOk result
            (PrintsOn W.contents own [] self.old self.new) }
        ensures written { OnOk result
            (Keeps (shown W.contents self.old).text (W.contents self.new.out)) }
        ensures empty { OnOk result (self.new.text.items ≡ []) }
    {
        self.out.write_all(self.text.as_slice())?;
        self.text.clear();
        self.out.flush()?;
        Ok(())
    }

    /// Prints the buffered line, in words.
    fn put_words_line(&mut self) -> Result<(), LiveFault>
        requires { self.old.style.lines ≡ LineStyle.Text }
        ensures { (object : List ℕ) → OnOk result
            (PutsLine (string_bytes self.old.line) object self.old self.new) }
    {
        if self.line.is_empty() {
            return Ok(());
        }
        self.notice_line()?;
        push_moment(self.style, self.moment, &mut self.text)?;
        self.text.extend_from_slice(self.line.as_bytes())?;
        Ok(())
    }

    /// Prints this object in place of the buffered line.
    fn put_object_line(&mut self, object: &str) -> Result<(), LiveFault>
        requires { self.old.style.lines ≡ LineStyle.Json }
        ensures { OnOk result
            (PutsLine (string_bytes self.old.line) object.now self.old self.new) }
    {
        if self.line.is_empty() {
            return Ok(());
        }
        self.notice_line()?;
        push_object(self.style, self.moment, object.as_bytes(), &mut self.text)?;
        Ok(())
    }

    /// Notes whether the buffered line is the awaited one, and keeps it for a later `expect`.
    fn notice_line(&mut self) -> Result<(), AllocError>
        ensures matched { OnOk result (self.new ≡ record self.old {
          is_matched = self.old.is_matched
              || begins self.old.awaited.items (string_bytes self.old.line);
          recent_output = self.new.recent_output;
        }) }
        ensures lines { OnOk result (recent_lines self.new.recent_output
            ≡ with_line self.old.recent_output.is_retained (string_bytes self.old.line)
            (recent_lines self.old.recent_output)) }
        ensures preserved { OnOk result
            (self.new.recent_output.is_retained ≡ self.old.recent_output.is_retained) }
    {
        if begins_so(self.awaited.as_slice(), self.line.as_bytes()) {
            self.is_matched = true;
        }
        self.recent_output.add(self.line.as_bytes())
    }
}

/// Whether words are awaited and a line begins with them.
fn begins_so(awaited: &[u8], line: &[u8]) -> bool
    ensures { result ≡ begins awaited.now line.now }
{
    match line {
        [] => false,
        [_, ..] => !awaited.is_empty() && begins_as(awaited, line),
    }
}

/// Appends the moment of a line and a space, if the style shows moments.
fn push_moment(style: Style, now: u64, text: &mut Vec<u8>) -> Result<(), AllocError>
    ensures { OnOk result (text.new.items ≡ text.old.items ++ moment_text style now) }
{
    if !style.time {
        return Ok(());
    }
    text.extend_from_slice(itoa::Buffer::new().format(now).as_bytes())?;
    text.push(b' ')?;
    Ok(())
}

/// Appends an object and a line feed. If the style shows moments, the moment is the object's last
/// member.
fn push_object(style: Style, now: u64, object: &[u8], text: &mut Vec<u8>) -> Result<(), AllocError>
    ensures { OnOk result (text.new.items
        ≡ text.old.items ++ text_line (timed_object style now object.now)) }
{
    if style.time {
        push_timed(now, object, text)?;
    } else {
        text.extend_from_slice(object)?;
    }
    text.push(b'\n')?;
    Ok(())
}

/// Appends an object with the moment as its last member, in place of its closing brace.
fn push_timed(now: u64, object: &[u8], text: &mut Vec<u8>) -> Result<(), AllocError>
    ensures { OnOk result (text.new.items
        ≡ text.old.items ++ (with_moment now object.now)) }
{
    let end = object.len().saturating_sub(1);
    text.extend_from_slice(&object[..end])?;
    text.extend_from_slice(b",\"time\":")?;
    text.extend_from_slice(itoa::Buffer::new().format(now).as_bytes())?;
    text.push(b'}')?;
    Ok(())
}
