//! Printing frames one after the other, with the remarks on them if their links are followed.

ghost use Rattle.std.specs.Prelude.{◌≡◌, ◌++◌, nat_lt, true, IfOk, OnOk};
ghost use Rattle.std.specs.String.{string_bytes};
ghost use Rattle.lapd_cli_frames.specs.Frames.{ClosingEnds, PrintEnds, after_frame, after_missing, after_shown, anew, bare_text, closing_text, followed_packet, frame_text, heard_by, in_zone, is_complete, is_violated_by, line_packet, line_with, listening_by, missing_text, new_printing, said_by, said_if, shown_packet, tables_of, text_by};
ghost use Rattle.lapd_cli_frames.specs.AnySapi.{has_other_sapi};
ghost use Rattle.lapd_cli_frames.specs.Time.{front_text};

use crate::any_sapi::has_other_sapi;
use crate::color::put_colored;
use crate::drawn::{drawn_part, put_text};
use crate::frame_style::{Drawing, FrameStyle, Layout};
use crate::frame_time::either;
use crate::missing::{Missing, put_missing};
use crate::shown_text::{write_other, write_unsent};
use crate::style::Style;
use crate::tables::put_tables;
use lapd_cli_ladder::FrameToDraw;
use lapd_cli_render::Packet;
use lapd_cli_script::{LineFault, ScriptFault};
use lapd_follow::{Listener, Remarks, sender_by_kind};
use lapd_frame::Side;
use lapd_zone::Zone;
use std::alloc::{AllocError, Global};
use std::io::Write;
use std::marker::Model;

/// Where frames come from.
#[derive(Clone, Copy)]
pub enum Origin {
    /// The lines of a script.
    Script,
    /// The packets of a capture.
    Capture,
}

/// How links are followed.
#[derive(Clone, Copy)]
pub struct Follow {
    /// The window k of all links, 1 to 127, if it is known.
    pub k: Option<u8>,
}

/// Prints the requested frames, and follows the links of all if that is requested. It reuses its
/// text for all frames.
#[derive(Drop)]
pub struct FramePrinter {
    alloc: Global,
    origin: Origin,
    how: FrameStyle,
    /// The zone of dates.
    zone: Zone,
    frames: u64,
    has_user: bool,
    /// Whether it was reported that a capture does not name a sender.
    is_noted: bool,
    /// How many datagrams to the port of GSMTAP were not GSMTAP.
    strangers: u64,
    /// How many frames have a kind and a C/R bit that fit their named sender, and that do not.
    fits: u64,
    misfits: u64,
    printed: u64,
    first: Option<u64>,
    last: Option<u64>,
    /// How many packets the capture said to lack, up to the frame before.
    missing: u64,
    listener: Option<Listener>,
    text: String,
}

impl Model for FramePrinter {
    ghost use Rattle.lapd_cli_frames.specs.Frames.{Printing};

    ghost Value = { Printing };

    ghost view = { λ p. record {
      origin = p.origin;
      how = p.how;
      zone = p.zone;
      frames = p.frames;
      has_user = p.has_user;
      printed = p.printed;
      first = p.first;
      last = p.last;
      missing = p.missing;
      listening = p.listener;
    } };
}

impl FramePrinter {
    /// A printer before the first frame, with dates in this zone.
    ///
    /// # Errors
    ///
    /// `AllocError` if links are followed and an allocation fails.
    pub fn new(
        alloc: Global,
        origin: Origin,
        how: FrameStyle,
        follow: Option<Follow>,
        zone: Zone,
    ) -> Result<FramePrinter, AllocError>
        ensures { IfOk result (λ printer. printer
            ≡ in_zone zone (new_printing origin how follow)) }
    {
        let listener = listener_by(alloc, follow)?;
        Ok(FramePrinter {
            alloc,
            origin,
            how,
            zone,
            frames: 0,
            has_user: false,
            is_noted: false,
            strangers: 0,
            fits: 0,
            misfits: 0,
            printed: 0,
            first: None,
            last: None,
            missing: 0,
            listener,
            text: String::new(alloc),
        })
    }

    /// The same with dates in UTC.
    ///
    /// # Errors
    ///
    /// `AllocError` if links are followed and an allocation fails.
    pub fn in_utc(
        alloc: Global,
        origin: Origin,
        how: FrameStyle,
        follow: Option<Follow>,
    ) -> Result<FramePrinter, AllocError>
        ensures { IfOk result (λ printer. printer ≡ new_printing origin how follow) }
    {
        FramePrinter::new(alloc, origin, how, follow, Zone::utc(alloc))
    }

    /// Whether there was a frame.
    pub fn any(&self) -> bool
        ensures { result ≡ nat_lt 0 self.now.frames }
    {
        0 < self.frames
    }

    /// Whether all requested frames are printed.
    pub fn is_complete(&self) -> bool
        ensures { result ≡ is_complete self.now }
    {
        self.how.ends_after(self.printed)
    }

    /// The packet of the next line of a script, at this moment in microseconds since 1970.
    pub fn line_packet(&self, moment: Option<u64>) -> Packet
        ensures { result ≡ line_packet moment self.now }
    {
        Packet {
            number: self.frames.saturating_add(1),
            moment,
            is_cut: false,
        }
    }

    /// Whether a frame so far is certainly the user side's.
    pub fn has_user(&self) -> bool
        ensures { result ≡ self.now.has_user }
    {
        self.has_user
    }

    /// The capture names the user side as the sender of the next frame.
    pub fn see_user(&mut self)
        ensures { self.new ≡ record self.old { has_user = true } }
    {
        self.has_user = true;
    }

    /// Whether this is the first call, so that a note can be printed once.
    pub fn is_first_note(&mut self) -> bool
        ensures { self.new ≡ self.old }
    {
        let is_first = !self.is_noted;
        self.is_noted = true;
        is_first
    }

    /// Counts whether the kind and C/R bit of octets fit a sender that an option, a mark or a capture
    /// names.
    pub fn see_choice(&mut self, from: Option<Side>, octets: &[u8])
        ensures { self.new ≡ self.old }
    {
        let by_kind = sender_by_kind(octets);
        if by_kind.is_none() || from.is_none() {
            return;
        }
        if by_kind == from {
            self.fits = self.fits.saturating_add(1);
        } else {
            self.misfits = self.misfits.saturating_add(1);
        }
    }

    /// Whether no kind and C/R bit of octets fits the chosen sender, and one does not.
    pub fn is_misfit(&self) -> bool {
        self.fits == 0 && self.misfits > 0
    }

    /// Whether the C/R bits of both directions are those of one side: of the kinds and C/R bits that
    /// show a sender, some fit the named one, and a third or more do not.
    pub fn is_one_sided(&self) -> bool {
        self.fits > 0 && self.misfits > 0 && self.misfits >= self.fits / 2
    }

    /// Counts a datagram to the port of GSMTAP that is not GSMTAP.
    pub fn see_stranger(&mut self)
        ensures { self.new ≡ self.old }
    {
        self.strangers = self.strangers.saturating_add(1);
    }

    /// How many datagrams to the port of GSMTAP were not GSMTAP.
    pub fn strangers(&self) -> u64 {
        self.strangers
    }

    /// Whether the layout has no place for the number of missing frames, if there are `total` of
    /// them and some are missing here.
    pub fn hides_missing(&self, total: u64) -> bool {
        self.missing < total
            && matches!(
                self.how.layout,
                Layout::Drawn(Drawing::Picture | Drawing::Records)
            )
    }

    /// How many frames are missing here, if there are `total` of them.
    pub fn missing_of(&self, total: u64) -> Missing {
        Missing {
            count: total.saturating_sub(self.missing),
        }
    }

    /// Prints how many frames are missing here, if the capture lacks `total` of them and that is
    /// more than before. Then the links are followed anew.
    ///
    /// # Errors
    ///
    /// `Memory` if an allocation fails, before anything is printed; `Device` if the writer fails.
    pub fn miss<W: Write>(&mut self, total: u64, out: &mut W) -> Result<(), LineFault>
        ensures { PrintEnds (missing_text total self.old) (after_missing total self.old) result
            self.new (W.contents out.old) (W.contents out.new) }
    {
        if total <= self.missing {
            return Ok(());
        }
        let count = total - self.missing;
        begin_anew(&mut self.listener);
        self.missing = total;
        put_missing(self.alloc, self.how.layout, self.how.style, count, out)
    }

    /// Follows the next octets, if links are followed and their sender is known, and prints them
    /// with the remarks on them, unless they are filtered out.
    ///
    /// # Errors
    ///
    /// `Memory` if an allocation fails, before anything is printed; `Device` if the writer fails.
    pub fn print<W: Write>(
        &mut self,
        packet: Packet,
        from: Option<Side>,
        octets: &[u8],
        out: &mut W,
    ) -> Result<(), LineFault>
        ensures { PrintEnds (frame_text packet from octets.now self.old)
            (after_frame packet from octets.now self.old) result self.new (W.contents out.old)
            (W.contents out.new) }
    {
        let mut said = Remarks::none();
        let Ok(is_followed) = listen(
            &mut self.listener,
            followed(packet),
            from,
            octets,
            &mut said,
        ) else {
            return Err(LineFault::Memory);
        };
        self.frames = self.frames.saturating_add(1);
        if !self.how.takes(is_followed, &said, octets) {
            return Ok(());
        }
        match self.how.layout {
            Layout::Lines => self.show_line(is_followed, &said, packet, from, octets, out),
            Layout::Drawn(drawing) => {
                self.show_drawn(drawing, is_followed, &said, packet, from, octets, out)
            }
        }
    }

    /// Prints octets, with these remarks if links are followed, as a part of a drawing.
    fn show_drawn<W: Write>(
        &mut self,
        drawing: Drawing,
        is_followed: bool,
        said: &Remarks,
        packet: Packet,
        from: Option<Side>,
        octets: &[u8],
        out: &mut W,
    ) -> Result<(), LineFault>
        ensures { PrintEnds (text_by (Layout.Drawn drawing) (said_if is_followed said.now) packet
            from octets.now self.old) (after_shown packet.moment self.old) result self.new
            (W.contents out.old) (W.contents out.new) }
    {
        let time = self
            .how
            .time
            .of(&self.zone, self.first, self.last, packet.moment);
        let Ok(words) = self.how.time.words(self.alloc, time) else {
            return Err(LineFault::Memory);
        };
        let said = said_if(is_followed, said);
        let frame = FrameToDraw {
            packet,
            time: words.as_bytes(),
            from,
            octets,
            said: &said,
            listener: &self.listener,
        };
        let Ok(text) = drawn_part(self.alloc, drawing, &self.how, self.printed, &frame) else {
            return Err(LineFault::Memory);
        };
        self.count(packet.moment);
        put_text(text.as_slice(), out)
    }

    /// Counts a printed frame that was captured at this moment.
    fn count(&mut self, moment: Option<u64>)
        ensures { self.new ≡ after_shown moment self.old }
    {
        self.printed = self.printed.saturating_add(1);
        self.first = either(self.first, moment);
        self.last = either(moment, self.last);
    }

    /// Prints octets as a line, with these remarks if links are followed.
    fn show_line<W: Write>(
        &mut self,
        is_followed: bool,
        said: &Remarks,
        packet: Packet,
        from: Option<Side>,
        octets: &[u8],
        out: &mut W,
    ) -> Result<(), LineFault>
        ensures { PrintEnds
            (line_with (said_if is_followed said.now) packet from octets.now self.old)
            (after_shown packet.moment self.old) result self.new (W.contents out.old)
            (W.contents out.new) }
    {
        let time = self
            .how
            .time
            .of(&self.zone, self.first, self.last, packet.moment);
        self.count(packet.moment);
        let Ok(()) = write_line(
            self.alloc,
            self.origin,
            &self.how,
            time,
            packet,
            from,
            octets,
            &mut self.text,
        ) else {
            return Err(LineFault::Memory);
        };
        put_colored(
            self.alloc,
            self.how.is_colored,
            self.how.style,
            from,
            &mut self.text,
            is_followed,
            said,
            out,
        )
    }

    /// Prints the tables of the links, if these are followed and the frames are not drawn. Returns
    /// whether a remark was a violation.
    ///
    /// # Errors
    ///
    /// `Memory` if an allocation fails, before anything is printed; `Device` if the writer fails.
    pub fn close<W: Write>(&self, out: &mut W) -> Result<bool, ScriptFault>
        ensures { ClosingEnds (closing_text self.now) self.now.listening result
            (W.contents out.old) (W.contents out.new) }
    {
        match self.how.layout {
            Layout::Lines => close_links(self.alloc, self.how.style, &self.listener, out),
            Layout::Drawn(_) => Ok(is_violated_by(&self.listener)),
        }
    }
}

/// The listener before the first frame, if links are followed.
fn listener_by(alloc: Global, follow: Option<Follow>) -> Result<Option<Listener>, AllocError>
    ensures { IfOk result (λ listener. listener ≡ listening_by follow) }
{
    match follow {
        None => Ok(None),
        Some(follow) => {
            let listener = Listener::new(alloc, follow.k)?;
            Ok(Some(listener))
        }
    }
}

/// Lets the listener follow the links anew, if there is one.
fn begin_anew(listener: &mut Option<Listener>)
    ensures { listener.new ≡ anew listener.old }
{
    match listener {
        None => {}
        Some(listener) => listener.begin_anew(),
    }
}

/// These remarks, if links are followed.
fn said_if(is_followed: bool, said: &Remarks) -> Option<Remarks>
    ensures { result ≡ said_if is_followed said.now }
{
    if is_followed { Some(*said) } else { None }
}

/// Passes octets to the listener, if there is one and the sender is known, and replaces `said` with
/// its remarks, none without a known sender. Returns whether there is a listener.
fn listen(
    listener: &mut Option<Listener>,
    packet: lapd_follow::Packet,
    from: Option<Side>,
    octets: &[u8],
    said: &mut Remarks,
) -> Result<bool, AllocError>
    ensures said { IfOk result (λ is_followed. said_if is_followed said.new
        ≡ said_by packet from octets.now listener.old) }
    ensures after { OnOk result (listener.new ≡ heard_by packet from octets.now listener.old) }
{
    match listener {
        None => Ok(false),
        Some(listener) => match from {
            None => {
                *said = Remarks::none();
                Ok(true)
            }
            Some(from) => {
                listener.octets_into(packet, from, octets, said)?;
                Ok(true)
            }
        },
    }
}

/// Replaces `line` with the text of a frame without remarks, after this time.
fn write_line(
    alloc: Global,
    origin: Origin,
    how: &FrameStyle,
    time: Option<u64>,
    packet: Packet,
    from: Option<Side>,
    octets: &[u8],
    line: &mut String,
) -> Result<(), AllocError>
    ensures { OnOk result (string_bytes line.new ≡ front_text how.now.style how.now.time time
        ++ bare_text (has_other_sapi how.now.any_sapi octets.now) origin how.now.style packet from
        octets.now) }
{
    let is_other = has_other_sapi(how.any_sapi, octets);
    write_bare(
        alloc, is_other, origin, how.style, packet, from, octets, line,
    )?;
    how.time.put_before(alloc, how.style, time, line)
}

/// Replaces `line` with the text of a frame without time and remarks, which has another SAPI if
/// `is_other`.
fn write_bare(
    alloc: Global,
    is_other: bool,
    origin: Origin,
    style: Style,
    packet: Packet,
    from: Option<Side>,
    octets: &[u8],
    line: &mut String,
) -> Result<(), AllocError>
    ensures { OnOk result (string_bytes line.new
        ≡ bare_text is_other origin style packet from octets.now) }
{
    let shown = shown_packet(origin, packet);
    if is_other {
        return write_other(alloc, style, packet.is_cut, shown, from, octets, line);
    }
    match from {
        None => write_unsent(alloc, style, packet.is_cut, shown, octets, line),
        Some(from) => match origin {
            Origin::Script => style.write(alloc, from, octets, line),
            Origin::Capture => style.write_packet(alloc, from, octets, packet, line),
        },
    }
}

/// The packet that is printed: one of a capture.
fn shown_packet(origin: Origin, packet: Packet) -> Option<Packet>
    ensures { result ≡ shown_packet origin packet }
{
    match origin {
        Origin::Script => None,
        Origin::Capture => Some(packet),
    }
}

/// The packet, for a listener.
fn followed(packet: Packet) -> lapd_follow::Packet
    ensures { result ≡ followed_packet packet }
{
    lapd_follow::Packet {
        number: packet.number,
        moment: packet.moment,
    }
}

/// Prints the tables of the links that a listener followed. Returns whether a remark was a
/// violation.
fn close_links<W: Write>(
    alloc: Global,
    style: Style,
    listener: &Option<Listener>,
    out: &mut W,
) -> Result<bool, ScriptFault>
    ensures { ClosingEnds (tables_of style listener.now) listener.now result
        (W.contents out.old) (W.contents out.new) }
{
    match listener {
        None => Ok(false),
        Some(listener) => match put_tables(alloc, style, listener.links(), out) {
            Ok(()) => Ok(listener.has_violation()),
            Err(ScriptFault::Memory) => Err(ScriptFault::Memory),
            Err(_) => Err(ScriptFault::Device),
        },
    }
}

/// Whether a listener found a violation.
fn is_violated_by(listener: &Option<Listener>) -> bool
    ensures { result ≡ is_violated_by listener.now }
{
    match listener {
        None => false,
        Some(listener) => listener.has_violation(),
    }
}
