//! Printing the frames of a capture.

ghost use Rattle.std.specs.Prelude.{◌≡◌, length, List, ℕ, None, Some, OnOk};
ghost use Rattle.std.specs.Io.KnownBytes.{Appends, Keeps};
ghost use Rattle.lapd_capture.specs.Packet.{IsWithin};
ghost use Rattle.lapd_capture.specs.Reader.{reading_of, unread};
ghost use Rattle.lapd_cli_decode.specs.Captured.{CaptureCloses, CaptureEnds, IsOtherStop, ItemsEnd, StepsFrom, after_found, after_item, begins_at, begins_in, found_text, is_user, item_text, named_sender, place_of, sender_in, with_sender};
ghost use Rattle.lapd_cli_frames.specs.Frames.{after_missing, missing_text};

use lapd_capture::{CaptureFault, CaptureItem, CaptureReader, PacketFault, ReadFault, Span};
use lapd_cli_frames::{Follow, FramePrinter, FrameStyle, Origin, Packet, Zone, named_or_by_kind};
use lapd_cli_script::{LineFault, ScriptFault};
use lapd_frame::Side;
use std::alloc::Global;
use std::io::{ErrorKind, Read, Write};
use thiserror::Error;

/// Why reading a capture stopped before its end. Places are offsets into the capture, in octets
/// from 0.
#[derive(Clone, Copy, Debug, PartialEq, Eq, Error)]
pub enum CaptureStop {
    /// The block or packet at this place can't be read, nor anything after it.
    #[error("octet {1}: {0}")]
    Capture(CaptureFault, u64),
    /// The packet at this place can't be read.
    #[error("octet {1}: {0}")]
    Packet(PacketFault, u64),
    /// The reader of the capture failed.
    #[error("device fault")]
    Input(ErrorKind),
    /// The writer failed.
    #[error("device fault")]
    Device,
    /// An allocation failed.
    #[error("out of memory")]
    Memory,
}

/// The report that a capture does not name a sender.
const UNNAMED: &str = "\
the capture does not name each sender: it is taken from the kind and C/R bit of the frame, or \
printed as ?; --sender names it";

/// The report that the C/R bits of both directions are those of one side.
const ONE_SIDE: &str = "\
both directions have the C/R bits of one side (Q.921 3.3.2): both ends are set up as the same side, \
or the line is looped; set one end up as the other side, or open the loop";

/// How to print the frames of a capture.
#[derive(Clone, Copy)]
pub struct CaptureStyle {
    /// How frames are printed, and which.
    pub frames: FrameStyle,
    /// The sender of frames whose capture does not name it; if `None`, it is taken from their kind
    /// and C/R bit (Q.921 3.3.2).
    pub sender: Option<Side>,
    /// Whether unreadable packets are skipped.
    pub keeps_going: bool,
}

/// The result of printing the frames of a capture.
#[derive(Clone, Copy, Debug, PartialEq, Eq)]
pub struct Seen {
    /// Whether there was a frame, printed or not.
    pub any: bool,
    /// Whether a remark is a violation; `false` if links are not followed.
    pub is_violated: bool,
}

/// Prints the requested frames of a capture from its current place. Reading stops at the end of the
/// capture, or after as many printed frames as were requested. The writer is flushed before each
/// read that may wait. If `keeps_going` is set, an unreadable packet is reported on the error
/// writer and skipped. Datagrams to the port of GSMTAP that are not GSMTAP are skipped, and counted
/// there at the end. If a capture does not name a sender, and `how` neither, this is reported there
/// once. Failures of the error writer are ignored.
///
/// # Errors
///
/// `Capture` and `Packet` at a fault, with the requested frames before it printed; `Input` if a
/// read fails; `Device` if a write fails; `Memory` if an allocation fails.
pub fn decode_capture<R: Read, W: Write, E: Write>(
    alloc: Global,
    capture: &mut CaptureReader<R>,
    out: &mut W,
    errors: &mut E,
    how: CaptureStyle,
) -> Result<Seen, CaptureStop>
    ensures { (left : List ℕ) → unread R.remaining capture.old ≡ Some left
        → CaptureEnds how (begins_at how None (reading_of capture.old left)) result
        (W.contents out.old) (W.contents out.new) }
{
    decode_capture_in(alloc, Zone::utc(alloc), capture, out, errors, how, None)
}

/// Like [`decode_capture`], but follows the link of each frame, printed or not: the remarks on a
/// frame are printed behind it, and after the last frame a table of each link.
///
/// # Errors
///
/// `Capture` and `Packet` at a fault, with the requested frames before it printed; `Input` if a
/// read fails; `Device` if a write fails; `Memory` if an allocation fails.
pub fn follow_capture<R: Read, W: Write, E: Write>(
    alloc: Global,
    capture: &mut CaptureReader<R>,
    out: &mut W,
    errors: &mut E,
    how: CaptureStyle,
    follow: Follow,
) -> Result<Seen, CaptureStop>
    ensures { (left : List ℕ) → unread R.remaining capture.old ≡ Some left
        → CaptureEnds how (begins_at how (Some follow) (reading_of capture.old left)) result
        (W.contents out.old) (W.contents out.new) }
{
    decode_capture_in(
        alloc,
        Zone::utc(alloc),
        capture,
        out,
        errors,
        how,
        Some(follow),
    )
}

/// Like [`decode_capture`], or like [`follow_capture`] if links are followed, with dates in this
/// zone.
///
/// # Errors
///
/// `Capture` and `Packet` at a fault, with the requested frames before it printed; `Input` if a
/// read fails; `Device` if a write fails; `Memory` if an allocation fails.
pub fn decode_capture_in<R: Read, W: Write, E: Write>(
    alloc: Global,
    zone: Zone,
    capture: &mut CaptureReader<R>,
    out: &mut W,
    errors: &mut E,
    how: CaptureStyle,
    follow: Option<Follow>,
) -> Result<Seen, CaptureStop>
    ensures { (left : List ℕ) → unread R.remaining capture.old ≡ Some left
        → CaptureEnds how (begins_in zone how follow (reading_of capture.old left)) result
        (W.contents out.old) (W.contents out.new) }
{
    match FramePrinter::new(alloc, Origin::Capture, how.frames, follow, zone) {
        Ok(mut printer) => {
            let ended = print_to_end(capture, &mut printer, out, errors, how);
            note_strangers(&printer, errors);
            note_misfit(&printer, how.sender, errors);
            ended
        }
        Err(_) => Err(CaptureStop::Memory),
    }
}

/// Prints the requested frames of a capture from its current place, and then the tables.
fn print_to_end<R: Read, W: Write, E: Write>(
    capture: &mut CaptureReader<R>,
    printer: &mut FramePrinter,
    out: &mut W,
    errors: &mut E,
    how: CaptureStyle,
) -> Result<Seen, CaptureStop>
    ensures { (left : List ℕ) → unread R.remaining capture.old ≡ Some left
        → CaptureEnds how (place_of capture.old left printer.old) result (W.contents out.old)
        (W.contents out.new) }
{
    match print_items(capture, printer, out, errors, how) {
        Ok(()) => close(printer, out),
        Err(stop) => Err(stop),
    }
}

/// Prints the tables of the links, if these are followed.
fn close<W: Write>(printer: &FramePrinter, out: &mut W) -> Result<Seen, CaptureStop>
    ensures { CaptureCloses printer.now result (W.contents out.old) (W.contents out.new) }
{
    match printer.close(out) {
        Ok(is_violated) => Ok(Seen {
            any: printer.any(),
            is_violated,
        }),
        Err(ScriptFault::Memory) => Err(CaptureStop::Memory),
        Err(_) => Err(CaptureStop::Device),
    }
}

/// Prints the requested frames of a capture from its current place.
fn print_items<R: Read, W: Write, E: Write>(
    capture: &mut CaptureReader<R>,
    printer: &mut FramePrinter,
    out: &mut W,
    errors: &mut E,
    how: CaptureStyle,
) -> Result<(), CaptureStop>
    ensures { (left : List ℕ) → unread R.remaining capture.old ≡ Some left
        → ItemsEnd how (place_of capture.old left printer.old) result printer.new
        (W.contents out.old) (W.contents out.new) }
{
    for _step in 0..u64::MAX {
        if printer.is_complete() {
            return Ok(());
        }
        if print_next(capture, printer, out, errors, how)? {
            return Ok(());
        }
    }
    Err(CaptureStop::Device)
}

/// Prints what the capture has next, after flushing the writer if reading may wait. Returns whether
/// the end is reached.
fn print_next<R: Read, W: Write, E: Write>(
    capture: &mut CaptureReader<R>,
    printer: &mut FramePrinter,
    out: &mut W,
    errors: &mut E,
    how: CaptureStyle,
) -> Result<bool, CaptureStop>
    ensures { (left : List ℕ) → unread R.remaining capture.old ≡ Some left
        → StepsFrom R.remaining how result (place_of capture.old left printer.old) capture.new
        printer.new (W.contents out.old) (W.contents out.new) }
{
    flush_before(capture, out)?;
    print_item(capture, printer, out, errors, how)
}

/// Flushes the writer, unless what the capture has next is already in memory.
fn flush_before<R: Read, W: Write>(
    capture: &CaptureReader<R>,
    out: &mut W,
) -> Result<(), CaptureStop>
    ensures bytes { Keeps (W.contents out.old) (W.contents out.new) }
    ensures fault { IsOtherStop result }
{
    if capture.is_buffered() {
        return Ok(());
    }
    match out.flush() {
        Ok(()) => Ok(()),
        Err(_) => Err(CaptureStop::Device),
    }
}

/// Prints what the capture has next. Returns whether the end is reached.
fn print_item<R: Read, W: Write, E: Write>(
    capture: &mut CaptureReader<R>,
    printer: &mut FramePrinter,
    out: &mut W,
    errors: &mut E,
    how: CaptureStyle,
) -> Result<bool, CaptureStop>
    ensures { (left : List ℕ) → unread R.remaining capture.old ≡ Some left
        → StepsFrom R.remaining how result (place_of capture.old left printer.old) capture.new
        printer.new (W.contents out.old) (W.contents out.new) }
{
    let place = capture.place();
    match capture.next() {
        Ok(CaptureItem::End) => Ok(true),
        Ok(CaptureItem::Other) => Ok(false),
        Ok(CaptureItem::NotGsmtap) => {
            printer.see_stranger();
            Ok(false)
        }
        Ok(CaptureItem::Frame(frame)) => {
            print_frame(capture, printer, frame, out, errors, how)?;
            Ok(false)
        }
        Ok(CaptureItem::Unreadable(fault)) => {
            let stop = CaptureStop::Packet(fault, place);
            if !how.keeps_going {
                return Err(stop);
            }
            let _ = writeln!(errors, "skipped: {stop}");
            Ok(false)
        }
        Err(ReadFault::Capture(fault)) => Err(CaptureStop::Capture(fault, place)),
        Err(ReadFault::Device(kind)) => Err(CaptureStop::Input(kind)),
        Err(ReadFault::Memory) => Err(CaptureStop::Memory),
    }
}

/// Prints a frame that was found, and before it how many are missing there.
fn print_frame<R: Read, W: Write, E: Write>(
    capture: &CaptureReader<R>,
    printer: &mut FramePrinter,
    frame: Span,
    out: &mut W,
    errors: &mut E,
    how: CaptureStyle,
) -> Result<(), CaptureStop>
    requires { IsWithin (length capture.now.body.items) (CaptureItem.Frame frame) }
    ensures line { OnOk result ((left : List ℕ) → Appends (W.contents out.old)
        (W.contents out.new) (item_text how (reading_of capture.now left)
        (CaptureItem.Frame frame) printer.old)) }
    ensures after { OnOk result ((left : List ℕ) → printer.new ≡ after_item how
        (reading_of capture.now left) (CaptureItem.Frame frame) printer.old) }
    ensures fault { IsOtherStop result }
{
    let total = capture.missing();
    note_hidden(printer, capture.packets(), total, errors);
    print_missing(printer, total, out)?;
    print_found(capture, printer, frame, out, errors, how)?;
    Ok(())
}

/// Prints how many frames are missing here, if the capture lacks `total` of them.
fn print_missing<W: Write>(
    printer: &mut FramePrinter,
    total: u64,
    out: &mut W,
) -> Result<(), CaptureStop>
    ensures line { OnOk result (Appends (W.contents out.old) (W.contents out.new)
        (missing_text total printer.old)) }
    ensures after { OnOk result (printer.new ≡ after_missing total printer.old) }
    ensures fault { IsOtherStop result }
{
    match printer.miss(total, out) {
        Ok(()) => Ok(()),
        Err(LineFault::Memory) => Err(CaptureStop::Memory),
        Err(_) => Err(CaptureStop::Device),
    }
}

/// Prints a frame that was found.
fn print_found<R: Read, W: Write, E: Write>(
    capture: &CaptureReader<R>,
    printer: &mut FramePrinter,
    frame: Span,
    out: &mut W,
    errors: &mut E,
    how: CaptureStyle,
) -> Result<(), CaptureStop>
    requires { IsWithin (length capture.now.body.items) (CaptureItem.Frame frame) }
    ensures line { OnOk result ((left : List ℕ) → Appends (W.contents out.old)
        (W.contents out.new) (found_text how (reading_of capture.now left) frame printer.old)) }
    ensures after { OnOk result ((left : List ℕ) → printer.new ≡ after_found how
        (reading_of capture.now left) frame printer.old) }
    ensures fault { IsOtherStop result }
{
    let octets = capture.octets_of(frame);
    see_sender(printer, frame);
    let named = named_sender(sender_in(printer.has_user(), frame), how.sender);
    note_unnamed(printer, named, errors);
    let from = named_or_by_kind(named, octets);
    see_choice(printer, frame, how.sender, octets);
    let packet = Packet {
        number: capture.packets(),
        moment: capture.moment(),
        is_cut: frame.is_cut,
    };
    match printer.print(packet, from, octets, out) {
        Ok(()) => Ok(()),
        Err(LineFault::Memory) => Err(CaptureStop::Memory),
        Err(_) => Err(CaptureStop::Device),
    }
}

/// Reports how many frames are missing before this packet, if the layout has no place for it. A
/// failure of the error writer is ignored.
fn note_hidden<E: Write>(printer: &FramePrinter, packet: u64, total: u64, errors: &mut E) {
    if printer.hides_missing(total) {
        let missing = printer.missing_of(total);
        let _ = writeln!(errors, "packet {packet}: {missing}");
    }
}

/// Reports how many datagrams to the port of GSMTAP were not GSMTAP, if any. A failure of the error
/// writer is ignored.
fn note_strangers<E: Write>(printer: &FramePrinter, errors: &mut E) {
    let _ = match printer.strangers() {
        0 => Ok(()),
        1 => writeln!(errors, "skipped 1 datagram to port 4729 that is not GSMTAP"),
        count => writeln!(
            errors,
            "skipped {count} datagrams to port 4729 that are not GSMTAP"
        ),
    };
}

/// Reports that the chosen sender does not fit any command or response, or that both directions have
/// the C/R bits of one side, if so. A failure of the error writer is ignored.
pub(crate) fn note_misfit<E: Write>(printer: &FramePrinter, chosen: Option<Side>, errors: &mut E) {
    let (name, other) = match chosen {
        None => {
            note_one_side(printer, errors);
            return;
        }
        Some(Side::User) => ("user", "net"),
        Some(Side::Network) => ("net", "user"),
    };
    if printer.is_misfit() {
        let _ = writeln!(
            errors,
            "no command or response fits --sender {name}; try --sender {other}"
        );
    }
}

/// Reports that the C/R bits of both directions are those of one side, if so.
fn note_one_side<E: Write>(printer: &FramePrinter, errors: &mut E) {
    if printer.is_one_sided() {
        let _ = writeln!(errors, "{ONE_SIDE}");
    }
}

/// Remembers whether the capture names the user side as a sender.
fn see_sender(printer: &mut FramePrinter, frame: Span)
    ensures { printer.new ≡ with_sender frame printer.old }
{
    if is_user(frame.from) {
        printer.see_user();
    }
}

/// Counts whether octets fit the sender that the capture names, or else the chosen one.
fn see_choice(printer: &mut FramePrinter, frame: Span, chosen: Option<Side>, octets: &[u8])
    ensures { printer.new ≡ printer.old }
{
    match (sender_in(printer.has_user(), frame), chosen) {
        (None, chosen) => printer.see_choice(chosen, octets),
        (named, None) => printer.see_choice(named, octets),
        (Some(_), Some(_)) => {}
    }
}

/// Whether the capture names the user side.
fn is_user(from: Option<Side>) -> bool
    ensures { result ≡ is_user from }
{
    match from {
        Some(Side::User) => true,
        Some(Side::Network) | None => false,
    }
}

/// The sender that the capture names.
fn sender_in(has_user: bool, frame: Span) -> Option<Side>
    ensures { result ≡ sender_in has_user frame }
{
    if frame.is_sure || has_user {
        frame.from
    } else {
        None
    }
}

/// The sender that the capture names, or else the chosen one.
fn named_sender(named: Option<Side>, chosen: Option<Side>) -> Option<Side>
    ensures { result ≡ named_sender named chosen }
{
    match named {
        None => chosen,
        Some(from) => Some(from),
    }
}

/// Reports once that neither the capture nor an option names a sender. A failure of the error
/// writer is ignored.
fn note_unnamed<E: Write>(printer: &mut FramePrinter, named: Option<Side>, errors: &mut E)
    ensures { printer.new ≡ printer.old }
{
    if named.is_none() && printer.is_first_note() {
        let _ = writeln!(errors, "{UNNAMED}");
    }
}
