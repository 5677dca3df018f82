//! A ladder of frames that are drawn when they are received or sent.

ghost use Rattle.std.specs.Prelude.{◌≡◌, IfOk, OnOk};
ghost use Rattle.std.specs.Io.KnownBytes.{Appends};
ghost use Rattle.lapd_cli_frames.specs.LiveLadder.{after_rung, ladder_head, new_ladder, rung_of};

use crate::frame_printer::{Follow, FramePrinter, Origin};
use crate::frame_style::{Drawing, FrameStyle, Layout};
use crate::frame_time::FrameTime;
use lapd_cli_ladder::push_head;
use lapd_cli_render::Packet;
use lapd_frame::Side;
use std::alloc::{AllocError, Global};
use std::io::{self, Write};

/// How frames are drawn: all of them, with relative times.
const LADDER: FrameStyle = FrameStyle {
    layout: Layout::Drawn(Drawing::Ladder),
    time: FrameTime::Relative,
    ..FrameStyle::PLAIN
};

/// Draws the frames of a line into a writer, one after the other: the ladder that `decode` prints
/// for a capture with a packet for each frame, with relative times and without options of
/// `--follow`. The lines of a frame are passed to the writer at once. Stop after an error: the
/// writer may have only a part of them.
#[derive(Drop)]
pub struct FrameDrawer<W> {
    alloc: Global,
    printer: FramePrinter,
    out: W,
}

/// The line above the first frame of such a ladder, for a reader who opens a pipe later.
///
/// # Errors
///
/// `AllocError` if an allocation fails.
pub fn ladder_head(alloc: Global) -> Result<Vec<u8>, AllocError>
    ensures { IfOk result (λ head. head.items ≡ ladder_head) }
{
    let mut head = Vec::new(alloc);
    push_head(&mut head, LADDER.ladder())?;
    Ok(head)
}

impl<W: Write> FrameDrawer<W> {
    /// Begins a ladder. Nothing is written before the first frame.
    ///
    /// # Errors
    ///
    /// `AllocError` if an allocation fails.
    pub fn new(alloc: Global, out: W) -> Result<FrameDrawer<W>, AllocError>
    where
        W: Drop,
        ensures begun { IfOk result (λ drawer. drawer.printer ≡ new_ladder) }
        ensures writer { IfOk result (λ drawer. drawer.out ≡ out) }
    {
        let follow = Some(Follow { k: None });
        let printer = FramePrinter::in_utc(alloc, Origin::Capture, LADDER, follow)?;
        Ok(FrameDrawer {
            alloc,
            printer,
            out,
        })
    }

    /// The writer, for what is written between the lines of frames.
    pub fn writer(&mut self) -> &mut W {
        &mut self.out
    }

    /// Draws a frame that `from` sent, at a moment in milliseconds since 1970. The first frame has
    /// the head of the ladder above it.
    ///
    /// # Errors
    ///
    /// The writer's, or `OutOfMemory` before anything is written.
    pub fn draw(&mut self, from: Side, moment: u64, octets: &[u8]) -> io::Result<()>
        ensures lines { OnOk result (Appends (W.contents self.old.out) (W.contents self.new.out)
            (rung_of (record { from = from; moment = moment; octets = octets.now })
            self.old.printer)) }
        ensures after { OnOk result (self.new.printer ≡ after_rung
            (record { from = from; moment = moment; octets = octets.now }) self.old.printer) }
    {
        let rung = self.rung(from, moment, octets)?;
        self.out.write_all(rung.as_slice())?;
        self.out.flush()
    }

    /// The lines of the next frame.
    fn rung(&mut self, from: Side, moment: u64, octets: &[u8]) -> Result<Vec<u8>, AllocError>
        ensures lines { IfOk result (λ rung. rung.items ≡ rung_of
            (record { from = from; moment = moment; octets = octets.now }) self.old.printer) }
        ensures after { OnOk result (self.new.printer ≡ after_rung
            (record { from = from; moment = moment; octets = octets.now }) self.old.printer) }
        ensures writer { self.new.out ≡ self.old.out }
    {
        let packet = Packet {
            moment: Some(moment.saturating_mul(1000)),
            ..self.printer.line_packet(None)
        };
        let mut rung = Vec::new(self.alloc);
        match self.printer.print(packet, Some(from), octets, &mut rung) {
            Ok(()) => Ok(rung),
            Err(_) => Err(AllocError),
        }
    }
}
