//! The output of one line of a side's script.

ghost use Rattle.std.specs.Prelude.{◌≡◌, ◌≤◌, [], ◌∷◌, ◌++◌, length, IfNone, IfOk, IsOkUnless, OnOk};
ghost use Rattle.std.specs.Io.KnownBytes.{Appends};
ghost use Rattle.lapd_port.specs.SocketText.{socket_text};
ghost use Rattle.lapd_sides_links.specs.Effects.{HasLeastOctets};
ghost use Rattle.lapd_cli_side_lines.specs.SideTexts.{frame_text_line, frames_text, primitives_text};

use crate::traced_frame::TracedFrame;
use lapd_cli_script::LineFault;
use lapd_cli_side_lines::{LineStyle, push_primitives};
use lapd_frame::{MOST_OCTETS, Side};
use lapd_port::{Port, PortFault, Sink, Source};
use lapd_sides::Acts;
use std::alloc::Global;
use std::io::Write;

/// The frames to send, and the printed primitives. All allocations precede the first send, and the
/// buffers are reused for the next line.
#[derive(Drop)]
pub(crate) struct LineOutput {
    alloc: Global,
    /// The frames of this line, followed by unused frames of earlier lines, whose memory is reused.
    frames: Vec<TracedFrame>,
    /// The number of this line's frames.
    count: usize,
    primitives: String,
    ghost within: { count ≤ length frames.items },
}

impl LineOutput {
    ghost use Rattle.lapd_cli_side_commands.specs.LineOutputs.{sent_of, primitives_text_of, traced_of};

    /// An empty output.
    pub(crate) fn new(alloc: Global) -> LineOutput {
        LineOutput {
            alloc,
            frames: Vec::new(alloc),
            count: 0,
            primitives: String::new(alloc),
        }
    }

    /// Empties the output and keeps its memory.
    pub(crate) fn clear(&mut self)
        ensures sent { sent_of self.new ≡ [] }
        ensures traced { traced_of self.new ≡ [] }
        ensures delivered { primitives_text_of self.new ≡ [] }
    {
        self.count = 0;
        self.primitives.clear();
    }

    /// Appends the output of a call of this side, with its lines in this style.
    ///
    /// # Errors
    ///
    /// `Memory` if an allocation fails.
    pub(crate) fn gather(
        &mut self,
        style: LineStyle,
        side: Side,
        acts: &Acts,
    ) -> Result<(), LineFault>
        ensures sent { OnOk result (sent_of self.new ≡ sent_of self.old ++ acts.now.frames) }
        ensures traced { OnOk result
            (traced_of self.new ≡ traced_of self.old ++ frames_text style side acts.now.frames) }
        ensures delivered { OnOk result
            (primitives_text_of self.new ≡ primitives_text_of self.old
            ++ primitives_text style acts.now.primitives) }
        ensures err { IsOkUnless result LineFault.Memory }
    {
        for frame in acts.frames() {
            self.add(style, side, frame.as_slice())?;
        }
        match push_primitives(self.alloc, style, acts.primitives(), &mut self.primitives) {
            Ok(()) => Ok(()),
            Err(_) => Err(LineFault::Memory),
        }
    }

    /// Sends the frames, each in one write, and prints each once it is sent. Then prints the
    /// primitives and flushes the writer. If the port fails, it stops and returns the port's fault.
    ///
    /// # Errors
    ///
    /// `Device` if the writer fails.
    pub(crate) fn forward<W: Write, S: Source, K: Sink>(
        &self,
        port: &mut Port<S, K>,
        out: &mut W,
    ) -> Result<Option<PortFault>, LineFault>
        ensures sent { IfOk result (λ fault. IfNone fault
            (Appends (K.written port.old.sink) (K.written port.new.sink)
            (socket_text (sent_of self.now)))) }
        ensures printed { IfOk result (λ fault. IfNone fault
            (Appends (W.contents out.old) (W.contents out.new)
            (traced_of self.now ++ primitives_text_of self.now))) }
        ensures source { port.new.source ≡ port.old.source }
        ensures err { IsOkUnless result LineFault.Device }
    {
        for sent in &self.frames[..self.count] {
            if let Err(fault) = sent.send(port) {
                return Ok(Some(fault));
            }
            out.write_all(sent.line())?;
        }
        if !self.primitives.is_empty() {
            out.write_all(self.primitives.as_bytes())?;
        }
        out.flush()?;
        Ok(None)
    }

    /// Adds a frame with its line.
    fn add(&mut self, style: LineStyle, side: Side, frame: &[u8]) -> Result<(), LineFault>
        requires least { HasLeastOctets frame.now }
        requires most { length frame.now ≤ MOST_OCTETS }
        ensures sent { OnOk result (sent_of self.new ≡ sent_of self.old ++ frame.now ∷ []) }
        ensures traced { OnOk result
            (traced_of self.new ≡ traced_of self.old ++ frame_text_line style side frame.now) }
        ensures delivered { primitives_text_of self.new ≡ primitives_text_of self.old }
        ensures err { IsOkUnless result LineFault.Memory }
    {
        if self.count < self.frames.len() {
            self.frames[self.count].replace(self.alloc, style, side, frame)?;
        } else {
            let traced = TracedFrame::new(self.alloc, style, side, frame)?;
            let Ok(()) = self.frames.push(traced) else {
                return Err(LineFault::Memory);
            };
        }
        self.count += 1;
        Ok(())
    }
}
