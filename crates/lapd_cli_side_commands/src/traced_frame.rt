ghost use Rattle.std.specs.Prelude.{◌≡◌, ◌≤◌, ◌++◌, ◌↔◌, length, Err, IfOk, IfErr, OnOk, IsOkUnless, IsTrue};
ghost use Rattle.std.specs.String.{string_bytes};
ghost use Rattle.std.specs.Io.KnownBytes.{Appends};
ghost use Rattle.lapd_port.specs.SocketText.{frame_text};
ghost use Rattle.lapd_port.specs.Port.{CountsAsDevice, IsApartFromInput};
ghost use Rattle.lapd_sides_links.specs.Effects.{HasLeastOctets};
ghost use Rattle.lapd_cli_side_lines.specs.SideTexts.{frame_text_line};

use arrayvec::ArrayVec;
use lapd_cli_script::LineFault;
use lapd_cli_side_lines::{LineStyle, push_frame};
use lapd_frame::{MOST_OCTETS, Side};
use lapd_port::{Port, PortFault, Sink, Source};
use std::alloc::Global;

/// A frame to send, of at least three octets, and its printed line with a line feed.
#[derive(Drop)]
pub(crate) struct TracedFrame {
    octets: ArrayVec<u8, MOST_OCTETS>,
    line: String,
    ghost least: { HasLeastOctets octets.items },
}

impl TracedFrame {
    /// The frame with these octets, which this side sends.
    ///
    /// # Errors
    ///
    /// `Memory` if an allocation fails.
    pub(crate) fn new(
        alloc: Global,
        style: LineStyle,
        side: Side,
        frame: &[u8],
    ) -> Result<TracedFrame, LineFault>
        requires least { HasLeastOctets frame.now }
        requires most { length frame.now ≤ MOST_OCTETS }
        ensures octets { IfOk result (λ traced. traced.octets.items ≡ frame.now) }
        ensures line { IfOk result (λ traced.
            string_bytes traced.line ≡ frame_text_line style side frame.now) }
        ensures err { IsOkUnless result LineFault.Memory }
    {
        let mut line = String::new(alloc);
        let Ok(()) = push_frame(alloc, &mut line, style, side, frame) else {
            return Err(LineFault::Memory);
        };
        let mut octets = ArrayVec::new();
        let Ok(()) = octets.try_extend_from_slice(frame) else {
            unreachable!()
        };
        Ok(TracedFrame { octets, line })
    }

    /// Replaces the frame by these octets, and reuses its memory.
    ///
    /// # Errors
    ///
    /// `Memory` if an allocation fails. The octets are then unchanged.
    pub(crate) fn replace(
        &mut self,
        alloc: Global,
        style: LineStyle,
        side: Side,
        frame: &[u8],
    ) -> Result<(), LineFault>
        requires least { HasLeastOctets frame.now }
        requires most { length frame.now ≤ MOST_OCTETS }
        ensures octets { OnOk result (self.new.octets.items ≡ frame.now) }
        ensures line { OnOk result
            (string_bytes self.new.line ≡ frame_text_line style side frame.now) }
        ensures err { IsOkUnless result LineFault.Memory }
    {
        self.line.clear();
        let Ok(()) = push_frame(alloc, &mut self.line, style, side, frame) else {
            return Err(LineFault::Memory);
        };
        self.octets.clear();
        let Ok(()) = self.octets.try_extend_from_slice(frame) else {
            unreachable!()
        };
        Ok(())
    }

    /// Sends the frame in one write.
    ///
    /// # Errors
    ///
    /// The port's fault.
    pub(crate) fn send<S: Source, K: Sink>(&self, port: &mut Port<S, K>) -> Result<(), PortFault>
        ensures text { OnOk result (Appends (K.written port.old.sink) (K.written port.new.sink)
            (frame_text self.now.octets.items)) }
        ensures faults { IfErr result IsApartFromInput }
        ensures device { CountsAsDevice result (K.failure_count port.old.sink)
            (K.failure_count port.new.sink) }
        ensures failed { (result ≡ Err PortFault.Failed) ↔ IsTrue port.old.failed }
        ensures source { port.new.source ≡ port.old.source }
    {
        port.write_frame(self.octets.as_slice())
    }

    /// The octets of its line.
    pub(crate) fn line(&self) -> &[u8]
        ensures { result.now ≡ string_bytes self.now.line }
    {
        self.line.as_bytes()
    }
}
