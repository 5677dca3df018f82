//! A port: it reads frames from a source, and writes frames to a sink.

ghost use Rattle.std.specs.Prelude.{◌≡◌, ℕ, List, Some, [], ◌∷◌, ◌++◌, Err, length, drop, IfOk, IfErr, OnOk, IsTrue, ◌↔◌, false};
ghost use Rattle.lapd_port.specs.Port.{CountsAsDevice, MakesTurns, ReadsNext, ReadsFirst, WritesText, IsApartFromInput, is_failure as makes_fail};
ghost use Rattle.lapd_port.specs.SocketText.{IsFrameLength, frame_text, socket_text};

use crate::limits::MOST_OCTETS;
use crate::port_fault::PortFault;
use crate::reading::read_next;
use crate::sink::Sink;
use crate::source::Source;
use crate::writing::write_next;

/// Reads frames from a source and writes frames to a sink.
///
/// One call of a port makes at most 4,096 calls of its source or sink. It never requests octets
/// from the source after the frame, so they stay unread. It passes a frame to the sink together
/// with its length, in one piece.
#[derive(Debug, Drop)]
pub struct Port<R, W> {
    source: R,
    sink: W,
    failed: bool,
}

impl<R: Source, W: Sink> Port<R, W> {
    /// Makes a port that has not failed.
    pub fn new(source: R, sink: W) -> Port<R, W>
        ensures { result ≡ record { source = source; sink = sink; failed = false } }
    {
        Port {
            source,
            sink,
            failed: false,
        }
    }

    /// The source that frames are read from.
    pub fn source(&self) -> &R
        ensures { result.now ≡ self.now.source }
    {
        &self.source
    }

    /// The sink that frames are written to.
    pub fn sink(&self) -> &W
        ensures { result.now ≡ self.now.sink }
    {
        &self.sink
    }

    /// Reads the next frame into the front of these octets, and returns its length in octets, 3 to
    /// 264.
    ///
    /// # Errors
    ///
    /// S1 to S6. After S1 the port can be used again; after any other fault it has failed.
    pub fn read_frame(&mut self, frame: &mut [u8; MOST_OCTETS]) -> Result<usize, PortFault>
        ensures length { IfOk result IsFrameLength }
        ensures next { ReadsNext (R.rest self.old.source)
            (R.rest self.new.source) result frame.new }
        ensures first { (front : List ℕ) (frames : List (List ℕ)) → IsFrameLength (length front)
            → R.rest self.old.source ≡ Some (socket_text (front ∷ frames))
            → ReadsFirst front frames (R.rest self.new.source) result frame.new }
        ensures behind { IfOk result (λ count. drop count frame.new ≡ drop count frame.old) }
        ensures device { CountsAsDevice result (R.failure_count self.old.source)
            (R.failure_count self.new.source) }
        ensures turns { MakesTurns R.turn result self.old.source self.new.source }
        ensures failed { (result ≡ Err PortFault.Failed) ↔ IsTrue self.old.failed }
        ensures untouched { IsTrue self.old.failed → self.new ≡ self.old }
        ensures lasts { self.new.failed ≡ makes_fail result }
        ensures sink { self.new.sink ≡ self.old.sink }
    {
        if self.failed {
            return Err(PortFault::Failed);
        }
        let read = read_next(&mut self.source, frame);
        self.failed = is_failure(&read);
        read
    }

    /// Writes a frame. The caller must pass 3 to 264 octets.
    ///
    /// # Errors
    ///
    /// S4 to S6. Then the port has failed, and the frame's length and octets were not written, or
    /// only a first part of them.
    pub fn write_frame(&mut self, frame: &[u8]) -> Result<(), PortFault>
        requires { IsFrameLength (length frame.now) }
        ensures text { WritesText (W.written self.old.sink) (W.written self.new.sink) result
            (frame_text frame.now) }
        ensures list { (frames : List (List ℕ)) → W.written self.old.sink
            ≡ Some (socket_text frames)
            → OnOk result (W.written self.new.sink ≡ Some
            (socket_text (frames ++ frame.now ∷ []))) }
        ensures device { CountsAsDevice result (W.failure_count self.old.sink)
            (W.failure_count self.new.sink) }
        ensures turns { MakesTurns W.turn result self.old.sink self.new.sink }
        ensures failed { (result ≡ Err PortFault.Failed) ↔ IsTrue self.old.failed }
        ensures untouched { IsTrue self.old.failed → self.new ≡ self.old }
        ensures faults { IfErr result IsApartFromInput }
        ensures lasts { self.new.failed ≡ makes_fail result }
        ensures source { self.new.source ≡ self.old.source }
    {
        if self.failed {
            return Err(PortFault::Failed);
        }
        let written = write_next(&mut self.sink, frame);
        self.failed = written.is_err();
        written
    }
}

// Whether a port has failed after this result.
fn is_failure(answer: &Result<usize, PortFault>) -> bool
    ensures { result ≡ makes_fail answer.now }
{
    !matches!(answer, Ok(_) | Err(PortFault::End))
}
