//! A writer that remembers how a write failed.

ghost use Rattle.std.specs.Prelude.{◌≡◌, None, OnOk};
ghost use Rattle.std.specs.Io.{WritesAtMost};
ghost use Rattle.std.specs.Io.KnownBytes.{Appends, Keeps, WriteAppends};
ghost use Rattle.lapd_cli_console.specs.Fault.{Remembers};

use std::io::{self, ErrorKind, Write};

/// A writer that passes text to another writer, and remembers how a write or a flush failed.
#[derive(Drop)]
pub struct Watched<W> {
    writer: W,
    fault: Option<ErrorKind>,
}

impl<W: Write> Watched<W> {
    /// Passes text to this writer.
    pub fn new(writer: W) -> Watched<W>
        ensures { result ≡ record { writer = writer; fault = None } }
    {
        Watched {
            writer,
            fault: None,
        }
    }

    /// The kind of the last failed write or flush. Interruptions do not count. Returns `None` if
    /// none failed.
    pub fn fault(&self) -> Option<ErrorKind>
        ensures { result ≡ self.now.fault }
    {
        self.fault
    }

    /// The writer.
    pub fn into_inner(self) -> W
        ensures { result ≡ self.writer }
    {
        self.writer
    }

    /// Remembers how a call failed, and returns its result.
    fn watch<T>(&mut self, answered: io::Result<T>) -> io::Result<T>
        ensures same { result ≡ answered }
        ensures writer { self.new.writer ≡ self.old.writer }
        ensures fault { Remembers self.old.fault self.new.fault result }
    {
        match answered {
            Ok(value) => Ok(value),
            Err(error) => {
                if error.kind() != ErrorKind::Interrupted {
                    self.fault = Some(error.kind());
                }
                Err(error)
            }
        }
    }
}

impl<W: Write> Write for Watched<W> {
    ghost contents = { λ watched. W.contents watched.writer };

    fn write(&mut self, octets: &[u8]) -> io::Result<usize>
        ensures bound { WritesAtMost result octets.now }
        ensures bytes { WriteAppends (W.contents self.old.writer)
            (W.contents self.new.writer) result octets.now }
        ensures fault { Remembers self.old.fault self.new.fault result }
    {
        let written = self.writer.write(octets);
        self.watch(written)
    }

    fn write_all(&mut self, octets: &[u8]) -> io::Result<()>
        ensures bytes { OnOk result (Appends (W.contents self.old.writer)
            (W.contents self.new.writer) octets.now) }
        ensures fault { Remembers self.old.fault self.new.fault result }
    {
        let written = self.writer.write_all(octets);
        self.watch(written)
    }

    fn flush(&mut self) -> io::Result<()>
        ensures bytes { Keeps (W.contents self.old.writer) (W.contents self.new.writer) }
        ensures fault { Remembers self.old.fault self.new.fault result }
    {
        let flushed = self.writer.flush();
        self.watch(flushed)
    }
}
