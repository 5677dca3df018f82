//! A file into which the frames of a line are recorded, one write for each. A write never blocks.

ghost use Rattle.std.specs.Io.{WritesAtMost};

use crate::losses::Losses;
use lapd_cli_notes::{Notes, Watch};
use std::alloc::AllocError;
use std::fs::{File, OpenOptions};
use std::io::{self, ErrorKind, Write};
use std::os::fd::AsRawFd;
use std::os::unix::fs::FileTypeExt;

/// A file for records, such as a named pipe. A record that would block, because nobody reads, is
/// dropped and counted. If the reader of a named pipe ends, the pipe is opened anew for the next
/// one, and records are dropped until that reads.
///
/// Call [`RecordFile::next`] before each record.
#[derive(Drop)]
pub struct RecordFile<'rt> {
    rt: &'rt HostRuntime,
    losses: Losses<'rt>,
    /// The path of a named pipe.
    pipe: Option<String>,
    file: Option<File>,
    /// `None` for a regular file, which is always ready, and if the watch can't be created.
    watch: Option<Watch>,
    /// The octets that are written before the next record, with it.
    front: Vec<u8>,
    /// The moment of the next record, in milliseconds.
    now: u64,
    is_next_dropped: bool,
    /// Whether the next record is the first one for its reader, after another reader has ended.
    is_new: bool,
}

/// The place of the next record in a file.
#[derive(Clone, Copy)]
pub struct Place {
    /// Whether the record is the first one for its reader, after another reader has ended.
    pub is_new: bool,
    /// How many records were dropped since the last one.
    pub missing: u64,
}

impl<'rt> RecordFile<'rt> {
    /// Records into this file, which is open for writing and has this path.
    pub fn new(
        rt: &'rt HostRuntime,
        notes: &'rt Notes<'rt>,
        name: &'static str,
        path: String,
        file: File,
    ) -> RecordFile<'rt> {
        let watch = Watch::new(rt, file.as_raw_fd()).ok();
        RecordFile {
            rt,
            losses: Losses::new(notes, name),
            pipe: if is_pipe(&file) { Some(path) } else { None },
            file: Some(file),
            watch,
            front: Vec::new(rt.alloc()),
            now: 0,
            is_next_dropped: false,
            is_new: false,
        }
    }

    /// Whether the file has a reader, who may pause.
    pub fn has_reader(&self) -> bool {
        self.watch.is_some()
    }

    /// Writes octets before the first record.
    ///
    /// # Errors
    ///
    /// The system's error.
    pub fn begin(&mut self, head: &[u8]) -> io::Result<()> {
        match self.put(head) {
            Ok(_) => Ok(()),
            Err(error) => self.lose_reader(error),
        }
    }

    /// The place of the next record, which is written at this moment in milliseconds. `None` if it
    /// will be dropped.
    pub fn next(&mut self, now: u64) -> Option<Place> {
        self.now = now;
        self.front.clear();
        self.is_next_dropped = !self.is_ready();
        if self.is_next_dropped {
            self.losses.pause(now);
            return None;
        }
        Some(Place {
            is_new: self.is_new,
            missing: self.losses.missing(),
        })
    }

    /// Writes these octets before the next record, if it is written.
    ///
    /// # Errors
    ///
    /// `AllocError` if an allocation fails.
    pub fn begin_with(&mut self, front: &[u8]) -> Result<(), AllocError> {
        self.front.extend_from_slice(front)
    }

    /// Notes how many dropped frames no note was about yet.
    pub fn close(&mut self) {
        self.losses.close();
    }

    /// Whether a record can be written without blocking.
    fn is_ready(&mut self) -> bool {
        match &mut self.watch {
            Some(watch) => watch.is_ready(),
            None => true,
        }
    }

    /// Writes a record, after what is to be before it.
    fn put(&mut self, octets: &[u8]) -> io::Result<usize>
        ensures { WritesAtMost result octets.now }
    {
        let Some(file) = &mut self.file else {
            return Err(io::Error::from(ErrorKind::BrokenPipe));
        };
        if self.front.is_empty() {
            return file.write(octets);
        }
        // One write, since a pipe takes all of it or nothing.
        self.front.extend_from_slice(octets)?;
        file.write_all(self.front.as_slice())?;
        Ok(octets.len())
    }

    /// Opens the named pipe anew if its reader has ended, unless it is open for the next one.
    ///
    /// # Errors
    ///
    /// This error of a write, if it is another one, or the system's.
    fn lose_reader(&mut self, error: io::Error) -> io::Result<()> {
        if self.pipe.is_none() || error.kind() != ErrorKind::BrokenPipe {
            return Err(error);
        }
        if self.is_new {
            return Ok(());
        }
        // While one end is open, the pipe keeps what the reader has left unread.
        self.watch = None;
        self.file = None;
        let file = match &self.pipe {
            Some(path) => opened_pipe(self.rt, path.as_str())?,
            None => return Err(error),
        };
        self.watch = Some(Watch::new(self.rt, file.as_raw_fd())?);
        self.file = Some(file);
        self.is_new = true;
        Ok(())
    }
}

impl Write for RecordFile<'_> {
    fn write(&mut self, record: &[u8]) -> io::Result<usize> {
        if self.is_next_dropped {
            return Ok(record.len());
        }
        match self.put(record) {
            Ok(count) => {
                self.is_new = false;
                self.losses.record(self.now);
                Ok(count)
            }
            Err(error) => {
                self.lose_reader(error)?;
                self.losses.end(self.now);
                Ok(record.len())
            }
        }
    }

    fn flush(&mut self) -> io::Result<()> {
        Ok(())
    }
}

/// Whether a file is a named pipe, or another pipe.
fn is_pipe(file: &File) -> bool {
    match file.metadata() {
        Ok(metadata) => metadata.file_type().is_fifo(),
        Err(_) => false,
    }
}

/// Opens a named pipe for writing, without waiting for its reader: nobody waits to open a pipe that
/// is open for reading and writing, and then it has a reader when it is opened for writing alone.
fn opened_pipe(rt: &HostRuntime, path: &str) -> io::Result<File> {
    let _both = OpenOptions::new().read(true).write(true).open(rt, path)?;
    OpenOptions::new().write(true).open(rt, path)
}
