//! A file that other programs read while it grows.

use crate::protection::{Content, Protection, protection_of, stream_into};
use crate::record_file::RecordFile;
use lapd_cli_notes::Notes;
use std::fs::{self, File, OpenOptions};
use std::io::{self, ErrorKind};

/// A file that is open for writing. A regular file keeps what it had until it is begun.
#[derive(Drop)]
pub(crate) struct GrowingFile {
    path: String,
    file: File,
    /// Whether it is a regular file.
    is_regular: bool,
    /// Whether opening it has made it.
    is_new: bool,
}

/// Why a file is not opened for writing.
#[derive(Drop)]
pub enum NoFile {
    /// The system's error.
    Device(io::Error),
    /// It must not be overwritten.
    Protected(Protection),
}

impl From<io::Error> for NoFile {
    fn from(error: io::Error) -> NoFile {
        NoFile::Device(error)
    }
}

impl GrowingFile {
    /// Opens this file for such a content, and makes it if it does not exist. Waits for the reader
    /// of a named pipe.
    pub fn open(rt: &HostRuntime, path: &str, content: Content) -> Result<GrowingFile, NoFile> {
        if let Some(stream) = stream_into(rt, path) {
            return Err(NoFile::Protected(Protection::Stream(stream)));
        }
        match protection_of(rt, path, content, &["-"])? {
            Some(protection) => Err(NoFile::Protected(protection)),
            None => Ok(opened(rt, path)?),
        }
    }

    /// Whether it has to be begun, since it may have content.
    pub fn is_regular(&self) -> bool {
        self.is_regular
    }

    /// Removes its content, and begins to record into it. Notes name the record by this word.
    pub fn begin<'rt>(
        self,
        rt: &'rt HostRuntime,
        notes: &'rt Notes<'rt>,
        name: &'static str,
    ) -> Result<RecordFile<'rt>, NoFile> {
        if self.is_regular {
            self.file.set_len(0)?;
        }
        let GrowingFile { path, file, .. } = self;
        Ok(RecordFile::new(rt, notes, name, path, file))
    }

    /// Removes the file if opening it has made it. Otherwise it stays as it was.
    pub fn abandon(self, rt: &HostRuntime) {
        if !self.is_new {
            return;
        }
        // The path may be a link, which stays.
        if let Ok(path) = fs::canonicalize(rt, self.path.as_str()) {
            let _ = fs::remove_file(rt, path.as_path());
        }
    }
}

/// Opens a file for writing, and makes it if it does not exist.
fn opened(rt: &HostRuntime, path: &str) -> io::Result<GrowingFile> {
    let (file, is_new) = match OpenOptions::new().write(true).open(rt, path) {
        Ok(file) => (file, false),
        Err(error) if error.kind() == ErrorKind::NotFound => (fs::create(rt, path)?, true),
        Err(error) => return Err(error),
    };
    let is_regular = file.metadata()?.is_file();
    let path = String::from_str(rt.alloc(), path)?;
    Ok(GrowingFile {
        path,
        file,
        is_regular,
        is_new,
    })
}
