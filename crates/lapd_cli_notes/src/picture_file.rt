//! The file of a picture, which gets its name when the picture is complete.

ghost use Rattle.std.specs.Io.{WritesAtMost};

use std::fs::{self, File, Metadata, OpenOptions};
use std::io::{self, ErrorKind, Write};
use std::path::Path;
use std::random::RandomSource;

/// The names of open files, and the folders of such names.
const OPEN_FILES: [&str; 4] = ["/dev/stdout", "/dev/stderr", "/dev/fd", "/proc"];

/// A file for a picture, made by its first write. A regular file is written under a temporary name
/// in the same folder, and [`PictureFile::finish`] renames it, so that a picture that is not
/// complete replaces no file. A pipe, a device and a name of an open file are written directly.
#[derive(Drop)]
pub struct PictureFile<'a> {
    rt: &'a HostRuntime,
    path: &'a str,
    begun: Option<Begun>,
    /// The number of octets written.
    written: u64,
    has_failed: bool,
}

/// A file that is open.
#[derive(Drop)]
struct Begun {
    file: File,
    /// `None` if it is written directly.
    names: Option<Names>,
}

/// The names of a file that will be renamed.
#[derive(Drop)]
struct Names {
    temporary: String,
    own: String,
    /// Whether no file had its own name.
    is_new: bool,
}

impl<'a> PictureFile<'a> {
    /// Makes no file yet.
    pub fn new(rt: &'a HostRuntime, path: &'a str) -> PictureFile<'a> {
        PictureFile {
            rt,
            path,
            begun: None,
            written: 0,
            has_failed: false,
        }
    }

    /// The number of octets written.
    pub fn written(&self) -> u64 {
        self.written
    }

    /// Ends the file, and returns whether it has its name. A picture that is not complete replaces
    /// no file, and after a failed write no file is made.
    ///
    /// # Errors
    ///
    /// The system's error if the file can't be renamed.
    pub fn finish(self, is_complete: bool) -> io::Result<bool> {
        let PictureFile {
            rt,
            begun,
            has_failed,
            ..
        } = self;
        match begun {
            Some(begun) => begun.finish(rt, is_complete, has_failed),
            None => Ok(false),
        }
    }

    /// Writes into the file, which is made if it is not open.
    fn put(&mut self, octets: &[u8]) -> io::Result<usize>
        ensures { WritesAtMost result octets.now }
    {
        match &mut self.begun {
            Some(begun) => begun.file.write(octets),
            None => {
                let mut begun = Begun::new(self.rt, self.path)?;
                let written = begun.file.write(octets);
                self.begun = Some(begun);
                written
            }
        }
    }
}

impl Write for PictureFile<'_> {
    fn write(&mut self, octets: &[u8]) -> io::Result<usize> {
        match self.put(octets) {
            Ok(count) => {
                self.written = self.written.saturating_add(count as u64);
                Ok(count)
            }
            Err(error) => {
                self.has_failed |= error.kind() != ErrorKind::Interrupted;
                Err(error)
            }
        }
    }

    fn flush(&mut self) -> io::Result<()> {
        Ok(())
    }
}

impl Begun {
    /// Renames the file, or removes it. Returns whether it has its own name.
    fn finish(self, rt: &HostRuntime, is_complete: bool, has_failed: bool) -> io::Result<bool> {
        let Begun { names, .. } = self;
        let Some(names) = names else {
            return Ok(true);
        };
        if has_failed || !(is_complete || names.is_new) {
            names.remove(rt);
            return Ok(false);
        }
        names.rename(rt)?;
        Ok(true)
    }

    /// Opens the file for this path.
    fn new(rt: &HostRuntime, path: &str) -> io::Result<Begun> {
        match fs::metadata(rt, path) {
            Ok(found) if found.is_file() && !is_open_file(path) => {
                Begun::beside(rt, path, &found)
            }
            Ok(_) => Begun::direct(appending(rt, path)),
            Err(error) if error.kind() == ErrorKind::NotFound => Begun::fresh(rt, path),
            Err(error) => Err(error),
        }
    }

    /// A file that will replace this one.
    fn beside(rt: &HostRuntime, path: &str, found: &Metadata) -> io::Result<Begun> {
        // A file that may not be written is not replaced either.
        let _writable = appending(rt, path)?;
        let own = fs::canonicalize(rt, path)?.into_string();
        let begun = Begun::named(rt, own, false)?;
        // A file system without permissions may refuse them.
        let _ = begun.file.set_permissions(found.permissions());
        Ok(begun)
    }

    /// A file for a path without one. If a link leads to no file, that file is made.
    fn fresh(rt: &HostRuntime, path: &str) -> io::Result<Begun> {
        if fs::symlink_metadata(rt, path).is_ok() {
            return Begun::direct(File::create(rt, path));
        }
        let own = String::from_str(rt.alloc(), path)?;
        Begun::named(rt, own, true)
    }

    /// A file that is written directly.
    fn direct(file: io::Result<File>) -> io::Result<Begun> {
        Ok(Begun {
            file: file?,
            names: None,
        })
    }

    /// A file with a temporary name, beside its own one. If none can be made, its own file is
    /// written directly.
    fn named(rt: &HostRuntime, own: String, is_new: bool) -> io::Result<Begun> {
        let temporary = temporary_name(rt, own.as_str())?;
        match File::create_new(rt, temporary.as_str()) {
            Ok(file) => {
                let names = Names {
                    temporary,
                    own,
                    is_new,
                };
                Ok(Begun {
                    file,
                    names: Some(names),
                })
            }
            Err(error) if is_of_place(&error) => Begun::direct(File::create(rt, own.as_str())),
            Err(error) => Err(error),
        }
    }
}

impl Names {
    /// Gives the file its own name, or removes it if that fails.
    fn rename(self, rt: &HostRuntime) -> io::Result<()> {
        let renamed = fs::rename(rt, self.temporary.as_str(), self.own.as_str());
        if renamed.is_err() {
            self.remove(rt);
        }
        renamed
    }

    /// Removes the file.
    fn remove(self, rt: &HostRuntime) {
        let _ = fs::remove_file(rt, self.temporary.as_str());
    }
}

/// Opens a file for writing at its end, which keeps what it has.
fn appending(rt: &HostRuntime, path: &str) -> io::Result<File> {
    OpenOptions::new().append(true).open(rt, path)
}

/// Whether the path is a name of an open file, which others write into as well.
fn is_open_file(path: &str) -> bool {
    let path = Path::new(path);
    OPEN_FILES.iter().any(|name| path.starts_with(*name))
}

/// Whether the folder has no place for a temporary name: it may not be written, or the name is too
/// long.
fn is_of_place(error: &io::Error) -> bool {
    matches!(
        error.kind(),
        ErrorKind::PermissionDenied | ErrorKind::InvalidFilename
    )
}

/// A temporary name in the folder of this file, such as `call.svg.5f1c09ab.part`.
fn temporary_name(rt: &HostRuntime, own: &str) -> io::Result<String> {
    let mut octets = [0; 4];
    rt.fill_bytes(&mut octets)?;
    let number = u32::from_be_bytes(octets);
    Ok(format!(in rt.alloc(); "{own}.{number:08x}.part")?)
}
