//! Recording the frames of a line: a capture in a file, a ladder in a file, and GSMTAP over UDP.

ghost use Rattle.std.specs.Prelude.{◌≤◌, length};

use crate::capture_file::CaptureFile;
use crate::growing_file::{GrowingFile, NoFile};
use crate::ladder::Ladder;
use crate::ladder_file::LadderFile;
use crate::protection::{Content, is_same_file};
use lapd_capture::gsmtap_of;
use lapd_cli_notes::Notes;
use lapd_cli_script::Reason;
use lapd_cli_wire::{MOST_RECEIVED, Tap};
use lapd_frame::Side;
use std::alloc::AllocError;
use std::io::{self, ErrorKind};
use std::net::{SocketAddr, ToSocketAddrs, UdpSocket};
use std::time::{SystemTime, UNIX_EPOCH};

/// The files and the address that get the frames of a line, each if requested.
#[derive(Clone, Copy)]
pub struct TapSetup<'a> {
    /// The file of the capture.
    pub pcap: Option<&'a str>,
    /// The file of the ladder.
    pub ladder: Option<&'a str>,
    /// The address of GSMTAP, a host and a port.
    pub gsmtap: Option<&'a str>,
}

/// Why frames can't be recorded.
#[derive(Drop)]
pub enum NoTaps {
    /// The capture's file can't be written.
    Capture(NoFile),
    /// The ladder's file can't be written.
    Ladder(NoFile),
    /// The capture and the ladder have the same file.
    SameFile,
    /// The socket for the address of `--gsmtap` can't be created.
    Socket(io::Error),
    /// An allocation failed.
    Memory,
}

/// A capture, a ladder and a socket, each if it was requested. If one of them fails, that is noted
/// once on standard error, and it is not used any more. None of them blocks: frames that a capture or
/// a ladder doesn't take at once are not recorded, and are counted.
#[derive(Drop)]
pub struct Taps<'rt, L> {
    rt: &'rt HostRuntime,
    notes: &'rt Notes<'rt>,
    own: Side,
    /// The regular files of the capture and the ladder until they are begun.
    kept_capture: Option<GrowingFile>,
    kept_ladder: Option<GrowingFile>,
    /// The time of the start, in milliseconds since 1970, known from the first frame on.
    begun: Option<u64>,
    capture: Option<CaptureFile<'rt>>,
    ladder: Option<LadderFile<'rt, L>>,
    gsmtap: Option<GsmtapSocket>,
}

/// A UDP socket, and the destination of its datagrams.
#[derive(Drop)]
struct GsmtapSocket {
    socket: UdpSocket,
    address: SocketAddr,
}

impl<'rt, L: Ladder> Taps<'rt, L> {
    /// Opens the files and the socket of this side. Regular files keep what they have until
    /// [`Taps::begin`], and are not recorded into before. The first frame is stamped by the
    /// system's clock, the later ones by the line's clock.
    ///
    /// # Errors
    ///
    /// `Capture`, `Ladder` or `Socket`, if one of them can't be opened; `SameFile`; `Memory` if an
    /// allocation fails. Then no file has changed.
    pub fn open(
        rt: &'rt HostRuntime,
        notes: &'rt Notes<'rt>,
        own: Side,
        setup: &TapSetup<'_>,
    ) -> Result<Taps<'rt, L>, NoTaps> {
        let mut taps = Taps {
            rt,
            notes,
            own,
            kept_capture: None,
            kept_ladder: None,
            begun: None,
            capture: None,
            ladder: None,
            gsmtap: None,
        };
        match taps.open_all(setup) {
            Ok(()) => Ok(taps),
            Err(fault) => {
                taps.abandon();
                Err(fault)
            }
        }
    }

    /// Removes the content of regular files, and begins to record into them.
    ///
    /// # Errors
    ///
    /// `Capture` or `Ladder` if a file can't be written; `Memory` if an allocation fails.
    pub fn begin(&mut self) -> Result<(), NoTaps> {
        if let Some(file) = self.kept_capture.take() {
            self.begin_capture(file)?;
        }
        if let Some(file) = self.kept_ladder.take() {
            self.begin_ladder(file)?;
        }
        Ok(())
    }

    /// Leaves regular files that are not begun as they were before they were opened.
    pub fn abandon(self) {
        let Taps {
            rt,
            kept_capture,
            kept_ladder,
            ..
        } = self;
        if let Some(file) = kept_capture {
            file.abandon(rt);
        }
        if let Some(file) = kept_ladder {
            file.abandon(rt);
        }
    }

    // Opens what is requested.
    fn open_all(&mut self, setup: &TapSetup<'_>) -> Result<(), NoTaps> {
        if self.is_same_file(setup) {
            return Err(NoTaps::SameFile);
        }
        if let Some(path) = setup.pcap {
            self.open_capture(path)?;
        }
        // The capture's file may exist since now.
        if self.is_same_file(setup) {
            return Err(NoTaps::SameFile);
        }
        if let Some(path) = setup.ladder {
            self.open_ladder(path)?;
        }
        if let Some(address) = setup.gsmtap {
            let socket = GsmtapSocket::open(self.rt, address).map_err(NoTaps::Socket)?;
            self.gsmtap = Some(socket);
        }
        Ok(())
    }

    // Whether the capture and the ladder have the same file.
    fn is_same_file(&self, setup: &TapSetup<'_>) -> bool {
        match (setup.pcap, setup.ladder) {
            (Some(capture), Some(ladder)) => is_same_file(self.rt, capture, ladder),
            _ => false,
        }
    }

    fn open_capture(&mut self, path: &str) -> Result<(), NoTaps> {
        let opened = GrowingFile::open(self.rt, path, Content::Capture);
        let file = opened.map_err(NoTaps::Capture)?;
        if file.is_regular() {
            self.kept_capture = Some(file);
            return Ok(());
        }
        self.begin_capture(file)
    }

    fn open_ladder(&mut self, path: &str) -> Result<(), NoTaps> {
        let opened = GrowingFile::open(self.rt, path, Content::Drawing);
        let file = opened.map_err(NoTaps::Ladder)?;
        if file.is_regular() {
            self.kept_ladder = Some(file);
            return Ok(());
        }
        self.begin_ladder(file)
    }

    // Begins this side's capture in a file.
    fn begin_capture(&mut self, file: GrowingFile) -> Result<(), NoTaps> {
        let begun = file.begin(self.rt, self.notes, "capture");
        let capture = CaptureFile::begin(self.own, begun.map_err(NoTaps::Capture)?);
        self.capture = Some(capture.map_err(|error| NoTaps::Capture(NoFile::Device(error)))?);
        Ok(())
    }

    // Begins a ladder in a file.
    fn begin_ladder(&mut self, file: GrowingFile) -> Result<(), NoTaps> {
        let begun = file.begin(self.rt, self.notes, "ladder");
        match LadderFile::begin(self.rt, begun.map_err(NoTaps::Ladder)?) {
            Ok(ladder) => {
                self.ladder = Some(ladder);
                Ok(())
            }
            Err(AllocError) => Err(NoTaps::Memory),
        }
    }

    /// Notes how many dropped frames no note was about yet. Call it after the last frame.
    pub fn close(mut self) {
        if let Some(capture) = &mut self.capture {
            capture.close();
        }
        if let Some(ladder) = &mut self.ladder {
            ladder.close();
        }
    }
}

impl<'rt, L: Ladder> Tap for Taps<'rt, L> {
    fn pass(&mut self, from: Side, moment: u64, frame: &[u8]) {
        let time = self.time_of(moment);
        self.capture_frame(from, time, frame);
        self.draw_frame(from, time, frame);
        self.send_frame(from, frame);
    }
}

impl<'rt, L: Ladder> Taps<'rt, L> {
    // The time of a moment of the line, in milliseconds since 1970.
    fn time_of(&mut self, moment: u64) -> u64 {
        let begun = begun_at(self.rt, self.begun, moment);
        self.begun = Some(begun);
        begun.saturating_add(moment)
    }

    // Writes a frame into the capture, if there is one.
    fn capture_frame(&mut self, from: Side, time: u64, frame: &[u8])
        requires { length frame.now ≤ MOST_RECEIVED }
    {
        let Some(capture) = &mut self.capture else {
            return;
        };
        if let Err(error) = capture.record(from, time, frame) {
            self.notes
                .print(format_args!("capture stopped: {}", Reason(&error)));
            self.capture = None;
        }
    }

    // Draws a frame into the ladder, if there is one.
    fn draw_frame(&mut self, from: Side, time: u64, frame: &[u8]) {
        let Some(ladder) = &mut self.ladder else {
            return;
        };
        if let Err(error) = ladder.record(from, time, frame) {
            self.notes
                .print(format_args!("ladder stopped: {}", Reason(&error)));
            self.ladder = None;
        }
    }

    // Sends a frame as GSMTAP, if requested.
    fn send_frame(&mut self, from: Side, frame: &[u8])
        requires { length frame.now ≤ MOST_RECEIVED }
    {
        let Some(gsmtap) = &self.gsmtap else {
            return;
        };
        if let Err(error) = gsmtap.send(from, frame) {
            self.notes
                .print(format_args!("GSMTAP stopped: {}", Reason(&error)));
            self.gsmtap = None;
        }
    }
}

impl GsmtapSocket {
    // Creates a socket for datagrams to this address.
    fn open(rt: &HostRuntime, address: &str) -> io::Result<GsmtapSocket> {
        let address = gsmtap_address(rt, address)?;
        let own = if address.is_ipv4() {
            "0.0.0.0:0"
        } else {
            "[::]:0"
        };
        let socket = UdpSocket::bind(rt, own)?;
        Ok(GsmtapSocket { socket, address })
    }

    // Sends a frame. The socket is not connected, so nobody has to listen.
    fn send(&self, from: Side, frame: &[u8]) -> io::Result<()>
        requires { length frame.now ≤ MOST_RECEIVED }
    {
        let datagram = gsmtap_of(from, frame);
        self.socket.send_to(datagram.as_slice(), self.address)?;
        Ok(())
    }
}

// The first address of this host and port.
fn gsmtap_address(rt: &HostRuntime, address: &str) -> io::Result<SocketAddr> {
    let first = address.to_socket_addrs(rt)?.next();
    first.ok_or(io::Error::from(ErrorKind::NotFound))
}

// The time of the start: the known one, or `moment` milliseconds ago.
fn begun_at(rt: &HostRuntime, begun: Option<u64>, moment: u64) -> u64 {
    match begun {
        Some(begun) => begun,
        None => milliseconds_now(rt).saturating_sub(moment),
    }
}

// The time of the system's clock, in milliseconds since 1970; 0 if it can't be read.
fn milliseconds_now(rt: &HostRuntime) -> u64 {
    let Ok(now) = SystemTime::now(rt) else {
        return 0;
    };
    match now.duration_since(UNIX_EPOCH) {
        Ok(passed) => u64::try_from(passed.as_millis()).unwrap_or(u64::MAX),
        Err(_) => 0,
    }
}
