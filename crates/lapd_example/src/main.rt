//! One side of a primary rate interface over TCP, with the real clock: one link, SAPI 0 and TEI 0,
//! with k = 7 (Q.921 5.9). `lapd_example net 127.0.0.1:4000` waits for a connection. `lapd_example
//! user 127.0.0.1:4000` makes one, establishes the link, and sends a message once that is
//! confirmed. Both print what is reported to layer 3, until the other side hangs up.
#![tactic(auto)]

mod line;

use anyhow::{Result, bail};
use lapd_sides::{
    Acts, Config, EitherSide, LinkId, NetSide, Primitive, Request, Sapi, Tei, UserSide, What,
};
use line::Line;
use std::io;
use std::net::{TcpListener, TcpStream};
use std::time::{Duration, Instant};

/// How many frames are received before timers get their turn, so that a flood of frames can't stop
/// them.
const MOST_FRAMES: u32 = 4096;

fn main(rt: HostRuntime) -> Result<()> {
    let mut words = std::env::args(&rt)?.skip(1);
    let (Some(role), Some(address)) = (words.next(), words.next()) else {
        bail!("usage: lapd_example net|user ADDRESS");
    };
    match role.as_str() {
        "net" => net(&rt, &TcpListener::bind(&rt, address.as_str())?.accept()?.0),
        _ => user(&rt, &TcpStream::connect(&rt, address.as_str())?),
    }
}

fn net(rt: &HostRuntime, stream: &TcpStream) -> Result<()> {
    let side = NetSide::new(rt.alloc(), Config::primary(0), &[Tei::new(0).unwrap()])?;
    run(rt, &mut EitherSide::Network(side), stream, None)
}

fn user(rt: &HostRuntime, stream: &TcpStream) -> Result<()> {
    let (sapi, tei) = (Sapi::Call, Tei::new(0).unwrap());
    let side = UserSide::new(rt.alloc(), Config::primary(1), Some(tei))?;
    let link = LinkId { sapi, tei };
    run(rt, &mut EitherSide::User(side), stream, Some(link))
}

/// Establishes this link, if any, and serves the side until the other side hangs up.
fn run(
    rt: &HostRuntime,
    side: &mut EitherSide,
    stream: &TcpStream,
    link: Option<LinkId>,
) -> Result<()> {
    let mut endpoint = Endpoint {
        side,
        acts: Acts::new(rt.alloc())?,
        line: Line::new(rt, stream)?,
        start: Instant::now(rt)?,
    };
    if let Some(link) = link {
        endpoint.request(rt, Request::Establish(link))?;
    }
    endpoint.serve(rt)
}

/// A side, the outcome of its last call, its line and its clock.
#[derive(Drop)]
struct Endpoint<'s> {
    side: &'s mut EitherSide,
    acts: Acts,
    line: Line<'s>,
    start: Instant,
}

impl Endpoint<'_> {
    /// Receives, expires timers, and waits, in this order, until the other side hangs up.
    fn serve(&mut self, rt: &HostRuntime) -> Result<()> {
        for _ in 0..u64::MAX {
            let now = self.receive(rt)?;
            if self.side.tick(now, &mut self.acts) {
                self.send_and_report(rt)?;
                continue;
            }
            let until = self.side.next_deadline();
            let sleep = until.map(|then| Duration::from_millis(then.saturating_sub(now)));
            if !self.line.wait(sleep)? {
                break;
            }
        }
        Ok(())
    }

    /// Passes in every frame that has arrived. Returns a moment for which timers may expire: no
    /// other frame had arrived by then.
    fn receive(&mut self, rt: &HostRuntime) -> Result<u64> {
        let mut now = self.now(rt)?;
        for _ in 0..MOST_FRAMES {
            let Some(frame) = self.line.next_frame(rt)? else {
                break;
            };
            self.take(rt, &frame, now)?;
            now = self.now(rt)?;
        }
        Ok(now)
    }

    /// Passes in a frame. Once a link is confirmed, layer 3 sends a message.
    fn take(&mut self, rt: &HostRuntime, frame: &[u8], now: u64) -> Result<()> {
        self.side.take(frame, now, &mut self.acts)?;
        self.send_and_report(rt)?;
        let Some(Primitive::Of(id, What::Confirmed)) = self.acts.primitives().first() else {
            return Ok(());
        };
        let request = Request::Give(*id, [0x08, 0x01].to_vec(rt.alloc())?);
        self.request(rt, request)
    }

    fn request(&mut self, rt: &HostRuntime, request: Request) -> Result<()> {
        let now = self.now(rt)?;
        self.side.request(request, now, &mut self.acts)?;
        self.send_and_report(rt)
    }

    /// Sends the frames of the last call, and prints what it reports to layer 3.
    fn send_and_report(&mut self, rt: &HostRuntime) -> Result<()> {
        for frame in self.acts.frames() {
            self.line.send(rt, frame.as_slice())?;
        }
        for primitive in self.acts.primitives() {
            println!(rt; "{primitive}")?;
        }
        Ok(())
    }

    /// The moment, in milliseconds since the start.
    fn now(&self, rt: &HostRuntime) -> io::Result<u64> {
        Ok(u64::try_from(self.start.elapsed(rt)?.as_millis()).unwrap_or(u64::MAX))
    }
}
