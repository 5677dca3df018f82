//! Frames for the links of a [`NetSide`] with its responses, moments at which no timer is due, and
//! moments at which the timers of all links are due.

ghost use Rattle.std.specs.Prelude.{◌<◌, IfOk, IfSome};
ghost use Rattle.std.specs.List.{All};

use crate::OCTETS;
use crate::bench_fault::BenchFault;
use crate::done::Done;
use lapd_sides::{Acts, Config, NetSide, Primitive, Tei, What};
use std::alloc::Global;

/// The moment of all calls, in milliseconds: before the first T203 of a link expires.
const MOMENT: u64 = 1;

/// How far the clock is moved until the timers of all links are due, in milliseconds: the duration
/// of T203, which is longer than T200's.
const ROUND: u64 = 10_000;

/// The octets of an I frame, whose N(S) is counted up.
type Message = [u8; 4 + OCTETS];

/// The work over a side.
#[derive(Clone, Copy)]
pub enum SideEvent {
    /// Passes this many I frames, one after another to each link, and counts the delivered messages
    /// and the frames that respond.
    Take(u32),
    /// Calls `tick` this many times while no timer is due.
    Tick(u32),
    /// This many times, the timers of all links are due at one moment and expire one after another;
    /// the peers are silent. T203 is the first, then T200 until N200 is reached, twice.
    Expire(u32),
}

/// Does the work over a side with this many established links. It has room for the received
/// messages.
///
/// # Errors
///
/// `Memory`, and `CommandLine` for no links or more than 254.
pub fn pass(alloc: Global, links: u32, side_event: SideEvent) -> Result<Done, BenchFault> {
    let mut messages = Vec::with_capacity(alloc, links as usize)?;
    with_known(alloc, links, side_event, &mut messages)
}

/// Does the work over a side with this many links, whose TEIs are known at the start.
fn with_known(
    alloc: Global,
    links: u32,
    side_event: SideEvent,
    messages: &mut Vec<Message>,
) -> Result<Done, BenchFault> {
    let known = known(alloc, links)?;
    with_side(alloc, links, side_event, messages, &known)
}

/// Does the work over a side with this many links, of terminals with these TEIs.
fn with_side(
    alloc: Global,
    links: u32,
    side_event: SideEvent,
    messages: &mut Vec<Message>,
    known: &[Tei],
) -> Result<Done, BenchFault>
    requires { All (λ tei. tei < 127) known.now }
{
    let mut side = NetSide::new(alloc, config(links), known)?;
    with_acts(alloc, &mut side, links, side_event, messages)
}

/// Does the work over this side, with outputs that it borrows.
fn with_acts(
    alloc: Global,
    side: &mut NetSide,
    links: u32,
    side_event: SideEvent,
    messages: &mut Vec<Message>,
) -> Result<Done, BenchFault> {
    let mut acts = Acts::new(alloc)?;
    establish_and_do(side, links, side_event, messages, &mut acts)
}

/// Establishes the links of this side, and does the work over it.
fn establish_and_do(
    side: &mut NetSide,
    links: u32,
    side_event: SideEvent,
    messages: &mut Vec<Message>,
    acts: &mut Acts,
) -> Result<Done, BenchFault> {
    establish(side, links, messages, acts)?;
    match side_event {
        SideEvent::Take(frames) => take_each(side, frames, messages.as_mut_slice(), acts),
        SideEvent::Tick(times) => Ok(tick_each(side, times, acts)),
        SideEvent::Expire(rounds) => Ok(expire_each(side, rounds, acts)),
    }
}

/// Passes this many I frames, in the order of these, repeatedly.
fn take_each(
    side: &mut NetSide,
    frames: u32,
    messages: &mut [Message],
    acts: &mut Acts,
) -> Result<Done, BenchFault> {
    let mut up: u64 = 0;
    let mut answered: u64 = 0;
    let mut at: usize = 0;
    for _ in 0..frames {
        if at >= messages.len() {
            at = 0;
        }
        let Some(message) = messages.get_mut(at) else {
            return Err(BenchFault::CommandLine);
        };
        at = at.wrapping_add(1);
        side.take(message, MOMENT, acts)?;
        message[2] = message[2].wrapping_add(2);
        up = up.wrapping_add(messages_up(acts));
        answered = answered.wrapping_add(acts.frames().len() as u64);
    }
    Ok(Done {
        given: u64::from(frames),
        received: up,
        acknowledged: answered,
    })
}

/// Calls `tick` this many times while no timer is due.
fn tick_each(side: &mut NetSide, times: u32, acts: &mut Acts) -> Done {
    let mut due: u64 = 0;
    for _ in 0..times {
        if side.tick(MOMENT, acts) {
            due = due.wrapping_add(1);
        }
    }
    Done {
        given: u64::from(times),
        received: due,
        acknowledged: 0,
    }
}

/// Moves the clock this many times, and expires the timers that are due then.
fn expire_each(side: &mut NetSide, rounds: u32, acts: &mut Acts) -> Done {
    let mut due: u64 = 0;
    for round in 0..rounds {
        let now = (u64::from(round) + 1) * ROUND;
        due = due.wrapping_add(due_at(side, now, acts));
    }
    Done {
        given: u64::from(rounds),
        received: due,
        acknowledged: 0,
    }
}

/// Expires the timers that are due at this moment, one after another, and returns how many there
/// were.
fn due_at(side: &mut NetSide, now: u64, acts: &mut Acts) -> u64 {
    for due in 0..u64::MAX {
        if !side.tick(now, acts) {
            return due;
        }
    }
    u64::MAX
}

/// How many messages are delivered to layer 3.
fn messages_up(acts: &Acts) -> u64 {
    let mut up: u64 = 0;
    for primitive in acts.primitives() {
        if let Primitive::Of(_, What::Up(_)) = primitive {
            up = up.wrapping_add(1);
        }
    }
    up
}

/// The user establishes this many links at moment 0; the I frame for each is added to the list.
fn establish(
    side: &mut NetSide,
    links: u32,
    messages: &mut Vec<Message>,
    acts: &mut Acts,
) -> Result<(), BenchFault> {
    for number in 0..links {
        let (sapi, tei) = place_of(number)?;
        side.take(&[sapi, tei, 0x7f], 0, acts)?;
        if messages.push(message_for(sapi, tei)).is_err() {
            return Err(BenchFault::Memory);
        }
    }
    Ok(())
}

/// The first I frame for the link with these two octets of address.
fn message_for(sapi: u8, tei: u8) -> Message {
    let mut message = [tei; 4 + OCTETS];
    message[0] = sapi;
    message[1] = tei;
    message[2] = 0;
    message[3] = 0;
    message
}

/// The two octets of the address of a command of the user: TEIs 0 to 126 of service access point 0,
/// then those of 16.
fn place_of(number: u32) -> Result<(u8, u8), BenchFault> {
    match number {
        0..127 => Ok((0, number as u8 * 2 + 1)),
        127..254 => Ok((64, (number - 127) as u8 * 2 + 1)),
        _ => Err(BenchFault::CommandLine),
    }
}

/// The configuration of a side with this many links: service access point 16 is served if there are
/// more than 127.
fn config(links: u32) -> Config {
    Config {
        sapi16: links > 127,
        ..Config::primary(0)
    }
}

/// The TEIs of this many links, from 0 on.
fn known(alloc: Global, links: u32) -> Result<Vec<Tei>, BenchFault>
    ensures { IfOk result (λ known. All (λ tei. tei < 127) known.items) }
{
    let mut known = Vec::with_capacity(alloc, 127)?;
    for value in 0..links.min(127) {
        let Some(tei) = own_tei(value) else {
            return Err(BenchFault::CommandLine);
        };
        if known.push(tei).is_err() {
            return Err(BenchFault::Memory);
        }
    }
    Ok(known)
}

/// The TEI with this number, of one terminal.
fn own_tei(value: u32) -> Option<Tei>
    ensures { IfSome result (λ tei. tei < 127) }
{
    match Tei::new((value % 128) as u8) {
        Some(tei) if value < 127 => Some(tei),
        _ => None,
    }
}
