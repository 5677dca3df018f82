//! The same messages over a [`Pair`], which keeps the history of each; and frames that stay on its
//! line.

use crate::bench_fault::BenchFault;
use crate::done::Done;
use crate::{OCTETS, WINDOW};
use lapd_frame::Side;
use lapd_link::{Outs, Params};
use lapd_pair::{Move, Pair};
use std::alloc::Global;

/// Passes this many messages from the user to the network, a window at a time.
///
/// # Errors
///
/// `Memory`, and `Pair` if a move is refused.
pub fn pass(alloc: Global, messages: u32) -> Result<Done, BenchFault> {
    let give = Move::Give(Side::User, [0; OCTETS].to_vec(alloc)?);
    pass_each(alloc, &give, messages)
}

/// Passes a message this often over a pair with the parameters of primary rate access.
fn pass_each(alloc: Global, give: &Move, messages: u32) -> Result<Done, BenchFault> {
    let mut pair = Pair::new(alloc, Params::primary(), Params::primary())?;
    pass_over(&mut pair, give, messages)
}

/// Passes a message this often over this pair, after the user establishes its link.
fn pass_over(pair: &mut Pair, give: &Move, messages: u32) -> Result<Done, BenchFault> {
    let mut outs = Outs::new();
    pass_all(pair, give, messages, &mut outs)?;
    Ok(Done {
        given: pair.given(Side::User).len() as u64,
        received: pair.received(Side::Network).len() as u64,
        acknowledged: pair.acknowledged(Side::User),
    })
}

/// The user establishes the link and passes a message this often, a window at a time.
fn pass_all(
    pair: &mut Pair,
    give: &Move,
    messages: u32,
    outs: &mut Outs,
) -> Result<(), BenchFault> {
    repeat(pair, &Move::Establish(Side::User), 1, outs)?;
    repeat(pair, &Move::Deliver(Side::Network), 1, outs)?;
    repeat(pair, &Move::Deliver(Side::User), 1, outs)?;
    for _ in 0..messages / WINDOW {
        pass_batch(pair, give, WINDOW, outs)?;
    }
    pass_batch(pair, give, messages % WINDOW, outs)
}

/// The user submits this many messages; each is delivered, and so is each acknowledgement.
fn pass_batch(
    pair: &mut Pair,
    give: &Move,
    messages: u32,
    outs: &mut Outs,
) -> Result<(), BenchFault> {
    repeat(pair, give, messages, outs)?;
    repeat(pair, &Move::Deliver(Side::Network), messages, outs)?;
    repeat(pair, &Move::Deliver(Side::User), messages, outs)
}

/// Makes the same move this many times.
fn repeat(
    pair: &mut Pair,
    side_event: &Move,
    times: u32,
    outs: &mut Outs,
) -> Result<(), BenchFault> {
    for _ in 0..times {
        pair.apply_into(side_event, outs)?;
    }
    Ok(())
}

/// Keeps this many frames of unit data on the line, and sends this many more; the first frame is
/// delivered each time.
///
/// # Errors
///
/// `Memory`, and `Pair` if a move is refused.
pub fn exchange(alloc: Global, frames: u32, moves: u32) -> Result<Done, BenchFault> {
    let unit = Move::Unit(Side::User, [0; OCTETS].to_vec(alloc)?);
    exchange_each(alloc, &unit, frames, moves)
}

/// The same as [`exchange`], on a new pair.
fn exchange_each(alloc: Global, unit: &Move, frames: u32, moves: u32) -> Result<Done, BenchFault> {
    let mut pair = Pair::new(alloc, Params::primary(), Params::primary())?;
    exchange_over(&mut pair, unit, frames, moves)
}

/// The same as [`exchange`], on this pair.
fn exchange_over(
    pair: &mut Pair,
    unit: &Move,
    frames: u32,
    moves: u32,
) -> Result<Done, BenchFault> {
    let mut outs = Outs::new();
    repeat(pair, unit, frames, &mut outs)?;
    move_on(pair, unit, moves, &mut outs)?;
    Ok(Done {
        given: u64::from(frames).wrapping_add(u64::from(moves)),
        received: pair.units(Side::Network).len() as u64,
        acknowledged: 0,
    })
}

/// Sends a frame and delivers the first one, this many times.
fn move_on(pair: &mut Pair, unit: &Move, moves: u32, outs: &mut Outs) -> Result<(), BenchFault> {
    for _ in 0..moves {
        pair.apply_into(unit, outs)?;
        pair.apply_into(&Move::Deliver(Side::Network), outs)?;
    }
    Ok(())
}
