//! Tests of captures, and of `decode` with captures and with loose lines. Captures are read and
//! written as by Wireshark's programs, which wrote the rows.
//!
//! The tests are a crate of their own so that each crate below is proved only once. Contracts are
//! not tested again.
#![tactic(auto)]

#[cfg(test)]
mod chosen;
#[cfg(test)]
mod colors;
#[cfg(test)]
mod dumps;
#[cfg(test)]
mod followed;
#[cfg(test)]
mod kinds;
#[cfg(test)]
mod lines;
#[cfg(test)]
mod live_ladder;
#[cfg(test)]
mod logs;
#[cfg(test)]
mod names;
#[cfg(test)]
mod objects;
#[cfg(test)]
mod outputs;
#[cfg(test)]
mod read;
#[cfg(test)]
mod senders;
#[cfg(test)]
mod written;
#[cfg(test)]
mod zones;
