//! Tests of whole sides through their public calls, and of the parts below them: dialogues octet by
//! octet, refused requests, 10,000 random moves compared with a pair of links, hostile octets, a
//! table of links, timers, and TEI management.
//!
//! They are a crate of their own so that each crate is proved once. They do not repeat contracts. A
//! row shows that the definitions mean what is intended, that a call can succeed, and what is
//! printed. A failed test reports the row, the line, and the actual result.
#![tactic(auto)]

#[cfg(test)]
mod bus;
#[cfg(test)]
mod digest;
#[cfg(test)]
mod follow;
#[cfg(test)]
mod given;
#[cfg(test)]
mod hostile;
#[cfg(test)]
mod queued;
#[cfg(test)]
mod rows;
#[cfg(test)]
mod shows;
#[cfg(test)]
mod stage;
#[cfg(test)]
mod table;
#[cfg(test)]
mod talk;
#[cfg(test)]
mod tei;
#[cfg(test)]
mod text;
