//! Counters modulo 128, after ITU-T Q.921 (09/97), clause 3.5.2: the send, acknowledge and receive
//! state variables V(S), V(A), V(R) and the sequence numbers N(S), N(R) of multiple frame
//! operation.
//!
//! Begin with [`Seq`], a counter from 0 to 127, where 0 follows 127. Its functions do what the
//! procedures of clause 5 need: the next counter, the number of steps from one to another, whether
//! a number lies between two others, and whether the window of k frames is open.
//!
//! All of them are proved against counting by steps of one. `specs/Counting.antt` defines it once
//! for two readings: tags from 0 to 127, which frames carry, and whole numbers without a bound,
//! which identify each message. [`laws`] says how the two readings agree if numbers lie within 127
//! of each other.
#![tactic(auto)]

pub mod laws;
mod seq;

pub use seq::Seq;
