//! The conformance tester: it executes a case against a LAPD stack, and returns a verdict.
//!
//! [`play`] executes a [`Case`] against a [`Station`], and returns its [`Outcome`]. A case of a link
//! fails only if the judge refuses its frames, also when it is repeated. TEI management is judged
//! by the purpose of the case, which its lines state. [`verdict_on`] is the rule for the verdict.
//!
//! [`judge`] decides whether some run of an allowed state table has a dialogue: a list of
//! [`Happening`]s with their moments. It follows all ends whose dialogue it may be: links of
//! `lapd_link`, with the choices that Q.921 leaves open. An end processes a frame of the tester at
//! any moment until the tolerance is used up, and a timer may expire from 90 % of its
//! duration on. If no end is left, no run of an allowed table has the dialogue
//! ([`Judgement::Refused`]). If too many are left, the judge gives up ([`Judgement::TooMany`]); it
//! never leaves one out.
#![tactic(auto)]

mod candidate;
mod candidates;
mod eager;
mod judgement;
mod link_frame;
mod outcome;
mod own_link;
mod playing;
mod replay;
mod setup;

pub use candidates::judge;
pub use judgement::{Judgement, Verdict, verdict_on};
pub use lapd_conform_player::{
    Case, Happening, Lacks, Lost, Need, NumberedLine, Preamble, Reason, Request, Requests, Stack,
    Station, What, first_case, request_word,
};
pub use lapd_link::{Params, Side, Tei};
pub use outcome::{Doubt, Outcome, Played};
pub use own_link::OwnLink;
pub use playing::{Session, play};
pub use setup::Setup;
