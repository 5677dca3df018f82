//! A bus of sides, after ITU-T Q.921 (09/97): one network side and any number of terminals.
//!
//! The laws of two sides (`lapd_two_side_laws`) are applied here to a passive bus: a [`NetSide`] and a
//! [`UserSide`] for each terminal. Nothing here runs. A bus and its events are defined in `lapd_side_events`. The definitions, in the
//! order of specs/:
//!
//! - `Assignments`: the assignments in transit to a terminal, and the terminals that hold a TEI,
//!   await one, or may still take one (`claims`).
//! - `Links`: the premises on one link between the network and one terminal.
//! - `Holdings`: the premises on TEIs (`KeepsTeisApart`), and the holding of a TEI, from its
//!   assignment to the next (`KeepsHolding`).
//! - `Freeing`: another premise, on when a TEI is freed (`LosesNone`). `Healing`: a check of a TEI
//!   on any bus, and the premises under which it leaves the TEI to one terminal (`Heals`). `Runs`,
//!   `HoldingRuns`, `HealingRuns`: worked runs.
//!
//! The laws:
//!
//! - [`each_run_is_a_run_of_two_sides`]: the network and one terminal of a bus are two sides, where
//!   the network overhears octets of the other terminals.
//! - [`each_terminals_link_is_safe`]: so the link of each terminal is safe, from any moment at
//!   which it is new.
//! - [`every_bus_is_single`]: no two terminals hold the same TEI.
//! - [`every_holding_is_safe`]: the links of a TEI are safe from its assignment to the next, and
//!   nobody else delivers anything about them.
//! - [`each_fixed_tei_is_safe`]: the same from the first event on, for fixed TEIs.
//! - [`freeing_keeps_assignments`]: a premise on freeing TEIs implies that on assigning them.
//! - [`each_check_heals_its_tei`]: after a check of a TEI at most one terminal holds it, whatever
//!   the bus held before.
//! - [`bus_premises_can_be_met`], [`each_bus_premise_is_needed`],
//!   [`each_holding_premise_is_needed`], [`healing_premises_can_be_met`],
//!   [`each_healing_premise_is_needed`]: worked runs.
//!
//! [`NetSide`]: lapd_sides::NetSide
//! [`UserSide`]: lapd_sides::UserSide
#![tactic(auto)]

mod healing;
mod holdings;
mod laws;
mod runs;

pub use healing::{
    each_check_heals_its_tei, each_healing_premise_is_needed, healing_premises_can_be_met,
};
pub use holdings::{
    each_fixed_tei_is_safe, every_bus_is_single, every_holding_is_safe, freeing_keeps_assignments,
};
pub use laws::{each_run_is_a_run_of_two_sides, each_terminals_link_is_safe};
pub use runs::{
    bus_premises_can_be_met, each_bus_premise_is_needed, each_holding_premise_is_needed,
};
