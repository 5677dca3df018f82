//! The management of terminal endpoint identifiers (TEIs) of the ISDN D channel, after ITU-T Q.921
//! (09/97), clause 5.3: its messages, a terminal, the assigner of the network side, and a bus of
//! terminals in memory.
//!
//! Begin with [`Terminal`] and [`Assigner`]: they process events and return outputs, [`TeiOut`], in
//! order, with no clock and no line inside. [`TeiMessage`] reads the information field of a
//! management UI frame, and writes the whole frame. [`Bus`] joins several terminals and one
//! assigner.
//!
//! Throughout every run of a bus, no two terminals hold the same TEI, provided that no terminal
//! requests by another's last reference and that a TEI is freed only while it is unused.
//! [`service_is_in_order`] says the same of a bus in service, where terminals with fixed TEIs join
//! and the network side restarts.
#![tactic(auto)]

mod assigner;
mod broadcast;
mod bus;
mod bus_move;
mod check;
mod fault;
mod kind;
mod laws;
mod message;
mod out;
mod phase;
mod terminal;

pub use assigner::{Assigner, AssignerEvent};
pub use bus::Bus;
pub use bus_move::{BusFault, BusMove};
pub use fault::TeiFault;
pub use kind::TeiKind;
pub use lapd_frame::{Side, Tei};
pub use lapd_timers::Timer;
pub use laws::{
    assigner_is_computed, moves_are_computed, moves_are_events, premises_are_needed,
    premises_can_be_met, service_is_in_order, service_premises_are_needed,
    service_premises_can_be_met, terminals_are_single,
};
pub use message::TeiMessage;
pub use out::{TeiOut, TeiOuts};
pub use terminal::{Terminal, TerminalEvent};
