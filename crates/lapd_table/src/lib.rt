//! Several data links of one side of the user-network interface, each under its SAPI and TEI, after
//! ITU-T Q.921 (09/97), 3.3 and 3.4.
//!
//! Begin with [`LinkTable`], which holds the links. [`LinkTable::dispatch`] finds the link that a
//! received frame is addressed to, and processes the frame in it. [`LinkTable::handle`] and
//! [`LinkTable::give`] pass an event or a message to the link of a [`LinkId`]. No call lends a link
//! mutably, so no link can be exchanged for another.
#![tactic(auto)]

mod laws;
mod link_id;
mod link_key;
mod link_table;
mod table_fault;

pub use lapd_link::{
    Address, Control, Event, FaultKind, Frame, GivenOuts, Letter, Link, LinkFault, MessageField,
    NrEffect, Number, Out, Outs, Params, PredictedKind, PredictedOuts, Refused, Response, Role,
    Sapi, SendEffect, Side, Tei, Timer,
};
pub use laws::{calls_are_steps, link_is_as_it_is_alone};
pub use link_id::LinkId;
pub use link_key::LinkKey;
pub use link_table::LinkTable;
pub use table_fault::TableFault;
