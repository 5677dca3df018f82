//! Frames of the ISDN D channel, after ITU-T Q.921 (09/97), clause 3: reading them from octets and
//! writing them.
//!
//! Begin with [`read`], which borrows the information from the octets, or with [`Frame::new`]. A
//! [`Frame`] is an address, a control field and information, and its type ensures that they form a
//! frame of the grammar. Other octets have a first fault, [`FaultKind`] F1 to F7. A [`FrameFault`]
//! also carries the address if the fault is for a link (F4 to F7). [`read_predicted`] reads the
//! frames that two established ends predict (header prediction), at less cost.
//! [`FrmrInfo`] reads the information of a frame reject. Flags, zero insertion and the frame check
//! sequence are below this crate: a frame here has 3 to 264 octets.
#![tactic(auto)]

mod fault_kind;
mod frame;
mod frame_fault;
mod frmr_info;
mod laws;
mod predicted_frame;

pub use fault_kind::FaultKind;
pub use frame::{Frame, MOST_OCTETS, N201, read, write, write_over};
pub use frame_fault::FrameFault;
pub use frmr_info::FrmrInfo;
pub use lapd_field::{
    Address, Control, FieldFault, MessageField, Number, Response, Role, Sapi, Side, Tei,
};
pub use laws::{one_frame, one_spelling, read_as_spelled};
pub use predicted_frame::{PredictedFrame, PredictedKind, read_predicted};
