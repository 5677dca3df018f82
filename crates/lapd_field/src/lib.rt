//! The address and control fields of a frame of the ISDN D channel, after ITU-T Q.921 (09/97),
//! clause 3.
//!
//! Begin with [`Control`], the control field of one or two octets: it names every frame of the data
//! link, with its sequence numbers and its P/F bit. [`Address`] is the two octets before it: the
//! service access point (`Sapi`), the terminal endpoint (`Tei`), and whether the frame is a command
//! or a response (`Role`), which depends on who sent it (`Side`). For both, `read` and `write` are
//! proved to be inverse to each other. If the octets are not a valid field, `read` returns a
//! `FieldFault`. `Response` and `MessageField` are the control fields that a link sends most, by
//! their numbers: they write the four octets of address and control field at once.
#![tactic(auto)]

mod address;
mod control;
mod field_fault;
mod message_field;
mod number;
mod response;
mod sapi;
mod side;
mod tei;

pub use address::Address;
pub use control::Control;
pub use field_fault::FieldFault;
pub use message_field::MessageField;
pub use number::Number;
pub use response::Response;
pub use sapi::Sapi;
pub use side::{Role, Side};
pub use tei::Tei;
