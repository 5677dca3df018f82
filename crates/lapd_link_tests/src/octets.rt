//! Tests of octets: address and control fields, frames, and their lines of text.

pub(crate) mod fields;
pub(crate) mod frames;
pub(crate) mod traces;
