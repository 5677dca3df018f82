//! The values of the program `lapd`'s options: which numbers they accept, and the error for any
//! other text.
//!
//! This crate does not depend on the command line, so its proofs and edits do not read the parser.
//! Begin with [`params_written`].
#![tactic(auto)]

mod address_option;
mod interface;
mod interface_options;
mod link_end;
mod number_option;
mod numbers;
mod out_of_range;

pub use address_option::{AddressOption, CONNECT, GSMTAP, LISTEN};
pub use interface::Interface;
pub use interface_options::{
    InterfaceFault, InterfaceOptions, durations_written, interface_written, tei_written,
};
pub use lapd_link_definition::{Params, Recovery, Sapi, Side, Tei};
pub use lapd_timers::Durations;
pub use link_end::LinkEnd;
pub use number_option::{
    AUDIT, CONNECTED_TERMINALS, COUNT, FIXED_TEI, FOLLOWED_K, IDLE_LIMIT, K, KNOWN_TEI, LINK_TEI,
    LINKS_K, N200, NumberOption, PRINTED_CALL, PRINTED_SAPI, PRINTED_TEI, ROOM, SEED, T200, T201,
    T202, T203, TERMINALS,
};
pub use numbers::{number_of, params_of};
pub use out_of_range::{
    OutOfRange, number_written, params_written, terminals_written, window_written,
};
