//! The options that take an address.

/// An option whose value is an address and a port. Its text is passed to the system's calls
/// unchanged.
#[derive(Clone, Copy, Debug)]
pub struct AddressOption {
    /// The long name, without the hyphens.
    pub name: &'static str,
    /// The help text.
    pub help: &'static str,
}

/// The address on which the network side listens.
pub const LISTEN: AddressOption = AddressOption {
    name: "listen",
    help: "\
Waits at this address for a connection, such as
127.0.0.1:4000",
};

/// The address to which the user side connects.
pub const CONNECT: AddressOption = AddressOption {
    name: "connect",
    help: "Connects to this address, such as 127.0.0.1:4000",
};

/// The address to which frames are sent as GSMTAP.
pub const GSMTAP: AddressOption = AddressOption {
    name: "gsmtap",
    help: "\
With --clock real, sends each frame as GSMTAP
over UDP to this address, such as 127.0.0.1:4729",
};
