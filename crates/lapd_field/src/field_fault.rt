use thiserror::Error;

/// A fault of an address or control field. The faults are listed in the order in which they are
/// checked.
#[derive(Clone, Copy, Debug, PartialEq, Eq, Error)]
pub enum FieldFault {
    /// F1: too few octets.
    #[error("F1 TooShort")]
    TooShort,
    /// F2: an address extension bit (EA, Q.921 3.3.1) is wrong.
    #[error("F2 BadAddress")]
    BadAddress,
    /// F3: the service access point is not served.
    #[error("F3 SapiNotServed")]
    SapiNotServed,
    /// F4: an undefined control field (Q.921 3.6.1), or one with a reserved bit set.
    #[error("F4 Undefined")]
    Undefined,
}
