//! The stack under test, as the player reaches it.

use lapd_conform_suite::Request;

/// Why the stack is out of reach.
#[derive(Clone, Copy, Debug, PartialEq, Eq)]
pub enum Lost {
    /// The connection was closed, or a read or a write failed.
    Closed,
    /// An allocation failed.
    Memory,
}

/// The stack under test: its line, its upper tester and a clock.
pub trait Station {
    /// The moment, in milliseconds. It never decreases.
    fn now(&self) -> u64;

    /// Sends octets to the stack.
    ///
    /// # Errors
    ///
    /// The stack is out of reach.
    fn send(&mut self, octets: &[u8]) -> Result<(), Lost>;

    /// Waits for a frame until this moment. Returns `true` if a frame was received, and puts its
    /// octets into `octets`, which is empty before.
    ///
    /// # Errors
    ///
    /// The stack is out of reach.
    fn receive(&mut self, until: u64, octets: &mut Vec<u8>) -> Result<bool, Lost>;

    /// Passes a request to the upper tester. The TEI is that of the link, or the one to `check` or
    /// `remove`.
    ///
    /// # Errors
    ///
    /// The stack or its upper tester is out of reach.
    fn request(&mut self, request: Request, tei: u16) -> Result<(), Lost>;

    /// Starts the stack anew. Returns `false` if the station cannot: then the stack is unchanged.
    ///
    /// # Errors
    ///
    /// The stack is out of reach.
    fn restart(&mut self) -> Result<bool, Lost>;

    /// By how much waits of the station have overrun so far at most, in milliseconds.
    fn lateness(&self) -> u64;
}
