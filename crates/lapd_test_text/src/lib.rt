//! Helpers that the test crates share.
//!
//! A [`Text`] is built piece by piece and compared as a whole. A [`Subject`] runs rows of text, and
//! [`wrong_row`] finds the first that fails. [`wants`] and [`all_hold`] fail a test with the name of
//! a row. [`Draws`] is a sequence of random numbers and octets, and [`Parts`] a reader of few octets
//! at a time.
#![tactic(auto)]

mod checks;
mod draws;
mod parts;
mod rows;
mod text;

pub use checks::{all_hold, wants};
pub use draws::Draws;
pub use parts::Parts;
pub use rows::{Subject, split, wrong_row};
pub use text::Text;
