//! The rows, by subject.

mod buses;
mod management;
mod readers;
mod sides;
mod tables;

/// Subjects that run while allocations may fail.
pub(crate) const NETWORK_SIDES: u32 = 0;

pub(crate) const USER_SIDES: u32 = 1;

pub(crate) const BUSES: u32 = 2;

pub(crate) const LINKS: u32 = 3;

/// The number of subjects.
pub(crate) const SUBJECTS: u32 = 9;

/// The rows of a subject. They are returned by reference, because a constant would be copied into
/// each function that names it.
pub(crate) fn rows_of(subject: u32) -> &'static str {
    match subject {
        NETWORK_SIDES => sides::NETWORK,
        USER_SIDES => sides::USER,
        BUSES => buses::BUSES,
        LINKS => tables::LINKS,
        4 => buses::RUNS,
        5 => sides::LENGTHS,
        6 => readers::READERS,
        7 => tables::TABLES,
        _ => management::MANAGEMENT,
    }
}
