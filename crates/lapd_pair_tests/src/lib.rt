//! Tests of two ends on a lossy line: moves of a `Pair` with the octets that they put on the line,
//! refused moves, failed allocations, 10,000 random moves for each recovery at each side, how a line
//! settles, and how both ends agree again. And tests of a listener on the line, and on a bus: it
//! remarks no violation.
//!
//! A crate of their own keeps its check and that of the other tests short.
#![tactic(auto)]

#[cfg(test)]
mod buses;
#[cfg(test)]
mod drawn;
#[cfg(test)]
mod draws;
#[cfg(test)]
mod followed;
#[cfg(test)]
mod losses;
#[cfg(test)]
mod made;
#[cfg(test)]
mod named;
#[cfg(test)]
mod recovered;
#[cfg(test)]
mod rows;
#[cfg(test)]
mod safe;
#[cfg(test)]
mod steps;
#[cfg(test)]
mod text;
#[cfg(test)]
mod watch;
