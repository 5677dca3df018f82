//! Tests of the conformance suite, of its grammar, of the judge, of the player, and of the texts of
//! the command.
#![tactic(auto)]

#[cfg(test)]
mod answers;
#[cfg(test)]
mod asked_rows;
#[cfg(test)]
mod draws;
#[cfg(test)]
mod grammar;
#[cfg(test)]
mod judge;
#[cfg(test)]
mod plays;
#[cfg(test)]
mod station;
#[cfg(test)]
mod suite;
#[cfg(test)]
mod texts;
