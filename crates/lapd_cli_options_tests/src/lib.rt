//! Tests of the command line: what the program's words choose, how invalid words are reported, and
//! the ends of scripts.
#![tactic(auto)]

#[cfg(test)]
mod command_line;
