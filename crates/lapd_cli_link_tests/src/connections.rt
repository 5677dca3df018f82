//! Scenarios of `pair` as `loop`, over a connection of the process to itself.

use crate::run::LinkCommands;
use crate::scenarios::pairs;
use lapd_test_scenario::{Trial, row_passes, to_itself};
use std::alloc::Global;
use std::io;
use std::net::TcpStream;
use std::test::Fail;

/// Whether a scenario of `pair`, without its first word, runs as written with `loop`.
fn loops(rt: &HostRuntime, row: &str) -> io::Result<bool> {
    let (near, far) = to_itself(rt)?;
    Ok(loops_over(rt.alloc(), row, &near, &far))
}

fn loops_over(alloc: Global, row: &str, near: &TcpStream, far: &TcpStream) -> bool {
    match format!(in alloc; "lapd loop{row}") {
        Ok(row) => row_passes(alloc, &LinkCommands, row.as_str(), Trial::Over(far, near)),
        Err(_) => false,
    }
}

#[test]
fn scenarios_over_connections(rt: HostRuntime) -> Result<(), Fail> {
    for row in pairs::PAIRS.split("\n\nlapd pair") {
        let row = row.strip_prefix("lapd pair").unwrap_or(row);
        if !row.contains("settle") && !row.contains("recover\n") && !loops(&rt, row)? {
            return Err(Fail::new(format_args!("{row}\nit goes otherwise as `loop`")));
        }
    }
    Ok(())
}
