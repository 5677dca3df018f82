//! Both ends of the dialogue in the help of `net` and `user`, over a connection of the process to
//! itself. All that the user sends there is written before, so that neither end waits for the
//! other.

use crate::examples::text_of;
use crate::run::SideCommands;
use lapd_cli_console::Script;
use lapd_test_scenario::{Trial, example_passes, to_itself};
use std::alloc::Global;
use std::io::{self, Read, Write};
use std::net::TcpStream;
use std::test::Fail;

/// The octets that the user sends.
const FROM_USER: &[u8; 34] =
    b"\x00\x08\xfc\xff\x03\x0f\x61\x99\x01\xff\x00\x03\x00\x81\x7f\x00\x06\x00\x81\x00\x00\x08\x01\
    \x00\x04\x02\x81\x01\x02\x00\x03\x00\x81\x53";

/// Whether both ends run as in the help, and the user sends these octets.
fn both_exchange(rt: &HostRuntime) -> io::Result<bool> {
    let (near, far) = to_itself(rt)?;
    Ok(both_exchange_over(rt.alloc(), &near, &far))
}

fn both_exchange_over(alloc: Global, mut near: &TcpStream, mut far: &TcpStream) -> bool {
    let mut sent = [0; 34];
    let (net, user) = (text_of(Script::Net), text_of(Script::User));
    far.write_all(FROM_USER).is_ok()
        && example_passes(
            alloc,
            &SideCommands,
            "lapd net --listen a:1",
            net,
            Trial::Over(near, near),
        )
        && example_passes(
            alloc,
            &SideCommands,
            "lapd user --connect a:1",
            user,
            Trial::Over(far, far),
        )
        && near.read_exact(&mut sent).is_ok()
        && sent == *FROM_USER
}

#[test]
fn scenarios_over_connections(rt: HostRuntime) -> Result<(), Fail> {
    if both_exchange(&rt)? {
        Ok(())
    } else {
        Err(Fail::new(format_args!("both ends of the help's dialogue")))
    }
}
