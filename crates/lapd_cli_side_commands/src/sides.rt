//! The commands `net` and `user`.

ghost use Rattle.std.specs.Prelude.{◌≡◌, ◌<◌, IfSome, OnOk};
ghost use Rattle.std.specs.List.{All};
ghost use Rattle.lapd_frame.specs.declared.Side.TheVariants as side;
ghost use Rattle.lapd_cli_script.specs.Script.{lines_of};
ghost use Rattle.lapd_cli_side_commands.specs.Clocks.{SideEndsAs};
ghost use Rattle.lapd_cli_side_commands.specs.Served.{NetHasServed, UserHasServed, basic_access, devices, requests_of};

use crate::side_runner::{SideRun, run_side};
use lapd_cli_script::ScriptFault;
use lapd_cli_side_lines::LineStyle;
use lapd_port::{Port, Sink, Source};
use lapd_sides::{Config, Durations, EitherSide, NetSide, Params, Sapi, Tei, UserSide};
use std::alloc::Global;
use std::io::{Read, Write};

/// Executes a script on the network side of an interface with this configuration. The user side is
/// at the far end of the port. The network side knows these TEIs, each 0 to 126, from the start.
/// Lines are printed in this style. Returns the port and the writer.
///
/// # Errors
///
/// `BadLine` at the first line that is not valid, `Device` if a read of the script or a write
/// fails, `Memory` if an allocation fails, and `Port` if the port reports S2 to S6.
pub fn net<R: Read, W: Write, S: Source, K: Sink>(
    alloc: Global,
    script: &mut R,
    out: W,
    port: Port<S, K>,
    style: LineStyle,
    config: Config,
    known: &[Tei],
) -> SideRun<W, S, K>
    requires { All (λ tei. tei < 127) known.now }
    ensures ended { IfSome (R.remaining script.old) (λ octets.
        SideEndsAs side.Network result.ended (lines_of octets)) }
    ensures served { IfSome (R.remaining script.old) (λ octets. OnOk result.ended
        (NetHasServed config known.now (requests_of side.Network (lines_of octets))
        (devices style (S.rest port.source) (K.written port.sink) (W.contents out))
        (devices style (S.rest result.port.source) (K.written result.port.sink)
        (W.contents result.out)))) }
{
    let Ok(side) = NetSide::new(alloc, config, known) else {
        let ended = Err(ScriptFault::Memory);
        return SideRun { ended, port, out };
    };
    run_side(alloc, style, EitherSide::Network(side), script, out, port)
}

/// Executes a script on the user side of an interface with this configuration. The network side is
/// at the far end of the port. The user side has this fixed TEI, 0 to 126, or none. Lines are
/// printed in this style. Returns the port and the writer.
///
/// # Errors
///
/// As for [`net`].
pub fn user<R: Read, W: Write, S: Source, K: Sink>(
    alloc: Global,
    script: &mut R,
    out: W,
    port: Port<S, K>,
    style: LineStyle,
    config: Config,
    fixed: Option<Tei>,
) -> SideRun<W, S, K>
    requires { IfSome fixed (λ tei. tei < 127) }
    ensures ended { IfSome (R.remaining script.old) (λ octets.
        SideEndsAs side.User result.ended (lines_of octets)) }
    ensures served { IfSome (R.remaining script.old) (λ octets. OnOk result.ended
        (UserHasServed config fixed (requests_of side.User (lines_of octets))
        (devices style (S.rest port.source) (K.written port.sink) (W.contents out))
        (devices style (S.rest result.port.source) (K.written result.port.sink)
        (W.contents result.out)))) }
{
    let Ok(side) = UserSide::new(alloc, config, fixed) else {
        let ended = Err(ScriptFault::Memory);
        return SideRun { ended, port, out };
    };
    run_side(alloc, style, EitherSide::User(side), script, out, port)
}

/// The configuration of a side at basic access (Q.921 5.9).
pub fn basic_access() -> Config
    ensures { result ≡ basic_access }
{
    Config {
        sapi16: true,
        params0: Params::basic(Sapi::Call),
        params16: Params::basic(Sapi::Packet),
        durations: Durations::standard(),
        seed: 921,
    }
}
