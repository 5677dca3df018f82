//! The printed lines of a move.

ghost use Rattle.std.specs.Prelude.{◌≡◌, ℕ, Option, Some, None, IsOkUnless, OnOk};
ghost use Rattle.std.specs.List.{All};
ghost use Rattle.std.specs.Io.KnownBytes.{Appends};
ghost use Rattle.lapd_frame.specs.Frame.{spelling};
ghost use Rattle.lapd_cli_script.specs.Line.{digits_of, text_line};
ghost use Rattle.lapd_tei.specs.Out.{IsInRange};
ghost use Rattle.lapd_cli_link_commands.specs.BusLines.{mover, network_line, out_line, outs_text, refusal_line, terminal_line, terminal_text};

use lapd_cli_script::{LineFault, put_line, put_number, put_octets};
use lapd_tei::{BusFault, BusMove, Side, TeiMessage, TeiOut};
use std::io::Write;

/// Prints the outputs of a move of this terminal, or of the network side if `who` is `None`.
///
/// # Errors
///
/// `Device` if the writer fails.
pub fn put_outs<W: Write>(who: Option<usize>, outs: &[TeiOut], out: &mut W) -> Result<(), LineFault>
    requires { All IsInRange outs.now }
    ensures ok { OnOk result
        (Appends (W.contents out.old) (W.contents out.new) (outs_text who outs.now)) }
    ensures err { IsOkUnless result LineFault.Device }
{
    for given in outs {
        put_out(who, given, out)?;
    }
    Ok(())
}

/// The terminal that makes the move; `None` for the network side.
pub fn mover(m: &BusMove) -> Option<usize>
    ensures { result ≡ mover m.now }
{
    match *m {
        BusMove::Ask(t, _) | BusMove::T202(t, _) | BusMove::Hear(_, t, _) | BusMove::Leave(t) =>
            Some(t),
        BusMove::Drop(_)
        | BusMove::HearUp(_)
        | BusMove::DropUp(_)
        | BusMove::Check(_)
        | BusMove::Remove(_)
        | BusMove::T201 => None,
    }
}

/// Prints why a move is refused.
///
/// # Errors
///
/// `Device` if the writer fails.
pub fn put_refusal<W: Write>(fault: BusFault, out: &mut W) -> Result<(), LineFault>
    ensures ok { OnOk result
        (Appends (W.contents out.old) (W.contents out.new) (refusal_line fault)) }
    ensures err { IsOkUnless result LineFault.Device }
{
    put_line(b"refused ", fault.name().as_bytes(), out)
}

/// Prints one output.
fn put_out<W: Write>(who: Option<usize>, given: &TeiOut, out: &mut W) -> Result<(), LineFault>
    requires { IsInRange given.now }
    ensures ok { OnOk result
        (Appends (W.contents out.old) (W.contents out.new) (out_line who given.now)) }
    ensures err { IsOkUnless result LineFault.Device }
{
    match who {
        Some(t) => put_terminal_out(t, given, out),
        None => put_network_out(given, out),
    }
}

/// Prints an output of a terminal.
fn put_terminal_out<W: Write>(t: usize, given: &TeiOut, out: &mut W) -> Result<(), LineFault>
    requires { IsInRange given.now }
    ensures ok { OnOk result
        (Appends (W.contents out.old) (W.contents out.new) (terminal_line t given.now)) }
    ensures err { IsOkUnless result LineFault.Device }
{
    match given {
        TeiOut::Send(message) => put_octets(b"up", &message.frame(Side::User), out),
        TeiOut::Got(tei) => {
            put_terminal(t, out)?;
            put_number(b" got", u64::from(tei.value()), out)
        }
        TeiOut::Gone(tei) => {
            put_terminal(t, out)?;
            put_number(b" gone", u64::from(tei.value()), out)
        }
        TeiOut::Failed => {
            put_terminal(t, out)?;
            put_line(b" failed", &[], out)
        }
        _ => Ok(()),
    }
}

/// Prints the number of the terminal, which begins a line.
fn put_terminal<W: Write>(t: usize, out: &mut W) -> Result<(), LineFault>
    ensures ok { OnOk result (Appends (W.contents out.old) (W.contents out.new) (terminal_text t)) }
    ensures err { IsOkUnless result LineFault.Device }
{
    write!(out, "terminal {t}")?;
    Ok(())
}

/// Prints an output of the network side.
fn put_network_out<W: Write>(given: &TeiOut, out: &mut W) -> Result<(), LineFault>
    requires { IsInRange given.now }
    ensures ok { OnOk result
        (Appends (W.contents out.old) (W.contents out.new) (network_line given.now)) }
    ensures err { IsOkUnless result LineFault.Device }
{
    match given {
        TeiOut::Send(message) => put_octets(b"down", &message.frame(Side::Network), out),
        TeiOut::Free(tei) => put_number(b"net free", u64::from(tei.value()), out),
        TeiOut::InUse(tei) => put_number(b"net in-use", u64::from(tei.value()), out),
        TeiOut::Doubled(tei) => put_number(b"net doubled", u64::from(tei.value()), out),
        _ => Ok(()),
    }
}
