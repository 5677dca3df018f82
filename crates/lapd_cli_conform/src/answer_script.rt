//! A script of `lapd answer` for a dialogue: what our link does in the place of the stack.

use lapd_conform::{Happening, Request, Stack, What, request_word};
use lapd_conform_draw::{Expected, Timer};
use lapd_frame::Side;
use lapd_trace::line;
use std::alloc::{AllocError, Global};

/// The greatest number of timers that expire between two happenings.
const MOST_EXPIRIES: u64 = 100_000;

/// Appends a script of `lapd answer`: the frames and the requests of the tester, and the timers of
/// our link when they expire. Comments have the command that reads it, the moments, and the frames
/// that the stack sent. `name` is that of the script's file, without its ending. The link is in
/// state 4 at the beginning.
///
/// # Errors
///
/// An allocation failed.
pub fn push_answer_script(
    alloc: Global,
    text: &mut Vec<u8>,
    stack: &Stack,
    name: &str,
    happenings: &[Happening],
) -> Result<(), AllocError> {
    let tei = tei_of(happenings);
    push_head(alloc, text, stack, name, tei)?;
    let mut end = Expected::new(alloc, stack, tei)?;
    let start = match happenings.first() {
        Some(first) => first.at,
        None => 0,
    };
    for happening in happenings {
        let moment = happening.at.saturating_sub(start);
        push_expiries(alloc, text, &mut end, moment)?;
        push_happening(alloc, text, stack.side, happening, moment)?;
        take(&mut end, happening)?;
    }
    Ok(())
}

/// The TEI of the first frame of the tester, which is one of the link.
fn tei_of(happenings: &[Happening]) -> u8 {
    for happening in happenings {
        if happening.what == What::Sent
            && let [_, second, ..] = happening.octets.as_slice()
        {
            return *second / 2;
        }
    }
    0
}

fn push_head(
    alloc: Global,
    text: &mut Vec<u8>,
    stack: &Stack,
    name: &str,
    tei: u8,
) -> Result<(), AllocError> {
    let side = match stack.side {
        Side::Network => "net",
        Side::User => "user",
    };
    let (k, n200) = (stack.k, stack.n200);
    let head = format!(in alloc;
        "# lapd answer --side {side} --tei {tei} --k {k} --n200 {n200} <{name}.answer\n# It prints what our link does in the place of the stack.\n"
    )?;
    text.extend_from_slice(head.as_bytes())
}

/// Appends the timers of our link that expire by this moment.
fn push_expiries(
    alloc: Global,
    text: &mut Vec<u8>,
    end: &mut Expected,
    moment: u64,
) -> Result<(), AllocError> {
    for _turn in 0..MOST_EXPIRIES {
        let Some(timer) = end.expire(moment) else {
            return Ok(());
        };
        let word = match timer {
            Timer::T203 => "t203",
            _ => "t200",
        };
        let lines = format!(in alloc; "# {} ms\n{word}\n", end.now())?;
        text.extend_from_slice(lines.as_bytes())?;
    }
    Ok(())
}

/// Appends a frame or a request of the tester, or a frame of the stack as a comment.
fn push_happening(
    alloc: Global,
    text: &mut Vec<u8>,
    side: Side,
    happening: &Happening,
    moment: u64,
) -> Result<(), AllocError> {
    let octets = happening.octets.as_slice();
    let lines = match happening.what {
        What::Sent => {
            let shown = line(alloc, side.other(), octets)?;
            format!(in alloc; "# {moment} ms: {shown}\nframe ")?
        }
        What::Received => {
            let shown = line(alloc, side, octets)?;
            format!(in alloc; "# {moment} ms: the stack sent {shown}\n")?
        }
        What::Requested(request) => {
            let word = request_line(request);
            format!(in alloc; "# {moment} ms\n{word}\n")?
        }
    };
    text.extend_from_slice(lines.as_bytes())?;
    if happening.what == What::Sent {
        push_digits(alloc, text, octets)?;
    }
    Ok(())
}

fn push_digits(alloc: Global, text: &mut Vec<u8>, octets: &[u8]) -> Result<(), AllocError> {
    for octet in octets {
        let digits = format!(in alloc; "{octet:02x}")?;
        text.extend_from_slice(digits.as_bytes())?;
    }
    text.push(b'\n')?;
    Ok(())
}

/// The line of a request, with the octets of the upper tester.
fn request_line(request: Request) -> &'static str {
    match request {
        Request::Give => "give 0102",
        Request::Unit => "unit 0801",
        Request::Busy => "busy on",
        Request::Ready => "busy off",
        _ => request_word(request),
    }
}

/// Passes a frame or a request of the tester to our link.
fn take(end: &mut Expected, happening: &Happening) -> Result<(), AllocError> {
    match happening.what {
        What::Sent => end.receive(happening.octets.as_slice()),
        What::Received => {}
        What::Requested(request) => end.request(request)?,
    }
    Ok(())
}
