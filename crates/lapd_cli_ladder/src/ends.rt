//! The words of what is known of an end.

ghost use Rattle.std.specs.Prelude.{◌≡◌, ◌++◌, slice_get, IfOk, OnOk};
ghost use Rattle.std.specs.String.{string_bytes};
ghost use Rattle.lapd_follow.specs.Follower.{place_of, seen_link};
ghost use Rattle.lapd_follow.specs.Link.{end_of};
ghost use Rattle.lapd_cli_ladder.specs.Words.{busy_words, command_words, end_words, known_words, link_words, numbers_words, poll_words};

use lapd_follow::{Busy, LinkFollower, Listener, Numbering};
use lapd_frame::{Address, Frame, FrameFault, Side};
use std::alloc::{AllocError, Global};

/// The words of the end of this side, of the link of this frame.
///
/// # Errors
///
/// `AllocError` if an allocation fails.
pub fn known_words(
    alloc: Global,
    side: Side,
    frame: &Result<Frame<'_>, FrameFault>,
    listener: &Option<Listener>,
) -> Result<String, AllocError>
    ensures { IfOk result (λ text. string_bytes text
        ≡ known_words side frame.now listener.now) }
{
    let mut text = String::new(alloc);
    push_words(&mut text, side, frame, listener)?;
    Ok(text)
}

fn push_words(
    text: &mut String,
    side: Side,
    frame: &Result<Frame<'_>, FrameFault>,
    listener: &Option<Listener>,
) -> Result<(), AllocError>
    ensures { OnOk result (string_bytes text.new
        ≡ string_bytes text.old ++ known_words side frame.now listener.now) }
{
    match frame {
        Err(_) => Ok(()),
        Ok(frame) => match listener {
            None => Ok(()),
            Some(listener) => push_known(text, side, &frame.address(), listener),
        },
    }
}

/// Appends the words of the end of this side, of the link with this address.
fn push_known(
    text: &mut String,
    side: Side,
    address: &Address,
    listener: &Listener,
) -> Result<(), AllocError>
    ensures { OnOk result (string_bytes text.new ≡ string_bytes text.old ++ link_words side
        (seen_link (slice_get listener.now.line.links.links (place_of address.now)))) }
{
    match listener.link(address) {
        None => text.push_str("-"),
        Some(link) => push_end(text, side, link),
    }
}

/// Appends the words of the end of this side.
fn push_end(text: &mut String, side: Side, link: &LinkFollower) -> Result<(), AllocError>
    ensures { OnOk result (string_bytes text.new
        ≡ string_bytes text.old ++ end_words (end_of side link.now)) }
{
    if link.unanswered_command(side).is_some() {
        return text.push_str(command_words(link.is_establishing(side)));
    }
    if link.is_released(side) {
        return text.push_str("-");
    }
    push_numbers(text, link.numbering(side))?;
    text.push_str(poll_words(link.unanswered_poll(side).is_some()))?;
    text.push_str(busy_words(link.busy(side)))
}

/// The words of an end whose last SABME or DISC is not answered.
fn command_words(is_sabme: bool) -> &'static str
    ensures { result.now ≡ command_words is_sabme }
{
    if is_sabme { "SABME sent" } else { "DISC sent" }
}

/// Appends the next N(S) of an end and its last N(R).
fn push_numbers(text: &mut String, own: Option<Numbering>) -> Result<(), AllocError>
    ensures { OnOk result (string_bytes text.new
        ≡ string_bytes text.old ++ numbers_words own) }
{
    match own {
        None => text.push_str("-"),
        Some(own) => {
            let next = own.next.value();
            let nr = own.nr.value();
            write!(text, "S{next} R{nr}")
        }
    }
}

/// The word of an end with an unanswered poll.
fn poll_words(is_polling: bool) -> &'static str
    ensures { result.now ≡ poll_words is_polling }
{
    if is_polling { " poll" } else { "" }
}

/// The word of a busy end.
fn busy_words(busy: Busy) -> &'static str
    ensures { result.now ≡ busy_words busy }
{
    match busy {
        Busy::Free => "",
        Busy::Reported | Busy::Answered => " busy",
    }
}
