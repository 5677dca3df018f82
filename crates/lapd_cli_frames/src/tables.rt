//! The tables of the links, after the last frame.

ghost use Rattle.std.specs.Prelude.{◌≡◌, ◌++◌, Some, IfOk, OnOk};
ghost use Rattle.std.specs.Io.KnownBytes.{Appends, Keeps};
ghost use Rattle.std.specs.String.{string_bytes};
ghost use Rattle.lapd_cli_frames.specs.Tables.{TablesEnd, address_members, busy_member, busy_text, counts_line, counts_text, end_lines, end_object, count_member, count_text, first_members, followed_member, kind_members, message_members, followed_text, from_to, has_numbers, head_line, head_text, is_counted, is_unfollowed, kinds_line, last_members, link_lines, link_object, link_text, mean_of, messages_of, object_front, object_head, object_rest, place_text, range_member, range_text, tables_text, times_list, times_member, times_text, unfollowed_reason, unfollowed_text};

use crate::style::Style;
use lapd_cli_script::ScriptFault;
use lapd_follow::{Kinds, LinkTally, Middle, Seconds, Tally, Times};
use std::alloc::{AllocError, Global};
use std::fmt;
use std::io::Write;

/// Prints the table of each link of which a frame was seen.
///
/// # Errors
///
/// `Memory` if an allocation fails, before anything is printed; `Device` if the writer fails.
pub(crate) fn put_tables<W: Write>(
    alloc: Global,
    style: Style,
    links: &[Option<LinkTally>],
    out: &mut W,
) -> Result<(), ScriptFault>
    ensures { TablesEnd (tables_text style links.now) result (W.contents out.old)
        (W.contents out.new) }
{
    let Ok(text) = tables_text(alloc, style, links) else {
        return Err(ScriptFault::Memory);
    };
    let Ok(()) = out.write_all(text.as_bytes()) else {
        return Err(ScriptFault::Device);
    };
    match out.flush() {
        Ok(()) => Ok(()),
        Err(_) => Err(ScriptFault::Device),
    }
}

/// The tables of all links.
fn tables_text(
    alloc: Global,
    style: Style,
    links: &[Option<LinkTally>],
) -> Result<String, AllocError>
    ensures { IfOk result (λ text. string_bytes text ≡ tables_text style links.now) }
{
    let mut text = String::new(alloc);
    for link in links {
        push_place(&mut text, style, link)?;
    }
    Ok(text)
}

/// Appends the table of a link, if a frame of it was seen.
fn push_place(text: &mut String, style: Style, link: &Option<LinkTally>) -> Result<(), AllocError>
    ensures { OnOk result (string_bytes text.new
        ≡ string_bytes text.old ++ place_text style link.now) }
{
    match link {
        None => Ok(()),
        Some(link) => push_link(text, style, link),
    }
}

/// Appends the table of a link.
fn push_link(text: &mut String, style: Style, link: &LinkTally) -> Result<(), AllocError>
    ensures { OnOk result (string_bytes text.new
        ≡ string_bytes text.old ++ link_text style link.now) }
{
    match style {
        Style::Plain | Style::Named | Style::Brief => push_link_lines(text, link),
        Style::Json | Style::NamedJson => push_link_object(text, link),
    }
}

/// Appends the lines of a link.
fn push_link_lines(text: &mut String, link: &LinkTally) -> Result<(), AllocError>
    ensures { OnOk result (string_bytes text.new ≡ string_bytes text.old ++ link_lines link.now) }
{
    push_head_line(text, link)?;
    push_end_lines(text, "U>N", &link.user)?;
    push_end_lines(text, "N>U", &link.network)
}

/// Appends the first line of a link.
fn push_head_line(text: &mut String, link: &LinkTally) -> Result<(), AllocError>
    ensures { OnOk result (string_bytes text.new ≡ string_bytes text.old ++ head_line link.now) }
{
    push_head(text, link)?;
    push_followed(text, link)?;
    text.push_str("\n")
}

/// Appends the address of a link, and how many establishments began.
fn push_head(text: &mut String, link: &LinkTally) -> Result<(), AllocError>
    ensures { OnOk result (string_bytes text.new ≡ string_bytes text.old ++ head_text link.now) }
{
    let sapi = link.sapi.value();
    let tei = link.tei.value();
    let establishments = link.establishments;
    write!(
        text,
        "SAPI {sapi} TEI {tei}: establishments {establishments}"
    )
}

/// Appends from which packet a link is followed that was established before, or why it is not.
fn push_followed(text: &mut String, link: &LinkTally) -> Result<(), AllocError>
    ensures { OnOk result (string_bytes text.new
        ≡ string_bytes text.old ++ followed_text link.now link.now.followed) }
{
    match link.followed {
        Some(packet) => write!(text, ", followed from packet {packet}"),
        None => {
            if is_unfollowed(link) {
                text.push_str(unfollowed_reason(link))
            } else {
                Ok(())
            }
        }
    }
}

/// Whether no establishment of a link began, but an I or S frame was seen.
fn is_unfollowed(link: &LinkTally) -> bool
    ensures { result ≡ is_unfollowed link.now }
{
    link.establishments == 0 && (has_numbers(&link.user.kinds) || has_numbers(&link.network.kinds))
}

/// Whether an end sent an I or S frame.
fn has_numbers(kinds: &Kinds) -> bool
    ensures { result ≡ has_numbers kinds.now }
{
    kinds.i > 0 || kinds.rr > 0 || kinds.rnr > 0 || kinds.rej > 0
}

/// Why a link of which no establishment began is not followed.
fn unfollowed_reason(link: &LinkTally) -> &'static str
    ensures { result.now ≡ unfollowed_reason link.now }
{
    if link.user.kinds.sabme > 0 || link.network.kinds.sabme > 0 {
        ", not followed: no UA answers a SABME"
    } else {
        ", not followed: no exchange shows the numbers"
    }
}

/// Appends the lines of what an end sent.
fn push_end_lines(text: &mut String, direction: &str, tally: &Tally) -> Result<(), AllocError>
    ensures { OnOk result (string_bytes text.new
        ≡ string_bytes text.old ++ end_lines direction.now tally.now) }
{
    push_kinds_line(text, direction, &tally.kinds)?;
    push_counts_line(text, direction, tally)
}

/// Appends the frames that an end sent, by kind.
fn push_kinds_line(text: &mut String, direction: &str, kinds: &Kinds) -> Result<(), AllocError>
    ensures { OnOk result (string_bytes text.new
        ≡ string_bytes text.old ++ kinds_line direction.now kinds.now) }
{
    let Kinds {
        i,
        rr,
        rnr,
        rej,
        sabme,
        dm,
        ui,
        disc,
        ua,
        frmr,
        xid,
    } = *kinds;
    write!(
        text,
        "  {direction} I {i}, RR {rr}, RNR {rnr}, REJ {rej}, SABME {sabme}, DISC {disc}, UA {ua}, DM {dm}, UI {ui}, FRMR {frmr}, XID {xid}\n"
    )
}

/// Appends the line with the counts of an end.
fn push_counts_line(text: &mut String, direction: &str, tally: &Tally) -> Result<(), AllocError>
    ensures { OnOk result (string_bytes text.new
        ≡ string_bytes text.old ++ counts_line direction.now tally.now) }
{
    push_counts(text, direction, tally)?;
    push_unfollowed(text, tally.unfollowed)?;
    push_times(text, &tally.times)?;
    push_busy(text, tally.busy.total)?;
    text.push_str("\n")
}

/// Appends the counts of an end.
fn push_counts(text: &mut String, direction: &str, tally: &Tally) -> Result<(), AllocError>
    ensures { OnOk result (string_bytes text.new
        ≡ string_bytes text.old ++ counts_text direction.now tally.now) }
{
    let is_known = is_counted(tally);
    let messages = Count {
        is_known,
        count: messages_of(tally),
    };
    let octets = tally.octets;
    let repeated = Count {
        is_known,
        count: tally.repeated,
    };
    let polls = tally.polls;
    write!(
        text,
        "  {direction} messages {messages}, octets {octets}, repeated {repeated}, polls {polls}"
    )
}

/// Appends how many I frames were not followed, if any.
fn push_unfollowed(text: &mut String, unfollowed: u64) -> Result<(), AllocError>
    ensures { OnOk result (string_bytes text.new
        ≡ string_bytes text.old ++ unfollowed_text unfollowed) }
{
    if unfollowed > 0 {
        write!(text, ", not followed {unfollowed}")
    } else {
        Ok(())
    }
}

/// Appends the times of the answers, if there are any.
fn push_times(text: &mut String, times: &Times) -> Result<(), AllocError>
    ensures { OnOk result (string_bytes text.new ≡ string_bytes text.old ++ times_text times.now) }
{
    match (times.least, times.greatest, times.middle()) {
        (Some(least), Some(greatest), Some(middle)) => {
            push_range(text, times, least, greatest, &middle)
        }
        _ => Ok(()),
    }
}

/// Appends the number of answers, the least time, the greatest, the middle and the mean.
fn push_range(
    text: &mut String,
    times: &Times,
    least: u64,
    greatest: u64,
    middle: &Middle,
) -> Result<(), AllocError>
    ensures { OnOk result (string_bytes text.new ≡ string_bytes text.old
        ++ range_text times.now (Some least) (Some greatest) (Some middle.now)) }
{
    let count = times.count;
    let all = FromTo {
        from: least,
        to: greatest,
    };
    let half = FromTo {
        from: middle.from,
        to: middle.to,
    };
    let mean = Seconds {
        time: mean_of(times),
    };
    write!(
        text,
        ", answers {count} after {all}, middle {half}, mean {mean} s"
    )
}

/// Appends how long an end was busy, if it was.
fn push_busy(text: &mut String, total: Option<u64>) -> Result<(), AllocError>
    ensures { OnOk result (string_bytes text.new ≡ string_bytes text.old ++ busy_text total) }
{
    match total {
        None => Ok(()),
        Some(time) => {
            let total = Seconds { time };
            write!(text, ", busy {total} s")
        }
    }
}

/// Appends the object of a link.
fn push_link_object(text: &mut String, link: &LinkTally) -> Result<(), AllocError>
    ensures { OnOk result (string_bytes text.new ≡ string_bytes text.old ++ link_object link.now) }
{
    push_object_front(text, link)?;
    push_object_rest(text, link)
}

/// Appends the members up to `network`.
fn push_object_front(text: &mut String, link: &LinkTally) -> Result<(), AllocError>
    ensures { OnOk result (string_bytes text.new ≡ string_bytes text.old ++ object_front link.now) }
{
    push_object_head(text, link)?;
    push_end_object(text, &link.network)
}

/// Appends the number of establishments, and the name of the member `network`.
fn push_object_head(text: &mut String, link: &LinkTally) -> Result<(), AllocError>
    ensures { OnOk result (string_bytes text.new ≡ string_bytes text.old ++ object_head link.now) }
{
    let establishments = link.establishments;
    let followed = Followed {
        packet: link.followed,
    };
    write!(
        text,
        "{{\"establishments\":{establishments}{followed},\"network\":"
    )
}

/// Appends the members after `network`, and the end of the object.
fn push_object_rest(text: &mut String, link: &LinkTally) -> Result<(), AllocError>
    ensures { OnOk result (string_bytes text.new ≡ string_bytes text.old ++ object_rest link.now) }
{
    push_address_members(text, link)?;
    push_end_object(text, &link.user)?;
    text.push_str("}\n")
}

/// Appends the address, and the name of the member `user`.
fn push_address_members(text: &mut String, link: &LinkTally) -> Result<(), AllocError>
    ensures { OnOk result (string_bytes text.new
        ≡ string_bytes text.old ++ address_members link.now) }
{
    let sapi = link.sapi.value();
    let tei = link.tei.value();
    write!(text, ",\"sapi\":{sapi},\"tei\":{tei},\"user\":")
}

/// Appends the object of what an end sent.
fn push_end_object(text: &mut String, tally: &Tally) -> Result<(), AllocError>
    ensures { OnOk result (string_bytes text.new ≡ string_bytes text.old ++ end_object tally.now) }
{
    text.push_str("{")?;
    push_times_member(text, &tally.times)?;
    push_busy_member(text, tally.busy.total)?;
    push_first_members(text, tally)?;
    push_last_members(text, tally)
}

/// Appends the member of the times of the answers, if there are any.
fn push_times_member(text: &mut String, times: &Times) -> Result<(), AllocError>
    ensures { OnOk result (string_bytes text.new
        ≡ string_bytes text.old ++ times_member times.now) }
{
    match (times.least, times.greatest, times.middle()) {
        (Some(least), Some(greatest), Some(middle)) => {
            push_range_member(text, times, least, greatest, &middle)
        }
        _ => Ok(()),
    }
}

/// Appends the member of the times of the answers.
fn push_range_member(
    text: &mut String,
    times: &Times,
    least: u64,
    greatest: u64,
    middle: &Middle,
) -> Result<(), AllocError>
    ensures { OnOk result (string_bytes text.new ≡ string_bytes text.old
        ++ range_member times.now (Some least) (Some greatest) (Some middle.now)) }
{
    let count = times.count;
    let mean = mean_of(times);
    let half = TimesList {
        from: middle.from,
        to: middle.to,
    };
    write!(
        text,
        "\"answers\":{{\"count\":{count},\"greatest\":{greatest},\"least\":{least},\"mean\":{mean},\"middle\":{half}}},"
    )
}

/// Appends the member of the busy time, if there is any.
fn push_busy_member(text: &mut String, total: Option<u64>) -> Result<(), AllocError>
    ensures { OnOk result (string_bytes text.new ≡ string_bytes text.old ++ busy_member total) }
{
    match total {
        None => Ok(()),
        Some(total) => write!(text, "\"busy\":{total},"),
    }
}

/// Appends the members from `disc` to `polls`.
fn push_first_members(text: &mut String, tally: &Tally) -> Result<(), AllocError>
    ensures { OnOk result (string_bytes text.new
        ≡ string_bytes text.old ++ first_members tally.now) }
{
    push_kind_members(text, tally)?;
    push_message_members(text, tally)
}

/// Appends the members from `disc` to `i`.
fn push_kind_members(text: &mut String, tally: &Tally) -> Result<(), AllocError>
    ensures { OnOk result (string_bytes text.new
        ≡ string_bytes text.old ++ kind_members tally.now) }
{
    let Kinds {
        i,
        disc,
        dm,
        frmr,
        ..
    } = tally.kinds;
    write!(
        text,
        "\"disc\":{disc},\"dm\":{dm},\"frmr\":{frmr},\"i\":{i}"
    )
}

/// Appends the members `messages`, `octets` and `polls`.
fn push_message_members(text: &mut String, tally: &Tally) -> Result<(), AllocError>
    ensures { OnOk result (string_bytes text.new
        ≡ string_bytes text.old ++ message_members tally.now) }
{
    let messages = Member {
        name: "messages",
        is_known: is_counted(tally),
        count: messages_of(tally),
    };
    let octets = tally.octets;
    let polls = tally.polls;
    write!(text, "{messages},\"octets\":{octets},\"polls\":{polls}")
}

/// Appends the members from `rej` to `xid`, and the end of the object.
fn push_last_members(text: &mut String, tally: &Tally) -> Result<(), AllocError>
    ensures { OnOk result (string_bytes text.new
        ≡ string_bytes text.old ++ last_members tally.now) }
{
    let repeated = Member {
        name: "repeated",
        is_known: is_counted(tally),
        count: tally.repeated,
    };
    let unfollowed = Member {
        name: "unfollowed",
        is_known: tally.unfollowed > 0,
        count: tally.unfollowed,
    };
    let Kinds {
        rr,
        rnr,
        rej,
        sabme,
        ui,
        ua,
        xid,
        ..
    } = tally.kinds;
    write!(
        text,
        ",\"rej\":{rej}{repeated},\"rnr\":{rnr},\"rr\":{rr},\"sabme\":{sabme},\"ua\":{ua},\"ui\":{ui}{unfollowed},\"xid\":{xid}}}"
    )
}

/// Whether of some I frames is known if they are sent again, or there are none.
fn is_counted(tally: &Tally) -> bool
    ensures { result ≡ is_counted tally.now }
{
    tally.unfollowed < tally.kinds.i || tally.kinds.i == 0
}

/// The I frames that were followed and were not repetitions.
fn messages_of(tally: &Tally) -> u64
    ensures { result ≡ messages_of tally.now }
{
    tally
        .kinds
        .i
        .saturating_sub(tally.unfollowed)
        .saturating_sub(tally.repeated)
}

/// The mean of the times, rounded down.
fn mean_of(times: &Times) -> u64
    ensures { result ≡ mean_of times.now }
{
    times.total / times.count.max(1)
}

/// A count of the frames that were followed, or a hyphen.
#[derive(Clone, Copy)]
struct Count {
    is_known: bool,
    count: u64,
}

impl fmt::Display for Count {
    ghost output = { λ shown. Some (count_text shown.is_known shown.count) };

    fn fmt<W: fmt::Write>(&self, f: &mut fmt::Formatter<W>) -> fmt::Result {
        if self.is_known {
            let count = self.count;
            write!(f, "{count}")
        } else {
            write!(f, "-")
        }
    }
}

/// A member of a count, or nothing if it is not known.
#[derive(Clone, Copy)]
struct Member {
    name: &'static str,
    is_known: bool,
    count: u64,
}

impl fmt::Display for Member {
    ghost output = { λ shown. Some (count_member shown.name.now shown.is_known shown.count) };

    fn fmt<W: fmt::Write>(&self, f: &mut fmt::Formatter<W>) -> fmt::Result {
        if self.is_known {
            let name = self.name;
            let count = self.count;
            write!(f, ",\"{name}\":{count}")
        } else {
            Ok(())
        }
    }
}

/// The member of the packet from which a link is followed that was established before.
#[derive(Clone, Copy)]
struct Followed {
    packet: Option<u64>,
}

impl fmt::Display for Followed {
    ghost output = { λ shown. Some (followed_member shown.packet) };

    fn fmt<W: fmt::Write>(&self, f: &mut fmt::Formatter<W>) -> fmt::Result {
        match self.packet {
            None => Ok(()),
            Some(packet) => write!(f, ",\"followed\":{packet}"),
        }
    }
}

/// Two times, shown in seconds.
#[derive(Clone, Copy)]
struct FromTo {
    from: u64,
    to: u64,
}

impl fmt::Display for FromTo {
    ghost output = { λ shown. Some (from_to shown.from shown.to) };

    fn fmt<W: fmt::Write>(&self, f: &mut fmt::Formatter<W>) -> fmt::Result {
        let from = Seconds { time: self.from };
        let to = Seconds { time: self.to };
        write!(f, "{from} to {to} s")
    }
}

/// Two times, shown as a list.
#[derive(Clone, Copy)]
struct TimesList {
    from: u64,
    to: u64,
}

impl fmt::Display for TimesList {
    ghost output = { λ shown. Some (times_list shown.from shown.to) };

    fn fmt<W: fmt::Write>(&self, f: &mut fmt::Formatter<W>) -> fmt::Result {
        let from = self.from;
        let to = self.to;
        write!(f, "[{from},{to}]")
    }
}
