//! The data link layer for C: a side of an ISDN D channel interface (ITU-T Q.921) behind one opaque
//! word.
//!
//! Each exported function calls the function of [`lapd_sides::EitherSide`] that it is named after,
//! and repeats its contract. It returns a code of `codes`: 3 if a number is out of range, otherwise
//! 1 if the handle owns no side, otherwise 2 if too many results wait ([`codes_are_in_order`]). The
//! results of calls wait, in order, until [`lapd_side_next`], or [`lapd_side_frame`] and
//! [`lapd_side_primitive`], fetch them. `c/lapd.h` is the header, and docs/C.md lists the duties of
//! a program.
#![tactic(auto)]

ghost use Rattle.std.specs.Prelude.{◌≡◌, ◌==◌, [], Some, None, not};
ghost use Rattle.lapd_sides.specs.Either.{Takes, Answers, Gives};
ghost use Rattle.lapd_c.specs.ThroughHandle.{AsksSide, AsksCheck, AsksTei, AsksLink, AsksLinkWith, ChecksSide, Makes, ReturnsCountersThrough, ReturnsStateOf, SetsTimers, Through};
ghost use Rattle.lapd_c.specs.Calls.{or_never, BeginsCounting, HasSetTimers, Ticks, ReturnsDeadline, ReturnsDiscarded, ReturnsTerminal, FetchesFrame, FetchesNext, FetchesPrimitive, ReturnsText, ReturnsTextOrNothing};
ghost use Rattle.lapd_timers.specs.Durations.{lengths_of};
ghost use Rattle.lapd_trace.specs.Trace.{trace_line};
ghost use Rattle.lapd_c.specs.FlatPrimitives.{link_of, nothing, sender};
ghost use Rattle.lapd_c.specs.Names.{code_name, kind_name};
ghost use Rattle.lapd_c.specs.Settings.{IsNewNetwork, IsNewUser, network_config, own_tei, user_config};
ghost use Rattle.lapd_c.specs.SideQueries.{or_no_tei};
ghost use Rattle.lapd_c.specs.TeiLists.{ReturnsLinksThrough, ReturnsTeis};
ghost use Rattle.lapd_c.specs.WrongSetting.{ChecksSettings};
ghost use Rattle.lapd_frame.specs.Address.{sapi_at};

mod box_parts;
mod codes;
mod flat_primitive;
mod handle;
mod held_side;
mod laws;
mod link_counters;
mod link_counts;
mod link_state;
mod making;
mod names;
mod settings;
mod tei_lists;

use codes::{DONE, MEMORY, NO_SIDE, OUT_OF_RANGE};
use flat_primitive::{FlatPrimitive, link_of};
use handle::{Handle, put_side, take_side};
use held_side::HeldSide;
use lapd_sides::{Durations, LinkId, Request, Sapi, Side, Tei};
use lapd_trace::line;
pub use laws::{codes_are_in_order, counters_are_sums, settings_are_checked};
use link_counters::FlatCounters;
use link_state::LinkState;
use making::{make_network, make_user};
use names::{code_name, kind_name, write_text};
use settings::{Settings, own_tei};
use std::alloc::Global;

/// The version of the library, 0.3.0: 10,000 times the major version, 100 times the minor one, and
/// the patch.
#[unsafe(no_mangle)]
pub extern "C" fn lapd_version() -> u32
    ensures { result ≡ 300 }
{
    300
}

/// Sets `setting` to the number of a setting that is out of its range, 0 if none is.
#[unsafe(no_mangle)]
pub extern "C" fn lapd_settings_check(settings: &Settings, setting: &mut u8) -> u32
    ensures { ChecksSettings settings.now result setting.new }
{
    let wrong = settings.wrong_setting();
    *setting = wrong;
    if wrong == 0 { DONE } else { OUT_OF_RANGE }
}

/// Creates a network side that holds these TEIs, each 0 to 126, and frees the side that the handle
/// owned. If the call fails, the handle is unchanged.
#[unsafe(no_mangle)]
pub extern "C" fn lapd_side_network(
    handle: &mut Handle,
    settings: &Settings,
    known: &[u8],
    alloc: Global,
) -> u32
    ensures { Makes (IsNewNetwork known.now) settings.now.most_waiting result handle.old.held
        handle.new.held (network_config settings.now known.now) }
{
    let Some(config) = settings.network_config(known) else {
        return OUT_OF_RANGE;
    };
    match make_network(alloc, config, settings.most_waiting, known) {
        Ok(side) => put(handle, side, alloc),
        Err(_) => MEMORY,
    }
}

/// Creates a user side with a fixed TEI, 0 to 126, or without one if `fixed` is 255, and frees the
/// side that the handle owned. If the call fails, the handle is unchanged.
#[unsafe(no_mangle)]
pub extern "C" fn lapd_side_user(
    handle: &mut Handle,
    settings: &Settings,
    fixed: u8,
    alloc: Global,
) -> u32
    ensures { Makes (IsNewUser fixed) settings.now.most_waiting result handle.old.held
        handle.new.held (user_config settings.now fixed) }
{
    let Some(config) = settings.user_config(fixed) else {
        return OUT_OF_RANGE;
    };
    match make_user(alloc, config, settings.most_waiting, fixed) {
        Ok(side) => put(handle, side, alloc),
        Err(_) => MEMORY,
    }
}

/// Frees the side that a handle owns, if any, and puts another into it.
fn put(handle: &mut Handle, side: Box<HeldSide>, alloc: Global) -> u32
    ensures owned { handle.new.held ≡ Some side.value }
    ensures done { result ≡ 0 }
{
    drop(take_side(handle, alloc));
    put_side(handle, side);
    DONE
}

/// Frees the side that the handle owns, if any.
#[unsafe(no_mangle)]
pub extern "C" fn lapd_side_free(handle: &mut Handle, alloc: Global)
    ensures { handle.new.held ≡ None }
{
    let _side = take_side(handle, alloc);
}

/// Processes the octets of a frame received from the line, without flags and check sequence, at the
/// time `now`.
#[unsafe(no_mangle)]
pub extern "C" fn lapd_side_take(handle: &mut Handle, octets: &[u8], now: u64) -> u32
    ensures { AsksSide (Takes octets.now now) octets.now result handle.old.held handle.new.held }
{
    let Some(side) = handle.side() else {
        return NO_SIDE;
    };
    side.take(octets, now)
}

/// Executes a request.
fn ask(handle: &mut Handle, request: Request, now: u64) -> u32
    ensures { AsksSide (Answers request now) [] result handle.old.held handle.new.held }
{
    let Some(side) = handle.side() else {
        return NO_SIDE;
    };
    side.request(request, now)
}

/// Establishes a link (DL-ESTABLISH request).
#[unsafe(no_mangle)]
pub extern "C" fn lapd_side_establish(handle: &mut Handle, sapi: u8, tei: u8, now: u64) -> u32
    ensures { AsksLink (λ id. Answers (Request.Establish id) now) result
        handle.old.held handle.new.held (link_of sapi tei) }
{
    match link_of(sapi, tei) {
        Some(id) => ask(handle, Request::Establish(id), now),
        None => OUT_OF_RANGE,
    }
}

/// Releases a link (DL-RELEASE request).
#[unsafe(no_mangle)]
pub extern "C" fn lapd_side_release(handle: &mut Handle, sapi: u8, tei: u8, now: u64) -> u32
    ensures { AsksLink (λ id. Answers (Request.Release id) now) result
        handle.old.held handle.new.held (link_of sapi tei) }
{
    match link_of(sapi, tei) {
        Some(id) => ask(handle, Request::Release(id), now),
        None => OUT_OF_RANGE,
    }
}

/// Enters own receiver busy on a link if `on` is not 0, so that this end accepts no more messages,
/// or leaves it (Q.921 5.6.6).
#[unsafe(no_mangle)]
pub extern "C" fn lapd_side_busy(handle: &mut Handle, sapi: u8, tei: u8, on: u8, now: u64) -> u32
    ensures { AsksLink (λ id. Answers (Request.Busy id (not (on == 0))) now) result
        handle.old.held handle.new.held (link_of sapi tei) }
{
    match link_of(sapi, tei) {
        Some(id) => ask(handle, Request::Busy(id, on != 0), now),
        None => OUT_OF_RANGE,
    }
}

/// Sends a message (DL-DATA request). Allocates only if the link keeps no room of an acknowledged
/// message, or too small a one.
#[unsafe(no_mangle)]
pub extern "C" fn lapd_side_give(
    handle: &mut Handle,
    sapi: u8,
    tei: u8,
    octets: &[u8],
    now: u64,
) -> u32
    ensures { AsksLink (λ id. Gives id octets.now now) result handle.old.held handle.new.held
        (link_of sapi tei) }
{
    match link_of(sapi, tei) {
        Some(id) => give(handle, &id, octets, now),
        None => OUT_OF_RANGE,
    }
}

/// Sends a message on the link with this id.
fn give(handle: &mut Handle, id: &LinkId, octets: &[u8], now: u64) -> u32
    ensures { AsksSide (Gives id.now octets.now now) [] result handle.old.held handle.new.held }
{
    let Some(side) = handle.side() else {
        return NO_SIDE;
    };
    side.give(id, octets, now)
}

/// Sends unit data (DL-UNIT DATA request); on a network side to all terminals if the TEI is 127.
#[unsafe(no_mangle)]
pub extern "C" fn lapd_side_unit(
    handle: &mut Handle,
    sapi: u8,
    tei: u8,
    octets: &[u8],
    now: u64,
    alloc: Global,
) -> u32
    ensures { AsksLinkWith (λ id message. Answers (Request.Unit id message) now) octets.now result
        handle.old.held handle.new.held (link_of sapi tei) }
{
    let Some(id) = link_of(sapi, tei) else {
        return OUT_OF_RANGE;
    };
    match Vec::from_slice(alloc, octets) {
        Ok(message) => ask(handle, Request::Unit(id, message), now),
        Err(_) => MEMORY,
    }
}

/// Requests a TEI. A network side ignores it.
#[unsafe(no_mangle)]
pub extern "C" fn lapd_side_ask_tei(handle: &mut Handle, now: u64) -> u32
    ensures { AsksSide (Answers Request.AskTei now) [] result handle.old.held handle.new.held }
{
    ask(handle, Request::AskTei, now)
}

/// Checks a TEI, 0 to 126, unless another check is in progress. A user side ignores it.
#[unsafe(no_mangle)]
pub extern "C" fn lapd_side_check_tei(handle: &mut Handle, tei: u8, now: u64) -> u32
    ensures { AsksCheck now result handle.old.held handle.new.held (own_tei tei) }
{
    match own_tei(tei) {
        Some(tei) => check(handle, Request::Check(tei), now),
        None => OUT_OF_RANGE,
    }
}

/// Checks all TEIs by one message, unless a check is in progress. A user side ignores it.
#[unsafe(no_mangle)]
pub extern "C" fn lapd_side_check_all(handle: &mut Handle, now: u64) -> u32
    ensures { ChecksSide Request.CheckAll now result handle.old.held handle.new.held }
{
    check(handle, Request::CheckAll, now)
}

/// Executes a request of a check.
fn check(handle: &mut Handle, request: Request, now: u64) -> u32
    ensures { ChecksSide request now result handle.old.held handle.new.held }
{
    let Some(side) = handle.side() else {
        return NO_SIDE;
    };
    side.check(request, now)
}

/// Removes a TEI, 0 to 126 (MDL-REMOVE request, Q.921 5.3.4). A network side sends Identity remove
/// twice, and removes the TEI's links. A user side gives up its TEI if it is this one.
#[unsafe(no_mangle)]
pub extern "C" fn lapd_side_remove_tei(handle: &mut Handle, tei: u8, now: u64) -> u32
    ensures { AsksTei (λ tei. Answers (Request.Remove tei) now) result handle.old.held
        handle.new.held (own_tei tei) }
{
    match own_tei(tei) {
        Some(tei) => ask(handle, Request::Remove(tei), now),
        None => OUT_OF_RANGE,
    }
}

/// Removes all TEIs from the terminals of a network side that holds none (Q.921 5.3.4). A network
/// side that holds a TEI and a user side ignore it.
#[unsafe(no_mangle)]
pub extern "C" fn lapd_side_remove_all(handle: &mut Handle, now: u64) -> u32
    ensures { AsksSide (Answers Request.RemoveAll now) [] result handle.old.held handle.new.held }
{
    ask(handle, Request::RemoveAll, now)
}

/// Sets T200 to T203, each 1 to 3,600,000 ms, for timers that are started from then on, also those
/// of links that are added later. A running timer keeps its deadline.
#[unsafe(no_mangle)]
pub extern "C" fn lapd_side_set_timers(
    handle: &mut Handle,
    t200: u32,
    t201: u32,
    t202: u32,
    t203: u32,
) -> u32
    ensures { SetsTimers result handle.old.held handle.new.held (lengths_of t200 t201 t202 t203) }
{
    match Durations::new(t200, t201, t202, t203) {
        Some(durations) => set_timers(handle, durations),
        None => OUT_OF_RANGE,
    }
}

/// Sets the durations of timers.
fn set_timers(handle: &mut Handle, durations: Durations) -> u32
    ensures { Through (λ old new. HasSetTimers durations old new result) (result ≡ 1)
        handle.old.held handle.new.held }
{
    let Some(side) = handle.side() else {
        return NO_SIDE;
    };
    side.set_timers(durations)
}

/// Expires the first timer that is due at `now`, in milliseconds. `expired` is 1 if one was due,
/// else 0. Before you expire timers for a moment, pass in every frame that had arrived by then.
#[unsafe(no_mangle)]
pub extern "C" fn lapd_side_tick(handle: &mut Handle, now: u64, expired: &mut u8) -> u32
    ensures { Through (λ old new. Ticks now expired.new old new result)
        ((result ≡ 1) × (expired.new ≡ 0)) handle.old.held handle.new.held }
{
    let Some(side) = handle.side() else {
        *expired = 0;
        return NO_SIDE;
    };
    side.tick(now, expired)
}

/// Sets `moment` to the next moment at which something is due; before it [`lapd_side_tick`] has
/// nothing to do. `moment` is the greatest moment if no timer runs or the handle owns no side.
#[unsafe(no_mangle)]
pub extern "C" fn lapd_side_deadline(handle: &mut Handle, moment: &mut u64) -> u32
    ensures { Through (λ old new. ReturnsDeadline moment.new old new result)
        ((result ≡ 1) × (moment.new ≡ or_never None)) handle.old.held handle.new.held }
{
    let Some(side) = handle.side() else {
        *moment = u64::MAX;
        return NO_SIDE;
    };
    side.next_deadline(moment)
}

/// Sets `count` to the number of frames that the side has discarded since it was created. It stops
/// at the greatest number.
#[unsafe(no_mangle)]
pub extern "C" fn lapd_side_discarded(handle: &mut Handle, count: &mut u64) -> u32
    ensures { Through (λ old new. ReturnsDiscarded count.new old new result)
        ((result ≡ 1) × (count.new ≡ 0)) handle.old.held handle.new.held }
{
    let Some(side) = handle.side() else {
        *count = 0;
        return NO_SIDE;
    };
    side.discarded(count)
}

/// Sets `state` to the state of a user side's terminal, 1 to 4, and `tei` to its TEI, or 255 if it
/// has none. A network side has no terminal: 0 and 255, as if the handle owns no side.
#[unsafe(no_mangle)]
pub extern "C" fn lapd_side_tei(handle: &mut Handle, state: &mut u8, tei: &mut u8) -> u32
    ensures { Through (λ old new. ReturnsTerminal state.new tei.new old new result)
        ((result ≡ 1) × (state.new ≡ 0) × (tei.new ≡ or_no_tei None))
        handle.old.held handle.new.held }
{
    let Some(side) = handle.side() else {
        *state = 0;
        *tei = 255;
        return NO_SIDE;
    };
    side.terminal_state(state, tei)
}

/// Sets `state` to the state of a link; all fields are 0 if the link does not exist. A user side
/// uses only the SAPI.
#[unsafe(no_mangle)]
pub extern "C" fn lapd_side_state(
    handle: &mut Handle,
    sapi: u8,
    tei: u8,
    state: &mut LinkState,
) -> u32
    ensures { ReturnsStateOf state.new result handle.old.held handle.new.held (link_of sapi tei) }
{
    *state = LinkState::nothing();
    let Some(id) = link_of(sapi, tei) else {
        return OUT_OF_RANGE;
    };
    let Some(side) = handle.side() else {
        return NO_SIDE;
    };
    side.state(id, state)
}

/// Writes the TEIs that a network side holds, or the one that a user side has, in ascending order to
/// the beginning of the buffer. `count` is their number, even if the buffer is too small: then
/// nothing is written.
#[unsafe(no_mangle)]
pub extern "C" fn lapd_side_teis(handle: &mut Handle, buffer: &mut [u8], count: &mut usize) -> u32
    ensures { Through (λ old new. ReturnsTeis old new result count.new
        (record { before = buffer.old; after = buffer.new }))
        ((result ≡ 1) × (count.new ≡ 0) × (buffer.new ≡ buffer.old))
        handle.old.held handle.new.held }
{
    let Some(side) = handle.side() else {
        *count = 0;
        return NO_SIDE;
    };
    side.teis(buffer, count)
}

/// Writes the TEIs of the links with this SAPI, like [`lapd_side_teis`].
#[unsafe(no_mangle)]
pub extern "C" fn lapd_side_links(
    handle: &mut Handle,
    sapi: u8,
    buffer: &mut [u8],
    count: &mut usize,
) -> u32
    ensures { ReturnsLinksThrough result count.new
        (record { before = buffer.old; after = buffer.new })
        handle.old.held handle.new.held (sapi_at sapi) }
{
    *count = 0;
    let Some(sapi) = Sapi::new(sapi) else {
        return OUT_OF_RANGE;
    };
    let Some(side) = handle.side() else {
        return NO_SIDE;
    };
    side.links(sapi, buffer, count)
}

/// Begins to count the I frames, REJ, RNR and reports of each link, from 0.
#[unsafe(no_mangle)]
pub extern "C" fn lapd_side_count(handle: &mut Handle, alloc: Global) -> u32
    ensures { Through (λ old new. BeginsCounting old new result) (result ≡ 1)
        handle.old.held handle.new.held }
{
    let Some(side) = handle.side() else {
        return NO_SIDE;
    };
    side.begin_counting(alloc)
}

/// Sets `counters` to those of a link since [`lapd_side_count`], whether the link exists or not.
/// All are 0 if the side does not count.
#[unsafe(no_mangle)]
pub extern "C" fn lapd_side_counters(
    handle: &mut Handle,
    sapi: u8,
    tei: u8,
    counters: &mut FlatCounters,
) -> u32
    ensures { ReturnsCountersThrough counters.new result handle.old.held handle.new.held
        (link_of sapi tei) }
{
    *counters = FlatCounters::nothing();
    let Some(id) = link_of(sapi, tei) else {
        return OUT_OF_RANGE;
    };
    let Some(side) = handle.side() else {
        return NO_SIDE;
    };
    side.counters(id, counters)
}

/// Writes a line of text for the octets of a frame, sent by a network side if `network` is not 0,
/// else by a user side. The text is at the beginning of the buffer, with a 0 behind it if there is
/// room. `count` is its length, even if the buffer is too small.
#[unsafe(no_mangle)]
pub extern "C" fn lapd_frame_text(
    octets: &[u8],
    network: u8,
    buffer: &mut [u8],
    count: &mut usize,
    alloc: Global,
) -> u32
    ensures { ReturnsTextOrNothing (trace_line (sender network) octets.now) result count.new
        (record { before = buffer.old; after = buffer.new }) }
{
    let Ok(text) = line(alloc, sender(network), octets) else {
        *count = 0;
        return MEMORY;
    };
    write_text(text.as_bytes(), buffer, count)
}

/// Writes the name of a code, as `LAPD_NO_LINK`, like [`lapd_frame_text`]. The name is empty if no
/// code has this number.
#[unsafe(no_mangle)]
pub extern "C" fn lapd_code_name(code: u32, buffer: &mut [u8], count: &mut usize) -> u32
    ensures { ReturnsText (code_name code) result count.new
        (record { before = buffer.old; after = buffer.new }) }
{
    write_text(code_name(code).as_bytes(), buffer, count)
}

/// Writes the name of a kind, as `LAPD_DATA_IND`, like [`lapd_frame_text`]. The name is empty if no
/// kind has this number.
#[unsafe(no_mangle)]
pub extern "C" fn lapd_kind_name(kind: u8, buffer: &mut [u8], count: &mut usize) -> u32
    ensures { ReturnsText (kind_name kind) result count.new
        (record { before = buffer.old; after = buffer.new }) }
{
    write_text(kind_name(kind).as_bytes(), buffer, count)
}

/// The side that sends: the network side if `network` is not 0.
fn sender(network: u8) -> Side
    ensures { result ≡ sender network }
{
    if network == 0 {
        Side::User
    } else {
        Side::Network
    }
}

/// Moves the next frame to send to the beginning of the buffer. `count` is its number of octets, or
/// 0 if no frame is left. If the buffer is too small, nothing is written, and the frame still
/// waits.
#[unsafe(no_mangle)]
pub extern "C" fn lapd_side_frame(handle: &mut Handle, buffer: &mut [u8], count: &mut usize) -> u32
    ensures { Through (λ old new. FetchesFrame old new result count.new
        (record { before = buffer.old; after = buffer.new }))
        ((result ≡ 1) × (count.new ≡ 0) × (buffer.new ≡ buffer.old))
        handle.old.held handle.new.held }
{
    let Some(side) = handle.side() else {
        *count = 0;
        return NO_SIDE;
    };
    side.next_frame(buffer, count)
}

/// Fetches the next primitive, and copies its octets to the beginning of the buffer. Its kind is 0
/// if none is left. If the buffer is too small, nothing is written to it, and the primitive still
/// waits.
#[unsafe(no_mangle)]
pub extern "C" fn lapd_side_primitive(
    handle: &mut Handle,
    delivered: &mut FlatPrimitive,
    buffer: &mut [u8],
) -> u32
    ensures { Through (λ old new. FetchesPrimitive old new result delivered.new
        (record { before = buffer.old; after = buffer.new }))
        ((result ≡ 1) × (delivered.new ≡ nothing) × (buffer.new ≡ buffer.old))
        handle.old.held handle.new.held }
{
    let Some(side) = handle.side() else {
        *delivered = FlatPrimitive::nothing();
        return NO_SIDE;
    };
    side.next_primitive(delivered, buffer)
}

/// Fetches the next frame to send or, if none is left, the next primitive, and copies its octets to
/// the beginning of the buffer. The kind of a frame is 32, and 0 if neither is left. `left` is the
/// number of frames and primitives that still wait. If the buffer is too small, nothing is written
/// to it, and the frame or primitive still waits.
#[unsafe(no_mangle)]
pub extern "C" fn lapd_side_next(
    handle: &mut Handle,
    item: &mut FlatPrimitive,
    buffer: &mut [u8],
    left: &mut usize,
) -> u32
    ensures { Through (λ old new. FetchesNext old new result item.new left.new
        (record { before = buffer.old; after = buffer.new }))
        ((result ≡ 1) × (item.new ≡ nothing) × (left.new ≡ 0) × (buffer.new ≡ buffer.old))
        handle.old.held handle.new.held }
{
    let Some(side) = handle.side() else {
        *item = FlatPrimitive::nothing();
        *left = 0;
        return NO_SIDE;
    };
    side.next(item, buffer, left)
}
