//! Turns the outputs of a link's step into frames, primitives and timers.

ghost use Rattle.std.specs.Prelude.{◌≡◌, ◌≤◌, ◌<◌, ◌+◌, ◌++◌, ◌∷◌, [], false, length, map, ℕ, List, None};
ghost use Rattle.std.specs.List.{filter_map};
ghost use Rattle.lapd_link.specs.Link.{LinkRepresents, setup_of};
ghost use Rattle.lapd_link_machine.specs.Bounds.{is_primitive, primitive_count};
ghost use Rattle.lapd_link_definition.specs.End.{End};
ghost use Rattle.lapd_sides_links.specs.declared.acts.TheConstants.{MOST_FRAMES, MOST_PRIMITIVES};
ghost use Rattle.lapd_sides_links.specs.declared.primitive.Primitive.TheVariants.{Of};
ghost use Rattle.lapd_sides_links.specs.declared.primitive.What.TheVariants.{UnitUp};
ghost use Rattle.lapd_sides_links.specs.Effects.{what_of, timed};
ghost use Rattle.lapd_sides_links.specs.Shown.{made_by};

use crate::{Acts, Octets, Primitive, What};
use lapd_frame::N201;
use lapd_link::{Link, Out};
use lapd_table::LinkId;
use lapd_timers::TimerSet;

/// Appends the frames of these outputs of a link, after the step that made them. `octets` are the
/// unit data to send.
pub fn put_frames(link: &Link, octets: &[u8], outs: &[Out], acts: &mut Acts)
    requires room { length acts.old.frames + length outs.now ≤ MOST_FRAMES }
    ensures frames { (e : End) → LinkRepresents link.now e → acts.new.frames
        ≡ acts.old.frames ++ filter_map (made_by (setup_of link.now) e octets.now) outs.now }
    ensures primitives { acts.new.primitives ≡ acts.old.primitives }
    ensures at_most { length acts.new.frames ≤ length acts.old.frames + length outs.now }
{
    for out in outs {
        if let Some(frame) = link.frame(out, octets) {
            acts.put(link.side(), &frame);
        }
    }
}

/// Appends the primitives of these outputs, for the link with this id. `octets` are the information
/// of the received frame, at most 260.
pub fn deliver_all(id: &LinkId, octets: &[u8], outs: &[Out], acts: &mut Acts)
    requires fits { length octets.now ≤ N201 }
    requires room { length acts.old.primitives + primitive_count outs.now ≤ MOST_PRIMITIVES }
    ensures primitives { acts.new.primitives
        ≡ acts.old.primitives ++ map (Of id.now) (filter_map (what_of octets.now) outs.now) }
    ensures frames { acts.new.frames ≡ acts.old.frames }
    ensures at_most { length acts.new.primitives
        ≤ length acts.old.primitives + primitive_count outs.now }
{
    for out in outs {
        if is_primitive(out) {
            deliver(id, octets, out, acts);
        }
    }
}

/// Whether an output has a primitive for the layers above. This test quickly rules out most
/// outputs.
#[inline(always)]
fn is_primitive(out: &Out) -> bool
    ensures delivered { result ≡ is_primitive out.now }
    ensures nothing { result ≡ false → (octets : List ℕ) → what_of octets out.now ≡ None }
{
    !matches!(
        out,
        Out::Send(..) | Out::SendMessage(..) | Out::SendUnit | Out::Start(_) | Out::Stop(_)
    )
}

/// Appends the primitive of this output, if any, for the link with this id.
// Each kind is built in place: otherwise it would be copied with its room for octets, even if it
// has none.
fn deliver(id: &LinkId, octets: &[u8], out: &Out, acts: &mut Acts)
    requires fits { length octets.now ≤ N201 }
    requires room { length acts.old.primitives < MOST_PRIMITIVES }
    ensures primitives { acts.new.primitives ≡ acts.old.primitives
        ++ map (Of id.now) (filter_map (what_of octets.now) (out.now ∷ [])) }
    ensures frames { acts.new.frames ≡ acts.old.frames }
{
    let of = *id;
    match out {
        Out::Up => acts.deliver_up(of, octets),
        Out::UnitUp => deliver_unit(of, octets, acts),
        Out::Established => acts.deliver(Primitive::Of(of, What::Established)),
        Out::Confirmed => acts.deliver(Primitive::Of(of, What::Confirmed)),
        Out::Released => acts.deliver(Primitive::Of(of, What::Released)),
        Out::ReleaseConfirm => acts.deliver(Primitive::Of(of, What::ReleaseConfirm)),
        Out::Acknowledged(n) => acts.deliver(Primitive::Of(of, What::Acknowledged(*n))),
        Out::Dropped(n) => acts.deliver(Primitive::Of(of, What::Dropped(*n))),
        Out::Report(letter) => acts.deliver(Primitive::Of(of, What::Report(*letter))),
        Out::Send(..) | Out::SendMessage(..) | Out::SendUnit | Out::Start(_) | Out::Stop(_) => {}
    }
}

/// Appends received unit data, for the link with this id.
// If inlined, room for its octets would be cleared for each primitive.
#[inline(never)]
fn deliver_unit(of: LinkId, octets: &[u8], acts: &mut Acts)
    requires fits { length octets.now ≤ N201 }
    requires room { length acts.old.primitives < MOST_PRIMITIVES }
    ensures { acts.new ≡ record acts.old {
      primitives = acts.old.primitives ++ Of of (UnitUp octets.now) ∷ [];
    } }
{
    acts.deliver(Primitive::Of(of, What::UnitUp(Octets::new(octets))));
}

/// Starts and stops the timers according to these outputs, at the time `now`.
pub fn apply_outputs(timers: &mut TimerSet, outs: &[Out], now: u64)
    ensures { timers.new ≡ timed now outs.now timers.old }
{
    for out in outs {
        match out {
            Out::Start(timer) => timers.start(*timer, now),
            Out::Stop(timer) => timers.stop(*timer),
            _ => {}
        }
    }
}
