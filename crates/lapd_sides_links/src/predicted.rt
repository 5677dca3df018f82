//! Turns the outputs of a predicted step of a link into frames, primitives and timers.

ghost use Rattle.std.specs.Prelude.{◌≡◌, ◌≤◌, ◌<◌, ◌+◌, ◌++◌, ◌∷◌, [], length, map, ℕ, List};
ghost use Rattle.std.specs.List.{filter_map};
ghost use Rattle.lapd_frame.specs.Control.{field_of_message};
ghost use Rattle.lapd_link.specs.Link.{LinkRepresents, setup_of};
ghost use Rattle.lapd_table.specs.LinkId.{setup_for};
ghost use Rattle.lapd_link_machine.specs.Predicted.{nr_outs, response_outs};
ghost use Rattle.lapd_link_definition.specs.declared.out.Out.TheVariants as out;
ghost use Rattle.lapd_link_definition.specs.End.{End};
ghost use Rattle.lapd_link_definition.specs.Procedures.{counted, out_where};
ghost use Rattle.lapd_sides_links.specs.declared.acts.TheConstants.{MOST_FRAMES, MOST_PRIMITIVES};
ghost use Rattle.lapd_sides_links.specs.declared.primitive.Primitive.TheVariants.{Of};
ghost use Rattle.lapd_sides_links.specs.Effects.{what_of};
ghost use Rattle.lapd_sides_links.specs.Shown.{made_by};

use crate::{Acts, Primitive, What};
use lapd_frame::{Address, MessageField, N201, Response, Role, Side};
use lapd_link::{Link, NrEffect};
use lapd_table::LinkId;

/// Appends the frame of this response of a link on this side, if there is one.
#[inline(always)]
pub fn put_response(from: Side, id: &LinkId, response: Option<Response>, acts: &mut Acts)
    requires { length acts.old.frames < MOST_FRAMES }
    ensures frames { (e : End) (octets : List ℕ) → acts.new.frames ≡ acts.old.frames
        ++ filter_map (made_by (setup_for from id.now) e octets) (response_outs response) }
    ensures primitives { acts.new.primitives ≡ acts.old.primitives }
    ensures at_most { length acts.new.frames ≤ length acts.old.frames + 1 }
{
    if let Some(response) = response {
        let header = response.octets(address_of(id, Role::Answer), from);
        acts.put_parts(header, &[]);
    }
}

/// Appends the I frame with the message at this place of the link's queue.
#[inline(always)]
pub fn put_message_frame(link: &Link, place: u16, field: MessageField, acts: &mut Acts)
    requires { length acts.old.frames < MOST_FRAMES }
    ensures frames { (e : End) (octets : List ℕ) → LinkRepresents link.now e → acts.new.frames
        ≡ acts.old.frames ++ filter_map (made_by (setup_of link.now) e octets)
        (out.SendMessage place (field_of_message field) ∷ []) }
    ensures primitives { acts.new.primitives ≡ acts.old.primitives }
    ensures at_most { length acts.new.frames ≤ length acts.old.frames + 1 }
{
    match link.queue().get(place) {
        Some(message) if message.len() <= N201 => {
            let id = LinkId {
                sapi: link.sapi(),
                tei: link.tei(),
            };
            let header = field.octets(address_of(&id, Role::Command), link.side());
            acts.put_parts(header, message);
        }
        _ => {}
    }
}

/// The address of a link's frames with this role.
#[inline(always)]
fn address_of(id: &LinkId, role: Role) -> Address
    ensures { result ≡ record {
      sapi = id.now.sapi;
      tei = id.now.tei;
      role = role;
    } }
{
    Address {
        sapi: id.sapi,
        tei: id.tei,
        role,
    }
}

/// Appends the message of a received I frame, if it is delivered to layer 3. `octets` are its
/// information, at most 260.
#[inline(always)]
pub fn deliver_message(id: &LinkId, is_up: bool, octets: &[u8], acts: &mut Acts)
    requires fits { length octets.now ≤ N201 }
    requires room { length acts.old.primitives < MOST_PRIMITIVES }
    ensures primitives { acts.new.primitives ≡ acts.old.primitives
        ++ map (Of id.now) (filter_map (what_of octets.now) (out_where is_up out.Up)) }
    ensures frames { acts.new.frames ≡ acts.old.frames }
    ensures at_most { length acts.new.primitives ≤ length acts.old.primitives + 1 }
{
    if is_up {
        acts.deliver_up(*id, octets);
    }
}

/// Appends how many messages an N(R) acknowledged, if any.
#[inline(always)]
pub fn deliver_acknowledged(id: &LinkId, nr: NrEffect, acts: &mut Acts)
    requires { length acts.old.primitives < MOST_PRIMITIVES }
    ensures primitives { (octets : List ℕ) → acts.new.primitives ≡ acts.old.primitives
        ++ map (Of id.now) (filter_map (what_of octets) (nr_outs nr)) }
    ensures frames { acts.new.frames ≡ acts.old.frames }
    ensures at_most { length acts.new.primitives ≤ length acts.old.primitives + 1 }
{
    match nr {
        NrEffect::All { count, stops: _ } => deliver_count(id, count, acts),
        NrEffect::Part { count } => deliver_count(id, count, acts),
        NrEffect::Nothing => {}
    }
}

/// Appends this number of acknowledged messages, if it is not 0.
#[inline(always)]
fn deliver_count(id: &LinkId, count: u16, acts: &mut Acts)
    requires { length acts.old.primitives < MOST_PRIMITIVES }
    ensures primitives { (octets : List ℕ) → acts.new.primitives ≡ acts.old.primitives
        ++ map (Of id.now) (filter_map (what_of octets) (counted count out.Acknowledged)) }
    ensures frames { acts.new.frames ≡ acts.old.frames }
    ensures at_most { length acts.new.primitives ≤ length acts.old.primitives + 1 }
{
    if count > 0 {
        acts.deliver(Primitive::Of(*id, What::Acknowledged(count)));
    }
}
