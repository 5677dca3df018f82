ghost use Rattle.std.specs.Prelude.{◌≡◌, ◌≤◌, ◌<◌, ◌+◌, ◌++◌, ◌∷◌, [], length, drop, map, IfOk, OnOk, OnErr};
ghost use Rattle.std.specs.List.{All};
ghost use Rattle.std.specs.Vec.{vec_capacity};
ghost use Rattle.lapd_frame.specs.Frame.{spelling};
ghost use Rattle.lapd_sides_links.specs.declared.primitive.Primitive.TheVariants.{Of};
ghost use Rattle.lapd_sides_links.specs.declared.primitive.What.TheVariants.{Acknowledged, Up};
ghost use Rattle.lapd_sides_links.specs.Effects.{HasLeastOctets, no_effects};
ghost use Rattle.lapd_sides_links.specs.Rooms.{has_room_for_predicted};
ghost use Rattle.lapd_tei.specs.Message.{frame_of_message};

use crate::written_over::{next_place, remove_first};
use crate::{FrameOctets, Octets, Primitive, What};
use lapd_frame::{Frame, N201, Side};
use lapd_link::MOST_OUTPUTS;
use lapd_table::LinkId;
use lapd_tei::TeiMessage;
use std::alloc::{AllocError, Global};
use std::marker::Model;

/// The maximum number of primitives of one step of a link.
pub const MOST_PRIMITIVES_OF_STEP: usize = 6;

/// The room for frames: enough for one step of a link, and for the two links that establish when a
/// TEI is assigned, with at most seven outputs each.
pub const MOST_FRAMES: usize = MOST_OUTPUTS;

/// The room for primitives: enough for one step of each of two links, and of TEI management.
pub const MOST_PRIMITIVES: usize = 20;

/// The result of a call of a side: the frames to send, as octets, and the primitives for the layers
/// above, each in order.
// A frame and a primitive are written over an old one, if one is left: to make a new one would cost
// more than to write it.
#[derive(Drop)]
pub struct Acts {
    frames: Vec<FrameOctets>,
    /// The place of the first frame.
    first_frame: usize,
    /// The place after the last frame.
    frames_end: usize,
    primitives: Vec<Primitive>,
    /// The place of the first primitive.
    first_primitive: usize,
    /// The place after the last primitive.
    primitives_end: usize,
}

impl Model for Acts {
    ghost use Rattle.std.specs.Prelude.{map};
    ghost use Rattle.lapd_sides_links.specs.Effects.{Effects};
    ghost use Rattle.lapd_sides_links.specs.WrittenOver.{in_use};

    ghost Value = { Effects };

    ghost use Rattle.lapd_sides_links.specs.ActsFit.{ActsFit};

    ghost view = { λ a. record {
      frames = map (λ f. f.items) (in_use a.first_frame a.frames_end a.frames.items);
      primitives = in_use a.first_primitive a.primitives_end a.primitives.items;
    } };

    ghost invariant = { ActsFit };
}

impl Acts {
    /// Creates empty acts with room for the results of any call of a side.
    ///
    /// # Errors
    ///
    /// `AllocError` if an allocation failed.
    pub fn new(alloc: Global) -> Result<Acts, AllocError>
        ensures { IfOk result (λ acts. acts ≡ no_effects) }
    {
        Ok(Acts {
            frames: Vec::with_capacity(alloc, MOST_FRAMES)?,
            first_frame: 0,
            frames_end: 0,
            primitives: Vec::with_capacity(alloc, MOST_PRIMITIVES)?,
            first_primitive: 0,
            primitives_end: 0,
        })
    }

    /// The frames to send, as octets, in order. Each has 3 to 264 octets.
    #[inline(always)]
    pub fn frames(&self) -> &[FrameOctets]
        ensures frames { map (λ f. f.items) result.now ≡ self.now.frames }
        ensures least { All (λ f. HasLeastOctets f.items) result.now }
    {
        &self.frames[self.first_frame..self.frames_end]
    }

    /// The primitives for the layers above, in order.
    #[inline(always)]
    pub fn primitives(&self) -> &[Primitive]
        ensures { result.now ≡ self.now.primitives }
    {
        &self.primitives[self.first_primitive..self.primitives_end]
    }

    /// Whether there is room for two more frames and two more primitives, and so for the results of
    /// any frame that a link predicts and of any message that it sends at once.
    #[inline(always)]
    pub fn has_room(&self) -> bool
        ensures { result ≡ has_room_for_predicted self.now }
    {
        self.frames_end - self.first_frame + 2 <= MOST_FRAMES
            && self.primitives_end - self.first_primitive + 2 <= MOST_PRIMITIVES
    }

    /// Removes all frames and primitives.
    pub fn clear(&mut self)
        ensures { self.new ≡ no_effects }
    {
        self.first_frame = 0;
        self.frames_end = 0;
        self.first_primitive = 0;
        self.primitives_end = 0;
    }

    /// Removes the first frame.
    pub fn remove_frame(&mut self)
        requires { 0 < length self.old.frames }
        ensures { self.new ≡ record self.old { frames = drop 1 self.old.frames } }
    {
        remove_first(&mut self.first_frame, &mut self.frames_end);
    }

    /// Removes the first primitive.
    pub fn remove_primitive(&mut self)
        requires { 0 < length self.old.primitives }
        ensures { self.new ≡ record self.old { primitives = drop 1 self.old.primitives } }
    {
        remove_first(&mut self.first_primitive, &mut self.primitives_end);
    }

    /// Moves everything to the ends of these lists.
    ///
    /// # Errors
    ///
    /// `AllocError` if an allocation failed. Nothing is moved.
    pub fn move_behind(
        &mut self,
        frames: &mut Vec<FrameOctets>,
        primitives: &mut Vec<Primitive>,
    ) -> Result<(), AllocError>
        ensures left { OnOk result (self.new ≡ no_effects) }
        ensures frames { OnOk result (map (λ f. f.items) frames.new.items
            ≡ map (λ f. f.items) frames.old.items ++ self.old.frames) }
        ensures primitives { OnOk result (primitives.new.items
            ≡ primitives.old.items ++ self.old.primitives) }
        ensures unmoved { OnErr result (self.new ≡ self.old) }
        ensures same_frames { OnErr result (frames.new.items ≡ frames.old.items) }
        ensures same_primitives { OnErr result (primitives.new.items ≡ primitives.old.items) }
    {
        frames.reserve(self.frames().len())?;
        primitives.reserve(self.primitives().len())?;
        copy_frames(self.frames(), frames);
        copy_primitives(self.primitives(), primitives);
        self.clear();
        Ok(())
    }

    /// Appends the octets of a frame, as this side sends it.
    #[inline(always)]
    pub fn put(&mut self, from: Side, frame: &Frame<'_>)
        requires { length self.old.frames < MOST_FRAMES }
        ensures { self.new ≡ record self.old {
          frames = self.old.frames ++ spelling from frame.now
              ∷ [];
        } }
    {
        let place = next_place(
            &mut self.frames,
            &mut self.first_frame,
            &mut self.frames_end,
        );
        self.frames[place].write(frame, from);
    }

    /// Appends a frame by the four octets of its address and control field, and its information, at
    /// most 260 octets.
    #[inline(always)]
    pub(crate) fn put_parts(&mut self, header: [u8; 4], info: &[u8])
        requires room { length self.old.frames < MOST_FRAMES }
        requires fits { length info.now ≤ N201 }
        ensures { self.new ≡ record self.old {
          frames = self.old.frames ++ (header ++ info.now) ∷ [];
        } }
    {
        let place = next_place(
            &mut self.frames,
            &mut self.first_frame,
            &mut self.frames_end,
        );
        self.frames[place].write_parts(header, info);
    }

    /// Appends the octets of a TEI management message, as this side sends it.
    pub fn put_message(&mut self, from: Side, message: &TeiMessage)
        requires room { length self.old.frames < MOST_FRAMES }
        requires in_range { message.now.ai ≤ 127 }
        ensures { self.new ≡ record self.old {
          frames = self.old.frames
              ++ spelling from (frame_of_message message.now) ∷ [];
        } }
    {
        let octets = message.frame(from);
        let place = next_place(
            &mut self.frames,
            &mut self.first_frame,
            &mut self.frames_end,
        );
        self.frames[place].set(&octets);
    }

    /// Appends a received message of the link with this id, for layer 3.
    // The octets are copied once, into their place: otherwise the whole buffer would be copied
    // twice.
    #[inline(always)]
    pub(crate) fn deliver_up(&mut self, of: LinkId, octets: &[u8])
        requires fits { length octets.now ≤ N201 }
        requires room { length self.old.primitives < MOST_PRIMITIVES }
        ensures { self.new ≡ record self.old {
          primitives = self.old.primitives ++ Of of (Up octets.now) ∷ [];
        } }
    {
        let place = next_place(
            &mut self.primitives,
            &mut self.first_primitive,
            &mut self.primitives_end,
        );
        set_up(&mut self.primitives[place], &of, octets);
    }

    /// Appends a primitive.
    // Inlined, so that a primitive without octets is written without copying the room for them.
    #[inline(always)]
    pub fn deliver(&mut self, primitive: Primitive)
        requires { length self.old.primitives < MOST_PRIMITIVES }
        ensures { self.new ≡ record self.old {
          primitives = self.old.primitives ++ primitive
              ∷ [];
        } }
    {
        let place = next_place(
            &mut self.primitives,
            &mut self.first_primitive,
            &mut self.primitives_end,
        );
        set_primitive(&mut self.primitives[place], primitive);
    }
}

/// Writes a message primitive over another primitive.
#[inline(always)]
fn set_up(primitive: &mut Primitive, of: &LinkId, octets: &[u8])
    requires { length octets.now ≤ N201 }
    ensures { primitive.new ≡ Of of.now (Up octets.now) }
{
    match primitive {
        Primitive::Of(id, what) => {
            *id = *of;
            set_message(what, octets);
        }
        Primitive::Management(_) => {
            *primitive = Primitive::Of(*of, What::Up(Octets::new(octets)));
        }
    }
}

/// Writes a message over another primitive of a link.
#[inline(always)]
fn set_message(what: &mut What, octets: &[u8])
    requires { length octets.now ≤ N201 }
    ensures { what.new ≡ Up octets.now }
{
    match what {
        What::Up(message) => message.set(octets),
        _ => *what = What::Up(Octets::new(octets)),
    }
}

/// Writes a primitive over another primitive.
// An acknowledgement is written in its fields: otherwise the room for octets would be cleared.
#[inline(always)]
fn set_primitive(place: &mut Primitive, primitive: Primitive)
    ensures { place.new ≡ primitive }
{
    match primitive {
        Primitive::Of(of, What::Acknowledged(count)) => set_acknowledged(place, &of, count),
        other => *place = other,
    }
}

/// Writes an acknowledgement over another primitive.
#[inline(always)]
fn set_acknowledged(primitive: &mut Primitive, of: &LinkId, count: u16)
    ensures { primitive.new ≡ Of of.now (Acknowledged count) }
{
    match primitive {
        Primitive::Of(id, what) => {
            *id = *of;
            set_count(what, count);
        }
        Primitive::Management(_) => {
            *primitive = Primitive::Of(*of, What::Acknowledged(count));
        }
    }
}

/// Writes the number of acknowledged messages over another primitive of a link.
#[inline(always)]
fn set_count(what: &mut What, count: u16)
    ensures { what.new ≡ Acknowledged count }
{
    match what {
        What::Acknowledged(number) => *number = count,
        _ => *what = What::Acknowledged(count),
    }
}

/// Copies these frames to the end of a list that has room for them.
fn copy_frames(frames: &[FrameOctets], to: &mut Vec<FrameOctets>)
    requires { length to.old.items + length frames.now ≤ vec_capacity to.old }
    ensures { to.new.items ≡ to.old.items ++ frames.now }
{
    for frame in frames {
        push_frame(frame, to);
    }
}

/// Copies a frame to the end of a list that has room for it.
// The frame is written in its place: otherwise its array would be copied twice.
#[inline(always)]
fn push_frame(frame: &FrameOctets, to: &mut Vec<FrameOctets>)
    requires { length to.old.items < vec_capacity to.old }
    ensures items { to.new.items ≡ to.old.items ++ frame.now ∷ [] }
    ensures capacity { vec_capacity to.new ≡ vec_capacity to.old }
{
    let place = to.len();
    to.push_reserved(FrameOctets::new());
    to[place].set(frame.as_slice());
}

/// Copies these primitives to the end of a list that has room for them.
fn copy_primitives(primitives: &[Primitive], to: &mut Vec<Primitive>)
    requires { length to.old.items + length primitives.now ≤ vec_capacity to.old }
    ensures { to.new.items ≡ to.old.items ++ primitives.now }
{
    for primitive in primitives {
        push_primitive(primitive, to);
    }
}

/// Copies a primitive to the end of a list that has room for it.
// Messages and acknowledgements, which are most primitives, are written in their places.
#[inline(always)]
fn push_primitive(primitive: &Primitive, to: &mut Vec<Primitive>)
    requires { length to.old.items < vec_capacity to.old }
    ensures items { to.new.items ≡ to.old.items ++ primitive.now ∷ [] }
    ensures capacity { vec_capacity to.new ≡ vec_capacity to.old }
{
    match primitive {
        Primitive::Of(id, What::Up(octets)) => push_message(id, octets, to),
        Primitive::Of(id, What::Acknowledged(count)) => {
            to.push_reserved(Primitive::Of(*id, What::Acknowledged(*count)));
        }
        _ => to.push_reserved(primitive.copy()),
    }
}

/// Copies a message to the end of a list that has room for it.
#[inline(always)]
fn push_message(id: &LinkId, octets: &Octets, to: &mut Vec<Primitive>)
    requires { length to.old.items < vec_capacity to.old }
    ensures items { to.new.items ≡ to.old.items ++ Of id.now (Up octets.now) ∷ [] }
    ensures capacity { vec_capacity to.new ≡ vec_capacity to.old }
{
    let place = to.len();
    to.push_reserved(Primitive::Of(*id, What::Up(Octets::none())));
    copy_up(octets, &mut to[place], id);
}

/// Writes a copy of a message over another primitive.
#[inline(always)]
fn copy_up(octets: &Octets, primitive: &mut Primitive, of: &LinkId)
    ensures { primitive.new ≡ Of of.now (Up octets.now) }
{
    match primitive {
        Primitive::Of(id, what) => {
            *id = *of;
            copy_message(octets, what);
        }
        Primitive::Management(_) => *primitive = Primitive::Of(*of, What::Up(octets.copy())),
    }
}

/// Writes a copy of a message over another primitive of a link.
#[inline(always)]
fn copy_message(octets: &Octets, what: &mut What)
    ensures { what.new ≡ Up octets.now }
{
    match what {
        What::Up(message) => message.set_as(octets),
        _ => *what = What::Up(octets.copy()),
    }
}
