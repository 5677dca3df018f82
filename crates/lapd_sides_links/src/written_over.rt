//! Lists whose items are written over in their places. Only those from `first` to `end` are in use.

ghost use Rattle.std.specs.Prelude.{◌≡◌, ◌≤◌, ◌<◌, ◌+◌, ◌-◌, length};
ghost use Rattle.std.specs.Vec.{vec_capacity};
ghost use Rattle.lapd_sides_links.specs.WrittenOver.{HasFirstRemoved, in_use};

use crate::{FrameOctets, Primitive};
use lapd_tei::TeiOut;

/// An item with a value for a place that was never in use.
pub(crate) trait Blank {
    /// The value.
    fn blank() -> Self;
}

impl Blank for FrameOctets {
    fn blank() -> FrameOctets {
        FrameOctets::new()
    }
}

impl Blank for Primitive {
    fn blank() -> Primitive {
        Primitive::Management(TeiOut::Failed)
    }
}

/// Takes the place after the last item into use, and returns it. Its item has any value.
#[inline(always)]
pub(crate) fn next_place<T: Blank>(items: &mut Vec<T>, first: &mut usize, end: &mut usize) -> usize
    requires first { first.old ≤ end.old }
    requires within { end.old ≤ length items.old.items }
    requires room { end.old - first.old < vec_capacity items.old }
    ensures first { first.new ≤ result }
    ensures end { end.new ≡ result + 1 }
    ensures within { result < length items.new.items }
    ensures same { in_use first.new result items.new.items
        ≡ in_use first.old end.old items.old.items }
    ensures capacity { vec_capacity items.new ≡ vec_capacity items.old }
{
    make_room(items, first, end);
    let place = *end;
    *end = place + 1;
    place
}

/// Makes a place after the last item, if there is none.
#[inline(always)]
fn make_room<T: Blank>(items: &mut Vec<T>, first: &mut usize, end: &mut usize)
    requires first { first.old ≤ end.old }
    requires within { end.old ≤ length items.old.items }
    requires room { end.old - first.old < vec_capacity items.old }
    ensures first { first.new ≤ end.new }
    ensures within { end.new < length items.new.items }
    ensures same { in_use first.new end.new items.new.items
        ≡ in_use first.old end.old items.old.items }
    ensures capacity { vec_capacity items.new ≡ vec_capacity items.old }
{
    if *end == items.len() {
        add_room(items, first, end);
    }
}

/// Makes a place after the last item: moves the items to the front, or adds a place if none before
/// them is free.
// A rare case; inlined, it would cost its callers stack and registers.
#[inline(never)]
fn add_room<T: Blank>(items: &mut Vec<T>, first: &mut usize, end: &mut usize)
    requires first { first.old ≤ end.old }
    requires whole { end.old ≡ length items.old.items }
    requires room { end.old - first.old < vec_capacity items.old }
    ensures first { first.new ≤ end.new }
    ensures within { end.new < length items.new.items }
    ensures same { in_use first.new end.new items.new.items
        ≡ in_use first.old end.old items.old.items }
    ensures capacity { vec_capacity items.new ≡ vec_capacity items.old }
{
    if *first == 0 {
        items.push_reserved(T::blank());
    } else {
        items.rotate_left(*first);
        *end -= *first;
        *first = 0;
    }
}

/// Removes the first item. If it is the only one, the next is written to the first place again.
#[inline(always)]
pub(crate) fn remove_first(first: &mut usize, end: &mut usize)
    requires { first.old < end.old }
    ensures { HasFirstRemoved first.old end.old first.new end.new }
{
    if *end == *first + 1 {
        *first = 0;
        *end = 0;
    } else {
        *first += 1;
    }
}
