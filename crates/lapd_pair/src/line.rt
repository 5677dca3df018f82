ghost use Rattle.std.specs.Prelude.{◌≡◌, ◌<◌, ◌≤◌, ◌+◌, ◌-◌, length, take, drop};
ghost use Rattle.std.specs.List.{remove};
ghost use Rattle.std.specs.Vec.{vec_len};
ghost use Rattle.lapd_pair.specs.Marks.{left_of};

use crate::marks::marked_place;
use arrayvec::ArrayVec;
use lapd_frame::{Frame, MOST_OCTETS, Role, Side, write_over};
use std::alloc::{AllocError, Global};

/// From this many removed frames on, reusing their slots may be worth moving the frames in transit.
const MANY: usize = 32;

/// One direction of the line: the octets of the frames in transit, in the order in which they were
/// sent.
///
/// Slots of removed frames stay at the front until no frame is in transit, or until they number at
/// least 32 and at least three times the frames in transit. Then the frames swap into the front
/// slots, and later frames overwrite the others. So the average cost of a frame does not depend on
/// how many are in transit. If a frame is lost, the frames before it or those after it move,
/// whichever are fewer.
///
/// A search for the first command with P=1, or the first response with F=1, continues where the
/// last search of its kind ended. Each search reads a frame once, and again only if it stops at it.
#[derive(Drop)]
pub struct Line {
    frames: Vec<ArrayVec<u8, MOST_OCTETS>>,
    /// The number of removed frames at the front.
    first: usize,
    /// The index after the last frame in transit. Slots from here on are free.
    end: usize,
    /// The index where the search for a command with P=1 continues. No frame in transit before it
    /// is one.
    poll_from: usize,
    /// The same for a response with F=1.
    final_from: usize,
    ghost taken: { first ≤ end },
    ghost within: { end ≤ vec_len frames },
    ghost poll_within: { poll_from ≤ end },
    ghost final_within: { final_from ≤ end },
}

impl Line {
    ghost use Rattle.std.specs.Prelude.{◌≡◌, ◌<◌, ◌≤◌, ◌+◌, ℕ, nat_lt, if◌then◌else◌, true, false, List, [], ◌∷◌, ◌++◌, length, map, drop, IfNone, IfSome, OnOk};
    ghost use Rattle.std.specs.List.{remove};
    ghost use Rattle.lapd_frame.specs.Frame.{spelling};
    ghost use Rattle.lapd_pair_laws.specs.Line.{Flight, sent_behind, without_lost, first_poll, first_final};
    ghost use Rattle.lapd_pair.specs.Line.{octets_on, polls_passed, finals_passed, fields_of, IsOn, IsFirst, HasRoomFor};
    ghost use Rattle.lapd_pair.specs.Marks.{place_of_marked, left_of};

    /// Creates a line with no frame in transit. Does not allocate.
    pub fn new(alloc: Global) -> Line
        ensures { (from : Side) → IsOn from result [] }
    {
        Line {
            frames: Vec::new(alloc),
            first: 0,
            end: 0,
            poll_from: 0,
            final_from: 0,
        }
    }

    /// The octets of the frames in transit, in order.
    pub fn frames(&self) -> &[ArrayVec<u8, MOST_OCTETS>]
        ensures octets { map (λ frame. frame.items) result.now ≡ octets_on self.now }
        ensures len { length result.now + self.now.first ≡ self.now.end }
    {
        &self.frames[self.first..self.end]
    }

    /// Allocates space for `additional` more frames. Frames in transit stay, also on error.
    pub fn reserve(&mut self, additional: usize) -> Result<(), AllocError>
        ensures room { OnOk result (HasRoomFor additional self.new) }
        ensures octets { octets_on self.new ≡ octets_on self.old }
        ensures shows { (from : Side) (frames : List Flight) → IsOn from self.old frames
            → IsOn from self.new frames }
        ensures no_less { (n : ℕ) → HasRoomFor n self.old → HasRoomFor n self.new }
    {
        self.frames.try_reserve(additional)
    }

    /// Appends a frame, encoded as `from` sends it.
    #[inline(always)]
    pub fn put(&mut self, from: Side, frame: &Frame<'_>)
        requires { HasRoomFor 1 self.old }
        ensures octets { octets_on self.new ≡ octets_on self.old ++ spelling from frame.now ∷ [] }
        ensures shows { (frames : List Flight) (sent : Flight) → IsOn from self.old frames
            → fields_of sent ≡ frame.now → IsOn from self.new (sent_behind frames sent) }
        ensures room { (n : ℕ) → HasRoomFor (n + 1) self.old → HasRoomFor n self.new }
    {
        self.make_place();
        write_over(frame, from, &mut self.frames[self.end]);
        self.end += 1;
    }

    /// Ensures a free slot after the last frame.
    #[inline(always)]
    fn make_place(&mut self)
        requires { HasRoomFor 1 self.old }
        ensures there { self.new.end < vec_len self.new.frames }
        ensures octets { octets_on self.new ≡ octets_on self.old }
        ensures end { self.new.end ≡ self.old.end }
        ensures polls { polls_passed self.new ≡ polls_passed self.old }
        ensures finals { finals_passed self.new ≡ finals_passed self.old }
        ensures room { (n : ℕ) → HasRoomFor n self.old → HasRoomFor n self.new }
    {
        if self.end == self.frames.len() {
            self.frames.push_reserved(ArrayVec::new());
        }
    }

    /// The octets of the first frame, if one is in transit.
    pub fn first(&self) -> Option<&[u8]>
        ensures none { IfNone result ((from : Side) (frames : List Flight)
            → IsOn from self.now frames → frames ≡ []) }
        ensures some { IfSome result (λ octets. (from : Side) (frames : List Flight)
            → IsOn from self.now frames → IsFirst from octets.now frames) }
    {
        self.frames().first().map(ArrayVec::as_slice)
    }

    /// Removes the first frame. Does nothing if no frame is in transit.
    pub fn take_first(&mut self)
        ensures octets { octets_on self.new ≡ drop 1 (octets_on self.old) }
        ensures shows { (from : Side) (frame : Flight) (rest : List Flight)
            → IsOn from self.old (frame ∷ rest) → IsOn from self.new rest }
    {
        if self.first < self.end {
            self.first += 1;
            self.forget_taken();
        }
    }

    /// Swaps the frames in transit into the slots of removed frames, if those are many enough (see
    /// [`Line`]). Frees all slots if no frame is in transit.
    fn forget_taken(&mut self)
        ensures octets { octets_on self.new ≡ octets_on self.old }
        ensures polls { polls_passed self.new ≡ polls_passed self.old }
        ensures finals { finals_passed self.new ≡ finals_passed self.old }
    {
        let left = self.end - self.first;
        if left == 0 {
            self.clear();
        } else if self.first >= MANY && self.first / 3 >= left {
            to_front(&mut self.frames, self.first, left);
            self.poll_from = self.poll_from.saturating_sub(self.first);
            self.final_from = self.final_from.saturating_sub(self.first);
            self.first = 0;
            self.end = left;
        }
    }

    /// Loses the frame at this index, from 0. Returns `false` and changes nothing if it does not
    /// exist.
    pub fn lose(&mut self, place: usize) -> bool
        ensures there { (from : Side) (frames : List Flight) → IsOn from self.old frames
            → result ≡ nat_lt place (length frames) }
        ensures shows { (from : Side) (frames : List Flight) → IsOn from self.old frames
            → result ≡ true → IsOn from self.new (without_lost place frames) }
        ensures unchanged { result ≡ false → self.new ≡ self.old }
    {
        if place < self.frames().len() {
            self.take_out(place);
            true
        } else {
            false
        }
    }

    /// Removes the frame at this index, from 0. The frames before it or those after it move,
    /// whichever are fewer.
    // Not inlined because it is rare: `RecordedLink::act` is compiled as one piece, which inlining
    // would slow down.
    #[inline(never)]
    fn take_out(&mut self, place: usize)
        requires { self.old.first + place < self.old.end }
        ensures octets { octets_on self.new ≡ remove (octets_on self.old) place }
        ensures polls { polls_passed self.new ≡ left_of place (polls_passed self.old) }
        ensures finals { finals_passed self.new ≡ left_of place (finals_passed self.old) }
    {
        if place < self.end - self.first - place {
            self.close_up(place);
        } else {
            self.close_down(place);
        }
    }

    /// Removes the frame at this index, from 0. The frames before it move back by one slot.
    fn close_up(&mut self, place: usize)
        requires { self.old.first + place < self.old.end }
        ensures octets { octets_on self.new ≡ remove (octets_on self.old) place }
        ensures polls { polls_passed self.new ≡ left_of place (polls_passed self.old) }
        ensures finals { finals_passed self.new ≡ left_of place (finals_passed self.old) }
    {
        let polls = left_of(place, self.poll_from.saturating_sub(self.first));
        let finals = left_of(place, self.final_from.saturating_sub(self.first));
        to_first(&mut self.frames, self.first, place);
        let first = self.first + 1;
        self.first = first;
        self.poll_from = first + polls;
        self.final_from = first + finals;
        self.forget_taken();
    }

    /// Removes the frame at this index, from 0. The frames after it move forward by one slot.
    fn close_down(&mut self, place: usize)
        requires { self.old.first + place < self.old.end }
        ensures octets { octets_on self.new ≡ remove (octets_on self.old) place }
        ensures polls { polls_passed self.new ≡ left_of place (polls_passed self.old) }
        ensures finals { finals_passed self.new ≡ left_of place (finals_passed self.old) }
    {
        let polls = left_of(place, self.poll_from.saturating_sub(self.first));
        let finals = left_of(place, self.final_from.saturating_sub(self.first));
        to_last(&mut self.frames, self.first + place, self.end);
        self.end -= 1;
        self.poll_from = self.first + polls;
        self.final_from = self.first + finals;
    }

    /// Removes all frames and keeps the allocated memory.
    pub fn clear(&mut self)
        ensures shows { (from : Side) → IsOn from self.new [] }
        ensures octets { octets_on self.new ≡ [] }
        ensures polls { polls_passed self.new ≡ 0 }
        ensures finals { finals_passed self.new ≡ 0 }
        ensures room { (n : ℕ) → HasRoomFor n self.old → HasRoomFor n self.new }
    {
        self.first = 0;
        self.end = 0;
        self.poll_from = 0;
        self.final_from = 0;
    }

    /// The index of the first command with P=1, from 0, if one is in transit. `from` sends on this
    /// line.
    pub fn first_poll(&mut self, from: Side) -> Option<usize>
        ensures place { (frames : List Flight) → IsOn from self.old frames
            → result ≡ first_poll frames }
        ensures shows { (frames : List Flight) → IsOn from self.old frames
            → IsOn from self.new frames }
    {
        let passed = self.poll_from.saturating_sub(self.first);
        let place = self.marked_behind(passed, from, Role::Command);
        self.poll_from = self.first + place;
        self.there(place)
    }

    /// The index of the first response with F=1, from 0, if one is in transit. `from` sends on this
    /// line.
    pub fn first_final(&mut self, from: Side) -> Option<usize>
        ensures place { (frames : List Flight) → IsOn from self.old frames
            → result ≡ first_final frames }
        ensures shows { (frames : List Flight) → IsOn from self.old frames
            → IsOn from self.new frames }
    {
        let passed = self.final_from.saturating_sub(self.first);
        let place = self.marked_behind(passed, from, Role::Answer);
        self.final_from = self.first + place;
        self.there(place)
    }

    /// The index of the first frame of this role with its P or F bit set, from 0, or the number of
    /// frames if there is no such frame. The search skips the first `passed` frames.
    fn marked_behind(&self, passed: usize, from: Side, role: Role) -> usize
        requires { self.now.first + passed ≤ self.now.end }
        ensures place { let rest = drop passed (octets_on self.now) in
            result ≡ passed + place_of_marked role from rest }
        ensures within { self.now.first + result ≤ self.now.end }
    {
        passed + marked_place(&self.frames()[passed..], from, role)
    }

    /// This index, from 0, if a frame is in transit at it.
    fn there(&self, place: usize) -> Option<usize>
        ensures { let count = length (octets_on self.now) in
            result ≡ (if nat_lt place count then Some place else None) }
    {
        if place < self.frames().len() {
            Some(place)
        } else {
            None
        }
    }
}

/// How many of the first `count` frames are left when the frame at this index is lost.
fn left_of(place: usize, count: usize) -> usize
    ensures { result ≡ left_of place count }
{
    if place < count { count - 1 } else { count }
}

/// Moves the frame at index `first + place` to index `first`. The frames between move back by one
/// slot.
fn to_first(frames: &mut [ArrayVec<u8, MOST_OCTETS>], first: usize, place: usize)
    requires { first + place < length frames.old }
    ensures { drop (first + 1) frames.new ≡ remove (drop first frames.old) place }
{
    frames[first..first + place + 1].rotate_right(1);
}

/// Moves the frame at index `at` to the last slot before `end`. The frames between move forward by
/// one slot.
fn to_last(frames: &mut [ArrayVec<u8, MOST_OCTETS>], at: usize, end: usize)
    requires before { at < end }
    requires within { end ≤ length frames.old }
    ensures { take (end - 1) frames.new ≡ remove (take end frames.old) at }
{
    frames[at..end].rotate_left(1);
}

/// Swaps the `count` frames from index `from` on with the first `count` frames.
fn to_front(frames: &mut [ArrayVec<u8, MOST_OCTETS>], from: usize, count: usize)
    requires apart { count ≤ from }
    requires within { from + count ≤ length frames.old }
    ensures { take count frames.new ≡ take count (drop from frames.old) }
{
    let (taken, left) = frames.split_at_mut(from);
    taken[..count].swap_with_slice(&mut left[..count]);
}
