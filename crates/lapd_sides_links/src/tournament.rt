//! Finds the timer of the links that expires first.

ghost use Rattle.std.specs.Prelude.{◌≡◌, ◌≢◌, ◌≤◌, ◌<◌, ◌*◌, ℕ, ◌/◌, None, IfOk, true, replicate};
ghost use Rattle.lapd_sides_links.specs.Expiries.{IsFirst};
ghost use Rattle.lapd_sides_links.specs.Places.{IsSooner};
ghost use Rattle.lapd_sides_links.specs.Tournament.{entry, IsEntered, IsWonBut, IsAlone, HasTop};

use crate::RunningTimer;
use crate::running_timer::is_no_later;
use std::alloc::{AllocError, Global};
use std::marker::Model;

/// The number of slots.
pub const PLACES: usize = 256;

/// The root node.
const FIRST: usize = 1;

/// A tournament of expiries, with at most one in each of 256 slots: of each pair the earlier one
/// advances, up to the root. A change of one slot updates only the eight nodes above it. No node is
/// updated while all other slots are empty.
#[derive(Drop)]
pub struct Tournament {
    /// Node n has the children 2n and 2n + 1. Nodes 256 to 511 are the slots.
    nodes: Vec<Option<RunningTimer>>,
    /// The first expiry of all.
    first: Option<RunningTimer>,
    /// The node of the first expiry: node 1, or the only slot that is not empty.
    top: usize,
}

impl Model for Tournament {
    ghost use Rattle.std.specs.Prelude.{◌≡◌, List, Option, drop};
    ghost use Rattle.lapd_sides_links.specs.declared.running_timer.RunningTimer.{RunningTimer};
    ghost use Rattle.lapd_sides_links.specs.Tournament.{entry, HasTop};

    ghost Value = { List (Option RunningTimer) };

    ghost view = { λ t. drop 256 t.nodes.items };

    ghost invariant = { λ t. HasTop t.top t.nodes.items × (entry t.nodes.items t.top ≡ t.first) };
}

impl Tournament {
    /// Creates a tournament with all slots empty.
    ///
    /// # Errors
    ///
    /// `AllocError` if an allocation failed.
    pub fn new(alloc: Global) -> Result<Tournament, AllocError>
        ensures { IfOk result (λ t. (at : ℕ) → entry t at ≡ None) }
    {
        Ok(Tournament {
            nodes: empty_nodes(alloc)?,
            first: None,
            top: FIRST,
        })
    }

    /// The first expiry of all slots.
    pub fn first(&self) -> Option<RunningTimer>
        ensures { IsFirst (IsEntered self.now) result }
    {
        self.first
    }

    /// Sets or clears the expiry of a slot.
    pub fn enter(&mut self, place: usize, expiry: Option<RunningTimer>)
        requires { place < PLACES }
        ensures own { entry self.new place ≡ expiry }
        ensures others { (other : ℕ) → other ≢ place → entry self.new other ≡ entry self.old other }
    {
        let own = PLACES + place;
        if self.top == own {
            self.nodes[own] = expiry;
            self.first = expiry;
            return;
        }
        if is_same(&self.nodes[own], &expiry) {
            return;
        }
        if self.first.is_none() {
            self.nodes[own] = expiry;
            self.first = expiry;
            self.top = own;
            return;
        }
        let nodes = self.nodes.as_mut_slice();
        win_all(nodes, self.top);
        nodes[own] = expiry;
        settle(nodes, own, expiry);
        self.first = nodes[FIRST];
        self.top = FIRST;
    }
}

/// Nodes without expiries.
// Written in their places: an array of them would be made twice on the stack, and then copied.
fn empty_nodes(alloc: Global) -> Result<Vec<Option<RunningTimer>>, AllocError>
    ensures { IfOk result (λ nodes. nodes.items ≡ replicate (2 * PLACES) None) }
{
    let mut nodes = Vec::new(alloc);
    nodes.resize(2 * PLACES, None)?;
    Ok(nodes)
}

/// Updates the nodes above the only slot that is not empty, if the first expiry was taken from
/// there.
#[inline(always)]
fn win_all(nodes: &mut [Option<RunningTimer>], top: usize)
    requires { HasTop top nodes.old }
    ensures won { IsWonBut 0 nodes.new }
    ensures places { (n : ℕ) → PLACES ≤ n → entry nodes.new n ≡ entry nodes.old n }
{
    if top != FIRST {
        win_above(nodes, top);
    }
}

/// Updates the nodes above the only slot that is not empty.
// Not inlined: the case is rare, and `settle` would be inlined here.
#[inline(never)]
fn win_above(nodes: &mut [Option<RunningTimer>], place: usize)
    requires { IsAlone place nodes.old }
    ensures won { IsWonBut 0 nodes.new }
    ensures places { (n : ℕ) → PLACES ≤ n → entry nodes.new n ≡ entry nodes.old n }
{
    let alone = nodes[place];
    settle(nodes, place, alone);
}

/// Updates the nodes above a slot whose entry has changed, upwards, until one does not change.
#[inline(always)]
fn settle(nodes: &mut [Option<RunningTimer>], place: usize, entered: Option<RunningTimer>)
    requires open { IsWonBut (place / 2) nodes.old }
    requires there { entry nodes.old place ≡ entered }
    requires low { PLACES ≤ place }
    requires high { place < 2 * PLACES }
    ensures won { IsWonBut 0 nodes.new }
    ensures places { (n : ℕ) → PLACES ≤ n → entry nodes.new n ≡ entry nodes.old n }
{
    let mut at = place;
    let mut first = entered;
    while at > 1 {
        let above = at / 2;
        // The sibling: the other one of 2n and 2n + 1.
        let beside = 4 * above + 1 - at;
        first = sooner_beside(first, &nodes[beside]);
        if is_same(&nodes[above], &first) {
            return;
        }
        nodes[above] = first;
        at = above;
    }
}

/// The earlier of two optional expiries. It reads no more of the second than it needs.
#[inline(always)]
fn sooner_beside(first: Option<RunningTimer>, other: &Option<RunningTimer>) -> Option<RunningTimer>
    ensures { IsSooner first other.now result }
{
    let Some(other) = other else {
        return first;
    };
    let Some(own) = first else {
        return Some(*other);
    };
    if is_no_later(&own, other) {
        Some(own)
    } else {
        Some(*other)
    }
}

/// Whether two optional expiries are equal.
#[inline(always)]
fn is_same(one: &Option<RunningTimer>, other: &Option<RunningTimer>) -> bool
    ensures { result ≡ true → one.now ≡ other.now }
{
    match (one, other) {
        (None, None) => true,
        (Some(one), Some(other)) => is_no_later(one, other) && is_no_later(other, one),
        _ => false,
    }
}
