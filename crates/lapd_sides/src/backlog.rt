ghost use Rattle.std.specs.Prelude.{◌≡◌, ◌<◌, length, drop, map, OnOk, OnErr};
ghost use Rattle.lapd_sides_links.specs.Effects.{and_then, no_effects};

use crate::waiting_lists::WaitingLists;
use crate::{Acts, FrameOctets, Primitive};
use std::alloc::{AllocError, Global};
use std::marker::Model;

/// The results of earlier calls of a side, which wait until they are fetched.
// The lists are behind a pointer, and made when results are first set aside: a program that fetches
// all results before its next call never has them, and its calls touch fewer lines of the cache.
#[derive(Drop)]
pub struct Backlog {
    alloc: Global,
    lists: Option<Box<WaitingLists>>,
}

impl Model for Backlog {
    ghost use Rattle.std.specs.Prelude.{option_map, unwrap_or};
    ghost use Rattle.lapd_sides_links.specs.Effects.{Effects, no_effects};

    ghost Value = { Effects };

    ghost view = { λ b. unwrap_or (option_map (λ lists. lists.value) b.lists) no_effects };
}

impl Backlog {
    /// Creates an empty backlog. Does not allocate.
    pub fn new(alloc: Global) -> Backlog
        ensures { result ≡ no_effects }
    {
        Backlog { alloc, lists: None }
    }

    /// Moves the results of a call to the end of the backlog.
    ///
    /// # Errors
    ///
    /// `AllocError` if an allocation failed. Nothing is moved.
    // A rare case; inlined, it would cost its callers stack and registers.
    #[inline(never)]
    pub fn append(&mut self, acts: &mut Acts) -> Result<(), AllocError>
        ensures moved { OnOk result (self.new ≡ and_then self.old acts.old) }
        ensures left { OnOk result (acts.new ≡ no_effects) }
        ensures unmoved { OnErr result (self.new ≡ self.old) }
        ensures unchanged { OnErr result (acts.new ≡ acts.old) }
    {
        match &mut self.lists {
            Some(lists) => lists.append(acts),
            None => {
                let mut lists = Box::new(self.alloc, WaitingLists::new(self.alloc))?;
                lists.append(acts)?;
                self.lists = Some(lists);
                Ok(())
            }
        }
    }

    /// The frames to send, as octets, in order.
    #[inline(always)]
    pub fn frames(&self) -> &[FrameOctets]
        ensures { map (λ f. f.items) result.now ≡ self.now.frames }
    {
        match &self.lists {
            Some(lists) => lists.frames(),
            None => &[],
        }
    }

    /// The primitives for the layers above, in order.
    #[inline(always)]
    pub fn primitives(&self) -> &[Primitive]
        ensures { result.now ≡ self.now.primitives }
    {
        match &self.lists {
            Some(lists) => lists.primitives(),
            None => &[],
        }
    }

    /// Removes the first frame.
    pub fn remove_frame(&mut self)
        requires { 0 < length self.old.frames }
        ensures { self.new ≡ record self.old { frames = drop 1 self.old.frames } }
    {
        match &mut self.lists {
            Some(lists) => lists.remove_frame(),
            None => unreachable!(),
        }
    }

    /// Removes the first primitive.
    pub fn remove_primitive(&mut self)
        requires { 0 < length self.old.primitives }
        ensures { self.new ≡ record self.old { primitives = drop 1 self.old.primitives } }
    {
        match &mut self.lists {
            Some(lists) => lists.remove_primitive(),
            None => unreachable!(),
        }
    }
}
