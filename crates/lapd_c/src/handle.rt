//! The handle that C holds.

ghost use Rattle.std.specs.Prelude.{◌≡◌, Some, None, MatchOption};
ghost use Rattle.std.specs.Borrow.{sem};
ghost use Rattle.lapd_c.specs.Owned.{owns, held_coded, Held};

use crate::box_parts::BoxParts;
use crate::held_side::HeldSide;
use std::alloc::Global;
use std::marker::{Model, Send};
use std::mem::replace;
use std::ptr::null_mut;

/// A handle in C: a pointer to a side, or null.
#[repr(C)]
pub struct Handle {
    at: *mut u8,
    alloc: Global,
    pub ghost held: { Held } by { held_coded },
}

impl Model for Handle {
    ghost also_owns = { λ h. owns h.alloc h.at h.held };
}

impl Handle {
    ghost use Rattle.lapd_c.specs.Lent.{LendsSide};

    /// A handle that owns nothing.
    pub(crate) fn empty(alloc: Global) -> Handle
        ensures { result.held ≡ None }
    {
        Handle {
            at: null_mut(),
            alloc,
        }
    }

    /// A handle that owns a side.
    pub(crate) fn of_parts(parts: BoxParts<HeldSide, Global>) -> Handle
        ensures { result.held ≡ Some parts.value }
    {
        let BoxParts { ptr, alloc } = parts;
        Handle {
            at: ptr.cast::<u8>(),
            alloc,
        }
    }

    /// The side that the handle owns, if any, in its place on the heap.
    #[inline(always)]
    pub(crate) fn side(&mut self) -> Option<&mut HeldSide>
        ensures* writes_back { sem 𝓛 (LendsSide self.entry result) }
        ensures owned { MatchOption result (self.old.held ≡ None)
            (λ s. self.old.held ≡ Some s.now) }
    {
        if self.at.is_null() {
            None
        } else {
            Some(unsafe { &mut *self.at.cast::<HeldSide>() })
        }
    }

    /// The side that the handle owned, if any.
    pub(crate) fn into_parts(self) -> Option<BoxParts<HeldSide, Global>>
        ensures { MatchOption result (self.held ≡ None) (λ p. self.held ≡ Some p.value) }
    {
        let Handle { at, alloc } = self;
        if at.is_null() {
            None
        } else {
            Some(BoxParts {
                ptr: at.cast::<HeldSide>(),
                alloc,
            })
        }
    }
}

// C may pass a handle to another thread.
unsafe impl Send for Handle {}

// Without this, overwriting a handle would leak its side.
impl Drop for Handle {
    fn drop(self) {
        if let Some(parts) = self.into_parts() {
            drop(parts.into_box());
        }
    }
}

/// Takes the side out of a handle, if it owns one.
pub(crate) fn take_side(handle: &mut Handle, alloc: Global) -> Option<Box<HeldSide>>
    ensures owned { MatchOption result (handle.old.held ≡ None)
        (λ b. handle.old.held ≡ Some b.value) }
    ensures left { handle.new.held ≡ None }
{
    match replace(handle, Handle::empty(alloc)).into_parts() {
        Some(parts) => Some(parts.into_box()),
        None => None,
    }
}

/// Puts a side into a handle that owns none.
pub(crate) fn put_side(handle: &mut Handle, side: Box<HeldSide>)
    requires { handle.old.held ≡ None }
    ensures { handle.new.held ≡ Some side.value }
{
    *handle = Handle::of_parts(BoxParts::of(crossing(side)));
}

/// Requires that a value is `Send`, because C may pass it to another thread.
fn crossing<T: Send>(value: T) -> T
    ensures { result ≡ value }
{
    value
}
