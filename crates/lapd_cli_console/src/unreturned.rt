//! The octets of a line that reads have yet to return.

ghost use Rattle.std.specs.Prelude.{◌≡◌, ◌≤◌, ◌<◌, ◌++◌, [], drop, false, length, take, true};

use std::alloc::Global;
use std::marker::Model;

/// The octets of a line that were not returned yet.
#[derive(Drop)]
pub(crate) struct Unreturned {
    line: Vec<u8>,
    returned: usize,
}

impl Model for Unreturned {
    ghost use Rattle.std.specs.Prelude.{◌≤◌, ℕ, List, drop, length};

    ghost Value = { List ℕ };

    ghost view = { λ u. drop u.returned u.line.items };

    ghost invariant = { λ u. u.returned ≤ length u.line.items };
}

impl Unreturned {
    /// No octets.
    pub(crate) fn none(alloc: Global) -> Unreturned
        ensures { result ≡ [] }
    {
        Unreturned::of(Vec::new(alloc))
    }

    /// All octets of a line.
    pub(crate) fn of(line: Vec<u8>) -> Unreturned
        ensures { result ≡ line.items }
    {
        Unreturned { line, returned: 0 }
    }

    /// Whether all octets were returned.
    pub(crate) fn is_empty(&self) -> bool
        ensures yes { result ≡ true → self.now ≡ [] }
        ensures no { result ≡ false → 0 < length self.now }
    {
        self.returned == self.line.len()
    }

    /// Copies as many octets as `octets` has room for, and returns their number.
    pub(crate) fn give(&mut self, octets: &mut [u8]) -> usize
        ensures bound { result ≤ length octets.new }
        ensures given { self.old ≡ take result octets.new ++ self.new }
        ensures none { result ≡ 0 → 0 < length octets.new → self.old ≡ [] }
    {
        let rest = &self.line.as_slice()[self.returned..];
        let count = rest.len().min(octets.len());
        octets[..count].copy_from_slice(&rest[..count]);
        self.returned += count;
        count
    }
}
