//! Typed lines, assembled from octets as these arrive.

ghost use Rattle.std.specs.Prelude.{◌≡◌, ◌++◌, [], option_map, IfOk, OnOk};
ghost use Rattle.lapd_cli_live.specs.Typed.{IsFirstLine};

use lapd_cli_script::first_line;
use std::alloc::{AllocError, Global};

/// The octets that were typed and not returned yet.
#[derive(Drop)]
pub(crate) struct TypedLines {
    alloc: Global,
    text: Vec<u8>,
}

impl TypedLines {
    /// No octets.
    pub(crate) fn new(alloc: Global) -> TypedLines
        ensures { result.text.items ≡ [] }
    {
        TypedLines {
            alloc,
            text: Vec::new(alloc),
        }
    }

    /// Appends octets.
    ///
    /// # Errors
    ///
    /// `AllocError` if an allocation fails.
    pub(crate) fn push(&mut self, octets: &[u8]) -> Result<(), AllocError>
        ensures { OnOk result (self.new.text.items ≡ self.old.text.items ++ octets.now) }
    {
        self.text.extend_from_slice(octets)
    }

    /// Removes the first complete line, and returns it without its line feed.
    ///
    /// # Errors
    ///
    /// `AllocError` if an allocation fails.
    pub(crate) fn next_line(&mut self) -> Result<Option<Vec<u8>>, AllocError>
        ensures { IfOk result (λ line. IsFirstLine self.old.text.items
            (option_map (λ line. line.items) line) self.new.text.items) }
    {
        let Some((line, rest)) = first_line(self.text.as_slice()) else {
            return Ok(None);
        };
        let line = owned(self.alloc, line)?;
        let rest = owned(self.alloc, rest)?;
        self.text = rest;
        Ok(Some(line))
    }

    /// The octets of the last line, which is not complete.
    pub(crate) fn last_line(&self) -> &[u8]
        ensures { result.now ≡ self.now.text.items }
    {
        self.text.as_slice()
    }
}

/// A copy of these octets.
fn owned(alloc: Global, octets: &[u8]) -> Result<Vec<u8>, AllocError>
    ensures { IfOk result (λ copy. copy.items ≡ octets.now) }
{
    let mut copy = Vec::new(alloc);
    copy.extend_from_slice(octets)?;
    Ok(copy)
}
