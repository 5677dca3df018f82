ghost use Rattle.std.specs.Prelude.{◌≡◌};

use crate::LinkId;

/// The key of an existing link: its SAPI, TEI and slot in the table.
/// [`LinkTable::find`](crate::LinkTable::find) returns it, and it is valid until that link is
/// removed. A program that uses a link several times needs to find it only once.
#[derive(Clone, Copy)]
pub struct LinkKey {
    pub(crate) id: LinkId,
    pub(crate) place: usize,
}

impl LinkKey {
    /// The SAPI and the TEI of the link.
    pub fn id(&self) -> &LinkId
        ensures { result.now ≡ self.now.id }
    {
        &self.id
    }
}
