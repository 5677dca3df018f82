//! The TEI management of a user side.

ghost use Rattle.std.specs.Prelude.{◌≡◌};
ghost use Rattle.lapd_sides.specs.User.{own_link};

use crate::pending_establishments::PendingEstablishments;
use crate::references::References;
use lapd_table::LinkId;
use lapd_tei::Terminal;

/// A terminal, with the establishments that await its TEI, and the references of its messages.
#[derive(Drop)]
pub struct TerminalManagement {
    pub(crate) terminal: Terminal,
    pub(crate) pending: PendingEstablishments,
    pub(crate) references: References,
}

impl TerminalManagement {
    /// The link of this SAPI and the terminal's own TEI, if it has one.
    #[inline(always)]
    pub(crate) fn own_link(&self, id: &LinkId) -> Option<LinkId>
        ensures { result ≡ own_link self.now.terminal id.now }
    {
        match self.terminal.tei() {
            Some(tei) => Some(LinkId { sapi: id.sapi, tei }),
            None => None,
        }
    }
}
