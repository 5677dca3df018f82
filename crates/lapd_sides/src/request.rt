use lapd_link::Tei;
use lapd_table::LinkId;

/// A request to a side. A user side uses only the SAPI of the link id: the TEI is its own.
#[derive(Debug, Drop)]
pub enum Request {
    /// Establish the link (DL-ESTABLISH request).
    Establish(LinkId),
    /// Release the link (DL-RELEASE request).
    Release(LinkId),
    /// Send unit data (DL-UNIT DATA request). On the network side TEI 127 sends it to all
    /// terminals.
    Unit(LinkId, Vec<u8>),
    /// Send a message (DL-DATA request).
    Give(LinkId, Vec<u8>),
    /// Enter (`true`) or leave (`false`) the own receiver busy condition, in which this end accepts
    /// no more messages (Q.921 5.6.6).
    Busy(LinkId, bool),
    /// Request a TEI. A network side ignores it.
    AskTei,
    /// Check this TEI. A user side ignores it.
    Check(Tei),
    /// Check all TEIs: a network side sends one check request to all terminals, and each that has a
    /// TEI answers with it (Q.921 5.3.3). No check begins, and the side ignores the answers. During
    /// a check it ignores the request, since it would count the answers for that check. A user side
    /// ignores it.
    CheckAll,
    /// Remove this TEI (MDL-REMOVE request). A network side sends Identity remove twice, and
    /// removes the TEI's links; it ignores the group TEI. A user side gives up its TEI if it is
    /// this one.
    Remove(Tei),
    /// Remove all TEIs from a bus whose TEIs are not known, as after a restart: a network side that
    /// holds no TEI sends Identity remove to all terminals twice (Q.921 5.3.4). A network side that
    /// holds a TEI ignores it: first remove each TEI that it holds. A user side ignores it.
    RemoveAll,
}
