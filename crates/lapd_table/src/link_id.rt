ghost use Rattle.std.specs.Prelude.{◌≡◌, ◌<◌, ◌≤◌, Some};
ghost use Rattle.std.specs.Cmp.{partial_order_from_own_ties};
ghost use Rattle.std.specs.Cmp.Rules.{comparing};
ghost use Rattle.std.specs.Ordering.{as_partial_cmp};
ghost use Rattle.std.proofs.Common.{rules};
ghost use Rattle.lapd_link.specs.Link.{setup_of};
ghost use Rattle.lapd_table.specs.LinkId.{id_text, place_of, id_eq, id_cmp, id_of_setup, id_of_address};

use lapd_frame::{Address, Role, Sapi, Tei};
use lapd_link::Link;
use std::cmp::Ordering;
use std::fmt;

/// Identifies a link of a table: its service access point and terminal endpoint (Q.921 3.4.1). Ids
/// are ordered by SAPI number, then TEI.
#[derive(Clone, Copy, Debug)]
pub struct LinkId {
    // In this field order a comparison reads both at once.
    pub tei: Tei,
    pub sapi: Sapi,
}

impl LinkId {
    /// The id of the link that frames with this address are for.
    pub fn of_address(address: &Address) -> LinkId
        ensures { result ≡ id_of_address address.now }
    {
        LinkId {
            sapi: address.sapi,
            tei: address.tei,
        }
    }

    /// The address of the link's frames with this role (Q.921 3.3). This is all that a frame
    /// without information needs; no link is required.
    pub fn address(&self, role: Role) -> Address
        ensures { result ≡ record { sapi = self.now.sapi; tei = self.now.tei; role = role } }
    {
        Address {
            sapi: self.sapi,
            tei: self.tei,
            role,
        }
    }

    /// The id of this link in a table.
    pub fn of_link(link: &Link) -> LinkId
        ensures { result ≡ id_of_setup (setup_of link.now) }
    {
        LinkId {
            sapi: link.sapi(),
            tei: link.tei(),
        }
    }

    /// The rank in the order of ids as one number, so that a comparison takes one test; below 384.
    #[inline(always)]
    pub(crate) fn place(&self) -> u16
        ensures value { result ≡ place_of self.now }
        ensures tei { self.now.tei ≤ 127 }
        ensures range { result < 384 }
    {
        let sapi: u16 = match self.sapi {
            Sapi::Call => 0,
            Sapi::Packet => 1,
            Sapi::Management => 2,
        };
        sapi * 128 + u16::from(self.tei.value())
    }
}

impl PartialEq for LinkId {
    ghost eq = { id_eq };

    ghost laws = { Prim.search (comparing, rules) };

    fn eq(&self, other: &LinkId) -> bool {
        self.sapi == other.sapi && self.tei.value() == other.tei.value()
    }
}

impl Eq for LinkId {
    ghost laws = { Prim.search (comparing, rules) };
}

impl PartialOrd for LinkId {
    ghost partial_cmp = { as_partial_cmp id_cmp };

    ghost laws = { partial_order_from_own_ties (Prim.search (comparing, rules))
        (Prim.search (comparing, rules)) };

    fn partial_cmp(&self, other: &LinkId) -> Option<Ordering> {
        Some(self.cmp(other))
    }
}

impl Ord for LinkId {
    ghost cmp = { id_cmp };

    ghost total = { Prim.search (comparing, rules) };

    ghost matches_partial_cmp = { Prim.search (comparing, rules) };

    ghost matches_eq = { Prim.search (comparing, rules) };

    fn cmp(&self, other: &LinkId) -> Ordering {
        let place = self.place();
        let others = other.place();
        // With this order of tests, a map search needs one test per key.
        if place > others {
            Ordering::Greater
        } else if place == others {
            Ordering::Equal
        } else {
            Ordering::Less
        }
    }
}

impl fmt::Display for LinkId {
    ghost output = { λ id. Some (id_text id) };

    fn fmt<W: fmt::Write>(&self, f: &mut fmt::Formatter<W>) -> fmt::Result {
        let sapi = self.sapi;
        let tei = self.tei;
        write!(f, "SAPI {sapi} TEI {tei}")
    }
}
