//! The TEIs of a side and those of its links, each list in ascending order.

ghost use Rattle.std.specs.Prelude.{◌≡◌, ◌<◌, ◌≤◌, ℕ, Bool};
ghost use Rattle.lapd_tei.specs.Assigner.{is_held};
ghost use Rattle.lapd_c.specs.TeiLists.{has_link, teis_held, teis_with_link, tei_alone, those_below};

use arrayvec::ArrayVec;
use lapd_sides::{Assigner, LinkId, LinkTable, Sapi, Tei};

/// A list of TEIs.
pub(crate) type Teis = ArrayVec<u8, 128>;

/// The TEIs that the assigner holds.
pub(crate) fn teis_held(assigner: &Assigner) -> Teis
    ensures { result.items ≡ teis_held assigner.now.held }
{
    those_below(127, |tei| is_held(assigner, tei))
}

/// Whether the assigner holds this TEI.
fn is_held(assigner: &Assigner, tei: u8) -> bool
    requires { tei < 127 }
    ensures { result ≡ is_held assigner.now.held tei }
{
    match Tei::new(tei) {
        Some(tei) => assigner.holds(tei),
        None => unreachable!(),
    }
}

/// The TEIs of the links with this SAPI.
pub(crate) fn teis_with_link(table: &LinkTable, sapi: Sapi) -> Teis
    ensures { result.items ≡ teis_with_link table.now sapi }
{
    those_below(128, |tei| has_link(table, sapi, tei))
}

/// Whether the link with this SAPI and TEI exists.
fn has_link(table: &LinkTable, sapi: Sapi, tei: u8) -> bool
    requires { tei < 128 }
    ensures { result ≡ has_link table.now sapi tei }
{
    match Tei::new(tei) {
        Some(tei) => table.link(LinkId { tei, sapi }).is_some(),
        None => unreachable!(),
    }
}

/// The TEIs below `end` that have this property.
fn those_below<F: Fn(u8) -> bool>(end: u8, has: F) -> Teis
    requires within { end ≤ 128 }
    requires callable { (tei : ℕ) → tei < end → F.pre has tei }
    ensures { (test : ℕ → Bool)
        → ((tei : ℕ) (held : Bool) → tei < end → F.post has tei held → held ≡ test tei)
        → result.items ≡ those_below test end }
{
    let mut teis = ArrayVec::new();
    for tei in 0..end {
        if has(tei) {
            teis.push(tei);
        }
    }
    teis
}

/// This TEI, if there is one.
pub(crate) fn tei_alone(tei: Option<Tei>) -> Teis
    ensures { result.items ≡ tei_alone tei }
{
    let mut teis = ArrayVec::new();
    if let Some(tei) = tei {
        teis.push(tei.value());
    }
    teis
}
