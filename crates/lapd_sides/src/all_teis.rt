//! Messages of the network side to all terminals, which name the group TEI.

ghost use Rattle.std.specs.Prelude.{◌≡◌};
ghost use Rattle.lapd_sides_links.specs.Rooms.{IsEmpty};
ghost use Rattle.lapd_sides.specs.AllTeis.{check_of_all, holds_any, removal_of_all, sending};

use crate::{Acts, Side, Tei, TeiMessage};
use lapd_tei::{Assigner, TeiKind};

/// Appends a check request to all terminals, unless a check is in progress.
pub fn put_check_of_all(assigner: &Assigner, acts: &mut Acts)
    requires { IsEmpty acts.old }
    ensures { acts.new ≡ sending (check_of_all assigner.now.check) }
{
    if assigner.check().is_none() {
        acts.put_message(Side::Network, &message_to_all(TeiKind::CheckRequest));
    }
}

/// Appends Identity remove to all terminals twice, unless the side holds a TEI.
pub fn put_removal_of_all(assigner: &Assigner, acts: &mut Acts)
    requires { IsEmpty acts.old }
    ensures { acts.new ≡ sending (removal_of_all assigner.now.held) }
{
    if !holds_any(assigner) {
        let message = message_to_all(TeiKind::Remove);
        acts.put_message(Side::Network, &message);
        acts.put_message(Side::Network, &message);
    }
}

/// Whether the assigner holds a TEI.
fn holds_any(assigner: &Assigner) -> bool
    ensures { result ≡ holds_any assigner.now.held }
{
    let mut any = false;
    for tei in 0..127 {
        let Some(tei) = Tei::new(tei) else {
            unreachable!()
        };
        any |= assigner.holds(tei);
    }
    any
}

/// The message of this kind to all terminals. It has no reference.
fn message_to_all(kind: TeiKind) -> TeiMessage
    ensures { result ≡ record { ri = 0; kind = kind; ai = 127 } }
{
    let ai = Tei::group().value();
    TeiMessage { ri: 0, kind, ai }
}
