//! TEIs that are tied to connections. On a copper bus nothing shows which terminal sends a frame; a
//! connection does.

use crate::shared_bus::ForeignUse;
use lapd_frame::{Control, Sapi, Side, read};
use lapd_table::Tei;
use lapd_tei::{TeiKind, TeiMessage};
use lapd_tei_audit::UsedTei;

/// The number of TEIs that a terminal can have, 0 to 126.
const TEIS: usize = 127;

/// Which connection uses which TEI, and the last reference by which each connection requested one.
/// A connection is named by its place. A TEI is tied to the connection that requested it, or that
/// used it first, until that connection is lost or the TEI removed.
#[derive(Drop)]
pub struct Ties {
    places: [Option<usize>; TEIS],
    requested: [Option<u16>; TEIS],
}

impl Ties {
    /// No TEI is tied.
    pub fn new() -> Ties {
        Ties {
            places: [None; TEIS],
            requested: [None; TEIS],
        }
    }

    /// Records a frame that the connection at this place sent, and the TEI that it uses. If the TEI
    /// is not tied, it is tied to the connection.
    ///
    /// # Errors
    ///
    /// The TEI is tied to another connection.
    pub fn take(&mut self, used: &UsedTei, octets: &[u8], place: usize) -> Result<(), ForeignUse> {
        self.admit(used, place)?;
        self.receive(octets, place);
        Ok(())
    }

    /// The connection at this place uses a TEI. If the TEI is not tied, it is tied to it.
    fn admit(&mut self, used: &UsedTei, place: usize) -> Result<(), ForeignUse> {
        let tei = match used {
            UsedTei::Link(tei) | UsedTei::Answer(tei) => *tei,
            UsedTei::Nothing => return Ok(()),
        };
        let Some(tied) = self.places.get_mut(usize::from(tei.value())) else {
            return Ok(());
        };
        match *tied {
            Some(owner) if owner != place => Err(ForeignUse { tei, owner }),
            _ => {
                *tied = Some(place);
                Ok(())
            }
        }
    }

    /// Records a frame that the terminal at this place sent, if it requests a TEI.
    fn receive(&mut self, octets: &[u8], place: usize) {
        if let Some(message) = message_in(octets, Side::User) {
            if let (TeiKind::Request, Some(requested)) = (
                message.kind,
                self.requested.get_mut(place),
            ) {
                *requested = Some(message.ri);
            }
        }
    }

    /// Records a frame of the network side: a TEI that it assigns is tied to the connection that
    /// requested it, and one that it removes is not tied any more.
    pub fn send(&mut self, octets: &[u8]) {
        let Some(message) = message_in(octets, Side::Network) else {
            return;
        };
        match message.kind {
            TeiKind::Assigned => self.tie(message.ai, self.place_with(message.ri)),
            TeiKind::Remove if message.ai == Tei::group().value() => self.places = [None; TEIS],
            TeiKind::Remove => self.tie(message.ai, None),
            _ => {}
        }
    }

    /// Unties all TEIs of the connection at this place, which is lost.
    pub fn lose(&mut self, place: usize) {
        for tied in &mut self.places {
            if *tied == Some(place) {
                *tied = None;
            }
        }
        if let Some(requested) = self.requested.get_mut(place) {
            *requested = None;
        }
    }

    fn tie(&mut self, tei: u8, place: Option<usize>) {
        if let Some(tied) = self.places.get_mut(usize::from(tei)) {
            *tied = place;
        }
    }

    /// The first connection that requested a TEI last by this reference.
    fn place_with(&self, ri: u16) -> Option<usize> {
        self.requested
            .iter()
            .position(|requested| *requested == Some(ri))
    }
}

/// Whether the network side denies a request for a TEI by these octets.
pub fn is_denial(octets: &[u8]) -> bool {
    match message_in(octets, Side::Network) {
        Some(message) => matches!(message.kind, TeiKind::Denied),
        None => false,
    }
}

/// The message of TEI management in these octets, which this side sent.
fn message_in(octets: &[u8], from: Side) -> Option<TeiMessage> {
    let frame = read(octets, from).ok()?;
    match (frame.address().sapi, frame.control()) {
        (Sapi::Management, Control::Ui { .. }) => TeiMessage::read(frame.info()).ok(),
        _ => None,
    }
}
