ghost use Rattle.std.specs.Prelude.{◌≡◌};
ghost use Rattle.lapd_tei.specs.Message.{kind_number, kind_at, may_name_the_group};

/// The type of a TEI message (Q.921 5.3.6.4, Table 8).
#[derive(Clone, Copy, Debug, Default, PartialEq, Eq)]
pub enum TeiKind {
    /// Identity request: a terminal requests a TEI.
    #[default]
    Request,
    /// Identity assigned.
    Assigned,
    /// Identity denied.
    Denied,
    /// Identity check request: terminals with this TEI must respond.
    CheckRequest,
    /// Identity check response.
    CheckResponse,
    /// Identity remove: terminals with this TEI must remove it.
    Remove,
    /// Identity verify: a terminal requests a check of its TEI.
    Verify,
}

impl TeiKind {
    /// The kind with this message type, or `None` if the number is not 1 to 7.
    pub fn new(number: u8) -> Option<TeiKind>
        ensures { result ≡ kind_at number }
    {
        match number {
            1 => Some(TeiKind::Request),
            2 => Some(TeiKind::Assigned),
            3 => Some(TeiKind::Denied),
            4 => Some(TeiKind::CheckRequest),
            5 => Some(TeiKind::CheckResponse),
            6 => Some(TeiKind::Remove),
            7 => Some(TeiKind::Verify),
            _ => None,
        }
    }

    /// The message type, 1 to 7.
    pub fn number(self) -> u8
        ensures { result ≡ kind_number self }
    {
        match self {
            TeiKind::Request => 1,
            TeiKind::Assigned => 2,
            TeiKind::Denied => 3,
            TeiKind::CheckRequest => 4,
            TeiKind::CheckResponse => 5,
            TeiKind::Remove => 6,
            TeiKind::Verify => 7,
        }
    }

    /// Whether the action indicator may be the group TEI.
    pub fn may_name_the_group(self) -> bool
        ensures { result ≡ may_name_the_group self }
    {
        match self {
            TeiKind::Assigned | TeiKind::CheckResponse | TeiKind::Verify => false,
            TeiKind::Request | TeiKind::Denied | TeiKind::CheckRequest | TeiKind::Remove => true,
        }
    }
}
