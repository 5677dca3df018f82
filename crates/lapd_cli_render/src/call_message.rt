ghost use Rattle.std.specs.Prelude.{◌≡◌, drop, option_map};
ghost use Rattle.lapd_cli_render.specs.CallMessage.{elements_of, message_at, reference_of, kind_name, establishment_name, information_name, clearing_name, miscellaneous_name};

/// The header of a call control message (ITU-T Q.931 4.1).
#[derive(Clone, Copy, Debug, PartialEq, Eq)]
pub struct CallMessage {
    /// The call reference; `None` is the dummy call reference (Q.931 4.3).
    pub reference: Option<CallReference>,
    /// The message type (Q.931 4.4).
    pub kind: u8,
}

/// A call reference of one or two octets (Q.931 4.3).
#[derive(Clone, Copy, Debug, PartialEq, Eq)]
pub struct CallReference {
    /// The value: 0 to 127 in one octet, 0 to 32,767 in two. 0 is the global call reference.
    pub value: u16,
    /// Whether the message is sent to the side that originated the call.
    pub to_origin: bool,
}

impl CallMessage {
    /// Reads the header at the beginning of these octets: protocol discriminator 8 (Q.931 4.2), a
    /// call reference of at most two octets, and a message type. Returns `None` if they do not
    /// begin with one.
    pub fn read(octets: &[u8]) -> Option<CallMessage>
        ensures { result ≡ message_at octets.now }
    {
        match octets {
            [0x08, 0, kind, ..] => Some(CallMessage {
                reference: None,
                kind: *kind,
            }),
            [0x08, 1, value, kind, ..] => Some(CallMessage {
                reference: Some(reference_of(*value, u16::from(*value % 128))),
                kind: *kind,
            }),
            [0x08, 2, high, low, kind, ..] => Some(CallMessage {
                reference: Some(reference_of(
                    *high,
                    u16::from(*high % 128) * 256 + u16::from(*low),
                )),
                kind: *kind,
            }),
            _ => None,
        }
    }

    /// The octets after the header that [`CallMessage::read`] reads: the information elements
    /// (Q.931 4.5).
    pub(crate) fn elements(octets: &[u8]) -> &[u8]
        ensures { result.now ≡ elements_of octets.now }
    {
        match octets {
            [_, count, rest @ ..] => after(usize::from(*count) + 1, rest),
            _ => &[],
        }
    }

    /// The name of the message type in Table 4-2 of Q.931, if it has one.
    pub fn name(&self) -> Option<&'static str>
        ensures { option_map (λ name. name.now) result ≡ kind_name self.now.kind }
    {
        match self.kind / 32 {
            0 => establishment_name(self.kind),
            1 => information_name(self.kind),
            2 => clearing_name(self.kind),
            3 => miscellaneous_name(self.kind),
            _ => None,
        }
    }
}

/// The octets after the first `count`; none if there are no more.
fn after(count: usize, octets: &[u8]) -> &[u8]
    ensures { result.now ≡ drop count octets.now }
{
    if count < octets.len() {
        &octets[count..]
    } else {
        &[]
    }
}

/// Builds the call reference with this value and with the flag in this octet.
fn reference_of(flag: u8, value: u16) -> CallReference
    ensures { result ≡ reference_of flag value }
{
    CallReference {
        value,
        to_origin: flag / 128 == 1,
    }
}

/// Messages of call establishment.
fn establishment_name(kind: u8) -> Option<&'static str>
    ensures { option_map (λ name. name.now) result ≡ establishment_name kind }
{
    match kind {
        0x01 => Some("ALERTING"),
        0x02 => Some("CALL PROCEEDING"),
        0x03 => Some("PROGRESS"),
        0x05 => Some("SETUP"),
        0x07 => Some("CONNECT"),
        0x0d => Some("SETUP ACKNOWLEDGE"),
        0x0f => Some("CONNECT ACKNOWLEDGE"),
        _ => None,
    }
}

/// Messages of the information phase of a call.
fn information_name(kind: u8) -> Option<&'static str>
    ensures { option_map (λ name. name.now) result ≡ information_name kind }
{
    match kind {
        0x20 => Some("USER INFORMATION"),
        0x21 => Some("SUSPEND REJECT"),
        0x22 => Some("RESUME REJECT"),
        0x25 => Some("SUSPEND"),
        0x26 => Some("RESUME"),
        0x2d => Some("SUSPEND ACKNOWLEDGE"),
        0x2e => Some("RESUME ACKNOWLEDGE"),
        _ => None,
    }
}

/// Messages of call clearing.
fn clearing_name(kind: u8) -> Option<&'static str>
    ensures { option_map (λ name. name.now) result ≡ clearing_name kind }
{
    match kind {
        0x45 => Some("DISCONNECT"),
        0x46 => Some("RESTART"),
        0x4d => Some("RELEASE"),
        0x4e => Some("RESTART ACKNOWLEDGE"),
        0x5a => Some("RELEASE COMPLETE"),
        _ => None,
    }
}

/// Other messages.
fn miscellaneous_name(kind: u8) -> Option<&'static str>
    ensures { option_map (λ name. name.now) result ≡ miscellaneous_name kind }
{
    match kind {
        0x60 => Some("SEGMENT"),
        0x6e => Some("NOTIFY"),
        0x75 => Some("STATUS ENQUIRY"),
        0x79 => Some("CONGESTION CONTROL"),
        0x7b => Some("INFORMATION"),
        0x7d => Some("STATUS"),
        _ => None,
    }
}
