ghost use Rattle.std.specs.Prelude.{◌≡◌};
ghost use Rattle.lapd_filter.specs.Filter.{is_kind_requested, is_poll, is_requested, sapi_in, takes, tei_in};

/// Which frames are printed, by their address (Q.921 3.3) and control field (3.4).
#[derive(Clone, Copy, Debug, PartialEq, Eq)]
pub struct Filter {
    /// The SAPI, 0 to 63; any if `None`.
    pub sapi: Option<u8>,
    /// The TEI, 0 to 127; any if `None`.
    pub tei: Option<u8>,
    /// Whether I frames are printed.
    pub i: bool,
    /// Whether supervisory frames are printed.
    pub s: bool,
    /// Whether unnumbered frames are printed.
    pub u: bool,
    /// Whether supervisory frames with P or F 1 are printed.
    pub polls: bool,
    /// The call reference of a message of Q.931, 0 to 32,767; any, and none, if `None`. This and the
    /// next field are not looked at by [`Filter::takes`], which takes other frames as well.
    pub call: Option<u16>,
    /// Whether only frames that violate Q.921 are printed.
    pub only_violations: bool,
}

impl Filter {
    /// All frames.
    pub const ALL: Filter = Filter {
        sapi: None,
        tei: None,
        i: true,
        s: true,
        u: true,
        polls: true,
        call: None,
        only_violations: false,
    };

    /// Whether a frame of these octets is printed. Octets that are too short for what is requested
    /// are not.
    pub fn takes(&self, octets: &[u8]) -> bool
        ensures { result ≡ takes self.now octets.now }
    {
        is_requested(self.sapi, sapi_in(octets))
            && is_requested(self.tei, tei_in(octets))
            && self.is_kind_requested(octets.get(2).copied())
            && (self.polls || !is_poll(octets.get(2).copied(), octets.get(3).copied()))
    }

    /// Whether frames of the kind of this control octet are printed.
    fn is_kind_requested(&self, control: Option<u8>) -> bool
        ensures { result ≡ is_kind_requested self.now control }
    {
        match control {
            None => self.i && self.s && self.u,
            Some(control) => {
                if control % 2 == 0 {
                    self.i
                } else if control % 4 == 1 {
                    self.s
                } else {
                    self.u
                }
            }
        }
    }
}

/// Whether this number was found, if one is requested.
fn is_requested(number: Option<u8>, found: Option<u8>) -> bool
    ensures { result ≡ is_requested number found }
{
    match (number, found) {
        (None, _) => true,
        (Some(_), None) => false,
        (Some(number), Some(found)) => number == found,
    }
}

/// The SAPI in these octets.
fn sapi_in(octets: &[u8]) -> Option<u8>
    ensures { result ≡ sapi_in octets.now }
{
    match octets.first().copied() {
        None => None,
        Some(octet) => Some(octet / 4),
    }
}

/// The TEI in these octets.
fn tei_in(octets: &[u8]) -> Option<u8>
    ensures { result ≡ tei_in octets.now }
{
    match octets.get(1).copied() {
        None => None,
        Some(octet) => Some(octet / 2),
    }
}

/// Whether these control octets are those of a supervisory frame with P or F 1.
fn is_poll(first: Option<u8>, second: Option<u8>) -> bool
    ensures { result ≡ is_poll first second }
{
    match (first, second) {
        (Some(first), Some(second)) => first % 4 == 1 && second % 2 == 1,
        (Some(_), None) | (None, _) => false,
    }
}
