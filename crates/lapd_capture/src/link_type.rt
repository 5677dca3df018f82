ghost use Rattle.std.specs.Prelude.{◌≡◌};
ghost use Rattle.lapd_capture.specs.Packet.{link_type_of};
ghost use Rattle.lapd_capture.specs.Reading.{unserved};

/// The headers before each frame of an interface (tcpdump's link types).
#[derive(Clone, Copy, Default, PartialEq, Eq)]
pub enum LinkType {
    /// LINKTYPE_LINUX_LAPD, 177: 16 octets, which say who sent the frame.
    #[default]
    LinuxLapd,
    /// LINKTYPE_LAPD, 203: no header, so the sender of a frame is unknown.
    Lapd,
    /// LINKTYPE_ETHERNET, 1: Ethernet, perhaps VLAN tags, IPv4 or IPv6, UDP and GSMTAP.
    Ethernet,
    /// LINKTYPE_RAW, 101, and 12 on most systems, LINKTYPE_IPV4, 228, and LINKTYPE_IPV6, 229: IPv4
    /// or IPv6, UDP and GSMTAP.
    Ip,
    /// LINKTYPE_NULL, 0, and LINKTYPE_LOOP, 108: four octets of the protocol family, then the same.
    Loopback,
    /// LINKTYPE_LINUX_SLL, 113, of all interfaces of Linux: 16 octets with a protocol, then a frame
    /// as in LINKTYPE_LINUX_LAPD, or what follows the addresses of Ethernet.
    Cooked,
    /// LINKTYPE_LINUX_SLL2, 276: the same with 20 octets.
    Cooked2,
    /// Any other link type, with its number: its packets are skipped.
    NotServed(usize),
}

impl LinkType {
    /// The link type with this number.
    pub fn of(number: usize) -> LinkType
        ensures { result ≡ link_type_of number }
    {
        match number {
            177 => LinkType::LinuxLapd,
            203 => LinkType::Lapd,
            1 => LinkType::Ethernet,
            12 | 101 | 228 | 229 => LinkType::Ip,
            0 | 108 => LinkType::Loopback,
            113 => LinkType::Cooked,
            276 => LinkType::Cooked2,
            _ => LinkType::NotServed(number),
        }
    }
    /// The number of the link type, if frames can't be read from it.
    pub(crate) fn unserved(self) -> Option<usize>
        ensures { result ≡ unserved self }
    {
        match self {
            LinkType::NotServed(number) => Some(number),
            LinkType::LinuxLapd
            | LinkType::Lapd
            | LinkType::Ethernet
            | LinkType::Ip
            | LinkType::Loopback
            | LinkType::Cooked
            | LinkType::Cooked2 => None,
        }
    }
}
