ghost use Rattle.std.specs.Prelude.{◌≡◌, ◌++◌, OnOk};
ghost use Rattle.std.specs.String.{string_bytes};
ghost use Rattle.lapd_cli_render.specs.Elements.{basic_channel, channel_at, channel_name, indicated_channel, other_channel};

use std::alloc::AllocError;

/// The channel that a message names (ITU-T Q.931 4.5.13).
#[derive(Clone, Copy, Debug)]
pub(crate) enum Channel {
    NoChannel,
    /// The B channels of a basic interface.
    B1,
    B2,
    AnyChannel,
    /// The channel with this number, 0 to 127, of another interface.
    Number(u8),
}

impl Channel {
    /// Reads the contents of a channel identification, from its octet 3 on. Returns `None` if they
    /// are too short, or if they name the channel by an interface identifier or a map.
    pub(crate) fn read(contents: &[u8]) -> Option<Channel>
        ensures { result ≡ channel_at contents.now }
    {
        let [third, rest @ ..] = contents else {
            return None;
        };
        if *third / 32 % 2 == 0 {
            Some(basic_channel(*third % 4))
        } else {
            other_channel(*third, rest)
        }
    }

    /// Appends the name or the number of the channel.
    pub(crate) fn push(self, text: &mut String) -> Result<(), AllocError>
        ensures { OnOk result (string_bytes text.new
            ≡ string_bytes text.old ++ channel_name self) }
    {
        match self {
            Channel::NoChannel => text.push_str("none"),
            Channel::B1 => text.push_str("B1"),
            Channel::B2 => text.push_str("B2"),
            Channel::AnyChannel => text.push_str("any"),
            Channel::Number(number) => write!(text, "{number}"),
        }
    }
}

/// The channel of a basic interface, by bits 2 and 1 of octet 3.
fn basic_channel(selection: u8) -> Channel
    ensures { result ≡ basic_channel selection }
{
    match selection {
        0 => Channel::NoChannel,
        1 => Channel::B1,
        2 => Channel::B2,
        _ => Channel::AnyChannel,
    }
}

/// The channel of another interface, by octet 3 and the octets after it.
fn other_channel(third: u8, octets: &[u8]) -> Option<Channel>
    ensures { result ≡ other_channel third octets.now }
{
    let is_implicit = third / 64 % 2 == 0;
    match third % 4 {
        0 => Some(Channel::NoChannel),
        3 => Some(Channel::AnyChannel),
        1 if is_implicit => indicated_channel(octets),
        _ => None,
    }
}

/// The channel by its number, in octets 3.2 and 3.3.
fn indicated_channel(octets: &[u8]) -> Option<Channel>
    ensures { result ≡ indicated_channel octets.now }
{
    match octets {
        [coded, number, ..] if *coded / 16 % 2 == 0 => Some(Channel::Number(*number % 128)),
        _ => None,
    }
}
