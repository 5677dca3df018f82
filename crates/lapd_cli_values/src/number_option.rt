//! The options whose value is a number.

ghost use Rattle.std.specs.Prelude.{◌↔◌, IsTrue};
ghost use Rattle.lapd_cli_values.specs.Options.{IsNumberFrom};

use crate::numbers::number_of;

/// An option whose value is a number in a range, in decimal digits.
#[derive(Clone, Copy, Debug)]
pub struct NumberOption {
    /// The long name, without the hyphens.
    pub name: &'static str,
    /// The placeholder for the number in the help.
    pub value_name: &'static str,
    /// The help text, with the range.
    pub help: &'static str,
    /// The number if the option is absent.
    pub default: &'static str,
    /// The first number of its range.
    pub least: u64,
    /// The last number of its range.
    pub most: u64,
}

/// The window k (Q.921 5.9.5).
pub const K: NumberOption = NumberOption {
    name: "k",
    value_name: "FRAMES",
    help: "\
The most outstanding I frames, the window k, 1
to 127",
    default: "1",
    least: 1,
    most: 127,
};

/// N200, the most retransmissions of a frame (Q.921 5.9.2).
pub const N200: NumberOption = NumberOption {
    name: "n200",
    value_name: "TIMES",
    help: "\
The most retransmissions of a frame, N200, 1
to 100",
    default: "3",
    least: 1,
    most: 100,
};

/// The capacity of the I queue.
pub const ROOM: NumberOption = NumberOption {
    name: "room",
    value_name: "MESSAGES",
    help: "\
The most messages in the I queue, 1 to
1024",
    default: "512",
    least: 1,
    most: 1024,
};

/// The number of terminals of the command `bus`.
pub const TERMINALS: NumberOption = NumberOption {
    name: "terminals",
    value_name: "TERMINALS",
    help: "\
The number of terminals on the bus, 1 to
127",
    default: "2",
    least: 1,
    most: 127,
};

/// The number of terminals that the network side accepts. The default is one.
pub const CONNECTED_TERMINALS: NumberOption = NumberOption {
    name: "terminals",
    value_name: "TERMINALS",
    help: "\
With --clock real, the number of connections that
are accepted, each of a terminal on the bus, 1 to
127 [default: 1]",
    default: "",
    least: 1,
    most: 127,
};

/// How long a connection may go without sending a whole frame before it is closed. By default there
/// is no limit.
pub const IDLE_LIMIT: NumberOption = NumberOption {
    name: "idle-limit",
    value_name: "MS",
    help: "\
With --clock real, closes a connection that has
sent no whole frame for this many milliseconds, 1
to 3600000",
    default: "",
    least: 1,
    most: 3_600_000,
};

/// The interval between two audits of the TEIs of a bus (Q.921 5.3.3). The default is 60,000.
pub const AUDIT: NumberOption = NumberOption {
    name: "audit",
    value_name: "MS",
    help: "\
With --terminals above 1 or --keep, the
milliseconds from one audit of the terminals'
TEIs to the next, 1 to 3600000 [default: 60000]",
    default: "",
    least: 1,
    most: 3_600_000,
};

/// The TEI of the link of the command `answer` (Q.921 3.3.4).
pub const LINK_TEI: NumberOption = NumberOption {
    name: "tei",
    value_name: "TEI",
    help: "The TEI of the link, 0 to 126",
    default: "64",
    least: 0,
    most: 126,
};

/// A TEI that the network side knows from the start. The option may be repeated, and has no
/// default.
pub const KNOWN_TEI: NumberOption = NumberOption {
    name: "tei",
    value_name: "TEI",
    help: "\
A TEI that is known from the start, 0 to 126; may
be repeated",
    default: "",
    least: 0,
    most: 126,
};

/// The fixed TEI of the user side. It has no default.
pub const FIXED_TEI: NumberOption = NumberOption {
    name: "tei",
    value_name: "TEI",
    help: "\
The fixed TEI of this side, 0 to 126; the side then
requests none",
    default: "",
    least: 0,
    most: 126,
};

/// The window of all links of an interface (Q.921 5.9.5). The default depends on the rate and the
/// SAPI.
pub const LINKS_K: NumberOption = NumberOption {
    name: "k",
    value_name: "FRAMES",
    help: "\
The most outstanding I frames of a link, the
window k, 1 to 127 [default: 1 for SAPI 0 and 3
for SAPI 16; with --pri 7]",
    default: "",
    least: 1,
    most: 127,
};

/// The window of all links that `decode --follow` reads (Q.921 5.9.5). By default the greatest one,
/// 127, is checked.
pub const FOLLOWED_K: NumberOption = NumberOption {
    name: "k",
    value_name: "FRAMES",
    help: "\
With --follow, the window k of all links, 1 to 127; if
absent, 127",
    default: "",
    least: 1,
    most: 127,
};

/// After how many printed frames the output of `decode` ends. By default it does not.
pub const COUNT: NumberOption = NumberOption {
    name: "count",
    value_name: "FRAMES",
    help: "\
Ends after this many frames were printed, 1 to
18446744073709551615; if absent, at the end of the input",
    default: "",
    least: 1,
    most: 18_446_744_073_709_551_615,
};

/// The SAPI of the frames that `decode` prints (Q.921 3.3.3). By default all are printed.
pub const PRINTED_SAPI: NumberOption = NumberOption {
    name: "sapi",
    value_name: "SAPI",
    help: "Prints only frames with this SAPI, 0 to 63",
    default: "",
    least: 0,
    most: 63,
};

/// The TEI of the frames that `decode` prints (Q.921 3.3.4). By default all are printed.
pub const PRINTED_TEI: NumberOption = NumberOption {
    name: "tei",
    value_name: "TEI",
    help: "Prints only frames with this TEI, 0 to 127",
    default: "",
    least: 0,
    most: 127,
};

/// The call reference of the frames that `decode` prints.
pub const PRINTED_CALL: NumberOption = NumberOption {
    name: "call",
    value_name: "NUMBER",
    help: "\
Prints only frames with a message of Q.931 that has this
call reference, 0 to 32767",
    default: "",
    least: 0,
    most: 32_767,
};

/// The duration of T200 (Q.921 5.9.1).
pub const T200: NumberOption = NumberOption {
    name: "t200",
    value_name: "MS",
    help: "\
How long T200 runs before a frame is sent again,
in milliseconds, 1 to 3600000",
    default: "1000",
    least: 1,
    most: 3_600_000,
};

/// The duration of T201 (Q.921 5.9.6).
pub const T201: NumberOption = NumberOption {
    name: "t201",
    value_name: "MS",
    help: "\
How long T201 of the network side runs before a
TEI is checked again, in milliseconds, 1 to
3600000",
    default: "1000",
    least: 1,
    most: 3_600_000,
};

/// The duration of T202 (Q.921 5.9.7).
pub const T202: NumberOption = NumberOption {
    name: "t202",
    value_name: "MS",
    help: "\
How long T202 of the user side runs before a TEI
is requested again, in milliseconds, 1 to
3600000",
    default: "2000",
    least: 1,
    most: 3_600_000,
};

/// The duration of T203 (Q.921 5.9.8).
pub const T203: NumberOption = NumberOption {
    name: "t203",
    value_name: "MS",
    help: "\
How long T203 runs on an idle link before an
enquiry is sent, in milliseconds, 1 to
3600000",
    default: "10000",
    least: 1,
    most: 3_600_000,
};

/// The seed of the reference numbers of TEI management (Q.921 5.3.1.1). The default depends on the
/// clock.
pub const SEED: NumberOption = NumberOption {
    name: "seed",
    value_name: "NUMBER",
    help: "\
The seed of the user side's references of TEI
management, 0 to 18446744073709551615 [default:
921; with --clock real drawn from the system]",
    default: "",
    least: 0,
    most: 18_446_744_073_709_551_615,
};

impl NumberOption {
    /// Whether the text is a number in the option's range, in decimal digits.
    pub fn takes(self, written: &str) -> bool
        ensures { IsTrue result ↔ IsNumberFrom self.least self.most written.now }
    {
        match number_of(written) {
            Some(number) => self.least <= number && number <= self.most,
            None => false,
        }
    }
}
