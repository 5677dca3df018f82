//! The options of the commands, in the order of the help. Each table is a list of groups; some
//! groups are shared.

use crate::command_option::{CommandOption, WordOption};
use lapd_cli_help::{conform_help, help};
use lapd_cli_values::{
    AUDIT, AddressOption, CONNECT, CONNECTED_TERMINALS, COUNT, FIXED_TEI, FOLLOWED_K, GSMTAP,
    IDLE_LIMIT, K, KNOWN_TEI, LINK_TEI, LINKS_K, LISTEN, N200, NumberOption, PRINTED_CALL,
    PRINTED_SAPI, PRINTED_TEI, ROOM, SEED, T200, T201, T202, T203, TERMINALS,
};

/// The options of `answer`.
pub(crate) const ANSWER: &[&[CommandOption]] = &[
    EACH,
    &[
        CommandOption::Word(SIDE),
        CommandOption::Word(SAPI),
        CommandOption::Number(LINK_TEI),
    ],
    NUMBERS,
    &[CommandOption::Word(RECOVERY)],
];

/// The options of `bus`.
pub(crate) const BUS: &[&[CommandOption]] = &[
    EACH,
    &[
        CommandOption::Number(TERMINALS),
        CommandOption::Flag("links", help::LINKS),
        CommandOption::Flag("ladder", help::BUS_LADDER),
    ],
];

/// The options of `pair`.
pub(crate) const PAIR: &[&[CommandOption]] = &[
    EACH,
    NUMBERS,
    RECOVERIES,
    &[CommandOption::Flag("ladder", help::PAIR_LADDER)],
];

/// The options of `loop`.
pub(crate) const LOOP: &[&[CommandOption]] = &[EACH, NUMBERS, RECOVERIES];

/// The options of `net`.
pub(crate) const NET: &[&[CommandOption]] = &[
    EACH,
    &[
        CommandOption::RequiredAddress(LISTEN),
        CommandOption::Flag("pri", help::PRI),
        CommandOption::Numbers(KNOWN_TEI),
    ],
    INTERFACE,
    LIVE,
    &[
        CommandOption::Flag("clear", help::CLEAR),
        CommandOption::BareNumber(CONNECTED_TERMINALS),
        CommandOption::BareNumber(AUDIT),
        CommandOption::Flag("no-audit", help::NO_AUDIT),
        CommandOption::Flag("no-ties", help::NO_TIES),
    ],
];

/// The options of `user`.
pub(crate) const USER: &[&[CommandOption]] = &[
    EACH,
    &[
        CommandOption::RequiredAddress(CONNECT),
        CommandOption::Flag("pri", help::PRI),
        CommandOption::BareNumber(FIXED_TEI),
    ],
    INTERFACE,
    LIVE,
];

/// The options of `decode`.
pub(crate) const DECODE: &[&[CommandOption]] = &[
    EACH,
    &[
        CommandOption::Files,
        CommandOption::Flag("loose", help::LOOSE),
        CommandOption::BareWord(SENDER),
        CommandOption::Span("span", help::SPAN),
        CommandOption::Flag("names", help::NAMES),
        CommandOption::Flag("no-octets", help::NO_OCTETS),
        CommandOption::Flag("json", help::JSON),
        CommandOption::Flag("keep-going", help::KEEP_GOING),
        CommandOption::File("pcap", help::PCAP),
        CommandOption::Flag("follow", help::FOLLOW),
        CommandOption::Flag("ladder", help::LADDER),
        CommandOption::File("svg", help::SVG),
        CommandOption::File("html", help::HTML),
        CommandOption::File("write", help::WRITE),
        CommandOption::Flag("calls", help::CALLS),
        CommandOption::Flag("summary", help::SUMMARY),
        CommandOption::Flag("violations", help::VIOLATIONS),
        CommandOption::BareNumber(FOLLOWED_K),
        CommandOption::Word(FRAME_TIME),
        CommandOption::BareNumber(COUNT),
        CommandOption::BareNumber(PRINTED_SAPI),
        CommandOption::BareNumber(PRINTED_TEI),
        CommandOption::BareNumber(PRINTED_CALL),
        CommandOption::Words(KINDS),
        CommandOption::Flag("no-polls", help::NO_POLLS),
        CommandOption::Flag("any-sapi", help::ANY_SAPI),
        CommandOption::Word(COLOR),
    ],
];

/// The options of `conform`.
pub(crate) const CONFORM: &[&[CommandOption]] = &[&[
    CommandOption::Address(STACK_CONNECT),
    CommandOption::Address(STACK_LISTEN),
    CommandOption::BareWord(OF),
    CommandOption::File("stack", conform_help::STACK),
    CommandOption::Address(UPPER),
    CommandOption::Patterns("cases", conform_help::CASES),
    CommandOption::File("suite", conform_help::SUITE),
    CommandOption::Names("known", conform_help::KNOWN),
    CommandOption::BareNumber(DRAW),
    CommandOption::BareNumber(DRAW_SEED),
    CommandOption::Flag("anew", conform_help::ANEW),
    CommandOption::Folder("report", conform_help::REPORT),
    CommandOption::File("junit", conform_help::JUNIT),
    CommandOption::Flag("json", conform_help::JSON),
    CommandOption::Flag("print", conform_help::PRINT),
]];

/// The option that all commands with a script have.
const EACH: &[CommandOption] = &[CommandOption::Flag("strict", help::STRICT)];

/// The numbers of a link's parameters.
const NUMBERS: &[CommandOption] = &[
    CommandOption::Number(K),
    CommandOption::Number(N200),
    CommandOption::Number(ROOM),
];

/// The recoveries of two ends.
const RECOVERIES: &[CommandOption] = &[
    CommandOption::Word(RECOVERY_USER),
    CommandOption::Word(RECOVERY_NET),
];

/// The options of an interface, after its TEIs.
const INTERFACE: &[CommandOption] = &[
    CommandOption::Flag("sapi16", help::SAPI16),
    CommandOption::BareNumber(LINKS_K),
    CommandOption::Number(N200),
    CommandOption::Number(ROOM),
    CommandOption::Word(RECOVERY),
    CommandOption::Number(T200),
    CommandOption::Number(T201),
    CommandOption::Number(T202),
    CommandOption::Number(T203),
    CommandOption::BareNumber(SEED),
];

/// The options of a side's output, of its clock, and of the real clock.
const LIVE: &[CommandOption] = &[
    CommandOption::Flag("json", help::SIDE_JSON),
    CommandOption::BareWord(CLOCK),
    CommandOption::Flag("time", help::TIME),
    CommandOption::Flag("quiet", help::QUIET),
    CommandOption::Flag("serve", help::SERVE),
    CommandOption::Flag("keep", help::KEEP),
    CommandOption::BareNumber(IDLE_LIMIT),
    CommandOption::File("pcap", help::LIVE_PCAP),
    CommandOption::File("ladder", help::LIVE_LADDER),
    CommandOption::Address(GSMTAP),
];

/// The side of the link of `answer`.
const SIDE: WordOption = WordOption {
    name: "side",
    value_name: "SIDE",
    help: "The side of the link, net or user",
    words: &["net", "user"],
    default: "net",
};

/// The sender that `decode` assumes. There is no default.
const SENDER: WordOption = WordOption {
    name: "sender",
    help: help::SENDER,
    default: "",
    ..SIDE
};

/// The time before each trace line that `decode` prints of a capture or a log.
const FRAME_TIME: WordOption = WordOption {
    name: "time",
    value_name: "TIME",
    help: help::FRAME_TIME,
    words: &[
        "none", "absolute", "relative", "delta", "day", "utc", "local",
    ],
    default: "none",
};

/// The kinds of the frames that `decode` prints.
pub(crate) const KINDS: WordOption = WordOption {
    name: "kinds",
    value_name: "KINDS",
    help: help::KINDS,
    words: &["i", "s", "u"],
    default: "i,s,u",
};

/// Whether `decode` prints lines in colors.
const COLOR: WordOption = WordOption {
    name: "color",
    value_name: "WHEN",
    help: help::COLOR,
    words: &["auto", "always", "never"],
    default: "auto",
};

/// The SAPI of a link.
const SAPI: WordOption = WordOption {
    name: "sapi",
    value_name: "SAPI",
    help: help::SAPI,
    words: &["0", "16"],
    default: "0",
};

/// The recovery of a link, or of all links of an interface.
const RECOVERY: WordOption = WordOption {
    name: "recovery",
    value_name: "RECOVERY",
    help: help::RECOVERY,
    words: &["enquiry", "last"],
    default: "enquiry",
};

/// The recovery of the user side of `pair` and `loop`.
const RECOVERY_USER: WordOption = WordOption {
    name: "recovery-user",
    help: help::RECOVERY_USER,
    ..RECOVERY
};

/// The recovery of the network side of `pair` and `loop`.
const RECOVERY_NET: WordOption = WordOption {
    name: "recovery-net",
    help: help::RECOVERY_NET,
    ..RECOVERY
};

/// The clock of a side.
const CLOCK: WordOption = WordOption {
    name: "clock",
    value_name: "CLOCK",
    help: help::CLOCK,
    words: &["script", "real"],
    default: "",
};

/// The address at which the stack under test listens.
pub(crate) const STACK_CONNECT: AddressOption = AddressOption {
    name: "connect",
    help: conform_help::CONNECT,
};

/// The address to which the stack under test connects.
pub(crate) const STACK_LISTEN: AddressOption = AddressOption {
    name: "listen",
    help: conform_help::LISTEN,
};

/// The address at which the upper tester listens.
pub(crate) const UPPER: AddressOption = AddressOption {
    name: "upper",
    help: conform_help::UPPER,
};

/// The number of drawn stimuli.
pub(crate) const DRAW: NumberOption = NumberOption {
    name: "draw",
    value_name: "STIMULI",
    help: conform_help::DRAW,
    default: "",
    least: 1,
    most: 1_000_000,
};

/// The seed of drawn stimuli.
pub(crate) const DRAW_SEED: NumberOption = NumberOption {
    name: "seed",
    value_name: "NUMBER",
    help: conform_help::SEED,
    default: "",
    least: 0,
    most: 18_446_744_073_709_551_615,
};

/// The side that is tested.
const OF: WordOption = WordOption {
    name: "of",
    help: conform_help::OF,
    default: "",
    ..SIDE
};
