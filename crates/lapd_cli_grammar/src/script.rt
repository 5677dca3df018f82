//! The commands of the program that execute a script.

use std::fmt;

/// A command of the program that executes a script.
#[derive(Clone, Copy)]
pub enum Script {
    /// `lapd answer`
    Answer,
    /// `lapd bus`
    Bus,
    /// `lapd bus --links`
    BusLinks,
    /// `lapd decode`
    Decode,
    /// `lapd net --clock real`
    LiveNet,
    /// `lapd user --clock real`
    LiveUser,
    /// `lapd loop`
    Loop,
    /// `lapd net`, with the script's clock
    Net,
    /// `lapd pair`
    Pair,
    /// `lapd user`, with the script's clock
    User,
}

impl Script {
    /// The command's word on the command line; with `--links` if it has other lines then.
    pub fn name(self) -> &'static str {
        match self {
            Script::Answer => "answer",
            Script::Bus => "bus",
            Script::BusLinks => "bus --links",
            Script::Decode => "decode",
            Script::Loop => "loop",
            Script::Net | Script::LiveNet => "net",
            Script::Pair => "pair",
            Script::User | Script::LiveUser => "user",
        }
    }

    /// The same command with the real clock. `None` if it has no such form, or already uses the
    /// real clock.
    pub fn with_real_clock(self) -> Option<Script> {
        match self {
            Script::Net => Some(Script::LiveNet),
            Script::User => Some(Script::LiveUser),
            _ => None,
        }
    }

    /// Whether the command uses the real clock.
    pub fn has_real_clock(self) -> bool {
        matches!(self, Script::LiveNet | Script::LiveUser)
    }
}

impl fmt::Display for Script {
    fn fmt<W: fmt::Write>(&self, f: &mut fmt::Formatter<W>) -> fmt::Result {
        f.write_str(self.name())
    }
}
