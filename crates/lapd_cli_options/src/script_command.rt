//! The commands that execute a script: their names, their help and their options.

use crate::command_option::CommandOption;
use crate::option_tables;
use lapd_cli_help::{command_help, decode_help, help, side_help};

/// A command that executes a script.
#[derive(Clone, Copy, PartialEq, Eq)]
pub(crate) enum ScriptCommand {
    Answer,
    Bus,
    Pair,
    Loop,
    Net,
    User,
    Decode,
}

/// All commands, in the order of the help.
pub(crate) const COMMANDS: [ScriptCommand; 7] = [
    ScriptCommand::Answer,
    ScriptCommand::Bus,
    ScriptCommand::Pair,
    ScriptCommand::Loop,
    ScriptCommand::Net,
    ScriptCommand::User,
    ScriptCommand::Decode,
];

impl ScriptCommand {
    /// The command with this name, if it exists.
    pub(crate) fn named(name: &str) -> Option<ScriptCommand> {
        for command in COMMANDS {
            if command.name() == name {
                return Some(command);
            }
        }
        None
    }

    /// The command's name on the command line.
    pub(crate) fn name(self) -> &'static str {
        match self {
            ScriptCommand::Answer => "answer",
            ScriptCommand::Bus => "bus",
            ScriptCommand::Pair => "pair",
            ScriptCommand::Loop => "loop",
            ScriptCommand::Net => "net",
            ScriptCommand::User => "user",
            ScriptCommand::Decode => "decode",
        }
    }

    /// The command's description.
    pub(crate) fn about(self) -> &'static str {
        match self {
            ScriptCommand::Answer => help::ANSWER_ABOUT,
            ScriptCommand::Bus => help::BUS_ABOUT,
            ScriptCommand::Pair => help::PAIR_ABOUT,
            ScriptCommand::Loop => help::LOOP_ABOUT,
            ScriptCommand::Net => help::NET_ABOUT,
            ScriptCommand::User => help::USER_ABOUT,
            ScriptCommand::Decode => help::DECODE_ABOUT,
        }
    }

    /// The text that ends the command's long help.
    pub(crate) fn after_long_help(self) -> &'static str {
        match self {
            ScriptCommand::Answer => command_help::ANSWER,
            ScriptCommand::Bus => command_help::BUS,
            ScriptCommand::Pair => command_help::PAIR,
            ScriptCommand::Loop => command_help::LOOP,
            ScriptCommand::Net => side_help::NET,
            ScriptCommand::User => side_help::USER,
            ScriptCommand::Decode => decode_help::DECODE,
        }
    }

    /// The command's options in the order of the help, in groups that commands share.
    pub(crate) fn options(self) -> &'static [&'static [CommandOption]] {
        match self {
            ScriptCommand::Answer => option_tables::ANSWER,
            ScriptCommand::Bus => option_tables::BUS,
            ScriptCommand::Pair => option_tables::PAIR,
            ScriptCommand::Loop => option_tables::LOOP,
            ScriptCommand::Net => option_tables::NET,
            ScriptCommand::User => option_tables::USER,
            ScriptCommand::Decode => option_tables::DECODE,
        }
    }
}
