//! The parser of the program's words: its commands, their options, and the help texts.

use crate::command_option::{CommandOption, arg_of};
use crate::no_invocation::{NoInvocation, refused_by_parser};
use crate::script_command::{COMMANDS, ScriptCommand};
use crate::{conform_options, option_tables};
use clap::error::ErrorKind;
use clap::{Arg, ArgMatches, Command, Error};
use lapd_cli_help::{conform_help, help};
use std::alloc::{AllocError, Global};
use strsim::osa_distance;

/// The version of the program, the C library and the crates, as in CHANGELOG.md.
pub const VERSION: &str = "0.3.0";

/// The text for an unknown command, with the closest known command.
pub(crate) fn unknown_command<'a>(
    alloc: Global,
    program: &mut Command<'a>,
    word: &str,
) -> NoInvocation<'a> {
    let error = unknown_error(alloc, program, word);
    match &error {
        Ok(error) => refused_by_parser(alloc, error),
        Err(_) => NoInvocation::Memory,
    }
}

fn unknown_error(
    alloc: Global,
    program: &mut Command<'_>,
    word: &str,
) -> Result<Error, AllocError> {
    let message = unknown_text(alloc, word)?;
    program.error(ErrorKind::InvalidSubcommand, message.as_str())
}

fn unknown_text(alloc: Global, word: &str) -> Result<String, AllocError> {
    match near_command(alloc, word)? {
        Some(command) => format!(in alloc;
            "unrecognized subcommand '{word}'\n\n  tip: a similar subcommand exists: '{command}'"
        ),
        None if word.contains('.') => format!(in alloc;
            "unrecognized subcommand '{word}'\n\n  tip: lapd decode {word} prints the frames of a file"
        ),
        None => format!(in alloc; "unrecognized subcommand '{word}'"),
    }
}

// The first command that differs from this word in at most one of three letters.
fn near_command(alloc: Global, word: &str) -> Result<Option<&'static str>, AllocError> {
    for command in COMMANDS {
        if osa_distance(alloc, word, command.name())? <= word.len() / 3 {
            return Ok(Some(command.name()));
        }
    }
    if osa_distance(alloc, word, conform_options::NAME)? <= word.len() / 3 {
        return Ok(Some(conform_options::NAME));
    }
    Ok(None)
}

/// The parser of all words. It accepts any word as a command; an unknown one is reported later, in
/// this crate's own words.
pub(crate) fn program<'a>(alloc: Global) -> Result<Command<'a>, AllocError> {
    let mut commands = Vec::new(alloc);
    push_commands(alloc, &mut commands)?;
    let program = with_texts(Command::new(alloc, "lapd"));
    with_commands(program, commands)?.bin_name("lapd")
}

// The program with its texts; it requires a command.
fn with_texts<'a>(program: Command<'a>) -> Command<'a> {
    program
        .about(help::ABOUT)
        .version(VERSION)
        .after_help(help::SHORT_PROGRAM)
        .after_long_help(help::PROGRAM)
        .override_usage("lapd [COMMAND]")
        .subcommand_required(true)
        .allow_external_subcommands(true)
}

fn with_commands<'a>(
    program: Command<'a>,
    commands: Vec<Command<'a>>,
) -> Result<Command<'a>, AllocError> {
    program.subcommands(commands)
}

fn push_commands<'a>(alloc: Global, commands: &mut Vec<Command<'a>>) -> Result<(), AllocError> {
    for command in COMMANDS {
        push_command(alloc, commands, command)?;
    }
    push_conform(alloc, commands)
}

fn push_conform<'a>(alloc: Global, commands: &mut Vec<Command<'a>>) -> Result<(), AllocError> {
    commands.push(conform(alloc)?)?;
    Ok(())
}

// The command `conform`, which reads no script.
fn conform<'a>(alloc: Global) -> Result<Command<'a>, AllocError> {
    let mut args = Vec::new(alloc);
    push_groups(alloc, &mut args, option_tables::CONFORM)?;
    let command = Command::new(alloc, conform_options::NAME)
        .about(conform_help::ABOUT)
        .after_help(conform_help::SHORT)
        .after_long_help(conform_help::CONFORM);
    with_args(command, args)
}

fn push_command<'a>(
    alloc: Global,
    commands: &mut Vec<Command<'a>>,
    command: ScriptCommand,
) -> Result<(), AllocError> {
    commands.push(command_of(alloc, command)?)?;
    Ok(())
}

fn command_of<'a>(alloc: Global, command: ScriptCommand) -> Result<Command<'a>, AllocError> {
    let mut args = Vec::new(alloc);
    push_groups(alloc, &mut args, command.options())?;
    let (about, after_long_help) = (command.about(), command.after_long_help());
    with_args(
        described(alloc, command.name(), about, after_long_help),
        args,
    )
}

// A command without options: its name, its description and the text that ends its help.
fn described<'a>(
    alloc: Global,
    name: &'static str,
    about: &'static str,
    after_long_help: &'static str,
) -> Command<'a> {
    Command::new(alloc, name)
        .about(about)
        .after_help(help::SHORT)
        .after_long_help(after_long_help)
}

fn with_args<'a>(command: Command<'a>, args: Vec<Arg<'a>>) -> Result<Command<'a>, AllocError> {
    command.args(args)
}

fn push_groups<'a>(
    alloc: Global,
    args: &mut Vec<Arg<'a>>,
    groups: &[&[CommandOption]],
) -> Result<(), AllocError> {
    for group in groups {
        push_group(alloc, args, group)?;
    }
    Ok(())
}

fn push_group<'a>(
    alloc: Global,
    args: &mut Vec<Arg<'a>>,
    group: &[CommandOption],
) -> Result<(), AllocError> {
    for option in group {
        args.push(arg_of(alloc, option))?;
    }
    Ok(())
}

/// Whether the exit status reports refused lines.
pub(crate) fn is_strict(given: &ArgMatches<'_>) -> bool {
    given.get_flag("strict")
}
