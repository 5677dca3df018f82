//! The options of a command, as arguments of the parser.

use clap::{Arg, ArgAction};
use lapd_cli_help::help;
use lapd_cli_values::{AddressOption, NumberOption};
use std::alloc::Global;

/// The name of the files in the parser.
pub(crate) const FILES: &str = "files";

/// An option of a command.
#[derive(Clone, Copy)]
pub(crate) enum CommandOption {
    /// A flag: its name and its help text.
    Flag(&'static str, &'static str),
    /// An option with a file: its name and its help text.
    File(&'static str, &'static str),
    /// An option with a folder: its name and its help text.
    Folder(&'static str, &'static str),
    /// Files without an option's name, of any number.
    Files,
    /// An option with the name of a span: its name and its help text.
    Span(&'static str, &'static str),
    /// An option with a pattern, which may be repeated: its name and its help text.
    Patterns(&'static str, &'static str),
    /// An option with names, which may be repeated: its name and its help text.
    Names(&'static str, &'static str),
    /// An option with one of a few words.
    Word(WordOption),
    /// An option with one of a few words and no default.
    BareWord(WordOption),
    /// An option with several of a few words, with commas between. The parser accepts any text.
    Words(WordOption),
    /// An option with a number.
    Number(NumberOption),
    /// An option with a number and no default.
    BareNumber(NumberOption),
    /// An option with a number and no default, which may be repeated.
    Numbers(NumberOption),
    /// An option with an address.
    Address(AddressOption),
    /// A required option with an address.
    RequiredAddress(AddressOption),
}

/// An option whose value is one of a few words, or several.
#[derive(Clone, Copy)]
pub(crate) struct WordOption {
    /// The long name, without the hyphens.
    pub name: &'static str,
    /// The placeholder for the word in the help.
    pub value_name: &'static str,
    /// The help text.
    pub help: &'static str,
    /// The words.
    pub words: &'static [&'static str],
    /// The word if the option is absent.
    pub default: &'static str,
}

/// The option as an argument of the parser. The parser accepts any text for a number or several
/// words; a bad one is reported later, in this crate's own words.
pub(crate) fn arg_of<'a>(alloc: Global, option: &CommandOption) -> Arg<'a> {
    match option {
        CommandOption::Flag(name, help) => flag(alloc, name, help),
        CommandOption::File(name, help) => value_arg(alloc, name, "FILE", help),
        CommandOption::Folder(name, help) => value_arg(alloc, name, "DIR", help),
        CommandOption::Files => files_arg(alloc),
        CommandOption::Span(name, help) => value_arg(alloc, name, "SPAN", help),
        CommandOption::Patterns(name, help) => {
            value_arg(alloc, name, "PATTERN", help).action(ArgAction::Append)
        }
        CommandOption::Names(name, help) => {
            value_arg(alloc, name, "NAMES", help).action(ArgAction::Append)
        }
        CommandOption::Word(option) => word_arg(alloc, option),
        CommandOption::BareWord(option) => bare_word_arg(alloc, option),
        CommandOption::Words(option) => words_arg(alloc, option),
        CommandOption::Number(option) => number_arg(alloc, option),
        CommandOption::BareNumber(option) => bare_number_arg(alloc, option),
        CommandOption::Numbers(option) => numbers_arg(alloc, option),
        CommandOption::Address(option) => address_arg(alloc, option),
        CommandOption::RequiredAddress(option) => address_arg(alloc, option).required(true),
    }
}

// Files, each a word without an option.
fn files_arg<'a>(alloc: Global) -> Arg<'a> {
    Arg::new(alloc, FILES)
        .value_name("FILE")
        .help(help::FILES)
        .action(ArgAction::Append)
        .num_args(0..)
}

// An option with this name and no value.
fn flag<'a>(alloc: Global, name: &'static str, help: &'static str) -> Arg<'a> {
    named_arg(alloc, name, help).action(ArgAction::SetTrue)
}

// An option with this name and a value, with the value's placeholder and the help text.
fn value_arg<'a>(
    alloc: Global,
    name: &'static str,
    value_name: &'static str,
    help: &'static str,
) -> Arg<'a> {
    named_arg(alloc, name, help)
        .value_name(value_name)
        .action(ArgAction::Set)
}

// An option with this name and this help text.
fn named_arg<'a>(alloc: Global, name: &'static str, help: &'static str) -> Arg<'a> {
    Arg::new(alloc, name).long(name).help(help)
}

fn word_arg<'a>(alloc: Global, option: &WordOption) -> Arg<'a> {
    bare_word_arg(alloc, option).default_value(option.default)
}

fn bare_word_arg<'a>(alloc: Global, option: &WordOption) -> Arg<'a> {
    value_arg(alloc, option.name, option.value_name, option.help)
        .value_parser(option.words)
        .hide_possible_values(true)
}

fn words_arg<'a>(alloc: Global, option: &WordOption) -> Arg<'a> {
    value_arg(alloc, option.name, option.value_name, option.help).default_value(option.default)
}

fn number_arg<'a>(alloc: Global, option: &NumberOption) -> Arg<'a> {
    bare_number_arg(alloc, option).default_value(option.default)
}

// Accepts a number with a minus, which looks like an option, so that it is reported as a bad
// number.
fn bare_number_arg<'a>(alloc: Global, option: &NumberOption) -> Arg<'a> {
    value_arg(alloc, option.name, option.value_name, option.help).allow_negative_numbers(true)
}

fn numbers_arg<'a>(alloc: Global, option: &NumberOption) -> Arg<'a> {
    bare_number_arg(alloc, option).action(ArgAction::Append)
}

fn address_arg<'a>(alloc: Global, option: &AddressOption) -> Arg<'a> {
    value_arg(alloc, option.name, "ADDRESS", option.help)
}
