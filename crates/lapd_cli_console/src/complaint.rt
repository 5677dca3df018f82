//! Complaints about the form of a line.

use crate::shown::Shown;
use lapd_cli_grammar::{Argument, Form, FormFault, Forms, Script, form_of, forms};
use std::fmt;

/// A complaint about the form of a line.
#[derive(Clone, Copy)]
pub(crate) enum Complaint<'a> {
    /// Not all of its octets are UTF-8.
    NotUtf8,
    /// Its last octet is a carriage return.
    CarriageReturn,
    /// It has a tab.
    Tab,
    /// Its first octet is a space.
    SpaceAtFront,
    /// Its last octet is a space.
    SpaceAtEnd,
    /// Two spaces follow each other.
    TwoSpaces,
    /// It has no form of this command's.
    Form(Script, FormFault<'a>),
}

impl fmt::Display for Complaint<'_> {
    fn fmt<W: fmt::Write>(&self, f: &mut fmt::Formatter<W>) -> fmt::Result {
        match self {
            Complaint::NotUtf8 => f.write_str("the line is not UTF-8"),
            Complaint::CarriageReturn => f.write_str("the line ends with a carriage return"),
            Complaint::Tab => f.write_str(
                "the line contains a tab; separate words by single spaces",
            ),
            Complaint::SpaceAtFront => f.write_str("the line begins with a space"),
            Complaint::SpaceAtEnd => f.write_str("the line ends with a space"),
            Complaint::TwoSpaces => f.write_str("there are two spaces in a row in the line"),
            Complaint::Form(script, fault) => put_form_fault(*script, fault, f),
        }
    }
}

/// Says what is wrong with the words of a line of this command.
fn put_form_fault<W: fmt::Write>(
    script: Script,
    fault: &FormFault<'_>,
    f: &mut fmt::Formatter<W>,
) -> fmt::Result {
    match fault {
        FormFault::NoForm(word) => put_no_line(script, word, f),
        FormFault::Missing(form, argument) => write!(f, "{form}: {argument} is missing"),
        FormFault::OutOfRange(form, Argument::Hex, word) => put_no_octets(form, word, f),
        FormFault::OutOfRange(form, argument, word) => put_out_of_range(form, *argument, word, f),
        FormFault::Behind(form, word) => write_excess(form, word, f),
    }
}

/// Says that no line of this command begins with this word. If the command has the word with the
/// other clock or with `--links`, it says so; else it lists the command's lines.
fn put_no_line<W: fmt::Write>(
    script: Script,
    word: &[u8],
    f: &mut fmt::Formatter<W>,
) -> fmt::Result {
    let shown = Shown(word);
    if needs_real_clock(script, word) {
        return write!(f, "{shown} needs --clock real");
    }
    if needs_links(script, word) {
        return write!(f, "{shown} needs --links");
    }
    if script.has_real_clock() && word == b"tick".as_slice() {
        return write!(f, "{shown} {PASSES}");
    }
    let lines = Forms(forms(script));
    write!(f, "{shown} is not a line of {script}; valid lines: {lines}")
}

/// Why the real clock has no `tick`.
const PASSES: &str = "is not valid with --clock real, which runs by itself";

/// Whether only the same command with the real clock has lines that begin with this word.
fn needs_real_clock(script: Script, word: &[u8]) -> bool {
    match script.with_real_clock() {
        Some(script) => form_of(script, word).is_some(),
        None => false,
    }
}

/// Whether only the same command with `--links` has lines that begin with this word.
fn needs_links(script: Script, word: &[u8]) -> bool {
    matches!(script, Script::Bus) && form_of(Script::BusLinks, word).is_some()
}

/// Says which values the argument has, and that this word is not one.
fn put_out_of_range<W: fmt::Write>(
    form: &Form,
    argument: Argument,
    word: &[u8],
    f: &mut fmt::Formatter<W>,
) -> fmt::Result {
    let range = argument.range();
    let word = Shown(word);
    write!(f, "{form}: {argument} must be {range}, not {word}")
}

/// Says why a word does not spell octets: its first octet that is not a hexadecimal digit, or the
/// number of its digits.
fn put_no_octets<W: fmt::Write>(
    form: &Form,
    word: &[u8],
    f: &mut fmt::Formatter<W>,
) -> fmt::Result {
    for octet in word {
        if !octet.is_ascii_hexdigit() {
            let shown = octet.escape_ascii();
            return write!(f, "{form}: '{shown}' is not a hexadecimal digit");
        }
    }
    write!(f, "{form}: an odd number of digits")
}

/// Says which word follows a line that is complete without it.
fn write_excess<W: fmt::Write>(form: &Form, word: &[u8], f: &mut fmt::Formatter<W>) -> fmt::Result {
    let word = Shown(word);
    write!(f, "{form}: unexpected extra word {word}")
}
