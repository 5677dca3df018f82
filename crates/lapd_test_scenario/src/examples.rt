//! The examples in the help are scenarios.

use crate::CommandWords;
use crate::commands::Commands;
use crate::trial::{Trial, words_pass};
use std::alloc::Global;
use std::io::Write;

/// An example in the help.
#[derive(Clone, Copy)]
pub struct Example {
    /// The words of its command.
    pub words: &'static str,
    /// The beginning of the line that divides the help.
    pub parted_by: &'static str,
    /// Whether the example follows that line. Otherwise it precedes it.
    pub is_after: bool,
}

/// Whether an example in a help text is a scenario, and runs as written.
pub fn example_holds<C: Commands>(
    alloc: Global,
    commands: &C,
    example: Example,
    help: &str,
) -> bool {
    let (front, rest) = help.split_once(example.parted_by).unwrap_or(("", ""));
    let text = if example.is_after { rest } else { front };
    example_passes(alloc, commands, example.words, text, Trial::Alone)
}

/// Whether the example in a text is a scenario and runs as written, as the command of these words.
pub fn example_passes<C: Commands>(
    alloc: Global,
    commands: &C,
    words: &str,
    text: &str,
    trial: Trial<'_>,
) -> bool {
    let scenario = example_of(alloc, text);
    match scenario.as_str().strip_prefix('\n') {
        Some(scenario) => words_pass(alloc, commands, CommandWords(words), scenario, trial),
        None => false,
    }
}

/// The scenario of an example, whose lines begin with `  < ` and `  > `. The closing lines of
/// `pair` are printed after the script.
fn example_of(alloc: Global, text: &str) -> String {
    let mut scenario = String::new(alloc);
    for line in text.lines() {
        if let Some(line) = line.strip_prefix("  < ") {
            let _ = write!(scenario, "\n{line}");
        }
        if let Some(line) = line.strip_prefix("  > ") {
            let is_end = line.starts_with("user: state");
            let _ = write!(scenario, "{}\n    {line}", if is_end { "\n." } else { "" });
        }
    }
    scenario
}
