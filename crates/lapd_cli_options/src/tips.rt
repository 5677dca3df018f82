//! Tips for arguments that belong to another program or to the other side.

use crate::no_invocation::NoInvocation;
use std::alloc::{AllocError, Global};

/// The parser's text for this command with a tip in place of its own, if an argument that it refuses
/// has one.
pub(crate) fn with_tip<'a>(
    alloc: Global,
    command: &str,
    refused: NoInvocation<'a>,
) -> NoInvocation<'a> {
    match refused {
        NoInvocation::Refused(text) => match tipped(alloc, command, text.as_str()) {
            Ok(Some(tipped)) => NoInvocation::Refused(tipped),
            Ok(None) => NoInvocation::Refused(text),
            Err(_) => NoInvocation::Memory,
        },
        other => other,
    }
}

// The text with its tip: its first line names the argument between quotes, and its usage follows.
fn tipped(alloc: Global, command: &str, text: &str) -> Result<Option<String>, AllocError> {
    let Some((reason, usage)) = text.split_once("\n\nUsage:") else {
        return Ok(None);
    };
    let first = reason.split('\n').next().unwrap_or("");
    let argument = first.split('\'').nth(1).unwrap_or("");
    match tip_of(command, argument) {
        Some(tip) => {
            let text = format!(in alloc; "{first}\n\n  tip: {tip}\n\nUsage:{usage}")?;
            Ok(Some(text))
        }
        None => Ok(None),
    }
}

// The tip for this argument of a command.
fn tip_of(command: &str, argument: &str) -> Option<&'static str> {
    match (command, argument) {
        ("decode", "-r") => Some("a file needs no option: lapd decode FILE"),
        ("decode", "-w") => Some("--write FILE writes the frames as a capture"),
        ("net", "--connect") => {
            Some("the network side waits: --listen ADDRESS; `lapd user` connects")
        }
        ("user", "--listen") => {
            Some("the user side connects: --connect ADDRESS; `lapd net` waits")
        }
        _ => None,
    }
}
