//! Running `decode` over any reader and writer.

use lapd_cli_console::Script;
use lapd_cli_decode::{
    Drawing, Filter, Follow, FrameStyle, FrameTime, Layout, LineForm, LinesStyle, Style, decode,
    decode_lines, print_lines,
};
use lapd_cli_script::ScriptFault;
use lapd_port::{Port, Sink, Source};
use lapd_test_scenario::{CommandWords, Commands, Run};
use std::alloc::Global;
use std::io::{self, Read, Write};

/// The command `decode`.
#[derive(Drop)]
pub(crate) struct Decode;

impl Commands for Decode {
    fn run<R: Read, W: Write, S: Source, K: Sink>(
        &self,
        alloc: Global,
        words: CommandWords<'_>,
        script: &mut R,
        out: &mut W,
        port: Port<S, K>,
    ) -> Run<S, K> {
        match words.command() {
            "decode" => (run_decode(alloc, words, script, out), port),
            _ => (Err(ScriptFault::BadLine(0)), port),
        }
    }

    fn refuses_line(&self, _: Global, _: Script, _: &[u8]) -> Option<bool> {
        None
    }
}

fn run_decode<R: Read, W: Write>(
    alloc: Global,
    words: CommandWords<'_>,
    script: &mut R,
    out: &mut W,
) -> Result<(), ScriptFault> {
    let how = LinesStyle {
        form: LineForm::Strict,
        frames: frame_style(words),
        keeps_going: false,
        follow: follow_of(words),
    };
    if is_plain(&how) {
        return match how.frames.style {
            Style::Plain => decode(alloc, script, out),
            style => decode_lines(alloc, script, out, style),
        };
    }
    let _is_violated = print_lines(alloc, script, out, how, io::sink())?;
    Ok(())
}

/// Whether all frames are printed, and no link is followed.
fn is_plain(how: &LinesStyle) -> bool {
    how.follow.is_none() && how.frames.count.is_none() && how.frames.filter == Some(Filter::ALL)
}

/// How links are followed: always if they are drawn.
fn follow_of(words: CommandWords<'_>) -> Option<Follow> {
    if words.has("--follow") || words.has("--ladder") || words.has("--svg") {
        Some(Follow {
            k: words.octet("--k"),
        })
    } else {
        None
    }
}

fn frame_style(words: CommandWords<'_>) -> FrameStyle {
    FrameStyle {
        layout: layout_of(words),
        style: style_of(words),
        time: FrameTime::Hidden,
        filter: Some(filter_of(words)),
        once: false,
        any_sapi: false,
        is_colored: false,
        count: words.value("--count", "").parse().ok(),
    }
}

fn layout_of(words: CommandWords<'_>) -> Layout {
    if words.has("--svg") {
        Layout::Drawn(Drawing::Picture)
    } else if words.has("--ladder") {
        Layout::Drawn(Drawing::Ladder)
    } else {
        Layout::Lines
    }
}

fn style_of(words: CommandWords<'_>) -> Style {
    if words.has("--json") {
        Style::Json
    } else if words.has("--names") {
        Style::Named
    } else {
        Style::Plain
    }
}

/// Which frames are printed.
fn filter_of(words: CommandWords<'_>) -> Filter {
    let kinds = words.value("--kinds", "i,s,u");
    Filter {
        sapi: words.octet("--sapi"),
        tei: words.octet("--tei"),
        i: kinds.contains('i'),
        s: kinds.contains('s'),
        u: kinds.contains('u'),
        polls: !words.has("--no-polls"),
        call: None,
        only_violations: false,
    }
}
