//! The options of `decode`.

use crate::command_option::FILES;
use crate::command_options::side_named;
use crate::invocation::{Color, DecodeOptions, FollowOptions, PrintedLayout, PrintedTime};
use crate::no_invocation::NoInvocation;
use crate::option_tables::KINDS;
use crate::script_command::ScriptCommand;
use clap::ArgMatches;
use lapd_cli_values::{
    COUNT, FOLLOWED_K, NumberOption, PRINTED_CALL, PRINTED_SAPI, PRINTED_TEI, Side, number_written,
    window_written,
};
use lapd_filter::Filter;
use std::alloc::Global;

/// The frames of a picture without `--count`: a browser shows a picture of some megabytes.
const PICTURE_FRAMES: u64 = 10_000;

/// The layouts that options choose, in the order in which two of them are refused.
const LAYOUTS: [PrintedLayout; 5] = [
    PrintedLayout::Ladder,
    PrintedLayout::Picture,
    PrintedLayout::Page,
    PrintedLayout::Capture,
    PrintedLayout::Calls,
];

/// What `--time` requires.
const CAPTURE_OR_LOG: &str = "a capture or a log: --pcap FILE, FILE, or --loose";

/// No flags.
const NO_FLAGS: &[&str] = &[];

/// The flags of lines alone.
const LINE_FLAGS: &[&str] = &["json", "any-sapi", "summary"];

/// The flags of frames that are printed or drawn.
const FRAME_FLAGS: &[&str] = &["json", "any-sapi", "summary", "names", "follow"];

/// The options of `decode` among these.
pub(crate) fn decode_of<'a>(given: &ArgMatches<'a>) -> Result<DecodeOptions, NoInvocation<'a>> {
    let layout = layout_of(given)?;
    let follow = follow_of(given)?;
    let time = time_of(given, layout)?;
    let count = count_of(given, layout)?;
    let no_octets = no_octets_of(given, layout)?;
    let frames = frames_of(given)?;
    Ok(DecodeOptions {
        loose: given.get_flag("loose"),
        sender: sender_of(given),
        names: given.get_flag("names"),
        no_octets,
        json: given.get_flag("json"),
        layout,
        keep_going: given.get_flag("keep-going"),
        follow,
        time,
        count,
        frames,
        any_sapi: given.get_flag("any-sapi"),
        color: color_of(given),
    })
}

// When lines are printed in colors.
fn color_of(given: &ArgMatches<'_>) -> Color {
    match given.get_str("color") {
        Some("always") => Color::Always,
        Some("never") => Color::Never,
        _ => Color::Auto,
    }
}

// The chosen sender, if there is one.
fn sender_of(given: &ArgMatches<'_>) -> Option<Side> {
    match given.get_str("sender") {
        Some(_) => Some(side_named(given, "sender")),
        None => None,
    }
}

// The layout of the frames, which one option chooses at most. Objects, tables and frames of other
// SAPIs have lines alone.
fn layout_of<'a>(given: &ArgMatches<'a>) -> Result<PrintedLayout, NoInvocation<'a>> {
    let mut layout = PrintedLayout::Lines;
    for other in LAYOUTS {
        if is_chosen(given, other) {
            if layout != PrintedLayout::Lines {
                return Err(NoInvocation::NotBoth(option_of(layout), option_of(other)));
            }
            layout = other;
        }
    }
    refuse_flags(given, layout)?;
    Ok(layout)
}

// Whether this layout is requested.
fn is_chosen(given: &ArgMatches<'_>, layout: PrintedLayout) -> bool {
    match layout {
        PrintedLayout::Lines => false,
        PrintedLayout::Ladder | PrintedLayout::Calls => given.get_flag(option_of(layout)),
        PrintedLayout::Picture | PrintedLayout::Page | PrintedLayout::Capture => {
            given.get_str(option_of(layout)).is_some()
        }
    }
}

// Refuses the flags that this layout has no place for.
fn refuse_flags<'a>(given: &ArgMatches<'a>, layout: PrintedLayout) -> Result<(), NoInvocation<'a>> {
    for flag in flags_without(layout) {
        if given.get_flag(flag) {
            return Err(NoInvocation::NotBoth(option_of(layout), flag));
        }
    }
    Ok(())
}

// The flags that a layout has no place for.
fn flags_without(layout: PrintedLayout) -> &'static [&'static str] {
    match layout {
        PrintedLayout::Lines => NO_FLAGS,
        PrintedLayout::Ladder | PrintedLayout::Picture | PrintedLayout::Page => LINE_FLAGS,
        PrintedLayout::Capture | PrintedLayout::Calls => FRAME_FLAGS,
    }
}

// After how many printed frames the output ends. A picture and a page have an end. Tables alone
// print no frames.
fn count_of<'a>(
    given: &ArgMatches<'a>,
    layout: PrintedLayout,
) -> Result<Option<u64>, NoInvocation<'a>> {
    match (number_of(given, COUNT)?, layout) {
        (None, PrintedLayout::Picture | PrintedLayout::Page) => Ok(Some(PICTURE_FRAMES)),
        (Some(_), _) if given.get_flag("summary") => {
            Err(NoInvocation::NotBoth("summary", "count"))
        }
        (count, _) => Ok(count),
    }
}

// Whether the octets of information are left out. Only a trace line with names can do without.
fn no_octets_of<'a>(
    given: &ArgMatches<'a>,
    layout: PrintedLayout,
) -> Result<bool, NoInvocation<'a>> {
    if !given.get_flag("no-octets") {
        return Ok(false);
    }
    if layout != PrintedLayout::Lines {
        return Err(NoInvocation::NotBoth("no-octets", option_of(layout)));
    }
    if given.get_flag("json") {
        return Err(NoInvocation::NotBoth("no-octets", "json"));
    }
    if given.get_flag("names") {
        Ok(true)
    } else {
        Err(NoInvocation::Requires("no-octets", "--names"))
    }
}

// The option of a layout other than lines.
fn option_of(layout: PrintedLayout) -> &'static str {
    match layout {
        PrintedLayout::Picture => "svg",
        PrintedLayout::Page => "html",
        PrintedLayout::Capture => "write",
        PrintedLayout::Calls => "calls",
        PrintedLayout::Lines | PrintedLayout::Ladder => "ladder",
    }
}

// Whether an option needs the links to be followed.
fn follows(given: &ArgMatches<'_>) -> bool {
    given.get_flag("follow")
        || given.get_flag("summary")
        || given.get_flag("violations")
        || given.get_flag("ladder")
        || given.get_str("svg").is_some()
        || given.get_str("html").is_some()
}

// How the links are followed: for a drawing they always are. An option of `--follow` is refused
// without it.
fn follow_of<'a>(given: &ArgMatches<'a>) -> Result<Option<FollowOptions>, NoInvocation<'a>> {
    let k = window_of(given)?;
    if follows(given) {
        return Ok(Some(FollowOptions { k }));
    }
    match k {
        Some(_) => Err(NoInvocation::Requires(FOLLOWED_K.name, "--follow")),
        None => Ok(None),
    }
}

// The window of links that are followed, if it is present.
fn window_of<'a>(given: &ArgMatches<'a>) -> Result<Option<u8>, NoInvocation<'a>> {
    match given.get_str(FOLLOWED_K.name) {
        Some(written) => Ok(Some(window_written(written)?)),
        None => Ok(None),
    }
}

// The requested time of each frame. A script on standard input has none; a page, a capture and a
// table of calls have their own.
fn time_of<'a>(
    given: &ArgMatches<'a>,
    layout: PrintedLayout,
) -> Result<PrintedTime, NoInvocation<'a>> {
    let time = match given.get_str("time") {
        Some("absolute") => PrintedTime::Absolute,
        Some("relative") => PrintedTime::Relative,
        Some("delta") => PrintedTime::Delta,
        Some("day") => PrintedTime::Day,
        Some("utc") => PrintedTime::Utc,
        Some("local") => PrintedTime::Local,
        _ => return Ok(PrintedTime::Hidden),
    };
    if matches!(
        layout,
        PrintedLayout::Page | PrintedLayout::Capture | PrintedLayout::Calls
    ) {
        return Err(NoInvocation::NotBoth("time", option_of(layout)));
    }
    if given.get_str("pcap").is_some() || has_files(given) || given.get_flag("loose") {
        Ok(time)
    } else {
        Err(NoInvocation::Requires("time", CAPTURE_OR_LOG))
    }
}

// Whether there are files among these words.
fn has_files(given: &ArgMatches<'_>) -> bool {
    match given.get_strs(FILES) {
        Some(files) => !files.is_empty(),
        None => false,
    }
}

/// The files of this command.
pub(crate) fn files_of<'a>(
    alloc: Global,
    command: ScriptCommand,
    given: &ArgMatches<'a>,
) -> Result<Vec<&'a str>, NoInvocation<'a>> {
    let mut files = Vec::new(alloc);
    if command != ScriptCommand::Decode {
        return Ok(files);
    }
    let named = given.get_strs(FILES).unwrap_or(&[]);
    if !named.is_empty() && given.get_str("pcap").is_some() {
        return Err(NoInvocation::PcapAndFile);
    }
    for option in ["svg", "html", "write"] {
        if named.len() > 1 && given.get_str(option).is_some() {
            return Err(NoInvocation::OneFile(option));
        }
    }
    match files.extend_from_slice(named) {
        Ok(()) => Ok(files),
        Err(_) => Err(NoInvocation::Memory),
    }
}

// Which frames are printed: of tables alone none.
fn frames_of<'a>(given: &ArgMatches<'a>) -> Result<Filter, NoInvocation<'a>> {
    let (is_summary, only_violations) = (given.get_flag("summary"), given.get_flag("violations"));
    if is_summary && only_violations {
        return Err(NoInvocation::NotBoth("summary", "violations"));
    }
    let sapi = octet_of(given, PRINTED_SAPI)?;
    let tei = octet_of(given, PRINTED_TEI)?;
    let call = match number_of(given, PRINTED_CALL)? {
        Some(number) => u16::try_from(number).ok(),
        None => None,
    };
    let kinds = kinds_of(given)?;
    Ok(Filter {
        sapi,
        tei,
        i: !is_summary && kinds.contains('i'),
        s: !is_summary && kinds.contains('s'),
        u: !is_summary && kinds.contains('u'),
        polls: !given.get_flag("no-polls"),
        call,
        only_violations,
    })
}

// The kinds of frames that are printed: each is one of three letters.
fn kinds_of<'a>(given: &ArgMatches<'a>) -> Result<&'a str, NoInvocation<'a>> {
    let kinds = given.get_str(KINDS.name).unwrap_or(KINDS.default);
    for kind in kinds.split(',') {
        if !matches!(kind, "i" | "s" | "u") {
            return Err(NoInvocation::NotKinds(kinds));
        }
    }
    Ok(kinds)
}

// The number of this option, if it is present and below 256.
fn octet_of<'a>(
    given: &ArgMatches<'a>,
    option: NumberOption,
) -> Result<Option<u8>, NoInvocation<'a>> {
    match number_of(given, option)? {
        Some(number) => Ok(u8::try_from(number).ok()),
        None => Ok(None),
    }
}

/// The number of this option, if it is present.
pub(crate) fn number_of<'a>(
    given: &ArgMatches<'a>,
    option: NumberOption,
) -> Result<Option<u64>, NoInvocation<'a>> {
    match given.get_str(option.name) {
        Some(written) => Ok(Some(number_written(option, written)?)),
        None => Ok(None),
    }
}
