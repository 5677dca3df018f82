//! Why a line is not valid for its command: chosen lines and random ones, for each command. The
//! command itself decides whether a line is bad, and prints nothing for it.

use crate::commands::Commands;
use crate::{CommandWords, lines};
use arrayvec::ArrayVec;
use lapd_cli_console::{Script, reason, tidied};
use lapd_cli_script::ScriptFault;
use lapd_port::{FromRead, FromWrite, Port};
use rand_core::{Rng, SeedableRng};
use rand_pcg::Pcg32;
use std::alloc::{AllocError, Global};
use std::io;
use std::test::Fail;

/// Octets that are not UTF-8, and lines whose fault is not visible.
const UNSEEN: &[(&[u8], &str)] = &[
    (b"user 00\r", "the line ends with a carriage return"),
    (
        b"user\t00",
        "the line contains a tab; separate words by single spaces",
    ),
    (b"user \xff", "the line is not UTF-8"),
    (
        b"user 0\x1b",
        "user HEX: '\\x1b' is not a hexadecimal digit",
    ),
    (
        b"\x1b[A'",
        "'\\x1b[A\\'' is not a line of decode; valid lines: user HEX, net HEX",
    ),
];

/// Words from which random lines are put together.
const WORDS: &str =
    "frame|t200|t203|establish|release|give|unit|busy|state|deliver|lose|expire200|expire203|restart|settle|recover|\
    read|tick|check|ask|t202|hear|drop|hear-up|drop-up|t201|leave|user|net|user|net|on|off|0|1|16|63|64|127|128|255|256|320|\
    3600000|3600001|18446744073709551615|18446744073709551616|00|000|ab|0g|abc|12aB|0000|+1|-1||#|frame 00|\t|\r|é|\
    run|wait|expect|stats|impair|read|state|busy|expect é 5|100%|101%|20%|%|100|101";

/// The number of these words.
const WORD_COUNT: usize = 77;

/// The number of valid lines from which changed lines are made.
const GOOD_COUNT: usize = 115;

/// Octets that are inserted into lines.
const OCTETS: &[u8] = b" 0g1#\t\r\xff";

/// The commands, the script of one of them, and its words.
type Command<'a, C> = (&'a C, Script, CommandWords<'a>);

/// Whether a line has a reason exactly if its command refuses it, and the reason is `wanted`. There
/// `?` means any reason, and `*` means any or none.
fn has_reason<C: Commands>(
    alloc: Global,
    command: Command<'_, C>,
    line: &[u8],
    wanted: &str,
) -> bool {
    let is_bad = is_bad(alloc, command, line);
    match reason(alloc, command.1, line) {
        Ok(Some(reason)) => {
            is_bad && (reason.as_str() == wanted || wanted == "?" || wanted == "*")
        }
        Ok(None) => !is_bad && (wanted.is_empty() || wanted == "*"),
        Err(_) => false,
    }
}

/// The name of a command in the rows.
fn name_of(script: Script) -> &'static str {
    match script {
        Script::LiveNet => "live net",
        Script::LiveUser => "live user",
        script => script.name(),
    }
}

/// Whether a command refuses a line.
fn is_bad<C: Commands>(alloc: Global, command: Command<'_, C>, line: &[u8]) -> bool {
    let (commands, script, words) = command;
    match commands.refuses_line(alloc, script, line) {
        Some(refuses) => refuses,
        None => refuses_script(alloc, commands, words, line),
    }
}

/// Whether the command of these words refuses a script of this line, and prints nothing.
fn refuses_script<C: Commands>(
    alloc: Global,
    commands: &C,
    words: CommandWords<'_>,
    mut line: &[u8],
) -> bool {
    let mut printed = Vec::new(alloc);
    let port = Port::new(FromRead::new(b"".as_slice()), FromWrite::new(io::sink()));
    let (ended, _port) = commands.run(alloc, words, &mut line, &mut printed, port);
    ended == Err(ScriptFault::BadLine(1)) && printed.is_empty()
}

/// A line, and the reason that its row states, as `has_reason` takes it.
type Row = (&'static [u8], &'static str);

/// The first of the rows of a command that does not hold.
fn wrong_row<C: Commands>(alloc: Global, command: Command<'_, C>) -> Option<Row> {
    for row in lines::BAD.lines().chain(lines::GOOD.lines()) {
        let (name, row) = row.split_once(": ").unwrap_or((row, ""));
        let (line, wanted) = row.split_once(" => ").unwrap_or((row, ""));
        if name == name_of(command.1) && !has_reason(alloc, command, line.as_bytes(), wanted) {
            return Some((line.as_bytes(), wanted));
        }
    }
    None
}

/// The first row of invalid lines with a line that the command accepts, or that has no reason.
fn good_line<C: Commands>(alloc: Global, command: Command<'_, C>) -> Option<Row> {
    for row in lines::NONE.lines() {
        let (name, row) = row.split_once(": ").unwrap_or((row, ""));
        for line in row.split('|') {
            if name.split(", ").any(|name| name == name_of(command.1))
                && !has_reason(alloc, command, line.as_bytes(), "?")
            {
                return Some((line.as_bytes(), "?"));
            }
        }
    }
    None
}

/// The first line with invalid or invisible octets that has another reason.
fn wrong_octets<C: Commands>(alloc: Global, command: Command<'_, C>) -> Option<Row> {
    for (line, wanted) in UNSEEN {
        if command.1 == Script::Decode && !has_reason(alloc, command, *line, *wanted) {
            return Some((*line, *wanted));
        }
    }
    None
}

/// The verdict on a line: whether the command refuses it, and the reason.
fn verdict_on<C: Commands>(
    alloc: Global,
    command: Command<'_, C>,
    line: &[u8],
) -> Result<String, AllocError> {
    let is_bad = is_bad(alloc, command, line);
    let refused = if is_bad { "refused" } else { "accepted" };
    match reason(alloc, command.1, line)? {
        Some(reason) => format!(in alloc; "{refused}, with the reason '{reason}'"),
        None => format!(in alloc; "{refused}, without a reason"),
    }
}

/// The verdict that a row states for its line.
fn stated_verdict(alloc: Global, wanted: &str) -> Result<String, AllocError> {
    match wanted {
        "" => format!(in alloc; "accepted, without a reason"),
        "?" => format!(in alloc; "refused, with a reason"),
        "*" => format!(in alloc; "refused with a reason, or accepted without one"),
        _ => format!(in alloc; "refused, with the reason '{wanted}'"),
    }
}

/// The failure of a line of this command: the verdict on it beside the one that its row states.
fn failure_of<C: Commands>(
    alloc: Global,
    command: Command<'_, C>,
    line: &[u8],
    wanted: &str,
) -> Fail {
    let made = verdict_on(alloc, command, line);
    let stated = stated_verdict(alloc, wanted);
    if let (Ok(made), Ok(stated)) = (made, stated) {
        let name = name_of(command.1);
        let line = line.escape_ascii();
        Fail::new(format_args!("{name}: '{line}': it is {made}; the row wants it {stated}"))
    } else {
        Fail::new("out of memory")
    }
}

/// A random number below this one.
fn below(random: &mut Pcg32, limit: usize) -> usize {
    let drawn = random.next_u32() as usize;
    drawn.checked_rem(limit).unwrap_or(0)
}

/// A random line.
type Drawn = ArrayVec<u8, 256>;

/// Makes a random line of one to five words.
fn draw_words(random: &mut Pcg32, line: &mut Drawn) {
    line.clear();
    for _word in 0..=below(random, 5) {
        let word = WORDS
            .split('|')
            .nth(below(random, WORD_COUNT))
            .unwrap_or("net");
        let _ = line.try_extend_from_slice(word.as_bytes());
        let _ = line.try_push(b' ');
    }
    let _ = line.pop();
}

/// Makes a random line from a valid line of any command, by changing, removing or inserting an
/// octet.
fn draw_changed(random: &mut Pcg32, line: &mut Drawn) {
    let row = lines::GOOD
        .lines()
        .nth(below(random, GOOD_COUNT))
        .unwrap_or("answer: state");
    let (_, good) = row.split_once(": ").unwrap_or(("", row));
    line.clear();
    let _ = line.try_extend_from_slice(good.as_bytes());
    let place = below(random, good.len());
    if below(random, 3) > 0 {
        let _ = line.pop_at(place);
    }
    let octet = OCTETS.get(below(random, 3 * OCTETS.len() / 2)).copied();
    if let Some(octet) = octet {
        let _ = line.try_insert(place.min(line.len()), octet);
    }
}

/// Whether random lines have a reason exactly if a command refuses them. The last random line is
/// kept.
fn agrees<C: Commands>(alloc: Global, command: Command<'_, C>, line: &mut Drawn) -> bool {
    let mut random = Pcg32::seed_from_u64(921);
    for _draw in 0..1000 {
        draw_words(&mut random, line);
        if !has_reason(alloc, command, line.as_slice(), "*") {
            return false;
        }
        draw_changed(&mut random, line);
        if !has_reason(alloc, command, line.as_slice(), "*") {
            return false;
        }
    }
    true
}

/// Fails the test at the first line of a command that is not as the rows say.
pub fn lines_hold<C: Commands>(
    alloc: Global,
    commands: &C,
    script: Script,
    words: &str,
) -> Result<(), Fail> {
    let command = (commands, script, CommandWords(words));
    let mut drawn = Drawn::new();
    let wrong = wrong_row(alloc, command)
        .or(good_line(alloc, command))
        .or(wrong_octets(alloc, command));
    match wrong {
        Some((line, wanted)) => Err(failure_of(alloc, command, line, wanted)),
        None if agrees(alloc, command, &mut drawn) => Ok(()),
        None => Err(failure_of(alloc, command, drawn.as_slice(), "*")),
    }
}

/// The line to which a typed line of a command is tidied.
fn tidied_line(alloc: Global, script: Script, typed: &str) -> Vec<u8> {
    match tidied(alloc, script, typed.as_bytes()) {
        Ok(line) => line,
        Err(_) => Vec::new(alloc),
    }
}

/// Fails the test if the command of `script` tidies a typed line otherwise than its row says.
pub fn typed_lines_hold(alloc: Global, script: Script) -> Result<(), Fail> {
    for row in lines::TYPED.lines() {
        typed_row_holds(alloc, script, row)?;
    }
    Ok(())
}

/// Fails the test if the command of `script` tidies the typed line of `row` otherwise than `row`
/// says. Rows of other commands always hold.
fn typed_row_holds(alloc: Global, script: Script, row: &str) -> Result<(), Fail> {
    let (name, line) = row.split_once(": ").unwrap_or((row, ""));
    let (typed, meant) = line.split_once(" => ").unwrap_or((line, ""));
    let made = tidied_line(alloc, script, typed);
    if name != name_of(script) || made.as_slice() == meant.as_bytes() {
        Ok(())
    } else {
        let made = made.as_slice().escape_ascii();
        Err(Fail::new(format_args!(
            "{name}: '{typed}': it is tidied to '{made}'; the row wants '{meant}'"
        )))
    }
}
