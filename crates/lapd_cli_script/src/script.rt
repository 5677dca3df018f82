//! The execution of a script, which all commands share.

ghost use Rattle.std.specs.Prelude.{◌≡◌, ℕ, ◌+◌, ◌<◌, ◌≤◌, ◌^◌, [], ◌∷◌, ◌++◌, List, Option, length, take, IfSome, IfNone, OnOk, IsOkUnless};
ghost use Rattle.std.specs.Io.KnownBytes.{Appends, Keeps};
ghost use Rattle.lapd_cli_script.specs.Script.{Step, EndsAs, LineEndsAs, outcome_of, is_passed_over as passed_over, lines_of, state_after, status_of};
ghost use Rattle.lapd_cli_script.specs.declared.script.LineFault.TheVariants.{Device as LineDevice};
ghost use Rattle.lapd_cli_script.specs.WalkState.{HasNoFeed, PreservesFault, WalkEnds, is_comment, walk_lines, without_comment};

use lapd_port::PortFault;
use memchr::memchr;
use std::alloc::Global;
use std::io::{self, ErrorKind, Read, Write};
use thiserror::Error;

/// Why a script ended early.
#[derive(Clone, Copy, Debug, PartialEq, Eq, Error)]
pub enum ScriptFault {
    /// The line with this number, counted from 1, is not valid for the command.
    #[error("line {0}: bad command")]
    BadLine(u64),
    /// A read, a write or a flush failed, or the script's end was not reached.
    #[error("device fault")]
    Device,
    /// An allocation failed.
    #[error("out of memory")]
    Memory,
    /// A port returned this fault instead of a frame. Only commands with a port end so; [`walk`]
    /// itself does not.
    #[error("port {0}")]
    Port(PortFault),
}

impl ScriptFault {
    /// The program's exit status after this fault: 1, 3 or 4.
    pub fn status(self) -> u8
        ensures { result ≡ status_of self }
    {
        match self {
            ScriptFault::BadLine(_) => 1,
            ScriptFault::Device | ScriptFault::Port(_) => 3,
            ScriptFault::Memory => 4,
        }
    }
}

/// Why a line failed.
#[derive(Clone, Copy, PartialEq, Eq)]
pub enum LineFault {
    /// The line is not valid for the command.
    Bad,
    /// The writer failed.
    Device,
    /// An allocation failed.
    Memory,
}

impl From<io::Error> for LineFault {
    ghost from_gives = { λ _ fault. fault ≡ LineDevice };

    fn from(_error: io::Error) -> LineFault {
        LineFault::Device
    }
}

/// A command that executes a script line by line.
pub trait Command {
    /// The states of the command in the specification.
    ghost State: { Type 0 };

    /// The specified result of each line in each state.
    ghost step: { Step State };

    /// The value represents the state.
    ghost represents: { Self → State → Type 0 };

    /// Executes one line, and prints its text. The line has no line feed and is neither empty nor a
    /// comment. All allocations precede the first write.
    ///
    /// # Errors
    ///
    /// `Bad` if the line is not valid for the command, `Device` if a write fails, `Memory` if an
    /// allocation fails.
    fn run<W: Write>(&mut self, line: &[u8], out: &mut W) -> Result<(), LineFault>
        ensures { (s : State) → represents self.old s
            → LineEndsAs represents (step s line.now) result self.new (W.contents out.old)
            (W.contents out.new) };
}

/// The most reads of one script.
const MOST_READS: u64 = 1_000_000;

/// The most octets per read.
const PART: usize = 8192;

/// Executes a script, and writes the output of its lines. It executes each whole line that was
/// read, and flushes the writer, before it reads more.
///
/// # Errors
///
/// - `BadLine` at the first line that is not valid for the command, and `Memory` if an allocation
///   fails: the output of the earlier lines has been written, and nothing of that line.
/// - `Device` if a read, a write or a flush fails, or if a million reads of at most 8,192 octets
///   each do not reach the script's end.
pub fn walk<C: Command, R: Read, W: Write>(
    alloc: Global,
    command: &mut C,
    script: &mut R,
    out: &mut W,
) -> Result<(), ScriptFault>
    ensures ended { (s : C.State) → C.represents command.old s → IfSome (R.remaining script.old)
        (λ octets. EndsAs C.step s result (lines_of octets) (W.contents out.old)
        (W.contents out.new)) }
    ensures state { (s : C.State) → C.represents command.old s → IfSome (R.remaining script.old)
        (λ octets. OnOk result (C.represents command.new
        (state_after C.step s (lines_of octets)))) }
{
    let ended = walk_script(alloc, command, script, out);
    flush_rest(ended, out)
}

// Executes the script, and flushes before each read.
fn walk_script<C: Command, R: Read, W: Write>(
    alloc: Global,
    command: &mut C,
    script: &mut R,
    out: &mut W,
) -> Result<(), ScriptFault>
    ensures { (s : C.State) → C.represents command.old s → IfSome (R.remaining script.old)
        (λ octets. (m : ℕ) × WalkEnds C.represents C.step s result
        (walk_lines octets) [] command.new 0 m
        (W.contents out.old) (W.contents out.new)) }
{
    let mut number: u64 = 0;
    let mut cut = Vec::new(alloc);
    let mut part = [0u8; PART];
    for read in 0..MOST_READS {
        flush_rest(Ok(()), out)?;
        match script.read(&mut part) {
            Ok(0) => return walk_last(command, &mut number, cut.as_slice(), out),
            Ok(count) => walk_part(command, &mut number, &mut cut, &part[..count], out)?,
            Err(error) => {
                if error.kind() != ErrorKind::Interrupted {
                    return Err(ScriptFault::Device);
                }
            }
        }
    }
    Err(ScriptFault::Device)
}

// Executes each line that ends in these octets, which follow `cut`, and keeps the rest of them in
// `cut`.
fn walk_part<C: Command, W: Write>(
    command: &mut C,
    number: &mut u64,
    cut: &mut Vec<u8>,
    octets: &[u8],
    out: &mut W,
) -> Result<(), ScriptFault>
    requires room { number.old + length octets.now < 2 ^ 64 }
    requires no_feed { HasNoFeed cut.old.items }
    ensures count { number.new ≤ number.old + length octets.now }
    ensures cut { OnOk result (HasNoFeed cut.new.items) }
    ensures ended { (s : C.State) (after : List ℕ) → C.represents command.old s
        → WalkEnds C.represents C.step s result (walk_lines (cut.old.items ++ octets.now ++ after))
        (walk_lines (cut.new.items ++ after)) command.new number.old number.new
        (W.contents out.old) (W.contents out.new) }
{
    let mut rest = octets;
    while let Some((line, left)) = first_line(rest) {
        walk_whole(command, number, cut, line, out)?;
        rest = left;
    }
    append_cut(cut, rest)?;
    Ok(())
}

// Executes a whole line, whose beginning may be in `cut`.
fn walk_whole<C: Command, W: Write>(
    command: &mut C,
    number: &mut u64,
    cut: &mut Vec<u8>,
    line: &[u8],
    out: &mut W,
) -> Result<(), ScriptFault>
    requires room { number.old + 1 < 2 ^ 64 }
    requires cut_no_feed { HasNoFeed cut.old.items }
    requires line_no_feed { HasNoFeed line.now }
    ensures count { number.new ≤ number.old + 1 }
    ensures used { OnOk result (cut.new.items ≡ []) }
    ensures ended { (s : C.State) (left after : List ℕ) → C.represents command.old s
        → WalkEnds C.represents C.step s result
        (walk_lines (cut.old.items ++ (line.now ++ 10 ∷ left) ++ after))
        (walk_lines (left ++ after))
        command.new number.old number.new (W.contents out.old) (W.contents out.new) }
{
    if cut.is_empty() {
        return walk_line(command, number, line, out);
    }
    append(cut, line)?;
    walk_line(command, number, cut.as_slice(), out)?;
    cut.clear();
    Ok(())
}

// Executes the last line if it lacks its line feed.
fn walk_last<C: Command, W: Write>(
    command: &mut C,
    number: &mut u64,
    cut: &[u8],
    out: &mut W,
) -> Result<(), ScriptFault>
    requires room { number.old + 1 < 2 ^ 64 }
    requires no_feed { HasNoFeed cut.now }
    ensures { (s : C.State) → C.represents command.old s
        → WalkEnds C.represents C.step s result (walk_lines cut.now) [] command.new number.old
        number.new
        (W.contents out.old) (W.contents out.new) }
{
    if cut.is_empty() {
        return Ok(());
    }
    walk_line(command, number, cut, out)
}

// Counts a line, and executes it unless it is skipped.
fn walk_line<C: Command, W: Write>(
    command: &mut C,
    number: &mut u64,
    line: &[u8],
    out: &mut W,
) -> Result<(), ScriptFault>
    requires { number.old + 1 < 2 ^ 64 }
    ensures count { number.new ≡ number.old + 1 }
    ensures ended { (s : C.State) (more : List (List ℕ)) → C.represents command.old s
        → WalkEnds C.represents C.step s result (without_comment line.now ∷ more) more command.new
        number.old number.new
        (W.contents out.old) (W.contents out.new) }
{
    *number += 1;
    if is_passed_over(line) {
        return Ok(());
    }
    match command.run(line, out) {
        Ok(()) => Ok(()),
        Err(LineFault::Bad) => Err(ScriptFault::BadLine(*number)),
        Err(LineFault::Device) => Err(ScriptFault::Device),
        Err(LineFault::Memory) => Err(ScriptFault::Memory),
    }
}

/// Whether a script skips the line: it is empty, or begins with `#`.
pub fn is_passed_over(line: &[u8]) -> bool
    ensures { result ≡ passed_over line.now }
{
    matches!(line, [] | [b'#', ..])
}

/// The octets before the first line feed, and those after it. Returns `None` if there is no line
/// feed.
pub fn first_line(octets: &[u8]) -> Option<(&[u8], &[u8])>
    ensures found { IfSome result (λ parts. HasNoFeed parts.0.now
        × (octets.now ≡ parts.0.now ++ 10 ∷ parts.1.now)) }
    ensures none { IfNone result (HasNoFeed octets.now) }
    ensures shorter { IfSome result (λ parts. length parts.1.now < length octets.now) }
{
    let end = memchr(b'\n', octets)?;
    Some((&octets[..end], &octets[end + 1..]))
}

// Appends octets to the unfinished line. Of a comment it keeps only the first octet, because the
// rest is skipped.
fn append_cut(cut: &mut Vec<u8>, octets: &[u8]) -> Result<(), ScriptFault>
    ensures ok { OnOk result (cut.new.items ≡ without_comment (cut.old.items ++ octets.now)) }
    ensures err { IsOkUnless result ScriptFault.Memory }
{
    append(cut, octets)?;
    if is_comment(cut.as_slice()) {
        cut.truncate(1);
    }
    Ok(())
}

// Whether the line is a comment: it begins with `#`.
fn is_comment(line: &[u8]) -> bool
    ensures { result ≡ is_comment line.now }
{
    matches!(line, [b'#', ..])
}

// Appends octets to the unfinished line.
fn append(cut: &mut Vec<u8>, octets: &[u8]) -> Result<(), ScriptFault>
    ensures ok { OnOk result (cut.new.items ≡ cut.old.items ++ octets.now) }
    ensures err { IsOkUnless result ScriptFault.Memory }
{
    cut.extend_from_slice(octets)
        .map_err(|_| ScriptFault::Memory)
}

// Flushes the writer, and returns how the run ended unless the flush fails.
fn flush_rest<W: Write>(ended: Result<(), ScriptFault>, out: &mut W) -> Result<(), ScriptFault>
    ensures bytes { Keeps (W.contents out.old) (W.contents out.new) }
    ensures ended { PreservesFault ended result }
{
    if ended != Err(ScriptFault::Device) && out.flush().is_err() {
        return Err(ScriptFault::Device);
    }
    ended
}
