//! The lines of a suite.

ghost use Rattle.std.specs.Prelude.{◌≡◌, ◌∷◌, [], map, slice_index};
ghost use Rattle.lapd_cli_script.specs.Line.{is_digit};
ghost use Rattle.lapd_conform_suite.specs.Lines.{clause_in, comparable_in, count_in, last_number, last_value, line_by, line_in, sendable_in, some_text, text_in};
ghost use Rattle.lapd_conform_suite.specs.Reading.{ReadsAs};
ghost use Rattle.lapd_conform_suite.specs.Words.{row_of};

use crate::fault::{Fault, Wanted};
use crate::frame::{Framed, Pattern, is_comparable, is_sendable, read_frame};
use crate::name::{Name, read_name};
use crate::number::{Number, Span, read_number, read_span};
use crate::reading::{end, read_value, take_word};
use crate::words::{
    Keyword, Named, Need, Preamble, Request, keywords, needs, preambles, requests, sides, timers,
};
use lapd_cli_script::Words;
use lapd_frame::Side;
use lapd_timers::Timer;

/// The meaning of a line.
#[derive(Clone, Copy)]
pub enum Step {
    /// A case begins. The line's text is its title.
    Case(Name),
    /// The clauses of Q.921 are the line's text.
    Clause,
    /// The case is for this end only.
    Ends(Side),
    /// The stack needs this for the case.
    Needs(Need),
    /// The preamble.
    State(Preamble),
    /// The tester sends this frame.
    Send(Pattern),
    /// The upper tester makes this request, this number of times or for this TEI.
    Do(Request, Number),
    /// The stack sends this frame next.
    Expect(Pattern),
    /// Or this one.
    Or(Pattern),
    /// And this one too, in any order.
    And(Pattern),
    /// The frame is sent when this timer expires.
    At(Timer),
    /// The frame is sent within this time.
    Within(Span),
    /// The stack sends nothing for this time.
    Quiet(Span),
    /// A wait.
    Pause(Span),
    /// The stack may send this frame at any time from here on.
    Allow(Pattern),
    /// Ends all allowances.
    Forget,
    /// The lines up to `end` are repeated this number of times.
    Repeat(Number),
    /// The end of a repetition.
    End,
}

/// A line of a suite.
#[derive(Clone, Copy)]
pub struct Line<'s> {
    /// Its meaning.
    pub step: Step,
    /// The title of a case, its clauses, or hexadecimal digits of a frame's octets; else empty.
    pub text: &'s [u8],
}

/// A line without text.
fn plain<'s>(step: Step) -> Line<'s>
    ensures { (result.step ≡ step) × (result.text.now ≡ []) }
{
    Line { step, text: &[] }
}

fn with_text<'s>(step: Step, text: &'s [u8]) -> Line<'s>
    ensures { (result.step ≡ step) × (result.text.now ≡ text.now) }
{
    Line { step, text }
}

/// Reads a line of a suite, which is neither empty nor a comment, without its line feed.
///
/// # Errors
///
/// The first wrong word, and the word or text that is expected in its place.
pub fn read_line<'s>(line: &'s [u8]) -> Result<Line<'s>, Fault<'s>>
    ensures { ReadsAs (λ read. (read.step, read.text.now)) result (line_in line.now) }
{
    let mut words = Words::of(line);
    let keyword = read_value(keywords(), Wanted::Keyword, take_word(&mut words))?;
    read_by(keyword, words)
}

fn read_by<'s>(keyword: Keyword, mut words: Words<'s>) -> Result<Line<'s>, Fault<'s>>
    ensures { ReadsAs (λ read. (read.step, read.text.now)) result (line_by keyword words.entry) }
{
    match keyword {
        Keyword::Case => {
            let name = read_name(take_word(&mut words))?;
            Ok(with_text(Step::Case(name), read_text(&words, Wanted::Title)?))
        }
        Keyword::Clause => Ok(with_text(Step::Clause, read_clause(&words)?)),
        Keyword::Ends => Ok(plain(Step::Ends(read_last(sides(), Wanted::Side, words)?))),
        Keyword::Needs => Ok(plain(Step::Needs(read_last(needs(), Wanted::Need, words)?))),
        Keyword::State => Ok(plain(Step::State(read_last(preambles(), Wanted::Preamble, words)?))),
        Keyword::At => Ok(plain(Step::At(read_last(timers(), Wanted::Timer, words)?))),
        Keyword::Do => {
            let request = read_value(requests(), Wanted::Request, take_word(&mut words))?;
            Ok(plain(Step::Do(request, read_count(words)?)))
        }
        Keyword::Send => {
            let framed = read_sendable(words)?;
            Ok(with_text(Step::Send(framed.pattern), framed.digits))
        }
        Keyword::Expect => {
            let framed = read_comparable(words)?;
            Ok(with_text(Step::Expect(framed.pattern), framed.digits))
        }
        Keyword::Or => {
            let framed = read_comparable(words)?;
            Ok(with_text(Step::Or(framed.pattern), framed.digits))
        }
        Keyword::And => {
            let framed = read_comparable(words)?;
            Ok(with_text(Step::And(framed.pattern), framed.digits))
        }
        Keyword::Allow => {
            let framed = read_comparable(words)?;
            Ok(with_text(Step::Allow(framed.pattern), framed.digits))
        }
        Keyword::Within => Ok(plain(Step::Within(read_span(words)?))),
        Keyword::Quiet => Ok(plain(Step::Quiet(read_span(words)?))),
        Keyword::Pause => Ok(plain(Step::Pause(read_span(words)?))),
        Keyword::Repeat => Ok(plain(Step::Repeat(read_last_number(words)?))),
        Keyword::Forget => {
            end(words)?;
            Ok(plain(Step::Forget))
        }
        Keyword::End => {
            end(words)?;
            Ok(plain(Step::End))
        }
    }
}

/// The words that are left, which are at least one octet.
#[tactic(auto, using(crate::proofs::Joined::text_left))]
fn read_text<'s>(words: &Words<'s>, wanted: Wanted) -> Result<&'s [u8], Fault<'s>>
    ensures { ReadsAs (λ text. text.now) result (text_in wanted words.now) }
{
    match words.rest() {
        Some(text) => read_some_text(text, wanted),
        None => Err(Fault { found: &[], wanted }),
    }
}

fn read_some_text<'s>(text: &'s [u8], wanted: Wanted) -> Result<&'s [u8], Fault<'s>>
    ensures { ReadsAs (λ text. text.now) result (some_text wanted text.now) }
{
    if text.is_empty() {
        Err(Fault { found: &[], wanted })
    } else {
        Ok(text)
    }
}

/// Text that begins with a digit.
fn read_clause<'s>(words: &Words<'s>) -> Result<&'s [u8], Fault<'s>>
    ensures { ReadsAs (λ text. text.now) result (clause_in words.now) }
{
    let text = read_text(words, Wanted::Clause)?;
    if begins_with_digit(text) {
        Ok(text)
    } else {
        Err(Fault {
            found: text,
            wanted: Wanted::Clause,
        })
    }
}

fn begins_with_digit(text: &[u8]) -> bool
    ensures { result ≡ is_digit (slice_index text.now 0) }
{
    match text {
        [octet, ..] => octet.is_ascii_digit(),
        [] => false,
    }
}

/// The last word by a table.
fn read_last<'s, T: Copy>(
    table: &[Named<T>],
    wanted: Wanted,
    mut words: Words<'s>,
) -> Result<T, Fault<'s>>
    ensures { ReadsAs (λ value. value) result
        (last_value (map row_of table.now) wanted words.entry) }
{
    let value = read_value(table, wanted, take_word(&mut words))?;
    end(words)?;
    Ok(value)
}

fn read_last_number<'s>(mut words: Words<'s>) -> Result<Number, Fault<'s>>
    ensures { ReadsAs (λ number. number) result (last_number words.entry) }
{
    let number = read_number(take_word(&mut words))?;
    end(words)?;
    Ok(number)
}

fn read_sendable<'s>(words: Words<'s>) -> Result<Framed<'s>, Fault<'s>>
    ensures { ReadsAs (λ framed. (framed.pattern, framed.digits.now)) result
        (sendable_in words.entry) }
{
    let framed = read_frame(words)?;
    if is_sendable(framed.pattern) {
        Ok(framed)
    } else {
        Err(Fault {
            found: &[],
            wanted: Wanted::Sendable,
        })
    }
}

fn read_comparable<'s>(words: Words<'s>) -> Result<Framed<'s>, Fault<'s>>
    ensures { ReadsAs (λ framed. (framed.pattern, framed.digits.now)) result
        (comparable_in words.entry) }
{
    let framed = read_frame(words)?;
    if is_comparable(framed.pattern) {
        Ok(framed)
    } else {
        Err(Fault {
            found: &[],
            wanted: Wanted::Comparable,
        })
    }
}

/// How often, or for which TEI: once if no number follows.
fn read_count<'s>(mut words: Words<'s>) -> Result<Number, Fault<'s>>
    ensures { ReadsAs (λ number. number) result (count_in words.entry) }
{
    match words.next_word() {
        Some(word) => {
            let number = read_number(word)?;
            end(words)?;
            Ok(number)
        }
        None => Ok(Number {
            base: None,
            plus: 1,
        }),
    }
}
