//! Reading a line by its form.

ghost use Rattle.std.specs.Prelude.{◌≡◌, ◌∷◌, [], if◌then◌else◌, Some, None};
ghost use Rattle.lapd_cli_script.specs.Line.{words_of};
ghost use Rattle.lapd_cli_grammar.specs.Values.{ReadsForm, begin_with_words as arguments_begin_with_words, by_arguments, is_left_out, line_values, no_values, parsed_line, text_and_last as as_text_and_last, with_word, with_words};

use crate::cuts::text_and_last;
use crate::form::{Argument, Form};
use crate::line_forms::form_of;
use crate::script::Script;
use crate::unread::{FormFault, Unread};
use crate::values::Values;
use lapd_cli_script::{LineFault, Words};
use std::alloc::Global;

/// A line that has a form.
#[derive(Drop)]
pub struct FormedLine<'l> {
    /// The first word.
    pub word: &'l [u8],
    /// The values of the words after it.
    pub values: Values<'l>,
}

/// Reads a line of a command, without its line feed, by its form.
///
/// # Errors
///
/// `Bad` if the line has no form of the command's, `Memory` if an allocation fails.
pub fn read_form<'l>(
    alloc: Global,
    script: Script,
    line: &'l [u8],
) -> Result<FormedLine<'l>, Unread<'l>>
    ensures { ReadsForm (λ read. (read.word.now, line_values read.values)) result
        (parsed_line script line.now) }
{
    let mut words = Words::of(line);
    let Some(word) = words.next_word() else {
        return Err(Unread::Bad(FormFault::NoForm(&[])));
    };
    match form_of(script, word) {
        Some(form) => {
            let values = values_by(alloc, form, words)?;
            Ok(FormedLine { word, values })
        }
        None => Err(Unread::Bad(FormFault::NoForm(word))),
    }
}

/// The values of the words after the first one, by this form.
fn values_by<'l>(alloc: Global, form: Form, behind: Words<'l>) -> Result<Values<'l>, Unread<'l>>
    ensures { ReadsForm line_values result (with_words form.arguments.now
        (by_arguments form.arguments.now behind.entry) no_values) }
{
    let mut values = Values::none(alloc);
    if begin_with_words(form.arguments) {
        read_text(alloc, form, behind, &mut values)?;
    } else {
        read_words(alloc, form, form.arguments, behind, &mut values)?;
    }
    Ok(values)
}

/// Whether the first argument is WORDS..
fn begin_with_words(arguments: &[Argument]) -> bool
    ensures { result ≡ arguments_begin_with_words arguments.now }
{
    match arguments {
        [argument, ..] => argument.is_words(),
        [] => false,
    }
}

/// Reads words whose form begins with WORDS.., so that all up to the last one count as one.
fn read_text<'l>(
    alloc: Global,
    form: Form,
    behind: Words<'l>,
    values: &mut Values<'l>,
) -> Result<(), Unread<'l>>
    ensures { ReadsForm (λ done. line_values values.new) result (with_words form.arguments.now
        (as_text_and_last behind.entry) (line_values values.old)) }
{
    match text_and_last(&behind) {
        Some((text, last)) => read_text_and_last(alloc, form, text, last, values),
        None => read_words(alloc, form, form.arguments, behind, values),
    }
}

/// Reads a text and the one word after it.
fn read_text_and_last<'l>(
    alloc: Global,
    form: Form,
    text: &'l [u8],
    last: &'l [u8],
    values: &mut Values<'l>,
) -> Result<(), Unread<'l>>
    ensures { words_of last.now ≡ last.now ∷ []
        → ReadsForm (λ done. line_values values.new) result
        (with_words form.arguments.now (text.now ∷ last.now ∷ []) (line_values values.old)) }
{
    let Some((argument, rest)) = form.arguments.split_first() else {
        return Err(Unread::Bad(FormFault::Behind(form, text)));
    };
    read_word(alloc, form, *argument, text, values)?;
    read_words(alloc, form, rest, Words::of(last), values)
}

/// Reads the words that are left for these arguments of this form.
fn read_words<'l>(
    alloc: Global,
    form: Form,
    arguments: &[Argument],
    mut words: Words<'l>,
    values: &mut Values<'l>,
) -> Result<(), Unread<'l>>
    ensures { ReadsForm (λ done. line_values values.new) result
        (with_words arguments.now words.entry (line_values values.old)) }
{
    let mut left = arguments;
    while let [argument, rest @ ..] = left {
        let Some(word) = words.next_word() else {
            return leave_out(form, *argument);
        };
        read_word(alloc, form, *argument, word, values)?;
        left = rest;
    }
    match words.next_word() {
        Some(word) => Err(Unread::Bad(FormFault::Behind(form, word))),
        None => Ok(()),
    }
}

/// No word is left for this argument.
fn leave_out<'l>(form: Form, argument: Argument) -> Result<(), Unread<'l>>
    ensures { ReadsForm (λ done. done) result (if is_left_out argument then Some tt else None) }
{
    if argument.may_be_left_out() {
        Ok(())
    } else {
        Err(Unread::Bad(FormFault::Missing(form, argument)))
    }
}

/// Reads the word of this argument.
fn read_word<'l>(
    alloc: Global,
    form: Form,
    argument: Argument,
    word: &'l [u8],
    values: &mut Values<'l>,
) -> Result<(), Unread<'l>>
    ensures { ReadsForm (λ done. line_values values.new) result
        (with_word argument word.now (line_values values.old)) }
{
    match values.add(alloc, argument, word) {
        Ok(()) => Ok(()),
        Err(LineFault::Bad) => Err(Unread::Bad(FormFault::OutOfRange(form, argument, word))),
        Err(_) => Err(Unread::Memory),
    }
}
