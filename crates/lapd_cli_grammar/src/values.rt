//! The values of a line's words.

ghost use Rattle.std.specs.Prelude.{◌≡◌, option_map};
ghost use Rattle.lapd_cli_script.specs.Line.{Reads, parsed_number};
ghost use Rattle.lapd_cli_grammar.specs.Values.{line_values, no_values, parsed_octets, parsed_reference, with_word};

use crate::form::Argument;
use crate::numbers::{
    delay_of, fixed_of, loss_of, place_of, sapi_of, side_of, span_of, station_of, switch_of,
    tei_of, text_of,
};
use lapd_cli_script::{LineFault, Words};
use lapd_frame::{Sapi, Tei};
use std::alloc::Global;

/// The values of the words after the first word of a line. A value that no word has is `None`, 0,
/// empty or `false`.
#[derive(Drop)]
pub struct Values<'l> {
    /// The number of the terminal. It is `None` too if the line names `net` instead.
    pub terminal: Option<u64>,
    /// The place of a frame among those on their way.
    pub place: Option<u64>,
    /// The SAPI.
    pub sapi: Option<Sapi>,
    /// The TEI.
    pub tei: Option<Tei>,
    /// The time in milliseconds, 1 to 3,600,000.
    pub ms: Option<u64>,
    /// The octets.
    pub octets: Vec<u8>,
    /// Whether the word is `on`, and not `off`.
    pub on: bool,
    /// The loss of frames, 0 to 100 per cent.
    pub loss: u8,
    /// The delay of frames in milliseconds, 0 to 3,600,000.
    pub delay: u64,
    /// The text of WORDS.., which is UTF-8.
    pub text: &'l [u8],
}

impl<'l> Values<'l> {
    /// No word has a value.
    pub(crate) fn none(alloc: Global) -> Values<'l>
        ensures { line_values result ≡ no_values }
    {
        Values {
            terminal: None,
            place: None,
            sapi: None,
            tei: None,
            ms: None,
            octets: Vec::new(alloc),
            on: false,
            loss: 0,
            delay: 0,
            text: &[],
        }
    }

    /// Adds the value of a word of this argument.
    ///
    /// # Errors
    ///
    /// `Bad` if the word is not a valid value of the argument, `Memory` if an allocation fails.
    pub(crate) fn add(
        &mut self,
        alloc: Global,
        argument: Argument,
        word: &'l [u8],
    ) -> Result<(), LineFault>
        ensures { Reads (λ done. line_values self.new) result
            (with_word argument word.now (line_values self.old)) }
    {
        match argument {
            Argument::Delay => self.delay = delay_of(word)?,
            Argument::FixedTei => self.tei = Some(fixed_of(word)?),
            Argument::Hex => Words::of(word).octets_into(&mut self.octets)?,
            Argument::Loss => self.loss = loss_of(word)?,
            Argument::Message => message(word)?,
            Argument::Milliseconds | Argument::OptionalMilliseconds => {
                self.ms = Some(span_of(word)?);
            }
            Argument::OnOff => self.on = switch_of(word)?,
            Argument::Place => self.place = Some(place_of(word)?),
            Argument::Reference => reference(alloc, word)?,
            Argument::Sapi | Argument::OptionalSapi => self.sapi = Some(sapi_of(word)?),
            Argument::Side => side_of(word)?,
            Argument::Station => self.terminal = station_of(word)?,
            Argument::Tei => self.tei = Some(tei_of(word)?),
            Argument::Terminal => self.terminal = Some(place_of(word)?),
            Argument::Words => self.text = text_of(word)?,
        }
        Ok(())
    }
}

/// Checks that a word is a number below 2^64.
fn message(word: &[u8]) -> Result<(), LineFault>
    ensures { Reads (λ done. done) result (option_map (λ n. tt) (parsed_number word.now)) }
{
    place_of(word)?;
    Ok(())
}

/// Checks that a word is a reference number: four hexadecimal digits.
fn reference(alloc: Global, word: &[u8]) -> Result<(), LineFault>
    ensures { Reads (λ done. done) result (option_map (λ ri. tt) (parsed_reference word.now)) }
{
    if word.len() != 4 {
        return Err(LineFault::Bad);
    }
    Words::of(word).octets(alloc)?;
    Ok(())
}
