//! The form of a line: its first word and the words after it.

use std::fmt;

/// The meaning of a word after the first word of a line.
#[derive(Clone, Copy)]
pub enum Argument {
    /// The delay of each sent frame in milliseconds, 0 to 3,600,000. It may be left out.
    Delay,
    /// The fixed TEI of a terminal, 0 to 126. It may be left out.
    FixedTei,
    /// Octets in hexadecimal digits, which end the line. Left out if there are no octets.
    Hex,
    /// The chance that a sent frame is lost, 0 to 100 per cent, with or without a `%`.
    Loss,
    /// The index of a message among those on their way.
    Message,
    /// A time in milliseconds, 1 to 3,600,000.
    Milliseconds,
    /// `on` or `off`.
    OnOff,
    /// A time in milliseconds, 1 to 3,600,000, which may be left out.
    OptionalMilliseconds,
    /// A SAPI: 0, 16 or 63. It may be left out with all words after it.
    OptionalSapi,
    /// The index of a frame among those on their way.
    Place,
    /// A reference number (Ri) of TEI management, four hexadecimal digits.
    Reference,
    /// A SAPI: 0, 16 or 63.
    Sapi,
    /// `user` or `net`.
    Side,
    /// `net` or the number of a terminal.
    Station,
    /// A TEI, 0 to 127.
    Tei,
    /// The number of a terminal.
    Terminal,
    /// All words up to the last one, with the spaces between them: text of at least one octet.
    Words,
}

impl Argument {
    ghost use Rattle.std.specs.Prelude.{◌≡◌};
    ghost use Rattle.lapd_cli_grammar.specs.Values.{has_bracket, is_hex, is_left_out, is_words};

    /// The name of the argument in a form.
    pub fn name(self) -> &'static str {
        match self {
            Argument::Delay => "DELAY MS",
            Argument::Hex => "HEX",
            Argument::Loss => "LOSS%",
            Argument::Message => "I",
            Argument::Milliseconds | Argument::OptionalMilliseconds => "MS",
            Argument::OnOff => "on|off",
            Argument::Place => "N",
            Argument::Reference => "RI",
            Argument::Sapi | Argument::OptionalSapi => "SAPI",
            Argument::Side => "SIDE",
            Argument::Station => "WHO",
            Argument::Tei | Argument::FixedTei => "TEI",
            Argument::Terminal => "T",
            Argument::Words => "WORDS..",
        }
    }

    /// Whether the word may be left out, with all words after it.
    pub fn may_be_left_out(self) -> bool
        ensures { result ≡ is_left_out self }
    {
        matches!(self, Argument::Hex) || self.has_bracket()
    }

    /// Whether the form has a square bracket before the word, because it may be left out.
    fn has_bracket(self) -> bool
        ensures { result ≡ has_bracket self }
    {
        matches!(
            self,
            Argument::Delay
                | Argument::FixedTei
                | Argument::OptionalMilliseconds
                | Argument::OptionalSapi
        )
    }

    /// Whether the argument is octets in hexadecimal digits.
    pub fn is_hex(self) -> bool
        ensures { result ≡ is_hex self }
    {
        matches!(self, Argument::Hex)
    }

    /// Whether the argument is all words up to the last one.
    pub fn is_words(self) -> bool
        ensures { result ≡ is_words self }
    {
        matches!(self, Argument::Words)
    }

    /// The valid values of the word, as text.
    pub fn range(self) -> &'static str {
        match self {
            Argument::Delay => "a number from 0 to 3,600,000",
            Argument::FixedTei => "a number from 0 to 126",
            Argument::Hex => "octets in hexadecimal digits",
            Argument::Loss => "a number from 0 to 100",
            Argument::Message | Argument::Place | Argument::Terminal => {
                "a number below 2^64 in decimal digits"
            }
            Argument::Milliseconds | Argument::OptionalMilliseconds => {
                "a number from 1 to 3,600,000"
            }
            Argument::OnOff => "'on' or 'off'",
            Argument::Reference => "four hexadecimal digits",
            Argument::Sapi | Argument::OptionalSapi => "0, 16 or 63",
            Argument::Side => "'user' or 'net'",
            Argument::Station => "'net' or the number of a terminal",
            Argument::Tei => "a number from 0 to 127",
            Argument::Words => "text",
        }
    }
}

impl fmt::Display for Argument {
    fn fmt<W: fmt::Write>(&self, f: &mut fmt::Formatter<W>) -> fmt::Result {
        f.write_str(self.name())
    }
}

/// The form of a line, such as `give SIDE HEX` or `state [SAPI TEI]`. Single spaces separate its
/// words. Words in square brackets may be left out, all together.
#[derive(Clone, Copy)]
pub struct Form {
    /// The first word.
    pub word: &'static str,
    /// The words after it, in order.
    pub arguments: &'static [Argument],
}

impl fmt::Display for Form {
    fn fmt<W: fmt::Write>(&self, f: &mut fmt::Formatter<W>) -> fmt::Result {
        f.write_str(self.word)?;
        let mut end = "";
        for argument in self.arguments {
            f.write_str(" ")?;
            if argument.has_bracket() {
                f.write_str("[")?;
                end = "]";
            }
            f.write_str(argument.name())?;
        }
        f.write_str(end)
    }
}

/// A list of forms, separated by commas.
#[derive(Clone, Copy)]
pub struct Forms(pub &'static [Form]);

impl fmt::Display for Forms {
    fn fmt<W: fmt::Write>(&self, f: &mut fmt::Formatter<W>) -> fmt::Result {
        for (place, form) in self.0.iter().enumerate() {
            if place > 0 {
                f.write_str(", ")?;
            }
            write!(f, "{form}")?;
        }
        Ok(())
    }
}
