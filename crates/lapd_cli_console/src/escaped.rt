//! Showing what a terminal must not obey.

use std::fmt;

/// A text whose control characters are escaped, such as the name of a file.
#[derive(Clone, Copy)]
pub struct Escaped<'a>(pub &'a str);

/// Lines of text whose other control characters are escaped.
#[derive(Clone, Copy)]
pub struct EscapedLines<'a>(pub &'a str);

impl fmt::Display for Escaped<'_> {
    fn fmt<W: fmt::Write>(&self, f: &mut fmt::Formatter<W>) -> fmt::Result {
        for character in self.0.chars() {
            put_escaped(character, f)?;
        }
        Ok(())
    }
}

impl fmt::Display for EscapedLines<'_> {
    fn fmt<W: fmt::Write>(&self, f: &mut fmt::Formatter<W>) -> fmt::Result {
        for character in self.0.chars() {
            if character == '\n' {
                f.write_char(character)?;
            } else {
                put_escaped(character, f)?;
            }
        }
        Ok(())
    }
}

/// Writes a character; the octets of a control character as those of a line are shown.
fn put_escaped<W: fmt::Write>(character: char, f: &mut fmt::Formatter<W>) -> fmt::Result {
    if !character.is_control() {
        return f.write_char(character);
    }
    let mut room = [0; 4];
    let octets = character.encode_utf8(&mut room).as_bytes();
    write!(f, "{}", octets.escape_ascii())
}
