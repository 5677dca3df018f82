//! Printing of lines.

ghost use Rattle.std.specs.Prelude.{◌≡◌, ◌≤◌, ◌++◌, ◌∷◌, [], length, OnOk, IsOkUnless};
ghost use Rattle.std.specs.Fmt.{decimal};
ghost use Rattle.std.specs.Io.KnownBytes.{Appends};
ghost use Rattle.hex.specs.Hex.{encode_lower};
ghost use Rattle.lapd_cli_script.specs.Line.{digits_of, text_line};

use crate::script::LineFault;
use std::io;
use std::io::Write;

/// Prints two texts as one line.
///
/// # Errors
///
/// `Device` if the writer fails: part of the line may have been written.
pub fn put_line<W: Write>(front: &[u8], back: &[u8], out: &mut W) -> Result<(), LineFault>
    ensures ok { OnOk result (Appends (W.contents out.old) (W.contents out.new)
        (text_line (front.now ++ back.now))) }
    ensures err { IsOkUnless result LineFault.Device }
{
    out.write_all(front)?;
    out.write_all(back)?;
    out.write_all(b"\n")?;
    Ok(())
}

/// Prints a line: the words, a space and one more word.
///
/// # Errors
///
/// `Device` if the writer fails: part of the line may have been written.
pub fn put_word<W: Write>(words: &[u8], word: &[u8], out: &mut W) -> Result<(), LineFault>
    ensures ok { OnOk result (Appends (W.contents out.old) (W.contents out.new)
        (text_line (words.now ++ 32 ∷ word.now))) }
    ensures err { IsOkUnless result LineFault.Device }
{
    out.write_all(words)?;
    put_line(b" ", word, out)
}

/// Prints a line: the words, a space and a number in decimal digits.
///
/// # Errors
///
/// `Device` if the writer fails: part of the line may have been written.
pub fn put_number<W: Write>(words: &[u8], number: u64, out: &mut W) -> Result<(), LineFault>
    ensures ok { OnOk result (Appends (W.contents out.old) (W.contents out.new)
        (text_line (words.now ++ 32 ∷ decimal number))) }
    ensures err { IsOkUnless result LineFault.Device }
{
    put_word(words, itoa::Buffer::new().format(number).as_bytes(), out)
}

/// Prints a line: the word, a space and the octets in lower case hexadecimal. Without octets it
/// prints the word alone.
///
/// # Errors
///
/// `Device` if the writer fails: part of the line may have been written.
pub fn put_octets<W: Write>(word: &[u8], octets: &[u8], out: &mut W) -> Result<(), LineFault>
    ensures ok { OnOk result (Appends (W.contents out.old) (W.contents out.new)
        (text_line (word.now ++ digits_of octets.now))) }
    ensures err { IsOkUnless result LineFault.Device }
{
    if octets.is_empty() {
        return put_line(word, &[], out);
    }
    out.write_all(word)?;
    if octets.len() <= CHUNK {
        put_digits(octets, out)?;
        return Ok(());
    }
    out.write_all(b" ")?;
    put_hex(octets, out)?;
    out.write_all(b"\n")?;
    Ok(())
}

// Writes a space, the digits of at most `CHUNK` octets and a line feed, in one write.
fn put_digits<W: Write>(octets: &[u8], out: &mut W) -> io::Result<()>
    requires { length octets.now ≤ CHUNK }
    ensures { OnOk result (Appends (W.contents out.old) (W.contents out.new)
        (32 ∷ encode_lower octets.now ++ 10 ∷ [])) }
{
    let mut text = [b' '; 2 * CHUNK + 2];
    let end = 2 * octets.len() + 1;
    let Ok(()) = hex::encode_to_slice(octets, &mut text[1..end]) else {
        unreachable!()
    };
    text[end] = b'\n';
    out.write_all(&text[..=end])
}

/// The number of octets printed in one write.
const CHUNK: usize = 64;

/// Writes octets in lower case hexadecimal, without spaces or a line feed. Does not allocate.
///
/// # Errors
///
/// The writer's error. Some digits may have been written.
pub fn put_hex<W: Write>(octets: &[u8], out: &mut W) -> io::Result<()>
    ensures { OnOk result (Appends (W.contents out.old) (W.contents out.new)
        (encode_lower octets.now)) }
{
    let mut rest = octets;
    while !rest.is_empty() {
        let (front, left) = rest.split_at(rest.len().min(CHUNK));
        put_hex_chunk(front, out)?;
        rest = left;
    }
    Ok(())
}

// Writes at most `CHUNK` octets.
fn put_hex_chunk<W: Write>(octets: &[u8], out: &mut W) -> io::Result<()>
    requires { length octets.now ≤ CHUNK }
    ensures { OnOk result (Appends (W.contents out.old) (W.contents out.new)
        (encode_lower octets.now)) }
{
    let mut digits = [0u8; 2 * CHUNK];
    let text = &mut digits[..2 * octets.len()];
    let Ok(()) = hex::encode_to_slice(octets, text) else {
        unreachable!()
    };
    out.write_all(text)
}
