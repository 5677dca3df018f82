//! Text in JSON strings and in XML.

ghost use Rattle.std.specs.Prelude.{◌≡◌, ◌<◌, ◌++◌, OnOk};
ghost use Rattle.lapd_cli_conform.specs.Escaped.{escaped, hex_digit as digit_of, json_octet, octet_text, xml_octet};

use std::alloc::AllocError;

/// The format of a text.
#[derive(Clone, Copy)]
pub(crate) enum Format {
    /// A string of JSON: control characters, quotes and backslashes are escaped.
    Json,
    /// An attribute or an element of XML. A control character, which XML does not have, is replaced
    /// by a question mark.
    Xml,
}

/// Appends text in this format.
pub(crate) fn push_escaped(
    text: &mut Vec<u8>,
    format: Format,
    value: &[u8],
) -> Result<(), AllocError>
    ensures { OnOk result (text.new.items ≡ text.old.items ++ escaped format value.now) }
{
    let mut rest = value;
    while let [octet, others @ ..] = rest {
        push_octet(text, format, *octet)?;
        rest = others;
    }
    Ok(())
}

fn push_octet(text: &mut Vec<u8>, format: Format, octet: u8) -> Result<(), AllocError>
    ensures { OnOk result (text.new.items ≡ text.old.items ++ octet_text format octet) }
{
    match format {
        Format::Json => push_json_octet(text, octet),
        Format::Xml => push_xml_octet(text, octet),
    }
}

fn push_json_octet(text: &mut Vec<u8>, octet: u8) -> Result<(), AllocError>
    ensures { OnOk result (text.new.items ≡ text.old.items ++ json_octet octet) }
{
    if octet < 32 {
        text.extend_from_slice(b"\\u00")?;
        text.push(hex_digit(octet / 16))?;
        text.push(hex_digit(octet % 16))?;
        return Ok(());
    }
    if octet == b'"' || octet == b'\\' {
        text.push(b'\\')?;
    }
    text.push(octet)?;
    Ok(())
}

/// The digit of a number up to 15.
fn hex_digit(number: u8) -> u8
    requires { number < 16 }
    ensures { result ≡ digit_of number }
{
    if number < 10 {
        b'0' + number
    } else {
        b'a' + (number - 10)
    }
}

fn push_xml_octet(text: &mut Vec<u8>, octet: u8) -> Result<(), AllocError>
    ensures { OnOk result (text.new.items ≡ text.old.items ++ xml_octet octet) }
{
    match octet {
        b'&' => text.extend_from_slice(b"&amp;")?,
        b'<' => text.extend_from_slice(b"&lt;")?,
        b'>' => text.extend_from_slice(b"&gt;")?,
        b'"' => text.extend_from_slice(b"&quot;")?,
        _ if octet < 32 => text.push(b'?')?,
        _ => text.push(octet)?,
    }
    Ok(())
}
