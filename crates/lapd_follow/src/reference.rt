ghost use Rattle.std.specs.Prelude.{Some};
ghost use Rattle.std.specs.Fmt.{DisplaysOnOk};
ghost use Rattle.lapd_follow.specs.Texts.{reference_digits};

use std::fmt;

/// A reference of TEI management (Q.921 5.3.6.3), shown as its two octets in hexadecimal.
#[derive(Clone, Copy)]
pub(crate) struct Reference {
    pub(crate) ri: u16,
}

impl fmt::Display for Reference {
    ghost output = { λ shown. Some (reference_digits shown.ri) };

    fn fmt<W: fmt::Write>(&self, f: &mut fmt::Formatter<W>) -> fmt::Result {
        put_digits(self.ri, f)
    }
}

/// Writes a reference in four hexadecimal digits.
fn put_digits<W: fmt::Write>(ri: u16, f: &mut fmt::Formatter<W>) -> fmt::Result
    ensures { DisplaysOnOk W.write_str_gives f.old result (Some (reference_digits ri)) f.new }
{
    let mut digits = [0; 4];
    let Ok(()) = hex::encode_to_slice([(ri / 256) as u8, (ri % 256) as u8], &mut digits) else {
        unreachable!()
    };
    let Ok(digits) = str::from_utf8(&digits) else {
        unreachable!()
    };
    f.write_str(digits)
}
