//! Patterns of names.

ghost use Rattle.std.specs.Prelude.{◌≡◌};
ghost use Rattle.lapd_cli_conform.specs.Patterns.{fits as fits_pattern};

/// Whether a pattern fits a text. `*` fits any octets, also none, and every other octet itself.
pub fn fits(pattern: &[u8], text: &[u8]) -> bool
    ensures { result ≡ fits_pattern pattern.now text.now }
{
    match pattern {
        [] => text.is_empty(),
        [b'*', rest @ ..] => match text {
            [] => fits(rest, text),
            [_, others @ ..] => fits(rest, text) || fits(pattern, others),
        },
        [octet, rest @ ..] => match text {
            [] => false,
            [first, others @ ..] => octet == first && fits(rest, others),
        },
    }
}
