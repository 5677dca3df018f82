use lapd_test_text::Text;
use std::test::Fail;

/// Fails the test at the first wrong row, which each check returns, if there is one. `made` is its
/// result, if that is known.
pub(crate) fn none_is_wrong(looked: &[Option<&'static str>], made: &Text) -> Result<(), Fail> {
    match first_of(looked) {
        Some(row) => {
            let made = made.as_str();
            Err(Fail::new(format_args!("{row}\n  comes to: {made}")))
        }
        None => Ok(()),
    }
}

/// The first wrong row of these.
pub(crate) fn first_of(looked: &[Option<&'static str>]) -> Option<&'static str> {
    for wrong in looked {
        if wrong.is_some() {
            return *wrong;
        }
    }
    None
}
