//! Failing a test with a row.

use std::test::Fail;

/// Fails with the row's name and with `what` unless `so`.
pub fn wants(so: bool, name: &str, what: &str) -> Result<(), Fail> {
    if so {
        Ok(())
    } else {
        Err(Fail::new(format_args!("{name}: {what}")))
    }
}

/// Fails at the first row that is not so. Each row has a name and what is wrong if it fails.
pub fn all_hold(rows: &[(bool, &str, &str)]) -> Result<(), Fail> {
    for (so, name, what) in rows {
        wants(*so, name, what)?;
    }
    Ok(())
}
