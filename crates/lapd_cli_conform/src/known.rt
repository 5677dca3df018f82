//! Cases that are known to fail.

/// Cases that are known to fail.
#[derive(Clone, Copy)]
pub struct KnownCases<'a> {
    /// Their names, each text with commas between them.
    pub lists: &'a [&'a str],
}

impl KnownCases<'_> {
    /// Whether the case with this name is known to fail.
    pub fn has(&self, name: &str) -> bool {
        for list in self.lists {
            for known in list.split(',') {
                if known == name {
                    return true;
                }
            }
        }
        false
    }
}
