//! The words of a command.

/// The words of a command, separated by single spaces. The first one is the program's name.
#[derive(Clone, Copy)]
pub struct CommandWords<'a>(pub &'a str);

impl<'a> CommandWords<'a> {
    /// The name of the command; empty without one.
    pub fn command(self) -> &'a str {
        self.0.split(' ').nth(1).unwrap_or("")
    }

    /// Whether this word is one of them.
    pub fn has(self, flag: &str) -> bool {
        for word in self.0.split(' ') {
            if word == flag {
                return true;
            }
        }
        false
    }

    /// The word after this option, or `default` if the option is absent.
    pub fn value(self, option: &str, default: &'a str) -> &'a str {
        let mut is_next = false;
        for word in self.0.split(' ') {
            if is_next {
                return word;
            }
            is_next = word == option;
        }
        default
    }

    /// The number from 0 to 255 after this option, if it is present.
    pub fn octet(self, option: &str) -> Option<u8> {
        self.value(option, "").parse().ok()
    }
}
