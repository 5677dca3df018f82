//! The parts of a line for its JSON object.

ghost use Rattle.std.specs.Prelude.{◌≡◌, false};
ghost use Rattle.serde_json.specs.View.{members_view};
ghost use Rattle.serde_json.specs.Written.{members_have_float};

use serde_json::{Map, Value, put};
use std::alloc::{AllocError, Global};

/// The members of a line's object so far, and the words that are no members.
#[derive(Drop)]
pub(crate) struct LineParts {
    alloc: Global,
    members: Map<String, Value>,
    /// The words that are no members, with single spaces between them.
    words: String,
    ghost no_float: { members_have_float (members_view members.entries) ≡ false },
}

impl LineParts {
    ghost use Rattle.std.specs.Prelude.{codes, IfOk, OnOk};
    ghost use Rattle.std.specs.String.{string_bytes};
    ghost use Rattle.lapd_cli_render.specs.Json.{object_text, with_number, with_text};
    ghost use Rattle.lapd_cli_live_text.specs.LineObjects.{joined, no_parts, parts_members};
    ghost use Rattle.lapd_cli_live_text.specs.LineParts.{parts_of};

    /// The parts of a line without words.
    pub(crate) fn new(alloc: Global) -> LineParts
        ensures { parts_of result ≡ no_parts }
    {
        LineParts {
            alloc,
            members: Map::new(alloc),
            words: String::new(alloc),
        }
    }

    /// Sets a member to a number.
    pub(crate) fn put_number(&mut self, name: &str, number: u64) -> Result<(), AllocError>
        ensures { OnOk result (parts_of self.new ≡ record (parts_of self.old) {
          members = with_number name.now number (parts_of self.old).members;
        }) }
    {
        put(&mut self.members, self.alloc, name, Value::from(number))
    }

    /// Adds a word that is no member.
    pub(crate) fn add_word(&mut self, word: &str) -> Result<(), AllocError>
        ensures { OnOk result (parts_of self.new ≡ record (parts_of self.old) {
          words = joined (parts_of self.old).words word.now;
        }) }
    {
        if !self.words.is_empty() {
            self.words.push(' ')?;
        }
        self.words.push_str(word)
    }

    /// The text of the object. It has no line feed.
    pub(crate) fn into_text(mut self) -> Result<String, AllocError>
        ensures { IfOk result (λ text.
            string_bytes text ≡ object_text (parts_members (parts_of self))) }
    {
        if !self.words.is_empty() {
            self.put_words()?;
        }
        Value::Object(self.members).to_string(self.alloc)
    }

    /// Sets the member `line` to the words that are no members.
    fn put_words(&mut self) -> Result<(), AllocError>
        ensures { OnOk result (members_view self.new.members.entries
            ≡ with_text (codes "line") (string_bytes self.old.words)
            (members_view self.old.members.entries)) }
    {
        let words = Value::try_from_str(self.alloc, self.words.as_str())?;
        put(&mut self.members, self.alloc, "line", words)
    }
}
