//! The members of an object of texts, numbers and flags.

ghost use Rattle.std.specs.Prelude.{◌≡◌, false, IfOk, OnOk};
ghost use Rattle.std.specs.String.{string_bytes};
ghost use Rattle.serde_json.specs.Data.{no_members};
ghost use Rattle.serde_json.specs.View.{members_view};
ghost use Rattle.serde_json.specs.Written.{members_have_float};
ghost use Rattle.lapd_cli_render.specs.Json.{object_text, text_members, with_flag, with_number, with_text};

use serde_json::{Map, Value, put};
use std::alloc::{AllocError, Global};

/// The members of an object in alphabetical order. Each is a text, a number or a flag.
#[derive(Drop)]
pub struct Members {
    alloc: Global,
    /// The members by their names.
    pub map: Map<String, Value>,
    ghost no_float: { members_have_float (members_view map.entries) ≡ false },
}

impl Members {
    /// An object without members.
    pub fn new(alloc: Global) -> Members
        ensures { members_view result.map.entries ≡ no_members }
    {
        Members {
            alloc,
            map: Map::new(alloc),
        }
    }

    /// Sets a member to a text.
    ///
    /// # Errors
    ///
    /// `AllocError` if an allocation fails.
    pub fn put_text(&mut self, key: &str, text: &str) -> Result<(), AllocError>
        ensures { OnOk result (members_view self.new.map.entries
            ≡ with_text key.now text.now (members_view self.old.map.entries)) }
    {
        let value = Value::try_from_str(self.alloc, text)?;
        put(&mut self.map, self.alloc, key, value)
    }

    /// Sets a member to a number.
    ///
    /// # Errors
    ///
    /// `AllocError` if an allocation fails.
    pub fn put_number(&mut self, key: &str, number: u64) -> Result<(), AllocError>
        ensures { OnOk result (members_view self.new.map.entries
            ≡ with_number key.now number (members_view self.old.map.entries)) }
    {
        put(&mut self.map, self.alloc, key, Value::from(number))
    }

    /// Sets a member to a flag.
    ///
    /// # Errors
    ///
    /// `AllocError` if an allocation fails.
    pub fn put_flag(&mut self, key: &str, flag: bool) -> Result<(), AllocError>
        ensures { OnOk result (members_view self.new.map.entries
            ≡ with_flag key.now flag (members_view self.old.map.entries)) }
    {
        put(&mut self.map, self.alloc, key, Value::from(flag))
    }

    /// The object's text, in one line without spaces.
    ///
    /// # Errors
    ///
    /// `AllocError` if an allocation fails.
    pub fn into_text(self) -> Result<String, AllocError>
        ensures { IfOk result (λ text.
            string_bytes text ≡ object_text (members_view self.map.entries)) }
    {
        Value::Object(self.map).to_string(self.alloc)
    }
}

/// Returns the JSON object of one member, a text, in one line without line feeds.
///
/// # Errors
///
/// `AllocError` if an allocation fails.
pub fn text_line(alloc: Global, key: &str, text: &str) -> Result<String, AllocError>
    ensures { IfOk result (λ line.
        string_bytes line ≡ object_text (text_members key.now text.now)) }
{
    let mut members = Members::new(alloc);
    members.put_text(key, text)?;
    members.into_text()
}
