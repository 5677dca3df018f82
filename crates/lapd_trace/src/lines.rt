ghost use Rattle.std.specs.Iterator.{YieldsFirstBy, item_count};

use circular_buffer::Iter;
use std::marker::Model;

/// The lines of a history, oldest first.
#[derive(Drop)]
pub struct Lines<'a> {
    pub(crate) rest: Iter<'a, String>,
}

impl<'a> Model for Lines<'a> {
    ghost use Rattle.std.specs.Prelude.{ℕ, List, map};
    ghost use Rattle.std.specs.String.{string_bytes};

    ghost Value = { List (List ℕ) };

    ghost view = { λ lines. map string_bytes lines.rest };
}

impl<'a> Iterator for Lines<'a> {
    type Item = &'a str;

    ghost next_gives = { YieldsFirstBy (λ line. line.now) (λ lines. lines) };

    ghost remaining = { item_count (λ lines. lines) };

    fn next(&mut self) -> Option<&'a str> {
        let line = self.rest.next()?;
        Some(line.as_str())
    }
}
