ghost use Rattle.std.specs.Prelude.{◌≡◌, ◌≤◌, ℕ, List, [], ◌∷◌, ◌++◌, IfOk};
ghost use Rattle.std.specs.String.{string_bytes};
ghost use Rattle.lapd_trace.specs.HistoryLines.{HistoryLines, last_of};

use crate::Lines;
use circular_buffer::HeapCircularBuffer;
use std::alloc::{AllocError, Global};
use std::marker::Model;

/// The last lines of a trace, at most a number that is fixed when the history is made.
#[derive(Drop)]
pub struct History {
    lines: HeapCircularBuffer<String>,
}

impl Model for History {
    ghost use Rattle.std.specs.Prelude.{◌<◌, map};
    ghost use Rattle.std.specs.String.{string_bytes};
    ghost use Rattle.lapd_trace.specs.HistoryLines.{HistoryLines};

    ghost Value = { HistoryLines };

    ghost view = { λ h. record {
      room = h.lines.capacity;
      lines = map string_bytes h.lines.items;
    } };

    ghost invariant = { λ h. 0 < h.lines.capacity };
}

impl History {
    /// Makes an empty history that keeps the last `n` lines, 1 to 1,024. It allocates its `n`
    /// places now, and no more later.
    pub fn new(alloc: Global, n: usize) -> Result<History, AllocError>
        requires least { 1 ≤ n }
        requires most { n ≤ 1024 }
        ensures { IfOk result (λ history. history ≡ record { room = n; lines = [] }) }
    {
        Ok(History {
            lines: HeapCircularBuffer::with_capacity(alloc, n)?,
        })
    }

    /// Appends a line. If the history is full, the oldest line is dropped.
    pub fn push(&mut self, line: String)
        ensures push { self.new ≡ record self.old {
          lines = last_of self.old.room
              (self.old.lines ++ string_bytes line ∷ []);
        } }

        // It keeps the last of all lines that were pushed.
        ensures all { (pushed : List (List ℕ)) → self.old.lines ≡ last_of self.old.room pushed
            → self.new.lines ≡ last_of self.old.room (pushed ++ string_bytes line ∷ []) }
    {
        self.lines.push_back(line);
    }

    /// The lines that it keeps, oldest first.
    pub fn lines(&self) -> Lines<'_>
        ensures { result ≡ self.now.lines }
    {
        Lines {
            rest: self.lines.iter(),
        }
    }
}
