/// The outcome of a line of a side.
#[derive(Clone, Copy, PartialEq, Eq)]
pub enum Executed {
    /// It was executed.
    Done,
    /// The side has no such line; nothing was executed.
    Bad,
    /// It expects a line that was not printed in time.
    Unmet,
}
