/// The result of [`Pair::settle`](crate::Pair::settle) and [`Pair::recover`](crate::Pair::recover).
#[derive(Clone, Copy, Debug, PartialEq, Eq, Drop)]
pub struct Settled {
    /// The number of moves made.
    pub moves: u64,
    /// Whether no further move of those that the call tries is possible.
    pub rest: bool,
}
