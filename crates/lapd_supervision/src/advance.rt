/// The effect of a valid N(R) (Q.921 5.6.3.2).
#[derive(Clone, Copy, Debug, PartialEq, Eq)]
pub struct Advance {
    /// How many I frames it newly acknowledges, 0 to 127.
    pub count: u8,
    /// Whether no I frame is outstanding afterwards: N(R) = V(S).
    pub all: bool,
}
