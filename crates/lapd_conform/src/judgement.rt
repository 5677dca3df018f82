//! The judgement on a dialogue, and the verdict on a case.

ghost use Rattle.std.specs.Prelude.{◌≡◌};
ghost use Rattle.lapd_conform.specs.Verdict.{verdict_of};

/// The judgement on a dialogue.
#[derive(Clone, Copy, Debug, PartialEq, Eq)]
pub enum Judgement {
    /// Some run of an allowed table has the dialogue.
    Allowed,
    /// No run has the dialogue up to the happening at this place. At the number of happenings
    /// itself: a frame is overdue at the end.
    Refused(usize),
    /// More runs are possible than the judge follows.
    TooMany,
    /// A frame that only a request of the stack's own layer 3 explains.
    LayerThree,
}

/// The verdict on a case.
#[derive(Clone, Copy, Debug, PartialEq, Eq)]
pub enum Verdict {
    /// The purpose was reached, and the table allows all frames.
    Pass,
    /// The table does not allow the frames.
    Fail,
    /// The purpose was not reached, but nothing is proved against the stack.
    Inconclusive,
}

/// The verdict on a case whose purpose was reached, or not.
pub fn verdict_on(reached: bool, judgement: Judgement) -> Verdict
    ensures { result ≡ verdict_of reached judgement }
{
    match judgement {
        Judgement::Refused(_) => Verdict::Fail,
        Judgement::Allowed if reached => Verdict::Pass,
        _ => Verdict::Inconclusive,
    }
}
