//! The result of a case.

use crate::judgement::Verdict;
use lapd_conform_player::{Happening, Lacks, Reason};

/// Why the table decides nothing about a case.
#[derive(Clone, Copy, Debug, PartialEq, Eq)]
pub enum Doubt {
    /// None: the table allows all frames.
    Allowed,
    /// More runs of the table are possible than the judge follows.
    TooManyRuns,
    /// Layer 3 of the stack may have made a request by itself.
    LayerThree,
    /// The case failed, and passed or was inconclusive when it was repeated.
    NotRepeated,
    /// TEI management is judged by the purpose of the case, which needs a stack that is started
    /// anew, a line that is faster than T200, and a request that is confirmed.
    NotJudged,
}

/// The result of a case that was executed.
#[derive(Drop)]
pub struct Played {
    /// The verdict.
    pub verdict: Verdict,
    /// The number of the line in the suite at which the case ended.
    pub line: u64,
    /// Why the purpose was not reached. `None` if it was.
    pub reason: Option<Reason>,
    /// Why the table decides nothing, for an inconclusive case.
    pub doubt: Doubt,
    /// The place of the frame that the table does not allow, for a case that failed by the table;
    /// the number of all happenings for a frame that is overdue.
    pub refused: Option<usize>,
    /// The dialogue.
    pub happenings: Vec<Happening>,
}

/// The result of a case.
#[derive(Drop)]
pub enum Outcome {
    /// The case does not apply.
    NotApplicable(Lacks),
    /// The case was executed.
    Played(Played),
}
