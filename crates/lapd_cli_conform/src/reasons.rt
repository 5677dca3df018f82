//! Reasons of verdicts, in words.

use lapd_conform::{Doubt, Lacks, Need, Preamble, Reason};

/// Why the purpose of a case was not reached.
pub fn reason_words(reason: Reason) -> &'static str {
    match reason {
        Reason::Unexpected => "the stack sent another frame",
        Reason::Missing => "the stack sent nothing",
        Reason::Early => "a timer expired too early",
        Reason::Late => "a frame or a timer was late",
        Reason::NotReached(state) => unreached_words(state),
        Reason::TooManyFrames => "the stack sent too many frames",
    }
}

/// That the preamble failed.
fn unreached_words(state: Preamble) -> &'static str {
    match state {
        Preamble::TeiUnassigned => "the preamble did not reach state 1",
        Preamble::AssignAwaitingTei => "the preamble did not reach state 2",
        Preamble::EstablishAwaitingTei => "the preamble did not reach state 3",
        Preamble::TeiAssigned => "the preamble did not reach state 4",
        Preamble::AwaitingEstablishment => "the preamble did not reach state 5",
        Preamble::LineEstablishes => "the preamble did not reach state 5-line",
        Preamble::AwaitingRelease => "the preamble did not reach state 6",
        Preamble::Established => "the preamble did not reach state 7",
        Preamble::TimerRecovery => "the preamble did not reach state 8",
        Preamble::OneOutstanding => "the preamble did not reach state 8-out",
    }
}

/// Why the table decides nothing. Empty if it allows all frames.
pub fn doubt_words(doubt: Doubt) -> &'static str {
    match doubt {
        Doubt::Allowed => "",
        Doubt::TooManyRuns => "the state table has more runs than the judge follows",
        Doubt::LayerThree => "layer 3 of the stack may have made a request",
        Doubt::NotRepeated => "the case failed once, and not when it was played again",
        Doubt::NotJudged =>
            "the stack was not started anew, or the line or a request was too slow to judge",
    }
}

/// The need of a case that the stack does not meet, as the object of "needs".
pub fn lack_words(lacks: Lacks) -> &'static str {
    match lacks {
        Lacks::End => "the other end",
        Lacks::Need(need) => need_words(need),
        Lacks::State(Preamble::AwaitingRelease) => "release",
        Lacks::State(_) => "give",
    }
}

fn need_words(need: Need) -> &'static str {
    match need {
        Need::Give => "give",
        Need::Unit => "unit",
        Need::Busy => "busy",
        Need::Check => "check",
        Need::Ask => "ask",
        Need::Remove => "remove",
        Need::Establish => "establish",
        Need::Release => "release",
        Need::WindowOverOne => "k>1",
        Need::WindowOverTwo => "k>2",
        Need::IdleTimer => "t203",
        Need::LongestLength => "n201",
        Need::ServedSapis => "sapis",
        Need::AutomaticTei => "automatic",
    }
}
