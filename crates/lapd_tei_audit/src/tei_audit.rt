ghost use Rattle.std.specs.Prelude.{◌≡◌, ◌<◌, IfSome, true};
ghost use Rattle.lapd_tei_audit.specs.Audit.{all_asked, counts_answer, first_suspect, first_unknown, is_awaiting, is_suspect, is_unknown, new_audit, next_moment, next_step, one_more, settled, sees};

use crate::AuditStep;
use lapd_frame::Tei;
use lapd_tei::Assigner;
use std::marker::Model;

/// How many answers for a TEI have arrived since all terminals were asked.
#[derive(Clone, Copy, PartialEq, Eq)]
pub enum Answers {
    /// None.
    Nobody,
    /// One.
    One,
    /// Two or more.
    Several,
    /// The TEI was removed or checked since then.
    Settled,
}

/// The audit of the TEIs of a bus. Moments and durations are in milliseconds.
#[derive(Clone, Copy, PartialEq, Eq)]
pub struct TeiAudit {
    /// How long answers may take, T201.
    t201: u32,
    /// The time from one request to all terminals to the next.
    interval: u64,
    /// Whether all terminals are to be asked as soon as possible.
    is_requested: bool,
    /// The moment at which all terminals are asked next.
    next_at: u64,
    /// The moment by which the answers have arrived, until they are judged.
    answered_by: Option<u64>,
    /// Whether a frame of a link of the TEI was discarded.
    discarded: [bool; 127],
    answers: [Answers; 127],
}

impl Model for TeiAudit {
    ghost use Rattle.lapd_tei_audit.specs.Audit.{AuditState};

    ghost Value = { AuditState };

    ghost view = { λ a. record {
      t201 = a.t201;
      interval = a.interval;
      is_requested = a.is_requested;
      next_at = a.next_at;
      answered_by = a.answered_by;
      discarded = a.discarded;
      answers = a.answers;
    } };

    ghost inverse = { λ a. record {
      t201 = a.t201;
      interval = a.interval;
      is_requested = a.is_requested;
      next_at = a.next_at;
      answered_by = a.answered_by;
      discarded = a.discarded;
      answers = a.answers;
    } };
}

#[tactic(auto, using(crate::proofs::FirstOf::before_first, crate::proofs::FirstOf::skipped, crate::proofs::FirstOf::found, crate::proofs::FirstOf::none_left))]
impl TeiAudit {
    /// An audit that asks all terminals at the moment `interval` for the first time, unless a
    /// terminal joins before. Answers may take T201, in milliseconds.
    pub fn new(t201: u32, interval: u64) -> TeiAudit
        ensures { result ≡ new_audit t201 interval }
    {
        TeiAudit {
            t201,
            interval,
            is_requested: false,
            next_at: interval,
            answered_by: None,
            discarded: [false; 127],
            answers: [Answers::Settled; 127],
        }
    }

    /// Asks all terminals as soon as possible: a terminal has joined the bus.
    pub fn request(&mut self)
        ensures { self.new ≡ record self.old { is_requested = true } }
    {
        self.is_requested = true;
    }

    /// Records that the side discarded a frame of a link of this TEI.
    pub fn see(&mut self, tei: Tei)
        ensures { self.new ≡ sees tei self.old }
    {
        if tei != Tei::group() {
            self.discarded[usize::from(tei.value())] = true;
        }
    }

    /// Counts an answer for this TEI.
    pub fn count_answer(&mut self, tei: Tei)
        ensures { self.new ≡ counts_answer tei self.old }
    {
        if tei != Tei::group() {
            let place = usize::from(tei.value());
            self.answers[place] = one_more(self.answers[place]);
        }
    }

    /// What the side is to do at this moment, or `None`. `up` has for each TEI whether a link of it
    /// is established. Do it, and call again until `None`.
    pub fn next(&mut self, assigner: &Assigner, up: &[bool; 127], now: u64) -> Option<AuditStep>
        ensures step { result ≡ (next_step assigner.now up.now now self.old).step }
        ensures after { self.new ≡ (next_step assigner.now up.now now self.old).after }
    {
        if let Some(tei) = self.first_unknown(assigner) {
            self.settle(tei);
            return Some(AuditStep::Remove(tei));
        }
        if assigner.check().is_some() || self.is_awaiting(now) {
            return None;
        }
        if let Some(tei) = self.first_suspect(assigner, up) {
            self.settle(tei);
            return Some(AuditStep::Check(tei));
        }
        self.answered_by = None;
        if self.is_requested || self.next_at <= now {
            self.ask_all(now);
            return Some(AuditStep::CheckAll);
        }
        None
    }

    /// The next moment at which [`TeiAudit::next`] may have something to do though no frame has
    /// arrived and no terminal has joined. Before, it has nothing to do.
    pub fn next_moment(&self) -> Option<u64>
        ensures { result ≡ next_moment self.now }
    {
        match self.answered_by {
            Some(moment) => Some(moment),
            None => Some(self.next_at),
        }
    }

    /// Whether answers may still arrive at this moment.
    fn is_awaiting(&self, now: u64) -> bool
        ensures { result ≡ is_awaiting self.now.answered_by now }
    {
        match self.answered_by {
            Some(moment) => now < moment,
            None => false,
        }
    }

    /// Records that all terminals are asked at this moment.
    fn ask_all(&mut self, now: u64)
        ensures { self.new ≡ all_asked now self.old }
    {
        self.is_requested = false;
        self.next_at = now.saturating_add(self.interval);
        self.answered_by = Some(now.saturating_add(u64::from(self.t201)));
        self.answers = [Answers::Nobody; 127];
    }

    /// Records that the side removes or checks this TEI.
    fn settle(&mut self, tei: Tei)
        requires { tei < 127 }
        ensures { self.new ≡ settled tei self.old }
    {
        let place = usize::from(tei.value());
        self.discarded[place] = false;
        self.answers[place] = Answers::Settled;
    }

    /// The lowest TEI that a terminal uses and the side does not hold.
    fn first_unknown(&self, assigner: &Assigner) -> Option<Tei>
        ensures first { result ≡ first_unknown assigner.now.held self.now }
        ensures in_range { IfSome result (λ tei. tei < 127) }
    {
        for place in 64..127 {
            let Some(tei) = Tei::new(place) else {
                unreachable!()
            };
            if self.is_unknown(assigner, tei) {
                return Some(tei);
            }
        }
        None
    }

    fn is_unknown(&self, assigner: &Assigner, tei: Tei) -> bool
        requires { tei < 127 }
        ensures { result ≡ is_unknown assigner.now.held self.now tei }
    {
        let place = usize::from(tei.value());
        let is_answered = matches!(self.answers[place], Answers::One | Answers::Several);
        !assigner.holds(tei) && (self.discarded[place] || is_answered)
    }

    /// The lowest TEI to check: the side holds it, and two terminals answered for it, or nobody did
    /// while no link of it is established.
    fn first_suspect(&self, assigner: &Assigner, up: &[bool; 127]) -> Option<Tei>
        ensures first { result ≡ first_suspect assigner.now.held up.now self.now }
        ensures in_range { IfSome result (λ tei. tei < 127) }
    {
        if self.answered_by.is_none() {
            return None;
        }
        for place in 64..127 {
            let Some(tei) = Tei::new(place) else {
                unreachable!()
            };
            if self.is_suspect(assigner, up, tei) {
                return Some(tei);
            }
        }
        None
    }

    fn is_suspect(&self, assigner: &Assigner, up: &[bool; 127], tei: Tei) -> bool
        requires { tei < 127 }
        ensures { result ≡ is_suspect assigner.now.held up.now self.now tei }
    {
        let place = usize::from(tei.value());
        let is_bad = match self.answers[place] {
            Answers::Several => true,
            Answers::Nobody => !up[place],
            Answers::One | Answers::Settled => false,
        };
        assigner.holds(tei) && is_bad
    }
}

/// Counts one more answer, up to `Several`. A settled TEI stays so.
fn one_more(answers: Answers) -> Answers
    ensures { result ≡ one_more answers }
{
    match answers {
        Answers::Nobody => Answers::One,
        Answers::One | Answers::Several => Answers::Several,
        Answers::Settled => Answers::Settled,
    }
}
