ghost use Rattle.std.specs.Prelude.{◌≡◌};
ghost use Rattle.lapd_follow.specs.Teis.{answered_with, first_answer, held_by, unknown_holder};

/// The knowledge about the terminal that has a TEI.
#[derive(Clone, Copy, Debug, PartialEq, Eq)]
pub(crate) struct Holder {
    /// The reference to which the TEI was assigned last, unless it was removed or checked since.
    pub(crate) assigned: Option<u16>,
    /// The reference of the first response to a check since then.
    pub(crate) answer: Option<u16>,
}

impl Holder {
    /// Nothing is known.
    pub(crate) fn unknown() -> Holder
        ensures { result ≡ unknown_holder }
    {
        Holder {
            assigned: None,
            answer: None,
        }
    }

    /// The TEI was assigned to this reference.
    pub(crate) fn with_reference(ri: u16) -> Holder
        ensures { result ≡ held_by ri }
    {
        Holder {
            assigned: Some(ri),
            answer: None,
        }
    }

    /// It responded to a check, with this reference.
    pub(crate) fn answered(self, ri: u16) -> Holder
        ensures { result ≡ answered_with ri self }
    {
        Holder {
            assigned: self.assigned,
            answer: Some(first_answer(ri, self.answer)),
        }
    }
}

/// The first of the references so far and this one.
fn first_answer(ri: u16, first: Option<u16>) -> u16
    ensures { result ≡ first_answer ri first }
{
    match first {
        None => ri,
        Some(first) => first,
    }
}
