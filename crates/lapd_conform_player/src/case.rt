//! Cases of a suite.

use lapd_conform_suite::{Group, Name, NumberedLine, Step};

/// A case of a suite.
#[derive(Clone, Copy)]
pub struct Case<'s> {
    /// Its name.
    pub name: Name,
    /// Its title.
    pub title: &'s [u8],
    /// Its lines, from `case` on.
    pub lines: &'s [NumberedLine<'s>],
}

/// The first case of these lines, and the lines after it. `None` if they do not begin with a case.
pub fn first_case<'s>(lines: &'s [NumberedLine<'s>]) -> Option<(Case<'s>, &'s [NumberedLine<'s>])> {
    let (first, rest) = lines.split_first()?;
    let Step::Case(name) = first.line.step else {
        return None;
    };
    let mut count: usize = 1;
    for line in rest {
        if let Step::Case(_) = line.line.step {
            break;
        }
        count = count.saturating_add(1);
    }
    let (own, others) = lines.split_at_checked(count)?;
    Some((
        Case {
            name,
            title: first.line.text,
            lines: own,
        },
        others,
    ))
}

impl Case<'_> {
    /// The clauses of Q.921 that it tests.
    pub fn clause(&self) -> &[u8] {
        for line in self.lines {
            if let Step::Clause = line.line.step {
                return line.line.text;
            }
        }
        &[]
    }

    /// Whether it tests a link, and not TEI management.
    pub fn tests_link(&self) -> bool {
        matches!(
            self.name.group,
            Group::TeiAssigned
                | Group::AwaitingEstablishment
                | Group::AwaitingRelease
                | Group::Established
                | Group::TimerRecovery
        )
    }
}
