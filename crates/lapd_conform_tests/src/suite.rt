//! Tests of the built-in suite.

use lapd_conform_cases::PARTS;
use lapd_conform_suite::{Name, NumberedLine, Step, read_suite};
use std::test::Fail;

/// What was counted in the parts of a suite.
#[derive(Drop)]
struct Count {
    cases: u32,
    clauses: u32,
    disorder: u32,
    last: Option<Name>,
}

impl Count {
    fn add(&mut self, lines: &[NumberedLine]) {
        for line in lines {
            match line.line.step {
                Step::Case(name) => {
                    self.cases = self.cases.wrapping_add(1);
                    if self.last == Some(name) {
                        self.disorder = self.disorder.wrapping_add(1);
                    }
                    self.last = Some(name);
                }
                Step::Clause => self.clauses = self.clauses.wrapping_add(1),
                _ => {}
            }
        }
    }
}

/// Each part can be read, so its names rise, and each case has a clause and a step. There are at
/// least 200 cases.
#[test]
fn the_built_in_suite_can_be_read(rt: HostRuntime) -> Result<(), Fail> {
    let mut count = Count {
        cases: 0,
        clauses: 0,
        disorder: 0,
        last: None,
    };
    for part in PARTS {
        match read_suite(rt.alloc(), part.as_bytes()) {
            Ok(lines) => count.add(lines.as_slice()),
            Err(fault) => {
                return Err(Fail::new(format_args!("{fault}")));
            }
        }
    }
    assert!(rt; count.cases >= 200, "{} cases", count.cases);
    assert_eq!(rt; count.clauses, count.cases);
    assert_eq!(rt; count.disorder, 0);
    Ok(())
}
