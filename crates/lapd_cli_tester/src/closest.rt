//! The names of cases that are known to fail, and the closest names of a suite.

use crate::chosen_cases::Suite;
use crate::refused::{print_memory, print_no_such_case};
use lapd_cli_conform::{case_at, name_of};
use lapd_conform_cases::PARTS;
use lapd_conform_suite::{NumberedLine, read_suite};
use std::alloc::{AllocError, Global};
use strsim::osa_distance;

/// The greatest number of cases of a text.
const MOST_CASES: usize = 1_000_000;

/// The case of a suite whose name is closest to a text.
#[derive(Drop)]
struct Closest {
    /// How many letters differ.
    distance: usize,
    name: String,
}

/// Checks that the suite has a case of each name in these lists, which have commas between names.
///
/// # Errors
///
/// The exit status if it has none, which is reported with the closest name, or if an allocation
/// failed.
pub(crate) fn check_known(rt: &HostRuntime, suite: &Suite<'_>, lists: &[&str]) -> Result<(), u8> {
    for list in lists {
        for name in list.split(',') {
            check_name(rt, suite, name)?;
        }
    }
    Ok(())
}

fn check_name(rt: &HostRuntime, suite: &Suite<'_>, name: &str) -> Result<(), u8> {
    match closest_in(rt.alloc(), suite, name) {
        Ok(closest) if closest.distance == 0 => Ok(()),
        Ok(closest) => Err(print_no_such_case(rt, name, closest.name.as_str())),
        Err(_) => Err(print_memory(rt)),
    }
}

/// The case of the suite with the closest name; of several the first.
fn closest_in(alloc: Global, suite: &Suite<'_>, name: &str) -> Result<Closest, AllocError> {
    let mut closest = Closest {
        distance: usize::MAX,
        name: String::new(alloc),
    };
    match suite {
        Suite::BuiltIn => {
            for part in PARTS {
                closest.look_in(alloc, part.as_bytes(), name)?;
            }
        }
        Suite::File(_, text) => closest.look_in(alloc, text.as_slice(), name)?,
    }
    Ok(closest)
}

impl Closest {
    /// Looks at the names of a text that was read before.
    fn look_in(&mut self, alloc: Global, text: &[u8], name: &str) -> Result<(), AllocError> {
        if let Ok(lines) = read_suite(alloc, text) {
            self.look_at(alloc, lines.as_slice(), name)?;
        }
        Ok(())
    }

    fn look_at<'s>(
        &mut self,
        alloc: Global,
        lines: &'s [NumberedLine<'s>],
        name: &str,
    ) -> Result<(), AllocError> {
        let mut place: usize = 0;
        for _turn in 0..MOST_CASES {
            let Some(case) = case_at(lines, place) else {
                return Ok(());
            };
            let own = name_of(alloc, &case)?;
            let distance = osa_distance(alloc, name, own.as_str())?;
            if distance < self.distance {
                self.distance = distance;
                self.name = own;
            }
            place = place.saturating_add(case.lines.len());
        }
        Ok(())
    }
}
