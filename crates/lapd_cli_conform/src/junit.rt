//! Results as JUnit XML, as continuous integration reads it.

use crate::escaped::{Format, push_escaped};
use crate::results::{CaseReport, Grade};
use crate::tally::Tally;
use std::alloc::{AllocError, Global};

/// The end of a file of results.
const END: &[u8] = b"</testsuite>\n</testsuites>\n";

/// Appends the test case of a result, which took `time` milliseconds. A case that
/// fails is a failure. A case that is known to fail, is inconclusive or does not apply is skipped.
///
/// # Errors
///
/// An allocation failed.
pub fn push_test_case(
    alloc: Global,
    text: &mut Vec<u8>,
    report: &CaseReport<'_>,
    time: u64,
) -> Result<(), AllocError> {
    text.extend_from_slice(b"<testcase classname=\"lapd conform\" name=\"")?;
    push_escaped(text, Format::Xml, report.name)?;
    text.push(b' ')?;
    push_escaped(text, Format::Xml, report.title)?;
    let (seconds, rest) = (time / 1_000, time % 1_000);
    let time = format!(in alloc; "\" time=\"{seconds}.{rest:03}\"")?;
    text.extend_from_slice(time.as_bytes())?;
    match report.grade {
        Grade::Pass => {
            text.extend_from_slice(b"/>\n")?;
            Ok(())
        }
        Grade::Fail => push_failure(text, report),
        Grade::Known => push_skipped(text, b"known to fail: ", report.reason),
        Grade::Inconclusive => push_skipped(text, b"inconclusive: ", report.reason),
        Grade::NotApplicable => push_skipped(text, b"needs ", report.needs),
    }
}

fn push_failure(text: &mut Vec<u8>, report: &CaseReport<'_>) -> Result<(), AllocError> {
    text.extend_from_slice(b"><failure message=\"")?;
    push_escaped(text, Format::Xml, report.reason)?;
    text.extend_from_slice(b"\">clause ")?;
    push_escaped(text, Format::Xml, report.clause)?;
    if !report.wanted.is_empty() {
        text.extend_from_slice(b"; wanted ")?;
        push_escaped(text, Format::Xml, report.wanted)?;
    }
    text.extend_from_slice(b"; seen ")?;
    push_escaped(text, Format::Xml, report.seen)?;
    text.extend_from_slice(b"</failure></testcase>\n")?;
    Ok(())
}

fn push_skipped(text: &mut Vec<u8>, what: &[u8], reason: &[u8]) -> Result<(), AllocError> {
    text.extend_from_slice(b"><skipped message=\"")?;
    text.extend_from_slice(what)?;
    push_escaped(text, Format::Xml, reason)?;
    text.extend_from_slice(b"\"/></testcase>\n")?;
    Ok(())
}

/// The whole file of results with these test cases.
///
/// # Errors
///
/// An allocation failed.
pub fn junit_file(alloc: Global, tally: Tally, cases: &[u8]) -> Result<Vec<u8>, AllocError> {
    let (count, failed) = (tally.cases(), tally.failed);
    let skipped = tally
        .inconclusive
        .saturating_add(tally.not_applicable)
        .saturating_add(tally.known);
    let head = format!(in alloc;
        "<?xml version=\"1.0\" encoding=\"UTF-8\"?>\n<testsuites>\n<testsuite name=\"lapd conform\" tests=\"{count}\" failures=\"{failed}\" errors=\"0\" skipped=\"{skipped}\">\n"
    )?;
    let mut text = Vec::new(alloc);
    text.extend_from_slice(head.as_bytes())?;
    text.extend_from_slice(cases)?;
    text.extend_from_slice(END)?;
    Ok(text)
}
