//! Stack files: the parameters of the stack under test.

ghost use Rattle.std.specs.Prelude.{◌≡◌, ◌∷◌, ◌+◌, List, ℕ};
ghost use Rattle.lapd_cli_conform.specs.Settings.{with_setting as with_setting_row};
ghost use Rattle.lapd_cli_conform.specs.StackFiles.{GoesOn, ReadsAt, side_requests as side_requests_of, stack_from, stack_in, usual, without_requests};

use crate::fault::StackFault;
use crate::setting::{Setting, none, read_setting};
use lapd_cli_script::is_passed_over;
use lapd_conform::{Requests, Stack};
use lapd_conform_suite::next_line;
use lapd_frame::Side;

/// A stack of this side with the usual values of Q.921 5.9 for basic access, and those of our own
/// sides: automatic TEIs, k = 1, N200 = 3, N202 = 3, and the standard durations. Its upper tester
/// takes all requests of the side.
pub fn usual_stack(side: Side) -> Stack
    ensures { result ≡ usual side }
{
    Stack {
        side,
        tei: None,
        k: 1,
        n200: 3,
        n202: 3,
        t200: 1_000,
        t201: 1_000,
        t202: 2_000,
        t203: 10_000,
        has_t203: true,
        has_sapis: true,
        requests: side_requests(side),
        confirms: true,
        is_active: false,
        delay: 0,
    }
}

/// The requests that a side can make: a network side checks and removes TEIs, and a user side
/// requests one.
fn side_requests(side: Side) -> Requests
    ensures { result ≡ side_requests_of side }
{
    let is_user = matches!(side, Side::User);
    Requests {
        establish: true,
        release: true,
        give: true,
        unit: true,
        busy: true,
        ask: is_user,
        check: !is_user,
        remove: !is_user,
    }
}

/// The stack without its upper tester.
pub fn without_upper(stack: Stack) -> Stack
    ensures { result ≡ without_requests stack }
{
    Stack {
        requests: none(),
        ..stack
    }
}

/// Reads a stack file: the usual values of this side, each changed by the last line that names it.
/// Empty lines and those that begin with `#` are skipped.
///
/// # Errors
///
/// The first wrong line.
pub fn read_stack<'s>(side: Side, text: &'s [u8]) -> Result<Stack, StackFault<'s>>
    ensures { ReadsAt (λ stack. stack) result (stack_in side text.now) }
{
    let mut stack = usual_stack(side);
    let mut number: u64 = 1;
    let mut rest = text;
    while let Some((line, left)) = next_line(rest) {
        stack = take_line(stack, number, line)?;
        number += 1;
        rest = left;
    }
    Ok(stack)
}

/// The stack after a line.
fn take_line<'s>(stack: Stack, number: u64, line: &'s [u8]) -> Result<Stack, StackFault<'s>>
    ensures { (rest : List (List ℕ)) → GoesOn (λ after. stack_from (number + 1) after rest) result
        (stack_from number stack (line.now ∷ rest)) }
{
    if is_passed_over(line) {
        return Ok(stack);
    }
    match read_setting(line) {
        Ok(setting) => Ok(with_setting(stack, setting)),
        Err(fault) => Err(StackFault {
            line: number,
            fault,
        }),
    }
}

fn with_setting(stack: Stack, setting: Setting) -> Stack
    ensures { result ≡ with_setting_row stack setting }
{
    match setting {
        Setting::Tei(tei) => Stack { tei, ..stack },
        Setting::Window(k) => Stack { k, ..stack },
        Setting::N200(n200) => Stack { n200, ..stack },
        Setting::N202(n202) => Stack { n202, ..stack },
        Setting::T200(t200) => Stack { t200, ..stack },
        Setting::T201(t201) => Stack { t201, ..stack },
        Setting::T202(t202) => Stack { t202, ..stack },
        Setting::T203(Some(t203)) => Stack {
            t203,
            has_t203: true,
            ..stack
        },
        Setting::T203(None) => Stack {
            has_t203: false,
            ..stack
        },
        Setting::Sapis(has_sapis) => Stack { has_sapis, ..stack },
        Setting::Active(is_active) => Stack { is_active, ..stack },
        Setting::Upper(requests) => Stack { requests, ..stack },
        Setting::Confirms(confirms) => Stack { confirms, ..stack },
        Setting::Delay(delay) => Stack { delay, ..stack },
    }
}
