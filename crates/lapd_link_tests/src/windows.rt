//! The state variables and conditions of one end (Q.921 5.6, 5.8).

use crate::rows::put_window;
use crate::text::{number_of, put_control};
use lapd_frame::Number;
use lapd_supervision::Window;
use lapd_test_text::{Text, split};

/// Operations on a window; the control field to send, as octets; and all values of the window that
/// are not 0 or false. `try` is `take` without a change of the window.
pub(crate) const ROWS: &str = "\
# It begins at 0 with no condition.
window new |
window default |

# The first gap is rejected and no other.
window hear 5 P=1 | discarded 0901 rejecting
window hear 5 P=1 | discarded 0101 rejecting
window hear 5 P=0 | discarded rejecting
window hear 0 P=0 | accepted V(R)=1 ack-pending
window acknowledge | 0102 V(R)=1

# A busy end discards and says so.
window new |
window busy | 0500 own-busy
window hear 0 P=1 | discarded 0501 own-busy
window answer | 0501 own-busy
window enquire | 0501 own-busy
window ready | 0100
window answer | 0101
window enquire | 0101

# An N(R) is valid from V(A) to V(S).
window new |
window send 126 | fa00 V(S)=126
window take 126 | 126 all V(S)=126 V(A)=126
window send 4 | 0200 V(S)=2 V(A)=126
window try 1 | 3 V(S)=2 V(A)=1
window try 2 | 4 all V(S)=2 V(A)=2
window try 3 | not valid V(S)=2 V(A)=126
window try 125 | not valid V(S)=2 V(A)=126

# Messages go out while the window is open.
window may 5 | yes V(S)=2 V(A)=126
window may 4 | no V(S)=2 V(A)=126
window peer-busy | V(S)=2 V(A)=126 peer-busy
window may 5 | no V(S)=2 V(A)=126 peer-busy
window peer-ready | V(S)=2 V(A)=126
window hear 0 P=0 | accepted V(S)=2 V(A)=126 V(R)=1 ack-pending
window send 1 | 0402 V(S)=3 V(A)=126 V(R)=1
window back 126 | V(S)=126 V(A)=126 V(R)=1

# Establishment clears and zeroes.
window hear 7 P=0 | discarded 0902 V(S)=126 V(A)=126 V(R)=1 rejecting
window peer-busy | V(S)=126 V(A)=126 V(R)=1 peer-busy rejecting
window hear 1 P=0 | accepted V(S)=126 V(A)=126 V(R)=2 peer-busy ack-pending
window hear 7 P=0 | discarded 0904 V(S)=126 V(A)=126 V(R)=2 peer-busy rejecting
window busy | 0504 V(S)=126 V(A)=126 V(R)=2 peer-busy own-busy rejecting
window clear | V(S)=126 V(A)=126 V(R)=2
window zero |
";

/// Executes an operation on a window.
pub(crate) fn put(text: &mut Text, window: &mut Window, action: &str, words: &str) {
    let (word, poll) = split(words, " ");
    let after = match Number::new((number_of(word) & 0xff) as u8) {
        Some(number) => after_action(text, *window, action, number, poll == "P=1"),
        None => Window::new(),
    };
    put_window(text, &after);
    if action != "try" {
        *window = after;
    }
}

/// The window after an operation with this number and P.
fn after_action(text: &mut Text, window: Window, action: &str, number: Number, p: bool) -> Window {
    match action {
        "hear" => received(text, window, number, p),
        "take" | "try" => taken(text, window, number),
        "send" => sent(text, window, number.value()),
        "back" => window.go_back(number),
        "may" => asked(text, window, number.value()),
        _ => after_call(text, window, action),
    }
}

/// Receives an I frame with this N(S) and P.
fn received(text: &mut Text, window: Window, ns: Number, p: bool) -> Window {
    let (after, receipt) = window.take_ns(ns, p);
    text.put(if receipt.accepted {
        " accepted"
    } else {
        " discarded"
    });
    if let Some(answer) = receipt.answer {
        put_control(text, &answer);
    }
    after
}

/// Receives this N(R).
fn taken(text: &mut Text, window: Window, nr: Number) -> Window {
    match window.take_nr(nr) {
        Some((after, advance)) => {
            text.shown(" ", &advance.count);
            text.mark(" all", advance.all);
            after
        }
        None => {
            text.put(" not valid");
            window
        }
    }
}

/// Sends this many I frames, and appends the last.
fn sent(text: &mut Text, window: Window, count: u8) -> Window {
    let mut window = window;
    for _ in 1..count {
        window = window.send().0;
    }
    let (after, last) = window.send();
    put_control(text, &last);
    after
}

/// Whether one more I frame may be sent in a window of this size.
fn asked(text: &mut Text, window: Window, k: u8) -> Window {
    let may = 1 <= k && k <= 127 && window.may_send(k);
    text.put(if may { " yes" } else { " no" });
    window
}

/// An operation that may return a control field.
fn after_call(text: &mut Text, window: Window, action: &str) -> Window {
    let (after, control) = match action {
        "acknowledge" => window.acknowledge(),
        "busy" => window.own(true),
        "ready" => window.own(false),
        "answer" => window.answer_poll(),
        "enquire" => window.enquiry(),
        _ => return changed(window, action),
    };
    put_control(text, &control);
    after
}

/// An operation without a result.
fn changed(window: Window, action: &str) -> Window {
    match action {
        "new" => Window::new(),
        "default" => Window::default(),
        "peer-busy" => window.peer(true),
        "peer-ready" => window.peer(false),
        "clear" => window.clear(),
        _ => window.zero(),
    }
}
