//! The test of everything except rows of the state table: octets and counters, and the operations
//! of windows, queues and links.

use crate::octets::{fields, frames, traces};
use crate::wants::{first_of, none_is_wrong};
use crate::{counters, links, queues, reports, windows};
use lapd_frame::Side;
use lapd_link::Link;
use lapd_queue::IQueue;
use lapd_supervision::Window;
use lapd_test_text::{Subject, Text, split, wrong_row};
use std::alloc::Global;
use std::test::Fail;

/// A window, a queue and a link, on which operations are executed.
#[derive(Drop)]
struct Bench {
    alloc: Global,
    window: Window,
    queue: IQueue,
    link: Link,
}

impl Bench {
    /// New ones; `None` if an allocation fails.
    fn new(alloc: Global) -> Option<Bench> {
        match (IQueue::new(alloc, 1), links::new_link(alloc, Side::User, 1)) {
            (Ok(queue), Some(link)) => Some(Bench {
                alloc,
                window: Window::new(),
                queue,
                link,
            }),
            _ => None,
        }
    }

    /// Executes an operation, and appends its result.
    fn put(&mut self, text: &mut Text, subject: &str, words: &str) {
        let (action, rest) = split(words, " ");
        match subject {
            "counter" => counters::put(text, action, rest),
            "window" => windows::put(text, &mut self.window, action, rest),
            "queue" => queues::put(text, self.alloc, &mut self.queue, action, rest),
            "link" => links::put(text, self.alloc, &mut self.link, action, rest),
            "made" => links::put_parameters(text, action, rest),
            _ => reports::put_names(text, action),
        }
    }
}

impl Subject for Bench {
    /// A row is the name of a subject, an operation on it, ` |`, and the result.
    fn preserves(&mut self, row: &'static str, made: &mut Text) -> bool {
        let (words, wanted) = split(row, " |");
        let (subject, action) = split(words, " ");
        let mut text = Text::new();
        self.put(&mut text, subject, action);
        let so = text.is(wanted);
        if !so {
            made.put_first(text.as_str());
        }
        so
    }
}

/// The first wrong row of operations.
fn wrong_value_row(alloc: Global, made: &mut Text) -> Option<&'static str> {
    match Bench::new(alloc) {
        Some(mut bench) => wrong_of(&mut bench, made),
        None => Some("no queue and no link is made"),
    }
}

/// The first wrong row of operations on these subjects.
fn wrong_of(bench: &mut Bench, made: &mut Text) -> Option<&'static str> {
    first_of(&[
        wrong_row(bench, counters::ROWS, made),
        wrong_row(bench, windows::ROWS, made),
        wrong_row(bench, queues::ROWS, made),
        wrong_row(bench, links::ROWS, made),
        wrong_row(bench, links::PARAMETERS, made),
        wrong_row(bench, reports::NAMES, made),
    ])
}

#[test]
fn values(rt: HostRuntime) -> Result<(), Fail> {
    let mut made = Text::new();
    let looked = [
        fields::wrong(),
        frames::wrong(rt.alloc(), &mut made),
        traces::wrong(rt.alloc()),
        reports::wrong(),
        wrong_value_row(rt.alloc(), &mut made),
    ];
    none_is_wrong(&looked, &made)
}
