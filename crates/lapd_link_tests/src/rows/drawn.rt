//! Links compared with the state table as data: 200,000 random events, each also executed by the
//! rows over plain numbers.

mod events;
mod plain;
mod table;

use crate::rows::Driven;
use crate::rows::drawn::events::EventDraws;
use crate::rows::drawn::plain::Plain;
use crate::rows::drawn::table::{TABLE, Table};
use crate::wants::none_is_wrong;
use lapd_test_text::{Text, wrong_row};
use std::alloc::Global;
use std::test::Fail;

/// How many random events each link receives.
const EVENTS: u32 = 50_000;

/// Draws an event, and executes it on the link and by the table. Returns the event if the results
/// differ.
fn wrong_schedule(
    table: &mut Table,
    link: &mut Driven,
    plain: &mut Plain,
    draws: &mut EventDraws,
) -> Option<&'static str> {
    table.count(plain.state);
    let (event, then) = draws.draw(plain);
    let done = link.does(plain.line.as_bytes());
    plain.step(table, event, then);
    if done && link.has_printed(&plain.wanted) && plain.is_of(link.link()) {
        None
    } else {
        Some(event)
    }
}

/// Draws events, and executes each on the link and by the table.
fn wrong_event(table: &mut Table, link: &mut Driven, plain: &mut Plain) -> Option<&'static str> {
    let mut draws = EventDraws::new(921);
    for _ in 0..EVENTS {
        let wrong = wrong_schedule(table, link, plain, &mut draws);
        if wrong.is_some() {
            return wrong;
        }
    }
    None
}

/// Makes a link, and compares it with the table.
fn wrong_anew(alloc: Global, table: &mut Table, words: &str) -> Option<&'static str> {
    let mut plain = Plain::new(words.starts_with("network"), words.ends_with("last"));
    match Driven::new(alloc, words) {
        Some(mut link) => wrong_event(table, &mut link, &mut plain),
        None => Some("no link is made"),
    }
}

/// Compares links of both sides and both recoveries with the table. Each row must be used, and each
/// state often enough.
fn wrong_of(alloc: Global, table: &mut Table) -> Option<&'static str> {
    for words in [
        "network 127 3 200",
        "network 127 3 200 last",
        "user 127 3 200",
        "user 127 3 200 last",
    ] {
        let wrong = wrong_anew(alloc, table, words);
        if wrong.is_some() {
            return wrong;
        }
    }
    if table.is_lively() {
        table.never_taken()
    } else {
        Some("all events: too few in a state")
    }
}

/// Reads the table, and compares links with it.
fn wrong(alloc: Global, table: &mut Table) -> Option<&'static str> {
    match wrong_row(table, TABLE, &mut Text::new()) {
        None => wrong_of(alloc, table),
        wrong => wrong,
    }
}

#[test]
fn links_follow_the_table(rt: HostRuntime) -> Result<(), Fail> {
    let mut table = Table::new(rt.alloc());
    none_is_wrong(&[wrong(rt.alloc(), &mut table)], &Text::new())
}
