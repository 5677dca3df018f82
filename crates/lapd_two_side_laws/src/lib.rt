//! Two sides of an interface and the line between them, after ITU-T Q.921 (09/97): each of their
//! links is safe.
//!
//! The theorem about two ends (`lapd_pair_laws`) is applied here to what people run: a [`NetSide`]
//! and a [`UserSide`] of `lapd_sides`, with many links, timers and TEI management. Nothing here
//! runs. Sides, their events and the line are defined in `lapd_side_events`. The definitions, in the
//! order of specs/:
//!
//! - `Addressed`: octets on the line belong to a link if they carry its SAPI and TEI.
//! - `Primitives`: what layer 3 knows of a link from its primitives and its own messages alone: the
//!   messages received, and the positions of its own messages that were acknowledged or dropped.
//!   `IsReceived` says when this is right: the messages received are, in order and once each, among
//!   the messages submitted, and each message that counts as acknowledged was received.
//! - `Establishments`: in which establishment each message of a link was received and last sent, by
//!   the link's end after each event, and when no message is skipped within one
//!   (`IsReceivedUnskipped`). Neither the primitives nor the frames of a side show these numbers.
//! - `Premises`, for one link. Its T200 does not expire while a command with P=1 from that side, or
//!   a response with F=1 to it, is in transit. A side overhears no octets that belong to the link.
//!   Its TEI is assigned once: not while the link exists, and not after it was removed. For newly
//!   created sides it is enough that the TEI is not assigned again, since they assign no TEI whose
//!   links exist. Other links may do anything.
//! - `Projects`: what both sides show of one link, which may not exist yet or no longer, represents
//!   a world of two ends that some moves lead to (`ProjectsTo`). That world is safe, and the link's
//!   primitives are right (`IsRight`, `IsSafeAt`).
//! - `Owed`: what each event of a side may do to one of its links (`ServesLink`).
//! - `ExactTimers`, for all links, whatever happens: each timer of a link runs exactly when the
//!   link's end requires it. In a `SideStep` octets arrive at one side from anyone, and then an
//!   event of that side follows. `ManagementTimers`: T201 and T202 run exactly while TEI management
//!   waits.
//! - `NewLinks`: a TEI has no links, in the definition and in the table of the code.
//! - `EndAnswers`, `Answers`: the requests of layer 3 to establish and to release a link, their
//!   answers, how often T200 expires until then, and when timers are expired in time.
//!   `AnswerRuns`: worked runs.
//! - `Accounts`: the messages of a link that wait, and when each message submitted is acknowledged,
//!   dropped or waits (`IsAccounted`). `AccountRuns`: worked runs.
//! - `Schedule`: worked runs.
//!
//! The laws:
//!
//! - [`each_link_gets_its_own`]: an event leaves a link unchanged, is one step of it, or creates or
//!   removes it with its TEI.
//! - [`each_link_is_safe`]: after every run that keeps the premises of a link, that link is safe.
//! - [`schedule_is_computed`]: the premises can be met.
//! - [`each_premise_is_needed`]: no premise can be dropped.
//! - [`timers_run_as_ends_require`]: no link ever lacks the timer that it waits for, whatever
//!   arrives and whatever the side does.
//! - [`management_timers_run_while_it_waits`]: the same for TEI management.
//! - [`added_links_are_new`]: a TEI has no links when a side assigns or obtains it.
//! - [`every_end_answers`]: an end answers each request of layer 3 before its T200 has expired too
//!   often, whatever its inputs are.
//! - [`every_request_is_answered`]: so does a side, whatever arrives, and in time if its timers are
//!   expired when they are due, or late by a bounded time.
//! - [`bounds_are_reached`]: worked runs in which layer 3 has its answer at the last moment.
//! - [`every_message_is_accounted_for`]: every message submitted is acknowledged, dropped or waits,
//!   whatever arrives, as long as the TEI of its link stays.
//! - [`accounts_are_computed`]: a worked run with one message of each, and runs that show that the
//!   premises are needed.
//!
//! [`NetSide`]: lapd_sides::NetSide
//! [`UserSide`]: lapd_sides::UserSide
#![tactic(auto)]

mod accounts;
mod answers;
mod laws;

pub use accounts::{accounts_are_computed, every_message_is_accounted_for};
pub use answers::{bounds_are_reached, every_end_answers, every_request_is_answered};
pub use laws::{
    added_links_are_new, each_link_gets_its_own, each_link_is_safe, each_premise_is_needed,
    management_timers_run_while_it_waits, schedule_is_computed, timers_run_as_ends_require,
};
