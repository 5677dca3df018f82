//! Drawn stimuli for the conformance tester.
//!
//! [`draw_round`] draws a [`Round`]: a state, and steps of a case that follow it ([`Stimulus`]).
//! [`Round::text`] is the text of a case, which is executed and judged as any other
//! ([`play_round`]). The numbers of its frames are near those of our own link, which processes the
//! stimuli in the place of the stack ([`Expected`]). A round depends only on its seed, its number
//! and the parameters of the stack, so it can be repeated.
//!
//! [`shrink`] leaves out stimuli of a round that fails, as long as it fails.
#![tactic(auto)]

mod draw;
mod expected;
mod playing;
mod round;
mod shrinking;
mod stimulus;

pub use draw::draw_round;
pub use expected::Expected;
pub use lapd_conform::{Lost, Outcome, Preamble, Request, Session, Stack, Station};
pub use lapd_link::Timer;
pub use playing::play_round;
pub use round::Round;
pub use shrinking::{Progress, Tries, shrink};
pub use stimulus::{DrawnFrame, Stimulus};
