//! Creates sides.

ghost use Rattle.std.specs.Prelude.{◌≡◌, ◌<◌, true, None, IfOk, IfSome};
ghost use Rattle.std.specs.List.{list_all};
ghost use Rattle.lapd_sides_links.specs.Effects.{no_effects};
ghost use Rattle.lapd_c.specs.Settings.{IsNew, IsNewNetwork, IsNewUser, is_own_tei, is_fixed_tei};

use crate::held_side::HeldSide;
use crate::settings::{fixed_tei, known_teis};
use lapd_sides::{Config, EitherSide, NetSide, UserSide};
use std::alloc::{AllocError, Global};

/// Creates a network side that holds these TEIs.
///
/// # Errors
///
/// `AllocError` if an allocation failed.
pub(crate) fn make_network(
    alloc: Global,
    config: Config,
    most_waiting: u16,
    known: &[u8],
) -> Result<Box<HeldSide>, AllocError>
    requires { list_all is_own_tei known.now ≡ true }
    ensures { IfOk result (λ held. IsNew config (IsNewNetwork known.now) most_waiting held.value) }
{
    let known = known_teis(alloc, known)?;
    let side = NetSide::new(alloc, config, &known)?;
    boxed(alloc, EitherSide::Network(side), most_waiting)
}

/// Creates a user side with a fixed TEI, or without one for 255.
///
/// # Errors
///
/// `AllocError` if an allocation failed.
pub(crate) fn make_user(
    alloc: Global,
    config: Config,
    most_waiting: u16,
    fixed: u8,
) -> Result<Box<HeldSide>, AllocError>
    requires { is_fixed_tei fixed ≡ true }
    ensures { IfOk result (λ held. IsNew config (IsNewUser fixed) most_waiting held.value) }
{
    let side = UserSide::new(alloc, config, fixed_tei(fixed))?;
    boxed(alloc, EitherSide::User(side), most_waiting)
}

/// Puts a side on the heap, without results.
fn boxed(alloc: Global, side: EitherSide, most_waiting: u16) -> Result<Box<HeldSide>, AllocError>
    ensures { IfOk result (λ held. held.value ≡ record {
      queued = record {
        side = side;
        acts = no_effects;
        backlog = no_effects;
      };
      most_waiting = most_waiting;
      counts = None;
    }) }
{
    match Box::new(alloc, HeldSide::new(alloc, side, most_waiting)?) {
        Ok(held) => Ok(held),
        Err(_) => Err(AllocError),
    }
}
