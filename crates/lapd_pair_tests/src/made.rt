//! Creation of pairs.

use lapd_link::{Params, Recovery};
use lapd_pair::Pair;
use std::alloc::Global;

/// The parameters of two ends: window and I queue capacity of both, and the recovery of the user
/// and of the network.
pub(crate) type Ends = (u8, u16, Recovery, Recovery);

/// Creates a pair with N200 of 3. `None` if a number is out of range or an allocation fails.
pub(crate) fn new_pair(alloc: Global, (k, room, user, network): Ends) -> Option<Pair> {
    match Params::new(k, 3, room) {
        Some(params) => {
            let user = params.with_recovery(user);
            Pair::new(alloc, user, params.with_recovery(network)).ok()
        }
        None => None,
    }
}
