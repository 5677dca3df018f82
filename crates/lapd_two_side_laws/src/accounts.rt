//! Messages of layer 3 are accounted for. A call of a law does nothing.

ghost use Rattle.std.specs.Prelude.{◌≡◌, ◌<◌, ◌≤◌, true, ℕ, List, [], ◌∷◌, Option, Some, Vec};
ghost use Rattle.std.specs.List.{list_any};
ghost use Rattle.std.specs.declared.alloc.Global.{Global};
ghost use Rattle.rand_pcg.specs.Lcg.{Lcg};
ghost use Rattle.lapd_table.specs.declared.link_id.LinkId.{LinkId};
ghost use Rattle.lapd_sides_links.specs.declared.config.Config.{Config};
ghost use Rattle.lapd_sides_links.specs.declared.primitive.What.TheVariants as what;
ghost use Rattle.lapd_sides_links.specs.Links.{parameters_for};
ghost use Rattle.lapd_sides.specs.Worked.{both_sapis};
ghost use Rattle.lapd_two_side_laws.specs.Accounts.{queue_of, IsAccounted, since, KeepsTei, IsAccountedSince};
ghost use Rattle.lapd_two_side_laws.specs.AccountRuns.{run_of, one_of_each, then_removed, too_early};
ghost use Rattle.lapd_two_side_laws.specs.AnswerRuns.{user_with};
ghost use Rattle.lapd_two_side_laws.specs.ExactTimers.{SideStep};
ghost use Rattle.lapd_side_events.specs.Interface.{network_behaviour, user_behaviour};
ghost use Rattle.lapd_two_side_laws.specs.NewLinks.{network_after, user_after};
ghost use Rattle.lapd_two_side_laws.specs.Premises.{is_removal};
ghost use Rattle.lapd_two_side_laws.specs.Primitives.{link_primitives, given_to, known_of};
ghost use Rattle.lapd_two_side_laws.specs.Schedule.{call, IsMessage};

/// Every message that a link accepts from layer 3 is acknowledged, is dropped, or waits, as long as
/// the TEI of the link stays.
///
/// Take a newly created side after any steps. The count begins then, and ends after any further
/// steps. Before each step any octets may arrive: in any order, lost or repeated, from any
/// terminal, or from a peer that does not follow Q.921. The link may exist when the count begins,
/// or join later. No primitive in between reports that the TEI is freed, removed or given up. Then
/// the messages that waited at the beginning, and those that the link accepted since, are exactly
///
/// - those that `Acknowledged` primitives of the link reported since,
/// - those that its `Dropped` primitives reported since, and
/// - those that wait at the end, as many as [`Link::waiting`] and the C library return.
///
/// Each message is in one of the three. The last ones wait, in order. A refused message was not
/// accepted, and does not count. TEIs of links are below 127, and k is at most 127.
///
/// [`Link::waiting`]: lapd_link::Link::waiting
pub fn every_message_is_accounted_for()
    ensures network { (config : Config) (known : List ℕ) (before after : List SideStep)
        (id : LinkId) → id.tei < 127 → (parameters_for config id.sapi).k ≤ 127
        → KeepsTei id (since (network_behaviour config) (network_after config known before) after)
        → IsAccountedSince (network_behaviour config) id (network_after config known before)
        after }
    ensures user { (config : Config) (fixed : Option ℕ) (random : Lcg)
        (before after : List SideStep) (id : LinkId) → id.tei < 127
        → (parameters_for config id.sapi).k ≤ 127
        → KeepsTei id (since (user_behaviour config) (user_after config fixed random before) after)
        → IsAccountedSince (user_behaviour config) id (user_after config fixed random before)
        after }
{}

/// The premises of [`every_message_is_accounted_for`] can be met, and are needed. Each worked run is
/// of a user side from its creation.
///
/// - `keeps`, `given`, `delivered`, `queue`: layer 3 submits three messages. One is acknowledged,
///   one is dropped, and one waits.
/// - `removed`: then the terminal gives up its TEI. The third message is not reported and no longer
///   waits, so the sum is one less than the messages accepted (`lost`).
/// - `refused`: layer 3 submits a message while the link is being established. The link refuses the
///   message. If refused messages counted, the sum would be one less (`uncounted`).
pub fn accounts_are_computed()
    ensures keeps { (first second third : Vec ℕ Global) → IsMessage 1 first → IsMessage 2 second
        → IsMessage 3 third → KeepsTei call (run_of (one_of_each first second third)) }
    ensures given { (first second third : Vec ℕ Global) → IsMessage 1 first → IsMessage 2 second
        → IsMessage 3 third → given_to call (run_of (one_of_each first second third)).given
        ≡ (1 ∷ []) ∷ (2 ∷ []) ∷ (3 ∷ []) ∷ [] }
    ensures delivered { (first second third : Vec ℕ Global) → IsMessage 1 first
        → IsMessage 2 second → IsMessage 3 third
        → link_primitives call (run_of (one_of_each first second third)).delivered
        ≡ what.Confirmed ∷ what.Acknowledged 1 ∷ what.Dropped 1 ∷ what.Confirmed ∷ [] }
    ensures queue { (first second third : Vec ℕ Global) → IsMessage 1 first → IsMessage 2 second
        → IsMessage 3 third
        → queue_of ((run_of (one_of_each first second third)).now.served.links call)
        ≡ (3 ∷ []) ∷ [] }
    ensures removed { (first second third : Vec ℕ Global) → IsMessage 1 first
        → IsMessage 2 second → IsMessage 3 third
        → list_any (is_removal 64) (run_of (then_removed first second third)).delivered ≡ true }
    ensures lost { (first second third : Vec ℕ Global) → IsMessage 1 first → IsMessage 2 second
        → IsMessage 3 third → IsAccountedSince (user_behaviour both_sapis) call
        (user_with (Some 64) []) (then_removed first second third) → ⊥ }
    ensures refused { (message : Vec ℕ Global) → IsMessage 1 message
        → given_to call (run_of (too_early message)).given ≡ [] }
    ensures uncounted { (message : Vec ℕ Global) → IsMessage 1 message
        → IsAccounted (message.items ∷ []) (known_of call (run_of (too_early message)).delivered)
        ((run_of (too_early message)).now.served.links call) → ⊥ }
{}
