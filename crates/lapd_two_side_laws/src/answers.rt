//! Requests of layer 3 are answered. A call of the law does nothing.

ghost use Rattle.std.specs.Prelude.{◌≡◌, ◌<◌, ◌≤◌, ◌+◌, ◌*◌, ◌++◌, true, false, ℕ, List, [], ◌∷◌, Option, Some, None, Ok};
ghost use Rattle.std.specs.List.{All, list_any};
ghost use Rattle.rand_pcg.specs.Lcg.{Lcg};
ghost use Rattle.lapd_frame.specs.declared.Sapi.TheVariants.{Call};
ghost use Rattle.lapd_frame.specs.declared.Side.TheVariants as side;
ghost use Rattle.lapd_mod128.specs.Counting.{Reading};
ghost use Rattle.lapd_link_definition.specs.declared.out.Letter.TheVariants as letter;
ghost use Rattle.lapd_link_definition.specs.End.{End, StepState};
ghost use Rattle.lapd_link_definition.specs.Input.{Input};
ghost use Rattle.lapd_link_definition.specs.RunningTimers.{HasTimersOfState};
ghost use Rattle.lapd_link_definition.specs.Table.{step};
ghost use Rattle.lapd_tei.specs.declared.out.TeiOut.TheVariants as outcome;
ghost use Rattle.lapd_tei.specs.Terminal.{n202, tei_of};
ghost use Rattle.lapd_table.specs.declared.link_id.LinkId.{LinkId};
ghost use Rattle.lapd_sides_links.specs.declared.config.Config.{Config};
ghost use Rattle.lapd_sides_links.specs.declared.primitive.Primitive.TheVariants.{Of, Management};
ghost use Rattle.lapd_sides_links.specs.declared.primitive.What.TheVariants as what;
ghost use Rattle.lapd_sides_links.specs.Links.{Reaction, of_sapi, parameters_for};
ghost use Rattle.lapd_sides.specs.declared.request.Request.TheVariants as request;
ghost use Rattle.lapd_sides.specs.Network.{Network, network_requested};
ghost use Rattle.lapd_sides.specs.User.{User, user_requested};
ghost use Rattle.lapd_sides.specs.Worked.{both_sapis};
ghost use Rattle.lapd_two_side_laws.specs.AnswerRuns.{alone, t200_at, user_with, primitives_of_run, establishing, three_expiries, three_late_expiries, releasing, six_expiries, seeking, late_assignment, withdrawing, backwards};
ghost use Rattle.lapd_two_side_laws.specs.Answers.{asks, expiries_of, t202_expiries, KeepsRequest, IsBy, most_periods, after_request, IsAnswered, IsAnsweredFor, AreExpiredInTime};
ghost use Rattle.lapd_two_side_laws.specs.EndAnswers.{Asked, request_of, may_release, most_expiries, is_answered, is_release, t200_expiries, outs_of};
ghost use Rattle.lapd_two_side_laws.specs.ExactTimers.{SideStep, BringsOctets};
ghost use Rattle.lapd_side_events.specs.Interface.{network_behaviour, user_behaviour};
ghost use Rattle.lapd_two_side_laws.specs.NewLinks.{network_after, user_after};
ghost use Rattle.lapd_two_side_laws.specs.Schedule.{call};
ghost use Rattle.lapd_side_events.specs.SideView.{Ask};

/// An end answers each request of layer 3 before its T200 has expired too often, whatever the
/// inputs are.
///
/// Take any list of inputs after an accepted request: frames of any kind in any order, faults,
/// expiries and requests. If T200 expires in it as often as the table says, the outputs contain the
/// answer (Q.921 5.5.1, 5.5.3).
///
/// | request | answer | expiries |
/// |---|---|---|
/// | DL-ESTABLISH, no DL-RELEASE later | DL-ESTABLISH confirm, DL-RELEASE indication | N200 + 1 |
/// | DL-RELEASE | DL-RELEASE confirm | 2 N200 + 1 |
/// | DL-ESTABLISH, perhaps DL-RELEASE later | one of the three | 2 N200 + 1 |
///
/// At the request T200 and T203 run as the state of the end requires. They always do, by
/// [`timers_run_as_ends_require`](crate::timers_run_as_ends_require).
pub fn every_end_answers()
    ensures { (r : Reading) (asked : Asked) (e : End) (s : StepState) (inputs : List Input)
        → HasTimersOfState e → step r (request_of asked) e ≡ Ok s
        → (may_release asked ≡ false → list_any is_release inputs ≡ false)
        → most_expiries asked e.parameters.n200 ≤ t200_expiries inputs
        → is_answered asked (s.outs ++ outs_of r inputs s.end) ≡ true }
{}

/// Every request of layer 3 about a link is answered, whatever the line and the peer do.
///
/// Take a newly created side after any steps, and a request that it accepts then: to establish or
/// to release a link. Take any steps after it. Before each step any octets may arrive: in any
/// order, lost or repeated, from any terminal, or from a peer that does not follow Q.921. The
/// event may be of another link, or remove the TEI. If T200 of the link expires as often as the
/// table of [`every_end_answers`] says, layer 3 has the answer by then.
///
/// - `network`, `user`: on a network side, and on a user side that has a TEI. If the TEI is
///   removed, its release is the answer.
/// - `network_in_time`, `user_in_time`: the same by the clock, for any lateness. If each timer of
///   the side is expired at most `late` milliseconds after it is due, layer 3 has the answer after
///   (N200 + 1) (T200 + `late`) at the latest, and after 2 (N200 + 1) (T200 + `late`) if it may
///   have requested the release. With the values of Q.921 these are 4 s + 4 `late` and
///   8 s + 8 `late`. If `late` is 0, each timer is expired when it is due. The request is not
///   earlier than the events before it.
/// - `user_without_tei`: on a user side that has no TEI, in any phase of requesting one. Layer 3
///   has the answer if T202 expires N202 times, and then T200 of the link of the TEI as often as
///   above, if the terminal has one by then. The answer names the group TEI if no TEI was obtained,
///   and else the TEI (`IsAnsweredFor`).
/// - `user_without_tei_in_time`: the same by the clock. The bound is N202 (T202 + `late`) more,
///   which is 6 s + 3 `late`. So an establishment is answered after 10 s + 7 `late` at the latest,
///   and after 14 s + 11 `late` if layer 3 may have requested the release.
pub fn every_request_is_answered()
    ensures network { (config : Config) (known : List ℕ) (before after : List SideStep)
        (asked : Asked) (id : LinkId) (now : ℕ) (a : Reaction Network)
        → All BringsOctets before
        → network_requested config (asks asked id) now (network_after config known before) ≡ Ok a
        → KeepsRequest asked side.Network id after
        → most_expiries asked (parameters_for config id.sapi).n200 ≤ expiries_of id after
        → IsAnswered asked id (network_behaviour config) a after }
    ensures user { (config : Config) (fixed : Option ℕ) (random : Lcg)
        (before after : List SideStep) (asked : Asked) (id : LinkId) (now : ℕ) (a : Reaction User)
        → All BringsOctets before
        → tei_of (user_after config fixed random before).management.terminal ≡ Some id.tei
        → user_requested config (asks asked id) now (user_after config fixed random before) ≡ Ok a
        → KeepsRequest asked side.User id after
        → most_expiries asked (parameters_for config id.sapi).n200 ≤ expiries_of id after
        → IsAnswered asked id (user_behaviour config) a after }
    ensures network_in_time { (config : Config) (known : List ℕ) (before after : List SideStep)
        (asked : Asked) (id : LinkId) (late now moment : ℕ) (a : Reaction Network)
        → All BringsOctets before → All (λ side_step. IsBy now side_step.event) before
        → network_requested config (asks asked id) now (network_after config known before) ≡ Ok a
        → KeepsRequest asked side.Network id after
        → AreExpiredInTime late (network_behaviour config) a after moment
        → now + most_periods asked (parameters_for config id.sapi).n200
        * (config.durations.t200 + late) < moment
        → IsAnswered asked id (network_behaviour config) a after }
    ensures user_in_time { (config : Config) (fixed : Option ℕ) (random : Lcg)
        (before after : List SideStep) (asked : Asked) (id : LinkId) (late now moment : ℕ)
        (a : Reaction User)
        → All BringsOctets before → All (λ side_step. IsBy now side_step.event) before
        → tei_of (user_after config fixed random before).management.terminal ≡ Some id.tei
        → user_requested config (asks asked id) now (user_after config fixed random before) ≡ Ok a
        → KeepsRequest asked side.User id after
        → AreExpiredInTime late (user_behaviour config) a after moment
        → now + most_periods asked (parameters_for config id.sapi).n200
        * (config.durations.t200 + late) < moment
        → IsAnswered asked id (user_behaviour config) a after }
    ensures user_without_tei { (config : Config) (fixed : Option ℕ) (random : Lcg)
        (before first second : List SideStep) (asked : Asked) (id : LinkId) (now : ℕ)
        (a : Reaction User)
        → tei_of (user_after config fixed random before).management.terminal ≡ None
        → user_requested config (asks asked id) now (user_after config fixed random before) ≡ Ok a
        → KeepsRequest asked side.User id (first ++ second)
        → n202 ≤ t202_expiries first
        → ((own : ℕ)
        → tei_of (after_request (user_behaviour config) a first).now.management.terminal ≡ Some own
        → most_expiries asked (parameters_for config id.sapi).n200
        ≤ expiries_of (of_sapi id.sapi own) second)
        → IsAnsweredFor asked id.sapi (user_behaviour config) a (first ++ second) }
    ensures user_without_tei_in_time { (config : Config) (fixed : Option ℕ) (random : Lcg)
        (before after : List SideStep) (asked : Asked) (id : LinkId) (late now moment : ℕ)
        (a : Reaction User)
        → All (λ side_step. IsBy now side_step.event) before
        → tei_of (user_after config fixed random before).management.terminal ≡ None
        → user_requested config (asks asked id) now (user_after config fixed random before) ≡ Ok a
        → KeepsRequest asked side.User id after
        → AreExpiredInTime late (user_behaviour config) a after moment
        → now + n202 * (config.durations.t202 + late)
        + most_periods asked (parameters_for config id.sapi).n200
        * (config.durations.t200 + late) < moment
        → IsAnsweredFor asked id.sapi (user_behaviour config) a after }
{}

/// The bounds of [`every_request_is_answered`] are reached, and its premises can be met.
///
/// Four worked runs of a user side with the values of Q.921. In each, layer 3 has its answer at the
/// last moment and not before. All timers are expired when they are due, except in `late`:
///
/// - `establish`: nothing arrives. After three expiries of T200, N200 of them, layer 3 has no
///   answer. The fourth, at 4 s, ends the establishment.
/// - `late`: the same, but T200 is expired 10 ms late each time. Layer 3 has no answer until the
///   fourth expiry, at 4,040 ms. So the lateness must be in the bound: 4 s are not enough.
/// - `release`: the release is requested while the link is being established. The SABME is answered
///   at 4 s, and the DISC never. After six expiries, 2 N200 of them, layer 3 has no answer. The
///   seventh, at 8 s, confirms the release.
/// - `without_tei`: the TEI is assigned at 6 s, when T202 is due for the third time, and the SABME
///   is never answered. The establishment ends at 10 s.
///
/// Two more runs show that premises are needed:
///
/// - `withdrawn`: layer 3 requests the release after the establishment. After four expiries of T200
///   it has the confirm of the release alone.
/// - `backwards`: an event before the request is at 5 s, and the request at 0 s. T200 is not due
///   before 6 s, so at 6 s layer 3 has no answer.
pub fn bounds_are_reached()
    ensures establish_accepted { user_requested both_sapis (request.Establish call) 0
        (user_with (Some 64) []) ≡ Ok establishing }
    ensures establish_in_time { AreExpiredInTime 0 (user_behaviour both_sapis) establishing
        three_expiries 4000 }
    ensures establish_expiries { expiries_of call three_expiries ≡ 3 }
    ensures establish_waits { primitives_of_run establishing three_expiries ≡ [] }
    ensures establish_ends { primitives_of_run establishing (three_expiries ++ t200_at (4000 ∷ []))
        ≡ Of call (what.Report letter.G) ∷ Of call what.Released ∷ [] }
    ensures late_in_time { AreExpiredInTime 10 (user_behaviour both_sapis) establishing
        three_late_expiries 4040 }
    ensures late_waits { primitives_of_run establishing three_late_expiries ≡ [] }
    ensures late_ends { primitives_of_run establishing
        (three_late_expiries ++ t200_at (4040 ∷ []))
        ≡ Of call (what.Report letter.G) ∷ Of call what.Released ∷ [] }
    ensures release_accepted { user_requested both_sapis (request.Release call) 0
        (user_with (Some 64) (alone (Ask (request.Establish call) 0) ∷ [])) ≡ Ok releasing }
    ensures release_in_time { AreExpiredInTime 0 (user_behaviour both_sapis) releasing
        six_expiries 8000 }
    ensures release_expiries { expiries_of call six_expiries ≡ 6 }
    ensures release_waits { primitives_of_run releasing six_expiries ≡ [] }
    ensures release_ends { primitives_of_run releasing (six_expiries ++ t200_at (8000 ∷ []))
        ≡ Of call (what.Report letter.H) ∷ Of call what.ReleaseConfirm ∷ [] }
    ensures without_tei_accepted { user_requested both_sapis (request.Establish (of_sapi Call 0)) 0
        (user_with None []) ≡ Ok seeking }
    ensures without_tei_in_time { AreExpiredInTime 0 (user_behaviour both_sapis) seeking
        late_assignment 10000 }
    ensures without_tei_waits { primitives_of_run seeking late_assignment
        ≡ Management (outcome.Got 64) ∷ [] }
    ensures without_tei_ends { primitives_of_run seeking (late_assignment ++ t200_at (10000 ∷ []))
        ≡ Management (outcome.Got 64) ∷ Of call (what.Report letter.G) ∷ Of call what.Released
        ∷ [] }
    ensures withdrawn_expiries { expiries_of call withdrawing ≡ 4 }
    ensures withdrawn { primitives_of_run establishing withdrawing
        ≡ Of call (what.Report letter.G) ∷ Of call what.ReleaseConfirm ∷ [] }
    ensures backwards_accepted { user_requested both_sapis (request.Establish call) 0
        (user_with (Some 64) (alone (Ask (request.Establish call) 5000) ∷ [])) ≡ Ok backwards }
    ensures backwards_in_time { AreExpiredInTime 0 (user_behaviour both_sapis) backwards [] 6000 }
    ensures backwards_waits { primitives_of_run backwards [] ≡ [] }
{}
