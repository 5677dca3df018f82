//! Laws of an interface between two sides. A call of a law does nothing.

ghost use Rattle.std.specs.Prelude.{◌≡◌, ◌<◌, ◌≤◌, Bool, [], ◌∷◌, ℕ, List, Some, Option, Vec, is_some, true};
ghost use Rattle.std.specs.List.{All};
ghost use Rattle.std.specs.declared.alloc.Global.{Global};
ghost use Rattle.rand_pcg.specs.Lcg.{Lcg};
ghost use Rattle.lapd_frame.specs.declared.Side.TheVariants as side;
ghost use Rattle.lapd_timers.specs.declared.timer.Timer.TheVariants.{T201, T202};
ghost use Rattle.lapd_timers.specs.Durations.{Lengths};
ghost use Rattle.lapd_tei.specs.Terminal.{is_awaiting};
ghost use Rattle.lapd_link_definition.specs.declared.state.State.TheVariants.{TeiAssigned};
ghost use Rattle.lapd_link_definition.specs.Parameters.{Parameters};
ghost use Rattle.lapd_table.specs.declared.link_id.LinkId.{LinkId};
ghost use Rattle.lapd_sides_links.specs.declared.config.Config.{Config};
ghost use Rattle.lapd_sides_links.specs.declared.primitive.What.TheVariants as what;
ghost use Rattle.lapd_sides_links.specs.Expiries.{IsNextDeadline};
ghost use Rattle.lapd_sides_links.specs.Links.{Linked, Served, new_linked, parameters_for};
ghost use Rattle.lapd_sides.specs.SideState.{expires, given_for};
ghost use Rattle.lapd_sides.specs.Network.{Network, new_network, network_rules};
ghost use Rattle.lapd_sides.specs.User.{User, new_user, user_rules};
ghost use Rattle.lapd_two_side_laws.specs.Addressed.{those_for};
ghost use Rattle.lapd_two_side_laws.specs.Establishments.{records_of};
ghost use Rattle.lapd_two_side_laws.specs.ExactTimers.{HasExactTimers, HaveExactTimers, BothHaveExactTimers, RunByState, IsWoken, AreOctets, BringsOctets, OverhearsOctets, OverhearOctets, SideStep, stepped_by_all, new_view};
ghost use Rattle.lapd_side_events.specs.Interface.{user_behaviour, network_behaviour, Configs, Move, Interface, new_interface, from_here, run};
ghost use Rattle.lapd_two_side_laws.specs.ManagementTimers.{HasTimerOfTerminal, HasTimerOfAssigner, HaveTimersOfManagement, IsAwaited};
ghost use Rattle.lapd_two_side_laws.specs.NewLinks.{HasNoLinks, network_after, user_after};
ghost use Rattle.lapd_two_side_laws.specs.Owed.{ServesLink};
ghost use Rattle.lapd_two_side_laws.specs.Premises.{AreTimely, GiveTeiOnce, SatisfyPremises, SatisfyPremisesAsMade};
ghost use Rattle.lapd_two_side_laws.specs.Projects.{IsReceivedByNetwork, IsReceivedByUser, IsUnskippedByNetwork, IsUnskippedByUser, IsSafeAt};
ghost use Rattle.lapd_two_side_laws.specs.Schedule.{configs, call, packet, at_first, unassigned, IsMessage, both_links, assigned, removed, hasty, skipping, regained, skipping_regained, with_old_frames, answered_before};
ghost use Rattle.lapd_side_events.specs.SideView.{SideView, SideEvent, does};
ghost use Rattle.lapd_two_side_laws.specs.Primitives.{link_primitives};

/// Every link between two sides is safe after every run, in both directions, if its T200 never
/// expires while an awaited answer is in transit, nobody else sends octets for it, and its TEI is
/// assigned once (`Premises`).
///
/// Safe means: layer 3 at one end receives messages that layer 3 at the other end submitted, in
/// order and once each. Within one establishment no message is skipped. Every message that counts
/// as acknowledged was received. No error but F, G, H and I is reported for the link. Other links
/// and TEI management may do anything meanwhile.
///
/// `IsRight` states this of the primitives and of the messages submitted, with the establishment in
/// which each message was received, and the one in which it was last sent. A side shows neither
/// number in what it delivers and sends, so both are read from the link's end after each event
/// (`Establishments`).
///
/// - `as_made`: any link of two newly created sides: the user with a fixed TEI or without one, the
///   network with any TEIs that it knows. At first the link may exist on one side, on both or on
///   neither. The link may join when its TEI is assigned, together with the establishment that was
///   kept for it, and is removed together with its TEI. The only premise on its TEI is that it is
///   not assigned again after it was removed.
/// - `safe`: a link that exists as new on both sides from the start.
/// - `from_here`: a link that is new on both sides at some moment of an interface, while no octets
///   for it are in transit. Primitives and messages count from that moment on.
pub fn each_link_is_safe()
    ensures safe { (c : Configs) (id : LinkId) (user : User) (network : Network)
        (p q : Parameters) (m n : Lengths) → id.tei < 127 → p.k ≤ 127 → q.k ≤ 127
        → user.served.links id ≡ Some (new_linked p m)
        → network.served.links id ≡ Some (new_linked q n)
        → (moves : List Move) → SatisfyPremises c id moves (new_interface user network)
        → IsSafeAt c id moves (new_interface user network) }
    ensures as_made { (c : Configs) (id : LinkId) (fixed : Option ℕ) (known : List ℕ)
        (random : Lcg) → id.tei < 127
        → (parameters_for c.user id.sapi).k ≤ 127 → (parameters_for c.network id.sapi).k ≤ 127
        → (moves : List Move)
        → SatisfyPremisesAsMade c id moves
        (new_interface (new_user c.user fixed random) (new_network c.network known))
        → IsSafeAt c id moves
        (new_interface (new_user c.user fixed random) (new_network c.network known)) }
    ensures from_here { (c : Configs) (id : LinkId) (i : Interface)
        (p q : Parameters) (m n : Lengths) → id.tei < 127 → p.k ≤ 127 → q.k ≤ 127
        → i.user.served.links id ≡ Some (new_linked p m)
        → i.network.served.links id ≡ Some (new_linked q n)
        → those_for side.Network id i.to_user ≡ [] → those_for side.User id i.to_network ≡ []
        → (moves : List Move) → SatisfyPremises c id moves (from_here i)
        → IsSafeAt c id moves (from_here i) }
{}

/// A side changes a link only by the link's own octets, timers and requests, or when its TEI is
/// assigned or removed.
///
/// Octets for another link or for TEI management, other timers and other requests leave the link
/// and its timers unchanged, send no frame for it and deliver no primitive about it. The link's own
/// octets, timers and requests are steps of the state table. The outputs of a step are sent in
/// order, and start and stop the link's timers.
pub fn each_link_gets_its_own()
    ensures network { (config : Config) (id : LinkId) → id.tei < 127 → (removed : Bool)
        → ServesLink (network_behaviour config) side.Network id removed }
    ensures user { (config : Config) (id : LinkId) → id.tei < 127 → (removed : Bool)
        → ServesLink (user_behaviour config) side.User id removed }
{}

/// Worked runs meet the premises of a link.
///
/// In the first run both links meet them, with a message on each, in opposite directions, and a
/// loss on each: a SABME and a message are lost, T200 expires on each link, and both messages are
/// received and acknowledged. The message of call control is sent and received in the first
/// establishment of both ends. In another run the user has no TEI when its layer 3 requests the
/// link, and obtains one. In a third the answers to a TEI check arrive late and count as two, and
/// the TEI is removed.
pub fn schedule_is_computed()
    ensures call_premises { (message answer : Vec ℕ Global) → IsMessage 1 message
        → IsMessage 2 answer → SatisfyPremises configs call (both_links message answer) at_first }
    ensures packet_premises { (message answer : Vec ℕ Global) → IsMessage 1 message
        → IsMessage 2 answer → SatisfyPremises configs packet (both_links message answer) at_first }
    ensures call_to_user { (message answer : Vec ℕ Global) → IsMessage 1 message
        → IsMessage 2 answer
        → link_primitives call (run configs (both_links message answer) at_first).delivered_to_user
        ≡ what.Confirmed ∷ what.Acknowledged 1 ∷ [] }
    ensures call_to_network { (message answer : Vec ℕ Global) → IsMessage 1 message
        → IsMessage 2 answer
        → link_primitives call
        (run configs (both_links message answer) at_first).delivered_to_network
        ≡ what.Established ∷ what.Up (1 ∷ []) ∷ [] }
    ensures packet_to_user { (message answer : Vec ℕ Global) → IsMessage 1 message
        → IsMessage 2 answer
        → link_primitives packet
        (run configs (both_links message answer) at_first).delivered_to_user
        ≡ what.Confirmed ∷ what.Up (2 ∷ []) ∷ [] }
    ensures packet_to_network { (message answer : Vec ℕ Global) → IsMessage 1 message
        → IsMessage 2 answer
        → link_primitives packet
        (run configs (both_links message answer) at_first).delivered_to_network
        ≡ what.Established ∷ what.Acknowledged 1 ∷ [] }
    ensures call_received_in { (message answer : Vec ℕ Global) → IsMessage 1 message
        → IsMessage 2 answer
        → (records_of configs call (both_links message answer) at_first).network.received_in
        ≡ 1 ∷ [] }
    ensures call_sent_in { (message answer : Vec ℕ Global) → IsMessage 1 message
        → IsMessage 2 answer
        → (records_of configs call (both_links message answer) at_first).user.sent_in 0
        ≡ Some 1 }
    ensures removed_premises { (first : Vec ℕ Global) → IsMessage 1 first
        → SatisfyPremises configs call (removed first) at_first }
    ensures removed_to_user { (first : Vec ℕ Global) → IsMessage 1 first
        → link_primitives call (run configs (removed first) at_first).delivered_to_user
        ≡ what.Confirmed ∷ what.Released ∷ [] }
    ensures assigned_premises { (message : Vec ℕ Global) → IsMessage 1 message
        → SatisfyPremises configs call (assigned message) unassigned }
    ensures assigned_to_user { (message : Vec ℕ Global) → IsMessage 1 message
        → link_primitives call (run configs (assigned message) unassigned).delivered_to_user
        ≡ what.Confirmed ∷ what.Acknowledged 1 ∷ [] }
    ensures assigned_to_network { (message : Vec ℕ Global) → IsMessage 1 message
        → link_primitives call (run configs (assigned message) unassigned).delivered_to_network
        ≡ what.Established ∷ what.Up (1 ∷ []) ∷ [] }
{}

/// Each premise is needed, and for the link itself.
///
/// Each of these short runs violates one premise. All but `t200_skips` and `tei_skips` end with a
/// message that counts as acknowledged but never arrived:
///
/// - `t200`: T200 of the link expires while the answer that it waits for is in transit.
///   `of_that_link`: this run keeps the premises of another link.
/// - `t200_skips`: likewise, but in this run all messages received are right, and one is skipped
///   within an establishment.
/// - `tei`: the TEI of the link is removed and assigned again. `tei_skips`: likewise, and a message
///   is skipped.
/// - `line`: frames from before are in transit.
pub fn each_premise_is_needed()
    ensures t200 { (first second : Vec ℕ Global) → IsMessage 1 first → IsMessage 2 second
        → GiveTeiOnce configs call (hasty first second) at_first
        × (IsReceivedByUser call (run configs (hasty first second) at_first) → ⊥) }
    ensures of_that_link { (first second : Vec ℕ Global) → IsMessage 1 first → IsMessage 2 second
        → SatisfyPremises configs packet (hasty first second) at_first
        × (IsReceivedByUser call (run configs (hasty first second) at_first) → ⊥) }
    ensures t200_skips { (first second third : Vec ℕ Global) → IsMessage 1 first
        → IsMessage 2 second → IsMessage 3 third
        → GiveTeiOnce configs packet (skipping first second third) at_first
        × IsReceivedByUser packet (run configs (skipping first second third) at_first)
        × (IsUnskippedByUser configs packet (skipping first second third) at_first → ⊥) }
    ensures tei { (first second : Vec ℕ Global) → IsMessage 1 first → IsMessage 2 second
        → AreTimely configs call (regained first second) at_first
        × (IsReceivedByNetwork call (run configs (regained first second) at_first) → ⊥) }
    ensures tei_skips { (first second third : Vec ℕ Global) → IsMessage 1 first
        → IsMessage 2 second → IsMessage 3 third
        → AreTimely configs packet (skipping_regained first second third) at_first
        × IsReceivedByNetwork packet (run configs (skipping_regained first second third) at_first)
        × (IsUnskippedByNetwork configs packet (skipping_regained first second third) at_first
        → ⊥) }
    ensures line { (message : Vec ℕ Global) → IsMessage 1 message
        → SatisfyPremises configs call (answered_before message) with_old_frames
        × (IsReceivedByNetwork call (run configs (answered_before message) with_old_frames) → ⊥) }
{}

/// On every link that a side ever has, each timer runs exactly when the link's end requires it.
///
/// T200 and T203 have a deadline exactly when they run at the link's end; T201 and T202 of a link
/// never have one. This holds for all links at once, whatever the events are: a TEI may be removed
/// and assigned again, and any octets may arrive or be overheard, numbers below 256 (Q.921 5.9.1,
/// 5.9.8, 5.10.3). Setting the durations of a side's timers is no event.
///
/// - `new_network`, `new_user`: newly created sides have this property.
/// - `network_event`, `user_event`: each event keeps it, from any side whose links have it, if only
///   octets are in transit to the side.
/// - `network_steps`, `user_steps`: so a side has it, whatever octets arrive before each event and
///   whatever the events are.
/// - `interface`: so both sides have it after every list of moves.
/// - `by_state`: in states 4, 5, 6 and 8 the state determines which of T200 and T203 have a
///   deadline. In state 7 exactly one has, and that is T200 if an I frame is outstanding.
/// - `woken`: while a link is in any state but 4, its side has a next deadline, no later than the
///   link's own. So a caller that sleeps until the next deadline does not sleep forever.
pub fn timers_run_as_ends_require()
    ensures new_network { (config : Config) (known : List ℕ)
        → HaveExactTimers (new_network config known).served.links }
    ensures new_user { (config : Config) (fixed : Option ℕ) (random : Lcg)
        → HaveExactTimers (new_user config fixed random).served.links }
    ensures network_event { (config : Config) (event : SideEvent) (v : SideView Network)
        → All AreOctets v.incoming → OverhearsOctets event → HaveExactTimers v.now.served.links
        → HaveExactTimers (does (network_behaviour config) event v).now.served.links }
    ensures user_event { (config : Config) (event : SideEvent) (v : SideView User)
        → All AreOctets v.incoming → OverhearsOctets event → HaveExactTimers v.now.served.links
        → HaveExactTimers (does (user_behaviour config) event v).now.served.links }
    ensures network_steps { (config : Config) (known : List ℕ) (side_steps : List SideStep)
        → All BringsOctets side_steps → HaveExactTimers
        (stepped_by_all (network_behaviour config) side_steps
        (new_view (new_network config known))).now.served.links }
    ensures user_steps { (config : Config) (fixed : Option ℕ) (random : Lcg)
        (side_steps : List SideStep)
        → All BringsOctets side_steps → HaveExactTimers
        (stepped_by_all (user_behaviour config) side_steps
        (new_view (new_user config fixed random))).now.served.links }
    ensures interface { (c : Configs) (fixed : Option ℕ) (random : Lcg) (known : List ℕ)
        (moves : List Move) → OverhearOctets moves
        → BothHaveExactTimers (run c moves
        (new_interface (new_user c.user fixed random) (new_network c.network known))) }
    ensures by_state { (linked : Linked) → HasExactTimers linked → RunByState linked }
    ensures woken { (s : Served) (id : LinkId) (linked : Linked) (next : Option ℕ)
        → HaveExactTimers s.links → s.links id ≡ Some linked
        → (linked.end.state ≡ TeiAssigned → ⊥) → IsNextDeadline s next → IsWoken linked next }
{}

/// The timer of TEI management runs exactly while its end waits for an answer.
///
/// A user side runs T202 while its terminal awaits a TEI, and a network side runs T201 while it
/// checks a TEI. No other timer of TEI management ever runs. So an establishment that is kept for a
/// TEI does not wait forever, and a check ends (Q.921 5.3.2, 5.3.3, 5.9.6, 5.9.7).
///
/// - `new_user`, `new_network`: newly created sides have this property.
/// - `user_event`, `network_event`: each event keeps it, whatever is in transit to the side.
/// - `interface`: so both sides have it after every list of moves.
/// - `terminal_is_woken`, `assigner_is_woken`: while one of them waits, its side has a next
///   deadline, no later than the timer's.
pub fn management_timers_run_while_it_waits()
    ensures new_user { (config : Config) (fixed : Option ℕ) (random : Lcg)
        → HasTimerOfTerminal (new_user config fixed random) }
    ensures new_network { (config : Config) (known : List ℕ)
        → HasTimerOfAssigner (new_network config known) }
    ensures user_event { (config : Config) (event : SideEvent) (v : SideView User)
        → HasTimerOfTerminal v.now
        → HasTimerOfTerminal (does (user_behaviour config) event v).now }
    ensures network_event { (config : Config) (event : SideEvent) (v : SideView Network)
        → HasTimerOfAssigner v.now
        → HasTimerOfAssigner (does (network_behaviour config) event v).now }
    ensures interface { (c : Configs) (fixed : Option ℕ) (random : Lcg) (known : List ℕ)
        (moves : List Move)
        → HaveTimersOfManagement (run c moves
        (new_interface (new_user c.user fixed random) (new_network c.network known))) }
    ensures terminal_is_woken { (s : User) (next : Option ℕ) → HasTimerOfTerminal s
        → is_awaiting s.management.terminal ≡ true → IsNextDeadline s.served next
        → IsAwaited T202 s.served.timers next }
    ensures assigner_is_woken { (s : Network) (next : Option ℕ) → HasTimerOfAssigner s
        → is_some s.management.check ≡ true → IsNextDeadline s.served next
        → IsAwaited T201 s.served.timers next }
{}

/// A TEI has no links when a side assigns or obtains it. So all links that it has then are new.
///
/// This holds for a newly created side after any steps, whatever octets arrive, and needs no
/// premise: a TEI may be removed and assigned again. `given_for` is the TEI that received octets
/// make a side assign or obtain. A table of links in code that represents the side has no link of
/// this TEI either (`IsAbsent`).
pub fn added_links_are_new()
    ensures network { (config : Config) (known : List ℕ) (side_steps : List SideStep)
        (octets : List ℕ)
        → HasNoLinks side.Network (network_after config known side_steps).served.links
        (given_for network_rules (network_after config known side_steps).management octets) }
    ensures user { (config : Config) (fixed : Option ℕ) (random : Lcg)
        (side_steps : List SideStep) (octets : List ℕ)
        → HasNoLinks side.User (user_after config fixed random side_steps).served.links
        (given_for user_rules (user_after config fixed random side_steps).management octets) }
{}
