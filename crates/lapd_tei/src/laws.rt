//! Laws that test the definitions. Calling them does nothing.

ghost use Rattle.std.specs.Prelude.{ℕ, List, ◌≡◌, ◌≢◌, ◌++◌, [], ◌∷◌, true, map, Ok, Err, Some};
ghost use Rattle.std.specs.List.{AllByRecursion};
ghost use Rattle.lapd_timers.specs.declared.timer.Timer.TheVariants as timer;
ghost use Rattle.lapd_frame.specs.declared.Side.TheVariants as side;
ghost use Rattle.lapd_frame.specs.Frame.{spelling};
ghost use Rattle.lapd_tei.specs.declared.out.TeiOut.TheVariants as out;
ghost use Rattle.lapd_tei.specs.declared.phase.Phase.TheVariants.{Unassigned, Assigned};
ghost use Rattle.lapd_tei.specs.declared.bus_move.BusFault.TheVariants.{NothingThere, HeardBefore};
ghost use Rattle.lapd_tei.specs.Message.{frame_of_message};
ghost use Rattle.lapd_tei.specs.Out.{request, assigned, denied, check_request, check_response, remove};
ghost use Rattle.lapd_tei.specs.Bus.{BusState, new_bus, run, refusals};
ghost use Rattle.lapd_tei.specs.Assigner.{nothing_held, known_held, is_held};
ghost use Rattle.lapd_tei.specs.declared.assigner.AssignerEvent.TheVariants as event;
ghost use Rattle.lapd_tei.specs.declared.bus_move.BusMove.TheVariants.{Ask, HearUp};
ghost use Rattle.lapd_tei.specs.Worked.{answers, check_with, removed_under_check, results, two_ask, vain_check, three_times, served, got_by_another, one_reference, freed_while_held, freed_on_its_way, reference_again, reference_on_its_way, reference_outstanding, reference_got_by, checked_while_held, checked_on_its_way, removed_while_held, restarted_while_held, restarted_on_its_way, joined_while_held, joined_on_its_way, joined_unknown};
ghost use Rattle.lapd_tei.specs.Single.{Single, MeetsPremises, freed};
ghost use Rattle.lapd_tei.specs.Service.{BusEvent, Move, in_service, event_step, after_events, HoldsInUse, IsInOrder, KnowsAnew, AsksByItsOwn, FreesNobodysTei, RestartsKnowing, JoinsByItsOwn, LosesNone, MeetsInService, AreNotEnough};
ghost use Rattle.lapd_tei.specs.declared.bus_move.BusMove.{BusMove};

/// Two terminals request TEIs, and each accepts only the assignment with its own reference. A check
/// without a response frees the TEI. A terminal without an answer requests three times, then fails.
pub fn moves_are_computed()
    ensures asked { results (new_bus 2) two_ask ≡ Ok
        (out.Send (request 0x1234) ∷ out.Start timer.T202 ∷ [])
        ∷ Ok (out.Send (request 0x5678) ∷ out.Start timer.T202 ∷ [])
        ∷ Ok (out.Send (assigned 0x1234 64) ∷ out.Given 64 ∷ []) ∷ Ok []
        ∷ Ok (out.Stop timer.T202 ∷ out.Got 64 ∷ []) ∷ Err HeardBefore
        ∷ Ok (out.Send (assigned 0x5678 65) ∷ out.Given 65 ∷ [])
        ∷ Ok (out.Stop timer.T202 ∷ out.Got 65 ∷ []) ∷ [] }
    ensures checked { results (run (new_bus 2) two_ask) vain_check
        ≡ Ok (out.Send (check_request 64) ∷ out.Start timer.T201 ∷ [])
        ∷ Ok (out.Send (check_request 64) ∷ out.Start timer.T201 ∷ []) ∷ Ok (out.Free 64 ∷ [])
        ∷ [] }
    ensures terminals { (run (new_bus 2) two_ask).terminals
        ≡ Assigned (Some 0x1234) 64 ∷ Assigned (Some 0x5678) 65 ∷ [] }
    ensures gives_up { results (new_bus 2) three_times
        ≡ Ok (out.Send (request 1) ∷ out.Start timer.T202 ∷ [])
        ∷ Ok (out.Send (request 2) ∷ out.Start timer.T202 ∷ [])
        ∷ Ok (out.Send (request 3) ∷ out.Start timer.T202 ∷ []) ∷ Ok (out.Failed ∷ [])
        ∷ Err NothingThere ∷ [] }
    ensures refused { refusals (new_bus 2) (two_ask ++ three_times) ≡ 5 }
{}

/// An assigner assigns the lowest free TEI, and denies requests when 64 to 126 are all held. One
/// response to a check reports the TEI in use; two or more make the assigner send Identity remove
/// twice, and so does a removal, which ends a check of its TEI alone. The octets match Table 8 of
/// Q.921.
pub fn assigner_is_computed()
    ensures given { answers nothing_held (event.Heard (request 0x1234) ∷ event.Heard (request 1)
        ∷ []) ≡ (out.Send (assigned 0x1234 64) ∷ out.Given 64 ∷ [])
        ∷ (out.Send (assigned 1 65) ∷ out.Given 65 ∷ []) ∷ [] }
    ensures known { answers (known_held (64 ∷ 66 ∷ 64 ∷ []))
        (event.Heard (request 1) ∷ event.Heard (request 2) ∷ [])
        ≡ (out.Send (assigned 1 65) ∷ out.Given 65 ∷ [])
        ∷ (out.Send (assigned 2 67) ∷ out.Given 67 ∷ []) ∷ [] }
    ensures denied { results (run (new_bus 1) (served 63)) (Ask 0 1 ∷ HearUp 0 ∷ [])
        ≡ Ok (out.Send (request 1) ∷ out.Start timer.T202 ∷ []) ∷ Ok (out.Send (denied 1) ∷ [])
        ∷ [] }
    ensures in_use { answers nothing_held (check_with 1)
        ≡ (out.Send (check_request 64) ∷ out.Start timer.T201 ∷ []) ∷ [] ∷ (out.InUse 64 ∷ [])
        ∷ [] }
    ensures doubled { answers nothing_held (check_with 2)
        ≡ (out.Send (check_request 64) ∷ out.Start timer.T201 ∷ []) ∷ [] ∷ []
        ∷ (out.Send (remove 64) ∷ out.Send (remove 64) ∷ out.Doubled 64 ∷ []) ∷ [] }
    ensures removed { answers (known_held (64 ∷ 65 ∷ [])) removed_under_check
        ≡ (out.Send (check_request 65) ∷ out.Start timer.T201 ∷ [])
        ∷ (out.Send (remove 64) ∷ out.Send (remove 64) ∷ out.Free 64 ∷ [])
        ∷ (out.Stop timer.T201 ∷ out.Send (remove 65) ∷ out.Send (remove 65) ∷ out.Free 65 ∷ [])
        ∷ [] ∷ [] }
    ensures request_octets { spelling side.User (frame_of_message (request 0x1234))
        ≡ 0xFC ∷ 0xFF ∷ 0x03 ∷ 0x0F ∷ 0x12 ∷ 0x34 ∷ 0x01 ∷ 0xFF ∷ [] }
    ensures assigned_octets { spelling side.Network (frame_of_message (assigned 0x1234 64))
        ≡ 0xFE ∷ 0xFF ∷ 0x03 ∷ 0x0F ∷ 0x12 ∷ 0x34 ∷ 0x02 ∷ 0x81 ∷ [] }
    ensures denied_octets { spelling side.Network (frame_of_message (denied 0x1234))
        ≡ 0xFE ∷ 0xFF ∷ 0x03 ∷ 0x0F ∷ 0x12 ∷ 0x34 ∷ 0x03 ∷ 0xFF ∷ [] }
    ensures check_octets { spelling side.Network (frame_of_message (check_request 64))
        ≡ 0xFE ∷ 0xFF ∷ 0x03 ∷ 0x0F ∷ 0x00 ∷ 0x00 ∷ 0x04 ∷ 0x81 ∷ [] }
    ensures response_octets { spelling side.User (frame_of_message (check_response 0x5678 64))
        ≡ 0xFC ∷ 0xFF ∷ 0x03 ∷ 0x0F ∷ 0x56 ∷ 0x78 ∷ 0x05 ∷ 0x81 ∷ [] }
    ensures remove_octets { spelling side.Network (frame_of_message (remove 64))
        ≡ 0xFE ∷ 0xFF ∷ 0x03 ∷ 0x0F ∷ 0x00 ∷ 0x00 ∷ 0x06 ∷ 0x81 ∷ [] }
{}

/// After every run from a new bus no two terminals hold the same TEI, if the references of all
/// requests differ and a TEI is freed only while no terminal holds it and no assignment of it is in
/// transit. Messages may be lost, repeated or reordered, timers may expire at any moment, and
/// terminals may leave and request again.
pub fn terminals_are_single()
    ensures { (terminals : ℕ) (moves : List BusMove) → MeetsPremises terminals moves
        → Single (run (new_bus terminals) moves) }
{}

/// A worked run meets both premises of `terminals_are_single`. In it a freed TEI is assigned to
/// another terminal.
pub fn premises_can_be_met()
    ensures met { MeetsPremises 2 got_by_another }
    ensures got { (run (new_bus 2) got_by_another).terminals
        ≡ Unassigned ∷ Assigned (Some 3) 64 ∷ [] }
{}

/// Each premise of `terminals_are_single` is needed. Two terminals end up with the same TEI if two
/// requests share a reference, if a check frees a TEI that a terminal holds, or if it frees one
/// whose assignment is in transit.
pub fn premises_are_needed()
    ensures references { Single (run (new_bus 2) one_reference) → ⊥ }
    ensures holders { Single (run (new_bus 2) freed_while_held) → ⊥ }
    ensures assignments { Single (run (new_bus 2) freed_on_its_way) → ⊥ }
{}

/// On a bus in service no two terminals ever hold the same TEI. The network side holds each TEI of
/// 64 to 126 that a terminal holds or an assignment in transit carries. By `until`, the network
/// side gives up a TEI only if a check or a removal frees it, or if it restarts without it.
///
/// The premises are of each event (`MeetsInService`). A TEI is in use while a terminal holds it or
/// an assignment in transit carries it.
///
/// - A terminal requests only by a reference that is not another terminal's last one.
/// - Neither a check nor a removal frees a TEI in use.
/// - A network side that restarts knows the TEIs in use, from 64 on.
/// - A terminal joins with a fixed TEI only if that TEI is not in use and, from 64 on, the network
///   side knows it.
///
/// For `held` all but the first are enough.
pub fn service_is_in_order()
    ensures in_order { (terminals : ℕ) (known : List ℕ) (events : List BusEvent)
        → MeetsInService (in_service terminals known) events
        → IsInOrder (after_events (in_service terminals known) events) }
    ensures held { (terminals : ℕ) (known : List ℕ) (events : List BusEvent)
        → LosesNone (in_service terminals known) events
        → HoldsInUse (after_events (in_service terminals known) events) }
    ensures until { (b : BusState) (event : BusEvent) (tei : ℕ)
        → is_held b.assigner.held tei ≡ true → KnowsAnew event tei
        → AllByRecursion (λ n. tei ≢ n) (freed (event_step b event).outs)
        → is_held (event_step b event).now.assigner.held tei ≡ true }
{}

/// A new bus is a bus in service, and its moves are events of it. If references differ in the whole
/// run, none is another terminal's last one. So the law of a bus in service implies that of a new
/// bus.
pub fn moves_are_events()
    ensures first { (terminals : ℕ) → in_service terminals [] ≡ new_bus terminals }
    ensures moves { (b : BusState) (moves : List BusMove) → after_events b (map Move moves)
        ≡ run b moves }
    ensures premises { (terminals : ℕ) (moves : List BusMove) → MeetsPremises terminals moves
        → MeetsInService (in_service terminals []) (map Move moves) }
{}

/// The premises of a bus in service can be met. One run has a known TEI, a fixed TEI, a terminal
/// that requests a link, a restart of the network side, a freed TEI, and a reference that a second
/// terminal uses again. In the other, a reference is used again while requests and assignments with
/// it are in transit.
pub fn service_premises_can_be_met()
    ensures met { MeetsInService (in_service 2 (64 ∷ [])) reference_again }
    ensures got { (after_events (in_service 2 (64 ∷ [])) reference_again).terminals
        ≡ Unassigned ∷ Assigned (Some 7) 65 ∷ [] }
    ensures met_on_its_way { MeetsInService (in_service 2 []) reference_on_its_way }
    ensures got_on_its_way { (after_events (in_service 2 []) reference_on_its_way).terminals
        ≡ Assigned (Some 7) 66 ∷ Unassigned ∷ [] }
{}

/// Each of the four premises of a bus in service is needed. With the other three met, two terminals
/// end up with the same TEI in each of these cases: one requests by the other's reference,
/// outstanding or the one that it was assigned by; a check frees a TEI that is held or whose
/// assignment is in transit; a TEI that is held is removed, and its terminal does not receive the
/// removal; the network side restarts without knowing such a TEI; a terminal joins with a fixed TEI
/// that is held, whose assignment is in transit, or that the network side does not know.
pub fn service_premises_are_needed()
    ensures outstanding { AreNotEnough FreesNobodysTei RestartsKnowing JoinsByItsOwn
        reference_outstanding }
    ensures got_by { AreNotEnough FreesNobodysTei RestartsKnowing JoinsByItsOwn reference_got_by }
    ensures checked_held { AreNotEnough AsksByItsOwn RestartsKnowing JoinsByItsOwn
        checked_while_held }
    ensures checked_assigned { AreNotEnough AsksByItsOwn RestartsKnowing JoinsByItsOwn
        checked_on_its_way }
    ensures removed_held { AreNotEnough AsksByItsOwn RestartsKnowing JoinsByItsOwn
        removed_while_held }
    ensures restarted_held { AreNotEnough AsksByItsOwn FreesNobodysTei JoinsByItsOwn
        restarted_while_held }
    ensures restarted_assigned { AreNotEnough AsksByItsOwn FreesNobodysTei JoinsByItsOwn
        restarted_on_its_way }
    ensures joined_held { AreNotEnough AsksByItsOwn FreesNobodysTei RestartsKnowing
        joined_while_held }
    ensures joined_assigned { AreNotEnough AsksByItsOwn FreesNobodysTei RestartsKnowing
        joined_on_its_way }
    ensures joined_unknown { AreNotEnough AsksByItsOwn FreesNobodysTei RestartsKnowing
        joined_unknown }
{}
