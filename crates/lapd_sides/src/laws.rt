//! Laws that test the definitions. Calling them does nothing.

ghost use Rattle.std.specs.Prelude.{◌≡◌, ◌∷◌, ◌++◌, [], None, Some, Ok, Err};
ghost use Rattle.lapd_frame.specs.declared.Sapi.TheVariants.{Call, Packet};
ghost use Rattle.lapd_link_definition.specs.declared.state.State.TheVariants.{TeiAssigned, MultipleFrameEstablished};
ghost use Rattle.lapd_tei.specs.declared.out.TeiOut.TheVariants as tei;
ghost use Rattle.lapd_timers.specs.declared.timer.Timer.TheVariants.{T200, T202, T203};
ghost use Rattle.lapd_timers.specs.Due.{deadline_of};
ghost use Rattle.lapd_sides_links.specs.declared.primitive.Primitive.TheVariants.{Of, Management};
ghost use Rattle.lapd_sides_links.specs.declared.primitive.What.TheVariants as what;
ghost use Rattle.lapd_sides_links.specs.declared.side_fault.SideKind.TheVariants.{NoLink};
ghost use Rattle.lapd_sides_links.specs.Effects.{no_effects};
ghost use Rattle.lapd_sides_links.specs.Links.{of_sapi};
ghost use Rattle.lapd_sides.specs.Network.{new_network, network_rules};
ghost use Rattle.lapd_sides.specs.User.{new_user, user_rules};
ghost use Rattle.lapd_sides.specs.Worked.{side_run, side_gives, state_of, ends_at, asking, reference, both_sapis, call_control_alone, tei_and_disc, both_established, one_released, vain_check, removed_at, four_and_sabme, random, vain_want, want_and_tei, given_up, all_at, check_and_all, all_arrive, answering};

/// A network side assigns a TEI, and from then on its two links respond. A DISC for another TEI is
/// discarded.
pub fn assignments_make_links()
    ensures { side_gives network_rules both_sapis tei_and_disc (new_network both_sapis [])
        ≡ Ok (record {
          frames = (0xFE ∷ 0xFF ∷ 0x03 ∷ 0x0F ∷ 0x12 ∷ 0x34 ∷ 0x02 ∷ 0x81 ∷ []) ∷ [];
          primitives = Management (tei.Given 64) ∷ [];
        })
        ∷ Ok (record { frames = (0x00 ∷ 0x81 ∷ 0x1F ∷ []) ∷ []; primitives = [] })
        ∷ Ok (record { frames = (0x40 ∷ 0x81 ∷ 0x1F ∷ []) ∷ []; primitives = [] })
        ∷ Ok (record { frames = []; primitives = [] }) ∷ [] }
{}

/// Two links are established at 0 ms, and the link of SAPI 16 is released at 500 ms. The other
/// stays in state 7, and its T203 still expires at 10,000 ms.
pub fn releases_leave_other_links()
    ensures gives { side_gives network_rules both_sapis (both_established ++ one_released)
        (new_network both_sapis (64 ∷ []))
        ≡ Ok (record {
          frames = (0x00 ∷ 0x81 ∷ 0x73 ∷ []) ∷ [];
          primitives = Of (of_sapi Call 64) what.Established ∷ [];
        })
        ∷ Ok (record {
          frames = (0x40 ∷ 0x81 ∷ 0x73 ∷ []) ∷ [];
          primitives = Of (of_sapi Packet 64) what.Established ∷ [];
        })
        ∷ Ok (record {
          frames = (0x40 ∷ 0x81 ∷ 0x73 ∷ []) ∷ [];
          primitives = Of (of_sapi Packet 64) what.Released ∷ [];
        }) ∷ [] }
    ensures released { state_of ((side_run network_rules both_sapis
        (both_established ++ one_released) (new_network both_sapis (64 ∷ []))).served.links
        (of_sapi Packet 64)) ≡ Some TeiAssigned }
    ensures other_state { state_of ((side_run network_rules both_sapis
        (both_established ++ one_released) (new_network both_sapis (64 ∷ []))).served.links
        (of_sapi Call 64)) ≡ Some MultipleFrameEstablished }
    ensures other_timer { ends_at T203 ((side_run network_rules both_sapis
        (both_established ++ one_released) (new_network both_sapis (64 ∷ []))).served.links
        (of_sapi Call 64)) ≡ Some 10000 }
{}

/// A check without a response frees the TEI: the outcome is reported first, then its links are
/// released, by ascending SAPI.
pub fn freed_teis_lose_their_links()
    ensures gives { side_gives network_rules both_sapis vain_check
        (side_run network_rules both_sapis both_established (new_network both_sapis (64 ∷ [])))
        ≡ Ok (record {
          frames = (0xFE ∷ 0xFF ∷ 0x03 ∷ 0x0F ∷ 0x00 ∷ 0x00 ∷ 0x04 ∷ 0x81 ∷ []) ∷ [];
          primitives = [];
        })
        ∷ Ok (record {
          frames = (0xFE ∷ 0xFF ∷ 0x03 ∷ 0x0F ∷ 0x00 ∷ 0x00 ∷ 0x04 ∷ 0x81 ∷ []) ∷ [];
          primitives = [];
        })
        ∷ Ok (record {
          frames = [];
          primitives = Management (tei.Free 64)
              ∷ Of (of_sapi Call 64) what.Released ∷ Of (of_sapi Packet 64) what.Released ∷ [];
        }) ∷ [] }
    ensures gone { (side_run network_rules both_sapis (both_established ++ vain_check)
        (new_network both_sapis (64 ∷ []))).served.links (of_sapi Call 64) ≡ None }
{}

/// A network side that removes a TEI sends Identity remove twice, reports the TEI free, and then
/// releases its links, by ascending SAPI. The group TEI is not removed. A terminal that gives up
/// its TEI sends nothing, and gives up no other TEI.
pub fn removed_teis_lose_their_links()
    ensures gives { side_gives network_rules both_sapis (removed_at 600)
        (side_run network_rules both_sapis both_established (new_network both_sapis (64 ∷ [])))
        ≡ Ok (record {
          frames = (0xFE ∷ 0xFF ∷ 0x03 ∷ 0x0F ∷ 0x00 ∷ 0x00 ∷ 0x06 ∷ 0x81 ∷ [])
              ∷ (0xFE ∷ 0xFF ∷ 0x03 ∷ 0x0F ∷ 0x00 ∷ 0x00 ∷ 0x06 ∷ 0x81 ∷ []) ∷ [];
          primitives = Management (tei.Free 64)
              ∷ Of (of_sapi Call 64) what.Released ∷ Of (of_sapi Packet 64) what.Released ∷ [];
        }) ∷ Ok no_effects ∷ [] }
    ensures gone { (side_run network_rules both_sapis (both_established ++ removed_at 600)
        (new_network both_sapis (64 ∷ []))).served.links (of_sapi Call 64) ≡ None }
    ensures given_up { side_gives user_rules both_sapis given_up
        (new_user both_sapis (Some 64) random)
        ≡ Err NoLink ∷ Ok (record { frames = []; primitives = Management (tei.Gone 64) ∷ [] })
        ∷ Err NoLink ∷ [] }
{}

/// A network side that holds no TEI checks all TEIs by one message, and removes all by two. While it
/// holds a TEI it only checks; while it checks one, it sends nothing. A terminal answers with its TEI
/// and gives it up.
pub fn all_teis_are_checked_and_removed()
    ensures none_held { side_gives network_rules both_sapis (all_at 0) (new_network both_sapis [])
        ≡ Ok (record {
          frames = (0xFE ∷ 0xFF ∷ 0x03 ∷ 0x0F ∷ 0x00 ∷ 0x00 ∷ 0x04 ∷ 0xFF ∷ []) ∷ [];
          primitives = [];
        })
        ∷ Ok (record {
          frames = (0xFE ∷ 0xFF ∷ 0x03 ∷ 0x0F ∷ 0x00 ∷ 0x00 ∷ 0x06 ∷ 0xFF ∷ [])
              ∷ (0xFE ∷ 0xFF ∷ 0x03 ∷ 0x0F ∷ 0x00 ∷ 0x00 ∷ 0x06 ∷ 0xFF ∷ []) ∷ [];
          primitives = [];
        }) ∷ [] }
    ensures held { side_gives network_rules both_sapis (all_at 0) (new_network both_sapis (64 ∷ []))
        ≡ Ok (record {
          frames = (0xFE ∷ 0xFF ∷ 0x03 ∷ 0x0F ∷ 0x00 ∷ 0x00 ∷ 0x04 ∷ 0xFF ∷ []) ∷ [];
          primitives = [];
        }) ∷ Ok no_effects ∷ [] }
    ensures checking { side_gives network_rules both_sapis (check_and_all 0)
        (new_network both_sapis (64 ∷ []))
        ≡ Ok (record {
          frames = (0xFE ∷ 0xFF ∷ 0x03 ∷ 0x0F ∷ 0x00 ∷ 0x00 ∷ 0x04 ∷ 0x81 ∷ []) ∷ [];
          primitives = [];
        }) ∷ Ok no_effects ∷ Ok no_effects ∷ [] }
    ensures obeyed { side_gives user_rules both_sapis all_arrive (new_user both_sapis (Some 64) random)
        ≡ Ok (record { frames = answering (reference 0) 64 ∷ []; primitives = [] })
        ∷ Ok (record { frames = []; primitives = Management (tei.Gone 64) ∷ [] })
        ∷ Ok no_effects ∷ [] }
{}

/// Octets with F1, F2 and F3, and a frame for a TEI without links, are discarded and counted; a
/// SABME is answered.
pub fn discarded_frames_are_counted()
    ensures gives { side_gives network_rules call_control_alone four_and_sabme
        (new_network call_control_alone (64 ∷ []))
        ≡ Ok no_effects ∷ Ok no_effects ∷ Ok no_effects ∷ Ok no_effects
        ∷ Ok (record {
          frames = (0x00 ∷ 0x81 ∷ 0x73 ∷ []) ∷ [];
          primitives = Of (of_sapi Call 64) what.Established ∷ [];
        }) ∷ [] }
    ensures counts { (side_run network_rules call_control_alone four_and_sabme
        (new_network call_control_alone (64 ∷ []))).discarded ≡ 4 }
{}

/// A user side without a TEI is requested to establish. It requests a TEI three times, 2,000 ms
/// apart, each time with a new reference, and then fails; the kept establishment is released.
pub fn vain_requests_are_released()
    ensures { side_gives user_rules call_control_alone vain_want
        (new_user call_control_alone None random)
        ≡ Ok (record { frames = asking 0 ∷ []; primitives = [] })
        ∷ Ok (record { frames = asking (reference 1) ∷ []; primitives = [] })
        ∷ Ok (record { frames = asking (reference 2) ∷ []; primitives = [] })
        ∷ Ok (record {
          frames = [];
          primitives = Management tei.Failed ∷ Of (of_sapi Call 127) what.Released ∷ [];
        }) ∷ [] }
{}

/// The terminal obtains TEI 64 by its first reference: the kept establishment is executed, T202 is
/// stopped, and T200 of the new link runs.
pub fn pending_establishments_are_done()
    ensures gives { side_gives user_rules call_control_alone want_and_tei
        (new_user call_control_alone None random)
        ≡ Ok (record { frames = asking 0 ∷ []; primitives = [] })
        ∷ Ok (record {
          frames = (0x00 ∷ 0x81 ∷ 0x7F ∷ []) ∷ [];
          primitives = Management (tei.Got 64) ∷ [];
        }) ∷ [] }
    ensures t202 { deadline_of T202 (side_run user_rules call_control_alone want_and_tei
        (new_user call_control_alone None random)).served.timers ≡ None }
    ensures t200 { ends_at T200 ((side_run user_rules call_control_alone want_and_tei
        (new_user call_control_alone None random)).served.links (of_sapi Call 64)) ≡ Some 1100 }
{}
