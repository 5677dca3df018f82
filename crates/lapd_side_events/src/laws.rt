//! How the calls of sides in code are events. A call of a law does nothing.

ghost use Rattle.std.specs.Prelude.{◌≡◌, ◌∷◌, ℕ, List, Some, Option, Result, Vec, ⊤, slice_get};
ghost use Rattle.std.specs.declared.alloc.Global.{Global};
ghost use Rattle.lapd_sides_links.specs.declared.config.Config.{Config};
ghost use Rattle.lapd_sides_links.specs.declared.running_timer.RunningTimer.{RunningTimer};
ghost use Rattle.lapd_sides_links.specs.declared.side_fault.SideFault.{SideFault};
ghost use Rattle.lapd_sides_links.specs.Effects.{Effects};
ghost use Rattle.lapd_sides_links.specs.Expiries.{IsDue};
ghost use Rattle.lapd_sides.specs.ShowsNetwork.{NetSide};
ghost use Rattle.lapd_sides.specs.declared.request.Request.{Request};
ghost use Rattle.lapd_sides.specs.ShowsUser.{UserSide};
ghost use Rattle.lapd_sides.specs.SideState.{expires, given_for, takes};
ghost use Rattle.lapd_sides.specs.Network.{Network, network_requested, network_rules};
ghost use Rattle.lapd_sides.specs.User.{User, user_requested, user_rules};
ghost use Rattle.lapd_side_events.specs.Calls.{NetworkDoes, UserDoes, take_of};
ghost use Rattle.lapd_side_events.specs.Interface.{Configs};
ghost use Rattle.lapd_side_events.specs.SideView.{SideView, SideEvent, Expire, Ask};
ghost use Rattle.lapd_side_events.specs.Bus.{Bus, OfTerminal, OfNetwork, on_line_of};
ghost use Rattle.lapd_side_events.specs.BusCalls.{IsOfTerminal, IsOfNetwork};
ghost use Rattle.lapd_sides.specs.Calls as calls;
ghost use Rattle.lapd_sides.specs.ShowsNetwork as net;
ghost use Rattle.lapd_sides.specs.ShowsUser as usr;

/// Each call of a side in code is an event of the side, by the contract of the call.
///
/// Let the code represent any side before the call. After it the code represents the side that the
/// event leaves. The call adds exactly the frames that the event sends and the primitives that it
/// delivers. A `take` that runs out of memory loses its octets, unless they are taken again. A
/// `tick` that does something is the expiry of the timer that is due. A `request` is a request
/// event, whether the side accepts or refuses it.
pub fn calls_are_events()
    ensures network_takes { (old new : NetSide) (acts : Effects) (result : Result ⊤ SideFault)
        (octets : List ℕ) (rest : List (List ℕ)) (now : ℕ)
        → calls.Receives net.ShowNetwork result old new acts
        (λ s. given_for network_rules s.management octets)
        (λ config. takes network_rules config octets now)
        → (config : Config) (v : SideView Network) → net.ShowNetwork old config v.now
        → v.incoming ≡ octets ∷ rest → NetworkDoes new config acts (take_of result now) v }
    ensures network_ticks { (old new : NetSide) (acts : Effects) (now : ℕ)
        → calls.Expires net.ShowNetwork (expires network_rules) old new acts now
        → (config : Config) (v : SideView Network) → net.ShowNetwork old config v.now
        → (e : RunningTimer) × IsDue now v.now.served (Some e)
        × NetworkDoes new config acts (Expire e.timer e.of now) v }
    ensures network_requests { (old new : NetSide) (acts : Effects) (result : Result ⊤ SideFault)
        (message : Option (Vec ℕ Global)) (request : Request) (now : ℕ)
        → calls.Answers net.ShowNetwork result old new acts message
        (λ config. network_requested config request now)
        → (config : Config) (v : SideView Network) → net.ShowNetwork old config v.now
        → NetworkDoes new config acts (Ask request now) v }
    ensures user_takes { (old new : UserSide) (acts : Effects) (result : Result ⊤ SideFault)
        (octets : List ℕ) (rest : List (List ℕ)) (now : ℕ)
        → calls.Receives usr.ShowUser result old new acts
        (λ s. given_for user_rules s.management octets)
        (λ config. takes user_rules config octets now)
        → (config : Config) (v : SideView User) → usr.ShowUser old config v.now
        → v.incoming ≡ octets ∷ rest → UserDoes new config acts (take_of result now) v }
    ensures user_ticks { (old new : UserSide) (acts : Effects) (now : ℕ)
        → calls.Expires usr.ShowUser (expires user_rules) old new acts now
        → (config : Config) (v : SideView User) → usr.ShowUser old config v.now
        → (e : RunningTimer) × IsDue now v.now.served (Some e)
        × UserDoes new config acts (Expire e.timer e.of now) v }
    ensures user_requests { (old new : UserSide) (acts : Effects) (result : Result ⊤ SideFault)
        (message : Option (Vec ℕ Global)) (request : Request) (now : ℕ)
        → calls.Answers usr.ShowUser result old new acts message
        (λ config. user_requested config request now)
        → (config : Config) (v : SideView User) → usr.ShowUser old config v.now
        → UserDoes new config acts (Ask request now) v }
{}

/// A call of one of n + 1 sides in code is an event of the bus: of a terminal, or of the network
/// with the line of a terminal.
///
/// `calls_are_events` of `lapd_two_side_laws` says which event of its side each call is, by the
/// contract of the call. Let the code represent any side of a bus before the call. After it the
/// code represents this side on the bus that the event leads to. If the program sends the frames of
/// a call of the network side to all terminals, and those of a terminal to the network, they are in
/// transit as the bus has them.
pub fn calls_are_bus_events()
    ensures terminal { (c : Configs) (i : ℕ) (code : UserSide) (acts : Effects)
        (event : SideEvent) (t : SideView User) (b : Bus) → slice_get b.terminals i ≡ Some t
        → UserDoes code c.user acts event t
        → IsOfTerminal c i code acts (OfTerminal i event) t b }
    ensures network { (c : Configs) (j : ℕ) (code : NetSide) (acts : Effects)
        (event : SideEvent) (t : SideView User) (b : Bus) → slice_get b.terminals j ≡ Some t
        → NetworkDoes code c.network acts event (on_line_of t b)
        → IsOfNetwork c code acts (OfNetwork j event) b }
{}
