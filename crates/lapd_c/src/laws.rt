//! Laws over the definitions. Calling them does nothing.

ghost use Rattle.std.specs.Prelude.{◌≡◌, ◌==◌, ℕ, List, [], ◌++◌, Option, is_some, true};
ghost use Rattle.lapd_table.specs.declared.link_id.LinkId.{LinkId};
ghost use Rattle.lapd_sides.specs.declared.request.Request.{Request};
ghost use Rattle.lapd_sides.specs.Either.{side_of, Takes, Answers, Gives};
ghost use Rattle.lapd_sides_links.specs.Messages.{Message};
ghost use Rattle.lapd_c.specs.ThroughHandle.{AsksSide, AsksCheck, AsksTei, AsksLink, AsksLinkWith, ChecksSide, Through};
ghost use Rattle.lapd_timers.specs.Durations.{Lengths};
ghost use Rattle.lapd_c.specs.declared.held_side.HeldSide.{HeldSide};
ghost use Rattle.lapd_c.specs.declared.link_counters.FlatCounters.{FlatCounters};
ghost use Rattle.lapd_c.specs.Calls.{HasBegunCounting, HasCalled, HasSetTimers, HasTicked, ReturnsCounters, Ticks};
ghost use Rattle.lapd_c.specs.CountedCalls.{Adds, CountedCall, one_call, with_calls};
ghost use Rattle.lapd_c.specs.CodeOrder.{ReturnsInOrder};
ghost use Rattle.lapd_c.specs.Codes.{done, memory, no_side};
ghost use Rattle.lapd_c.specs.Counters.{counters_of, flat_counters, nothing_counted};
ghost use Rattle.lapd_c.specs.Owned.{Held};
ghost use Rattle.lapd_c.specs.declared.settings.Settings.{Settings};
ghost use Rattle.lapd_c.specs.Settings.{config_of};
ghost use Rattle.lapd_c.specs.WrongSetting.{wrong_setting};

/// Each call that passes something in returns code 3 exactly if a number is out of range, otherwise
/// code 1 exactly if the handle owns no side, otherwise code 2 exactly if too many results wait. If
/// unit data can't be copied, the code is 13 in place of 1 and 2 (`message`).
pub fn codes_are_in_order()
    ensures frame { (octets : List ℕ) (now code : ℕ) (old new : Held)
        → AsksSide (Takes octets now) octets code old new → ReturnsInOrder true old code }
    ensures request { (request : Request) (now code : ℕ) (old new : Held)
        → AsksSide (Answers request now) [] code old new → ReturnsInOrder true old code }
    ensures link { (request : LinkId → Request) (now code : ℕ) (old new : Held)
        (id : Option LinkId) → AsksLink (λ id. Answers (request id) now) code old new id
        → ReturnsInOrder (is_some id) old code }
    ensures give { (octets : List ℕ) (now code : ℕ) (old new : Held) (id : Option LinkId)
        → AsksLink (λ id. Gives id octets now) code old new id
        → ReturnsInOrder (is_some id) old code }
    ensures check { (now code : ℕ) (old new : Held) (tei : Option ℕ)
        → AsksCheck now code old new tei → ReturnsInOrder (is_some tei) old code }
    ensures check_all { (request : Request) (now code : ℕ) (old new : Held)
        → ChecksSide request now code old new → ReturnsInOrder true old code }
    ensures tei { (request : ℕ → Request) (now code : ℕ) (old new : Held) (tei : Option ℕ)
        → AsksTei (λ tei. Answers (request tei) now) code old new tei
        → ReturnsInOrder (is_some tei) old code }
    ensures message { (request : LinkId → Message → Request) (now : ℕ) (octets : List ℕ)
        (code : ℕ) (old new : Held) (id : Option LinkId)
        → AsksLinkWith (λ id message. Answers (request id message) now) octets code old new id
        → (code ≡ memory → ⊥) → ReturnsInOrder (is_some id) old code }
    ensures tick { (now expired code : ℕ) (old new : Held)
        → Through (λ o n. Ticks now expired o n code) ((code ≡ no_side) × (expired ≡ 0)) old new
        → ReturnsInOrder true old code }
{}

/// The counters of a link are the sum over all calls since the side began to count: they are those
/// of the calls together (`returned`), and calls add up one after another (`together`). A call that
/// reaches the side is counted with its octets and its effects, and any other call is not counted.
pub fn counters_are_sums()
    ensures frame { (octets : List ℕ) (now code : ℕ) (old new : HeldSide)
        (h : HasCalled (Takes octets now) octets old new code)
        → Adds (one_call octets h.given) old new }
    ensures request { (request : Request) (now code : ℕ) (old new : HeldSide)
        (h : HasCalled (Answers request now) [] old new code)
        → Adds (one_call [] h.given) old new }
    ensures give { (id : LinkId) (octets : List ℕ) (now code : ℕ) (old new : HeldSide)
        (h : HasCalled (Gives id octets now) [] old new code)
        → Adds (one_call [] h.given) old new }
    ensures tick { (now expired code : ℕ) (old new : HeldSide)
        (h : HasTicked now expired old new code) → Adds (one_call [] h.given) old new }
    ensures set_timers { (durations : Lengths) (code : ℕ) (old new : HeldSide)
        → HasSetTimers durations old new code → Adds [] old new }
    ensures other { (old new : HeldSide) → new.queued.side ≡ old.queued.side → new.counts ≡ old.counts
        → Adds [] old new }
    ensures together { (first second : List CountedCall) (old mid new : HeldSide)
        → Adds first old mid → Adds second mid new → Adds (first ++ second) old new }
    ensures returned { (id : LinkId) (delivered : FlatCounters) (begun code : ℕ)
        (calls : List CountedCall) (old first last after : HeldSide)
        → HasBegunCounting old first begun → Adds calls first last
        → ReturnsCounters id delivered last after code
        → (code ≡ done) × (delivered ≡ flat_counters
        (counters_of id (with_calls (side_of old.queued.side) calls nothing_counted))) }
{}

/// Settings have a configuration, with which a side can be created, exactly if `lapd_settings_check`
/// finds none that is out of its range.
pub fn settings_are_checked()
    ensures { (s : Settings) → is_some (config_of s) ≡ (wrong_setting s == 0) }
{}
