//! Laws of the whole state table, over its definitions. Calling them has no effect.

ghost use Rattle.std.specs.Prelude.{◌≡◌, ◌≤◌, ◌+◌, ◌-◌, ◌++◌, true, false, ℕ, if◌then◌else◌, length, Ok};
ghost use Rattle.lapd_frame.specs.declared.Control.{Control};
ghost use Rattle.lapd_mod128.specs.Counting.{Reading, Whole, Tagged};
ghost use Rattle.lapd_link_definition.specs.Begins.{begins, HasBegun};
ghost use Rattle.lapd_link_definition.specs.EndOfStep.{is_7_or_8};
ghost use Rattle.lapd_link_definition.specs.Counts.{ups, unit_ups, leaving, AreCountedFirst, ArePlaced, messages_of, accepts, receives_unit};
ghost use Rattle.lapd_link_definition.specs.End.{End, StepState, new_end};
ghost use Rattle.lapd_link_definition.specs.Input.{Input};
ghost use Rattle.lapd_link_definition.specs.Numbers.{AreNumbers, CarriesNumbers, AreNumbered};
ghost use Rattle.lapd_link_definition.specs.Parameters.{Parameters};
ghost use Rattle.lapd_link_definition.specs.Reports.{AreExpected, IsDue};
ghost use Rattle.lapd_link_definition.specs.RunningTimers.{HasTimersOfState, TimersFollow};
ghost use Rattle.lapd_link_definition.specs.Sound.{IsSound};
ghost use Rattle.lapd_link_definition.specs.SentFrames.{AreWellFormed, AreShort};
ghost use Rattle.lapd_link_definition.specs.Table.{step};
ghost use Rattle.lapd_link_definition.specs.Tagging.{tag_input, tag_end, tag_result, HasNearNumbers, HasNumbersWithin, IsNear};

/// After any list of events from a new end, all messages that are sent and neither acknowledged nor
/// dropped are outstanding. In states 7 and 8 there are as many as steps from V(A) to V(S), so
/// message number n of the present establishment is at place first + (n - V(A)). No sent message is
/// before the first or after the last. This holds on whole numbers and on tags, in windows of up to
/// 127 (Q.921 5.9.5).
pub fn all_sent_are_outstanding()
    ensures begins { (r : Reading) (p : Parameters) → IsSound r (new_end p) }
    ensures stays { (r : Reading) (input : Input) (e : End) (s : StepState) → e.parameters.k ≤ 127
        → IsSound r e → step r input e ≡ Ok s → IsSound r s.end }
{}

/// No step changes the parameters of an end.
pub fn parameters_stay()
    ensures { (r : Reading) (input : Input) (e : End) (s : StepState) → step r input e ≡ Ok s
        → s.end.parameters ≡ e.parameters }
{}

/// A step on tags is the tag of the step on whole numbers: it is refused for the same reason, or
/// has the same outputs and the same end, with each number replaced by its tag.
///
/// This holds if the numbers are near each other: in a window of up to 127, with all sent messages
/// outstanding, and in states 7 and 8 with an N(S) within 127 of V(R) and an N(R) within 127 of
/// V(A) and of V(S) (Q.921 3.5.2, 5.9.5).
pub fn tags_decide()
    ensures { (input : Input) (e : End) → IsNear input e
        → step Tagged (tag_input input) (tag_end e) ≡ tag_result (step Whole input e) }
{}

/// In states 7 and 8 numbers are near if an N(S) is at most one below V(R) and less than k above
/// it, and an N(R) lies from V(A) to V(S). Here k is the window of the sender, up to 127, and all
/// sent messages are outstanding (Q.921 3.5.2, 5.9.5).
pub fn numbers_within_are_near()
    ensures { (k : ℕ) (control : Control) (e : End) → k ≤ 127 → IsSound Whole e
        → is_7_or_8 e.state ≡ true
        → HasNumbersWithin k control e.window → HasNearNumbers control e.window }
{}

/// A step sends frames of the grammar: each frame without information, and each I command with any
/// message of up to 260 octets. If all accepted messages were that short before a step, they are
/// after it (Q.921 Table 5, 5.9.3). Tags ensure that numbers are below 128.
pub fn sent_frames_are_in_the_grammar()
    ensures sent { (r : Reading) (input : Input) (e : End) (s : StepState) → step r input e ≡ Ok s
        → AreWellFormed s.outs }
    ensures short { (r : Reading) (input : Input) (e : End) (s : StepState) → AreShort e.given
        → step r input e ≡ Ok s → AreShort s.end.given }
{}

/// Each message that is sent exists: its place is below the number of messages in the queue after
/// the step. This holds if all sent messages are outstanding and the state variables are numbers of
/// the reading, in windows of up to 127 (Q.921 5.6.1, 5.6.7).
pub fn sent_messages_are_there()
    ensures { (r : Reading) (input : Input) (e : End) (s : StepState) → e.parameters.k ≤ 127
        → IsSound r e → AreNumbers r e.window
        → step r input e ≡ Ok s → ArePlaced (length s.end.given - s.end.first) s.outs }
{}

/// If received frames carry tags, the state variables stay tags and each sent frame carries tags
/// (Q.921 3.5.2.1). On whole numbers this says nothing.
pub fn numbers_stay()
    ensures own { (r : Reading) (input : Input) (e : End) (s : StepState) → AreNumbers r e.window
        → CarriesNumbers r input → step r input e ≡ Ok s → AreNumbers r s.end.window }
    ensures sent { (r : Reading) (input : Input) (e : End) (s : StepState) → AreNumbers r e.window
        → CarriesNumbers r input → step r input e ≡ Ok s → AreNumbered r s.outs }
{}

/// A step begins at most one establishment: with a SABME command in states 4, 7 and 8, and with a
/// UA with F=1 in state 5 if no release is pending (Q.921 5.5.1.2). Then the end is in state 7 with
/// V(A) and V(R) at 0.
pub fn establishments_are_counted()
    ensures begun { (r : Reading) (input : Input) (e : End) (s : StepState)
        → begins e.state e.release_pending input ≡ true
        → step r input e ≡ Ok s → HasBegun e s.end }
    ensures none { (r : Reading) (input : Input) (e : End) (s : StepState)
        → begins e.state e.release_pending input ≡ false
        → step r input e ≡ Ok s → s.end.establishments ≡ e.establishments }
{}

/// A step keeps accepted messages, and reports each acknowledged, dropped or delivered one once.
///
/// Messages are reported correctly (Q.921 5.6.2, 5.6.3.2):
///
/// - Accepted messages stay in the list, and a newly accepted message is appended.
/// - The place of the first message in the queue moves by as many as the step reports acknowledged
///   or dropped, before any message is sent.
/// - The information of an I frame is delivered to layer 3 once if states 7 and 8 accept it, the
///   information of a UI once, and nothing else is delivered.
pub fn messages_are_counted()
    ensures given { (r : Reading) (input : Input) (e : End) (s : StepState) → step r input e ≡ Ok s
        → s.end.given ≡ e.given ++ messages_of input }
    ensures first { (r : Reading) (input : Input) (e : End) (s : StepState)
        → e.first ≤ length e.given → step r input e ≡ Ok s
        → s.end.first ≡ e.first + leaving s.outs }
    ensures order { (r : Reading) (input : Input) (e : End) (s : StepState) → step r input e ≡ Ok s
        → AreCountedFirst s.outs }
    ensures unit { (r : Reading) (input : Input) (e : End) (s : StepState) → step r input e ≡ Ok s
        → unit_ups s.outs ≡ (if receives_unit input then 1 else 0) }
    ensures up { (r : Reading) (input : Input) (e : End) (s : StepState) → step r input e ≡ Ok s
        → ups s.outs ≡ (if accepts input e then 1 else 0) }
{}

/// A step reports only the errors to which lost frames lead: F, the peer re-establishes the link,
/// and G, H and I, N200 is reached. This holds if each input is due: each processed N(R) is valid,
/// no response is unsolicited, and no frame has a fault (Q.921 5.8, Appendix II). It holds on whole
/// numbers and on tags; if numbers are near, inputs that are due on whole numbers are due on tags.
pub fn reports_are_expected()
    ensures expected { (r : Reading) (input : Input) (e : End) (s : StepState) → IsDue r input e
        → step r input e ≡ Ok s → AreExpected s.outs }
    ensures tags { (input : Input) (e : End) → IsNear input e → IsDue Whole input e
        → IsDue Tagged (tag_input input) (tag_end e) }
{}

/// The timers of an end follow its outputs exactly. After a step T200 and T203 run as its outputs
/// Start and Stop say, from how they ran before it; a timer that expires is stopped at once. No
/// output names T201 or T202.
///
/// This holds after any list of events from a new end, since in each state exactly the required
/// timers run: none in state 4, T200 alone in 5, 6 and 8, and in state 7 one of the two, T200 if
/// anything is outstanding. It holds on whole numbers, and on tags if numbers are tags (Q.921
/// 5.5.1.2, 5.5.3.2, 5.6.1, 5.6.7, 5.10.3).
pub fn timers_follow_outputs()
    ensures begins { (p : Parameters) → HasTimersOfState (new_end p) }
    ensures stays { (r : Reading) (input : Input) (e : End) (s : StepState)
        → AreNumbers r e.window → CarriesNumbers r input
        → HasTimersOfState e → step r input e ≡ Ok s → HasTimersOfState s.end }
    ensures follows { (r : Reading) (input : Input) (e : End) (s : StepState) → HasTimersOfState e
        → step r input e ≡ Ok s → TimersFollow input e s }
{}
