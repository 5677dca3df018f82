//! The laws of a link. Calling them has no effect.

ghost use Rattle.std.specs.Prelude.{◌≡◌, ◌≤◌, ℕ, List, length, drop, Ok};
ghost use Rattle.lapd_frame.specs.Frame.{n201};
ghost use Rattle.lapd_mod128.specs.Counting.{Tagged};
ghost use Rattle.lapd_link_definition.specs.declared.out.Out.{Out};
ghost use Rattle.lapd_link_definition.specs.End.{End, StepState, new_end};
ghost use Rattle.lapd_link_definition.specs.Input.{Input, UnitData};
ghost use Rattle.lapd_link_definition.specs.Numbers.{CarriesNumbers};
ghost use Rattle.lapd_link_definition.specs.Parameters.{Parameters};
ghost use Rattle.lapd_link_definition.specs.Table.{step};
ghost use Rattle.lapd_link.specs.declared.link.Link.{Link};
ghost use Rattle.lapd_link.specs.Link.{Setup, Steps};
ghost use Rattle.lapd_link.specs.SentFrame.{HaveFrames, HasFramesOf, AllowsFrames};

/// After any list of events from a new end, each output that is sent has its frame: the message
/// that it carries exists, and its parts form a frame of the control table (Q.921 Table 5, 5.6.1,
/// 5.9.3).
///
/// Received frames carry tags, as all frames do that are read, and unit data that is not refused
/// has at most 260 octets. So any link that makes a step of the state table has the frames of its
/// outputs.
pub fn sent_outputs_have_frames()
    ensures begins { (p : Parameters) → p.k ≤ 127 → AllowsFrames (new_end p) }
    ensures stays { (input : Input) (e : End) (s : StepState) → AllowsFrames e
        → CarriesNumbers Tagged input
        → step Tagged input e ≡ Ok s → AllowsFrames s.end }
    ensures frames { (setup : Setup) (input : Input) (e : End) (s : StepState) → AllowsFrames e
        → step Tagged input e ≡ Ok s → HaveFrames setup (drop s.end.first s.end.given) s.outs }
    ensures units { (len : ℕ) (e : End) (s : StepState) → step Tagged (UnitData len) e ≡ Ok s
        → len ≤ n201 }
    ensures links { (old new : Link) (input : Input) (outs : List Out) → Steps old new input outs
        → HasFramesOf new outs }
{}
