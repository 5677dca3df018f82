//! Laws over the definitions. The functions do nothing when they are called.

ghost use Rattle.std.specs.Prelude.{◌≡◌, ◌≤◌, ◌+◌, ◌∷◌, ◌++◌, ℕ, List, Some, [], codes, slice_get, take};
ghost use Rattle.lapd_cli_script.specs.Script.{lines_of};
ghost use Rattle.lapd_cli_grammar.specs.declared.script.Script.TheVariants.{Answer, LiveNet, LiveUser, Net};
ghost use Rattle.lapd_cli_console.specs.Recent.{ReadOctets, feeds, kept_line};
ghost use Rattle.lapd_cli_console.specs.Tidied.{tidied_line};
ghost use Rattle.lapd_cli_console.specs.Typed.{passed_on};

/// The documented examples of typed lines and their tidied form.
pub fn worked_typed_lines()
    ensures spaces { tidied_line Answer (codes "  frame 00 81 7f ") ≡ codes "frame 00817f" }
    ensures front { tidied_line Net (codes "give 0 64 0x08 01") ≡ codes "give 0 64 0801" }
    ensures colons { tidied_line LiveUser (codes "give 0 08:0X01") ≡ codes "give 0 0801" }
    ensures no_digit { tidied_line Answer (codes "frame 0x") ≡ codes "frame 0x" }
    ensures no_hex { tidied_line Net (codes "check 0x40 ") ≡ codes "check 0x40" }
    ensures no_form { tidied_line Net (codes " hex 0x 1") ≡ codes "hex 0x 1" }
    ensures expected { tidied_line LiveNet (codes "expect 0x : 5") ≡ codes "expect 0x : 5" }
{}

/// Examples of typed octets, and those that a session of `answer` passes on.
pub fn worked_sessions()
    ensures last { passed_on Answer (codes "  state") ≡ codes "state" ++ 10 ∷ [] }
    ensures bad { passed_on Answer
        (codes "t200" ++ 10 ∷ codes "fram 00" ++ 10 ∷ codes " busy on " ++ 10 ∷ [])
        ≡ codes "t200" ++ 10 ∷ codes "busy on" ++ 10 ∷ [] }
    ensures help { passed_on Answer (codes "help" ++ 10 ∷ codes "state" ++ 10 ∷ [])
        ≡ codes "state" ++ 10 ∷ [] }
    ensures quit { passed_on Answer
        (codes "state" ++ 10 ∷ codes "quit" ++ 10 ∷ codes "state" ++ 10 ∷ [])
        ≡ codes "state" ++ 10 ∷ [] }
{}

/// A line of a script is kept under its number, counted from 1 as the script's run counts it, unless
/// it ended before the octets read last.
pub fn lines_have_the_numbers_of_a_script()
    ensures { (r : ReadOctets) (place : ℕ) (line : List ℕ) → feeds r.before ≤ place
        → slice_get (lines_of (r.before ++ r.last)) place ≡ Some line
        → kept_line r (place + 1) ≡ Some (take 4096 line) }
{}
