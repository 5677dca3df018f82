//! A law over the definitions. The function does nothing.

ghost use Rattle.std.specs.Prelude.{◌≡◌, ℕ, List, is_some};
ghost use Rattle.lapd_frame.specs.declared.Side.{Side};
ghost use Rattle.lapd_cli_grammar.specs.Values.{parsed_line};
ghost use Rattle.lapd_cli_side_lines.specs.LineRequests.{request_of_line, script_of};

/// A line of `net` or `user` requests something exactly if it has a form of the command's.
pub fn each_form_has_a_request()
    ensures { (side : Side) (line : List ℕ)
        → is_some (request_of_line side line) ≡ is_some (parsed_line (script_of side) line) }
{}
