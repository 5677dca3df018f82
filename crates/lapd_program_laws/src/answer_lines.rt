//! The lines of `answer`: those of a valid form are those with a step.

ghost use Rattle.std.specs.Prelude.{◌≡◌, ℕ, List, is_none, is_some, IfOk};
ghost use Rattle.lapd_cli_answer.specs.Answer.{Session, answer_step};
ghost use Rattle.lapd_cli_grammar.specs.Values.{is_line_of};
ghost use Rattle.lapd_cli_grammar.specs.declared.script.Script.TheVariants as script;
ghost use Rattle.lapd_cli_script.specs.Script.{outcome_of};

use lapd_cli_console::{Script, reason};
use std::alloc::{AllocError, Global};

/// `answer` executes a line exactly if the line has a valid form, or is empty or a comment. The
/// state of its link does not matter.
pub fn answer_lines_have_valid_forms()
    ensures { (s : Session) (line : List ℕ)
        → is_line_of script.Answer line ≡ is_some (outcome_of answer_step s line) }
{}

/// Returns the reason why a line is not valid for `answer`, by [`reason`]. There is none exactly if
/// `answer` executes the line, in any state of its link.
///
/// # Errors
///
/// `AllocError` if an allocation fails.
pub fn reason_of_answer(alloc: Global, line: &[u8]) -> Result<Option<String>, AllocError>
    ensures { IfOk result (λ reason. (s : Session)
        → is_none reason ≡ is_some (outcome_of answer_step s line.now)) }
{
    reason(alloc, Script::Answer, line)
}
