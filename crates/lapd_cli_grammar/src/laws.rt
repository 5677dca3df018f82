//! Laws over the definitions. The functions do nothing.

ghost use Rattle.std.specs.Prelude.{◌≡◌, codes, false, true};
ghost use Rattle.lapd_cli_grammar.specs.declared.script.Script.TheVariants.{BusLinks, LiveNet, LiveUser, Net};
ghost use Rattle.lapd_cli_grammar.specs.Values.{is_line_of};

/// The documented examples of valid and invalid lines, with each clock.
pub fn worked_lines_by_form()
    ensures state { is_line_of LiveNet (codes "state") ≡ true }
    ensures state_of_link { is_line_of LiveNet (codes "state 0 64") ≡ true }
    ensures no_tei { is_line_of LiveNet (codes "state 0") ≡ false }
    ensures own_tei { is_line_of LiveUser (codes "state 0") ≡ true }
    ensures script { is_line_of Net (codes "state") ≡ false }
    ensures tick { is_line_of LiveNet (codes "tick 5") ≡ false }
    ensures impair { is_line_of LiveUser (codes "impair 20% 100") ≡ true }
    ensures too_much { is_line_of LiveUser (codes "impair 101%") ≡ false }
    ensures no_words { is_line_of LiveNet (codes "expect 100") ≡ false }
    ensures words { is_line_of LiveNet (codes "expect 0 64  established 100") ≡ true }
    ensures fixed { is_line_of BusLinks (codes "join 1 126") ≡ true }
    ensures group { is_line_of BusLinks (codes "join 1 127") ≡ false }
    ensures station { is_line_of BusLinks (codes "busy net 0 64 on") ≡ true }
    ensures nobody { is_line_of BusLinks (codes "busy user 0 64 on") ≡ false }
{}
