//! Laws over the definitions. The functions do nothing.

ghost use Rattle.std.specs.Prelude.{◌≡◌, ◌≢◌, ◌∷◌, ℕ, List, [], codes, false, true, is_some, nat_eq, None, Some};
ghost use Rattle.std.specs.List.{AllByRecursion, starts_with};
ghost use Rattle.lapd_frame.specs.declared.Side.{Side};
ghost use Rattle.lapd_frame.specs.declared.Side.TheVariants.{Network, User};
ghost use Rattle.lapd_frame.specs.declared.Sapi.TheVariants.{Call, Packet};
ghost use Rattle.lapd_cli_grammar.specs.Values.{parsed_line};
ghost use Rattle.lapd_cli_side_lines.specs.LineRequests.{Busy, Release, Remove, named};
ghost use Rattle.lapd_cli_live_text.specs.AwaitedLine.{awaited_line, begins_as};
ghost use Rattle.lapd_cli_live_text.specs.AwaitedText.{shown_chars};
ghost use Rattle.lapd_cli_live_text.specs.LiveRequests.{Ask, Expect, Impair, Read, Run, State, live_request_of_line, live_script_of};
ghost use Rattle.lapd_cli_live_text.specs.Histories.{CountsEvents, StatsEvent, stats_after};
ghost use Rattle.lapd_cli_live_text.specs.Stats.{nothing_counted, received_words, reports_words, sent_words};
ghost use Rattle.lapd_cli_live_text.specs.LineObjects.{words_object};
ghost use Rattle.lapd_cli_live_text.specs.LinkText.{link_text, management_text};
ghost use Rattle.lapd_cli_live_text.specs.Worked.{busy_end, enquiry_timers, request_timers, worked_link, worked_stats};
ghost use Rattle.lapd_link_definition.specs.Parameters.{Parameters};
ghost use Rattle.lapd_timers.specs.Due.{all_stopped};
ghost use Rattle.lapd_timers.specs.Durations.{standard_lengths};

/// The statistics of each history of a side are counts over it: of the frames that were sent and
/// received, by their kinds, of their octets, and of the reports, by their letters.
pub fn each_event_is_counted()
    ensures { (own : Side) (events : List StatsEvent)
        → CountsEvents own events (stats_after own events nothing_counted) }
{}

/// The statistics of a history in which a message is rejected and sent again, and a UA arrives
/// twice.
pub fn rejected_message_is_sent_again()
    ensures sent { sent_words worked_stats
        ≡ codes "sent frames=4 octets=21 I=3 SABME=1 again=1" }
    ensures received { received_words worked_stats 1
        ≡ codes "received frames=4 octets=12 REJ=1 UA=2 other=1 discarded=1" }
    ensures reports { reports_words worked_stats ≡ codes "reports C=1 J=1" }
{}

/// Lines of a link and of the timers of TEI management, and objects of lines, as documented.
pub fn worked_lines()
    ensures link { (parameters : Parameters)
        → link_text worked_link (busy_end parameters) (Some enquiry_timers) 2
        ≡ codes "0 64 state 7 V(S)=1 V(A)=1 V(R)=0 RC=0 queue=0 own-busy peer-busy T203=9998" }
    ensures management { management_text request_timers 500 ≡ codes "tei T202=1500" }
    ensures past { management_text request_timers 2500 ≡ codes "tei T202=0" }
    ensures none { management_text (all_stopped standard_lengths) 500 ≡ [] }
    ensures object { words_object (codes "0 64 state 7 V(S)=1 RC=0 own-busy T203=9998") ≡ codes
        "{\"RC\":0,\"T203\":9998,\"V(S)\":1,\"line\":\"state 7 own-busy\",\"sapi\":0,\"tei\":64}" }
    ensures later { words_object (codes "x=1 x=2 y= 65 a=b")
        ≡ codes "{\"line\":\"y= 65 a=b\",\"x\":2}" }
{}

/// Requests of lines with the real clock, as documented. The user side has the TEI 70.
pub fn worked_requests()
    ensures read { live_request_of_line Network 127 (codes "read") ≡ Some (Read None) }
    ensures wait { live_request_of_line Network 127 (codes "wait 3600000")
        ≡ Some (Run (Some 3600000)) }
    ensures too_long { live_request_of_line Network 127 (codes "wait 3600001") ≡ None }
    ensures state { live_request_of_line User 70 (codes "state 0")
        ≡ Some (State (Some (named Call 70))) }
    ensures no_tei { live_request_of_line Network 127 (codes "state 0") ≡ None }
    ensures release { live_request_of_line User 70 (codes "release 0")
        ≡ Some (Ask (Release (named Call 70))) }
    ensures busy { live_request_of_line Network 127 (codes "busy 16 5 off")
        ≡ Some (Ask (Busy (named Packet 5) false)) }
    ensures remove { live_request_of_line Network 127 (codes "remove 64")
        ≡ Some (Ask (Remove 64)) }
    ensures impair { live_request_of_line Network 127 (codes "impair 20% 100")
        ≡ Some (Impair 20 100) }
    ensures no_delay { live_request_of_line User 70 (codes "impair 0") ≡ Some (Impair 0 0) }
    ensures too_much { live_request_of_line User 70 (codes "impair 101%") ≡ None }
    ensures tick { live_request_of_line Network 127 (codes "tick 5") ≡ None }
{}

/// A line of a side with the real clock requests something exactly if it has a form of the
/// command's.
pub fn each_form_has_a_live_request()
    ensures { (side : Side) (own : ℕ) (line : List ℕ)
        → is_some (live_request_of_line side own line)
        ≡ is_some (parsed_line (live_script_of side) line) }
{}

/// Words without `*` are the first octets of a line that begins with them.
pub fn plain_words_are_first_octets()
    ensures { (words line : List ℕ) → AllByRecursion (λ octet. octet ≢ 42) words
        → begins_as words line ≡ starts_with nat_eq line words }
{}

/// Lines that begin with expected words, as documented: a `*` stands for the rest of a word, and
/// at the user side the TEI may be left out.
pub fn worked_awaited_lines()
    ensures any_tei { begins_as (codes "0 * confirmed") (codes "0 64 confirmed\n") ≡ true }
    ensures rest { begins_as (codes "0 6* conf") (codes "0 64 confirmed\n") ≡ true }
    ensures one_word { begins_as (codes "0 * confirmed") (codes "0 64 not confirmed\n") ≡ false }
    ensures other_sapi { begins_as (codes "0 * confirmed") (codes "16 64 confirmed\n") ≡ false }
    ensures left_out { awaited_line User (codes "0 confirmed") ≡ codes "0 * confirmed" }
    ensures named { awaited_line User (codes "16 70 data 08") ≡ codes "16 70 data 08" }
    ensures star { awaited_line User (codes "0 * data") ≡ codes "0 * data" }
    ensures alone { awaited_line User (codes "0") ≡ codes "0" }
    ensures no_sapi { awaited_line User (codes "tei got") ≡ codes "tei got" }
    ensures network { awaited_line Network (codes "0 confirmed") ≡ codes "0 confirmed" }
{}

/// Expected words, and how they are shown, as documented. 27 is ESC, 195 and 169 are the octets of
/// é, and 194 and 155 those of the control character U+009B.
pub fn worked_expectations()
    ensures expect { live_request_of_line Network 127 (codes "expect 0 64  established 100")
        ≡ Some (Expect (codes "0 64  established") 100) }
    ensures no_words { live_request_of_line Network 127 (codes "expect 100") ≡ None }
    ensures escaped { shown_chars (27 ∷ codes "[A") ≡ codes "\\x1b[A" }
    ensures unchanged { shown_chars (195 ∷ 169 ∷ codes " ok") ≡ 195 ∷ 169 ∷ codes " ok" }
    ensures past_ascii { shown_chars (194 ∷ 155 ∷ codes "A") ≡ codes "\\x9bA" }
{}
