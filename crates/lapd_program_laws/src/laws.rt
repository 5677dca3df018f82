//! Laws of the programs. The functions do nothing when they are called.

ghost use Rattle.std.specs.Prelude.{◌≡◌, ◌<◌, ◌≤◌, [], ◌∷◌, List, Option, Some, ℕ};
ghost use Rattle.rand_pcg.specs.Lcg.{Lcg};
ghost use Rattle.lapd_frame.specs.declared.Side.{Side};
ghost use Rattle.lapd_frame.specs.declared.Side.TheVariants as side;
ghost use Rattle.lapd_table.specs.declared.link_id.LinkId.{LinkId};
ghost use Rattle.lapd_sides_links.specs.declared.config.Config.{Config};
ghost use Rattle.lapd_sides_links.specs.Links.{parameters_for};
ghost use Rattle.lapd_sides.specs.Network.{new_network};
ghost use Rattle.lapd_sides.specs.User.{new_user};
ghost use Rattle.lapd_side_events.specs.Interface.{Configs, Interface, by_network, by_user, network_behaviour, new_interface, run, user_behaviour, with_network, with_user};
ghost use Rattle.lapd_two_side_laws.specs.Premises.{SatisfyPremisesAsMade};
ghost use Rattle.lapd_two_side_laws.specs.Schedule.{configs};
ghost use Rattle.lapd_side_events.specs.SideView.{SideEvent};
ghost use Rattle.lapd_sides.specs.declared.either_side.EitherSide.TheVariants as either;
ghost use Rattle.lapd_cli_side_commands.specs.Served.{AtWork, Devices, LineDoes, LinesDo, NetHasServed, UserHasServed};
ghost use Rattle.lapd_cli_side_lines.specs.LineRequests.{LineRequest};
ghost use Rattle.lapd_program_laws.specs.Joined.{AreAt, AreRun, AreRunSafely, ProgramLine, Programs, ProgramsDo, requests_of_side};
ghost use Rattle.lapd_program_laws.specs.JoinedRuns.{AreJoined, AreMovesInPrint, AreServedInOrder, IsSafeInPrint, lines_in, sides_at_first};
ghost use Rattle.lapd_program_laws.specs.Printed.{IsPrinted};
ghost use Rattle.lapd_program_laws.specs.SideEvents.{AreFor, AreForAll, IsByEvents, ShowsNetwork, ShowsUser, does_all, moves_of};
ghost use Rattle.lapd_program_laws.specs.UnorderedRuns.{AreOverUnorderedOctets, AreWrong, answering_script, early_script};
ghost use Rattle.lapd_program_laws.specs.WorkedRuns.{AreOverWorkedOctets, MeetPremises, network_script, user_script};

/// A line of `net` or `user`, and so a whole script, performs exactly the side events that it
/// requests. The side receives the frames read from the source, in order, and all frames that it
/// sends are written to the sink. If two programs are joined, the events of one are moves of the
/// interface that both represent (`network_moves`, `user_moves`).
///
/// `network_line`, `user_line`: one line. `network_lines`, `user_lines`: all lines of a script, as
/// `net` and `user` execute them.
pub fn lines_are_events()
    ensures network_line { (config : Config) (line_request : LineRequest) (a b : AtWork)
        → LineDoes line_request a b
        → IsByEvents (network_behaviour config) (ShowsNetwork config)
        (AreFor line_request a.now) a b }
    ensures network_lines { (config : Config) (line_requests : List LineRequest) (a b : AtWork)
        → LinesDo line_requests a b → IsByEvents (network_behaviour config) (ShowsNetwork config)
        (AreForAll line_requests a.now) a b }
    ensures user_line { (config : Config) (line_request : LineRequest) (a b : AtWork)
        → LineDoes line_request a b
        → IsByEvents (user_behaviour config) (ShowsUser config) (AreFor line_request a.now) a b }
    ensures user_lines { (config : Config) (line_requests : List LineRequest) (a b : AtWork)
        → LinesDo line_requests a b → IsByEvents (user_behaviour config) (ShowsUser config)
        (AreForAll line_requests a.now) a b }
    ensures network_moves { (c : Configs) (events : List SideEvent) (i : Interface)
        → run c (moves_of side.Network events) i
        ≡ with_network (does_all (network_behaviour c.network) events (by_network i)) i }
    ensures user_moves { (c : Configs) (events : List SideEvent) (i : Interface)
        → run c (moves_of side.User events) i
        ≡ with_user (does_all (user_behaviour c.user) events (by_user i)) i }
{}

/// A line of `net` or `user` prints exactly what its side events deliver, and submits its message
/// unless it prints a refusal.
///
/// The printed text is that of a list of lines: frames, primitives, a refusal, or the end of the
/// input. The primitives among them are those that the events of the line deliver, in order. The
/// side accepts a message exactly if the line is `give` and prints no refusal.
pub fn lines_are_printed()
    ensures network { (config : Config) (line_request : LineRequest) (a b : AtWork)
        → LineDoes line_request a b
        → IsPrinted (network_behaviour config) (ShowsNetwork config)
        (AreFor line_request a.now) line_request a b }
    ensures user { (config : Config) (line_request : LineRequest) (a b : AtWork)
        → LineDoes line_request a b
        → IsPrinted (user_behaviour config) (ShowsUser config)
        (AreFor line_request a.now) line_request a b }
{}

/// If `net` and `user` are joined by a lossless line, whatever their lines do, in any order, is a
/// sequence of moves of an interface. Lossless means: each source delivers the octets that the
/// other program writes, and each program reads only what was written. So each link of the
/// interface is safe if these moves keep the premises of that link.
///
/// `run_together`: from any interface that both represent. `safe`: from two new sides, the user
/// with or without a fixed TEI, the network with any known TEIs. `network_lines`, `user_lines`: for
/// each program, this is what `net` and `user` promise.
pub fn joined_programs_are_safe()
    ensures run_together { (c : Configs) (lines : List ProgramLine) (a b : Programs) (i : Interface)
        → AreAt c a i → ProgramsDo lines a b → AreRun c lines a b i }
    ensures safe { (c : Configs) (fixed : Option ℕ) (known : List ℕ) (random : Lcg)
        (lines : List ProgramLine) (a b : Programs)
        → AreAt c a (new_interface (new_user c.user fixed random) (new_network c.network known))
        → ProgramsDo lines a b → AreRunSafely c lines a b
        (new_interface (new_user c.user fixed random) (new_network c.network known)) }
    ensures network_lines { (lines : List ProgramLine) (a b : Programs) → ProgramsDo lines a b
        → LinesDo (requests_of_side side.Network lines) a.network.at b.network.at }
    ensures user_lines { (lines : List ProgramLine) (a b : Programs) → ProgramsDo lines a b
        → LinesDo (requests_of_side side.User lines) a.user.at b.user.at }
{}

/// A run of `net` and a run of `user` over a lossless line print what their sides deliver and
/// accept.
///
/// Both runs are those of the contracts of `net` and `user` (`NetHasServed`, `UserHasServed`). The
/// premises: each source has the octets that the other's sink gets, and the lines of both have an
/// order in which each reads only what lines before it wrote. Then both runs have transcripts: the
/// lines of the script, each with what it printed, and together exactly the text printed. Both runs
/// are moves of an interface. Its primitives are those in the transcripts, and its messages are
/// those of the `give` lines that were not refused.
pub fn joined_runs_are_printed()
    ensures { (c : Configs) (fixed : Option ℕ) (known : List ℕ)
        (network_lines user_lines : List LineRequest)
        (network_before network_after user_before user_after : Devices)
        (network : NetHasServed c.network known network_lines network_before network_after)
        (user : UserHasServed c.user fixed user_lines user_before user_after) (order : List Side)
        → AreJoined network_before network_after user_before user_after
        → AreServedInOrder order (either.Network network.began) (either.User user.began)
        network_lines user_lines network_before network_after user_before user_after
        network.served user.served
        → AreMovesInPrint c fixed known (lines_in order network_lines user_lines) network_lines
        user_lines network_before network_after user_before user_after }
{}

/// The lines that such runs print about a link are right, in both directions, if the moves keep the
/// link's premises.
///
/// The messages in the `data` lines that one program prints are, in order and once each, among
/// those of the other program's `give` lines that were not refused. Within one establishment none
/// is skipped; the establishments are those of the interface, since they are not printed. Each
/// message that the counts of its `acknowledged` lines report was received. No error but F, G, H
/// and I is printed. And the link is safe in the interface, as `each_link_is_safe` of
/// `lapd_two_side_laws` says.
pub fn joined_runs_are_right()
    ensures { (c : Configs) (fixed : Option ℕ) (known : List ℕ) (lines : List ProgramLine)
        (network_lines user_lines : List LineRequest)
        (network_before network_after user_before user_after : Devices)
        (runs : AreMovesInPrint c fixed known lines network_lines user_lines network_before
        network_after user_before user_after)
        (id : LinkId) → id.tei < 127
        → (parameters_for c.user id.sapi).k ≤ 127 → (parameters_for c.network id.sapi).k ≤ 127
        → SatisfyPremisesAsMade c id runs.moves (sides_at_first c fixed known)
        → IsSafeInPrint c id fixed runs.network runs.user runs.moves
        (sides_at_first c fixed known) }
{}

/// The premises of joined runs can be met.
///
/// Let `net` and `user` have executed these scripts over these octets: the user side establishes a
/// link and submits a message, which the network side receives and acknowledges. By their contracts
/// alone, each then wrote what the other's source has, each read only what was written, and all
/// moves that the lines request keep the premises of the link.
pub fn worked_runs_meet_premises()
    ensures { (network_before network_after user_before user_after : Devices)
        (network : NetHasServed configs.network (64 ∷ []) network_script network_before
        network_after)
        (user : UserHasServed configs.user (Some 64) user_script user_before user_after)
        → AreOverWorkedOctets network_before user_before
        → MeetPremises network_before network_after user_before user_after network user }
{}

/// The order of reading and writing is needed.
///
/// In these runs `net` reads the answer to its SABME, and then sends the SABME. Each source has the
/// octets that the other's sink gets. But `net` prints `report C`, since the UA is unsolicited, and
/// `joined_runs_are_right` excludes such a report.
pub fn order_is_needed()
    ensures { (network_before network_after user_before user_after : Devices)
        (network : NetHasServed configs.network (64 ∷ []) early_script network_before
        network_after)
        (user : UserHasServed configs.user (Some 64) answering_script user_before user_after)
        → AreOverUnorderedOctets network_before user_before
        → AreWrong network_before network_after user_before user_after network user }
{}
