//! Buses of terminals and an assigner: the outputs of each move, or why it is refused, and the
//! state of the bus.
//!
//! The state is, for each of the first two terminals, its state, TEI, number of requests and
//! reference; then the TEI that the assigner checks, and the TEIs that it holds.

/// Moves of two terminals, as in the scripts.
pub(crate) const BUSES: &str = "\
# two terminals ask
bus begin 2
bus ask 0 4660: Request 4660 127;start T202;
bus ask 1 22136: Request 22136 127;start T202;
bus hear-up 0: Assigned 4660 64;given 64;
bus hear 0 1 1
bus hear 0 0 2: stop T202;got 64;
bus hear 0 0 3: refused U2 HeardBefore;
bus hear-up 0: Assigned 22136 65;given 65;
bus hear 1 1 4: stop T202;got 65;
bus shows: state 4;TEI 64;asked 0;reference 4660;state 4;TEI 65;asked 0;reference 22136;holds 64 65;

# a terminal that nobody answers
bus begin 2
bus ask 0 1: Request 1 127;start T202;
bus T202 0 2: Request 2 127;start T202;
bus T202 0 3: Request 3 127;start T202;
bus T202 0 4: failed;
bus T202 0 5: refused U1 NothingThere;
bus drop-up 2
bus shows: state 1;asked 0;state 1;asked 0;holds;

# a check in vain
bus begin 2
bus check 64: CheckRequest 0 64;start T201;
bus T201: CheckRequest 0 64;start T201;
bus drop 0
bus T201: free 64;
bus T201: refused U1 NothingThere;
bus shows: state 1;asked 0;state 1;asked 0;holds;

# two terminals answer for one TEI
bus begin 2
bus ask 0 1: Request 1 127;start T202;
bus ask 1 1: Request 1 127;start T202;
bus hear-up 0: Assigned 1 64;given 64;
bus hear 0 0 2: stop T202;got 64;
bus hear 0 1 3: stop T202;got 64;
bus check 64: CheckRequest 0 64;start T201;
bus hear 1 0 4: CheckResponse 4 64;
bus hear 1 1 5: CheckResponse 5 64;
bus hear-up 1
bus hear-up 1
bus T201: Remove 0 64;Remove 0 64;doubled 64;
bus hear 2 0 6: gone 64;
bus leave 1: gone 64;
bus shows: state 1;asked 0;state 1;asked 0;holds;

# a TEI is removed; the second message of the removal is repeated in vain
bus begin 1
bus ask 0 1: Request 1 127;start T202;
bus hear-up 0: Assigned 1 64;given 64;
bus hear 0 0 2: stop T202;got 64;
bus remove 64: Remove 0 64;Remove 0 64;free 64;
bus hear 1 0 3: gone 64;
bus hear 2 0 4
bus shows: state 1;asked 0;holds;
";

/// Moves of a new bus in one run, and how many of them are refused.
pub(crate) const RUNS: &str = "\
# no moves
bus begin 2
bus run none: refused 0;
bus shows: state 1;asked 0;state 1;asked 0;holds;

# one asks
bus begin 2
bus run ask 0 1, hear-up 0, hear 0 1 2, hear 0 0 3: refused 0;
bus shows: state 4;TEI 64;asked 0;reference 1;state 1;asked 0;holds 64;

# refused moves are passed over
bus begin 2
bus run T201, ask 2 9, ask 0 1, hear-up 0, hear-up 0, hear 0 0 2, hear 0 0 3, drop 1, drop-up 0: refused 6;
bus shows: state 4;TEI 64;asked 0;reference 1;state 1;asked 0;holds 64;

# the second answer is heard first
bus begin 2
bus run ask 0 1, ask 1 2, hear-up 0, hear-up 0, hear 1 1 3, hear 0 0 4: refused 0;
bus shows: state 4;TEI 64;asked 0;reference 1;state 4;TEI 65;asked 0;reference 2;holds 64 65;

# a lost request is repeated
bus begin 2
bus run ask 0 1, drop-up 0, T202 0 2, hear-up 0, hear 0 0 3: refused 0;
bus shows: state 4;TEI 64;asked 0;reference 2;state 1;asked 0;holds 64;

# two requests with one reference: without its premises the law of the TEIs fails
bus begin 2
bus run ask 0 1, ask 1 1, hear-up 0, hear 0 0 2, hear 0 1 3: refused 0;
bus shows: state 4;TEI 64;asked 0;reference 1;state 4;TEI 64;asked 0;reference 1;holds 64;

# a TEI is freed while a terminal holds it
bus begin 2
bus run ask 0 1, hear-up 0, hear 0 0 2, check 64, T201, T201, ask 1 3, hear-up 0, hear 3 1 4: refused 0;
bus shows: state 4;TEI 64;asked 0;reference 1;state 4;TEI 64;asked 0;reference 3;holds 64;

# a TEI is removed while a terminal holds it
bus begin 2
bus run ask 0 1, hear-up 0, hear 0 0 2, remove 64, ask 1 3, hear-up 0, hear 3 1 4: refused 0;
bus shows: state 4;TEI 64;asked 0;reference 1;state 4;TEI 64;asked 0;reference 3;holds 64;

# a TEI is freed while its assignment is on its way
bus begin 2
bus run ask 0 1, hear-up 0, check 64, T201, T201, ask 1 2, hear-up 0, hear 0 0 3, hear 3 1 4: refused 0;
bus shows: state 4;TEI 64;asked 0;reference 1;state 4;TEI 64;asked 0;reference 2;holds 64;

# no terminals
bus begin 0
bus shows: holds;
bus ask 0 1: refused U1 NothingThere;
";
