//! Timers, terminals, assigners, and messages of TEI management (Q.921 5.3).

/// Timers with the standard durations show which of them run, and until when. A terminal and an
/// assigner return outputs, and show their state after them. Messages are read, or are sent and
/// read again.
pub(crate) const MANAGEMENT: &str = "\
# the least deadline is due first
timers new
timers start T203 0: T203 10000;
timers start T200 9000: T200 10000;T203 10000;
timers due 9999
timers due 10000: T200;
timers stop T200: T203 10000;
timers due 10000: T203;
timers stop T203
timers due 18446744073709551615

# a deadline is in 64 bits
timers new
timers start T200 18446744073709551615: T200 18446744073709551615;
timers start T202 5: T200 18446744073709551615;T202 2005;
timers due 2005: T202;

# ties go by the order of timers
timers new
timers start T203 0: T203 10000;
timers start T202 8000: T202 10000;T203 10000;
timers start T201 9000: T201 10000;T202 10000;T203 10000;
timers due 10000: T201;
timers start T200 9000: T200 10000;T201 10000;T202 10000;T203 10000;
timers due 10000: T200;

# durations in range, 0, and past an hour
timers durations 1 2 3 3600000: T200 1;T201 2;T202 3;T203 3600000;
timers durations 0 1 1 1: refused
timers durations 1 1 1 0: refused
timers durations 3600001 1 1 1: refused
timers durations 1 1 1 3600001: refused

# a terminal without a TEI asks for one, hears what is not for it, gets one and gives it up
terminal begins: state 1;asked 0;
terminal T202 1: state 1;asked 0;
terminal ask 5: Request 5 127;start T202;state 2;asked 1;reference 5;
terminal want 6: state 3;asked 1;reference 5;
terminal Denied 5 127: state 3;asked 1;reference 5;
terminal Assigned 4 64: state 3;asked 1;reference 5;
terminal Assigned 5 63: state 3;asked 1;reference 5;
terminal Assigned 5 64: stop T202;got 64;state 4;TEI 64;asked 0;reference 5;
terminal Assigned 5 64: state 4;TEI 64;asked 0;reference 5;
terminal Assigned 9 64: gone 64;state 1;asked 0;

# a terminal with TEI 64 answers a check, and obeys a removal
terminal begins 64: state 4;TEI 64;asked 0;
terminal CheckRequest 0 65: state 4;TEI 64;asked 0;
terminal CheckRequest 0 64: CheckResponse 7 64;state 4;TEI 64;asked 0;
terminal CheckRequest 0 127: CheckResponse 7 64;state 4;TEI 64;asked 0;
terminal Remove 0 65: state 4;TEI 64;asked 0;
terminal Remove 0 127: gone 64;state 1;asked 0;

# a terminal without a TEI asks three times, then anew, and leaves
terminal begins: state 1;asked 0;
terminal want 1: Request 1 127;start T202;state 3;asked 1;reference 1;
terminal T202 2: Request 2 127;start T202;state 3;asked 2;reference 2;
terminal T202 3: Request 3 127;start T202;state 3;asked 3;reference 3;
terminal T202 4: failed;state 1;asked 0;
terminal ask 5: Request 5 127;start T202;state 2;asked 1;reference 5;
terminal leave: stop T202;state 1;asked 0;

# no TEI is known
assigner begins: holds;
assigner Request 4660 127: Assigned 4660 64;given 64;holds 64;

# 64 and 3 are known
assigner begins 64 3 64: holds 3 64;
assigner Request 1 3: Assigned 1 65;given 65;holds 3 64 65;

# a check has two rounds
assigner begins 64: holds 64;
assigner T201: holds 64;
assigner check 64: CheckRequest 0 64;start T201;checks 64;holds 64;
assigner check 65: checks 64;holds 64;
assigner T201: CheckRequest 0 64;start T201;checks 64;holds 64;
assigner T201: free 64;holds;

# one response keeps the TEI
assigner begins 64: holds 64;
assigner Verify 9 64: CheckRequest 0 64;start T201;checks 64;holds 64;
assigner CheckResponse 9 65: checks 64;holds 64;
assigner CheckResponse 22136 64: checks 64;holds 64;
assigner T201: in use 64;holds 64;

# two responses remove the TEI; a third changes nothing
assigner begins 64: holds 64;
assigner check 64: CheckRequest 0 64;start T201;checks 64;holds 64;
assigner CheckResponse 22136 64: checks 64;holds 64;
assigner CheckResponse 22136 64: checks 64;holds 64;
assigner CheckResponse 22136 64: checks 64;holds 64;
assigner T201: Remove 0 64;Remove 0 64;doubled 64;holds;

# a TEI is removed, held or not; only a check of it ends
assigner begins 64 3 64: holds 3 64;
assigner remove 127: holds 3 64;
assigner remove 3: Remove 0 3;Remove 0 3;free 3;holds 64;
assigner check 64: CheckRequest 0 64;start T201;checks 64;holds 64;
assigner remove 65: Remove 0 65;Remove 0 65;free 65;checks 64;holds 64;
assigner CheckResponse 22136 64: checks 64;holds 64;
assigner remove 64: stop T201;Remove 0 64;Remove 0 64;free 64;holds;
assigner T201: holds;
assigner Request 4660 127: Assigned 4660 64;given 64;holds 64;

# nothing is given that is held, whatever comes, and all TEIs are held at once
drawn: most 63;

# they are read
message read 0f123401ff: Request 4660 127;
message read 0f12340281: Assigned 4660 64;
message read 0f000006ff: Remove 0 127;
message read 0fffff0701: Verify 65535 0;
message read: M1 NotManagement
message read 0e1234: M1 NotManagement
message read 0f: M2 BadLength
message read 0f123409: M2 BadLength
message read 0f123401ffff: M2 BadLength
message read 0f12340080: M3 BadKind
message read 0f12340881: M3 BadKind
message read 0f12340180: M4 BadAi
message read 0f123402ff: M4 BadAi
message read 0f123405ff: M4 BadAi
message read 0f123407ff: M4 BadAi

# they go out
message user Request 4660 127: fcff030f123401ff Request 4660 127;
message net Assigned 4660 64: feff030f12340281 Assigned 4660 64;
message net Denied 4660 127: feff030f123403ff Denied 4660 127;
message user CheckResponse 22136 64: fcff030f56780581 CheckResponse 22136 64;
";
