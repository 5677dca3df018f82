//! Query results of a side, and the next moment at which something is due.

/// Rows like those of dialogues. T200 is 1 s, T201 1 s, T202 2 s and T203 10 s (Q.921 5.9).
pub(crate) const READERS: &str = "\
# a network side shows its links, and a check
net 64 packets
0 take 00817f: 008173;0 64 established;
0 take 40817f: 408173;16 64 established;
500 take 408153: 408173;16 64 released;
shows 0 64: state 7;waiting 0;sent 0;T203 10000;
shows 16 64: state 4;waiting 0;sent 0;
shows 0 65: no link;
shows: network;discarded 0;next 10000;holds 64;
600 check 0 64: feff030f00000481;
shows: network;discarded 0;next 1600;T201 1600;checks 64;holds 64;
exact: yes

# a user side shows its terminal, and the link that it establishes
user
0 establish 0 127: fcff030f619901ff;
shows: user;discarded 0;next 2000;T202 2000;state 3;asked 1;reference 24985;
100 take feff030f61990281: 00817f;tei got 64;
shows: user;discarded 0;next 1100;state 4;TEI 64;asked 0;reference 24985;
shows 0 64: state 5;waiting 0;sent 0;T200 1100;
exact: yes

# a link of a network side enquires, and is released
net 64
shows: network;discarded 0;holds 64;
0 take 00817f: 008173;0 64 established;
shows 0 64: state 7;waiting 0;sent 0;T203 10000;
shows: network;discarded 0;next 10000;holds 64;
9999 tick: none;
10000 tick: 02810101;
10000 release 0 64: 028153;
exact: yes

# a link of a user side enquires, and is released
user 64
shows: user;discarded 0;state 4;TEI 64;asked 0;
0 take 02817f: 028173;0 64 established;
shows 0 64: state 7;waiting 0;sent 0;T203 10000;
shows: user;discarded 0;next 10000;state 4;TEI 64;asked 0;
9999 tick: none;
10000 tick: 00810101;
10000 release 0 64: 008153;
exact: yes

# nothing is due on a new side
net 64 packets
0 tick: none;
shows: network;discarded 0;holds 64;
exact: yes

# a link is established, sends a message, and is released
net 64
0 take 00817f: 008173;0 64 established;
shows: network;discarded 0;next 10000;holds 64;
2000 give 0 64 0801: 028100000801;
shows: network;discarded 0;next 3000;holds 64;
2500 take 02810102: 0 64 acknowledged 1;
shows: network;discarded 0;next 12500;holds 64;
3000 take 008153: 008173;0 64 released;
shows: network;discarded 0;holds 64;
exact: yes

# the least of two links
net 64 packets
0 take 00817f: 008173;0 64 established;
shows: network;discarded 0;next 10000;holds 64;
500 take 40817f: 408173;16 64 established;
shows: network;discarded 0;next 10000;holds 64;
600 take 008153: 008173;0 64 released;
shows: network;discarded 0;next 10500;holds 64;
exact: yes

# a message beside an enquiry to come
net 64 packets
0 take 00817f: 008173;0 64 established;
shows: network;discarded 0;next 10000;holds 64;
500 take 40817f: 408173;16 64 established;
shows: network;discarded 0;next 10000;holds 64;
9200 give 16 64 0801: 428100000801;
shows: network;discarded 0;next 10000;holds 64;
9300 give 0 64 0801: 028100000801;
shows: network;discarded 0;next 10200;holds 64;
exact: yes

# T201 alone
net 64
600 check 0 64: feff030f00000481;
shows: network;discarded 0;next 1600;T201 1600;checks 64;holds 64;
exact: yes

# T202 alone, until a TEI is got
user
0 ask: fcff030f619901ff;
shows: user;discarded 0;next 2000;T202 2000;state 2;asked 1;reference 24985;
100 take feff030f61990281: tei got 64;
shows: user;discarded 0;state 4;TEI 64;asked 0;reference 24985;
exact: yes

# T202, and T202 again
user
0 ask: fcff030f619901ff;
shows: user;discarded 0;next 2000;T202 2000;state 2;asked 1;reference 24985;
2000 tick: fcff030f769101ff;
shows: user;discarded 0;next 4000;T202 4000;state 2;asked 2;reference 30353;
exact: yes

# a user's link is established
user 64
0 establish 0 64: 00817f;
shows: user;discarded 0;next 1000;state 4;TEI 64;asked 0;
300 take 008173: 0 64 confirmed;
shows: user;discarded 0;next 10300;state 4;TEI 64;asked 0;
exact: yes
";
