//! Dialogues of sides with the line, layer 3 and their clocks.
//!
//! The first line creates a side: `net` or `user`, with `64` if it knows or has TEI 64, and with
//! `packets` if it serves SAPI 16. Each following line is a call: its time, its name, the SAPI and
//! TEI if it names a link, and octets. After `: ` follow a refusal, frames and primitives, each
//! followed by `;`, or `none` if nothing is due. `shows` prints the query results of the side, and
//! `shows 0 64` those of a link. `exact` prints whether nothing is due before the next moment, and
//! something is due at it. `requests` prints the TEI that each of 63 requests is assigned, and the
//! answer to one more.

pub(crate) const NETWORK: &str = "\
# a link goes, and the timer of the other runs on
net 64 packets
0 take 00817f: 008173;0 64 established;
0 take 40817f: 408173;16 64 established;
500 take 408153: 408173;16 64 released;
9999 tick: none;
10000 tick: 02810101;
10000 tick: none;
shows: network;discarded 0;next 11000;holds 64;
exact: yes

# a TEI is given, and its links are there
net packets
0 take fcff030f123401ff: feff030f12340281;tei given 64;
0 take 008153: 00811f;
0 take 408153: 40811f;
0 take 008353
0 take fcff030f567801ff: feff030f56780283;tei given 65;
0 take 008353: 00831f;
shows: network;discarded 1;holds 64 65;
exact: yes

# what is for nobody is discarded
net 64
0 take
0 take 00
0 take 018173
0 take 04817f
0 take 00837f
0 take 40817f
0 take 00ff030a
0 take fcff030f123401
0 take fc81030f123401ff
0 take fcff030f56780581
0 take 00817f00: 0 64 report M;
0 take 00817f: 008173;0 64 established;
shows: network;discarded 8;next 10000;holds 64;
exact: yes

# a TEI is free again, and its links go; T200 of SAPI 0, then of SAPI 16, expires before T201
net 64 packets
0 establish 0 64: 02817f;
0 take 40817f: 408173;16 64 established;
0 give 16 64 01: 4281000001;
0 check 0 127
0 check 0 64: feff030f00000481;
0 check 0 65
1000 tick: 02817f;
1000 tick: 42810101;
1000 tick: feff030f00000481;
1000 tick: none;
1500 take 028173: 0 64 confirmed;
1500 take 42810103: 16 64 acknowledged 1;
1600 release 16 64: 428153;
2000 tick: tei free 64;0 64 released;16 64 release-confirmed;
100000 tick: none;
100000 take 00817f
100000 establish 0 64: refused B1 NoLink;
shows: network;discarded 1;holds;
exact: yes

# a TEI is removed, held or not, and its links go; a check of another TEI goes on
net 64 packets
0 establish 0 64: 02817f;
0 take 40817f: 408173;16 64 established;
0 give 16 64 01: 4281000001;
0 remove 0 127
0 check 0 64: feff030f00000481;
100 remove 16 65: feff030f00000683;feff030f00000683;tei free 65;
shows: network;discarded 0;next 1000;T201 1000;checks 64;holds 64;
200 remove 0 64: feff030f00000681;feff030f00000681;tei free 64;0 64 released;16 64 released;
300 check 0 64: feff030f00000481;
400 remove 0 64: feff030f00000681;feff030f00000681;tei free 64;
500 take fcff030f123401ff: feff030f12340281;tei given 64;
100000 tick: none;
shows: network;discarded 0;holds 64;
exact: yes

# a fixed TEI is removed, and nothing makes it known again
net all
0 take 00077f: 000773;0 3 established;
0 remove 0 3: feff030f00000607;feff030f00000607;tei free 3;0 3 released;
0 take 00077f
0 take fcff030f123401ff: feff030f123403ff;
exact: yes

# a TEI is in use, then doubled
net 64
0 check 0 64: feff030f00000481;
1 take fcff030f56780581
1000 tick: tei in-use 64;
2000 take fcff030f00000781: feff030f00000481;
2001 take fcff030f56780581
2002 take fcff030f9abc0581
2999 tick: none;
3000 tick: feff030f00000681;feff030f00000681;tei doubled 64;
3000 take 008153
shows: network;discarded 1;holds;
exact: yes

# unit data to all terminals
net
0 unit 0 127 0a: 02ff030a;
0 unit 0 127: 02ff03;
0 unit 16 127 0a: refused B1 NoLink 0a;
0 unit 63 127 0a: refused B1 NoLink 0a;
0 unit 0 64 0a: refused B1 NoLink 0a;
0 ask
shows: network;discarded 0;holds;
exact: yes

# a receiver is busy
net 64
0 busy 0 65: refused B1 NoLink;
0 take 00817f: 008173;0 64 established;
0 busy 0 64: 00810500;
0 busy 0 64
0 take 0081000108: 00810501;
0 ready 0 64: 00810100;
0 take 0081000108: 00810103;0 64 data 08;
shows: network;discarded 0;next 10000;holds 64;
exact: yes

# a message is submitted by its octets: at once, in a kept room, without a link
net 64
0 take 00817f: 008173;0 64 established;
1 submit 0 64 010203: 02810000010203;
2 submit 0 65 01: refused B1 NoLink 01;
3 take 02810102: 0 64 acknowledged 1;
4 submit 0 64 04: 0281020004;
shows: network;discarded 0;next 1004;holds 64;
exact: yes

# header prediction: a poll, an RR response, an I frame, and an RR command without P, which is none
net 64
0 take 00817f: 008173;0 64 established;
1 take 00810101: 00810101;
2 take 02810100
3 take 00810100
5 take 00810000aa: 00810102;0 64 data aa;
6 give 0 64 07: 0281000207;
7 take 02810102: 0 64 acknowledged 1;
shows: network;discarded 0;next 10007;holds 64;
exact: yes

# an RR with information is no predicted frame: it has a wrong length (Q.921 5.8.5)
net 64
0 take 00817f: 008173;0 64 established;
4 take 0081010155: 02817f;0 64 report N;

# the predicted frames of state 7, and some that are not: a final, a frame out of sequence, a busy peer
net 64 packets
0 take 00817f: 008173;0 64 established;
0 take 40817f: 408173;16 64 established;
1 take 00810101: 00810101;
3 take 02810101: 0 64 report A;
4 take 00810200aa: 00810900;
5 take 0081000008: 00810102;0 64 data 08;
6 take 02810500
7 take 0081020009: 00810104;0 64 data 09;
8 take 40810101: 40810101;
1006 tick: 02810105;
1007 take 008153: 008173;0 64 released;
shows: network;discarded 0;next 10008;holds 64;
exact: yes

# frames that are discarded are counted
net 64
0 take 00
0 take 018173
0 take 04817f
0 take 00837f
0 take 00817f: 008173;0 64 established;
shows: network;discarded 4;next 10000;holds 64;
exact: yes

# SAPI 63 has no links
net 64
0 take fc81030f123401ff
0 take fcffaf
0 take fcff7f
0 take feff030f123401ff
shows: network;discarded 4;holds 64;
exact: yes

# without a held TEI all are checked by one message, if none is under check, and removed by two
net packets
0 check-all: feff030f000004ff;
1 take fcff030f56780581
1 take fcff030f9abc0583
2 remove-all: feff030f000006ff;feff030f000006ff;
100 take fcff030f123401ff: feff030f12340281;tei given 64;
100 check-all: feff030f000004ff;
100 remove-all
100 check 0 65: feff030f00000483;
200 check-all
300 remove-all
300 remove 0 64: feff030f00000681;feff030f00000681;tei free 64;
300 remove-all: feff030f000006ff;feff030f000006ff;
1100 tick: feff030f00000483;
2100 tick: tei free 65;
shows: network;discarded 0;holds;
exact: yes

# both requests, and two terminals that obey them: one with a fixed TEI, one with an assigned TEI
net
0 check-all: feff030f000004ff;
0 remove-all: feff030f000006ff;feff030f000006ff;
user 64
0 check-all
0 remove-all
0 take feff030f000004ff: fcff030f61990581;
0 take feff030f000006ff: tei gone 64;
0 take feff030f000006ff
shows: user;discarded 0;state 1;asked 0;
user
0 ask: fcff030f619901ff;
0 take feff030f61990283: tei got 65;
0 take feff030f000004ff: fcff030f76910583;
0 take feff030f000006ff: tei gone 65;
0 take feff030f000006ff
shows: user;discarded 0;state 1;asked 0;
exact: yes

# what TEI management ignores is not counted
net 64
0 take fcff03
0 take fcff030f123401
0 take fcff030f123408ff
0 take fcff030f123405ff
0 take fcff130f56780581
shows: network;discarded 0;holds 64;
exact: yes
";

pub(crate) const USER: &str = "\
# no TEI is assigned
user
0 establish 0 127: fcff030f619901ff;
1999 tick: none;
2000 tick: fcff030f769101ff;
2000 tick: none;
4000 tick: fcff030f15ec01ff;
6000 tick: tei failed;0 127 released;
100000 tick: none;
100000 release 0 127: refused B1 NoLink;
100000 establish 0 127: fcff030f983001ff;
shows: user;discarded 0;next 102000;T202 102000;state 3;asked 1;reference 38960;
exact: yes

# a TEI is got, and the establishment done
user
0 establish 0 127: fcff030f619901ff;
100 take feff030f769102c1
100 take feff030f619903ff
100 take feff030f61990281: 00817f;tei got 64;
1099 tick: none;
1100 tick: 00817f;
1200 take 008173: 0 64 confirmed;
1200 give 0 0 0801: 008100000801;
shows: user;discarded 0;next 2200;state 4;TEI 64;asked 0;reference 24985;
exact: yes

# without a TEI there is no link
user
0 give 0 127 0801: refused L1 NotEstablished 0801;
0 give 16 64 0801: refused L1 NotEstablished 0801;
0 give 63 64 0801: refused L1 NotEstablished 0801;
0 unit 0 127 0801: refused B1 NoLink 0801;
0 release 0 127: refused B1 NoLink;
0 busy 0 127: refused B1 NoLink;
0 establish 16 127: refused B1 NoLink;
0 establish 63 127: refused B1 NoLink;
0 check 0 64
0 take 02817f
shows: user;discarded 1;state 1;asked 0;
exact: yes

# two establishments are kept, of each SAPI one
user packets
0 ask: fcff030f619901ff;
0 establish 16 127
0 establish 0 127
0 establish 16 127
0 take feff030f61990281: 00817f;40817f;tei got 64;
0 establish 0 127
shows: user;discarded 0;next 1000;state 4;TEI 64;asked 0;reference 24985;
exact: yes

# two establishments are kept in vain
user packets
0 establish 16 127: fcff030f619901ff;
0 establish 0 127
2000 tick: fcff030f769101ff;
4000 tick: fcff030f15ec01ff;
6000 tick: tei failed;0 127 released;16 127 released;
shows: user;discarded 0;state 1;asked 0;
exact: yes

# an establishment is forgotten
user packets
0 establish 0 127: fcff030f619901ff;
0 release 16 127: refused B1 NoLink;
0 release 0 127: 0 127 release-confirmed;
0 release 0 127: refused B1 NoLink;
2000 tick: fcff030f769101ff;
2000 take feff030f76910281: tei got 64;
2000 establish 0 127: 00817f;
shows: user;discarded 0;next 3000;state 4;TEI 64;asked 0;reference 30353;
exact: yes

# unit data to all terminals
user
0 take 02ff030a: 0 127 unit 0a;
0 take 02ff130a: 0 127 unit 0a;
0 take 42ff030a
0 take 02ff7f
0 ask: fcff030f619901ff;
0 take feff030f61990281: tei got 64;
0 take 02ff03: 0 127 unit;
0 take 0281030b: 0 64 unit 0b;
0 unit 0 127 0c: 0081030c;
0 unit 16 64 0c: refused B1 NoLink 0c;
shows: user;discarded 2;state 4;TEI 64;asked 0;reference 24985;
exact: yes

# a TEI is fixed, checked and removed
user 64 packets
0 take 02817f: 028173;0 64 established;
0 establish 16 5: 40817f;
0 ask
0 take feff030f00000483
0 take feff030f00000481: fcff030f61990581;
0 take feff030f000004ff: fcff030f76910581;
0 take feff030f00000681: tei gone 64;0 64 released;16 64 released;
100000 tick: none;
100000 take 02817f
100000 ask: fcff030f15ec01ff;
shows: user;discarded 1;next 102000;T202 102000;state 2;asked 1;reference 5612;
exact: yes

# a terminal gives up its TEI, and no other
user 64 packets
0 take 02817f: 028173;0 64 established;
0 establish 16 5: 40817f;
0 remove 0 65: refused B1 NoLink;
0 remove 0 127: refused B1 NoLink;
0 remove 16 64: tei gone 64;0 64 released;16 64 released;
0 remove 0 64: refused B1 NoLink;
100000 tick: none;
100000 ask: fcff030f619901ff;
100000 remove 0 64: refused B1 NoLink;
shows: user;discarded 0;next 102000;T202 102000;state 2;asked 1;reference 24985;
exact: yes

# its TEI is assigned to another
user 64
0 release 0 0: 0 64 release-confirmed;
0 take feff030f12340281: tei gone 64;
0 release 0 0: refused B1 NoLink;
shows: user;discarded 0;state 1;asked 0;
exact: yes

# frames that are discarded are counted
user
0 take 02
0 take 02817f
0 take 02ff7f
0 take 42ff030a
0 take fe81030f12340281
0 take feff030f123402
0 take 02ff030a: 0 127 unit 0a;
shows: user;discarded 5;state 1;asked 0;
exact: yes
";

/// Octets that exactly fill a frame, or exceed it (N201, 260, Q.921 5.9.3). Refused octets are
/// returned, and nothing is sent. Then a request for each TEI, and one more: that row is here
/// because if an allocation fails between two of the requests, they cannot all be repeated.
pub(crate) const LENGTHS: &str = "\
# to all terminals, 260 octets
net
0 unit 0 127 [260]: 02ff03[260];

# to all terminals, 261 octets
net
0 unit 0 127 [261]: refused L3 TooLong [261];

# a SAPI that is not served
net
0 unit 16 127 [261]: refused B1 NoLink [261];

# no link
net
0 unit 0 64 [261]: refused B1 NoLink [261];

# no TEI
user packets
0 unit 0 64: refused B1 NoLink ;
0 unit 0 64 [260]: refused B1 NoLink [260];
0 unit 0 64 [261]: refused B1 NoLink [261];
0 unit 0 64 [1000]: refused B1 NoLink [1000];
0 unit 16 127: refused B1 NoLink ;
0 unit 16 127 [260]: refused B1 NoLink [260];
0 unit 16 127 [261]: refused B1 NoLink [261];
0 unit 16 127 [1000]: refused B1 NoLink [1000];
0 unit 63 1: refused B1 NoLink ;
0 unit 63 1 [260]: refused B1 NoLink [260];
0 unit 63 1 [261]: refused B1 NoLink [261];
0 unit 63 1 [1000]: refused B1 NoLink [1000];

# a message for no link
net
0 give 0 64: refused B1 NoLink ;
0 give 0 64 [260]: refused B1 NoLink [260];
0 give 0 64 [261]: refused B1 NoLink [261];
0 give 0 64 [1000]: refused B1 NoLink [1000];
0 give 16 127: refused B1 NoLink ;
0 give 16 127 [260]: refused B1 NoLink [260];
0 give 16 127 [261]: refused B1 NoLink [261];
0 give 16 127 [1000]: refused B1 NoLink [1000];
0 give 63 1: refused B1 NoLink ;
0 give 63 1 [260]: refused B1 NoLink [260];
0 give 63 1 [261]: refused B1 NoLink [261];
0 give 63 1 [1000]: refused B1 NoLink [1000];

# a message without a TEI
user
0 give 0 64: refused L1 NotEstablished ;
0 give 0 64 [260]: refused L1 NotEstablished [260];
0 give 0 64 [261]: refused L1 NotEstablished [261];
0 give 0 64 [1000]: refused L1 NotEstablished [1000];
0 give 16 127: refused L1 NotEstablished ;
0 give 16 127 [260]: refused L1 NotEstablished [260];
0 give 16 127 [261]: refused L1 NotEstablished [261];
0 give 16 127 [1000]: refused L1 NotEstablished [1000];
0 give 63 1: refused L1 NotEstablished ;
0 give 63 1 [260]: refused L1 NotEstablished [260];
0 give 63 1 [261]: refused L1 NotEstablished [261];
0 give 63 1 [1000]: refused L1 NotEstablished [1000];

# 64 Requests, and all but the last are served
net packets
requests: 64 65 66 67 68 69 70 71 72 73 74 75 76 77 78 79 80 81 82 83 84 85 86 87 88 89 90 91 92 93 94 95 96 97 98 99 100 101 102 103 104 105 106 107 108 109 110 111 112 113 114 115 116 117 118 119 120 121 122 123 124 125 126 Denied 63 127;
shows: network;discarded 0;holds 64 65 66 67 68 69 70 71 72 73 74 75 76 77 78 79 80 81 82 83 84 85 86 87 88 89 90 91 92 93 94 95 96 97 98 99 100 101 102 103 104 105 106 107 108 109 110 111 112 113 114 115 116 117 118 119 120 121 122 123 124 125 126;
";
