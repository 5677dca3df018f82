//! Tables of links: the existing links, received octets, and printed faults.

/// Octets of the user side are received (`hear`); links are added, removed and established, and
/// messages are submitted. The rows show the state of a link, and the numbers of its waiting and
/// sent messages.
pub(crate) const TABLES: &str = "\
# one of two links is released
table new
table add 0 64: done
table add 16 64: done
table hear 00817f: SAPI 0 TEI 64;008173;established;start T203;
table hear 40817f: SAPI 16 TEI 64;408173;established;start T203;
table hear 408153: SAPI 16 TEI 64;408173;released;stop T203;
table shows 16 64: state 4;waiting 0;sent 0;
table shows 0 64: state 7;waiting 0;sent 0;

# a link that was taken out hears nothing
table new
table add 0 64: done
table add 16 64: done
table remove 16 64: done
table hear 408153: refused B1 NoLink;
table shows 0 64: state 4;waiting 0;sent 0;

# octets for no link
table new
table add 0 64: done
table add 16 64: done
table hear: refused B4 Discarded F1 TooShort;
table hear 01817f: refused B4 Discarded F2 BadAddress;
table hear 04817f: refused B4 Discarded F3 SapiNotServed;
table hear 00837f: refused B1 NoLink;
table hear 00831100: refused B1 NoLink;
table hear fcff03: refused B1 NoLink;
table shows 0 64: state 4;waiting 0;sent 0;
table shows 16 64: state 4;waiting 0;sent 0;

# a reserved bit of an S frame is reported to its link
table new
table add 0 64: done
table add 16 64: done
table hear 40811100: SAPI 16 TEI 64;report L;

# requests for one link
table new
table add 0 64: done
table add 16 64: done
table give 16 64 6561726c79: refused L1 NotEstablished 6561726c79;
table establish 16 64: 42817f;start T200;
table hear 428173: SAPI 16 TEI 64;confirmed;stop T200;start T203;
table give 16 64 0801: taken
table shows 16 64: state 7;waiting 1;sent 1;
table shows 0 64: state 4;waiting 0;sent 0;

# links are added and taken out
table new
table add 0 64: done
table add 16 64: done
table add 0 65: done
table links: SAPI 0 TEI 64;SAPI 0 TEI 65;SAPI 16 TEI 64;
table remove 16 64: done
table links: SAPI 0 TEI 64;SAPI 0 TEI 65;
table remove 16 64: refused B1 NoLink;
table links: SAPI 0 TEI 64;SAPI 0 TEI 65;
table add 0 70: done
table links: SAPI 0 TEI 64;SAPI 0 TEI 65;SAPI 0 TEI 70;
table hear 408153: refused B1 NoLink;
table links: SAPI 0 TEI 64;SAPI 0 TEI 65;SAPI 0 TEI 70;
table add 0 65: refused B2 AlreadyThere;
table links: SAPI 0 TEI 64;SAPI 0 TEI 65;SAPI 0 TEI 70;
table add 0 0: done
table links: SAPI 0 TEI 0;SAPI 0 TEI 64;SAPI 0 TEI 65;SAPI 0 TEI 70;
table add 16 126: done
table links: SAPI 0 TEI 0;SAPI 0 TEI 64;SAPI 0 TEI 65;SAPI 0 TEI 70;SAPI 16 TEI 126;
table add 16 64: done
table links: SAPI 0 TEI 0;SAPI 0 TEI 64;SAPI 0 TEI 65;SAPI 0 TEI 70;SAPI 16 TEI 64;SAPI 16 TEI 126;

# a fault that no test can bring about
table memory: B3 Memory;
";

/// Links that are added while allocations may fail.
pub(crate) const LINKS: &str = "\
# so many links that slab and map grow several times
table new
table add 0 64: done
table add 0 65: done
table add 0 66: done
table add 0 67: done
table add 0 68: done
table add 0 69: done
table add 0 70: done
table add 0 71: done
table add 0 72: done
table add 0 73: done
table add 0 74: done
table add 0 75: done
table add 16 64: done
table add 16 65: done
table add 16 66: done
table add 16 67: done
table add 16 68: done
table add 16 69: done
table links: SAPI 0 TEI 64;SAPI 0 TEI 65;SAPI 0 TEI 66;SAPI 0 TEI 67;SAPI 0 TEI 68;SAPI 0 TEI 69;SAPI 0 TEI 70;SAPI 0 TEI 71;SAPI 0 TEI 72;SAPI 0 TEI 73;SAPI 0 TEI 74;SAPI 0 TEI 75;SAPI 16 TEI 64;SAPI 16 TEI 65;SAPI 16 TEI 66;SAPI 16 TEI 67;SAPI 16 TEI 68;SAPI 16 TEI 69;
";
