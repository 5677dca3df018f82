//! JSON objects for octets, as in docs/CLI.md.

use crate::lines::rows_hold;
use lapd_cli_decode::Style;
use std::test::Fail;

// A line, and its object.
const OBJECTS: &str =
    r#"user 00817f|{"direction":"U>N","frame":"SABME","p":1,"role":"command","sapi":0,"tei":64}
net 008173|{"direction":"N>U","f":1,"frame":"UA","role":"response","sapi":0,"tei":64}
user 008102040801|{"direction":"U>N","frame":"I","info":"0801","nr":2,"ns":1,"p":0,"role":"command","sapi":0,"tei":64}
net 02810103|{"direction":"N>U","frame":"RR","nr":1,"p":1,"role":"command","sapi":0,"tei":64}
net 00810502|{"direction":"N>U","f":0,"frame":"RNR","nr":1,"role":"response","sapi":0,"tei":64}
user 02810902|{"direction":"U>N","f":0,"frame":"REJ","nr":1,"role":"response","sapi":0,"tei":64}
user 02811f|{"direction":"U>N","f":1,"frame":"DM","role":"response","sapi":0,"tei":64}
user 40fd53|{"direction":"U>N","frame":"DISC","p":1,"role":"command","sapi":16,"tei":126}
user fcff030f619901ff|{"direction":"U>N","frame":"UI","info":"0f619901ff","p":0,"role":"command","sapi":63,"tei":127}
user 0281877f00020401|{"direction":"U>N","f":0,"frame":"FRMR","info":"7f00020401","role":"response","sapi":0,"tei":64}
user 0081af|{"direction":"U>N","frame":"XID","p":0,"role":"command","sapi":0,"tei":64}
user 04817f|{"direction":"U>N","fault":"F3 SapiNotServed","octets":"04817f"}
net|{"direction":"N>U","fault":"F1 TooShort"}"#;

// The same with named messages.
const NAMED: &str =
    r#"user 00817f|{"direction":"U>N","frame":"SABME","p":1,"role":"command","sapi":0,"tei":64}
user fcff030f619901ff|{"direction":"U>N","frame":"UI","info":"0f619901ff","message":"identity request Ri=6199 Ai=127","p":0,"role":"command","sapi":63,"tei":127}
net fefb030f00070281|{"direction":"N>U","frame":"UI","info":"0f00070281","message":"identity assigned Ri=0007 Ai=64","p":0,"role":"command","sapi":63,"tei":125}
net 02810000080101050403|{"direction":"N>U","frame":"I","info":"080101050403","message":"SETUP cr=1 from origin","nr":0,"ns":0,"p":0,"role":"command","sapi":0,"tei":64}
user 008100000801010504038090a3700581315c2232|{"direction":"U>N","frame":"I","info":"0801010504038090a3700581315c2232","message":"SETUP cr=1 from origin bearer=speech called=1??2","nr":0,"ns":0,"p":0,"role":"command","sapi":0,"tei":64}
net 04817f|{"direction":"N>U","fault":"F3 SapiNotServed","octets":"04817f"}"#;

#[test]
fn objects_are_printed(rt: HostRuntime) -> Result<(), Fail> {
    rows_hold(rt.alloc(), OBJECTS, Style::Json)?;
    rows_hold(rt.alloc(), NAMED, Style::NamedJson)
}
