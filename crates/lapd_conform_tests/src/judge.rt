//! Tests of the judge: dialogues, and the judgement on each.

use lapd_conform::{Happening, Params, Request, Setup, Side, Tei, What, judge};
use lapd_link::Sapi;
use lapd_test_text::{Subject, Text, split, wrong_row};
use std::alloc::{AllocError, Global};
use std::test::Fail;

/// Dialogues with a network side that has the link of SAPI 0 and TEI 64, in state 4, with T200 of 1
/// s, T203 of 10 s, N200 = 3 and a tolerance of 100 ms. `AT>HEX` is sent by the tester, `AT<HEX` by
/// the stack, `AT?WORD` is a request, and `AT.` is the end, each with its moment in milliseconds.
/// The judgement follows from the tables of Q.921 Annex D and 5.6 to 5.9.
const ROWS: &str = "\
0>00817f 10<008173 20. | Allowed
0>00817f 10<008163 20. | Refused(1)
0>00817f 3000. | Allowed
0>00817f 3200. | Refused(1)
0>028163 9000. | Allowed
0>02810f 9000. | Allowed
0>02810f 10<02817f 20. | Allowed
0?establish 1<02817f 800<02817f 900. | Refused(2)
0?establish 1<02817f 1001<02817f 1100. | Allowed
0?establish 1<02817f 1001<02817f 2002<02817f 3003<02817f 9000. | Allowed
0?establish 1<02817f 1001<02817f 2002<02817f 3003<02817f 4004<02817f 9000. | Refused(5)
0?establish 1<02817f 9000. | Refused(2)
0?establish 1<02817f 500>028173 501>00810001aa 520<00810103 600. | Allowed
0>00817f 10<008173 20>00810000aa 30<00810102 40. | Allowed
0>00817f 10<008173 20>00810000aa 30<00810100 40. | Refused(3)
0>00817f 10<008173 20>00810000aa 25>00810200aa 30<00810104 40. | Allowed
0>00817f 10<008173 20>00810200aa 30<00810900 35>00810401aa 40<00810101 50. | Allowed
0>00817f 10<008173 20>00810200aa 30<00810900 35>00810401aa 40<00810901 50. | Allowed
0>00817f 10<008173 20>00810200aa 30<00810101 40. | Refused(3)
0>00817f 10<008173 20?give 30<028100000102 1100<02810101 1200. | Allowed
0>00817f 10<008173 20?give 30<028100000102 1100<028100010102 1200. | Allowed
0>00817f 10<008173 20?give 30<028100000102 1100<028100010102 2100<028100010102 2200. | Allowed
0>00817f 10<008173 20?give 30<028100000102 1100<02810101 2100<028100010102 2200. | Allowed
0>00817f 10<008173 20?give 30<028100000102 1100<02810101 2100<028102010102 2200. | Refused(5)
0>00817f 10<008173 20?give 30<028100000103 1100. | Refused(3)
0>00817f 10<008173 20?give 30<028100000102 500<02810101 1200. | Refused(4)
0>00817f 10<008173 11000<02810101 11100. | Allowed
0>00817f 10<008173 15000. | Refused(2)
0>00817f 10<008173 20>02810500 1100<02810101 1200. | Allowed
0>00817f 10<008173 20>02810500 9000. | Refused(3)
0>00817f 10<008173 20>00813f 30<02817f 40. | Allowed
0>00817f 10<008173 20>00813f 30<008197 40. | Refused(3)
";

/// Judges each row.
#[derive(Drop)]
pub(crate) struct Bench {
    pub alloc: Global,
}

impl Bench {
    /// The happening of a word, or the end of the dialogue.
    fn read(&self, word: &str) -> Result<Option<Happening>, AllocError> {
        let mut octets = Vec::new(self.alloc);
        for mark in [">", "<", "?"] {
            let (at, rest) = split(word, mark);
            if at.len() < word.len() {
                let what = what_of(mark, rest);
                if what == What::Sent || what == What::Received {
                    octets = decoded(self.alloc, rest);
                }
                return Ok(Some(Happening {
                    at: moment(at),
                    what,
                    octets,
                }));
            }
        }
        Ok(None)
    }

    /// The happenings of a dialogue without its end.
    pub fn happenings(&self, dialogue: &str) -> Result<Vec<Happening>, AllocError> {
        let mut happenings = Vec::new(self.alloc);
        for word in dialogue.split(' ') {
            if let Some(happening) = self.read(word)? {
                happenings.push(happening)?;
            }
        }
        Ok(happenings)
    }

    fn judge_row(&self, row: &str, made: &mut Text) -> Result<(), AllocError> {
        let happenings = self.happenings(row)?;
        let mut until = 0;
        for word in row.split(' ') {
            until = moment(split(word, ".").0);
        }
        let judgement = judge(self.alloc, &setup(), happenings.as_slice(), until)?;
        made.made("", judgement);
        Ok(())
    }
}

fn decoded(alloc: Global, digits: &str) -> Vec<u8> {
    match hex::decode(alloc, digits.as_bytes()) {
        Ok(octets) => octets,
        Err(_) => Vec::new(alloc),
    }
}

fn what_of(mark: &str, word: &str) -> What {
    match (mark, word) {
        (">", _) => What::Sent,
        ("<", _) => What::Received,
        (_, "establish") => What::Requested(Request::Establish),
        (_, "release") => What::Requested(Request::Release),
        _ => What::Requested(Request::Give),
    }
}

fn moment(digits: &str) -> u64 {
    digits.parse::<u64>().unwrap_or(0)
}

fn setup() -> Setup {
    Setup {
        side: Side::Network,
        tei: Tei::new(64).unwrap(),
        params: Params::new(7, 3, 64).unwrap_or(Params::basic(Sapi::Call)),
        t200: 1_000,
        t203: Some(10_000),
        slack: 100,
        confirmed: true,
        active: false,
    }
}

impl Subject for Bench {
    fn preserves(&mut self, row: &'static str, made: &mut Text) -> bool {
        let (dialogue, wanted) = split(row, " | ");
        let mut judged = Text::new();
        if self.judge_row(dialogue, &mut judged).is_err() {
            judged.put("out of memory");
        }
        let so = judged.is(wanted);
        if !so {
            made.put_first(judged.as_str());
        }
        so
    }
}

#[test]
fn dialogues_are_judged(rt: HostRuntime) -> Result<(), Fail> {
    let mut made = Text::new();
    let mut bench = Bench { alloc: rt.alloc() };
    match wrong_row(&mut bench, ROWS, &mut made) {
        Some(row) => {
            let made = made.as_str();
            Err(Fail::new(format_args!("{row}\n  comes to: {made}")))
        }
        None => Ok(()),
    }
}
