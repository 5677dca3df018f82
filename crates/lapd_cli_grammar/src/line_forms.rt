//! The forms of each command's lines.

ghost use Rattle.std.specs.Prelude.{◌≡◌, map, option_map};
ghost use Rattle.std.specs.List.{find};
ghost use Rattle.std.specs.Str.{bytes_eq};
ghost use Rattle.lapd_cli_grammar.specs.Forms.{shape_named, shape_of, shapes_of};

use crate::form::Argument::{
    Delay, FixedTei, Hex, Loss, Message, Milliseconds, OnOff, OptionalMilliseconds, OptionalSapi,
    Place, Reference, Sapi, Side, Station, Tei, Terminal, Words,
};
use crate::form::Form;
use crate::script::Script;

/// The forms of a command's lines. A line is valid for the command exactly if it has one of these
/// forms, is empty or is a comment. But a `tick` of `net` or `user` may still take the clock past
/// its end.
pub fn forms(script: Script) -> &'static [Form]
    ensures { map shape_of result.now ≡ shapes_of script }
{
    match script {
        Script::Answer => ANSWER,
        Script::Bus => BUS,
        Script::BusLinks => BUS_LINKS,
        Script::Decode => DECODE,
        Script::LiveNet => LIVE_NET,
        Script::LiveUser => LIVE_USER,
        Script::Loop => LOOP,
        Script::Net => NET,
        Script::Pair => PAIR,
        Script::User => USER,
    }
}

/// The form of a command's lines that begin with this word.
pub fn form_of(script: Script, word: &[u8]) -> Option<Form>
    ensures { option_map shape_of result ≡ shape_named script word.now }
{
    form_among(forms(script), word)
}

/// The first of these forms that begins with this word.
fn form_among(forms: &[Form], word: &[u8]) -> Option<Form>
    ensures { result ≡ find (λ form. bytes_eq word.now form.word.now) forms.now }
{
    forms
        .iter()
        .copied()
        .find(|form| word == form.word.as_bytes())
}

/// The form of this first word and these words after it.
macro_rules! line {
    ($word:literal $($argument:ident)*) => {
        Form { word: $word, arguments: &[$($argument),*] }
    };
}

const ANSWER: &[Form] = &[
    line!("frame" Hex),
    line!("t200"),
    line!("t203"),
    line!("establish"),
    line!("release"),
    line!("give" Hex),
    line!("unit" Hex),
    line!("busy" OnOff),
    line!("state"),
];

const PAIR: &[Form] = &[
    line!("establish" Side),
    line!("release" Side),
    line!("give" Side Hex),
    line!("unit" Side Hex),
    line!("deliver" Side),
    line!("lose" Side Place),
    line!("expire200" Side),
    line!("expire203" Side),
    line!("busy" Side OnOff),
    line!("restart" Side),
    line!("settle"),
    line!("recover"),
];

const LOOP: &[Form] = &[
    line!("establish" Side),
    line!("release" Side),
    line!("give" Side Hex),
    line!("unit" Side Hex),
    line!("deliver" Side),
    line!("lose" Side Place),
    line!("expire200" Side),
    line!("expire203" Side),
    line!("busy" Side OnOff),
    line!("restart" Side),
];

const NET: &[Form] = &[
    line!("read"),
    line!("tick" Milliseconds),
    line!("establish" Sapi Tei),
    line!("release" Sapi Tei),
    line!("give" Sapi Tei Hex),
    line!("unit" Sapi Tei Hex),
    line!("check" Tei),
    line!("check-all"),
    line!("remove-all"),
];

const USER: &[Form] = &[
    line!("read"),
    line!("tick" Milliseconds),
    line!("establish" Sapi Tei),
    line!("release" Sapi Tei),
    line!("give" Sapi Tei Hex),
    line!("unit" Sapi Tei Hex),
    line!("ask"),
];

const LIVE_NET: &[Form] = &[
    line!("read" OptionalMilliseconds),
    line!("run" OptionalMilliseconds),
    line!("wait" Milliseconds),
    line!("expect" Words Milliseconds),
    line!("establish" Sapi Tei),
    line!("release" Sapi Tei),
    line!("give" Sapi Tei Hex),
    line!("unit" Sapi Tei Hex),
    line!("busy" Sapi Tei OnOff),
    line!("check" Tei),
    line!("remove" Tei),
    line!("check-all"),
    line!("remove-all"),
    line!("state" OptionalSapi Tei),
    line!("stats"),
    line!("impair" Loss Delay),
];

const LIVE_USER: &[Form] = &[
    line!("read" OptionalMilliseconds),
    line!("run" OptionalMilliseconds),
    line!("wait" Milliseconds),
    line!("expect" Words Milliseconds),
    line!("establish" Sapi),
    line!("release" Sapi),
    line!("give" Sapi Hex),
    line!("unit" Sapi Hex),
    line!("busy" Sapi OnOff),
    line!("ask"),
    line!("state" OptionalSapi),
    line!("stats"),
    line!("impair" Loss Delay),
];

const BUS: &[Form] = &[
    line!("ask" Terminal Reference),
    line!("t202" Terminal Reference),
    line!("hear" Message Terminal Reference),
    line!("drop" Message),
    line!("hear-up" Message),
    line!("drop-up" Message),
    line!("check" Tei),
    line!("t201"),
    line!("leave" Terminal),
];

const BUS_LINKS: &[Form] = &[
    line!("take" Terminal),
    line!("take-up" Terminal),
    line!("lose" Terminal Place),
    line!("lose-up" Terminal Place),
    line!("settle"),
    line!("tick" Milliseconds),
    line!("establish" Station Sapi Tei),
    line!("release" Station Sapi Tei),
    line!("give" Station Sapi Tei Hex),
    line!("unit" Station Sapi Tei Hex),
    line!("busy" Station Sapi Tei OnOff),
    line!("ask" Terminal),
    line!("check" Tei),
    line!("remove" Tei),
    line!("check-all"),
    line!("remove-all"),
    line!("join" Terminal FixedTei),
    line!("restart"),
    line!("restart-known"),
];

const DECODE: &[Form] = &[line!("user" Hex), line!("net" Hex)];
