//! The settings of a stack file.

ghost use Rattle.std.specs.Prelude.{◌≡◌, map};
ghost use Rattle.lapd_conform_suite.specs.Words.{row_of};
ghost use Rattle.lapd_cli_conform.specs.Reading.{ReadsAs, number_in};
ghost use Rattle.lapd_cli_conform.specs.Settings.{activities as activities_rows, answers as answers_rows, idle_in, names as names_rows, no_requests, one_in, requests as requests_rows, requests_from, setting_by, setting_in, shares as shares_rows, tei_in, timer_in, with_request as with_request_row};

use crate::fault::{Needed, SettingFault};
use crate::reading::{end, read_number, read_value};
use lapd_cli_script::{Words, is_word};
use lapd_conform::{Request, Requests};
use lapd_conform_suite::{Named, take_word};

/// The greatest duration of a timer, in milliseconds: an hour.
const MOST_DURATION: u32 = 3_600_000;

/// The greatest time in transit, in milliseconds.
const MOST_DELAY: u32 = 10_000;

/// A line of a stack file.
#[derive(Clone, Copy)]
pub enum Setting {
    /// `tei`: the TEI of the link of SAPI 0; `None` if TEIs are automatic.
    Tei(Option<u8>),
    /// `k`: the window.
    Window(u8),
    /// `n200`
    N200(u8),
    /// `n202`
    N202(u8),
    /// `t200`, in milliseconds.
    T200(u32),
    /// `t201`, in milliseconds.
    T201(u32),
    /// `t202`, in milliseconds.
    T202(u32),
    /// `t203`, in milliseconds; `None` if the stack has no T203.
    T203(Option<u32>),
    /// `sapis`: whether the stack serves some SAPIs only.
    Sapis(bool),
    /// `layer3`: whether layer 3 of the stack makes requests by itself.
    Active(bool),
    /// `upper`: the requests that the upper tester takes.
    Upper(Requests),
    /// `confirms`: whether the upper tester answers after the stack has processed the request.
    Confirms(bool),
    /// `delay`: how long a frame is in transit at most, in milliseconds.
    Delay(u32),
}

/// The name of a setting.
#[derive(Clone, Copy)]
pub(crate) enum SettingName {
    Tei,
    Window,
    N200,
    N202,
    T200,
    T201,
    T202,
    T203,
    Sapis,
    Active,
    Upper,
    Confirms,
    Delay,
}

/// The rows of a table.
macro_rules! table {
    ($kind:ident: $($word:literal $value:ident)*) => {
        &[$(Named { word: $word, value: $kind::$value }),*]
    };
}

const NAMES: &[Named<SettingName>] =
    table!(SettingName: "tei" Tei "k" Window "n200" N200 "n202" N202 "t200" T200 "t201" T201 "t202" T202 "t203" T203 "sapis" Sapis "layer3" Active "upper" Upper "confirms" Confirms "delay" Delay);

const REQUESTS: &[Named<Request>] =
    table!(Request: "establish" Establish "release" Release "give" Give "unit" Unit "busy" Busy "ask" Ask "check" Check "remove" Remove);

const SHARES: &[Named<bool>] = &[
    Named {
        word: "some",
        value: true,
    },
    Named {
        word: "all",
        value: false,
    },
];

const ACTIVITIES: &[Named<bool>] = &[
    Named {
        word: "active",
        value: true,
    },
    Named {
        word: "passive",
        value: false,
    },
];

const ANSWERS: &[Named<bool>] = &[
    Named {
        word: "yes",
        value: true,
    },
    Named {
        word: "no",
        value: false,
    },
];

fn names() -> &'static [Named<SettingName>]
    ensures { map row_of result.now ≡ names_rows }
{
    NAMES
}

fn requests() -> &'static [Named<Request>]
    ensures { map row_of result.now ≡ requests_rows }
{
    REQUESTS
}

fn shares() -> &'static [Named<bool>]
    ensures { map row_of result.now ≡ shares_rows }
{
    SHARES
}

fn activities() -> &'static [Named<bool>]
    ensures { map row_of result.now ≡ activities_rows }
{
    ACTIVITIES
}

fn answers() -> &'static [Named<bool>]
    ensures { map row_of result.now ≡ answers_rows }
{
    ANSWERS
}

/// Reads a line of a stack file, which is neither empty nor a comment, without its line feed.
pub(crate) fn read_setting<'s>(line: &'s [u8]) -> Result<Setting, SettingFault<'s>>
    ensures { ReadsAs (λ setting. setting) result (setting_in line.now) }
{
    let mut words = Words::of(line);
    let name = read_value(names(), Needed::Name, take_word(&mut words))?;
    read_by(name, words)
}

fn read_by<'s>(name: SettingName, mut words: Words<'s>) -> Result<Setting, SettingFault<'s>>
    ensures { ReadsAs (λ setting. setting) result (setting_by name words.entry) }
{
    match name {
        SettingName::Upper => read_upper(words),
        _ => {
            let setting = read_one(name, take_word(&mut words))?;
            end(words)?;
            Ok(setting)
        }
    }
}

/// Reads the value of a setting that has one.
fn read_one<'s>(name: SettingName, word: &'s [u8]) -> Result<Setting, SettingFault<'s>>
    ensures { ReadsAs (λ setting. setting) result (one_in name word.now) }
{
    match name {
        SettingName::Tei => read_tei(word),
        SettingName::Window => Ok(Setting::Window(read_small(word, 1, 127, Needed::Window)?)),
        SettingName::N200 => Ok(Setting::N200(read_small(word, 1, 100, Needed::Times)?)),
        SettingName::N202 => Ok(Setting::N202(read_small(word, 1, 100, Needed::Times)?)),
        SettingName::T200 => Ok(Setting::T200(read_timer(word)?)),
        SettingName::T201 => Ok(Setting::T201(read_timer(word)?)),
        SettingName::T202 => Ok(Setting::T202(read_timer(word)?)),
        SettingName::T203 => read_idle(word),
        SettingName::Sapis => Ok(Setting::Sapis(read_value(shares(), Needed::Sapis, word)?)),
        SettingName::Active => Ok(Setting::Active(read_value(
            activities(),
            Needed::LayerThree,
            word,
        )?)),
        SettingName::Upper => Ok(Setting::Upper(none())),
        SettingName::Confirms => Ok(Setting::Confirms(read_value(
            answers(),
            Needed::Confirms,
            word,
        )?)),
        SettingName::Delay => Ok(Setting::Delay(read_duration(
            word,
            0,
            MOST_DELAY,
            Needed::Delay,
        )?)),
    }
}

fn read_tei<'s>(word: &'s [u8]) -> Result<Setting, SettingFault<'s>>
    ensures { ReadsAs (λ setting. setting) result (tei_in word.now) }
{
    if is_word(word, b"automatic") {
        return Ok(Setting::Tei(None));
    }
    Ok(Setting::Tei(Some(read_small(word, 0, 126, Needed::Tei)?)))
}

/// The duration of T203, which a stack may lack.
fn read_idle<'s>(word: &'s [u8]) -> Result<Setting, SettingFault<'s>>
    ensures { ReadsAs (λ setting. setting) result (idle_in word.now) }
{
    if is_word(word, b"none") {
        return Ok(Setting::T203(None));
    }
    Ok(Setting::T203(Some(read_duration(word, 1, MOST_DURATION, Needed::IdleDuration)?)))
}

/// Reads a number of one octet.
fn read_small<'s>(
    word: &'s [u8],
    least: u8,
    most: u8,
    wanted: Needed,
) -> Result<u8, SettingFault<'s>>
    ensures { ReadsAs (λ number. number) result (number_in least most wanted word.now) }
{
    match read_number(word, u64::from(least), u64::from(most), wanted) {
        Ok(number) => Ok(number as u8),
        Err(fault) => Err(fault),
    }
}

/// Reads the duration of a timer that each stack has.
fn read_timer<'s>(word: &'s [u8]) -> Result<u32, SettingFault<'s>>
    ensures { ReadsAs (λ number. number) result (timer_in word.now) }
{
    read_duration(word, 1, MOST_DURATION, Needed::Duration)
}

/// Reads milliseconds.
fn read_duration<'s>(
    word: &'s [u8],
    least: u32,
    most: u32,
    wanted: Needed,
) -> Result<u32, SettingFault<'s>>
    ensures { ReadsAs (λ number. number) result (number_in least most wanted word.now) }
{
    match read_number(word, u64::from(least), u64::from(most), wanted) {
        Ok(number) => Ok(number as u32),
        Err(fault) => Err(fault),
    }
}

/// Reads the requests that an upper tester takes, to the end of the line.
fn read_upper<'s>(mut words: Words<'s>) -> Result<Setting, SettingFault<'s>>
    ensures { ReadsAs (λ setting. setting) result (requests_from no_requests words.entry) }
{
    let mut taken = none();
    while let Some(word) = words.next_word() {
        let request = read_value(requests(), Needed::Request, word)?;
        taken = with_request(taken, request);
    }
    Ok(Setting::Upper(taken))
}

/// No requests.
pub(crate) fn none() -> Requests
    ensures { result ≡ no_requests }
{
    Requests {
        establish: false,
        release: false,
        give: false,
        unit: false,
        busy: false,
        ask: false,
        check: false,
        remove: false,
    }
}

fn with_request(requests: Requests, request: Request) -> Requests
    ensures { result ≡ with_request_row requests request }
{
    match request {
        Request::Establish => Requests {
            establish: true,
            ..requests
        },
        Request::Release => Requests {
            release: true,
            ..requests
        },
        Request::Give => Requests {
            give: true,
            ..requests
        },
        Request::Unit => Requests {
            unit: true,
            ..requests
        },
        Request::Busy | Request::Ready => Requests {
            busy: true,
            ..requests
        },
        Request::Ask => Requests {
            ask: true,
            ..requests
        },
        Request::Check => Requests {
            check: true,
            ..requests
        },
        Request::Remove => Requests {
            remove: true,
            ..requests
        },
    }
}
