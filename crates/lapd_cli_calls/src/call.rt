//! A call and its line in the table.

use crate::cause::cause_words;
use crate::stage::Stage;
use lapd_follow::Seconds;
use lapd_frame::{Address, Side};
use std::alloc::{AllocError, Global};

/// The call reference of a call, which is its own among the calls of a link that began at the same
/// side (Q.931 4.3).
#[derive(Clone, Copy, Debug, PartialEq, Eq)]
pub struct CallKey {
    /// The SAPI of the link.
    pub sapi: u8,
    /// The TEI of the link.
    pub tei: u8,
    /// The value of the call reference.
    pub value: u16,
    /// The side at which the call began.
    pub origin: Side,
}

impl CallKey {
    /// The key of the call with this reference, from a message that `from` sent to the side at which
    /// the call began, or from it.
    pub fn of(address: &Address, value: u16, to_origin: bool, from: Side) -> CallKey {
        CallKey {
            sapi: address.sapi.value(),
            tei: address.tei.value(),
            value,
            origin: if to_origin { from.other() } else { from },
        }
    }
}

/// A call, as far as its messages so far show it.
#[derive(Drop)]
pub struct Call {
    /// Its call reference and its link.
    pub key: CallKey,
    /// Whether its SETUP was seen.
    pub has_setup: bool,
    /// Its stage.
    pub stage: Stage,
    /// The time of its first message, in microseconds, if known.
    pub begun: Option<u64>,
    /// The time of the answer.
    pub answered: Option<u64>,
    /// The time of the first clearing message.
    pub ended: Option<u64>,
    /// The words of its information elements, from the message that has the first of each kind; of
    /// the channel the last one before the answer.
    pub bearer: String,
    /// The channel.
    pub channel: String,
    /// The calling party number.
    pub calling: String,
    /// The called party number.
    pub called: String,
    /// The cause of the first clearing message that has one.
    pub cause: String,
}

impl Call {
    /// A call before its first message.
    pub fn new(alloc: Global, key: CallKey, moment: Option<u64>) -> Call {
        Call {
            key,
            has_setup: false,
            stage: Stage::Offered,
            begun: moment,
            answered: None,
            ended: None,
            bearer: String::new(alloc),
            channel: String::new(alloc),
            calling: String::new(alloc),
            called: String::new(alloc),
            cause: String::new(alloc),
        }
    }

    /// Takes a message of this type at this time, with these words of its elements.
    ///
    /// # Errors
    ///
    /// `AllocError` if an allocation fails.
    pub fn take(
        &mut self,
        alloc: Global,
        kind: u8,
        from: Side,
        moment: Option<u64>,
        words: &str,
    ) -> Result<(), AllocError> {
        let before = self.stage;
        self.stage = before.after(kind, from);
        if before != self.stage {
            match self.stage {
                Stage::Offered => {}
                Stage::Answered => self.answered = moment,
                Stage::Ended(_) => self.ended = moment,
            }
        }
        for word in words.split(' ') {
            self.take_word(alloc, before, word)?;
        }
        Ok(())
    }

    /// Takes a word of an information element, in a message at this stage.
    fn take_word(&mut self, alloc: Global, before: Stage, word: &str) -> Result<(), AllocError> {
        let Some((name, value)) = word.split_once('=') else {
            return Ok(());
        };
        match name {
            "bearer" => keep_first(alloc, &mut self.bearer, value),
            "calling" => keep_first(alloc, &mut self.calling, value),
            "called" => keep_first(alloc, &mut self.called, value),
            "channel" if before == Stage::Offered => keep(alloc, &mut self.channel, value),
            "cause" if matches!(self.stage, Stage::Ended(_)) => {
                keep_first(alloc, &mut self.cause, value)
            }
            _ => Ok(()),
        }
    }

    /// Whether the call is not cleared.
    pub fn is_open(&self) -> bool {
        !matches!(self.stage, Stage::Ended(_))
    }

    /// Appends the line of the call. Times are those since `first`.
    ///
    /// # Errors
    ///
    /// `AllocError` if an allocation fails. A part of the line may have been appended.
    pub fn push_line(&self, text: &mut String, first: Option<u64>) -> Result<(), AllocError> {
        let CallKey {
            sapi,
            tei,
            value,
            origin,
        } = self.key;
        let side = side_name(origin);
        write!(text, "call {value} of {side}, SAPI {sapi} TEI {tei}:")?;
        push_word(text, " bearer=", self.bearer.as_str())?;
        push_word(text, " channel=", self.channel.as_str())?;
        push_word(text, " calling=", self.calling.as_str())?;
        push_word(text, " called=", self.called.as_str())?;
        self.push_begin(text, first)?;
        self.push_stage(text)?;
        text.push_str("\n")
    }

    /// Appends when the call began.
    fn push_begin(&self, text: &mut String, first: Option<u64>) -> Result<(), AllocError> {
        if !self.has_setup {
            return text.push_str(" set up before,");
        }
        text.push_str(" set up")?;
        push_span(text, " at ", "", first, self.begun)?;
        text.push_str(",")
    }

    /// Appends whether the call was answered, and how it ended.
    fn push_stage(&self, text: &mut String) -> Result<(), AllocError> {
        match self.stage {
            Stage::Offered => text.push_str(" not answered, not ended"),
            Stage::Answered => {
                self.push_answer(text)?;
                text.push_str(" not ended")
            }
            Stage::Ended(clearing) => {
                if clearing.was_answered {
                    self.push_answer(text)?;
                    push_span(text, " lasted ", " s,", self.answered, self.ended)?;
                    text.push_str(" ended")?;
                } else {
                    text.push_str(" not answered, ended")?;
                    if self.has_setup {
                        push_span(text, " after ", " s", self.begun, self.ended)?;
                    }
                }
                let by = side_name(clearing.by);
                write!(text, " by {by}")?;
                self.push_cause(text)
            }
        }
    }

    /// Appends when the call was answered.
    fn push_answer(&self, text: &mut String) -> Result<(), AllocError> {
        text.push_str(" answered")?;
        if self.has_setup {
            push_span(text, " after ", " s", self.begun, self.answered)?;
        }
        text.push_str(",")
    }

    /// Appends the cause of the clearing, if a message has one.
    fn push_cause(&self, text: &mut String) -> Result<(), AllocError> {
        if self.cause.is_empty() {
            return Ok(());
        }
        text.push_str(", cause ")?;
        text.push_str(self.cause.as_str())?;
        let words = match self.cause.as_str().parse::<u8>() {
            Ok(value) => cause_words(value),
            Err(_) => "",
        };
        push_word(text, " ", words)
    }
}

/// The name of a side.
fn side_name(side: Side) -> &'static str {
    match side {
        Side::User => "user",
        Side::Network => "network",
    }
}

/// Appends words and a value, if there is one.
fn push_word(text: &mut String, words: &str, value: &str) -> Result<(), AllocError> {
    if value.is_empty() {
        return Ok(());
    }
    text.push_str(words)?;
    text.push_str(value)
}

/// Appends the time from one moment to another, between these words, if both are known.
fn push_span(
    text: &mut String,
    front: &str,
    back: &str,
    from: Option<u64>,
    to: Option<u64>,
) -> Result<(), AllocError> {
    let (Some(from), Some(to)) = (from, to) else {
        return Ok(());
    };
    let span = Seconds {
        time: to.saturating_sub(from),
    };
    write!(text, "{front}{span}{back}")
}

/// Keeps a value, unless one is kept already.
fn keep_first(alloc: Global, kept: &mut String, value: &str) -> Result<(), AllocError> {
    if kept.is_empty() {
        keep(alloc, kept, value)
    } else {
        Ok(())
    }
}

/// Keeps a value.
fn keep(alloc: Global, kept: &mut String, value: &str) -> Result<(), AllocError> {
    *kept = String::from_str(alloc, value)?;
    Ok(())
}
