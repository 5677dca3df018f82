//! The command `answer`: one link that executes a script.

ghost use Rattle.std.specs.Prelude.{◌≡◌, ◌≢◌, ◌<◌, ◌≤◌, ◌&&◌, [], length, true, IfOk, IfSome, IsOkUnless, OnOk, Some};
ghost use Rattle.std.specs.Io.KnownBytes.{Appends};
ghost use Rattle.lapd_cli_answer.specs.Answer.{answer_step, new_session};
ghost use Rattle.lapd_cli_script.specs.Script.{EndsAs, LineEndsAs, lines_of};

use crate::outputs::{put_outs, put_refusal};
use lapd_cli_script::{
    Command, LineFault, ScriptFault, Words, is_word, put_line, put_number, walk,
};
use lapd_frame::{Frame, FrameFault, N201, Sapi, Side, Tei};
use lapd_link::{Event, Link, Outs, Params};
use std::alloc::{AllocError, Global};
use std::io::{Read, Write};
use std::mem;

/// A link that executes a script line by line, by [`Command::run`]. It reuses its buffers for the
/// outputs of a step and for the octets of a line.
#[derive(Drop)]
pub struct Answerer {
    alloc: Global,
    link: Link,
    outs: Outs,
    octets: Vec<u8>,
}

/// Executes a script on one end of a link: the end of `side`, for `sapi` (not management) and `tei`
/// (not the group TEI), with these parameters. Writes a line for each output of each step, or the
/// reason why there was none.
///
/// # Errors
///
/// `BadLine` at the first line that is not valid, `Device` if a read or a write fails, `Memory` if
/// an allocation fails.
pub fn answer<R: Read, W: Write>(
    alloc: Global,
    script: &mut R,
    out: &mut W,
    side: Side,
    sapi: Sapi,
    tei: Tei,
    params: Params,
) -> Result<(), ScriptFault>
    requires sapi { sapi ≢ Sapi.Management }
    requires tei { tei < 127 }
    ensures { IfSome (R.remaining script.old)
        (λ octets. EndsAs answer_step (new_session side sapi tei params) result
        (lines_of octets) (W.contents out.old) (W.contents out.new)) }
{
    let mut answerer = match Answerer::of_link(alloc, side, sapi, tei, params) {
        Ok(answerer) => answerer,
        Err(_) => return Err(ScriptFault::Memory),
    };
    walk(alloc, &mut answerer, script, out)
}

impl Answerer {
    ghost use Rattle.lapd_cli_answer.specs.Answer.{Session};
    ghost use Rattle.lapd_cli_answer.specs.Session.{IsAnswerer};
    ghost use Rattle.lapd_link.specs.Link.{LinkRepresents};

    /// A new link of this side with SAPI 0, TEI 64 and these parameters.
    ///
    /// # Errors
    ///
    /// `AllocError` if the I queue can't be allocated.
    pub fn new(alloc: Global, side: Side, params: Params) -> Result<Answerer, AllocError>
        ensures { IfOk result (λ answerer. IsAnswerer answerer
            (new_session side Sapi.Call 64 params)) }
    {
        Answerer::of_link(alloc, side, Sapi::Call, Tei::new(64).unwrap(), params)
    }

    /// A new link of this side, for `sapi` (not management) and `tei` (not the group TEI), with
    /// these parameters.
    ///
    /// # Errors
    ///
    /// `AllocError` if the I queue can't be allocated.
    pub fn of_link(
        alloc: Global,
        side: Side,
        sapi: Sapi,
        tei: Tei,
        params: Params,
    ) -> Result<Answerer, AllocError>
        requires sapi { sapi ≢ Sapi.Management }
        requires tei { tei < 127 }
        ensures { IfOk result (λ answerer. IsAnswerer answerer (new_session side sapi tei params)) }
    {
        let link = Link::new(alloc, side, sapi, tei, params)?;
        Ok(Answerer {
            alloc,
            link,
            outs: Outs::new(),
            octets: Vec::new(alloc),
        })
    }

    /// The link in its current state.
    pub fn link(&self) -> &Link
        ensures { (s : Session) → IsAnswerer self.now s → LinkRepresents result.now s.end }
    {
        &self.link
    }
}

impl Command for Answerer {
    ghost use Rattle.lapd_cli_answer.specs.Answer.{Session, answer_step};
    ghost use Rattle.lapd_cli_answer.specs.Session.{IsAnswerer};

    ghost State = { Session };

    ghost step = { answer_step };

    ghost represents = { IsAnswerer };

    fn run<W: Write>(&mut self, line: &[u8], out: &mut W) -> Result<(), LineFault> {
        let mut words = Words::of(line);
        match words.next_word() {
            Some(word) => self.word(word, words, out),
            None => Err(LineFault::Bad),
        }
    }
}

impl Answerer {
    ghost use Rattle.lapd_link.specs.Fault.{is_for_link};
    ghost use Rattle.lapd_link.specs.Input.{Give, UnitData, input_of};
    ghost use Rattle.lapd_link.specs.Link.{IsForLink, is_address_of, setup_of};
    ghost use Rattle.lapd_frame.specs.declared.Address.{Address};
    ghost use Rattle.lapd_cli_answer.specs.Answer.{Session, alone, with_octets, answer_word, receive, receive_frame, receive_fault, busy, link_step, state_line, messages_of};
    ghost use Rattle.lapd_cli_answer.specs.Session.{IsAnswerer, HasInputOctets, made_text};

    /// Executes a line, given as its first word and the words after it.
    fn word<W: Write>(
        &mut self,
        word: &[u8],
        behind: Words<'_>,
        out: &mut W,
    ) -> Result<(), LineFault>
        ensures { (s : Session) → IsAnswerer self.old s
            → LineEndsAs IsAnswerer (answer_word s word.now behind.entry) result self.new
            (W.contents out.old) (W.contents out.new) }
    {
        if is_word(word, b"frame") {
            self.receive(behind, out)
        } else if is_word(word, b"t200") {
            self.alone(behind, Event::T200, out)
        } else if is_word(word, b"t203") {
            self.alone(behind, Event::T203, out)
        } else if is_word(word, b"establish") {
            self.alone(behind, Event::Establish, out)
        } else if is_word(word, b"release") {
            self.alone(behind, Event::Release, out)
        } else if is_word(word, b"give") {
            self.give(behind, out)
        } else if is_word(word, b"unit") {
            self.unit(behind, out)
        } else if is_word(word, b"busy") {
            self.busy(behind, out)
        } else if is_word(word, b"state") {
            self.put_state(behind, out)
        } else {
            Err(LineFault::Bad)
        }
    }

    /// Runs a step of the link for a word with nothing after it.
    fn alone<W: Write>(
        &mut self,
        behind: Words<'_>,
        event: Event,
        out: &mut W,
    ) -> Result<(), LineFault>
        requires for_link { IsForLink self.old.link event }
        requires input_octets { HasInputOctets (input_of event) [] }
        ensures { (s : Session) → IsAnswerer self.old s
            → LineEndsAs IsAnswerer (alone behind.entry (link_step s (input_of event.entry) []))
            result self.new (W.contents out.old) (W.contents out.new) }
    {
        behind.nothing()?;
        self.step(event, &[], out)
    }

    /// Prints the state.
    fn put_state<W: Write>(&mut self, behind: Words<'_>, out: &mut W) -> Result<(), LineFault>
        ensures { (s : Session) → IsAnswerer self.old s
            → LineEndsAs IsAnswerer (alone behind.entry (state_line s.end, s)) result self.new
            (W.contents out.old) (W.contents out.new) }
    {
        behind.nothing()?;
        put_number(b"state", u64::from(self.link.state()), out)
    }

    /// Sets or clears own receiver busy.
    fn busy<W: Write>(&mut self, mut behind: Words<'_>, out: &mut W) -> Result<(), LineFault>
        ensures { (s : Session) → IsAnswerer self.old s
            → LineEndsAs IsAnswerer (busy s behind.entry) result self.new (W.contents out.old)
            (W.contents out.new) }
    {
        match behind.next_word() {
            Some(b"on") => self.alone(behind, Event::BusyOn, out),
            Some(b"off") => self.alone(behind, Event::BusyOff, out),
            _ => Err(LineFault::Bad),
        }
    }

    /// Processes received octets, which follow the word.
    fn receive<W: Write>(&mut self, behind: Words<'_>, out: &mut W) -> Result<(), LineFault>
        ensures { (s : Session) → IsAnswerer self.old s
            → LineEndsAs IsAnswerer (with_octets behind.entry (receive s)) result self.new
            (W.contents out.old) (W.contents out.new) }
    {
        let mut octets = mem::replace(&mut self.octets, Vec::new(self.alloc));
        let ended = self.receive_into(behind, &mut octets, out);
        self.octets = octets;
        ended
    }

    /// Processes received octets, which are read into `octets`.
    fn receive_into<W: Write>(
        &mut self,
        behind: Words<'_>,
        octets: &mut Vec<u8>,
        out: &mut W,
    ) -> Result<(), LineFault>
        ensures { (s : Session) → IsAnswerer self.old s
            → LineEndsAs IsAnswerer (with_octets behind.entry (receive s)) result self.new
            (W.contents out.old) (W.contents out.new) }
    {
        behind.octets_into(octets)?;
        match lapd_frame::read(octets.as_slice(), self.link.side().other()) {
            Ok(frame) => self.receive_frame(&frame, out),
            Err(fault) => self.receive_fault(&fault, out),
        }
    }

    /// Processes a frame if it has this link's address.
    fn receive_frame<W: Write>(&mut self, frame: &Frame<'_>, out: &mut W) -> Result<(), LineFault>
        requires fits { length frame.now.info ≤ N201 }
        ensures { (s : Session) → IsAnswerer self.old s
            → LineEndsAs IsAnswerer (Some (receive_frame s frame.now)) result self.new
            (W.contents out.old) (W.contents out.new) }
    {
        if self.link.is_for(&frame.address()) {
            self.step(Event::Heard(frame), frame.info(), out)
        } else {
            put_line(b"not-mine", &[], out)
        }
    }

    /// Processes octets that do not form a valid frame, by their first fault.
    fn receive_fault<W: Write>(&mut self, fault: &FrameFault, out: &mut W) -> Result<(), LineFault>
        requires for_link { (a : Address) → fault.now.address ≡ Some a
            → is_for_link fault.now.kind ≡ true }
        ensures { (s : Session) → IsAnswerer self.old s
            → LineEndsAs IsAnswerer (Some (receive_fault s fault.now.kind fault.now.address)) result
            self.new (W.contents out.old) (W.contents out.new) }
    {
        match &fault.address {
            None => put_line(b"discarded ", fault.kind.name().as_bytes(), out),
            Some(address) => {
                if self.link.is_for(address) {
                    self.step(Event::Fault(fault.kind), &[], out)
                } else {
                    put_line(b"not-mine", &[], out)
                }
            }
        }
    }

    /// Runs a step of the link with an event and its octets, and prints the outputs.
    fn step<W: Write>(
        &mut self,
        event: Event,
        input_octets: &[u8],
        out: &mut W,
    ) -> Result<(), LineFault>
        requires for_link { IsForLink self.old.link event }
        requires input_octets { HasInputOctets (input_of event) input_octets.now }
        ensures { (s : Session) → IsAnswerer self.old s
            → LineEndsAs IsAnswerer
            (Some (link_step s (input_of event.entry) input_octets.now)) result
            self.new (W.contents out.old) (W.contents out.new) }
    {
        match self.link.handle_into(event, &mut self.outs) {
            Ok(()) => self.put_outs(input_octets, out),
            Err(fault) => put_refusal(fault, out),
        }
    }

    /// Submits the octets after the word as a message, and prints the step's outputs.
    fn give<W: Write>(&mut self, behind: Words<'_>, out: &mut W) -> Result<(), LineFault>
        ensures { (s : Session) → IsAnswerer self.old s
            → LineEndsAs IsAnswerer
            (with_octets behind.entry (λ message. link_step s (Give message) [])) result
            self.new (W.contents out.old) (W.contents out.new) }
    {
        let message = behind.octets(self.alloc)?;
        match self.link.give_into(message, &mut self.outs) {
            Ok(()) => self.put_outs(&[], out),
            Err(refused) => put_refusal(refused.fault, out),
        }
    }

    /// Sends the octets after the word as unit data.
    fn unit<W: Write>(&mut self, behind: Words<'_>, out: &mut W) -> Result<(), LineFault>
        ensures { (s : Session) → IsAnswerer self.old s
            → LineEndsAs IsAnswerer
            (with_octets behind.entry (λ octets. link_step s (UnitData (length octets)) octets))
            result self.new (W.contents out.old) (W.contents out.new) }
    {
        let octets = behind.octets(self.alloc)?;
        self.step(Event::Unit(octets.len()), octets.as_slice(), out)
    }

    /// Prints the outputs of the last step, in which these octets were passed to the link.
    fn put_outs<W: Write>(&self, input_octets: &[u8], out: &mut W) -> Result<(), LineFault>
        ensures ok { (s : Session) → IsAnswerer self.now s
            → OnOk result
            (Appends (W.contents out.old) (W.contents out.new)
            (made_text s.setup (messages_of s.end) input_octets.now self.now.outs.items)) }
        ensures err { IsOkUnless result LineFault.Device }
    {
        put_outs(&self.link, input_octets, self.outs.as_slice(), out)
    }
}
