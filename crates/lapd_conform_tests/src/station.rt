//! Our own sides as the stack under test, in simulated time, over a line with delays. A fault can
//! be planted, so that the stack is wrong.

ghost use Rattle.std.specs.Prelude.{◌≡◌};

use crate::asked_rows::AskedRows;
use lapd_conform::{Lost, Request as Asked, Station};
use lapd_frame::Frame;
use lapd_link::Timer;
use lapd_sides::{
    Acts, Config, Durations, EitherSide, LinkId, NetSide, Params, Request, Sapi, Side, Tei,
    UserSide,
};
use lapd_test_text::Draws;
use std::alloc::{AllocError, Global};

/// The greatest number of moments in one wait.
const MOST_MOMENTS: usize = 1_000_000;

/// A fault of the stack.
#[derive(Clone, Copy, PartialEq, Eq)]
pub(crate) enum Planted {
    /// None.
    Nothing,
    /// Frames of the stack whose third octet is the first have the second in its place.
    Wrong(u8, u8),
    /// Frames of the stack with this third octet are not sent.
    Mute(u8),
    /// Frames of the stack with this third octet are sent twice.
    Twice(u8),
    /// S frames of the stack have a wrong P/F bit.
    WrongFinal,
    /// N(R) of the stack's S frames is one too great.
    WrongNumber,
    /// N(R) of the stack's I frames is one too great.
    WrongMessageNumber,
    /// S responses of the stack are commands.
    WrongRole,
    /// The stack does not process frames with this third octet.
    Deaf(u8),
    /// The stack has this T200, in milliseconds.
    T200(u32),
    /// The stack has this T203, in milliseconds.
    T203(u32),
    /// The stack has this N200.
    N200(u8),
    /// The stack has this window.
    Window(u8),
}

/// A stack of our own.
#[derive(Clone, Copy)]
pub(crate) struct Own {
    pub side: Side,
    /// The fixed TEI 0 and the parameters of primary rate, or automatic TEIs and those of basic
    /// access.
    pub is_primary: bool,
    pub planted: Planted,
    /// Whether the stack is not started anew for each case.
    pub is_kept: bool,
    /// The greatest delay of a frame, in milliseconds.
    pub delay: u32,
    /// How long the stack takes no frame after it was started, in milliseconds.
    pub idle: u32,
}

/// A frame in transit, and the moment at which it arrives.
#[derive(Drop)]
struct Transit {
    at: u64,
    octets: Vec<u8>,
}

/// A side of our own, the line to it and the time.
#[derive(Drop)]
pub(crate) struct OwnStation {
    alloc: Global,
    own: Own,
    side: EitherSide,
    acts: Acts,
    now: u64,
    /// The moment from which the stack takes frames.
    ready: u64,
    to_stack: Vec<Transit>,
    from_stack: Vec<Transit>,
    last: [u64; 2],
    draws: Draws,
    /// The link of the last frame.
    id: Option<LinkId>,
    /// Whether the rows of the state table are noted that the stack is asked for.
    pub is_noting: bool,
    pub rows: AskedRows,
}

fn params(own: Own) -> Params {
    let k = match own.planted {
        Planted::Window(k) => k,
        _ if own.is_primary => 7,
        _ => 1,
    };
    let n200 = match own.planted {
        Planted::N200(n200) => n200,
        _ => 3,
    };
    Params::new(k, n200, 512).unwrap_or(Params::primary())
}

fn durations(own: Own) -> Durations {
    let made = match own.planted {
        Planted::T200(t200) => Durations::new(t200, 1_000, 2_000, 10_000),
        Planted::T203(t203) => Durations::new(1_000, 1_000, 2_000, t203),
        _ => None,
    };
    made.unwrap_or(Durations::standard())
}

fn made_side(alloc: Global, own: Own, seed: u64) -> Result<EitherSide, AllocError> {
    let config = Config {
        params0: params(own),
        durations: durations(own),
        ..Config::basic(seed)
    };
    match own.side {
        Side::Network => Ok(EitherSide::Network(made_network(alloc, own, config)?)),
        Side::User => {
            let fixed = if own.is_primary {
                Some(first_tei())
            } else {
                None
            };
            Ok(EitherSide::User(UserSide::new(alloc, config, fixed)?))
        }
    }
}

fn made_network(alloc: Global, own: Own, config: Config) -> Result<NetSide, AllocError> {
    if own.is_primary {
        NetSide::new(alloc, config, &[first_tei()])
    } else {
        NetSide::new(alloc, config, &[])
    }
}

fn first_tei() -> Tei
    ensures { result ≡ 0 }
{
    Tei::new(0).unwrap()
}

impl OwnStation {
    pub(crate) fn new(alloc: Global, own: Own) -> Result<OwnStation, AllocError> {
        let side = made_side(alloc, own, 1)?;
        let acts = Acts::new(alloc)?;
        Ok(OwnStation {
            alloc,
            own,
            side,
            acts,
            now: 0,
            ready: u64::from(own.idle),
            to_stack: Vec::new(alloc),
            from_stack: Vec::new(alloc),
            last: [0, 0],
            draws: Draws::new(921),
            id: None,
            is_noting: false,
            rows: AskedRows::new(),
        })
    }

    /// The moment at which a frame arrives that is sent now, after those before it.
    fn arrival(&mut self, way: usize) -> u64 {
        let delay = u64::from(self.draws.below(self.own.delay.saturating_add(1)));
        let at = self.now.saturating_add(delay);
        if way == 0 {
            self.last[0] = at.max(self.last[0]).max(self.ready);
            self.last[0]
        } else {
            self.last[1] = at.max(self.last[1]);
            self.last[1]
        }
    }

    /// Sends the frames of the last call, with the fault.
    fn forward(&mut self) -> Result<(), AllocError> {
        for place in 0..self.acts.frames().len() {
            let mut octets = Vec::new(self.alloc);
            if let Some(frame) = self.acts.frames().get(place) {
                octets.extend_from_slice(frame.as_slice())?;
            }
            self.emit(octets)?;
        }
        Ok(())
    }

    fn emit(&mut self, mut octets: Vec<u8>) -> Result<(), AllocError> {
        distort(self.own.planted, &mut octets);
        let third = third_of(octets.as_slice());
        if self.own.planted == Planted::Mute(third) {
            return Ok(());
        }
        if self.own.planted == Planted::Twice(third) {
            let twin = octets.clone()?;
            self.carry(twin)?;
        }
        self.carry(octets)
    }

    fn carry(&mut self, octets: Vec<u8>) -> Result<(), AllocError> {
        let at = self.arrival(1);
        self.from_stack.push(Transit { at, octets })?;
        Ok(())
    }

    /// Runs one step of the stack that is due now. Returns `false` if none is.
    fn run_due(&mut self) -> Result<bool, AllocError> {
        let now = self.now;
        if let Some(transit) = take_due(&mut self.to_stack, now) {
            self.take(transit.octets.as_slice())?;
            return Ok(true);
        }
        if self.is_noting {
            self.note_expiry();
        }
        if self.side.tick(self.now, &mut self.acts) {
            self.forward()?;
            return Ok(true);
        }
        Ok(false)
    }

    fn take(&mut self, octets: &[u8]) -> Result<(), AllocError> {
        if self.own.planted == Planted::Deaf(third_of(octets)) {
            return Ok(());
        }
        if self.is_noting {
            self.note_octets(octets);
        }
        let taken = self.side.take(octets, self.now, &mut self.acts);
        if taken.is_ok() {
            self.forward()?;
        }
        Ok(())
    }

    /// Notes the row of octets of the tester.
    fn note_octets(&mut self, octets: &[u8]) {
        match lapd_frame::read(octets, self.own.side.other()) {
            Ok(frame) => {
                if note_frame(&self.side, &mut self.rows, &frame) {
                    self.id = Some(LinkId::of_address(&frame.address()));
                }
            }
            Err(fault) if fault.kind.is_for_link() => self.note_fault(),
            Err(_) => {}
        }
    }

    /// Notes the row of a frame that is not valid, for the link of the last frame.
    fn note_fault(&mut self) {
        if let Some(id) = &self.id {
            note_fault(&self.side, &mut self.rows, id);
        }
    }

    /// Notes the row of a timer of the link that is due.
    fn note_expiry(&mut self) {
        if let Some(id) = &self.id {
            note_expiry(&self.side, &mut self.rows, id, self.now);
        }
    }

    /// Runs all steps that are due now.
    fn run_all(&mut self) -> Result<(), AllocError> {
        for _turn in 0..MOST_MOMENTS {
            if !self.run_due()? {
                return Ok(());
            }
        }
        Ok(())
    }

    /// The next moment at which something happens, at most this one.
    fn next_moment(&self, until: u64) -> u64 {
        let mut next = until;
        if let Some(transit) = self.to_stack.first() {
            next = next.min(transit.at);
        }
        if let Some(transit) = self.from_stack.first() {
            next = next.min(transit.at);
        }
        if let Some(deadline) = self.side.next_deadline() {
            next = next.min(deadline);
        }
        next.max(self.now)
    }

    fn wait(&mut self, until: u64, octets: &mut Vec<u8>) -> Result<bool, AllocError> {
        for _turn in 0..MOST_MOMENTS {
            self.run_all()?;
            let now = self.now;
            if let Some(transit) = take_due(&mut self.from_stack, now) {
                octets.extend_from_slice(transit.octets.as_slice())?;
                return Ok(true);
            }
            if self.now >= until {
                return Ok(false);
            }
            self.now = self.next_moment(until);
        }
        Ok(false)
    }

    fn execute(&mut self, asked: Asked, tei: u16) -> Result<(), AllocError> {
        self.run_all()?;
        let request = requested(self.alloc, asked, link_id(tei))?;
        if self.is_noting {
            note_request(&self.side, &mut self.rows, &link_id(tei), &request);
        }
        let done = self.side.request(request, self.now, &mut self.acts);
        if done.is_ok() {
            self.forward()?;
        }
        Ok(())
    }

    fn renew(&mut self) -> Result<(), AllocError> {
        let side = made_side(self.alloc, self.own, self.now)?;
        self.side = side;
        self.ready = self.now.saturating_add(u64::from(self.own.idle));
        self.to_stack.clear();
        self.from_stack.clear();
        Ok(())
    }
}

/// Removes the first frame, if it is due.
fn take_due(frames: &mut Vec<Transit>, now: u64) -> Option<Transit> {
    let at = match frames.first() {
        Some(transit) => transit.at,
        None => return None,
    };
    if at > now || frames.is_empty() {
        return None;
    }
    Some(frames.remove(0))
}

fn requested(alloc: Global, asked: Asked, id: LinkId) -> Result<Request, AllocError> {
    let request = match asked {
        Asked::Establish => Request::Establish(id),
        Asked::Release => Request::Release(id),
        Asked::Give => Request::Give(id, Vec::from_slice(alloc, &[1, 2])?),
        Asked::Unit => Request::Unit(id, Vec::from_slice(alloc, &[8, 1])?),
        Asked::Busy => Request::Busy(id, true),
        Asked::Ready => Request::Busy(id, false),
        Asked::Ask => Request::AskTei,
        Asked::Check => Request::Check(id.tei),
        Asked::Remove => Request::Remove(id.tei),
    };
    Ok(request)
}

fn third_of(octets: &[u8]) -> u8 {
    match octets {
        [_, _, third, ..] => *third,
        _ => 0xff,
    }
}

/// Makes a frame of the stack wrong.
fn distort(planted: Planted, octets: &mut Vec<u8>) {
    if octets.len() < 3 || octets[0] / 4 == 63 {
        return;
    }
    let third = octets[2];
    let is_supervisory = octets.len() == 4 && third % 4 == 1;
    match planted {
        Planted::Wrong(from, to) if third == from => octets[2] = to,
        Planted::WrongFinal if is_supervisory => octets[3] ^= 1,
        Planted::WrongNumber if is_supervisory => octets[3] = octets[3].wrapping_add(2),
        Planted::WrongMessageNumber if third % 2 == 0 && octets.len() > 3 => octets[3] =
            octets[3].wrapping_add(2),
        Planted::WrongRole if is_supervisory => octets[0] ^= 2,
        _ => {}
    }
}

impl Station for OwnStation {
    fn now(&self) -> u64 {
        self.now
    }

    fn send(&mut self, octets: &[u8]) -> Result<(), Lost> {
        let at = self.arrival(0);
        let octets = match Vec::from_slice(self.alloc, octets) {
            Ok(octets) => octets,
            Err(_) => return Err(Lost::Memory),
        };
        match self.to_stack.push(Transit { at, octets }) {
            Ok(()) => Ok(()),
            Err(_) => Err(Lost::Memory),
        }
    }

    fn receive(&mut self, until: u64, octets: &mut Vec<u8>) -> Result<bool, Lost> {
        match self.wait(until, octets) {
            Ok(received) => Ok(received),
            Err(_) => Err(Lost::Memory),
        }
    }

    fn request(&mut self, asked: Asked, tei: u16) -> Result<(), Lost> {
        match self.execute(asked, tei) {
            Ok(()) => Ok(()),
            Err(_) => Err(Lost::Memory),
        }
    }

    fn restart(&mut self) -> Result<bool, Lost> {
        if self.own.is_kept {
            return Ok(false);
        }
        match self.renew() {
            Ok(()) => Ok(true),
            Err(_) => Err(Lost::Memory),
        }
    }

    fn lateness(&self) -> u64 {
        0
    }
}

/// The link of calls with this TEI.
fn link_id(tei: u16) -> LinkId {
    LinkId {
        tei: Tei::new((tei % 128) as u8).unwrap_or(Tei::group()),
        sapi: Sapi::Call,
    }
}

/// Notes the row of a frame, if the side has its link.
fn note_frame(side: &EitherSide, rows: &mut AskedRows, frame: &Frame<'_>) -> bool {
    match side.table().link(LinkId::of_address(&frame.address())) {
        Some(link) => {
            rows.note_frame(link, frame);
            true
        }
        None => false,
    }
}

fn note_fault(side: &EitherSide, rows: &mut AskedRows, id: &LinkId) {
    if let Some(link) = side.table().link(*id) {
        rows.note_fault(link);
    }
}

fn note_request(side: &EitherSide, rows: &mut AskedRows, id: &LinkId, request: &Request) {
    if let Some(link) = side.table().link(*id) {
        rows.note_request(link, request);
    }
}

/// Notes the row of T200 or T203 of this link, if it is due.
fn note_expiry(side: &EitherSide, rows: &mut AskedRows, id: &LinkId, now: u64) {
    if let Some(timer) = due_timer(side, id, now)
        && let Some(link) = side.table().link(*id)
    {
        rows.note_expiry(link, timer);
    }
}

fn due_timer(side: &EitherSide, id: &LinkId, now: u64) -> Option<Timer> {
    match side.timers(Some(*id)) {
        Some(timers) => match timers.due(now) {
            Some(Timer::T200) => Some(Timer::T200),
            Some(Timer::T203) => Some(Timer::T203),
            _ => None,
        },
        None => None,
    }
}
