//! The values of numbers and times in a case.

use crate::spelled::GROUP;
use crate::stack::Stack;
use lapd_conform_suite::{Base, Choice, Number, Span, TimeUnit, Value};
use lapd_frame::{Address, N201, Role, Sapi, Side, Tei};
use lapd_timers::Timer;

/// The values that the names of a case have.
#[derive(Clone, Copy)]
pub(crate) struct Values {
    pub stack: Stack,
    /// The TEI of the link; 127 while it is not known.
    pub tei: u8,
    /// The number of repetitions before.
    pub turn: u16,
    a: u16,
    q: u16,
    r: u16,
}

impl Values {
    /// The values before a case.
    pub fn new(stack: Stack, tei: u8) -> Values {
        Values {
            stack,
            tei,
            turn: 0,
            a: 0,
            q: 0,
            r: 0,
        }
    }

    /// The TEI of the link, if it is known.
    pub fn known_tei(&self) -> Option<u8> {
        if self.tei == GROUP {
            None
        } else {
            Some(self.tei)
        }
    }

    /// The side of the tester.
    pub fn tester(&self) -> Side {
        self.stack.side.other()
    }

    /// An address as the tester sends it (Q.921 3.3). The SAPI may be any number, modulo 64.
    pub fn address(&self, role: Role, sapi: u8, tei: u8) -> [u8; 2] {
        let address = Address {
            sapi: Sapi::Call,
            tei: Tei::new(tei % 128).unwrap(),
            role,
        };
        let [first, second] = address.write(self.tester());
        [first | (sapi % 64 * 4), second]
    }

    /// The value of a number.
    pub fn number(&self, number: Number) -> u16 {
        match number.base {
            Some(base) => self.base(base).wrapping_add(number.plus),
            None => number.plus,
        }
    }

    fn base(&self, base: Base) -> u16 {
        match base {
            Base::Window => u16::from(self.stack.k),
            Base::N200 => u16::from(self.stack.n200),
            Base::N201 => N201 as u16,
            Base::LastRequests => u16::from(self.stack.n202.saturating_sub(1)),
            Base::N202 => u16::from(self.stack.n202),
            Base::Turn => self.turn,
            Base::ValueA => self.a,
            Base::ValueQ => self.q,
            Base::ValueR => self.r,
        }
    }

    /// The value of a field of a frame that is sent. A field that is left out has this value.
    pub fn field(&self, value: Value, left_out: u16) -> u16 {
        match value {
            Value::Is(number) => self.number(number),
            Value::LeftOut | Value::Choice(_) => left_out,
        }
    }

    /// The length of a time, in milliseconds.
    pub fn span(&self, span: Span) -> u64 {
        let amount = u64::from(span.amount);
        match span.unit {
            TimeUnit::Milliseconds => amount,
            TimeUnit::PercentOfT200 => self.part(Timer::T200, amount),
            TimeUnit::PercentOfT201 => self.part(Timer::T201, amount),
            TimeUnit::PercentOfT202 => self.part(Timer::T202, amount),
            TimeUnit::PercentOfT203 => self.part(Timer::T203, amount),
        }
    }

    fn part(&self, timer: Timer, percent: u64) -> u64 {
        self.stack.duration(timer).saturating_mul(percent) / 100
    }

    /// Whether a field of a frame that was received has the value that is expected. It counts modulo
    /// `modulus`. A value that is to be kept is kept.
    pub fn fits(&mut self, value: Value, seen: u16, modulus: u16) -> bool {
        match value {
            Value::LeftOut => true,
            Value::Is(number) => {
                self.number(number)
                    .checked_rem(modulus)
                    .unwrap_or(self.number(number))
                    == seen
            }
            Value::Choice(choice) => self.fits_choice(choice, seen),
        }
    }

    fn fits_choice(&mut self, choice: Choice, seen: u16) -> bool {
        match choice {
            Choice::Any => {}
            Choice::KeepA => self.a = seen,
            Choice::KeepQ => self.q = seen,
            Choice::KeepR => self.r = seen,
            Choice::Automatic => return 64 <= seen && seen <= 126,
            Choice::Requested => return 64 <= seen && seen <= 127,
            Choice::UnlikeA => return seen != self.a,
            Choice::UnlikeQ => return seen != self.q,
            Choice::UnlikeR => return seen != self.r,
        }
        true
    }
}
