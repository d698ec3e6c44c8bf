// The causes by number, and how a cause and a fault are printed.
ghost use Rattle.std.specs.Prelude.{◌≡◌, ◌++◌, Some, codes, decimal};
ghost use Rattle.station.specs.Refusal.{number_of};
ghost use Rattle.station.specs.Types.{refusal_in};
ghost use Rattle.station.specs.ReadHead.{fault};

use crate::types::{Fault, Refusal};
use std::error::Error;
use std::fmt;

// The paper's number of a cause.
impl From<Refusal> for u8 {
    ghost from_gives = { λ cause n. n ≡ number_of (refusal_in cause) };

    fn from(cause: Refusal) -> u8 {
        match cause {
            Refusal::NoForm => 1,
            Refusal::OutOfLimits => 2,
            Refusal::OutOfPlace => 3,
            Refusal::NumberUsed => 4,
            Refusal::MandatoryNotFeasible => 5,
            Refusal::ClockBack => 6,
            Refusal::CallNotFeasible => 7,
            Refusal::TooShort => 8,
            Refusal::TooMany => 9,
            Refusal::TextTooLong => 10,
            Refusal::NotWellFormed => 11,
            Refusal::NoRow => 12,
        }
    }
}

impl Refusal {
    // The cause at a line.
    pub fn at(self, line: usize) -> Fault
        ensures { result ≡ fault line self }
    {
        Fault { line, cause: self }
    }
}

// A cause that is met before any line is read stands at line 0.
impl From<Refusal> for Fault {
    ghost from_gives = { λ cause f. f ≡ fault 0 cause };

    fn from(cause: Refusal) -> Fault {
        cause.at(0)
    }
}

impl fmt::Display for Refusal {
    ghost output = { λ cause. Some (decimal (number_of (refusal_in cause))) };

    fn fmt<W: fmt::Write>(&self, f: &mut fmt::Formatter<W>) -> fmt::Result {
        let number = u8::from(*self);
        write!(f, "{number}")
    }
}

// As the listing has it, `(refused LINE NUMBER)`.
impl fmt::Display for Fault {
    ghost output = { λ f. Some (codes "(refused " ++ decimal f.line ++ codes " "
        ++ decimal (number_of (refusal_in f.cause)) ++ codes ")") };

    fn fmt<W: fmt::Write>(&self, f: &mut fmt::Formatter<W>) -> fmt::Result {
        write!(f, "(refused {} {})", self.line, self.cause)
    }
}

impl Error for Refusal {}

impl Error for Fault {}

// The paper's number of a cause, as a function: it stays beside `u8::from`, since pages name it.
pub fn cause_number(cause: Refusal) -> u8
    ensures { result ≡ number_of (refusal_in cause) }
{
    u8::from(cause)
}
