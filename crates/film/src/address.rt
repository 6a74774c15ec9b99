// An address as it is written, and why one is refused.
ghost use Rattle.std.specs.Prelude.{Some};
ghost use Rattle.film.specs.Faults.{refusal_of};
ghost use Rattle.film.specs.Refusals.{refusal_text};

use crate::fault::{Fault, Printed};
use std::fmt;

// A whole unit (a foot of film, a second of timecode) and a part of it, counted from 0.
#[derive(Clone, Copy, PartialEq, Eq, Debug)]
pub struct Address {
    pub whole: u32,
    pub part: u32,
}

#[derive(Clone, Copy, PartialEq, Eq, Debug)]
pub enum AddressFault {
    // the unit has no such part
    NoSuchPart,
    // the frame lies past the reel's end, or past the scheme's reach
    OffReel,
}

impl Fault for AddressFault {
    ghost refusal = { refusal_of };

    fn number(&self) -> u32 {
        match self {
            AddressFault::NoSuchPart => 11,
            AddressFault::OffReel => 12,
        }
    }

    fn place(&self) -> u32 {
        match self {
            AddressFault::NoSuchPart => 2,
            AddressFault::OffReel => 1,
        }
    }

    fn layers(&self) -> &'static str {
        "A"
    }
}

impl fmt::Display for AddressFault {
    ghost output = { λ fault. Some (refusal_text (refusal_of fault)) };

    fn fmt<W: fmt::Write>(&self, f: &mut fmt::Formatter<W>) -> fmt::Result {
        write!(f, "{}", Printed(self))
    }
}
