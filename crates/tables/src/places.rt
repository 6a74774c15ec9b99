// How figures and enclosures are printed.
ghost use Rattle.std.specs.Prelude.{◌≡◌, ◌<◌};
ghost use Rattle.tables.specs.Figures.{scale_of};

use crate::judging::figure;
use sampling::chance::Ends;
use std::fmt;

// How many places behind the point a table has.
#[derive(Clone, Copy, PartialEq, Eq, Debug)]
pub enum Places {
    Four,
    Nine,
}

impl Places {
    pub fn scale(self) -> u32
        ensures value { result ≡ scale_of self }
        ensures nonzero { 0 < result }
    {
        match self {
            Places::Four => 10_000,
            Places::Nine => 1_000_000_000,
        }
    }

    fn width(self) -> usize {
        match self {
            Places::Four => 4,
            Places::Nine => 9,
        }
    }
}

// A figure in parts of 1 / scale.
#[derive(Clone, Copy)]
pub struct Decimal {
    pub parts: u128,
    pub places: Places,
}

impl fmt::Display for Decimal {
    fn fmt<W: fmt::Write>(&self, f: &mut fmt::Formatter<W>) -> fmt::Result {
        let scale = self.places.scale() as u128;
        let width = self.places.width();
        let whole = self.parts / scale;
        let rest = self.parts % scale;
        write!(f, "{whole}.{rest:0width$}")
    }
}

// The figures of an enclosure: one where both ends have the same, else those of the two ends.
#[derive(Clone, Copy)]
pub struct Range {
    pub ends: Ends,
    pub places: Places,
}

impl Range {
    fn decimal(&self, units: u64) -> Decimal {
        Decimal {
            parts: figure(self.places.scale(), units),
            places: self.places,
        }
    }
}

impl fmt::Display for Range {
    fn fmt<W: fmt::Write>(&self, f: &mut fmt::Formatter<W>) -> fmt::Result {
        let low = self.decimal(self.ends.lo);
        let high = self.decimal(self.ends.hi);
        if low.parts == high.parts {
            write!(f, "{low}")
        } else {
            write!(f, "{low} to {high}")
        }
    }
}

// The two ends, in units.
#[derive(Clone, Copy)]
pub struct Units(pub Ends);

impl fmt::Display for Units {
    fn fmt<W: fmt::Write>(&self, f: &mut fmt::Formatter<W>) -> fmt::Result {
        let Ends { lo, hi } = self.0;
        write!(f, "{lo} to {hi}")
    }
}
