// Why a chance is not worked out, and why a plan is refused.
ghost use Rattle.std.specs.Prelude.{◌≡◌, Some};
ghost use Rattle.film.specs.Refusals.{refusal_text};
ghost use Rattle.plans.specs.ChanceFaults.{chance_refusal};
ghost use Rattle.plans.specs.Faults.{plan_refusal};
ghost use Rattle.plans.specs.declared.fault.PlanFault.TheVariants.{Chance};

use film::fault::{Fault, Printed};
use std::fmt;

#[derive(Clone, Copy, PartialEq, Eq, Debug)]
pub enum ChanceFault {
    // the reel has no frame, or more than 1,000,000
    ReelSize,
    // more bad frames than the reel has, or none where some are meant
    BadFrames(u32),
    // a row has fewer cells than are worked in
    ShortRow(u32),
    // the rule draws no list of so many frames
    TooManyDraws(u32),
    // more than 255 bad frames would pass
    Accept(u32),
    // the limit is not 1 to 999,999 millionths
    Limit(u32),
    // the sample may be large enough, and the enclosure is too wide to tell
    Undecided(u32),
    // not even the largest sample keeps the limit
    NoSample(u32),
}

impl Fault for ChanceFault {
    ghost refusal = { chance_refusal };

    fn number(&self) -> u32 {
        match self {
            ChanceFault::ReelSize => 21,
            ChanceFault::BadFrames(_) => 22,
            ChanceFault::ShortRow(_) => 23,
            ChanceFault::TooManyDraws(_) => 24,
            ChanceFault::Accept(_) => 25,
            ChanceFault::Limit(_) => 26,
            ChanceFault::Undecided(_) => 27,
            ChanceFault::NoSample(_) => 28,
        }
    }

    fn place(&self) -> u32 {
        match self {
            ChanceFault::ReelSize => 0,
            ChanceFault::BadFrames(n)
            | ChanceFault::ShortRow(n)
            | ChanceFault::TooManyDraws(n)
            | ChanceFault::Accept(n)
            | ChanceFault::Limit(n)
            | ChanceFault::Undecided(n)
            | ChanceFault::NoSample(n) => *n,
        }
    }

    fn layers(&self) -> &'static str {
        "R"
    }
}

impl fmt::Display for ChanceFault {
    ghost output = { λ fault. Some (refusal_text (chance_refusal fault)) };

    fn fmt<W: fmt::Write>(&self, f: &mut fmt::Formatter<W>) -> fmt::Result {
        write!(f, "{}", Printed(self))
    }
}

#[derive(Clone, Copy, PartialEq, Eq, Debug)]
pub enum PlanFault {
    // no frame is drawn first, or more than 32,768 in all
    Size,
    // more than 255 bad frames would pass
    Accept,
    // the accept and reject numbers do not go together
    Disagree,
    // the tolerance is 0, or more than the reel's frames
    Tolerance(u32),
    // the limit is not 1 to 999,999 millionths
    Limit(u32),
    // the chance of PASS could not be worked out
    Chance(ChanceFault),
    // with so many bad frames the chance of PASS is above the limit
    TooRisky(u32),
    // with so many bad frames the chance of PASS is too close to the limit to tell
    TooClose(u32),
}

impl Fault for PlanFault {
    ghost refusal = { plan_refusal };

    fn number(&self) -> u32 {
        match self {
            PlanFault::Size => 31,
            PlanFault::Accept => 32,
            PlanFault::Disagree => 33,
            PlanFault::Tolerance(_) => 34,
            PlanFault::TooRisky(_) => 35,
            PlanFault::TooClose(_) => 36,
            PlanFault::Limit(_) => 37,
            PlanFault::Chance(fault) => fault.number(),
        }
    }

    fn place(&self) -> u32 {
        match self {
            PlanFault::Size => 1,
            PlanFault::Accept => 5,
            PlanFault::Disagree => 3,
            PlanFault::Tolerance(n)
            | PlanFault::Limit(n)
            | PlanFault::TooRisky(n)
            | PlanFault::TooClose(n) => *n,
            PlanFault::Chance(fault) => fault.place(),
        }
    }

    fn layers(&self) -> &'static str {
        match self {
            PlanFault::Chance(_) => "RP",
            _ => "P",
        }
    }
}

impl From<ChanceFault> for PlanFault {
    ghost from_gives = { λ fault r. r ≡ Chance fault };

    fn from(fault: ChanceFault) -> PlanFault {
        PlanFault::Chance(fault)
    }
}

impl fmt::Display for PlanFault {
    ghost output = { λ fault. Some (refusal_text (plan_refusal fault)) };

    fn fmt<W: fmt::Write>(&self, f: &mut fmt::Formatter<W>) -> fmt::Result {
        write!(f, "{}", Printed(self))
    }
}
