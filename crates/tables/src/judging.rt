// How enclosures are held against what was published.
ghost use Rattle.std.specs.Prelude.{◌≡◌};
ghost use Rattle.plans.specs.Working.{whole};
ghost use Rattle.tables.specs.Figures.{rounded};
ghost use Rattle.tables.specs.Verdicts.{Chosen, Judges, Rests, joined, one_if_agree, same_number};

use sampling::chance::Ends;
use sampling::limit::{WHOLE, within};
use std::fmt;

// Both tables let a bad lot pass at most 5% of the time, in millionths.
pub const LIMIT: u32 = 50_000;

// In the order in which one outweighs another.
#[derive(Clone, Copy, PartialEq, Eq, PartialOrd, Ord, Debug)]
pub enum Verdict {
    Agree,
    // the enclosure has shares of either kind
    Undecided,
    Differs,
}

impl Verdict {
    // How many agreeing rows it stands for.
    pub fn agreeing(self) -> u32
        ensures { result ≡ one_if_agree self }
    {
        u32::from(self == Verdict::Agree)
    }

    // What is said of two things asked of one row.
    pub fn and(self, second: Verdict) -> Verdict
        ensures { result ≡ joined self second }
    {
        self.max(second)
    }
}

impl fmt::Display for Verdict {
    fn fmt<W: fmt::Write>(&self, f: &mut fmt::Formatter<W>) -> fmt::Result {
        match self {
            Verdict::Agree => write!(f, "agree"),
            Verdict::Differs => write!(f, "differs"),
            Verdict::Undecided => write!(f, "undecided"),
        }
    }
}

// Units in parts of 1 / scale, rounded half up. In 128 bits, where no product wraps.
pub fn figure(scale: u32, units: u64) -> u128
    ensures { result ≡ rounded scale units whole }
{
    (2 * units as u128 * scale as u128 + WHOLE as u128) / (2 * WHOLE as u128)
}

// Whether what lies between the ends has the published figure.
pub fn judge(scale: u32, published: u32, ends: Ends) -> Verdict
    ensures { Judges scale published ends.lo ends.hi result }
{
    let published = published as u128;
    let low = figure(scale, ends.lo);
    let high = figure(scale, ends.hi);
    if low == published && high == published {
        Verdict::Agree
    } else if published < low || high < published {
        Verdict::Differs
    } else {
        Verdict::Undecided
    }
}

// Whether a number is the published one.
pub fn same(found: u32, published: u32) -> Verdict
    ensures { result ≡ same_number found published }
{
    if found == published {
        Verdict::Agree
    } else {
        Verdict::Differs
    }
}

// The enclosure of what is left of a whole.
pub fn rest(ends: Ends) -> Ends
    ensures { Rests ends result }
{
    Ends {
        lo: WHOLE.saturating_sub(ends.hi),
        hi: WHOLE.saturating_sub(ends.lo),
    }
}

// Whether an accept number is the greatest that keeps the limit, by the enclosures at it and at the next.
pub fn greatest(limit: u32, at: Ends, next: Ends) -> Verdict
    ensures { Chosen limit at next result }
{
    if within(limit, at.hi) && !within(limit, next.lo) {
        Verdict::Agree
    } else if !within(limit, at.lo) || within(limit, next.hi) {
        Verdict::Differs
    } else {
        Verdict::Undecided
    }
}
