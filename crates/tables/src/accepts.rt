// The table of greatest accept numbers, worked out.
ghost use Rattle.std.specs.Prelude.{IfOk};
ghost use Rattle.tables.specs.Rows.{AcceptWorked};

use crate::judging::{LIMIT, Verdict, greatest, judge};
use crate::places::{Decimal, Places, Range, Units};
use crate::published::AcceptRow;
use crate::refusal::Refusal;
use crate::single::enclose;
use draws::rule::WithReplacement;
use sampling::chance::Ends;
use std::fmt;

const LOT: u32 = 1_000_000;

// A lot with so many bad items may pass at most 5% of the time.
const TOO_MANY: u32 = 1000;

const PLACES: Places = Places::Four;

// A row with the enclosures of the chance that the bad lot passes, at the accept number and at the next, that of a lot of the
// row's own quality, and what they say of the row.
#[derive(Clone, Copy)]
pub struct WorkedAccept {
    row: AcceptRow,
    at: Ends,
    next: Ends,
    greatest: Verdict,
    passing: Ends,
    pub verdict: Verdict,
}

// Holds the row against the chances of the bad lot and of its own.
pub fn work_accept(row: AcceptRow) -> Result<WorkedAccept, Refusal>
    ensures { IfOk result (λ worked. AcceptWorked row worked) }
{
    let rule = WithReplacement;
    let accept = row.accept as u32;
    let at = enclose(&rule, LOT, TOO_MANY, row.sample, accept)?;
    let next = enclose(&rule, LOT, TOO_MANY, row.sample, accept + 1)?;
    let passing = enclose(&rule, LOT, row.quality, row.sample, accept)?;
    let chosen = greatest(LIMIT, at, next);
    let probability = judge(PLACES.scale(), row.probability, passing);
    Ok(WorkedAccept {
        row,
        at,
        next,
        greatest: chosen,
        passing,
        verdict: chosen.and(probability),
    })
}

impl fmt::Display for WorkedAccept {
    fn fmt<W: fmt::Write>(&self, f: &mut fmt::Formatter<W>) -> fmt::Result {
        let AcceptRow {
            quality,
            sample,
            accept,
            probability,
        } = self.row;
        let published = Decimal {
            parts: probability as u128,
            places: PLACES,
        };
        let ours = Range {
            ends: self.passing,
            places: PLACES,
        };
        let passing = Units(self.passing);
        let verdict = self.verdict;
        write!(
            f,
            "{quality} per million, sample {sample}, accept {accept} "
        )?;
        self.write_greatest(f)?;
        write!(f, "probability {published}, ours {ours}; ")?;
        write!(f, "chance {passing}: {verdict}")
    }
}

impl WorkedAccept {
    fn write_greatest<W: fmt::Write>(&self, f: &mut fmt::Formatter<W>) -> fmt::Result {
        let shown = match self.greatest {
            Verdict::Agree => "greatest",
            Verdict::Differs => "not greatest",
            Verdict::Undecided => "not shown greatest",
        };
        let at = Units(self.at);
        let next = Units(self.next);
        write!(f, "{shown}, bad lot {at}, with one more {next}; ")
    }
}
