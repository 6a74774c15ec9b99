// The table of smallest samples that accept no bad item, worked out.
ghost use Rattle.std.specs.Prelude.{IfOk};
ghost use Rattle.tables.specs.Rows.{SampleWorked};

use crate::judging::{LIMIT, Verdict, judge, rest, same};
use crate::places::{Decimal, Places, Range, Units};
use crate::published::SampleRow;
use crate::refusal::Refusal;
use crate::single::enclose;
use draws::rule::WithoutReplacement;
use sampling::chance::{CELLS, Ends};
use sampling::smallest::smallest;
use std::fmt;

const POPULATION: u32 = 1066;

const PLACES: Places = Places::Nine;

// A row with the sample found, the enclosure of the chance to pass at the published sample, and what they say of the row.
#[derive(Clone, Copy)]
pub struct WorkedSample {
    row: SampleRow,
    sample: u32,
    passing: Ends,
    pub verdict: Verdict,
}

// Looks for the smallest sample, and holds the row against it and against the confidence.
pub fn work_sample(row: SampleRow) -> Result<WorkedSample, Refusal>
    ensures { IfOk result (λ worked. SampleWorked row worked) }
{
    let rule = WithoutReplacement;
    let mut low = [0; CELLS];
    let mut high = [0; CELLS];
    let sample = smallest(&rule, POPULATION, row.bad, LIMIT, 0, &mut low, &mut high)?;
    let passing = enclose(&rule, POPULATION, row.bad, row.sample, 0)?;
    let confidence = judge(PLACES.scale(), row.confidence, rest(passing));
    Ok(WorkedSample {
        row,
        sample,
        passing,
        verdict: same(sample, row.sample).and(confidence),
    })
}

impl fmt::Display for WorkedSample {
    fn fmt<W: fmt::Write>(&self, f: &mut fmt::Formatter<W>) -> fmt::Result {
        let SampleRow {
            bad,
            sample,
            confidence,
        } = self.row;
        let found = self.sample;
        let published = Decimal {
            parts: confidence as u128,
            places: PLACES,
        };
        let ours = Range {
            ends: rest(self.passing),
            places: PLACES,
        };
        let passing = Units(self.passing);
        let verdict = self.verdict;
        write!(f, "{bad} bad: sample {sample}, ours {found}; ")?;
        write!(f, "confidence {published}, ours {ours}; ")?;
        write!(f, "chance {passing}: {verdict}")
    }
}
