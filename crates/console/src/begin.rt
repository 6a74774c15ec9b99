// Makes a plan, certifies it and opens an inspection on it.
ghost use Rattle.std.specs.Prelude.{◌≡◌, length};
ghost use Rattle.console.specs.Begins.{Begins, BeginsWith, LeavesRows, begin_reading};

use crate::fault::ConsoleFault;
use draws::entry::Entry;
use draws::rule::DrawRule;
use inspection::calls::{Inspection, open};
use plans::plan::make::make;
use sampling::certified::certify::certify;

// A reel to be inspected, and what is asked of the inspection.
#[derive(Clone, Copy)]
pub struct Terms {
    // the reel's number
    pub number: u32,
    // how many frames it has
    pub reel: u32,
    pub n1: u32,
    pub ac1: u32,
    pub re1: u32,
    pub n2: u32,
    pub ac2: u32,
    // the smallest number of bad frames that is too many
    pub tolerance: u32,
    // the largest share of false passes, in millionths
    pub limit: u32,
}

pub fn begin<R: DrawRule + Drop>(
    rule: R,
    terms: Terms,
    low: &mut [u64],
    high: &mut [u64],
    table: &mut [Entry],
) -> Result<Inspection<R>, ConsoleFault>
    ensures answer { Begins (R.DrawRule.meaning rule) terms (length low.old) (length high.old) table.old (begin_reading result) table.new }
    ensures rows { LeavesRows (R.DrawRule.meaning rule) terms low.old high.old low.new high.new }
    ensures kept { BeginsWith result rule }
{
    let plan = make(terms.n1, terms.ac1, terms.re1, terms.n2, terms.ac2)?;
    let certified = certify(
        rule,
        terms.reel,
        terms.tolerance,
        terms.limit,
        plan,
        low,
        high,
    )?;
    Ok(open(terms.number, certified, table)?)
}
