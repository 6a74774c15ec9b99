// The smallest single sample that keeps a limit.
ghost use Rattle.std.specs.Prelude.{◌-◌, length};
ghost use Rattle.film.specs.Refusals.{reading};
ghost use Rattle.plans.specs.ChanceFaults.{chance_refusal};
ghost use Rattle.sampling.specs.Searches.{Searchable, Searches, Smallests};

use crate::checks::{check_reel, check_rows, no_limit, no_tolerance};
use crate::draw::Drawing;
use crate::limit::{WHOLE, within};
use crate::rows::{start, total};
use draws::rule::DrawRule;
use plans::fault::ChanceFault;

// The size of the smallest sample that, with `tolerance` bad frames in the reel, has at most `accept` bad frames in no more
// than `limit` millionths of what the rule may draw. The rows are worked in.
pub fn smallest<R: DrawRule>(
    rule: &R,
    reel: u32,
    tolerance: u32,
    limit: u32,
    accept: u32,
    low: &mut [u64],
    high: &mut [u64],
) -> Result<u32, ChanceFault>
    ensures { Smallests (R.DrawRule.meaning rule.now) reel tolerance limit accept low.old high.old low.new high.new (reading chance_refusal result) }
{
    check_reel(reel)?;
    if no_tolerance(reel, tolerance) {
        return Err(ChanceFault::BadFrames(tolerance));
    }
    if no_limit(limit) {
        return Err(ChanceFault::Limit(limit));
    }
    if accept > 255 {
        return Err(ChanceFault::Accept(accept));
    }
    let cells = accept + 1;
    check_rows(cells, low, high)?;
    let drawing = Drawing {
        frames: reel,
        bad: tolerance,
    };
    let cells = cells as usize;
    drawing.search(rule, limit, &mut low[..cells], &mut high[..cells])
}

impl Drawing {
    // Tries one size after the other; the rows are carried on from each to the next.
    fn search<R: DrawRule>(
        self,
        rule: &R,
        limit: u32,
        low: &mut [u64],
        high: &mut [u64],
    ) -> Result<u32, ChanceFault>
        requires { Searchable limit low.old high.old }
        ensures { Searches (R.DrawRule.meaning rule.now) self.frames self.bad limit (length low.old - 1) low.new high.new (reading chance_refusal result) }
    {
        start(low);
        start(high);
        let last = rule.longest(self.frames).min(32_768);
        // the low end at the size before, by which that may have been large enough; with nothing drawn a PASS is certain
        let mut before = WHOLE;
        for drawn in 0..last {
            self.draw(rule, drawn, low, high);
            if within(limit, total(high).min(WHOLE)) {
                if within(limit, before) {
                    return Err(ChanceFault::Undecided(drawn));
                }
                return Ok(drawn + 1);
            }
            before = total(low);
        }
        if within(limit, before) {
            return Err(ChanceFault::Undecided(last));
        }
        Err(ChanceFault::NoSample(last))
    }
}
