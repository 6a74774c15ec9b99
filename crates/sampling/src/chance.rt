// The chance that a plan passes a reel, enclosed between two ends.
ghost use Rattle.std.specs.Prelude.{◌≡◌, ◌+◌, ◌<◌, ◌≤◌, length};
ghost use Rattle.film.specs.Refusals.{reading};
ghost use Rattle.plans.specs.ChanceFaults.{chance_refusal};
ghost use Rattle.plans.specs.Makes.{numbers_of};
ghost use Rattle.sampling.specs.Chances.{Chances, Sampled, Works};
ghost use Rattle.sampling.specs.Rows.{Ready};

use crate::checks::{check_reel, check_rows};
use crate::draw::Drawing;
use crate::limit::WHOLE;
use crate::rows::{clear, start, total};
use draws::rule::DrawRule;
use plans::fault::ChanceFault;
use plans::plan::Plan;

// No plan accepts more than 255 bad frames, so no working needs more cells.
pub const CELLS: usize = 256;

// The exact chance lies between the two, in units of one part in 2^40.
#[derive(Clone, Copy, PartialEq, Eq, Debug)]
pub struct Ends {
    pub lo: u64,
    pub hi: u64,
}

// The enclosure of the chance that the plan passes a reel of `reel` frames of which `bad` are bad. It is worked out in
// the first cells of the two rows, one for each number of bad frames up to the plan's last accept number.
pub fn chance<R: DrawRule>(
    rule: &R,
    reel: u32,
    bad: u32,
    plan: Plan,
    low: &mut [u64],
    high: &mut [u64],
) -> Result<Ends, ChanceFault>
    ensures { Chances (R.DrawRule.meaning rule.now) reel bad (numbers_of plan) low.old high.old low.new high.new (reading chance_refusal result) }
{
    check_reel(reel)?;
    if bad > reel {
        return Err(ChanceFault::BadFrames(bad));
    }
    let draws = plan.n1() + plan.n2();
    if draws > rule.longest(reel) {
        return Err(ChanceFault::TooManyDraws(draws));
    }
    let cells = plan.ac2() + 1;
    check_rows(cells, low, high)?;
    let drawing = Drawing { frames: reel, bad };
    let cells = cells as usize;
    Ok(drawing.work(rule, plan, &mut low[..cells], &mut high[..cells]))
}

impl Drawing {
    // The first sample, and where the plan has one the second.
    fn work<R: DrawRule>(self, rule: &R, plan: Plan, low: &mut [u64], high: &mut [u64]) -> Ends
        requires room { plan.n1 + plan.n2 ≤ (R.DrawRule.meaning rule.now).longest self.frames }
        requires low_cells { length low.old ≡ plan.ac2 + 1 }
        requires high_cells { length high.old ≡ plan.ac2 + 1 }
        ensures { Works (R.DrawRule.meaning rule.now) self.frames self.bad (numbers_of plan) low.new high.new result }
    {
        let n1 = plan.n1();
        let ac1 = plan.ac1();
        let n2 = plan.n2();
        start(low);
        start(high);
        let first = self.sample(rule, 0, n1, ac1, low, high);
        if n2 == 0 {
            return Ends {
                lo: first.lo,
                hi: first.hi.min(WHOLE),
            };
        }
        let re1 = plan.re1();
        clear(low, ac1, re1);
        clear(high, ac1, re1);
        let second = self.sample(rule, n1, n2, plan.ac2(), low, high);
        Ends {
            lo: first.lo + second.lo,
            hi: (first.hi + second.hi).min(WHOLE),
        }
    }

    // One sample, drawn after `drawn` frames, and what the cells that it accepts add up to.
    fn sample<R: DrawRule>(
        self,
        rule: &R,
        drawn: u32,
        size: u32,
        accept: u32,
        low: &mut [u64],
        high: &mut [u64],
    ) -> Ends
        requires ready { Ready (R.DrawRule.meaning rule.now) self.frames drawn size low.old high.old }
        requires accepted { accept < length low.old }
        ensures { Sampled (R.DrawRule.meaning rule.now) self.frames self.bad drawn size accept low.old high.old low.new high.new result }
    {
        self.draw_on(rule, drawn, size, low, high);
        let accepted = accept as usize + 1;
        Ends {
            lo: total(&low[..accepted]),
            hi: total(&high[..accepted]),
        }
    }
}
