// How a plan is certified.
ghost use Rattle.std.specs.Prelude.{◌≡◌, IfOk};
ghost use Rattle.plans.specs.Makes.{numbers_of};
ghost use Rattle.sampling.specs.Certifies.{Certifies, certified_reading};

use crate::certified::Certified;
use crate::chance::chance;
use crate::checks::{no_limit, no_tolerance};
use crate::limit::within;
use draws::rule::DrawRule;
use plans::fault::PlanFault;
use plans::plan::Plan;

// The plan, certified: with `tolerance` bad frames the chance that it passes is within the limit. The rows are worked in.
pub fn certify<R: DrawRule + Drop>(
    rule: R,
    reel: u32,
    tolerance: u32,
    limit: u32,
    plan: Plan,
    low: &mut [u64],
    high: &mut [u64],
) -> Result<Certified<R>, PlanFault>
    ensures promise { Certifies (R.DrawRule.meaning rule) reel tolerance limit (numbers_of plan) low.old high.old low.new high.new (certified_reading result) }
    ensures kept { IfOk result (λ c. c.rule ≡ rule) }
{
    if no_tolerance(reel, tolerance) {
        return Err(PlanFault::Tolerance(tolerance));
    }
    if no_limit(limit) {
        return Err(PlanFault::Limit(limit));
    }
    let ends = chance(&rule, reel, tolerance, plan, low, high)?;
    if !within(limit, ends.lo) {
        return Err(PlanFault::TooRisky(tolerance));
    }
    if !within(limit, ends.hi) {
        return Err(PlanFault::TooClose(tolerance));
    }
    Ok(Certified {
        rule,
        plan,
        reel,
        tolerance,
        limit,
        lo: ends.lo,
        hi: ends.hi,
    })
}
