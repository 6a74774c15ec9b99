// The chance of a plan and the smallest sample, by the code of a draw rule.
ghost use Rattle.std.specs.Prelude.{◌≡◌};
ghost use Rattle.film.specs.Refusals.{reading, refused};
ghost use Rattle.plans.specs.Faults.{plan_refusal};
ghost use Rattle.plans.specs.Makes.{made, plan_reading};
ghost use Rattle.sampling.specs.Searches.{Smallests};
ghost use Rattle.capi.specs.Crossings.{Crossed, ends_crossing, number_crossing, unknown_code};
ghost use Rattle.capi.specs.Codes.{ByRule, Kept};
ghost use Rattle.capi.specs.Plans.{PlannedChance};

use crate::answer::{EndsAnswer, NumberAnswer, UnknownCode};
use draws::name::RuleName;
use draws::rule::{DrawRule, WithReplacement, WithoutReplacement};
use plans::fault::PlanFault;
use plans::plan::Plan;
use plans::plan::make::make;
use sampling::chance::{Ends, chance};
use sampling::smallest::smallest;

// The enclosure of the chance that the plan passes a reel of `reel` frames of which `bad` are bad.
#[unsafe(no_mangle)]
pub extern "C" fn kifolanto_chance(
    rule: u32,
    reel: u32,
    bad: u32,
    n1: u32,
    ac1: u32,
    re1: u32,
    n2: u32,
    ac2: u32,
    low: &mut [u64],
    high: &mut [u64],
) -> EndsAnswer
    ensures { ByRule rule (λ m. Crossed ends_crossing (PlannedChance m reel bad (made n1 ac1 re1 n2 ac2) low.old high.old low.new high.new) result) (Kept low.old high.old low.new high.new (result ≡ ends_crossing (refused (unknown_code rule)))) }
{
    let plan = make(n1, ac1, re1, n2, ac2);
    // each rule by its own type, so that no draw asks for its name
    match RuleName::try_from(rule) {
        Ok(RuleName::Without) => enclose(&WithoutReplacement, reel, bad, plan, low, high).into(),
        Ok(RuleName::With) => enclose(&WithReplacement, reel, bad, plan, low, high).into(),
        Err(unknown) => Err(UnknownCode(unknown.code)).into(),
    }
}

// The same under a rule, of a plan that was made or refused.
fn enclose<R: DrawRule>(
    rule: &R,
    reel: u32,
    bad: u32,
    plan: Result<Plan, PlanFault>,
    low: &mut [u64],
    high: &mut [u64],
) -> Result<Ends, PlanFault>
    ensures { Crossed ends_crossing (PlannedChance (R.DrawRule.meaning rule.now) reel bad (plan_reading plan) low.old high.old low.new high.new) (ends_crossing (reading plan_refusal result)) }
{
    Ok(chance(rule, reel, bad, plan?, low, high)?)
}

// The smallest single sample that keeps the limit.
#[unsafe(no_mangle)]
pub extern "C" fn kifolanto_smallest(
    rule: u32,
    reel: u32,
    tolerance: u32,
    limit: u32,
    accept: u32,
    low: &mut [u64],
    high: &mut [u64],
) -> NumberAnswer
    ensures { ByRule rule (λ m. Crossed number_crossing (Smallests m reel tolerance limit accept low.old high.old low.new high.new) result) (Kept low.old high.old low.new high.new (result ≡ number_crossing (refused (unknown_code rule)))) }
{
    // each rule by its own type, as in kifolanto_chance
    match RuleName::try_from(rule) {
        Ok(RuleName::Without) => {
            smallest(
                &WithoutReplacement,
                reel,
                tolerance,
                limit,
                accept,
                low,
                high,
            )
            .into()
        }
        Ok(RuleName::With) => {
            smallest(&WithReplacement, reel, tolerance, limit, accept, low, high).into()
        }
        Err(unknown) => Err(UnknownCode(unknown.code)).into(),
    }
}
