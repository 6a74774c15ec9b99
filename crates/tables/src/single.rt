// The chance that a single sample passes.
ghost use Rattle.std.specs.Prelude.{IfOk};
ghost use Rattle.tables.specs.Rows.{EnclosedSingle};

use crate::refusal::Refusal;
use draws::rule::DrawRule;
use plans::plan::make::make;
use sampling::chance::{CELLS, Ends, chance};

// The enclosure of the chance that a sample of `size` items has at most `accept` bad ones.
pub fn enclose<R: DrawRule>(
    rule: &R,
    population: u32,
    bad: u32,
    size: u32,
    accept: u32,
) -> Result<Ends, Refusal>
    ensures { IfOk result (λ ends. EnclosedSingle (R.DrawRule.meaning rule.now) population bad size accept ends) }
{
    let plan = make(size, accept, accept.saturating_add(1), 0, accept)?;
    let mut low = [0; CELLS];
    let mut high = [0; CELLS];
    Ok(chance(rule, population, bad, plan, &mut low, &mut high)?)
}
