// The rows moved on, draw by draw.
ghost use Rattle.std.specs.Prelude.{◌≡◌, ◌+◌, ◌*◌};
ghost use Rattle.draws.specs.Draws.{Reel};
ghost use Rattle.plans.specs.Working.{divide};
ghost use Rattle.sampling.specs.Rows.{Moved, MovedBehind, Moves, Ready};

use draws::name::RuleName;
use draws::rule::{DrawRule, WithReplacement, WithoutReplacement};

// What is drawn from: a reel of so many frames, of which so many are bad. The two rows are no fields of it: a pair of `&mut`
// would be taken apart again at every use. Nor is the rule: two numbers by value are handed on as they are, three fields in
// memory, where a caller's constant is none to divide by.
#[derive(Clone, Copy)]
pub struct Drawing {
    pub frames: u32,
    pub bad: u32,
    ghost reel: { Reel frames },
}

// A cell after a draw, of so many ways to go on: lists of this cell that draw a good frame, and what the cell before
// brings on, its lists that draw a bad one. Rounded up or down.
fn moved<const UP: bool>(cell: u64, good: u32, brought: u64, ways: u32) -> u64
    requires { Moves cell good brought ways }
    ensures { result ≡ divide UP (cell * good + brought) ways }
{
    let more = if UP { ways - 1 } else { 0 };
    (cell * good as u64 + brought + more as u64) / ways as u64
}

impl Drawing {
    // In how many ways a draw goes on, after `drawn` frames.
    fn ways<R: DrawRule>(self, rule: &R, drawn: u32) -> u32
        ensures { result ≡ (R.DrawRule.meaning rule.now).good self.frames 0 drawn 0 }
    {
        rule.counts(self.frames, 0, drawn, 0).good
    }

    // One draw more, after `drawn` frames. A cell is made from itself and the one before it, so the first cell goes last.
    #[inline(always)]
    pub fn draw<R: DrawRule>(self, rule: &R, drawn: u32, low: &mut [u64], high: &mut [u64])
        requires { Ready (R.DrawRule.meaning rule.now) self.frames drawn 1 low.old high.old }
        ensures { Moved (R.DrawRule.meaning rule.now) self.frames self.bad drawn 1 low.old high.old low.new high.new }
    {
        // with a single cell the call would take a fifth of the time
        if low.len() > 1 {
            self.draw_named(rule, drawn, low, high);
        }
        let ways = self.ways(rule, drawn);
        let good = rule.counts(self.frames, self.bad, drawn, 0).good;
        low[0] = moved::<false>(low[0], good, 0, ways);
        high[0] = moved::<true>(high[0], good, 0, ways);
    }

    // The cells behind the first. A rule by name is asked for its name here, and not at each cell.
    fn draw_named<R: DrawRule>(self, rule: &R, drawn: u32, low: &mut [u64], high: &mut [u64])
        requires { Ready (R.DrawRule.meaning rule.now) self.frames drawn 1 low.old high.old }
        ensures { MovedBehind (R.DrawRule.meaning rule.now) self.frames self.bad drawn low.old high.old low.new high.new }
    {
        match rule.named() {
            Some(RuleName::Without) => self.draw_behind(&WithoutReplacement, drawn, low, high),
            Some(RuleName::With) => self.draw_behind(&WithReplacement, drawn, low, high),
            None => self.draw_behind(rule, drawn, low, high),
        }
    }

    // The cells behind the first, from the last down: upwards, with what a cell brings on kept for the next, rule 2 takes
    // up to 1.3 times as long.
    #[inline(never)]
    fn draw_behind<R: DrawRule>(self, rule: &R, drawn: u32, low: &mut [u64], high: &mut [u64])
        requires { Ready (R.DrawRule.meaning rule.now) self.frames drawn 1 low.old high.old }
        ensures { MovedBehind (R.DrawRule.meaning rule.now) self.frames self.bad drawn low.old high.old low.new high.new }
    {
        let mut good = rule
            .counts(self.frames, self.bad, drawn, low.len() as u32 - 1)
            .good;
        // asked for again: handed in, it could be no constant
        let ways = self.ways(rule, drawn);
        // by index, in place: a cell is made from itself and the one before it
        for d in (1..low.len()).rev() {
            let before = rule.counts(self.frames, self.bad, drawn, d as u32 - 1);
            low[d] = moved::<false>(low[d], good, low[d - 1] * before.bad as u64, ways);
            high[d] = moved::<true>(high[d], good, high[d - 1] * before.bad as u64, ways);
            good = before.good;
        }
    }

    // So many draws more, the first after `drawn` frames.
    pub fn draw_on<R: DrawRule>(
        self,
        rule: &R,
        drawn: u32,
        count: u32,
        low: &mut [u64],
        high: &mut [u64],
    )
        requires { Ready (R.DrawRule.meaning rule.now) self.frames drawn count low.old high.old }
        ensures { Moved (R.DrawRule.meaning rule.now) self.frames self.bad drawn count low.old high.old low.new high.new }
    {
        for k in drawn..drawn + count {
            self.draw(rule, k, low, high);
        }
    }
}
