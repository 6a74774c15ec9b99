// Two published tables of samples worked out again: row by row the published figures, the enclosures, and whether they agree.
#![tactic(auto)]

ghost use Rattle.std.specs.Prelude.{◌≡◌, ◌+◌, ◌-◌, ◌^◌, min};
ghost use Rattle.tables.specs.Verdicts.{one_if_agree};

mod accepts;
mod judging;
mod places;
mod published;
mod refusal;
mod samples;
mod single;

use accepts::work_accept;
use judging::Verdict;
use published::{ACCEPT_ROWS, SAMPLE_ROWS};
use samples::work_sample;
use std::{env, io};

fn main(rt: HostRuntime) -> anyhow::Result<()> {
    run(&rt)
}

fn run(rt: &HostRuntime) -> anyhow::Result<()> {
    // it takes no argument, so whoever gives one wants to know what it does
    if env::args(rt)?.count() > 1 {
        usage(rt)?;
        return Ok(());
    }
    let mut tally = Tally { rows: 0, agree: 0 };
    print_samples(rt, &mut tally)?;
    print_accepts(rt, &mut tally)?;
    let Tally { rows, agree } = tally;
    println!(rt; "{rows} rows, {agree} agree")?;
    Ok(())
}

fn usage(rt: &HostRuntime) -> io::Result<()> {
    println!(rt; "tables: two published tables of samples, worked out again row by row")?;
    println!(rt; "in:  nothing")?;
    println!(rt;
        "out: each row's published figures beside ours, the enclosures, and agree, differs or undecided; last how many rows agree"
    )
}

// How many rows there were, and how many of them agree.
#[derive(Clone, Copy)]
struct Tally {
    rows: u32,
    agree: u32,
}

impl Tally {
    fn count(&mut self, verdict: Verdict)
        ensures rows { self.new.rows ≡ min (self.old.rows + 1) (2 ^ 32 - 1) }
        ensures agree { self.new.agree ≡ min (self.old.agree + one_if_agree verdict) (2 ^ 32 - 1) }
    {
        self.rows = self.rows.saturating_add(1);
        self.agree = self.agree.saturating_add(verdict.agreeing());
    }
}

// Not one function with the next: their rows are of two types, and a trait for the verdict alone would be longer.
fn print_samples(rt: &HostRuntime, tally: &mut Tally) -> anyhow::Result<()> {
    println!(rt;
        "The smallest samples that accept no bad item, for 95% confidence, drawn without replacement from 1066 items. Chances are in units of one part in 2^40."
    )?;
    for row in SAMPLE_ROWS {
        let worked = work_sample(row)?;
        println!(rt; "{worked}")?;
        tally.count(worked.verdict);
    }
    Ok(())
}

fn print_accepts(rt: &HostRuntime, tally: &mut Tally) -> anyhow::Result<()> {
    println!(rt;
        "The greatest accept numbers with which a bad lot, 1000 bad items in 1000000, passes at most 5% of the time, and the probability that a lot of the row's own quality passes, drawn with replacement. Chances are in units of one part in 2^40."
    )?;
    for row in ACCEPT_ROWS {
        let worked = work_accept(row)?;
        println!(rt; "{worked}")?;
        tally.count(worked.verdict);
    }
    Ok(())
}
