// The planner's tool: the smallest samples that keep a limit, and the chance that a plan passes a reel.
#![tactic(auto)]

ghost use Rattle.std.specs.Prelude.{◌≡◌, ◌*◌};
ghost use Rattle.plans.specs.Working.{divide, whole};

use draws::name::RuleName;
use lines::{numbers, split_lines};
use plans::plan::make::make;
use sampling::chance::{CELLS, Ends, chance};
use sampling::limit::WHOLE;
use sampling::smallest::smallest;
use std::io::Read;
use std::{env, fmt, io};

// The accept numbers for which samples are looked for.
const ACCEPT: [u32; 5] = [0, 1, 2, 5, 10];

fn main(rt: HostRuntime) -> anyhow::Result<()> {
    run(&rt)
}

fn run(rt: &HostRuntime) -> anyhow::Result<()> {
    // it takes no argument, so whoever gives one wants to know what it takes
    if env::args(rt)?.count() > 1 {
        usage(rt)?;
        return Ok(());
    }
    let heap = rt.alloc();
    let mut text = Vec::new(heap);
    rt.stdin().read_to_end(&mut text)?;
    let lines = split_lines(heap, text.as_slice())?;
    if lines.is_empty() {
        usage(rt)?;
    }
    for (at, text) in (1..).zip(lines.as_slice()) {
        Line { rt, at }.answer(text)?;
    }
    Ok(())
}

fn usage(rt: &HostRuntime) -> io::Result<()> {
    println!(rt;
        "risk: the smallest samples that keep a limit, and the chance that a plan passes a reel"
    )?;
    println!(rt; "n N rule T limit")?;
    println!(rt;
        "     the smallest single samples of a reel of N frames that, with T bad frames, pass at most limit millionths of the time"
    )?;
    println!(rt; "c N rule D n1 Ac1 Re1 n2 Ac2")?;
    println!(rt; "     the chance that the plan passes a reel of N frames with D bad ones")?;
    println!(rt; "rule 1 draws without replacement, rule 2 with; one blank between the numbers")
}

// A line of the input, by its number, and where it is answered.
#[derive(Clone, Copy)]
struct Line<'a> {
    rt: &'a HostRuntime,
    at: usize,
}

impl Line<'_> {
    fn answer(self, text: &[u8]) -> io::Result<()> {
        match text {
            b"help" => usage(self.rt),
            [b'n', b' ', rest @ ..] => self.answer_sizes(rest),
            [b'c', b' ', rest @ ..] => self.answer_chance(rest),
            _ => self.unreadable(),
        }
    }

    fn say(self, what: impl fmt::Display + Drop) -> io::Result<()> {
        let at = self.at;
        println!(self.rt; "line {at}: {what}")
    }

    fn unreadable(self) -> io::Result<()> {
        self.say("cannot be read")
    }

    // each refusal is said where it is met: an error enum with its three From would be longer
    fn answer_sizes(self, text: &[u8]) -> io::Result<()> {
        let Some(found) = numbers::<4>(text) else {
            return self.unreadable();
        };
        let [reel, code, tolerance, limit] = found;
        let rule = match RuleName::try_from(code) {
            Ok(rule) => rule,
            Err(unknown) => return self.say(unknown),
        };
        for accept in ACCEPT {
            let mut low = [0; CELLS];
            let mut high = [0; CELLS];
            match smallest(&rule, reel, tolerance, limit, accept, &mut low, &mut high) {
                Ok(size) => self.say(format_args!("accept {accept}, sample {size}"))?,
                Err(fault) => self.say(format_args!("accept {accept}, {fault}"))?,
            }
        }
        Ok(())
    }

    fn answer_chance(self, text: &[u8]) -> io::Result<()> {
        let Some(found) = numbers::<8>(text) else {
            return self.unreadable();
        };
        let [reel, code, bad, n1, ac1, re1, n2, ac2] = found;
        let plan = match make(n1, ac1, re1, n2, ac2) {
            Ok(plan) => plan,
            Err(fault) => return self.say(fault),
        };
        let rule = match RuleName::try_from(code) {
            Ok(rule) => rule,
            Err(unknown) => return self.say(unknown),
        };
        let mut low = [0; CELLS];
        let mut high = [0; CELLS];
        match chance(&rule, reel, bad, plan, &mut low, &mut high) {
            Ok(ends) => self.say(Shown(ends)),
            Err(fault) => self.say(fault),
        }
    }
}

// The two ends, in millionths and in units.
#[derive(Clone, Copy)]
struct Shown(Ends);

impl fmt::Display for Shown {
    fn fmt<W: fmt::Write>(&self, f: &mut fmt::Formatter<W>) -> fmt::Result {
        let Ends { lo, hi } = self.0;
        let least = millionths::<false>(lo);
        let most = millionths::<true>(hi);
        write!(
            f,
            "chance {least} to {most} millionths, {lo} to {hi} units of one part in 2^40"
        )
    }
}

// Units in millionths, rounded up or down. In 128 bits, where no product wraps.
fn millionths<const UP: bool>(units: u64) -> u128
    ensures { result ≡ divide UP (units * 1000000) whole }
{
    let whole = WHOLE as u128;
    let more = if UP { whole - 1 } else { 0 };
    (units as u128 * 1_000_000 + more) / whole
}
