// The inspection program: lines on standard input, replies on standard output.
#![tactic(auto)]

use console::session::{enough_bytes, run};
use std::env;
use std::io::{Read, Write};

const USAGE: &str = "\
inspect: a reel inspected by a sampling plan, from its number to its slip
in:  at most 65,536 bytes of lines, one blank between the words
     r NUMBER N RULE: a reel of N frames; rule 1 draws without replacement, rule 2 with
     p N1 AC1 RE1 N2 AC2 T LIMIT: a plan that passes at most LIMIT millionths of the draws from a reel with T bad frames
     f SCHEME WHOLE PART MARK: a frame viewed, g good or b bad; scheme 1: 35 mm feet and frames, 2: 16 mm, 3: seconds and frames at 24
     s SCHEME: the slip, with the bad frames named in that scheme
out: a reply to each line: ok, behind p the chance of a false PASS between two ends in parts of 2^40, behind f the standing
     (0 OPEN, 1 PASS, 2 REJECT, 3 SECOND), behind s the slip in hexadecimal; or a refusal: no NUMBER PLACE LAYERS
";

fn main(rt: HostRuntime) -> anyhow::Result<()> {
    // it takes no argument, so whoever gives one wants to know what it takes
    if env::args(&rt)?.count() > 1 {
        rt.print(USAGE)?;
        return Ok(());
    }
    let heap = rt.alloc();
    let mut input = Vec::new(heap);
    rt.stdin()
        .take(enough_bytes() as u64)
        .read_to_end(&mut input)?;
    let output = run(heap, input.as_slice())?;
    // in one write, where `print` makes one for each 1,024 bytes
    rt.stdout().write_all(output.as_bytes())?;
    Ok(())
}
