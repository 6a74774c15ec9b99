// Reads a draw list in mixed schemes and says which frames it names, and which lines name one again.
#![tactic(auto)]

ghost use Rattle.std.specs.Prelude.{◌≡◌};
ghost use Rattle.frames.specs.Reels.{reel_size};

use drawlist::row::{Seen, Tally};
use drawlist::survey::survey;
use film::address::Address;
use film::lookup::address_of;
use film::scheme::Scheme;
use film::schemes::{Feet16, Feet35, Timecode24};
use lines::{number, split_lines};
use std::io::Read;
use std::{env, fmt, io};

const LONGEST_REEL: u32 = 1_000_000;

// where the first address stands, behind the reel's size
const FIRST_LINE: usize = 2;

fn main(rt: HostRuntime) -> anyhow::Result<()> {
    run(&rt)
}

fn run(rt: &HostRuntime) -> anyhow::Result<()> {
    // it takes no argument, so whoever gives one wants to know what it takes
    if env::args(rt)?.count() > 1 {
        usage(rt)?;
        return Ok(());
    }
    let heap = rt.alloc();
    let mut text = Vec::new(heap);
    rt.stdin().read_to_end(&mut text)?;
    let lines = split_lines(heap, text.as_slice())?;
    let Some((first, addresses)) = lines.as_slice().split_first() else {
        usage(rt)?;
        return Ok(());
    };
    let Some(reel) = reel_size(first) else {
        println!(rt; "line 1: not a reel's number of frames, 1 to {LONGEST_REEL}")?;
        usage(rt)?;
        return Ok(());
    };
    let found = survey(heap, reel, addresses)?;
    print_lines(rt, reel, found.lines.as_slice())?;
    print_tally(rt, found.tally)?;
    Ok(())
}

fn usage(rt: &HostRuntime) -> io::Result<()> {
    println!(rt; "frames: which frames a draw list names, and which it names again")?;
    println!(rt;
        "in:  the reel's number of frames, then a line for each address: scheme, whole unit, part"
    )?;
    println!(rt;
        "     scheme 1: 35 mm feet and frames; 2: 16 mm feet and frames; 3: seconds and frames at 24 a second"
    )?;
    println!(rt;
        "out: each line's frame and its address in every scheme, and how many frames the list rests on"
    )
}

fn reel_size(line: &[u8]) -> Option<u32>
    ensures { result ≡ reel_size line.now }
{
    number(line).filter(|size| (1..=LONGEST_REEL).contains(size))
}

fn print_lines(rt: &HostRuntime, reel: u32, lines: &[Seen]) -> io::Result<()> {
    for (line, seen) in (FIRST_LINE..).zip(lines) {
        println!(rt; "line {line}: {}", Answer { reel, seen: *seen })?;
    }
    Ok(())
}

// What is said of a line.
#[derive(Clone, Copy)]
struct Answer {
    reel: u32,
    seen: Seen,
}

impl fmt::Display for Answer {
    fn fmt<W: fmt::Write>(&self, f: &mut fmt::Formatter<W>) -> fmt::Result {
        let reel = self.reel;
        match self.seen.row {
            Ok(frame) => write_frame(f, reel, frame, self.seen.earlier),
            Err(fault) => write!(f, "{fault}"),
        }
    }
}

fn write_frame<W: fmt::Write>(
    f: &mut fmt::Formatter<W>,
    reel: u32,
    frame: u32,
    earlier: Option<usize>,
) -> fmt::Result {
    write!(f, "frame {frame}")?;
    write_address(f, &Feet35, reel, frame)?;
    write_address(f, &Feet16, reel, frame)?;
    write_address(f, &Timecode24, reel, frame)?;
    if let Some(first) = earlier {
        let first = first.saturating_add(FIRST_LINE);
        write!(f, ", named before by line {first}")?;
    }
    Ok(())
}

// The frame's address in a scheme, where the scheme reaches it.
fn write_address<W: fmt::Write, S: Scheme>(
    f: &mut fmt::Formatter<W>,
    scheme: &S,
    reel: u32,
    frame: u32,
) -> fmt::Result {
    let Ok(Address { whole, part }) = address_of(scheme, reel, frame) else {
        return Ok(());
    };
    let code = scheme.slip_code();
    write!(f, ", {whole}+{part} in scheme {code}")
}

fn print_tally(rt: &HostRuntime, tally: Tally) -> io::Result<()> {
    let Tally {
        addresses,
        frames,
        refused,
        unreadable,
    } = tally;
    println!(rt;
        "{addresses} addresses, {frames} frames, {refused} refused, {unreadable} unreadable"
    )
}
