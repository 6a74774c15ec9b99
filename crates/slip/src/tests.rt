// Slips byte for byte, and each refusal once.
use crate::fault::SlipFault;
use crate::writer::write;
use draws::entry::{BLANK, Entry, State};
use draws::rule::WithoutReplacement;
use film::address::{Address, AddressFault};
use film::schemes::{Feet35, Timecode24};
use inspection::calls::{Inspection, Unmarked, open};
use inspection::fault::InspectionFault;
use inspection::ticket::Mark;
use plans::fault::PlanFault;
use plans::plan::make::make;
use sampling::certified::Certified;
use sampling::certified::certify::certify;
use std::test::Fail;

// The slips of a reel with two frames, one of them viewed; the bytes behind the slip stay.
const ONE_GOOD: &[u8; 80] = b"\
    \x01\x00\x04\x00\x00\x00\x07\
    \x02\x00\x04\x00\x00\x00\x02\
    \x03\x00\x01\x01\
    \x04\x00\x0a\x00\x01\x00\x00\x00\x01\x00\x00\x00\x00\
    \x05\x00\x08\x00\x00\x00\x01\x00\x07\xa1\x20\
    \x06\x00\x10\x00\x00\x00\x80\x00\x00\x00\x00\x00\x00\x00\x80\x00\x00\x00\x00\
    \x07\x00\x01\x01\
    \x08\x00\x06\x00\x01\x00\x01\x00\x00\
    \xee\xee\xee\xee\xee\xee";

const ONE_BAD: &[u8; 83] = b"\
    \x01\x00\x04\x00\x00\x00\x07\
    \x02\x00\x04\x00\x00\x00\x02\
    \x03\x00\x01\x01\
    \x04\x00\x0a\x00\x01\x00\x00\x00\x01\x00\x00\x00\x00\
    \x05\x00\x08\x00\x00\x00\x01\x00\x07\xa1\x20\
    \x06\x00\x10\x00\x00\x00\x80\x00\x00\x00\x00\x00\x00\x00\x80\x00\x00\x00\x00\
    \x07\x00\x01\x02\
    \x08\x00\x06\x00\x01\x00\x00\x00\x01\
    \x09\x00\x06\x03\x00\x00\x00\x00\x01";

// A single sample of one frame of two, with one bad frame too many.
fn certified() -> Result<Certified<WithoutReplacement>, PlanFault> {
    let mut low = [0; 1];
    let mut high = [0; 1];
    let plan = make(1, 0, 1, 0, 0)?;
    certify(WithoutReplacement, 2, 1, 500_000, plan, &mut low, &mut high)
}

// pulls the second frame and marks it at once
fn view(
    inspection: &mut Inspection<WithoutReplacement>,
    mark: Mark,
    table: &mut [Entry],
) -> Result<(), InspectionFault> {
    let ticket = inspection.pull(&Timecode24, Address { whole: 0, part: 1 }, table)?;
    inspection.mark(ticket, mark, table)?;
    Ok(())
}

#[test]
fn slip_of_a_good_frame(rt: HostRuntime) -> Result<(), Fail> {
    let mut table = [BLANK];
    let mut inspection = open(7, certified()?, &mut table)?;
    view(&mut inspection, Mark::Good, &mut table)?;
    let mut buffer = [0xee; 80];
    assert_eq!(rt; write(&inspection, &table, &Timecode24, &mut buffer)?, 74);
    assert!(rt; buffer == *ONE_GOOD);
    Ok(())
}

#[test]
fn slip_of_a_bad_frame(rt: HostRuntime) -> Result<(), Fail> {
    let mut table = [BLANK];
    let mut inspection = open(7, certified()?, &mut table)?;
    view(&mut inspection, Mark::Bad, &mut table)?;
    let mut buffer = [0xee; 83];
    assert_eq!(rt; write(&inspection, &table, &Timecode24, &mut buffer)?, 83);
    assert!(rt; buffer == *ONE_BAD);
    // the same frame in feet and frames
    assert_eq!(rt; write(&inspection, &table, &Feet35, &mut buffer)?, 83);
    assert_eq!(rt; buffer[77], 1);
    Ok(())
}

#[test]
fn refusals(rt: HostRuntime) -> Result<(), Fail> {
    let heap = rt.alloc();
    let mut table = [BLANK];
    let inspection = open(7, certified()?, &mut table)?;
    let mut buffer = [0xee; 83];
    let short = write(&inspection, &[], &Timecode24, &mut buffer);
    assert_eq!(rt;
        short,
        Err(SlipFault::Inspection(InspectionFault::ShortTable(1)))
    );
    assert_eq!(rt;
        SlipFault::Inspection(InspectionFault::ShortTable(1))
            .to_string(heap)?
            .as_str(),
        "no 41 1 IS"
    );
    // an entry that no pull left: the reel has no third frame
    table[0] = Entry {
        frame: 2,
        state: State::Bad,
    };
    let small = write(&inspection, &table, &Timecode24, &mut buffer[0..82]);
    assert_eq!(rt; small, Err(SlipFault::ShortBuffer(83)));
    assert_eq!(rt;
        SlipFault::ShortBuffer(83).to_string(heap)?.as_str(),
        "no 51 83 S"
    );
    let nowhere = write(&inspection, &table, &Timecode24, &mut buffer);
    assert_eq!(rt; nowhere, Err(SlipFault::Address(AddressFault::OffReel)));
    assert_eq!(rt;
        SlipFault::Address(AddressFault::OffReel)
            .to_string(heap)?
            .as_str(),
        "no 12 1 AS"
    );
    assert!(rt; buffer == [0xee; 83]);
    Ok(())
}
