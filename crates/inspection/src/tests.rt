// Whole inspections, and each refusal once.
use crate::calls::{Inspection, Unmarked, open};
use crate::fault::InspectionFault;
use crate::report::{Counts, Report, Standing};
use crate::ticket::{Mark, Stub, Ticket, tear};
use draws::entry::{Entry, State};
use draws::rule::WithoutReplacement;
use film::address::{Address, AddressFault};
use film::scheme::Scheme;
use film::schemes::{Feet35, Timecode24};
use plans::fault::PlanFault;
use plans::plan::Plan;
use plans::plan::make::make;
use sampling::certified::Certified;
use sampling::certified::certify::certify;
use std::test::Fail;

const OLD: Entry = Entry {
    frame: 9,
    state: State::Bad,
};

fn certified(
    reel: u32,
    tolerance: u32,
    plan: Plan,
) -> Result<Certified<WithoutReplacement>, PlanFault> {
    let mut low = [0; 4];
    let mut high = [0; 4];
    certify(
        WithoutReplacement,
        reel,
        tolerance,
        500_000,
        plan,
        &mut low,
        &mut high,
    )
}

// pulls and marks at once
fn view<S: Scheme>(
    inspection: &mut Inspection<WithoutReplacement>,
    scheme: &S,
    whole: u32,
    part: u32,
    mark: Mark,
    table: &mut [Entry],
) -> Result<(), InspectionFault> {
    let ticket = inspection.pull(scheme, Address { whole, part }, table)?;
    inspection.mark(ticket, mark, table)?;
    Ok(())
}

// three frames in turn
fn view_three(
    inspection: &mut Inspection<WithoutReplacement>,
    from: u8,
    marks: [Mark; 3],
    table: &mut [Entry],
) -> Result<(), InspectionFault> {
    for i in 0..3 {
        view(
            inspection,
            &Feet35,
            0,
            from as u32 + i as u32,
            marks[i],
            table,
        )?;
    }
    Ok(())
}

// a pull's fault, where it has one
fn fault_of(pulled: Result<Ticket, InspectionFault>) -> Option<InspectionFault> {
    match pulled {
        Ok(ticket) => {
            tear(ticket);
            None
        }
        Err(fault) => Some(fault),
    }
}

// a mark's fault, with the ticket that came back
fn unmarked(marked: Result<(), Unmarked>) -> Option<(InspectionFault, Stub)> {
    match marked {
        Ok(()) => None,
        Err(Unmarked { fault, ticket }) => Some((fault, tear(ticket))),
    }
}

fn report(standing: Standing, pulled: u32, good: u32, bad: u32) -> Report {
    Report {
        standing,
        counts: Counts { pulled, good, bad },
    }
}

// 6 + 4 in feet and frames and 4 + 4 in timecode are one frame
#[test]
fn one_frame_under_two_addresses(rt: HostRuntime) -> Result<(), Fail> {
    let mut table = [OLD; 3];
    let plan = make(2, 0, 1, 0, 0)?;
    let mut inspection = open(7, certified(200, 100, plan)?, &mut table)?;
    assert_eq!(rt; table[2], OLD);
    view(&mut inspection, &Feet35, 6, 4, Mark::Good, &mut table)?;
    let again = Address { whole: 4, part: 4 };
    assert_eq!(rt;
        fault_of(inspection.pull(&Timecode24, again, &mut table)),
        Some(InspectionFault::MayNotFollow(100))
    );
    assert_eq!(rt;
        inspection.standing(&table)?,
        report(Standing::Open, 1, 1, 0)
    );
    Ok(())
}

#[test]
fn second_sample_passes(rt: HostRuntime) -> Result<(), Fail> {
    let mut table = [OLD; 6];
    let plan = make(3, 0, 2, 3, 1)?;
    let mut inspection = open(7, certified(10, 3, plan)?, &mut table)?;
    view_three(
        &mut inspection,
        0,
        [Mark::Bad, Mark::Good, Mark::Good],
        &mut table,
    )?;
    assert_eq!(rt;
        inspection.standing(&table)?,
        report(Standing::Second, 3, 2, 1)
    );
    view_three(
        &mut inspection,
        3,
        [Mark::Good, Mark::Good, Mark::Good],
        &mut table,
    )?;
    assert_eq!(rt;
        inspection.standing(&table)?,
        report(Standing::Pass, 6, 5, 1)
    );
    let more = Address { whole: 0, part: 6 };
    assert_eq!(rt;
        fault_of(inspection.pull(&Feet35, more, &mut table)),
        Some(InspectionFault::NoMorePulls(6))
    );
    Ok(())
}

// one bad frame in each sample: neither is too many alone
#[test]
fn both_samples_together_reject(rt: HostRuntime) -> Result<(), Fail> {
    let mut table = [OLD; 6];
    let plan = make(3, 0, 2, 3, 1)?;
    let mut inspection = open(7, certified(10, 3, plan)?, &mut table)?;
    view_three(
        &mut inspection,
        0,
        [Mark::Bad, Mark::Good, Mark::Good],
        &mut table,
    )?;
    view_three(
        &mut inspection,
        3,
        [Mark::Bad, Mark::Good, Mark::Good],
        &mut table,
    )?;
    assert_eq!(rt;
        inspection.standing(&table)?,
        report(Standing::Reject, 6, 4, 2)
    );
    Ok(())
}

#[test]
fn refused_tables_and_addresses(rt: HostRuntime) -> Result<(), Fail> {
    let plan = make(2, 0, 1, 0, 0)?;
    let mut short = [OLD; 1];
    assert!(rt; open(7, certified(200, 100, plan)?, &mut short).is_err());
    assert_eq!(rt; short, [OLD]);
    let mut table = [OLD; 2];
    let mut inspection = open(7, certified(200, 100, plan)?, &mut table)?;
    assert_eq!(rt;
        inspection.standing(&short),
        Err(InspectionFault::ShortTable(2))
    );
    assert_eq!(rt;
        fault_of(inspection.pull(&Feet35, Address { whole: 0, part: 16 }, &mut table)),
        Some(InspectionFault::Unlocated(AddressFault::NoSuchPart))
    );
    assert_eq!(rt;
        fault_of(inspection.pull(&Feet35, Address { whole: 12, part: 8 }, &mut table)),
        Some(InspectionFault::Unlocated(AddressFault::OffReel))
    );
    view(&mut inspection, &Feet35, 0, 0, Mark::Good, &mut table)?;
    assert_eq!(rt;
        inspection.standing(&table)?,
        report(Standing::Open, 1, 1, 0)
    );
    Ok(())
}

#[test]
fn refused_tickets(rt: HostRuntime) -> Result<(), Fail> {
    let plan = make(2, 0, 1, 0, 0)?;
    let mut table = [OLD; 2];
    let mut inspection = open(7, certified(200, 100, plan)?, &mut table)?;
    let mut other_table = [OLD; 2];
    let mut other = open(8, certified(200, 100, plan)?, &mut other_table)?;
    let address = Address { whole: 6, part: 4 };
    let ticket = inspection.pull(&Feet35, address, &mut table)?;
    assert_eq!(rt;
        unmarked(other.mark(ticket, Mark::Good, &mut other_table)),
        Some((
            InspectionFault::OtherTicket(0),
            Stub {
                reel: 7,
                place: 0,
                frame: 100,
            },
        ))
    );
    let late = inspection.pull(&Feet35, Address { whole: 0, part: 0 }, &mut table)?;
    table[1] = OLD;
    table[1].frame = 0;
    assert_eq!(rt;
        unmarked(inspection.mark(late, Mark::Good, &mut table)),
        Some((
            InspectionFault::NotOut(1),
            Stub {
                reel: 7,
                place: 1,
                frame: 0,
            },
        ))
    );
    Ok(())
}

// what a fault prints is promised where it prints; here each does
#[test]
fn every_fault_is_printed(rt: HostRuntime) -> Result<(), Fail> {
    let heap = rt.alloc();
    let faults = [
        (
            InspectionFault::Unlocated(AddressFault::NoSuchPart),
            "no 11 2 AI",
        ),
        (
            InspectionFault::Unlocated(AddressFault::OffReel),
            "no 12 1 AI",
        ),
        (InspectionFault::ShortTable(6), "no 41 6 I"),
        (InspectionFault::NoMorePulls(3), "no 42 3 I"),
        (InspectionFault::MayNotFollow(100), "no 43 100 I"),
        (InspectionFault::OtherTicket(0), "no 44 0 I"),
        (InspectionFault::NotOut(1), "no 45 1 I"),
    ];
    for (fault, text) in faults {
        assert_eq!(rt; format!(in heap; "{fault}")?.as_str(), text);
    }
    Ok(())
}
