// The worked values, and each refusal once.
use crate::certified::certify::certify;
use crate::chance::{Ends, chance};
use crate::smallest::smallest;
use draws::rule::{WithReplacement, WithoutReplacement};
use plans::fault::{ChanceFault, PlanFault};
use plans::plan::make::make;
use std::test::Fail;

#[test]
fn one_frame_of_ten(rt: HostRuntime) -> Result<(), Fail> {
    let plan = make(1, 0, 1, 0, 0)?;
    let mut low = [7; 3];
    let mut high = [9; 3];
    let ends = chance(&WithoutReplacement, 10, 3, plan, &mut low, &mut high);
    assert_eq!(rt;
        ends,
        Ok(Ends {
            lo: 769_658_139_443,
            hi: 769_658_139_444,
        })
    );
    assert_eq!(rt; low, [769_658_139_443, 7, 7]);
    assert_eq!(rt; high, [769_658_139_444, 9, 9]);
    Ok(())
}

// 66,780 of 151,200 lists pass without replacement, 494,263 of 1,000,000 with
#[test]
fn two_samples_of_three(rt: HostRuntime) -> Result<(), Fail> {
    let plan = make(3, 0, 2, 3, 1)?;
    let mut low = [0; 2];
    let mut high = [0; 2];
    let without = chance(&WithoutReplacement, 10, 3, plan, &mut low, &mut high)?;
    assert!(rt;
        without.lo <= 485_617_635_601
            && 485_617_635_602 <= without.hi
            && without.hi - without.lo <= 24
    );
    let with = chance(&WithReplacement, 10, 3, plan, &mut low, &mut high)?;
    assert!(rt;
        with.lo <= 543_447_915_679 && 543_447_915_680 <= with.hi && with.hi - with.lo <= 24
    );
    Ok(())
}

#[test]
fn every_frame_good_or_bad(rt: HostRuntime) -> Result<(), Fail> {
    let plan = make(2, 1, 2, 0, 1)?;
    let mut low = [0; 2];
    let mut high = [0; 2];
    let none = chance(&WithoutReplacement, 5, 0, plan, &mut low, &mut high)?;
    assert_eq!(rt; none.lo, 1_099_511_627_776);
    assert_eq!(rt; none.hi, 1_099_511_627_776);
    let all = chance(&WithoutReplacement, 5, 5, plan, &mut low, &mut high)?;
    assert_eq!(rt; all.lo, 0);
    assert_eq!(rt; all.hi, 0);
    Ok(())
}

#[test]
fn chance_refuses_in_order(rt: HostRuntime) -> Result<(), Fail> {
    let plan = make(3, 1, 2, 0, 1)?;
    let mut low = [5; 1];
    let mut high = [6; 2];
    let rule = WithoutReplacement;
    assert_eq!(rt;
        chance(&rule, 0, 1, plan, &mut low, &mut high),
        Err(ChanceFault::ReelSize)
    );
    assert_eq!(rt;
        chance(&rule, 1_000_001, 9, plan, &mut low, &mut high),
        Err(ChanceFault::ReelSize)
    );
    assert_eq!(rt;
        chance(&rule, 2, 3, plan, &mut low, &mut high),
        Err(ChanceFault::BadFrames(3))
    );
    assert_eq!(rt;
        chance(&rule, 2, 2, plan, &mut low, &mut high),
        Err(ChanceFault::TooManyDraws(3))
    );
    assert_eq!(rt;
        chance(&rule, 4, 2, plan, &mut low, &mut high),
        Err(ChanceFault::ShortRow(2))
    );
    assert_eq!(rt; low, [5]);
    assert_eq!(rt; high, [6, 6]);
    Ok(())
}

#[test]
fn certified_at_the_limit(rt: HostRuntime) -> Result<(), Fail> {
    let plan = make(1, 0, 1, 0, 0)?;
    let mut low = [0];
    let mut high = [0];
    match certify(
        WithoutReplacement,
        10,
        3,
        699_999,
        plan,
        &mut low,
        &mut high,
    ) {
        Err(fault) => assert_eq!(rt; fault, PlanFault::TooRisky(3)),
        Ok(_) => return Err(Fail::new("699,999 certified")),
    }
    match certify(
        WithoutReplacement,
        10,
        3,
        700_000,
        plan,
        &mut low,
        &mut high,
    ) {
        Err(fault) => assert_eq!(rt; fault, PlanFault::TooClose(3)),
        Ok(_) => return Err(Fail::new("700,000 certified")),
    }
    let certified = certify(
        WithoutReplacement,
        10,
        3,
        700_001,
        plan,
        &mut low,
        &mut high,
    )?;
    assert_eq!(rt; certified.reel(), 10);
    assert_eq!(rt; certified.tolerance(), 3);
    assert_eq!(rt; certified.limit(), 700_001);
    assert_eq!(rt; certified.lo(), 769_658_139_443);
    assert_eq!(rt; certified.hi(), 769_658_139_444);
    Ok(())
}

#[test]
fn certify_refuses_in_order(rt: HostRuntime) -> Result<(), Fail> {
    let plan = make(3, 1, 2, 0, 1)?;
    let mut low = [5; 1];
    let mut high = [6; 2];
    match certify(WithoutReplacement, 2, 0, 0, plan, &mut low, &mut high) {
        Err(fault) => assert_eq!(rt; fault, PlanFault::Tolerance(0)),
        Ok(_) => return Err(Fail::new("no tolerance")),
    }
    match certify(
        WithoutReplacement,
        2,
        2,
        1_000_000,
        plan,
        &mut low,
        &mut high,
    ) {
        Err(fault) => assert_eq!(rt; fault, PlanFault::Limit(1_000_000)),
        Ok(_) => return Err(Fail::new("no limit")),
    }
    match certify(WithoutReplacement, 4, 2, 1, plan, &mut low, &mut high) {
        Err(fault) => assert_eq!(rt; fault, PlanFault::Chance(ChanceFault::ShortRow(2))),
        Ok(_) => return Err(Fail::new("a short row")),
    }
    assert_eq!(rt; low, [5]);
    assert_eq!(rt; high, [6, 6]);
    Ok(())
}

#[test]
fn smallest_by_each_rule(rt: HostRuntime) {
    let mut low = [0];
    let mut high = [0];
    assert_eq!(rt;
        smallest(&WithoutReplacement, 10, 3, 50_000, 0, &mut low, &mut high),
        Ok(6)
    );
    assert_eq!(rt;
        smallest(&WithReplacement, 10, 3, 50_000, 0, &mut low, &mut high),
        Ok(9)
    );
}

#[test]
fn smallest_refuses_in_order(rt: HostRuntime) {
    let mut low = [5; 2];
    let mut high = [6; 1];
    let rule = WithoutReplacement;
    assert_eq!(rt;
        smallest(&rule, 0, 0, 0, 256, &mut low, &mut high),
        Err(ChanceFault::ReelSize)
    );
    assert_eq!(rt;
        smallest(&rule, 10, 0, 0, 256, &mut low, &mut high),
        Err(ChanceFault::BadFrames(0))
    );
    assert_eq!(rt;
        smallest(&rule, 10, 11, 0, 256, &mut low, &mut high),
        Err(ChanceFault::BadFrames(11))
    );
    assert_eq!(rt;
        smallest(&rule, 10, 1, 0, 256, &mut low, &mut high),
        Err(ChanceFault::Limit(0))
    );
    assert_eq!(rt;
        smallest(&rule, 10, 1, 1, 256, &mut low, &mut high),
        Err(ChanceFault::Accept(256))
    );
    assert_eq!(rt;
        smallest(&rule, 10, 1, 1, 1, &mut low, &mut high),
        Err(ChanceFault::ShortRow(2))
    );
    assert_eq!(rt; low, [5, 5]);
    assert_eq!(rt; high, [6]);
}

// one bad frame of 2: a sample of 1 passes half of the time, exactly
#[test]
fn none_and_undecided(rt: HostRuntime) {
    let mut low = [0; 2];
    let mut high = [0; 2];
    assert_eq!(rt;
        smallest(&WithoutReplacement, 2, 1, 1, 1, &mut low, &mut high),
        Err(ChanceFault::NoSample(2))
    );
    assert_eq!(rt;
        smallest(&WithoutReplacement, 10, 3, 700_000, 0, &mut low, &mut high),
        Err(ChanceFault::Undecided(1))
    );
}

#[test]
fn refusals_as_printed(rt: HostRuntime) -> Result<(), Fail> {
    let heap = rt.alloc();
    let short = ChanceFault::ShortRow(4);
    assert_eq!(rt; format!(in heap; "{short}")?.as_str(), "no 23 4 R");
    let carried = PlanFault::Chance(short);
    assert_eq!(rt; format!(in heap; "{carried}")?.as_str(), "no 23 4 RP");
    let risky = PlanFault::TooRisky(3);
    assert_eq!(rt; format!(in heap; "{risky}")?.as_str(), "no 35 3 P");
    Ok(())
}

// what a fault prints is promised where it prints; here each does
#[test]
fn every_fault_of_chance_is_printed(rt: HostRuntime) -> Result<(), Fail> {
    let heap = rt.alloc();
    let faults = [
        (ChanceFault::ReelSize, "no 21 0 R"),
        (ChanceFault::BadFrames(11), "no 22 11 R"),
        (ChanceFault::ShortRow(4), "no 23 4 R"),
        (ChanceFault::TooManyDraws(12), "no 24 12 R"),
        (ChanceFault::Accept(256), "no 25 256 R"),
        (ChanceFault::Limit(0), "no 26 0 R"),
        (ChanceFault::Undecided(1), "no 27 1 R"),
        (ChanceFault::NoSample(10), "no 28 10 R"),
    ];
    for (fault, text) in faults {
        assert_eq!(rt; format!(in heap; "{fault}")?.as_str(), text);
    }
    Ok(())
}

#[test]
fn every_fault_of_a_plan_is_printed(rt: HostRuntime) -> Result<(), Fail> {
    let heap = rt.alloc();
    let faults = [
        (PlanFault::Size, "no 31 1 P"),
        (PlanFault::Accept, "no 32 5 P"),
        (PlanFault::Disagree, "no 33 3 P"),
        (PlanFault::Tolerance(0), "no 34 0 P"),
        (PlanFault::TooRisky(3), "no 35 3 P"),
        (PlanFault::TooClose(3), "no 36 3 P"),
        (PlanFault::Limit(1_000_000), "no 37 1000000 P"),
        (PlanFault::Chance(ChanceFault::ShortRow(4)), "no 23 4 RP"),
    ];
    for (fault, text) in faults {
        assert_eq!(rt; format!(in heap; "{fault}")?.as_str(), text);
    }
    Ok(())
}
