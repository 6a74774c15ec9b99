// The fields that every slip begins with.
ghost use Rattle.std.specs.Prelude.{◌≡◌, ◌≤◌, length};
ghost use Rattle.inspection.specs.Answers.{Few};
ghost use Rattle.inspection.specs.Readings.{rule_of};
ghost use Rattle.inspection.specs.Tables.{standing_code};
ghost use Rattle.plans.specs.Makes.{numbers_of};
ghost use Rattle.sampling.specs.Certified.{certified_numbers};
ghost use Rattle.slip.specs.Cursors.{Wrote, left};
ghost use Rattle.slip.specs.Fields.{field_bytes, head_fields};
ghost use Rattle.slip.specs.Rooms.{plan_numbers};
ghost use Rattle.std.specs.List.{flat_map};

use crate::put::{Cursor, Number, Tag};
use draws::rule::DrawRule;
use inspection::calls::Inspection;
use inspection::report::Report;
use plans::plan::Plan;

impl<'b> Cursor<'b> {
    // Everything before the bad frames.
    pub fn head<R: DrawRule>(&mut self, inspection: &Inspection<R>, report: Report)
        requires room { 74 ≤ length (left self.old) }
        requires few { Few (record { code = standing_code report.standing; counts = report.counts }) }
        ensures { Wrote self.old (flat_map field_bytes (head_fields (R.DrawRule.meaning (rule_of inspection.now)).code (record { number = inspection.now.number; terms = certified_numbers inspection.now.certified; standing = standing_code report.standing }) report.counts)) self.new }
    {
        let certified = inspection.certified();
        self.field(Tag::Reel, &[Number::Four(inspection.number())]);
        self.field(Tag::Frames, &[Number::Four(certified.reel())]);
        self.field(Tag::Rule, &[Number::One(certified.rule().code())]);
        self.field(Tag::Plan, &plan_numbers(certified.plan()));
        let guarantee = [
            Number::Four(certified.tolerance()),
            Number::Four(certified.limit()),
        ];
        self.field(Tag::Guarantee, &guarantee);
        let ends = [Number::Eight(certified.lo()), Number::Eight(certified.hi())];
        self.field(Tag::Chance, &ends);
        self.field(Tag::Standing, &[Number::One(report.standing.code())]);
        let counts = [
            Number::Two(report.counts.pulled as u16),
            Number::Two(report.counts.good as u16),
            Number::Two(report.counts.bad as u16),
        ];
        self.field(Tag::Counts, &counts);
    }
}

// No number of a plan passes 32,768.
fn plan_numbers(plan: Plan) -> [Number; 5]
    ensures { result ≡ plan_numbers (numbers_of plan) }
{
    [
        Number::Two(plan.n1() as u16),
        Number::Two(plan.ac1() as u16),
        Number::Two(plan.re1() as u16),
        Number::Two(plan.n2() as u16),
        Number::Two(plan.ac2() as u16),
    ]
}
