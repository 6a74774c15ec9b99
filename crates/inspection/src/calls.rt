// An inspection and its calls.
ghost use Rattle.std.specs.Prelude.{◌≡◌, ◌+◌, ◌≤◌, length, IfOk};
ghost use Rattle.plans.specs.Makes.{numbers_of as plan_numbers};
ghost use Rattle.inspection.specs.Answers.{Few, Marks, Opens, Pulls, Stands, mark_answer, no_more, when_given};
ghost use Rattle.inspection.specs.Readings.{HandsBack, IsUnspent, OpensWith, BothSamples, check_reading, held_of, mark_reading, numbers_of, open_reading, pull_reading, rule_of, standing_reading};
ghost use Rattle.inspection.specs.Runs.{LawOfRuns};
ghost use Rattle.inspection.specs.Settling.{ruled_by, settled_by};
ghost use Rattle.inspection.specs.Tables.{size_of, standing_code, table_standing};
ghost use Rattle.inspection.specs.Views.{Guarded};
ghost use Rattle.sampling.specs.Certified.{certified_numbers};

use crate::fault::InspectionFault;
use crate::report::{Report, Standing};
use crate::table;
use crate::ticket::{Mark, Stub, Ticket, tear};
use draws::entry::{BLANK, Entry, State};
use draws::rule::DrawRule;
use film::address::Address;
use film::lookup::locate;
use film::scheme::Scheme;
use plans::plan::Plan;
use sampling::certified::Certified;

// Opened on a certified plan alone; its pull table stays with the caller, and is lent to each call.
#[derive(Drop)]
pub struct Inspection<R> {
    number: u32,
    certified: Certified<R>,
    standing: Standing,
}

// A mark that was refused, with the ticket handed back.
pub struct Unmarked {
    pub fault: InspectionFault,
    pub ticket: Ticket,
}

// For a caller who gives the frame up when its mark is refused: the ticket is torn.
impl From<Unmarked> for InspectionFault {
    ghost from_gives = { λ unmarked r. r ≡ unmarked.fault };

    fn from(unmarked: Unmarked) -> InspectionFault {
        let Unmarked { fault, ticket } = unmarked;
        let _stub = tear(ticket);
        fault
    }
}

// PASS and REJECT stay. Any other standing moves to what the samples give whose entries are all marked: the first by its
// own bad frames, and the second by those of both together.
fn move_on(standing: &mut Standing, plan: Plan, first: Option<u32>, second: Option<u32>)
    ensures { standing_code standing.new ≡ settled_by (standing_code standing.old) (ruled_by plan.ac1 plan.re1 plan.ac2 first second) }
{
    match (*standing, first, second) {
        (Standing::Pass, _, _) => {}
        (Standing::Reject, _, _) => {}
        (_, None, _) => *standing = Standing::Open,
        (_, Some(bad), _) if bad <= plan.ac1() => *standing = Standing::Pass,
        (_, Some(bad), _) if bad >= plan.re1() => *standing = Standing::Reject,
        (_, Some(_), None) => *standing = Standing::Second,
        (_, Some(bad), Some(more)) => {
            // in 64 bits, since the sum need not fit 32
            *standing = if bad as u64 + more as u64 <= plan.ac2() as u64 {
                Standing::Pass
            } else {
                Standing::Reject
            }
        }
    }
}

// Moves the standing to what the entries of both samples now give.
fn settle(standing: &mut Standing, plan: Plan, table: &[Entry])
    requires { plan.n1 + plan.n2 ≤ length table.now }
    ensures { standing_code standing.new ≡ settled_by (standing_code standing.old) (table_standing (plan_numbers plan) table.now) }
{
    let end = plan.n1() as usize;
    let first = table::completed(&table[0..end]);
    let second = table::completed(&table[end..end + plan.n2() as usize]);
    move_on(standing, plan, first, second);
}

// Opens an inspection of a reel, with both samples' entries of the table emptied.
pub fn open<R: DrawRule + Drop>(
    number: u32,
    certified: Certified<R>,
    table: &mut [Entry],
) -> Result<Inspection<R>, InspectionFault>
    ensures answer { Opens number (certified_numbers certified) table.old (open_reading result) table.new }
    ensures rule { OpensWith result certified.rule }
    ensures runs { when_given (open_reading result) (λ h. LawOfRuns (R.DrawRule.meaning certified.rule) h table.new) }
    ensures share { when_given (open_reading result) (λ h. Guarded (R.DrawRule.meaning certified.rule) h table.new) }
{
    let inspection = Inspection {
        number,
        certified,
        standing: Standing::Open,
    };
    let size = inspection.entries(table)?.len();
    table[0..size].fill(BLANK);
    Ok(inspection)
}

impl<R: DrawRule> Inspection<R> {
    // Pulls the frame at an address, if the plan's own rule lets it follow, and sends it out with a ticket.
    pub fn pull<S: Scheme>(
        &self,
        scheme: &S,
        address: Address,
        table: &mut [Entry],
    ) -> Result<Ticket, InspectionFault>
        ensures answer { Pulls (R.DrawRule.meaning (rule_of self.now)) (S.Scheme.meaning scheme.now) (held_of self.now) table.old address (pull_reading result) table.new }
        ensures unspent { IfOk result IsUnspent }
    {
        let pulled = table::count(self.entries(table)?).pulled;
        if self.no_more(pulled) {
            return Err(InspectionFault::NoMorePulls(pulled));
        }
        let reel = self.certified.reel();
        let frame = locate(scheme, reel, address)?;
        if !self
            .certified
            .rule()
            .may_follow(reel, table, pulled as usize, frame)
        {
            return Err(InspectionFault::MayNotFollow(frame));
        }
        table[pulled as usize] = Entry {
            frame,
            state: State::Out,
        };
        Ok(Ticket::write(Stub {
            reel: self.number,
            place: pulled,
            frame,
        }))
    }
}

impl<R> Inspection<R> {
    // Marks the frame that the ticket is of, and spends the ticket; a refused mark hands it back.
    pub fn mark(&mut self, ticket: Ticket, mark: Mark, table: &mut [Entry]) -> Result<(), Unmarked>
        ensures answer { Marks (held_of self.old) table.old (numbers_of ticket) mark (mark_reading result) (held_of self.new) table.new }
        ensures rule { rule_of self.new ≡ rule_of self.old }
        ensures back { HandsBack result ticket }
    {
        let stub = ticket.stub();
        if let Err(fault) = self.check(stub, table) {
            return Err(Unmarked { fault, ticket });
        }
        tear(ticket);
        table[stub.place as usize].state = State::from(mark);
        settle(&mut self.standing, self.certified.plan(), table);
        Ok(())
    }

    // The reel's number.
    pub fn number(&self) -> u32
        ensures { result ≡ (held_of self.now).number }
    {
        self.number
    }

    // The plan that the inspection was opened on, with its rule.
    pub fn certified(&self) -> &Certified<R>
        ensures { result.now ≡ self.now.certified }
    {
        &self.certified
    }

    // How many entries of the table both samples take.
    fn size(&self) -> u32
        ensures is { result ≡ size_of (certified_numbers self.now.certified) }
        ensures small { result ≤ 32768 }
    {
        let plan = self.certified.plan();
        plan.n1() + plan.n2()
    }

    // The entries of both samples, if the table has so many.
    fn entries<'t>(&self, table: &'t [Entry]) -> Result<&'t [Entry], InspectionFault>
        ensures { BothSamples (size_of (certified_numbers self.now.certified)) table.now result }
    {
        let size = self.size();
        table
            .get(0..size as usize)
            .ok_or(InspectionFault::ShortTable(size))
    }

    // Refuses a mark whose ticket is not of its entry, or whose entry is not out.
    fn check(&self, stub: Stub, table: &[Entry]) -> Result<(), InspectionFault>
        ensures { check_reading result ≡ mark_answer (held_of self.now) table.now stub }
    {
        let entries = self.entries(table)?;
        let place = stub.place as usize;
        if stub.reel != self.number
            || place >= entries.len()
            || entries[place].frame != stub.frame
        {
            return Err(InspectionFault::OtherTicket(stub.place));
        }
        if entries[place].state != State::Out {
            return Err(InspectionFault::NotOut(stub.place));
        }
        Ok(())
    }

    // Whether the standing is settled, or its sample is all pulled.
    fn no_more(&self, pulled: u32) -> bool
        ensures { result ≡ no_more (held_of self.now) pulled }
    {
        match self.standing {
            Standing::Open => pulled >= self.certified.plan().n1(),
            Standing::Second => pulled >= self.size(),
            Standing::Pass | Standing::Reject => true,
        }
    }

    // Where the inspection stands, and what its table counts.
    pub fn standing(&self, table: &[Entry]) -> Result<Report, InspectionFault>
        ensures answer { Stands (held_of self.now) table.now (standing_reading result) }
        ensures few { when_given (standing_reading result) Few }
    {
        Ok(Report {
            standing: self.standing,
            counts: table::count(self.entries(table)?),
        })
    }
}
