// Calls of an inspection in a scheme that a line names. A scheme's constants are its type's, so the name picks the type.
ghost use Rattle.std.specs.Prelude.{◌≡◌};
ghost use Rattle.film.specs.Names.{scheme_of};
ghost use Rattle.film.specs.Refusals.{reading};
ghost use Rattle.inspection.specs.Readings.{held_of, rule_of};
ghost use Rattle.slip.specs.Answers.{Writes};
ghost use Rattle.slip.specs.Faults.{slip_refusal};
ghost use Rattle.console.specs.Sessions.{viewed};
ghost use Rattle.console.specs.Views.{Leaves, view_reading};

use crate::request::SchemeName;
use draws::entry::Entry;
use draws::rule::DrawRule;
use film::address::Address;
use film::scheme::Scheme;
use film::schemes::{Feet16, Feet35, Timecode24};
use inspection::calls::Inspection;
use inspection::fault::InspectionFault;
use inspection::report::Standing;
use inspection::ticket::Mark;
use slip::fault::SlipFault;
use slip::writer::write;

// Pulls the frame at an address, marks it at once, and answers the standing.
pub fn view<R: DrawRule>(
    inspection: &mut Inspection<R>,
    scheme: SchemeName,
    address: Address,
    mark: Mark,
    table: &mut [Entry],
) -> Result<Standing, InspectionFault>
    ensures left { Leaves (viewed (R.DrawRule.meaning (rule_of inspection.old)) (scheme_of scheme) (held_of inspection.old) table.old address mark) (held_of inspection.new) table.new (view_reading result) }
    ensures rule { rule_of inspection.new ≡ rule_of inspection.old }
{
    match scheme {
        SchemeName::Film35 => view_in(inspection, &Feet35, address, mark, table),
        SchemeName::Film16 => view_in(inspection, &Feet16, address, mark, table),
        SchemeName::Seconds24 => view_in(inspection, &Timecode24, address, mark, table),
    }
}

#[tactic(auto, unfolding(crate::specs::Sessions::viewed))]
fn view_in<R: DrawRule, S: Scheme>(
    inspection: &mut Inspection<R>,
    scheme: &S,
    address: Address,
    mark: Mark,
    table: &mut [Entry],
) -> Result<Standing, InspectionFault>
    ensures left { Leaves (viewed (R.DrawRule.meaning (rule_of inspection.old)) (S.Scheme.meaning scheme.now) (held_of inspection.old) table.old address mark) (held_of inspection.new) table.new (view_reading result) }
    ensures rule { rule_of inspection.new ≡ rule_of inspection.old }
{
    let ticket = inspection.pull(scheme, address, table)?;
    inspection.mark(ticket, mark, table)?;
    Ok(inspection.standing(table)?.standing)
}

// Writes the slip at the front of the buffer, and answers its length.
pub fn write_slip<R: DrawRule>(
    inspection: &Inspection<R>,
    scheme: SchemeName,
    table: &[Entry],
    buffer: &mut [u8],
) -> Result<usize, SlipFault>
    ensures { Writes (R.DrawRule.meaning (rule_of inspection.now)).code (scheme_of scheme) (held_of inspection.now) table.now buffer.old (reading slip_refusal result) buffer.new }
{
    match scheme {
        SchemeName::Film35 => write(inspection, table, &Feet35, buffer),
        SchemeName::Film16 => write(inspection, table, &Feet16, buffer),
        SchemeName::Seconds24 => write(inspection, table, &Timecode24, buffer),
    }
}
