// Writing the slip of an inspection.
ghost use Rattle.film.specs.Refusals.{reading};
ghost use Rattle.inspection.specs.Readings.{held_of, rule_of};
ghost use Rattle.slip.specs.Answers.{Writes};
ghost use Rattle.slip.specs.Faults.{slip_refusal};

use crate::fault::SlipFault;
use crate::frames::check_addresses;
use crate::put::Cursor;
use draws::entry::Entry;
use draws::rule::DrawRule;
use film::scheme::Scheme;
use inspection::calls::Inspection;

// How many bytes the fields of every slip take, and the field of a bad frame.
const HEAD: u32 = 74;

const BAD_FRAME: u32 = 9;

// Writes the slip at the front of the buffer, with the bad frames by their addresses in the scheme, and answers how many
// bytes it takes. Nothing is written before it is known that the whole slip can be.
pub fn write<R: DrawRule, S: Scheme>(
    inspection: &Inspection<R>,
    table: &[Entry],
    scheme: &S,
    buffer: &mut [u8],
) -> Result<usize, SlipFault>
    ensures { Writes (R.DrawRule.meaning (rule_of inspection.now)).code (S.Scheme.meaning scheme.now) (held_of inspection.now) table.now buffer.old (reading slip_refusal result) buffer.new }
{
    let report = inspection.standing(table)?;
    let needed = HEAD + BAD_FRAME * report.counts.bad;
    if buffer.len() < needed as usize {
        return Err(SlipFault::ShortBuffer(needed));
    }
    let certified = inspection.certified();
    let pulled = &table[0..report.counts.pulled as usize];
    check_addresses(scheme, certified.reel(), pulled)?;
    let mut cursor = Cursor::new(buffer);
    cursor.head(inspection, report);
    cursor.bad_frames(scheme, certified.reel(), pulled);
    Ok(cursor.count())
}
