// Goes through a draw list once.
ghost use Rattle.std.specs.Prelude.{◌≡◌, ℕ, map, IfOk, OnOk};
ghost use Rattle.std.specs.Ordering.{nat_cmp};
ghost use Rattle.std.specs.BTreeMap.{get};
ghost use Rattle.drawlist.specs.Rows.{naming, name_of};
ghost use Rattle.drawlist.specs.Surveys.{Surveys, first_naming, known, noted};

use crate::reader::read_row;
use crate::row::{Row, Seen, Tally};
use std::alloc::{AllocError, Global};
use std::collections::BTreeMap;

#[derive(Drop)]
pub struct Findings {
    pub lines: Vec<Seen>,
    pub tally: Tally,
}

// The first line that names the frame, from 0.
pub fn first_naming(seen: &[Seen], frame: u32) -> Option<usize>
    ensures { result ≡ first_naming frame (map (λ s. naming s.row) seen.now) }
{
    seen.iter().position(|s| s.row == Ok(frame))
}

// The line that named the row's frame first; where none did, line i is noted as the first.
fn named_before(
    firsts: &mut BTreeMap<u32, usize>,
    row: Row,
    i: usize,
) -> Result<Option<usize>, AllocError>
    ensures earlier { IfOk result (λ earlier. earlier ≡ known (naming row) (get nat_cmp firsts.old)) }
    ensures noted { OnOk result ((f : ℕ) → get nat_cmp firsts.new f ≡ noted (naming row) i (get nat_cmp firsts.old) f) }
{
    let Ok(frame) = row else {
        return Ok(None);
    };
    let earlier = firsts.get(&frame).copied();
    if earlier.is_none() {
        firsts.insert(frame, i)?;
    }
    Ok(earlier)
}

// What the lines name on a reel of `reel` frames.
pub fn survey(heap: Global, reel: u32, lines: &[&[u8]]) -> Result<Findings, AllocError>
    ensures { IfOk result (λ s. Surveys reel (map (λ l. name_of reel l.now) lines.now) s.lines.items s.tally) }
{
    let mut seen = Vec::new(heap);
    let mut firsts = BTreeMap::new(heap);
    let mut tally = Tally::default();
    for (i, line) in lines.iter().enumerate() {
        let row = read_row(reel, line);
        let earlier = named_before(&mut firsts, row, i)?;
        let line = Seen { row, earlier };
        tally.count(line);
        seen.push(line)?;
    }
    Ok(Findings { lines: seen, tally })
}
