// One row of the working: begun, cleared between samples, and added up.
ghost use Rattle.std.specs.Prelude.{◌≡◌, ◌^◌, ◌<◌, ◌≤◌, length, sum};
ghost use Rattle.plans.specs.Working.{cleared, start_row};
ghost use Rattle.sampling.specs.Rows.{cells_of, row_of};

use crate::limit::WHOLE;

// Nothing is drawn yet: no bad frame, for certain.
pub fn start(row: &mut [u64])
    requires { 0 < length row.old }
    ensures { row.new ≡ row_of (length row.old) start_row }
{
    row.fill(0);
    row[0] = WHOLE;
}

// What goes on to the next sample: the cells that neither accept nor reject.
pub fn clear(row: &mut [u64], accept: u32, reject: u32)
    requires { (accept < reject) × (reject ≤ length row.old) }
    ensures { row.new ≡ row_of (length row.old) (cleared accept reject (cells_of row.old)) }
{
    row[..accept as usize + 1].fill(0);
    row[reject as usize..].fill(0);
}

// The cells added up.
pub fn total(cells: &[u64]) -> u64
    requires { sum cells.now < 2 ^ 64 }
    ensures { result ≡ sum cells.now }
{
    cells.iter().sum()
}
