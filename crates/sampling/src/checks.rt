// What chance, certify and smallest refuse alike.
ghost use Rattle.std.specs.Prelude.{◌≡◌, ◌+◌, ◌||◌, cond, length, nat_lt};
ghost use Rattle.plans.specs.declared.fault.ChanceFault.TheVariants.{ReelSize, ShortRow};
ghost use Rattle.sampling.specs.Certifies.{no_limit, no_tolerance};
ghost use Rattle.sampling.specs.Chances.{no_reel};

use plans::fault::ChanceFault;

// A reel has 1 to 1,000,000 frames.
pub fn check_reel(reel: u32) -> Result<(), ChanceFault>
    ensures { result ≡ cond (no_reel reel) (Err ReelSize) (Ok tt) }
{
    if reel == 0 || reel > 1_000_000 {
        return Err(ChanceFault::ReelSize);
    }
    Ok(())
}

// Each row has the cells that are worked in.
pub fn check_rows(cells: u32, low: &[u64], high: &[u64]) -> Result<(), ChanceFault>
    ensures { result ≡ cond (nat_lt (length low.now) cells || nat_lt (length high.now) cells) (Err (ShortRow cells)) (Ok tt) }
{
    if low.len() < cells as usize || high.len() < cells as usize {
        return Err(ChanceFault::ShortRow(cells));
    }
    Ok(())
}

// Whether a tolerance is 0 or above the reel's frames. A bool, since smallest and certify refuse it by faults of two layers.
pub fn no_tolerance(reel: u32, tolerance: u32) -> bool
    ensures { result ≡ no_tolerance reel tolerance }
{
    tolerance == 0 || tolerance > reel
}

// Whether a limit is not 1 to 999,999 millionths; a bool for the same reason.
pub fn no_limit(limit: u32) -> bool
    ensures { result ≡ no_limit limit }
{
    limit == 0 || limit > 999_999
}
