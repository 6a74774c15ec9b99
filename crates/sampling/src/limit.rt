// A limit on the share of false passes.
ghost use Rattle.std.specs.Prelude.{◌≡◌};
ghost use Rattle.sampling.specs.Certifies.{is_within};

// A certainty, in the units of an enclosure's ends.
pub const WHOLE: u64 = 1_099_511_627_776;

// Whether units of one part in 2^40 are within a limit in millionths. In 128 bits, where no product wraps.
pub fn within(limit: u32, units: u64) -> bool
    ensures { result ≡ is_within limit units }
{
    units as u128 * 1_000_000 <= limit as u128 * WHOLE as u128
}
