// A plan whose share of false passes is known to keep a limit.
ghost use Rattle.std.specs.Prelude.{◌≡◌};

use plans::plan::Plan;

pub mod certify;

// Only `certify` makes one: on a reel of `reel` frames of which `tolerance` are bad, the plan passes at most `limit`
// millionths of what the rule may draw. The chance lies between `lo` and `hi`, in units of one part in 2^40.
#[derive(Drop)]
pub struct Certified<R> {
    rule: R,
    plan: Plan,
    reel: u32,
    tolerance: u32,
    limit: u32,
    // two fields and no Ends, since the promises of their readers name them
    lo: u64,
    hi: u64,
}

impl<R> Certified<R> {
    pub fn rule(&self) -> &R
        ensures { result.now ≡ self.now.rule }
    {
        &self.rule
    }

    pub fn plan(&self) -> Plan
        ensures { result ≡ self.now.plan }
    {
        self.plan
    }

    pub fn reel(&self) -> u32
        ensures { result ≡ self.now.reel }
    {
        self.reel
    }

    pub fn tolerance(&self) -> u32
        ensures { result ≡ self.now.tolerance }
    {
        self.tolerance
    }

    pub fn limit(&self) -> u32
        ensures { result ≡ self.now.limit }
    {
        self.limit
    }

    pub fn lo(&self) -> u64
        ensures { result ≡ self.now.lo }
    {
        self.lo
    }

    pub fn hi(&self) -> u64
        ensures { result ≡ self.now.hi }
    {
        self.hi
    }
}
