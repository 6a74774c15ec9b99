// How plans are made, and what their numbers are.
ghost use Rattle.std.specs.Prelude.{◌≡◌};
ghost use Rattle.plans.specs.Makes.{agreeing, made, plan_reading};

use crate::fault::PlanFault;
use crate::plan::Plan;

// The plan with these numbers, if there is one.
pub fn make(n1: u32, ac1: u32, re1: u32, n2: u32, ac2: u32) -> Result<Plan, PlanFault>
    ensures { plan_reading result ≡ made n1 ac1 re1 n2 ac2 }
{
    // in 64 bits, since the sum of the two sizes need not fit 32
    if n1 == 0 || n1 as u64 + n2 as u64 > 32768 {
        return Err(PlanFault::Size);
    }
    if ac2 > 255 {
        return Err(PlanFault::Accept);
    }
    if !agree(ac1, re1, n2, ac2) {
        return Err(PlanFault::Disagree);
    }
    Ok(Plan {
        n1,
        ac1,
        re1,
        n2,
        ac2,
    })
}

// Whether the accept and reject numbers go together, with a second sample or without one.
fn agree(ac1: u32, re1: u32, n2: u32, ac2: u32) -> bool
    ensures { result ≡ agreeing ac1 re1 n2 ac2 }
{
    // in 64 bits, since one more than an accept number need not fit 32
    let accept = ac1 as u64;
    let reject = re1 as u64;
    if n2 == 0 {
        reject == accept + 1 && ac2 == ac1
    } else {
        accept + 2 <= reject && reject <= ac2 as u64 + 1
    }
}

impl Plan {
    pub fn n1(&self) -> u32
        ensures { result ≡ self.now.n1 }
    {
        self.n1
    }

    pub fn ac1(&self) -> u32
        ensures { result ≡ self.now.ac1 }
    {
        self.ac1
    }

    pub fn re1(&self) -> u32
        ensures { result ≡ self.now.re1 }
    {
        self.re1
    }

    pub fn n2(&self) -> u32
        ensures { result ≡ self.now.n2 }
    {
        self.n2
    }

    pub fn ac2(&self) -> u32
        ensures { result ≡ self.now.ac2 }
    {
        self.ac2
    }
}
