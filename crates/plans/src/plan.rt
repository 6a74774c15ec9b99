// A sampling plan.
ghost use Rattle.plans.specs.Plans.{Agrees};

pub mod make;

// The first sample has n1 frames: with ac1 or fewer bad it passes, with re1 or more it is rejected. Otherwise n2 more
// frames follow, and it passes with ac2 or fewer bad in both samples. There is no second sample where n2 is 0.
#[derive(Clone, Copy, PartialEq, Eq, Debug)]
pub struct Plan {
    n1: u32,
    ac1: u32,
    re1: u32,
    n2: u32,
    ac2: u32,
    ghost agrees: { Agrees n1 ac1 re1 n2 ac2 },
}
