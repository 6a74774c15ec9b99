// Why a row could not be worked out.
use plans::fault::{ChanceFault, PlanFault};
use std::error::Error;
use std::fmt;

#[derive(Clone, Copy, Debug)]
pub struct Refusal(PlanFault);

impl From<PlanFault> for Refusal {
    fn from(fault: PlanFault) -> Refusal {
        Refusal(fault)
    }
}

impl From<ChanceFault> for Refusal {
    fn from(fault: ChanceFault) -> Refusal {
        Refusal(PlanFault::Chance(fault))
    }
}

impl fmt::Display for Refusal {
    fn fmt<W: fmt::Write>(&self, f: &mut fmt::Formatter<W>) -> fmt::Result {
        let fault = self.0;
        write!(f, "a row is refused: {fault}")
    }
}

impl Error for Refusal {}
