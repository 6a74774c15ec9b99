// Why a line is refused.
ghost use Rattle.std.specs.Prelude.{◌≡◌, Some};
ghost use Rattle.console.specs.Faults.{console_text};
ghost use Rattle.console.specs.declared.fault.ConsoleFault.TheVariants.{Plan as PlanCase, Inspection as InspectionCase, Slip as SlipCase};

use inspection::fault::InspectionFault;
use plans::fault::PlanFault;
use slip::fault::SlipFault;
use std::fmt;

#[derive(Clone, Copy, PartialEq, Eq, Debug)]
pub enum ConsoleFault {
    // the line, by its number, cannot be read, or names no rule or scheme
    Unreadable(u32),
    // the line, by its number, comes before or after its turn
    OutOfTurn(u32),
    // more than 65,536 bytes of lines
    TooLong,
    Plan(PlanFault),
    Inspection(InspectionFault),
    Slip(SlipFault),
}

impl From<PlanFault> for ConsoleFault {
    ghost from_gives = { λ fault r. r ≡ PlanCase fault };

    fn from(fault: PlanFault) -> ConsoleFault {
        ConsoleFault::Plan(fault)
    }
}

impl From<InspectionFault> for ConsoleFault {
    ghost from_gives = { λ fault r. r ≡ InspectionCase fault };

    fn from(fault: InspectionFault) -> ConsoleFault {
        ConsoleFault::Inspection(fault)
    }
}

impl From<SlipFault> for ConsoleFault {
    ghost from_gives = { λ fault r. r ≡ SlipCase fault };

    fn from(fault: SlipFault) -> ConsoleFault {
        ConsoleFault::Slip(fault)
    }
}

// A lower layer's refusal as it is, with the program's letter behind it; as a `Fault` it would name all their letters again.
impl fmt::Display for ConsoleFault {
    ghost output = { λ fault. Some (console_text fault) };

    fn fmt<W: fmt::Write>(&self, f: &mut fmt::Formatter<W>) -> fmt::Result {
        match self {
            ConsoleFault::Unreadable(line) => write!(f, "no 61 {line} M"),
            ConsoleFault::OutOfTurn(line) => write!(f, "no 62 {line} M"),
            ConsoleFault::TooLong => write!(f, "no 63 0 M"),
            ConsoleFault::Plan(fault) => write!(f, "{fault}M"),
            ConsoleFault::Inspection(fault) => write!(f, "{fault}M"),
            ConsoleFault::Slip(fault) => write!(f, "{fault}M"),
        }
    }
}
