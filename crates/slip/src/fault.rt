// Why a slip is not written.
ghost use Rattle.std.specs.Prelude.{◌≡◌, Some};
ghost use Rattle.film.specs.Refusals.{refusal_text};
ghost use Rattle.slip.specs.Faults.{slip_refusal};
ghost use Rattle.slip.specs.declared.fault.SlipFault.TheVariants.{Inspection as InspectionCase, Address as AddressCase};

use film::address::AddressFault;
use film::fault::{Fault, Printed};
use inspection::fault::InspectionFault;
use std::fmt;

#[derive(Clone, Copy, PartialEq, Eq, Debug)]
pub enum SlipFault {
    // the inspection does not say how it stands
    Inspection(InspectionFault),
    // the buffer is shorter than the slip: the bytes needed
    ShortBuffer(u32),
    // a bad frame has no address in the scheme
    Address(AddressFault),
}

impl Fault for SlipFault {
    ghost refusal = { slip_refusal };

    fn number(&self) -> u32 {
        match self {
            SlipFault::Inspection(fault) => fault.number(),
            SlipFault::ShortBuffer(_) => 51,
            SlipFault::Address(fault) => fault.number(),
        }
    }

    fn place(&self) -> u32 {
        match self {
            SlipFault::Inspection(fault) => fault.place(),
            SlipFault::ShortBuffer(needed) => *needed,
            SlipFault::Address(fault) => fault.place(),
        }
    }

    fn layers(&self) -> &'static str {
        match self {
            SlipFault::Inspection(InspectionFault::Unlocated(_)) => "AIS",
            SlipFault::Inspection(_) => "IS",
            SlipFault::ShortBuffer(_) => "S",
            SlipFault::Address(_) => "AS",
        }
    }
}

impl From<InspectionFault> for SlipFault {
    ghost from_gives = { λ fault r. r ≡ InspectionCase fault };

    fn from(fault: InspectionFault) -> SlipFault {
        SlipFault::Inspection(fault)
    }
}

impl From<AddressFault> for SlipFault {
    ghost from_gives = { λ fault r. r ≡ AddressCase fault };

    fn from(fault: AddressFault) -> SlipFault {
        SlipFault::Address(fault)
    }
}

impl fmt::Display for SlipFault {
    ghost output = { λ fault. Some (refusal_text (slip_refusal fault)) };

    fn fmt<W: fmt::Write>(&self, f: &mut fmt::Formatter<W>) -> fmt::Result {
        write!(f, "{}", Printed(self))
    }
}
