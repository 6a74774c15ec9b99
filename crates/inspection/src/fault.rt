// Why a call of an inspection is refused.
ghost use Rattle.std.specs.Prelude.{◌≡◌, Some};
ghost use Rattle.film.specs.Refusals.{refusal_text};
ghost use Rattle.inspection.specs.Faults.{inspection_refusal};
ghost use Rattle.inspection.specs.declared.fault.InspectionFault.TheVariants.{Unlocated as UnlocatedFault};

use film::address::AddressFault;
use film::fault::{Fault, Printed};
use std::fmt;

#[derive(Clone, Copy, PartialEq, Eq, Debug)]
pub enum InspectionFault {
    // the address names no frame of the reel
    Unlocated(AddressFault),
    // the table is shorter than both samples together: the entries needed
    ShortTable(u32),
    // the standing is settled, or its sample is all pulled: the pulls so far
    NoMorePulls(u32),
    // the rule lets this frame not follow those drawn
    MayNotFollow(u32),
    // the ticket is of another reel, or not of the frame at its place: the place
    OtherTicket(u32),
    // the frame at the ticket's place is not out: the place
    NotOut(u32),
}

impl Fault for InspectionFault {
    ghost refusal = { inspection_refusal };

    fn number(&self) -> u32 {
        match self {
            InspectionFault::Unlocated(fault) => fault.number(),
            InspectionFault::ShortTable(_) => 41,
            InspectionFault::NoMorePulls(_) => 42,
            InspectionFault::MayNotFollow(_) => 43,
            InspectionFault::OtherTicket(_) => 44,
            InspectionFault::NotOut(_) => 45,
        }
    }

    fn place(&self) -> u32 {
        match self {
            InspectionFault::Unlocated(fault) => fault.place(),
            InspectionFault::ShortTable(needed) => *needed,
            InspectionFault::NoMorePulls(pulled) => *pulled,
            InspectionFault::MayNotFollow(frame) => *frame,
            InspectionFault::OtherTicket(place) => *place,
            InspectionFault::NotOut(place) => *place,
        }
    }

    fn layers(&self) -> &'static str {
        match self {
            InspectionFault::Unlocated(_) => "AI",
            _ => "I",
        }
    }
}

impl From<AddressFault> for InspectionFault {
    ghost from_gives = { λ fault r. r ≡ UnlocatedFault fault };

    fn from(fault: AddressFault) -> InspectionFault {
        InspectionFault::Unlocated(fault)
    }
}

impl fmt::Display for InspectionFault {
    ghost output = { λ fault. Some (refusal_text (inspection_refusal fault)) };

    fn fmt<W: fmt::Write>(&self, f: &mut fmt::Formatter<W>) -> fmt::Result {
        write!(f, "{}", Printed(self))
    }
}
