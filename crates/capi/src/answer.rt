// What crosses to a caller in C.
ghost use Rattle.std.specs.Prelude.{◌≡◌};
ghost use Rattle.film.specs.Refusals.{reading};
ghost use Rattle.capi.specs.Crossings.{address_crossing, crossing, ends_crossing, number_crossing, unknown_code};

use film::address::Address;
use film::fault::Fault;
use sampling::chance::Ends;

// A refusal's number, its place and the letter of the layer that gave it; all 0 where nothing was refused.
#[repr(C)]
#[derive(Clone, Copy)]
pub struct Refused {
    pub number: u32,
    pub place: u32,
    pub layer: u8,
}

// An enclosure, in units of one part in 2^40.
#[repr(C)]
#[derive(Clone, Copy)]
pub struct EndsAnswer {
    pub refused: Refused,
    pub lo: u64,
    pub hi: u64,
}

#[repr(C)]
#[derive(Clone, Copy)]
pub struct NumberAnswer {
    pub refused: Refused,
    pub value: u32,
}

#[repr(C)]
#[derive(Clone, Copy)]
pub struct AddressAnswer {
    pub refused: Refused,
    pub whole: u32,
    pub part: u32,
}

const ANSWERED: Refused = Refused {
    number: 0,
    place: 0,
    layer: 0,
};

// No rule or scheme has the code. A struct of its own: what film and draws answer is no fault of a layer.
#[derive(Clone, Copy)]
pub struct UnknownCode(pub u32);

impl Fault for UnknownCode {
    ghost refusal = { λ unknown. unknown_code unknown.0 };

    fn number(&self) -> u32 {
        61
    }

    fn place(&self) -> u32 {
        self.0
    }

    fn layers(&self) -> &'static str {
        "C"
    }
}

// The layers above the one that refused are not the caller's.
fn refusal_of<F: Fault>(fault: &F) -> Refused
    ensures { result ≡ crossing (F.refusal fault.now) }
{
    let layers = fault.layers().as_bytes();
    Refused {
        number: fault.number(),
        place: fault.place(),
        layer: layers.first().copied().unwrap_or(0),
    }
}

// One conversion a struct: C has no generic one.
impl<F: Fault + Drop> From<Result<u32, F>> for NumberAnswer {
    ghost from_gives = { λ found r. r ≡ number_crossing (reading F.refusal found) };

    fn from(found: Result<u32, F>) -> NumberAnswer {
        match found {
            Ok(value) => NumberAnswer {
                refused: ANSWERED,
                value,
            },
            Err(fault) => NumberAnswer {
                refused: refusal_of(&fault),
                value: 0,
            },
        }
    }
}

impl<F: Fault + Drop> From<Result<Address, F>> for AddressAnswer {
    ghost from_gives = { λ found r. r ≡ address_crossing (reading F.refusal found) };

    fn from(found: Result<Address, F>) -> AddressAnswer {
        match found {
            Ok(Address { whole, part }) => AddressAnswer {
                refused: ANSWERED,
                whole,
                part,
            },
            Err(fault) => AddressAnswer {
                refused: refusal_of(&fault),
                whole: 0,
                part: 0,
            },
        }
    }
}

impl<F: Fault + Drop> From<Result<Ends, F>> for EndsAnswer {
    ghost from_gives = { λ found r. r ≡ ends_crossing (reading F.refusal found) };

    fn from(found: Result<Ends, F>) -> EndsAnswer {
        match found {
            Ok(Ends { lo, hi }) => EndsAnswer {
                refused: ANSWERED,
                lo,
                hi,
            },
            Err(fault) => EndsAnswer {
                refused: refusal_of(&fault),
                lo: 0,
                hi: 0,
            },
        }
    }
}
