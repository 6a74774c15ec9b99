// From an address to its frame and back, one text for every scheme.
ghost use Rattle.std.specs.Prelude.{◌≡◌, ◌<◌, ◌≤◌, min};
ghost use Rattle.film.specs.Faults.{refusal_of};
ghost use Rattle.film.specs.Refusals.{reading};
ghost use Rattle.film.specs.Schemes.{Locates, Addresses, unit_frame, unit_address};

use crate::address::{Address, AddressFault};
use crate::scheme::Scheme;

// The frame at which the address stands, on a reel of `reel` frames.
pub fn locate<S: Scheme>(scheme: &S, reel: u32, address: Address) -> Result<u32, AddressFault>
    ensures { Locates (S.Scheme.meaning scheme.now) reel address (reading refusal_of result) }
{
    frame_in_units(scheme.frames_to_unit(), end_of(scheme, reel), address)
}

// The address that stands at the frame, on a reel of `reel` frames.
pub fn address_of<S: Scheme>(scheme: &S, reel: u32, frame: u32) -> Result<Address, AddressFault>
    ensures { Addresses (S.Scheme.meaning scheme.now) reel frame (reading refusal_of result) }
{
    address_in_units(scheme.frames_to_unit(), end_of(scheme, reel), frame)
}

// The first frame that the reel does not have or the scheme does not reach.
fn end_of<S: Scheme>(scheme: &S, reel: u32) -> u32
    ensures { result ≡ min reel (S.Scheme.meaning scheme.now).reach }
{
    reel.min(scheme.frames_reached())
}

// The frame of an address, where each unit holds `per_unit` frames.
fn frame_in_units(per_unit: u32, end: u32, address: Address) -> Result<u32, AddressFault>
    requires { per_unit ≤ 256 }
    ensures { reading refusal_of result ≡ unit_frame per_unit end address }
{
    if address.part >= per_unit {
        return Err(AddressFault::NoSuchPart);
    }
    // in 64 bits, since a large whole unit's frame does not fit 32
    let frame = address.whole as u64 * per_unit as u64 + address.part as u64;
    if frame < end as u64 {
        Ok(frame as u32)
    } else {
        Err(AddressFault::OffReel)
    }
}

// The address of a frame, where each unit holds `per_unit` frames.
fn address_in_units(per_unit: u32, end: u32, frame: u32) -> Result<Address, AddressFault>
    requires { 0 < per_unit }
    ensures { reading refusal_of result ≡ unit_address per_unit end frame }
{
    if frame >= end {
        return Err(AddressFault::OffReel);
    }
    Ok(Address {
        whole: frame / per_unit,
        part: frame % per_unit,
    })
}
