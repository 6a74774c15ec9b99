// A frame's address and an address's frame, by the code of a scheme.
ghost use Rattle.std.specs.Prelude.{◌≡◌};
ghost use Rattle.film.specs.Refusals.{refused};
ghost use Rattle.film.specs.Schemes.{Addresses, Locates, at};
ghost use Rattle.capi.specs.Crossings.{Crossed, address_crossing, number_crossing, unknown_code};
ghost use Rattle.capi.specs.Codes.{ByScheme};

use crate::answer::{AddressAnswer, NumberAnswer, UnknownCode};
use film::address::Address;
use film::lookup::{address_of, locate};
use film::name::SchemeName;
use film::schemes::{Feet16, Feet35, Timecode24};

// The frame at which the address stands, on a reel of `reel` frames.
#[unsafe(no_mangle)]
pub extern "C" fn kifolanto_locate(scheme: u32, reel: u32, whole: u32, part: u32) -> NumberAnswer
    ensures { ByScheme scheme (λ m. Crossed number_crossing (Locates m reel (at whole part)) result) (result ≡ number_crossing (refused (unknown_code scheme))) }
{
    let address = Address { whole, part };
    // a scheme's constants are its type's, so the name picks the type
    match SchemeName::try_from(scheme) {
        Ok(SchemeName::Film35) => locate(&Feet35, reel, address).into(),
        Ok(SchemeName::Film16) => locate(&Feet16, reel, address).into(),
        Ok(SchemeName::Seconds24) => locate(&Timecode24, reel, address).into(),
        Err(unknown) => Err(UnknownCode(unknown.code)).into(),
    }
}

// The address that stands at the frame, on a reel of `reel` frames.
#[unsafe(no_mangle)]
pub extern "C" fn kifolanto_address(scheme: u32, reel: u32, frame: u32) -> AddressAnswer
    ensures { ByScheme scheme (λ m. Crossed address_crossing (Addresses m reel frame) result) (result ≡ address_crossing (refused (unknown_code scheme))) }
{
    // the name picks the type, as in kifolanto_locate
    match SchemeName::try_from(scheme) {
        Ok(SchemeName::Film35) => address_of(&Feet35, reel, frame).into(),
        Ok(SchemeName::Film16) => address_of(&Feet16, reel, frame).into(),
        Ok(SchemeName::Seconds24) => address_of(&Timecode24, reel, frame).into(),
        Err(unknown) => Err(UnknownCode(unknown.code)).into(),
    }
}
