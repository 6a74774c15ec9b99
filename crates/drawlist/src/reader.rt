// Reads a line of a draw list.
ghost use Rattle.std.specs.Prelude.{◌≡◌};
ghost use Rattle.drawlist.specs.Rows.{naming, named_in, name_of};

use crate::row::{Row, RowFault};
use film::address::Address;
use film::lookup::locate;
use film::name::SchemeName;
use film::schemes::{Feet16, Feet35, Timecode24};
use lines::numbers;

// What a line names on a reel of `reel` frames.
pub fn read_row(reel: u32, line: &[u8]) -> Row
    ensures { naming result ≡ name_of reel line.now }
{
    let [code, whole, part] = numbers::<3>(line).ok_or(RowFault::Unreadable)?;
    named_in(reel, code, Address { whole, part })
}

fn named_in(reel: u32, code: u32, address: Address) -> Row
    ensures { naming result ≡ named_in reel code address }
{
    // a scheme's constants are its type's, so the name picks the type
    let found = match SchemeName::try_from(code)? {
        SchemeName::Film35 => locate(&Feet35, reel, address),
        SchemeName::Film16 => locate(&Feet16, reel, address),
        SchemeName::Seconds24 => locate(&Timecode24, reel, address),
    };
    Ok(found?)
}
