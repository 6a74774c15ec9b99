// The worked frames, the ends of each reach, and hostile addresses.
use crate::address::{Address, AddressFault};
use crate::lookup::{address_of, locate};
use crate::scheme::Scheme;
use crate::schemes::{Feet16, Feet35, Timecode24};
use std::process::Abort;
use std::test::Fail;

const WHOLE_DAY: u32 = 4_000_000_000;

// The frame and the address find each other.
fn pair<S: Scheme>(rt: &impl Abort, scheme: &S, frame: u32, whole: u32, part: u32) {
    let address = Address { whole, part };
    assert_eq!(rt; locate(scheme, WHOLE_DAY, address), Ok(frame));
    assert_eq!(rt; address_of(scheme, WHOLE_DAY, frame), Ok(address));
}

fn refused<S: Scheme>(
    rt: &impl Abort,
    scheme: &S,
    reel: u32,
    whole: u32,
    part: u32,
    fault: AddressFault,
) {
    assert_eq!(rt; locate(scheme, reel, Address { whole, part }), Err(fault));
}

#[test]
fn frame_100_in_each_scheme(rt: HostRuntime) {
    pair(&rt, &Feet35, 100, 6, 4);
    pair(&rt, &Feet16, 100, 2, 20);
    pair(&rt, &Timecode24, 100, 4, 4);
}

#[test]
fn last_frame_of_each_reach(rt: HostRuntime) {
    pair(&rt, &Feet35, 999_999, 62_499, 15);
    refused(&rt, &Feet35, WHOLE_DAY, 62_500, 0, AddressFault::OffReel);
    pair(&rt, &Feet16, 999_999, 24_999, 39);
    refused(&rt, &Feet16, WHOLE_DAY, 25_000, 0, AddressFault::OffReel);
    pair(&rt, &Timecode24, 2_073_599, 86_399, 23);
    refused(
        &rt,
        &Timecode24,
        WHOLE_DAY,
        86_400,
        0,
        AddressFault::OffReel,
    );
}

#[test]
fn one_past_the_end_has_no_address(rt: HostRuntime) {
    assert_eq!(rt;
        address_of(&Feet35, 1_000_000, 1_000_000),
        Err(AddressFault::OffReel)
    );
    assert_eq!(rt;
        address_of(&Timecode24, WHOLE_DAY, 2_073_600),
        Err(AddressFault::OffReel)
    );
    assert_eq!(rt; address_of(&Feet16, 100, 100), Err(AddressFault::OffReel));
    assert_eq!(rt; address_of(&Feet16, 0, 0), Err(AddressFault::OffReel));
}

#[test]
fn refused_addresses(rt: HostRuntime) {
    refused(&rt, &Feet35, 1_000, 0, 16, AddressFault::NoSuchPart);
    // the part is looked at first
    refused(
        &rt,
        &Feet35,
        0,
        4_294_967_295,
        4_294_967_295,
        AddressFault::NoSuchPart,
    );
    refused(&rt, &Feet35, 100, 6, 4, AddressFault::OffReel);
    // 107,374,183 feet of 40 frames pass 32 bits by 24
    refused(
        &rt,
        &Feet16,
        WHOLE_DAY,
        107_374_183,
        0,
        AddressFault::OffReel,
    );
    refused(
        &rt,
        &Timecode24,
        WHOLE_DAY,
        4_294_967_295,
        23,
        AddressFault::OffReel,
    );
}

#[test]
fn codes_and_texts(rt: HostRuntime) -> Result<(), Fail> {
    assert_eq!(rt; Feet35.slip_code(), 1);
    assert_eq!(rt; Feet16.slip_code(), 2);
    assert_eq!(rt; Timecode24.slip_code(), 3);
    let heap = rt.alloc();
    assert_eq!(rt;
        AddressFault::NoSuchPart.to_string(heap)?.as_str(),
        "no 11 2 A"
    );
    assert_eq!(rt;
        AddressFault::OffReel.to_string(heap)?.as_str(),
        "no 12 1 A"
    );
    Ok(())
}
