// The three schemes in use.
ghost use Rattle.film.specs.Schemes.{feet35, feet16, timecode24};
ghost use Rattle.std.proofs.Common.{lit<, lit≤};
ghost use Rattle.film.specs.Regular.{regular_lawful, regular_in_units};

use crate::scheme::Scheme;

// 35 mm film: feet and frames, four perforations to the frame.
#[derive(Clone, Copy, Debug)]
pub struct Feet35;

impl Scheme for Feet35 {
    ghost meaning = { λ _. feet35 };

    const CODE: u8 = 1;

    const FRAMES: u32 = 16;

    const REACH: u32 = 1_000_000;

    ghost lawful = { λ s. regular_lawful _ _ _ (lit< tt) (lit≤ tt) };

    ghost units = { λ s. regular_in_units _ _ _ };

    fn slip_code(&self) -> u8 {
        Self::CODE
    }

    fn frames_to_unit(&self) -> u32 {
        Self::FRAMES
    }

    fn frames_reached(&self) -> u32 {
        Self::REACH
    }
}

// 16 mm film: feet and frames.
#[derive(Clone, Copy, Debug)]
pub struct Feet16;

impl Scheme for Feet16 {
    ghost meaning = { λ _. feet16 };

    const CODE: u8 = 2;

    const FRAMES: u32 = 40;

    const REACH: u32 = 1_000_000;

    ghost lawful = { λ s. regular_lawful _ _ _ (lit< tt) (lit≤ tt) };

    ghost units = { λ s. regular_in_units _ _ _ };

    fn slip_code(&self) -> u8 {
        Self::CODE
    }

    fn frames_to_unit(&self) -> u32 {
        Self::FRAMES
    }

    fn frames_reached(&self) -> u32 {
        Self::REACH
    }
}

// Timecode at 24 frames a second: seconds of the day and frames, a day long.
#[derive(Clone, Copy, Debug)]
pub struct Timecode24;

impl Scheme for Timecode24 {
    ghost meaning = { λ _. timecode24 };

    const CODE: u8 = 3;

    const FRAMES: u32 = 24;

    const REACH: u32 = 2_073_600;

    ghost lawful = { λ s. regular_lawful _ _ _ (lit< tt) (lit≤ tt) };

    ghost units = { λ s. regular_in_units _ _ _ };

    fn slip_code(&self) -> u8 {
        Self::CODE
    }

    fn frames_to_unit(&self) -> u32 {
        Self::FRAMES
    }

    fn frames_reached(&self) -> u32 {
        Self::REACH
    }
}
