// Where an inspection stands, and what its pull table counts.
ghost use Rattle.std.specs.Prelude.{◌≡◌};
ghost use Rattle.inspection.specs.Tables.{standing_code};

#[derive(Clone, Copy, PartialEq, Eq, Debug)]
pub enum Standing {
    // the first sample is not all marked yet
    Open = 0,
    Pass = 1,
    Reject = 2,
    // the first sample settled nothing, and the second is not all marked yet
    Second = 3,
}

impl Standing {
    pub fn code(self) -> u8
        ensures { result ≡ standing_code self }
    {
        self as u8
    }
}

// How many frames are pulled and, of these, how many are marked good and bad.
#[derive(Clone, Copy, PartialEq, Eq, Debug)]
pub struct Counts {
    pub pulled: u32,
    pub good: u32,
    pub bad: u32,
}

#[derive(Clone, Copy, PartialEq, Eq, Debug)]
pub struct Report {
    pub standing: Standing,
    pub counts: Counts,
}
