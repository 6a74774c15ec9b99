// What a line can ask for.
pub use draws::name::RuleName;
use film::address::Address;
pub use film::name::SchemeName;
use inspection::ticket::Mark;

// A reel as it is noted.
#[derive(Clone, Copy)]
pub struct Reel {
    pub number: u32,
    pub frames: u32,
    pub rule: RuleName,
}

#[derive(Clone, Copy)]
pub enum Request {
    Reel(Reel),
    // n1, Ac1, Re1, n2, Ac2, the tolerance and the limit
    Plan([u32; 7]),
    Frame(SchemeName, Address, Mark),
    Slip(SchemeName),
}
