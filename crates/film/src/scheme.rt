// What a way of writing addresses is.
ghost use Rattle.std.specs.Prelude.{◌≡◌, ℕ};
ghost use Rattle.film.specs.Schemes.{SchemeMeaning, Lawful, InUnitsOf};

pub trait Scheme {
    ghost meaning: { Self → SchemeMeaning };

    // The byte that names the scheme on a slip.
    const CODE: u8;

    // How many frames a whole unit holds.
    const FRAMES: u32;

    // How many frames have an address.
    const REACH: u32;

    fn slip_code(&self) -> u8
        ensures { result ≡ (meaning self.now).code };

    fn frames_to_unit(&self) -> u32
        ensures { (whole : ℕ) → (meaning self.now).parts whole ≡ result };

    fn frames_reached(&self) -> u32
        ensures { result ≡ (meaning self.now).reach };

    ghost lawful: { (s : Self) → Lawful (meaning s) };

    ghost units: { (s : Self) → InUnitsOf ((meaning s).parts 0) (meaning s) };
}
