// The schemes by name, for whoever has only a code.
ghost use Rattle.std.specs.Prelude.{◌≡◌, Some};
ghost use Rattle.film.specs.Names.{scheme_by, unknown_scheme_text};

use std::error::Error;
use std::fmt;

#[derive(Clone, Copy, PartialEq, Eq, Debug)]
pub enum SchemeName {
    Film35,
    Film16,
    Seconds24,
}

// A code that no scheme has.
#[derive(Clone, Copy, PartialEq, Eq, Debug)]
pub struct UnknownScheme {
    pub code: u32,
}

impl TryFrom<u32> for SchemeName {
    type Error = UnknownScheme;

    ghost try_from_gives = { λ code r. r ≡ scheme_by code };

    fn try_from(code: u32) -> Result<SchemeName, UnknownScheme> {
        match code {
            1 => Ok(SchemeName::Film35),
            2 => Ok(SchemeName::Film16),
            3 => Ok(SchemeName::Seconds24),
            _ => Err(UnknownScheme { code }),
        }
    }
}

impl fmt::Display for UnknownScheme {
    ghost output = { λ unknown. Some (unknown_scheme_text unknown) };

    fn fmt<W: fmt::Write>(&self, f: &mut fmt::Formatter<W>) -> fmt::Result {
        let code = self.code;
        write!(f, "no scheme {code}")
    }
}

impl Error for UnknownScheme {}
