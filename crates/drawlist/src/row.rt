// What is said of the lines of a draw list.
ghost use Rattle.std.specs.Prelude.{◌≡◌, ◌-◌, ◌^◌, Some, is_none};
ghost use Rattle.drawlist.specs.Rows.{naming, fault_text};
ghost use Rattle.drawlist.specs.Surveys.{Room, Counted};
ghost use Rattle.drawlist.specs.declared.row.RowFault.TheVariants.{Refused, UnknownScheme};

use film::address::AddressFault;
use film::name::UnknownScheme;
use std::error::Error;
use std::fmt;

// The frame that one line names.
pub type Row = Result<u32, RowFault>;

// Why a line names none.
#[derive(Clone, Copy, PartialEq, Eq, Debug)]
pub enum RowFault {
    Refused(AddressFault),
    UnknownScheme(UnknownScheme),
    // not three numbers with one blank between
    Unreadable,
}

impl From<AddressFault> for RowFault {
    ghost from_gives = { λ fault row. row ≡ Refused fault };

    fn from(refused: AddressFault) -> RowFault {
        RowFault::Refused(refused)
    }
}

impl From<UnknownScheme> for RowFault {
    ghost from_gives = { λ unknown row. row ≡ UnknownScheme unknown };

    fn from(scheme: UnknownScheme) -> RowFault {
        RowFault::UnknownScheme(scheme)
    }
}

impl fmt::Display for RowFault {
    ghost output = { λ fault. Some (fault_text fault) };

    fn fmt<W: fmt::Write>(&self, f: &mut fmt::Formatter<W>) -> fmt::Result {
        match self {
            RowFault::Refused(fault) => write!(f, "{fault}"),
            RowFault::UnknownScheme(unknown) => write!(f, "{unknown}"),
            RowFault::Unreadable => write!(f, "cannot be read"),
        }
    }
}

impl Error for RowFault {}

// A line, and the line before it that named the same frame first, if one did (from 0).
#[derive(Clone, Copy, PartialEq, Debug)]
pub struct Seen {
    pub row: Row,
    pub earlier: Option<usize>,
}

#[derive(Clone, Copy, PartialEq, Default, Debug)]
pub struct Tally {
    // lines that name a frame
    pub addresses: usize,
    // frames that some line names
    pub frames: usize,
    pub refused: usize,
    // lines that are no address in a known scheme
    pub unreadable: usize,
}

impl Tally {
    // Counts one line more.
    pub(crate) fn count(&mut self, seen: Seen)
        requires { Room self.old (2 ^ 64 - 2) }
        ensures { Counted self.old (naming seen.row) (is_none seen.earlier) self.new }
    {
        match seen.row {
            Ok(_) => {
                self.addresses += 1;
                if seen.earlier.is_none() {
                    self.frames += 1;
                }
            }
            Err(RowFault::Refused(_)) => self.refused += 1,
            Err(RowFault::UnknownScheme(_) | RowFault::Unreadable) => self.unreadable += 1,
        }
    }
}
