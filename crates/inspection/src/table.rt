// Reading the pull table.
ghost use Rattle.std.specs.Prelude.{◌≡◌, ◌≤◌, length};
ghost use Rattle.inspection.specs.Settling.{bad_if_marked};
ghost use Rattle.inspection.specs.Tables.{tally};

use crate::report::Counts;
use draws::entry::{Entry, State};

// The entries before the first empty one, counted by what they say.
pub fn count(entries: &[Entry]) -> Counts
    requires { length entries.now ≤ 32768 }
    ensures { result ≡ tally entries.now }
{
    // one `for` over the pulled part, which ends with it: a rule of the project
    let mut pulled = 0;
    let mut good = 0;
    let mut bad = 0;
    for entry in entries {
        match entry.state {
            State::Empty => break,
            State::Out => {}
            State::Good => good += 1,
            State::Bad => bad += 1,
        }
        pulled += 1;
    }
    Counts { pulled, good, bad }
}

// How many entries are bad, if all are marked. One walk: the library's `all` and `count` would make two, and each mark of a
// second sample walks the first one too.
pub fn completed(entries: &[Entry]) -> Option<u32>
    requires { length entries.now ≤ 32768 }
    ensures { result ≡ bad_if_marked entries.now }
{
    let mut bad = 0;
    for entry in entries {
        match entry.state {
            State::Good => {}
            State::Bad => bad += 1,
            State::Empty | State::Out => return None,
        }
    }
    Some(bad)
}
