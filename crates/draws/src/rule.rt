// Draw rules: which frames may follow those drawn, and how many of them are good and bad.
ghost use Rattle.std.specs.List.{list_any};
ghost use Rattle.std.specs.Prelude.{◌==◌, ◌≡◌, ℕ, IfSome, take};
ghost use Rattle.draws.specs.Closed.{Binomial, Hypergeometric};
ghost use Rattle.draws.specs.Draws.{DrawMeaning, Enumerates, Lawful, Reel};
ghost use Rattle.draws.specs.Entries.{frames_of};
ghost use Rattle.draws.specs.Names.{rule_of};
ghost use Rattle.draws.specs.Rules.{holds, with_replacement, without_replacement};
ghost use Rattle.draws.specs.Without;
ghost use Rattle.draws.specs.With;

use crate::entry::Entry;
use crate::name::RuleName;

// How many good and bad frames may follow.
#[derive(Clone, Copy, PartialEq, Eq, Debug)]
pub struct Following {
    pub good: u32,
    pub bad: u32,
}

// What follows where no list can have come.
const NONE: Following = Following { good: 0, bad: 0 };

pub trait DrawRule {
    ghost meaning: { Self → DrawMeaning };

    // The rule's code on a slip.
    fn code(&self) -> u8
        ensures { result ≡ (meaning self.now).code };

    // How long a drawn list may grow on a reel of that many frames.
    fn longest(&self, reel: u32) -> u32
        ensures { result ≡ (meaning self.now).longest reel };

    // Whether the frame may follow the frames of the first `drawn` entries. It is lent the whole table, since a rule may
    // write in the entry behind them while it answers; it leaves the table as it found it.
    fn may_follow(&self, reel: u32, table: &mut [Entry], drawn: usize, frame: u32) -> bool
        ensures answer { result ≡ (meaning self.now).follows reel (frames_of (take drawn table.old)) frame }
        ensures kept { table.new ≡ table.old };

    // How many good and bad frames may follow, where the reel has `bad` bad frames and
    // `bad_drawn` of the `drawn` frames are bad.
    fn counts(&self, reel: u32, bad: u32, drawn: u32, bad_drawn: u32) -> Following
        ensures good { result.good ≡ (meaning self.now).good reel bad drawn bad_drawn }
        ensures bad { result.bad ≡ (meaning self.now).bad reel bad drawn bad_drawn };

    // Its name, where it is a rule by name: whoever asks often can then ask the rule that is named.
    fn named(&self) -> Option<RuleName>
        ensures { IfSome result (λ name. meaning self.now ≡ rule_of name) }
    {
        None
    }

    ghost lawful: { (r : Self) → Lawful (meaning r) };
}

// Not inlined: within a larger function the loop gets half as many instructions again.
#[inline(never)]
fn has_frame(entries: &[Entry], frame: u32) -> bool
    ensures { result ≡ list_any (λ e. frame == e.frame) entries.now }
{
    entries.iter().any(|entry| frame == entry.frame)
}

// A frame once drawn is not drawn again.
#[derive(Clone, Copy, PartialEq, Eq, Debug)]
pub struct WithoutReplacement;

// The rule, with what is known of its allowed lists.
#[tactic(auto, using(crate::proofs::Recurrence::enumerates, crate::specs::Without::lawful, crate::proofs::Hypergeometric::hypergeometric))]
pub fn without_replacement() -> WithoutReplacement
    ensures listed { (N : ℕ) → Reel N → Enumerates without_replacement N }
    ensures closed { Hypergeometric without_replacement }
{
    WithoutReplacement
}

impl WithoutReplacement {
    pub const RULE_CODE: u8 = 1;
}

impl DrawRule for WithoutReplacement {
    ghost meaning = { λ _. without_replacement };

    ghost lawful = { λ _. Without.lawful };

    fn code(&self) -> u8 {
        Self::RULE_CODE
    }

    fn longest(&self, reel: u32) -> u32 {
        reel
    }

    #[tactic(auto, using(crate::proofs::Held::holds_first))]
    fn may_follow(&self, reel: u32, table: &mut [Entry], drawn: usize, frame: u32) -> bool {
        let pulled = &table[..drawn.min(table.len())];
        frame < reel && !has_frame(pulled, frame)
    }

    fn counts(&self, reel: u32, bad: u32, drawn: u32, bad_drawn: u32) -> Following {
        if bad_drawn <= drawn
            && bad_drawn <= bad
            && bad <= reel
            && drawn - bad_drawn <= reel - bad
        {
            Following {
                good: (reel - bad) - (drawn - bad_drawn),
                bad: bad - bad_drawn,
            }
        } else {
            NONE
        }
    }
}

// A frame is put back, and may be drawn again.
#[derive(Clone, Copy, PartialEq, Eq, Debug)]
pub struct WithReplacement;

// The rule, with what is known of its allowed lists.
#[tactic(auto, using(crate::proofs::Recurrence::enumerates, crate::specs::With::lawful, crate::proofs::Binomial::binomial))]
pub fn with_replacement() -> WithReplacement
    ensures listed { (N : ℕ) → Reel N → Enumerates with_replacement N }
    ensures closed { Binomial with_replacement }
{
    WithReplacement
}

// The longest list of frames drawn with replacement.
const LONGEST: u32 = 32_768;

impl WithReplacement {
    pub const RULE_CODE: u8 = 2;
}

impl DrawRule for WithReplacement {
    ghost meaning = { λ _. with_replacement };

    ghost lawful = { λ _. With.lawful };

    fn code(&self) -> u8 {
        Self::RULE_CODE
    }

    fn longest(&self, _reel: u32) -> u32 {
        LONGEST
    }

    fn may_follow(&self, reel: u32, table: &mut [Entry], drawn: usize, frame: u32) -> bool {
        frame < reel && drawn.min(table.len()) < LONGEST as usize
    }

    fn counts(&self, reel: u32, bad: u32, drawn: u32, bad_drawn: u32) -> Following {
        // one exit after the other: all tests joined into one took twice as long in a loop over the cells
        if drawn >= LONGEST || bad_drawn > drawn || bad > reel {
            return NONE;
        }
        let following = Following {
            good: reel - bad,
            bad,
        };
        // a reel with good and bad frames needs neither test below, and a loop over its cells then has neither
        if 0 < bad && bad < reel {
            return following;
        }
        // a reel without bad frames gives none, and a reel of bad frames nothing else
        if bad == 0 && bad_drawn > 0 {
            return NONE;
        }
        if bad == reel && bad_drawn < drawn {
            return NONE;
        }
        following
    }
}
