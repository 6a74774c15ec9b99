// The rules by name, for whoever has only a code.
ghost use Rattle.std.specs.Prelude.{◌≡◌, Some};
ghost use Rattle.draws.specs.Names.{rule_by, rule_lawful, rule_of, unknown_rule_text};

use crate::entry::Entry;
use crate::rule::{DrawRule, Following, WithReplacement, WithoutReplacement};
use std::error::Error;
use std::fmt;

#[derive(Clone, Copy, PartialEq, Eq, Debug)]
pub enum RuleName {
    Without,
    With,
}

// A code that no rule has.
#[derive(Clone, Copy, PartialEq, Eq, Debug)]
pub struct UnknownRule {
    pub code: u32,
}

impl TryFrom<u32> for RuleName {
    type Error = UnknownRule;

    ghost try_from_gives = { λ code r. r ≡ rule_by code };

    fn try_from(code: u32) -> Result<RuleName, UnknownRule> {
        match code {
            1 => Ok(RuleName::Without),
            2 => Ok(RuleName::With),
            _ => Err(UnknownRule { code }),
        }
    }
}

// A rule by name is asked as the rule itself is, so callers need not choose. Each question has its match, since no
// function may make a dyn rule and hand it out.
impl DrawRule for RuleName {
    ghost meaning = { rule_of };

    ghost lawful = { rule_lawful };

    fn code(&self) -> u8 {
        match self {
            RuleName::Without => WithoutReplacement.code(),
            RuleName::With => WithReplacement.code(),
        }
    }

    fn longest(&self, reel: u32) -> u32 {
        match self {
            RuleName::Without => WithoutReplacement.longest(reel),
            RuleName::With => WithReplacement.longest(reel),
        }
    }

    fn may_follow(&self, reel: u32, table: &mut [Entry], drawn: usize, frame: u32) -> bool {
        match self {
            RuleName::Without => WithoutReplacement.may_follow(reel, table, drawn, frame),
            RuleName::With => WithReplacement.may_follow(reel, table, drawn, frame),
        }
    }

    fn counts(&self, reel: u32, bad: u32, drawn: u32, bad_drawn: u32) -> Following {
        match self {
            RuleName::Without => WithoutReplacement.counts(reel, bad, drawn, bad_drawn),
            RuleName::With => WithReplacement.counts(reel, bad, drawn, bad_drawn),
        }
    }

    fn named(&self) -> Option<RuleName>
        ensures { result ≡ Some self.now }
    {
        Some(*self)
    }
}

impl fmt::Display for UnknownRule {
    ghost output = { λ unknown. Some (unknown_rule_text unknown) };

    fn fmt<W: fmt::Write>(&self, f: &mut fmt::Formatter<W>) -> fmt::Result {
        let code = self.code;
        write!(f, "no rule {code}")
    }
}

impl Error for UnknownRule {}
