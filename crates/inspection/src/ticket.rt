// The ticket that goes with a frame to its viewer.
ghost use Rattle.std.specs.Prelude.{◌≡◌};
ghost use Rattle.inspection.specs.Answers.{Tears};
ghost use Rattle.inspection.specs.Readings.{IsSpent, IsUnspent, numbers_of};
ghost use Rattle.inspection.specs.Tables.{state_for};

use draws::entry::State;

// What a viewer says of a frame.
#[derive(Clone, Copy, PartialEq, Eq, Debug)]
pub enum Mark {
    Good,
    Bad,
}

impl From<Mark> for State {
    ghost from_gives = { λ mark r. r ≡ state_for mark };

    fn from(mark: Mark) -> State {
        match mark {
            Mark::Good => State::Good,
            Mark::Bad => State::Bad,
        }
    }
}

// What is written on a ticket: the reel's number, the pull's place in the table, and the frame.
#[derive(Clone, Copy, PartialEq, Eq, Debug)]
pub struct Stub {
    pub reel: u32,
    pub place: u32,
    pub frame: u32,
}

// A frame is out as long as its ticket is: whoever holds one marks the frame or tears the ticket.
pub struct Ticket {
    stub: Stub,
    // a flag, since a ticket is a plain struct whose drop demands that it be spent
    spent: bool,
}

impl Drop for Ticket {
    fn drop(self)
        requires { IsSpent self }
    {
        let Ticket { stub: _, spent: _ } = self;
    }
}

impl Ticket {
    pub(crate) fn write(stub: Stub) -> Ticket
        ensures numbers { numbers_of result ≡ stub }
        ensures unspent { IsUnspent result }
    {
        Ticket { stub, spent: false }
    }

    pub fn stub(&self) -> Stub
        ensures { result ≡ numbers_of self.now }
    {
        self.stub
    }
}

// Spends the ticket, and answers what was written on it. No inspection is touched.
pub fn tear(mut ticket: Ticket) -> Stub
    ensures { Tears (numbers_of ticket) result }
{
    ticket.spent = true;
    ticket.stub
}
