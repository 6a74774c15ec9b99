// How far a session has come, and what a line does to it.
ghost use Rattle.std.specs.Prelude.{◌≡◌, IfOk, vec_len};

use crate::begin::{Terms, begin};
use crate::by_scheme;
use crate::fault::ConsoleFault;
use crate::reader::read_request;
use crate::reply::Reply;
use crate::request::{Reel, Request, RuleName, SchemeName};
use draws::entry::{BLANK, Entry};
use film::address::Address;
use inspection::calls::Inspection;
use inspection::ticket::Mark;
use sampling::chance::CELLS;
use std::alloc::{AllocError, Global};

#[derive(Drop)]
pub enum Phase {
    Begun,
    // a reel is noted until a plan is opened on it
    Noted(Reel),
    Opened(Inspection<RuleName>),
}

// A session with the memory that its calls are lent.
#[derive(Drop)]
pub struct Session {
    phase: Phase,
    low: [u64; CELLS],
    high: [u64; CELLS],
    table: Vec<Entry>,
    // a slip that is written stands at its front
    pub buffer: Vec<u8>,
    ghost room: { vec_len buffer ≡ 40000 },
}

impl Session {
    ghost use Rattle.console.specs.Phases.{phase_of, session_of, step_of};
    ghost use Rattle.console.specs.Sessions.{fresh, frame_step, line_step, note_step, plan_step, slip_step};

    pub fn new(heap: Global) -> Result<Session, AllocError>
        ensures { IfOk result (λ s. session_of s ≡ fresh) }
    {
        Ok(Session {
            phase: Phase::Begun,
            low: [0; CELLS],
            high: [0; CELLS],
            table: vec![in heap; BLANK; 4_096]?,
            buffer: vec![in heap; 0; 40_000]?,
        })
    }

    // Answers one line, by its number from 1.
    pub fn answer(&mut self, line: u32, text: &[u8]) -> Reply
        ensures { step_of self.new (Ok result) ≡ line_step line text.now (session_of self.old) }
    {
        self.step(line, text).unwrap_or_else(Reply::No)
    }

    fn step(&mut self, line: u32, text: &[u8]) -> Result<Reply, ConsoleFault>
        ensures { step_of self.new result ≡ line_step line text.now (session_of self.old) }
    {
        match read_request(text).ok_or(ConsoleFault::Unreadable(line))? {
            Request::Reel(reel) => self.note(line, reel),
            Request::Plan(numbers) => self.begin_plan(line, numbers),
            Request::Frame(scheme, address, mark) => self.view_frame(line, scheme, address, mark),
            Request::Slip(scheme) => self.write_slip(line, scheme),
        }
    }

    fn note(&mut self, line: u32, reel: Reel) -> Result<Reply, ConsoleFault>
        ensures { step_of self.new result ≡ note_step line reel (phase_of self.old.phase) self.old.table.items }
    {
        if let Phase::Opened(_) = &self.phase {
            return Err(ConsoleFault::OutOfTurn(line));
        }
        self.phase = Phase::Noted(reel);
        Ok(Reply::Fine)
    }

    // A plan is opened on the reel that was noted.
    fn begin_plan(&mut self, line: u32, numbers: [u32; 7]) -> Result<Reply, ConsoleFault>
        ensures { step_of self.new result ≡ plan_step line numbers (phase_of self.old.phase) self.old.table.items }
    {
        let Phase::Noted(reel) = self.phase else {
            return Err(ConsoleFault::OutOfTurn(line));
        };
        let [n1, ac1, re1, n2, ac2, tolerance, limit] = numbers;
        let terms = Terms {
            number: reel.number,
            reel: reel.frames,
            n1,
            ac1,
            re1,
            n2,
            ac2,
            tolerance,
            limit,
        };
        let inspection = begin(
            reel.rule,
            terms,
            &mut self.low,
            &mut self.high,
            self.table.as_mut_slice(),
        )?;
        let certified = inspection.certified();
        let reply = Reply::Bounds(certified.lo(), certified.hi());
        self.phase = Phase::Opened(inspection);
        Ok(reply)
    }

    // A frame is pulled and marked at once.
    fn view_frame(
        &mut self,
        line: u32,
        scheme: SchemeName,
        address: Address,
        mark: Mark,
    ) -> Result<Reply, ConsoleFault>
        ensures { step_of self.new result ≡ frame_step line scheme address mark (phase_of self.old.phase) self.old.table.items }
    {
        let Phase::Opened(inspection) = &mut self.phase else {
            return Err(ConsoleFault::OutOfTurn(line));
        };
        let standing = by_scheme::view(
            inspection,
            scheme,
            address,
            mark,
            self.table.as_mut_slice(),
        )?;
        Ok(Reply::Stands(standing.code()))
    }

    // The slip is written into the buffer.
    fn write_slip(&mut self, line: u32, scheme: SchemeName) -> Result<Reply, ConsoleFault>
        ensures { step_of self.new result ≡ slip_step line scheme (phase_of self.old.phase) self.old.table.items }
    {
        let Phase::Opened(inspection) = &self.phase else {
            return Err(ConsoleFault::OutOfTurn(line));
        };
        let count = by_scheme::write_slip(
            inspection,
            scheme,
            self.table.as_slice(),
            self.buffer.as_mut_slice(),
        )?;
        Ok(Reply::Wrote(count))
    }
}
