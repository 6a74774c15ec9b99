// A session: lines in, replies out.
ghost use Rattle.std.specs.Prelude.{◌≡◌, ℕ, ◌≤◌, List, map, length, take, IfOk, string_bytes};
ghost use Rattle.console.specs.Replies.{output_from, output_of};
ghost use Rattle.console.specs.Sessions.{fresh};

use crate::fault::ConsoleFault;
use crate::reply::push_reply;
use crate::state::Session;
use lines::split_lines;
use std::alloc::{AllocError, Global};

// The most bytes of lines that are read.
const MOST_BYTES: usize = 65_536;

// How many bytes of an input suffice to answer the whole of it: those that are read, and one that shows if there are more.
#[tactic(auto, using(crate::proofs::Outputs::enough))]
pub fn enough_bytes() -> usize
    ensures { (input : List ℕ) → output_of (take result input) ≡ output_of input }
{
    MOST_BYTES + 1
}

// Answers the lines in turn.
fn answer_all(heap: Global, lines: &[&[u8]]) -> Result<String, AllocError>
    requires { length lines.now ≤ 65536 }
    ensures { IfOk result (λ out. string_bytes out ≡ output_from 1 fresh (map (λ x. x.now) lines.now)) }
{
    let mut out = String::new(heap);
    let mut session = Session::new(heap)?;
    for (line, text) in (1..).zip(lines) {
        let reply = session.answer(line, text);
        push_reply(&mut out, heap, reply, session.buffer.as_slice())?;
    }
    Ok(out)
}

// The replies to the lines of an input, as text. More than 65,536 bytes are not read.
#[tactic(auto, using(crate::proofs::Outputs::too_long_told))]
pub fn run(heap: Global, input: &[u8]) -> Result<String, AllocError>
    ensures { IfOk result (λ out. string_bytes out ≡ output_of input.now) }
{
    if input.len() > MOST_BYTES {
        return format!(in heap; "{}\n", ConsoleFault::TooLong);
    }
    let lines = split_lines(heap, input)?;
    answer_all(heap, lines.as_slice())
}
