// What a line is answered, and how it is printed.
ghost use Rattle.std.specs.Prelude.{◌≡◌, ◌++◌, string_bytes, OnOk};
ghost use Rattle.console.specs.Readings.{reply_of};
ghost use Rattle.console.specs.Replies.{reply_text};
ghost use Rattle.console.specs.Sessions.{wrote};

use crate::fault::ConsoleFault;
use crate::hex::push_hex_lines;
use std::alloc::{AllocError, Global};

#[derive(Clone, Copy)]
pub enum Reply {
    Fine,
    // the ends of the enclosure of the plan that was opened
    Bounds(u64, u64),
    // the standing's code: a Standing would be narrower for whoever prints a reply
    Stands(u8),
    // the slip, by its length
    Wrote(usize),
    No(ConsoleFault),
}

// Prints a reply behind what is printed already; a slip stands at the front of `buffer`.
// `_heap` stays, since callers hand one; `out` grows by its own.
#[tactic(auto, using(crate::proofs::Texts::text_is))]
pub fn push_reply(
    out: &mut String,
    _heap: Global,
    reply: Reply,
    buffer: &[u8],
) -> Result<(), AllocError>
    ensures { OnOk result (string_bytes out.new ≡ string_bytes out.old ++ reply_text (reply_of reply buffer.now)) }
{
    match reply {
        Reply::Fine => writeln!(out, "ok"),
        Reply::Bounds(lo, hi) => writeln!(out, "ok {lo} {hi}"),
        Reply::Stands(code) => writeln!(out, "ok {code}"),
        Reply::Wrote(count) => push_slip(out, &buffer[..count.min(buffer.len())]),
        Reply::No(fault) => writeln!(out, "{fault}"),
    }
}

fn push_slip(out: &mut String, slip: &[u8]) -> Result<(), AllocError>
    ensures { OnOk result (string_bytes out.new ≡ string_bytes out.old ++ reply_text (wrote slip.now)) }
{
    writeln!(out, "ok {}", slip.len())?;
    push_hex_lines(out, slip)
}
