// Reads a line.
ghost use Rattle.std.specs.Prelude.{◌≡◌, Some};
ghost use Rattle.lines.specs.Text.{numbers_of};
ghost use Rattle.console.specs.Requests.{mark_named, reel_by, plan_by, frame_in, slip_by, request_of};

use crate::request::{Reel, Request, RuleName, SchemeName};
use film::address::Address;
use inspection::ticket::Mark;
use lines::numbers;

// What the line asks for, or nothing where it cannot be read or names no rule or scheme.
pub fn read_request(line: &[u8]) -> Option<Request>
    ensures { result ≡ request_of line.now }
{
    match line {
        [b'r', b' ', rest @ ..] => read_reel(rest),
        [b'p', b' ', rest @ ..] => read_plan(rest),
        [b'f', b' ', rest @ ..] => read_frame(rest),
        [b's', b' ', rest @ ..] => read_slip(rest),
        _ => None,
    }
}

fn read_reel(text: &[u8]) -> Option<Request>
    ensures { result ≡ reel_by (numbers_of 3 (Some text.now)) }
{
    let [number, frames, code] = numbers::<3>(text)?;
    let rule = RuleName::try_from(code).ok()?;
    Some(Request::Reel(Reel {
        number,
        frames,
        rule,
    }))
}

fn read_plan(text: &[u8]) -> Option<Request>
    ensures { result ≡ plan_by (numbers_of 7 (Some text.now)) }
{
    numbers(text).map(Request::Plan)
}

fn read_frame(text: &[u8]) -> Option<Request>
    ensures { result ≡ frame_in text.now }
{
    let [address @ .., b' ', byte] = text else {
        return None;
    };
    let [code, whole, part] = numbers::<3>(address)?;
    let scheme = SchemeName::try_from(code).ok()?;
    let mark = mark_named(*byte)?;
    Some(Request::Frame(scheme, Address { whole, part }, mark))
}

fn read_slip(text: &[u8]) -> Option<Request>
    ensures { result ≡ slip_by (numbers_of 1 (Some text.now)) }
{
    let [code] = numbers::<1>(text)?;
    Some(Request::Slip(SchemeName::try_from(code).ok()?))
}

// The letters are those of the lines; a TryFrom of the inspection's type would have to stand there.
fn mark_named(byte: u8) -> Option<Mark>
    ensures { result ≡ mark_named byte }
{
    match byte {
        b'g' => Some(Mark::Good),
        b'b' => Some(Mark::Bad),
        _ => None,
    }
}
