// What a line asks.
ghost use Rattle.marks_lines.specs.Lines.{Means, asked};

use crate::digits::{Digits, digit};

#[derive(Clone, Copy, Debug, PartialEq, Eq)]
pub enum Request {
    Load { radius: u8, symbols: Digits },
    Write(Digits),
    Read(Digits),
    Clear,
}

// The request of a line without its end, and none if the line is unknown.
pub fn parse(line: &[u8]) -> Option<Request>
    ensures { Means line.now (asked result) }
{
    match line {
        [b'C'] => Some(Request::Clear),
        [b'L', b' ', radius, b' ', symbols @ ..] => Some(Request::Load {
            radius: digit(*radius)?,
            symbols: Digits::read(symbols)?,
        }),
        [b'W', b' ', message @ ..] => Some(Request::Write(Digits::read(message)?)),
        [b'R', b' ', mark @ ..] => Some(Request::Read(Digits::read(mark)?)),
        _ => None,
    }
}
