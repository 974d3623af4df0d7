// The line that answers.
ghost use Rattle.std.specs.Prelude.{◌≡◌, ◌<◌, length};
ghost use Rattle.marks_lines.specs.Held.{Appends, text};
ghost use Rattle.marks_lines.specs.Replies.{declined, shown, told};

use crate::digits::Digits;
use crate::line::Line;

#[derive(Clone, Copy, Debug, PartialEq, Eq)]
pub enum Answer {
    Loaded {
        k: usize,
        rows: usize,
    },
    Written(Digits),
    ReadBack {
        wrong: u8,
        turns: u8,
        mended: Digits,
        message: Digits,
    },
    Cleared,
}

// Why there is no answer: an unknown line, or a refusal by its number, any of which a line can show.
#[derive(Clone, Copy, Debug, PartialEq, Eq)]
pub enum Declined {
    Refused(u8),
    Unknown,
}

pub type Reply = Result<Answer, Declined>;

// The line of a reply, with its end.
pub fn show(reply: &Reply) -> Line
    ensures { text result ≡ shown reply.now }
{
    let mut line = Line::new();
    match reply {
        Ok(answer) => answer.write(&mut line),
        Err(declined) => declined.write(&mut line),
    }
    line.push(b'\n');
    line
}

impl Answer {
    fn write(&self, line: &mut Line)
        ensures appended { Appends line.old (told self.now) line.new }
        ensures short { length (told self.now) < 192 }
    {
        line.extend(b"ok");
        match self {
            Answer::Loaded { k, rows } => {
                line.number(*k);
                line.number(*rows);
            }
            Answer::Written(mark) => line.word(mark),
            Answer::ReadBack {
                wrong,
                turns,
                mended,
                message,
            } => {
                line.number(usize::from(*wrong));
                line.number(usize::from(*turns));
                line.word(mended);
                line.word(message);
            }
            Answer::Cleared => {}
        }
    }
}

impl Declined {
    fn write(&self, line: &mut Line)
        ensures appended { Appends line.old (declined self.now) line.new }
        ensures short { length (declined self.now) < 192 }
    {
        match self {
            Declined::Refused(refusal) => {
                line.extend(b"no");
                line.number(usize::from(*refusal));
            }
            Declined::Unknown => line.push(b'?'),
        }
    }
}
