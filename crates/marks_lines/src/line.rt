// A line of at most 192 bytes, written part by part.
ghost use Rattle.std.specs.Prelude.{decimal};
ghost use Rattle.marks_lines.specs.Held.{Appends};
ghost use Rattle.marks_lines.specs.Replies.{number as number_of, word as word_of};

use crate::digits::Digits;
use crate::held::Held;

pub type Line = Held<192>;

impl Line {
    // Not `write!`, which promises the digits only where it answers `Ok`: a line is always written.
    fn decimal(&mut self, n: usize)
        ensures { Appends self.old (decimal n) self.new }
    {
        if n >= 10 {
            self.decimal(n / 10);
        }
        self.push(b'0' + (n % 10) as u8);
    }

    pub(crate) fn number(&mut self, n: usize)
        ensures { Appends self.old (number_of n) self.new }
    {
        self.push(b' ');
        self.decimal(n);
    }

    pub(crate) fn word(&mut self, symbols: &Digits)
        ensures { Appends self.old (word_of symbols.now) self.new }
    {
        self.push(b' ');
        for s in symbols.as_slice() {
            self.push(b'0' + *s);
        }
    }
}
