// The line that is coming in: its first 69 bytes, which is one more than a lawful line has.
ghost use Rattle.std.specs.Prelude.{◌≡◌, ℕ, List, [], ◌∷◌, ◌++◌, MatchBool, ◌≢◌};
ghost use Rattle.marks_lines.specs.Held.{Holds};
ghost use Rattle.marks_lines.specs.Lines.{Means, asked};

use crate::held::Held;
use crate::request::{Request, parse};

#[derive(Clone, Copy, Debug)]
pub struct Pending {
    start: Held<69>,
}

impl Pending {
    pub fn new() -> Pending
        ensures { Holds result [] }
    {
        Pending { start: Held::new() }
    }

    #[tactic(auto, using(crate::proofs::LongLines::start_more))]
    pub fn push(&mut self, byte: u8)
        ensures { (line : List ℕ) → Holds self.old line → Holds self.new (line ++ byte ∷ []) }
    {
        self.start.push(byte);
    }

    pub fn is_empty(&self) -> bool
        ensures { (line : List ℕ) → Holds self.now line → MatchBool result (line ≡ []) (line ≢ []) }
    {
        self.start.is_empty()
    }

    // What the whole line asks, however long it is.
    pub fn request(&self) -> Option<Request>
        ensures { (line : List ℕ) → Holds self.now line → Means line (asked result) }
    {
        parse(self.start.as_slice())
    }
}
