// A word of at most 64 symbols: with a group of n dots, its first n symbols count.
ghost use Rattle.std.specs.Prelude.{◌≡◌, length};
ghost use Rattle.words.specs.Words.{at, nought, tabulate};

// Always 64 symbols, as words are copied like numbers, with no heap. A word knows no field, so that its symbols
// lie below an order is a premise where it is needed.
#[derive(Clone, Copy, PartialEq, Eq, Debug)]
pub struct Word {
    pub(crate) symbols: [u8; 64],
}

impl Word {
    // The word of zeros.
    pub fn zero() -> Word
        ensures { result.symbols ≡ nought 64 }
    {
        Word { symbols: [0; 64] }
    }

    // The first 64 of the symbols, and 0 past their end. It may leave symbols out, so it is no `From`.
    pub fn of(symbols: &[u8]) -> Word
        ensures { result.symbols ≡ tabulate 64 (at symbols.now) }
    {
        let n = symbols.len().min(64);
        let mut out = [0; 64];
        out[..n].copy_from_slice(&symbols[..n]);
        Word { symbols: out }
    }

    // The symbol at dot d, and 0 from 64 on.
    pub fn symbol(&self, d: usize) -> u8
        ensures { result ≡ at self.now.symbols d }
    {
        self.symbols.get(d).copied().unwrap_or(0)
    }

    // Writes the first symbols over the whole of the target.
    pub fn copy_to(&self, target: &mut [u8])
        ensures { target.new ≡ tabulate (length target.old) (at self.now.symbols) }
    {
        let n = target.len().min(64);
        target.fill(0);
        target[..n].copy_from_slice(&self.symbols[..n]);
    }
}
