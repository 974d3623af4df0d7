// Up to 64 symbols, each of which one digit writes.
ghost use Rattle.std.specs.Prelude.{◌≡◌, ℕ, ◌+◌, ◌<◌, MatchOption, ◌≢◌, slice_index, take};

use crate::held::Held;

#[derive(Clone, Copy, Debug, PartialEq, Eq)]
pub struct Digits {
    symbols: Held<64>,
    ghost small: { (i : ℕ) → slice_index (take symbols.len symbols.bytes) i < 10 },
}

impl Digits {
    ghost use Rattle.std.specs.Prelude.{◌≡◌, ℕ, ◌<◌, List, MatchOption, Some, ◌≢◌};
    ghost use Rattle.marks_lines.specs.Held.{held};
    ghost use Rattle.marks_lines.specs.Symbols.{Stand, Stray, Symbols, digits as digits_of};

    // These symbols, unless there are too many or one is too large.
    pub fn new(symbols: &[u8]) -> Option<Digits>
        ensures { MatchOption result (Symbols symbols.now → ⊥) (λ d. Symbols symbols.now × (symbols.now ≡ held d)) }
    {
        Digits::collect(symbols, |symbol| (symbol < 10).then_some(symbol))
    }

    // The symbols whose digits these codes are, if they are digits and not too many.
    pub(crate) fn read(codes: &[u8]) -> Option<Digits>
        ensures { MatchOption result ((s : List ℕ) → Symbols s → codes.now ≢ digits_of s) (λ d. Symbols (held d) × (codes.now ≡ digits_of (held d))) }
    {
        Digits::collect(codes, digit)
    }

    // The symbols that these bytes stand for, if each stands for one and they are not too many.
    fn collect<F: Fn(u8) -> Option<u8>>(bytes: &[u8], symbol: F) -> Option<Digits>
        requires callable { F.IsAlwaysCallable symbol }
        requires small { (b s : ℕ) → b < 256 → F.post symbol b (Some s) → s < 10 }
        ensures { MatchOption result (Stray (F.post symbol) bytes.now) (λ d. Stand (F.post symbol) bytes.now (held d)) }
    {
        if bytes.len() > 64 {
            return None;
        }
        // An array, since to push each symbol takes more than twice as long.
        let mut symbols = [0; 64];
        for (i, byte) in bytes.iter().enumerate() {
            symbols[i] = symbol(*byte)?;
        }
        Some(Digits {
            symbols: Held::from_buffer(symbols, bytes.len()),
        })
    }

    pub fn as_slice(&self) -> &[u8]
        ensures { result.now ≡ held self.now }
    {
        self.symbols.as_slice()
    }
}

// The symbol of a digit's code.
pub(crate) fn digit(code: u8) -> Option<u8>
    ensures { MatchOption result ((s : ℕ) → s < 10 → code ≢ 48 + s) (λ s. (s < 10) × (code ≡ 48 + s)) }
{
    match code {
        b'0'..=b'9' => Some(code - b'0'),
        _ => None,
    }
}
