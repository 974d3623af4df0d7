// The basis of a code: for each message dot the code word that is 1 there and 0 at the other message dots.
mod build;
mod elimination;
mod uses;

ghost use Rattle.std.specs.Prelude.{◌≤◌};

use words::Word;

// A message dot with its code word.
#[derive(Clone, Copy)]
pub struct BasisRow {
    pub dot: usize,
    pub word: Word,
}

// The length stands beside the rows, as a basis is Copy, with no heap.
#[derive(Clone, Copy)]
pub struct Basis {
    pub rows: [BasisRow; 64],
    pub count: usize,
    ghost most: { count ≤ 64 },
}
