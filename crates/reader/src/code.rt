// A code that a reader holds: its word, its radius, its basis and its book. The algebra comes with each call, since the
// reader holds it beside the code.
mod judge;
mod uses;

use books::Book;
use codes::Basis;
use words::Word;

#[derive(Clone, Copy)]
pub struct Code {
    pub word: Word,
    pub radius: u8,
    pub basis: Basis,
    pub book: Book,
}
