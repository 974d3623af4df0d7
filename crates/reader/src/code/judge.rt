// The checks of a load, in their order.
ghost use Rattle.std.specs.Prelude.{◌≡◌, ℕ, ◌<◌, ◌≤◌, [], ◌∷◌, length, MatchBool};
ghost use Rattle.algebra.specs.Checks.{Judged, asked};
ghost use Rattle.algebra.specs.Refusals.{book_refused, radius_refused};
ghost use Rattle.words.specs.Buffers.{length_check, range_check};
ghost use Rattle.words.specs.Stored.{word};
ghost use Rattle.codes.specs.GroupCodes.{rows};
ghost use Rattle.reader.specs.Loads.{Commutes, central_check, idempotent_check, load_checks};
ghost use Rattle.reader.specs.Stored.{SoundCode};

use crate::checks::check_buffers;
use crate::code::Code;
use algebra::{Fault, Field, Group, Part, Refusal};
use books::{Book, row_count};
use codes::Basis;
use words::{GroupAlgebra, Word};

impl Code {
    // The code of e and t with its basis and its book, if it passes the checks of a load.
    pub fn of<F: Field, G: Group>(
        algebra: &GroupAlgebra<F, G>,
        e: &[u8],
        t: u8,
    ) -> Result<Code, Fault>
        ensures { let k = F.Field.symbols algebra.now.field in let g = G.Group.dots algebra.now.group in Judged (load_checks k g e.now t) result (λ c. SoundCode k g c × (word g.order c.word ≡ e.now) × (c.radius ≡ t)) }
    {
        let word = sized(algebra, e, t)?;
        check_idempotent(algebra, &word)?;
        check_central(algebra, &word)?;
        let book = Book::of(algebra, &word, t);
        if book.too_close(algebra) {
            return Err(Part::Reader.refuses(Refusal::TooClose, 0));
        }
        let basis = Basis::of(algebra, &word);
        Ok(Code {
            word,
            radius: t,
            basis,
            book,
        })
    }
}

// The algebra and e come with each check: a struct that borrows both would be made anew in each call.

// The word of e, if the sizes are right: its length, its symbols, the radius and the number of rows.
fn sized<F: Field, G: Group>(algebra: &GroupAlgebra<F, G>, e: &[u8], t: u8) -> Result<Word, Fault>
    ensures { let k = F.Field.symbols algebra.now.field in let n = (G.Group.dots algebra.now.group).order in Judged (length_check (length e.now) n 0 ∷ range_check k.order e.now ∷ asked (t ≤ 3) radius_refused ∷ asked (rows n k.order t ≤ 4096) book_refused ∷ []) result (λ w. word n w ≡ e.now) }
{
    check_buffers(&[(e.len(), algebra.dots())], algebra.symbols(), e)?;
    check_radius(t)?;
    check_rows(algebra, t)?;
    Ok(Word::of(e))
}

fn check_radius(t: u8) -> Result<(), Fault>
    ensures { Judged (asked (t ≤ 3) radius_refused ∷ []) result (λ _. Unit {0}) }
{
    if t > 3 {
        return Err(Part::Reader.refuses(Refusal::Radius, 0));
    }
    Ok(())
}

fn check_rows<F: Field, G: Group>(algebra: &GroupAlgebra<F, G>, t: u8) -> Result<(), Fault>
    requires { t ≤ 3 }
    ensures { let k = F.Field.symbols algebra.now.field in let g = G.Group.dots algebra.now.group in Judged (asked (rows g.order k.order t ≤ 4096) book_refused ∷ []) result (λ _. Unit {0}) }
{
    if row_count(algebra.dots(), algebra.symbols(), t) > 4096 {
        return Err(Part::Reader.refuses(Refusal::Book, 0));
    }
    Ok(())
}

fn check_idempotent<F: Field, G: Group>(algebra: &GroupAlgebra<F, G>, e: &Word) -> Result<(), Fault>
    ensures { let k = F.Field.symbols algebra.now.field in let g = G.Group.dots algebra.now.group in Judged (idempotent_check k g (word g.order e.now) ∷ []) result (λ _. Unit {0}) }
{
    let square = algebra.product(e, e);
    match algebra.first_difference(&square, e) {
        Some(d) => Err(Part::Reader.refuses(Refusal::NotIdempotent, d)),
        None => Ok(()),
    }
}

fn check_central<F: Field, G: Group>(algebra: &GroupAlgebra<F, G>, e: &Word) -> Result<(), Fault>
    ensures { let k = F.Field.symbols algebra.now.field in let g = G.Group.dots algebra.now.group in Judged (central_check k g (word g.order e.now) ∷ []) result (λ _. Unit {0}) }
{
    match (0..algebra.dots()).find(|&d| !commutes(algebra, e, d)) {
        Some(d) => Err(Part::Reader.refuses(Refusal::NotCentral, d)),
        None => Ok(()),
    }
}

// Whether the word with 1 at dot d commutes with e.
fn commutes<F: Field, G: Group>(algebra: &GroupAlgebra<F, G>, e: &Word, d: usize) -> bool
    ensures { let k = F.Field.symbols algebra.now.field in let g = G.Group.dots algebra.now.group in let c = Commutes k g (word g.order e.now) d in MatchBool result c (c → ⊥) }
{
    let unit = algebra.unit(d);
    algebra.same(&algebra.product(&unit, e), &algebra.product(e, &unit))
}
