// One call handed on to a reader.
ghost use Rattle.std.specs.Prelude.{◌≡◌, ℕ, List, [], ◌∷◌};
ghost use Rattle.reader.specs.Histories.{Call as PastCall, load as load_of, write as write_of, read as read_of, find_syndrome as syndrome_of, facts as facts_of, alike as alike_of};
ghost use Rattle.runs.specs.Runs.{ReadFaithfully, Served, carried, reply, spoken, zeros};
ghost use Rattle.reader.specs.Stored.{Lived, code_of};
ghost use Rattle.std.specs.Fn.{FnOnceReturnsAtMut};
ghost use Rattle.words.specs.Words.{at, tabulate};

use crate::runs::{Answer, Call, Reply};
use algebra::{Fault, Field, Group};
use reader::Reader;
use std::array;

// Hands the call on to the reader's own method.
// The clauses that take a past speak of every past, which no field of a reader could hold.
#[tactic(auto, using(reader::proofs::InForce::lived_on))]
pub fn serve<F: Field, G: Group>(reader: &mut Reader<F, G>, call: &Call) -> Reply
    ensures same { reader.new.algebra ≡ reader.old.algebra }
    ensures answer { let k = F.Field.symbols reader.old.algebra.field in let g = G.Group.dots reader.old.algebra.group in Served k g (code_of g.order reader.old.code) (spoken call.now) result }
    ensures lived { let k = F.Field.symbols reader.old.algebra.field in let g = G.Group.dots reader.old.algebra.group in (past : List PastCall) → Lived k g past reader.old.code → Lived k g (spoken call.now ∷ past) reader.new.code }
    ensures law { let k = F.Field.symbols reader.old.algebra.field in let g = G.Group.dots reader.old.algebra.group in (past : List PastCall) → Lived k g past reader.old.code → ReadFaithfully k g past (spoken call.now) result }
{
    match call {
        Call::Load { e, t } => {
            let loaded = reader.load(e, *t);
            plain(loaded.map(|(dots, rows)| Answer::Loaded { dots, rows }))
        }
        Call::Clear => {
            reader.clear();
            plain(Ok(Answer::Cleared))
        }
        Call::Write { message, mark } => filled(
            *mark,
            Answer::Written,
            |output| reader.write(message, output),
        ),
        Call::Read {
            received,
            mended,
            message,
        } => serve_read(reader, received, *mended, *message),
        Call::Syndrome { mark, buffer } => filled(
            *buffer,
            Answer::Syndrome,
            |output| reader.syndrome(mark, output),
        ),
        Call::Facts => {
            let facts = reader.facts();
            plain(facts.map(|(dots, radius, rows)| Answer::Facts { dots, radius, rows }))
        }
        Call::Alike { first, second } => plain(reader.alike(first, second).map(Answer::Alike)),
    }
}

// A read has two outputs and a law, so that it has a function of its own. Its buffers have 65 bytes at most, too.
fn serve_read<F: Field, G: Group>(
    reader: &Reader<F, G>,
    received: &[u8],
    mended: usize,
    message: usize,
) -> Reply
    ensures answer { let k = F.Field.symbols reader.now.algebra.field in let g = G.Group.dots reader.now.algebra.group in Served k g (code_of g.order reader.now.code) (read_of received.now mended message) result }
    ensures law { let k = F.Field.symbols reader.now.algebra.field in let g = G.Group.dots reader.now.algebra.group in (past : List PastCall) → Lived k g past reader.now.code → ReadFaithfully k g past (read_of received.now mended message) result }
{
    let mut mark = [0; 65];
    let mut symbols = [0; 65];
    let mark_output = &mut mark[..mended.min(65)];
    let message_output = &mut symbols[..message.min(65)];
    let mended = reader.read(received, mark_output, message_output);
    shown(mended.map(Answer::Mended), mark_output, message_output)
}

// A reply with no outputs.
fn plain(answer: Result<Answer, Fault>) -> Reply
    ensures { result ≡ reply answer [] [] }
{
    shown(answer, &[], &[])
}

// A reply with what the call writes into a buffer of this length, or of 65 bytes, which are too many for any group:
// so there is no heap.
fn filled<C: FnOnce(&mut [u8]) -> Result<(), Fault>>(
    length: usize,
    answer: Answer,
    call: C,
) -> Reply
    requires { C.IsAlwaysCallable call }
    ensures { (r : _) × (w : List ℕ) × FnOnceReturnsAtMut C.FnOnce call (zeros length) r w × (result ≡ reply (carried (λ _. answer) r) w []) }
{
    let mut buffer = [0; 65];
    let output = &mut buffer[..length.min(65)];
    let outcome = call(output);
    shown(outcome.map(|()| answer), output, &[])
}

fn shown(answer: Result<Answer, Fault>, mark: &[u8], message: &[u8]) -> Reply
    ensures { result ≡ reply answer mark.now message.now }
{
    Reply {
        answer,
        mark: padded(mark),
        message: padded(message),
    }
}

// The output with zeros after it.
fn padded(output: &[u8]) -> [u8; 64]
    ensures { result ≡ tabulate 64 (at output.now) }
{
    array::from_fn(|d| output.get(d).copied().unwrap_or(0))
}
