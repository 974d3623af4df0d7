// Calls given to a reader in order, and what it replies.
ghost use Rattle.std.specs.Prelude.{◌≡◌, ℕ, ◌≤◌, min, length};
ghost use Rattle.runs.specs.Runs.{RunsLawfully, reply_at};

pub mod serve;

use self::serve::serve;
use algebra::{Fault, Field, Group};
use reader::{ReadRecord, Reader};

// A call, with what it is handed; of an output its length, which may be wrong.
#[derive(Clone, Copy, PartialEq, Eq, Debug)]
pub enum Call<'a> {
    Load {
        e: &'a [u8],
        t: u8,
    },
    Clear,
    Write {
        message: &'a [u8],
        mark: usize,
    },
    Read {
        received: &'a [u8],
        mended: usize,
        message: usize,
    },
    Syndrome {
        mark: &'a [u8],
        buffer: usize,
    },
    Facts,
    Alike {
        first: &'a [u8],
        second: &'a [u8],
    },
}

#[derive(Clone, Copy, PartialEq, Eq, Debug)]
pub enum Answer {
    Loaded {
        dots: usize,
        rows: usize,
    },
    Cleared,
    Written,
    Mended(ReadRecord),
    Syndrome,
    Facts {
        dots: usize,
        radius: usize,
        rows: usize,
    },
    Alike(Option<usize>),
}

// What a call answers, and its outputs: the mark, the mended mark or the syndrome, and the message.
// Each is followed by zeros, and is all zeros where the call is refused or has no such output.
// They are arrays, so that a reply takes no heap and is copied like a number.
#[derive(Clone, Copy, PartialEq, Eq, Debug)]
pub struct Reply {
    pub answer: Result<Answer, Fault>,
    pub mark: [u8; 64],
    pub message: [u8; 64],
}

// Serves the calls to a new reader, one reply for each while there is room, and answers how many.
pub fn run<F: Field + Drop, G: Group + Drop>(
    field: F,
    group: G,
    calls: &[Call],
    replies: &mut [Reply],
) -> usize
    ensures many { result ≡ min (length calls.now) (length replies.old) }
    ensures rest { (i : ℕ) → result ≤ i → reply_at replies.new i ≡ reply_at replies.old i }
    ensures lawful { RunsLawfully (F.Field.symbols field) (G.Group.dots group) calls.now replies.new result }
{
    let mut reader = Reader::new(field, group);
    let count = calls.len().min(replies.len());
    // Not `zip` with `iter_mut`: past them a proof knows how many replies there are and none of them.
    for (i, call) in calls[..count].iter().enumerate() {
        replies[i] = serve(&mut reader, call);
    }
    count
}
