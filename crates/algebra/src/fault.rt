// What a refused call tells: which rule was broken, which part found it, and where.
ghost use Rattle.std.specs.Prelude.{◌≡◌, Some};
ghost use Rattle.algebra.specs.Refusals.{Named, Numbered, dot_refused, fault, fault_text, length_refused, number, order_refused, part_text, symbol_refused};

use std::error::Error;
use std::fmt;

// The rules that a call can be refused by, in their order.
#[derive(Clone, Copy, PartialEq, Eq, PartialOrd, Ord, Hash, Debug)]
pub enum Refusal {
    Order = 1,
    TableSize,
    Entry,
    Identity,
    Inverse,
    Association,
    NoCode,
    Length,
    Range,
    Radius,
    Book,
    NotIdempotent,
    NotCentral,
    TooClose,
    OutOfReach,
}

impl From<Refusal> for u8 {
    ghost from_gives = { λ x n. (n ≡ number x) × Numbered x n };

    fn from(refusal: Refusal) -> u8 {
        refusal as u8
    }
}

// The part that refuses.
#[derive(Clone, Copy, PartialEq, Eq, PartialOrd, Ord, Hash, Debug)]
pub enum Part {
    Symbols,
    Dots,
    Reader,
}

impl Part {
    pub fn name(self) -> &'static str
        ensures named { Named self result.now }
        ensures text { result.now ≡ part_text self }
    {
        match self {
            Part::Symbols => "symbols",
            Part::Dots => "dots",
            Part::Reader => "reader",
        }
    }

    // The fault of this part by a rule, at a place.
    pub fn refuses(self, refusal: Refusal, place: usize) -> Fault
        ensures { result ≡ fault refusal self place }
    {
        Fault {
            refusal,
            part: self,
            place,
        }
    }
}

impl fmt::Display for Part {
    ghost output = { λ p. Some (part_text p) };

    fn fmt<W: fmt::Write>(&self, f: &mut fmt::Formatter<W>) -> fmt::Result {
        f.write_str(self.name())
    }
}

#[derive(Clone, Copy, PartialEq, Eq, Hash, Debug)]
pub struct Fault {
    pub refusal: Refusal,
    pub part: Part,
    // 0 where no place is named.
    pub place: usize,
}

impl Fault {
    // No field or group of this kind has the number asked for.
    pub fn order(part: Part) -> Fault
        ensures { result ≡ order_refused part }
    {
        part.refuses(Refusal::Order, 0)
    }

    // The call's buffer with this position has another length than the call says.
    pub fn length(buffer: usize) -> Fault
        ensures { result ≡ length_refused buffer }
    {
        Part::Reader.refuses(Refusal::Length, buffer)
    }

    pub fn symbol(place: usize) -> Fault
        ensures { result ≡ symbol_refused place }
    {
        Part::Symbols.refuses(Refusal::Range, place)
    }

    pub fn dot() -> Fault
        ensures { result ≡ dot_refused }
    {
        Part::Dots.refuses(Refusal::Range, 0)
    }
}

impl fmt::Display for Fault {
    ghost output = { λ f. Some (fault_text f) };

    fn fmt<W: fmt::Write>(&self, f: &mut fmt::Formatter<W>) -> fmt::Result {
        let number = u8::from(self.refusal);
        let (part, place) = (self.part, self.place);
        write!(f, "rule {number}, part {part}, place {place}")
    }
}

impl Error for Fault {}
