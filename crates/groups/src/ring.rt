// A ring of n dots, which multiply by adding their numbers modulo n.
ghost use Rattle.std.specs.Prelude.{◌≡◌, ◌≤◌};
ghost use Rattle.algebra.specs.Checks.{Judged};
ghost use Rattle.groups.specs.GroupKinds.{order_checks, ring_dots};
ghost use Rattle.groups.specs.Rings.{ring_laws};

use algebra::{Fault, Group, Part};

#[derive(Clone, Copy, PartialEq, Eq, Hash, Debug)]
pub struct Ring {
    order: usize,
    ghost within: { (1 ≤ order) × (order ≤ 64) },
}

impl Ring {
    // One `new` for rings and double rings would take the bound and a maker, and be longer.
    pub fn new(n: usize) -> Result<Ring, Fault>
        ensures { Judged (order_checks 64 n) result (λ x. ⟦<Ring as Group>⟧.dots x ≡ ring_dots n) }
    {
        match n {
            1..=64 => Ok(Ring { order: n }),
            _ => Err(Fault::order(Part::Dots)),
        }
    }
}

// Sums and opposites as a prime field has them, but of dots: the two share no type.
impl Group for Ring {
    ghost dots = { λ x. ring_dots x.order };

    ghost lawful = { λ x. ring_laws x.order x.within.0 x.within.1 };

    fn order(&self) -> usize {
        self.order
    }

    fn product(&self, a: usize, b: usize) -> usize {
        if a >= self.order || b >= self.order {
            return 0;
        }
        (a + b) % self.order
    }

    fn inverse(&self, a: usize) -> usize {
        if a >= self.order {
            return 0;
        }
        (self.order - a) % self.order
    }
}
