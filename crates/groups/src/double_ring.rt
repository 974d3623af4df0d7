// A double ring of the 2m dots i and m + i, for i below m.
ghost use Rattle.std.specs.Prelude.{◌≡◌, ◌≤◌};
ghost use Rattle.algebra.specs.Checks.{Judged};
ghost use Rattle.groups.specs.GroupKinds.{double_ring_dots, order_checks};
ghost use Rattle.groups.specs.DoubleRings.{double_ring_laws};

use algebra::{Fault, Group, Part};

#[derive(Clone, Copy, PartialEq, Eq, Hash, Debug)]
pub struct DoubleRing {
    half: usize,
    ghost within: { (1 ≤ half) × (half ≤ 32) },
}

impl DoubleRing {
    // One `new` for rings and double rings would take the bound and a maker, and be longer.
    pub fn new(m: usize) -> Result<DoubleRing, Fault>
        ensures { Judged (order_checks 32 m) result (λ x. ⟦<DoubleRing as Group>⟧.dots x ≡ double_ring_dots m) }
    {
        match m {
            1..=32 => Ok(DoubleRing { half: m }),
            _ => Err(Fault::order(Part::Dots)),
        }
    }
}

impl Group for DoubleRing {
    ghost dots = { λ x. double_ring_dots x.half };

    ghost lawful = { λ x. double_ring_laws x.half x.within.0 x.within.1 };

    fn order(&self) -> usize {
        2 * self.half
    }

    fn product(&self, a: usize, b: usize) -> usize {
        let m = self.half;
        if a >= 2 * m || b >= 2 * m {
            return 0;
        }
        match (a < m, b < m) {
            (true, true) => (a + b) % m,
            (true, false) => m + (a + (b - m)) % m,
            (false, true) => m + (a - m + (m - b)) % m,
            (false, false) => (a - m + (m - (b - m))) % m,
        }
    }

    fn inverse(&self, a: usize) -> usize {
        let m = self.half;
        if a >= 2 * m {
            return 0;
        }
        if a < m { (m - a) % m } else { a }
    }
}
