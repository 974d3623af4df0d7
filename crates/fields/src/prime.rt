// The fields of prime order, whose codes add and multiply modulo the order.
ghost use Rattle.std.specs.Prelude.{◌≡◌, true};
ghost use Rattle.algebra.specs.Checks.{Judged};
ghost use Rattle.fields.specs.FieldKinds.{listed, order_checks, prime_orders, prime_symbols};
ghost use Rattle.fields.specs.SmallFields.{prime_laws};

use algebra::{Fault, Field, Part};

#[derive(Clone, Copy, PartialEq, Eq, Hash, Debug)]
pub struct PrimeField {
    order: u8,
    ghost prime: { listed prime_orders order ≡ true },
}

impl PrimeField {
    // One `new` for both kinds of field would take the orders and a maker, and be longer.
    pub fn new(order: u8) -> Result<PrimeField, Fault>
        ensures { Judged (order_checks prime_orders order) result (λ x. ⟦<PrimeField as Field>⟧.symbols x ≡ prime_symbols order) }
    {
        match order {
            2 | 3 | 5 | 7 | 11 | 13 => Ok(PrimeField { order }),
            _ => Err(Fault::order(Part::Symbols)),
        }
    }
}

impl Field for PrimeField {
    ghost symbols = { λ x. prime_symbols x.order };

    ghost lawful = { λ x. prime_laws x.order x.prime };

    fn order(&self) -> u8 {
        self.order
    }

    fn sum(&self, a: u8, b: u8) -> u8 {
        if a >= self.order || b >= self.order {
            return 0;
        }
        (a + b) % self.order
    }

    fn opposite(&self, a: u8) -> u8 {
        if a >= self.order {
            return 0;
        }
        (self.order - a) % self.order
    }

    fn product(&self, a: u8, b: u8) -> u8 {
        if a >= self.order || b >= self.order {
            return 0;
        }
        (a * b) % self.order
    }
}
