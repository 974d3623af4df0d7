// The fields of 4, 8 and 16 elements: polynomials whose coefficients are the bits of a code.
ghost use Rattle.std.specs.Prelude.{◌≡◌, ◌<◌, true};
ghost use Rattle.algebra.specs.Checks.{Judged};
ghost use Rattle.fields.specs.FieldKinds.{binary_orders, binary_symbols, listed, order_checks, times_z};
ghost use Rattle.fields.specs.SmallFields.{binary_laws};

use algebra::{Fault, Field, Part};

#[derive(Clone, Copy, PartialEq, Eq, Hash, Debug)]
pub struct BinaryField {
    order: u8,
    ghost binary: { listed binary_orders order ≡ true },
}

impl BinaryField {
    // One `new` for both kinds of field would take the orders and a maker, and be longer.
    pub fn new(order: u8) -> Result<BinaryField, Fault>
        ensures { Judged (order_checks binary_orders order) result (λ x. ⟦<BinaryField as Field>⟧.symbols x ≡ binary_symbols order) }
    {
        match order {
            4 | 8 | 16 => Ok(BinaryField { order }),
            _ => Err(Fault::order(Part::Symbols)),
        }
    }

    // The modulus, as a code, is 3 more than the order.
    fn times_z(self, a: u8) -> u8
        requires { a < self.order }
        ensures { result ≡ times_z self.order a }
    {
        let double = 2 * a;
        if double < self.order {
            double
        } else {
            double ^ (self.order + 3)
        }
    }
}

impl Field for BinaryField {
    ghost symbols = { λ x. binary_symbols x.order };

    ghost lawful = { λ x. binary_laws x.order x.binary };

    fn order(&self) -> u8 {
        self.order
    }

    fn sum(&self, a: u8, b: u8) -> u8 {
        if a >= self.order || b >= self.order {
            return 0;
        }
        a ^ b
    }

    fn opposite(&self, a: u8) -> u8 {
        if a < self.order { a } else { 0 }
    }

    fn product(&self, a: u8, b: u8) -> u8 {
        if a >= self.order || b >= self.order {
            return 0;
        }
        // The bits of b by their numbers: a fold that hands on the pair of product and shifted is no plainer.
        let mut product = 0;
        let mut shifted = a;
        for i in 0u8..4 {
            if (b >> i) % 2 == 1 {
                product ^= shifted;
            }
            shifted = self.times_z(shifted);
        }
        product
    }
}
