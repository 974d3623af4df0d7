// A few values, as they can be worked out by hand.
use crate::{BinaryField, PrimeField};
use algebra::{Fault, Field, Part, Refusal};
use std::test::Fail;

#[test]
fn inverse_modulo_five(rt: HostRuntime) -> Result<(), Fail> {
    assert_eq!(rt; PrimeField::new(5)?.inverse(2), Some(3));
    Ok(())
}

#[test]
fn product_of_polynomials(rt: HostRuntime) -> Result<(), Fail> {
    assert_eq!(rt; BinaryField::new(16)?.product(8, 2), 3);
    Ok(())
}

#[test]
fn refused_orders(rt: HostRuntime) {
    assert_eq!(rt; u8::from(Refusal::Order), 1);
    let refused = Fault {
        refusal: Refusal::Order,
        part: Part::Symbols,
        place: 0,
    };
    assert_eq!(rt; PrimeField::new(4).err(), Some(refused));
    assert_eq!(rt; PrimeField::new(9).err(), Some(refused));
    assert_eq!(rt; BinaryField::new(2).err(), Some(refused));
}
