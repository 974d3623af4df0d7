// Products in the kinds of groups, and what is refused.
use crate::{DoubleRing, Grid, Ring};
use algebra::{Fault, Group, Part, Refusal};
use std::test::Fail;

#[test]
fn double_ring(rt: HostRuntime) -> Result<(), Fail> {
    let double = DoubleRing::new(3)?;
    assert_eq!(rt; double.product(4, 1), 3);
    assert_eq!(rt; double.product(1, 4), 5);
    Ok(())
}

#[test]
fn grids(rt: HostRuntime) -> Result<(), Fail> {
    let (two, eight) = (Ring::new(2)?, Ring::new(8)?);
    assert_eq!(rt; Grid::new(eight, eight).order(), 64);
    assert_eq!(rt; Grid::new(eight, Ring::new(9)?).order(), 1);
    let cube = Grid::new(Grid::new(two, eight), two);
    assert_eq!(rt; cube.order(), 32);
    assert_eq!(rt; cube.product(16 + 2 * 5, 2 * 4 + 1), 16 + 2 + 1);
    Ok(())
}

#[test]
fn refusals(rt: HostRuntime) {
    let refused = Some(Fault {
        refusal: Refusal::Order,
        part: Part::Dots,
        place: 0,
    });
    assert_eq!(rt; u8::from(Refusal::Order), 1);
    assert_eq!(rt; Ring::new(0).err(), refused);
    assert_eq!(rt; Ring::new(65).err(), refused);
    assert_eq!(rt; DoubleRing::new(0).err(), refused);
    assert_eq!(rt; DoubleRing::new(33).err(), refused);
}
