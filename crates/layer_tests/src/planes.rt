use address::ipv4::{Ipv4, Prefix4};
use address::kind::Address;
use fall_through::layer::FallThrough;
use minimal::one_route::OneRoute;
use std::test::Fail;
use table::interface::Table;
use test_support::values::{ip, join};

// Eight planes are fine; a ninth is refused with 18, and both tables come back as they were.
#[test]
fn nine_planes(rt: HostRuntime) -> Result<(), Fail> {
    let ten = ip(0x0a00_0000).prefix(8)?;
    let hop = ip(0xc000_0201);
    let one: OneRoute<Ipv4> = OneRoute::new();
    let two = join(one, OneRoute::<Ipv4>::new())?;
    let four = join(two, join(OneRoute::<Ipv4>::new(), OneRoute::<Ipv4>::new())?)?;
    let six = join(
        four,
        join(OneRoute::<Ipv4>::new(), OneRoute::<Ipv4>::new())?,
    )?;
    let mut eight = join(six, join(OneRoute::<Ipv4>::new(), OneRoute::<Ipv4>::new())?)?;
    assert_eq!(rt; eight.plane_count(), 8);
    assert_eq!(rt; eight.announce(7, ten, hop), Ok(()));
    let mut ninth: OneRoute<Ipv4> = OneRoute::new();
    assert_eq!(rt; ninth.announce(0, ten, hop), Ok(()));
    match FallThrough::new(eight, ninth) {
        Ok(_) => Err(Fail::new("nine planes are too many")),
        Err(refused) => {
            assert_eq!(rt; refused.number(), 18);
            let mut upper = refused.upper;
            let mut lower = refused.lower;
            assert_eq!(rt; upper.plane_count(), 8);
            assert_eq!(rt; upper.fetch(7, ten), Ok(Some(hop)));
            assert_eq!(rt; lower.fetch(0, ten), Ok(Some(hop)));
            Ok(())
        }
    }
}
