use address::kind::Address;
use cache::cache::Cache;
use filter::layer::Filter;
use filter::policy::Policy;
use filter::rule::{Action, Rule};
use kind48::mac::{Mac48, Prefix48};
use minimal::one_route::OneRoute;
use std::test::Fail;
use table::calls::Granted::{Done, Found, Holds};
use table::calls::{Call, Refusal};
use test_support::steps::check;
use test_support::values::{join, mac, policy};

// A policy that denies what is beneath the prefix and permits it alone.
fn only(prefix: Prefix48, len: u8) -> Result<Policy<Mac48>, Fail> {
    let rules = [Rule {
        action: Action::Permit,
        prefix,
        ge: len,
        le: len,
    }];
    policy(&rules)
}

// A cache over a fall-through from a filtered table to another, at 48 bits.
#[test]
fn stack_at_48_bits(rt: HostRuntime) -> Result<(), Fail> {
    let wide = mac(0x0a00_0000_0000)?.prefix(8)?;
    let narrow = mac(0x0a01_0000_0000)?.prefix(16)?;
    let all = mac(0)?.prefix(0)?;
    let address = mac(0x0a01_0203_0405)?;
    let one = mac(1)?;
    let two = mac(2)?;
    let steps = [
        (Call::announce(0, narrow, one), Ok(Done)),
        (Call::announce(1, all, two), Ok(Done)),
        (Call::lookup(address, 48), Ok(Found(Some((0, two))))),
        (Call::fetch(0, narrow), Ok(Holds(Some(one)))),
        (Call::withdraw(0, narrow), Ok(Done)),
        (Call::announce(0, wide, one), Ok(Done)),
        (Call::lookup(address, 48), Ok(Found(Some((8, one))))),
        (Call::lookup(address, 48), Ok(Found(Some((8, one))))),
        (Call::lookup(address, 7), Ok(Found(Some((0, two))))),
        (Call::lookup(address, 49), Err(Refusal::BoundTooLong)),
        (Call::fetch(2, all), Err(Refusal::NoPlane)),
    ];
    let upper = Filter::new(OneRoute::<Mac48>::new(), only(wide, 8)?);
    let both = join(upper, OneRoute::<Mac48>::new())?;
    let mut stack = Cache::new(both, 16);
    check(rt.alloc(), &mut stack, &steps)?;
    let entry = stack
        .entry(5)
        .ok_or_else(|| Fail::new("the slot of the last 16 bits is filled"))?;
    assert_eq!(rt; entry.answer, Some((8, one)));
    Ok(())
}
