use address::ipv4::{Ipv4, Prefix4};
use address::kind::Address;
use cache::cache::Cache;
use filter::layer::Filter;
use filter::rule::{Action, Rule};
use minimal::one_route::OneRoute;
use states::loading::Loading;
use std::test::Fail;
use table::calls::Granted::{Done, Found};
use table::calls::{Call, Exchange, Refusal};
use table::interface::Table;
use test_support::values::{in_slot, ip, policy};

// A next hop.
const HOP: u32 = 0xc000_0201;

// An address of slot 1 that 10.0.0.0/8 covers.
const INSIDE: u32 = 0x0a00_0001;

// The rule that permits every route.
fn permit_all() -> Result<Rule<Prefix4>, Fail> {
    Ok(Rule {
        action: Action::Permit,
        prefix: ip(0).prefix(0)?,
        ge: 0,
        le: 32,
    })
}

// A loading stack takes announcements, withdrawals and fetches; opened, it is the same stack and takes all calls.
#[test]
fn opens(rt: HostRuntime) -> Result<(), Fail> {
    let ten = ip(0x0a00_0000).prefix(8)?;
    let all = ip(0).prefix(0)?;
    let table: OneRoute<Ipv4> = OneRoute::new();
    let mut loading = Loading::new(table);
    assert_eq!(rt; loading.plane_count(), 1);
    assert_eq!(rt; loading.announce(1, all, ip(HOP)), Err(Refusal::NoPlane));
    assert_eq!(rt; loading.announce(0, all, ip(HOP)), Ok(()));
    assert_eq!(rt; loading.announce(0, ten, ip(HOP)), Err(Refusal::NoRoom));
    assert_eq!(rt; loading.withdraw(0, all), Ok(()));
    assert_eq!(rt; loading.withdraw(0, all), Err(Refusal::NotHeld));
    assert_eq!(rt; loading.announce(0, ten, ip(HOP)), Ok(()));
    assert_eq!(rt; loading.fetch(0, ten), Ok(Some(ip(HOP))));
    let mut forwarding = loading.open();
    assert_eq!(rt; forwarding.plane_count(), 1);
    assert_eq!(rt; forwarding.lookup(ip(INSIDE), 32), Ok(Some((8, ip(HOP)))));
    assert_eq!(rt;
        forwarding.lookup(ip(INSIDE), 33),
        Err(Refusal::BoundTooLong)
    );
    assert_eq!(rt; forwarding.fetch(0, ten), Ok(Some(ip(HOP))));
    assert_eq!(rt; forwarding.withdraw(0, ten), Ok(()));
    assert_eq!(rt; forwarding.announce(0, all, ip(HOP)), Ok(()));
    Ok(())
}

// A forwarding stack takes whole lists of calls.
#[test]
fn runs(rt: HostRuntime) -> Result<(), Fail> {
    let ten = ip(0x0a00_0000).prefix(8)?;
    let address = ip(INSIDE);
    let steps = [
        (Call::lookup(address, 32), Ok(Found(None))),
        (Call::announce(0, ten, ip(HOP)), Ok(Done)),
        (Call::lookup(address, 32), Ok(Found(Some((8, ip(HOP)))))),
        (Call::lookup(address, 7), Ok(Found(None))),
        (Call::withdraw(1, ten), Err(Refusal::NoPlane)),
    ];
    let table: OneRoute<Ipv4> = OneRoute::new();
    let mut forwarding = Loading::new(table).open();
    for step in steps {
        let mut exchange = [Exchange {
            call: step.0,
            reply: None,
        }];
        forwarding.run(&mut exchange);
        assert_eq!(rt; exchange[0].reply, Some(step.1));
    }
    Ok(())
}

// While loading: the cache comes off, the policy is replaced, a new cache goes on; its slots are empty, the routes are there.
#[test]
fn replaces_while_loading(rt: HostRuntime) -> Result<(), Fail> {
    let ten = ip(0x0a00_0000).prefix(8)?;
    let table: OneRoute<Ipv4> = OneRoute::new();
    let mut cached = Cache::new(Filter::new(table, policy(&[permit_all()?])?), 4);
    assert_eq!(rt; cached.lookup(ip(INSIDE), 32), Ok(None));
    assert_eq!(rt; in_slot(&cached, 1), Some(ip(INSIDE)));
    let mut loading = Loading::new(cached);
    assert_eq!(rt; loading.announce(0, ten, ip(HOP)), Ok(()));
    let mut filtered = loading.uncover().replace(policy(&[])?);
    assert_eq!(rt; filtered.fetch(0, ten), Ok(Some(ip(HOP))));
    let mut forwarding = filtered.cover(4).open();
    assert_eq!(rt; in_slot(forwarding.table(), 1), None);
    assert_eq!(rt; forwarding.lookup(ip(INSIDE), 32), Ok(None));
    Ok(())
}

// While forwarding: the same way, and the new policy decides at once.
#[test]
fn replaces_while_forwarding(rt: HostRuntime) -> Result<(), Fail> {
    let ten = ip(0x0a00_0000).prefix(8)?;
    let table: OneRoute<Ipv4> = OneRoute::new();
    let loading = Loading::new(Filter::new(table, policy(&[permit_all()?])?));
    let mut forwarding = loading.open().cover(4);
    assert_eq!(rt; forwarding.announce(0, ten, ip(HOP)), Ok(()));
    assert_eq!(rt; forwarding.lookup(ip(INSIDE), 32), Ok(Some((8, ip(HOP)))));
    assert_eq!(rt; in_slot(forwarding.table(), 1), Some(ip(INSIDE)));
    let mut filtered = forwarding.uncover().replace(policy(&[])?);
    assert_eq!(rt; filtered.fetch(0, ten), Ok(Some(ip(HOP))));
    let mut again = filtered.cover(4);
    assert_eq!(rt; in_slot(again.table(), 1), None);
    assert_eq!(rt; again.lookup(ip(INSIDE), 32), Ok(None));
    Ok(())
}
