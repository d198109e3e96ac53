use address::ipv4::{Ipv4, Prefix4};
use address::kind::Address;
use cache::cache::Cache;
use filter::layer::Filter;
use filter::rule::{Action, Rule};
use minimal::one_route::OneRoute;
use sorted::list::Sorted;
use sorted::row::Row;
use std::alloc::Global;
use std::test::Fail;
use table::calls::Granted::{Done, Found, Holds};
use table::calls::{Call, Refusal};
use test_support::steps::{Step, check};
use test_support::values::{in_slot, ip, join, policy};

// Next hops.
const A: u32 = 0xc000_0201;

const B: u32 = 0xc000_0202;

const C: u32 = 0xc000_0203;

// An upper /8 hides a lower /16, until it is withdrawn.
#[test]
fn falls_through(rt: HostRuntime) -> Result<(), Fail> {
    let ten = ip(0x0a00_0000).prefix(8)?;
    let one = ip(0x0a01_0000).prefix(16)?;
    let all = ip(0).prefix(0)?;
    let address = ip(0x0a01_0203);
    let steps = [
        (Call::announce(0, ten, ip(A)), Ok(Done)),
        (Call::announce(1, one, ip(B)), Ok(Done)),
        (Call::announce(1, all, ip(C)), Ok(Done)),
        (Call::announce(2, all, ip(C)), Err(Refusal::NoPlane)),
        (Call::lookup(address, 32), Ok(Found(Some((8, ip(A)))))),
        (Call::lookup(address, 4), Ok(Found(Some((0, ip(C)))))),
        (Call::fetch(1, one), Ok(Holds(Some(ip(B))))),
        (Call::withdraw(1, ten), Err(Refusal::NotHeld)),
        (Call::withdraw(0, ten), Ok(Done)),
        (Call::lookup(address, 32), Ok(Found(Some((16, ip(B)))))),
        (Call::lookup(address, 33), Err(Refusal::BoundTooLong)),
    ];
    let mut rows = [Row::blank(); 4];
    let mut more = [Row::blank(); 4];
    let upper: Sorted<Ipv4> = Sorted::new(&mut rows);
    let lower: Sorted<Ipv4> = Sorted::new(&mut more);
    let mut stack = join(upper, lower)?;
    check(rt.alloc(), &mut stack, &steps)
}

// A filter goes on below a denied route, and fetch is not filtered.
#[test]
fn goes_on_below_denied_routes(rt: HostRuntime) -> Result<(), Fail> {
    let ten = ip(0x0a00_0000).prefix(8)?;
    let one = ip(0x0a01_0000).prefix(16)?;
    let all = ip(0).prefix(0)?;
    let address = ip(0x0a01_0203);
    let steps = [
        (Call::announce(0, ten, ip(A)), Ok(Done)),
        (Call::announce(0, one, ip(B)), Ok(Done)),
        (Call::lookup(address, 32), Ok(Found(Some((8, ip(A)))))),
        (Call::fetch(0, one), Ok(Holds(Some(ip(B))))),
        (Call::withdraw(0, ten), Ok(Done)),
        (Call::lookup(address, 32), Ok(Found(None))),
    ];
    let rules = [
        Rule {
            action: Action::Deny,
            prefix: ten,
            ge: 16,
            le: 32,
        },
        Rule {
            action: Action::Permit,
            prefix: all,
            ge: 0,
            le: 32,
        },
    ];
    let mut rows = [Row::blank(); 4];
    let table: Sorted<Ipv4> = Sorted::new(&mut rows);
    let mut stack = Filter::new(table, policy(&rules)?);
    check(rt.alloc(), &mut stack, &steps)
}

// What a list of calls leaves in the slots of a cache of so many slots over the smallest table.
fn check_slots(
    heap: Global,
    count: usize,
    steps: &[Step<Ipv4, Prefix4>],
    filled: &[(usize, Option<u32>)],
) -> Result<(), Fail> {
    let table: OneRoute<Ipv4> = OneRoute::new();
    let mut stack = Cache::new(table, count);
    check(heap, &mut stack, steps)?;
    for (i, due) in filled {
        let held = in_slot(&stack, *i);
        if held != due.map(ip) {
            return Err(Fail::new(format_args!("slot {i} holds {held:?} and not {due:?}")));
        }
    }
    Ok(())
}

// Hits, misses, a stored none, a clash, an update that covers one entry, refused calls, and the slot counts.
#[test]
fn fills_slots(rt: HostRuntime) -> Result<(), Fail> {
    let ten = ip(0x0a00_0000).prefix(8)?;
    let x = ip(0x0a00_0001);
    let y = ip(0x0a00_0005);
    let z = ip(0x0b00_0002);
    let looks = [
        (Call::lookup(x, 32), Ok(Found(None))),
        (Call::lookup(z, 32), Ok(Found(None))),
        (Call::lookup(y, 31), Ok(Found(None))),
        (Call::lookup(x, 33), Err(Refusal::BoundTooLong)),
        (Call::withdraw(0, ten), Err(Refusal::NotHeld)),
    ];
    let heap = rt.alloc();
    check_slots(
        heap,
        4,
        &looks,
        &[
            (0, None),
            (1, Some(0x0a00_0001)),
            (2, Some(0x0b00_0002)),
            (3, None),
        ],
    )?;
    check_slots(heap, 0, &looks, &[(0, None), (1, None), (4095, None)])?;
    check_slots(heap, 1, &looks, &[(0, Some(0x0b00_0002)), (1, None)])?;
    check_slots(
        heap,
        4096,
        &looks,
        &[(1, Some(0x0a00_0001)), (2, Some(0x0b00_0002)), (4095, None)],
    )?;
    check_slots(heap, 5000, &looks, &[(1, Some(0x0a00_0001)), (4096, None)])?;
    let changes = [
        (Call::lookup(x, 32), Ok(Found(None))),
        (Call::lookup(z, 32), Ok(Found(None))),
        (Call::announce(0, ten, ip(A)), Ok(Done)),
        (Call::lookup(x, 32), Ok(Found(Some((8, ip(A)))))),
        (Call::lookup(x, 32), Ok(Found(Some((8, ip(A)))))),
        (Call::lookup(y, 32), Ok(Found(Some((8, ip(A)))))),
    ];
    check_slots(
        heap,
        4,
        &changes,
        &[(1, Some(0x0a00_0005)), (2, Some(0x0b00_0002))],
    )
}

// An update on a plane that the upper table hides empties the entry all the same.
#[test]
fn hidden_updates_empty_slots(rt: HostRuntime) -> Result<(), Fail> {
    let ten = ip(0x0a00_0000).prefix(8)?;
    let address = ip(0x0a00_0001);
    let steps = [
        (Call::announce(0, ten, ip(A)), Ok(Done)),
        (Call::lookup(address, 32), Ok(Found(Some((8, ip(A)))))),
        (Call::announce(1, ten, ip(B)), Ok(Done)),
    ];
    let upper: OneRoute<Ipv4> = OneRoute::new();
    let lower: OneRoute<Ipv4> = OneRoute::new();
    let mut stack = Cache::new(join(upper, lower)?, 4);
    check(rt.alloc(), &mut stack, &steps)?;
    assert_eq!(rt; in_slot(&stack, 1), None);
    Ok(())
}
