use address::ipv4::{Ipv4, Prefix4};
use address::ipv6::{Ipv6, Prefix6};
use address::kind::Address;
use address::refusal::PrefixRefusal;
use kind48::mac::{Mac48, Prefix48};
use patricia::patricia::Patricia;
use sorted::list::Sorted;
use sorted::row::Row;
use std::alloc::Global;
use std::fmt;
use std::test::Fail;
use table::calls::Granted::{Done, Found, Holds};
use table::calls::{Call, Refusal};
use test_support::steps::{Step, check};
use test_support::values::{ip, mac};
use trie::node::Node;

// Prefixes and addresses of one kind: `all` has length 0, `wide` covers `narrow`, `narrow` covers `inside`, `host` is `inside` at full
// length, and `outside` is covered by `all` alone; and two next hops.
#[derive(Drop)]
struct Sample<A: Address> {
    all: A::Prefix,
    wide: A::Prefix,
    narrow: A::Prefix,
    host: A::Prefix,
    inside: A,
    outside: A,
    one: A,
    two: A,
}

// The calls and the replies to them on a table of three rows.
fn calls_and_replies<A: Address>(s: &Sample<A>) -> [Step<A, A::Prefix>; 27] {
    let width = A::WIDTH;
    [
        // an empty table
        (Call::lookup(s.inside, width), Ok(Found(None))),
        (Call::fetch(0, s.wide), Ok(Holds(None))),
        (Call::withdraw(0, s.wide), Err(Refusal::NotHeld)),
        // an absent plane comes first, whatever else is wrong
        (Call::announce(1, s.wide, s.one), Err(Refusal::NoPlane)),
        (Call::withdraw(1, s.wide), Err(Refusal::NoPlane)),
        (Call::fetch(65535, s.wide), Err(Refusal::NoPlane)),
        // the longest match and its bounds
        (Call::announce(0, s.narrow, s.two), Ok(Done)),
        (Call::announce(0, s.wide, s.one), Ok(Done)),
        (Call::lookup(s.inside, width), Ok(Found(Some((16, s.two))))),
        (Call::lookup(s.inside, 16), Ok(Found(Some((16, s.two))))),
        (Call::lookup(s.inside, 15), Ok(Found(Some((8, s.one))))),
        (Call::lookup(s.inside, 7), Ok(Found(None))),
        (Call::lookup(s.inside, 0), Ok(Found(None))),
        (
            Call::lookup(s.inside, width + 1),
            Err(Refusal::BoundTooLong),
        ),
        (Call::lookup(s.outside, width), Ok(Found(None))),
        // length 0, and a full table
        (Call::announce(0, s.all, s.two), Ok(Done)),
        (Call::lookup(s.outside, 0), Ok(Found(Some((0, s.two))))),
        (Call::announce(0, s.host, s.one), Err(Refusal::NoRoom)),
        (Call::fetch(0, s.host), Ok(Holds(None))),
        // a held prefix takes another hop, in a full table too
        (Call::announce(0, s.narrow, s.one), Ok(Done)),
        (Call::fetch(0, s.narrow), Ok(Holds(Some(s.one)))),
        // room again, and length W
        (Call::withdraw(0, s.wide), Ok(Done)),
        (Call::withdraw(0, s.wide), Err(Refusal::NotHeld)),
        (Call::announce(0, s.host, s.two), Ok(Done)),
        (
            Call::lookup(s.inside, width),
            Ok(Found(Some((width, s.two)))),
        ),
        (
            Call::lookup(s.inside, width - 1),
            Ok(Found(Some((16, s.one)))),
        ),
        (Call::lookup(s.outside, width), Ok(Found(Some((0, s.two))))),
    ]
}

// Runs the calls on a fresh sorted list of three rows, and on a fresh PATRICIA table of three nodes: none of the prefixes part. The calls
// come from the test: in a function over any kind their size stays open.
fn check_calls<A, P>(heap: Global, steps: &[Step<A, P>]) -> Result<(), Fail>
where
    A: Address<Prefix = P> + PartialEq + fmt::Debug + Drop,
    P: Copy,
{
    let mut rows = [Row::blank(); 3];
    let mut list = Sorted::<A>::new(&mut rows);
    check(heap, &mut list, steps)?;
    let mut nodes = [Node::blank(); 3];
    let mut trie = Patricia::<A>::new(&mut nodes);
    check(heap, &mut trie, steps)
}

#[test]
fn ipv4_calls(rt: HostRuntime) -> Result<(), Fail> {
    let inside = ip(0x0a01_0203);
    let sample = Sample {
        all: ip(0).prefix(0)?,
        wide: ip(0x0a00_0000).prefix(8)?,
        narrow: ip(0x0a01_0000).prefix(16)?,
        host: inside.prefix(32)?,
        inside,
        outside: ip(0x0b00_0001),
        one: ip(0xc000_0201),
        two: ip(0xc000_0202),
    };
    check_calls(rt.alloc(), &calls_and_replies(&sample))
}

#[test]
fn ipv6_calls(rt: HostRuntime) -> Result<(), Fail> {
    let inside = Ipv6::new(0x2001_0db8_0000_0000, 9);
    let sample = Sample {
        all: Ipv6::new(0, 0).prefix(0)?,
        wide: Ipv6::new(0x2000_0000_0000_0000, 0).prefix(8)?,
        narrow: Ipv6::new(0x2001_0000_0000_0000, 0).prefix(16)?,
        host: inside.prefix(128)?,
        inside,
        outside: Ipv6::new(0x2101_0000_0000_0000, 1),
        one: Ipv6::new(1, 1),
        two: Ipv6::new(1, 2),
    };
    check_calls(rt.alloc(), &calls_and_replies(&sample))
}

#[test]
fn mac48_calls(rt: HostRuntime) -> Result<(), Fail> {
    let inside = mac(0x0a01_0203_0405)?;
    let sample = Sample {
        all: mac(0)?.prefix(0)?,
        wide: mac(0x0a00_0000_0000)?.prefix(8)?,
        narrow: mac(0x0a01_0000_0000)?.prefix(16)?,
        host: inside.prefix(48)?,
        inside,
        outside: mac(0x0b00_0000_0001)?,
        one: mac(1)?,
        two: mac(2)?,
    };
    check_calls(rt.alloc(), &calls_and_replies(&sample))
}

// Lengths and bits that make a prefix, and those that do not.
#[test]
fn prefixes(rt: HostRuntime) -> Result<(), Fail> {
    let ten = ip(0x0a00_0000);
    assert!(rt; ten.prefix(32).is_ok());
    assert_eq!(rt; ten.prefix(33), Err(PrefixRefusal::TooLong));
    assert!(rt; ten.prefix(7).is_ok());
    assert_eq!(rt; ten.prefix(6), Err(PrefixRefusal::StrayBits));
    assert_eq!(rt; ip(0x0a00_0001).prefix(8), Err(PrefixRefusal::StrayBits));
    assert_eq!(rt; ip(0x0a00_0001).prefix(255), Err(PrefixRefusal::TooLong));
    let one = Ipv6::new(0, 1);
    assert!(rt; one.prefix(128).is_ok());
    assert_eq!(rt; one.prefix(129), Err(PrefixRefusal::TooLong));
    assert_eq!(rt; one.prefix(127), Err(PrefixRefusal::StrayBits));
    assert!(rt; Ipv6::new(1, 0).prefix(64).is_ok());
    assert_eq!(rt; Ipv6::new(1, 0).prefix(63), Err(PrefixRefusal::StrayBits));
    Ok(())
}
