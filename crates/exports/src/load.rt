ghost use Rattle.std.specs.Iterator.{IsFinite};

use crate::bytes::HALVES;
use crate::wire::{CALL, address_in, hop_of, prefix_of};
use address::kind::Address;
use address::refusal::PrefixRefusal;
use std::alloc::{AllocError, Global};
use table::interface::Table;

// A route: a prefix with its next hop.
#[derive(Clone, Copy)]
pub struct Route<A, P> {
    prefix: P,
    hop: A,
}

// A route over addresses of the kind.
type RouteOf<A> = Route<A, <A as Address>::Prefix>;

// What is done with a table once it holds its first routes.
#[derive(Clone, Copy)]
pub struct Load {
    // how often all addresses are looked up
    pub lookups: usize,
    // how often the other routes are announced and withdrawn again
    pub churns: usize,
    // how often the other routes are announced in the end
    pub announces: usize,
}

// The route in the bytes of a call to announce it, unless its prefix is refused.
fn route_in<A: Address>(call: &[u8; CALL]) -> Result<RouteOf<A>, PrefixRefusal> {
    Ok(Route {
        prefix: prefix_of::<A>(call)?,
        hop: hop_of::<A>(call),
    })
}

// The routes in bytes, each as the bytes of a call to announce it. One whose prefix is refused is left out.
pub fn read_routes<A: Address>(heap: Global, bytes: &[u8]) -> Result<Vec<RouteOf<A>>, AllocError> {
    let (calls, _) = bytes.as_chunks::<CALL>();
    calls
        .iter()
        .filter_map(|call| route_in::<A>(call).ok())
        .collect(heap)
}

// The addresses in bytes.
pub fn read_addresses<A: Address>(heap: Global, bytes: &[u8]) -> Result<Vec<A>, AllocError> {
    let (addresses, _) = bytes.as_chunks::<HALVES>();
    addresses
        .iter()
        .map(|bytes| address_in::<A>(bytes))
        .collect(heap)
}

// Makes the call at each item in turn. The sum of what the calls gave.
fn summed<T, I, F>(table: &mut T, items: I, call: F) -> u64
where
    T: Table,
    I: Iterator + Drop,
    F: Fn(&mut T, I::Item) -> u64,
    requires valid { T.Table.valid table.old }
    requires next { I.can_next items }
    requires ends { IsFinite (I.remaining items) }
    requires call { (t : _) (x : _) → T.Table.valid t.now → F.pre call t x }
    requires keeps { (t : _) (x : _) (r : _) (u : _) → T.Table.valid t.now → F.post call t x r u → T.Table.valid u.now }
    ensures { T.Table.valid table.new }
{
    let mut sum = 0u64;
    for item in items {
        sum = sum.wrapping_add(call(table, item));
    }
    sum
}

// Announces the routes. How many were accepted.
fn announce_all<T: Table>(table: &mut T, routes: &[RouteOf<T::Addr>]) -> u64
    requires { T.Table.valid table.old }
    ensures { T.Table.valid table.new }
{
    summed(table, routes.iter(), |table, route| {
        u64::from(table.announce(0, route.prefix, route.hop).is_ok())
    })
}

// Withdraws the routes. How many were held.
fn withdraw_all<T: Table>(table: &mut T, routes: &[RouteOf<T::Addr>]) -> u64
    requires { T.Table.valid table.old }
    ensures { T.Table.valid table.new }
{
    summed(table, routes.iter(), |table, route| {
        u64::from(table.withdraw(0, route.prefix).is_ok())
    })
}

// Looks all addresses up. The sum of the lengths and of the high halves of the next hops.
fn lookup_all<T: Table>(table: &mut T, addresses: &[T::Addr]) -> u64
    requires { T.Table.valid table.old }
    ensures { T.Table.valid table.new }
{
    let width = T::Addr::WIDTH;
    summed(table, addresses.iter(), |table, address| {
        match table.lookup(*address, width) {
            Ok(Some((len, hop))) => u64::from(len).wrapping_add(hop.to_halves().hi),
            Ok(None) | Err(_) => 0, // nothing to pass on: both count as nothing
        }
    })
}

// Puts the table under the load, over the first `held` routes. The sum of what the calls gave.
pub fn put_under<T: Table>(
    table: &mut T,
    routes: &[RouteOf<T::Addr>],
    held: usize,
    addresses: &[T::Addr],
    load: Load,
) -> u64
    requires { T.Table.valid table.old }
    ensures { T.Table.valid table.new }
{
    let (first, others) = routes.split_at(held.min(routes.len()));
    let built = announce_all(table, first);
    let found = summed(table, 0..load.lookups, |table, _| {
        lookup_all(table, addresses)
    });
    let churned = summed(table, 0..load.churns, |table, _| {
        announce_all(table, others).wrapping_add(withdraw_all(table, others))
    });
    let added = summed(table, 0..load.announces, |table, _| {
        announce_all(table, others)
    });
    built
        .wrapping_add(found)
        .wrapping_add(churned)
        .wrapping_add(added)
}
