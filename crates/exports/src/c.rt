use crate::load::{Load, put_under, read_addresses, read_routes};
use crate::tables::answer_all;
use address::ipv4::Ipv4;
use address::ipv6::Ipv6;
use address::kind::Address;
use kind48::mac::Mac48;
use patricia::patricia::Patricia;
use sorted::list::Sorted;
use sorted::row::Row;
use std::alloc::{AllocError, Global};
use trie::node::Node;

// Makes the calls on a fresh sorted list of so many rows, and writes the replies. How many bytes were written; none where memory fails.
fn on_sorted<A: Address>(heap: Global, rows: usize, calls: &[u8], out: &mut [u8]) -> usize {
    let Ok(mut rows) = vec![in heap; Row::blank(); rows] else {
        return 0;
    };
    let mut table = Sorted::<A>::new(rows.as_mut_slice());
    answer_all(&mut table, calls, out)
}

// Likewise on a fresh PATRICIA of so many nodes.
fn on_patricia<A: Address>(heap: Global, nodes: usize, calls: &[u8], out: &mut [u8]) -> usize {
    let Ok(mut nodes) = vec![in heap; Node::blank(); nodes] else {
        return 0;
    };
    let mut table = Patricia::<A>::new(nodes.as_mut_slice());
    answer_all(&mut table, calls, out)
}

// The C interface: a function for each table and kind.
#[unsafe(no_mangle)]
pub extern "C" fn sorted_ipv4(heap: Global, rows: usize, calls: &[u8], out: &mut [u8]) -> usize {
    on_sorted::<Ipv4>(heap, rows, calls, out)
}

#[unsafe(no_mangle)]
pub extern "C" fn sorted_ipv6(heap: Global, rows: usize, calls: &[u8], out: &mut [u8]) -> usize {
    on_sorted::<Ipv6>(heap, rows, calls, out)
}

#[unsafe(no_mangle)]
pub extern "C" fn sorted_mac48(heap: Global, rows: usize, calls: &[u8], out: &mut [u8]) -> usize {
    on_sorted::<Mac48>(heap, rows, calls, out)
}

#[unsafe(no_mangle)]
pub extern "C" fn patricia_ipv4(heap: Global, nodes: usize, calls: &[u8], out: &mut [u8]) -> usize {
    on_patricia::<Ipv4>(heap, nodes, calls, out)
}

#[unsafe(no_mangle)]
pub extern "C" fn patricia_ipv6(heap: Global, nodes: usize, calls: &[u8], out: &mut [u8]) -> usize {
    on_patricia::<Ipv6>(heap, nodes, calls, out)
}

#[unsafe(no_mangle)]
pub extern "C" fn patricia_mac48(
    heap: Global,
    nodes: usize,
    calls: &[u8],
    out: &mut [u8],
) -> usize {
    on_patricia::<Mac48>(heap, nodes, calls, out)
}

// Puts a fresh PATRICIA of so many nodes under a load, over the first `held` routes. The sum that the load gave.
fn under_load<A: Address>(
    heap: Global,
    nodes: usize,
    routes: &[u8],
    held: usize,
    addresses: &[u8],
    load: Load,
) -> Result<u64, AllocError> {
    let routes = read_routes::<A>(heap, routes)?;
    let addresses = read_addresses::<A>(heap, addresses)?;
    let mut nodes = vec![in heap; Node::blank(); nodes]?;
    let mut table = Patricia::<A>::new(nodes.as_mut_slice());
    Ok(put_under(
        &mut table,
        routes.as_slice(),
        held,
        addresses.as_slice(),
        load,
    ))
}

#[unsafe(no_mangle)]
pub extern "C" fn patricia_ipv4_load(
    heap: Global,
    nodes: usize,
    routes: &[u8],
    held: usize,
    addresses: &[u8],
    lookups: usize,
    churns: usize,
    announces: usize,
) -> u64 {
    let load = Load {
        lookups,
        churns,
        announces,
    };
    under_load::<Ipv4>(heap, nodes, routes, held, addresses, load).unwrap_or(0)
}

#[unsafe(no_mangle)]
pub extern "C" fn patricia_ipv6_load(
    heap: Global,
    nodes: usize,
    routes: &[u8],
    held: usize,
    addresses: &[u8],
    lookups: usize,
    churns: usize,
    announces: usize,
) -> u64 {
    let load = Load {
        lookups,
        churns,
        announces,
    };
    under_load::<Ipv6>(heap, nodes, routes, held, addresses, load).unwrap_or(0)
}
