// The lists of calls of the tour over PATRICIA: a table of each address kind alone, and as the upper table of a stack whose lower table
// is a sorted list.
#![tactic(auto)]

mod stacks;

use address::kind::Address;
use patricia::patricia::Patricia;
use std::fmt;
use table::calls::Call;
use tour_support::calls::on_three_rows;
use tour_support::samples;
use tour_support::walk::run_through;
use trie::node::Node;

// The calls on a fresh table of three nodes, with what comes of them and the nodes that are then in use.
fn tour<A, P>(rt: &HostRuntime, calls: &[Call<A, P>]) -> anyhow::Result<()>
where
    A: Address<Prefix = P> + fmt::Display,
    P: Copy + fmt::Display,
{
    let mut nodes = [Node::blank(); 3];
    let mut table = Patricia::<A>::new(&mut nodes);
    run_through(rt, &mut table, calls)?;
    let used = table.node_count();
    println!(rt; "nodes in use: {used}")?;
    Ok(())
}

// One function for each kind, with the samples of that kind.
fn ipv4(rt: &HostRuntime) -> anyhow::Result<()> {
    println!(rt; "IPv4, PATRICIA")?;
    tour(rt, &on_three_rows(samples::ipv4()?))
}

fn ipv6(rt: &HostRuntime) -> anyhow::Result<()> {
    println!(rt; "IPv6, PATRICIA")?;
    tour(rt, &on_three_rows(samples::ipv6()?))
}

fn main(rt: HostRuntime) -> anyhow::Result<()> {
    ipv4(&rt)?;
    ipv6(&rt)?;
    stacks::trie_over_list_ipv4(&rt)?;
    stacks::trie_over_list_ipv6(&rt)
}
