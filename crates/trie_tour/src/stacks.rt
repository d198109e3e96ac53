use patricia::patricia::Patricia;
use sorted::list::Sorted;
use sorted::row::Row;
use tour_support::calls::on_two_planes;
use tour_support::samples;
use tour_support::stacks::{cache_on_top, rules};
use trie::node::Node;

// One function for each kind: over any kind, each contract would have to name the sizes of the tables and of every layer over them.
pub fn trie_over_list_ipv4(rt: &HostRuntime) -> anyhow::Result<()> {
    println!(rt; "IPv4, a cache over a fall-through from a filtered PATRICIA table to a list")?;
    let at = samples::ipv4()?;
    let mut nodes = [Node::blank(); 3];
    let mut rows = [Row::blank(); 3];
    let upper = Patricia::new(&mut nodes);
    let lower = Sorted::new(&mut rows);
    cache_on_top(rt, upper, lower, &rules(at), &on_two_planes(at))
}

pub fn trie_over_list_ipv6(rt: &HostRuntime) -> anyhow::Result<()> {
    println!(rt; "IPv6, a cache over a fall-through from a filtered PATRICIA table to a list")?;
    let at = samples::ipv6()?;
    let mut nodes = [Node::blank(); 3];
    let mut rows = [Row::blank(); 3];
    let upper = Patricia::new(&mut nodes);
    let lower = Sorted::new(&mut rows);
    cache_on_top(rt, upper, lower, &rules(at), &on_two_planes(at))
}
