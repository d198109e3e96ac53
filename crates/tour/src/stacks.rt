use sorted::list::Sorted;
use sorted::row::Row;
use tour_support::calls::on_two_planes;
use tour_support::samples;
use tour_support::stacks::{cache_on_top, caches_below, filter_on_top, rules};

// One function for each kind: over any kind, each contract would have to name the sizes of the lists and of every layer over them.
pub fn cache_on_top_ipv4(rt: &HostRuntime) -> anyhow::Result<()> {
    println!(rt; "IPv4, a cache over a fall-through from a filtered list to a list")?;
    let at = samples::ipv4()?;
    let mut rows = [Row::blank(); 3];
    let mut more = [Row::blank(); 3];
    let upper = Sorted::new(&mut rows);
    let lower = Sorted::new(&mut more);
    cache_on_top(rt, upper, lower, &rules(at), &on_two_planes(at))
}

pub fn filter_on_top_ipv4(rt: &HostRuntime) -> anyhow::Result<()> {
    println!(rt; "IPv4, a filter over a cache over a fall-through from list to list")?;
    let at = samples::ipv4()?;
    let mut rows = [Row::blank(); 3];
    let mut more = [Row::blank(); 3];
    let upper = Sorted::new(&mut rows);
    let lower = Sorted::new(&mut more);
    filter_on_top(rt, upper, lower, &rules(at), &on_two_planes(at))
}

pub fn caches_below_ipv4(rt: &HostRuntime) -> anyhow::Result<()> {
    println!(rt; "IPv4, a fall-through from a cached filtered list to a cached list")?;
    let at = samples::ipv4()?;
    let mut rows = [Row::blank(); 3];
    let mut more = [Row::blank(); 3];
    let upper = Sorted::new(&mut rows);
    let lower = Sorted::new(&mut more);
    caches_below(rt, upper, lower, &rules(at), &on_two_planes(at))
}

pub fn cache_on_top_ipv6(rt: &HostRuntime) -> anyhow::Result<()> {
    println!(rt; "IPv6, a cache over a fall-through from a filtered list to a list")?;
    let at = samples::ipv6()?;
    let mut rows = [Row::blank(); 3];
    let mut more = [Row::blank(); 3];
    let upper = Sorted::new(&mut rows);
    let lower = Sorted::new(&mut more);
    cache_on_top(rt, upper, lower, &rules(at), &on_two_planes(at))
}

pub fn filter_on_top_ipv6(rt: &HostRuntime) -> anyhow::Result<()> {
    println!(rt; "IPv6, a filter over a cache over a fall-through from list to list")?;
    let at = samples::ipv6()?;
    let mut rows = [Row::blank(); 3];
    let mut more = [Row::blank(); 3];
    let upper = Sorted::new(&mut rows);
    let lower = Sorted::new(&mut more);
    filter_on_top(rt, upper, lower, &rules(at), &on_two_planes(at))
}

pub fn caches_below_ipv6(rt: &HostRuntime) -> anyhow::Result<()> {
    println!(rt; "IPv6, a fall-through from a cached filtered list to a cached list")?;
    let at = samples::ipv6()?;
    let mut rows = [Row::blank(); 3];
    let mut more = [Row::blank(); 3];
    let upper = Sorted::new(&mut rows);
    let lower = Sorted::new(&mut more);
    caches_below(rt, upper, lower, &rules(at), &on_two_planes(at))
}
