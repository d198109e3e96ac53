// Puts one list of calls through a sorted list of each address kind, and prints each call with its reply and the table at the end;
// then another through stacks of layers in three orders, and prints the filled slots of their caches after each call.
#![tactic(auto)]

mod stacks;

use address::kind::Address;
use sorted::list::Sorted;
use sorted::row::Row;
use std::fmt;
use table::calls::Call;
use tour_support::calls::on_three_rows;
use tour_support::print::{print_refused, print_routes};
use tour_support::samples;
use tour_support::samples::Samples;
use tour_support::walk::run_through;

// The calls on a fresh list of three rows, with what comes of them and the routes that it then holds.
fn tour<A, P>(rt: &HostRuntime, at: Samples<A, P>, calls: &[Call<A, P>]) -> anyhow::Result<()>
where
    A: Address<Prefix = P> + fmt::Display,
    P: Copy + fmt::Display,
{
    print_refused(rt, at.inside, A::WIDTH.saturating_add(1))?;
    print_refused(rt, at.inside, 8)?;
    let mut rows = [Row::blank(); 3];
    let mut table = Sorted::<A>::new(&mut rows);
    run_through(rt, &mut table, calls)?;
    print_routes(rt, &table)
}

// One function for each kind, with the samples of that kind.
fn ipv4(rt: &HostRuntime) -> anyhow::Result<()> {
    println!(rt; "IPv4")?;
    let at = samples::ipv4()?;
    tour(rt, at, &on_three_rows(at))
}

fn ipv6(rt: &HostRuntime) -> anyhow::Result<()> {
    println!(rt; "IPv6")?;
    let at = samples::ipv6()?;
    tour(rt, at, &on_three_rows(at))
}

fn main(rt: HostRuntime) -> anyhow::Result<()> {
    ipv4(&rt)?;
    ipv6(&rt)?;
    stacks::cache_on_top_ipv4(&rt)?;
    stacks::filter_on_top_ipv4(&rt)?;
    stacks::caches_below_ipv4(&rt)?;
    stacks::cache_on_top_ipv6(&rt)?;
    stacks::filter_on_top_ipv6(&rt)?;
    stacks::caches_below_ipv6(&rt)
}
