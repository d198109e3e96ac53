ghost use Rattle.sorted.specs.Rows.{WellFormed};

use address::kind::Address;
use sorted::list::Sorted;
use std::fmt;
use table::calls::{Call, Exchange, Reply};

// Prints what becomes of an address and a length as a prefix, where they are refused.
pub fn print_refused<A: Address + fmt::Display>(
    rt: &HostRuntime,
    address: A,
    len: u8,
) -> anyhow::Result<()> {
    if let Err(refusal) = address.prefix(len) {
        println!(rt; "prefix {address}/{len}: {refusal}")?;
    }
    Ok(())
}

// Prints a call with its reply.
pub fn print_made<A: fmt::Display + Copy, P: fmt::Display + Copy>(
    rt: &HostRuntime,
    call: Call<A, P>,
    reply: Reply<A>,
) -> anyhow::Result<()> {
    match reply {
        Ok(granted) => println!(rt; "{call}: {granted}")?,
        Err(refusal) => println!(rt; "{call}: {refusal}")?,
    }
    Ok(())
}

// Prints each call with the reply that it got.
pub fn print_exchanges<A: fmt::Display + Copy, P: fmt::Display + Copy>(
    rt: &HostRuntime,
    exchanges: &[Exchange<A, P>],
) -> anyhow::Result<()> {
    for exchange in exchanges {
        let call = exchange.call;
        match exchange.reply {
            Some(reply) => print_made(rt, call, reply)?,
            None => println!(rt; "{call}: not made")?,
        }
    }
    Ok(())
}

// Prints the routes of a table, in their order.
pub fn print_routes<A, P>(rt: &HostRuntime, table: &Sorted<A>) -> anyhow::Result<()>
where
    A: Address<Prefix = P> + fmt::Display,
    P: Copy + fmt::Display,
    requires { WellFormed A.Address.WIDTH table.now.used table.now.rows.now }
{
    println!(rt; "table")?;
    for (prefix, hop) in (0..table.route_count()).filter_map(|i| table.route(i)) {
        println!(rt; "{prefix} via {hop}")?;
    }
    Ok(())
}
