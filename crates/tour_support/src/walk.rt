use crate::print::{print_exchanges, print_made};
use crate::slots::Slots;
use address::kind::Address;
use std::fmt;
use table::calls::{Call, Exchange};
use table::interface::Table;
use table::run::{perform, run};

// Makes the calls in turn, and prints each with its reply and the slots that are filled after it.
pub fn walk<T: Table + Slots, A, P>(
    rt: &HostRuntime,
    stack: &mut T,
    calls: &[Call<A, P>],
) -> anyhow::Result<()>
where
    T: Table<Addr = A>,
    A: Address<Prefix = P> + fmt::Display,
    P: Copy + fmt::Display,
    requires { T.Table.valid stack.old }
{
    for call in calls {
        print_made(rt, *call, perform(stack, *call))?;
        stack.print_slots(rt)?;
    }
    Ok(())
}

// Makes the calls in one run, and then prints each with its reply.
pub fn run_through<T, A, P>(
    rt: &HostRuntime,
    table: &mut T,
    calls: &[Call<A, P>],
) -> anyhow::Result<()>
where
    T: Table<Addr = A>,
    A: Address<Prefix = P> + fmt::Display,
    P: Copy + fmt::Display,
    requires { T.Table.valid table.old }
    ensures { T.Table.valid table.new }
{
    let mut exchanges = calls
        .iter()
        .map(|call| Exchange {
            call: *call,
            reply: None,
        })
        .collect::<Vec<_>>(rt.alloc())?;
    run(table, exchanges.as_mut_slice());
    print_exchanges(rt, exchanges.as_slice())
}
