ghost use Rattle.std.specs.Prelude.{◌≡◌};

use address::kind::Address;
use std::alloc::Global;
use std::fmt;
use std::test::*;
use table::calls::{Call, Exchange, Reply};
use table::interface::Table;
use table::run::run;

// A call with the reply that is due.
pub type Step<A, P> = (Call<A, P>, Reply<A>);

// The calls, with places for their replies.
fn asked<A: Copy, P: Copy>(
    heap: Global,
    steps: &[Step<A, P>],
) -> Result<Vec<Exchange<A, P>>, Fail> {
    let exchanges = steps
        .iter()
        .map(|step| Exchange {
            call: step.0,
            reply: None,
        })
        .collect::<Vec<_>>(heap)?;
    Ok(exchanges)
}

// Holds each reply against the one that is due.
fn compare<A: Copy + PartialEq + fmt::Debug + Drop, P: Copy>(
    exchanges: &[Exchange<A, P>],
    steps: &[Step<A, P>],
) -> Result<(), Fail> {
    if exchanges.len() != steps.len() {
        return Err(Fail::new("there are not as many replies as calls"));
    }
    for (exchange, step) in exchanges.iter().zip(steps.iter()) {
        let due = Some(step.1);
        if exchange.reply != due {
            return Err(Fail::new(format_args!(
                "the reply is {:?} and not {due:?}",
                exchange.reply
            )));
        }
    }
    Ok(())
}

// Makes the calls on the table, in one run, and holds each reply against the one that is due.
pub fn check<A: Address + PartialEq + fmt::Debug + Drop, T: Table<Addr = A>>(
    heap: Global,
    table: &mut T,
    steps: &[Step<A, A::Prefix>],
) -> Result<(), Fail>
    requires { T.Table.valid table.old }
    ensures { T.Table.valid table.new }
{
    let mut exchanges = asked(heap, steps)?;
    run(table, exchanges.as_mut_slice());
    compare(exchanges.as_slice(), steps)
}
