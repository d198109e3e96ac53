ghost use Rattle.std.specs.Prelude.{◌≡◌, false, map, Some};
ghost use Rattle.model.specs.Laws.{Does};
ghost use Rattle.model.specs.Logs.{granted};
ghost use Rattle.model.specs.Promise.{RunsAsReference};
ghost use Rattle.table.specs.Meaning.{as_call, as_reply, calls_in, replies_in};

use crate::calls::{Call, Exchange, Granted, Reply};
use crate::interface::Table;
use address::kind::Address;

// Makes one call.
pub fn perform<T: Table>(
    table: &mut T,
    call: Call<T::Addr, <T::Addr as Address>::Prefix>,
) -> Reply<T::Addr>
    requires { T.Table.valid table.old }
    ensures valid { T.Table.valid table.new }
    ensures does { Does T.Table.planes T.Table.view T.Table.room T.Table.stack table.old table.new (as_call T.Addr.Address.bits T.Addr.Address.pbits call) (as_reply T.Addr.Address.bits result) }
    ensures refused { granted (as_reply T.Addr.Address.bits result) ≡ false → table.new ≡ table.old }
{
    match call {
        Call::Announce { plane, prefix, hop } => {
            table.announce(plane, prefix, hop)?;
            Ok(Granted::Done)
        }
        Call::Withdraw { plane, prefix } => {
            table.withdraw(plane, prefix)?;
            Ok(Granted::Done)
        }
        Call::Fetch { plane, prefix } => Ok(Granted::Holds(table.fetch(plane, prefix)?)),
        Call::Lookup { address, bound } => Ok(Granted::Found(table.lookup(address, bound)?)),
    }
}

// Makes the calls in turn and writes down the reply to each: the table ends as the reference machine has it for the whole list.
pub fn run<T: Table>(
    table: &mut T,
    exchanges: &mut [Exchange<T::Addr, <T::Addr as Address>::Prefix>],
)
    requires { T.Table.valid table.old }
    ensures valid { T.Table.valid table.new }
    ensures calls { map (λ x. x.call) exchanges.new ≡ map (λ x. x.call) exchanges.old }
    ensures replied { map (λ x. x.reply) exchanges.new ≡ map Some (replies_in exchanges.new) }
    ensures promise { RunsAsReference T.Table.planes T.Table.view T.Table.room T.Table.stack table.old table.new (map (as_call T.Addr.Address.bits T.Addr.Address.pbits) (calls_in exchanges.old)) (map (as_reply T.Addr.Address.bits) (replies_in exchanges.new)) }
{
    for exchange in exchanges.iter_mut() {
        exchange.reply = Some(perform(table, exchange.call));
    }
}
