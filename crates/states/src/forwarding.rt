ghost use Rattle.std.specs.Prelude.{◌≡◌, false, map, is_ok, Some};
ghost use Rattle.model.specs.Machine.{lookup};
ghost use Rattle.model.specs.Laws.{Does};
ghost use Rattle.model.specs.Promise.{RunsAsReference};
ghost use Rattle.table.specs.Meaning.{of_lookup, as_call, as_reply, calls_in, replies_in};

use crate::staged::Staged;
use address::kind::Address;
use table::calls::{Exchange, Refusal};
use table::interface::Table;
use table::run;

// The state of a stack that forwards.
pub struct Forwards;

// A stack that forwards: it takes every call. Only opening a loading stack gives one.
pub type Forwarding<T> = Staged<T, Forwards>;

impl<T: Table> Staged<T, Forwards> {
    pub fn lookup(&mut self, address: T::Addr, bound: u8) -> Result<Option<(u8, T::Addr)>, Refusal>
        requires { T.Table.valid self.old.table }
        ensures valid { T.Table.valid self.new.table }
        ensures does { Does T.Table.planes T.Table.view T.Table.room T.Table.stack self.old.table self.new.table (lookup (T.Addr.Address.bits address) bound) (of_lookup T.Addr.Address.bits result) }
        ensures refused { is_ok result ≡ false → self.new ≡ self.old }
    {
        self.table.lookup(address, bound)
    }

    // A whole list of calls, with the promise of `run`.
    pub fn run(&mut self, exchanges: &mut [Exchange<T::Addr, <T::Addr as Address>::Prefix>])
        requires { T.Table.valid self.old.table }
        ensures valid { T.Table.valid self.new.table }
        ensures calls { map (λ x. x.call) exchanges.new ≡ map (λ x. x.call) exchanges.old }
        ensures replied { map (λ x. x.reply) exchanges.new ≡ map Some (replies_in exchanges.new) }
        ensures promise { RunsAsReference T.Table.planes T.Table.view T.Table.room T.Table.stack self.old.table self.new.table (map (as_call T.Addr.Address.bits T.Addr.Address.pbits) (calls_in exchanges.old)) (map (as_reply T.Addr.Address.bits) (replies_in exchanges.new)) }
    {
        run::run(&mut self.table, exchanges);
    }

    // The stack, to look at.
    pub fn table(&self) -> &T
        ensures { result.now ≡ self.now.table }
    {
        &self.table
    }
}
