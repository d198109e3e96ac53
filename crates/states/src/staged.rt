ghost use Rattle.std.specs.Prelude.{◌≡◌, min, false, length, replicate, is_ok, None};
ghost use Rattle.model.specs.Machine.{on, announce, withdraw, fetch};
ghost use Rattle.model.specs.Laws.{Does};
ghost use Rattle.model.specs.Stack.{AllUpToDate};
ghost use Rattle.cache.specs.Entries.{as_slots, Sized};
ghost use Rattle.table.specs.Meaning.{of_update, of_fetch};

use address::kind::Address;
use cache::cache::Cache;
use filter::layer::Filter;
use filter::policy::Policy;
use std::marker::PhantomData;
use table::calls::Refusal;
use table::interface::Table;

// A stack in the state that S names, with what both states take: announcements, withdrawals and fetches.
#[derive(Drop)]
pub struct Staged<T: Table, S> {
    pub(crate) table: T,
    state: PhantomData<S>,
}

impl<T: Table, S> Staged<T, S> {
    // The stack, in this state: `new` and `open` alone give one.
    pub(crate) fn of(table: T) -> Staged<T, S>
        ensures { result.table ≡ table }
    {
        Staged {
            table,
            state: PhantomData,
        }
    }

    pub fn announce(
        &mut self,
        plane: u16,
        prefix: <T::Addr as Address>::Prefix,
        hop: T::Addr,
    ) -> Result<(), Refusal>
        requires { T.Table.valid self.old.table }
        ensures valid { T.Table.valid self.new.table }
        ensures does { Does T.Table.planes T.Table.view T.Table.room T.Table.stack self.old.table self.new.table (on plane (announce (T.Addr.Address.pbits prefix) (T.Addr.Address.bits hop))) (of_update result) }
        ensures refused { is_ok result ≡ false → self.new ≡ self.old }
    {
        self.table.announce(plane, prefix, hop)
    }

    pub fn withdraw(
        &mut self,
        plane: u16,
        prefix: <T::Addr as Address>::Prefix,
    ) -> Result<(), Refusal>
        requires { T.Table.valid self.old.table }
        ensures valid { T.Table.valid self.new.table }
        ensures does { Does T.Table.planes T.Table.view T.Table.room T.Table.stack self.old.table self.new.table (on plane (withdraw (T.Addr.Address.pbits prefix))) (of_update result) }
        ensures refused { is_ok result ≡ false → self.new ≡ self.old }
    {
        self.table.withdraw(plane, prefix)
    }

    pub fn fetch(
        &mut self,
        plane: u16,
        prefix: <T::Addr as Address>::Prefix,
    ) -> Result<Option<T::Addr>, Refusal>
        requires { T.Table.valid self.old.table }
        ensures valid { T.Table.valid self.new.table }
        ensures does { Does T.Table.planes T.Table.view T.Table.room T.Table.stack self.old.table self.new.table (on plane (fetch (T.Addr.Address.pbits prefix))) (of_fetch T.Addr.Address.bits result) }
        ensures refused { is_ok result ≡ false → self.new ≡ self.old }
    {
        self.table.fetch(plane, prefix)
    }

    // The number of planes.
    pub fn plane_count(&self) -> u16
        requires { T.Table.valid self.now.table }
        ensures { result ≡ length (T.Table.planes self.now.table) }
    {
        self.table.plane_count()
    }

    // The stack out of its state.
    pub fn into_table(self) -> T
        ensures { result ≡ self.table }
    {
        let Staged { table, state: _ } = self;
        table
    }

    // Covers the stack with an empty cache of `count` slots, at most 4,096; the state stays.
    pub fn cover(self, count: usize) -> Staged<Cache<T>, S>
        ensures below { result.table.inner ≡ self.table }
        ensures slots { (result.table.count ≡ min count 4096) × (as_slots T.Addr.bits result.table.slots ≡ replicate 4096 None) }
        ensures valid { T.Table.valid self.table → T.Table.valid result.table.inner × AllUpToDate (T.Table.view result.table.inner (T.Table.planes result.table.inner)) (as_slots T.Addr.bits result.table.slots) × Sized result.table.count result.table.slots }
    {
        let Staged { table, state } = self;
        Staged {
            table: Cache::new(table, count),
            state,
        }
    }
}

impl<T: Table, S> Staged<Cache<T>, S> {
    // Takes the cache off: the stack below is as it was, the entries are gone, the state stays.
    pub fn uncover(self) -> Staged<T, S>
        ensures { result.table ≡ self.table.inner }
    {
        let Staged { table, state } = self;
        Staged {
            table: table.into_inner(),
            state,
        }
    }
}

impl<T: Table, S> Staged<Filter<T>, S> {
    // Replaces the policy of the filter on top; the state stays. Under a cache there is no such call: its entries would be stale.
    pub fn replace(self, policy: Policy<T::Addr>) -> Staged<Filter<T>, S>
        ensures { (result.table.inner ≡ self.table.inner) × (result.table.policy ≡ policy) }
    {
        let Staged { table, state } = self;
        Staged {
            table: table.replace(policy),
            state,
        }
    }
}
