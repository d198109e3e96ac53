ghost use Rattle.std.specs.Prelude.{◌≡◌, min, true, false, replicate, is_ok, if◌then◌else◌, Some, None, IfOk, nat_lt, slice_index_or, slice_set};
ghost use Rattle.model.specs.Laws.{Does};
ghost use Rattle.model.specs.Machine.{lookup};
ghost use Rattle.model.specs.Slots.{slot_of, in_full, hits};
ghost use Rattle.model.specs.Stack.{cache, AllUpToDate};
ghost use Rattle.model.proofs.CacheLaws.{cache_described, cache_current};
ghost use Rattle.table.specs.Meaning.{of_lookup};
ghost use Rattle.cache.specs.Entries.{as_slots, Sized};

use crate::entry::Entry;
use crate::slots::{SLOTS, hit, in_full, slot_of, sweep};
use address::kind::Address;
use table::calls::Refusal;
use table::interface::Table;

// A table with a destination cache over it, of which the first `count` slots are used.
// A rule of the project: no heap, so the slots are an array of the cache's own, with the number that is used beside it.
#[derive(Drop)]
pub struct Cache<T: Table> {
    inner: T,
    count: usize,
    slots: [Option<Entry<T::Addr>>; SLOTS],
}

impl<T: Table> Cache<T> {
    // An empty cache of `count` slots, at most 4,096, over the table; with no slot it never stores.
    pub fn new(inner: T, count: usize) -> Cache<T>
        ensures inner { result.inner ≡ inner }
        ensures planes { T.Table.planes result.inner ≡ T.Table.planes inner }
        ensures view { T.Table.view result.inner ≡ T.Table.view inner }
        ensures room { T.Table.room result.inner ≡ T.Table.room inner }
        ensures stack { cache result.count (as_slots T.Addr.bits result.slots) (T.Table.stack result.inner) ≡ cache (min count 4096) (replicate 4096 None) (T.Table.stack inner) }
        ensures valid { T.Table.valid inner → T.Table.valid result.inner × AllUpToDate (T.Table.view result.inner (T.Table.planes result.inner)) (as_slots T.Addr.bits result.slots) × Sized result.count result.slots }
    {
        Cache {
            inner,
            count: count.min(SLOTS),
            slots: [None; SLOTS],
        }
    }

    // The table below, as it stands.
    pub fn into_inner(self) -> T
        ensures { result ≡ self.inner }
    {
        self.inner
    }

    // The table below, to look at.
    pub fn inner(&self) -> &T
        ensures { result.now ≡ self.now.inner }
    {
        &self.inner
    }

    // What slot `i` holds: nothing past those that are used.
    pub fn entry(&self, i: usize) -> Option<Entry<T::Addr>>
        ensures { result ≡ (if nat_lt i self.now.count then slice_index_or self.now.slots i None else None) }
    {
        if i >= self.count {
            return None;
        }
        *self.slots.get(i)?
    }
}

// Each layer passes on itself what it leaves alone: a default in the interface would have no table below to call.
impl<T: Table> Table for Cache<T> {
    type Addr = T::Addr;

    ghost planes = { λ s. T.Table.planes s.inner };

    ghost view = { λ s. T.Table.view s.inner };

    ghost room = { λ s. T.Table.room s.inner };

    ghost stack = { λ s. cache s.count (as_slots T.Addr.Address.bits s.slots) (T.Table.stack s.inner) };

    // the table below is, every entry has the answer that it would give now, and no more slots are used than there are
    ghost valid = { λ s. T.Table.valid s.inner × AllUpToDate (T.Table.view s.inner (T.Table.planes s.inner)) (as_slots T.Addr.Address.bits s.slots) × Sized s.count s.slots };

    ghost described = { λ s. cache_described s.count (as_slots T.Addr.Address.bits s.slots) (T.Table.described s.inner) };

    ghost local = { λ s. T.Table.local s.inner };

    ghost roomy = { λ s. T.Table.roomy s.inner };

    ghost sound = { λ s v. T.Table.sound s.inner v.0 };

    ghost current = { λ s v. cache_current s.count (as_slots T.Addr.Address.bits s.slots) (T.Table.described s.inner) v.1 (T.Table.current s.inner v.0) };

    fn plane_count(&self) -> u16 {
        self.inner.plane_count()
    }

    fn announce(
        &mut self,
        plane: u16,
        prefix: <T::Addr as Address>::Prefix,
        hop: T::Addr,
    ) -> Result<(), Refusal> {
        let done = self.inner.announce(plane, prefix, hop)?;
        sweep(&mut self.slots, prefix);
        Ok(done)
    }

    fn withdraw(
        &mut self,
        plane: u16,
        prefix: <T::Addr as Address>::Prefix,
    ) -> Result<(), Refusal> {
        let done = self.inner.withdraw(plane, prefix)?;
        sweep(&mut self.slots, prefix);
        Ok(done)
    }

    fn fetch(
        &mut self,
        plane: u16,
        prefix: <T::Addr as Address>::Prefix,
    ) -> Result<Option<T::Addr>, Refusal> {
        self.inner.fetch(plane, prefix)
    }

    // At the full width, answered from the slot where it holds the address, else from below, and stored; at a smaller bound passed on.
    fn lookup(&mut self, address: T::Addr, bound: u8) -> Result<Option<(u8, T::Addr)>, Refusal>
        requires { ⟦<Cache<T> as Table>⟧.valid self.old }
        ensures valid { ⟦<Cache<T> as Table>⟧.valid self.new }
        ensures does { Does ⟦<Cache<T> as Table>⟧.planes ⟦<Cache<T> as Table>⟧.view ⟦<Cache<T> as Table>⟧.room ⟦<Cache<T> as Table>⟧.stack self.old self.new (lookup (T.Addr.Address.bits address) bound) (of_lookup T.Addr.Address.bits result) }
        ensures refused { is_ok result ≡ false → self.new ≡ self.old }
        ensures hit { hits self.old.count (as_slots T.Addr.Address.bits self.old.slots) (T.Addr.Address.bits address) bound ≡ true → self.new ≡ self.old }
        ensures miss { in_full self.old.count (T.Addr.Address.bits address) bound ≡ true → hits self.old.count (as_slots T.Addr.Address.bits self.old.slots) (T.Addr.Address.bits address) bound ≡ false → IfOk result (λ x. self.new.slots ≡ slice_set self.old.slots (slot_of self.old.count (T.Addr.Address.bits address)) (Some (record { address = address; answer = x }))) }
    {
        if !in_full(self.count, address, bound) {
            return self.inner.lookup(address, bound);
        }
        let i = slot_of(address, self.count);
        if let Some(answer) = hit(self.slots[i], address) {
            return Ok(answer);
        }
        let answer = self.inner.lookup(address, bound)?;
        self.slots[i] = Some(Entry { address, answer });
        Ok(answer)
    }
}
