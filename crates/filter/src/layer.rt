ghost use Rattle.std.specs.Prelude.{◌≡◌};
ghost use Rattle.model.specs.Laws.{Does};
ghost use Rattle.model.specs.Machine.{lookup};
ghost use Rattle.model.specs.Stack.{filter, filter_view};
ghost use Rattle.model.proofs.FilterLaws.{filter_described, filter_local};
ghost use Rattle.filter.specs.Policies.{rules_of};
ghost use Rattle.filter.specs.Verdicts.{AskedOnce};

use crate::policy::Policy;
use crate::verdict::{judge, too_long};
use address::kind::Address;
use std::ops::ControlFlow;
use table::calls::Refusal;
use table::interface::Table;

// A policy filter: of the table's routes those are visible that the policy permits.
#[derive(Drop)]
pub struct Filter<T: Table> {
    inner: T,
    policy: Policy<T::Addr>,
}

// Each layer passes on itself what it leaves alone: a default in the interface would have no table below to call.
impl<T: Table> Table for Filter<T> {
    type Addr = T::Addr;

    ghost planes = { λ s. T.Table.planes s.inner };

    ghost view = { λ s. filter_view (rules_of s.policy) (T.Table.view s.inner) };

    ghost room = { λ s. T.Table.room s.inner };

    ghost stack = { λ s. filter (rules_of s.policy) (T.Table.stack s.inner) };

    ghost valid = { λ s. T.Table.valid s.inner };

    ghost described = { λ s. filter_described (rules_of s.policy) (T.Table.described s.inner) };

    ghost local = { λ s. filter_local (rules_of s.policy) (T.Table.view s.inner) (T.Table.local s.inner) };

    ghost roomy = { λ s. T.Table.roomy s.inner };

    ghost sound = { λ s g. T.Table.sound s.inner g };

    ghost current = { λ s g. T.Table.current s.inner g };

    fn plane_count(&self) -> u16 {
        self.inner.plane_count()
    }

    fn announce(
        &mut self,
        plane: u16,
        prefix: <T::Addr as Address>::Prefix,
        hop: T::Addr,
    ) -> Result<(), Refusal> {
        self.inner.announce(plane, prefix, hop)
    }

    fn withdraw(
        &mut self,
        plane: u16,
        prefix: <T::Addr as Address>::Prefix,
    ) -> Result<(), Refusal> {
        self.inner.withdraw(plane, prefix)
    }

    // What a plane holds is not filtered.
    fn fetch(
        &mut self,
        plane: u16,
        prefix: <T::Addr as Address>::Prefix,
    ) -> Result<Option<T::Addr>, Refusal> {
        self.inner.fetch(plane, prefix)
    }

    // Asks below at falling bounds: after each denied route at the bound beneath it.
    fn lookup(&mut self, address: T::Addr, bound: u8) -> Result<Option<(u8, T::Addr)>, Refusal> {
        if too_long::<T::Addr>(bound) {
            return Err(Refusal::BoundTooLong);
        }
        let mut longest = bound;
        loop {
            match self.ask(address, longest)? {
                ControlFlow::Break(answer) => return Ok(answer),
                ControlFlow::Continue(below) => longest = below,
            }
        }
    }
}

impl<T: Table> Filter<T> {
    // Puts the policy before the table: planes and room stay, and the view and the stack are filtered.
    pub fn new(inner: T, policy: Policy<T::Addr>) -> Filter<T>
        ensures parts { (result.inner ≡ inner) × (result.policy ≡ policy) }
        ensures planes { T.Table.planes result.inner ≡ T.Table.planes inner }
        ensures view { filter_view (rules_of result.policy) (T.Table.view result.inner) ≡ filter_view (rules_of policy) (T.Table.view inner) }
        ensures room { T.Table.room result.inner ≡ T.Table.room inner }
        ensures stack { filter (rules_of result.policy) (T.Table.stack result.inner) ≡ filter (rules_of policy) (T.Table.stack inner) }
        ensures valid { T.Table.valid inner → T.Table.valid result.inner }
    {
        Filter { inner, policy }
    }

    // Asks the table below once: a break with the answer that stands, or the bound at which to ask again.
    #[tactic(auto, using(crate::proofs::Bounds::answer_at_most))]
    fn ask(
        &mut self,
        address: T::Addr,
        bound: u8,
    ) -> Result<ControlFlow<Option<(u8, T::Addr)>, u8>, Refusal>
        requires { T.Table.valid self.old.inner }
        ensures valid { T.Table.valid self.new.inner }
        ensures policy { self.new.policy ≡ self.old.policy }
        ensures once { AskedOnce T.Addr.Address.bits (rules_of self.old.policy) (T.Addr.Address.bits address) (Does T.Table.planes T.Table.view T.Table.room T.Table.stack self.old.inner self.new.inner (lookup (T.Addr.Address.bits address) bound)) result }
    {
        let found = self.inner.lookup(address, bound)?;
        Ok(judge(&self.policy.rules, address, found))
    }

    // The table below, exactly as it stands.
    pub fn into_inner(self) -> T
        ensures { result ≡ self.inner }
    {
        self.inner
    }

    // Another policy before the same table.
    pub fn replace(mut self, policy: Policy<T::Addr>) -> Filter<T>
        ensures parts { (result.inner ≡ self.inner) × (result.policy ≡ policy) }
        ensures planes { T.Table.planes result.inner ≡ T.Table.planes self.inner }
        ensures view { filter_view (rules_of result.policy) (T.Table.view result.inner) ≡ filter_view (rules_of policy) (T.Table.view self.inner) }
        ensures room { T.Table.room result.inner ≡ T.Table.room self.inner }
        ensures stack { filter (rules_of result.policy) (T.Table.stack result.inner) ≡ filter (rules_of policy) (T.Table.stack self.inner) }
        ensures valid { T.Table.valid self.inner → T.Table.valid result.inner }
    {
        self.policy = policy;
        self
    }

    // The table below.
    pub fn inner(&self) -> &T
        ensures { result.now ≡ self.now.inner }
    {
        &self.inner
    }
}
