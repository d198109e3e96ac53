ghost use Rattle.tour_support.specs.Room.{CacheOnTopFits, FilterOnTopFits, CachesBelowFits};
ghost use Rattle.std.specs.Prelude.{◌≤◌, ◌++◌, length, IfOk};

use crate::samples::Samples;
use crate::slots::Slots;
use crate::walk::walk;
use address::kind::Address;
use anyhow::anyhow;
use cache::cache::Cache;
use fall_through::layer::FallThrough;
use filter::layer::Filter;
use filter::policy::{Policy, PolicyRefusal};
use filter::rule::{Action, Rule};
use std::fmt;
use table::calls::Call;
use table::interface::Table;

// The number of slots of each cache.
pub const SLOTS: usize = 4;

// The rules that deny what is beneath the wide prefix and as long as the narrow one, and permit all else.
pub fn rules<A, P>(at: Samples<A, P>) -> [Rule<P>; 2]
where
    A: Address<Prefix = P>,
    P: Copy,
{
    let le = A::WIDTH;
    [
        Rule {
            action: Action::Deny,
            prefix: at.wide,
            ge: A::len(at.narrow),
            le,
        },
        Rule {
            action: Action::Permit,
            prefix: at.all,
            ge: 0,
            le,
        },
    ]
}

// The policy of rules that have to make one; as in `together`, the error is a program's, where the tests have one of their own.
pub fn policy<A: Address>(rules: &[Rule<A::Prefix>]) -> anyhow::Result<Policy<A>> {
    Policy::new(rules).map_err(|refusal| match refusal {
        PolicyRefusal::TooManyRules => anyhow!("the policy has too many rules"),
        PolicyRefusal::BadRule { index: _ } => anyhow!("a rule breaks its order of lengths"),
    })
}

// The upper table over the lower one, which together have few enough planes.
pub fn together<U, L>(upper: U, lower: L) -> anyhow::Result<FallThrough<U, L>>
where
    U: Table + Drop,
    L: Table<Addr = U::Addr> + Drop,
    requires upper { U.Table.valid upper }
    requires lower { L.Table.valid lower }
    ensures { IfOk result (λ f. U.Table.valid f.upper × L.Table.valid f.lower × (length (U.Table.planes f.upper ++ L.Table.planes f.lower) ≤ 8)) }
{
    FallThrough::new(upper, lower).map_err(|_| anyhow!("more than eight planes"))
}

// Walks a cache over a fall-through from the filtered upper table to the lower one.
pub fn cache_on_top<U, L, A, P>(
    rt: &HostRuntime,
    upper: U,
    lower: L,
    rules: &[Rule<P>],
    calls: &[Call<A, P>],
) -> anyhow::Result<()>
where
    U: Table<Addr = A> + Slots + Drop,
    L: Table<Addr = A> + Slots + Drop,
    A: Address<Prefix = P> + fmt::Display,
    P: Copy + fmt::Display,
    requires upper { U.Table.valid upper }
    requires lower { L.Table.valid lower }
    requires fits { CacheOnTopFits U.row L.row A.row P.row }
{
    let both = together(Filter::new(upper, policy(rules)?), lower)?;
    walk(rt, &mut Cache::new(both, SLOTS), calls)
}

// Walks a filter over a cache over a fall-through from the upper table to the lower one.
pub fn filter_on_top<U, L, A, P>(
    rt: &HostRuntime,
    upper: U,
    lower: L,
    rules: &[Rule<P>],
    calls: &[Call<A, P>],
) -> anyhow::Result<()>
where
    U: Table<Addr = A> + Slots + Drop,
    L: Table<Addr = A> + Slots + Drop,
    A: Address<Prefix = P> + fmt::Display,
    P: Copy + fmt::Display,
    requires upper { U.Table.valid upper }
    requires lower { L.Table.valid lower }
    requires fits { FilterOnTopFits U.row L.row A.row P.row }
{
    let both = together(upper, lower)?;
    let cached = Cache::new(both, SLOTS);
    let mut stack = Filter::new(cached, policy(rules)?);
    walk(rt, &mut stack, calls)
}

// Walks a fall-through from a cache over the filtered upper table to a cache over the lower one.
pub fn caches_below<U, L, A, P>(
    rt: &HostRuntime,
    upper: U,
    lower: L,
    rules: &[Rule<P>],
    calls: &[Call<A, P>],
) -> anyhow::Result<()>
where
    U: Table<Addr = A> + Slots + Drop,
    L: Table<Addr = A> + Slots + Drop,
    A: Address<Prefix = P> + fmt::Display,
    P: Copy + fmt::Display,
    requires upper { U.Table.valid upper }
    requires lower { L.Table.valid lower }
    requires fits { CachesBelowFits U.row L.row A.row P.row }
{
    let filtered = Filter::new(upper, policy(rules)?);
    let above = Cache::new(filtered, SLOTS);
    let below = Cache::new(lower, SLOTS);
    let mut stack = together(above, below)?;
    walk(rt, &mut stack, calls)
}
