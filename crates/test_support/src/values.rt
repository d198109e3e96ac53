ghost use Rattle.std.specs.Prelude.{◌≡◌, ◌≤◌, ◌++◌, length, IfOk, if◌then◌else◌, None, Ok, option_map, nat_lt, slice_index_or};
ghost use Rattle.filter.specs.Policies.{checked_policy, outcome};

use address::ipv4::Ipv4;
use address::kind::Address;
use cache::cache::Cache;
use fall_through::layer::FallThrough;
use filter::policy::Policy;
use filter::rule::Rule;
use kind48::mac::Mac48;
use std::test::Fail;
use table::interface::Table;

// An address of 32 bits.
pub fn ip(bits: u32) -> Ipv4
    ensures { result.bits ≡ bits }
{
    Ipv4::new(bits)
}

// An address of 48 bits.
pub fn mac(bits: u64) -> Result<Mac48, Fail>
    ensures { IfOk result (λ a. a.bits ≡ bits) }
{
    Mac48::new(bits).ok_or_else(|| Fail::new("more than 48 bits"))
}

// A policy of these rules, which have to be one; as in `join`, the error is a test's, where the programs have one of their own.
pub fn policy<A: Address>(rules: &[Rule<A::Prefix>]) -> Result<Policy<A>, Fail>
    ensures { IfOk result (λ p. checked_policy A.Address.pbits A.Address.WIDTH rules.now ≡ outcome (Ok p)) }
{
    Policy::new(rules).map_err(|_| Fail::new("the rules are a policy"))
}

// A fall-through from the one table to the other, which have to have few enough planes.
pub fn join<U: Table + Drop, L: Table<Addr = U::Addr> + Drop>(
    upper: U,
    lower: L,
) -> Result<FallThrough<U, L>, Fail>
    requires upper { U.Table.valid upper }
    requires lower { L.Table.valid lower }
    ensures parts { IfOk result (λ f. (f.upper ≡ upper) × (f.lower ≡ lower)) }
    ensures valid { IfOk result (λ f. U.Table.valid f.upper × L.Table.valid f.lower × (length (U.Table.planes f.upper ++ L.Table.planes f.lower) ≤ 8)) }
{
    FallThrough::new(upper, lower).map_err(|_| Fail::new("few enough planes"))
}

// The address in slot `i` of the cache, if there is one.
pub fn in_slot<T: Table>(cache: &Cache<T>, i: usize) -> Option<T::Addr>
    ensures { result ≡ option_map (λ e. e.address) (if nat_lt i cache.now.count then slice_index_or cache.now.slots i None else None) }
{
    cache.entry(i).map(|entry| entry.address)
}
