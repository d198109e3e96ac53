ghost use Rattle.std.specs.Prelude.{◌≡◌, ℕ, ◌<◌, ◌≤◌, true, false, ◌&&◌, length, take, None, nat_le, slice_index_or};
ghost use Rattle.bits.specs.Bits.{covers};
ghost use Rattle.bits.specs.Halves.{front};
ghost use Rattle.model.specs.Views.{matches, permits};
ghost use Rattle.filter.specs.Rules.{as_rule, entry_rule};
ghost use Rattle.filter.specs.Policies.{rules_in, ends, permitted};

use crate::entry::Entry;
use crate::rule::Rule;
use address::kind::Address;
use bits::front::Front;

// The rule as a policy keeps it.
pub(crate) fn keep<A: Address>(rule: Rule<A::Prefix>) -> Entry
    ensures { entry_rule result ≡ as_rule A.Address.pbits rule }
{
    Entry {
        action: rule.action,
        prefix: A::front(rule.prefix),
        ge: rule.ge,
        le: rule.le,
    }
}

// Whether the length is from `ge` to `le`.
fn in_range(ge: u8, le: u8, n: u8) -> bool
    ensures { result ≡ (nat_le ge n && nat_le n le) }
{
    (ge..=le).contains(&n)
}

// Whether the route is at or beneath the entry's prefix.
fn at_or_beneath(entry: Entry, route: Front) -> bool
    requires { route.len ≤ 128 }
    ensures { result ≡ covers (front entry.prefix.len entry.prefix.bits) (front route.len route.bits) }
{
    let prefix = entry.prefix.capped();
    prefix.len <= route.len && prefix.covers(route.bits)
}

// Whether the rule matches the route.
#[tactic(auto, using(bits::proofs::Fronts::front_length))]
fn matches_route(entry: Entry, route: Front) -> bool
    requires { route.len ≤ 128 }
    ensures { result ≡ matches (entry_rule entry) (front route.len route.bits) }
{
    at_or_beneath(entry, route) && in_range(entry.ge, entry.le, route.len)
}

// Whether the search for the first match ends at this place: it is empty, or its rule matches.
fn ends_search(place: Option<Entry>, route: Front) -> bool
    requires { route.len ≤ 128 }
    ensures { result ≡ ends place (front route.len route.bits) }
{
    place.is_none_or(|entry| matches_route(entry, route))
}

// Whether the place where the search ends permits the route: an empty one denies it.
fn permits_at(place: Option<Entry>) -> bool
    ensures { result ≡ permitted place }
{
    place.is_some_and(|entry| entry.action.allows())
}

// The first place where the search ends, or the number of places.
fn first_end(rules: &[Option<Entry>], route: Front) -> usize
    requires { route.len ≤ 128 }
    ensures within { result ≤ length rules.now }
    ensures before { (k : ℕ) → k < result → ends (slice_index_or rules.now k None) (front route.len route.bits) ≡ false }
    ensures here { result < length rules.now → ends (slice_index_or rules.now result None) (front route.len route.bits) ≡ true }
{
    // a rule of the project: the policy is a loop over its rules by index, left at the first match
    for i in 0..rules.len() {
        if ends_search(rules[i], route) {
            return i;
        }
    }
    rules.len()
}

// Whether the first rule that matches the route permits it; where none matches it is denied.
pub(crate) fn first_match(rules: &[Option<Entry>], route: Front) -> bool
    requires { route.len ≤ 128 }
    ensures { result ≡ permits (rules_in rules.now) (front route.len route.bits) }
{
    let i = first_end(rules, route);
    i < rules.len() && permits_at(rules[i])
}

// The address's prefix of `n` bits, as a route.
pub(crate) fn route_at<A: Address>(address: A, n: u8) -> Front
    requires { n ≤ A.Address.WIDTH }
    ensures bits { front result.len result.bits ≡ take n (A.Address.bits address) }
    ensures short { result.len ≤ 128 }
{
    Front {
        bits: address.to_halves(),
        len: n,
    }
}
