ghost use Rattle.std.specs.Prelude.{◌≡◌, ◌≤◌, map, not, position, length, option_map, slice_get};
ghost use Rattle.filter.specs.Rules.{as_rule, entry_rule, well_formed};
ghost use Rattle.filter.specs.Policies.{rules_in, refusal, outcome, checked_policy};

use crate::entry::Entry;
use crate::matching::keep;
use crate::rule::{Rule, is_well_formed};
use address::kind::Address;
use std::array;
use std::marker::PhantomData;

// A policy has at most so many rules.
const MOST_RULES: usize = 64;

// Why a list of rules is no policy.
#[derive(Clone, Copy, PartialEq, Eq, Debug)]
pub enum PolicyRefusal {
    // more than 64 rules
    TooManyRules,
    // the first rule, counted from 0, that breaks prefix length ≤ ge ≤ le ≤ width
    BadRule { index: usize },
}

impl PolicyRefusal {
    // The number under which the refusal is reported.
    // A method and no `From`: it is a fact about the refusal, which the refusal does not turn into.
    pub fn number(self) -> u8
        ensures { result ≡ (refusal self).0 }
    {
        match self {
            PolicyRefusal::TooManyRules => 16,
            PolicyRefusal::BadRule { index: _ } => 17,
        }
    }
}

// A policy: its rules in order, up to the first empty place.
// A rule of the project: no heap, so the rules stand in an array of the policy's own.
#[derive(Drop)]
pub struct Policy<A: Address> {
    pub(crate) rules: [Option<Entry>; MOST_RULES],
    kind: PhantomData<A>,
}

// The place of the first rule that is not well-formed, if there is one.
fn first_bad_rule<A: Address>(rules: &[Rule<A::Prefix>]) -> Option<usize>
    ensures { result ≡ position (λ rule. not (well_formed A.Address.WIDTH (as_rule A.Address.pbits rule))) rules.now }
{
    rules.iter().position(|rule| !is_well_formed::<A>(*rule))
}

// The rule at a place as a policy keeps it, if there is one.
fn kept_at<A: Address>(rules: &[Rule<A::Prefix>], place: usize) -> Option<Entry>
    ensures { option_map entry_rule result ≡ option_map (as_rule A.Address.pbits) (slice_get rules.now place) }
{
    rules.get(place).map(|rule| keep::<A>(*rule))
}

// Puts the rules into places of their own, in their order.
fn placed<A: Address>(rules: &[Rule<A::Prefix>]) -> [Option<Entry>; MOST_RULES]
    requires { length rules.now ≤ 64 }
    ensures { rules_in result ≡ map (as_rule A.Address.pbits) rules.now }
{
    array::from_fn(|place| kept_at::<A>(rules, place))
}

impl<A: Address> Policy<A> {
    // The policy of these rules, if there are at most 64 and each is well-formed.
    #[tactic(auto, using(crate::proofs::Places::first_bad_at))]
    pub fn new(rules: &[Rule<A::Prefix>]) -> Result<Policy<A>, PolicyRefusal>
        ensures { outcome result ≡ checked_policy A.Address.pbits A.Address.WIDTH rules.now }
    {
        if rules.len() > MOST_RULES {
            return Err(PolicyRefusal::TooManyRules);
        }
        if let Some(index) = first_bad_rule::<A>(rules) {
            return Err(PolicyRefusal::BadRule { index });
        }
        Ok(Policy {
            rules: placed::<A>(rules),
            kind: PhantomData,
        })
    }
}
