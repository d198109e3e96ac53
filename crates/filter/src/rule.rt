ghost use Rattle.std.specs.Prelude.{◌≡◌};
ghost use Rattle.filter.specs.Rules.{allowed, as_rule, well_formed};

use address::kind::Address;

// What a rule does with the routes that it matches.
#[derive(Clone, Copy, PartialEq, Eq, Debug)]
pub enum Action {
    Permit,
    Deny,
}

impl Action {
    // Whether matched routes stay visible.
    pub fn allows(self) -> bool
        ensures { result ≡ allowed self }
    {
        match self {
            Action::Permit => true,
            Action::Deny => false,
        }
    }
}

// A rule: it matches the routes at or beneath the prefix whose length is from `ge` to `le`.
#[derive(Clone, Copy)]
pub struct Rule<P> {
    pub action: Action,
    pub prefix: P,
    pub ge: u8,
    pub le: u8,
}

// Whether the rule keeps prefix length ≤ ge ≤ le ≤ width.
pub fn is_well_formed<A: Address>(rule: Rule<A::Prefix>) -> bool
    ensures { result ≡ well_formed A.Address.WIDTH (as_rule A.Address.pbits rule) }
{
    A::len(rule.prefix) <= rule.ge && rule.ge <= rule.le && rule.le <= A::WIDTH
}
