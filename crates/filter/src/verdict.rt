ghost use Rattle.std.specs.Prelude.{◌≡◌, nat_lt};
ghost use Rattle.filter.specs.Policies.{rules_in};
ghost use Rattle.filter.specs.Verdicts.{NoLonger, verdict};

use crate::entry::Entry;
use crate::matching::{first_match, route_at};
use address::kind::Address;
use std::ops::ControlFlow;

// What an answer from below comes to: a permitted route stands, and a denied one has the next question just below it.
pub(crate) fn judge<A: Address>(
    rules: &[Option<Entry>],
    address: A,
    found: Option<(u8, A)>,
) -> ControlFlow<Option<(u8, A)>, u8>
    requires { NoLonger A.Address.WIDTH found }
    ensures { result ≡ verdict (rules_in rules.now) (A.Address.bits address) found }
{
    let Some(route) = found else {
        return ControlFlow::Break(None);
    };
    if first_match(rules, route_at(address, route.0)) {
        ControlFlow::Break(Some(route))
    } else if route.0 == 0 {
        ControlFlow::Break(None)
    } else {
        ControlFlow::Continue(route.0 - 1)
    }
}

// Whether the bound is longer than the addresses.
pub(crate) fn too_long<A: Address>(bound: u8) -> bool
    ensures { result ≡ nat_lt A.Address.WIDTH bound }
{
    bound > A::WIDTH
}
