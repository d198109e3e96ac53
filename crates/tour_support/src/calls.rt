use crate::samples::Samples;
use address::kind::Address;
use table::calls::Call;

// Calls on a table of three rows: two routes, one beneath the other, and lookups at several bounds; then what a full table takes and
// refuses, and what it takes after a withdrawal.
pub fn on_three_rows<A, P>(at: Samples<A, P>) -> [Call<A, P>; 20]
where
    A: Address<Prefix = P>,
    P: Copy,
{
    let width = A::WIDTH;
    [
        Call::lookup(at.inside, width),
        Call::announce(0, at.wide, at.first),
        Call::announce(0, at.narrow, at.second),
        Call::lookup(at.inside, width),
        Call::lookup(at.inside, A::len(at.narrow).saturating_sub(1)),
        Call::lookup(at.inside, 0),
        Call::announce(0, at.all, at.first),
        Call::lookup(at.inside, 0),
        Call::lookup(at.inside, width.saturating_add(1)),
        Call::lookup(at.outside, width),
        Call::announce(0, at.host, at.second),
        Call::announce(0, at.narrow, at.first),
        Call::fetch(0, at.narrow),
        Call::fetch(0, at.host),
        Call::announce(1, at.host, at.second),
        Call::withdraw(0, at.host),
        Call::withdraw(0, at.wide),
        Call::announce(0, at.host, at.second),
        Call::lookup(at.inside, width),
        Call::fetch(0, at.wide),
    ]
}

// Calls on a stack of two planes: the same prefix on both, lookups that are cached, and a withdrawal that empties a slot.
pub fn on_two_planes<A, P>(at: Samples<A, P>) -> [Call<A, P>; 14]
where
    A: Address<Prefix = P>,
    P: Copy,
{
    let width = A::WIDTH;
    [
        Call::announce(0, at.wide, at.first),
        Call::announce(0, at.narrow, at.second),
        Call::announce(1, at.narrow, at.second),
        Call::announce(1, at.all, at.second),
        Call::lookup(at.inside, width),
        Call::lookup(at.inside, width),
        Call::lookup(at.outside, width),
        Call::lookup(at.inside, 4),
        Call::withdraw(1, at.wide),
        Call::withdraw(0, at.wide),
        Call::lookup(at.inside, width),
        Call::fetch(0, at.narrow),
        Call::announce(2, at.host, at.first),
        Call::lookup(at.inside, width.saturating_add(1)),
    ]
}
