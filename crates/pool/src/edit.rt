ghost use Rattle.std.specs.Prelude.{◌≡◌, ◌+◌, ◌<◌, ◌≤◌, length, Some, None, ◌≢◌, slice_set};
ghost use Rattle.trie.specs.Nodes.{at, key as prefix_of, node_bit, with_hop, unlinked as fresh};
ghost use Rattle.trie.specs.Trie.{Compressed, Leaf};
ghost use Rattle.trie.specs.Changes.{with_leaf, with_split, Announced, Withdrawn};
ghost use Rattle.pool.specs.Plans.{Suits, wanted};

use crate::plan::{Plan, decide};
use crate::release::release;
use bits::front::Front;
use bits::halves::Halves;
use trie::links::{linked, unlinked};
use trie::node::Node;
use trie::search::{End, locate};

// Puts a new leaf into slot `used` and links it from `slot` on that side.
fn link(ns: &mut [Node], used: usize, slot: usize, side: bool, leaf: Node)
    requires within { used < length ns.old }
    requires few { used < 65535 }
    requires slot { slot < used }
    ensures { ns.new ≡ with_leaf ns.old used slot side leaf }
{
    let node = ns[slot];
    ns[used] = leaf;
    ns[slot] = linked(node, side, Some(used as u16));
}

// Splits the edge that leads to `slot`: the upper node takes the slot, and what was there goes into slot `used`, on that side of it.
fn split(ns: &mut [Node], used: usize, slot: usize, side: bool, upper: Node)
    requires within { used < length ns.old }
    requires few { used < 65535 }
    requires slot { slot < used }
    ensures { ns.new ≡ with_split ns.old used slot side upper }
{
    ns[used] = ns[slot];
    ns[slot] = linked(upper, side, Some(used as u16));
}

// Gives the node in the slot another hop, or none.
fn set_hop(ns: &mut [Node], slot: usize, hop: Option<Halves>)
    requires { slot < length ns.old }
    ensures { ns.new ≡ slice_set ns.old slot (with_hop (at ns.old slot) hop) }
{
    ns[slot].hop = hop;
}

// Takes the route of the slot away.
fn clear(ns: &mut [Node], slot: usize)
    requires { slot < length ns.old }
    ensures { ns.new ≡ slice_set ns.old slot (with_hop (at ns.old slot) None) }
{
    set_hop(ns, slot, None);
}

// The branch where prefixes part that begin with these bits.
fn branch(prefix: Front) -> Node
    ensures { result ≡ fresh prefix None }
{
    unlinked(prefix, None)
}

// Puts a branch above the node where the search ended, and the leaf beneath its other side.
fn fork(ns: &mut [Node], used: usize, end: End, leaf: Node)
    requires within { used + 1 < length ns.old }
    requires few { used + 1 < 65535 }
    requires slot { end.slot < used }
    requires bit { end.shared < 128 }
    ensures { ns.new ≡ with_leaf (with_split ns.old used end.slot (node_bit (at ns.old end.slot) end.shared) (fresh (record { bits = leaf.prefix.bits; len = end.shared }) None)) (used + 1) end.slot (node_bit leaf end.shared) leaf }
{
    let bits = leaf.prefix.bits;
    let side = ns[end.slot].prefix.bits.bit_at(end.shared);
    let parting = Front {
        bits,
        len: end.shared,
    };
    split(ns, used, end.slot, side, branch(parting));
    let other = bits.bit_at(end.shared);
    link(ns, used + 1, end.slot, other, leaf);
}

// Puts the route of `key` to the hop in by the plan. How many nodes are then in use.
fn put(ns: &mut [Node], used: usize, room: usize, key: Node, hop: Halves, plan: Plan) -> usize
    requires trie { Compressed ns.old used }
    requires within { room ≤ length ns.old }
    requires few { room ≤ 65535 }
    requires short { key.prefix.len ≤ 128 }
    requires leaf { Leaf key }
    requires some { key.hop ≡ Some hop }
    requires suits { Suits ns.old used key plan }
    requires fits { used + wanted plan ≤ room }
    ensures { Announced ns.old used room (prefix_of key) hop ns.new (Some result) }
{
    match plan {
        Plan::Root => {
            ns[0] = key;
            1
        }
        Plan::Set(end) => {
            set_hop(ns, end.slot, key.hop);
            used
        }
        Plan::Leaf(end) => {
            let side = key.prefix.bits.bit_at(end.shared);
            link(ns, used, end.slot, side, key);
            used + 1
        }
        Plan::Middle(end) => {
            let side = ns[end.slot].prefix.bits.bit_at(end.shared);
            split(ns, used, end.slot, side, key);
            used + 1
        }
        Plan::Fork(end) => {
            fork(ns, used, end, key);
            used + 2
        }
    }
}

// Puts the route of `key` to the hop into the first `used` of `room` nodes. How many are then in use, or none where there is no room.
pub fn insert(ns: &mut [Node], used: usize, room: usize, key: Node, hop: Halves) -> Option<usize>
    requires trie { Compressed ns.old used }
    requires fits { used ≤ room }
    requires within { room ≤ length ns.old }
    requires few { room ≤ 65535 }
    requires short { key.prefix.len ≤ 128 }
    requires leaf { Leaf key }
    requires some { key.hop ≡ Some hop }
    ensures { Announced ns.old used room (prefix_of key) hop ns.new result }
{
    let plan = decide(ns, used, room, &key, hop)?; // no room: nothing is written
    Some(put(ns, used, room, key, hop, plan))
}

// Takes the route of `key`, which is in that slot, out. How many nodes are then in use.
fn take(ns: &mut [Node], used: usize, key: &Node, slot: usize) -> usize
    requires trie { Compressed ns.old used }
    requires slot { slot < used }
    requires same { prefix_of (at ns.old slot) ≡ prefix_of key.now }
    requires routed { (at ns.old slot).hop ≢ None }
    ensures { Withdrawn ns.old used (prefix_of key.now) ns.new (Some result) }
{
    clear(ns, slot);
    release(ns, used, slot)
}

// Takes the route of `key` out. How many nodes are then in use, or none where it is not held.
pub fn remove(ns: &mut [Node], used: usize, key: &Node) -> Option<usize>
    requires trie { Compressed ns.old used }
    requires short { key.now.prefix.len ≤ 128 }
    ensures { Withdrawn ns.old used (prefix_of key.now) ns.new result }
{
    let slot = locate(&ns[..used], key)?; // not held: nothing is written
    Some(take(ns, used, key, slot))
}
